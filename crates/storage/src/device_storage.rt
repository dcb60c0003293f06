//! A device as a storage that tells its history.

ghost use Rattle.std.specs.Prelude.{◌≡◌};

use crate::storage::Storage;
use leaf_ledger::{Device, DeviceError};
use std::marker::Model;

/// A device as a storage. It tells what the device holds and held.
#[derive(Drop)]
pub struct DeviceStorage<D: Device> {
    device: D,
}

impl<D: Device> Model for DeviceStorage<D> {
    ghost Value = { D };

    ghost view = { λ s. s.device };
}

impl<D: Device> DeviceStorage<D> {
    /// The storage over a device.
    pub fn new(device: D) -> DeviceStorage<D>
        ensures { result ≡ device }
    {
        DeviceStorage { device }
    }

    /// The device, to be looked at.
    pub fn device(&self) -> &D
        ensures { result.now ≡ self.now }
    {
        &self.device
    }

    /// Hands the device back.
    pub fn close(self) -> D
        ensures { result ≡ self }
    {
        let DeviceStorage { device } = self;
        device
    }
}

impl<D: Device> Storage for DeviceStorage<D> {
    ghost use Rattle.std.specs.Prelude.{true};

    ghost tells = { true };

    ghost history = { λ s. D.history s };

    ghost fault_count = { λ s. D.fault_count s };

    fn faults(&self) -> u64 {
        self.device.faults()
    }

    fn len(&mut self) -> Result<usize, DeviceError> {
        self.device.len()
    }

    fn read(&mut self, at: usize, out: &mut [u8]) -> Result<(), DeviceError> {
        self.device.read(at, out)
    }

    fn write_at(&mut self, at: usize, bytes: &[u8]) -> Result<(), DeviceError> {
        self.device.write_at(at, bytes)
    }

    fn sync(&mut self) -> Result<(), DeviceError> {
        self.device.sync()
    }
}
