//! Devices in memory whose calls can be made to fail while a client holds them.

ghost use Rattle.std.specs.Prelude.{◌≡◌, [], false, true, IfOk, OnOk};
ghost use Rattle.leaf_ledger.specs.Device.{MayLeave, started};

use client_verify::Client;
use layout::{Memory, put_in};
use leaf_ledger::{Device, DeviceError, MemoryDevice};
use std::alloc::Allocator;
use std::cell::Cell;
use std::marker::Model;
use std::rc::Rc;

/// How many calls go well before the one that fails, if one is to fail: of all devices that share the order.
pub(crate) type Order<A> = Rc<Cell<Option<u64>>, A>;

/// A device in memory, which counts each call for its order.
#[derive(Drop)]
pub(crate) struct ArmedDevice<A: Allocator + Copy> {
    device: MemoryDevice<A>,
    order: Order<A>,
}

/// A client over two such devices.
pub(crate) type MemoryClient<A> = Client<ArmedDevice<A>, ArmedDevice<A>, A>;

impl<A: Allocator + Copy> Model for ArmedDevice<A> {
    ghost use Rattle.client_steps.specs.Steps.{Device as DeviceState};

    ghost Value = { DeviceState };

    ghost view = { λ d. record { history = d.device.history; faults = d.device.faults } };
}

impl<A: Allocator + Copy> ArmedDevice<A> {
    /// A device on which nothing stands.
    pub(crate) fn empty(alloc: A, order: Order<A>) -> Result<ArmedDevice<A>, Memory>
        ensures { IfOk result (λ device. device ≡ record { history = started []; faults = 0 }) }
    {
        let device = MemoryDevice::new(alloc, Vec::new(alloc))?;
        Ok(ArmedDevice { device, order })
    }

    /// Counts a call, which fails where it is due.
    fn obey(&mut self)
        ensures { self.new ≡ self.old }
    {
        match self.order.get() {
            None => {}
            Some(0) => {
                self.order.set(None);
                self.device.fail_after(0);
            }
            Some(calls) => self.order.set(Some(calls - 1)),
        }
    }

    /// Whether a crash now may leave these bytes.
    pub(crate) fn may_leave(&self, left: &[u8]) -> bool
        ensures yes { result ≡ true → MayLeave self.now.history.now left.now }
        ensures no { result ≡ false → MayLeave self.now.history.now left.now → ⊥ }
    {
        self.device.may_leave(left)
    }

    /// The device begins anew with these bytes, as after a crash that left them.
    pub(crate) fn start_over(&mut self, alloc: A, left: &[u8]) -> Result<(), Memory>
        ensures { OnOk result (self.new.history ≡ started left.now) }
    {
        let text = Vec::from_slice(alloc, left)?;
        put_in(&mut self.device, MemoryDevice::new(alloc, text)?);
        Ok(())
    }
}

impl<A: Allocator + Copy> Device for ArmedDevice<A> {
    ghost history = { λ d. d.history };

    ghost fault_count = { λ d. d.faults };

    fn faults(&self) -> u64 {
        self.device.faults()
    }

    fn len(&mut self) -> Result<usize, DeviceError> {
        self.obey();
        self.device.len()
    }

    fn read(&mut self, at: usize, out: &mut [u8]) -> Result<(), DeviceError> {
        self.obey();
        self.device.read(at, out)
    }

    fn write_at(&mut self, at: usize, bytes: &[u8]) -> Result<(), DeviceError> {
        self.obey();
        self.device.write_at(at, bytes)
    }

    fn sync(&mut self) -> Result<(), DeviceError> {
        self.obey();
        self.device.sync()
    }
}
