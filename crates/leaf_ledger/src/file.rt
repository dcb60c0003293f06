//! A device over a file of the system.
//!
//! Beside the file it keeps in memory what the file has to hold: a read that gives something else is a fault. The history
//! takes no memory, since only contracts see it. So all that a device promises is proved of what is kept. That a crash
//! leaves of the file what it may leave of what is kept, and that nobody else writes to the file, can't be proved: who
//! opens a device vouches for it.

ghost use Rattle.std.specs.Prelude.{◌≡◌, IfOk};
ghost use Rattle.leaf_ledger.specs.Device.{started};

use crate::device::{Device, DeviceError};
use crate::fault::{END, fault};
use crate::followed::Followed;
use layout::{Memory, beside};
use std::alloc::Allocator;
use std::fs::{File, OpenOptions};
use std::io::{self, Read};
use std::marker::Model;
use std::os::unix::fs::FileExt;

/// Room past the end that there is from the start on: a new ledger or journal fits in.
const ROOM: usize = 4096;

/// A device over a file of the system, which nobody else may write to.
///
/// After a write that failed the file may hold another part of it than what is kept: each call that meets the
/// difference is a fault, until the file is opened anew.
#[derive(Drop)]
pub struct FileDevice<A: Allocator> {
    file: File,
    kept: Followed<A>,
    faults: u64,
}

impl<A: Allocator> Model for FileDevice<A> {
    ghost use Rattle.leaf_ledger.specs.Recording.{FileState};

    ghost Value = { FileState };

    ghost view = { λ f. record { history = f.kept; faults = f.faults } };
}

/// The bytes of a file, once it and its folder are synced.
fn synced_bytes<A: Allocator + Copy>(
    rt: &HostRuntime,
    alloc: A,
    folder: &str,
    file: &mut File,
) -> io::Result<Vec<u8, A>> {
    file.sync_all()?;
    File::open(rt, folder)?.sync_all()?;
    let mut text = Vec::new(alloc);
    file.read_to_end(&mut text)?;
    Ok(text)
}

impl<A: Allocator + Copy> FileDevice<A> {
    /// The device over the file at a path in a folder, which is made where there is none. File and folder are synced
    /// first, so that what the file holds stays, and that it is there.
    pub fn open(rt: &HostRuntime, alloc: A, folder: &str, path: &str) -> io::Result<FileDevice<A>>
        ensures history { IfOk result (λ device. device.history ≡ started device.history.now.text) }
        ensures faults { IfOk result (λ device. device.faults ≡ 0) }
    {
        let mut file = OpenOptions::new()
            .read(true)
            .write(true)
            .create(true)
            .open(rt, path)?;
        let read = synced_bytes(rt, alloc, folder, &mut file);
        let (file, text) = beside(file, read)?;
        match FileDevice::over(file, text) {
            Ok(device) => Ok(device),
            Err(_) => Err(io::ErrorKind::OutOfMemory.into()),
        }
    }

    /// The device over a file that is open for reads and writes. The caller vouches that it holds this text, synced.
    pub fn over(file: File, text: Vec<u8, A>) -> Result<FileDevice<A>, Memory>
        ensures history { IfOk result (λ device. device.history ≡ started text.items) }
        ensures faults { IfOk result (λ device. device.faults ≡ 0) }
    {
        let kept = Followed::new(text, ROOM);
        let (file, kept) = beside(file, kept)?;
        Ok(FileDevice {
            file,
            kept,
            faults: 0,
        })
    }
}

impl<A: Allocator> FileDevice<A> {
    /// What the file has to hold.
    pub fn text(&self) -> &[u8]
        ensures { result.now ≡ self.now.history.now.text }
    {
        self.kept.text()
    }
}

/// Whether a file has as many bytes.
fn has_size(file: &File, size: usize) -> bool {
    file.metadata()
        .is_ok_and(|found| found.len() == size as u64)
}

impl<A: Allocator + Copy> Device for FileDevice<A> {
    ghost history = { λ f. f.history };

    ghost fault_count = { λ f. f.faults };

    fn faults(&self) -> u64 {
        self.faults
    }

    fn len(&mut self) -> Result<usize, DeviceError> {
        let size = self.kept.text().len();
        if size >= END || !has_size(&self.file, size) {
            return Err(fault(&mut self.faults));
        }
        Ok(size)
    }

    fn read(&mut self, at: usize, out: &mut [u8]) -> Result<(), DeviceError> {
        let kept = &self.kept.text()[at..at + out.len()];
        if self.file.read_exact_at(out, at as u64).is_err() || *out != *kept {
            return Err(fault(&mut self.faults));
        }
        Ok(())
    }

    fn reserve(&mut self, more: usize) -> Result<(), Memory> {
        self.kept.reserve(more)?;
        Ok(())
    }

    fn write_at(&mut self, at: usize, bytes: &[u8]) -> Result<(), DeviceError> {
        if at >= END || bytes.len() >= END - at || self.kept.write(at, bytes).is_err() {
            return Err(fault(&mut self.faults));
        }
        if self.file.write_all_at(bytes, at as u64).is_err() {
            return Err(fault(&mut self.faults));
        }
        Ok(())
    }

    fn sync(&mut self) -> Result<(), DeviceError> {
        if self.file.sync_all().is_err() || self.kept.sync().is_err() {
            return Err(fault(&mut self.faults));
        }
        Ok(())
    }
}
