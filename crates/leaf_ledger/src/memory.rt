//! A device in memory: a call of it can be made to fail, and a crash leaves what is chosen among what it may leave.

ghost use Rattle.std.specs.Prelude.{◌≡◌, Some, None, true, false, IfOk, IfErr};
ghost use Rattle.leaf_ledger.specs.Device.{started, MayLeave};
ghost use Rattle.leaf_ledger.specs.Recording.{fails_next, one_call_less};
ghost use Rattle.leaf_ledger.specs.declared.memory.CrashError.TheVariants as crash_error;

use crate::device::{Device, DeviceError};
use crate::extent::Extent;
use crate::fault::{END, fault};
use crate::recording::Recording;
use layout::Memory;
use std::alloc::Allocator;
use std::marker::Model;
use thiserror::Error;

/// Why a device didn't crash.
#[derive(Clone, Copy, Debug, PartialEq, Eq, Error)]
pub enum CrashError {
    /// No crash leaves this text.
    #[error("no crash leaves this")]
    Impossible,
    /// Memory ran out.
    #[error("out of memory")]
    Memory,
}

/// A device in memory. It keeps each call, so that each moment that it had can be told again.
#[derive(Drop)]
pub struct MemoryDevice<A: Allocator> {
    alloc: A,
    recording: Recording<A>,
    faults: u64,
    // How many calls go well before the one that fails, if one will.
    calls_left: Option<u64>,
}

impl<A: Allocator> Model for MemoryDevice<A> {
    ghost use Rattle.leaf_ledger.specs.Recording.{MemoryState};

    ghost Value = { MemoryState };

    ghost view = { λ m. record { history = m.recording; faults = m.faults; calls_left = m.calls_left } };
}

impl<A: Allocator + Copy> MemoryDevice<A> {
    /// A device that holds a text.
    pub fn new(alloc: A, text: Vec<u8, A>) -> Result<MemoryDevice<A>, Memory>
        ensures { IfOk result (λ device. device
            ≡ record { history = started text.items; faults = 0; calls_left = None }) }
    {
        Ok(MemoryDevice {
            alloc,
            recording: Recording::new(alloc, text)?,
            faults: 0,
            calls_left: None,
        })
    }

    /// Lets the call fail that comes after so many.
    pub fn fail_after(&mut self, calls: u64)
        ensures { self.new ≡ record self.old { calls_left = Some calls } }
    {
        self.calls_left = Some(calls);
    }

    /// What a read gives.
    pub fn text(&self) -> &[u8]
        ensures { result.now ≡ self.now.history.now.text }
    {
        self.recording.text()
    }

    /// What stood there at the last sync that succeeded.
    pub fn synced_text(&self) -> &[u8]
        ensures { result.now ≡ self.now.history.now.synced_text }
    {
        self.recording.synced_text()
    }

    /// What was written since the last sync that succeeded, the first of it first.
    pub fn unsynced(&self) -> &[Extent]
        ensures { result.now ≡ self.now.history.now.unsynced }
    {
        self.recording.unsynced()
    }

    /// Whether a crash now may leave a text.
    pub fn may_leave(&self, left: &[u8]) -> bool
        ensures yes { result ≡ true → MayLeave self.now.history.now left.now }
        ensures no { result ≡ false → MayLeave self.now.history.now left.now → ⊥ }
    {
        self.recording.may_leave(left)
    }

    /// The device after a crash that left this text.
    pub fn crash(self, left: Vec<u8, A>) -> Result<MemoryDevice<A>, (CrashError, MemoryDevice<A>)>
        ensures may { IfOk result (λ _. MayLeave self.history.now left.items) }
        ensures left { IfOk result (λ device. device
            ≡ record { history = started left.items; faults = self.faults; calls_left = None }) }
        ensures impossible { IfErr result (λ e. e.0 ≡ crash_error.Impossible
            → MayLeave self.history.now left.items → ⊥) }
        ensures same { IfErr result (λ e. e.1 ≡ self) }
    {
        if !self.recording.may_leave(&left) {
            return Err((CrashError::Impossible, self));
        }
        match Recording::new(self.alloc, left) {
            Ok(recording) => Ok(MemoryDevice {
                alloc: self.alloc,
                recording,
                faults: self.faults,
                calls_left: None,
            }),
            Err(_) => Err((CrashError::Memory, self)),
        }
    }
}

/// Counts a call, and tells whether it fails.
fn is_due(calls_left: &mut Option<u64>) -> bool
    ensures counted { calls_left.new ≡ one_call_less calls_left.old }
    ensures due { result ≡ fails_next calls_left.old }
{
    match *calls_left {
        None => false,
        Some(0) => {
            *calls_left = None;
            true
        }
        Some(calls) => {
            *calls_left = Some(calls - 1);
            false
        }
    }
}

/// Each call does what the trait says, and is counted: the one that is to fail fails. Else a length fails only where a
/// device can't tell it, and a read never.
impl<A: Allocator + Copy> Device for MemoryDevice<A> {
    ghost use Rattle.std.specs.Prelude.{◌≡◌, ◌+◌, ◌<◌, ◌≤◌, length, take, drop, true, false, IfOk, OnOk, OnErr, IsErr};
    ghost use Rattle.leaf_ledger.specs.Device.{end_of_files, wrote_bytes, WroteSome, synced, HasCause};
    ghost use Rattle.leaf_ledger.specs.Recording.{fails_next, one_call_less};

    ghost history = { λ m. m.history };

    ghost fault_count = { λ m. m.faults };

    fn faults(&self) -> u64 {
        self.faults
    }

    fn len(&mut self) -> Result<usize, DeviceError>
        ensures size { IfOk result (λ size. size ≡ length self.old.history.now.text) }
        ensures bounded { IfOk result (λ size. size < end_of_files) }
        ensures same { self.new.history ≡ self.old.history }
        ensures cause { HasCause self.old.faults self.new.faults result }
        ensures counted { self.new.calls_left ≡ one_call_less self.old.calls_left }
        ensures due { fails_next self.old.calls_left ≡ true → IsErr result }
        ensures well { fails_next self.old.calls_left ≡ false → IsErr result
            → end_of_files ≤ length self.old.history.now.text }
    {
        let size = self.recording.text().len();
        if is_due(&mut self.calls_left) || size >= END {
            return Err(fault(&mut self.faults));
        }
        Ok(size)
    }

    fn read(&mut self, at: usize, out: &mut [u8]) -> Result<(), DeviceError>
        requires { at + length out.old ≤ length self.old.history.now.text }
        ensures bytes { OnOk result (out.new ≡ take (length out.old) (drop at self.old.history.now.text)) }
        ensures same { self.new.history ≡ self.old.history }
        ensures cause { HasCause self.old.faults self.new.faults result }
        ensures counted { self.new.calls_left ≡ one_call_less self.old.calls_left }
        ensures due { fails_next self.old.calls_left ≡ true → IsErr result }
        ensures well { fails_next self.old.calls_left ≡ false → IsErr result → ⊥ }
    {
        if is_due(&mut self.calls_left) {
            return Err(fault(&mut self.faults));
        }
        let size = out.len();
        out.copy_from_slice(&self.recording.text()[at..at + size]);
        Ok(())
    }

    /// A write that fails does half of its bytes.
    fn write_at(&mut self, at: usize, bytes: &[u8]) -> Result<(), DeviceError>
        requires { at ≤ length self.old.history.now.text }
        ensures ok { OnOk result (self.new.history ≡ wrote_bytes at bytes.now self.old.history) }
        ensures bounded { OnOk result (at + length bytes.now < end_of_files) }
        ensures err { OnErr result (WroteSome at (length bytes.now) self.old.history self.new.history) }
        ensures cause { HasCause self.old.faults self.new.faults result }
        ensures counted { self.new.calls_left ≡ one_call_less self.old.calls_left }
        ensures due { fails_next self.old.calls_left ≡ true → IsErr result }
    {
        let size = bytes.len();
        if is_due(&mut self.calls_left) {
            let _ = self.recording.write(at, &bytes[..size / 2], size);
            return Err(fault(&mut self.faults));
        }
        if at >= END || size >= END - at {
            return Err(fault(&mut self.faults));
        }
        match self.recording.write(at, bytes, size) {
            Ok(()) => Ok(()),
            Err(_) => Err(fault(&mut self.faults)),
        }
    }

    fn sync(&mut self) -> Result<(), DeviceError>
        ensures ok { OnOk result (self.new.history ≡ synced self.old.history) }
        ensures err { OnErr result (self.new.history ≡ self.old.history) }
        ensures cause { HasCause self.old.faults self.new.faults result }
        ensures counted { self.new.calls_left ≡ one_call_less self.old.calls_left }
        ensures due { fails_next self.old.calls_left ≡ true → IsErr result }
    {
        if is_due(&mut self.calls_left) {
            return Err(fault(&mut self.faults));
        }
        match self.recording.sync() {
            Ok(()) => Ok(()),
            Err(_) => Err(fault(&mut self.faults)),
        }
    }
}
