//! How the program ends.

use std::sync::{Condvar, Mutex, Wait};

/// The status with which the program ends, told by whoever knows it first.
#[derive(Drop)]
pub(crate) struct Halt {
    status: Mutex<Option<u8>>,
    told: Condvar,
}

impl Halt {
    /// It isn't known yet.
    pub(crate) fn new() -> Halt {
        Halt {
            status: Mutex::new(None),
            told: Condvar::new(),
        }
    }

    /// Puts a status where none is.
    fn put<R: Wait>(&self, rt: &R, status: u8) {
        let mut known = self.status.lock(rt);
        if known.is_none() {
            *known = Some(status);
        }
    }

    /// The program ends with this status, unless another was told before.
    pub(crate) fn tell<R: Wait>(&self, rt: &R, status: u8) {
        self.put(rt, status);
        self.told.notify_all();
    }

    /// Waits until a status was told.
    pub(crate) fn wait<R: Wait>(&self, rt: &R) -> u8 {
        let known = self
            .told
            .wait_while(rt, self.status.lock(rt), |known| known.is_none());
        known.unwrap_or(1)
    }
}
