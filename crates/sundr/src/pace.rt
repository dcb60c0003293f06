//! The time that a command has.

use std::cell::Cell;
use std::time::{Duration, Instant};

/// How long a command may take beside what its bytes take, in seconds.
const PATIENCE: u64 = 120;

/// For how long a read or a write waits for the server at most, in seconds.
const SILENCE: u64 = 60;

/// How many bytes give a command a second more.
const BYTES_A_SECOND: u64 = 16_384;

/// For how long a read or a write waits for the server at most.
pub(crate) fn silence() -> Duration {
    Duration::from_secs(SILENCE)
}

/// The time that a command has: two minutes, and a second more for each 16 KB that went to the server or came from it.
/// Where the clock can't be read, it has any.
#[derive(Drop)]
pub(crate) struct Pace<'a> {
    rt: &'a HostRuntime,
    begun: Cell<Option<Instant>>,
    carried: Cell<u64>,
}

impl<'a> Pace<'a> {
    /// That of a command that begins now.
    pub(crate) fn new(rt: &'a HostRuntime) -> Pace<'a> {
        Pace {
            rt,
            begun: Cell::new(Instant::now(rt).ok()),
            carried: Cell::new(0),
        }
    }

    /// Another command begins now.
    pub(crate) fn begin(&self) {
        self.begun.set(Instant::now(self.rt).ok());
        self.carried.set(0);
    }

    /// So many bytes went to the server, or came from it.
    pub(crate) fn carry(&self, count: usize) {
        self.carried
            .set(self.carried.get().saturating_add(count as u64));
    }

    /// For how long a read or a write may wait now, if the command's time isn't over.
    pub(crate) fn wait(&self) -> Option<Duration> {
        let gone = match self.begun.get() {
            Some(begun) => begun.elapsed(self.rt).unwrap_or(Duration::ZERO),
            None => Duration::ZERO,
        };
        let seconds = PATIENCE.saturating_add(self.carried.get() / BYTES_A_SECOND);
        match Duration::from_secs(seconds).checked_sub(gone) {
            Some(left) if !left.is_zero() => Some(left.min(silence())),
            _ => None,
        }
    }
}
