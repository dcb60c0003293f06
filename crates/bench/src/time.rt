//! Times, and what they are compared with.

ghost use Rattle.std.specs.Prelude.{◌<◌, length};

use sha2::{Digest as _, Sha256};
use std::io;
use std::rt::Clock;
use std::time::Duration;

/// How many blocks are compressed to time one.
const BLOCKS: u32 = 1 << 18;

/// How many pieces of work a round has.
pub(crate) const PIECES: usize = 3;

/// What is taken of the system.
pub(crate) trait Host: AllocGlobal + Clock + Print {}

impl<R: AllocGlobal + Clock + Print> Host for R {}

/// How long each piece of work of a round took, and how many compressions of SHA-256 it needs.
pub(crate) type Round = [(Duration, u32); PIECES];

/// Before anything is timed.
pub(crate) const NOTHING: Round = [(Duration::ZERO, 0); PIECES];

/// The seconds of a piece of work, the compressions that it needs, and the seconds of one compression in the same
/// round.
#[derive(Clone, Copy)]
pub(crate) struct Time {
    seconds: f64,
    compressions: f64,
    unit: f64,
}

impl Time {
    /// Longer than all others.
    pub(crate) const LONGEST: Time = Time {
        seconds: 1e18,
        compressions: 0.0,
        unit: 1.0,
    };

    /// The shorter one of it and what was timed in a round, each in the unit of its round.
    pub(crate) fn least(self, (time, compressions): (Duration, u32), unit: f64) -> Time {
        let seconds = time.as_secs_f64();
        if seconds / unit >= self.seconds / self.unit {
            return self;
        }
        let compressions = f64::from(compressions);
        Time {
            seconds,
            compressions,
            unit,
        }
    }

    /// Prints it, and how much of it the compressions take that the work needs.
    pub(crate) fn print(self, rt: &impl Print, name: &str) -> io::Result<()> {
        let (whole, needed) = (self.seconds * 1e6, self.compressions * self.unit);
        let share = needed / self.seconds * 100.0;
        println!(rt; "{name:22} {whole:10.1} us, {share:5.1} % of it hashing")
    }
}

/// The time of the clock. One that can't be read stands still.
pub(crate) fn now(clock: &impl Clock) -> Duration {
    match clock.monotonic() {
        Ok(time) => time,
        Err(_) => Duration::ZERO,
    }
}

/// The time since then.
pub(crate) fn since(clock: &impl Clock, start: Duration) -> Duration {
    now(clock).saturating_sub(start)
}

/// Compresses the blocks of one long text: the seconds of one compression, and the text's digest.
pub(crate) fn compress(clock: &impl Clock) -> (f64, [u8; 32]) {
    let text = [5; 4096];
    let start = now(clock);
    let mut hasher = Sha256::new();
    for _piece in 0..BLOCKS / 64 {
        hasher.update(&text);
    }
    let digest = hasher.finalize();
    let seconds = since(clock, start).as_secs_f64();
    (seconds / f64::from(BLOCKS), digest)
}

/// The middle one of so many times.
pub(crate) fn middle(values: &mut [Duration]) -> Duration
    requires { 0 < length values.old }
{
    values.sort_unstable();
    values[values.len() / 2]
}
