//! What signs texts stops at each call of its devices: at each read, write and sync of all that opens, declares and
//! signs. It is opened again at once, and after a crash with each outcome. Then it tells what stood before, or what was
//! to come, and tells the same after one more crash; and it goes on under leaves that were free.

use crate::crashes::{left_by_crash, outcomes};
use crate::host::{Aided, check, given};
use crate::texts::{joined, key_of};
use layout::put_in;
use leaf_ledger::MemoryDevice;
use lms_sign::{KEY_SIZE, PrivateKey, SIGNATURE_SIZE};
use std::alloc::Global;

/// What is kept of it while it is closed: its key and its devices.
#[derive(Drop)]
pub struct Kept {
    pub key: PrivateKey<Global>,
    pub ledger: MemoryDevice<Global>,
    pub journal: MemoryDevice<Global>,
}

/// What is done once it is opened.
#[derive(Clone, Copy, Debug, PartialEq, Eq)]
pub enum Act {
    Nothing,
    Declare,
    Sign,
}

/// What it tells: what comes next, how many operations it has declared, and the text that is to be sent again.
#[derive(Debug, Drop, PartialEq)]
pub struct Told {
    pub next: Act,
    pub number: u32,
    pub text: Vec<u8>,
}

/// Why it tells nothing.
#[derive(Clone, Copy, Debug, PartialEq, Eq)]
pub enum Refused {
    /// A device failed.
    Device,
    /// The ledger is of no key, or of another one.
    Foreign,
    /// No leaf is free.
    NoLeaf,
}

/// What signs texts over devices.
pub trait Signs<R> {
    /// Opens it over what is kept, does this, and closes it: what it tells then.
    fn done(&self, rt: &R, kept: Kept, act: Act) -> (Result<Told, Refused>, Kept);
}

/// Whose call fails.
#[derive(Clone, Copy)]
pub enum Failing {
    Ledger,
    Journal,
}

/// What is done in turn, each time after an opening.
static COURSE: [Act; 5] = [
    Act::Nothing,
    Act::Nothing,
    Act::Declare,
    Act::Sign,
    Act::Nothing,
];

/// A device in memory with this text.
pub fn device_of(rt: &impl Aided, text: &[u8]) -> MemoryDevice<Global> {
    let text = joined(rt, &[text]);
    given(rt, MemoryDevice::new(rt.alloc(), text), "memory")
}

/// This key, and devices on which nothing stands.
pub fn nothing_yet(rt: &impl Aided, key: PrivateKey<Global>) -> Kept {
    Kept {
        key,
        ledger: device_of(rt, b""),
        journal: device_of(rt, b""),
    }
}

/// Devices on which nothing stands, of which one fails after so many calls.
fn renew(rt: &impl Aided, kept: &mut Kept, failing: Failing, calls: u64) {
    put_in(&mut kept.ledger, device_of(rt, b""));
    put_in(&mut kept.journal, device_of(rt, b""));
    match failing {
        Failing::Ledger => kept.ledger.fail_after(calls),
        Failing::Journal => kept.journal.fail_after(calls),
    }
}

/// The course over what is kept, until a device fails: at which act, if one does.
fn stopped<R: Aided>(rt: &R, who: &impl Signs<R>, kept: Kept) -> (Option<usize>, Kept) {
    let mut kept = kept;
    for (place, act) in COURSE.iter().enumerate() {
        let (told, closed) = who.done(rt, kept, *act);
        kept = closed;
        if let Err(refused) = told {
            check(rt, refused == Refused::Device, "a device failed");
            return (Some(place), kept);
        }
    }
    (None, kept)
}

/// What is told after each act of the course, where nothing fails.
fn ends<R: Aided>(rt: &R, who: &impl Signs<R>, kept: Kept) -> (Vec<Told>, Kept) {
    let mut ends = Vec::new(rt.alloc());
    let mut kept = kept;
    for act in &COURSE {
        let (told, closed) = who.done(rt, kept, *act);
        kept = closed;
        given(rt, ends.push(given(rt, told, "nothing fails")), "memory");
    }
    (ends, kept)
}

/// The device after a crash with this outcome.
pub fn crashed(
    rt: &impl Aided,
    device: MemoryDevice<Global>,
    outcome: usize,
) -> MemoryDevice<Global> {
    let left = given(rt, left_by_crash(rt.alloc(), &device, outcome), "memory");
    match device.crash(left) {
        Ok(device) => device,
        Err((error, _)) => rt.fail(error),
    }
}

/// What is kept after a crash. The outcomes of both devices are one number.
fn after_crash(rt: &impl Aided, kept: Kept, outcome: usize) -> Kept {
    let Kept {
        key,
        ledger,
        journal,
    } = kept;
    let of_ledger = outcomes(&ledger).max(1);
    Kept {
        key,
        ledger: crashed(rt, ledger, outcome % of_ledger),
        journal: crashed(rt, journal, outcome / of_ledger),
    }
}

/// The leaf under which a text was signed, which stands at the beginning of its signature.
fn leaf_of(rt: &impl Aided, text: &[u8]) -> usize {
    let at = text.len().saturating_sub(SIGNATURE_SIZE);
    match text.get(at..at.saturating_add(4)) {
        Some([0, 0, high, low]) => usize::from(u16::from_be_bytes([*high, *low])),
        _ => rt.fail("no signature"),
    }
}

/// The marks of the leaves in a ledger, behind its key. A leaf whose mark is 0 is free.
fn marks_of(ledger: &[u8]) -> &[u8] {
    ledger.get(KEY_SIZE..).unwrap_or(&[])
}

/// Does what comes next, under a leaf that was free: what comes then. Where none is, that is told: a crash may leave
/// the marks of a new ledger so.
fn goes_on<R: Aided>(rt: &R, who: &impl Signs<R>, kept: Kept, next: Act) -> (Act, Kept) {
    let ledger = joined(rt, &[kept.ledger.text()]);
    let marks = marks_of(&ledger);
    let (told, kept) = who.done(rt, kept, next);
    if !marks.contains(&0) {
        check(rt, matches!(told, Err(Refused::NoLeaf)), "no leaf is free");
        return (Act::Nothing, kept);
    }
    let told = given(rt, told, "it goes on");
    let mark = marks.get(leaf_of(rt, &told.text));
    check(rt, mark == Some(&0), "a leaf that was free");
    (told.next, kept)
}

/// Does all that comes next.
fn goes_to_its_end<R: Aided>(rt: &R, who: &impl Signs<R>, kept: Kept, next: Act) -> Kept {
    let mut kept = kept;
    let mut next = next;
    for _act in 0..2u8 {
        if next == Act::Nothing {
            return kept;
        }
        let (then, closed) = goes_on(rt, who, kept, next);
        kept = closed;
        next = then;
    }
    check(rt, next == Act::Nothing, "all is done");
    kept
}

/// It stopped at an act, and is opened: it tells what it tells before that act or after it, the same after one more
/// crash, and goes on. A ledger's file that was never whole may be refused, too.
fn is_well<R: Aided>(
    rt: &R,
    who: &impl Signs<R>,
    kept: Kept,
    ends: &[Told],
    place: usize,
    outcome: usize,
) -> Kept {
    let (told, kept) = who.done(rt, kept, Act::Nothing);
    if place == 0 && matches!(told, Err(Refused::Foreign)) {
        return kept;
    }
    let told = given(rt, told, "it is opened");
    let stands = ends.get(place.saturating_sub(1)..=place).unwrap_or(&[]);
    if !stands.contains(&told) {
        rt.fail(format_args!("{told:?}"));
    }
    let (again, kept) = who.done(rt, after_crash(rt, kept, outcome), Act::Nothing);
    let again = given(rt, again, "it is opened again");
    check(rt, again == told, "it tells the same");
    goes_to_its_end(rt, who, kept, told.next)
}

/// The course stops at this call, once for each outcome of a crash and once without one: how often. Not at all where
/// the device isn't called so often.
fn stops_at<R: Aided>(
    rt: &R,
    who: &impl Signs<R>,
    kept: Kept,
    ends: &[Told],
    failing: Failing,
    calls: u64,
) -> (usize, Kept) {
    let mut kept = kept;
    renew(rt, &mut kept, failing, calls);
    let (place, kept) = stopped(rt, who, kept);
    let Some(place) = place else {
        return (0, kept);
    };
    let count = outcomes(&kept.ledger).saturating_mul(outcomes(&kept.journal));
    let mut kept = is_well(rt, who, kept, ends, place, 0);
    for outcome in 0..count {
        renew(rt, &mut kept, failing, calls);
        let (_place, closed) = stopped(rt, who, kept);
        let left = after_crash(rt, closed, outcome);
        kept = is_well(rt, who, left, ends, place, outcome);
    }
    (count.saturating_add(1), kept)
}

/// No device is called so often.
const MOST_CALLS: u64 = 100;

/// The course stops at each call of a device: at how many, and in how many cases.
pub fn sweep<R: Aided>(rt: &R, who: &impl Signs<R>, failing: Failing) -> (u64, usize) {
    let (ends, mut kept) = ends(rt, who, nothing_yet(rt, key_of(rt, 0)));
    let mut cases = 0usize;
    for calls in 0..MOST_CALLS {
        let (count, closed) = stops_at(rt, who, kept, &ends, failing, calls);
        kept = closed;
        if count == 0 {
            return (calls, cases);
        }
        cases = cases.saturating_add(count);
    }
    rt.fail("too many calls")
}
