//! Times of an i-table in which each i-number has a digest.

use crate::time::{Host, NOTHING, PIECES, Round, now, since};
use anyhow::Result;
use itable::ITable;
use layout::{Digest, INumber, Memory, Principal, User, let_go};
use std::alloc::Global;

/// What is timed.
pub(crate) static NAMES: [&str; PIECES] = ["4095 sets", "handle", "handle after one set"];

/// The texts of chunks 1 to 63 have 2,182 bytes, that of chunk 0 has 2,148, and that of the root 2,118.
const CHUNK: u32 = 35;

const ROOT: u32 = 34;

const WHOLE: u32 = 63 * CHUNK + 34 + ROOT;

/// Sets so many i-numbers from this one on, the greatest first, so that each set shifts all that are there.
fn fill(
    table: &mut ITable<Global>,
    first: u16,
    count: u16,
    byte: u8,
) -> std::result::Result<(), Memory> {
    for place in 0..count {
        let number = first
            .wrapping_add(count)
            .wrapping_sub(place)
            .wrapping_sub(1);
        if let Some(i_number) = INumber::new(number)
            && table.loaded(i_number)
        {
            table.set(i_number, Digest::from_bytes([byte; 32]))?;
        }
    }
    Ok(())
}

/// The times of filling an empty table, of the handle where no chunk's digest is known, and of that after one set.
fn times_of(rt: &impl Host, table: &mut ITable<Global>) -> Result<Round> {
    let mut round = NOTHING;
    let start = now(rt);
    fill(table, 1, 4095, 5)?;
    round[0] = (since(rt, start), 0);
    let start = now(rt);
    table.handle(rt.alloc())?;
    round[1] = (since(rt, start), WHOLE);
    fill(table, 2000, 1, 6)?;
    let start = now(rt);
    table.handle(rt.alloc())?;
    round[2] = (since(rt, start), CHUNK + ROOT);
    Ok(round)
}

/// The times of a table.
pub(crate) fn measure(rt: &impl Host) -> Result<Round> {
    let mut table = ITable::empty(rt.alloc(), Principal::from(User::superuser()));
    let times = times_of(rt, &mut table);
    let_go(table);
    times
}
