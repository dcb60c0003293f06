//! How long things take, for people: `bench lms` keys, signatures and verifications, `bench itable` an i-table of
//! 4,095 digests. With no word it does nothing. What commands, connections and servers take is timed by tools.
#![tactic(auto)]

mod i_tables;
mod lms;
mod time;

use anyhow::Result;
use std::env;
use std::rt::Runtime;
use time::{Host, PIECES, Time, compress};

/// What is timed in rounds, of which the least one counts.
#[derive(Clone, Copy)]
enum Rounds {
    Keys,
    Tables,
}

/// Times so many rounds, and prints of each piece of work the least of all.
fn report_rounds(rt: &impl Host, timed: Rounds, count: u32, names: &[&str; PIECES]) -> Result<()> {
    let mut least = [Time::LONGEST; PIECES];
    for _round in 0..count {
        let (unit, seed) = compress(rt);
        let round = match timed {
            Rounds::Keys => lms::measure(rt, seed),
            Rounds::Tables => i_tables::measure(rt),
        }?;
        for place in 0..PIECES {
            least[place] = least[place].least(round[place], unit);
        }
    }
    for place in 0..PIECES {
        least[place].print(rt, names[place])?;
    }
    Ok(())
}

/// Measures what a word names.
fn report(rt: &impl Host, word: &str) -> Result<()> {
    match word {
        "lms" => report_rounds(rt, Rounds::Keys, 10, &lms::NAMES),
        "itable" => report_rounds(rt, Rounds::Tables, 20, &i_tables::NAMES),
        _ => Ok(()),
    }
}

/// Measures what each word names.
fn run<R: Runtime + AllocGlobal>(rt: &R) -> Result<()> {
    for word in env::args(rt)? {
        report(rt, word.as_str())?;
    }
    Ok(())
}

fn main(rt: HostRuntime) -> Result<()> {
    run(&rt)
}
