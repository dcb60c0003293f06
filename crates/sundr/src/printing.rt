//! What is printed of what came, and what is told beside it.

use crate::WORDS;
use crate::hindrance::Hindrance;
use crate::init::Digits;
use crate::lost::tell_lost;
use crate::obeying::{Beside, Outcome};
use crate::reason::{Reason, reason_of_answer, reason_of_hindrance};
use crate::renewing::{print_renewed, tell_next};
use crate::tree::Shown;
use commands::Answer;
use directory::Directory;
use file_commands::{Line, LineError, Wanted};
use lms_sign::PublicKey;
use std::alloc::Global;
use std::io::{self, IsTerminal};

/// The status where a command isn't begun.
const REFUSED: u8 = 4;

/// The status where what came can't be printed.
const UNPRINTED: u8 = 6;

/// Prints the entries of a directory on a terminal, which takes no name for a command.
fn print_entries(rt: &HostRuntime, entries: &Directory<Global>) -> anyhow::Result<()> {
    for entry in entries.entries() {
        let (name, target) = (Shown(entry.name().as_str()), entry.target());
        let (principal, i_number) = (target.principal.get(), target.i_number.get());
        println!(rt; "{name} {principal}:{i_number}")?;
    }
    Ok(())
}

/// Prints an answer: the status to end with.
fn print_answer(rt: &HostRuntime, answer: &Answer<Global>) -> anyhow::Result<u8> {
    match answer {
        Answer::Listing(entries) if rt.stdout().is_terminal() => print_entries(rt, entries)?,
        _ => answer.write(&mut io::writer(rt))?,
    }
    Ok(answer.status())
}

/// Prints why a command isn't begun: the status to end with.
pub(crate) fn print_hindrance(rt: &HostRuntime, hindrance: Hindrance) -> anyhow::Result<u8> {
    if let Hindrance::Told(status) = hindrance {
        return Ok(status);
    }
    match hindrance.refusal() {
        Ok(refusal) => print_answer(rt, &Answer::Refused(refusal)),
        Err(words) => {
            println!(rt; "{words}")?;
            Ok(REFUSED)
        }
    }
}

/// Prints public keys in hexadecimal digits, a line each.
fn print_keys(rt: &HostRuntime, keys: &[PublicKey]) -> anyhow::Result<()> {
    for key in keys {
        println!(rt; "{}", Digits(key))?;
    }
    Ok(())
}

/// Prints what came of a line: the status to end with.
fn print(rt: &HostRuntime, outcome: &Result<Outcome, Hindrance>) -> anyhow::Result<u8> {
    match outcome {
        Ok(Outcome::Answer(answer)) => return print_answer(rt, answer),
        Ok(Outcome::Ended(status)) => return Ok(*status),
        Err(hindrance) => return print_hindrance(rt, *hindrance),
        Ok(Outcome::Keys(keys)) => print_keys(rt, keys)?,
        Ok(Outcome::Renewed(renewed)) => print_renewed(rt, renewed)?,
        Ok(Outcome::Status(standing)) => println!(rt; "{standing}")?,
        Ok(Outcome::Users(listed)) => println!(rt; "{listed}")?,
    }
    Ok(0)
}

/// What is told beside what came of something that was wanted, if anything is.
fn reason_of<'a>(
    line: &Line<'a>,
    wanted: &Wanted<'a>,
    outcome: &Result<Outcome, Hindrance>,
    beside: Beside,
) -> Option<Reason<'a>> {
    match outcome {
        Ok(Outcome::Answer(answer)) => {
            reason_of_answer(line, wanted, beside.reach, beside.found, answer)
        }
        Ok(_) => None,
        Err(hindrance) => reason_of_hindrance(line, wanted, *hindrance),
    }
}

/// Tells how many leaves the newest key has left, where these are few.
pub(crate) fn tell_leaves(rt: &HostRuntime, leaves: Option<usize>) {
    if let Some(count) = leaves {
        let _ = eprintln!(rt; "leaves {count}");
    }
}

/// Prints what came of something that was wanted, and tells beside it what that means: the status to end with.
pub(crate) fn print_with_reason(
    rt: &HostRuntime,
    line: &Line<'_>,
    wanted: &Wanted<'_>,
    outcome: &Result<Outcome, Hindrance>,
    beside: Beside,
) -> anyhow::Result<u8> {
    let status = print(rt, outcome)?;
    if let Some(reason) = reason_of(line, wanted, outcome, beside) {
        reason.tell(rt);
    }
    match outcome {
        Ok(Outcome::Answer(Answer::Lost(lost))) => tell_lost(rt, line.dir, line.user, lost),
        Ok(Outcome::Renewed(_)) => tell_next(rt),
        Ok(_) => (),
        Err(_) => return Ok(status),
    }
    tell_leaves(rt, beside.leaves);
    Ok(status)
}

/// Tells what the words lack, or the help that they ask for: the status to end with.
pub(crate) fn refuse(rt: &HostRuntime, error: &LineError) -> anyhow::Result<u8> {
    match error {
        LineError::Words(fault) if fault.exit_code() == 0 => {
            fault.print(rt)?;
            Ok(0)
        }
        LineError::Words(fault) => {
            let _ = fault.print(rt);
            Ok(WORDS)
        }
        other => {
            let _ = eprintln!(rt; "{other}");
            Ok(WORDS)
        }
    }
}

/// Tells that what came can't be printed: the status to end with.
pub(crate) fn tell(rt: &HostRuntime, error: anyhow::Error) -> u8 {
    let _ = eprintln!(rt; "sundr: {error}");
    UNPRINTED
}
