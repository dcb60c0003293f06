//! Runs a script of clients and a server from standard input, and prints a line for each command.
#![tactic(auto)]

use checked_blocks::{CACHED_AT_FIRST, MOST_CACHED};
use clap::{Arg, ArgAction, ArgMatches, Command, value_parser};
use fork_theorem::play;
use std::alloc::{AllocError, Global};
use std::env;
use std::io::{self, BufReader, ErrorKind};
use std::process::ExitCode;
use std::rt::Runtime;
use std::sync::Wait;

/// The status where the words are at fault.
const WORDS: u8 = 5;

/// The name of the option on caches.
const CACHE: &str = "cache";

/// The words that the program takes.
fn command<'a>(alloc: Global) -> Result<Command<'a>, AllocError> {
    let cache = Arg::new(alloc, CACHE)
        .long(CACHE)
        .value_name("N")
        .help("How many blocks the cache of each client may have, 1 to 4096; 1024 without it")
        .action(ArgAction::Set)
        .value_parser(value_parser!(u16).range(1..=MOST_CACHED as i64));
    Command::new(alloc, "sundr_play")
        .about("Runs a script from standard input: a command a line, a printed line for each")
        .arg(cache)
}

/// The words that it was given.
fn given_words<R: Runtime + AllocGlobal>(rt: &R) -> io::Result<Vec<String>> {
    Ok(env::args(rt)?.collect(rt.alloc())?)
}

/// Tells what is wrong with the words, or the help that they ask for.
fn refuse<R: Runtime>(rt: &R, fault: &clap::Error) -> anyhow::Result<ExitCode> {
    fault.print(rt)?;
    let status = if fault.exit_code() == 0 { 0 } else { WORDS };
    Ok(ExitCode::from(status))
}

/// How many blocks the cache of each client may have.
fn capacity(matches: &ArgMatches) -> usize {
    match matches.get_one::<u16>(CACHE) {
        Some(blocks) => usize::from(blocks),
        None => CACHED_AT_FIRST,
    }
}

/// Runs the script, over caches for so many blocks.
fn play_script<R: Runtime + AllocGlobal + Wait>(
    rt: &R,
    capacity: usize,
) -> anyhow::Result<ExitCode> {
    let mut reader = BufReader::new(rt.alloc(), rt.reader())?;
    let mut writer = io::writer(rt);
    play(rt, rt.alloc(), capacity, &mut reader, &mut writer)?;
    Ok(ExitCode::SUCCESS)
}

/// Runs the script as the words say.
fn run_words<R: Runtime + AllocGlobal + Wait>(
    rt: &R,
    words: &[String],
) -> anyhow::Result<ExitCode> {
    match command(rt.alloc())?.try_get_matches_from(words) {
        Ok(matches) => play_script(rt, capacity(&matches)),
        Err(fault) => refuse(rt, &fault),
    }
}

/// Runs the script, unless the words are at fault.
fn run<R: Runtime + AllocGlobal + Wait>(rt: &R) -> anyhow::Result<ExitCode> {
    match given_words(rt) {
        Ok(words) => run_words(rt, &words),
        Err(fault) if fault.kind() == ErrorKind::OutOfMemory => Err(fault.into()),
        Err(_) => {
            let _ = eprintln!(rt; "error: a word isn't UTF-8");
            Ok(ExitCode::from(WORDS))
        }
    }
}

fn main(rt: HostRuntime) -> ExitCode {
    match run(&rt) {
        Ok(status) => status,
        Err(error) => {
            let _ = eprintln!(rt; "sundr_play: {error}");
            ExitCode::FAILURE
        }
    }
}
