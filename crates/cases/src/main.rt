//! Tries cases from files that its words name, and prints each line on which it finds something else than what is
//! wanted, and how many cases each file has.
#![tactic(auto)]

mod answers;
mod blocks;
mod case;
mod certificates;
mod directories;
mod errors;
mod files;
mod frames;
mod i_tables;
mod lines;
mod lists;
mod names;
mod plans;
mod reading;
mod replies;
mod stop;
mod tables;
mod words;
mod world;

use case::try_cases;
use layout::let_go;
use std::io::{self, Write};
use std::process::ExitCode;
use std::{env, fs};
use world::World;

/// How the name of a file of cases ends.
const ENDING: &str = ".case";

/// How many files of cases there are.
fn count_files(rt: &HostRuntime) -> io::Result<usize> {
    let mut count = 0usize;
    for entry in fs::read_dir(rt, ".")? {
        if entry?.file_name().ends_with(ENDING) {
            count = count.saturating_add(1);
        }
    }
    Ok(count)
}

/// Tries the cases of a file.
fn try_file(rt: &HostRuntime, file: &str) -> io::Result<()> {
    let text = fs::read_to_string(rt, file)?;
    let mut world = World::new(rt.alloc());
    let tried = try_cases(&mut world, file, &text);
    let written = io::writer(rt).write_all(&world.told);
    let_go(world);
    if let Err(stop) = tried {
        println!(rt; "{file}: {}", stop.name())?;
    }
    written
}

/// Tries the cases of all files.
fn run(rt: &HostRuntime) -> io::Result<()> {
    let words: Vec<String> = env::args(rt)?.collect(rt.alloc())?;
    let mut count = 0usize;
    for file in words.iter().skip(1) {
        try_file(rt, file)?;
        count = count.saturating_add(1);
    }
    let there = count_files(rt)?;
    println!(rt; "{count} files of {there}")
}

fn main(rt: HostRuntime) -> ExitCode {
    match run(&rt) {
        Ok(()) => ExitCode::SUCCESS,
        Err(fault) => {
            let _ = eprintln!(rt; "cases: {fault}");
            ExitCode::FAILURE
        }
    }
}
