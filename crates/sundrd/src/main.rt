//! The server of a file system: it keeps the one order of operations and the blocks, and serves its clients over TCP.
#![tactic(auto)]

mod files;
mod halt;
mod keep;

use crate::files::{lock_file, open_present};
use crate::halt::Halt;
use crate::keep::{KeptFiles, open_kept};
use block_store::Store;
use clap::error::ErrorKind;
use clap::{Arg, ArgAction, ArgMatches, Command, value_parser};
use kept_server::serve_kept;
use layout::{Memory, beside, let_go};
use lms_sign::{KEY_SIZE, PublicKey};
use server_workers::{Accepted, Gate, Limits, Served, Watch, serve_within};
use std::alloc::{AllocError, Global};
use std::fs::{File, OpenOptions};
use std::io::{self, Read};
use std::net::{Net, TcpListener, TcpStream};
use std::process::ExitCode;
use std::rt::{Files, Runtime};
use std::sync::atomic::{AtomicBool, Ordering};
use std::sync::{Arc, Wait};
use std::thread::Threads;
use std::time::Clock;
use std::{env, thread};
use thiserror::Error;

/// The version of the program.
const VERSION: &str = "0.1.0";

/// The status where the words are at fault.
const WORDS: u8 = 5;

/// The status of a fault past the words.
const FAILED: u8 = 1;

/// The most connections that can be served at once: each has a thread, and a place.
const AT_ONCE_MOST: u32 = 4096;

/// How many bytes the stored blocks may take, unless it is said otherwise: 4 GiB.
const ROOM: &str = "4294967296";

/// What is printed where memory runs out while the words are read.
const MEMORY: &str = "memory";

/// What goes wrong past the words, beside the system's own faults.
#[derive(Debug, Drop, Error)]
enum Fault {
    #[error("the file of user 0's key: {0}")]
    KeyFile(io::Error),
    #[error("the file of user 0's key isn't a public key of 56 bytes")]
    Key,
    #[error("the address to listen at: {0}")]
    Address(io::Error),
    #[error("the file of the log: {0}")]
    LogFile(io::Error),
    #[error("the file of the log isn't empty, and is left as it is: move it away, or name another one")]
    LogUsed,
    #[error("the next connection: {0}")]
    Connection(io::Error),
    #[error("the log wasn't written to its end")]
    Log,
    #[error("no thread can be started: out of memory, or the system has no room for one more")]
    Thread,
}

/// What the help says at its end.
const RESTART: &str =
    "With --keep, operations and blocks are kept in the folder: an answer goes out once what it tells is on the disk, \
    and a server that is started again with this folder goes on where the one before was.

With --log, they are in memory alone, and no log is read back. So a server that is started again begins anew: \
    clients of the one before can't go on with it, and need folders of their own for it.

Statuses:
  0  All connections have ended, and the log is written
  1  A fault past the words, of which standard error tells
  5  The words are at fault";

/// A required option with a value.
fn option<'a>(alloc: Global, name: &'a str, value: &'a str, help: &'a str) -> Arg<'a> {
    Arg::new(alloc, name)
        .long(name)
        .value_name(value)
        .help(help)
        .required(true)
        .action(ArgAction::Set)
}

/// An option with a number from 1 up to the most, which is the usual one unless it is given.
fn number<'a>(
    alloc: Global,
    name: &'a str,
    value: &'a str,
    usual: &'a str,
    most: u32,
    help: &'a str,
) -> Arg<'a> {
    option(alloc, name, value, help)
        .required(false)
        .default_value(usual)
        .value_parser(value_parser!(u32).range(1..=most as i64))
}

/// The options that name where it listens and its files.
fn locations<'a>(alloc: Global, command: Command<'a>) -> Result<Command<'a>, AllocError> {
    let listen = "Where it listens: an address and a port, or port 0 for a free one";
    let key = "The file of user 0's public key, of 56 bytes";
    let keep =
        "The folder in which operations and blocks are kept, in its files log and blocks, which are made where it has neither";
    let log =
        "The file of the log, which is made; one that has bytes is refused, and so is what isn't a regular file";
    let keep = option(alloc, "keep", "DIR", keep)
        .required(false)
        .conflicts_with("log")?;
    let log = option(alloc, "log", "FILE", log)
        .required(false)
        .required_unless_present("keep")?;
    command
        .arg(option(alloc, "listen", "ADDR", listen))?
        .arg(option(alloc, "super", "FILE", key))?
        .arg(keep)?
        .arg(log)
}

/// The options on connections.
fn limits<'a>(alloc: Global, command: Command<'a>) -> Result<Command<'a>, AllocError> {
    let connections = "How many connections it serves in all; once all of them have ended, it ends";
    let at_once = "How many it serves at once, from 1 to 4096; further ones wait until one ends";
    let idle = "How long a connection may say nothing between two requests";
    command
        .arg(option(alloc, "connections", "N", connections).value_parser(value_parser!(u32)))?
        .arg(number(alloc, "at-once", "M", "256", AT_ONCE_MOST, at_once))?
        .arg(number(alloc, "idle", "SECONDS", "600", u32::MAX, idle))
}

/// The option on blocks.
fn room<'a>(alloc: Global, command: Command<'a>) -> Result<Command<'a>, AllocError> {
    let room =
        "How much room the stored blocks have; each takes its bytes and 256 more. Further ones are answered 9";
    let option = option(alloc, "room", "BYTES", room)
        .required(false)
        .default_value(ROOM)
        .value_parser(value_parser!(u64));
    command.arg(option)
}

/// The words that the program takes.
fn command<'a>(alloc: Global) -> Result<Command<'a>, AllocError> {
    let command = Command::new(alloc, "sundrd")
        .version(VERSION)
        .about("Serves the clients of a file system that needn't trust it")
        .after_help(RESTART);
    room(alloc, limits(alloc, locations(alloc, command)?)?)
}

/// The words that it was given.
fn given_words<R: Runtime + AllocGlobal>(rt: &R) -> io::Result<Vec<String>> {
    Ok(env::args(rt)?.collect(rt.alloc())?)
}

/// Tells what hinders the words from being read.
fn refuse_words<R: Runtime>(rt: &R, why: &str) -> anyhow::Result<u8> {
    let _ = eprintln!(rt; "{why}");
    Ok(WORDS)
}

/// The public key in a file of 56 bytes.
fn read_key(rt: &impl Files, name: &str) -> anyhow::Result<PublicKey> {
    let mut file = File::open(rt, name).map_err(Fault::KeyFile)?;
    let mut bytes = [0; KEY_SIZE];
    file.read_exact(&mut bytes).map_err(|_| Fault::Key)?;
    if file.read(&mut [0]).map_err(Fault::KeyFile)? != 0 {
        return Err(Fault::Key.into());
    }
    Ok(PublicKey::from_bytes(bytes).ok_or(Fault::Key)?)
}

/// Tells what the words lack, or the help that they ask for.
fn refuse<R: Runtime>(rt: &R, fault: &clap::Error) -> anyhow::Result<u8> {
    if fault.kind() == ErrorKind::OutOfMemory {
        return refuse_words(rt, MEMORY);
    }
    let printed = fault.print(rt);
    if fault.exit_code() != 0 {
        return Ok(WORDS);
    }
    printed?;
    Ok(0)
}

/// The file of the log, in which nothing stands and which no other server writes: a new one, or one that is empty. No
/// byte of a file is ever destroyed.
fn open_log<R: Eprint + Files<File = File>>(rt: &R, name: &str) -> anyhow::Result<File> {
    let mut appending = OpenOptions::new();
    appending.append(true);
    let file = match OpenOptions::new()
        .append(true)
        .create_new(true)
        .open(rt, name)
    {
        Err(fault) if fault.kind() == io::ErrorKind::AlreadyExists => {
            open_present(rt, &appending, name, "log")?
        }
        made => made.map_err(Fault::LogFile)?,
    };
    lock_file(rt, &file, "log")?;
    if file.metadata().map_err(Fault::LogFile)?.len() != 0 {
        return Err(Fault::LogUsed.into());
    }
    Ok(file)
}

/// Who tells of a listener's faults, on standard error.
#[derive(Drop)]
struct Telling<'a, R> {
    rt: &'a R,
}

impl<'a, R: Eprint> Watch for Telling<'a, R> {
    fn faults_begin(&self, fault: &io::Error) {
        let rt = self.rt;
        let _ = eprintln!(rt; "sundrd: the next connection is waited for: {fault}");
    }

    fn faults_end(&self) {
        let rt = self.rt;
        let _ = eprintln!(rt; "sundrd: connections come again");
    }

    fn ends(&self, fault: &io::Error) {
        let rt = self.rt;
        let _ = eprintln!(rt;
            "sundrd: no further connection comes, those that are open are served: {fault}"
        );
    }
}

/// Who holds no call up, and tells on standard error once that blocks have no room left, and that the server has stopped:
/// then the program ends at once.
#[derive(Drop)]
struct Entrance<'a, R> {
    rt: &'a R,
    halt: &'a Halt,
    told: AtomicBool,
}

impl<'a, R: Eprint + Wait> Gate for Entrance<'a, R> {
    fn pass(&self, _call: u64) {}

    fn block_refused(&self) {
        if !self.told.swap(true, Ordering::SeqCst) {
            let rt = self.rt;
            let _ = eprintln!(rt;
                "sundrd: the stored blocks have no room left: further ones are refused"
            );
        }
    }

    fn stopped(&self) {
        let rt = self.rt;
        let _ = eprintln!(rt;
            "sundrd: the folder can't be written or read any more, or memory ran out for it: the server ends"
        );
        self.halt.tell(rt, FAILED);
    }
}

/// What a server begins with: its listener, how many connections it serves, how many at once, for how many seconds one
/// may say nothing, how many bytes blocks may take, user 0's key, and where it keeps what it has.
#[derive(Drop)]
struct Begun {
    listener: TcpListener,
    most: u32,
    at_once: u32,
    idle: u32,
    room: u64,
    pinned: PublicKey,
    place: Place,
}

/// Where a server keeps what it has: in memory, beside a log that is written; or in a folder.
#[derive(Drop)]
enum Place {
    Memory(File),
    Folder(KeptFiles),
}

/// Opens what the words name: the folder with what was kept, or the file of the log.
fn open_place<R: AllocGlobal + Eprint + Files<File = File>>(
    rt: &R,
    matches: &ArgMatches,
    pinned: PublicKey,
    room: u64,
) -> anyhow::Result<Place> {
    match matches.get_str("keep") {
        Some(folder) => Ok(Place::Folder(open_kept(rt, folder, pinned, room)?)),
        None => Ok(Place::Memory(open_log(rt, matches.get_str("log").unwrap_or(""))?)),
    }
}

/// Reads user 0's key, listens where the words say, opens what is kept, and prints where it listens.
fn begin<
    R: Runtime + AllocGlobal + Files<File = File> + Net<Listener = TcpListener, Stream = TcpStream>,
>(rt: &R, matches: &ArgMatches) -> anyhow::Result<Begun> {
    let most = matches.get_one::<u32>("connections").unwrap_or(0);
    let at_once = matches.get_one::<u32>("at-once").unwrap_or(1);
    let idle = matches.get_one::<u32>("idle").unwrap_or(1);
    let room = matches.get_one::<u64>("room").unwrap_or(0);
    let pinned = read_key(rt, matches.get_str("super").unwrap_or(""))?;
    // The log is made only once the port is ours.
    let address = matches.get_str("listen").unwrap_or("");
    let listener = TcpListener::bind(rt, address).map_err(Fault::Address)?;
    let place = open_place(rt, matches, pinned, room)?;
    println!(rt; "listening {}", listener.local_addr()?)?;
    Ok(Begun {
        listener,
        most,
        at_once,
        idle,
        room,
        pinned,
        place,
    })
}

/// Tells how many connections were dropped, if any were.
fn tell_unserved<R: Eprint>(rt: &R, unserved: usize) {
    if unserved != 0 {
        let _ = eprintln!(rt;
            "sundrd: connections dropped, since no thread could be started for them: {unserved}"
        );
    }
}

/// Serves these connections out of memory: whether the log was written to its end. Where memory runs out before the
/// first one is taken, they are closed.
fn serve_in_memory<'a, R: AllocGlobal + Eprint + Clock + Threads + Wait + Sync>(
    rt: &'a R,
    entrance: &Entrance<'a, R>,
    connections: Accepted<'a, R, Telling<'a, R>>,
    limits: Limits,
    room: u64,
    pinned: PublicKey,
    log: File,
) -> Result<bool, Memory> {
    let alloc = rt.alloc();
    let (connections, store) = beside(connections, Store::with_room(alloc, room))?;
    match serve_within(
        rt,
        alloc,
        entrance,
        connections,
        limits,
        &store,
        pinned,
        log,
    ) {
        Ok(served) => {
            let Served {
                flushed,
                unserved,
                ..
            } = served;
            tell_unserved(rt, unserved);
            Ok(flushed)
        }
        Err(unbegun) => {
            let_go(unbegun);
            Err(Memory)
        }
    }
}

/// Serves these connections out of a folder: whether the server didn't stop before they ended.
fn serve_from_folder<'a, R: AllocGlobal + Eprint + Clock + Threads + Wait + Sync>(
    rt: &'a R,
    entrance: &Entrance<'a, R>,
    connections: Accepted<'a, R, Telling<'a, R>>,
    limits: Limits,
    files: KeptFiles,
) -> Result<bool, Memory> {
    let served = serve_kept(rt, rt.alloc(), entrance, connections, limits, files)?;
    let (stopped, unserved) = (served.stopped, served.unserved);
    let_go(served);
    tell_unserved(rt, unserved);
    Ok(!stopped)
}

/// Serves the connections that come, up to a fault after which the listener can't listen, which is put there: whether
/// all that was to be written was written.
fn serve_all<R: AllocGlobal + Eprint + Clock + Threads + Wait + Sync>(
    rt: &R,
    halt: &Halt,
    begun: Begun,
    fault: &mut Option<io::Error>,
) -> Result<bool, Memory> {
    let Begun {
        listener,
        most,
        at_once,
        idle,
        room,
        pinned,
        place,
    } = begun;
    let limits = Limits { most, at_once };
    let entrance = Entrance {
        rt,
        halt,
        told: AtomicBool::new(false),
    };
    let connections = Accepted::new(rt, &listener, most, fault).watched(
        idle as u64,
        Telling { rt },
    );
    match place {
        Place::Memory(log) => {
            serve_in_memory(rt, &entrance, connections, limits, room, pinned, log)
        }
        Place::Folder(files) => serve_from_folder(rt, &entrance, connections, limits, files),
    }
}

/// Serves the connections that come.
fn serve_begun<R: AllocGlobal + Eprint + Clock + Threads + Wait + Sync>(
    rt: &R,
    halt: &Halt,
    begun: Begun,
) -> anyhow::Result<u8> {
    let mut fault = None;
    if !serve_all(rt, halt, begun, &mut fault)? {
        return Err(Fault::Log.into());
    }
    match fault {
        Some(fault) => Err(Fault::Connection(fault).into()),
        None => Ok(0),
    }
}

/// Reads the words, and serves as they say.
fn run<
    R: Runtime
        + AllocGlobal
        + Files<File = File>
        + Net<Listener = TcpListener, Stream = TcpStream>
        + Clock
        + Threads
        + Wait
        + Sync,
>(rt: &R, halt: &Halt) -> anyhow::Result<u8> {
    let words = match given_words(rt) {
        Ok(words) => words,
        Err(fault) if fault.kind() == io::ErrorKind::OutOfMemory => return refuse_words(rt, MEMORY),
        Err(_) => return refuse_words(rt, "error: a word isn't UTF-8"),
    };
    let Ok(command) = command(rt.alloc()) else {
        return refuse_words(rt, MEMORY);
    };
    match command.try_get_matches_from(words.as_slice()) {
        Ok(matches) => {
            let begun = begin(rt, &matches);
            let_go(matches);
            serve_begun(rt, halt, begun?)
        }
        Err(fault) => {
            let status = refuse(rt, &fault);
            let_go(fault);
            status
        }
    }
}

/// Tells of a fault past the words: the status with which the program ends.
fn tell<R: Eprint>(rt: &R, error: anyhow::Error) -> u8 {
    let _ = eprintln!(rt; "sundrd: {error}");
    FAILED
}

/// All that the program does: it tells the status with which it ends.
fn run_to_end<
    R: Runtime
        + AllocGlobal
        + Files<File = File>
        + Net<Listener = TcpListener, Stream = TcpStream>
        + Clock
        + Threads
        + Wait
        + Sync,
>(rt: &R, halt: &Halt) {
    let status = match run(rt, halt) {
        Ok(status) => status,
        Err(error) => tell(rt, error),
    };
    halt.tell(rt, status);
}

/// Where the status is told: for who waits for it, and for who tells it.
fn two_of_halt(alloc: Global) -> Result<(Arc<Halt>, Arc<Halt>), Memory> {
    let halt = Arc::new(alloc, Halt::new())?;
    let theirs = Arc::try_clone(&halt)?;
    Ok((halt, theirs))
}

/// All is done in a thread of its own, so that the program can end while connections are still waited for.
fn main(rt: HostRuntime) -> ExitCode {
    ExitCode::from(match two_of_halt(rt.alloc()) {
        Ok((halt, theirs)) => match thread::spawn(&rt, move || run_to_end(&rt, &*theirs)) {
            Ok(_worker) => halt.wait(&rt),
            Err(_) => tell(&rt, Fault::Thread.into()),
        },
        Err(memory) => tell(&rt, memory.into()),
    })
}
