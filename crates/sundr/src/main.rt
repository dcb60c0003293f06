//! A client of a file system over a server that nobody trusts: it makes a user's folder, or carries out a command by the
//! files of one, and prints what comes of it.
#![tactic(auto)]

mod admin;
mod asking;
mod batch;
mod config;
mod defaults;
mod folder;
mod foreseeing;
mod found;
mod getting;
mod hindrance;
mod init;
mod lost;
mod obeying;
mod opening;
mod pace;
mod place;
mod printing;
mod putting;
mod reaching;
mod reason;
mod renewing;
mod standing;
mod target;
mod tree;
mod users;
mod working;

use client_verify::{Client, ClientError, Keys as KeysOf, Phase};
use commands::Refusal;
use config::ConfigFault;
use defaults::{add_config, with_defaults};
use drawn_key::drawn_key;
use file_commands::{Line, LineError, NewFolder, Request};
use file_session::refusal_of;
use folder::{
    Keys, Seed, check_folder, check_ledger, keep_leaves, last_signed, lock_ledgers, read_kept,
};
use hindrance::{FileFault, FolderFile, Hindrance};
use init::{init, print_made};
use layout::{User, let_go};
use leaf_ledger::{Device, FileDevice};
use lms_sign::PrivateKey;
use obeying::{Beside, obey};
use opening::open_device;
use place::{Place, check_place, tell_new_ledgers, tell_place};
use printing::{print_hindrance, print_with_reason, refuse, tell};
use reason::reason_of_unmade;
use std::alloc::Global;
use std::env;
use std::fs::File;
use std::io::{self, ErrorKind};
use std::net::{Net, TcpStream};
use std::process::ExitCode;
use std::thread::Threads;
use working::{begin_work, end_work};

/// The status where the words are at fault.
const WORDS: u8 = 5;

/// Keys, each with the device of its ledger, the oldest first.
pub(crate) type OwnKeys<D> = KeysOf<D, Global>;

/// A client over the files of a folder.
pub(crate) type OwnClient = Client<FileDevice<Global>, FileDevice<Global>, Global>;

/// A client over a user's folder, whose ledgers are locked meanwhile.
#[derive(Drop)]
pub(crate) struct Opened {
    pub(crate) client: OwnClient,
    pub(crate) locks: Vec<File>,
}

/// The key of a seed: made of what was kept of its leaves; or drawn, and then its leaves are kept if that is wanted. That
/// they can't be is no fault.
pub(crate) fn own_key<H: Threads + Sync>(
    rt: &HostRuntime,
    host: &H,
    folder: &str,
    seed: &Seed,
    keeps: bool,
) -> Result<PrivateKey<Global>, Hindrance> {
    if let Some(key) = read_kept(rt, folder, seed)? {
        return Ok(key);
    }
    let key = drawn_key(host, rt.alloc(), seed.seed, seed.id)?;
    if keeps {
        let _ = keep_leaves(rt, folder, seed.number, &key);
    }
    Ok(key)
}

/// The keys of these seeds, each with the device of its ledger. What was signed last is signed with a leaf that is used.
fn own_keys<H: Threads + Sync>(
    rt: &HostRuntime,
    host: &H,
    folder: &str,
    keys: &Keys,
    last: &[u8],
) -> Result<OwnKeys<FileDevice<Global>>, Hindrance> {
    let mut own = Vec::new(rt.alloc());
    for seed in &keys.seeds {
        let ledger = open_device(rt, folder, FolderFile::Ledger(seed.number))?;
        let key = own_key(rt, host, folder, seed, true)?;
        check_ledger(seed.number, ledger.text(), &key, last)?;
        own.push((key, ledger))?;
    }
    Ok(own)
}

/// A client of a user with these keys, over these devices.
pub(crate) fn client_over<D: Device + Drop>(
    alloc: Global,
    user: User,
    keys: &Keys,
    own: OwnKeys<D>,
    journal: D,
) -> Result<Client<D, D, Global>, Hindrance> {
    if own.is_empty() {
        let_go(own);
        let_go(journal);
        return Err(Hindrance::NoKeys(FolderFile::Seed(0), FileFault::Unmade));
    }
    match Client::open(alloc, user, own, keys.pinned, journal) {
        Ok(client) => Ok(client),
        Err((error, parts)) => {
            let_go(parts);
            Err(Hindrance::Refused(refusal_of(error)))
        }
    }
}

/// The user's client.
fn open_client<H: Threads + Sync>(
    rt: &HostRuntime,
    host: &H,
    line: &Line<'_>,
    keys: &Keys,
) -> Result<OwnClient, Hindrance> {
    let journal = open_device(rt, line.dir, FolderFile::Journal)?;
    let own = own_keys(rt, host, line.dir, keys, last_signed(journal.text(), None))?;
    client_over(rt.alloc(), line.user, keys, own, journal)
}

/// The user's client, over a folder that tells its place from then on.
fn open_and_tell<H: Threads + Sync>(
    rt: &HostRuntime,
    host: &H,
    line: &Line<'_>,
    keys: &Keys,
    place: &Place,
) -> Result<OwnClient, Hindrance> {
    let client = open_client(rt, host, line, keys)?;
    match tell_place(rt, line.dir, keys, place) {
        Ok(()) => Ok(client),
        Err(hindrance) => {
            let_go(client);
            Err(hindrance)
        }
    }
}

/// The user's client, where the folder is the user's, whole, locked, and at its place.
pub(crate) fn lock_and_open<H: Threads + Sync>(
    rt: &HostRuntime,
    host: &H,
    line: &Line<'_>,
    keys: &Keys,
) -> Result<Opened, Hindrance> {
    check_folder(rt, line, keys)?;
    let locks = lock_ledgers(rt, line.dir, line.user, keys)?;
    let place = check_place(rt, line.dir, &locks, line.moved)?;
    tell_new_ledgers(rt, line.dir, &locks);
    begin_work(rt, line.dir, &locks)?;
    match open_and_tell(rt, host, line, keys, &place) {
        Ok(client) => Ok(Opened { client, locks }),
        Err(hindrance) => {
            if !matches!(hindrance.refusal(), Ok(Refusal::Device)) {
                end_work(rt, line.dir);
            }
            Err(hindrance)
        }
    }
}

/// Does what a line wants, and prints what comes of it.
fn obey_and_print<H: Net<Stream = TcpStream> + Threads + Sync>(
    rt: &HostRuntime,
    host: &H,
    line: &Line<'_>,
) -> anyhow::Result<u8> {
    let mut beside = Beside::new();
    let outcome = obey(rt, host, line, &mut beside);
    let status = print_with_reason(rt, line, &line.wanted, &outcome, beside);
    let_go(outcome);
    status
}

/// Makes a user's folder, and prints what comes of it: the status to end with.
fn init_and_print<H: Threads + Sync>(
    rt: &HostRuntime,
    host: &H,
    new: &NewFolder<'_>,
) -> anyhow::Result<u8> {
    let made = init(rt, host, new);
    match &made {
        Ok(made) => {
            print_made(rt, made)?;
            Ok(0)
        }
        Err(hindrance) => {
            let status = print_hindrance(rt, *hindrance)?;
            if let Some(reason) = reason_of_unmade(new, *hindrance) {
                reason.tell(rt);
            }
            Ok(status)
        }
    }
}

/// The words that it was given, with the options that stand in the environment.
fn given_words(rt: &HostRuntime) -> io::Result<Vec<String>> {
    let words = env::args(rt)?.collect(rt.alloc())?;
    with_defaults(rt, words)
}

/// Tells what words that were refused lack, and after it why the folder's file couldn't help: the status to end with.
fn refuse_words(
    rt: &HostRuntime,
    error: &LineError,
    config: Option<ConfigFault>,
) -> anyhow::Result<u8> {
    let status = refuse(rt, error)?;
    match config {
        Some(fault) if status != 0 => {
            let _ = eprintln!(rt; "{}", fault.words());
        }
        _ => (),
    }
    Ok(status)
}

/// Does what these words say, the program's name first, to which the folder's file couldn't add, where it has a fault.
fn run_words<H: Net<Stream = TcpStream> + Threads + Sync>(
    rt: &HostRuntime,
    host: &H,
    words: &[String],
    config: Option<ConfigFault>,
) -> anyhow::Result<u8> {
    match Request::read(rt.alloc(), words) {
        Ok(Request::Line(line)) => obey_and_print(rt, host, &line),
        Ok(Request::Init(new)) => init_and_print(rt, host, &new),
        Err(error) => {
            let status = refuse_words(rt, &error, config);
            let_go(error);
            status
        }
    }
}

/// Does what the words say. Threads and connections are made by the host.
fn run<H: Net<Stream = TcpStream> + Threads + Sync>(
    rt: &HostRuntime,
    host: &H,
) -> anyhow::Result<u8> {
    let mut words = match given_words(rt) {
        Ok(words) => words,
        Err(fault) if fault.kind() == ErrorKind::OutOfMemory => {
            return refuse(rt, &LineError::Memory);
        }
        Err(_) => {
            let _ = eprintln!(rt; "error: a word isn't UTF-8");
            return Ok(WORDS);
        }
    };
    match add_config(rt, &mut words) {
        Ok(()) => run_words(rt, host, &words, None),
        Err(ConfigFault::Memory) => refuse(rt, &LineError::Memory),
        Err(fault) => run_words(rt, host, &words, Some(fault)),
    }
}

fn main(rt: HostRuntime) -> ExitCode {
    ExitCode::from(match run(&rt, &rt) {
        Ok(status) => status,
        Err(error) => tell(&rt, error),
    })
}
