//! What is done of what a line wants, in a session of its own or in the one of a batch.

use crate::admin::read_changes;
use crate::asking::{Asking, Asks};
use crate::batch::carry_out_batch;
use crate::folder::{
    CONTENT_SIZE, Keys, Seed, check_user, keep_blocks, read_blocks, read_keys, read_named,
    read_seeds,
};
use crate::found::{Found, found_beside};
use crate::getting::get_tree;
use crate::hindrance::Hindrance;
use crate::putting::put_tree;
use crate::reaching::{Contact, Reach, Server};
use crate::renewing::{Renewed, renew};
use crate::standing::{Standing, few_leaves, read_standing};
use crate::target::Target;
use crate::tree::Context;
use crate::users::{Listed, list_users};
use crate::working::end_work;
use crate::{Opened, OwnClient, WORDS, lock_and_open};
use client_verify::Phase;
use commands::{Answer, Command};
use drawn_key::drawn_key;
use file_commands::{Line, Wanted};
use layout::let_go;
use lms_sign::PublicKey;
use std::alloc::Global;
use std::net::{Net, TcpStream};
use std::thread::Threads;
use update_cert::TableChange;

/// What is told beside an answer.
#[derive(Clone, Copy)]
pub(crate) struct Beside {
    /// What came of the latest try to reach the server.
    pub(crate) reach: Reach,
    /// How many leaves the newest key has left, if that is told.
    pub(crate) leaves: Option<usize>,
    /// What stands at the path that leads to nothing of the kind that is wanted.
    pub(crate) found: Found,
}

impl Beside {
    /// Nothing is told.
    pub(crate) fn new() -> Beside {
        Beside {
            reach: Reach::Untried,
            leaves: None,
            found: Found::Unasked,
        }
    }
}

/// What is printed of a line.
#[derive(Drop)]
pub(crate) enum Outcome {
    /// The own public keys, the oldest first.
    Keys(Vec<PublicKey>),
    /// What the folder's ledgers and journal tell.
    Status(Standing),
    /// One more key was made.
    Renewed(Renewed),
    /// What came of a command.
    Answer(Answer<Global>),
    /// Who is listed.
    Users(Listed),
    /// Commands were carried out, of which all is printed, and this is the status to end with.
    Ended(u8),
}

/// What came of a command, if one was carried out.
pub(crate) fn answer_in(outcome: &Result<Outcome, Hindrance>) -> Option<&Answer<Global>> {
    match outcome {
        Ok(Outcome::Answer(answer)) => Some(answer),
        _ => None,
    }
}

/// What is read of the system for what is wanted, before the server is asked.
#[derive(Drop)]
pub(crate) enum Prepared<'a> {
    /// Nothing.
    Nothing,
    /// The content of a file.
    Content(Vec<u8>),
    /// The changes that a file has.
    Changes(Vec<TableChange>),
    /// The file that gets the bytes that come.
    Target(Target<'a>),
}

/// Reads what is needed of the system for what is wanted.
pub(crate) fn prepare<'a>(
    rt: &HostRuntime,
    wanted: &Wanted<'a>,
) -> Result<Prepared<'a>, Hindrance> {
    match wanted {
        Wanted::Put { file, .. } => Ok(Prepared::Content(read_named(rt, file, CONTENT_SIZE)?)),
        Wanted::Admin(file) => Ok(Prepared::Changes(read_changes(rt, file)?)),
        Wanted::Get { file, .. } => Ok(Prepared::Target(Target::open(rt, file)?)),
        _ => Ok(Prepared::Nothing),
    }
}

/// The command that what is wanted is carried out by, with what was read for it, if there is one.
fn command_of<'a>(wanted: &Wanted<'a>, prepared: &'a Prepared<'_>) -> Option<Command<'a>> {
    match (wanted, prepared) {
        (Wanted::Get { path, .. }, _) => Some(Command::Cat(path)),
        (Wanted::Put { path, .. }, Prepared::Content(content)) => Some(Command::Put {
            path,
            content,
        }),
        (Wanted::Admin(_), Prepared::Changes(changes)) => Some(Command::Admin(changes)),
        _ => None,
    }
}

/// Does in a session what is wanted, which is no batch, nor what is done by the files of a folder alone.
fn work<S: Asks>(
    rt: &HostRuntime,
    line: &Line<'_>,
    session: &mut S,
    wanted: &Wanted<'_>,
    prepared: &Prepared<'_>,
) -> Result<Outcome, Hindrance> {
    if let Some(command) = command_of(wanted, prepared) {
        return Ok(Outcome::Answer(session.run(&command)));
    }
    match wanted {
        Wanted::Run(command) => Ok(Outcome::Answer(session.run(command))),
        Wanted::Move { path, to } => Ok(Outcome::Answer(session.rename(path, to))),
        Wanted::PutTree { path, dir } => {
            let context = Context::new(rt, line.dir, session)?;
            Ok(Outcome::Answer(put_tree(context, dir, path)?))
        }
        Wanted::GetTree { path, dir } => {
            let context = Context::new(rt, line.dir, session)?;
            Ok(Outcome::Answer(get_tree(context, path, dir)?))
        }
        Wanted::Users => list_users(rt, session, line.user),
        _ => Err(Hindrance::Told(WORDS)),
    }
}

/// Does in a session what is wanted, and tells what stands at its path, where that leads to nothing of its kind.
pub(crate) fn work_and_look<S: Asks>(
    rt: &HostRuntime,
    line: &Line<'_>,
    session: &mut S,
    wanted: &Wanted<'_>,
    prepared: &Prepared<'_>,
) -> (Result<Outcome, Hindrance>, Found) {
    let outcome = work(rt, line, session, wanted, prepared);
    let found = match answer_in(&outcome) {
        Some(answer) => found_beside(session, wanted, answer),
        None => Found::Unasked,
    };
    (outcome, found)
}

/// What came of what was wanted, once a file has its bytes, if one gets any.
pub(crate) fn finish(
    rt: &HostRuntime,
    prepared: &mut Prepared<'_>,
    outcome: Result<Outcome, Hindrance>,
) -> Result<Outcome, Hindrance> {
    let taken = match prepared {
        Prepared::Target(target) => target.take(rt, answer_in(&outcome)),
        _ => Ok(false),
    };
    match taken {
        Ok(false) => outcome,
        Ok(true) => {
            let_go(outcome);
            Ok(Outcome::Answer(Answer::Done))
        }
        Err(hindrance) => {
            let_go(outcome);
            Err(hindrance)
        }
    }
}

/// Ends a client, and gives how many leaves its newest key has left, if that is told. Where no device failed it, the
/// command came to its end.
fn end_client(rt: &HostRuntime, folder: &str, client: OwnClient) -> Option<usize> {
    if !matches!(client.phase(), Phase::Failed) {
        end_work(rt, folder);
    }
    let parts = client.close();
    let leaves = match parts.keys.last() {
        Some((_, ledger)) => few_leaves(ledger.text()),
        None => None,
    };
    let_go(parts);
    leaves
}

/// Ends a session, and gives how many leaves its newest key has left, if that is told. The blocks that it has are kept
/// in the folder; that they can't be is no fault.
pub(crate) fn end<H: Net<Stream = TcpStream>>(
    rt: &HostRuntime,
    folder: &str,
    session: Asking<'_, H>,
) -> Option<usize> {
    let (client, kept) = session.into_parts();
    let leaves = end_client(rt, folder, client);
    let _ = keep_blocks(rt, folder, &kept);
    let_go(kept);
    leaves
}

/// Does in a session of its own what a line wants, with what was read for it.
fn carry_out<H: Net<Stream = TcpStream> + Threads + Sync>(
    rt: &HostRuntime,
    host: &H,
    line: &Line<'_>,
    keys: &Keys,
    prepared: &Prepared<'_>,
    beside: &mut Beside,
) -> Result<Outcome, Hindrance> {
    let Opened { client, locks } = lock_and_open(rt, host, line, keys)?;
    let contact = Contact::new(rt);
    let server = Server {
        host,
        address: line.server,
        contact: &contact,
    };
    let mut session = Asking::new(rt, server, client, read_blocks(rt, line.dir));
    let (outcome, found) = work_and_look(rt, line, &mut session, &line.wanted, prepared);
    *beside = Beside {
        reach: contact.reach.get(),
        leaves: end(rt, line.dir, session),
        found,
    };
    let_go(locks);
    outcome
}

/// Does in a session of its own what a line wants.
fn obey_alone<H: Net<Stream = TcpStream> + Threads + Sync>(
    rt: &HostRuntime,
    host: &H,
    line: &Line<'_>,
    beside: &mut Beside,
) -> Result<Outcome, Hindrance> {
    let keys = read_keys(rt, line.dir, line.user)?;
    let mut prepared = prepare(rt, &line.wanted)?;
    let outcome = carry_out(rt, host, line, &keys, &prepared, beside);
    finish(rt, &mut prepared, outcome)
}

/// The public key of a seed.
fn public_key<H: Threads + Sync>(
    rt: &HostRuntime,
    host: &H,
    seed: &Seed,
) -> Result<PublicKey, Hindrance> {
    let key = drawn_key(host, rt.alloc(), seed.seed, seed.id)?;
    let public = key.public();
    let_go(key);
    Ok(public)
}

/// The own public keys, the oldest first.
pub(crate) fn public_keys<H: Threads + Sync>(
    rt: &HostRuntime,
    host: &H,
    line: &Line<'_>,
) -> Result<Vec<PublicKey>, Hindrance> {
    let seeds = read_seeds(rt, line.dir, line.user)?;
    check_user(rt, line.dir, line.user)?;
    let mut keys = Vec::new(rt.alloc());
    for seed in &seeds {
        keys.push(public_key(rt, host, seed)?)?;
    }
    Ok(keys)
}

/// Does what a line wants, and tells what is told beside it.
pub(crate) fn obey<H: Net<Stream = TcpStream> + Threads + Sync>(
    rt: &HostRuntime,
    host: &H,
    line: &Line<'_>,
    beside: &mut Beside,
) -> Result<Outcome, Hindrance> {
    match &line.wanted {
        Wanted::Key => Ok(Outcome::Keys(public_keys(rt, host, line)?)),
        Wanted::Status => Ok(Outcome::Status(read_standing(rt, host, line)?)),
        Wanted::Batch { stops } => Ok(Outcome::Ended(carry_out_batch(rt, host, line, *stops)?)),
        Wanted::Renew { early } => Ok(Outcome::Renewed(renew(rt, host, line, *early)?)),
        _ => obey_alone(rt, host, line, beside),
    }
}
