//! The steps of a client's operation in a script, and its looks.

ghost use Rattle.std.specs.Prelude.{◌≡◌, IsSome};

use crate::blocks::StoredBlocks;
use crate::outcome::Outcome;
use crate::players::Player;
use crate::server::exchange;
use crate::who::Who;
use client_verify::{Client, ClientError, Look, Phase, Step, are_laid};
use hostile_server::{Edit, Hostile};
use layout::{INumber, Memory, Principal, let_go, put_in};
use leaf_ledger::Device;
use std::alloc::Allocator;
use std::sync::Wait;
use update_cert::{Change, MOST_CHANGES};
use wire::{RequestKind, Status};

/// What a client's error comes to.
fn stopped<A: Allocator>(who: Who, error: ClientError) -> Result<Outcome<A>, Memory> {
    match error {
        ClientError::Memory => Err(Memory),
        ClientError::NoLeaf => Ok(Outcome::NoLeaf(who)),
        ClientError::NoNumber => Ok(Outcome::NoNumber(who)),
        ClientError::Device => Ok(Outcome::Device(who)),
        ClientError::Foreign => Ok(Outcome::Foreign(who)),
        ClientError::Damaged => Ok(Outcome::Damaged(who)),
        ClientError::NoKey => Ok(Outcome::NoKey(who)),
    }
}

/// Stores what was laid out, and declares the operation.
fn declare<R: Wait, L: Device, J: Device, A: Allocator + Copy>(
    alloc: A,
    blocks: &StoredBlocks<'_, R, A>,
    who: Who,
    client: &mut Client<L, J, A>,
    changes: &[Change<A>],
    laid: &[Vec<u8, A>],
) -> Result<Outcome<A>, Memory>
    requires { client.old.phase ≡ Phase.Idle }
{
    if changes.len() > MOST_CHANGES || !are_laid(alloc, laid, changes)? || !blocks.put_all(laid)? {
        return Ok(Outcome::Error);
    }
    match client.begin(changes, laid) {
        Ok(_) => Ok(Outcome::Begun(who, client.number())),
        Err(error) => stopped(who, error),
    }
}

/// Stores what was laid out, and declares the operation, where the client has none.
pub(crate) fn begin<R: Wait, A: Allocator + Copy>(
    alloc: A,
    blocks: &StoredBlocks<'_, R, A>,
    player: &mut Player<A>,
    changes: &[Change<A>],
    laid: &[Vec<u8, A>],
) -> Result<Outcome<A>, Memory> {
    let who = player.who;
    match player.client.phase() {
        Phase::Idle => declare(alloc, blocks, who, &mut player.client, changes, laid),
        _ => Ok(Outcome::Busy(who)),
    }
}

/// Hands a reply in, and each block that it asks for: what the client comes to in the end. By each that is taken where
/// another is asked for more are held, so that the bound is never met.
fn judged<R: Wait, L: Device, J: Device, A: Allocator + Copy>(
    blocks: &StoredBlocks<'_, R, A>,
    client: &mut Client<L, J, A>,
    reply: &[u8],
) -> Result<Step<A>, ClientError>
    requires { client.old.phase ≡ Phase.Declared }
{
    let mut step = client.on_reply(reply)?;
    for _ in 0..u32::MAX {
        let digest = match &step {
            Step::Need(digest) => *digest,
            _ => break,
        };
        if !client.wants() {
            break;
        }
        let next = client.on_block(blocks.get(digest))?;
        put_in(&mut step, next);
    }
    Ok(step)
}

/// Signs what was accepted. The structure's text is put into `last`.
fn signed<L: Device, J: Device, A: Allocator + Copy>(
    alloc: A,
    who: Who,
    client: &mut Client<L, J, A>,
    last: &mut Vec<u8, A>,
) -> Result<Outcome<A>, Memory> {
    if !client.ready() {
        return Ok(Outcome::Error);
    }
    match client.sign() {
        Ok(text) => *last = text,
        Err(error) => return stopped(who, error),
    }
    if !client.has_view() {
        return Ok(Outcome::Error);
    }
    let lost = Vec::from_slice(alloc, client.lost())?;
    Ok(Outcome::Accepted(who, client.number(), lost))
}

/// Hands the reply in with its blocks and, where it is accepted, stores the new texts and signs.
fn accept<R: Wait, L: Device, J: Device, A: Allocator + Copy>(
    alloc: A,
    blocks: &StoredBlocks<'_, R, A>,
    who: Who,
    client: &mut Client<L, J, A>,
    last: &mut Vec<u8, A>,
    reply: &[u8],
) -> Result<Outcome<A>, Memory>
    requires { client.old.phase ≡ Phase.Declared }
{
    match judged(blocks, client, reply) {
        Ok(Step::Broken(rule)) => Ok(Outcome::Broken(who, rule)),
        Ok(Step::Need(_)) => Ok(Outcome::Error),
        Ok(Step::Store(texts)) => {
            let is_stored = blocks.put_all(&texts);
            let_go(texts);
            if is_stored? {
                signed(alloc, who, client, last)
            } else {
                Ok(Outcome::Error)
            }
        }
        Err(error) => stopped(who, error),
    }
}

/// The reply after an edit, if there is one.
fn edited<A: Allocator + Copy>(
    server: &Hostile<A>,
    reply: Vec<u8, A>,
    edit: Option<Edit>,
) -> Result<Vec<u8, A>, Memory> {
    match edit {
        Some(edit) => server.edit(reply, edit),
        None => Ok(reply),
    }
}

/// Sends the declared certificate: what came, or why it couldn't be signed again. While it is declined for its
/// signature, it is signed by each other key of the client once, from the newest to the first, and sent again.
fn sent<L: Device, J: Device, A: Allocator + Copy>(
    alloc: A,
    server: &mut Hostile<A>,
    client: &mut Client<L, J, A>,
) -> Result<Result<(Status, Vec<u8, A>), ClientError>, Memory>
    requires { client.old.phase ≡ Phase.Declared }
{
    let mut answer = exchange(alloc, server, RequestKind::Update, client.declared())?;
    if answer.0 != Status::BadSignature {
        return Ok(Ok(answer));
    }
    let signer = client.declared_by();
    for key in (0..client.key_count()).rev() {
        if signer == Some(key) || key >= client.key_count() || client.phase() != Phase::Declared {
            continue;
        }
        let text = match client.resign(key) {
            Ok(text) => text,
            Err(error) => return Ok(Err(error)),
        };
        let next = exchange(alloc, server, RequestKind::Update, &text)?;
        put_in(&mut answer, next);
        if answer.0 != Status::BadSignature {
            break;
        }
    }
    Ok(Ok(answer))
}

/// Sends the declared certificate, and takes the reply after this edit of it. Where it is accepted, the text of the
/// signed structure is the client's last.
pub(crate) fn update<R: Wait, A: Allocator + Copy>(
    alloc: A,
    server: &mut Hostile<A>,
    edit: Option<Edit>,
    blocks: &StoredBlocks<'_, R, A>,
    player: &mut Player<A>,
) -> Result<Outcome<A>, Memory> {
    let who = player.who;
    let client = &mut player.client;
    if client.phase() != Phase::Declared {
        return Ok(Outcome::Busy(who));
    }
    let (status, reply) = match sent(alloc, server, client)? {
        Ok(answer) => answer,
        Err(error) => return stopped(who, error),
    };
    if status != Status::Ok {
        return Ok(Outcome::Declined(who, status));
    }
    let reply = edited(server, reply, edit)?;
    if client.phase() != Phase::Declared {
        return Ok(Outcome::Busy(who));
    }
    accept(alloc, blocks, who, client, &mut player.last, &reply)
}

/// Sends the signed structure, and takes the status.
pub(crate) fn commit<A: Allocator + Copy>(
    alloc: A,
    server: &mut Hostile<A>,
    player: &mut Player<A>,
) -> Result<Outcome<A>, Memory> {
    let who = player.who;
    let client = &mut player.client;
    if client.phase() != Phase::Signed {
        return Ok(Outcome::Busy(who));
    }
    let (status, _payload) = exchange(alloc, server, RequestKind::Commit, client.signed())?;
    client.on_committed(status);
    if status == Status::Ok {
        Ok(Outcome::Committed(who))
    } else {
        Ok(Outcome::Declined(who, status))
    }
}

/// Looks at an i-number, and hands in each block that the look asks for.
fn looked<R: Wait, L: Device, J: Device, A: Allocator + Copy>(
    blocks: &StoredBlocks<'_, R, A>,
    client: &mut Client<L, J, A>,
    principal: Principal,
    i_number: INumber,
) -> Result<Look<A>, ClientError>
    requires { IsSome client.old.view }
{
    let mut look = client.look(principal, i_number)?;
    for _ in 0..u32::MAX {
        let digest = match &look {
            Look::Need(digest) => *digest,
            _ => break,
        };
        if !client.looking() {
            break;
        }
        let next = client.give(blocks.get(digest))?;
        put_in(&mut look, next);
    }
    Ok(look)
}

/// What stands at an i-number in the client's view.
pub(crate) fn show<R: Wait, A: Allocator + Copy>(
    blocks: &StoredBlocks<'_, R, A>,
    player: &mut Player<A>,
    principal: Principal,
    i_number: INumber,
) -> Result<Outcome<A>, Memory> {
    let who = player.who;
    let client = &mut player.client;
    if !client.has_view() {
        return Ok(Outcome::Nothing(who));
    }
    match looked(blocks, client, principal, i_number) {
        Ok(Look::File(bytes)) => Ok(Outcome::File(who, bytes)),
        Ok(Look::Dir(directory)) => Ok(Outcome::Directory(who, directory)),
        Ok(Look::None) => Ok(Outcome::Nothing(who)),
        Ok(Look::Broken(rule)) => Ok(Outcome::Broken(who, rule)),
        Ok(Look::Need(_) | Look::Kind(_) | Look::Free(_)) => Ok(Outcome::Error),
        Err(error) => stopped(who, error),
    }
}

/// What a client's phase is once it was opened again.
pub(crate) fn restarted<A: Allocator>(who: Who, phase: Phase) -> Outcome<A> {
    match phase {
        Phase::Idle => Outcome::Idle(who),
        Phase::Declared => Outcome::Declared(who),
        Phase::Signed => Outcome::Signed(who),
        Phase::Failed => Outcome::Device(who),
    }
}
