//! The worker of one connection.

ghost use Rattle.std.specs.Prelude.{◌≡◌, ◌≢◌, ◌⊎◌, ◌+◌, ◌<◌, ◌++◌, [], List, ℕ, OnOk, IfErr, OnErr, Err, true};
ghost use Rattle.std.specs.Prelude.{length};
ghost use Rattle.leaf_ledger.specs.Device.{HasRisen, HasCause};
ghost use Rattle.server_workers.specs.declared.ended.Ended.TheVariants as ended;
ghost use Rattle.connection.specs.Told.{goes_on};
ghost use Rattle.server_workers.specs.Conversation.{Conversed, IsLater, keeps};
ghost use Rattle.server_workers.specs.Conversing.{GoesOn, IsCaused, ToldPart, ToldWhole, WasReplied, HadStopped};

use crate::ended::Ended;
use crate::gate::Gate;
use crate::reply::ReplyBody;
use crate::seen::SeenKey;
use crate::serves::Serves;
use crate::tally::{Tally, WorkerTally};
use connection::{Connection, ConnectionFault};
use layout::Memory;
use std::alloc::Allocator;
use std::sync::Wait;
use std::sync::ledger::Ledger;
use wire::{FrameError, Frames};

/// How many bytes a worker reads at a time.
const READ_SIZE: usize = 16_384;

/// A reply whose payload has more bytes is written in two parts, of which no copy is made.
const SHORT_PAYLOAD: usize = 16_384;

impl From<Memory> for Ended {
    ghost from_gives = { λ _ e. e ≡ ended.Memory };

    fn from(_e: Memory) -> Ended {
        Ended::Memory
    }
}

impl From<ConnectionFault> for Ended {
    ghost from_gives = { λ _ e. e ≡ ended.Fault };

    fn from(_e: ConnectionFault) -> Ended {
        Ended::Fault
    }
}

/// Writes the frame of a reply at once.
fn write_whole<A: Allocator, C: Connection>(
    alloc: A,
    connection: &mut C,
    reply: &ReplyBody<'_, A>,
) -> Result<(), Ended>
    ensures ok { OnOk result (ToldWhole reply.now (C.told connection.old) (C.told connection.new)) }
    ensures err { IfErr result (λ _. ToldPart reply.now (C.told connection.old) (C.told connection.new)) }
    ensures broken { IfErr result (λ e. (e ≡ ended.Fault) ⊎ (e ≡ ended.Memory)) }
    ensures cause { IsCaused (C.fault_count connection.old) (C.fault_count connection.new) result }
{
    let bytes = reply.frame(alloc)?;
    connection.write(&bytes)?;
    Ok(())
}

/// Writes the head of a reply's frame, and then its payload from where it lies.
fn write_parts<A: Allocator, C: Connection>(
    connection: &mut C,
    reply: &ReplyBody<'_, A>,
) -> Result<(), ConnectionFault>
    ensures ok { OnOk result (ToldWhole reply.now (C.told connection.old) (C.told connection.new)) }
    ensures err { IfErr result (λ _. ToldPart reply.now (C.told connection.old) (C.told connection.new)) }
    ensures cause { HasCause (C.fault_count connection.old) (C.fault_count connection.new) result }
{
    connection.write(&reply.head())?;
    connection.write(reply.payload())
}

/// Writes the frame of a reply.
fn answer<A: Allocator, C: Connection>(
    alloc: A,
    connection: &mut C,
    reply: &ReplyBody<'_, A>,
) -> Result<(), Ended>
    ensures ok { OnOk result (ToldWhole reply.now (C.told connection.old) (C.told connection.new)) }
    ensures err { IfErr result (λ _. ToldPart reply.now (C.told connection.old) (C.told connection.new)) }
    ensures broken { IfErr result (λ e. (e ≡ ended.Fault) ⊎ (e ≡ ended.Memory)) }
    ensures cause { IsCaused (C.fault_count connection.old) (C.fault_count connection.new) result }
{
    if reply.payload().len() <= SHORT_PAYLOAD {
        return write_whole(alloc, connection, reply);
    }
    write_parts(connection, reply)?;
    Ok(())
}

/// Reads on.
fn read_on<A: Allocator, C: Connection>(
    connection: &mut C,
    frames: &mut Frames<A>,
    buffer: &mut [u8],
) -> Result<(), Ended>
    requires { 0 < length buffer.old }
    ensures ok { OnOk result ((piece : List ℕ) × (C.told connection.new ≡ goes_on piece [] (C.told connection.old))
        × (frames.new ≡ frames.old ++ piece)) }
    ensures err { OnErr result ((piece : List ℕ) × (C.told connection.new ≡ goes_on piece [] (C.told connection.old))
        × (result ≡ Err ended.End → piece ≡ [])) }
    ensures kind { IfErr result (λ e. (e ≢ ended.Length) × (e ≢ ended.Stopped)) }
    ensures end { result ≡ Err ended.End → C.is_at_end connection.new ≡ true }
    ensures cause { IsCaused (C.fault_count connection.old) (C.fault_count connection.new) result }
{
    let count = connection.read(buffer)?;
    if count == 0 {
        return Err(Ended::End);
    }
    frames.feed(&buffer[..count])?;
    Ok(())
}

/// Replies to the body of a request's frame.
fn reply_to<A: Allocator + Copy, G: Gate, C: Connection, L: Ledger, R: Wait, S: Serves<A, L, R>>(
    rt: &R,
    connection: &mut C,
    server: &S,
    gate: &G,
    tally: &mut Tally<L>,
    seen: &mut Option<SeenKey>,
    receipt: &mut S::Receipt,
    body: &[u8],
) -> Result<(), Ended>
    requires { 0 < tally.old.share.parts }
    ensures replied { WasReplied (S.server receipt.new) body.now (C.told connection.old) (C.told connection.new)
        tally.old.answered tally.new.answered result
        ⊎ HadStopped (S.server receipt.new) (C.told connection.old) (C.told connection.new)
        tally.old.answered tally.new.answered result }
    ensures later { IsLater (S.server receipt.old) (S.server receipt.new) }
    ensures end { result ≡ Err ended.End → ⊥ }
    ensures stopped { result ≡ Err ended.Stopped → keeps (S.server receipt.new) ≡ true }
    ensures cause { IsCaused (C.fault_count connection.old) (C.fault_count connection.new) result }
    ensures parts { tally.new.share.parts ≡ tally.old.share.parts }
{
    match server.reply_to(rt, gate, tally, seen, receipt, body) {
        Some(reply) => answer(server.alloc(), connection, &reply),
        None => Err(Ended::Stopped),
    }
}

/// Replies to the next frame, or reads on where it isn't whole.
#[tactic(auto, using(crate::proofs::Conversations::not_later))]
fn step<A: Allocator + Copy, G: Gate, C: Connection, L: Ledger, R: Wait, S: Serves<A, L, R>>(
    rt: &R,
    connection: &mut C,
    server: &S,
    gate: &G,
    tally: &mut Tally<L>,
    seen: &mut Option<SeenKey>,
    receipt: &mut S::Receipt,
    frames: &mut Frames<A>,
    buffer: &mut [u8],
) -> Result<(), Ended>
    requires part { 0 < tally.old.share.parts }
    requires room { 0 < length buffer.old }
    ensures goes_on { GoesOn (S.server receipt.old) (S.server receipt.new)
        (record { told = C.told connection.old; answered = tally.old.answered; waiting = frames.old })
        result (record { told = C.told connection.new; answered = tally.new.answered; waiting = frames.new }) }
    ensures later { IsLater (S.server receipt.old) (S.server receipt.new) }
    ensures end { result ≡ Err ended.End → C.is_at_end connection.new ≡ true }
    ensures stopped { result ≡ Err ended.Stopped → keeps (S.server receipt.new) ≡ true }
    ensures cause { IsCaused (C.fault_count connection.old) (C.fault_count connection.new) result }
    ensures parts { tally.new.share.parts ≡ tally.old.share.parts }
{
    match frames.next_frame() {
        Ok(Some(request)) => reply_to(rt, connection, server, gate, tally, seen, receipt, &request),
        Ok(None) => read_on(connection, frames, buffer),
        Err(FrameError::Length) => Err(Ended::Length),
        Err(FrameError::Memory) => Err(Ended::Memory),
    }
}

/// Replies to the requests of a connection, up to its end or fault, or to a length at fault, or until the server stops.
/// Of a server that keeps what it has each answer to a call tells of calls alone that the receipt shows to be synced.
pub fn converse<
    A: Allocator + Copy,
    G: Gate,
    C: Connection,
    L: Ledger,
    R: Wait,
    S: Serves<A, L, R>,
>(
    rt: &R,
    connection: &mut C,
    server: &S,
    gate: &G,
    tally: &mut Tally<L>,
    receipt: &mut S::Receipt,
) -> Ended
    requires { 0 < tally.old.share.parts }
    ensures conversed { Conversed (S.server receipt.new) (C.told connection.old) (C.told connection.new)
        tally.old.answered tally.new.answered result }
    ensures later { IsLater (S.server receipt.old) (S.server receipt.new) }
    // It was read to its end.
    ensures end { result ≡ ended.End → C.is_at_end connection.new ≡ true }
    // Only a server that keeps what it has stops.
    ensures stopped { result ≡ ended.Stopped → keeps (S.server receipt.new) ≡ true }
    // It did fail.
    ensures fault { result ≡ ended.Fault → HasRisen (C.fault_count connection.old) (C.fault_count connection.new) }
    ensures parts { tally.new.share.parts ≡ tally.old.share.parts }
{
    let Ok(mut buffer) = vec![in server.alloc(); 0u8; READ_SIZE] else {
        return Ended::Memory;
    };
    let mut frames = Frames::new(server.alloc());
    let mut seen = None;
    for _ in rt.forever() {
        let stepped = step(
            rt,
            connection,
            server,
            gate,
            tally,
            &mut seen,
            receipt,
            &mut frames,
            &mut buffer,
        );
        if let Err(ended) = stepped {
            return ended;
        }
    }
    unreachable!()
}

/// A worker's whole work.
pub(crate) fn work<
    A: Allocator + Copy,
    G: Gate,
    C: Connection,
    L: Ledger,
    R: Wait,
    S: Serves<A, L, R>,
>(rt: &R, mut connection: C, server: &S, gate: &G, part: WorkerTally<L>) -> WorkerTally<L> {
    let mut tally = part.tally();
    let mut receipt = server.first_receipt(rt);
    let _ended = converse(rt, &mut connection, server, gate, &mut tally, &mut receipt);
    WorkerTally::of(tally)
}
