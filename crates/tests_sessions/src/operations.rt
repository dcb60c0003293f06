//! Operations that no command makes, of many changes at once: names for one file, and files without a name.

use crate::memory::MemoryServer;
use crate::town::Town;
use client_verify::Step;
use layout::{Digest, User};
use std::alloc::Global;
use tests_aids::numbers::{entry, i_number, principal};
use tests_aids::texts::joined;
use tests_aids::{Aided, found, given};
use tests_client_aids::changes::{Planned, lay, nothing, plan_change};
use tests_client_aids::clients::{
    MemoryClient, declare_changes, end, hand, open_over, sign, step_on,
};
use tests_client_aids::crashes::{closed, structure};
use transport::{Request, Transport};
use update_cert::{Action, Change};
use wire::{RequestKind, Status, reply_of};

/// How many blocks are handed in at most for one reply.
const BOUND: usize = 100;

/// What the server answers to a request, with status Ok.
pub(crate) fn answered(
    rt: &impl Aided,
    server: &mut MemoryServer,
    kind: RequestKind,
    text: &[u8],
) -> Vec<u8> {
    let body = given(rt, server.exchange(&Request::new(kind, text)), "a reply");
    match reply_of(&body) {
        Some((Status::Ok, payload)) => joined(rt, &[payload]),
        _ => rt.fail("the server declines"),
    }
}

/// Stores these texts.
fn store(rt: &impl Aided, server: &mut MemoryServer, texts: &[Vec<u8>]) {
    for text in texts {
        let _digest = answered(rt, server, RequestKind::Put, text);
    }
}

/// Hands in the blocks that a reply asks for, from this one on: the texts that are to be stored.
fn checked_from(
    rt: &impl Aided,
    client: &mut MemoryClient,
    server: &mut MemoryServer,
    first: Digest,
) -> Vec<Vec<u8>> {
    let mut digest = first;
    for _ in 0..BOUND {
        let block = answered(rt, server, RequestKind::Get, digest.as_bytes());
        match hand(rt, client, Some(&block)) {
            Step::Need(next) => digest = next,
            Step::Store(texts) => return texts,
            Step::Broken(rule) => rt.fail(rule),
        }
    }
    rt.fail("too many blocks")
}

/// The reply breaks no rule: the texts that are to be stored.
fn checked(
    rt: &impl Aided,
    client: &mut MemoryClient,
    server: &mut MemoryServer,
    reply: &[u8],
) -> Vec<Vec<u8>> {
    match step_on(rt, client, reply) {
        Step::Need(digest) => checked_from(rt, client, server, digest),
        Step::Store(texts) => texts,
        Step::Broken(rule) => rt.fail(rule),
    }
}

/// An operation of a client that was committed.
fn operate(
    rt: &impl Aided,
    client: &mut MemoryClient,
    server: &mut MemoryServer,
    planned: Planned,
) {
    let Planned { changes, laid } = planned;
    store(rt, server, &laid);
    let update = declare_changes(rt, client, changes, laid);
    let reply = answered(rt, server, RequestKind::Update, &update);
    let texts = checked(rt, client, server, &reply);
    store(rt, server, &texts);
    let structure = sign(rt, client);
    let _nothing = answered(rt, server, RequestKind::Commit, &structure);
    end(rt, client, Status::Ok);
}

/// What the changes of an operation do, each with a number.
#[derive(Clone, Copy)]
pub(crate) enum Many {
    /// Each gives what stands at user 0's i-number 3 one more name in the root directory: `e` and the number.
    Names,
    /// Each makes a file at the i-number of user 0.
    Files,
}

/// Plans what is done with a number.
fn plan_one(rt: &impl Aided, planned: &mut Planned, many: Many, number: u16) {
    let (place, action) = match many {
        Many::Names => {
            let name = given(rt, format!(in rt.alloc(); "e{number}"), "memory");
            (2, Action::Link(entry(rt, name.as_bytes(), (0, 3))))
        }
        Many::Files => (number, Action::Make(lay(rt, planned, b"file"))),
    };
    let change = Change::new(principal(rt, 0), i_number(rt, place), action);
    plan_change(rt, planned, change);
}

/// Plans what is done with the numbers from the first one on, below the end.
fn planned(rt: &impl Aided, many: Many, first: u16, end: u16) -> Planned {
    let mut planned = nothing(rt);
    for number in first..end {
        plan_one(rt, &mut planned, many, number);
    }
    planned
}

/// User 0's client, opened over what it keeps, makes so many operations of so many changes each, with the numbers from
/// the first one on. An operation has at most sixteen changes.
pub(crate) fn make_many(
    rt: &impl Aided,
    town: &mut Town,
    many: Many,
    first: u16,
    (operations, each): (u8, u16),
) {
    let kept = town.leave_home(rt, 0);
    let mut server = town.leave_server(rt);
    let mut client = open_over(rt, User::superuser(), town.pinned, kept);
    // What it committed last is committed again, as it is when it is opened.
    let last = structure(rt, &client);
    let _nothing = answered(rt, &mut server, RequestKind::Commit, &last);
    end(rt, &mut client, Status::Ok);
    let mut next = first;
    for _operation in 0..operations {
        let end = next.saturating_add(each);
        let planned = planned(rt, many, next, end);
        operate(rt, &mut client, &mut server, planned);
        next = end;
    }
    town.come_home(0, closed(rt, client));
    town.bring_back(server);
}
