//! User 0's client stops at each call of its devices.

use crate::here::Here;
use client_verify::{ClientError, Phase};
use layout::User;
use std::alloc::Global;
use std::process::Abort;
use tests_aids::stops::{Act, Failing, Kept, Refused, Signs, Told, sweep};
use tests_aids::texts::first_reply;
use tests_aids::{Aided, check};
use tests_client_aids::clients::{MemoryClient, begun, breaks, opened, signed};
use tests_client_aids::crashes::{closed, declared, structure};

/// User 0's client, whose first operation has no changes.
#[derive(Clone, Copy)]
struct Client0;

/// What it tells.
fn told_by(rt: &impl Aided, client: &MemoryClient) -> Told {
    let (next, text) = match client.phase() {
        Phase::Idle => (Act::Declare, Vec::new(rt.alloc())),
        Phase::Declared => (Act::Sign, declared(rt, client)),
        _ => (Act::Nothing, structure(rt, client)),
    };
    Told {
        next,
        number: client.number(),
        text,
    }
}

/// It signs over the reply to its certificate.
fn sign_first(rt: &impl Aided, client: &mut MemoryClient) -> Result<Vec<u8>, ClientError> {
    let update = declared(rt, client);
    breaks(rt, client, &first_reply(rt, &update), None);
    signed(rt, client)
}

/// Does this to an open client.
fn act_on(rt: &impl Aided, client: &mut MemoryClient, act: Act) -> Result<(), ClientError> {
    let text = match act {
        Act::Nothing => return Ok(()),
        Act::Declare => begun(rt, client, &[], &[]),
        Act::Sign => sign_first(rt, client),
    };
    match text {
        Ok(_text) => Ok(()),
        Err(error) => Err(error),
    }
}

/// Why it is refused.
fn refused(rt: &impl Aided, error: ClientError) -> Refused {
    match error {
        ClientError::Device => Refused::Device,
        ClientError::Foreign => Refused::Foreign,
        ClientError::NoLeaf => Refused::NoLeaf,
        _ => rt.fail(error),
    }
}

/// Does this to an open client, which is closed.
fn closed_after(rt: &impl Aided, client: MemoryClient, act: Act) -> (Result<Told, Refused>, Kept) {
    let mut client = client;
    let told = match act_on(rt, &mut client, act) {
        Ok(()) => Ok(told_by(rt, &client)),
        Err(error) => Err(refused(rt, error)),
    };
    (told, closed(rt, client))
}

impl<R: Alloc<A = Global> + Abort> Signs<(R, Here)> for Client0 {
    fn done(&self, rt: &(R, Here), kept: Kept, act: Act) -> (Result<Told, Refused>, Kept) {
        let pinned = kept.key.public();
        match opened(rt, User::superuser(), pinned, kept) {
            Ok(client) => closed_after(rt, client, act),
            Err((error, kept)) => (Err(refused(rt, error)), kept),
        }
    }
}

/// User 0's client is stopped at each call of a device: at how many, and in how many cases.
fn client_stops(rt: &(impl Alloc<A = Global> + Abort), failing: Failing) -> (u64, usize) {
    let client = Client0;
    sweep(&(rt, Here), &client, failing)
}

/// So many calls, in so many cases, as where what it releases stands alone.
#[test]
fn each_call_of_a_ledger_stops_a_client(rt: HostRuntime) {
    let found = client_stops(&rt, Failing::Ledger);
    check(&(rt, Here), found == (25, 145), "all of them");
}

#[test]
fn each_call_of_a_journal_stops_a_client(rt: HostRuntime) {
    let found = client_stops(&rt, Failing::Journal);
    check(&(rt, Here), found == (38, 1066), "all of them");
}
