//! What a user releases stops at each call of its devices.

use crate::crashes::Host;
use crate::here::Here;
use crate::releases::{InMemory, declare, kept_of, open, sign};
use client_releases::{ClientError, Phase};
use tests_aids::stops::{Act, Failing, Kept, Refused, Signs, Told, sweep};

/// User 0's releases.
#[derive(Clone, Copy)]
struct User0;

/// What they tell.
fn told_by(rt: &impl Host, releases: &InMemory) -> Told {
    let next = match releases.phase() {
        Phase::Idle => Act::Declare,
        Phase::Declared => Act::Sign,
        _ => Act::Nothing,
    };
    Told {
        next,
        number: releases.number(),
        text: Vec::from_slice(rt.alloc(), releases.text()).expect(rt, "memory"),
    }
}

/// Whether a leaf is free.
fn has_free_leaf(rt: &impl Host, releases: &InMemory) -> bool {
    assert!(rt; releases.phase() != Phase::Failed, "no device failed");
    releases.type_invariant();
    releases.has_free_leaf(0)
}

/// Declares what comes next, or else signs it.
fn release(rt: &impl Host, releases: &mut InMemory, act: Act) -> Result<Vec<u8>, ClientError> {
    if !has_free_leaf(rt, releases) {
        return Err(ClientError::NoLeaf);
    }
    let next = releases.number().wrapping_add(1);
    match act {
        Act::Declare => declare(rt, releases, next),
        _ => sign(rt, releases),
    }
}

/// Does this to what is open.
fn act_on(rt: &impl Host, releases: &mut InMemory, act: Act) -> Result<(), ClientError> {
    if act == Act::Nothing {
        return Ok(());
    }
    match release(rt, releases, act) {
        Ok(_text) => Ok(()),
        Err(error) => Err(error),
    }
}

/// Why it is refused.
fn refused(rt: &impl Host, error: ClientError) -> Refused {
    match error {
        ClientError::Device => Refused::Device,
        ClientError::Foreign => Refused::Foreign,
        ClientError::NoLeaf => Refused::NoLeaf,
        _ => panic!(rt; "{error}"),
    }
}

/// Does this to what is open, and closes it.
fn closed_after(rt: &impl Host, releases: InMemory, act: Act) -> (Result<Told, Refused>, Kept) {
    let mut releases = releases;
    let told = match act_on(rt, &mut releases, act) {
        Ok(()) => Ok(told_by(rt, &releases)),
        Err(error) => Err(refused(rt, error)),
    };
    (told, kept_of(rt, releases.close()))
}

impl<R: Host> Signs<(R, Here)> for User0 {
    fn done(&self, rt: &(R, Here), kept: Kept, act: Act) -> (Result<Told, Refused>, Kept) {
        let rt = &rt.0;
        match open(rt, 0, kept) {
            Ok(releases) => closed_after(rt, releases, act),
            Err((error, kept)) => (Err(refused(rt, error)), kept),
        }
    }
}

/// What user 0 releases is stopped at each call of a device: at how many, and in how many cases.
fn user_stops(rt: &impl Host, failing: Failing) -> (u64, usize) {
    let user = User0;
    sweep(&(rt, Here), &user, failing)
}

/// The first opening makes five calls, the other four make four each, and each of two leaves takes two. After a call
/// that stops there is no crash, or one: so there are two cases where nothing waits for a sync, 7 where an extent does,
/// and 37 where two do.
#[test]
fn each_call_of_the_ledger_stops(rt: HostRuntime) {
    let found = user_stops(&rt, Failing::Ledger);
    let cases = (2 + 2 + 7 + 37 + 37) + 4 * 4 * 2 + 2 * (7 + 7);
    assert_eq!(rt; cases, 145);
    assert_eq!(rt; found, (5 + 4 * 4 + 2 * 2, cases));
}

/// The first three openings, over a journal without records, make four calls each, the next ones six and eight, and
/// each of two records takes six, after which up to three extents wait: 217 cases.
#[test]
fn each_call_of_the_journal_stops(rt: HostRuntime) {
    let found = user_stops(&rt, Failing::Journal);
    let cases = 3 * (2 + 2 + 7 + 7) + 2 * (7 + 37 + 217 + 217 + 7 + 7) + 2 * (6 + 8);
    assert_eq!(rt; cases, 1066);
    assert_eq!(rt; found, (3 * 4 + 6 + 8 + 2 * 6, cases));
}
