//! The calls that aren't in the log yet.

ghost use Rattle.std.specs.Prelude.{◌≡◌, List, [], ◌++◌, map, IfSome};
ghost use Rattle.consistency_server.specs.Answers.{Call as PureCall};
ghost use Rattle.server_log.specs.KeptLog.{record_of};

use crate::events::{Beginning, Events};
use crate::key::ServerKey;
use consistency_server::{Call, Log, LogFull};
use record_log::Record;
use server_log::record_of;
use std::alloc::Allocator;
use std::marker::Model;
use std::mem;

/// The calls that placed or committed since the server was opened, and the records of those that aren't in the log yet.
/// Contracts see all of these calls, the oldest first.
#[derive(Drop)]
pub(crate) struct Waiting<A: Allocator, B: ServerKey> {
    events: Events<B>,
    records: Vec<Record<A>, A>,
}

impl<A: Allocator, B: ServerKey> Model for Waiting<A, B> {
    ghost use Rattle.std.specs.Prelude.{◌≡◌, List, ◌++◌, map};
    ghost use Rattle.consistency_server.specs.Answers.{Call};
    ghost use Rattle.server_log.specs.KeptLog.{record_of};

    ghost Value = { List Call };

    ghost view = { λ w. w.events };

    ghost invariant = { λ w. (taken left : List Call) × (w.events ≡ taken ++ left)
        × (w.records.items ≡ map record_of left) };
}

/// Records, and the events up to the last of them.
#[derive(Drop)]
pub(crate) struct Taken<A: Allocator, B: ServerKey> {
    pub(crate) records: Vec<Record<A>, A>,
    pub(crate) events: Beginning<B>,
}

/// The record of a call, unless memory runs out or its text is too long.
fn record_for<A: Allocator + Copy>(alloc: A, call: &Call<A>) -> Option<Record<A>>
    ensures { IfSome result (λ r. r ≡ record_of call.now) }
{
    let Ok(text) = Vec::from_slice(alloc, call.text()) else {
        return None;
    };
    record_of(call.kind(), text)
}

impl<A: Allocator + Copy, B: ServerKey> Waiting<A, B> {
    /// No call yet.
    pub(crate) fn new(alloc: A, events: Events<B>) -> Waiting<A, B>
        requires { events ≡ [] }
        ensures { result ≡ [] }
    {
        Waiting {
            events,
            records: Vec::new(alloc),
        }
    }

    /// The calls that placed or committed since the server was opened.
    pub(crate) fn events(&self) -> &Beginning<B>
        ensures { result.now ≡ self.now }
    {
        self.events.so_far()
    }

    /// Takes the records of the calls that aren't in the log yet, the oldest first. None where the log has not just
    /// those before them.
    pub(crate) fn take(&mut self, in_log: &Beginning<B>) -> Option<Taken<A, B>>
        ensures same { self.new ≡ self.old }
        ensures taken { IfSome result (λ t. (left : List PureCall) × (t.events ≡ in_log.now ++ left)
            × (t.records.items ≡ map record_of left)) }
    {
        let all = self.events.so_far();
        let more = all.more_than(in_log)?;
        if more != self.records.len() as u64 {
            return None;
        }
        let events = all.again();
        let alloc = *self.records.allocator();
        let records = mem::replace(&mut self.records, Vec::new(alloc));
        Some(Taken { records, events })
    }
}

impl<A: Allocator + Copy, B: ServerKey> Log<Call<A>> for Waiting<A, B> {
    ghost use Rattle.std.specs.Prelude.{true};

    ghost pushed = { λ w. w };

    // Memory may run out.
    ghost may_be_full = { λ _. true };

    fn try_push(&mut self, call: Call<A>) -> Result<(), LogFull> {
        let alloc = *self.records.allocator();
        if self.records.reserve(1).is_err() {
            return Err(LogFull);
        }
        let Some(record) = record_for(alloc, &call) else {
            return Err(LogFull);
        };
        if !self.events.add(&call) {
            return Err(LogFull);
        }
        self.records.push_reserved(record);
        Ok(())
    }
}
