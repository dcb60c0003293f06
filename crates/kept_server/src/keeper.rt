//! The log, and what is in it.

ghost use Rattle.std.specs.Prelude.{◌≡◌, List, [], ◌++◌, map, true, false, IfSome};
ghost use mathlib.Core.List.{IsPrefix};
ghost use Rattle.consistency_server.specs.Answers.{Call as PureCall};
ghost use Rattle.server_log.specs.KeptLog.{record_of};
ghost use Rattle.kept_server.specs.Kept.{IsCalled, IsKept};

use crate::events::Beginning;
use crate::key::ServerKey;
use crate::ready::Ready;
use crate::receipt::Receipt;
use record_log::{LogError, Record, RecordLog};
use std::alloc::Allocator;
use std::marker::Model;
use storage::Storage;

/// Room is made anew where less than this part of it is left.
const LEAST_PART: usize = 16;

/// The log, and which of the server's events are in it. They are synced, whatever became of the storage; and unless it
/// failed, there are no others. And how much room is made behind its records at once, and how long they are when more is
/// made.
#[derive(Drop)]
pub(crate) struct Keeper<S: Storage, B: ServerKey> {
    log: RecordLog<S>,
    events: Beginning<B>,
    ahead: usize,
    next_room: usize,
}

impl<S: Storage, B: ServerKey> Model for Keeper<S, B> {
    ghost use Rattle.std.specs.Prelude.{◌≡◌, true};
    ghost use Rattle.kept_server.specs.Kept.{IsKept, Keeping};

    ghost Value = { Keeping };

    ghost view = { λ k. record { log = k.log; events = k.events } };

    ghost invariant = { λ k. S.tells ≡ true → IsKept B.start k.log k.events };
}

impl<S: Storage + Drop, B: ServerKey> Keeper<S, B> {
    /// The log that the server was opened with, before the first event; and how many bytes of room it is given at once, 0
    /// for none.
    pub(crate) fn new(log: RecordLog<S>, events: Beginning<B>, ahead: usize) -> Keeper<S, B>
        requires { (log.file ≡ B.start) × (events ≡ []) }
        ensures { result.events ≡ [] }
    {
        Keeper {
            log,
            events,
            ahead,
            next_room: 0,
        }
    }

    /// The events that are in the log.
    pub(crate) fn events(&self) -> &Beginning<B>
        ensures { result.now ≡ self.now.events }
    {
        &self.events
    }

    /// Appends the records of the events that come next, and syncs, after room was made for them where little is left.
    /// False where the storage fails, or memory runs out.
    pub(crate) fn append<A: Allocator + Copy>(&mut self, alloc: A, ready: Ready<A, B>) -> bool
        requires { (left : List PureCall) × (ready.1 ≡ self.old.events ++ left) × (ready.0 ≡ map record_of left) }
        ensures done { result ≡ true → self.new.events ≡ ready.1 }
        ensures stays { result ≡ false → self.new.events ≡ self.old.events }
        // All that becomes of the file are calls of the log, so that `what_was_told_stays` speaks of each moment.
        ensures calls { S.tells ≡ true → IsCalled self.old.log.file self.new.log.file }
    {
        let (records, events) = ready.into_parts();
        if !self.log.usable() || !self.make_room(alloc) {
            return false;
        }
        self.add(alloc, &records, events)
    }

    /// Makes room behind the records where little of what was made before is left. Where memory runs out for it there is
    /// none. False where the storage fails.
    fn make_room<A: Allocator>(&mut self, alloc: A) -> bool
        requires { self.old.log.usable ≡ true }
        ensures events { self.new.events ≡ self.old.events }
        ensures usable { result ≡ true → self.new.log.usable ≡ true }
        ensures calls { S.tells ≡ true → IsCalled self.old.log.file self.new.log.file }
    {
        let size = self.log.size();
        if self.ahead == 0 || size < self.next_room {
            return true;
        }
        match self.log.make_room(alloc, self.ahead) {
            Ok(()) => {
                self.next_room = size.saturating_add(self.ahead - self.ahead / LEAST_PART);
                true
            }
            Err(LogError::Memory) => true,
            Err(LogError::Device | LogError::Damaged) => false,
        }
    }

    /// Appends the records of the events that come next, and syncs. False where the storage fails, or memory runs out.
    fn add<A: Allocator, C: Allocator>(
        &mut self,
        alloc: A,
        records: &[Record<C>],
        events: Beginning<B>,
    ) -> bool
        requires usable { self.old.log.usable ≡ true }
        requires next { (left : List PureCall) × (events ≡ self.old.events ++ left)
            × (records.now ≡ map record_of left) }
        ensures done { result ≡ true → self.new.events ≡ events }
        ensures stays { result ≡ false → self.new.events ≡ self.old.events }
        ensures calls { S.tells ≡ true → IsCalled self.old.log.file self.new.log.file }
    {
        match self.log.append_all(alloc, records) {
            Ok(()) => {
                self.events = events;
                true
            }
            Err(_) => false,
        }
    }

    /// Shows which events are in the log, synced.
    pub(crate) fn receipt(&self) -> Receipt<S, B>
        ensures { result ≡ self.now.events }
    {
        Receipt::of(&self.log, &self.events)
    }

    /// The log, which has a beginning of all events. None where it has more than these.
    pub(crate) fn into_log(self, all: &Beginning<B>) -> Option<RecordLog<S>>
        ensures kept { IfSome result (λ log. S.tells ≡ true → IsKept B.start log self.events) }
        ensures beginning { IfSome result (λ _. IsPrefix self.events all.now) }
    {
        let Keeper {
            log,
            events,
            ahead: _,
            next_room: _,
        } = self;
        if all.more_than(&events).is_none() {
            return None;
        }
        Some(log)
    }
}
