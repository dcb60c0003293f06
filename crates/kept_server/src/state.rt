//! How far the log is.

ghost use Rattle.std.specs.Prelude.{◌≡◌, ◌+◌, ◌^◌, ◌<◌, List, true, false};
ghost use mathlib.Core.List.{IsPrefix};
ghost use Rattle.consistency_server.specs.Answers.{Call as PureCall};
ghost use Rattle.kept_server.specs.declared.state.Next.TheVariants as next;

use crate::events::Beginning;
use crate::keeper::Keeper;
use crate::key::ServerKey;
use crate::receipt::Receipt;
use server_workers::{Counter, Tally};
use std::sync::ledger::{Ledger, Share};
use storage::Storage;

/// The log, unless someone writes it; which events are in it, synced; whether the server has stopped; and how many calls
/// were answered.
#[derive(Drop)]
pub(crate) struct State<S: Storage, B: ServerKey, L: Ledger> {
    keeper: Option<Keeper<S, B>>,
    synced: Receipt<S, B>,
    stopped: bool,
    counter: Counter<L>,
}

/// What there is to do for an answer.
#[derive(Drop)]
pub(crate) enum Next<S: Storage, B: ServerKey> {
    /// It goes out: all events before it are synced.
    GoesOut(Receipt<S, B>),
    /// Nobody writes the log: here it is, to be written and put back.
    Writes(Keeper<S, B>),
    /// The server has stopped.
    Stops,
}

impl<S: Storage + Drop, B: ServerKey, L: Ledger> State<S, B, L> {
    /// Over a log that was opened.
    pub(crate) fn new(keeper: Keeper<S, B>, counter: Counter<L>) -> State<S, B, L> {
        let synced = keeper.receipt();
        State {
            keeper: Some(keeper),
            synced,
            stopped: false,
            counter,
        }
    }

    /// What shows which events are in the log, synced.
    pub(crate) fn receipt(&self) -> Receipt<S, B> {
        self.synced.again()
    }

    /// Someone writes the log, and it is too early to go on: some of these events aren't synced yet.
    pub(crate) fn is_writing(&self, events: &Beginning<B>) -> bool {
        !self.stopped && self.keeper.is_none() && !self.synced.has(events)
    }

    /// What there is to do for an answer after these events, where nobody writes the log.
    pub(crate) fn next(&mut self, events: &Beginning<B>) -> Next<S, B>
        ensures { (synced : List PureCall) → result ≡ next.GoesOut synced → IsPrefix events.now synced }
    {
        if self.stopped {
            return Next::Stops;
        }
        if self.synced.has(events) {
            return Next::GoesOut(self.synced.again());
        }
        match self.keeper.take() {
            Some(keeper) => Next::Writes(keeper),
            None => Next::Stops,
        }
    }

    /// Counts an answer. False where it can't count so far.
    pub(crate) fn count(&mut self, tally: &mut Tally<L>) -> bool
        requires { 0 < tally.old.share.parts }
        ensures counted { result ≡ true → tally.new.answered ≡ tally.old.answered + 1 }
        ensures same { result ≡ false → tally.new.answered ≡ tally.old.answered }
        ensures parts { tally.new.share.parts ≡ tally.old.share.parts }
    {
        self.counter.count(tally)
    }

    /// Puts the log back, which was written: what is in it is synced.
    pub(crate) fn put_back(&mut self, keeper: Keeper<S, B>) {
        self.synced = keeper.receipt();
        self.keeper = Some(keeper);
    }

    /// Puts a log back that couldn't be written.
    pub(crate) fn lay_down(&mut self, keeper: Keeper<S, B>) {
        self.keeper = Some(keeper);
    }

    /// The server stops. Whether it is the first time.
    pub(crate) fn stop(&mut self) -> bool {
        let first = !self.stopped;
        self.stopped = true;
        first
    }

    /// Whether the server has stopped.
    pub(crate) fn has_stopped(&self) -> bool {
        self.stopped
    }

    /// The log, if nobody lost it.
    pub(crate) fn into_keeper(self) -> Option<Keeper<S, B>> {
        let State {
            keeper,
            synced: _,
            stopped: _,
            counter: _,
        } = self;
        keeper
    }

    /// Changes nothing, and tells that what a share has can be counted.
    pub(crate) fn audit(&mut self, share: &mut Share<L>)
        ensures parts { share.new.parts ≡ share.old.parts }
        ensures amount { share.new.amount ≡ share.old.amount }
        ensures small { share.new.amount < 2 ^ 64 }
    {
        self.counter.audit(share);
    }
}
