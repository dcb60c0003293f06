//! Who knows what is synced.

ghost use Rattle.std.specs.Prelude.{◌≡◌, true};
ghost use mathlib.Core.List.{IsPrefix};
ghost use Rattle.kept_server.specs.Kept.{HasSynced};

use crate::events::Beginning;
use crate::key::ServerKey;
use record_log::RecordLog;
use std::marker::{Model, PhantomData};
use storage::Storage;

/// Shows that events are in the log, synced. Contracts see these events. It is made over a log that has them, in no
/// other way.
#[derive(Drop)]
pub(crate) struct Receipt<S: Storage, B: ServerKey> {
    events: Beginning<B>,
    storage: PhantomData<S>,
}

impl<S: Storage, B: ServerKey> Model for Receipt<S, B> {
    ghost use Rattle.std.specs.Prelude.{List};
    ghost use Rattle.consistency_server.specs.Answers.{Call};

    ghost Value = { List Call };

    ghost view = { λ r. r.events };
}

impl<S: Storage, B: ServerKey> Receipt<S, B> {
    /// For the events that a log has.
    pub(crate) fn of(log: &RecordLog<S>, events: &Beginning<B>) -> Receipt<S, B>
        requires { S.tells ≡ true → HasSynced B.start events.now log.now.file }
        ensures { result ≡ events.now }
    {
        let _log = log;
        Receipt {
            events: events.again(),
            storage: PhantomData,
        }
    }

    /// A copy.
    pub(crate) fn again(&self) -> Receipt<S, B>
        ensures { result ≡ self.now }
    {
        Receipt {
            events: self.events.again(),
            storage: PhantomData,
        }
    }

    /// Shows what another one shows, too.
    pub(crate) fn see(&mut self, other: Receipt<S, B>)
        ensures own { IsPrefix self.old self.new }
        ensures other { IsPrefix other self.new }
    {
        if other.events.more_than(&self.events).is_some() {
            *self = other;
            return;
        }
        let Some(_more) = self.events.more_than(&other.events) else {
            unreachable!();
        };
    }

    /// Whether these events are among those that are synced.
    pub(crate) fn has(&self, events: &Beginning<B>) -> bool
        ensures { result ≡ true → IsPrefix events.now self.now }
    {
        self.events.more_than(events).is_some()
    }
}
