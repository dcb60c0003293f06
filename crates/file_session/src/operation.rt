//! An operation of a session: its texts are stored, its changes declared, and it is finished.

ghost use Rattle.std.specs.Prelude.{◌≡◌, ◌≤◌, [], IfOk, IsSome, OnErr, OnOk, length, map, true};
ghost use Rattle.std.specs.Vec.{vec_items};
ghost use Rattle.client_verify.specs.Laid.{are_laid};
ghost use Rattle.client_steps.specs.Anywhere.{on_ok};
ghost use Rattle.file_session.specs.Order.{Ready, ready_or, resuming};
ghost use Rattle.file_session.specs.Sessions.{IsFinished, IsUnfinished};
ghost use Rattle.file_session.specs.Parts.{IsEnded, Wrote};
ghost use Rattle.file_session.specs.Tries.{can_declare};
ghost use Rattle.file_session.specs.Went.{Finished, Operated, point};

use crate::calls::begin;
use crate::conversation::Conversation;
use crate::resumed::Resumed;
use crate::stop::Stop;
use client_verify::{ClientError, Phase};
use leaf_ledger::Device;
use std::alloc::Allocator;
use transport::Transport;
use update_cert::{Change, MOST_CHANGES};

impl<L: Device, J: Device, T: Transport<A>, A: Allocator + Copy> Conversation<L, J, T, A> {
    /// An operation of these changes, for which these texts were stored and synced: the numbers of those that had no
    /// effect.
    pub(crate) fn operate(
        &mut self,
        changes: &[Change<A>],
        laid: &[Vec<u8, A>],
    ) -> Result<Vec<u8, A>, Stop>
        requires idle { self.old.client.phase ≡ Phase.Idle }
        requires leaves { can_declare self.old.client ≡ true }
        requires few { length changes.now ≤ MOST_CHANGES }
        requires laid { are_laid (map vec_items laid.now) changes.now ≡ true }
        ensures operated { Operated T.answers
            (point self.old.client self.old.transport (Ready (map vec_items laid.now)))
            (point self.new.client self.new.transport (ready_or result)) changes.now (map vec_items laid.now)
            (IsEnded result self.new.client) }
        ensures idle { OnOk result (self.new.client.phase ≡ Phase.Idle) }
        ensures view { OnOk result (IsSome self.new.client.view) }
    {
        match begin(&mut self.client, changes, laid) {
            Ok(_text) => self.finish_declared(),
            Err(error) => Err(Stop::Client(error)),
        }
    }

    /// An operation of these changes, whose texts are stored and synced first: the numbers of those that had no effect.
    /// Nothing is sent where the newest key hasn't the leaves for it.
    pub(crate) fn write(
        &mut self,
        changes: &[Change<A>],
        laid: &[Vec<u8, A>],
    ) -> Result<Vec<u8, A>, Stop>
        requires idle { self.old.client.phase ≡ Phase.Idle }
        requires few { length changes.now ≤ MOST_CHANGES }
        requires laid { are_laid (map vec_items laid.now) changes.now ≡ true }
        ensures wrote { Wrote T.answers (point self.old.client self.old.transport (Ready []))
            (point self.new.client self.new.transport (ready_or result)) changes.now (map vec_items laid.now)
            (on_ok vec_items result) }
    {
        self.leaves_suffice()?;
        self.store(laid)?;
        self.operate(changes, laid)
    }

    /// Finishes what was declared or signed before.
    pub(crate) fn resume(&mut self) -> Result<Option<Resumed<A>>, Stop>
        ensures finished { Finished T.answers (point self.old.client self.old.transport
            (resuming self.old.client.phase self.old.client.text))
            (point self.new.client self.new.transport (ready_or result))
            (λ signed. IfOk result (λ resumed. IsFinished self.old.client signed resumed)) }
        ensures idle { OnOk result (self.new.client.phase ≡ Phase.Idle) }
        ensures unfinished { OnErr result (IsUnfinished self.new.client) }
    {
        match self.client.phase() {
            Phase::Idle => Ok(None),
            Phase::Declared => {
                let number = self.client.number();
                let lost = self.finish_declared()?;
                Ok(Some(Resumed::new(number, lost)))
            }
            Phase::Signed => {
                self.finish_signed()?;
                Ok(None)
            }
            Phase::Failed => Err(Stop::Client(ClientError::Device)),
        }
    }
}
