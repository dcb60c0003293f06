//! What was declared or signed is finished: the certificate is sent, its reply judged, the structure signed and sent.

ghost use Rattle.std.specs.Prelude.{◌≡◌, [], IfErr, IfOk, IsSome, None, OnErr, OnOk};
ghost use Rattle.file_session.specs.Calls.{lost_of};
ghost use Rattle.file_session.specs.Order.{Commit, Store, Update, ready_or};
ghost use Rattle.file_session.specs.Parts.{IsEnded};
ghost use Rattle.file_session.specs.Sessions.{IsUnfinished};
ghost use Rattle.file_session.specs.Went.{Finished, Went, point};

use crate::calls::{hear, sign, tell};
use crate::conversation::Conversation;
use crate::exchanging::commit;
use crate::stop::Stop;
use client_verify::Phase;
use leaf_ledger::Device;
use std::alloc::Allocator;
use transport::Transport;
use wire::Status;

impl<L: Device, J: Device, T: Transport<A>, A: Allocator + Copy> Conversation<L, J, T, A> {
    /// Commits the structure that was signed.
    pub(crate) fn finish_signed(&mut self) -> Result<(), Stop>
        requires { self.old.client.phase ≡ Phase.Signed }
        ensures went { Went T.answers (point self.old.client self.old.transport (Commit self.old.client.text))
            (point self.new.client self.new.transport (ready_or result)) [] }
        ensures idle { OnOk result (self.new.client.phase ≡ Phase.Idle) }
        ensures unfinished { OnErr result (IsUnfinished self.new.client) }
        ensures view { self.new.client.view ≡ self.old.client.view }
    {
        let status = commit(&mut self.transport, self.client.signed())?;
        tell(&mut self.client, status);
        match status {
            Status::Ok => Ok(()),
            declined => Err(Stop::Declined(declined)),
        }
    }

    /// The numbers of the changes that the accepted view loses, in memory of their own. Where there are none, none is
    /// taken.
    fn lost(&self) -> Result<Vec<u8, A>, Stop>
        requires { IsSome self.now.client.view }
        ensures lost { IfOk result (λ lost. lost.items ≡ lost_of self.now.client) }
        ensures memory { IfErr result (λ e. e ≡ Stop.Memory) }
        ensures some { OnErr result (lost_of self.now.client ≡ [] → ⊥) }
    {
        let numbers = self.client.lost();
        if numbers.is_empty() {
            return Ok(Vec::new(self.alloc));
        }
        match Vec::from_slice(self.alloc, numbers) {
            Ok(numbers) => Ok(numbers),
            Err(_) => Err(Stop::Memory),
        }
    }

    /// Signs over the accepted reply, and commits: the numbers of the changes that its view loses. They are copied
    /// before the commit: where memory is refused for them, nothing is committed yet.
    fn finish_checked(&mut self) -> Result<Vec<u8, A>, Stop>
        requires { IsSome self.old.client.accepted }
        ensures finished { Finished T.answers (point self.old.client self.old.transport (Store []))
            (point self.new.client self.new.transport (ready_or result)) (IsEnded result self.new.client) }
        ensures idle { OnOk result (self.new.client.phase ≡ Phase.Idle) }
        ensures unfinished { OnErr result (IsUnfinished self.new.client) }
        ensures view { OnOk result (IsSome self.new.client.view) }
    {
        match sign(&mut self.client) {
            Ok(_text) => {
                let lost = self.lost()?;
                self.finish_signed()?;
                Ok(lost)
            }
            Err(error) => Err(Stop::Client(error)),
        }
    }

    /// Sends the certificate that was declared, and goes on to the commit: the numbers of the changes that are lost.
    pub(crate) fn finish_declared(&mut self) -> Result<Vec<u8, A>, Stop>
        requires { self.old.client.phase ≡ Phase.Declared }
        ensures finished { Finished T.answers
            (point self.old.client self.old.transport (Update self.old.client.text None))
            (point self.new.client self.new.transport (ready_or result)) (IsEnded result self.new.client) }
        ensures idle { OnOk result (self.new.client.phase ≡ Phase.Idle) }
        ensures unfinished { OnErr result (IsUnfinished self.new.client) }
        ensures view { OnOk result (IsSome self.new.client.view) }
    {
        let reply = self.place()?;
        let first = hear(&mut self.client, reply.text());
        let texts = self.check(first)?;
        self.store(&texts)?;
        self.finish_checked()
    }
}
