//! A command that only reads, in the view that was accepted last.

ghost use Rattle.std.specs.Prelude.{◌≡◌, [], IfSome, IsSome, None, Result, false, true};
ghost use Rattle.layout.specs.Types.{User as UserNumber};
ghost use Rattle.client_releases.specs.declared.phase.Phase.TheVariants as phase;
ghost use Rattle.client_steps.specs.Anywhere.{on_ok};
ghost use Rattle.commands.specs.Answers.{Answer as AnswerOf, Refused, answer_of};
ghost use Rattle.commands.specs.Asked.{early, only_reads, outcome};
ghost use Rattle.file_session.specs.Order.{Ready, ready_or};
ghost use Rattle.file_session.specs.Parts.{Planned};
ghost use Rattle.file_session.specs.Sessions.{Ran, answered};
ghost use Rattle.file_session.specs.Told.{Told, can_tell};
ghost use Rattle.file_session.specs.Went.{point};
ghost use Rattle.file_session.specs.declared.planning.Plan.TheVariants.{Tells as TellsAnswer};
ghost use Rattle.file_session.specs.declared.stop.Stop.{Stop as Stopped};

use crate::conversation::Conversation;
use crate::session::{Session, early, told};
use crate::stop::Stop;
use client_verify::Phase;
use commands::{Answer, Command};
use layout::User;
use leaf_ledger::Device;
use std::alloc::Allocator;
use transport::Transport;

impl<L: Device, J: Device, T: Transport<A>, A: Allocator + Copy> Conversation<L, J, T, A> {
    /// Whether a command only reads, and there is a view to read in, with nothing to be finished first.
    fn can_tell(&self, command: &Command<'_>) -> bool
        ensures { result ≡ can_tell self.now.client command.now }
    {
        command.only_reads() && self.client.has_view() && self.client.phase() == Phase::Idle
    }

    /// What a command that only reads comes to in the accepted view.
    fn tell(&mut self, command: &Command<'_>) -> Result<Answer<A>, Stop>
        requires view { IsSome self.old.client.view }
        requires reads { only_reads command.now ≡ true }
        ensures planned { (user : UserNumber) → Planned T.answers
            (point self.old.client self.old.transport (Ready []))
            (point self.new.client self.new.transport (ready_or result)) (outcome user command.now)
            (on_ok TellsAnswer result) }
    {
        match command {
            Command::Ls(path) => self.list(path),
            Command::Details(path) => self.detail(path),
            Command::Cat(path) => self.read(path),
            _ => unreachable!(),
        }
    }
}

impl<L: Device, J: Device, T: Transport<A>, A: Allocator + Copy> Session<L, J, T, A> {
    /// Carries a command out that only reads, in the view that was accepted last: it takes no leaf, and nothing but
    /// blocks is asked for. Commands that are told so one after another read in one view, whatever others write
    /// meanwhile. A command that writes is carried out as `run` does, and so is any where there is no view, or where an
    /// operation is to be finished first.
    pub fn tell(&mut self, command: &Command<'_>) -> Answer<A>
        ensures early { IfSome (early command.now) (λ why. answer_of result ≡ Refused why) }
        ensures early_client { IsSome (early command.now)
            → self.new.conversation.client ≡ self.old.conversation.client }
        ensures early_transport { IsSome (early command.now)
            → self.new.conversation.transport ≡ self.old.conversation.transport }
        ensures early_resumed { IsSome (early command.now) → self.new.resumed ≡ None }
        ensures told { early command.now ≡ None → can_tell self.old.conversation.client command.now ≡ true
            → (r : Result AnswerOf Stopped)
            × Told T.answers self.old.conversation.client self.old.conversation.transport command.now
            self.new.conversation.client self.new.conversation.transport r × (answer_of result ≡ answered r) }
        ensures told_resumed { early command.now ≡ None → can_tell self.old.conversation.client command.now ≡ true
            → self.new.resumed ≡ None }
        ensures ran { early command.now ≡ None → can_tell self.old.conversation.client command.now ≡ false
            → (r : Result AnswerOf Stopped)
            × Ran T.answers self.old.conversation.client self.old.conversation.transport
            self.old.conversation.client.user command.now self.new.conversation.client self.new.conversation.transport
            self.new.resumed r × (answer_of result ≡ answered r) }
    {
        if early(command).is_some() || !self.conversation.can_tell(command) {
            return self.run(command);
        }
        self.resumed = None;
        match self.conversation.tell(command) {
            Ok(answer) => answer,
            Err(stop) => told(stop),
        }
    }
}
