//! Sessions.

ghost use Rattle.std.specs.Prelude.{◌≡◌, [], false, true, IfSome, IsSome, None, OnOk, Result};
ghost use Rattle.std.specs.List.{list_any};
ghost use Rattle.std.specs.Option.{option_copied};
ghost use Rattle.client_releases.specs.declared.phase.Phase.TheVariants as phase;
ghost use Rattle.client_steps.specs.Anywhere.{on_ok};
ghost use Rattle.commands.specs.Answers.{Answer as AnswerOf, Refused, answer_of};
ghost use Rattle.commands.specs.Asked.{early, has_path, is_large, is_too_large, told_of_lost};
ghost use Rattle.file_session.specs.Order.{Ready, ready_or};
ghost use Rattle.file_session.specs.Parts.{Carried, IsLookEnded};
ghost use Rattle.file_session.specs.Sessions.{Ran, answered, refused_by, stopped_by};
ghost use Rattle.file_session.specs.Tries.{can_declare};
ghost use Rattle.file_session.specs.declared.stop.Stop.{Stop as Stopped};
ghost use Rattle.file_session.specs.Went.{Operated, point};

use crate::conversation::Conversation;
use crate::listed::Listed;
use crate::planning::{Operation, Plan};
use crate::resumed::Resumed;
use crate::stop::Stop;
use client_verify::{Client, ClientError};
use commands::{Answer, Command, MOST_FILES, NewFile, Refusal, have_names, path_of, place_of};
use itable::FILE_SIZE;
use layout::{User, let_go};
use leaf_ledger::Device;
use std::alloc::Allocator;
use transport::Transport;
use update_cert::MOST_CHANGES;

/// A client over a transport, for commands of its user.
pub struct Session<L: Device, J: Device, T, A: Allocator> {
    pub(crate) conversation: Conversation<L, J, T, A>,
    pub(crate) resumed: Option<Resumed<A>>,
}

/// How an error of a client is told, also of one that isn't opened.
pub fn refusal_of(error: ClientError) -> Refusal
    ensures { result ≡ refused_by error }
{
    match error {
        ClientError::Memory => Refusal::Memory,
        ClientError::NoLeaf => Refusal::NoLeaf,
        ClientError::Device => Refusal::Device,
        ClientError::NoNumber => Refusal::NoNumber,
        ClientError::Foreign => Refusal::Foreign,
        ClientError::Damaged => Refusal::Damaged,
        ClientError::NoKey => Refusal::NoKey,
    }
}

/// What stopped a session, as it is told.
pub(crate) fn told<A: Allocator>(stop: Stop) -> Answer<A>
    ensures { answer_of result ≡ stopped_by stop }
{
    match stop {
        Stop::Client(error) => Answer::Refused(refusal_of(error)),
        Stop::Broken(rule) => Answer::Broken(rule),
        Stop::Declined(status) => Answer::Declined(status),
        Stop::Cut => Answer::Refused(Refusal::Cut),
        Stop::Memory => Answer::Refused(Refusal::Memory),
    }
}

/// What is told of an operation that lost these changes.
fn told_of_lost<A: Allocator>(lost: Vec<u8, A>) -> Answer<A>
    ensures { answer_of result ≡ told_of_lost lost.items }
{
    if lost.is_empty() {
        Answer::Done
    } else {
        Answer::Lost(lost)
    }
}

/// Whether the words of a command are paths, and the target of a link the place of one.
fn has_path(command: &Command<'_>) -> bool
    ensures { result ≡ has_path command.now }
{
    match command {
        Command::Ls(path) | Command::Details(path) | Command::Cat(path) => path_of(path).is_some(),
        Command::Mkdir(path) | Command::Rm(path) => path_of(path).is_some(),
        Command::Put { path, .. } => path_of(path).is_some(),
        Command::PutAll { directory, files } => path_of(directory).is_some() && have_names(files),
        Command::AddName { path, to } | Command::DropName { path, to } => {
            path_of(path).is_some() && path_of(to).is_some()
        }
        Command::Link { path, target } => path_of(path).is_some() && place_of(target).is_some(),
        Command::AddUser { .. } | Command::SetKey { .. } => true,
        Command::AddMember { .. } | Command::DropMember { .. } | Command::Admin(_) => true,
    }
}

/// Whether these are more bytes than a file may have.
fn is_large(content: &[u8]) -> bool
    ensures { result ≡ is_large content.now }
{
    content.len() > FILE_SIZE as usize
}

/// Whether one of these files has more.
fn is_one_large(files: &[NewFile<'_>]) -> bool
    ensures { result ≡ list_any (λ file. is_large file.content.now) files.now }
{
    files.iter().any(|file| is_large(file.content))
}

/// Whether a content of a command has more bytes than a file may have, or a command more files or changes than an
/// operation.
fn is_too_large(command: &Command<'_>) -> bool
    ensures { result ≡ is_too_large command.now }
{
    match command {
        Command::Put { content, .. } => is_large(content),
        Command::PutAll { files, .. } => files.len() > MOST_FILES || is_one_large(files),
        Command::Admin(changes) => changes.len() > MOST_CHANGES,
        _ => false,
    }
}

/// What is told of a command by itself, before anything is sent.
pub(crate) fn early(command: &Command<'_>) -> Option<Refusal>
    ensures { result ≡ early command.now }
{
    if !has_path(command) {
        Some(Refusal::NoPath)
    } else if is_too_large(command) {
        Some(Refusal::TooLarge)
    } else {
        None
    }
}

impl<L: Device, J: Device, T: Transport<A>, A: Allocator + Copy> Conversation<L, J, T, A> {
    /// An operation without changes: from here on there is its view.
    fn look(&mut self) -> Result<(), Stop>
        requires idle { self.old.client.phase ≡ phase.Idle }
        requires leaves { can_declare self.old.client ≡ true }
        ensures operated { Operated T.answers (point self.old.client self.old.transport (Ready []))
            (point self.new.client self.new.transport (ready_or result)) [] []
            (IsLookEnded result self.new.client) }
        ensures idle { OnOk result (self.new.client.phase ≡ phase.Idle) }
        ensures view { OnOk result (IsSome self.new.client.view) }
    {
        let changes = Vec::new(self.alloc);
        let texts = Vec::new(self.alloc);
        let lost = self.operate(&changes, &texts)?;
        let_go(lost);
        Ok(())
    }

    /// Looks, and then writes what is asked for, if something is. Neither is begun where the newest key hasn't the
    /// leaves for it.
    fn carry_out(&mut self, user: User, command: &Command<'_>) -> Result<Answer<A>, Stop>
        requires idle { self.old.client.phase ≡ phase.Idle }
        requires small { is_too_large command.now ≡ false }
        ensures { Carried T.answers (point self.old.client self.old.transport (Ready []))
            (point self.new.client self.new.transport (ready_or result)) user command.now
            (on_ok answer_of result) }
    {
        self.leaves_suffice()?;
        self.look()?;
        match self.plan(user, command)? {
            Plan::Tells(answer) => Ok(answer),
            Plan::Writes(Operation { changes, texts }) => {
                let lost = self.write(&changes, &texts)?;
                Ok(told_of_lost(lost))
            }
        }
    }
}

impl<L: Device, J: Device, T: Transport<A>, A: Allocator + Copy> Session<L, J, T, A> {
    /// A session of this client, over this transport.
    pub fn new(alloc: A, client: Client<L, J, A>, transport: T) -> Session<L, J, T, A>
        ensures client { result.conversation.client ≡ client }
        ensures transport { result.conversation.transport ≡ transport }
        ensures resumed { result.resumed ≡ None }
    {
        let conversation = Conversation {
            alloc,
            client,
            transport,
            listed: Listed::new(),
        };
        Session {
            conversation,
            resumed: None,
        }
    }

    /// Hands back the client and the transport.
    pub fn close(self) -> (Client<L, J, A>, T)
        ensures client { result.0 ≡ self.conversation.client }
        ensures transport { result.1 ≡ self.conversation.transport }
    {
        let Session {
            conversation,
            resumed: _,
        } = self;
        let Conversation {
            alloc: _,
            client,
            transport,
            listed: _,
        } = conversation;
        (client, transport)
    }

    /// The declared operation that the last command finished first, if there was one.
    pub fn resumed(&self) -> Option<&Resumed<A>>
        ensures { option_copied result ≡ self.now.resumed }
    {
        self.resumed.as_ref()
    }

    /// Finishes what was declared or signed, and then carries the command out.
    fn go(&mut self, command: &Command<'_>) -> Result<Answer<A>, Stop>
        requires small { is_too_large command.now ≡ false }
        requires none { self.old.resumed ≡ None }
        ensures { Ran T.answers self.old.conversation.client self.old.conversation.transport
            self.old.conversation.client.user command.now self.new.conversation.client self.new.conversation.transport
            self.new.resumed (on_ok answer_of result) }
    {
        let user = self.conversation.client.user();
        self.resumed = self.conversation.resume()?;
        self.conversation.carry_out(user, command)
    }

    /// Carries a command out. A path or a size at fault is told at once, and nothing is sent. Else what was declared or
    /// signed before is finished first; then it looks, and writes what the command asks for in the view of that look.
    pub fn run(&mut self, command: &Command<'_>) -> Answer<A>
        ensures early { IfSome (early command.now) (λ why. answer_of result ≡ Refused why) }
        ensures early_client { IsSome (early command.now)
            → self.new.conversation.client ≡ self.old.conversation.client }
        ensures early_transport { IsSome (early command.now)
            → self.new.conversation.transport ≡ self.old.conversation.transport }
        ensures early_resumed { IsSome (early command.now) → self.new.resumed ≡ None }
        ensures ran { early command.now ≡ None → (r : Result AnswerOf Stopped)
            × Ran T.answers self.old.conversation.client self.old.conversation.transport
            self.old.conversation.client.user command.now self.new.conversation.client self.new.conversation.transport
            self.new.resumed r × (answer_of result ≡ answered r) }
    {
        self.resumed = None;
        if let Some(why) = early(command) {
            return Answer::Refused(why);
        }
        match self.go(command) {
            Ok(answer) => answer,
            Err(stop) => told(stop),
        }
    }
}
