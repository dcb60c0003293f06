//! What a name stands for gets another name, and loses that one.

ghost use Rattle.std.specs.Prelude.{◌≡◌, [], IfOk, IfSome, IsSome, OnErr, Some};
ghost use Rattle.layout.specs.Types.{User as UserNumber};
ghost use Rattle.commands.specs.Asked.{Outcome, Place as PlaceOf, adds_name, at_both, drops_name};
ghost use Rattle.commands.specs.Answers.{answer_of};
ghost use Rattle.commands.specs.Paths.{path_of};
ghost use Rattle.file_session.specs.Order.{Ready, ready_or};
ghost use Rattle.file_session.specs.Parts.{CanBegin, HasName, IsChange, IsPlanOf, Planned, last_name, of_sites};
ghost use Rattle.file_session.specs.Renamed.{HasRenamed, is_kept, is_there, told_of_drop};
ghost use Rattle.file_session.specs.Went.{Looked, point};

use crate::conversation::Conversation;
use crate::planning::{Plan, or_stop, plan_of, refused};
use crate::session::Session;
use crate::site::{Site, place};
use crate::stop::Stop;
use crate::texts::New;
use commands::{Answer, Command, Refusal};
use layout::{Memory, let_go, put_in};
use leaf_ledger::Device;
use std::alloc::Allocator;
use transport::Transport;

/// Where the places of two paths are.
#[derive(Clone, Copy)]
pub(crate) struct Sites {
    site: Site,
    other: Site,
}

/// What is named at the site of a path gets that of another path as its name too.
fn add_name_at<A: Allocator + Copy>(
    alloc: A,
    path: &str,
    to: &str,
    sites: &Sites,
) -> Result<Plan<A>, Memory>
    requires { HasName (last_name (path_of to.now)) sites.now.other }
    ensures plan { IfOk result (IsPlanOf
        (of_sites adds_name (last_name (path_of path.now)) (last_name (path_of to.now)) (Some sites.now))) }
    ensures can_begin { IfOk result CanBegin }
    ensures changes { OnErr result (IsChange
        (of_sites adds_name (last_name (path_of path.now)) (last_name (path_of to.now)) (Some sites.now))) }
{
    let here = place(path, &sites.site);
    let other = place(to, &sites.other);
    let course = here.add_name(&other);
    plan_of(alloc, New::Directory, &course)
}

/// The name at the site of a path is taken away, where that of another path stands for the same.
fn drop_name_at<A: Allocator + Copy>(
    alloc: A,
    path: &str,
    to: &str,
    sites: &Sites,
) -> Result<Plan<A>, Memory>
    requires named { HasName (last_name (path_of path.now)) sites.now.site }
    requires other { HasName (last_name (path_of to.now)) sites.now.other }
    ensures plan { IfOk result (IsPlanOf
        (of_sites drops_name (last_name (path_of path.now)) (last_name (path_of to.now)) (Some sites.now))) }
    ensures can_begin { IfOk result CanBegin }
    ensures changes { OnErr result (IsChange
        (of_sites drops_name (last_name (path_of path.now)) (last_name (path_of to.now)) (Some sites.now))) }
{
    let here = place(path, &sites.site);
    let other = place(to, &sites.other);
    let course = here.drop_name(&other);
    plan_of(alloc, New::Directory, &course)
}

impl<L: Device, J: Device, T: Transport<A>, A: Allocator + Copy> Conversation<L, J, T, A> {
    /// Where the places of two paths are, if each of their names but the last is there.
    fn sites(&mut self, path: &str, to: &str) -> Result<Option<Sites>, Stop>
        requires { IsSome self.old.client.view }
        ensures looked { Looked T.answers (point self.old.client self.old.transport (Ready []))
            (point self.new.client self.new.transport (ready_or result))
            (λ tree. IfOk result (λ found. (user : UserNumber) (comes : PlaceOf → PlaceOf → Outcome)
            → at_both user tree comes (path_of path.now) (path_of to.now)
            ≡ of_sites comes (last_name (path_of path.now)) (last_name (path_of to.now)) found)) }
        ensures named { IfOk result (λ found. IfSome found (λ s. HasName (last_name (path_of path.now)) s.site
            × HasName (last_name (path_of to.now)) s.other)) }
        ensures phase { self.new.client.phase ≡ self.old.client.phase }
    {
        let Some(site) = self.site(path)? else {
            return Ok(None);
        };
        let Some(other) = self.site(to)? else {
            return Ok(None);
        };
        Ok(Some(Sites { site, other }))
    }

    /// What the name at the place of a path stands for gets the place of another path as its name too.
    pub(crate) fn add_name(&mut self, path: &str, to: &str) -> Result<Plan<A>, Stop>
        requires { IsSome self.old.client.view }
        ensures planned { (user : UserNumber) → Planned T.answers
            (point self.old.client self.old.transport (Ready []))
            (point self.new.client self.new.transport (ready_or result))
            (λ tree. at_both user tree adds_name (path_of path.now) (path_of to.now)) result }
        ensures phase { self.new.client.phase ≡ self.old.client.phase }
    {
        let Some(sites) = self.sites(path, to)? else {
            return Ok(refused(Refusal::NoPath));
        };
        or_stop(add_name_at(self.alloc, path, to, &sites))
    }

    /// The name at the place of a path is taken away, where that of another path stands for the same.
    pub(crate) fn drop_name(&mut self, path: &str, to: &str) -> Result<Plan<A>, Stop>
        requires { IsSome self.old.client.view }
        ensures planned { (user : UserNumber) → Planned T.answers
            (point self.old.client self.old.transport (Ready []))
            (point self.new.client self.new.transport (ready_or result))
            (λ tree. at_both user tree drops_name (path_of path.now) (path_of to.now)) result }
        ensures phase { self.new.client.phase ≡ self.old.client.phase }
    {
        let Some(sites) = self.sites(path, to)? else {
            return Ok(refused(Refusal::NoPath));
        };
        or_stop(drop_name_at(self.alloc, path, to, &sites))
    }
}

/// Whether a name was given, or is there.
fn is_there<A: Allocator>(answer: &Answer<A>) -> bool
    ensures { result ≡ is_there (answer_of answer.now) }
{
    matches!(answer, Answer::Done | Answer::Refused(Refusal::There))
}

/// Whether of the changes by which a name was taken away the first one alone was lost: the other name was there.
fn is_kept<A: Allocator>(answer: &Answer<A>) -> bool
    ensures { result ≡ is_kept (answer_of answer.now) }
{
    match answer {
        Answer::Lost(numbers) => numbers.as_slice() == [1].as_slice(),
        _ => false,
    }
}

/// What is told of a name that was taken away: that the other one was there is no loss.
fn told_of_drop<A: Allocator>(answer: Answer<A>) -> Answer<A>
    ensures { answer_of result ≡ told_of_drop (answer_of answer) }
{
    if is_kept(&answer) {
        let_go(answer);
        Answer::Done
    } else {
        answer
    }
}

impl<L: Device, J: Device, T: Transport<A>, A: Allocator + Copy> Session<L, J, T, A> {
    /// Gives what a name stands for another name, and takes that one away: two commands, of which the second is carried
    /// out only where the first one was done, or the new name was there. Where it is stopped between them both names
    /// stand for it, and to do it again ends it. The second command gives the new name again, in case somebody took it
    /// away meanwhile; where nobody did, and so that change alone was lost, the answer is `Done`.
    pub fn rename(&mut self, path: &str, to: &str) -> Answer<A>
        ensures { HasRenamed T.answers self.old.conversation.client self.old.conversation.transport path.entry to.entry
            self.new.conversation.client self.new.conversation.transport self.new.resumed (answer_of result) }
    {
        let first = self.run(&Command::AddName { path, to });
        if !is_there(&first) {
            return first;
        }
        let_go(first);
        let resumed = self.resumed.take();
        let answer = self.run(&Command::DropName { path, to });
        put_in(&mut self.resumed, resumed);
        told_of_drop(answer)
    }
}
