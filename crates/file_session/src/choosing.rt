//! What a command comes to in the accepted view.

ghost use Rattle.std.specs.Prelude.{◌≡◌, [], false, IfOk, IsSome};
ghost use Rattle.layout.specs.Types.{Bytes, User as UserNumber};
ghost use Rattle.std.specs.Option.{option_map};
ghost use Rattle.std.specs.Vec.{vec_items};
ghost use Rattle.layout.specs.Types.{INumber as Number, Principal as Principals};
ghost use Rattle.update_cert.specs.World.{Tree};
ghost use Rattle.client_tree.specs.Questions.{IsLeastFree};
ghost use Rattle.client_steps.specs.Anywhere.{on_ok, seen};
ghost use Rattle.commands.specs.Asked.{at_end, at_place, free_at, free_for, is_too_large, links, lists, makes};
ghost use Rattle.commands.specs.Answers.{answer_of};
ghost use Rattle.commands.specs.Asked.{Tells, outcome, puts, reads, removes};
ghost use Rattle.commands.specs.Paths.{path_of};
ghost use Rattle.file_session.specs.Order.{Ready, ready_or};
ghost use Rattle.file_session.specs.Parts.{IsSmall, Planned, listing, place_of_site, reading};
ghost use Rattle.file_session.specs.declared.planning.Plan.TheVariants.{Tells as TellsAnswer};
ghost use Rattle.file_session.specs.Went.{IsSeenIn, Looked, point};

use crate::conversation::Conversation;
use crate::planning::{Plan, or_stop, plan_of_all, plan_of_table, refused};
use crate::site::{Site, link_at, make_at, put_at, remove_at};
use crate::stop::Stop;
use client_tree::Question;
use client_verify::Look;
use commands::{Answer, Command, Refusal, place_of, range_of};
use directory::{Directory, Target};
use layout::{INumber, Principal, User};
use leaf_ledger::Device;
use std::alloc::Allocator;
use transport::Transport;
use update_cert::TableChange;

/// The free i-number that a look tells, if it tells one.
pub(crate) fn free_seen<A: Allocator>(look: &Look<A>) -> Option<INumber>
    ensures { (tree : Tree) (p : Principals) (first last : Number)
        → IsSeenIn tree (Question.Free p first last) (seen look.now) → IsLeastFree (tree p) first last result }
{
    match look {
        Look::Free(found) => *found,
        _ => None,
    }
}

/// The entries of a directory, if one was found.
fn listed<A: Allocator>(found: Option<Directory<A>>) -> Answer<A>
    ensures { Tells (answer_of result) ≡ listing found }
{
    match found {
        Some(entries) => Answer::Listing(entries),
        None => Answer::Refused(Refusal::NoPath),
    }
}

/// The bytes of a file, if one was found.
fn shown<A: Allocator>(found: Option<Vec<u8, A>>) -> Answer<A>
    ensures { Tells (answer_of result) ≡ reading (option_map vec_items found) }
{
    match found {
        Some(bytes) => Answer::Bytes(bytes),
        None => Answer::Refused(Refusal::NoPath),
    }
}

/// An answer at once, as a plan.
fn at_once<A: Allocator>(answer: Result<Answer<A>, Stop>) -> Result<Plan<A>, Stop>
    ensures { result ≡ on_ok TellsAnswer answer }
{
    match answer {
        Ok(answer) => Ok(Plan::Tells(answer)),
        Err(stop) => Err(stop),
    }
}

impl<L: Device, J: Device, T: Transport<A>, A: Allocator + Copy> Conversation<L, J, T, A> {
    /// The least i-number of a principal at which nothing stands, of those at which the user makes something.
    fn free_for(&mut self, user: User, principal: Principal) -> Result<Option<INumber>, Stop>
        requires { IsSome self.old.client.view }
        ensures looked { Looked T.answers (point self.old.client self.old.transport (Ready []))
            (point self.new.client self.new.transport (ready_or result))
            (λ tree. IfOk result (λ free. free ≡ free_for user tree principal)) }
        ensures phase { self.new.client.phase ≡ self.old.client.phase }
        ensures view { IsSome self.new.client.view }
    {
        let (first, last) = range_of(user, principal);
        let look = self.answer(Question::Free(principal, first, last))?;
        Ok(free_seen(&look))
    }

    /// The i-number that is needed at a site.
    fn free_at(&mut self, user: User, site: &Site) -> Result<Option<INumber>, Stop>
        requires { IsSome self.old.client.view }
        ensures looked { Looked T.answers (point self.old.client self.old.transport (Ready []))
            (point self.new.client self.new.transport (ready_or result))
            (λ tree. IfOk result (λ free. (name : Bytes) → free ≡ free_at user tree (place_of_site name site.now))) }
        ensures phase { self.new.client.phase ≡ self.old.client.phase }
        ensures view { IsSome self.new.client.view }
    {
        match site {
            Site::New(directory) => {
                let principal = directory.principal;
                self.free_for(user, principal)
            }
            Site::At(..) | Site::Old(..) => Ok(None),
        }
    }

    /// The entries of the directory at the end of a path.
    pub(crate) fn list(&mut self, path: &str) -> Result<Answer<A>, Stop>
        requires { IsSome self.old.client.view }
        ensures planned { Planned T.answers (point self.old.client self.old.transport (Ready []))
            (point self.new.client self.new.transport (ready_or result))
            (λ tree. at_end tree lists (path_of path.now)) (on_ok TellsAnswer result) }
        ensures phase { self.new.client.phase ≡ self.old.client.phase }
    {
        let Some(end) = self.end(path)? else {
            return Ok(Answer::Refused(Refusal::NoPath));
        };
        let found = self.directory(&end)?;
        Ok(listed(found))
    }

    /// The bytes of the file at the end of a path.
    pub(crate) fn read(&mut self, path: &str) -> Result<Answer<A>, Stop>
        requires { IsSome self.old.client.view }
        ensures planned { Planned T.answers (point self.old.client self.old.transport (Ready []))
            (point self.new.client self.new.transport (ready_or result))
            (λ tree. at_end tree reads (path_of path.now)) (on_ok TellsAnswer result) }
        ensures phase { self.new.client.phase ≡ self.old.client.phase }
    {
        let Some(end) = self.end(path)? else {
            return Ok(Answer::Refused(Refusal::NoPath));
        };
        let found = self.file(&end)?;
        Ok(shown(found))
    }

    /// A file is put at the place of a path.
    fn put(&mut self, user: User, path: &str, content: &[u8]) -> Result<Plan<A>, Stop>
        requires view { IsSome self.old.client.view }
        requires small { IsSmall content.now }
        ensures planned { Planned T.answers (point self.old.client self.old.transport (Ready []))
            (point self.new.client self.new.transport (ready_or result))
            (λ tree. at_place user tree (puts content.now) (path_of path.now)) result }
        ensures phase { self.new.client.phase ≡ self.old.client.phase }
    {
        let Some(site) = self.site(path)? else {
            return Ok(refused(Refusal::NoPath));
        };
        let free = self.free_at(user, &site)?;
        or_stop(put_at(self.alloc, path, &site, content, free))
    }

    /// An empty directory is made at the place of a path.
    fn make(&mut self, user: User, path: &str) -> Result<Plan<A>, Stop>
        requires { IsSome self.old.client.view }
        ensures planned { Planned T.answers (point self.old.client self.old.transport (Ready []))
            (point self.new.client self.new.transport (ready_or result))
            (λ tree. at_place user tree makes (path_of path.now)) result }
        ensures phase { self.new.client.phase ≡ self.old.client.phase }
    {
        let Some(site) = self.site(path)? else {
            return Ok(refused(Refusal::NoPath));
        };
        let free = self.free_at(user, &site)?;
        or_stop(make_at(self.alloc, path, &site, free))
    }

    /// What stands at the place of a path is removed.
    fn remove(&mut self, path: &str) -> Result<Plan<A>, Stop>
        requires { IsSome self.old.client.view }
        ensures planned { (user : UserNumber) → Planned T.answers
            (point self.old.client self.old.transport (Ready []))
            (point self.new.client self.new.transport (ready_or result))
            (λ tree. at_place user tree (λ place _. removes place) (path_of path.now)) result }
        ensures phase { self.new.client.phase ≡ self.old.client.phase }
    {
        let Some(site) = self.site(path)? else {
            return Ok(refused(Refusal::NoPath));
        };
        or_stop(remove_at(self.alloc, path, &site))
    }

    /// The place of a path becomes a name for a target.
    fn link(&mut self, path: &str, target: Target) -> Result<Plan<A>, Stop>
        requires { IsSome self.old.client.view }
        ensures planned { (user : UserNumber) → Planned T.answers
            (point self.old.client self.old.transport (Ready []))
            (point self.new.client self.new.transport (ready_or result))
            (λ tree. at_place user tree (λ place _. links target place) (path_of path.now)) result }
        ensures phase { self.new.client.phase ≡ self.old.client.phase }
    {
        let Some(site) = self.site(path)? else {
            return Ok(refused(Refusal::NoPath));
        };
        or_stop(link_at(self.alloc, path, &site, target))
    }

    /// What a command comes to in the accepted view.
    pub(crate) fn plan(&mut self, user: User, command: &Command<'_>) -> Result<Plan<A>, Stop>
        requires view { IsSome self.old.client.view }
        requires small { is_too_large command.now ≡ false }
        ensures planned { Planned T.answers (point self.old.client self.old.transport (Ready []))
            (point self.new.client self.new.transport (ready_or result)) (outcome user command.now) result }
        ensures phase { self.new.client.phase ≡ self.old.client.phase }
    {
        match command {
            Command::Ls(path) => at_once(self.list(path)),
            Command::Details(path) => at_once(self.detail(path)),
            Command::Cat(path) => at_once(self.read(path)),
            Command::Put { path, content } => self.put(user, path, content),
            Command::PutAll { directory, files } => self.put_all(user, directory, files),
            Command::Mkdir(path) => self.make(user, path),
            Command::Rm(path) => self.remove(path),
            Command::Link { path, target } => match place_of(target) {
                Some(target) => self.link(path, target),
                None => Ok(refused(Refusal::NoPath)),
            },
            Command::AddName { path, to } => self.add_name(path, to),
            Command::DropName { path, to } => self.drop_name(path, to),
            Command::AddUser { user, key } => {
                or_stop(plan_of_table(self.alloc, TableChange::AddUser(*user, *key)))
            }
            Command::SetKey { user, key } => {
                or_stop(plan_of_table(self.alloc, TableChange::SetKey(*user, *key)))
            }
            Command::AddMember { group, user } => {
                or_stop(plan_of_table(self.alloc, TableChange::AddMember(*group, *user)))
            }
            Command::DropMember { group, user } => {
                or_stop(plan_of_table(self.alloc, TableChange::DropMember(*group, *user)))
            }
            Command::Admin(changes) => or_stop(plan_of_all(self.alloc, changes)),
        }
    }
}
