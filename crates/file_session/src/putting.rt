//! Files that are put into one directory, in one operation.

ghost use Rattle.std.specs.Prelude.{◌≡◌, ◌≤◌, ◌+◌, ◌*◌, ◌++◌, ◌∷◌, ℕ, [], false, IfOk, IfSome, IsSome};
ghost use Rattle.std.specs.Prelude.{List, MatchOption, OnErr, Some, length, map, true};
ghost use Rattle.std.specs.List.{list_all, list_any};
ghost use Rattle.std.specs.Vec.{vec_items};
ghost use Rattle.directory.specs.Name.{is_name};
ghost use Rattle.layout.specs.Types.{Bytes};
ghost use Rattle.update_cert.specs.World.{Content, File};
ghost use Rattle.client_tree.specs.Questions.{IsLeastFree};
ghost use Rattle.commands.specs.Asked.{Outcome, Writes, both, free_at_from, free_from, is_large, next_from, outcome_of};
ghost use Rattle.commands.specs.Asked.{puts, puts_all, puts_each, refuses};
ghost use Rattle.commands.specs.Files.{name_of};
ghost use Rattle.commands.specs.Names.{IsNamedCourse};
ghost use Rattle.commands.specs.Paths.{path_of};
ghost use Rattle.commands.specs.declared.files.NewFile.{NewFile as NewFileOf};
ghost use Rattle.commands.specs.declared.files.TheConstants.{MOST_FILES};
ghost use Rattle.commands.specs.declared.place.Course.TheVariants.{Refuse};
ghost use Rattle.update_cert.specs.declared.cert.TheConstants.{MOST_CHANGES};
ghost use Rattle.file_session.specs.Order.{Ready, ready_or};
ghost use Rattle.file_session.specs.Parts.{CanBegin, HasFew, HasName, IsChange, IsPlanOf, IsSmall, Planned};
ghost use Rattle.file_session.specs.Parts.{comes_at, next_after, place_of_site};
ghost use Rattle.file_session.specs.Went.{Looked, point};

use crate::choosing::free_seen;
use crate::conversation::Conversation;
use crate::planning::{Operation, Plan, or_stop, plan_of, refused};
use crate::site::{Site, place_named};
use crate::stop::Stop;
use crate::texts::New;
use client_tree::Question;
use commands::{Course, NewFile, Refusal, have_names, range_of};
use directory::Target;
use layout::{INumber, Memory, Principal, User, let_go};
use leaf_ledger::Device;
use std::alloc::Allocator;
use transport::Transport;

/// Where a file is put: the site of its name, and the free i-number that is needed there.
#[derive(Clone, Copy)]
pub(crate) struct Spot {
    site: Site,
    free: Option<INumber>,
}

/// An operation without changes.
fn no_changes<A: Allocator + Copy>(alloc: A) -> Plan<A>
    ensures plan { IsPlanOf (Writes []) result }
    ensures can_begin { CanBegin result }
    ensures few { HasFew 0 result }
{
    Plan::Writes(Operation {
        changes: Vec::new(alloc),
        texts: Vec::new(alloc),
    })
}

/// Why a course comes to nothing, if it does.
fn refusal_of(course: &Course<'_>) -> Option<Refusal>
    ensures { MatchOption result ((new : Content) → IsChange (outcome_of new course.now))
        (λ why. course.now ≡ Refuse why) }
{
    match course {
        Course::Refuse(why) => Some(*why),
        _ => None,
    }
}

/// The changes and texts of one operation, and then those of another.
fn join<A: Allocator>(first: Operation<A>, later: Operation<A>) -> Result<Operation<A>, Memory>
    ensures changes { IfOk result (λ both. both.changes.items ≡ first.changes.items ++ later.changes.items) }
    ensures texts { IfOk result (λ both. map vec_items both.texts.items
        ≡ map vec_items first.texts.items ++ map vec_items later.texts.items) }
{
    let Operation {
        mut changes,
        mut texts,
    } = first;
    let Operation {
        changes: mut later_changes,
        texts: mut later_texts,
    } = later;
    changes.append(&mut later_changes)?;
    texts.append(&mut later_texts)?;
    Ok(Operation { changes, texts })
}

/// What a file comes to that is put by a course, with the changes that come after it.
fn before_changes<A: Allocator + Copy>(
    alloc: A,
    content: &[u8],
    course: &Course<'_>,
    later: Operation<A>,
) -> Result<Plan<A>, Memory>
    requires small { IsSmall content.now }
    requires named { IsNamedCourse course.now }
    requires change { IsChange (outcome_of (File content.now) course.now) }
    ensures plan { (o : Outcome) → IsPlanOf o (Plan.Writes later)
        → IfOk result (IsPlanOf (both (outcome_of (File content.now) course.now) o)) }
    ensures can_begin { (n : ℕ) → n + 2 ≤ MOST_CHANGES → length later.changes.items ≤ n
        → CanBegin (Plan.Writes later) → IfOk result CanBegin }
    ensures few { (n : ℕ) → length later.changes.items ≤ n → IfOk result (HasFew (n + 2)) }
{
    match plan_of(alloc, New::File(content), course) {
        Ok(Plan::Writes(first)) => {
            let all = join(first, later)?;
            Ok(Plan::Writes(all))
        }
        Ok(Plan::Tells(_)) => unreachable!(),
        Err(Memory) => {
            let_go(later);
            Err(Memory)
        }
    }
}

/// What a file comes to that is put by a course, with what comes after it.
fn put_first<A: Allocator + Copy>(
    alloc: A,
    content: &[u8],
    course: &Course<'_>,
    later: Plan<A>,
) -> Result<Plan<A>, Memory>
    requires small { IsSmall content.now }
    requires named { IsNamedCourse course.now }
    requires change { IsChange (outcome_of (File content.now) course.now) }
    ensures plan { (o : Outcome) → IsPlanOf o later
        → IfOk result (IsPlanOf (both (outcome_of (File content.now) course.now) o)) }
    ensures can_begin { (n : ℕ) → n + 2 ≤ MOST_CHANGES → HasFew n later → CanBegin later → IfOk result CanBegin }
    ensures few { (n : ℕ) → HasFew n later → IfOk result (HasFew (n + 2)) }
    ensures changes { (o : Outcome) → IsPlanOf o later
        → OnErr result (IsChange (both (outcome_of (File content.now) course.now) o)) }
{
    match later {
        Plan::Writes(changes) => before_changes(alloc, content, course, changes),
        Plan::Tells(answer) => Ok(Plan::Tells(answer)),
    }
}

/// From which i-number on the next one is looked for.
fn next_from(from: u16, taken: Option<INumber>) -> u16
    ensures next { result ≡ next_from from taken }
    ensures some { 1 ≤ from → 1 ≤ result }
{
    match taken {
        Some(taken) => taken.get() + 1,
        None => from,
    }
}

/// What a file comes to that is put under this name at a spot.
fn course_at<'a>(name: &'a str, spot: &Spot) -> Course<'a>
    ensures puts { (bytes : Bytes)
        → outcome_of (File bytes) result ≡ puts bytes (place_of_site name.now spot.now.site) spot.now.free }
    ensures named { HasName name.now spot.now.site → IsNamedCourse result }
{
    let place = place_named(name, &spot.site);
    place.put(spot.free)
}

/// Why nothing comes of a file that is put at a spot, if nothing does.
fn refusal_at(file: &NewFile<'_>, spot: &Spot) -> Option<Refusal>
    ensures { MatchOption result (IsChange (comes_at file.now (Some spot.now)))
        (λ why. comes_at file.now (Some spot.now) ≡ refuses why) }
{
    let course = course_at(file.name, spot);
    refusal_of(&course)
}

/// What a file comes to that is put at a spot, with what comes after it.
fn put_before<A: Allocator + Copy>(
    alloc: A,
    file: &NewFile<'_>,
    spot: &Spot,
    later: Plan<A>,
) -> Result<Plan<A>, Memory>
    requires small { IsSmall file.now.content.now }
    requires named { HasName (name_of file.now) spot.now.site }
    requires change { IsChange (comes_at file.now (Some spot.now)) }
    ensures plan { (o : Outcome) → IsPlanOf o later
        → IfOk result (IsPlanOf (both (comes_at file.now (Some spot.now)) o)) }
    ensures can_begin { (n : ℕ) → n + 2 ≤ MOST_CHANGES → HasFew n later → CanBegin later → IfOk result CanBegin }
    ensures few { (n : ℕ) → HasFew n later → IfOk result (HasFew (n + 2)) }
    ensures changes { (o : Outcome) → IsPlanOf o later
        → OnErr result (IsChange (both (comes_at file.now (Some spot.now)) o)) }
{
    let course = course_at(file.name, spot);
    put_first(alloc, file.content, &course, later)
}

impl<L: Device, J: Device, T: Transport<A>, A: Allocator + Copy> Conversation<L, J, T, A> {
    /// The least i-number of a principal from this one on at which nothing stands, of those at which the user makes
    /// something.
    fn free_from(
        &mut self,
        user: User,
        principal: Principal,
        from: u16,
    ) -> Result<Option<INumber>, Stop>
        requires view { IsSome self.old.client.view }
        requires some { 1 ≤ from }
        ensures looked { Looked T.answers (point self.old.client self.old.transport (Ready []))
            (point self.new.client self.new.transport (ready_or result))
            (λ tree. IfOk result (λ free. free ≡ free_from user tree principal from)) }
        ensures phase { self.new.client.phase ≡ self.old.client.phase }
        ensures view { IsSome self.new.client.view }
    {
        let (_, last) = range_of(user, principal);
        if last.get() < from {
            return Ok(None);
        }
        let Some(first) = INumber::new(from) else {
            unreachable!()
        };
        let look = self.answer(Question::Free(principal, first, last))?;
        Ok(free_seen(&look))
    }

    /// The i-number that is needed at a site, from this one on.
    fn free_at_from(&mut self, user: User, from: u16, site: &Site) -> Result<Option<INumber>, Stop>
        requires view { IsSome self.old.client.view }
        requires some { 1 ≤ from }
        ensures looked { Looked T.answers (point self.old.client self.old.transport (Ready []))
            (point self.new.client self.new.transport (ready_or result))
            (λ tree. IfOk result (λ free. (name : Bytes)
            → free ≡ free_at_from user tree from (place_of_site name site.now))) }
        ensures phase { self.new.client.phase ≡ self.old.client.phase }
        ensures view { IsSome self.new.client.view }
    {
        match site {
            Site::New(directory) => {
                let principal = directory.principal;
                self.free_from(user, principal, from)
            }
            Site::At(..) | Site::Old(..) => Ok(None),
        }
    }

    /// Where a file is put in a directory, a new one at an i-number from this one on.
    fn spot(
        &mut self,
        user: User,
        directory: &Target,
        from: u16,
        file: &NewFile<'_>,
    ) -> Result<Option<Spot>, Stop>
        requires view { IsSome self.old.client.view }
        requires some { 1 ≤ from }
        requires name { is_name (name_of file.now) ≡ true }
        ensures looked { Looked T.answers (point self.old.client self.old.transport (Ready []))
            (point self.new.client self.new.transport (ready_or result))
            (λ tree. IfOk result (λ spot. (later : List NewFileOf)
            → puts_each user tree directory.now from (file.now ∷ later)
            ≡ both (comes_at file.now spot) (puts_each user tree directory.now (next_after from spot) later))) }
        ensures named { IfOk result (λ spot. IfSome spot (λ s. HasName (name_of file.now) s.site)) }
        ensures phase { self.new.client.phase ≡ self.old.client.phase }
        ensures view { IsSome self.new.client.view }
    {
        let Some(site) = self.site_in(*directory, file.name)? else {
            return Ok(None);
        };
        let free = self.free_at_from(user, from, &site)?;
        Ok(Some(Spot { site, free }))
    }

    /// These files are put into a directory, in turn, new ones from this i-number on.
    fn put_each(
        &mut self,
        user: User,
        directory: &Target,
        from: u16,
        files: &[NewFile<'_>],
    ) -> Result<Plan<A>, Stop>
        requires view { IsSome self.old.client.view }
        requires some { 1 ≤ from }
        requires small { list_any (λ file. is_large file.content.now) files.now ≡ false }
        requires names { list_all (λ file. is_name (name_of file)) files.now ≡ true }
        requires few { length files.now ≤ MOST_FILES }
        ensures planned { Planned T.answers (point self.old.client self.old.transport (Ready []))
            (point self.new.client self.new.transport (ready_or result))
            (λ tree. puts_each user tree directory.now from files.now) result }
        ensures few { IfOk result (HasFew (2 * length files.now)) }
        ensures phase { self.new.client.phase ≡ self.old.client.phase }
    {
        match files.split_first() {
            None => Ok(no_changes(self.alloc)),
            Some((file, rest)) => {
                let Some(spot) = self.spot(user, directory, from, file)? else {
                    return Ok(refused(Refusal::NoPath));
                };
                if let Some(why) = refusal_at(file, &spot) {
                    return Ok(refused(why));
                }
                let next = next_from(from, spot.free);
                let later = self.put_each(user, directory, next, rest)?;
                or_stop(put_before(self.alloc, file, &spot, later))
            }
        }
    }

    /// These files are put into the directory at the end of a path.
    pub(crate) fn put_all(
        &mut self,
        user: User,
        directory: &str,
        files: &[NewFile<'_>],
    ) -> Result<Plan<A>, Stop>
        requires view { IsSome self.old.client.view }
        requires small { list_any (λ file. is_large file.content.now) files.now ≡ false }
        requires few { length files.now ≤ MOST_FILES }
        ensures planned { Planned T.answers (point self.old.client self.old.transport (Ready []))
            (point self.new.client self.new.transport (ready_or result))
            (λ tree. puts_all user tree files.now (path_of directory.now)) result }
        ensures phase { self.new.client.phase ≡ self.old.client.phase }
    {
        if !have_names(files) {
            return Ok(refused(Refusal::NoPath));
        }
        let Some(end) = self.end(directory)? else {
            return Ok(refused(Refusal::NoPath));
        };
        let Some(entries) = self.directory(&end)? else {
            return Ok(refused(Refusal::NoPath));
        };
        let_go(entries);
        let (first, _) = range_of(user, end.principal);
        self.put_each(user, &end, first.get(), files)
    }
}
