//! The lists of the server: the latest structures, and each structure that was ever listed.

ghost use Rattle.std.specs.Prelude.{◌≤◌, ◌<◌, IsTrue, length};

use crate::texts::{copies_of, copy_of};
use layout::{Memory, User, beside, put_in};
use pending_list::Signed;
use std::alloc::Allocator;
use version_order::{Entry, Structure};

/// Whose structure it is.
pub(crate) fn user_of<A: Allocator>(structure: &Signed<Structure<A>>) -> User {
    structure.value.plan().user()
}

/// Whether it is the structure of this user and number.
fn is_of<A: Allocator>(structure: &Signed<Structure<A>>, user: User, number: u64) -> bool {
    let plan = structure.value.plan();
    plan.user() == user && u64::from(plan.number().get()) == number
}

/// Where the user's structure stands among these, which ascend by user, or where it would stand.
fn place_of<A: Allocator>(structures: &[Signed<Structure<A>>], user: User) -> usize
    ensures { result ≤ length structures.now }
{
    for place in 0..structures.len() {
        if user_of(&structures[place]).get() >= user.get() {
            return place;
        }
    }
    structures.len()
}

/// Whether the structure at this place is the user's.
fn is_at<A: Allocator>(structures: &[Signed<Structure<A>>], place: usize, user: User) -> bool
    ensures { IsTrue result → place < length structures.now }
{
    place < structures.len() && user_of(&structures[place]) == user
}

/// Puts a structure before what stands at this place.
fn insert<A: Allocator>(
    structures: &mut Vec<Signed<Structure<A>>, A>,
    place: usize,
    structure: Signed<Structure<A>>,
) -> Result<(), Memory>
    requires { place ≤ length structures.old.items }
{
    structures.insert(place, structure)?;
    Ok(())
}

/// Puts a structure in its place among these, which ascend by user, or in that of the one of its user.
fn put<A: Allocator>(
    structures: &mut Vec<Signed<Structure<A>>, A>,
    structure: Signed<Structure<A>>,
) -> Result<(), Memory> {
    let user = user_of(&structure);
    let place = place_of(structures, user);
    if is_at(structures, place, user) {
        put_in(&mut structures[place], structure);
        Ok(())
    } else {
        insert(structures, place, structure)
    }
}

/// What was committed, or listed as if it were.
#[derive(Drop)]
pub(crate) struct Listed<A: Allocator> {
    /// The latest structure of each user, ascending by user.
    latest: Vec<Signed<Structure<A>>, A>,
    /// Each structure that was ever listed, the oldest first.
    ever: Vec<Signed<Structure<A>>, A>,
}

impl<A: Allocator + Copy> Listed<A> {
    /// No structures.
    pub(crate) fn new(alloc: A) -> Listed<A> {
        Listed {
            latest: Vec::new(alloc),
            ever: Vec::new(alloc),
        }
    }

    /// The latest structure of each user, ascending by user.
    pub(crate) fn latest(&self) -> &[Signed<Structure<A>>] {
        &self.latest
    }

    /// The latest structure of a user, if there is one.
    pub(crate) fn latest_of(&self, user: User) -> Option<&Signed<Structure<A>>> {
        self.latest
            .iter()
            .find(|structure| user_of(structure) == user)
    }

    /// A user's structure of this number, if it was ever listed.
    pub(crate) fn structure_of(&self, user: User, number: u64) -> Option<&Signed<Structure<A>>> {
        for structure in &self.ever {
            if is_of(structure, user, number) {
                return Some(structure);
            }
        }
        None
    }

    /// The entry that a plan has of the user's latest operation, if there is one.
    pub(crate) fn entry_of(&self, alloc: A, user: User) -> Result<Option<Entry>, Memory> {
        match self.latest_of(user) {
            Some(structure) => Ok(Some(structure.value.plan().entry(alloc)?)),
            None => Ok(None),
        }
    }

    /// Lists a structure as its user's latest one.
    pub(crate) fn list(&mut self, alloc: A, structure: Signed<Structure<A>>) -> Result<(), Memory> {
        let kept = self.keep(alloc, &structure);
        let (structure, ()) = beside(structure, kept)?;
        put(&mut self.latest, structure)
    }

    /// Keeps a copy of a structure that is listed.
    fn keep(&mut self, alloc: A, structure: &Signed<Structure<A>>) -> Result<(), Memory> {
        self.ever.push(copy_of(alloc, structure)?)?;
        Ok(())
    }

    /// The same structures.
    pub(crate) fn copy(&self, alloc: A) -> Result<Listed<A>, Memory> {
        let latest = copies_of(alloc, &self.latest)?;
        let (latest, ever) = beside(latest, copies_of(alloc, &self.ever))?;
        Ok(Listed { latest, ever })
    }
}
