//! Where a command changes something, and what it plans there.

ghost use Rattle.std.specs.Prelude.{◌≡◌, IfOk, OnErr};
ghost use Rattle.commands.specs.Asked.{links, makes, place_held, puts, removes};
ghost use Rattle.commands.specs.Names.{IsNamed};
ghost use Rattle.commands.specs.Paths.{path_of};
ghost use Rattle.file_session.specs.Parts.{CanBegin, HasName, IsChange, IsPlanOf, IsSmall, last_name, last_of};
ghost use Rattle.file_session.specs.Parts.{place_of_site};

use crate::planning::{Plan, plan_of};
use crate::texts::New;
use commands::{Names, Place, Stands, path_of};
use directory::Target;
use layout::{INumber, Memory};
use std::alloc::Allocator;

/// Where a command changes something: a place, but for its name, which is the last one of the command's path.
#[derive(Clone, Copy)]
pub(crate) enum Site {
    /// At this i-number, where this stands.
    At(Target, Stands),
    /// At the name, which this directory lacks.
    New(Target),
    /// At the name in this directory, which stands for this target, where this stands.
    Old(Target, Target, Stands),
}

/// The last of these names, or nothing where there is none.
#[tactic(auto, using(crate::proofs::Last::last_from_none, crate::proofs::Last::last_on, crate::proofs::Last::last_end))]
fn last_of<'a>(names: Names<'a>) -> &'a str
    ensures { result.now ≡ last_of names.entry }
{
    let mut names = names;
    let mut last = "";
    while let Some(name) = names.next() {
        last = name;
    }
    last
}

/// The last name of the path that a text is.
fn last_name(path: &str) -> &str
    ensures { result.now ≡ last_name (path_of path.now) }
{
    match path_of(path) {
        Some(path) => last_of(path.names()),
        None => "",
    }
}

/// The place of a path that leads to this site.
pub(crate) fn place<'a>(path: &'a str, site: &Site) -> Place<'a>
    ensures held { place_held result ≡ place_of_site (last_name (path_of path.now)) site.now }
    ensures named { HasName (last_name (path_of path.now)) site.now → IsNamed result }
{
    place_named(last_name(path), site)
}

/// The place of this name at this site.
pub(crate) fn place_named<'a>(name: &'a str, site: &Site) -> Place<'a>
    ensures held { place_held result ≡ place_of_site name.now site.now }
    ensures named { HasName name.now site.now → IsNamed result }
{
    match site {
        Site::At(target, stands) => Place::At(*target, *stands),
        Site::New(directory) => Place::New {
            directory: *directory,
            name,
        },
        Site::Old(directory, target, stands) => Place::Old {
            directory: *directory,
            name,
            target: *target,
            stands: *stands,
        },
    }
}

/// A file of these bytes is put at the site of a path.
pub(crate) fn put_at<A: Allocator + Copy>(
    alloc: A,
    path: &str,
    site: &Site,
    content: &[u8],
    free: Option<INumber>,
) -> Result<Plan<A>, Memory>
    requires small { IsSmall content.now }
    requires named { HasName (last_name (path_of path.now)) site.now }
    ensures plan { IfOk result (IsPlanOf
        (puts content.now (place_of_site (last_name (path_of path.now)) site.now) free)) }
    ensures can_begin { IfOk result CanBegin }
    ensures changes { OnErr result (IsChange
        (puts content.now (place_of_site (last_name (path_of path.now)) site.now) free)) }
{
    let place = place(path, site);
    let course = place.put(free);
    plan_of(alloc, New::File(content), &course)
}

/// An empty directory is made at the site of a path.
pub(crate) fn make_at<A: Allocator + Copy>(
    alloc: A,
    path: &str,
    site: &Site,
    free: Option<INumber>,
) -> Result<Plan<A>, Memory>
    requires { HasName (last_name (path_of path.now)) site.now }
    ensures plan { IfOk result (IsPlanOf (makes (place_of_site (last_name (path_of path.now)) site.now) free)) }
    ensures can_begin { IfOk result CanBegin }
    ensures changes { OnErr result (IsChange (makes (place_of_site (last_name (path_of path.now)) site.now) free)) }
{
    let place = place(path, site);
    let course = place.make(free);
    plan_of(alloc, New::Directory, &course)
}

/// What stands at the site of a path is removed.
pub(crate) fn remove_at<A: Allocator + Copy>(
    alloc: A,
    path: &str,
    site: &Site,
) -> Result<Plan<A>, Memory>
    requires { HasName (last_name (path_of path.now)) site.now }
    ensures plan { IfOk result (IsPlanOf (removes (place_of_site (last_name (path_of path.now)) site.now))) }
    ensures can_begin { IfOk result CanBegin }
    ensures changes { OnErr result (IsChange (removes (place_of_site (last_name (path_of path.now)) site.now))) }
{
    let place = place(path, site);
    let course = place.remove();
    plan_of(alloc, New::Directory, &course)
}

/// The site of a path becomes a name for a target.
pub(crate) fn link_at<A: Allocator + Copy>(
    alloc: A,
    path: &str,
    site: &Site,
    target: Target,
) -> Result<Plan<A>, Memory>
    requires { HasName (last_name (path_of path.now)) site.now }
    ensures plan { IfOk result (IsPlanOf (links target (place_of_site (last_name (path_of path.now)) site.now))) }
    ensures can_begin { IfOk result CanBegin }
    ensures changes { OnErr result
        (IsChange (links target (place_of_site (last_name (path_of path.now)) site.now))) }
{
    let place = place(path, site);
    let course = place.link(target);
    plan_of(alloc, New::Directory, &course)
}
