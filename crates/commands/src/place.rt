//! Where a command changes something, and what it comes to there.

ghost use Rattle.std.specs.Prelude.{◌≡◌, [], true};
ghost use Rattle.layout.specs.Types.{Bytes};
ghost use Rattle.update_cert.specs.World.{Content, File, Directory};
ghost use Rattle.directory.specs.Name.{is_name};
ghost use Rattle.commands.specs.Names.{IsNamed, IsNamedCourse, PutsNothing};
ghost use Rattle.commands.specs.Asked.{place_held, outcome_of, puts, makes, removes, links, unlinks, makes_named};
ghost use Rattle.commands.specs.Asked.{adds_name, drops_name, is_directory, is_elsewhere, is_name_of, is_same};

use crate::answer::Refusal;
use directory::Target;
use layout::INumber;

/// What stands at an i-number, as far as it matters to a change.
#[derive(Clone, Copy, Debug, PartialEq, Eq)]
pub enum Stands {
    /// Nothing.
    Nothing,
    /// A file.
    File,
    /// A directory without entries.
    EmptyDirectory,
    /// A directory that has entries.
    UsedDirectory,
}

/// Where a path leads to.
#[derive(Clone, Copy, Debug)]
pub enum Place<'a> {
    /// To an i-number itself, at which this stands.
    At(Target, Stands),
    /// To a name that a directory lacks.
    New {
        /// The directory.
        directory: Target,
        /// The name.
        name: &'a str,
    },
    /// To a name of a directory.
    Old {
        /// The directory.
        directory: Target,
        /// The name.
        name: &'a str,
        /// What the name stands for.
        target: Target,
        /// What stands there.
        stands: Stands,
    },
}

/// What a command that changes something comes to. What is put or made is the command's own content.
#[derive(Clone, Copy)]
pub enum Course<'a> {
    /// To nothing.
    Refuse(Refusal),
    /// A file is put in the place of the one that stands there.
    Put(Target),
    /// A file or directory is made there, and gets no name.
    Make(Target),
    /// A file or directory is made at this i-number of the directory's principal, and gets this name in it.
    MakeNamed {
        /// The directory.
        directory: Target,
        /// The name.
        name: &'a str,
        /// At which i-number it is to stand.
        i_number: INumber,
    },
    /// What stands there is removed.
    Remove(Target),
    /// A name is taken from a directory.
    Unlink {
        /// The directory.
        directory: Target,
        /// The name.
        name: &'a str,
    },
    /// A name is taken from a directory, and what it stood for is removed.
    UnlinkAndRemove {
        /// The directory.
        directory: Target,
        /// The name.
        name: &'a str,
        /// What the name stood for.
        target: Target,
    },
    /// A directory gets a name for this.
    Link {
        /// The directory.
        directory: Target,
        /// The name.
        name: &'a str,
        /// What the name is to stand for.
        target: Target,
    },
    /// A directory gets a name for this, and another name is taken from its directory.
    LinkAndUnlink {
        /// The directory that gets a name.
        to: Target,
        /// That name.
        to_name: &'a str,
        /// What that name is to stand for.
        target: Target,
        /// The directory from which a name is taken.
        directory: Target,
        /// The name that is taken.
        name: &'a str,
    },
}

/// What is made at a name that a directory lacks, with the free i-number.
fn make_named<'a>(directory: Target, name: &'a str, free: Option<INumber>) -> Course<'a>
    ensures makes { (new : Content) → outcome_of new result ≡ makes_named directory name.now new free }
    ensures named { is_name name.now ≡ true → IsNamedCourse result }
    ensures puts_nothing { PutsNothing result }
{
    match free {
        None => Course::Refuse(Refusal::NoNumber),
        Some(i_number) => Course::MakeNamed {
            directory,
            name,
            i_number,
        },
    }
}

/// What a name comes to that is taken from a directory, with what it stands for.
fn unlink<'a>(directory: Target, name: &'a str, target: Target) -> Course<'a>
    ensures unlinks { (new : Content) → outcome_of new result ≡ unlinks directory name.now target }
    ensures named { is_name name.now ≡ true → IsNamedCourse result }
    ensures puts_nothing { PutsNothing result }
{
    if target.principal == directory.principal {
        Course::UnlinkAndRemove {
            directory,
            name,
            target,
        }
    } else {
        Course::Unlink { directory, name }
    }
}

/// Whether a directory stands there.
fn is_directory(stands: Stands) -> bool
    ensures { result ≡ is_directory stands }
{
    matches!(stands, Stands::EmptyDirectory | Stands::UsedDirectory)
}

/// Whether these are one i-number of one principal.
fn is_same(target: Target, other: Target) -> bool
    ensures { result ≡ is_same target other }
{
    target.principal == other.principal && target.i_number == other.i_number
}

/// Whether a name of a directory is that one.
fn is_name_of(directory: Target, name: &str, other: Target, other_name: &str) -> bool
    ensures { result ≡ is_name_of directory name.now other other_name.now }
{
    is_same(directory, other) && name == other_name
}

impl<'a> Place<'a> {
    /// What a file comes to that is put here, where it is new at the free i-number.
    pub fn put(&self, free: Option<INumber>) -> Course<'a>
        ensures puts { (bytes : Bytes) → outcome_of (File bytes) result ≡ puts bytes (place_held self.now) free }
        ensures named { IsNamed self.now → IsNamedCourse result }
    {
        match self {
            Place::At(target, Stands::Nothing) => Course::Make(*target),
            Place::At(target, Stands::File) => Course::Put(*target),
            Place::New { directory, name } => make_named(*directory, name, free),
            Place::Old {
                target,
                stands: Stands::File,
                ..
            } => Course::Put(*target),
            Place::At(..) | Place::Old { .. } => Course::Refuse(Refusal::NoPath),
        }
    }

    /// What an empty directory comes to that is made here, at the free i-number where it gets a name.
    pub fn make(&self, free: Option<INumber>) -> Course<'a>
        ensures makes { outcome_of (Directory []) result ≡ makes (place_held self.now) free }
        ensures named { IsNamed self.now → IsNamedCourse result }
        ensures puts_nothing { PutsNothing result }
    {
        match self {
            Place::At(target, Stands::Nothing) => Course::Make(*target),
            Place::New { directory, name } => make_named(*directory, name, free),
            Place::Old { .. } | Place::At(..) => Course::Refuse(Refusal::There),
        }
    }

    /// What it comes to that what stands here is removed, with its name.
    pub fn remove(&self) -> Course<'a>
        ensures removes { (new : Content) → outcome_of new result ≡ removes (place_held self.now) }
        ensures named { IsNamed self.now → IsNamedCourse result }
        ensures puts_nothing { PutsNothing result }
    {
        match self {
            Place::At(_, Stands::Nothing) | Place::New { .. } => Course::Refuse(Refusal::NoPath),
            Place::At(target, Stands::File | Stands::EmptyDirectory) => Course::Remove(*target),
            Place::Old {
                directory,
                name,
                stands: Stands::Nothing,
                ..
            } => Course::Unlink {
                directory: *directory,
                name,
            },
            Place::Old {
                directory,
                name,
                target,
                stands: Stands::File | Stands::EmptyDirectory,
            } => unlink(*directory, name, *target),
            Place::At(..) | Place::Old { .. } => Course::Refuse(Refusal::NotEmpty),
        }
    }

    /// What it comes to that this place becomes a name for a target.
    pub fn link(&self, target: Target) -> Course<'a>
        ensures links { (new : Content) → outcome_of new result ≡ links target (place_held self.now) }
        ensures named { IsNamed self.now → IsNamedCourse result }
        ensures puts_nothing { PutsNothing result }
    {
        match self {
            Place::At(_, Stands::Nothing) => Course::Refuse(Refusal::NoPath),
            Place::New { directory, name } => Course::Link {
                directory: *directory,
                name,
                target,
            },
            Place::At(..) | Place::Old { .. } => Course::Refuse(Refusal::There),
        }
    }

    /// Whether it is a name of another directory.
    fn is_elsewhere(&self, directory: Target) -> bool
        ensures { result ≡ is_elsewhere directory (place_held self.now) }
    {
        match self {
            Place::At(..) => false,
            Place::New {
                directory: other,
                ..
            }
            | Place::Old {
                directory: other,
                ..
            } => !is_same(directory, *other),
        }
    }

    /// What it comes to that what the name here stands for gets another place as its name too: a directory only in its
    /// own directory.
    pub fn add_name(&self, to: &Place<'a>) -> Course<'a>
        ensures adds { (new : Content) → outcome_of new result ≡ adds_name (place_held self.now) (place_held to.now) }
        ensures named { IsNamed to.now → IsNamedCourse result }
        ensures puts_nothing { PutsNothing result }
    {
        match self {
            Place::Old {
                directory,
                target,
                stands,
                ..
            } if *stands != Stands::Nothing
                && !(is_directory(*stands) && to.is_elsewhere(*directory)) => to.link(*target),
            Place::At(..) | Place::New { .. } | Place::Old { .. } => {
                Course::Refuse(Refusal::NoPath)
            }
        }
    }

    /// What it comes to that the name here is taken away, where another place is a name for what it stands for: that
    /// one is given again, for the case that somebody takes it away meanwhile.
    pub fn drop_name(&self, to: &Place<'a>) -> Course<'a>
        ensures drops { (new : Content)
            → outcome_of new result ≡ drops_name (place_held self.now) (place_held to.now) }
        ensures named { IsNamed self.now → IsNamed to.now → IsNamedCourse result }
        ensures puts_nothing { PutsNothing result }
    {
        let Place::Old {
            directory,
            name,
            target,
            ..
        } = self
        else {
            return Course::Refuse(Refusal::NoPath);
        };
        match to {
            Place::New { .. } => Course::Refuse(Refusal::NoPath),
            Place::Old {
                directory: other,
                name: other_name,
                target: same,
                ..
            } if is_same(*target, *same) && !is_name_of(*directory, name, *other, other_name) => {
                Course::LinkAndUnlink {
                    to: *other,
                    to_name: other_name,
                    target: *target,
                    directory: *directory,
                    name,
                }
            }
            Place::Old { .. } | Place::At(..) => Course::Refuse(Refusal::There),
        }
    }
}
