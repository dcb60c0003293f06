//! Paths are followed in the accepted view, name by name.

ghost use Rattle.std.specs.Prelude.{◌≡◌, [], IfOk, IfSome, IsSome, Option, true};
ghost use Rattle.std.specs.Option.{option_map};
ghost use Rattle.std.specs.Vec.{vec_items};
ghost use Rattle.layout.specs.Types.{INumber, Principal};
ghost use Rattle.update_cert.specs.World.{Content, Tree};
ghost use Rattle.client_steps.specs.Anywhere.{seen};
ghost use Rattle.client_tree.specs.Questions.{IsKindOf};
ghost use Rattle.directory.specs.Name.{is_name};
ghost use Rattle.commands.specs.Asked.{content_at, entry_at, place_from, place_in, stands_of};
ghost use Rattle.commands.specs.Asked.{walk as walk_in};
ghost use Rattle.file_session.specs.Order.{Ready, ready_or};
ghost use Rattle.file_session.specs.Parts.{HasName, directory_in, end_in, file_in, last_name, last_of, place_at};
ghost use Rattle.file_session.specs.Parts.{place_of_site};
ghost use Rattle.commands.specs.Paths.{path_of};
ghost use Rattle.file_session.specs.Went.{IsSeenIn, Looked, point};

use crate::conversation::Conversation;
use crate::site::Site;
use crate::stop::Stop;
use client_tree::Question;
use client_verify::{Look, SeenKind};
use commands::{Path, Stands, path_of};
use directory::{Directory, Target};
use leaf_ledger::Device;
use std::alloc::Allocator;
use transport::Transport;

/// How many bytes the text of an empty directory has.
const EMPTY_DIRECTORY: u32 = 6;

/// What stands there, as far as it matters to a change.
fn stands_for(kind: SeenKind) -> Stands
    ensures { (content : Option Content) → IsKindOf kind content → result ≡ stands_of content }
{
    match kind {
        SeenKind::Nothing => Stands::Nothing,
        SeenKind::File(_) => Stands::File,
        SeenKind::Directory(EMPTY_DIRECTORY) => Stands::EmptyDirectory,
        SeenKind::Directory(_) => Stands::UsedDirectory,
    }
}

/// The kind that a look tells, or that of nothing.
fn kind_seen<A: Allocator>(look: &Look<A>) -> SeenKind
    ensures { (tree : Tree) (p : Principal) (i : INumber) → IsSeenIn tree (Question.Kind p i) (seen look.now)
        → IsKindOf result (tree p i) }
{
    match look {
        Look::Kind(kind) => *kind,
        _ => SeenKind::Nothing,
    }
}

/// The directory that a look shows, if it shows one.
fn directory_seen<A: Allocator>(look: Look<A>) -> Option<Directory<A>>
    ensures { (tree : Tree) (p : Principal) (i : INumber) → IsSeenIn tree (Question.At p i) (seen look)
        → result ≡ directory_in (tree p i) }
{
    match look {
        Look::Dir(directory) => Some(directory),
        _ => None,
    }
}

/// The bytes of the file that a look shows, if it shows one.
fn file_seen<A: Allocator>(look: Look<A>) -> Option<Vec<u8, A>>
    ensures { (tree : Tree) (p : Principal) (i : INumber) → IsSeenIn tree (Question.At p i) (seen look)
        → option_map vec_items result ≡ file_in (tree p i) }
{
    match look {
        Look::File(bytes) => Some(bytes),
        _ => None,
    }
}

impl<L: Device, J: Device, T: Transport<A>, A: Allocator + Copy> Conversation<L, J, T, A> {
    /// Of what kind and size is what stands there.
    pub(crate) fn kind(&mut self, at: &Target) -> Result<SeenKind, Stop>
        requires { IsSome self.old.client.view }
        ensures looked { Looked T.answers (point self.old.client self.old.transport (Ready []))
            (point self.new.client self.new.transport (ready_or result))
            (λ tree. IfOk result (λ kind. IsKindOf kind (content_at tree at.now))) }
        ensures phase { self.new.client.phase ≡ self.old.client.phase }
        ensures view { IsSome self.new.client.view }
    {
        let look = self.answer(Question::Kind(at.principal, at.i_number))?;
        Ok(kind_seen(&look))
    }

    /// The directory that stands there, if one does.
    pub(crate) fn directory(&mut self, at: &Target) -> Result<Option<Directory<A>>, Stop>
        requires { IsSome self.old.client.view }
        ensures looked { Looked T.answers (point self.old.client self.old.transport (Ready []))
            (point self.new.client self.new.transport (ready_or result))
            (λ tree. IfOk result (λ found. found ≡ directory_in (content_at tree at.now))) }
        ensures phase { self.new.client.phase ≡ self.old.client.phase }
        ensures view { IsSome self.new.client.view }
    {
        let SeenKind::Directory(_) = self.kind(at)? else {
            return Ok(None);
        };
        let look = self.answer(Question::At(at.principal, at.i_number))?;
        Ok(directory_seen(look))
    }

    /// The bytes of the file that stands there, if one does.
    pub(crate) fn file(&mut self, at: &Target) -> Result<Option<Vec<u8, A>>, Stop>
        requires { IsSome self.old.client.view }
        ensures looked { Looked T.answers (point self.old.client self.old.transport (Ready []))
            (point self.new.client self.new.transport (ready_or result))
            (λ tree. IfOk result (λ found. option_map vec_items found ≡ file_in (content_at tree at.now))) }
        ensures phase { self.new.client.phase ≡ self.old.client.phase }
        ensures view { IsSome self.new.client.view }
    {
        let SeenKind::File(_) = self.kind(at)? else {
            return Ok(None);
        };
        let look = self.answer(Question::At(at.principal, at.i_number))?;
        Ok(file_seen(look))
    }

    /// What a name stands for in what stands there.
    pub(crate) fn entry(&mut self, here: &Target, name: &str) -> Result<Option<Target>, Stop>
        requires { IsSome self.old.client.view }
        ensures looked { Looked T.answers (point self.old.client self.old.transport (Ready []))
            (point self.new.client self.new.transport (ready_or result))
            (λ tree. IfOk result (λ found. found ≡ entry_at tree here.now name.now)) }
        ensures phase { self.new.client.phase ≡ self.old.client.phase }
        ensures view { IsSome self.new.client.view }
    {
        let Some(directory) = self.directory(here)? else {
            return Ok(None);
        };
        Ok(directory.get(name.as_bytes()))
    }

    /// Where a path leads, if each of its names is there.
    fn walk(&mut self, path: Path<'_>) -> Result<Option<Target>, Stop>
        requires { IsSome self.old.client.view }
        ensures looked { Looked T.answers (point self.old.client self.old.transport (Ready []))
            (point self.new.client self.new.transport (ready_or result))
            (λ tree. IfOk result (λ end. end ≡ walk_in tree path.entry.start path.entry.names)) }
        ensures phase { self.new.client.phase ≡ self.old.client.phase }
        ensures view { IsSome self.new.client.view }
    {
        let mut here = path.start();
        let mut names = path.names();
        while let Some(name) = names.next() {
            match self.entry(&here, name)? {
                Some(next) => here = next,
                None => return Ok(None),
            }
        }
        Ok(Some(here))
    }

    /// The site of a name in what stands there, if that is a directory.
    pub(crate) fn site_in(&mut self, directory: Target, name: &str) -> Result<Option<Site>, Stop>
        requires view { IsSome self.old.client.view }
        requires name { is_name name.now ≡ true }
        ensures looked { Looked T.answers (point self.old.client self.old.transport (Ready []))
            (point self.new.client self.new.transport (ready_or result))
            (λ tree. IfOk result (λ found. option_map (place_of_site name.now) found
            ≡ place_in tree directory name.now (content_at tree directory))) }
        ensures named { IfOk result (λ found. IfSome found (HasName name.now)) }
        ensures phase { self.new.client.phase ≡ self.old.client.phase }
        ensures view { IsSome self.new.client.view }
    {
        let Some(entries) = self.directory(&directory)? else {
            return Ok(None);
        };
        let Some(target) = entries.get(name.as_bytes()) else {
            return Ok(Some(Site::New(directory)));
        };
        let kind = self.kind(&target)?;
        Ok(Some(Site::Old(directory, target, stands_for(kind))))
    }

    /// The site to which a path leads, if each of its names but the last is there.
    fn site_from(&mut self, path: Path<'_>) -> Result<Option<Site>, Stop>
        requires { IsSome self.old.client.view }
        ensures looked { Looked T.answers (point self.old.client self.old.transport (Ready []))
            (point self.new.client self.new.transport (ready_or result))
            (λ tree. IfOk result (λ found. option_map (place_of_site (last_of path.entry.names)) found
            ≡ place_from tree path.entry.start path.entry.names)) }
        ensures named { IfOk result (λ found. IfSome found (HasName (last_of path.entry.names))) }
        ensures phase { self.new.client.phase ≡ self.old.client.phase }
        ensures view { IsSome self.new.client.view }
    {
        let mut here = path.start();
        let mut names = path.names();
        let Some(mut last) = names.next() else {
            let kind = self.kind(&here)?;
            return Ok(Some(Site::At(here, stands_for(kind))));
        };
        while let Some(name) = names.next() {
            match self.entry(&here, last)? {
                Some(next) => here = next,
                None => return Ok(None),
            }
            last = name;
        }
        self.site_in(here, last)
    }

    /// Where the path leads that a text is, if it is one and each of its names is there.
    pub(crate) fn end(&mut self, path: &str) -> Result<Option<Target>, Stop>
        requires { IsSome self.old.client.view }
        ensures looked { Looked T.answers (point self.old.client self.old.transport (Ready []))
            (point self.new.client self.new.transport (ready_or result))
            (λ tree. IfOk result (λ end. end ≡ end_in tree (path_of path.now))) }
        ensures phase { self.new.client.phase ≡ self.old.client.phase }
        ensures view { IsSome self.new.client.view }
    {
        match path_of(path) {
            Some(path) => self.walk(path),
            None => Ok(None),
        }
    }

    /// The site to which the path leads that a text is.
    pub(crate) fn site(&mut self, path: &str) -> Result<Option<Site>, Stop>
        requires { IsSome self.old.client.view }
        ensures looked { Looked T.answers (point self.old.client self.old.transport (Ready []))
            (point self.new.client self.new.transport (ready_or result))
            (λ tree. IfOk result (λ found. option_map (place_of_site (last_name (path_of path.now))) found
            ≡ place_at tree (path_of path.now))) }
        ensures named { IfOk result (λ found. IfSome found (HasName (last_name (path_of path.now)))) }
        ensures phase { self.new.client.phase ≡ self.old.client.phase }
        ensures view { IsSome self.new.client.view }
    {
        match path_of(path) {
            Some(path) => self.site_from(path),
            None => Ok(None),
        }
    }
}
