//! A principal's part of the tree.

ghost use Rattle.std.specs.Prelude.{◌≡◌, ◌==◌, ◌||◌, ◌&&◌, ◌/◌, nat_lt, nat_le, if◌then◌else◌, None, ℕ, List, [], Some};
ghost use Rattle.std.specs.Prelude.{false, IfOk, IsOk, IfErr, OnErr, OnOk, IsSome, is_some, true, map, ◌∷◌, ◌++◌};
ghost use Rattle.std.specs.List.{list_all};
ghost use Rattle.layout.specs.Hash.{hash};
ghost use Rattle.std.specs.Option.{option_copied, option_map};
ghost use Rattle.std.specs.Vec.{vec_items};
ghost use Rattle.std.specs.Ordering.{nat_cmp};
ghost use Rattle.layout.specs.Ascending.{IsFree};
ghost use Rattle.directory.specs.Directory.{Entry as ListedEntry};
ghost use Rattle.itable.specs.ITable.{IsTable, digest_at, loaded};
ghost use Rattle.update_cert.specs.Change.{Make, Put, Remove, Link, Unlink, action_of};
ghost use Rattle.update_cert.specs.World.{Actor, Tree, after_change, is_file, is_removable, is_root as is_root_of};
ghost use Rattle.update_cert.specs.World.{is_table as is_table_of};
ghost use Rattle.update_cert.specs.Reading.{Reading, read_change};
ghost use Rattle.tree_parts.specs.Blocks.{ForEachReading, inode_at as inode_of};
ghost use Rattle.tree_parts.specs.Part.{Changed, IsPart, IsPartOf, Laid as LaidSlot, handle, number_of};
ghost use Rattle.tree_parts.specs.Part.{opened_at as entries_at, part_of, slot_at, slot_here, slot_in};
ghost use Rattle.tree_parts.specs.Asked.{HasChunkFor, IsChunkFor, IsReadFrom, IsRoot, Lacks};
ghost use Rattle.tree_parts.specs.Asked.{needs_slot as slot_is_needed};
ghost use Rattle.tree_parts.specs.Acts.{Acts, HasAt, HasBy, HasFor, LiesAt, LiesBy, LiesFor, OnSame, change_at};
ghost use Rattle.tree_parts.specs.Acts.{is_void_of, listed, stands_here};
ghost use Rattle.tree_parts.specs.Slots.{IsReadBack, changed_texts, has_digest, holds, laid_under, slot_after};
ghost use Rattle.tree_parts.specs.Slots.{slot_after_change, slot_changes, slot_digest};

use crate::blocks::{Blocks, holds_laid};
use crate::chunks::{chunk_of, root_of};
use crate::error::ApplyError;
use crate::laying::lay_directory;
use crate::opened::{Open, copies, find, take_out};
use crate::reading::{read_directory, read_inode};
use crate::spot::{is_root, is_table};
use directory::{Directory, Entry};
use itable::{ITable, Inode, Kind, Laid};
use layout::{Digest, INumber, Memory, Principal, User, digest, put_in};
use std::alloc::Allocator;
use std::marker::Model;
use update_cert::{Action, AnyAction, Change};

/// Whether a user changes what is this principal's: the user's own, or that of a group with this member.
fn is_permitted(user: User, is_member: bool, principal: Principal) -> bool
    ensures { result ≡ ((principal == user) || (nat_le 64 principal && is_member)) }
{
    principal.get() == user.get() || (principal.get() >= 64 && is_member)
}

/// Whether a user makes an i-number of this principal: of a group, those of a range of 64.
fn may_make(user: User, principal: Principal, i_number: INumber) -> bool
    ensures { result ≡ (nat_lt principal 64 || (i_number / 64 == user)) }
{
    principal.get() < 64 || i_number.get() / 64 == u16::from(user.get())
}

/// Whether it matters what stands at an i-number: not to a make where the user may make nothing, nor to a removal of the
/// root directory.
fn needs_slot<A: Allocator>(
    user: User,
    principal: Principal,
    i_number: INumber,
    action: &Action<A>,
) -> bool
    ensures { result ≡ slot_is_needed user principal i_number (action_of action.now) }
{
    match action {
        Action::Make(_) => may_make(user, principal, i_number),
        Action::Remove => !is_root(principal, i_number),
        Action::Put(_) | Action::Link(_) | Action::Unlink(_) => true,
    }
}

/// A principal's part of the tree: its i-table, as far as it is loaded, before changes and after, and the directories that
/// changed, which are opened: their texts aren't made while changes are applied. The same chunks are loaded in both.
#[derive(Drop)]
pub struct Part<A: Allocator> {
    before: ITable<A>,
    table: ITable<A>,
    opened: Vec<Open<A>, A>,
}

impl<A: Allocator> Model for Part<A> {
    ghost use Rattle.tree_parts.specs.Part.{Part, IsPart};

    ghost Value = { Part };

    ghost view = { λ p. record { before = p.before; table = p.table; opened = p.opened.items } };

    ghost invariant = { λ p. IsPart (record { before = p.before; table = p.table; opened = p.opened.items }) };
}

impl<A: Allocator> Part<A> {
    /// Whose part it is.
    pub fn principal(&self) -> Principal
        ensures same { result ≡ self.now.table.principal }
        ensures before { IsTable self.now.before }
        ensures table { IsTable self.now.table }
        ensures is_part { IsPart self.now }
    {
        // Both are as their type keeps them.
        let _principal = self.before.principal();
        self.table.principal()
    }

    /// The directory at an i-number, if it was opened.
    fn opened_at(&self, i_number: INumber) -> Option<&Directory<A>>
        ensures entries { option_copied result ≡ entries_at self.now i_number }
        ensures mapped { IsSome (entries_at self.now i_number) → IsSome (digest_at self.now.table i_number) }
    {
        match find(&self.opened, i_number) {
            Ok(place) => Some(self.opened[place].directory()),
            Err(_) => None,
        }
    }

    /// Sets the digest at an i-number where no directory is opened.
    fn set(&mut self, i_number: INumber, digest: Digest) -> Result<(), Memory>
        requires closed { entries_at self.old i_number ≡ None }
        requires loaded { loaded self.old.table i_number ≡ true }
        ensures opened { OnOk result (self.new.opened ≡ self.old.opened) }
        ensures same { OnOk result (OnSame self.old self.new) }
        ensures digests { OnOk result ((i : ℕ)
            → digest_at self.new.table i ≡ (if i_number == i then Some digest else digest_at self.old.table i)) }
    {
        self.table.set(i_number, digest)
    }

    /// Lets nothing stand at an i-number.
    fn take(&mut self, i_number: INumber)
        requires loaded { loaded self.old.table i_number ≡ true }
        ensures opened { (i : ℕ) → entries_at self.new i ≡ (if i_number == i then None else entries_at self.old i) }
        ensures same { OnSame self.old self.new }
        ensures digests { (i : ℕ) → digest_at self.new.table i ≡ (if i_number == i then None
            else digest_at self.old.table i) }
    {
        take_out(&mut self.opened, i_number);
        let _digest = self.table.remove(i_number);
    }

    /// What the i-node of this digest is of stands at an i-number from now on, if nothing stood there.
    fn make(&mut self, user: User, i_number: INumber, digest: Digest) -> Result<bool, Memory>
        requires loaded { loaded self.old.table i_number ≡ true }
        ensures acts { (reads : Reading) (actor : Actor) → actor.user ≡ user
            → IfOk result (λ fitted. Acts reads actor (change_at self.old i_number (Make digest)) self.old self.new
            fitted) }
        ensures same { OnOk result (OnSame self.old self.new) }
    {
        if self.table.get(i_number).is_some() || !may_make(user, self.principal(), i_number) {
            return Ok(false);
        }
        self.set(i_number, digest)?;
        Ok(true)
    }
}

impl<A: Allocator + Copy> Part<A> {
    /// The same part once more. The error is Memory.
    pub(crate) fn copy(&self, alloc: A) -> Result<Part<A>, Memory>
        ensures { IfOk result (λ copy. copy ≡ self.now) }
    {
        let before = self.before.copy(alloc)?;
        let table = self.table.copy(alloc)?;
        let opened = copies(alloc, &self.opened)?;
        Ok(Part {
            before,
            table,
            opened,
        })
    }

    /// The part that stands on a handle, before any change. None of its chunks is loaded. The errors are Missing of the
    /// root, and Memory.
    pub fn open<B: Blocks>(
        alloc: A,
        blocks: &B,
        principal: Principal,
        i_handle: Digest,
    ) -> Result<Part<A>, ApplyError>
        ensures principal { IfOk result (λ part. part.table.principal ≡ principal) }
        ensures handle { IfOk result (λ part. handle part ≡ i_handle) }
        // At each i-number it has what the handle's i-table has, whatever stands for the digests of which no block tells.
        ensures slots { ForEachReading (B.held blocks.now) (λ reads. IfOk result (λ part. (i : ℕ)
            → slot_at reads part i ≡ option_map LaidSlot (reads.inode principal i_handle i))) }
        ensures unchanged { IfOk result (λ part. part ≡ part_of part.before) }
        ensures read { IfOk result (IsReadFrom (B.held blocks.now)) }
        ensures missing { IfErr result (Lacks (B.held blocks.now) (IsRoot principal i_handle)) }
    {
        let root = root_of(alloc, blocks, principal, i_handle)?;
        let before = ITable::of_root(alloc, root);
        let table = before.copy(alloc)?;
        Ok(Part {
            before,
            table,
            opened: Vec::new(alloc),
        })
    }

    /// The i-node at an i-number where no directory is opened, if the table has one.
    fn inode<B: Blocks>(
        &self,
        alloc: A,
        blocks: &B,
        i_number: INumber,
    ) -> Result<Option<Inode<A>>, ApplyError>
        requires closed { entries_at self.now i_number ≡ None }
        requires loaded { loaded self.now.table i_number ≡ true }
        ensures found { IfOk result (λ found. option_map (λ n. Some n) found
            ≡ option_map (inode_of (B.held blocks.now)) (digest_at self.now.table i_number)) }
        ensures missing { IfErr result
            (Lacks (B.held blocks.now) (LiesAt (B.held blocks.now) self.now i_number false)) }
        ensures taken { OnOk result (HasAt (B.held blocks.now) self.now i_number false) }
    {
        let Some(digest) = self.table.get(i_number) else {
            return Ok(None);
        };
        let inode = read_inode(alloc, blocks, self.principal(), i_number, digest)?;
        Ok(Some(inode))
    }

    /// Whether a file stands at an i-number.
    fn is_file<B: Blocks>(
        &self,
        alloc: A,
        blocks: &B,
        i_number: INumber,
    ) -> Result<bool, ApplyError>
        requires loaded { loaded self.now.table i_number ≡ true }
        ensures file { ForEachReading (B.held blocks.now) (λ reads.
            IfOk result (λ is. is ≡ is_file (stands_here reads self.now i_number))) }
        // It isn't opened then.
        ensures closed { IfOk result (λ is. is ≡ true → entries_at self.now i_number ≡ None) }
        ensures missing { IfErr result
            (Lacks (B.held blocks.now) (LiesAt (B.held blocks.now) self.now i_number false)) }
        ensures taken { OnOk result (HasAt (B.held blocks.now) self.now i_number false) }
    {
        if self.opened_at(i_number).is_some() {
            return Ok(false);
        }
        let inode = self.inode(alloc, blocks, i_number)?;
        Ok(inode.is_some_and(|inode| inode.kind() == Kind::File))
    }

    /// Whether a file or an empty directory stands at an i-number. The size of its i-node tells whether a directory
    /// that isn't opened is empty.
    fn is_removable<B: Blocks>(
        &self,
        alloc: A,
        blocks: &B,
        i_number: INumber,
    ) -> Result<bool, ApplyError>
        requires loaded { loaded self.now.table i_number ≡ true }
        ensures removable { ForEachReading (B.held blocks.now) (λ reads.
            IfOk result (λ is. is ≡ is_removable (stands_here reads self.now i_number))) }
        ensures missing { IfErr result
            (Lacks (B.held blocks.now) (LiesAt (B.held blocks.now) self.now i_number false)) }
        ensures taken { OnOk result (HasAt (B.held blocks.now) self.now i_number false) }
    {
        if let Some(directory) = self.opened_at(i_number) {
            return Ok(directory.entries().is_empty());
        }
        let inode = self.inode(alloc, blocks, i_number)?;
        Ok(inode.is_some_and(|inode| inode.kind() == Kind::File || inode.size() == 6))
    }

    /// The directory at an i-number where none is opened, if one stands there.
    fn directory<B: Blocks>(
        &self,
        alloc: A,
        blocks: &B,
        i_number: INumber,
    ) -> Result<Option<Directory<A>>, ApplyError>
        requires closed { entries_at self.now i_number ≡ None }
        requires loaded { loaded self.now.table i_number ≡ true }
        ensures found { ForEachReading (B.held blocks.now) (λ reads.
            IfOk result (λ found. found ≡ listed (option_map reads.content (digest_at self.now.table i_number)))) }
        ensures mapped { IfOk result (λ found. IsSome found → IsSome (digest_at self.now.table i_number)) }
        ensures missing { IfErr result
            (Lacks (B.held blocks.now) (LiesAt (B.held blocks.now) self.now i_number true)) }
        ensures taken { OnOk result (HasAt (B.held blocks.now) self.now i_number true) }
    {
        let Some(digest) = self.table.get(i_number) else {
            return Ok(None);
        };
        let inode = read_inode(alloc, blocks, self.principal(), i_number, digest)?;
        match inode.kind() {
            Kind::File => Ok(None),
            Kind::Directory => {
                let directory = read_directory(alloc, blocks, digest, &inode)?;
                Ok(Some(directory))
            }
        }
    }

    /// What the i-node of this digest is of stands at an i-number from now on, if a file stood there.
    fn put<B: Blocks>(
        &mut self,
        alloc: A,
        blocks: &B,
        i_number: INumber,
        digest: Digest,
    ) -> Result<bool, ApplyError>
        requires loaded { loaded self.old.table i_number ≡ true }
        ensures acts { ForEachReading (B.held blocks.now) (λ reads.
            (actor : Actor) → IfOk result (λ fitted.
            Acts reads actor (change_at self.old i_number (Put digest)) self.old self.new fitted)) }
        ensures same { OnOk result (OnSame self.old self.new) }
        ensures missing { IfErr result
            (Lacks (B.held blocks.now) (LiesAt (B.held blocks.now) self.old i_number false)) }
        // The table of principals isn't looked at.
        ensures taken { is_table_of self.old.table.principal i_number ≡ false
            → OnOk result (HasAt (B.held blocks.now) self.old i_number false) }
    {
        let principal = self.principal();
        if is_table(principal, i_number) {
            return Ok(false);
        }
        if !self.is_file(alloc, blocks, i_number)? {
            return Ok(false);
        }
        self.set(i_number, digest)?;
        Ok(true)
    }

    /// Nothing stands at an i-number any more, if a file or an empty directory stood there.
    fn remove<B: Blocks>(
        &mut self,
        alloc: A,
        blocks: &B,
        i_number: INumber,
    ) -> Result<bool, ApplyError>
        requires loaded { loaded self.old.table i_number ≡ true }
        ensures acts { ForEachReading (B.held blocks.now) (λ reads.
            (actor : Actor) → IfOk result (λ fitted.
            Acts reads actor (change_at self.old i_number Remove) self.old self.new fitted)) }
        ensures same { OnOk result (OnSame self.old self.new) }
        // The root directory stays, whatever is held.
        ensures missing { IfErr result
            (Lacks (B.held blocks.now) (LiesAt (B.held blocks.now) self.old i_number false)) }
        ensures taken { is_table_of self.old.table.principal i_number ≡ false
            → is_root_of self.old.table.principal i_number ≡ false
            → OnOk result (HasAt (B.held blocks.now) self.old i_number false) }
        ensures root { is_root_of self.old.table.principal i_number ≡ true → IsOk result }
    {
        let principal = self.principal();
        if is_table(principal, i_number) || is_root(principal, i_number) {
            return Ok(false);
        }
        if !self.is_removable(alloc, blocks, i_number)? {
            return Ok(false);
        }
        self.take(i_number);
        Ok(true)
    }

    /// Opens a directory, at the place of its i-number.
    fn open_at(&mut self, place: usize, directory: Open<A>) -> Result<(), Memory>
        requires free { IsFree nat_cmp number_of self.old.opened directory.i_number place }
        requires mapped { IsSome (digest_at self.old.table directory.i_number) }
        ensures slots { OnOk result ((i : ℕ)
            → slot_here self.new i ≡ (if directory.i_number == i
            then Some (Changed (laid_under (slot_here self.old i)) directory.entries) else slot_here self.old i)) }
        ensures same { OnOk result (OnSame self.old self.new) }
    {
        self.opened.insert(place, directory)?;
        Ok(())
    }

    /// The directory at an i-number has this entry, too, if one stands there, the name is free and there is room. It is
    /// opened only then.
    fn link<B: Blocks>(
        &mut self,
        alloc: A,
        blocks: &B,
        i_number: INumber,
        entry: &Entry<A>,
    ) -> Result<bool, ApplyError>
        requires loaded { loaded self.old.table i_number ≡ true }
        ensures acts { ForEachReading (B.held blocks.now) (λ reads.
            (actor : Actor) → IfOk result (λ fitted.
            Acts reads actor (change_at self.old i_number (Link entry.now)) self.old self.new fitted)) }
        ensures same { OnOk result (OnSame self.old self.new) }
        ensures missing { IfErr result
            (Lacks (B.held blocks.now) (LiesAt (B.held blocks.now) self.old i_number true)) }
        ensures taken { OnOk result (HasAt (B.held blocks.now) self.old i_number true) }
    {
        let place = match find(&self.opened, i_number) {
            Ok(place) => {
                let fitted = self.opened[place].link(entry)?;
                return Ok(fitted);
            }
            Err(place) => place,
        };
        let Some(directory) = self.directory(alloc, blocks, i_number)? else {
            return Ok(false);
        };
        let mut open = Open::new(i_number, directory);
        if !open.link(entry)? {
            return Ok(false);
        }
        self.open_at(place, open)?;
        Ok(true)
    }

    /// The directory at an i-number has no entry of this name any more, if one stands there and had it. It is opened
    /// only then.
    fn unlink<B: Blocks>(
        &mut self,
        alloc: A,
        blocks: &B,
        i_number: INumber,
        name: &[u8],
    ) -> Result<bool, ApplyError>
        requires loaded { loaded self.old.table i_number ≡ true }
        ensures acts { ForEachReading (B.held blocks.now) (λ reads.
            (actor : Actor) → IfOk result (λ fitted.
            Acts reads actor (change_at self.old i_number (Unlink name.now)) self.old self.new fitted)) }
        ensures same { OnOk result (OnSame self.old self.new) }
        ensures missing { IfErr result
            (Lacks (B.held blocks.now) (LiesAt (B.held blocks.now) self.old i_number true)) }
        ensures taken { OnOk result (HasAt (B.held blocks.now) self.old i_number true) }
    {
        let place = match find(&self.opened, i_number) {
            Ok(place) => return Ok(self.opened[place].unlink(name)),
            Err(place) => place,
        };
        let Some(directory) = self.directory(alloc, blocks, i_number)? else {
            return Ok(false);
        };
        let mut open = Open::new(i_number, directory);
        if !open.unlink(name) {
            return Ok(false);
        }
        self.open_at(place, open)?;
        Ok(true)
    }

    /// Does this at an i-number, if it fits what stands there.
    fn act<B: Blocks>(
        &mut self,
        alloc: A,
        blocks: &B,
        user: User,
        i_number: INumber,
        action: &Action<A>,
    ) -> Result<bool, ApplyError>
        requires loaded { loaded self.old.table i_number ≡ true }
        ensures acts { ForEachReading (B.held blocks.now) (λ reads.
            (actor : Actor) → actor.user ≡ user
            → IfOk result (λ fitted. Acts reads actor (change_at self.old i_number (action_of action.now)) self.old
            self.new fitted)) }
        ensures same { OnOk result (OnSame self.old self.new) }
        ensures missing { IfErr result
            (Lacks (B.held blocks.now) (LiesFor (B.held blocks.now) self.old
            (change_at self.old i_number (action_of action.now)))) }
        ensures taken { is_table_of self.old.table.principal i_number ≡ false
            → OnOk result (HasFor (B.held blocks.now) self.old (change_at self.old i_number (action_of action.now))) }
    {
        match action {
            Action::Make(inode) => Ok(self.make(user, i_number, *inode)?),
            Action::Put(inode) => self.put(alloc, blocks, i_number, *inode),
            Action::Remove => self.remove(alloc, blocks, i_number),
            Action::Link(entry) => self.link(alloc, blocks, i_number, entry),
            Action::Unlink(name) => self.unlink(alloc, blocks, i_number, name.as_bytes()),
        }
    }

    /// Loads the chunk that an i-number is in, where it isn't loaded. After an error the part is as before.
    pub fn load<B: Blocks>(
        &mut self,
        alloc: A,
        blocks: &B,
        i_number: INumber,
    ) -> Result<(), ApplyError>
        requires read { IsReadFrom (B.held blocks.now) self.old }
        ensures loaded { OnOk result (loaded self.new.table i_number ≡ true) }
        // It takes no memory where nothing is to be loaded.
        ensures as_it_is { loaded self.old.table i_number ≡ true → IsOk result }
        // What the part has at each i-number stays, whatever stands for the digests of which no block tells.
        ensures slots { ForEachReading (B.held blocks.now) (λ reads.
            OnOk result ((i : ℕ) → slot_at reads self.new i ≡ slot_at reads self.old i)) }
        ensures principal { OnOk result (self.new.table.principal ≡ self.old.table.principal) }
        ensures handle { OnOk result (handle self.new ≡ handle self.old) }
        ensures read { OnOk result (IsReadFrom (B.held blocks.now) self.new) }
        ensures missing { IfErr result (Lacks (B.held blocks.now)
            (IsChunkFor (B.held blocks.now) self.old.table.principal (handle self.old) i_number)) }
        ensures taken { OnOk result
            (HasChunkFor (B.held blocks.now) self.old.table.principal (handle self.old) i_number) }
        ensures err { OnErr result (self.new ≡ self.old) }
    {
        let Some(listed) = self.table.unloaded(i_number) else {
            return Ok(());
        };
        let digest = listed.digest;
        let chunk = chunk_of(alloc, blocks, self.principal(), listed)?;
        let mut before = self.before.copy(alloc)?;
        before.load(&chunk, digest)?;
        self.table.load(&chunk, digest)?;
        put_in(&mut self.before, before);
        Ok(())
    }

    /// Does this at an i-number, where it is permitted and fits what stands there, and answers whether it had effect. The
    /// chunk of the i-number is loaded first, if what stands there matters.
    pub(crate) fn change<B: Blocks>(
        &mut self,
        alloc: A,
        blocks: &B,
        user: User,
        is_member: bool,
        i_number: INumber,
        action: &Action<A>,
    ) -> Result<bool, ApplyError>
        requires read { IsReadFrom (B.held blocks.now) self.old }
        ensures effect { ForEachReading (B.held blocks.now) (λ reads.
            (actor : Actor) → actor.user ≡ user → actor.member self.old.table.principal ≡ is_member
            → IfOk result (λ effect. effect
            ≡ slot_changes reads actor (change_at self.old i_number (action_of action.now))
            (slot_at reads self.old i_number))) }
        ensures slots { ForEachReading (B.held blocks.now) (λ reads.
            (actor : Actor) → actor.user ≡ user → actor.member self.old.table.principal ≡ is_member
            → OnOk result ((i : ℕ) → slot_at reads self.new i ≡ (if i_number == i
            then slot_after_change reads actor (change_at self.old i_number (action_of action.now))
            (slot_at reads self.old i) else slot_at reads self.old i))) }
        ensures principal { OnOk result (self.new.table.principal ≡ self.old.table.principal) }
        ensures handle { OnOk result (handle self.new ≡ handle self.old) }
        ensures read { OnOk result (IsReadFrom (B.held blocks.now) self.new) }
        ensures missing { (actor : Actor) → actor.user ≡ user → actor.member self.old.table.principal ≡ is_member
            → IfErr result (Lacks (B.held blocks.now) (LiesBy (B.held blocks.now) actor self.old
            (change_at self.old i_number (action_of action.now)))) }
        ensures taken { (actor : Actor) → actor.user ≡ user → actor.member self.old.table.principal ≡ is_member
            → OnOk result (HasBy (B.held blocks.now) actor self.old
            (change_at self.old i_number (action_of action.now))) }
    {
        if !is_permitted(user, is_member, self.principal()) {
            return Ok(false);
        }
        if is_table(self.principal(), i_number) {
            return Ok(false);
        }
        if !needs_slot(user, self.principal(), i_number, action) {
            return Ok(false);
        }
        self.load(alloc, blocks, i_number)?;
        self.act(alloc, blocks, user, i_number, action)
    }

    /// Applies a change, if it is done in this part, and answers whether it is such a one and has no effect.
    pub(crate) fn apply_change<B: Blocks>(
        &mut self,
        alloc: A,
        blocks: &B,
        user: User,
        is_member: bool,
        change: &Change<A>,
    ) -> Result<bool, ApplyError>
        requires read { IsReadFrom (B.held blocks.now) self.old }
        ensures part { ForEachReading (B.held blocks.now) (λ reads.
            (tree : Tree) (actor : Actor) → IsPartOf reads self.old tree → actor.user ≡ user
            → actor.member self.old.table.principal ≡ is_member
            → OnOk result (IsPartOf reads self.new (after_change actor (read_change reads change.now) tree))) }
        ensures slots { ForEachReading (B.held blocks.now) (λ reads.
            (actor : Actor) → actor.user ≡ user → actor.member self.old.table.principal ≡ is_member
            → OnOk result ((i : ℕ) → slot_at reads self.new i
            ≡ slot_after reads actor self.old.table.principal i (change.now ∷ []) (slot_at reads self.old i))) }
        ensures void { ForEachReading (B.held blocks.now) (λ reads.
            (tree : Tree) (actor : Actor) → IsPartOf reads self.old tree → actor.user ≡ user
            → actor.member self.old.table.principal ≡ is_member
            → IfOk result (λ is_void. is_void ≡ is_void_of actor self.old.table.principal change.now tree)) }
        ensures principal { OnOk result (self.new.table.principal ≡ self.old.table.principal) }
        ensures handle { OnOk result (handle self.new ≡ handle self.old) }
        ensures read { OnOk result (IsReadFrom (B.held blocks.now) self.new) }
        ensures missing { (actor : Actor) → actor.user ≡ user → actor.member self.old.table.principal ≡ is_member
            → IfErr result (λ e. (change.now.principal ≡ self.old.table.principal)
            × Lacks (B.held blocks.now) (LiesBy (B.held blocks.now) actor self.old change.now) e) }
        ensures taken { (actor : Actor) → actor.user ≡ user → actor.member self.old.table.principal ≡ is_member
            → OnOk result (change.now.principal ≡ self.old.table.principal
            → HasBy (B.held blocks.now) actor self.old change.now) }
    {
        if change.principal().get() != self.principal().get() {
            return Ok(false);
        }
        match change.action() {
            AnyAction::At(action) => {
                let i_number = change.i_number();
                let effect = self.change(alloc, blocks, user, is_member, i_number, action)?;
                Ok(!effect)
            }
            AnyAction::OfTable(_) => Ok(false),
        }
    }
}

/// What a part has at an i-number.
#[derive(Drop)]
pub enum Slot<A: Allocator> {
    /// What the i-node of this digest is of.
    Laid(Digest),
    /// A directory that changed: the digest under which it was laid, and the directory now.
    Changed(Digest, Directory<A>),
}

impl<A: Allocator> Part<A> {
    /// Whether it has anything at an i-number whose chunk is loaded. It takes no memory.
    pub fn stands(&self, i_number: INumber) -> bool
        requires loaded { loaded self.now.table i_number ≡ true }
        ensures { result ≡ is_some (slot_here self.now i_number) }
    {
        self.table.get(i_number).is_some()
    }

    /// What it has at an i-number whose chunk is loaded, if anything stands there. The part is gone then. It takes no
    /// memory.
    pub fn into_slot(self, i_number: INumber) -> Option<Slot<A>>
        requires loaded { loaded self.table i_number ≡ true }
        ensures { option_map slot_in result ≡ slot_here self i_number }
    {
        let digest = self.table.get(i_number)?;
        let mut opened = self.opened;
        match find(&opened, i_number) {
            Ok(place) => {
                let open = opened.remove(place);
                Some(Slot::Changed(digest, open.into_directory()))
            }
            Err(_) => Some(Slot::Laid(digest)),
        }
    }
}

/// A part as it is stored: its i-table, and the texts of the directories that are new.
#[derive(Drop)]
pub struct LaidPart<A: Allocator> {
    /// The i-table before the operation.
    pub before: ITable<A>,
    /// The i-table after it, with a digest for each directory that changed. The same chunks are loaded in both.
    pub table: ITable<A>,
    /// Of each directory that isn't as it was stored the blocks, in order, and the i-node; ascending by i-number.
    pub texts: Vec<Vec<u8, A>, A>,
}

/// Whether an i-table has this digest at an i-number.
pub fn has_digest<A: Allocator>(table: &ITable<A>, i_number: INumber, digest: Digest) -> bool
    requires loaded { loaded table.now i_number ≡ true }
    ensures { result ≡ has_digest table.now i_number digest }
{
    match table.get(i_number) {
        Some(stored) => stored == digest,
        None => false,
    }
}

/// Whether one of two i-tables has the digest of what was laid at an i-number, and each of its texts is held.
fn is_stored<A: Allocator, B: Blocks>(
    blocks: &B,
    before: &ITable<A>,
    table: &ITable<A>,
    i_number: INumber,
    laid: &Laid<A>,
) -> bool
    requires before { loaded before.now i_number ≡ true }
    requires table { loaded table.now i_number ≡ true }
    ensures { result ≡ ((has_digest before.now i_number (hash laid.now.inode.items)
        || has_digest table.now i_number (hash laid.now.inode.items))
        && list_all (holds (B.held blocks.now)) (map vec_items laid.now.blocks.items ++ laid.now.inode.items ∷ [])) }
{
    let digest = digest(&laid.inode);
    (has_digest(before, i_number, digest) || has_digest(table, i_number, digest))
        && holds_laid(blocks, laid)
}

/// Makes the texts of directories that changed and are open over this i-table, and sets their digests in it. Those of a
/// directory that is as it was before the operation are left out, where they are held. After an error some digests may be
/// set.
fn lay_opened<A: Allocator + Copy, B: Blocks>(
    alloc: A,
    blocks: &B,
    before: &ITable<A>,
    table: &mut ITable<A>,
    opened: &[Open<A>],
) -> Result<Vec<Vec<u8, A>, A>, Memory>
    // Each directory that is open has a digest, so its chunk is loaded.
    requires is_part { IsPart (record { before = before.now; table = table.old; opened = opened.now }) }
    requires is_table { IsTable table.old }
    ensures principal { OnOk result (table.new.principal ≡ table.old.principal) }
    ensures unloaded { OnOk result (table.new.unloaded ≡ table.old.unloaded) }
    ensures digests { OnOk result ((i : ℕ) → digest_at table.new i ≡ option_map slot_digest
        (slot_here (record { before = before.now; table = table.old; opened = opened.now }) i)) }
    ensures texts { IfOk result (λ texts. map vec_items texts.items
        ≡ changed_texts (B.held blocks.now) before.now table.old opened.now) }
    ensures read_back { OnOk result ((i : ℕ) (digest : List ℕ) (entries : List ListedEntry)
        → slot_here (record { before = before.now; table = table.old; opened = opened.now }) i
        ≡ Some (Changed digest entries) → IsReadBack entries) }
{
    let mut texts = Vec::new(alloc);
    for open in opened {
        let mut laid = lay_directory(alloc, open.directory())?;
        let i_number = open.i_number();
        let stored = is_stored(blocks, before, table, i_number, &laid);
        table.set(i_number, digest(&laid.inode))?;
        if !stored {
            texts.append(&mut laid.blocks)?;
            texts.push(laid.inode)?;
        }
    }
    Ok(texts)
}

impl<A: Allocator + Copy> Part<A> {
    /// Makes the texts of the directories that changed, and sets their digests. Those of a directory that is as it was
    /// before the operation are left out, where each of them is held. Where memory is wanting the part is gone.
    pub fn lay<B: Blocks>(self, alloc: A, blocks: &B) -> Result<LaidPart<A>, Memory>
        ensures principal { IfOk result (λ laid. laid.table.principal ≡ self.table.principal) }
        ensures before { IfOk result (λ laid. laid.before ≡ self.before) }
        ensures before_is_table { IsTable self.before }
        ensures unloaded { IfOk result (λ laid. laid.table.unloaded ≡ self.table.unloaded) }
        ensures digests { IfOk result (λ laid. (i : ℕ)
            → digest_at laid.table i ≡ option_map slot_digest (slot_here self i)) }
        ensures texts { IfOk result (λ laid. map vec_items laid.texts.items
            ≡ changed_texts (B.held blocks.now) self.before self.table self.opened) }
        // Whoever holds the texts of a directory that changed reads it from them.
        ensures read_back { OnOk result
            ((i : ℕ) (digest : List ℕ) (entries : List ListedEntry) → slot_here self i ≡ Some (Changed digest entries)
            → IsReadBack entries) }
        // The same chunks are loaded before and after, and directories that changed ascend by i-number, each with a
        // digest.
        ensures is_part { IsPart self }
    {
        // Both i-tables are as their type keeps them.
        let _principal = self.principal();
        let before = self.before;
        let mut table = self.table;
        let opened = self.opened;
        let texts = lay_opened(alloc, blocks, &before, &mut table, &opened)?;
        Ok(LaidPart {
            before,
            table,
            texts,
        })
    }
}
