//! What the own operation makes of the tree of a view.

ghost use Rattle.std.specs.Prelude.{◌≡◌, ◌⊎◌, ◌==◌, ◌&&◌, ◌++◌, ◌∷◌, [], ℕ, Some, false, true, IfOk, IfErr, OnOk, map};
ghost use Rattle.std.specs.Prelude.{if◌then◌else◌};
ghost use Rattle.std.specs.List.{list_all};
ghost use Rattle.std.specs.Vec.{vec_items};
ghost use Rattle.layout.specs.Hash.{hash};
ghost use Rattle.itable.specs.File.{blocks_of, inode_of};
ghost use Rattle.itable.specs.Inode.{inode};
ghost use Rattle.itable.specs.ITable.{IsTable, digest_at, handle_of as table_handle, loaded, new_texts};
ghost use Rattle.principals.specs.Table.{Table as Principals};
ghost use Rattle.principals.specs.TableText.{table as table_format};
ghost use Rattle.update_cert.specs.World.{is_table};
ghost use Rattle.update_cert.specs.Reading.{Reading, void_of_read};
ghost use Rattle.tree_parts.specs.Blocks.{Agrees, ForEachReading};
ghost use Rattle.tree_parts.specs.Asked.{Lacks};
ghost use Rattle.tree_parts.specs.Slots.{has_digest as has_digest_at, holds};
ghost use Rattle.client_tree.specs.View.{View as ViewModel, actor_of, shown, tree_before, written};
ghost use Rattle.client_tree.specs.Opened.{HasLooked, IsLooked, IsNeeded, IsOpened};
ghost use Rattle.client_tree.specs.Tree.{IsLost, IsOutcome, IsStored, IsUntouched, IsWanted, principals_digest};
ghost use Rattle.client_tree.specs.Tree.{principals_texts};
ghost use Rattle.client_tree.specs.Seen.{content_seen};

use crate::contents::{Seen, read_content};
use crate::lost::{PartVoids, lost_among};
use crate::view::View;
use itable::{ITable, Laid, LayError, lay_file};
use layout::{Digest, INumber, Memory, Principal, Text, digest};
use pending_list::raised_groups;
use principals::Table;
use std::alloc::Allocator;
use std::marker::Model;
use tree_parts::{
    Applied, ApplyError, Blocks, LaidPart, Scope, Slot, has_digest, holds_laid, is_table,
};
use update_cert::Voids;

/// A principal's part, as it is stored.
#[derive(Drop)]
pub struct Stored<A: Allocator> {
    /// Whose part it is.
    pub principal: Principal,
    /// The handle of its i-table.
    pub handle: Digest,
    /// The texts that are new: of each directory that changed its blocks and its i-node; in user 0's part those of the
    /// table of principals, where it changed; the chunks of the i-table that changed; and its root.
    pub texts: Vec<Vec<u8, A>, A>,
}

impl<A: Allocator> Model for Stored<A> {
    ghost use Rattle.std.specs.Prelude.{map};
    ghost use Rattle.std.specs.Vec.{vec_items};
    ghost use Rattle.client_tree.specs.Tree.{Stored};

    ghost Value = { Stored };

    ghost view = { λ s. record { principal = s.principal; handle = s.handle; texts = map vec_items s.texts.items } };
}

/// What the own operation makes of the tree.
#[derive(Drop)]
pub struct Outcome<A: Allocator> {
    /// The parts that it may change: that of its user first, and then that of each group that it raises, ascending.
    pub parts: Vec<Stored<A>, A>,
    /// The numbers, from 1 and ascending, of the changes that have no effect.
    pub lost: Vec<u8, A>,
}

/// The file of the text of a table of principals, laid in blocks.
fn lay_principals<A: Allocator + Copy>(alloc: A, users: &Table<A>) -> Result<Laid<A>, Memory>
    ensures inode { IfOk result (λ laid. laid.inode.items ≡ inode.spell (inode_of (table_format.spell users.now))) }
    ensures blocks { IfOk result (λ laid. map vec_items laid.blocks.items ≡ blocks_of (table_format.spell users.now)) }
{
    users.type_invariant();
    let text = users.text(alloc)?;
    match lay_file(alloc, &text) {
        Ok(laid) => Ok(laid),
        Err(LayError::TooLarge) => unreachable!(),
        Err(LayError::Memory) => Err(Memory),
    }
}

/// An i-table's handle, and the texts by which it is stored where an earlier one was.
#[derive(Drop)]
struct StoredTable<A: Allocator> {
    handle: Digest,
    texts: Vec<Vec<u8, A>, A>,
}

/// The i-table as it is stored, where this one was stored before.
fn store_table<A: Allocator + Copy>(
    alloc: A,
    before: ITable<A>,
    table: ITable<A>,
) -> Result<StoredTable<A>, Memory>
    ensures handle { IfOk result (λ s. s.handle ≡ table_handle table) }
    ensures texts { IfOk result (λ s. map vec_items s.texts.items ≡ new_texts before table) }
    ensures is_table { OnOk result (IsTable table) }
{
    let mut before = before;
    let mut table = table;
    // It is as its type keeps it.
    let _principal = table.principal();
    let texts = table.new_texts(alloc, &mut before)?;
    let handle = table.handle(alloc)?;
    Ok(StoredTable { handle, texts })
}

/// A part that was laid, as it is stored: the texts of its directories come first.
fn store_laid<A: Allocator + Copy>(alloc: A, laid: LaidPart<A>) -> Result<StoredTable<A>, Memory>
    ensures handle { IfOk result (λ s. s.handle ≡ table_handle laid.table) }
    ensures texts { IfOk result (λ s. map vec_items s.texts.items
        ≡ map vec_items laid.texts.items ++ new_texts laid.before laid.table) }
    ensures is_table { OnOk result (IsTable laid.table) }
{
    let LaidPart {
        before,
        table,
        mut texts,
    } = laid;
    let stored = store_table(alloc, before, table)?;
    let mut of_table = stored.texts;
    texts.append(&mut of_table)?;
    Ok(StoredTable {
        handle: stored.handle,
        texts,
    })
}

/// A part that the own operation may change, as it is stored, and its changes that have no effect.
#[derive(Drop)]
struct Written<A: Allocator> {
    stored: Stored<A>,
    voids: PartVoids<A>,
}

/// Whether an i-table has this file at the place of the table of principals, and each of its texts is held.
fn has_file<A: Allocator, B: Blocks>(blocks: &B, table: &ITable<A>, file: &Laid<A>) -> bool
    requires loaded { loaded table.now 1 ≡ true }
    ensures { result ≡ (has_digest_at table.now 1 (hash file.now.inode.items)
        && list_all (holds (B.held blocks.now)) (map vec_items file.now.blocks.items ++ file.now.inode.items ∷ [])) }
{
    has_digest(table, INumber::table(), digest(&file.inode)) && holds_laid(blocks, file)
}

/// A part that was laid, and at its place the file of the table of principals: the texts of the file come last, and only
/// where it is another one than before.
fn with_principals<A: Allocator + Copy, B: Blocks>(
    alloc: A,
    blocks: &B,
    laid: LaidPart<A>,
    users: &Table<A>,
) -> Result<LaidPart<A>, Memory>
    requires before { loaded laid.before 1 ≡ true }
    requires table { loaded laid.table 1 ≡ true }
    ensures digests { IfOk result (λ new. (i : ℕ)
        → digest_at new.table i ≡ (if 1 == i then Some (principals_digest users.now) else digest_at laid.table i)) }
    ensures texts { IfOk result (λ new. map vec_items new.texts.items
        ≡ map vec_items laid.texts.items ++ principals_texts (B.held blocks.now) laid.before 0 users.now) }
    ensures principal { IfOk result (λ new. new.table.principal ≡ laid.table.principal) }
    ensures unloaded { IfOk result (λ new. new.table.unloaded ≡ laid.table.unloaded) }
    ensures before { IfOk result (λ new. new.before ≡ laid.before) }
{
    let LaidPart {
        before,
        mut table,
        mut texts,
    } = laid;
    let mut file = lay_principals(alloc, users)?;
    let stored = has_file(blocks, &before, &file);
    table.set(INumber::table(), digest(&file.inode))?;
    if !stored {
        texts.append(&mut file.blocks)?;
        texts.push(file.inode)?;
    }
    Ok(LaidPart {
        before,
        table,
        texts,
    })
}

/// A part that was laid, with the table of principals where it is user 0's.
fn with_table<A: Allocator + Copy, B: Blocks>(
    alloc: A,
    blocks: &B,
    principal: Principal,
    laid: LaidPart<A>,
    users: &Table<A>,
) -> Result<LaidPart<A>, Memory>
    requires before { principal ≡ 0 → loaded laid.before 1 ≡ true }
    requires table { principal ≡ 0 → loaded laid.table 1 ≡ true }
    ensures digests { IfOk result (λ new. (i : ℕ) → is_table principal i ≡ false
        → digest_at new.table i ≡ digest_at laid.table i) }
    ensures users { IfOk result (λ new. principal ≡ 0 → digest_at new.table 1 ≡ Some (principals_digest users.now)) }
    ensures texts { IfOk result (λ new. map vec_items new.texts.items
        ≡ map vec_items laid.texts.items ++ principals_texts (B.held blocks.now) laid.before principal users.now) }
    ensures principal { IfOk result (λ new. new.table.principal ≡ laid.table.principal) }
    ensures unloaded { IfOk result (λ new. new.table.unloaded ≡ laid.table.unloaded) }
    ensures before { IfOk result (λ new. new.before ≡ laid.before) }
{
    if principal.get() == 0 {
        with_principals(alloc, blocks, laid, users)
    } else {
        Ok(laid)
    }
}

/// A part that was opened, as it is stored.
fn store_part<A: Allocator + Copy, B: Blocks>(
    alloc: A,
    blocks: &B,
    principal: Principal,
    opened: Applied<A>,
    users: &Table<A>,
) -> Result<Written<A>, Memory>
    requires loaded { principal ≡ 0 → loaded opened.part.table 1 ≡ true }
    ensures stored { (x : ViewModel) → x.table ≡ users.now → IsOpened (B.held blocks.now) x principal opened.part
        → IfOk result (λ w. IsStored (B.held blocks.now) x w.stored) }
    ensures principal { IfOk result (λ w. w.stored.principal ≡ principal) }
    ensures voids { IfOk result (λ w. w.voids ≡ record { principal = principal; numbers = opened.voids }) }
{
    let Applied { part, voids } = opened;
    let laid = part.lay(alloc, blocks)?;
    let laid = with_table(alloc, blocks, principal, laid, users)?;
    let StoredTable { handle, texts } = store_laid(alloc, laid)?;
    Ok(Written {
        stored: Stored {
            principal,
            handle,
            texts,
        },
        voids: PartVoids::new(principal, voids),
    })
}

/// A part that stays on this handle: nothing of it is new, and none of its changes lacks effect.
fn kept_part<A: Allocator + Copy>(alloc: A, principal: Principal, handle: Digest) -> Written<A>
    ensures stored { result.stored ≡ record { principal = principal; handle = handle; texts = [] } }
    ensures voids { result.voids ≡ record { principal = principal; numbers = [] } }
{
    Written {
        stored: Stored {
            principal,
            handle,
            texts: Vec::new(alloc),
        },
        voids: PartVoids::new(principal, Voids::of(Vec::new(alloc))),
    }
}

impl<'a, A: Allocator + Copy> View<'a, A> {
    /// The principals whose parts the own operation may change.
    fn written(&self, alloc: A) -> Result<Vec<Principal, A>, Memory>
        ensures { IfOk result (λ principals. principals.items ≡ written self.now) }
    {
        let own = self.own();
        let mut principals = Vec::new(alloc);
        principals.push(Principal::from(own.cert().user()))?;
        for group in &raised_groups(alloc, self.table(), own)? {
            principals.push(Principal::from(*group))?;
        }
        Ok(principals)
    }

    /// A principal's part after the own operation, as it is stored.
    fn write<B: Blocks>(
        &self,
        alloc: A,
        blocks: &B,
        principal: Principal,
    ) -> Result<Written<A>, ApplyError>
        ensures stored { IfOk result (λ w. IsStored (B.held blocks.now) self.now w.stored
            ⊎ IsUntouched self.now w.stored) }
        ensures principal { IfOk result (λ w. w.stored.principal ≡ principal) }
        ensures changed { IfOk result (λ w. w.voids.principal ≡ principal) }
        ensures voids { ForEachReading (B.held blocks.now) (λ reads.
            (users : Principals) → IfOk result (λ w. w.voids ≡ record {
              principal = principal;
              numbers = void_of_read reads (actor_of self.now.table self.now.own) principal self.now.own.cert.changes
                  (tree_before reads users self.now);
            })) }
        ensures missing { IfErr result (Lacks (B.held blocks.now) (IsNeeded (B.held blocks.now) self.now principal)) }
    {
        if !self.is_touched(&Scope::All, principal) {
            let handle = self.handle_of(alloc, principal)?;
            return Ok(kept_part(alloc, principal, handle));
        }
        let opened = self.open_to_store(alloc, blocks, principal)?;
        let written = store_part(alloc, blocks, principal, opened, self.table())?;
        Ok(written)
    }

    /// What the own operation makes of the tree, where these of its changes have no effect on the table of principals.
    /// The errors are Missing of a block, and Memory.
    pub fn outcome<B: Blocks>(
        &self,
        alloc: A,
        blocks: &B,
        voids: &Voids<A>,
    ) -> Result<Outcome<A>, ApplyError>
        ensures outcome { IfOk result (λ o. IsOutcome (B.held blocks.now) self.now o.parts.items) }
        ensures lost { IfOk result (λ o. IsLost (B.held blocks.now) self.now voids.now o.lost.items) }
        // Missing names a digest that a spot asks for, and of which no text is held that the spot takes.
        ensures missing { IfErr result (Lacks (B.held blocks.now) (IsWanted (B.held blocks.now) self.now)) }
    {
        let mut parts = Vec::new(alloc);
        let mut of_parts = Vec::new(alloc);
        for principal in &self.written(alloc)? {
            let written = self.write(alloc, blocks, *principal)?;
            parts.push(written.stored)?;
            of_parts.push(written.voids)?;
        }
        let changes = self.own().cert().changes();
        let lost = lost_among(alloc, changes, &of_parts, voids.numbers())?;
        Ok(Outcome { parts, lost })
    }

    /// What stands at an i-number of a principal. The errors are Missing of a block, and Memory.
    pub fn look<B: Blocks>(
        &self,
        alloc: A,
        blocks: &B,
        principal: Principal,
        i_number: INumber,
    ) -> Result<Seen<A>, ApplyError>
        // Whatever stands for the digests of which no block tells.
        ensures seen { (reads : Reading) (users : Principals) → Agrees (B.held blocks.now) reads
            → IfOk result (λ s. content_seen s ≡ shown reads users self.now principal i_number) }
        // Each block of what stands there is what its place takes; the table of principals was read before.
        ensures taken { is_table principal i_number ≡ false
            → OnOk result (HasLooked (B.held blocks.now) self.now principal i_number) }
        ensures missing { IfErr result
            (Lacks (B.held blocks.now) (IsLooked (B.held blocks.now) self.now principal i_number)) }
    {
        if is_table(principal, i_number) {
            let text = self.table().text(alloc)?;
            return Ok(Seen::File(text));
        }
        let opened = self.open_at(alloc, blocks, principal, i_number)?;
        let Some(slot) = opened.into_slot(i_number) else {
            return Ok(Seen::Nothing);
        };
        match slot {
            Slot::Laid(digest) => read_content(alloc, blocks, principal, i_number, digest),
            Slot::Changed(_laid, directory) => Ok(Seen::Directory(directory)),
        }
    }
}
