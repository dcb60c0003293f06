//! What is asked of a view, and what it tells.

ghost use Rattle.std.specs.Prelude.{◌≡◌, [], false, true, IfOk, IfErr, IsOk, length};
ghost use Rattle.directory.specs.Directory.{directory as directory_format};
ghost use Rattle.principals.specs.TableText.{table as table_format};
ghost use Rattle.tree_parts.specs.Slots.{directory_inode};
ghost use Rattle.principals.specs.Table.{Table as Principals};
ghost use Rattle.update_cert.specs.World.{is_table};
ghost use Rattle.tree_parts.specs.Blocks.{ForEachReading};
ghost use Rattle.tree_parts.specs.Asked.{IsReadFrom, Lacks};
ghost use Rattle.tree_parts.specs.declared.scope.Scope.{Scope as ScopeModel};
ghost use Rattle.client_tree.specs.View.{handle_of, shown};
ghost use Rattle.client_tree.specs.Opened.{IsPartAfter};
ghost use Rattle.client_tree.specs.declared.contents.SeenKind.TheVariants as kinds;
ghost use Rattle.client_tree.specs.Questions.{HasKind, HasSearched, IsAnsweredBy, IsAskedBy, IsAskedForFree};
ghost use Rattle.client_tree.specs.Questions.{IsAskedForKind, IsKindOf, IsLeastFree, kind_in};

use crate::contents::{Seen, SeenKind};
use crate::view::View;
use directory::Directory;
use layout::{INumber, Memory, Principal, Text};
use principals::Table;
use std::alloc::Allocator;
use tree_parts::{ApplyError, Blocks, Part, Slot, is_table, read_inode};

/// What is asked of a view.
#[derive(Clone, Copy, Debug)]
pub enum Question {
    /// What stands at an i-number of a principal.
    At(Principal, INumber),
    /// Of what kind and size that is.
    Kind(Principal, INumber),
    /// Which is the least i-number of a principal, from the first to the last, at which nothing stands.
    Free(Principal, INumber, INumber),
}

/// What a view tells.
#[derive(Drop)]
pub enum Answer<A: Allocator> {
    /// This stands there.
    Sees(Seen<A>),
    /// It is of this kind and size.
    Kind(SeenKind),
    /// Nothing stands at this i-number, or at none of them.
    Free(Option<INumber>),
}

/// The kind and size of the table of principals, which is a file.
fn kind_of_table<A: Allocator + Copy>(alloc: A, table: &Table<A>) -> Result<SeenKind, Memory>
    ensures { IfOk result (λ kind. kind ≡ kinds.File (length (table_format.spell table.now))) }
{
    table.type_invariant();
    let text = table.text(alloc)?;
    Ok(SeenKind::File(text.len() as u32))
}

/// Those of a directory that changed.
fn kind_of_directory<A: Allocator + Copy>(
    alloc: A,
    directory: &Directory<A>,
) -> Result<SeenKind, Memory>
    ensures kind { IfOk result (λ kind. kind ≡ kind_in (directory_inode directory.now)) }
    ensures fits { directory_format.Fits directory.now }
{
    // Its text isn't longer than that of the largest directory.
    let _entries = directory.entries();
    let text = directory.text(alloc)?;
    Ok(SeenKind::Directory(text.len() as u32))
}

impl<'a, A: Allocator + Copy> View<'a, A> {
    /// Of what kind and size is what stands at an i-number of a principal. No block of a file is read for it, and of a
    /// directory only where a pending link or unlink there asks for it. The errors are Missing of a block, and Memory.
    pub fn kind<B: Blocks>(
        &self,
        alloc: A,
        blocks: &B,
        principal: Principal,
        i_number: INumber,
    ) -> Result<SeenKind, ApplyError>
        // Whatever stands for the digests of which no block tells.
        ensures kind { ForEachReading (B.held blocks.now) (λ reads. (users : Principals)
            → IfOk result (λ kind. IsKindOf kind (shown reads users self.now principal i_number))) }
        // The i-node that stands there is what its place takes; the table of principals was read before.
        ensures taken { is_table principal i_number ≡ false
            → IfOk result (HasKind (B.held blocks.now) self.now principal i_number) }
        ensures missing { IfErr result
            (Lacks (B.held blocks.now) (IsAskedForKind (B.held blocks.now) self.now principal i_number)) }
    {
        if is_table(principal, i_number) {
            return Ok(kind_of_table(alloc, self.table())?);
        }
        let opened = self.open_at(alloc, blocks, principal, i_number)?;
        let Some(slot) = opened.into_slot(i_number) else {
            return Ok(SeenKind::Nothing);
        };
        match slot {
            Slot::Laid(digest) => {
                let inode = read_inode(alloc, blocks, principal, i_number, digest)?;
                Ok(SeenKind::of(&inode))
            }
            Slot::Changed(_laid, directory) => Ok(kind_of_directory(alloc, &directory)?),
        }
    }

    /// The least i-number of a range at which nothing stands, if there is one, of a principal whose part before any
    /// operation is this one.
    fn search<B: Blocks>(
        &self,
        alloc: A,
        blocks: &B,
        principal: Principal,
        part: Part<A>,
        first: INumber,
        last: INumber,
    ) -> Result<Option<INumber>, ApplyError>
        requires part { (scope : ScopeModel) → IsPartAfter (B.held blocks.now) scope self.now.table [] principal
            (handle_of self.now principal) part }
        requires read { IsReadFrom (B.held blocks.now) part }
        requires place { is_table principal last ≡ false }
        ensures free { ForEachReading (B.held blocks.now) (λ reads. (users : Principals)
            → IfOk result (IsLeastFree (shown reads users self.now principal) first last)) }
        ensures taken { IfOk result (HasSearched (B.held blocks.now) self.now principal first last) }
        ensures missing { IfErr result
            (Lacks (B.held blocks.now) (IsAskedForFree (B.held blocks.now) self.now principal first last)) }
    {
        let mut part = part;
        let past = last.get() + 1;
        for number in first.get()..past {
            let Some(i_number) = INumber::new(number) else {
                unreachable!()
            };
            let is_mapped = self.is_mapped(alloc, blocks, &mut part, principal, i_number)?;
            if !is_mapped {
                return Ok(Some(i_number));
            }
        }
        Ok(None)
    }

    /// The least i-number of a principal, from the first to the last, at which nothing stands, if there is one. No i-node
    /// is read for it, beyond those of which changes there ask. The errors are Missing of a block, and Memory.
    pub fn free<B: Blocks>(
        &self,
        alloc: A,
        blocks: &B,
        principal: Principal,
        first: INumber,
        last: INumber,
    ) -> Result<Option<INumber>, ApplyError>
        // Whatever stands for the digests of which no block tells.
        ensures free { ForEachReading (B.held blocks.now) (λ reads. (users : Principals)
            → IfOk result (IsLeastFree (shown reads users self.now principal) first last)) }
        // Nothing is missing by which the part is opened at the i-numbers of the range, up to the one that was found.
        ensures taken { is_table principal last ≡ false
            → IfOk result (HasSearched (B.held blocks.now) self.now principal first last) }
        ensures missing { IfErr result
            (Lacks (B.held blocks.now) (IsAskedForFree (B.held blocks.now) self.now principal first last)) }
        // Where the place alone decides, it takes no memory.
        ensures place { is_table principal last ≡ true → IsOk result }
    {
        // The table of principals stands at the least i-number, so that a range which ends there is that place alone.
        if is_table(principal, last) {
            let _positive = first.get();
            return Ok(None);
        }
        let part = self.first_part(alloc, blocks, principal)?;
        self.search(alloc, blocks, principal, part, first, last)
    }

    /// The answer to a question. The errors are Missing of a block, and Memory.
    pub fn answer<B: Blocks>(
        &self,
        alloc: A,
        blocks: &B,
        question: Question,
    ) -> Result<Answer<A>, ApplyError>
        ensures answered { IfOk result (IsAnsweredBy (B.held blocks.now) self.now question) }
        ensures missing { IfErr result (Lacks (B.held blocks.now) (IsAskedBy (B.held blocks.now) self.now question)) }
    {
        match question {
            Question::At(principal, i_number) => {
                let seen = self.look(alloc, blocks, principal, i_number)?;
                Ok(Answer::Sees(seen))
            }
            Question::Kind(principal, i_number) => {
                let kind = self.kind(alloc, blocks, principal, i_number)?;
                Ok(Answer::Kind(kind))
            }
            Question::Free(principal, first, last) => {
                let found = self.free(alloc, blocks, principal, first, last)?;
                Ok(Answer::Free(found))
            }
        }
    }
}
