//! The text of the reply to an operation, from the texts that are kept.

ghost use Rattle.std.specs.Prelude.{◌≡◌, ◌<◌, ◌≤◌, ◌++◌, [], ◌∷◌, None, OnOk, IfOk, map, length};
ghost use Rattle.std.specs.List.{All};
ghost use Rattle.layout.specs.Format.{after_row, rows_onto};
ghost use Rattle.pending_list.specs.Reply.{reply, structure_rows, pending_rows, signed_structure, pending_item};
ghost use Rattle.pending_list.specs.declared.reply.TheConstants.{MOST_ROWS};

use crate::item::SpelledItem;
use crate::payload::Payload;
use crate::placement::Placement;
use crate::structures::SpelledStructure;
use layout::{Memory, Writer};
use std::alloc::Allocator;

/// How many bytes of a reply stand beside its rows: the tag, and two counts.
const HEAD_SIZE: usize = 6;

/// How many bytes the rows of the structures take.
fn structures_size<A: Allocator>(structures: &[SpelledStructure<A>]) -> usize {
    let mut size = 0usize;
    for structure in structures {
        size = size.saturating_add(structure.row_size());
    }
    size
}

/// How many bytes the rows of the operations that are pending take.
fn pending_size<A: Allocator>(pending: &[Placement<A>]) -> usize {
    let mut size = 0usize;
    for placement in pending {
        size = size.saturating_add(placement.item().row_size());
    }
    size
}

/// How many bytes the text of the reply takes.
fn reply_size<A: Allocator>(
    structures: &[SpelledStructure<A>],
    pending: &[Placement<A>],
    own: &SpelledItem<A>,
) -> usize {
    own.row_size()
        .saturating_add(structures_size(structures))
        .saturating_add(pending_size(pending))
        .saturating_add(HEAD_SIZE)
}

/// Writes the rows of the structures.
fn write_structures<A: Allocator>(
    writer: &mut Writer<A>,
    structures: &[SpelledStructure<A>],
) -> Result<(), Memory>
    ensures rows { OnOk result (writer.new ≡ rows_onto (after_row structure_rows) None writer.old structures.now) }
    ensures fits { OnOk result (All signed_structure.Fits structures.now) }
{
    for structure in structures {
        structure.write_row(writer)?;
    }
    Ok(())
}

/// Writes the rows of the operations that are pending.
fn write_pending<A: Allocator>(
    writer: &mut Writer<A>,
    pending: &[Placement<A>],
) -> Result<(), Memory>
    ensures rows { OnOk result (writer.new
        ≡ rows_onto (after_row pending_rows) None writer.old (map (λ w. w.item) pending.now)) }
    ensures fits { OnOk result (All pending_item.Fits (map (λ w. w.item) pending.now)) }
{
    for placement in pending {
        placement.item().write_row(writer)?;
    }
    Ok(())
}

/// The text of the reply to an operation, which stands last, after at most 63 others that are pending. It is written
/// into memory of its own size.
pub(crate) fn reply_text<A: Allocator + Copy>(
    alloc: A,
    structures: &[SpelledStructure<A>],
    pending: &[Placement<A>],
    own: &SpelledItem<A>,
) -> Result<Payload<A>, Memory>
    requires few_structures { length structures.now ≤ MOST_ROWS }
    requires few_pending { length pending.now < MOST_ROWS }
    ensures { IfOk result (λ text. text ≡ reply.spell
        (record { structures = structures.now; pending = map (λ w. w.item) pending.now ++ own.now ∷ [] })) }
{
    let mut writer = Writer::with_room(alloc, reply_size(structures, pending, own))?;
    writer.tag(b"SRL1")?;
    writer.u8(structures.len() as u8)?;
    write_structures(&mut writer, structures)?;
    writer.u8(pending.len() as u8 + 1)?;
    write_pending(&mut writer, pending)?;
    own.write_row(&mut writer)?;
    Payload::from_vec(writer.finish())
}
