//! The digests of its chunks' texts that a table knows: one for each chunk's number, or none, where there was no room yet.

ghost use Rattle.std.specs.Prelude.{◌≡◌, ℕ, List, None, Some, slice_index_or};
ghost use Rattle.std.specs.List.{slice_set};

use crate::chunk::ChunkNumber;
use layout::{Digest, Memory};
use std::alloc::Allocator;

/// The digest of a chunk's text, if it is known.
pub(crate) fn known_at(known: &[Option<Digest>], number: ChunkNumber) -> Option<Digest>
    ensures { result ≡ slice_index_or known.now number None }
{
    let place = usize::from(number.get());
    if place < known.len() {
        known[place]
    } else {
        None
    }
}

/// Makes room for the digest of each chunk, where there is none. Nothing more is known then.
pub(crate) fn make_room<A: Allocator>(known: &mut Vec<Option<Digest>, A>) -> Result<(), Memory>
    ensures { (n : ℕ) (d : List ℕ) → slice_index_or known.new.items n None ≡ Some d
        → slice_index_or known.old.items n None ≡ Some d }
{
    if known.is_empty() {
        known.resize(64, None)?;
    }
    Ok(())
}

/// Sets what is known of a chunk, where there is room.
pub(crate) fn set_known<A: Allocator>(
    known: &mut Vec<Option<Digest>, A>,
    number: ChunkNumber,
    digest: Option<Digest>,
)
    ensures { known.new.items ≡ slice_set known.old.items number digest }
{
    let place = usize::from(number.get());
    if place < known.len() {
        known[place] = digest;
    }
}
