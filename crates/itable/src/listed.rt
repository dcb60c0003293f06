//! Listed chunks that ascend by number, as a map.

ghost use Rattle.std.specs.Prelude.{◌≡◌, None, MatchResult};
ghost use Rattle.std.specs.Ordering.{nat_cmp};
ghost use Rattle.layout.specs.Ascending.{Ascends, Stands, IsFree, row_at, without_row};
ghost use Rattle.itable.specs.Root.{number_of};

use crate::chunk::ChunkNumber;
use crate::root::ListedChunk;
use std::alloc::Allocator;

/// Where a number stands, or where it would stand.
fn find(chunks: &[ListedChunk], number: ChunkNumber) -> Result<usize, usize>
    requires { Ascends nat_cmp number_of None chunks.now }
    ensures { MatchResult result (Stands nat_cmp number_of chunks.now number)
        (IsFree nat_cmp number_of chunks.now number) }
{
    chunks.binary_search_by_key(&number.get(), |chunk| chunk.number.get())
}

/// The chunk of a number, if it is listed.
pub(crate) fn listed_at(chunks: &[ListedChunk], number: ChunkNumber) -> Option<ListedChunk>
    requires { Ascends nat_cmp number_of None chunks.now }
    ensures { result ≡ row_at nat_cmp number_of chunks.now number }
{
    match find(chunks, number) {
        Ok(place) => Some(chunks[place]),
        Err(_) => None,
    }
}

/// Takes the chunk of a number out, if it is listed.
pub(crate) fn take_listed<A: Allocator>(chunks: &mut Vec<ListedChunk, A>, number: ChunkNumber)
    requires { Ascends nat_cmp number_of None chunks.old.items }
    ensures { chunks.new.items ≡ without_row nat_cmp number_of chunks.old.items number }
{
    if let Ok(place) = find(chunks, number) {
        chunks.remove(place);
    }
}
