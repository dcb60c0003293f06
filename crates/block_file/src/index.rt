//! Where the text of each digest stands.

ghost use Rattle.std.specs.Prelude.{◌≡◌, Some, OnOk, OnErr};
ghost use Rattle.std.specs.BTreeMap.{get, Updates, IsUnchanged};
ghost use Rattle.std.specs.Cmp.Lexicographic.{slice_cmp};
ghost use Rattle.std.specs.Ordering.{nat_cmp};

use crate::place::Place;
use layout::{Digest, Memory};
use std::alloc::Allocator;
use std::collections::BTreeMap;

/// Where the text of each digest stands.
pub(crate) type Index<A> = BTreeMap<Digest, Place, A>;

/// The place of a digest.
pub(crate) fn place_of<A: Allocator + Copy>(index: &Index<A>, digest: &Digest) -> Option<Place>
    ensures { result ≡ get (slice_cmp nat_cmp) index.now digest.now }
{
    index.get(digest).copied()
}

/// The digest is looked for at this place.
pub(crate) fn set_place<A: Allocator + Copy>(
    index: &mut Index<A>,
    digest: Digest,
    place: Place,
) -> Result<(), Memory>
    ensures ok { OnOk result (Updates (slice_cmp nat_cmp) index.old index.new digest (Some place)) }
    ensures err { OnErr result (IsUnchanged index.old index.new) }
{
    index.insert(digest, place)?;
    Ok(())
}
