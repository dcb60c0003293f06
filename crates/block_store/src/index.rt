//! The numbers of blocks by their digests, and the room that blocks have.

ghost use Rattle.std.specs.Prelude.{◌≡◌, ◌≤◌, ◌<◌, ◌+◌, ◌^◌, ◌⊎◌, ℕ, true, false, is_some, None, Some, Err, IfErr, OnOk};
ghost use Rattle.std.specs.Prelude.{OnErr};
ghost use Rattle.std.specs.BTreeMap.{Updates, IsUnchanged, get};
ghost use Rattle.std.specs.Cmp.Lexicographic.{slice_cmp};
ghost use Rattle.std.specs.Option.{option_copied};
ghost use Rattle.std.specs.Ordering.{nat_cmp};
ghost use Rattle.block_store.specs.declared.error.StoreError.TheVariants as store_error;

use crate::error::StoreError;
use layout::{Digest, Memory};
use std::alloc::Allocator;
use std::collections::BTreeMap;

/// What a block takes beside its bytes, as its room is counted, in bytes.
const BESIDE: u64 = 256;

/// The numbers of blocks by their digests, and how many bytes blocks may still take. While a block is put its entry
/// stands without a number.
#[derive(Drop)]
pub(crate) struct Index<A: Allocator> {
    numbers: BTreeMap<Digest, Option<usize>, A>,
    left: u64,
}

/// How much room a block of so many bytes takes.
pub(crate) fn room_of(size: usize) -> u64
    requires { size < 2 ^ 63 }
    ensures { result ≡ size + BESIDE }
{
    size as u64 + BESIDE
}

/// Makes an entry without a number, unless there is an entry.
fn enter<A: Allocator + Copy>(
    numbers: &mut BTreeMap<Digest, Option<usize>, A>,
    digest: Digest,
) -> Result<(), Memory>
    ensures entry { OnOk result (is_some (get (slice_cmp nat_cmp) numbers.new digest) ≡ true) }
    ensures stays { is_some (get (slice_cmp nat_cmp) numbers.old digest) ≡ true → numbers.new ≡ numbers.old }
    ensures new { OnOk result (is_some (get (slice_cmp nat_cmp) numbers.old digest) ≡ false
        → Updates (slice_cmp nat_cmp) numbers.old numbers.new digest (Some None)) }
    ensures err { OnErr result (IsUnchanged numbers.old numbers.new) }
{
    if !numbers.contains_key(&digest) {
        numbers.insert(digest, None)?;
    }
    Ok(())
}

impl<A: Allocator + Copy> Index<A> {
    /// No blocks, and so much room.
    pub(crate) fn new(alloc: A, room: u64) -> Index<A>
        ensures { result.left ≡ room }
    {
        Index {
            numbers: BTreeMap::new(alloc),
            left: room,
        }
    }

    /// The number of the block of a digest.
    pub(crate) fn number_of(&self, digest: Digest) -> Option<usize> {
        *self.numbers.get(&digest)?
    }

    /// Makes an entry for a block that takes so much room, unless there is one. It takes no room yet.
    pub(crate) fn reserve(&mut self, digest: Digest, room: u64) -> Result<(), StoreError>
        ensures room { OnOk result (room ≤ self.old.left) }
        ensures full { result ≡ Err store_error.Full → self.old.left < room }
        ensures only { IfErr result (λ e. (e ≡ store_error.Full) ⊎ (e ≡ store_error.Memory)) }
        ensures entry { OnOk result (is_some (get (slice_cmp nat_cmp) self.new.numbers digest) ≡ true) }
        ensures stays { is_some (get (slice_cmp nat_cmp) self.old.numbers digest) ≡ true
            → self.new.numbers ≡ self.old.numbers }
        ensures new { OnOk result (is_some (get (slice_cmp nat_cmp) self.old.numbers digest) ≡ false
            → Updates (slice_cmp nat_cmp) self.old.numbers self.new.numbers digest (Some None)) }
        ensures err { OnErr result (IsUnchanged self.old.numbers self.new.numbers) }
        ensures left { self.new.left ≡ self.old.left }
    {
        if self.left < room {
            return Err(StoreError::Full);
        }
        Ok(enter(&mut self.numbers, digest)?)
    }

    /// The block of an entry stands at this number and takes so much room. Of two blocks with one digest the first one
    /// is found.
    pub(crate) fn settle(&mut self, digest: Digest, number: usize, room: u64)
        requires room { room ≤ self.old.left }
        requires entry { is_some (get (slice_cmp nat_cmp) self.old.numbers digest) ≡ true }
        ensures left { self.new.left + room ≡ self.old.left }
        ensures settled { get (slice_cmp nat_cmp) self.old.numbers digest ≡ Some None
            → Updates (slice_cmp nat_cmp) self.old.numbers self.new.numbers digest (Some (Some number)) }
        ensures first { (n : ℕ) → get (slice_cmp nat_cmp) self.old.numbers digest ≡ Some (Some n)
            → self.new.numbers ≡ self.old.numbers }
    {
        self.left -= room;
        if let Some(None) = self.numbers.get(&digest) {
            let put: Result<_, _> = self.numbers.insert(digest, Some(number));
            put.unwrap();
        }
    }

    /// The block of an entry isn't stored.
    pub(crate) fn withdraw(&mut self, digest: Digest)
        ensures left { self.new.left ≡ self.old.left }
        ensures withdrawn { get (slice_cmp nat_cmp) self.old.numbers digest ≡ Some None
            → Updates (slice_cmp nat_cmp) self.old.numbers self.new.numbers digest None }
        ensures first { (n : ℕ) → get (slice_cmp nat_cmp) self.old.numbers digest ≡ Some (Some n)
            → self.new.numbers ≡ self.old.numbers }
    {
        if let Some(None) = self.numbers.get(&digest) {
            let _ = self.numbers.remove(&digest);
        }
    }
}
