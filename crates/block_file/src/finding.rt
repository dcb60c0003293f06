//! The blocks of a file, as they are found.

ghost use Rattle.std.specs.Prelude.{◌≡◌, ◌⊎◌, ◌+◌, ◌<◌, ◌≤◌, List, true, false, Ok, length, take, drop, IfOk, IfErr};
ghost use Rattle.std.specs.Prelude.{IfSome, IfNone, OnOk, IsErrOf};
ghost use Rattle.std.specs.BTreeMap.{get};
ghost use Rattle.std.specs.Cmp.Lexicographic.{slice_cmp};
ghost use Rattle.std.specs.Ordering.{nat_cmp};
ghost use Rattle.layout.specs.Hash.{hash};
ghost use Rattle.leaf_ledger.specs.Device.{HasRisen, HasCause};
ghost use Rattle.block_file.specs.Blocks.{Block, Reaches, size_of_head, size_limit, IsNoBlock};
ghost use Rattle.block_file.specs.Places.{BeginsAt, IsIndex, IsTextOf, HasNone, IsFound};

use crate::error::BlockError;
use crate::head::{HEAD_SIZE, read_head};
use crate::index::{Index, place_of, set_place};
use crate::place::Place;
use layout::{Digest, digest};
use leaf_ledger::DeviceError;
use std::alloc::Allocator;
use std::collections::BTreeMap;
use storage::Storage;

/// The most bytes that a block has: the i-node of a largest file.
pub const BLOCK_LIMIT: usize = 32_779;

/// The digest of the block that begins there, and the place of its text. None where no block begins.
fn block_at<S: Storage>(
    storage: &mut S,
    from: usize,
    size: usize,
) -> Result<Option<(Digest, Place)>, DeviceError>
    requires size { S.tells ≡ true → size ≡ length (S.history storage.old).now.text }
    requires inside { from ≤ size }
    ensures inside { IfOk result (λ found. IfSome found
        (λ b. (b.1.at ≡ from + size_of_head) × (b.1.at + b.1.size ≤ size))) }
    ensures some { IfOk result (λ found. IfSome found (λ b. S.tells ≡ true
        → BeginsAt (S.history storage.old).now.text from b.0 b.1)) }
    ensures none { IfOk result (λ found. IfNone found (S.tells ≡ true
        → IsNoBlock (drop from (S.history storage.old).now.text))) }
    ensures same { S.history storage.new ≡ S.history storage.old }
    ensures cause { HasCause (S.fault_count storage.old) (S.fault_count storage.new) result }
{
    if size - from < HEAD_SIZE {
        return Ok(None);
    }
    let mut bytes = [0; HEAD_SIZE];
    storage.read(from, &mut bytes)?;
    let (length, digest) = read_head(&bytes);
    if length > BLOCK_LIMIT || size - from - HEAD_SIZE < length {
        return Ok(None);
    }
    Ok(Some((digest, Place::new(from + HEAD_SIZE, length))))
}

/// The bytes that stand there.
fn read_bytes<S: Storage, A: Allocator + Copy>(
    alloc: A,
    storage: &mut S,
    place: Place,
) -> Result<Vec<u8, A>, BlockError>
    requires { S.tells ≡ true → place.at + place.size ≤ length (S.history storage.old).now.text }
    ensures size { IfOk result (λ bytes. length bytes.items ≤ size_limit) }
    ensures bytes { IfOk result (λ bytes. S.tells ≡ true
        → bytes.items ≡ take place.size (drop place.at (S.history storage.old).now.text)) }
    ensures same { S.history storage.new ≡ S.history storage.old }
    ensures ours { IfErr result (λ e. (e ≡ BlockError.Device) ⊎ (e ≡ BlockError.Memory)) }
    ensures later { S.fault_count storage.old ≤ S.fault_count storage.new }
    ensures device { IsErrOf result BlockError.Device
        → HasRisen (S.fault_count storage.old) (S.fault_count storage.new) }
{
    let mut bytes = Vec::from_elem(alloc, 0, place.size())?;
    storage.read(place.at(), &mut bytes)?;
    Ok(bytes)
}

/// The text of a digest, where it is found in the file.
pub(crate) fn find_text<S: Storage, A: Allocator + Copy>(
    alloc: A,
    storage: &mut S,
    index: &Index<A>,
    wanted: &Digest,
    end: usize,
) -> Result<Option<Vec<u8, A>>, BlockError>
    requires { S.tells ≡ true → IsFound (S.history storage.old).now.text end (get (slice_cmp nat_cmp) index.now) }
    ensures own { IfOk result (λ found. IfSome found (λ text. hash text.items ≡ wanted.now)) }
    ensures small { IfOk result (λ found. IfSome found (λ text. length text.items ≤ size_limit)) }
    ensures some { IfOk result (λ found. IfSome found (λ text. S.tells ≡ true → (blocks : List Block)
        → Reaches (S.history storage.old).now.text end blocks → IsIndex (get (slice_cmp nat_cmp) index.now) blocks
        → IsTextOf (get (slice_cmp nat_cmp) index.now) blocks wanted.now text.items)) }
    ensures none { IfOk result (λ found. IfNone found (S.tells ≡ true → (blocks : List Block)
        → Reaches (S.history storage.old).now.text end blocks → IsIndex (get (slice_cmp nat_cmp) index.now) blocks
        → HasNone blocks wanted.now)) }
    ensures same { S.history storage.new ≡ S.history storage.old }
    ensures ours { IfErr result (λ e. (e ≡ BlockError.Device) ⊎ (e ≡ BlockError.Memory)) }
    ensures later { S.fault_count storage.old ≤ S.fault_count storage.new }
    ensures device { IsErrOf result BlockError.Device
        → HasRisen (S.fault_count storage.old) (S.fault_count storage.new) }
{
    let Some(place) = place_of(index, wanted) else {
        return Ok(None);
    };
    let text = read_bytes(alloc, storage, place)?;
    if digest(&text) == *wanted {
        Ok(Some(text))
    } else {
        Ok(None)
    }
}

/// Has the text of a block that begins there found where it stands, unless a text of its digest is found already.
fn note<S: Storage, A: Allocator + Copy>(
    alloc: A,
    storage: &mut S,
    index: &mut Index<A>,
    from: usize,
    block: (Digest, Place),
) -> Result<(), BlockError>
    requires found { S.tells ≡ true
        → IsFound (S.history storage.old).now.text from (get (slice_cmp nat_cmp) index.old) }
    requires begins { S.tells ≡ true → BeginsAt (S.history storage.old).now.text from block.0 block.1 }
    ensures found { OnOk result (S.tells ≡ true
        → IsFound (S.history storage.old).now.text (block.1.at + block.1.size) (get (slice_cmp nat_cmp) index.new)) }
    ensures same { S.history storage.new ≡ S.history storage.old }
    ensures ours { IfErr result (λ e. (e ≡ BlockError.Device) ⊎ (e ≡ BlockError.Memory)) }
    ensures later { S.fault_count storage.old ≤ S.fault_count storage.new }
    ensures device { IsErrOf result BlockError.Device
        → HasRisen (S.fault_count storage.old) (S.fault_count storage.new) }
{
    let (digest, place) = block;
    let known = find_text(alloc, storage, index, &digest, from)?;
    if known.is_some() {
        return Ok(());
    }
    set_place(index, digest, place)?;
    Ok(())
}

/// Finds one block more, if there is one. A text that is found already stays where it is.
fn advance<S: Storage, A: Allocator + Copy>(
    alloc: A,
    storage: &mut S,
    size: usize,
    end: &mut usize,
    index: &mut Index<A>,
) -> Result<bool, BlockError>
    requires size { S.tells ≡ true → size ≡ length (S.history storage.old).now.text }
    requires inside { end.old ≤ size }
    requires found { S.tells ≡ true
        → IsFound (S.history storage.old).now.text end.old (get (slice_cmp nat_cmp) index.old) }
    ensures inside { end.new ≤ size }
    ensures further { result ≡ Ok true → end.old < end.new }
    ensures found { OnOk result (S.tells ≡ true
        → IsFound (S.history storage.old).now.text end.new (get (slice_cmp nat_cmp) index.new)) }
    ensures ended { result ≡ Ok false → S.tells ≡ true
        → IsNoBlock (drop end.new (S.history storage.old).now.text) }
    ensures same { S.history storage.new ≡ S.history storage.old }
    ensures ours { IfErr result (λ e. (e ≡ BlockError.Device) ⊎ (e ≡ BlockError.Memory)) }
    ensures later { S.fault_count storage.old ≤ S.fault_count storage.new }
    ensures device { IsErrOf result BlockError.Device
        → HasRisen (S.fault_count storage.old) (S.fault_count storage.new) }
{
    let from = *end;
    let Some((digest, place)) = block_at(storage, from, size)? else {
        return Ok(false);
    };
    note(alloc, storage, index, from, (digest, place))?;
    *end = place.at() + place.size();
    Ok(true)
}

/// Finds the blocks of a file, and where they end. Of most of them the head alone is read.
pub(crate) fn find_blocks<S: Storage, A: Allocator + Copy>(
    alloc: A,
    storage: &mut S,
    size: usize,
) -> Result<(usize, Index<A>), BlockError>
    requires size { S.tells ≡ true → size ≡ length (S.history storage.old).now.text }
    ensures inside { IfOk result (λ r. r.0 ≤ size) }
    ensures found { IfOk result (λ r. S.tells ≡ true
        → IsFound (S.history storage.old).now.text r.0 (get (slice_cmp nat_cmp) r.1)) }
    ensures ended { IfOk result (λ r. S.tells ≡ true → IsNoBlock (drop r.0 (S.history storage.old).now.text)) }
    ensures same { S.history storage.new ≡ S.history storage.old }
    ensures ours { IfErr result (λ e. (e ≡ BlockError.Device) ⊎ (e ≡ BlockError.Memory)) }
    ensures later { S.fault_count storage.old ≤ S.fault_count storage.new }
    ensures device { IsErrOf result BlockError.Device
        → HasRisen (S.fault_count storage.old) (S.fault_count storage.new) }
{
    let mut end = 0;
    let mut index = BTreeMap::new(alloc);
    while advance(alloc, storage, size, &mut end, &mut index)? {}
    Ok((end, index))
}
