//! Files of blocks.

ghost use Rattle.std.specs.Prelude.{◌≡◌, ◌≢◌, ◌⊎◌, ◌<◌, ◌≤◌, ◌+◌, ◌++◌, true, false, Ok, Err, length, IfOk, IfErr};
ghost use Rattle.std.specs.Prelude.{IfSome, IfNone, OnOk, OnErr, IsErrOf};
ghost use Rattle.layout.specs.Hash.{hash};
ghost use Rattle.layout.specs.Types.{Bytes};
ghost use Rattle.leaf_ledger.specs.Device.{synced, wrote_bytes, IsAtMostSynced, HasRisen, HasCause, end_of_files};
ghost use Rattle.block_file.specs.Blocks.{Keeps, KeepsAlone, EndsAt, own, spelled, end_mark, size_of_head};
ghost use Rattle.block_file.specs.Life.{IsSafe, Call};
ghost use Rattle.block_file.specs.Places.{IsSound};
ghost use Rattle.std.specs.BTreeMap.{get};
ghost use Rattle.std.specs.Cmp.Lexicographic.{slice_cmp};
ghost use Rattle.std.specs.Ordering.{nat_cmp};

use crate::error::BlockError;
use crate::finding::{BLOCK_LIMIT, find_blocks, find_text};
use crate::head::{HEAD_SIZE, laid_out};
use crate::index::{Index, set_place};
use crate::place::Place;
use layout::{Digest, digest, let_go};
use leaf_ledger::DeviceError;
use std::alloc::Allocator;
use std::marker::Model;
use storage::Storage;

/// Blocks in a file, found by their digests.
///
/// A file has one of these. One that is dropped loses its storage: its blocks stay, those that were synced.
#[derive(Drop)]
pub struct BlockFile<S: Storage, A: Allocator> {
    alloc: A,
    storage: S,
    end: usize,
    room: u64,
    index: Index<A>,
    usable: bool,
}

impl<S: Storage, A: Allocator> Model for BlockFile<S, A> {
    ghost use Rattle.std.specs.Prelude.{◌≡◌, ◌<◌, true};
    ghost use Rattle.std.specs.BTreeMap.{get};
    ghost use Rattle.std.specs.Cmp.Lexicographic.{slice_cmp};
    ghost use Rattle.std.specs.Ordering.{nat_cmp};
    ghost use Rattle.leaf_ledger.specs.Device.{end_of_files};
    ghost use Rattle.block_file.specs.Blocks.{BlockFile};
    ghost use Rattle.block_file.specs.Places.{IsSound};

    ghost Value = { BlockFile };

    ghost view = { λ b. record {
      file = S.history b.storage;
      faults = S.fault_count b.storage;
      end = b.end;
      room = b.room;
      usable = b.usable;
    } };

    ghost invariant = { λ b. b.usable ≡ true → (b.end < end_of_files) × (S.tells ≡ true
        → IsSound (S.history b.storage).now b.end (get (slice_cmp nat_cmp) b.index)) };
}

/// Syncs a storage and finds its blocks, and where they end.
fn read_blocks<S: Storage, A: Allocator + Copy>(
    alloc: A,
    storage: &mut S,
) -> Result<(usize, Index<A>), BlockError>
    ensures bounded { IfOk result (λ r. r.0 < end_of_files) }
    ensures sound { IfOk result (λ r. S.tells ≡ true
        → IsSound (S.history storage.new).now r.0 (get (slice_cmp nat_cmp) r.1)) }
    ensures synced { OnOk result (S.tells ≡ true → S.history storage.new ≡ synced (S.history storage.old)) }
    ensures synced_err { OnErr result (S.tells ≡ true
        → IsAtMostSynced (S.history storage.old) (S.history storage.new)) }
    ensures ours { IfErr result (λ e. (e ≡ BlockError.Device) ⊎ (e ≡ BlockError.Memory)) }
    ensures later { S.fault_count storage.old ≤ S.fault_count storage.new }
    ensures device { IsErrOf result BlockError.Device
        → HasRisen (S.fault_count storage.old) (S.fault_count storage.new) }
{
    storage.sync()?;
    let size = storage.len()?;
    find_blocks(alloc, storage, size)
}

impl<S: Storage, A: Allocator + Copy> BlockFile<S, A> {
    /// Opens the blocks of a file, with so many bytes of room for its blocks. The file is synced first, and then the
    /// heads of its blocks are read. Nothing is written. A refusal hands the storage back.
    pub fn open(alloc: A, storage: S, room: u64) -> Result<BlockFile<S, A>, (BlockError, S)>
        ensures usable { IfOk result (λ b. b.usable ≡ true) }
        ensures room { IfOk result (λ b. b.room ≡ room) }
        ensures synced { IfOk result (λ b. S.tells ≡ true → b.file ≡ synced (S.history storage)) }
        ensures synced_err { IfErr result (λ e. S.tells ≡ true
            → IsAtMostSynced (S.history storage) (S.history e.1)) }
        // What the file keeps is safe from then on.
        ensures safe { IfOk result (λ b. S.tells ≡ true
            → (text : Bytes) → Keeps text (S.history storage).now.text → IsSafe b.file text) }
        // A step of the file's life, of which `blocks_stay` speaks.
        ensures step { IfOk result (λ b. S.tells ≡ true → Call (S.history storage) b.file) }
        ensures step_err { IfErr result (λ e. S.tells ≡ true → Call (S.history storage) (S.history e.1)) }
        ensures ours { IfErr result (λ e. (e.0 ≡ BlockError.Device) ⊎ (e.0 ≡ BlockError.Memory)) }
        ensures device { IfErr result (λ e. e.0 ≡ BlockError.Device
            → HasRisen (S.fault_count storage) (S.fault_count e.1)) }
        ensures later { IfOk result (λ b. S.fault_count storage ≤ b.faults) }
        ensures later_err { IfErr result (λ e. S.fault_count storage ≤ S.fault_count e.1) }
    {
        let mut storage = storage;
        match read_blocks(alloc, &mut storage) {
            Ok((end, index)) => Ok(BlockFile {
                alloc,
                storage,
                end,
                room,
                index,
                usable: true,
            }),
            Err(e) => Err((e, storage)),
        }
    }

    /// Puts a text of at most 32,779 bytes after the others, unless it is there, and answers its digest. From the next
    /// sync on it stays.
    pub fn put(&mut self, text: &[u8]) -> Result<Digest, BlockError>
        requires usable { self.old.usable ≡ true }
        ensures digest { IfOk result (λ digest. digest ≡ hash text.now) }
        ensures kept { OnOk result (S.tells ≡ true → Keeps text.now self.new.file.now.text) }
        // What was kept is kept,
        ensures others { OnOk result (S.tells ≡ true
            → (other : Bytes) → Keeps other self.old.file.now.text → Keeps other self.new.file.now.text) }
        // and what was safe is, whatever is answered: a step of the file's life, of which `blocks_stay` speaks.
        ensures step { S.tells ≡ true → Call self.old.file self.new.file }
        // At most this one block is written, where the others end, and the mark that none comes after it;
        ensures file { OnOk result ((self.new ≡ record self.old { faults = self.new.faults })
            ⊎ ((self.new.end ≡ self.old.end + size_of_head + length text.now) × (self.new.end ≤ self.old.room)
            × (S.tells ≡ true → self.new.file
            ≡ wrote_bytes self.old.end (spelled (own text.now) ++ end_mark) self.old.file))) }
        // nothing, and no room is needed, where the text is kept, and no other one of its digest is.
        ensures there { S.tells ≡ true → KeepsAlone text.now self.old.file.now.text
            → (self.new ≡ record self.old { faults = self.new.faults }) × (IsErrOf result BlockError.Full → ⊥) }
        ensures too_large { BLOCK_LIMIT < length text.now → (result ≡ Err BlockError.TooLarge) × (self.new ≡ self.old) }
        ensures large { IsErrOf result BlockError.TooLarge → BLOCK_LIMIT < length text.now }
        ensures full { IsErrOf result BlockError.Full
            → (self.old.room < self.old.end + size_of_head + length text.now)
            × (self.new ≡ record self.old { faults = self.new.faults }) }
        ensures memory { IsErrOf result BlockError.Memory → self.new ≡ record self.old { faults = self.new.faults } }
        ensures usable { OnOk result (self.new.usable ≡ true) }
        // After a write that failed nothing more can be put; after a read that failed all is as before.
        ensures failed { IsErrOf result BlockError.Device → (self.new.usable ≡ false)
            ⊎ (self.new ≡ record self.old { faults = self.new.faults }) }
        ensures device { IsErrOf result BlockError.Device → HasRisen self.old.faults self.new.faults }
        ensures room { self.new.room ≡ self.old.room }
        ensures later { self.old.faults ≤ self.new.faults }
    {
        if text.len() > BLOCK_LIMIT {
            return Err(BlockError::TooLarge);
        }
        let wanted = digest(text);
        if self.has(&wanted, text)? {
            return Ok(wanted);
        }
        self.append(wanted, text)?;
        Ok(wanted)
    }

    /// Whether the text is found by this digest, its own.
    fn has(&mut self, wanted: &Digest, text: &[u8]) -> Result<bool, BlockError>
        requires usable { self.old.usable ≡ true }
        requires own { wanted.now ≡ hash text.now }
        ensures yes { result ≡ Ok true → S.tells ≡ true → Keeps text.now self.old.file.now.text }
        ensures no { result ≡ Ok false → S.tells ≡ true → Keeps text.now self.old.file.now.text
            → (other : Bytes) × Keeps other self.old.file.now.text × (hash other ≡ hash text.now)
            × (other ≢ text.now) }
        ensures same { self.new ≡ record self.old { faults = self.new.faults } }
        ensures ours { IfErr result (λ e. (e ≡ BlockError.Device) ⊎ (e ≡ BlockError.Memory)) }
        ensures later { self.old.faults ≤ self.new.faults }
        ensures device { IsErrOf result BlockError.Device → HasRisen self.old.faults self.new.faults }
    {
        match self.fetch(wanted)? {
            Some(found) => Ok(found.as_slice() == text),
            None => Ok(false),
        }
    }

    /// Puts a text after the others, with its own digest.
    fn append(&mut self, wanted: Digest, text: &[u8]) -> Result<(), BlockError>
        requires usable { self.old.usable ≡ true }
        requires own { wanted ≡ hash text.now }
        requires small { length text.now ≤ BLOCK_LIMIT }
        ensures kept { OnOk result (S.tells ≡ true → Keeps text.now self.new.file.now.text) }
        ensures others { OnOk result (S.tells ≡ true
            → (other : Bytes) → Keeps other self.old.file.now.text → Keeps other self.new.file.now.text) }
        ensures step { S.tells ≡ true → Call self.old.file self.new.file }
        ensures file { OnOk result (S.tells ≡ true → self.new.file
            ≡ wrote_bytes self.old.end (spelled (own text.now) ++ end_mark) self.old.file) }
        ensures end { OnOk result (self.new.end ≡ self.old.end + size_of_head + length text.now) }
        ensures within { OnOk result (self.new.end ≤ self.old.room) }
        ensures full { IsErrOf result BlockError.Full
            → (self.old.room < self.old.end + size_of_head + length text.now) × (self.new ≡ self.old) }
        ensures memory { IsErrOf result BlockError.Memory → self.new ≡ self.old }
        ensures ours { IsErrOf result BlockError.TooLarge → ⊥ }
        ensures usable { OnOk result (self.new.usable ≡ true) }
        ensures failed { IsErrOf result BlockError.Device → self.new.usable ≡ false }
        ensures device { IsErrOf result BlockError.Device → HasRisen self.old.faults self.new.faults }
        ensures room { self.new.room ≡ self.old.room }
        ensures later { self.old.faults ≤ self.new.faults }
    {
        let end = self.end;
        let place = Place::new(end + HEAD_SIZE, text.len());
        let next = end + HEAD_SIZE + text.len();
        if next as u64 > self.room {
            return Err(BlockError::Full);
        }
        let bytes = laid_out(self.alloc, &wanted, text)?;
        set_place(&mut self.index, wanted, place)?;
        self.usable = false;
        self.storage.write_at(end, &bytes)?;
        self.end = next;
        self.usable = true;
        Ok(())
    }

    /// The text of a digest, which is hashed. None where the file keeps no text that has it.
    pub fn fetch(&mut self, wanted: &Digest) -> Result<Option<Vec<u8, A>>, BlockError>
        requires usable { self.old.usable ≡ true }
        ensures own { IfOk result (λ found. IfSome found (λ text. hash text.items ≡ wanted.now)) }
        ensures small { IfOk result (λ found. IfSome found (λ text. length text.items ≤ BLOCK_LIMIT)) }
        ensures kept { IfOk result (λ found. IfSome found (λ text. S.tells ≡ true
            → Keeps text.items self.old.file.now.text)) }
        ensures absent { IfOk result (λ found. IfNone found (S.tells ≡ true
            → (text : Bytes) → hash text ≡ wanted.now → Keeps text self.old.file.now.text → ⊥)) }
        ensures same { self.new ≡ record self.old { faults = self.new.faults } }
        ensures ours { IfErr result (λ e. (e ≡ BlockError.Device) ⊎ (e ≡ BlockError.Memory)) }
        ensures later { self.old.faults ≤ self.new.faults }
        ensures device { IsErrOf result BlockError.Device → HasRisen self.old.faults self.new.faults }
    {
        find_text(self.alloc, &mut self.storage, &self.index, wanted, self.end)
    }

    /// From Ok on each text that the file keeps is safe.
    pub fn sync(&mut self) -> Result<(), DeviceError>
        requires usable { self.old.usable ≡ true }
        ensures ok { OnOk result (S.tells ≡ true → self.new.file ≡ synced self.old.file) }
        ensures safe { OnOk result (S.tells ≡ true
            → (text : Bytes) → Keeps text self.old.file.now.text → IsSafe self.new.file text) }
        ensures step { S.tells ≡ true → Call self.old.file self.new.file }
        ensures same { OnOk result (self.new ≡ record self.old { file = self.new.file; faults = self.new.faults }) }
        // After a sync that failed nothing more can be put.
        ensures failed { OnErr result ((self.new.usable ≡ false) × (self.new.file ≡ self.old.file)) }
        ensures room { self.new.room ≡ self.old.room }
        ensures cause { HasCause self.old.faults self.new.faults result }
    {
        self.usable = false;
        self.storage.sync()?;
        self.usable = true;
        Ok(())
    }

    /// Where the blocks end: so many bytes they have in the file.
    pub fn end(&self) -> usize
        ensures same { result ≡ self.now.end }
        ensures ends { self.now.usable ≡ true → S.tells ≡ true → EndsAt self.now.file.now.text result }
    {
        self.end
    }

    /// Whether texts can be put and fetched: not after a write or a sync failed.
    pub fn usable(&self) -> bool
        ensures { result ≡ self.now.usable }
    {
        self.usable
    }

    /// Hands the storage back.
    pub fn close(self) -> S
        ensures file { S.history result ≡ self.file }
        ensures faults { S.fault_count result ≡ self.faults }
    {
        let BlockFile {
            alloc: _,
            storage,
            end: _,
            room: _,
            index,
            usable: _,
        } = self;
        let_go(index);
        storage
    }
}
