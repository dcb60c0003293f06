//! The blocks under their lock.

ghost use Rattle.std.specs.Prelude.{◌≡◌, ◌⊎◌, ◌≤◌, ◌<◌, ◌+◌, true, Ok, Err, length, IfOk, IfErr, IfSome, IfNone, OnOk};
ghost use Rattle.layout.specs.Hash.{hash};
ghost use Rattle.layout.specs.Types.{Bytes};
ghost use Rattle.wire.specs.declared.kinds.Status.TheVariants as status;
ghost use Rattle.block_file.specs.Blocks.{Keeps, size_limit, size_of_head};
ghost use Rattle.block_file.specs.Life.{Call, IsSafe};
ghost use Rattle.server_workers.specs.Conversation.{RepliesToSync};

use block_file::{BlockError, BlockFile};
use layout::Digest;
use leaf_ledger::DeviceError;
use server_workers::ReplyBody;
use std::alloc::Allocator;
use std::marker::Model;
use storage::Storage;
use wire::Status;

/// A file of blocks, and whether it was synced since the last put. Contracts see the file.
#[derive(Drop)]
pub struct Blocks<T: Storage, A: Allocator> {
    file: BlockFile<T, A>,
    is_synced: bool,
}

impl<T: Storage, A: Allocator> Model for Blocks<T, A> {
    ghost use Rattle.std.specs.Prelude.{◌≡◌, true};
    ghost use Rattle.block_file.specs.Blocks.{BlockFile};
    ghost use Rattle.kept_server.specs.Synced.{AllSafe};

    ghost Value = { BlockFile };

    ghost view = { λ b. b.file };

    ghost invariant = { λ b. b.is_synced ≡ true → b.file.usable ≡ true → T.tells ≡ true → AllSafe b.file.file };
}

impl<T: Storage + Drop, A: Allocator + Copy> Blocks<T, A> {
    /// The blocks of a file that was opened.
    pub fn new(file: BlockFile<T, A>) -> Blocks<T, A>
        ensures { result ≡ file }
    {
        Blocks {
            file,
            is_synced: false,
        }
    }

    /// Puts a block, and answers its digest. From the next sync on it stays.
    pub fn put(&mut self, text: &[u8]) -> Result<Digest, BlockError>
        ensures digest { IfOk result (λ digest. (digest ≡ hash text.now) × (length text.now ≤ size_limit)) }
        ensures large { result ≡ Err BlockError.TooLarge → size_limit < length text.now }
        ensures kept { OnOk result (T.tells ≡ true → Keeps text.now self.new.file.now.text) }
        ensures others { OnOk result (T.tells ≡ true
            → (other : Bytes) → Keeps other self.old.file.now.text → Keeps other self.new.file.now.text) }
        ensures full { result ≡ Err BlockError.Full → self.old.room < self.old.end + size_of_head + length text.now }
        ensures step { T.tells ≡ true → Call self.old.file self.new.file }
    {
        if !self.file.usable() {
            return Err(BlockError::Device);
        }
        self.is_synced = false;
        self.file.put(text)
    }

    /// The block of a digest, if there is one.
    pub fn fetch(&mut self, wanted: &Digest) -> Result<Option<Vec<u8, A>>, BlockError>
        ensures own { IfOk result (λ found. IfSome found (λ text. hash text.items ≡ wanted.now)) }
        ensures small { IfOk result (λ found. IfSome found (λ text. length text.items ≤ size_limit)) }
        // It is kept, and None comes only where no text of the digest is.
        ensures kept { IfOk result (λ found. IfSome found (λ text.
            T.tells ≡ true → Keeps text.items self.old.file.now.text)) }
        ensures absent { IfOk result (λ found. IfNone found (T.tells ≡ true
            → (text : Bytes) → hash text ≡ wanted.now → Keeps text self.old.file.now.text → ⊥)) }
        ensures ours { IfErr result (λ e. (e ≡ BlockError.Device) ⊎ (e ≡ BlockError.Memory)) }
        ensures same { self.new.file ≡ self.old.file }
    {
        if !self.file.usable() {
            return Err(BlockError::Device);
        }
        self.file.fetch(wanted)
    }

    /// Syncs the blocks, unless none was put since they were synced. From Ok on each that is kept stays.
    pub fn sync(&mut self) -> Result<(), DeviceError>
        ensures safe { OnOk result (T.tells ≡ true
            → (text : Bytes) → Keeps text self.old.file.now.text → IsSafe self.new.file text) }
        ensures step { T.tells ≡ true → Call self.old.file self.new.file }
    {
        if !self.file.usable() {
            return Err(DeviceError);
        }
        if !self.is_synced {
            self.file.sync()?;
            self.is_synced = true;
        }
        Ok(())
    }

    /// The reply to SYNC. None where the storage fails.
    pub fn reply_to_sync<'r>(&mut self, alloc: A, payload: &[u8]) -> Option<ReplyBody<'r, A>>
        // To SYNC, with which nothing goes, it is Ok.
        ensures replies { IfSome result (λ reply. RepliesToSync true payload.now reply) }
        // Ok tells that each block that was put before is synced: whatever crash comes, it stays.
        ensures synced { IfSome result (λ reply. reply.status ≡ status.Ok → T.tells ≡ true
            → (text : Bytes) → Keeps text self.old.file.now.text → IsSafe self.new.file text) }
        ensures step { T.tells ≡ true → Call self.old.file self.new.file }
    {
        if payload.len() != 0 {
            return Some(ReplyBody::bare(alloc, Status::Form));
        }
        match self.sync() {
            Ok(()) => Some(ReplyBody::bare(alloc, Status::Ok)),
            Err(_) => None,
        }
    }

    /// The file.
    pub(crate) fn into_file(self) -> BlockFile<T, A> {
        let Blocks { file, is_synced: _ } = self;
        file
    }
}
