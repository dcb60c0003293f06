//! What may be written to the log.

ghost use Rattle.std.specs.Prelude.{◌≡◌, true, IfSome, OnSome};
ghost use Rattle.layout.specs.Types.{Bytes};
ghost use Rattle.block_file.specs.Blocks.{Keeps};
ghost use Rattle.block_file.specs.Life.{Call, IsSafe};

use crate::blocks::Blocks;
use crate::events::Beginning;
use crate::key::ServerKey;
use crate::waiting::Taken;
use record_log::Record;
use std::alloc::Allocator;
use std::marker::Model;
use storage::Storage;

/// Records that may be appended to the log: the blocks were synced since they were taken, so that whatever a call names
/// that was put before it is there where its record is. Contracts see the records, and the events up to the last of
/// them. It is made by a sync of the blocks, in no other way.
#[derive(Drop)]
pub(crate) struct Ready<A: Allocator, B: ServerKey> {
    taken: Taken<A, B>,
}

impl<A: Allocator, B: ServerKey> Model for Ready<A, B> {
    ghost use Rattle.std.specs.Prelude.{List};
    ghost use Rattle.record_log.specs.Records.{Record};
    ghost use Rattle.consistency_server.specs.Answers.{Call};

    ghost Value = { List Record × List Call };

    ghost view = { λ r. (r.taken.records.items, r.taken.events) };
}

impl<A: Allocator + Copy, B: ServerKey> Ready<A, B> {
    /// Syncs the blocks, for these records. None where their storage fails.
    pub(crate) fn over_synced<T: Storage + Drop>(
        taken: Taken<A, B>,
        blocks: &mut Blocks<T, A>,
    ) -> Option<Ready<A, B>>
        ensures same { IfSome result (λ r. r ≡ (taken.records.items, taken.events)) }
        // Each block that was put before stays, whatever crash comes.
        ensures safe { OnSome result (T.tells ≡ true
            → (text : Bytes) → Keeps text blocks.old.file.now.text → IsSafe blocks.new.file text) }
        ensures step { T.tells ≡ true → Call blocks.old.file blocks.new.file }
    {
        match blocks.sync() {
            Ok(()) => Some(Ready { taken }),
            Err(_) => None,
        }
    }

    /// The records, and the events up to the last of them.
    pub(crate) fn into_parts(self) -> (Vec<Record<A>, A>, Beginning<B>)
        ensures { (result.0.items, result.1) ≡ self }
    {
        let Ready {
            taken: Taken { records, events },
        } = self;
        (records, events)
    }
}
