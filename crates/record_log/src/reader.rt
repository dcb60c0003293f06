//! Reading a log back, one record after another.

ghost use Rattle.std.specs.Prelude.{◌≡◌, ◌<◌, ◌≤◌, List, [], ◌∷◌, ◌++◌, true, false, Ok, None, IfOk, IfErr, IfSome, IfNone, OnErr};
ghost use Rattle.std.specs.Prelude.{IsErrOf};
ghost use Rattle.leaf_ledger.specs.Device.{at_rest, Leaves, Throughout, HasRisen};
ghost use Rattle.record_log.specs.Records.{Record as PureRecord, closed_gate, Tells, IsNew, IsDamaged, HasRead};
ghost use Rattle.record_log.specs.Records.{MayBeLeft, KeepsLog};
ghost use Rattle.record_log.specs.Life.{Nothing, Call};

use crate::chain::{next_record, start};
use crate::error::LogError;
use crate::log::RecordLog;
use crate::record::Record;
use leaf_ledger::DeviceError;
use std::alloc::Allocator;
use std::marker::Model;
use storage::Storage;

/// A log that is read back. It has one record in memory at a time, and writes nothing.
///
/// One that is dropped loses its storage: its records stay.
#[derive(Drop)]
pub struct LogReader<S: Storage> {
    storage: S,
    size: usize,
    gate: usize,
    ended: bool,
}

impl<S: Storage> Model for LogReader<S> {
    ghost use Rattle.std.specs.Prelude.{◌≡◌, ◌<◌, true, false};
    ghost use Rattle.leaf_ledger.specs.Device.{end_of_files};
    ghost use Rattle.record_log.specs.Records.{Reading};
    ghost use Rattle.record_log.specs.Places.{IsAt};

    ghost Value = { Reading };

    ghost view = { λ r. record {
      file = S.history r.storage;
      faults = S.fault_count r.storage;
      place = r.gate;
      size = r.size;
      ended = r.ended;
    } };

    ghost invariant = { λ r. (r.gate < r.size) × (r.size < end_of_files) × (r.ended ≡ false → 1 < r.size)
        × (S.tells ≡ true → IsAt (S.history r.storage).now r.size r.gate r.ended) };
}

impl<S: Storage> LogReader<S> {
    /// Begins to read the log of a file, which is made where it has at most one byte. A refusal hands the storage back.
    pub fn new(storage: S) -> Result<LogReader<S>, (DeviceError, S)>
        ensures begins { IfOk result (λ r. S.tells ≡ true → HasRead [] r) }
        ensures at_rest { IfOk result (λ r. S.tells ≡ true → r.file.now ≡ at_rest r.file.now.text) }
        // What the file told it tells still.
        ensures records { IfOk result (λ r. S.tells ≡ true
            → (rs : List PureRecord) → Tells rs r.file.now.text → Tells rs (S.history storage).now.text) }
        // Where there may be more to read, it has the same bytes.
        ensures same { IfOk result (λ r. S.tells ≡ true → r.ended ≡ false
            → r.file.now.text ≡ (S.history storage).now.text) }
        ensures more { IfOk result (λ r. S.tells ≡ true → r.ended ≡ false → IsNew (S.history storage).now.text → ⊥) }
        // All that it does to a file of more than one byte is to sync it, before it reads.
        ensures kept { IfOk result (λ r. S.tells ≡ true → KeepsLog (S.history storage) r.file) }
        ensures kept_err { IfErr result (λ e. S.tells ≡ true → KeepsLog (S.history storage) (S.history e.1)) }
        // Of a file of at most one byte it makes a log whose gate is closed.
        ensures new { IfOk result (λ r. S.tells ≡ true → IsNew (S.history storage).now.text
            → r.file.now.text ≡ closed_gate ∷ []) }
        ensures new_err { IfErr result (λ e. S.tells ≡ true → IsNew (S.history storage).now.text
            → IsNew (S.history e.1).now.text) }
        ensures left { IfOk result (λ r. S.tells ≡ true
            → Throughout (MayBeLeft (S.history storage)) (S.history storage) r.file) }
        ensures left_err { IfErr result (λ e. S.tells ≡ true
            → Throughout (MayBeLeft (S.history storage)) (S.history storage) (S.history e.1)) }
        // So where each crash before it left what tells these records, each crash while it runs does.
        ensures any_moment { IfOk result (λ r. S.tells ≡ true
            → (rs : List PureRecord) → Tells rs (S.history storage).now.text
            → Leaves (Tells rs) (S.history storage).now → Throughout (Tells rs) (S.history storage) r.file) }
        ensures any_moment_err { IfErr result (λ e. S.tells ≡ true
            → (rs : List PureRecord) → Tells rs (S.history storage).now.text
            → Leaves (Tells rs) (S.history storage).now → Throughout (Tells rs) (S.history storage) (S.history e.1)) }
        // A step of the file's life, of which `records_stay` speaks.
        ensures step { IfOk result (λ r. S.tells ≡ true → Call Nothing (S.history storage) r.file) }
        ensures step_err { IfErr result (λ e. S.tells ≡ true → Call Nothing (S.history storage) (S.history e.1)) }
        ensures device { IfErr result (λ e. HasRisen (S.fault_count storage) (S.fault_count e.1)) }
        ensures later { IfOk result (λ r. S.fault_count storage ≤ r.faults) }
        ensures later_err { IfErr result (λ e. S.fault_count storage ≤ S.fault_count e.1) }
    {
        let mut storage = storage;
        match start(&mut storage) {
            Ok(size) => Ok(LogReader {
                storage,
                size,
                gate: 0,
                ended: size <= 1,
            }),
            Err(e) => Err((e, storage)),
        }
    }

    /// The next record. None where all were read. After a failure it stands where it stood.
    pub fn next<A: Allocator + Copy>(&mut self, alloc: A) -> Result<Option<Record<A>>, LogError>
        ensures some { IfOk result (λ found. IfSome found (λ r. S.tells ≡ true
            → (rs : List PureRecord) → HasRead rs self.old → HasRead (rs ++ r ∷ []) self.new)) }
        // Then the file tells those that were read.
        ensures none { IfOk result (λ found. IfNone found (S.tells ≡ true
            → (rs : List PureRecord) → HasRead rs self.old → Tells rs self.old.file.now.text)) }
        ensures ended { IfOk result (λ found. IfNone found (self.new.ended ≡ true)) }
        ensures all_read { self.old.ended ≡ true → result ≡ Ok None }
        ensures further { IfOk result (λ found. IfSome found (λ _. self.old.place < self.new.place)) }
        ensures inside { self.new.place < self.new.size }
        ensures size { self.new.size ≡ self.old.size }
        ensures file { self.new.file ≡ self.old.file }
        ensures stays { OnErr result (self.new ≡ record self.old { faults = self.new.faults }) }
        ensures damaged { IsErrOf result LogError.Damaged → S.tells ≡ true → IsDamaged self.old.file.now.text }
        ensures later { self.old.faults ≤ self.new.faults }
        ensures device { IsErrOf result LogError.Device → HasRisen self.old.faults self.new.faults }
    {
        if self.ended {
            return Ok(None);
        }
        let found = next_record(alloc, &mut self.storage, self.size, &mut self.gate)?;
        self.ended = found.is_none();
        Ok(found)
    }

    /// The log, all of whose records were read, ready for more.
    pub fn into_log(self) -> RecordLog<S>
        requires { self.ended ≡ true }
        ensures { result ≡ record { file = self.file; faults = self.faults; usable = true } }
    {
        let LogReader {
            storage,
            size: _,
            gate,
            ended: _,
        } = self;
        RecordLog::at_end(storage, gate)
    }

    /// Hands the storage back.
    pub fn close(self) -> S
        ensures file { S.history result ≡ self.file }
        ensures faults { S.fault_count result ≡ self.faults }
    {
        let LogReader {
            storage,
            size: _,
            gate: _,
            ended: _,
        } = self;
        storage
    }
}
