//! Logs of records.

ghost use Rattle.std.specs.Prelude.{◌≡◌, ◌≢◌, ◌<◌, ◌≤◌, List, [], ◌∷◌, ◌+◌, ◌++◌, true, false, length, IfOk, IfErr, OnOk};
ghost use Rattle.std.specs.Prelude.{OnErr, IsErr, IsErrOf};
ghost use Rattle.leaf_ledger.specs.Device.{at_rest, written, Leaves, Throughout, HasRisen};
ghost use Rattle.record_log.specs.Records.{Record as PureRecord, closed_gate, chain, Tells, IsNew, IsDamaged};
ghost use Rattle.record_log.specs.Records.{TellsWithOrWithout, MayBeLeft, KeepsLog};
ghost use Rattle.record_log.specs.Life.{Nothing, Call, addition_of};

use crate::chain::find_all;
use crate::error::LogError;
use crate::laying::laid_out;
use crate::putting::{put, put_behind};
use crate::record::Record;
use std::alloc::Allocator;
use std::marker::Model;
use storage::Storage;

/// Records in a file, to which many are added at once.
///
/// A file has one log. One that is dropped loses its storage: its records stay.
#[derive(Drop)]
pub struct RecordLog<S: Storage> {
    storage: S,
    gate: usize,
    usable: bool,
}

impl<S: Storage> Model for RecordLog<S> {
    ghost use Rattle.std.specs.Prelude.{◌≡◌, ◌+◌, ◌<◌, true};
    ghost use Rattle.leaf_ledger.specs.Device.{end_of_files};
    ghost use Rattle.record_log.specs.Records.{LogFile};
    ghost use Rattle.record_log.specs.Places.{IsReady};

    ghost Value = { LogFile };

    ghost view = { λ l. record { file = S.history l.storage; faults = S.fault_count l.storage; usable = l.usable } };

    ghost invariant = { λ l. l.usable ≡ true
        → (l.gate + 1 < end_of_files) × (S.tells ≡ true → IsReady (S.history l.storage).now l.gate) };
}

impl<S: Storage> RecordLog<S> {
    ghost use Rattle.std.specs.Prelude.{◌+◌};
    ghost use Rattle.leaf_ledger.specs.Device.{end_of_files};
    ghost use Rattle.record_log.specs.Places.{IsReady};

    /// The log over a file whose records end at this gate.
    pub(crate) fn at_end(storage: S, gate: usize) -> RecordLog<S>
        requires bounded { gate + 1 < end_of_files }
        requires ready { S.tells ≡ true → IsReady (S.history storage).now gate }
        ensures { result ≡ record { file = S.history storage; faults = S.fault_count storage; usable = true } }
    {
        RecordLog {
            storage,
            gate,
            usable: true,
        }
    }

    /// Opens the log of a file, which is made where it has at most one byte, and reads its records back, the first of
    /// them first. A refusal hands the storage back.
    pub fn open<A: Allocator + Copy>(
        alloc: A,
        storage: S,
    ) -> Result<(RecordLog<S>, Vec<Record<A>, A>), (LogError, S)>
        ensures usable { IfOk result (λ r. r.0.usable ≡ true) }
        ensures at_rest { IfOk result (λ r. S.tells ≡ true → r.0.file.now ≡ at_rest r.0.file.now.text) }
        // The file told these records, and tells them still.
        ensures records { IfOk result (λ r. S.tells ≡ true → Tells r.1.items (S.history storage).now.text
            × Tells r.1.items r.0.file.now.text) }
        ensures damaged { IfErr result (λ e. S.tells ≡ true → e.0 ≡ LogError.Damaged
            → IsDamaged (S.history storage).now.text) }
        // All that it does to a file of more than one byte is to sync it, before it reads.
        ensures kept { IfOk result (λ r. S.tells ≡ true → KeepsLog (S.history storage) r.0.file) }
        ensures kept_err { IfErr result (λ e. S.tells ≡ true → KeepsLog (S.history storage) (S.history e.1)) }
        // Of a file of at most one byte it makes a log whose gate is closed, and takes no memory.
        ensures new { IfOk result (λ r. S.tells ≡ true → IsNew (S.history storage).now.text
            → r.0.file.now.text ≡ closed_gate ∷ []) }
        ensures new_err { IfErr result (λ e. S.tells ≡ true → IsNew (S.history storage).now.text
            → IsNew (S.history e.1).now.text) }
        ensures memory { IfErr result (λ e. S.tells ≡ true → e.0 ≡ LogError.Memory
            → IsNew (S.history storage).now.text → ⊥) }
        ensures left { IfOk result (λ r. S.tells ≡ true
            → Throughout (MayBeLeft (S.history storage)) (S.history storage) r.0.file) }
        ensures left_err { IfErr result (λ e. S.tells ≡ true
            → Throughout (MayBeLeft (S.history storage)) (S.history storage) (S.history e.1)) }
        // So where each crash before it left what tells these records, each crash while it runs does.
        ensures any_moment { IfOk result (λ r. S.tells ≡ true
            → (rs : List PureRecord) → Tells rs (S.history storage).now.text
            → Leaves (Tells rs) (S.history storage).now → Throughout (Tells rs) (S.history storage) r.0.file) }
        ensures any_moment_err { IfErr result (λ e. S.tells ≡ true
            → (rs : List PureRecord) → Tells rs (S.history storage).now.text
            → Leaves (Tells rs) (S.history storage).now → Throughout (Tells rs) (S.history storage) (S.history e.1)) }
        // A step of the file's life, of which `records_stay` speaks.
        ensures step { IfOk result (λ r. S.tells ≡ true → Call Nothing (S.history storage) r.0.file) }
        ensures step_err { IfErr result (λ e. S.tells ≡ true → Call Nothing (S.history storage) (S.history e.1)) }
        ensures device { IfErr result (λ e. e.0 ≡ LogError.Device
            → HasRisen (S.fault_count storage) (S.fault_count e.1)) }
        ensures later { IfOk result (λ r. S.fault_count storage ≤ r.0.faults) }
        ensures later_err { IfErr result (λ e. S.fault_count storage ≤ S.fault_count e.1) }
    {
        let mut storage = storage;
        match find_all(alloc, &mut storage) {
            Ok((gate, found)) => Ok((
                RecordLog {
                    storage,
                    gate,
                    usable: true,
                },
                found,
            )),
            Err(e) => Err((e, storage)),
        }
    }

    /// Adds records after the others. From Ok on they are there, whatever crash comes. A crash while it runs leaves all
    /// of them or none. Their bytes are laid out in memory first.
    pub fn append_all<A: Allocator, B: Allocator>(
        &mut self,
        alloc: B,
        added: &[Record<A>],
    ) -> Result<(), LogError>
        requires usable { self.old.usable ≡ true }
        // While it runs, a crash leaves the records before, with all new ones or with none.
        ensures any_moment { S.tells ≡ true → (rs : List PureRecord) → Tells rs self.old.file.now.text
            → Throughout (TellsWithOrWithout rs added.now) self.old.file self.new.file }
        ensures appended { OnOk result (S.tells ≡ true → (rs : List PureRecord) → Tells rs self.old.file.now.text
            → Tells (rs ++ added.now) self.new.file.now.text) }
        // From its beginning on the file has these records and a closed gate, over what stood there.
        ensures file { OnOk result (S.tells ≡ true → 0 < length added.now
            → (rs : List PureRecord) → Tells rs self.old.file.now.text → self.new.file.now.text
            ≡ written 0 (chain (rs ++ added.now) ++ closed_gate ∷ []) self.old.file.now.text) }
        ensures at_rest { OnOk result (S.tells ≡ true → self.new.file.now ≡ at_rest self.new.file.now.text) }
        // What a read gives, too, whatever is answered.
        ensures reads { S.tells ≡ true → (rs : List PureRecord) → Tells rs self.old.file.now.text
            → TellsWithOrWithout rs added.now self.new.file.now.text }
        // A step of the file's life, of which `records_stay` speaks.
        ensures step { S.tells ≡ true → Call (addition_of added.now result) self.old.file self.new.file }
        // Of no records nothing changes.
        ensures none { added.now ≡ [] → (self.new ≡ self.old) × (IsErr result → ⊥) }
        ensures usable { OnOk result (self.new.usable ≡ true) }
        ensures memory { IsErrOf result LogError.Memory → self.new ≡ self.old }
        ensures later { self.old.faults ≤ self.new.faults }
        ensures device { IsErrOf result LogError.Device → (self.new.usable ≡ false)
            × HasRisen self.old.faults self.new.faults }
        ensures ours { IsErrOf result LogError.Damaged → ⊥ }
    {
        let gate = self.gate;
        if added.is_empty() {
            return Ok(());
        }
        let Ok(bytes) = laid_out(alloc, added) else {
            return Err(LogError::Memory);
        };
        self.usable = false;
        put(&mut self.storage, gate, &bytes)?;
        self.gate = gate + (bytes.len() - 1);
        self.usable = true;
        Ok(())
    }

    /// Puts so many zeros behind the records, and syncs. A file that an append makes no longer is synced in about half
    /// of the time; and the zeros are written over. Where memory runs out nothing is done.
    pub fn make_room<B: Allocator>(&mut self, alloc: B, room: usize) -> Result<(), LogError>
        requires usable { self.old.usable ≡ true }
        // While it runs, a crash leaves the records.
        ensures any_moment { S.tells ≡ true → (rs : List PureRecord) → Tells rs self.old.file.now.text
            → Throughout (Tells rs) self.old.file self.new.file }
        // What a read gives, too, whatever is answered.
        ensures reads { S.tells ≡ true → (rs : List PureRecord) → Tells rs self.old.file.now.text
            → Tells rs self.new.file.now.text }
        // Behind the records and the gate after them stand so many bytes.
        ensures room { OnOk result (S.tells ≡ true → (rs : List PureRecord) → Tells rs self.old.file.now.text
            → length (chain rs) + room < length self.new.file.now.text) }
        // A step of the file's life, of which `records_stay` speaks.
        ensures step { S.tells ≡ true → Call Nothing self.old.file self.new.file }
        ensures usable { OnOk result (self.new.usable ≡ true) }
        ensures memory { IsErrOf result LogError.Memory → self.new ≡ self.old }
        ensures later { self.old.faults ≤ self.new.faults }
        ensures device { IsErrOf result LogError.Device → (self.new.usable ≡ false)
            × HasRisen self.old.faults self.new.faults }
        ensures ours { IsErrOf result LogError.Damaged → ⊥ }
    {
        let gate = self.gate;
        let zeros = Vec::from_elem(alloc, 0, room)?;
        let made = put_behind(&mut self.storage, gate, &zeros);
        self.usable = made.is_ok();
        Ok(made?)
    }

    /// How many bytes the records take, each with the gate before it. Of no meaning once the storage has failed.
    pub fn size(&self) -> usize
        ensures { self.now.usable ≡ true → S.tells ≡ true → (rs : List PureRecord) → Tells rs self.now.file.now.text
            → result ≡ length (chain rs) }
    {
        self.gate
    }

    /// Whether records can be added: not after the storage has failed.
    pub fn usable(&self) -> bool
        ensures { result ≡ self.now.usable }
    {
        self.usable
    }

    /// The storage, to be looked at.
    pub fn storage(&self) -> &S
        ensures file { S.history result.now ≡ self.now.file }
        ensures faults { S.fault_count result.now ≡ self.now.faults }
    {
        &self.storage
    }

    /// Hands the storage back.
    pub fn close(self) -> S
        ensures file { S.history result ≡ self.file }
        ensures faults { S.fault_count result ≡ self.faults }
        ensures step { Call Nothing self.file (S.history result) }
    {
        let RecordLog {
            storage,
            gate: _,
            usable: _,
        } = self;
        storage
    }
}
