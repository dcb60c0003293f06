//! Journals.

ghost use Rattle.std.specs.Prelude.{◌≡◌, ◌≢◌, ◌≤◌, List, [], ◌∷◌, ◌++◌, true, false, IfOk, IfErr, OnOk, OnErr, IsErrOf};
ghost use Rattle.layout.specs.Types.{Bytes};
ghost use Rattle.leaf_ledger.specs.Device.{at_rest, written, Leaves, Throughout, HasRisen};
ghost use Rattle.client_journal.specs.Told.{state_of_held};
ghost use Rattle.client_journal.specs.Records.{Record as PureRecord, Idle, closed_gate, chain, Tells, TellsState};
ghost use Rattle.client_journal.specs.Records.{TellsWithOrWithout, IsShort, IsNew, IsDamaged, MayCome, MayBeLeft};
ghost use Rattle.client_journal.specs.Records.{KeepsJournal};
ghost use Rattle.client_journal.specs.Life.{Nothing, Call, addition_of};

use crate::chain::{End, OPEN, find_end};
use crate::error::JournalError;
use crate::kind::Kind;
use crate::record::{HEADER_SIZE, Record};
use crate::staging::stage;
use crate::state::{JournalState, read_state};
use layout::Memory;
use leaf_ledger::{Device, Extent, write_through};
use std::alloc::Allocator;
use std::marker::Model;

/// A user's signed texts in a file: each is there, whatever crash comes, before it is handed out.
///
/// A user has one journal. One that is dropped loses its device: its records stay.
#[derive(Drop)]
pub struct Journal<D: Device> {
    device: D,
    end: End,
    usable: bool,
}

impl<D: Device> Model for Journal<D> {
    ghost use Rattle.std.specs.Prelude.{◌≡◌, true};
    ghost use Rattle.client_journal.specs.Records.{JournalFile};
    ghost use Rattle.client_journal.specs.Places.{IsReady};

    ghost Value = { JournalFile };

    ghost view = { λ j. record { file = D.history j.device; faults = D.fault_count j.device; usable = j.usable } };

    ghost invariant = { λ j. j.usable ≡ true → IsReady (D.history j.device).now j.end.gate j.end.phase };
}

impl<D: Device> Journal<D> {
    /// Opens the journal of a file, which is made where it has at most one byte. A refusal hands the device back.
    pub fn open(device: D) -> Result<Journal<D>, (JournalError, D)>
        ensures usable { IfOk result (λ journal. journal.usable ≡ true) }
        ensures at_rest { IfOk result (λ journal. journal.file.now ≡ at_rest journal.file.now.text) }
        // The file told these records, and tells them still.
        ensures records { IfOk result (λ journal. (rs : List PureRecord)
            × Tells rs (D.history device).now.text × Tells rs journal.file.now.text) }
        ensures damaged { IfErr result (λ e. e.0 ≡ JournalError.Damaged → IsDamaged (D.history device).now.text) }
        // All that it does to a file of more than one byte is to sync it, before it reads.
        ensures kept { IfOk result (λ journal. KeepsJournal (D.history device) journal.file) }
        ensures kept_err { IfErr result (λ e. KeepsJournal (D.history device) (D.history e.1)) }
        // Of a file of at most one byte it makes a journal whose gate is closed.
        ensures new { IfOk result (λ journal. IsNew (D.history device).now.text
            → journal.file.now.text ≡ closed_gate ∷ []) }
        ensures new_err { IfErr result (λ e. IsNew (D.history device).now.text → IsNew (D.history e.1).now.text) }
        ensures left { IfOk result (λ journal.
            Throughout (MayBeLeft (D.history device)) (D.history device) journal.file) }
        ensures left_err { IfErr result (λ e.
            Throughout (MayBeLeft (D.history device)) (D.history device) (D.history e.1)) }
        // So where each crash before it left what tells these records, each crash while it runs does.
        ensures any_moment { IfOk result (λ journal. (rs : List PureRecord) → Tells rs (D.history device).now.text
            → Leaves (Tells rs) (D.history device).now → Throughout (Tells rs) (D.history device) journal.file) }
        ensures any_moment_err { IfErr result (λ e. (rs : List PureRecord) → Tells rs (D.history device).now.text
            → Leaves (Tells rs) (D.history device).now → Throughout (Tells rs) (D.history device) (D.history e.1)) }
        // A step of the file's life, of which `records_stay` speaks.
        ensures step { IfOk result (λ journal. Call Nothing (D.history device) journal.file) }
        ensures step_err { IfErr result (λ e. Call Nothing (D.history device) (D.history e.1)) }
        ensures no_memory { IfErr result (λ e. e.0 ≢ JournalError.Memory) }
        ensures device { IfErr result (λ e. e.0 ≡ JournalError.Device
            → HasRisen (D.fault_count device) (D.fault_count e.1)) }
        ensures later { IfOk result (λ journal. D.fault_count device ≤ journal.faults) }
        ensures later_err { IfErr result (λ e. D.fault_count device ≤ D.fault_count e.1) }
    {
        let mut device = device;
        match find_end(&mut device) {
            Ok(end) => Ok(Journal {
                device,
                end,
                usable: true,
            }),
            Err(e) => Err((e, device)),
        }
    }

    /// Makes room for a record with a text of so many bytes, so that its `append` takes no memory.
    pub fn reserve(&mut self, text_size: usize) -> Result<(), Memory>
        ensures { self.new ≡ self.old }
    {
        self.device
            .reserve(text_size.saturating_add(HEADER_SIZE + 1))?;
        Ok(())
    }

    /// Adds a record. From Ok on it is there, whatever crash comes. It takes no memory where room was made for it.
    pub fn append(&mut self, added: Record<'_>) -> Result<(), JournalError>
        requires usable { self.old.usable ≡ true }
        requires turn { MayCome added self.old.file.now.text }
        requires short { IsShort added }
        // While it runs, a crash leaves the records before, with the new one or without.
        ensures any_moment { (rs : List PureRecord) → Tells rs self.old.file.now.text
            → Throughout (TellsWithOrWithout rs added.entry) self.old.file self.new.file }
        ensures appended { OnOk result ((rs : List PureRecord) → Tells rs self.old.file.now.text
            → Tells (rs ++ added.entry ∷ []) self.new.file.now.text) }
        // From its beginning on the file has these records and a closed gate, over what stood there.
        ensures file { OnOk result ((rs : List PureRecord) → Tells rs self.old.file.now.text → self.new.file.now.text
            ≡ written 0 (chain (rs ++ added.entry ∷ []) ++ closed_gate ∷ []) self.old.file.now.text) }
        ensures at_rest { OnOk result (self.new.file.now ≡ at_rest self.new.file.now.text) }
        // What a read gives, too, whatever is answered.
        ensures reads { (rs : List PureRecord) → Tells rs self.old.file.now.text
            → TellsWithOrWithout rs added.entry self.new.file.now.text }
        // A step of the file's life, of which `records_stay` speaks.
        ensures step { Call (addition_of added.entry result) self.old.file self.new.file }
        ensures usable { OnOk result (self.new.usable ≡ true) }
        ensures usable_err { OnErr result (self.new.usable ≡ false) }
        ensures ours { OnErr result (IsErrOf result JournalError.Device) }
        ensures later { self.old.faults ≤ self.new.faults }
        ensures device { IsErrOf result JournalError.Device → HasRisen self.old.faults self.new.faults }
    {
        let End { gate, phase } = self.end;
        let text = Extent {
            at: gate + 1 + HEADER_SIZE,
            size: added.text.len(),
        };
        let phase = phase.after(added.kind, text);
        self.usable = false;
        stage(&mut self.device, gate + 1, &added)?;
        write_through(&mut self.device, gate, &[OPEN])?;
        self.end = End {
            gate: text.at + text.size,
            phase,
        };
        self.usable = true;
        Ok(())
    }

    /// What the records tell.
    pub fn state<A: Allocator + Copy>(&mut self, alloc: A) -> Result<JournalState<A>, JournalError>
        requires { self.old.usable ≡ true }
        ensures state { IfOk result (λ state. TellsState (state_of_held state) self.old.file.now.text) }
        ensures same { self.new.file ≡ self.old.file }
        ensures step { Call Nothing self.old.file self.new.file }
        ensures usable { OnOk result (self.new.usable ≡ true) }
        ensures memory { IsErrOf result JournalError.Memory → self.new.usable ≡ true }
        // Where there is no record nothing grows.
        ensures idle { IsErrOf result JournalError.Memory → TellsState Idle self.old.file.now.text → ⊥ }
        ensures ours { IsErrOf result JournalError.Damaged → ⊥ }
        ensures later { self.old.faults ≤ self.new.faults }
        ensures device { IsErrOf result JournalError.Device → (self.new.usable ≡ false)
            × HasRisen self.old.faults self.new.faults }
    {
        match read_state(alloc, &mut self.device, self.end.phase) {
            Ok(state) => Ok(state),
            Err(JournalError::Device) => {
                self.usable = false;
                Err(JournalError::Device)
            }
            Err(error) => Err(error),
        }
    }

    /// A kind of which a record may come next, whatever its text is.
    pub fn next(&self) -> Kind
        requires { self.now.usable ≡ true }
        ensures { (text : Bytes) → MayCome (record { kind = result; text = text }) self.now.file.now.text }
    {
        self.end.phase.next()
    }

    /// Whether records can be added: not after the device has failed.
    pub fn usable(&self) -> bool
        ensures { result ≡ self.now.usable }
    {
        self.usable
    }

    /// The device, to be looked at.
    pub fn device(&self) -> &D
        ensures file { D.history result.now ≡ self.now.file }
        ensures faults { D.fault_count result.now ≡ self.now.faults }
    {
        &self.device
    }

    /// Hands the device back.
    pub fn close(self) -> D
        ensures file { D.history result ≡ self.file }
        ensures faults { D.fault_count result ≡ self.faults }
        ensures step { Call Nothing self.file (D.history result) }
    {
        let Journal {
            device,
            end: _,
            usable: _,
        } = self;
        device
    }
}
