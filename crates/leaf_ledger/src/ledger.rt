//! Ledgers.

ghost use Rattle.std.specs.Prelude.{◌≡◌, ◌≢◌, ◌+◌, ◌-◌, ◌≤◌, true, false, IfErr, IfNone, IfOk, IfSome, OnOk, OnErr};
ghost use Rattle.std.specs.Prelude.{IsErrOf, None};
ghost use Rattle.leaf_ledger.specs.Device.{at_rest, Throughout, HasRisen};
ghost use Rattle.leaf_ledger.specs.Ledger.{LeafNumber, with_mark, UsedWith, UsedWithOrWithout, UsedAsBefore};
ghost use Rattle.leaf_ledger.specs.Ledger.{IsLeastFree, IsFull, IsFileOf, IsForeign, KeepsLedger, free_leaves};
ghost use Rattle.leaf_ledger.specs.Life.{Call, handed_by};

use crate::device::{Device, write_through};
use crate::error::LedgerError;
use crate::load::load;
use crate::marks::{count_free, first_free};
use lms_sign::{Leaf, PublicKey, SpentLeaf};
use std::marker::Model;

/// Where the marks stand in the file.
pub(crate) const MARKS_AT: usize = 56;

/// The mark of a leaf that is used.
const USED: u8 = 1;

/// The leaves of a public key, those that are used marked on a device.
///
/// A key has one ledger file: who opens two for a key hands out leaves twice. A ledger that is dropped loses its
/// device: what it marked stays marked.
#[derive(Drop)]
pub struct Ledger<D: Device> {
    device: D,
    key: PublicKey,
    marks: [u8; 1024],
    // No leaf before it is free.
    next: usize,
    outstanding: u32,
    usable: bool,
}

impl<D: Device> Model for Ledger<D> {
    ghost use Rattle.std.specs.Prelude.{◌≡◌, ◌++◌, true};
    ghost use Rattle.leaf_ledger.specs.Device.{at_rest};
    ghost use Rattle.leaf_ledger.specs.Ledger.{LedgerState, IsLedger};

    ghost Value = { LedgerState };

    ghost view = { λ l. record {
      key = l.key;
      file = D.history l.device;
      faults = D.fault_count l.device;
      outstanding = l.outstanding;
      usable = l.usable;
    } };

    ghost invariant = { λ l. IsLedger l.key l.marks l.next l.outstanding
        (l.usable ≡ true → (D.history l.device).now ≡ at_rest (l.key ++ l.marks)) };
}

impl<D: Device> Ledger<D> {
    /// Opens the ledger of a key, whose file is made where it has no bytes. A refusal hands the device back.
    pub fn open(device: D, key: &PublicKey) -> Result<Ledger<D>, (LedgerError, D)>
        ensures key { IfOk result (λ ledger. ledger.key ≡ key.now) }
        ensures usable { IfOk result (λ ledger. ledger.usable ≡ true) }
        ensures none_outstanding { IfOk result (λ ledger. ledger.outstanding ≡ 0) }
        ensures at_rest { IfOk result (λ ledger. ledger.file.now ≡ at_rest ledger.file.now.text) }
        ensures file { IfOk result (λ ledger. IsFileOf key.now ledger.file.now.text) }
        // A file that is there keeps its used leaves, and a new one has none.
        ensures used { IfOk result (λ ledger. UsedAsBefore (D.history device).now.text ledger.file.now.text) }
        // All that it does to a file that is there is to sync it.
        ensures kept { IfOk result (λ ledger. KeepsLedger (D.history device) ledger.file) }
        ensures kept_err { IfErr result (λ e. KeepsLedger (D.history device) (D.history e.1)) }
        // A step of the file's life, of which `no_leaf_twice` speaks.
        ensures step { IfOk result (λ ledger. Call None (D.history device) ledger.file) }
        ensures step_err { IfErr result (λ e. Call None (D.history device) (D.history e.1)) }
        ensures foreign { IfErr result (λ e. e.0 ≡ LedgerError.Foreign
            → IsForeign key.now (D.history device).now.text) }
        ensures own { IfOk result (λ _. IsForeign key.now (D.history device).now.text → ⊥) }
        ensures no_leaf { IfErr result (λ e. e.0 ≢ LedgerError.NoLeaf) }
        ensures device { IfErr result (λ e. e.0 ≡ LedgerError.Device
            → HasRisen (D.fault_count device) (D.fault_count e.1)) }
        ensures later { IfOk result (λ ledger. D.fault_count device ≤ ledger.faults) }
        ensures later_err { IfErr result (λ e. D.fault_count device ≤ D.fault_count e.1) }
    {
        let mut device = device;
        match load(&mut device, key.as_bytes()) {
            Ok(marks) => Ok(Ledger {
                device,
                key: *key,
                marks,
                next: 0,
                outstanding: 0,
                usable: true,
            }),
            Err(e) => Err((e, device)),
        }
    }

    /// Hands out the least leaf that isn't used. From then on it is used, whatever crash comes. It takes no memory.
    pub fn take(&mut self) -> Result<Leaf, LedgerError>
        requires { self.old.usable ≡ true }
        ensures leaf { IfOk result (λ leaf. IsLeastFree self.old.file.now.text leaf.number) }
        ensures key { IfOk result (λ leaf. leaf.key ≡ self.old.key) }
        // The file has its mark, and else is as it was; a crash leaves just this.
        ensures marked { IfOk result (λ leaf. self.new.file.now
            ≡ at_rest (with_mark leaf.number self.old.file.now.text)) }
        ensures used { IfOk result (λ leaf. UsedWith leaf.number self.old.file.now.text self.new.file.now.text) }
        // While it runs, a crash leaves the leaves used as before or with the new one.
        ensures any_moment { (leaf : LeafNumber) → IsLeastFree self.old.file.now.text leaf
            → Throughout (UsedWithOrWithout leaf self.old.file.now.text) self.old.file self.new.file }
        // And all the while it leaves a file of this key.
        ensures own_file { Throughout (IsFileOf self.old.key) self.old.file self.new.file }
        // Where the device fails, a read gives the leaves used as before or with the new one, too.
        ensures reads { OnErr result ((leaf : LeafNumber) → IsLeastFree self.old.file.now.text leaf
            → UsedWithOrWithout leaf self.old.file.now.text self.new.file.now.text) }
        ensures reads_own { IsFileOf self.old.key self.new.file.now.text }
        // A step of the file's life, of which `no_leaf_twice` speaks.
        ensures step { Call (handed_by result) self.old.file self.new.file }
        ensures no_leaf { IsErrOf result LedgerError.NoLeaf → IsFull self.old.file.now.text × (self.new ≡ self.old) }
        ensures full { IsFull self.old.file.now.text → IsErrOf result LedgerError.NoLeaf }
        ensures device { IsErrOf result LedgerError.Device → (self.new.usable ≡ false)
            × HasRisen self.old.faults self.new.faults }
        ensures later { self.old.faults ≤ self.new.faults }
        ensures ours { IsErrOf result LedgerError.Foreign → ⊥ }
        ensures usable { OnOk result (self.new.usable ≡ true) }
        ensures outstanding { OnOk result (self.new.outstanding ≡ self.old.outstanding + 1) }
        ensures outstanding_err { OnErr result (self.new.outstanding ≡ self.old.outstanding) }
        ensures same_key { self.new.key ≡ self.old.key }
    {
        let Some(number) = first_free(&self.marks, self.next) else {
            return Err(LedgerError::NoLeaf);
        };
        if let Err(_) = write_through(&mut self.device, MARKS_AT + number, &[USED]) {
            self.usable = false;
            return Err(LedgerError::Device);
        }
        self.marks[number] = USED;
        self.next = number + 1;
        self.outstanding += 1;
        Ok(Leaf::issue(&self.key, number as u32))
    }

    /// The least leaf that isn't used, which `take` hands out: where there is one, `take` fails by its device alone.
    pub fn next_free(&self) -> Option<u32>
        requires { self.now.usable ≡ true }
        ensures least { IfSome result (λ leaf. IsLeastFree self.now.file.now.text leaf) }
        ensures none { IfNone result (IsFull self.now.file.now.text) }
    {
        match first_free(&self.marks, self.next) {
            Some(number) => Some(number as u32),
            None => None,
        }
    }

    /// How many leaves aren't used.
    pub fn free_leaves(&self) -> u32
        requires { self.now.usable ≡ true }
        ensures { result ≡ free_leaves self.now.file.now.text }
    {
        count_free(&self.marks) as u32
    }

    /// Takes a spent leaf back. It takes no memory.
    pub fn settle(&mut self, spent: SpentLeaf)
        requires { self.old.outstanding ≢ 0 }
        ensures settled { self.new ≡ record self.old { outstanding = self.old.outstanding - 1 } }
        ensures step { Call None self.old.file self.new.file }
    {
        spent.end();
        self.outstanding -= 1;
    }

    /// How many leaves were handed out and aren't settled.
    pub fn outstanding(&self) -> u32
        ensures { result ≡ self.now.outstanding }
    {
        self.outstanding
    }

    /// Whether leaves can be taken: not after the device has failed.
    pub fn usable(&self) -> bool
        ensures { result ≡ self.now.usable }
    {
        self.usable
    }

    /// The device, to be looked at.
    pub fn device(&self) -> &D
        ensures file { D.history result.now ≡ self.now.file }
        ensures faults { D.fault_count result.now ≡ self.now.faults }
    {
        &self.device
    }

    /// Hands the device back.
    pub fn close(self) -> D
        requires { self.outstanding ≡ 0 }
        ensures file { D.history result ≡ self.file }
        ensures faults { D.fault_count result ≡ self.faults }
        ensures step { Call None self.file (D.history result) }
    {
        let Ledger {
            device,
            key: _,
            marks: _,
            next: _,
            outstanding: _,
            usable: _,
        } = self;
        device
    }
}
