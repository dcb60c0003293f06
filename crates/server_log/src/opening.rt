//! The order whose log a file is.

ghost use Rattle.std.specs.Prelude.{◌≡◌, ◌⊎◌, ◌≤◌, List, [], reverse, true, IfOk, IfErr, OnOk, IsErrOf};
ghost use Rattle.leaf_ledger.specs.Device.{at_rest, Leaves, Throughout, IsAtMostSynced, HasRisen};
ghost use Rattle.record_log.specs.Records.{Tells};
ghost use Rattle.consistency_server.specs.Answers.{Call as PureCall};
ghost use Rattle.consistency_server.specs.History.{log_of};
ghost use Rattle.server_log.specs.KeptLog.{records_of, beginning, IsLogOf, IsReason};

use crate::error::OpenError;
use crate::kind::BEGINNING;
use crate::reading::read_back;
use consistency_server::Ordered;
use lms_sign::PublicKey;
use record_log::{LogError, LogReader, Record, RecordLog};
use std::alloc::Allocator;
use storage::Storage;

/// The record with which a log begins.
fn beginning<A: Allocator>(alloc: A, pinned: &PublicKey) -> Result<Record<A>, LogError>
    ensures record { IfOk result (λ r. r ≡ beginning pinned.now) }
    ensures memory { IfErr result (λ e. e ≡ LogError.Memory) }
{
    let text = Vec::from_slice(alloc, pinned.as_bytes())?;
    let Some(first) = Record::new(BEGINNING, text) else {
        unreachable!();
    };
    Ok(first)
}

/// Gives a log without records its beginning.
fn begin<S: Storage, A: Allocator + Copy>(
    alloc: A,
    log: &mut RecordLog<S>,
    pinned: &PublicKey,
) -> Result<(), LogError>
    requires usable { log.old.usable ≡ true }
    requires at_rest { S.tells ≡ true → log.old.file.now ≡ at_rest log.old.file.now.text }
    requires empty { S.tells ≡ true → Tells [] log.old.file.now.text }
    ensures begun { OnOk result (S.tells ≡ true → Tells (records_of pinned.now []) log.new.file.now.text) }
    ensures usable { OnOk result (log.new.usable ≡ true) }
    ensures at_rest { OnOk result (S.tells ≡ true → log.new.file.now ≡ at_rest log.new.file.now.text) }
    ensures any_moment { S.tells ≡ true → Throughout (IsLogOf pinned.now []) log.old.file log.new.file }
    ensures reads { S.tells ≡ true → IsLogOf pinned.now [] log.new.file.now.text }
    ensures ours { IsErrOf result LogError.Damaged → ⊥ }
    ensures later { log.old.faults ≤ log.new.faults }
    ensures device { IsErrOf result LogError.Device → HasRisen log.old.faults log.new.faults }
{
    let mut first = Vec::new(alloc);
    first.push(beginning(alloc, pinned)?)?;
    log.append_all(alloc, &first)
}

/// Opens the log of a server that keeps its files, and answers the order whose log it is, beside the log, ready for
/// more. `pinned` is the key that every client knows, user 0's. A file that tells no records is given its beginning.
/// Each call's signature is verified. A refusal hands the storage back.
pub fn open_order<S: Storage, A: Allocator + Copy>(
    alloc: A,
    storage: S,
    pinned: PublicKey,
) -> Result<(Ordered<A>, RecordLog<S>), (OpenError, S)>
    ensures pinned { IfOk result (λ r. r.0.pinned ≡ pinned) }
    // Its history is what its log is, the newest first.
    ensures logged { IfOk result (λ r. log_of pinned r.0.history ≡ reverse r.0.history) }
    // The file was the log of this order, and tells it now,
    ensures was { IfOk result (λ r. S.tells ≡ true
        → IsLogOf pinned (log_of pinned r.0.history) (S.history storage).now.text) }
    ensures tells { IfOk result (λ r. S.tells ≡ true
        → Tells (records_of pinned (log_of pinned r.0.history)) r.1.file.now.text) }
    // and of no other calls.
    ensures only { IfOk result (λ r. S.tells ≡ true → (calls : List PureCall)
        → IsLogOf pinned calls (S.history storage).now.text → calls ≡ log_of pinned r.0.history) }
    ensures usable { IfOk result (λ r. r.1.usable ≡ true) }
    ensures at_rest { IfOk result (λ r. S.tells ≡ true → r.1.file.now ≡ at_rest r.1.file.now.text) }
    // While it runs a crash leaves the log of the same calls, where before it each did.
    ensures any_moment { IfOk result (λ r. S.tells ≡ true → (calls : List PureCall)
        → IsLogOf pinned calls (S.history storage).now.text → Leaves (IsLogOf pinned calls) (S.history storage).now
        → Throughout (IsLogOf pinned calls) (S.history storage) r.1.file) }
    ensures any_moment_err { IfErr result (λ e. S.tells ≡ true → (calls : List PureCall)
        → IsLogOf pinned calls (S.history storage).now.text → Leaves (IsLogOf pinned calls) (S.history storage).now
        → Throughout (IsLogOf pinned calls) (S.history storage) (S.history e.1)) }
    ensures reads_err { IfErr result (λ e. S.tells ≡ true → (calls : List PureCall)
        → IsLogOf pinned calls (S.history storage).now.text → IsLogOf pinned calls (S.history e.1).now.text) }
    // All that it does to a file that tells some record, or is damaged, is to sync it.
    ensures kept { IfOk result (λ r. S.tells ≡ true → (Tells [] (S.history storage).now.text → ⊥)
        → IsAtMostSynced (S.history storage) r.1.file) }
    ensures kept_err { IfErr result (λ e. S.tells ≡ true → (Tells [] (S.history storage).now.text → ⊥)
        → IsAtMostSynced (S.history storage) (S.history e.1)) }
    // What is wrong with a file that is refused,
    ensures reason { IfErr result (λ e. S.tells ≡ true → IsReason e.0 pinned (S.history storage).now.text) }
    // to which nothing else is done, but where a device fails or memory runs out when a beginning is written.
    ensures untouched { IfErr result (λ e. S.tells ≡ true → ((e.0 ≡ OpenError.Device) ⊎ (e.0 ≡ OpenError.Memory))
        ⊎ IsAtMostSynced (S.history storage) (S.history e.1)) }
    // The log of an order is refused only by a fault, or for want of memory.
    ensures ours { IfErr result (λ e. S.tells ≡ true → (history : List PureCall)
        → IsLogOf pinned (log_of pinned history) (S.history storage).now.text
        → (e.0 ≡ OpenError.Device) ⊎ (e.0 ≡ OpenError.Memory)) }
    ensures device { IfErr result (λ e. e.0 ≡ OpenError.Device
        → HasRisen (S.fault_count storage) (S.fault_count e.1)) }
    ensures later { IfOk result (λ r. S.fault_count storage ≤ r.1.faults) }
    ensures later_err { IfErr result (λ e. S.fault_count storage ≤ S.fault_count e.1) }
{
    let mut reader = match LogReader::new(storage) {
        Ok(reader) => reader,
        Err((_, storage)) => return Err((OpenError::Device, storage)),
    };
    match read_back(alloc, &mut reader, pinned) {
        Ok(Some(order)) => Ok((order, reader.into_log())),
        Ok(None) => {
            let mut log = reader.into_log();
            match begin(alloc, &mut log, &pinned) {
                Ok(()) => Ok((Ordered::genesis(alloc, pinned), log)),
                Err(e) => Err((OpenError::from(e), log.close())),
            }
        }
        Err(e) => Err((e, reader.close())),
    }
}
