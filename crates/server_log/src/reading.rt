//! A log, read back.

ghost use Rattle.std.specs.Prelude.{◌≡◌, ◌⊎◌, ◌<◌, ◌≤◌, [], reverse, true, false, Ok, IfOk, IfErr, IfSome, OnOk};
ghost use Rattle.std.specs.Prelude.{OnErr, IfNone, IsErrOf};
ghost use Rattle.leaf_ledger.specs.Device.{HasRisen};
ghost use Rattle.record_log.specs.Records.{Tells, HasRead};
ghost use Rattle.server_log.specs.KeptLog.{beginning, records_of, IsReason};
ghost use Rattle.server_log.specs.Reading.{AllLogged, IsReadBack};

use crate::error::OpenError;
use crate::kind::{BEGINNING, kind_of};
use crate::replay::replay_call;
use consistency_server::Ordered;
use lms_sign::PublicKey;
use record_log::{LogReader, Record};
use std::alloc::Allocator;
use storage::Storage;

/// The first record says that the calls were made under this key.
fn check_beginning<A: Allocator>(first: &Record<A>, pinned: &PublicKey) -> Result<(), OpenError>
    ensures ok { OnOk result (first.now ≡ beginning pinned.now) }
    ensures other { IsErrOf result OpenError.OtherKey
        → (first.now ≡ beginning first.now.text) × (first.now.text ≡ pinned.now → ⊥) }
    ensures none { IsErrOf result OpenError.NoBeginning → first.now.kind ≡ BEGINNING → ⊥ }
    ensures only { IfErr result (λ e. (e ≡ OpenError.OtherKey) ⊎ (e ≡ OpenError.NoBeginning)) }
{
    if first.kind() != BEGINNING {
        return Err(OpenError::NoBeginning);
    }
    if first.text() != pinned.as_bytes().as_slice() {
        return Err(OpenError::OtherKey);
    }
    Ok(())
}

/// Reads the first record, and makes the order before the first call. None where there is no record.
fn read_beginning<S: Storage, A: Allocator + Copy>(
    alloc: A,
    reader: &mut LogReader<S>,
    pinned: PublicKey,
) -> Result<Option<Ordered<A>>, OpenError>
    ensures some { IfOk result (λ found. IfSome found
        (λ order. order ≡ record { pinned = pinned; history = [] })) }
    ensures read { IfOk result (λ found. IfSome found (λ order. S.tells ≡ true → HasRead [] reader.old
        → IsReadBack order reader.new)) }
    ensures none { IfOk result (λ found. IfNone found (S.tells ≡ true → HasRead [] reader.old
        → Tells [] reader.old.file.now.text)) }
    ensures ended { IfOk result (λ found. IfNone found (reader.new.ended ≡ true)) }
    ensures inside { reader.new.place < reader.new.size }
    ensures size { reader.new.size ≡ reader.old.size }
    ensures file { reader.new.file ≡ reader.old.file }
    ensures reason { IfErr result (λ e. S.tells ≡ true → HasRead [] reader.old
        → IsReason e pinned reader.old.file.now.text) }
    ensures more { OnErr result (reader.old.ended ≡ false) }
    ensures more_some { IfOk result (λ found. IfSome found (λ _. reader.old.ended ≡ false)) }
    ensures later { reader.old.faults ≤ reader.new.faults }
    ensures device { IsErrOf result OpenError.Device → HasRisen reader.old.faults reader.new.faults }
{
    let Some(first) = reader.next(alloc)? else {
        return Ok(None);
    };
    check_beginning(&first, &pinned)?;
    Ok(Some(Ordered::genesis(alloc, pinned)))
}

/// Reads the next record, and carries its call out. False where there is no more.
fn replay_next<S: Storage, A: Allocator + Copy>(
    alloc: A,
    reader: &mut LogReader<S>,
    order: &mut Ordered<A>,
) -> Result<bool, OpenError>
    requires { AllLogged order.old }
    ensures pinned { order.new.pinned ≡ order.old.pinned }
    ensures logged { OnOk result (AllLogged order.new) }
    ensures read { result ≡ Ok true → S.tells ≡ true → IsReadBack order.old reader.old
        → IsReadBack order.new reader.new }
    ensures ended { result ≡ Ok false → (order.new ≡ order.old) × (reader.new.ended ≡ true) }
    ensures all { result ≡ Ok false → S.tells ≡ true → IsReadBack order.old reader.old
        → Tells (records_of order.old.pinned (reverse order.old.history)) reader.old.file.now.text }
    ensures further { result ≡ Ok true → reader.old.place < reader.new.place }
    ensures inside { reader.new.place < reader.new.size }
    ensures size { reader.new.size ≡ reader.old.size }
    ensures file { reader.new.file ≡ reader.old.file }
    ensures reason { IfErr result (λ e. S.tells ≡ true → IsReadBack order.old reader.old
        → IsReason e order.old.pinned reader.old.file.now.text) }
    ensures later { reader.old.faults ≤ reader.new.faults }
    ensures device { IsErrOf result OpenError.Device → HasRisen reader.old.faults reader.new.faults }
{
    let Some(next) = reader.next(alloc)? else {
        return Ok(false);
    };
    let Some(kind) = kind_of(next.kind()) else {
        return Err(OpenError::NoCall);
    };
    replay_call(alloc, order, kind, next.text())?;
    Ok(true)
}

/// Reads all records of a log, and makes the order whose log they are. None where there is no record.
pub(crate) fn read_back<S: Storage, A: Allocator + Copy>(
    alloc: A,
    reader: &mut LogReader<S>,
    pinned: PublicKey,
) -> Result<Option<Ordered<A>>, OpenError>
    ensures pinned { IfOk result (λ found. IfSome found (λ order. order.pinned ≡ pinned)) }
    ensures logged { IfOk result (λ found. IfSome found (λ order. AllLogged order)) }
    ensures some { IfOk result (λ found. IfSome found (λ order. S.tells ≡ true → HasRead [] reader.old
        → Tells (records_of pinned (reverse order.history)) reader.old.file.now.text)) }
    ensures none { IfOk result (λ found. IfNone found (S.tells ≡ true → HasRead [] reader.old
        → Tells [] reader.old.file.now.text)) }
    ensures ended { OnOk result (reader.new.ended ≡ true) }
    ensures file { reader.new.file ≡ reader.old.file }
    ensures reason { IfErr result (λ e. S.tells ≡ true → HasRead [] reader.old
        → IsReason e pinned reader.old.file.now.text) }
    ensures more { OnErr result (reader.old.ended ≡ false) }
    ensures later { reader.old.faults ≤ reader.new.faults }
    ensures device { IsErrOf result OpenError.Device → HasRisen reader.old.faults reader.new.faults }
{
    let Some(mut order) = read_beginning(alloc, reader, pinned)? else {
        return Ok(None);
    };
    while replay_next(alloc, reader, &mut order)? {}
    Ok(Some(order))
}
