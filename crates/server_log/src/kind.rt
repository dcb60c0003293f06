//! The kinds of the records of a log.

ghost use Rattle.std.specs.Prelude.{◌≡◌, ◌≢◌, ◌≤◌, ◌^◌, IfSome, IfNone, length};
ghost use Rattle.consistency_server.specs.declared.call.CallKind.{CallKind as PureKind};
ghost use Rattle.consistency_server.specs.History.{call_of};
ghost use Rattle.server_log.specs.KeptLog.{number_of, record_of};

use consistency_server::CallKind;
use record_log::Record;
use std::alloc::Allocator;

/// The kind of the first record: its text is the key under which the calls of the log were made.
pub(crate) const BEGINNING: u8 = 3;

/// The number of a kind of calls.
fn number_of(kind: CallKind) -> u8
    ensures { result ≡ number_of kind }
{
    match kind {
        CallKind::Update => 1,
        CallKind::Commit => 2,
    }
}

/// The kind of calls with this number.
pub(crate) fn kind_of(number: u8) -> Option<CallKind>
    ensures some { IfSome result (λ kind. number_of kind ≡ number) }
    ensures none { IfNone result ((kind : PureKind) → number_of kind ≢ number) }
{
    match number {
        1 => Some(CallKind::Update),
        2 => Some(CallKind::Commit),
        _ => None,
    }
}

/// The record of a call that placed or committed, unless its text is too long.
pub fn record_of<A: Allocator>(kind: CallKind, text: Vec<u8, A>) -> Option<Record<A>>
    ensures some { IfSome result (λ r. r ≡ record_of (call_of kind text.items)) }
    ensures none { IfNone result (2 ^ 32 ≤ length text.items) }
{
    Record::new(number_of(kind), text)
}
