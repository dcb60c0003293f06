//! Calls of a log, carried out again.

ghost use Rattle.std.specs.Prelude.{◌≡◌, [], ◌∷◌, OnOk, IsErrOf};
ghost use Rattle.consistency_server.specs.History.{call_of, logged, is_carried_out};

use crate::error::ReplayError;
use crate::told::Told;
use consistency_server::{CallKind, Ordered};
use std::alloc::Allocator;
use wire::Status;

/// A call of this answer was carried out: memory didn't run out.
fn is_carried_out(status: Status) -> bool
    ensures { result ≡ is_carried_out status }
{
    !matches!(status, Status::Busy | Status::Memory)
}

/// Carries out the next call of a log, over the order that the calls before it made. Its signature is verified.
pub fn replay_call<A: Allocator + Copy>(
    alloc: A,
    order: &mut Ordered<A>,
    kind: CallKind,
    text: &[u8],
) -> Result<(), ReplayError>
    ensures history { OnOk result
        (order.new ≡ record order.old { history = call_of kind text.now ∷ order.old.history }) }
    // It goes to the log again.
    ensures logged { OnOk result (logged order.old (call_of kind text.now) ≡ call_of kind text.now ∷ []) }
    // None of a log does otherwise (`log_replays`). It stands among the calls that the order answered.
    ensures foreign { IsErrOf result ReplayError.Foreign → logged order.old (call_of kind text.now) ≡ [] }
    ensures refused { IsErrOf result ReplayError.Foreign
        → order.new ≡ record order.old { history = call_of kind text.now ∷ order.old.history } }
    ensures memory { IsErrOf result ReplayError.Memory → order.new ≡ order.old }
{
    let mut told = Told::new(alloc);
    let answer = order.answer(&mut told, kind, text, None);
    if !is_carried_out(answer.status()) {
        return Err(ReplayError::Memory);
    }
    if told.is_empty() {
        return Err(ReplayError::Foreign);
    }
    Ok(())
}
