//! The calls so far, of which only the number is kept: a snapshot has no bytes.

ghost use Rattle.std.specs.Prelude.{◌≡◌, ◌∷◌, OnOk, OnErr, drop};
ghost use Rattle.consistency_server.specs.History.{calls_of};

use crate::call::Call;
use layout::Memory;
use std::alloc::Allocator;
use std::snapshot::Snapshot;

/// Calls, the oldest first. Contracts see each; what is kept is how many they are.
pub(crate) type Past<A> = Vec<Snapshot<Call<A>>, A>;

/// The call comes after the others. Memory only where no `usize` tells how many they are then.
pub(crate) fn add<A: Allocator>(past: &mut Past<A>, call: &Call<A>) -> Result<(), Memory>
    ensures ok { OnOk result (calls_of past.new ≡ call.now ∷ calls_of past.old) }
    ensures err { OnErr result (calls_of past.new ≡ calls_of past.old) }
{
    past.reserve(1)?;
    past.push_reserved(Snapshot::of(call));
    Ok(())
}

/// The newest one is none of them any more.
pub(crate) fn take_back<A: Allocator>(past: &mut Past<A>)
    ensures { calls_of past.new ≡ drop 1 (calls_of past.old) }
{
    let _ = past.pop();
}
