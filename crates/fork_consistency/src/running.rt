//! A program whose every run is fork consistent.

ghost use Rattle.std.specs.Prelude.{IfOk};
ghost use Rattle.fork_consistency.specs.ForkConsistent.{IsForkConsistent};

use client_runs::{World, WorldStep};
use layout::Memory;
use std::alloc::Allocator;

/// Carries out steps of users' clients, one after another, as `client_runs::run` does: what the steps hand in as
/// replies, blocks and statuses may be anything.
pub fn run<A: Allocator + Copy>(alloc: A, steps: &[WorldStep<A>]) -> Result<World<A>, Memory>
    ensures { IfOk result (λ world. IsForkConsistent steps.now world.answers.items) }
{
    client_runs::run(alloc, steps)
}
