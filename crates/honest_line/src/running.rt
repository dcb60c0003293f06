//! A program in whose every run all clients stand in one line.

ghost use Rattle.std.specs.Prelude.{IfOk};
ghost use Rattle.honest_line.specs.OneLine.{IsOneLine};

use client_runs::World;
use honest_runs::HonestStep;
use layout::Memory;
use std::alloc::Allocator;

/// Carries out steps of users' clients with one server and one store, one after another, as `honest_runs::honest_run`
/// does.
pub fn honest_run<A: Allocator + Copy>(
    alloc: A,
    steps: &[HonestStep<A>],
) -> Result<World<A>, Memory>
    ensures { IfOk result (λ world. IsOneLine steps.now world.answers.items) }
{
    honest_runs::honest_run(alloc, steps)
}
