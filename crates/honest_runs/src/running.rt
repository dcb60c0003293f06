//! A program whose every run is an honest run.

ghost use Rattle.std.specs.Prelude.{[], IfOk, OnOk};
ghost use Rattle.honest_runs.specs.Served.{AreServed};
ghost use Rattle.honest_runs.specs.Town.{AreNoted, StandsSoFar};

use crate::step::HonestStep;
use crate::town::Town;
use client_runs::{Answer, World};
use layout::{Memory, beside, let_go};
use std::alloc::Allocator;

/// Carries out steps, the first of which is the first that there is, and gives the answer of each.
fn carry_out_all<A: Allocator + Copy>(
    town: &mut Town<A>,
    answers: &mut Vec<Answer<A>, A>,
    steps: &[HonestStep<A>],
) -> Result<(), Memory>
    requires noted { AreNoted town.old.clients town.old.wanted.items }
    requires begins { StandsSoFar [] answers.old.items town.old }
    ensures { OnOk result (StandsSoFar steps.now answers.new.items town.new) }
{
    for step in steps {
        let answer = town.carry_out(step)?;
        answers.push(answer)?;
    }
    Ok(())
}

/// Carries out steps of users' clients, one after another, with one server, whose log takes 1,024 calls, and one store
/// of blocks.
///
/// The clients are those of `client_runs::run`. What a client hands out to be stored is stored at once, so before it
/// signs.
pub fn honest_run<A: Allocator + Copy>(
    alloc: A,
    steps: &[HonestStep<A>],
) -> Result<World<A>, Memory>
    ensures { IfOk result (λ world. AreServed steps.now world.answers.items) }
{
    let mut town = Town::new(alloc)?;
    let mut answers = Vec::new(alloc);
    let carried_out = carry_out_all(&mut town, &mut answers, steps);
    let_go(town);
    let (answers, _) = beside(answers, carried_out)?;
    Ok(World { answers })
}
