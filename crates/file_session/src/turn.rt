//! What comes of a reply or of a question, one block after another.

ghost use Rattle.std.specs.Prelude.{◌≡◌, IfOk, MatchOption, Ok};
ghost use Rattle.layout.specs.Types.{Digest as DigestBytes};
ghost use Rattle.client_tree.specs.declared.questions.Question.{Question as Asking};
ghost use Rattle.client_verify.specs.State.{State};
ghost use Rattle.client_steps.specs.Anywhere.{asked, on_ok, seen};
ghost use Rattle.file_session.specs.Order.{checking, looking};
ghost use Rattle.file_session.specs.Waits.{AsksFewer, AsksFewerAt, Awaits, AwaitsAt, AwaitsTurn, AwaitsTurnAt, IsTold};
ghost use Rattle.file_session.specs.Waits.{TurnsFewer, judging, questioning};
ghost use Rattle.client_verify.specs.declared.look.Look.TheVariants as look_kinds;
ghost use Rattle.client_verify.specs.declared.step.Step.TheVariants as step_kinds;
ghost use Rattle.file_session.specs.Waits.{IsSettled, IsSettledAt};

use crate::stop::Stop;
use client_verify::{ClientError, Look, Step};
use std::alloc::Allocator;

/// A block is asked for, by its digest, or nothing more is asked for.
#[derive(Drop)]
pub(crate) enum Turn<X> {
    /// This block is asked for.
    Asks([u8; 32]),
    /// This is what comes of it.
    Ends(X),
}

/// The block that a step asks for.
fn wanted<A: Allocator>(step: &Result<Step<A>, ClientError>) -> Option<[u8; 32]>
    ensures { MatchOption result (IsSettled step.now) (λ digest. step.now ≡ Ok (step_kinds.Need digest)) }
{
    match step {
        Ok(Step::Need(digest)) => Some(*digest.as_bytes()),
        _ => None,
    }
}

/// The block that a look asks for.
fn wanted_at<A: Allocator>(look: &Result<Look<A>, ClientError>) -> Option<[u8; 32]>
    ensures { MatchOption result (IsSettledAt look.now) (λ digest. look.now ≡ Ok (look_kinds.Need digest)) }
{
    match look {
        Ok(Look::Need(digest)) => Some(*digest.as_bytes()),
        _ => None,
    }
}

/// What a client asks for of a reply: a block, or that texts be stored.
pub(crate) fn turn_of_step<A: Allocator>(
    step: Result<Step<A>, ClientError>,
) -> Result<Turn<Vec<Vec<u8, A>, A>>, Stop>
    ensures next { checking (on_ok asked step) ≡ judging result }
    ensures awaits { (s : State) → IfOk step (λ x. Awaits x s) → IfOk result (λ turn. AwaitsTurn turn s) }
    ensures fewer { (old new : State) → IfOk step (λ x. AsksFewer x old new)
        → IfOk result (λ turn. TurnsFewer turn old new) }
{
    if let Some(digest) = wanted(&step) {
        return Ok(Turn::Asks(digest));
    }
    match step {
        Ok(Step::Store(texts)) => Ok(Turn::Ends(texts)),
        Ok(Step::Broken(rule)) => Err(Stop::Broken(rule)),
        Ok(Step::Need(_)) => unreachable!(),
        Err(error) => Err(Stop::Client(error)),
    }
}

/// What a client asks for of a question: a block, or nothing, since this is the answer.
pub(crate) fn turn_of_look<A: Allocator>(
    look: Result<Look<A>, ClientError>,
) -> Result<Turn<Look<A>>, Stop>
    ensures next { (q : Asking) → looking q (on_ok seen look) ≡ questioning q result }
    ensures awaits { (q : Asking) (s : State) → IfOk look (λ x. AwaitsAt q x s)
        → IfOk result (λ turn. AwaitsTurnAt q turn s) }
    ensures fewer { (old new : State) → IfOk look (λ x. AsksFewerAt x old new)
        → IfOk result (λ turn. TurnsFewer turn old new) }
    ensures told { IfOk result (λ turn. IsTold turn look) }
{
    if let Some(digest) = wanted_at(&look) {
        return Ok(Turn::Asks(digest));
    }
    match look {
        Ok(Look::Broken(rule)) => Err(Stop::Broken(rule)),
        Ok(told) => Ok(Turn::Ends(told)),
        Err(error) => Err(Stop::Client(error)),
    }
}
