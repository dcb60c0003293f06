//! What users' clients, the server and the store are told to do, one step after another.

use client_runs::Act;
use layout::User;
use std::alloc::Allocator;

/// What becomes of the server's answer.
#[derive(Clone, Copy, Debug, PartialEq, Eq)]
pub enum Delivery {
    /// It is lost on the way.
    Lost,
    /// It is handed in to the client: a reply, or the status of a structure.
    Arrives,
}

/// What happens in a step.
#[derive(Drop)]
pub enum HonestAct<A: Allocator> {
    /// The client does this alone. What would hand something in, a reply, a block or a status, is never taken; nor is
    /// signing a certificate once more, unless the server declined it for its signature when it was sent last. What is
    /// laid out for an operation is put into the store before the client is told to begin it.
    Alone(Act<A>),
    /// The client sends the certificate that it has declared, and this becomes of the answer. It isn't taken while none
    /// is declared.
    Update(Delivery),
    /// The reply under check is handed the block that it asks for, as the store has it.
    Block,
    /// The client sends the structure that it has signed, and this becomes of the answer. It isn't taken while none is
    /// signed.
    Commit(Delivery),
    /// The look under way is handed the block that it asks for, as the store has it.
    Give,
    /// What the server answered in an earlier step, the first of which is step 0, arrives now: late, or again. It isn't
    /// taken where no call was made in that step, or one with another text than the client would send now.
    Late(usize),
}

/// A step of a user's client, with the server and the store.
#[derive(Drop)]
pub struct HonestStep<A: Allocator> {
    /// Whose client it is.
    pub user: User,
    /// What happens.
    pub act: HonestAct<A>,
    /// How many calls of the ledgers' devices go well in this step before one fails, if one is to fail. No clause says
    /// that it fails then, nor that no other does: tests show it.
    pub ledger_fails: Option<u64>,
    /// And of the journal's.
    pub journal_fails: Option<u64>,
}
