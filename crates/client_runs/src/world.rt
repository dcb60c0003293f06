//! What users' clients are told to do, one step after another, and what they answer.

use client_verify::{ClientError, Look, Phase, Step};
use layout::{INumber, Principal, User};
use pending_list::Signed;
use principals::Table;
use std::alloc::Allocator;
use update_cert::Change;
use version_order::Structure;
use wire::Status;

/// What a user's client is told to do.
#[derive(Drop)]
pub enum Act<A: Allocator> {
    /// It opens over its devices.
    Open,
    /// It hands back what it was opened over.
    Close,
    /// It gains its next key, with a ledger on which nothing stands. An open one can't, nor one that has all its keys:
    /// four, or one of user 0.
    Gain,
    /// It declares an operation of these changes, for which these blocks were laid out.
    Begin(Vec<Change<A>, A>, Vec<Vec<u8, A>, A>),
    /// It signs the certificate that is declared once more, by its key of this number.
    Resign(u8),
    /// It takes this reply to its certificate.
    Reply(Vec<u8, A>),
    /// It takes the block that the reply under check asks for, or its absence.
    Block(Option<Vec<u8, A>>),
    /// It signs what it accepted.
    Sign,
    /// It takes this answer to its structure.
    Committed(Status),
    /// It looks at an i-number of a principal.
    Look(Principal, INumber),
    /// It asks of what kind and size is what stands at an i-number of a principal.
    Kind(Principal, INumber),
    /// It asks for the least i-number of a principal, from the first to the last, at which nothing stands. Where the
    /// first is above the last it can't.
    Free(Principal, INumber, INumber),
    /// It takes the block that the look asks for, or its absence.
    Give(Option<Vec<u8, A>>),
    /// Its cache may have so many blocks from now on: 1 to 4,096. Else it can't.
    Cache(u16),
    /// A crash leaves these bytes on the devices of the ledgers, the first key's first, and these on that of the
    /// journal, where one may. It closes an open client.
    Crash(Vec<Vec<u8, A>, A>, Vec<u8, A>),
}

/// A step of a user's client.
#[derive(Drop)]
pub struct WorldStep<A: Allocator> {
    /// Whose client it is.
    pub user: User,
    /// What it is told to do.
    pub act: Act<A>,
    /// How many calls of the ledgers' devices go well in this step before one fails, if one is to fail. No clause says
    /// that it fails then, nor that no other does: tests show it.
    pub ledger_fails: Option<u64>,
    /// And of the journal's.
    pub journal_fails: Option<u64>,
}

/// What a client signed, and of the accepted view what others may ask for.
#[derive(Drop)]
pub struct Accepted<A: Allocator> {
    /// The signed structure, as it is sent.
    pub text: Vec<u8, A>,
    /// The structures of the view, with the own one in its user's place.
    pub structures: Vec<Signed<Structure<A>>, A>,
    /// The table of principals of the view.
    pub table: Table<A>,
    /// The numbers of the changes that had no effect.
    pub lost: Vec<u8, A>,
}

/// What came of a step.
#[derive(Drop)]
pub enum Answer<A: Allocator> {
    /// The client is as before: it wasn't in the phase for such a step, or what was handed in couldn't be. It is never
    /// the answer to a step that can be taken.
    NotTaken,
    /// The client is open, in this phase, with this text to be sent again, if there is one.
    Opened(Phase, Vec<u8, A>),
    /// The client couldn't be opened.
    Refused(ClientError),
    /// The client is closed.
    Closed,
    /// It has a key more.
    Gained,
    /// The signed certificate, as it is sent: of an operation that begins, or signed once more.
    Begun(Result<Vec<u8, A>, ClientError>),
    /// What the client asks for next, of a reply.
    Asks(Result<Step<A>, ClientError>),
    /// The signed structure, and the accepted view.
    Signed(Result<Accepted<A>, ClientError>),
    /// The client knows how the server answered.
    Committed,
    /// What the client sees, or asks for to see it.
    Sees(Result<Look<A>, ClientError>),
    /// The client's cache may have as many blocks.
    Cached,
    /// The crash came, and the client is closed.
    Crashed,
    /// The server answered so to what the client sent, and no reply of it was handed in. A step that asks no server is
    /// never answered so.
    Served(Status),
}

/// What came of the steps: one answer for each, in their order.
#[derive(Drop)]
pub struct World<A: Allocator> {
    pub answers: Vec<Answer<A>, A>,
}
