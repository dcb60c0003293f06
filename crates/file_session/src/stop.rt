//! Why a session stops before its end.

use client_verify::ClientError;
use reply_rules::Rule;
use wire::Status;

/// Why a session stops before its end. Contracts speak of it; a command is answered by what it comes to. The next
/// command goes on from there: what was declared or signed by then is finished first.
#[derive(Debug, Drop)]
pub enum Stop {
    /// A call of the client gave this error. After Device the client has failed, and has to be opened again; after any
    /// other it is as it was before that call.
    Client(ClientError),
    /// A reply, or a block that was asked for, breaks this rule. It isn't kept, and the client is as it was before.
    Broken(Rule),
    /// The server answered with this status, other than Ok, and, where a block was asked for, other than Absent.
    Declined(Status),
    /// The transport failed, or what came was no reply: no frame, or a frame whose body has no status, an unknown one,
    /// or a payload beside another status than Ok. Whether the server carried the request out isn't known.
    Cut,
    /// Memory ran out: in the transport, for the operation that a session plans, or for the numbers of the changes that
    /// a new view loses, before that is committed.
    Memory,
}
