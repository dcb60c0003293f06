//! What answers requests.

ghost use Rattle.std.specs.Prelude.{◌≡◌, ◌+◌, ◌^◌, ◌<◌, true, IfSome, IfNone};
ghost use Rattle.wire.specs.Frame.{request_of};
ghost use Rattle.server_workers.specs.Conversation.{RepliesToBody, IsLater, count_in, keeps};

use crate::gate::Gate;
use crate::reply::ReplyBody;
use crate::seen::SeenKey;
use crate::tally::Tally;
use std::alloc::Allocator;
use std::sync::Wait;
use std::sync::ledger::{Ledger, Share};

/// What answers the requests of all connections, whatever it keeps and where.
pub trait Serves<A: Allocator, L: Ledger, R: Wait> {
    ghost use Rattle.server_workers.specs.Conversation.{Server};

    /// What shows which calls are in its log, synced.
    type Receipt: Drop + Send;

    /// How the clients know it that were shown this.
    ghost server: { Self.Receipt → Server };

    /// Where what a connection needs is put.
    fn alloc(&self) -> A;

    /// What a connection is shown before its first request.
    fn first_receipt(&self, rt: &R) -> Self::Receipt;

    /// The reply to the body of a request's frame, and what shows that all it tells of is synced. None where it has
    /// stopped.
    fn reply_to<G: Gate>(
        &self,
        rt: &R,
        gate: &G,
        tally: &mut Tally<L>,
        seen: &mut Option<SeenKey>,
        receipt: &mut Self::Receipt,
        body: &[u8],
    ) -> Option<ReplyBody<'_, A>>
        requires { 0 < tally.old.share.parts }
        ensures replies { IfSome result (λ reply. RepliesToBody (server receipt.new) (request_of body.now) reply) }
        ensures later { IsLater (server receipt.old) (server receipt.new) }
        ensures counted { IfSome result (λ reply.
            tally.new.answered ≡ tally.old.answered + count_in (request_of body.now) reply.status) }
        ensures stopped { IfNone result ((keeps (server receipt.new) ≡ true) × (tally.new.answered ≡ tally.old.answered)) }
        ensures parts { tally.new.share.parts ≡ tally.old.share.parts };

    /// Changes nothing, and tells that what a share has can be counted.
    fn audit(&self, rt: &R, share: &mut Share<L>)
        ensures parts { share.new.parts ≡ share.old.parts }
        ensures amount { share.new.amount ≡ share.old.amount }
        ensures small { share.new.amount < 2 ^ 64 };
}
