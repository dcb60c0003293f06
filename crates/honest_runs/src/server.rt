//! The server of an honest run, with its log.

ghost use Rattle.std.specs.Prelude.{◌≡◌, ◌++◌, [], IfOk, option_to_list};
ghost use Rattle.client_runs.specs.Runs.{pinned as pinned_key};
ghost use Rattle.client_runs.specs.Carried.{script_keys};
ghost use Rattle.honest_runs.specs.HonestRuns.{IsAnswered, carried_out};
ghost use Rattle.honest_runs.specs.Town.{exchange_of};

use consistency_server::{Answer, CallKind, MemoryLog, Ordered};
use layout::Memory;
use lms_sign::PublicKey;
use std::alloc::Allocator;
use std::marker::Model;

/// A server, whose log takes 1,024 calls.
#[derive(Drop)]
pub(crate) struct Server<A: Allocator> {
    ordered: Ordered<A>,
    log: MemoryLog<A>,
}

impl<A: Allocator> Model for Server<A> {
    ghost use Rattle.std.specs.Prelude.{◌≡◌, List};
    ghost use Rattle.client_runs.specs.Runs.{pinned as pinned_key};
    ghost use Rattle.client_runs.specs.Carried.{script_keys};
    ghost use Rattle.consistency_server.specs.Answers.{Call};
    ghost use Rattle.consistency_server.specs.History.{log_of};

    ghost Value = { List Call };

    ghost view = { λ s. s.ordered.history };

    ghost invariant = { λ s. (s.ordered.pinned ≡ pinned_key script_keys)
        × (s.log ≡ log_of (pinned_key script_keys) s.ordered.history) };
}

impl<A: Allocator + Copy> Server<A> {
    /// Before the first call, under user 0's key.
    pub(crate) fn new(alloc: A, pinned: PublicKey) -> Result<Server<A>, Memory>
        requires { pinned ≡ pinned_key script_keys }
        ensures { IfOk result (λ server. server ≡ []) }
    {
        let log = MemoryLog::new(alloc)?;
        Ok(Server {
            ordered: Ordered::genesis(alloc, pinned),
            log,
        })
    }

    /// Answers a call, and keeps it where it was carried out.
    pub(crate) fn answer(&mut self, kind: CallKind, text: &[u8]) -> Answer<A>
        ensures answered { IsAnswered (pinned_key script_keys) self.old (exchange_of kind text.now result) }
        ensures history { self.new ≡ option_to_list (carried_out (exchange_of kind text.now result)) ++ self.old }
    {
        self.ordered.answer(&mut self.log, kind, text, None)
    }
}
