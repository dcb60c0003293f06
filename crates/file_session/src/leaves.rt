//! How many leaves a key has to have for an operation.

ghost use Rattle.std.specs.Prelude.{◌≡◌, ◌≢◌, IfErr, OnErr, OnOk, false, true};
ghost use Rattle.client_releases.specs.Told.{HasKey};
ghost use Rattle.client_verify.specs.State.{released};
ghost use Rattle.file_session.specs.Tries.{can_declare, has_leaves};

use crate::conversation::Conversation;
use crate::stop::Stop;
use client_verify::{ClientError, Phase};
use leaf_ledger::Device;
use std::alloc::Allocator;

/// How many leaves an operation takes: one for its certificate, and one for its structure.
const OPERATION_LEAVES: u32 = 2;

impl<L: Device, J: Device, T, A: Allocator + Copy> Conversation<L, J, T, A> {
    /// Whether a key has the leaves that an operation takes.
    pub(crate) fn has_leaves(&self, key: usize) -> bool
        requires key { HasKey key (released self.now.client) }
        requires stands { self.now.client.phase ≢ Phase.Failed }
        ensures { result ≡ has_leaves self.now.client key }
    {
        self.client.free_leaves_of(key) >= OPERATION_LEAVES
    }

    /// Whether the newest key has them.
    #[tactic(auto, unfolding(crate::specs::Tries::can_declare))]
    fn can_declare(&self) -> bool
        requires { self.now.client.phase ≢ Phase.Failed }
        ensures { result ≡ can_declare self.now.client }
    {
        self.client.free_leaves() >= OPERATION_LEAVES
    }

    /// That the newest key has them.
    pub(crate) fn leaves_suffice(&self) -> Result<(), Stop>
        requires { self.now.client.phase ≢ Phase.Failed }
        ensures has { OnOk result (can_declare self.now.client ≡ true) }
        ensures lacks { OnErr result (can_declare self.now.client ≡ false) }
        ensures no_leaf { IfErr result (λ e. e ≡ Stop.Client ClientError.NoLeaf) }
    {
        if self.can_declare() {
            Ok(())
        } else {
            Err(Stop::Client(ClientError::NoLeaf))
        }
    }
}
