//! A certificate whose signature the server declines is signed again by other keys, one after another.

ghost use Rattle.std.specs.Prelude.{◌≡◌, ◌≢◌, ℕ, Err, IfSome, List, None, OnOk, Option, []};
ghost use Rattle.std.specs.Option.{unwrap_or};
ghost use Rattle.client_releases.specs.Told.{HasKey};
ghost use Rattle.client_verify.specs.State.{released};
ghost use Rattle.file_session.specs.Order.{Resign, Update, hearing, trying};
ghost use Rattle.file_session.specs.Sessions.{IsUnfinished};
ghost use Rattle.file_session.specs.Tries.{is_to_try, keys_to_try, leaves_left};
ghost use Rattle.file_session.specs.Went.{Went, point};
ghost use Rattle.file_session.specs.declared.stop.Stop.TheVariants.{Declined};
ghost use Rattle.wire.specs.declared.kinds.Status.TheVariants.{BadSignature};

use crate::calls::resign;
use crate::conversation::Conversation;
use crate::exchanging::{Payload, send};
use crate::stop::Stop;
use client_verify::Phase;
use leaf_ledger::Device;
use std::alloc::Allocator;
use transport::{Ahead, Transport};
use wire::{RequestKind, Status};

/// An answer, unless it is that the signature of a certificate is declined.
fn unless_declined<A: Allocator>(
    answer: Result<Payload<A>, Stop>,
) -> Option<Result<Payload<A>, Stop>>
    ensures none { result ≡ None → answer ≡ Err (Declined BadSignature) }
    ensures same { IfSome result (λ same. same ≡ answer) }
    ensures another { IfSome result (λ same. same ≢ Err (Declined BadSignature)) }
{
    match answer {
        Err(Stop::Declined(Status::BadSignature)) => None,
        other => Some(other),
    }
}

impl<L: Device, J: Device, T: Transport<A>, A: Allocator + Copy> Conversation<L, J, T, A> {
    /// Whether a key is to be tried, where this one signed what is declared.
    fn is_to_try(&self, signer: Option<usize>, key: usize) -> bool
        requires key { HasKey key (released self.now.client) }
        requires stands { self.now.client.phase ≢ Phase.Failed }
        ensures { result ≡ is_to_try self.now.client signer key }
    {
        signer != Some(key) && self.has_leaves(key)
    }

    /// Sends the certificate that is declared: what came.
    fn update(&mut self) -> Result<Payload<A>, Stop>
        requires { self.old.client.phase ≡ Phase.Declared }
        ensures went { (left : Option (List ℕ)) → Went T.answers
            (point self.old.client self.old.transport (Update self.old.client.text left))
            (point self.new.client self.new.transport (hearing (unwrap_or left (keys_to_try self.old.client)) result))
            [] }
        ensures same { self.new.client ≡ self.old.client }
    {
        send(
            &mut self.transport,
            RequestKind::Update,
            self.client.declared(),
            &Ahead::Nothing,
        )
    }

    /// Has the certificate signed again by this key, and sends it: what came.
    fn update_by(&mut self, key: usize) -> Result<Payload<A>, Stop>
        requires declared { self.old.client.phase ≡ Phase.Declared }
        requires key { HasKey key (released self.old.client) }
        ensures went { (keys : List ℕ) → Went T.answers
            (point self.old.client self.old.transport (Resign key keys))
            (point self.new.client self.new.transport (hearing keys result)) [] }
        ensures declared { OnOk result (self.new.client.phase ≡ Phase.Declared) }
        ensures declined { result ≡ Err (Declined BadSignature) → self.new.client.phase ≡ Phase.Declared }
        ensures unfinished { IsUnfinished self.new.client }
        ensures secrets { self.new.client.secrets ≡ self.old.client.secrets }
        ensures others { (n : ℕ) → n ≢ key → leaves_left self.new.client n ≡ leaves_left self.old.client n }
    {
        match resign(&mut self.client, key) {
            Ok(_text) => self.update(),
            Err(error) => Err(Stop::Client(error)),
        }
    }

    /// Sends the certificate again as each other key signs it, as long as its signature is declined: what came last.
    fn try_keys(&mut self) -> Result<Payload<A>, Stop>
        requires { self.old.client.phase ≡ Phase.Declared }
        ensures went { Went T.answers
            (point self.old.client self.old.transport (trying (keys_to_try self.old.client)))
            (point self.new.client self.new.transport (hearing [] result)) [] }
        ensures declared { OnOk result (self.new.client.phase ≡ Phase.Declared) }
        ensures unfinished { IsUnfinished self.new.client }
    {
        let signer = self.client.declared_by();
        for key in (0..self.client.key_count()).rev() {
            if self.is_to_try(signer, key) {
                if let Some(answer) = unless_declined(self.update_by(key)) {
                    return answer;
                }
            }
        }
        Err(Stop::Declined(Status::BadSignature))
    }

    /// Sends the certificate that is declared, and again as each other key signs it, as long as its signature is
    /// declined: what came last.
    pub(crate) fn place(&mut self) -> Result<Payload<A>, Stop>
        requires { self.old.client.phase ≡ Phase.Declared }
        ensures went { Went T.answers
            (point self.old.client self.old.transport (Update self.old.client.text None))
            (point self.new.client self.new.transport (hearing [] result)) [] }
        ensures declared { OnOk result (self.new.client.phase ≡ Phase.Declared) }
        ensures unfinished { IsUnfinished self.new.client }
    {
        match unless_declined(self.update()) {
            Some(answer) => answer,
            None => self.try_keys(),
        }
    }
}
