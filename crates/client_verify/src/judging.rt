//! The client judges a reply, and the blocks that it asks for: a rule is broken, one block more is wanted, or the reply
//! is accepted.

ghost use Rattle.std.specs.Prelude.{◌≡◌, IfErr, IfOk, IfSome, IsOk, IsSome, IsSomeAnd, None, OnErr, OnOk, Some};
ghost use Rattle.std.specs.Option.{option_copied, option_map};
ghost use Rattle.layout.specs.Hash.{hash};
ghost use Rattle.reply_rules.specs.Lists.{lists_of};
ghost use Rattle.checked_blocks.specs.CheckedBlocks.{holding as with_held, known_blocks};
ghost use Rattle.reply_check.specs.Reached.{IsReached, IsWritten};
ghost use Rattle.reply_check.specs.AskedBlock.{block_breaks};
ghost use Rattle.reply_check.specs.Verified.{AreOwn};
ghost use Rattle.reply_check.specs.FirstBroken.{reply_breaks, reply_in};
ghost use Rattle.reply_check.specs.Good.{view_of};
ghost use Rattle.client_verify.specs.State.{IsOfDeclared, asked_of, checked_in, holding, known};
ghost use Rattle.client_verify.specs.State.{lists_under, released};
ghost use Rattle.client_verify.specs.JudgedLast.{judged_last, listed};
ghost use Rattle.client_verify.specs.Judged.{AsksOrAccepts, GoesOn, Handed, IsReading, IsWriting, Judged, ReadsOn};
ghost use Rattle.client_verify.specs.Judged.{unjudged};
ghost use Rattle.client_verify.specs.Standing.{HoldsMore, IsLacking, OnlyJudges, StandsAfter};
ghost use Rattle.client_verify.specs.Holding.{HoldsAfter, HoldsMeanwhile};

use crate::client::Client;
use crate::keeping::hold;
use crate::step::Step;
use crate::view::{Checked, Progress, Ready, Stage};
use client_releases::{ClientError, Phase};
use layout::{Digest, Memory, let_go, put_in};
use leaf_ledger::Device;
use lms_sign::PublicKey;
use reply_check::{
    Admitted, Good, Known, Made, Reached, Written, check, judge, reach, reach_with, write_with,
};
use reply_rules::Rule;
use std::alloc::Allocator;

impl<L: Device, J: Device, A: Allocator + Copy> Client<L, J, A> {
    /// The lists that broke no rule last, whose signatures were verified: of the accepted reply, of the one under
    /// check, or of the accepted view.
    fn judged_last(&self) -> Option<&Good<A>>
        ensures { option_map listed (option_copied result) ≡ judged_last self.now }
    {
        let in_view = self.view.as_ref().map(|view| &view.good);
        match &self.progress {
            Progress::None => in_view,
            Progress::Checking(checked) => checked.good().or(in_view),
            Progress::Accepted(ready) => Some(&ready.good),
        }
    }

    /// The own key of which it is known that it signed the last structure and the last text.
    fn own(&self) -> Option<PublicKey>
        ensures { IfSome result (λ key. AreOwn key self.now.last self.now.text) }
    {
        match self.signer {
            Some(signer) => Some(self.releases.key(signer)),
            None => None,
        }
    }

    /// What a reply is compared with.
    fn known(&self) -> Known<'_, A>
        ensures { result ≡ known self.now }
    {
        Known::new(
            self.releases.user(),
            &self.pinned,
            self.releases.last(),
            self.releases.text(),
            self.own(),
            self.judged_last(),
        )
    }

    /// A reply is under check, and this block is asked for.
    fn ask(&mut self, stage: Stage<A>, digest: Digest) -> Step<A>
        requires own { IsSomeAnd (lists_under (checked_in stage)) (λ x. IsOfDeclared (released self.old) x.own.plan) }
        ensures state { self.new ≡ record self.old { checked = Some (checked_in stage); accepted = None } }
        ensures step { result ≡ Step.Need digest }
    {
        put_in(&mut self.progress, Progress::Checking(Checked { stage }));
        Step::Need(digest)
    }

    /// Goes on with lists that break no rule: a block is asked for, or the reply is accepted.
    fn go(&mut self, good: Good<A>, written: Written<A>) -> Step<A>
        requires written { IsWritten (known_blocks self.old.blocks) (view_of self.old.pinned good) good.void written }
        requires own { IsOfDeclared (released self.old) good.lists.own.plan }
        ensures goes { AsksOrAccepts self.old good result self.new }
        ensures held { HoldsMeanwhile self.old.blocks self.new }
    {
        match written {
            Written::Lacks(asked) => {
                let digest = asked.digest;
                self.ask(Stage::Writing(good, asked), digest)
            }
            Written::Parts(made) => {
                let Made {
                    handle,
                    records,
                    texts,
                    lost,
                } = made;
                let ready = Ready {
                    good,
                    handle,
                    records,
                    lost,
                };
                put_in(&mut self.progress, Progress::Accepted(ready));
                self.let_blocks_go();
                Step::Store(texts)
            }
        }
    }

    /// A reply that breaks none of the rules on itself is one to the declared operation. For the proofs of callers: it
    /// does nothing.
    fn is_replied(&self, text: &[u8], reply: &Admitted<A>)
        requires declared { self.now.phase ≡ Phase.Declared }
        requires unbroken { reply_breaks (known self.now) text.now ≡ None }
        requires read { reply_in text.now ≡ Some reply.now }
        ensures own { IsSomeAnd (lists_of reply.now) (λ x. IsOfDeclared (released self.now) x.own.plan) }
        ensures unbroken { reply_breaks (known self.now) text.now ≡ None }
        ensures read { reply_in text.now ≡ Some reply.now }
    {
        self.releases.type_invariant();
        let _certificate = reply.split().0.cert();
        let _bytes = text;
    }

    /// Takes the server's reply to the declared certificate. A reply that was under check or accepted before is dropped
    /// where this one breaks no rule. Only want of memory is an error.
    pub fn on_reply(&mut self, text: &[u8]) -> Result<Step<A>, ClientError>
        requires { self.old.phase ≡ Phase.Declared }
        ensures judged { IfOk result (λ step. Judged self.old text.now step self.new) }
        ensures only_memory { IfErr result (λ e. e ≡ ClientError.Memory) }
        ensures err { OnErr result (self.new ≡ self.old) }
        // What is held then, what it waits for, and what stays.
        ensures held { IfOk result (λ step. HoldsAfter self.old None step self.new) }
        ensures stands { IfOk result (λ step. StandsAfter self.old step self.new) }
        ensures only { OnOk result (OnlyJudges self.old self.new) }
    {
        self.take_reply(text)
    }

    /// Takes a reply. Only want of memory is an error.
    fn take_reply(&mut self, text: &[u8]) -> Result<Step<A>, ClientError>
        requires { self.old.phase ≡ Phase.Declared }
        ensures judged { IfOk result (λ step. Judged self.old text.now step self.new) }
        ensures held { IfOk result (λ step. HoldsAfter self.old None step self.new) }
        ensures only_memory { IfErr result (λ e. e ≡ ClientError.Memory) }
        ensures err { OnErr result (self.new ≡ self.old) }
    {
        let known = self.known();
        let reply = match judge(self.alloc, &known, text)? {
            Ok(reply) => reply,
            Err(rule) => return Ok(Step::Broken(rule)),
        };
        self.is_replied(text, &reply);
        let reached = reach(self.alloc, &known, &reply, &self.blocks)?;
        if let Reached::Breaks(rule) = reached {
            return Ok(Step::Broken(rule));
        }
        let Ok(()) = self.blocks.take_up() else {
            let_go((reply, reached));
            return Err(ClientError::Memory);
        };
        match reached {
            Reached::Breaks(_) => unreachable!(),
            Reached::Lacks(asked) => {
                let digest = asked.digest;
                Ok(self.ask(Stage::Reading(reply, asked), digest))
            }
            Reached::BreaksNone(table, written) => {
                let lists = reply.into_lists();
                Ok(self.go(Good { lists, table }, written))
            }
        }
    }

    /// How far the reply under check comes with one block more, whose digest was computed.
    fn reach_on(&self, digest: Digest, text: &[u8]) -> Result<Reached<A>, Memory>
        requires hashed { digest ≡ hash text.now }
        requires reading { IsSomeAnd self.now.checked IsReading }
        ensures { IfSome self.now.checked
            (λ k. IfOk result (λ reached. IsSomeAnd (unjudged k)
            (λ x. IsReached (known_blocks (with_held self.now.blocks text.now)) self.now.pinned x reached))) }
    {
        let known = self.known();
        let Progress::Checking(checked) = &self.progress else {
            unreachable!()
        };
        let Stage::Reading(reply, _) = &checked.stage else {
            unreachable!()
        };
        reach_with(self.alloc, &known, reply, &self.blocks, digest, text)
    }

    /// Takes a block of the table of principals, which was asked for. Only want of memory is an error.
    fn read_on(&mut self, digest: Digest, text: &[u8]) -> Result<Step<A>, ClientError>
        requires hashed { digest ≡ hash text.now }
        requires reading { IsSomeAnd self.old.checked IsReading }
        ensures goes { IfSome self.old.checked (λ k. IfOk result (λ step. ReadsOn self.old k text.now step self.new)) }
        ensures held { IfOk result (λ step. HoldsAfter self.old (Some text.now) step self.new) }
        ensures only_memory { IfErr result (λ e. e ≡ ClientError.Memory) }
        ensures err { OnErr result (self.new ≡ self.old) }
    {
        let reached = self.reach_on(digest, text)?;
        if let Reached::Breaks(rule) = reached {
            return Ok(Step::Broken(rule));
        }
        let Ok(()) = hold(self.alloc, &mut self.blocks, digest, text) else {
            let_go(reached);
            return Err(ClientError::Memory);
        };
        let checked = self.progress.take_checked();
        let Stage::Reading(reply, _) = checked.stage else {
            unreachable!()
        };
        match reached {
            Reached::Breaks(_) => unreachable!(),
            Reached::Lacks(asked) => {
                let digest = asked.digest;
                Ok(self.ask(Stage::Reading(reply, asked), digest))
            }
            Reached::BreaksNone(table, written) => {
                let lists = reply.into_lists();
                Ok(self.go(Good { lists, table }, written))
            }
        }
    }

    /// Takes a block that tells what the own operation makes, which was asked for. Only want of memory is an error.
    fn write_on(&mut self, digest: Digest, text: &[u8]) -> Result<Step<A>, ClientError>
        requires hashed { digest ≡ hash text.now }
        requires writing { IsSomeAnd self.old.checked IsWriting }
        ensures goes { IfSome self.old.checked
            (λ k. IfOk result (λ step. GoesOn (holding self.old text.now) k step self.new)) }
        ensures held { IfOk result (λ step. HoldsAfter self.old (Some text.now) step self.new) }
        ensures only_memory { IfErr result (λ e. e ≡ ClientError.Memory) }
        ensures err { OnErr result (self.new ≡ self.old) }
    {
        let Progress::Checking(checked) = &self.progress else {
            unreachable!()
        };
        let Stage::Writing(good, _) = &checked.stage else {
            unreachable!()
        };
        let written = write_with(self.alloc, &self.pinned, good, &self.blocks, digest, text)?;
        let Ok(()) = hold(self.alloc, &mut self.blocks, digest, text) else {
            let_go(written);
            return Err(ClientError::Memory);
        };
        let checked = self.progress.take_checked();
        let Stage::Writing(good, _) = checked.stage else {
            unreachable!()
        };
        Ok(self.go(good, written))
    }

    /// Takes the block that the reply under check asks for, or its absence. Only want of memory is an error.
    pub fn on_block(&mut self, block: Option<&[u8]>) -> Result<Step<A>, ClientError>
        requires { IsSome self.old.checked }
        ensures handed { IfSome self.old.checked
            (λ k. IfOk result (λ step. Handed self.old k (option_copied block.entry) step self.new)) }
        // A block that breaks the rule on blocks is told without memory.
        ensures told { IfSome self.old.checked
            (λ k. block_breaks (known_blocks self.old.blocks) (asked_of k) (option_copied block.entry) ≡ Some Rule.Block
            → IsOk result) }
        ensures only_memory { IfErr result (λ e. e ≡ ClientError.Memory) }
        ensures err { OnErr result (self.new ≡ self.old) }
        // What is held then, what it waits for, and what stays. A block that was lacking is one more that is held.
        ensures held { IfOk result (λ step. HoldsAfter self.old (option_copied block.entry) step self.new) }
        ensures stands { IfOk result (λ step. StandsAfter self.old step self.new) }
        ensures only { OnOk result (OnlyJudges self.old self.new) }
        ensures more { IfSome self.old.checked
            (λ k. IsLacking self.old (asked_of k) → IfOk result (λ step. HoldsMore self.old step self.new)) }
    {
        self.take_block(block)
    }

    /// Takes the block that the reply under check asks for, or its absence. Only want of memory is an error.
    fn take_block(&mut self, block: Option<&[u8]>) -> Result<Step<A>, ClientError>
        requires { IsSome self.old.checked }
        ensures handed { IfSome self.old.checked
            (λ k. IfOk result (λ step. Handed self.old k (option_copied block.entry) step self.new)) }
        ensures held { IfOk result (λ step. HoldsAfter self.old (option_copied block.entry) step self.new) }
        // A block that breaks the rule on blocks is told without memory.
        ensures told { IfSome self.old.checked
            (λ k. block_breaks (known_blocks self.old.blocks) (asked_of k) (option_copied block.entry) ≡ Some Rule.Block
            → IsOk result) }
        ensures only_memory { IfErr result (λ e. e ≡ ClientError.Memory) }
        ensures err { OnErr result (self.new ≡ self.old) }
    {
        let Progress::Checking(checked) = &self.progress else {
            unreachable!()
        };
        let asked = checked.asked();
        let digest = asked.digest;
        let reads = checked.is_reading();
        let text = match check(self.alloc, &self.blocks, asked, block)? {
            Ok(text) => text,
            Err(rule) => return Ok(Step::Broken(rule)),
        };
        if reads {
            self.read_on(digest, text)
        } else {
            self.write_on(digest, text)
        }
    }
}
