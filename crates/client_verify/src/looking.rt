//! The client is asked about its accepted view.

ghost use Rattle.std.specs.Prelude.{◌≡◌, ◌≤◌, IfErr, IfOk, IfSome, IsOk, IsSome, IsSomeAnd, OnErr, OnOk, Some};
ghost use Rattle.std.specs.Option.{option_copied};
ghost use Rattle.checked_blocks.specs.CheckedBlocks.{known_blocks};
ghost use Rattle.client_tree.specs.declared.questions.Question.TheVariants.{At, Kind, Free};
ghost use Rattle.reply_check.specs.Reached.{IsAnswer};
ghost use Rattle.reply_check.specs.AskedBlock.{block_breaks};
ghost use Rattle.reply_check.specs.FirstBroken.{view_over};
ghost use Rattle.client_verify.specs.Told.{IsTold};
ghost use Rattle.client_verify.specs.Looked.{Given, Looked};
ghost use Rattle.client_verify.specs.Standing.{IsLacking, LookHoldsMore, LookStandsAfter, OnlyLooks};
ghost use Rattle.client_verify.specs.Holding.{HoldsMeanwhile, LookHoldsAfter};

use crate::client::Client;
use crate::keeping::hold;
use crate::look::Look;
use crate::view::Looking;
use client_releases::ClientError;
use client_tree::{Answer, Question, Seen};
use layout::{INumber, Memory, Principal, let_go};
use leaf_ledger::Device;
use reply_check::{Shown, check, show, show_with};
use reply_rules::Rule;
use std::alloc::Allocator;

/// An answer, as it is told.
fn told<A: Allocator>(answer: Answer<A>) -> Look<A>
    ensures { IsTold answer result }
{
    match answer {
        Answer::Sees(Seen::File(bytes)) => Look::File(bytes),
        Answer::Sees(Seen::Directory(directory)) => Look::Dir(directory),
        Answer::Sees(Seen::Nothing) => Look::None,
        Answer::Kind(kind) => Look::Kind(kind),
        Answer::Free(found) => Look::Free(found),
    }
}

impl<L: Device, J: Device, A: Allocator + Copy> Client<L, J, A> {
    /// What stands at an i-number of a principal in the accepted view, or the block that is wanted to tell it. A look
    /// that was under way is over. Only want of memory is an error.
    pub fn look(&mut self, principal: Principal, i_number: INumber) -> Result<Look<A>, ClientError>
        requires { IsSome self.old.view }
        ensures looked { IfSome self.old.view
            (λ v. IfOk result (λ look. Looked self.old v (At principal i_number) look self.new)) }
        ensures only_memory { IfErr result (λ e. e ≡ ClientError.Memory) }
        ensures err { OnErr result (self.new ≡ self.old) }
        // What is held then, what it waits for, and what stays.
        ensures held { IfOk result (λ look. LookHoldsAfter self.old None look self.new) }
        ensures stands { IfOk result (λ look. LookStandsAfter self.old look self.new) }
        ensures only { OnOk result (OnlyLooks self.old self.new) }
    {
        self.begin_look(Question::At(principal, i_number))
    }

    /// Of what kind and size is what stands at an i-number of a principal in the accepted view, or the block that is
    /// wanted to tell it: beyond what opens the part there it is the i-node alone. A look that was under way is over.
    /// Only want of memory is an error.
    pub fn kind(&mut self, principal: Principal, i_number: INumber) -> Result<Look<A>, ClientError>
        requires { IsSome self.old.view }
        ensures looked { IfSome self.old.view
            (λ v. IfOk result (λ look. Looked self.old v (Kind principal i_number) look self.new)) }
        ensures only_memory { IfErr result (λ e. e ≡ ClientError.Memory) }
        ensures err { OnErr result (self.new ≡ self.old) }
        // What is held then, what it waits for, and what stays.
        ensures held { IfOk result (λ look. LookHoldsAfter self.old None look self.new) }
        ensures stands { IfOk result (λ look. LookStandsAfter self.old look self.new) }
        ensures only { OnOk result (OnlyLooks self.old self.new) }
    {
        self.begin_look(Question::Kind(principal, i_number))
    }

    /// The least i-number of a principal, from the first to the last, at which nothing stands in the accepted view, if
    /// there is one, or the block that is wanted to tell it: the root of the part, or what opens the part at an
    /// i-number of the range. A look that was under way is over. Only want of memory is an error.
    pub fn free(
        &mut self,
        principal: Principal,
        first: INumber,
        last: INumber,
    ) -> Result<Look<A>, ClientError>
        requires view { IsSome self.old.view }
        requires range { first ≤ last }
        ensures looked { IfSome self.old.view
            (λ v. IfOk result (λ look. Looked self.old v (Free principal first last) look self.new)) }
        ensures only_memory { IfErr result (λ e. e ≡ ClientError.Memory) }
        ensures err { OnErr result (self.new ≡ self.old) }
        // What is held then, what it waits for, and what stays.
        ensures held { IfOk result (λ look. LookHoldsAfter self.old None look self.new) }
        ensures stands { IfOk result (λ look. LookStandsAfter self.old look self.new) }
        ensures only { OnOk result (OnlyLooks self.old self.new) }
    {
        self.begin_look(Question::Free(principal, first, last))
    }

    /// Begins a look: the answer to a question about the accepted view, or the block that is wanted to tell it.
    fn begin_look(&mut self, question: Question) -> Result<Look<A>, ClientError>
        requires { IsSome self.old.view }
        ensures looked { IfSome self.old.view
            (λ v. IfOk result (λ look. Looked self.old v question look self.new)) }
        ensures held { IfOk result (λ look. LookHoldsAfter self.old None look self.new) }
        ensures only_memory { IfErr result (λ e. e ≡ ClientError.Memory) }
        ensures err { OnErr result (self.new ≡ self.old) }
    {
        let Some(view) = &self.view else {
            unreachable!()
        };
        // A copy is handed down, since the question is kept where a block is asked for.
        let copy = question;
        let shown = show(
            self.alloc,
            &self.pinned,
            view.good.table(),
            view.good.lists(),
            copy,
            &self.blocks,
        )?;
        match self.blocks.take_up() {
            Ok(()) => Ok(self.answer(question, shown)),
            Err(_) => {
                let_go(shown);
                Err(ClientError::Memory)
            }
        }
    }

    /// Goes on with a look: a block is asked for, or it is over.
    #[tactic(auto, using(crate::proofs::Telling::looked_told))]
    fn answer(&mut self, question: Question, shown: Shown<A>) -> Look<A>
        requires view { IsSome self.old.view }
        requires shown { IfSome self.old.view
            (λ v. IsAnswer (known_blocks self.old.blocks) (view_over self.old.pinned v.table v.lists) question shown) }
        ensures looked { IfSome self.old.view (λ v. Looked self.old v question result self.new) }
        ensures held { HoldsMeanwhile self.old.blocks self.new }
    {
        let Some(view) = &mut self.view else {
            unreachable!()
        };
        match shown {
            Shown::Lacks(asked) => {
                let digest = asked.digest;
                view.looking = Some(Looking { question, asked });
                Look::Need(digest)
            }
            Shown::Tells(answer) => {
                view.looking = None;
                self.let_blocks_go();
                told(answer)
            }
        }
    }

    /// Takes the block that the look asks for, or its absence. Only want of memory is an error.
    pub fn give(&mut self, block: Option<&[u8]>) -> Result<Look<A>, ClientError>
        requires { IsSomeAnd self.old.view (λ v. IsSome v.looking) }
        ensures given { IfSome self.old.view
            (λ v. IfSome v.looking (λ l. IfOk result
            (λ look. Given self.old v l (option_copied block.entry) look self.new))) }
        // A block that breaks the rule on blocks is told without memory.
        ensures told { IfSome self.old.view
            (λ v. IfSome v.looking
            (λ l. block_breaks (known_blocks self.old.blocks) l.asked (option_copied block.entry) ≡ Some Rule.Block
            → IsOk result)) }
        ensures only_memory { IfErr result (λ e. e ≡ ClientError.Memory) }
        ensures err { OnErr result (self.new ≡ self.old) }
        // What is held then, what it waits for, and what stays. A block that was lacking is one more that is held.
        ensures held { IfOk result (λ look. LookHoldsAfter self.old (option_copied block.entry) look self.new) }
        ensures stands { IfOk result (λ look. LookStandsAfter self.old look self.new) }
        ensures only { OnOk result (OnlyLooks self.old self.new) }
        ensures more { IfSome self.old.view
            (λ v. IfSome v.looking (λ l. IsLacking self.old l.asked
            → IfOk result (λ look. LookHoldsMore self.old look self.new))) }
    {
        self.take_given(block)
    }

    /// Takes the block that the look asks for, or its absence. Only want of memory is an error.
    fn take_given(&mut self, block: Option<&[u8]>) -> Result<Look<A>, ClientError>
        requires { IsSomeAnd self.old.view (λ v. IsSome v.looking) }
        ensures given { IfSome self.old.view
            (λ v. IfSome v.looking (λ l. IfOk result
            (λ look. Given self.old v l (option_copied block.entry) look self.new))) }
        ensures held { IfOk result (λ look. LookHoldsAfter self.old (option_copied block.entry) look self.new) }
        // A block that breaks the rule on blocks is told without memory.
        ensures told { IfSome self.old.view
            (λ v. IfSome v.looking
            (λ l. block_breaks (known_blocks self.old.blocks) l.asked (option_copied block.entry) ≡ Some Rule.Block
            → IsOk result)) }
        ensures only_memory { IfErr result (λ e. e ≡ ClientError.Memory) }
        ensures err { OnErr result (self.new ≡ self.old) }
    {
        let Some(view) = &self.view else {
            unreachable!()
        };
        let Some(looking) = view.looking else {
            unreachable!()
        };
        let asked = looking.asked;
        let digest = asked.digest;
        let text = match check(self.alloc, &self.blocks, asked, block)? {
            Ok(text) => text,
            Err(rule) => return Ok(Look::Broken(rule)),
        };
        let shown = show_with(
            self.alloc,
            &self.pinned,
            view.good.table(),
            view.good.lists(),
            looking.question,
            &self.blocks,
            digest,
            text,
        )?;
        match hold(self.alloc, &mut self.blocks, digest, text) {
            Ok(()) => Ok(self.answer(looking.question, shown)),
            Err(_) => {
                let_go(shown);
                Err(ClientError::Memory)
            }
        }
    }
}
