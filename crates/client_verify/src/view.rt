//! What a client keeps of replies: one under check, one that was accepted, and the view that was signed.

use client_tree::Question;
use layout::Digest;
use pending_list::Signed;
use reply_check::{Admitted, Asked, Good};
use std::alloc::Allocator;
use std::marker::Model;
use std::mem;
use version_order::{GroupRecord, Structure};

/// How far a reply under check is.
#[derive(Drop)]
pub(crate) enum Stage<A: Allocator> {
    /// The table of principals is read, and a block of it is asked for.
    Reading(Admitted<A>, Asked),
    /// The lists break no rule, and a block is asked for that tells what the own operation makes.
    Writing(Good<A>, Asked),
}

/// A reply under check, of which a block is asked for.
#[derive(Drop)]
pub(crate) struct Checked<A: Allocator> {
    pub(crate) stage: Stage<A>,
}

impl<A: Allocator> Model for Checked<A> {
    ghost use Rattle.client_verify.specs.State.{Checked, checked_in};

    ghost Value = { Checked };

    ghost view = { λ c. checked_in c.stage };
}

impl<A: Allocator> Checked<A> {
    ghost use Rattle.std.specs.Prelude.{◌≡◌, true, false};
    ghost use Rattle.std.specs.Option.{option_copied};
    ghost use Rattle.client_verify.specs.State.{asked_of};
    ghost use Rattle.client_verify.specs.JudgedLast.{good_in};
    ghost use Rattle.client_verify.specs.Judged.{IsReading, IsWriting};

    /// Whether the table of principals is being read.
    pub(crate) fn is_reading(&self) -> bool
        ensures reading { result ≡ true → IsReading self.now }
        ensures writing { result ≡ false → IsWriting self.now }
    {
        matches!(self.stage, Stage::Reading(_, _))
    }

    /// Its lists, where they break no rule.
    pub(crate) fn good(&self) -> Option<&Good<A>>
        ensures { option_copied result ≡ good_in self.now }
    {
        match &self.stage {
            Stage::Reading(_, _) => None,
            Stage::Writing(good, _) => Some(good),
        }
    }

    /// The block that is asked for.
    pub(crate) fn asked(&self) -> Asked
        ensures { result ≡ asked_of self.now }
    {
        match &self.stage {
            Stage::Reading(_, asked) | Stage::Writing(_, asked) => *asked,
        }
    }
}

/// A reply that breaks no rule by this table, the handle of the own part after the own operation, the records of the
/// groups that it raises, and the changes that it loses.
#[derive(Drop)]
pub(crate) struct Ready<A: Allocator> {
    pub(crate) good: Good<A>,
    pub(crate) handle: Digest,
    pub(crate) records: Vec<GroupRecord, A>,
    pub(crate) lost: Vec<u8, A>,
}

impl<A: Allocator> Model for Ready<A> {
    ghost use Rattle.client_verify.specs.State.{Ready};

    ghost Value = { Ready };

    ghost view = { λ r. record {
      lists = r.good.lists;
      table = r.good.table;
      handle = r.handle;
      records = r.records.items;
      lost = r.lost.items;
    } };
}

/// How far the client is with the reply to its operation.
#[derive(Drop)]
pub(crate) enum Progress<A: Allocator> {
    /// None is under check, and none was accepted that isn't signed.
    None,
    /// One is under check, of which a block is asked for.
    Checking(Checked<A>),
    /// One was accepted, whose structure isn't signed yet.
    Accepted(Ready<A>),
}

impl<A: Allocator> Progress<A> {
    ghost use Rattle.std.specs.Prelude.{◌≡◌, IsSome, Some};
    ghost use Rattle.client_verify.specs.Progress.{accepted_of, checked_of};

    /// Takes out the reply under check.
    pub(crate) fn take_checked(&mut self) -> Checked<A>
        requires { IsSome (checked_of self.old) }
        ensures taken { checked_of self.old ≡ Some result }
        ensures none { self.new ≡ Progress.None }
    {
        match mem::replace(self, Progress::None) {
            Progress::Checking(checked) => checked,
            Progress::None | Progress::Accepted(_) => unreachable!(),
        }
    }

    /// Takes out the accepted reply.
    pub(crate) fn take_accepted(&mut self) -> Ready<A>
        requires { IsSome (accepted_of self.old) }
        ensures taken { accepted_of self.old ≡ Some result }
        ensures none { self.new ≡ Progress.None }
    {
        match mem::replace(self, Progress::None) {
            Progress::Accepted(ready) => ready,
            Progress::None | Progress::Checking(_) => unreachable!(),
        }
    }
}

/// A look that is under way: the question, and the block that is asked for.
#[derive(Clone, Copy, Debug)]
pub(crate) struct Looking {
    pub(crate) question: Question,
    pub(crate) asked: Asked,
}

/// The accepted view: the lists of its reply, the table of principals, its structures with the own new one in its
/// user's place, and the changes that the own operation lost.
#[derive(Drop)]
pub(crate) struct AcceptedView<A: Allocator> {
    pub(crate) good: Good<A>,
    pub(crate) structures: Vec<Signed<Structure<A>>, A>,
    pub(crate) lost: Vec<u8, A>,
    pub(crate) looking: Option<Looking>,
}

impl<A: Allocator> Model for AcceptedView<A> {
    ghost use Rattle.client_verify.specs.State.{AcceptedView};

    ghost Value = { AcceptedView };

    ghost view = { λ v. record {
      lists = v.good.lists;
      table = v.good.table;
      structures = v.structures.items;
      lost = v.lost.items;
      looking = v.looking;
    } };
}
