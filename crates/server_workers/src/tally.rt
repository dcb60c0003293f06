//! How many calls the workers answered.

ghost use Rattle.std.specs.Prelude.{◌≡◌, ◌+◌, ◌^◌, ◌<◌, true, false};

use std::sync::ledger::{Blank, Book, Ledger, Share};

/// A worker's share of the number of calls that were answered otherwise than busy or out of memory.
#[derive(Drop)]
pub struct Tally<L: Ledger> {
    pub(crate) answered: u64,
    pub(crate) share: Share<L>,
    ghost counted: { share.amount ≡ answered },
}

impl<L: Ledger> Tally<L> {
    /// Nothing was answered yet.
    pub(crate) fn new(share: Share<L>) -> Tally<L>
        requires { share.amount ≡ 0 }
        ensures { (result.answered ≡ 0) × (result.share.parts ≡ share.parts) }
    {
        Tally { answered: 0, share }
    }

    /// Parts with a tally of nothing for a worker.
    pub(crate) fn split(&mut self) -> WorkerTally<L>
        requires { 1 < self.old.share.parts }
        ensures { self.new.share.parts + 1 ≡ self.old.share.parts }
    {
        let tally = Tally::new(self.share.split_off(1, 0));
        WorkerTally { tally }
    }

    /// The number of calls that were answered.
    pub fn answered(&self) -> u64
        ensures { result ≡ self.now.answered }
    {
        self.answered
    }
}

/// The tally that a worker is given, and hands back when it ends: it has one part of the ledger.
#[derive(Drop)]
pub(crate) struct WorkerTally<L: Ledger> {
    tally: Tally<L>,
    ghost one: { tally.share.parts ≡ 1 },
}

impl<L: Ledger> WorkerTally<L> {
    pub(crate) fn tally(self) -> Tally<L>
        ensures { result.share.parts ≡ 1 }
    {
        let WorkerTally { tally } = self;
        tally
    }

    pub(crate) fn of(tally: Tally<L>) -> WorkerTally<L>
        requires { tally.share.parts ≡ 1 }
    {
        WorkerTally { tally }
    }
}

/// How many calls were answered, over all tallies: for a server that counts them apart from its order.
#[derive(Drop)]
pub struct Counter<L: Ledger> {
    count: u64,
    book: Book<L>,
    ghost counted: { book.total ≡ count },
}

impl<L: Ledger> Counter<L> {
    /// Before the first call, and the tally with all parts.
    pub fn open(blank: Blank) -> (Counter<L>, Tally<L>)
        requires name { blank.name ≡ L.name }
        requires parts { blank.parts ≡ L.parts }
        ensures tally { (result.1.answered ≡ 0) × (result.1.share.parts ≡ L.parts) }
    {
        let (book, share) = blank.open::<L>();
        (Counter { count: 0, book }, Tally::new(share))
    }

    /// Counts a call. False where it can't count so far.
    pub fn count(&mut self, mine: &mut Tally<L>) -> bool
        requires { 0 < mine.old.share.parts }
        ensures counted { result ≡ true → mine.new.answered ≡ mine.old.answered + 1 }
        ensures same { result ≡ false → mine.new.answered ≡ mine.old.answered }
        ensures parts { mine.new.share.parts ≡ mine.old.share.parts }
    {
        let Counter { count, book } = self;
        let Tally { answered, share } = mine;
        let Some(more) = count.checked_add(1) else {
            return false;
        };
        book.add(share, 1);
        book.audit(share);
        *count = more;
        *answered += 1;
        true
    }

    /// Changes nothing, and tells that what a share has can be counted.
    pub fn audit(&mut self, share: &mut Share<L>)
        ensures parts { share.new.parts ≡ share.old.parts }
        ensures amount { share.new.amount ≡ share.old.amount }
        ensures small { share.new.amount < 2 ^ 64 }
    {
        self.book.audit(share);
        let _count = self.count;
    }
}
