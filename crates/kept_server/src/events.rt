//! The calls that placed or committed since the server was opened: the server's events. There is one list of them, which
//! exists in proofs alone and only grows; whoever has seen some of it knows a beginning of it, for good.

ghost use Rattle.std.specs.Prelude.{◌≡◌, ◌+◌, ◌==◌, ◌<◌, ◌^◌, ◌≤◌, ◌++◌, ◌∷◌, [], true, false, length, IfSome, IfNone};
ghost use mathlib.Core.List.{IsPrefix};
ghost use Rattle.kept_server.specs.Events.{count_of};

use crate::key::ServerKey;
use consistency_server::Call;
use logbook::{Gain, Offer, Plain, Play, Rule, Seen, Start, Word};
use std::alloc::{Allocator, Global};
use std::marker::{Model, PhantomData};

/// How many events there can be.
const MOST_EVENTS: u64 = 1 << 62;

// The rule of the list.
pub(crate) struct Counted;

impl Rule<Call<Global>, u64> for Counted {
    ghost use Rattle.std.specs.Prelude.{[]};
    ghost use base.Fml.{ftrue};
    ghost use Rattle.kept_server.specs.Events.{AreCounted};

    ghost holds = { AreCounted };

    ghost first = { [] };

    ghost hinted = { λ n log. Unit {0} };

    ghost shows = { λ log. [] };

    ghost keeps = { λ names log. ftrue };

    ghost moves = { λ ask before after answer. Unit {0} };
}

// Nothing is traded for an event.
pub(crate) struct Nothing;

impl Gain<Call<Global>, u64> for Nothing {
    ghost use base.Fml.{ftrue};

    ghost after = { λ names about answer. ftrue };
}

// One event more.
pub(crate) struct Add;

impl Play<Call<Global>, u64> for Add {
    ghost use Rattle.kept_server.specs.Events.{Adds};

    ghost then = { Adds };
}

impl<A: Allocator> Plain<Call<A>, Call<Global>, u64> for Add {
    ghost use Rattle.std.specs.Prelude.{None};

    ghost ask = { λ call. call };

    ghost state = { λ call. None };
}

type Count = Word<Call<Global>, u64, Counted>;

type SeenEvents = Seen<Call<Global>, u64, Counted>;

/// An empty list of events, which has no name yet.
pub(crate) struct Opened {
    word: Count,
    seen: SeenEvents,
    pub(crate) ghost empty: { seen.log ≡ [] },
    pub(crate) ghost word_is: { word ≡ count_of seen.book },
}

impl Opened {
    /// A new list.
    pub(crate) fn new() -> Opened {
        let (seen, mut first, _second) = Seen::open(Start::alone(), 0, 0);
        Opened {
            word: Word::tracked(0, &mut first),
            seen,
        }
    }

    /// The list under a name.
    pub(crate) fn named<B: ServerKey>(self) -> Events<B>
        requires { self.seen.book ≡ B.book }
        ensures { result ≡ [] }
    {
        let Opened { word, seen } = self;
        Events {
            word,
            all: Beginning {
                size: 0,
                seen,
                of: PhantomData,
            },
        }
    }
}

/// A beginning of the events, which was seen. Contracts see it as these events.
#[derive(Drop)]
pub(crate) struct Beginning<B: ServerKey> {
    size: u64,
    seen: SeenEvents,
    of: PhantomData<B>,
}

impl<B: ServerKey> Model for Beginning<B> {
    ghost use Rattle.std.specs.Prelude.{◌≡◌, List, length};
    ghost use Rattle.consistency_server.specs.Answers.{Call};

    ghost Value = { List Call };

    ghost view = { λ b. b.seen.log };

    ghost invariant = { λ b. (b.size ≡ length b.seen.log) × (b.seen.book ≡ B.book) };
}

impl<B: ServerKey> Beginning<B> {
    /// A copy.
    pub(crate) fn again(&self) -> Beginning<B>
        ensures { result ≡ self.now }
    {
        Beginning {
            size: self.size,
            seen: self.seen.again(),
            of: PhantomData,
        }
    }

    /// How many events more it has than another, with which it begins. None where it has less.
    pub(crate) fn more_than(&self, other: &Beginning<B>) -> Option<u64>
        ensures begins { IfSome result (λ n. IsPrefix other.now self.now × (length self.now ≡ length other.now + n)) }
        ensures less { IfNone result (length self.now < length other.now) }
    {
        let mut both = self.seen.again();
        both.learn(&other.seen);
        if self.size < other.size {
            return None;
        }
        Some(self.size - other.size)
    }

    /// Adds an event to all that were seen. False where there are too many, or more than were seen.
    fn add<A: Allocator>(&mut self, word: &Count, call: &Call<A>) -> bool
        requires { word.now ≡ count_of B.book }
        ensures { result ≡ true → self.new ≡ self.old ++ call.now ∷ [] }
    {
        let size = self.size;
        if size >= MOST_EVENTS {
            return false;
        }
        let mut offer: Offer<Call<Global>, u64, Counted, Nothing> = self
            .seen
            .plain::<Nothing, Call<A>, Add>(call);
        let mut pen = self.seen.no_pen();
        let found = word.compare_exchange::<Add, Nothing>(
            size,
            size + 1,
            &mut self.seen,
            &mut offer,
            &mut pen,
        );
        self.size = if found == size { size + 1 } else { found };
        found == size
    }
}

/// The end of the list, where events are added. Contracts see all events.
#[derive(Drop)]
pub(crate) struct Events<B: ServerKey> {
    word: Count,
    all: Beginning<B>,
}

impl<B: ServerKey> Model for Events<B> {
    ghost use Rattle.std.specs.Prelude.{◌≡◌, List};
    ghost use Rattle.consistency_server.specs.Answers.{Call};
    ghost use Rattle.kept_server.specs.Events.{count_of};

    ghost Value = { List Call };

    ghost view = { λ e. e.all };

    ghost invariant = { λ e. e.word ≡ count_of B.book };
}

impl<B: ServerKey> Events<B> {
    /// The events so far.
    pub(crate) fn so_far(&self) -> &Beginning<B>
        ensures { result.now ≡ self.now }
    {
        &self.all
    }

    /// One event more. False where there are too many.
    pub(crate) fn add<A: Allocator>(&mut self, call: &Call<A>) -> bool
        ensures added { result ≡ true → self.new ≡ self.old ++ call.now ∷ [] }
        ensures same { result ≡ false → self.new ≡ self.old }
    {
        let mut more = self.all.again();
        if !more.add(&self.word, call) {
            return false;
        }
        self.all = more;
        true
    }
}
