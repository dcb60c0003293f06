//! The queue of the commit log under its rule: one pass pushes, and one pops.

use consistency_server::Call;
use crossbeam_queue::protocol::{Join, Lesson, Outcome, Protocol, Split};
use crossbeam_queue::{Pass, RuledArrayQueue};
use std::alloc::{Allocator, Global};
use std::collections::LinkedList;
use std::marker::Brand;

/// How many calls the commit log holds.
pub const QUEUE_ROOM: usize = 1024;

/// One server: its queue of calls, the key of user 0, and what the writer of its log held before. It exists in proofs
/// alone.
pub trait ServerName {
    ghost use Rattle.std.specs.Prelude.{List, ℕ, Option};
    ghost use Rattle.atomic_table.specs.Seated.{TableId};
    ghost use Rattle.layout.specs.Types.{Key};

    ghost queue: { TableId };

    ghost pinned: { Key };

    ghost before: { Option (List ℕ) };
}

impl ServerName for Brand {
    ghost use Rattle.std.specs.Prelude.{[], None};
    ghost use Rattle.server_workers.specs.Relay.{no_queue};

    ghost queue = { no_queue };

    ghost pinned = { [] };

    ghost before = { None };
}

// What a pass may do, what it has pushed and what it has popped. No value of it is made, and contracts see a call of
// any allocator as one type.
pub struct Hand {
    pub pushes: bool,
    pub pops: bool,
    pub sent: LinkedList<Call<Global>>,
    pub got: LinkedList<Call<Global>>,
}

/// The rule: what was popped, and then what the queue holds, is what was pushed.
pub struct InOrder;

impl<A: Allocator> Protocol<Call<A>, Hand> for InOrder {
    ghost use Rattle.std.specs.Prelude.{true, []};
    ghost use Rattle.server_workers.specs.Hands.{hand};
    ghost use Rattle.server_workers.specs.Relay.{Relayed};

    ghost holds = { Relayed };

    ghost first = { hand true true [] [] };
}

/// How one pass becomes one that pushes and one that pops, and these one again.
pub struct Roles;

impl Split<Hand> for Roles {
    ghost use Rattle.std.specs.Prelude.{true, false, []};
    ghost use Rattle.server_workers.specs.Hands.{hand};

    ghost left = { λ v. hand true false v.sent [] };

    ghost right = { λ v. hand false true [] v.got };
}

// The popper takes in the pusher.
impl Join<Hand> for Roles {
    ghost use Rattle.std.specs.Prelude.{true, false, []};
    ghost use Rattle.server_workers.specs.Hands.{hand};

    ghost both = { λ v w. hand true true w.sent v.got };

    ghost spent = { hand false false [] [] };
}

/// A push: the call comes after what was pushed. A full queue holds an end of what was pushed.
pub struct Pushes;

impl<A: Allocator> Outcome<Call<A>, Hand> for Pushes {
    ghost use Rattle.std.specs.Prelude.{◌≡◌, [], ◌∷◌, ◌++◌};
    ghost use Rattle.server_workers.specs.Hands.{hand};

    ghost then = { λ v x w. w ≡ hand v.pushes v.pops (v.sent ++ x ∷ []) v.got };
}

impl<A: Allocator> Lesson<Call<A>, Hand> for Pushes {
    ghost use Rattle.server_workers.specs.Relay.{HoldsEnd};

    ghost fact = { HoldsEnd };
}

/// A pop: the call comes after what was popped. Who holds both ends knows what the queue holds.
pub struct Takes;

impl<A: Allocator> Outcome<Call<A>, Hand> for Takes {
    ghost use Rattle.std.specs.Prelude.{◌≡◌, [], ◌∷◌, ◌++◌};
    ghost use Rattle.server_workers.specs.Hands.{hand};

    ghost then = { λ v x w. w ≡ hand v.pushes v.pops v.sent (v.got ++ x ∷ []) };
}

impl<A: Allocator> Lesson<Call<A>, Hand> for Takes {
    ghost use Rattle.std.specs.Prelude.{◌≡◌, true, ◌++◌};

    ghost fact = { λ v items. v.pushes ≡ true → v.pops ≡ true → v.sent ≡ v.got ++ items };
}

/// The queue of calls.
pub type CallQueue<A> = RuledArrayQueue<Call<A>, Hand, InOrder, A>;

/// A pass of it.
pub type CallPass<A> = Pass<Call<A>, Hand>;
