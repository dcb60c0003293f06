//! Which calls came to the log.

ghost use Rattle.std.specs.Prelude.{◌≡◌, [], true, false};

use consistency_server::{Call, Log, LogFull};
use std::alloc::Allocator;
use std::marker::Model;
use std::snapshot::Snapshot;

/// The calls that came to the log, the oldest first. Contracts see each; what is kept is how many they are.
#[derive(Drop)]
pub(crate) struct Told<A: Allocator> {
    calls: Vec<Snapshot<Call<A>>, A>,
}

impl<A: Allocator> Model for Told<A> {
    ghost use Rattle.std.specs.Prelude.{List, map};
    ghost use Rattle.consistency_server.specs.Answers.{Call};

    ghost Value = { List Call };

    ghost view = { λ t. map (λ s. s.value) t.calls.items };
}

impl<A: Allocator> Told<A> {
    /// None yet.
    pub(crate) fn new(alloc: A) -> Told<A>
        ensures { result ≡ [] }
    {
        Told {
            calls: Vec::new(alloc),
        }
    }

    /// Whether none came.
    pub(crate) fn is_empty(&self) -> bool
        ensures yes { result ≡ true → self.now ≡ [] }
        ensures no { result ≡ false → self.now ≡ [] → ⊥ }
    {
        self.calls.is_empty()
    }
}

impl<A: Allocator> Log<Call<A>> for Told<A> {
    ghost use Rattle.std.specs.Prelude.{true};

    ghost pushed = { λ t. t };

    ghost may_be_full = { λ _. true };

    fn try_push(&mut self, call: Call<A>) -> Result<(), LogFull> {
        match self.calls.reserve(1) {
            Ok(()) => {
                self.calls.push_reserved(Snapshot::of(&call));
                Ok(())
            }
            Err(_) => Err(LogFull),
        }
    }
}
