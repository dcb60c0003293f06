//! Where the calls go that placed or committed an operation, for whoever keeps them.

ghost use Rattle.std.specs.Prelude.{◌≡◌, ◌==◌, [], ◌∷◌, ◌++◌, OnOk, OnErr, IfOk, IsTrue, length};

use crate::call::Call;
use layout::Memory;
use std::alloc::Allocator;
use std::marker::Model;
use thiserror::Error;

/// The log has no room for another entry.
#[derive(Clone, Copy, Debug, Error)]
#[error("the log is full")]
pub struct LogFull;

/// A log of entries of one type.
pub trait Log<E> {
    ghost use Rattle.std.specs.Prelude.{List, Bool};

    /// What was pushed, the oldest first.
    ghost pushed: { Self → List E };

    /// It may refuse an entry. A log that another thread empties can't know whether it will: who pushes sees only what
    /// it pushed.
    ghost may_be_full: { Self → Bool };

    /// Takes an entry after the others. It takes no memory.
    fn try_push(&mut self, entry: E) -> Result<(), LogFull>
        ensures ok { OnOk result (pushed self.new ≡ pushed self.old ++ entry ∷ []) }
        ensures full { OnErr result (IsTrue (may_be_full self.old)) }
        ensures err { OnErr result (pushed self.new ≡ pushed self.old) };
}

/// How many calls a log in memory takes.
const LOG_ROOM: usize = 1024;

/// A log in memory, of at most 1,024 calls.
#[derive(Drop)]
pub struct MemoryLog<A: Allocator> {
    calls: Vec<Call<A>, A>,
}

impl<A: Allocator> Model for MemoryLog<A> {
    ghost use Rattle.std.specs.Prelude.{List, vec_capacity, vec_len, ◌≤◌};
    ghost use Rattle.consistency_server.specs.Answers.{Call};

    ghost Value = { List Call };

    ghost view = { λ l. l.calls.items };

    ghost invariant = { λ l. (vec_len l.calls ≤ 1024) × (1024 ≤ vec_capacity l.calls) };
}

impl<A: Allocator> MemoryLog<A> {
    /// An empty log, with room for all that it may take.
    pub fn new(alloc: A) -> Result<MemoryLog<A>, Memory>
        ensures { IfOk result (λ log. log ≡ []) }
    {
        let calls = Vec::with_capacity(alloc, LOG_ROOM)?;
        Ok(MemoryLog { calls })
    }

    /// What was pushed, the oldest first.
    pub fn calls(&self) -> &[Call<A>]
        ensures { result.now ≡ self.now }
    {
        &self.calls
    }
}

impl<A: Allocator> Log<Call<A>> for MemoryLog<A> {
    ghost pushed = { λ log. log };

    ghost may_be_full = { λ log. length log == 1024 };

    fn try_push(&mut self, call: Call<A>) -> Result<(), LogFull> {
        if self.calls.len() == LOG_ROOM {
            return Err(LogFull);
        }
        self.calls.push(call).map_err(|_| LogFull)
    }
}
