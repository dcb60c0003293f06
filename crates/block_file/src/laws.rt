//! A law of files of blocks, for the proofs of callers: a function that does nothing.

ghost use Rattle.std.specs.Prelude.{List};
ghost use Rattle.layout.specs.Types.{Bytes};
ghost use Rattle.leaf_ledger.specs.Device.{History};
ghost use Rattle.block_file.specs.Life.{IsSafe, Event, IsLife, end_of};

/// Over every list of calls and crashes, also inside a call, a text that is safe once is safe at the end.
pub fn blocks_stay()
    ensures { (start : History) (text : Bytes) → IsSafe start text
        → (events : List Event) → IsLife start events → IsSafe (end_of start events) text }
{}
