//! Laws of logs, for the proofs of callers: functions that do nothing.

ghost use Rattle.std.specs.Prelude.{◌≡◌, ◌⊎◌, List, ◌++◌};
ghost use Rattle.layout.specs.Types.{Bytes};
ghost use Rattle.layout.specs.Format.{IsBytes};
ghost use Rattle.leaf_ledger.specs.Device.{History, Leaves};
ghost use Rattle.record_log.specs.Records.{Record, Tells, IsDamaged};
ghost use Rattle.record_log.specs.Life.{Event, IsLife, IsPossible, MayAdd, additions, end_of};

/// Each file tells one list of records, or is damaged.
pub fn files_tell_or_are_damaged()
    // Each tells records, or is damaged,
    ensures either { (file : Bytes) → IsBytes file → ((rs : List Record) × Tells rs file) ⊎ IsDamaged file }
    // none is both,
    ensures not_both { (file : Bytes) (rs : List Record) → Tells rs file → IsDamaged file → ⊥ }
    // and none tells two lists.
    ensures one { (file : Bytes) (some others : List Record) → Tells some file → Tells others file → some ≡ others }
{}

/// Over every list of calls and crashes, also inside a call, the records are those that were there before, and after
/// them, in order, those of the appends that were answered Ok, and of each other append all or none.
pub fn records_stay()
    ensures { (start : History) (rs : List Record) → Tells rs start.now.text → Leaves (Tells rs) start.now
        → (events : List Event) → IsLife start events
        → (file : Bytes) → IsPossible (end_of start events) file
        → (added : List Record) × MayAdd (additions events) added × Tells (rs ++ added) file }
{}
