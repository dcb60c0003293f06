//! A law of honest runs, for the proofs of callers: a function that does nothing.

ghost use Rattle.honest_runs.specs.HonestRuns.{AreRuns};

/// What clients do in an honest run is a run of clients.
pub fn honest_runs_are_runs()
    ensures { AreRuns }
{}
