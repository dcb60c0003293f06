//! A law of a server's log over all its life, for the proofs of callers: a function that does nothing.

ghost use Rattle.leaf_ledger.specs.Device.{History, IsAtMostSynced};
ghost use Rattle.record_log.specs.Life.{Nothing, Call};
ghost use Rattle.kept_server.specs.Stays.{ToldStays};

use record_log::files_tell_or_are_damaged;

/// What was told stays told. An answer tells of calls that a receipt shows to be in the log, synced (`converse`). After any
/// calls on the log, crashes between and inside them, and starts, the calls that a start finds in the log begin with
/// those: so the answer is one after a history that the server still has.
pub fn what_was_told_stays()
    ensures stays { ToldStays }
    // A start adds nothing to a log that has a record: it is one of the calls of such a life (`open_order`, `kept`).
    ensures starts { (old new : History) → IsAtMostSynced old new → Call Nothing old new }
{
    files_tell_or_are_damaged();
}
