//! Laws of runs in which the server ends and is started again, for the proofs of callers: functions that do nothing.

ghost use Rattle.restarted_runs.specs.Restarts.{EachKeptRun, ToldStays};

use server_log::log_replays;

/// A run with a server that keeps its log, and that may end at any time and be started again over what its log has, is
/// an honest run once what was lost is left out: calls of which nobody was told. Clients do the same in both, and both
/// leave the same log. So all clients stand in one line, as `honest_line::honest_runs_are_on_one_line` says.
///
/// An answer goes out only once all that the log has at that time is synced, unless it tells that memory ran out; and a
/// block counts as put once SYNC was answered after it.
pub fn runs_with_starts_are_honest_runs()
    ensures { EachKeptRun }
{
    log_replays();
}

/// What was told stays told: the log begins with the calls that it had when an answer went out, whatever comes later,
/// unless that answer tells that memory ran out.
pub fn what_was_told_stays()
    ensures { ToldStays }
{
    log_replays();
}
