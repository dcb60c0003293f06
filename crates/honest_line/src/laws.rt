//! Laws of honest runs, for the proofs of callers: functions that do nothing.

ghost use Rattle.honest_line.specs.Genuine.{NothingIsForged};
ghost use Rattle.honest_line.specs.OneLine.{EachHonestRun};

/// With an honest server all clients stand in one line, in any order of their steps, over failed devices, answers that
/// are lost, come late or come again, crashes and restarts, as long as no digest collides, user 0's client gave each
/// user no key but the user's own, and keys have their forms: no reply and no block is refused; the calls of listed
/// users are answered with success, unless the log is full, memory runs out, a certificate isn't signed under its
/// user's last key, or a version can grow no further; what would come next of an operation would be taken; the line of
/// each accepted view is a beginning of what the server placed, and what it shows is the world of that line. Of
/// signatures nothing is assumed.
pub fn honest_runs_are_on_one_line()
    ensures { EachHonestRun }
{}

/// No signature is forged in an honest run: what a reply shows of a user was released before by the user's client.
pub fn nothing_is_forged()
    ensures { NothingIsForged }
{}
