//! A law of logs, for the proofs of callers: a function that does nothing.

ghost use Rattle.std.specs.Prelude.{◌≡◌, List, [], ◌∷◌, ◌++◌, reverse};
ghost use Rattle.layout.specs.Types.{Key};
ghost use Rattle.consistency_server.specs.Answers.{Call};
ghost use Rattle.consistency_server.specs.History.{answer_of, events, kept, log_of, logged};

/// Carrying out the calls of a log, and no others, leads to what the server kept that wrote it.
pub fn log_replays()
    // What the calls of the log place and commit is what the history did, in the same order.
    ensures events { (pinned : Key) (history : List Call)
        → events pinned (reverse (log_of pinned history)) ≡ events pinned history }
    // So the same is kept,
    ensures kept { (pinned : Key) (history : List Call)
        → kept pinned (reverse (log_of pinned history)) ≡ kept pinned history }
    // and the next call is answered the same.
    ensures answer { (pinned : Key) (history : List Call) (call : Call)
        → answer_of pinned (reverse (log_of pinned history)) call ≡ answer_of pinned history call }
    // Each of the calls places or commits again, after those before it in the log,
    ensures each { (pinned : Key) (history before after : List Call) (call : Call)
        → log_of pinned history ≡ before ++ call ∷ after
        → logged (record { pinned = pinned; history = reverse before }) call ≡ call ∷ [] }
    // and so they leave the same log.
    ensures again { (pinned : Key) (history : List Call)
        → log_of pinned (reverse (log_of pinned history)) ≡ log_of pinned history }
{}
