//! Laws of histories, for the proofs of callers: functions that do nothing.

ghost use Rattle.honest_history.specs.Answered.{EachCommitIsAnswered, EachCommitStaysHonest};
ghost use Rattle.honest_history.specs.Answered.{EachUpdateIsAnswered, EachUpdateStaysHonest};
ghost use Rattle.honest_history.specs.OneLine.{EachLineIsPlaced};
ghost use Rattle.honest_history.specs.Served.{EachReplyIsUnbroken};

/// Where each structure that a server took is one that an honest client signs over the reply to its own operation,
/// under the key that the table has of its user at the number of its plan, no reply of UPDATE breaks a rule on replies,
/// lists, signatures or the table of principals, however the operations of its users lie in each other. Nothing is
/// assumed of digests and signatures.
pub fn replies_are_unbroken()
    ensures { EachReplyIsUnbroken }
{}

/// The calls that honest clients make are answered with success, but for an UPDATE of a user that isn't listed, under
/// another key than the user's last one, or whose versions can grow no further.
pub fn calls_are_answered()
    ensures updates { EachUpdateIsAnswered }
    ensures commits { EachCommitIsAnswered }
    // After them, too, all that was committed is what honest clients sign.
    ensures updates_honest { EachUpdateStaysHonest }
    ensures commits_honest { EachCommitStaysHonest }
{}

/// The line of each view over a reply of such a server is a beginning of the operations that it placed, in their order.
pub fn views_stand_in_one_line()
    ensures { EachLineIsPlaced }
{}
