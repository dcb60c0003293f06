//! Laws of accepted views, for the proofs of callers: functions that do nothing.

ghost use Rattle.std.specs.Prelude.{◌≡◌, true};
ghost use Rattle.agreement.specs.Runs.{EachAccepted};
ghost use Rattle.agreement.specs.Lines.{Agree, AgreeByPlans, AreNumbered, EndWithOwn, Grow};
ghost use Rattle.agreement.specs.Worlds.{AllListed, AreWorlds, EachHonestRun, IsGuarded, JudgeAsWorld, LoseVoid};
ghost use Rattle.agreement.specs.AfterNewest.{OwnComesAfter, lists_in};
ghost use Rattle.client_tree.specs.View.{View};
ghost use Rattle.reply_rules.specs.Rules.{group_records, vector};
ghost use Rattle.update_cert.specs.Cert.{Cert};
ghost use Rattle.update_cert.specs.Reading.{Reading};
ghost use Rattle.update_cert.specs.World.{Tree};

/// Accepted views agree, as long as no digest collides and no signature is forged. Of the server nothing is assumed.
pub fn views_agree()
    // In each line each user's numbers are 1, 2, 3 and so on.
    ensures numbered { EachAccepted AreNumbered }
    // A line ends with the own operation.
    ensures ended { EachAccepted EndWithOwn }
    // A user's line only grows.
    ensures growing { EachAccepted Grow }
    // Views that have a structure in common agree up to it.
    ensures agreed { EachAccepted Agree }
    // So do those that have a plan in common, committed or pending.
    ensures planned { EachAccepted AgreeByPlans }
{}

/// What a client reads of an accepted view is the world of the view's line, whatever stands for the digests, as long as
/// all users are honest: their handles name what they read, and no digest collides and no signature is forged.
pub fn views_are_worlds()
    // The tree is the world of the line.
    ensures worlds { EachHonestRun AreWorlds }
    // The numbers that it loses are the void changes of the own operation at its place.
    ensures losses { EachHonestRun LoseVoid }
    // Membership at an operation's table version is that in the world before it.
    ensures judged { EachHonestRun JudgeAsWorld }
    // Each operation's user is listed in the world before it.
    ensures listed { EachHonestRun AllListed }
    // Along a line a part is changed only by its user, or by a member of its group.
    ensures guarded { (reads : Reading) (w : Tree) (c : Cert) → IsGuarded reads w c }
{}

/// The own operation comes after the newest record of each group that it raises, where the lists of a view keep the
/// rules on vectors and on group records, whatever else they break.
pub fn own_comes_after_newest()
    ensures { (x : View) → vector x.table (lists_in x) ≡ true → group_records x.table (lists_in x) ≡ true
        → OwnComesAfter x }
{}
