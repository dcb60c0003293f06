//! Laws of whole runs, for the proofs of callers: functions that do nothing.

ghost use Rattle.std.specs.Prelude.{◌↔◌, Bool, List};
ghost use Rattle.std.specs.List.{All};
ghost use Rattle.client_runs.specs.Released.{views};
ghost use Rattle.client_runs.specs.Runs.{Event, Keys};
ghost use Rattle.layout.specs.Types.{User};
ghost use Rattle.fork_consistency.specs.ByCertificates.{AreByCertificates, EachHonestSuper, HaveTexts};
ghost use Rattle.fork_consistency.specs.ByCertificates.{ListOwnKeysOf};
ghost use Rattle.fork_consistency.specs.ForkConsistent.{AreForkConsistent, AtEachMoment, HasNoUser};
ghost use Rattle.fork_consistency.specs.ForkConsistent.{StandWhereStolen};
ghost use Rattle.fork_consistency.specs.Handles.{AllAreWhole, FirstAreWhole, SignsItsTable};
ghost use Rattle.fork_consistency.specs.LaidFiles.{NameLaidFiles};
ghost use Rattle.fork_consistency.specs.OwnParts.{EachRunOfOthers, IsOutside, StolenPremises};
ghost use Rattle.fork_consistency.specs.Shown.{ShowTrees, ShowWorlds};
ghost use Rattle.fork_consistency.specs.Premises.{AddsOwnKeys, AreKeys, AreKeysOf, EachRun, EachRunApart};
ghost use Rattle.fork_consistency.specs.Premises.{Premises, everybody};
ghost use Rattle.fork_consistency.specs.Signed.{AreSigned, ChangesHaveCauses, EachRunAtAll};
ghost use Rattle.fork_consistency.specs.Signed.{GroupsStandOnSigned, UsersStandOnSigned};
ghost use Rattle.fork_consistency.specs.Worlds.{AreWorldsIn, CanBeRead, OneWorld};

/// In each accepted view of a run the table of principals is that of the beginning, changed by the certificates that
/// user 0's client released, in order, up to some number: as long as no signature of user 0's is forged, no digest
/// collides, user 0's key has the form of a key, and no two keys of user 0's have one identifier, whoever else's keys
/// the server has.
pub fn tables_are_by_certificates()
    ensures tables { EachHonestSuper AreByCertificates }
    // So it has a text,
    ensures texts { EachHonestSuper HaveTexts }
    // and the handle that user 0 signs names it.
    ensures signed { EachHonestSuper (λ keys run. All (SignsItsTable keys run) (views run)) }
    // Where user 0's client added each user with the user's own key, it lists no others.
    ensures keys { EachHonestSuper (λ keys run. AddsOwnKeys keys run → ListOwnKeysOf everybody keys run) }
{}

/// The i-table that a handle names is among the texts of the run, as long as no digest collides, no signature is
/// forged, user 0's client added each user with the user's own key, and keys are as runs_are_fork_consistent asks.
pub fn handles_are_whole()
    // So is the i-table of each principal at the beginning,
    ensures first { EachRun FirstAreWhole }
    // and that of each handle in a structure that was signed over an accepted view.
    ensures signed { EachRun AllAreWhole }
{}

/// An accepted view of a run is the world of its line, as each reading tells it that the run's texts allow, as long as
/// no digest collides, no signature is forged, user 0's client added each user with the user's own key, and keys are as
/// runs_are_fork_consistent asks.
pub fn views_of_runs_are_worlds()
    ensures worlds { EachRun AreWorldsIn }
    // There is such a reading,
    ensures readings { EachRun CanBeRead }
    // and all of them give one world to a line.
    ensures one { EachRun OneWorld }
    // So what looks answer is, and what a client tells of its view.
    ensures shown { EachRun ShowWorlds }
    // What an operation makes or puts is by each reading the file that its user's client was handed for it, or, of what
    // is made, the empty directory.
    ensures laid { EachRun NameLaidFiles }
{}

/// Every run of all users' clients is fork consistent, as long as no digest collides, no signature is forged, user 0's
/// client added each user with the user's own key, user 0's key has the form of a key, and no two keys of a user have
/// one identifier. Of servers nothing is assumed.
pub fn runs_are_fork_consistent()
    ensures consistent { EachRun AreForkConsistent }
    // So each was at each of its moments, by what had been released by then.
    ensures at_each { EachRun (λ keys run. AtEachMoment (AreForkConsistent keys) run) }
{}

/// Where the server has the keys of some users, never of user 0: in each accepted view the part of each other user is
/// that of the world of this user's own certificates, up to some number, as long as no signature of these others is
/// forged, no digest collides, user 0's client added each of them with the user's own key, user 0's key has the form of
/// a key, and no two keys of one of them have one identifier. With what else holds of such a view.
pub fn own_parts_stand()
    ensures stand { EachRunOfOthers StandWhereStolen }
    // So it was at each moment of the run, by what had been released by then.
    ensures at_each { EachRunOfOthers (λ stolen keys run. AtEachMoment (StandWhereStolen stolen keys) run) }
{}

/// Where nobody's key is stolen, the premises of what holds where keys are stolen are those of fork consistency, and so
/// is what is asked of keys.
pub fn stolen_by_nobody()
    ensures premises { (stolen : User → Bool) (keys : Keys) (run : List Event) → HasNoUser stolen
        → StolenPremises stolen keys run ↔ Premises keys run }
    ensures keys { (stolen : User → Bool) (keys : Keys) → HasNoUser stolen
        → AreKeysOf (IsOutside stolen) keys ↔ AreKeys keys }
{}

/// Whoever has whose keys, as long as no digest collides: each accepted view of a run has a tree, and what its client
/// is told of it, by looks and by what it tells itself, is so in that tree. So all that is told of one view agrees.
pub fn looks_tell_of_one_tree()
    ensures { EachRunApart ShowTrees }
{}

/// Whoever has whose keys: in each accepted view each structure and each pending certificate is signed under its user's
/// key by the view's table, and the record of each group is of a user who was a member at its table version.
pub fn views_are_signed()
    ensures signed { EachRunAtAll AreSigned }
    // So each user's part stands on a handle in a structure signed under the user's key, or on that of the beginning;
    ensures users { EachRunAtAll UsersStandOnSigned }
    // each group's on that of its newest record, in a structure signed under the key of a user who was a member at the
    // record's table version, or on that of the beginning;
    ensures groups { EachRunAtAll GroupsStandOnSigned }
    // and where the tree differs from what these handles name, a pending certificate has a change of that place, and is
    // signed under the key of a user who may make it.
    ensures causes { EachRunAtAll ChangesHaveCauses }
{}
