//! Laws of dialogues, for the proofs of callers: functions that do nothing.

ghost use Rattle.honest_dialogues.specs.GoingOn.{EachDeclaredGoesThrough, EachOperationGoesThrough};
ghost use Rattle.honest_dialogues.specs.GoingOn.{EachResignedGoesThrough};
ghost use Rattle.honest_dialogues.specs.OneLine.{EachDialogueIsOneLine};
ghost use Rattle.honest_dialogues.specs.Reading.{EachReadTableIsNamed};
ghost use Rattle.honest_dialogues.specs.Signing.{EachSignsOver};

/// Over every dialogue of honest clients with one server, in any order of their moves, with answers that are lost, come
/// late or come again, and clients that are opened again, or sign again what was declined, each UPDATE is answered with
/// a reply in which its client finds no rule broken but those on blocks, or its user isn't listed, has another key last
/// or can go no further; each COMMIT is answered with success; and the line of each accepted view is a beginning of
/// what the server placed. Of digests it is assumed that no handle of user 0's names two tables; of signatures nothing,
/// but that a structure is signed under the key that the table names.
pub fn clients_stand_in_one_line()
    ensures { EachDialogueIsOneLine }
{}

/// After each such dialogue the next operation of a user goes through who has none, is listed, signs it under its last
/// key, and isn't at the limit of a version: it is declared and sent, its reply heard, and whatever structure an honest
/// client signs over that is sent, and heard to be committed.
pub fn operations_go_through()
    ensures next { EachOperationGoesThrough }
    // Where it was signed under another key, it is declined, and goes through once it is signed again under the last.
    ensures again { EachResignedGoesThrough }
    // So does any that is declared, signed under that key, whatever was done since.
    ensures declared { EachDeclaredGoesThrough }
{}

/// The structure that a client signs next over an accepted reply has the records of groups that an honest client gives
/// it: a new one of each group that the operation raises, and those of its last structure for the others.
pub fn next_structures_are_honest()
    ensures { EachSignsOver }
{}

/// The table of principals that a client reads of a reply, on one that user 0's handle names, is that of the reply's
/// lists: user 0's pending operation is the only one that counts.
pub fn tables_read_are_named()
    ensures { EachReadTableIsNamed }
{}
