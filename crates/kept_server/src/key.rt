//! What names one server, for the types that belong to it.

use std::marker::Brand;

/// One server: the key of user 0, the list of its events, and the log that it was opened with. It exists in proofs
/// alone.
pub(crate) trait ServerKey {
    ghost use Rattle.std.specs.Prelude.{List};
    ghost use Rattle.logbook.specs.Pages.{Book};
    ghost use Rattle.layout.specs.Types.{Key};
    ghost use Rattle.leaf_ledger.specs.Device.{History};
    ghost use Rattle.consistency_server.specs.Answers.{Call};

    ghost pinned: { Key };

    /// Its events.
    ghost book: { Book };

    /// The calls in the log, when the server was opened.
    ghost told: { List Call };

    /// The log's file then.
    ghost start: { History };
}

impl ServerKey for Brand {
    ghost use Rattle.std.specs.Prelude.{[]};
    ghost use Rattle.leaf_ledger.specs.Device.{started};
    ghost use Rattle.kept_server.specs.Events.{no_book};

    ghost pinned = { [] };

    ghost book = { no_book };

    ghost told = { [] };

    ghost start = { started [] };
}
