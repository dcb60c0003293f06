//! Where the texts of a journal's state lie in its file.

ghost use Rattle.std.specs.Prelude.{◌≡◌, ℕ, IfSome, IsSome};
ghost use Rattle.layout.specs.Types.{Bytes};
ghost use Rattle.client_journal.specs.Places.{part, state_at, IsBelow, AreBelow};
ghost use Rattle.client_journal.specs.Records.{next_state};

use crate::kind::Kind;
use leaf_ledger::Extent;

/// A state, by where its texts lie.
#[derive(Clone, Copy, Debug)]
pub(crate) enum Phase {
    /// There is no record.
    Idle,
    /// The last record is a certificate, and the one before it a structure, if there is one.
    Declared(Option<Extent>, Extent),
    /// The last record is a structure.
    Signed(Extent),
}

impl Phase {
    /// The state after one record more, whose text lies there, if that is in turn.
    pub(crate) fn after(self, kind: Kind, text: Extent) -> Phase
        ensures next { (file : Bytes) → IfSome (next_state (state_at file self) kind (part text file))
            (λ next. next ≡ state_at file result) }
        ensures below { (end : ℕ) → AreBelow end self → IsBelow end text → AreBelow end result }
    {
        match (self, kind) {
            (Phase::Idle, Kind::Certificate) => Phase::Declared(None, text),
            (Phase::Declared(last, _), Kind::Certificate) => Phase::Declared(last, text),
            (Phase::Signed(structure), Kind::Certificate) => Phase::Declared(Some(structure), text),
            (_, Kind::Structure) => Phase::Signed(text),
        }
    }

    /// A kind of which a record may come next, whatever its text is.
    pub(crate) fn next(self) -> Kind
        ensures { (file text : Bytes) → IsSome (next_state (state_at file self) result text) }
    {
        match self {
            Phase::Idle | Phase::Signed(_) => Kind::Certificate,
            Phase::Declared(_, _) => Kind::Structure,
        }
    }
}
