//! Kinds of records.

ghost use Rattle.std.specs.Prelude.{◌≡◌};
ghost use Rattle.client_journal.specs.Records.{number_of, kind_of};

/// What a record is a record of.
#[derive(Clone, Copy, Debug, PartialEq, Eq)]
pub enum Kind {
    /// A signed certificate.
    Certificate,
    /// A signed structure.
    Structure,
}

impl Kind {
    /// Its number in the file.
    pub(crate) fn number(self) -> u8
        ensures { result ≡ number_of self }
    {
        match self {
            Kind::Certificate => 1,
            Kind::Structure => 2,
        }
    }

    /// The kind that has a number.
    pub(crate) fn of(number: u8) -> Option<Kind>
        ensures { result ≡ kind_of number }
    {
        match number {
            1 => Some(Kind::Certificate),
            2 => Some(Kind::Structure),
            _ => None,
        }
    }
}
