//! The kinds of requests, and the statuses of replies.

ghost use Rattle.std.specs.Prelude.{◌≡◌};
ghost use Rattle.wire.specs.Frame.{number_of_kind, kind_of, number_of_status, status_of};

/// What a client asks for.
#[derive(Clone, Copy, Debug, PartialEq, Eq)]
pub enum RequestKind {
    /// To place an operation: a signed certificate.
    Update = 1,
    /// To commit it: a signed structure.
    Commit = 2,
    /// To store a block: its bytes.
    Put = 3,
    /// To have a block: its digest.
    Get = 4,
    /// That each block that was stored is kept, whatever becomes of the server: nothing goes with it.
    Sync = 6,
}

/// What the server answers.
#[derive(Clone, Copy, Debug, PartialEq, Eq)]
pub enum Status {
    /// It was done. Only this status has a payload.
    Ok = 0,
    /// The payload isn't of its format.
    Form = 1,
    /// The user isn't listed.
    UnknownUser = 2,
    /// The signature isn't the user's.
    BadSignature = 3,
    /// The operation isn't the user's next one, doesn't name its last structure, or another of the user's is pending.
    WrongNumber = 4,
    /// The user has no pending operation of this plan.
    NotPending = 5,
    /// The log has no room for another call.
    Busy = 6,
    /// A version is the last one, or a block is larger than a stored block may be.
    TooLarge = 7,
    /// There is no such block.
    Absent = 8,
    /// Memory ran out.
    Memory = 9,
}

impl RequestKind {
    /// The number of the kind, 1 to 4 or 6.
    pub fn number(self) -> u8
        ensures { result ≡ number_of_kind self }
    {
        self as u8
    }

    /// The kind of this number, if there is one.
    pub fn from_number(number: u8) -> Option<RequestKind>
        ensures { result ≡ kind_of number }
    {
        match number {
            1 => Some(RequestKind::Update),
            2 => Some(RequestKind::Commit),
            3 => Some(RequestKind::Put),
            4 => Some(RequestKind::Get),
            6 => Some(RequestKind::Sync),
            _ => None,
        }
    }
}

impl Status {
    /// The number of the status, 0 to 9.
    pub fn number(self) -> u8
        ensures { result ≡ number_of_status self }
    {
        self as u8
    }

    /// The status of this number, if there is one.
    pub fn from_number(number: u8) -> Option<Status>
        ensures { result ≡ status_of number }
    {
        match number {
            0 => Some(Status::Ok),
            1 => Some(Status::Form),
            2 => Some(Status::UnknownUser),
            3 => Some(Status::BadSignature),
            4 => Some(Status::WrongNumber),
            5 => Some(Status::NotPending),
            6 => Some(Status::Busy),
            7 => Some(Status::TooLarge),
            8 => Some(Status::Absent),
            9 => Some(Status::Memory),
            _ => None,
        }
    }
}
