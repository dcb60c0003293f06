//! Why a case has no answer but this.

use directory::DirError;
use itable::LayError;
use layout::{Memory, ReadError};
use principals::TableError;
use std::alloc::{AllocError, AllocFailed};
use version_order::PlanError;

/// Why there is no other answer.
#[derive(Clone, Copy, PartialEq, Eq)]
pub(crate) enum Stop {
    /// The line is no case: a word means nothing, or one is lacking or too many.
    Word,
    /// Memory ran out.
    Memory,
    /// A text ends before its end.
    Short,
    /// Bytes follow the end of a text.
    Trailing,
    /// A tag is another.
    Tag,
    /// A key isn't above the one before.
    Order,
    /// A value isn't in its range.
    Range,
    /// What was read is spelled otherwise.
    Other,
    /// A proper prefix of a text isn't short.
    LongPrefix,
    /// A byte more doesn't trail.
    NoTrail,
    /// It is listed already.
    Listed,
    /// The user isn't listed.
    Unlisted,
    /// The principal is no group.
    NoGroup,
    /// The user is no member.
    NoMember,
    /// There is no room for more.
    Full,
    /// User 0 has one key.
    Pinned,
    /// The user has no room for another key.
    KeysFull,
    /// The number isn't above the one of the last key.
    TooSoon,
    /// The name is there.
    There,
    /// The name is absent.
    Absent,
    /// The bytes are no name.
    BadName,
    /// A version is the last one.
    Limit,
    /// There is nothing of this kind.
    Nothing,
    /// The chunk of an i-number isn't loaded.
    NotLoaded,
    /// The chunk of an i-number is loaded already.
    Loaded,
    /// A chunk isn't the one that the root lists.
    AnotherChunk,
    /// A file has more bytes than a file may have.
    TooLarge,
    /// What a writer that fails gets isn't a beginning of what is printed.
    NotCut,
    /// A path has another name behind its last one.
    AnotherName,
    /// A line would go on, for a shell.
    Unclosed,
}

impl Stop {
    /// What is answered.
    pub(crate) fn name(self) -> &'static str {
        match self {
            Stop::Word => "no case",
            Stop::Memory => "memory",
            Stop::Short => "short",
            Stop::Trailing => "trailing",
            Stop::Tag => "tag",
            Stop::Order => "order",
            Stop::Range => "range",
            Stop::Other => "spelled otherwise",
            Stop::LongPrefix => "a prefix isn't short",
            Stop::NoTrail => "a byte more doesn't trail",
            Stop::Listed => "listed",
            Stop::Unlisted => "unlisted",
            Stop::NoGroup => "no group",
            Stop::NoMember => "no member",
            Stop::Full => "full",
            Stop::Pinned => "pinned",
            Stop::KeysFull => "keys full",
            Stop::TooSoon => "too soon",
            Stop::There => "there",
            Stop::Absent => "absent",
            Stop::BadName => "bad name",
            Stop::Limit => "limit",
            Stop::Nothing => "none",
            Stop::NotLoaded => "not loaded",
            Stop::Loaded => "loaded",
            Stop::AnotherChunk => "another chunk",
            Stop::TooLarge => "too large",
            Stop::NotCut => "a writer that fails gets something else",
            Stop::AnotherName => "another name",
            Stop::Unclosed => "unclosed",
        }
    }
}

impl From<AllocError> for Stop {
    fn from(_e: AllocError) -> Stop {
        Stop::Memory
    }
}

impl<T: Drop> From<AllocFailed<T>> for Stop {
    fn from(_e: AllocFailed<T>) -> Stop {
        Stop::Memory
    }
}

impl From<Memory> for Stop {
    fn from(_e: Memory) -> Stop {
        Stop::Memory
    }
}

impl From<ReadError> for Stop {
    fn from(fault: ReadError) -> Stop {
        match fault {
            ReadError::Short => Stop::Short,
            ReadError::Trailing => Stop::Trailing,
            ReadError::BadTag => Stop::Tag,
            ReadError::Order => Stop::Order,
            ReadError::Range => Stop::Range,
            ReadError::Memory => Stop::Memory,
        }
    }
}

impl From<TableError> for Stop {
    fn from(error: TableError) -> Stop {
        match error {
            TableError::Listed => Stop::Listed,
            TableError::Unlisted => Stop::Unlisted,
            TableError::NotGroup => Stop::NoGroup,
            TableError::NotMember => Stop::NoMember,
            TableError::Full => Stop::Full,
            TableError::Memory => Stop::Memory,
            TableError::Pinned => Stop::Pinned,
            TableError::KeysFull => Stop::KeysFull,
            TableError::TooSoon => Stop::TooSoon,
        }
    }
}

impl From<DirError> for Stop {
    fn from(error: DirError) -> Stop {
        match error {
            DirError::There => Stop::There,
            DirError::Absent => Stop::Absent,
            DirError::BadName => Stop::BadName,
            DirError::Full => Stop::Full,
            DirError::Memory => Stop::Memory,
        }
    }
}

impl From<PlanError> for Stop {
    fn from(error: PlanError) -> Stop {
        match error {
            PlanError::Limit => Stop::Limit,
            PlanError::Memory => Stop::Memory,
        }
    }
}

impl From<LayError> for Stop {
    fn from(error: LayError) -> Stop {
        match error {
            LayError::TooLarge => Stop::TooLarge,
            LayError::Memory => Stop::Memory,
        }
    }
}
