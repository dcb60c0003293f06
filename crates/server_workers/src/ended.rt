//! How conversations end.

/// How a conversation ended.
#[derive(Clone, Copy, Debug, PartialEq, Eq)]
pub enum Ended {
    /// The connection was read to its end.
    End,
    /// The connection failed.
    Fault,
    /// The length of a frame was 0 or above 2,097,152.
    Length,
    /// Memory ran out.
    Memory,
    /// The server had stopped, since the storage failed in which it keeps what it has, or memory ran out for it: a
    /// request has no reply, nor have those behind it.
    Stopped,
}
