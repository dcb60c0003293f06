//! How far a client is with its operation.

/// How far a client is with its operation.
#[derive(Clone, Copy, Debug, PartialEq, Eq)]
pub enum Phase {
    /// No operation is under way.
    Idle,
    /// A certificate is declared, and no reply to it is signed.
    Declared,
    /// A structure is signed, and not known to be committed.
    Signed,
    /// A device failed: the client has to be opened again.
    Failed,
}
