//! The gate before the one order.

/// What each UPDATE and each COMMIT passes before any lock is taken, and who is told of a block for which there is no
/// room, and that the server has stopped. A test holds calls up in it.
pub trait Gate {
    /// Lets a call pass. Calls are numbered from 1 over all workers; after the last number of a `u64` comes 0.
    fn pass(&self, call: u64);

    /// A block isn't stored, since the blocks that are leave it no room.
    fn block_refused(&self) {}

    /// The server has stopped: what it has can't be kept any more, and no request is replied to.
    fn stopped(&self) {}
}

/// A gate that holds nobody up, and tells nobody.
#[derive(Clone, Copy, Debug)]
pub struct OpenGate;

impl Gate for OpenGate {
    fn pass(&self, _call: u64) {}
}
