//! A block that was asked for.

use layout::Digest;
use tree_parts::Spot;

/// A block that was asked for: its digest, and the place at which it is asked for.
#[derive(Clone, Copy, Debug)]
pub struct Asked {
    /// Its digest.
    pub digest: Digest,
    /// Where it is asked for.
    pub spot: Spot,
}
