//! What one user's client releases: each text that it signs takes a leaf of its key's ledger and a record of the journal
//! before it is handed out, and after a restart the journal tells what was released last.
//!
//! A `Releases` stands on a ledger of each own key's leaves and a journal of the signed texts, each on a device of its
//! own. It signs certificates and structures in turn, a certificate once more where that is asked for, and keeps in
//! memory what the records of the journal tell.
#![tactic(auto)]

mod error;
mod laws;
mod own_key;
mod parts;
mod phase;
mod releases;
mod releasing;
mod signing;
mod told;

pub use error::ClientError;
pub use laws::drawn_is_used_up;
pub use own_key::Keys;
pub use parts::Parts;
pub use phase::Phase;
pub use releases::Releases;
pub use signing::{Sealed, Unsigned};
