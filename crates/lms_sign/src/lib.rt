//! Signatures LMS (RFC 8554), with the parameter sets LMS_SHA256_M32_H10 and LMOTS_SHA256_N32_W4.
//!
//! A private key is drawn from a seed and has 1,024 leaves, whose keys can be kept so that it needn't be drawn again.
//! Each leaf signs one text: it is a value that is spent by signing, and can be neither copied nor dropped. A signature
//! has 2,508 bytes, and is checked by `verify` with the public key, of 56 bytes.
#![tactic(auto)]

mod bytes;
mod chains;
mod digits;
mod form;
mod laws;
mod leaf;
mod leaves;
mod one_time;
mod private_key;
mod public_key;
mod signing;
mod spent_leaf;
mod stepping;
mod tree;
mod verification;

pub use form::SIGNATURE_SIZE;
pub use laws::{checksums, drawn_has_leaves, signed_is_valid, sizes};
pub use leaf::Leaf;
pub use leaves::{GROUP_COUNT, GROUP_SIZE, leaf_keys};
pub use private_key::{KEPT_SIZE, PrivateKey, SEED_SIZE};
pub use public_key::{ID_SIZE, KEY_SIZE, Key, PublicKey};
pub use signing::sign;
pub use spent_leaf::{SpentLeaf, burn};
pub use tree::LEAF_COUNT;
pub use verification::verify;
