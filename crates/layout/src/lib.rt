//! The ground of every text: bytes, digests, and formats, by which texts are read and written.
//!
//! A format (specs/Format.antt) says for a type of values how each is spelled as bytes, and what is read from the
//! front of bytes: the value, or the first fault from the left. Its laws (specs/Laws.antt) are proved once for each way
//! to join formats, so that a text of the crates above is one expression.
#![tactic(auto)]

mod digests;
mod error;
mod hashing;
mod ranges;
mod reader;
mod rows;
mod text;
mod values;
mod writer;

pub use digests::{Digest, are_bytes};
pub use error::{Memory, ReadError};
pub use hashing::{Hasher, digest};
pub use ranges::{Group, INumber, Principal, User, Version};
pub use reader::Reader;
pub use rows::{RowFormat, RowState, read_rows, read_rows_into, write_rows};
pub use text::{Text, read_nested, write_nested};
pub use values::{beside, let_go, put_in};
pub use writer::Writer;
