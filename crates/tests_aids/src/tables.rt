//! User 0's i-table that names a table of principals, and user 0's structure over it, by hand.

use crate::blocks::EMPTY_INODE;
use crate::host::{Aided, given};
use crate::texts::{joined, plan, signed, structure};
use layout::digest;
use lms_sign::PrivateKey;
use std::alloc::Global;

/// A form of a key, under which nothing is signed.
pub const FORM: &[u8; 56] =
    b"\x00\x00\x00\x06\x00\x00\x00\x03................................................";

/// The texts of user 0's i-table down to the i-node of the table of principals.
#[derive(Drop)]
pub struct Texts {
    pub root: Vec<u8>,
    pub chunk: Vec<u8>,
    pub inode: Vec<u8>,
}

/// The i-node of a file of so many bytes in these blocks.
fn inode_of(rt: &impl Aided, size: u32, blocks: &[Vec<u8>]) -> Vec<u8> {
    let [.., high, low] = blocks.len().to_be_bytes();
    let mut text = joined(rt, &[b"SIN1\x01", &size.to_be_bytes(), &[high, low]]);
    for block in blocks {
        let digest = digest(block);
        given(rt, text.extend_from_slice(digest.as_bytes()), "memory");
    }
    text
}

/// The texts where the table is a file of so many bytes in these blocks, and the root directory is empty.
pub fn texts_over(rt: &impl Aided, size: u32, blocks: &[Vec<u8>]) -> Texts {
    let inode = inode_of(rt, size, blocks);
    let (table, root) = (digest(&inode), digest(EMPTY_INODE));
    let chunk = joined(
        rt,
        &[
            b"STC1\0\x02\0\x01",
            table.as_bytes(),
            b"\0\x02",
            root.as_bytes(),
        ],
    );
    let root = joined(rt, &[b"STR1\0\x01\0", digest(&chunk).as_bytes()]);
    Texts { root, chunk, inode }
}

/// A row of a user in the text of a table.
pub fn listing(rt: &impl Aided, user: u8, since: u8, key: &[u8; 56]) -> Vec<u8> {
    joined(rt, &[&[user, 0, 0, 0, since], key])
}

/// User 0's structure of this number, signed, over the i-table of this root.
pub fn structure_over(
    rt: &impl Aided,
    key: &PrivateKey<Global>,
    number: u8,
    root: &[u8],
) -> Vec<u8> {
    let vector = [1, 0, 0, 0, 0, number];
    let plan = plan(rt, 0, u32::from(number), &[7; 32], &vector, b"\0");
    let text = structure(rt, &plan, digest(root).as_bytes());
    signed(rt, key, 1, &text)
}
