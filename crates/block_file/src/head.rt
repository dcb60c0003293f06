//! What a block begins with.

ghost use Rattle.std.specs.Prelude.{◌≡◌, ◌^◌, ◌<◌, ◌++◌, IfOk, length};
ghost use Rattle.block_file.specs.Blocks.{head, end_mark};

use layout::{Digest, Memory};
use std::alloc::Allocator;

/// How many bytes a block has before its text: the length of the text, and its digest.
pub(crate) const HEAD_SIZE: usize = 36;

/// What is written after the last block: a length that none has.
const END_MARK: [u8; 4] = [255; 4];

/// The length and the digest that a block begins with.
pub(crate) fn read_head(bytes: &[u8; 36]) -> (usize, Digest)
    ensures head { bytes.now ≡ head result.0 result.1 }
    ensures small { result.0 < 2 ^ 32 }
    ensures size { length result.1 ≡ 32 }
{
    let [a, b, c, d, ..] = *bytes;
    let size = u32::from_be_bytes([a, b, c, d]);
    let mut digest = [0; 32];
    digest.copy_from_slice(&bytes[4..]);
    (size as usize, Digest::from_bytes(digest))
}

/// The bytes of a block, and of the mark after the last one.
pub(crate) fn laid_out<A: Allocator>(
    alloc: A,
    digest: &Digest,
    text: &[u8],
) -> Result<Vec<u8, A>, Memory>
    requires { length text.now < 2 ^ 32 }
    ensures { IfOk result (λ bytes. bytes.items
        ≡ head (length text.now) digest.now ++ text.now ++ end_mark) }
{
    let mut bytes = Vec::new(alloc);
    bytes.extend_from_slice(&(text.len() as u32).to_be_bytes())?;
    bytes.extend_from_slice(digest.as_bytes())?;
    bytes.extend_from_slice(text)?;
    bytes.extend_from_slice(&END_MARK)?;
    Ok(bytes)
}
