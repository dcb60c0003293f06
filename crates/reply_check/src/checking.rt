//! Whether a block that was handed in is the one that was asked for.

ghost use Rattle.std.specs.Prelude.{◌≡◌, IfOk, IsOk, MatchResult, Some, None};
ghost use Rattle.std.specs.Option.{option_copied};
ghost use Rattle.layout.specs.Hash.{hash};
ghost use Rattle.reply_check.specs.AskedBlock.{block_breaks, is_only};

use crate::asked::Asked;
use layout::{Digest, Memory, digest};
use reply_rules::Rule;
use std::alloc::Allocator;
use tree_parts::Blocks;

/// Whether no other text is held under the digest of this one.
fn is_only<B: Blocks>(blocks: &B, digest: Digest, text: &[u8]) -> bool
    requires { digest ≡ hash text.now }
    ensures { result ≡ is_only (B.held blocks.now) text.now }
{
    match blocks.get(digest) {
        Some(held) => held == text,
        None => true,
    }
}

/// The text of the block that was asked for, or the rule that what was handed in breaks.
pub fn check<'a, A: Allocator + Copy, B: Blocks>(
    alloc: A,
    blocks: &B,
    asked: Asked,
    block: Option<&'a [u8]>,
) -> Result<Result<&'a [u8], Rule>, Memory>
    ensures kept { IfOk result (λ checked. IfOk checked (λ text. option_copied block.entry ≡ Some text.now)) }
    ensures hashed { IfOk result (λ checked. IfOk checked (λ text. asked.digest ≡ hash text.now)) }
    ensures breaks { IfOk result (λ checked. MatchResult checked
        (λ text. block_breaks (B.held blocks.now) asked (option_copied block.entry) ≡ None)
        (λ rule. block_breaks (B.held blocks.now) asked (option_copied block.entry) ≡ Some rule)) }
    // A block that is absent or has another digest, or that of another text which is held, is told without memory.
    ensures told { block_breaks (B.held blocks.now) asked (option_copied block.entry) ≡ Some Rule.Block → IsOk result }
{
    match block {
        Some(text) if digest(text) == asked.digest && is_only(blocks, asked.digest, text) => {
            if asked.spot.takes(alloc, blocks, text)? {
                Ok(Ok(text))
            } else {
                Ok(Err(Rule::Content))
            }
        }
        _ => Ok(Err(Rule::Block)),
    }
}
