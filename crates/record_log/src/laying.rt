//! The bytes of records.

ghost use Rattle.std.specs.Prelude.{◌≡◌, [], ◌∷◌, ◌++◌, IfOk, OnOk};
ghost use Rattle.record_log.specs.Records.{chain, closed_gate, AllShort, IsShort};

use crate::chain::{CLOSED, OPEN};
use crate::record::{Record, header};
use layout::Memory;
use std::alloc::Allocator;

/// Adds the bytes of a record after an open gate.
fn lay<A: Allocator, B: Allocator>(bytes: &mut Vec<u8, B>, added: &Record<A>) -> Result<(), Memory>
    ensures bytes { OnOk result (bytes.new.items ≡ bytes.old.items ++ chain (added.now ∷ [])) }
    ensures short { IsShort added.now }
{
    let text = added.text();
    bytes.push(OPEN)?;
    bytes.extend_from_slice(&header(added.kind(), text.len() as u32))?;
    bytes.extend_from_slice(text)?;
    Ok(())
}

/// The bytes of these records, each after an open gate, and a closed gate.
pub(crate) fn laid_out<A: Allocator, B: Allocator>(
    alloc: B,
    added: &[Record<A>],
) -> Result<Vec<u8, B>, Memory>
    ensures bytes { IfOk result (λ bytes. bytes.items ≡ chain added.now ++ closed_gate ∷ []) }
    ensures short { OnOk result (AllShort added.now) }
{
    let mut bytes = Vec::new(alloc);
    for one in added {
        lay(&mut bytes, one)?;
    }
    bytes.push(CLOSED)?;
    Ok(bytes)
}
