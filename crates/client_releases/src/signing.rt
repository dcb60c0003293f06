//! Signing a text, once what it needs of memory is there.

ghost use Rattle.std.specs.Prelude.{◌≡◌, ◌+◌, ◌≤◌, ◌++◌, IfOk, vec_len, vec_capacity};
ghost use Rattle.pending_list.specs.Signed.{signature as signature_format};

use layout::Memory;
use lms_sign::SIGNATURE_SIZE;
use pending_list::Signature;
use std::alloc::Allocator;
use std::marker::Model;

/// A text with its signature, to be kept and to be handed out.
#[derive(Drop)]
pub struct Sealed<A: Allocator> {
    pub kept: Vec<u8, A>,
    pub sent: Vec<u8, A>,
    pub signature: Signature,
}

/// A text before it is signed, twice, each with room for its signature: so signing it takes no memory.
#[derive(Drop)]
pub struct Unsigned<A: Allocator> {
    kept: Vec<u8, A>,
    sent: Vec<u8, A>,
}

impl<A: Allocator> Model for Unsigned<A> {
    ghost use Rattle.std.specs.Prelude.{◌≡◌, ◌+◌, ◌≤◌, vec_len, vec_capacity};
    ghost use Rattle.layout.specs.Types.{Bytes};

    ghost Value = { Bytes };

    ghost view = { λ u. u.kept.items };

    ghost invariant = { λ u. (u.sent.items ≡ u.kept.items) × (vec_len u.kept + 2508 ≤ vec_capacity u.kept)
        × (vec_len u.sent + 2508 ≤ vec_capacity u.sent) };
}

/// The text with room for its signature.
fn with_room<A: Allocator>(text: Vec<u8, A>) -> Result<Vec<u8, A>, Memory>
    ensures text { IfOk result (λ roomy. roomy.items ≡ text.items) }
    ensures room { IfOk result (λ roomy. vec_len roomy + SIGNATURE_SIZE ≤ vec_capacity roomy) }
{
    let mut roomy = text;
    roomy.reserve(SIGNATURE_SIZE)?;
    Ok(roomy)
}

/// The text with a signature after it, where there is room.
fn with_signature<A: Allocator>(text: Vec<u8, A>, signature: &Signature) -> Vec<u8, A>
    requires { vec_len text + SIGNATURE_SIZE ≤ vec_capacity text }
    ensures { result.items ≡ text.items ++ signature.now }
{
    let mut signed = text;
    signed.extend_from_slice(signature.as_bytes()).unwrap();
    signed
}

impl<A: Allocator + Copy> Unsigned<A> {
    /// This text, not signed yet. All growths are here, so that want of memory uses no leaf.
    pub fn new(alloc: A, text: Vec<u8, A>) -> Result<Unsigned<A>, Memory>
        ensures { IfOk result (λ unsigned. unsigned ≡ text.items) }
    {
        let sent = with_room(Vec::from_slice(alloc, &text)?)?;
        let kept = with_room(text)?;
        Ok(Unsigned { kept, sent })
    }
}

impl<A: Allocator> Unsigned<A> {
    /// The text.
    pub fn text(&self) -> &[u8]
        ensures { result.now ≡ self.now }
    {
        &self.kept
    }

    /// The text with this signature after it. It takes no memory.
    pub fn sealed(self, signature: Signature) -> Sealed<A>
        ensures kept { result.kept.items ≡ self ++ signature }
        ensures sent { result.sent.items ≡ self ++ signature }
        ensures signature { result.signature ≡ signature }
        ensures fits { signature_format.Fits signature }
    {
        let Unsigned { kept, sent } = self;
        let _bytes = signature.as_bytes();
        Sealed {
            kept: with_signature(kept, &signature),
            sent: with_signature(sent, &signature),
            signature,
        }
    }
}
