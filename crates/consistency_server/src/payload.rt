//! What comes with an answer.

ghost use Rattle.std.specs.Prelude.{◌≡◌, ◌≤◌, [], IfOk, length};
ghost use Rattle.std.specs.Arc.{arc_slice_items};
ghost use Rattle.std.specs.Option.{option_map_or};

use layout::Memory;
use pending_list::REPLY_SIZE;
use std::alloc::Allocator;
use std::marker::Model;
use std::sync::ArcSlice;

/// What comes with an answer: no more bytes than the text of a reply has. All who share it have the same bytes in
/// memory.
#[derive(Drop)]
pub(crate) struct Payload<A: Allocator> {
    /// None where it is empty.
    bytes: Option<ArcSlice<u8, A>>,
}

impl<A: Allocator> Model for Payload<A> {
    ghost use Rattle.std.specs.Prelude.{ℕ, ◌≤◌, List, [], length};
    ghost use Rattle.std.specs.Arc.{arc_slice_items};
    ghost use Rattle.std.specs.Option.{option_map_or};
    ghost use Rattle.pending_list.specs.declared.reply.TheConstants.{REPLY_SIZE};

    ghost Value = { List ℕ };

    ghost view = { λ p. option_map_or arc_slice_items p.bytes [] };

    ghost invariant = { λ p. length (option_map_or arc_slice_items p.bytes []) ≤ REPLY_SIZE };
}

impl<A: Allocator> Payload<A> {
    /// Nothing, which takes no memory.
    pub(crate) fn empty() -> Payload<A>
        ensures { result ≡ [] }
    {
        Payload { bytes: None }
    }

    pub(crate) fn as_slice(&self) -> &[u8]
        ensures same { result.now ≡ self.now }
        ensures size { length self.now ≤ REPLY_SIZE }
    {
        match &self.bytes {
            Some(bytes) => bytes.as_slice(),
            None => &[],
        }
    }

    /// The same bytes once more, of which no copy is made. It fails only where no more can share them.
    pub(crate) fn share(&self) -> Result<Payload<A>, Memory>
        ensures { IfOk result (λ shared. shared ≡ self.now) }
    {
        match &self.bytes {
            Some(bytes) => Ok(Payload {
                bytes: Some(bytes.clone()?),
            }),
            None => Ok(Payload { bytes: None }),
        }
    }
}

impl<A: Allocator + Copy> Payload<A> {
    /// These bytes. Room for more is given back, where the allocator takes it.
    pub(crate) fn from_vec(bytes: Vec<u8, A>) -> Result<Payload<A>, Memory>
        requires { length bytes.items ≤ REPLY_SIZE }
        ensures { IfOk result (λ payload. payload ≡ bytes.items) }
    {
        let mut bytes = bytes;
        bytes.shrink_to_fit();
        Ok(Payload {
            bytes: Some(ArcSlice::from_vec(bytes)?),
        })
    }
}
