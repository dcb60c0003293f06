//! Writing fields at the end of a text.

ghost use Rattle.std.specs.Prelude.{◌≡◌, ◌++◌, [], length, take, IfOk, OnOk, OnErr};
ghost use Rattle.layout.specs.Format.{be};
ghost use Rattle.std.specs.Int.{w8, w16, w32};

use crate::error::Memory;
use std::alloc::Allocator;
use std::marker::Model;

/// A text so far.
#[derive(Drop)]
pub struct Writer<A: Allocator> {
    text: Vec<u8, A>,
}

impl<A: Allocator> Model for Writer<A> {
    ghost use Rattle.std.specs.Prelude.{ℕ, List};

    ghost Value = { List ℕ };

    ghost view = { λ w. w.text.items };
}

impl<A: Allocator> Writer<A> {
    pub fn new(alloc: A) -> Writer<A>
        ensures { result ≡ [] }
    {
        Writer {
            text: Vec::new(alloc),
        }
    }

    /// An empty text with room for so many bytes: it takes no more memory before it has more.
    pub fn with_room(alloc: A, room: usize) -> Result<Writer<A>, Memory>
        ensures { IfOk result (λ writer. writer ≡ []) }
    {
        Ok(Writer {
            text: Vec::with_capacity(alloc, room)?,
        })
    }

    #[tactic(auto, unfolding(crate::specs::Format::be))]
    pub fn u8(&mut self, number: u8) -> Result<(), Memory>
        ensures ok { OnOk result (self.new ≡ self.old ++ be w8 number) }
        ensures err { OnErr result (self.new ≡ self.old) }
    {
        self.text.push(number)?;
        Ok(())
    }

    #[tactic(auto, unfolding(crate::specs::Format::be))]
    pub fn u16(&mut self, number: u16) -> Result<(), Memory>
        ensures ok { OnOk result (self.new ≡ self.old ++ be w16 number) }
        ensures err { OnErr result (self.new ≡ self.old) }
    {
        self.text.extend_from_slice(&number.to_be_bytes())?;
        Ok(())
    }

    #[tactic(auto, unfolding(crate::specs::Format::be))]
    pub fn u32(&mut self, number: u32) -> Result<(), Memory>
        ensures ok { OnOk result (self.new ≡ self.old ++ be w32 number) }
        ensures err { OnErr result (self.new ≡ self.old) }
    {
        self.text.extend_from_slice(&number.to_be_bytes())?;
        Ok(())
    }

    pub fn bytes(&mut self, bytes: &[u8]) -> Result<(), Memory>
        ensures ok { OnOk result (self.new ≡ self.old ++ bytes.now) }
        ensures err { OnErr result (self.new ≡ self.old) }
    {
        self.text.extend_from_slice(bytes)?;
        Ok(())
    }

    pub fn tag(&mut self, tag: &[u8]) -> Result<(), Memory>
        ensures ok { OnOk result (self.new ≡ self.old ++ tag.now) }
        ensures err { OnErr result (self.new ≡ self.old) }
    {
        self.text.extend_from_slice(tag)?;
        Ok(())
    }

    /// How many bytes it holds.
    pub(crate) fn len(&self) -> usize
        ensures { result ≡ length self.now }
    {
        self.text.len()
    }

    /// Lets go of all but the first bytes.
    pub(crate) fn truncate(&mut self, count: usize)
        ensures { self.new ≡ take count self.old }
    {
        self.text.truncate(count);
    }

    /// The allocator that the text lies in.
    pub fn allocator(&self) -> &A {
        self.text.allocator()
    }

    /// The text.
    pub fn finish(self) -> Vec<u8, A>
        ensures { result.items ≡ self }
    {
        let Writer { text } = self;
        text
    }
}
