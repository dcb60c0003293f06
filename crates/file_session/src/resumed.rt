//! What a session finished before its command.

ghost use Rattle.std.specs.Prelude.{◌≡◌};

use std::alloc::Allocator;
use std::marker::Model;

/// A declared operation that was finished before the command: its number, and the numbers, from 1 and ascending, of its
/// changes that had no effect.
#[derive(Debug, Drop)]
pub struct Resumed<A: Allocator> {
    number: u32,
    lost: Vec<u8, A>,
}

impl<A: Allocator> Model for Resumed<A> {
    ghost use Rattle.file_session.specs.Sessions.{Resumed};

    ghost Value = { Resumed };

    ghost view = { λ r. record { number = r.number; lost = r.lost.items } };
}

impl<A: Allocator> Resumed<A> {
    /// The operation of this number, which lost these changes.
    pub(crate) fn new(number: u32, lost: Vec<u8, A>) -> Resumed<A>
        ensures { result ≡ record { number = number; lost = lost.items } }
    {
        Resumed { number, lost }
    }

    /// Its number.
    pub fn number(&self) -> u32
        ensures { result ≡ self.now.number }
    {
        self.number
    }

    /// The numbers of its changes that had no effect.
    pub fn lost(&self) -> &[u8]
        ensures { result.now ≡ self.now.lost }
    {
        &self.lost
    }
}
