//! Changes that have no effect.

ghost use Rattle.std.specs.Prelude.{◌≡◌};

use std::alloc::Allocator;
use std::marker::Model;

/// The numbers, from 1 and ascending, of the changes of a certificate that have no effect.
#[derive(Drop)]
pub struct Voids<A: Allocator> {
    numbers: Vec<u8, A>,
}

impl<A: Allocator> Model for Voids<A> {
    ghost use Rattle.std.specs.Prelude.{ℕ, List};

    ghost Value = { List ℕ };

    ghost view = { λ v. v.numbers.items };
}

impl<A: Allocator> Voids<A> {
    /// Those of these numbers.
    pub fn of(numbers: Vec<u8, A>) -> Voids<A>
        ensures { result ≡ numbers.items }
    {
        Voids { numbers }
    }

    /// The numbers, ascending.
    pub fn numbers(&self) -> &[u8]
        ensures { result.now ≡ self.now }
    {
        &self.numbers
    }
}
