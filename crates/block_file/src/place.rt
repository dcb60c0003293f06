//! Where the text of a block stands.

ghost use Rattle.std.specs.Prelude.{◌≡◌, ◌≤◌};
ghost use Rattle.block_file.specs.Blocks.{size_limit};

use std::marker::Model;

/// Where the text of a block stands in the file, and how many bytes it has: no more than a block may have.
#[derive(Clone, Copy, Debug)]
pub(crate) struct Place {
    at: usize,
    size: usize,
}

impl Model for Place {
    ghost use Rattle.std.specs.Prelude.{◌≤◌};
    ghost use Rattle.block_file.specs.Places.{Place};
    ghost use Rattle.block_file.specs.Blocks.{size_limit};

    ghost Value = { Place };

    ghost view = { λ p. record { at = p.at; size = p.size } };

    ghost invariant = { λ p. p.size ≤ size_limit };

    ghost inverse = { λ p. record { at = p.at; size = p.size } };
}

impl Place {
    /// A text of so many bytes from there on.
    pub(crate) fn new(at: usize, size: usize) -> Place
        requires { size ≤ size_limit }
        ensures { result ≡ record { at = at; size = size } }
    {
        Place { at, size }
    }

    /// Where it begins.
    pub(crate) fn at(self) -> usize
        ensures { result ≡ self.at }
    {
        self.at
    }

    /// How many bytes it has.
    pub(crate) fn size(self) -> usize
        ensures same { result ≡ self.size }
        ensures small { result ≤ size_limit }
    {
        self.size
    }
}
