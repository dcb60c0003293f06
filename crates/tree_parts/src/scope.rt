//! Which changes of a certificate are made.

ghost use Rattle.std.specs.Prelude.{◌≡◌};
ghost use Rattle.tree_parts.specs.Asked.{covers};

use layout::INumber;

/// Which changes of a certificate are made in a part.
#[derive(Clone, Copy, Debug)]
pub enum Scope {
    /// All of them.
    All,
    /// Those at one i-number: they alone tell what stands there.
    At(INumber),
}

impl Scope {
    /// Whether changes at an i-number are made.
    pub fn covers(self, i_number: INumber) -> bool
        ensures { result ≡ covers self i_number }
    {
        match self {
            Scope::All => true,
            Scope::At(only) => only.get() == i_number.get(),
        }
    }
}
