//! Which client a line of a script names.

use layout::User;
use std::fmt;

/// A client of a user: the user's own, or the one that has the user's stolen keys.
#[derive(Clone, Copy, PartialEq, Eq)]
pub(crate) struct Who {
    pub(crate) user: User,
    pub(crate) is_thief: bool,
}

impl Who {
    /// The user's own client.
    pub(crate) fn own(user: User) -> Who {
        Who {
            user,
            is_thief: false,
        }
    }

    /// The client that has the user's stolen keys.
    pub(crate) fn thief(user: User) -> Who {
        Who {
            user,
            is_thief: true,
        }
    }
}

impl fmt::Display for Who {
    /// `U`, and `U*` of a thief.
    fn fmt<W: fmt::Write>(&self, f: &mut fmt::Formatter<W>) -> fmt::Result {
        let user = self.user.get();
        let star = if self.is_thief { "*" } else { "" };
        write!(f, "{user}{star}")
    }
}
