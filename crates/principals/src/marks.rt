//! Which pairs of a group and a user have an open row.

ghost use Rattle.std.specs.Prelude.{◌≡◌, ◌<◌, ◌≤◌, false, replicate};
ghost use Rattle.principals.specs.Kept.{slot};

use layout::{Group, User};

/// How many pairs there are: 32 groups with 64 users each.
const PAIRS: usize = 2048;

/// A mark at each pair.
pub(crate) type Marks = [bool; PAIRS];

/// No marks.
pub(crate) fn no_marks() -> Marks
    ensures { result ≡ replicate 2048 false }
{
    [false; PAIRS]
}

/// Where a pair stands.
pub(crate) fn slot(group: Group, user: User) -> usize
    ensures place { result ≡ slot group user }
    ensures inside { result < 2048 }
    ensures group { (64 ≤ group) × (group < 96) }
    ensures user { user < 64 }
{
    let group = usize::from(group.get() - 64);
    let user = usize::from(user.get());
    64 * group + user
}
