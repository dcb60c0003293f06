//! The i-numbers at which a user makes something.

ghost use Rattle.std.specs.Prelude.{◌≡◌, ◌≤◌};
ghost use Rattle.commands.specs.Asked.{first_of, last_of};

use layout::{INumber, Principal, User};

/// The number of the first group; lesser ones are users'.
const FIRST_GROUP: u8 = 64;

/// How many i-numbers of a group's each user has.
const RANGE: u16 = 64;

/// The last i-number.
const LAST: u16 = 4095;

fn i_number(number: u16) -> INumber
    requires { (1 ≤ number) × (number ≤ 4095) }
    ensures { result ≡ number }
{
    INumber::new(number).unwrap_or(INumber::root())
}

/// The first and the last i-number of a principal at which a user makes something: all of a user's, and of a group's
/// the 64 that are the user's own, without 0.
pub fn range_of(user: User, principal: Principal) -> (INumber, INumber)
    ensures first { result.0 ≡ first_of user principal }
    ensures last { result.1 ≡ last_of user principal }
{
    let user = u16::from(user.get());
    if principal.get() < FIRST_GROUP {
        (i_number(1), i_number(LAST))
    } else {
        (
            i_number((RANGE * user).max(1)),
            i_number(RANGE * user + (RANGE - 1)),
        )
    }
}
