//! Users that are lent to a test: no test owns one, since each step of who does costs its proof time.

use std::alloc::Global;
use std::process::Abort;
use tests_plain_user::PlainUser;

/// The users from 1 to this one.
fn users<R: Alloc<A = Global> + Abort>(rt: &R, last: u8) -> Vec<PlainUser> {
    let mut all = Vec::new(rt.alloc());
    for number in 1..=last {
        let user = PlainUser::new(rt.alloc(), number).expect(rt, "memory");
        all.push(user).expect(rt, "memory");
    }
    all
}

/// Lends a test user 0, and hands it the users from 1 to this one.
pub(crate) fn with_users<R: Alloc<A = Global> + Abort, F: FnOnce(&mut PlainUser, Vec<PlainUser>)>(
    rt: &R,
    last: u8,
    test: F,
)
    requires { F.IsAlwaysCallable test }
{
    let mut superuser = PlainUser::new(rt.alloc(), 0).expect(rt, "memory");
    test(&mut superuser, users(rt, last));
}
