//! Changes of a client's next operation, and what is laid out for them.

use itable::{Laid, lay_file};
use layout::{Digest, User, digest};
use lms_sign::PublicKey;
use std::alloc::Global;
use tests_aids::numbers::{i_number, principal};
use tests_aids::{Aided, found, given};
use update_cert::{Action, Change, TableChange};

/// Changes, and the texts that are laid out for them.
#[derive(Drop)]
pub struct Planned {
    /// The changes, in turn.
    pub changes: Vec<Change<Global>>,
    /// The blocks and i-nodes of their files.
    pub laid: Vec<Vec<u8>>,
}

/// Nothing.
pub fn nothing(rt: &impl Aided) -> Planned {
    Planned {
        changes: Vec::new(rt.alloc()),
        laid: Vec::new(rt.alloc()),
    }
}

/// Lays a file out, and answers the digest of its i-node.
pub fn lay(rt: &impl Aided, planned: &mut Planned, file: &[u8]) -> Digest {
    let Laid { inode, mut blocks } = given(rt, lay_file(rt.alloc(), file), "a file");
    let digest = digest(&inode);
    given(rt, planned.laid.append(&mut blocks), "memory");
    given(rt, planned.laid.push(inode), "memory");
    digest
}

/// Plans a change.
pub fn plan_change(rt: &impl Aided, planned: &mut Planned, change: Change<Global>) {
    given(rt, planned.changes.push(change), "memory");
}

/// A file of these bytes is made at an i-number of a principal.
pub fn making(rt: &impl Aided, owner: u8, number: u16, file: &[u8]) -> Planned {
    let mut planned = nothing(rt);
    let digest = lay(rt, &mut planned, file);
    let (owner, number) = (principal(rt, owner), i_number(rt, number));
    let change = Change::new(owner, number, Action::Make(digest));
    plan_change(rt, &mut planned, change);
    planned
}

/// Plans that a user is listed with this key.
fn plan_listing(rt: &impl Aided, planned: &mut Planned, user: u8, key: PublicKey) {
    let user = found(rt, User::new(user), "a user");
    let change = Change::of_table(TableChange::AddUser(user, key));
    plan_change(rt, planned, change);
}

/// Users 1 and 2 are listed with these keys.
pub fn listing_both(rt: &impl Aided, one: PublicKey, two: PublicKey) -> Planned {
    let mut planned = nothing(rt);
    plan_listing(rt, &mut planned, 1, one);
    plan_listing(rt, &mut planned, 2, two);
    planned
}
