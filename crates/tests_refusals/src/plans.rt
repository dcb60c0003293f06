//! Changes of the next operation, and the texts that are laid out for them.

use crate::meter::Heap;
use itable::{Laid, lay_file};
use layout::{Digest, Group, INumber, Principal, User, digest};
use lms_sign::PublicKey;
use tests_aids::numbers::{i_number, principal};
use tests_aids::{Aided, found, given};
use update_cert::{Action, Change, TableChange};

/// Changes, and the texts that are laid out for them.
#[derive(Drop)]
pub(crate) struct Planned<'h> {
    pub(crate) changes: Vec<Change<Heap<'h>>, Heap<'h>>,
    pub(crate) laid: Vec<Vec<u8, Heap<'h>>, Heap<'h>>,
}

/// No changes.
pub(crate) fn nothing<'h>(heap: Heap<'h>) -> Planned<'h> {
    Planned {
        changes: Vec::new(heap),
        laid: Vec::new(heap),
    }
}

/// The number of a digit.
pub(crate) fn number_of(digit: u8) -> u8 {
    digit.wrapping_sub(b'0')
}

/// The user of a digit.
pub(crate) fn user_of(rt: &impl Aided, digit: u8) -> User {
    found(rt, User::new(number_of(digit)), "a user")
}

/// The one group of these tests.
pub(crate) fn the_group(rt: &impl Aided) -> Group {
    found(rt, Group::new(64), "a group")
}

/// The place at which a file stands: the i-number 1 of the user of a digit, and the i-number 64, user 1's first, of the
/// group for a `g`.
pub(crate) fn place_of(rt: &impl Aided, place: &[u8]) -> (Principal, INumber) {
    match place {
        [b'g', ..] => (principal(rt, 64), i_number(rt, 64)),
        [digit, ..] => (principal(rt, number_of(*digit)), i_number(rt, 1)),
        [] => rt.fail("no place"),
    }
}

/// Lays a file out, and answers the digest of its i-node.
fn lay<'h>(rt: &impl Aided, heap: Heap<'h>, planned: &mut Planned<'h>, file: &[u8]) -> Digest {
    let Laid { inode, mut blocks } = given(rt, lay_file(heap, file), "a file");
    let digest = digest(&inode);
    given(rt, planned.laid.append(&mut blocks), "memory");
    given(rt, planned.laid.push(inode), "memory");
    digest
}

/// A change: `+` lists the user of a digit, `j` makes it a member of the group, and `d` drops it.
fn table_change(rt: &impl Aided, keys: &[PublicKey], what: u8, digit: u8) -> TableChange {
    let user = user_of(rt, digit);
    match what {
        b'+' => {
            let key = keys.get(usize::from(number_of(digit)));
            TableChange::AddUser(user, *found(rt, key, "a key"))
        }
        b'j' => TableChange::AddMember(the_group(rt), user),
        _ => TableChange::DropMember(the_group(rt), user),
    }
}

/// Plans a change: of the table, or `m` makes a file of these bytes at a place, and `p` puts it there.
pub(crate) fn plan<'h>(
    rt: &impl Aided,
    heap: Heap<'h>,
    planned: &mut Planned<'h>,
    keys: &[PublicKey],
    what: u8,
    rest: &[u8],
) {
    let [at, file @ ..] = rest else {
        rt.fail("no place");
    };
    let change = match what {
        b'm' | b'p' => {
            let digest = lay(rt, heap, planned, file);
            let (owner, number) = place_of(rt, rest);
            let action = if what == b'm' {
                Action::Make(digest)
            } else {
                Action::Put(digest)
            };
            Change::new(owner, number, action)
        }
        _ => Change::of_table(table_change(rt, keys, what, *at)),
    };
    given(rt, planned.changes.push(change), "memory");
}
