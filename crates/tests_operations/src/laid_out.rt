//! What has to be laid out before changes are declared.

use crate::here::Here;
use client_verify::are_laid;
use layout::{digest, let_go};
use std::alloc::Global;
use tests_aids::Host;
use tests_aids::blocks::{
    EMPTY, EMPTY_INODE, HELLO, HELLO_INODE, LONG_INODE, NO_BYTES_INODE, OF_F, OF_F_INODE, REST,
    WHOLE,
};
use tests_aids::numbers::{entry, i_number, name, principal};
use tests_aids::texts::joined;
use tests_client_aids::changes::{Planned, nothing, plan_change};
use update_cert::{Action, Change};

/// The text for which a letter stands: an i-node by a capital, a block of a file or of a directory by a small letter.
fn text_of(rt: &impl Host, letter: u8) -> &'static [u8] {
    match letter {
        b'H' => HELLO_INODE,
        b'h' => HELLO,
        b'N' => NO_BYTES_INODE,
        b'L' => LONG_INODE,
        b'w' => WHOLE,
        b'r' => REST,
        b'E' => EMPTY_INODE,
        b'e' => EMPTY,
        b'F' => OF_F_INODE,
        b'f' => OF_F,
        _ => panic!(rt; "no text {letter}"),
    }
}

/// Of each case a line: changes of user 0's part, whether they may be declared (y or n), and the texts that are laid
/// out. A change is told by three letters: a make, a put, a remove, a link or an unlink; the i-number; and the text
/// that a make or a put names by its digest.
///
/// A file with its block and its i-node, without its block, without its i-node, and without both; a text that is no
/// i-node; a file without bytes; a file of two blocks with both, and without either one; the empty directory, which
/// needs nothing, and which a put doesn't take; another directory. Other changes need nothing; each i-node has to be
/// laid out.
static CASES: &[u8] = b"\
    m3H y Hh\n\
    p3H y Hh\n\
    m3H n H\n\
    p3H n H\n\
    m3H n h\n\
    p3H n h\n\
    m3H n \n\
    p3H n \n\
    m3h n Hh\n\
    p3h n Hh\n\
    m3N y N\n\
    p3N y N\n\
    m3L y wrL\n\
    p3L y wrL\n\
    m3L n wL\n\
    p3L n wL\n\
    m3L n rL\n\
    p3L n rL\n\
    m3E y \n\
    p3E n \n\
    m3E y eE\n\
    p3E n eE\n\
    m3F n fF\n\
    p3F n fF\n\
    r3-l2-u2- y \n\
    r3-l2-u2-m3E y \n\
    r3-l2-u2-m3Em4H n ";

/// What a change does.
fn action_of(rt: &impl Host, what: u8, named: u8) -> Action<Global> {
    match what {
        b'm' => Action::Make(digest(text_of(rt, named))),
        b'p' => Action::Put(digest(text_of(rt, named))),
        b'r' => Action::Remove,
        b'l' => Action::Link(entry(rt, b"f", (0, 3))),
        _ => Action::Unlink(name(rt, b"f")),
    }
}

/// Plans the changes.
fn plan_each(rt: &impl Host, planned: &mut Planned, changes: &[u8]) {
    for change in changes.chunks(3) {
        let [what, number, named] = change else {
            panic!(rt; "not three letters");
        };
        let number = i_number(rt, u16::from(number.wrapping_sub(b'0')));
        let action = action_of(rt, *what, *named);
        plan_change(rt, planned, Change::new(principal(rt, 0), number, action));
    }
}

/// Lays the texts of these letters out.
fn lay_each(rt: &impl Host, planned: &mut Planned, letters: &[u8]) {
    for letter in letters {
        let text = joined(rt, &[text_of(rt, *letter)]);
        planned.laid.push(text).expect(rt, "memory");
    }
}

/// Whether the changes may be declared where these texts are laid out.
fn are_laid_out(rt: &impl Host, changes: &[u8], laid: &[u8]) -> bool {
    let mut planned = nothing(rt);
    plan_each(rt, &mut planned, changes);
    lay_each(rt, &mut planned, laid);
    let answer = are_laid(rt.alloc(), &planned.laid, &planned.changes);
    let_go(planned);
    answer.expect(rt, "memory")
}

#[test]
fn each_naming(rt: HostRuntime) {
    let rt = (rt, Here);
    for row in CASES.split(|byte| *byte == b'\n') {
        let mut words = row.split(|byte| *byte == b' ');
        let changes = words.next().unwrap_or(&[]);
        let answer = words.next().unwrap_or(&[]);
        let laid = words.next().unwrap_or(&[]);
        let found = are_laid_out(&rt, changes, laid);
        let wanted = answer == b"y".as_slice();
        assert!(&rt; found == wanted, "{changes:?} with {laid:?}");
    }
}
