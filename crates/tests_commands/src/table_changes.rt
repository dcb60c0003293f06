//! The changes of the table of principals that commands ask for.

use commands::{Command, NewFile};
use layout::{Group, User};
use lms_sign::PublicKey;
use std::process::Abort;
use update_cert::TableChange;

/// A key: the form, and bytes of which none is another.
const KEY: &[u8; 56] = b"\
    \x00\x00\x00\x06\x00\x00\x00\x03\x00\x01\x02\x03\x04\x05\
    \x06\x07\x08\x09\x0a\x0b\x0c\x0d\x0e\x0f\x10\x11\x12\x13\
    \x14\x15\x16\x17\x18\x19\x1a\x1b\x1c\x1d\x1e\x1f\x20\x21\
    \x22\x23\x24\x25\x26\x27\x28\x29\x2a\x2b\x2c\x2d\x2e\x2f";

/// Whether this is user 5 with that key.
fn is_user_5(user: User, key: &PublicKey) -> bool {
    user.get() == 5 && key.as_bytes() == KEY
}

/// The number of a change of the table: 1 and 2 of user 5 with the key of these digits, 3 and 4 of user 63 in group 64.
fn number_of_change(change: &TableChange) -> u8 {
    match change {
        TableChange::AddUser(user, key) if is_user_5(*user, key) => 1,
        TableChange::SetKey(user, key) if is_user_5(*user, key) => 2,
        TableChange::AddMember(group, user) if group.get() == 64 && user.get() == 63 => 3,
        TableChange::DropMember(group, user) if group.get() == 64 && user.get() == 63 => 4,
        _ => 9,
    }
}

/// The number of the one change that a command asks for; 0 where it asks for none or for several.
fn number_asked(command: &Command<'_>) -> u8 {
    match &command.table_change() {
        Some(change) => number_of_change(change),
        None => 0,
    }
}

/// A file that is put into a directory.
const FILES: [NewFile<'static>; 1] = [NewFile {
    name: "a",
    content: b"",
}];

#[test]
fn changes_of_the_table(rt: HostRuntime) {
    let key = PublicKey::from_bytes(*KEY).expect(&rt, "a key");
    let user = User::new(5).expect(&rt, "a user");
    let member = User::new(63).expect(&rt, "a user");
    let group = Group::new(64).expect(&rt, "a group");
    let added = Command::AddUser { user, key };
    let set = Command::SetKey { user, key };
    let joined = Command::AddMember {
        group,
        user: member,
    };
    let dropped = Command::DropMember {
        group,
        user: member,
    };
    assert!(rt; number_asked(&added) == 1);
    assert!(rt; number_asked(&set) == 2);
    assert!(rt; number_asked(&joined) == 3);
    assert!(rt; number_asked(&dropped) == 4);
    assert!(rt; number_asked(&Command::Ls("/")) == 0);
    assert!(rt;
        number_asked(&Command::PutAll {
            directory: "/",
            files: &FILES
        }) == 0
    );
    let several = [
        TableChange::SetKey(user, key),
        TableChange::DropMember(group, member),
    ];
    assert!(rt; number_asked(&Command::Admin(&several)) == 0);
}
