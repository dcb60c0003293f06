//! A plain file tree that operations change in turn, told by the description of what changes do and of the formats
//! alone: nothing of the product is called. Numbers are bytes here, and the one directory is user 0's root directory.

use crate::planning::split;
use lms_sign::PublicKey;
use std::alloc::Global;
use tests_aids::texts::joined;
use tests_aids::{Host, given};

/// An operation of a user.
pub(crate) struct Operation {
    pub(crate) user: u8,
    pub(crate) changes: &'static [u8],
}

/// An i-number of a principal.
#[derive(Clone, Copy, PartialEq, Eq)]
pub(crate) struct Place {
    pub(crate) principal: u8,
    pub(crate) number: u8,
}

/// Where the table of principals stands, as a file.
const TABLE: Place = Place {
    principal: 0,
    number: 1,
};

/// Where the root directory stands.
pub(crate) const ROOT: Place = Place {
    principal: 0,
    number: 2,
};

/// Users have lesser numbers, groups this and greater ones.
const FIRST_GROUP: u8 = 64;

/// The i-numbers that a user makes in a group: this number times the user's, and the ones after it.
const OF_ONE_USER: u8 = 64;

/// A file.
#[derive(Drop)]
struct File {
    place: Place,
    bytes: Vec<u8>,
}

/// A name in the root directory, and what it stands for.
#[derive(Drop)]
pub(crate) struct Link {
    pub(crate) name: Vec<u8>,
    pub(crate) target: Place,
}

/// A user is listed since this number of user 0's.
#[derive(Clone, Copy)]
struct Listed {
    user: u8,
    since: u8,
}

/// A user is a member of a group from this number of user 0's on, until that one; 0 where it still is.
#[derive(Clone, Copy)]
struct Member {
    group: u8,
    user: u8,
    begins: u8,
    until: u8,
}

/// A file tree with its principals.
#[derive(Drop)]
pub(crate) struct World {
    files: Vec<File>,
    links: Vec<Link>,
    users: Vec<Listed>,
    members: Vec<Member>,
    /// How many operations of user 0's there were.
    number: u8,
}

/// A number as four bytes.
fn spelled(number: u8) -> [u8; 4] {
    u32::from(number).to_be_bytes()
}

/// Removes the file of this place, if there is one: whether there was.
fn take_away(files: &mut Vec<File>, place: Place) -> bool {
    let before = files.len();
    files.retain(|file| file.place != place);
    files.len() < before
}

/// Ends the membership: whether there was one.
fn end(members: &mut [Member], group: u8, user: u8, number: u8) -> bool {
    for member in members {
        if member.group == group && member.user == user && member.until == 0 {
            member.until = number;
            return true;
        }
    }
    false
}

impl World {
    /// The beginning.
    pub(crate) fn new(rt: &impl Host) -> World {
        let superuser = Listed { user: 0, since: 0 };
        let mut users = Vec::new(rt.alloc());
        given(rt, users.push(superuser), "memory");
        World {
            files: Vec::new(rt.alloc()),
            links: Vec::new(rt.alloc()),
            users,
            members: Vec::new(rt.alloc()),
            number: 0,
        }
    }

    fn is_member(&self, group: u8, user: u8) -> bool {
        for row in &self.members {
            if row.group == group && row.user == user && row.until == 0 {
                return true;
            }
        }
        false
    }

    fn is_listed(&self, user: u8) -> bool {
        for row in &self.users {
            if row.user == user {
                return true;
            }
        }
        false
    }

    /// The bytes of the file of this place; not those of the table.
    pub(crate) fn file_at(&self, place: Place) -> Option<&[u8]> {
        for file in &self.files {
            if file.place == place {
                return Some(&file.bytes);
            }
        }
        None
    }

    /// Whether something stands at this place.
    pub(crate) fn stands(&self, place: Place) -> bool {
        place == TABLE || place == ROOT || self.file_at(place).is_some()
    }

    /// What the root directory has, in the order of linking.
    pub(crate) fn links(&self) -> &[Link] {
        &self.links
    }

    /// The principals whose i-numbers this user may change: itself, and its groups.
    fn own_principals(&self, rt: &impl Host, user: u8) -> Vec<u8> {
        let mut own = joined(rt, &[&[user]]);
        for row in &self.members {
            if row.user == user && row.until == 0 {
                given(rt, own.push(row.group), "memory");
            }
        }
        own
    }

    fn add_user(&mut self, rt: &impl Host, user: u8) -> bool {
        let fits = !self.is_listed(user);
        if fits {
            let since = self.number;
            given(rt, self.users.push(Listed { user, since }), "memory");
        }
        fits
    }

    fn add_member(&mut self, rt: &impl Host, group: u8, user: u8) -> bool {
        let fits = self.is_listed(user) && !self.is_member(group, user);
        if fits {
            let row = Member {
                group,
                user,
                begins: self.number,
                until: 0,
            };
            given(rt, self.members.push(row), "memory");
        }
        fits
    }

    /// A file of this text gets this place.
    fn lay(&mut self, rt: &impl Host, place: Place, text: &[u8]) -> bool {
        let bytes = joined(rt, &[text]);
        given(rt, self.files.push(File { place, bytes }), "memory");
        true
    }

    fn link(&mut self, rt: &impl Host, target: Place, name: &[u8]) -> bool {
        for link in &self.links {
            if link.name.as_slice() == name {
                return false;
            }
        }
        let name = joined(rt, &[name]);
        given(rt, self.links.push(Link { name, target }), "memory");
        true
    }

    fn unlink(&mut self, name: &[u8]) -> bool {
        let before = self.links.len();
        self.links.retain(|link| link.name.as_slice() != name);
        self.links.len() < before
    }

    /// A change at this place: whether it fits there. If so, it has its effect.
    fn change_at(
        &mut self,
        rt: &impl Host,
        user: u8,
        letter: u8,
        place: Place,
        rest: &[u8],
    ) -> bool {
        let is_own = place.principal < FIRST_GROUP || place.number / OF_ONE_USER == user;
        match (letter, rest) {
            (b'f', text) => is_own && !self.stands(place) && self.lay(rt, place, text),
            (b'p', text) => take_away(&mut self.files, place) && self.lay(rt, place, text),
            (b'r', _) => take_away(&mut self.files, place),
            (b'l', [principal, number, name @ ..]) => {
                let target = Place {
                    principal: *principal,
                    number: *number,
                };
                place == ROOT && self.link(rt, target, name)
            }
            (_, name) => place == ROOT && self.unlink(name),
        }
    }

    /// A change of the table of principals: whether it fits. If so, it has its effect.
    fn change_table(&mut self, rt: &impl Host, letter: u8, row: &[u8]) -> bool {
        match (letter, row) {
            (b'u', [added]) => self.add_user(rt, *added),
            (b'm', [group, member]) => self.add_member(rt, *group, *member),
            (_, [group, member]) => end(&mut self.members, *group, *member, self.number),
            _ => false,
        }
    }

    /// A user's change, where the user may change the i-numbers of these principals: whether it is permitted and fits.
    /// If so, it has its effect.
    fn change(&mut self, rt: &impl Host, user: u8, own: &[u8], row: &[u8]) -> bool {
        match row {
            [letter, rest @ ..] if matches!(letter, b'u' | b'm' | b'd') => {
                user == 0 && self.change_table(rt, *letter, rest)
            }
            [letter, principal, number, rest @ ..] => {
                let place = Place {
                    principal: *principal,
                    number: *number,
                };
                own.contains(principal) && self.change_at(rt, user, *letter, place, rest)
            }
            _ => false,
        }
    }

    /// The world after an operation: the numbers, from 1 on, of the changes without effect.
    pub(crate) fn operate(&mut self, rt: &impl Host, operation: &Operation) -> Vec<u8> {
        let user = operation.user;
        if user == 0 {
            self.number = self.number.wrapping_add(1);
        }
        let own = self.own_principals(rt, user);
        let mut lost = Vec::new(rt.alloc());
        let mut number = 0u8;
        for row in &split(rt, operation.changes, b';') {
            number = number.wrapping_add(1);
            if !self.change(rt, user, &own, row) {
                given(rt, lost.push(number), "memory");
            }
        }
        lost
    }

    /// The text of the table of principals, where these are the keys of the users from 0 on: its users, who are added
    /// in the order of their numbers here, and its members, each after their count.
    pub(crate) fn table_text(&self, rt: &impl Host, keys: &[PublicKey]) -> Vec<u8> {
        let [.., users] = self.users.len().to_be_bytes();
        let mut text = joined(rt, &[b"SPT1", &[users]]);
        for (row, key) in self.users.iter().zip(keys) {
            let row = joined(rt, &[&[row.user], &spelled(row.since), key.as_bytes()]);
            given(rt, text.extend_from_slice(&row), "memory");
        }
        let [.., high, low] = self.members.len().to_be_bytes();
        given(rt, text.extend_from_slice(&[high, low]), "memory");
        for row in &self.members {
            let (begins, until) = (spelled(row.begins), spelled(row.until));
            let row = joined(rt, &[&[row.group, row.user], &begins, &until]);
            given(rt, text.extend_from_slice(&row), "memory");
        }
        text
    }

    /// Whether this is the file that stands at this place, where these are the keys of the users from 0 on.
    pub(crate) fn has_file(
        &self,
        rt: &impl Host,
        keys: &[PublicKey],
        place: Place,
        bytes: &[u8],
    ) -> bool {
        if place == TABLE {
            return self.table_text(rt, keys).as_slice() == bytes;
        }
        self.file_at(place) == Some(bytes)
    }
}
