//! The changes of the operation that was declared last, as the journal has it, of which some had no effect.

use crate::folder::{CERTIFICATE, last_signed, read_present};
use crate::hindrance::FolderFile;
use crate::tree::Shown;
use directory::{MOST_ENTRIES, Target as Place};
use layout::{Text, User};
use lms_sign::SIGNATURE_SIZE;
use std::alloc::Global;
use std::fmt;
use update_cert::{Action, AnyAction, Cert, Change, TableChange};

/// The first number of a group.
const FIRST_GROUP: u8 = 64;

/// The operation that was declared last in a folder, if it can be read.
pub(crate) fn last_operation(rt: &HostRuntime, folder: &str) -> Option<Cert<Global>> {
    let journal = read_present(rt, folder, FolderFile::Journal).ok()?;
    let signed = last_signed(&journal, Some(CERTIFICATE));
    let (text, _signature) = signed.split_at(signed.len().saturating_sub(SIGNATURE_SIZE));
    Cert::read(rt.alloc(), text).ok()
}

/// Whether the change at a place of an operation, from 0 on, is one of those without effect, which are told from 1 on.
fn is_lost(lost: &[u8], place: usize) -> bool {
    for number in lost {
        if usize::from(*number) == place.saturating_add(1) {
            return true;
        }
    }
    false
}

/// What is done at an i-number.
fn write_at<W: fmt::Write>(
    f: &mut fmt::Formatter<W>,
    place: Place,
    action: &Action<Global>,
) -> fmt::Result {
    let (principal, i_number) = (place.principal.get(), place.i_number.get());
    match action {
        Action::Make(_) => write!(f, "to make @{principal}:{i_number}"),
        Action::Put(_) => write!(f, "to write @{principal}:{i_number}"),
        Action::Remove => write!(f, "to remove @{principal}:{i_number}"),
        Action::Link(entry) => {
            let (name, target) = (Shown(entry.name().as_str()), entry.target());
            let (owner, number) = (target.principal.get(), target.i_number.get());
            write!(
                f,
                "to name @{owner}:{number} {name} in @{principal}:{i_number}"
            )
        }
        Action::Unlink(name) => {
            let name = Shown(name.as_str());
            write!(f, "to take the name {name} out of @{principal}:{i_number}")
        }
    }
}

/// What is done to the table of principals.
fn write_of_table<W: fmt::Write>(f: &mut fmt::Formatter<W>, change: TableChange) -> fmt::Result {
    match change {
        TableChange::AddUser(user, _) => write!(f, "to list user {}", user.get()),
        TableChange::SetKey(user, _) => write!(f, "to set a key of user {}", user.get()),
        TableChange::AddMember(group, user) => {
            write!(f, "to add user {} to group {}", user.get(), group.get())
        }
        TableChange::DropMember(group, user) => {
            write!(f, "to drop user {} from group {}", user.get(), group.get())
        }
    }
}

/// Why user 0's change of the table of principals may have had no effect.
fn words_of_table(change: TableChange) -> &'static str {
    match change {
        TableChange::AddUser(..) => "the number is listed already",
        TableChange::SetKey(..) => "no such user, or one that gets no further key",
        TableChange::AddMember(..) => "no such user, or a member already",
        TableChange::DropMember(..) => "no such member",
    }
}

/// Who may change what isn't the user's own.
fn write_others<W: fmt::Write>(f: &mut fmt::Formatter<W>, owner: u8) -> fmt::Result {
    if owner < FIRST_GROUP {
        write!(f, "user {owner} alone may")
    } else {
        write!(
            f,
            "members of group {owner} may, and another user may have come first"
        )
    }
}

/// Why a name may not have been given in a directory that the user may change.
fn write_unnamed<W: fmt::Write>(f: &mut fmt::Formatter<W>, own: User, owner: u8) -> fmt::Result {
    if owner == own.get() {
        write!(f, "the name was taken, or nothing to name it in was there")?;
    } else {
        write_others(f, owner)?;
    }
    write!(f, ", or the directory had {MOST_ENTRIES} names by then")
}

/// Why a change of what stands at an i-number may have had no effect.
fn write_why_at<W: fmt::Write>(
    f: &mut fmt::Formatter<W>,
    own: User,
    owner: u8,
    action: &Action<Global>,
) -> fmt::Result {
    let is_own = owner == own.get();
    match action {
        Action::Link(_) if is_own || owner >= FIRST_GROUP => write_unnamed(f, own, owner),
        _ if is_own => write!(f, "it didn't fit what was there by then"),
        _ => write_others(f, owner),
    }
}

/// Why a user's change may have had no effect.
fn write_why<W: fmt::Write>(
    f: &mut fmt::Formatter<W>,
    own: User,
    change: &Change<Global>,
) -> fmt::Result {
    let owner = change.principal().get();
    match change.action() {
        AnyAction::At(action) => write_why_at(f, own, owner, action),
        AnyAction::OfTable(_) if owner != own.get() => write_others(f, owner),
        AnyAction::OfTable(change) => write!(f, "{}", words_of_table(*change)),
    }
}

/// The i-number at which a change does something.
fn place_of(change: &Change<Global>) -> Place {
    Place {
        principal: change.principal(),
        i_number: change.i_number(),
    }
}

/// What a change does.
fn write_what<W: fmt::Write>(f: &mut fmt::Formatter<W>, change: &Change<Global>) -> fmt::Result {
    match change.action() {
        AnyAction::At(action) => write_at(f, place_of(change), action),
        AnyAction::OfTable(change) => write_of_table(f, *change),
    }
}

/// What a change was to do without effect, and why it may have had none.
#[derive(Clone, Copy)]
struct Loss<'a> {
    own: User,
    change: &'a Change<Global>,
}

impl fmt::Display for Loss<'_> {
    fn fmt<W: fmt::Write>(&self, f: &mut fmt::Formatter<W>) -> fmt::Result {
        write_what(f, self.change)?;
        write!(f, ": ")?;
        write_why(f, self.own, self.change)
    }
}

/// Tells in words the changes without effect.
fn tell_changes(rt: &HostRuntime, own: User, changes: &[Change<Global>], lost: &[u8]) {
    for (place, change) in changes.iter().enumerate() {
        if is_lost(lost, place) {
            let number = place.saturating_add(1);
            let _ = eprintln!(rt; "sundr: change {number}: {}", Loss { own, change });
        }
    }
}

/// Whether a change makes something at a place.
fn makes(change: &Change<Global>, place: &Place) -> bool {
    matches!(change.action(), AnyAction::At(Action::Make(_))) && place_of(change) == *place
}

/// Whether one of these changes makes something at a place, and had effect.
fn is_made(changes: &[Change<Global>], lost: &[u8], place: &Place) -> bool {
    for (at, change) in changes.iter().enumerate() {
        if makes(change, place) && !is_lost(lost, at) {
            return true;
        }
    }
    false
}

/// Tells which of these had effect, but not the change that was to give it its name.
fn tell_nameless(rt: &HostRuntime, changes: &[Change<Global>], lost: &[u8]) {
    for (at, change) in changes.iter().enumerate() {
        let AnyAction::At(Action::Link(entry)) = change.action() else {
            continue;
        };
        let place = entry.target();
        if is_made(changes, lost, &place) && is_lost(lost, at) {
            let (principal, i_number) = (place.principal.get(), place.i_number.get());
            let _ = eprintln!(rt;
                "sundr: @{principal}:{i_number}: stands there without a name: link gives it one, rm removes it"
            );
        }
    }
}

/// Tells of the operation that was declared last what its changes without effect were to do, and what stands without a
/// name for want of them. Where it can't be read, nothing is told.
pub(crate) fn tell_lost(rt: &HostRuntime, folder: &str, own: User, lost: &[u8]) {
    if let Some(operation) = last_operation(rt, folder) {
        tell_changes(rt, own, operation.changes(), lost);
        tell_nameless(rt, operation.changes(), lost);
    }
}

/// The place to which these changes give a name, if one does.
fn named(changes: &[Change<Global>], name: &str) -> Option<Place> {
    for change in changes {
        match change.action() {
            AnyAction::At(Action::Link(entry)) if entry.name().as_str() == name => {
                return Some(entry.target());
            }
            _ => (),
        }
    }
    None
}

/// Whether a change concerns the file of a name, at this place.
fn concerns(change: &Change<Global>, name: &str, place: &Place) -> bool {
    match change.action() {
        AnyAction::At(Action::Link(entry)) => entry.name().as_str() == name,
        _ => place_of(change) == *place,
    }
}

/// Whether one of the changes without effect concerns a file, of this name, which stood at a place before if it stood.
pub(crate) fn is_unwritten(
    changes: &[Change<Global>],
    lost: &[u8],
    name: &str,
    there: Option<Place>,
) -> bool {
    let Some(place) = named(changes, name).or(there) else {
        return true;
    };
    for (at, change) in changes.iter().enumerate() {
        if is_lost(lost, at) && concerns(change, name, &place) {
            return true;
        }
    }
    false
}
