//! Changes.

ghost use Rattle.layout.specs.declared.error.ReadError.TheVariants as read_error;
ghost use Rattle.std.specs.Prelude.{◌≡◌, ◌≢◌, ◌≤◌, IfErr, OnErr, OnOk};
ghost use Rattle.layout.specs.Format.{BeginsWith, Reads, ReadsAs};
ghost use Rattle.update_cert.specs.Change.{action as action_format, placed_fields, table_fields, fields, action_of};
ghost use Rattle.update_cert.specs.Change.{table_action_of, any_action_of, of_table, change, kind};

use directory::{Entry, Name};
use layout::{
    Digest, Group, INumber, Memory, Principal, ReadError, Reader, RowFormat, Text, User, Writer,
};
use lms_sign::PublicKey;
use principals::{key_invariant, read_key};
use std::alloc::Allocator;
use std::marker::Model;

/// How many bytes a change has at most in a text: its kind, its place, and an entry with a name of 255 bytes.
pub const CHANGE_SIZE: usize = 1 + (1 + 2) + (1 + 255 + (1 + 2));

/// What is done at an i-number.
#[derive(Drop)]
pub enum Action<A: Allocator> {
    /// What the i-node of this digest is of stands there from now on, where nothing stood.
    Make(Digest),
    /// What the i-node of this digest is of stands there from now on, in the place of a file.
    Put(Digest),
    /// Nothing stands there any more.
    Remove,
    /// The directory there has this entry, too.
    Link(Entry<A>),
    /// The directory there has no entry of this name any more.
    Unlink(Name<A>),
}

/// What is done to the table of principals, at user 0's i-number 1.
#[derive(Clone, Copy)]
pub enum TableChange {
    /// The user is listed, with this key.
    AddUser(User, PublicKey),
    /// The user is a member of the group from now on.
    AddMember(Group, User),
    /// The user is no member of the group any more.
    DropMember(Group, User),
    /// The user has this key, too, from now on.
    SetKey(User, PublicKey),
}

/// What a change does: at an i-number, or to the table.
#[derive(Drop)]
pub enum AnyAction<A: Allocator> {
    /// This, at its i-number of its principal.
    At(Action<A>),
    /// This, to the table of principals.
    OfTable(TableChange),
}

/// What is done at an i-number of a principal.
#[derive(Drop)]
pub struct Change<A: Allocator> {
    principal: Principal,
    i_number: INumber,
    action: AnyAction<A>,
}

impl<A: Allocator> Model for Change<A> {
    ghost use Rattle.layout.specs.Types.{Digest};
    ghost use Rattle.update_cert.specs.Change.{Change, any_action_of, change};

    ghost Value = { Change Digest };

    ghost view = { λ c. record { principal = c.principal; i_number = c.i_number; action = any_action_of c.action } };

    ghost invariant = { λ c. change.Fits
        (record { principal = c.principal; i_number = c.i_number; action = any_action_of c.action }) };
}

/// What is done, of this kind, in what is left of a text.
fn read_action<A: Allocator + Copy>(
    alloc: A,
    reader: &mut Reader<'_>,
    kind: u8,
) -> Result<Action<A>, ReadError>
    requires low { 1 ≤ kind }
    requires high { kind ≤ 5 }
    ensures reads { ReadsAs action_of result reader.new ((action_format kind).read reader.old) }
    // An entry and a name lie in memory of their own.
    ensures no_memory { kind ≤ 3 → IfErr result (λ e. e ≢ read_error.Memory) }
    ensures err { OnErr result (reader.new ≡ reader.old) }
{
    match kind {
        1 => Ok(Action::Make(reader.digest()?)),
        2 => Ok(Action::Put(reader.digest()?)),
        3 => Ok(Action::Remove),
        4 => Ok(Action::Link(Entry::read_from(alloc, reader)?)),
        _ => Ok(Action::Unlink(Name::read_from(alloc, reader)?)),
    }
}

impl<A: Allocator> Action<A> {
    /// The number of its kind in a text.
    fn kind(&self) -> u8
        ensures { result ≡ kind (action_of self.now) }
    {
        match self {
            Action::Make(_) => 1,
            Action::Put(_) => 2,
            Action::Remove => 3,
            Action::Link(_) => 4,
            Action::Unlink(_) => 5,
        }
    }

    /// That it fits its text, as the contracts of its parts say.
    fn fits(&self)
        ensures { (action_format (kind (action_of self.now))).Fits (action_of self.now) }
    {
        match self {
            Action::Make(inode) | Action::Put(inode) => {
                let _bytes = inode.as_bytes();
            }
            Action::Remove => {}
            Action::Link(entry) => {
                let _name = entry.name();
            }
            Action::Unlink(name) => {
                let _bytes = name.as_bytes();
            }
        }
    }
}

impl<A: Allocator + Copy> Action<A> {
    /// Writes it at the end of a text, without its kind.
    fn write_to(&self, writer: &mut Writer<A>) -> Result<(), Memory>
        ensures ok { OnOk result (writer.new
            ≡ (action_format (kind (action_of self.now))).onto writer.old (action_of self.now)) }
        ensures front { BeginsWith writer.new writer.old }
        ensures err { OnErr result (writer.new ≡ writer.old) }
    {
        match self {
            Action::Make(inode) => writer.digest(inode),
            Action::Put(inode) => writer.digest(inode),
            Action::Remove => Ok(()),
            Action::Link(entry) => entry.write_to(writer),
            Action::Unlink(name) => name.write_to(writer),
        }
    }
}

/// A change of this kind of the table, in what is left of a text.
fn read_table_change(reader: &mut Reader<'_>, kind: u8) -> Result<TableChange, ReadError>
    requires low { 6 ≤ kind }
    requires high { kind ≤ 9 }
    ensures reads { ReadsAs (λ change. of_table (table_action_of change)) result reader.new
        ((fields kind).read reader.old) }
    ensures no_memory { IfErr result (λ e. e ≢ read_error.Memory) }
{
    match kind {
        6 => {
            let user = reader.user()?;
            Ok(TableChange::AddUser(user, read_key(reader)?))
        }
        7 => {
            let group = reader.group()?;
            Ok(TableChange::AddMember(group, reader.user()?))
        }
        8 => {
            let group = reader.group()?;
            Ok(TableChange::DropMember(group, reader.user()?))
        }
        9 => {
            let user = reader.user()?;
            Ok(TableChange::SetKey(user, read_key(reader)?))
        }
        _ => unreachable!(),
    }
}

impl TableChange {
    /// The number of its kind in a text.
    fn kind(&self) -> u8
        ensures { result ≡ kind (table_action_of self.now) }
    {
        match self {
            TableChange::AddUser(_, _) => 6,
            TableChange::AddMember(_, _) => 7,
            TableChange::DropMember(_, _) => 8,
            TableChange::SetKey(_, _) => 9,
        }
    }

    /// That it fits its text, as the contracts of its parts say.
    fn fits(&self)
        ensures { (fields (kind (table_action_of self.now))).Fits (of_table (table_action_of self.now)) }
    {
        match self {
            TableChange::AddUser(user, key) | TableChange::SetKey(user, key) => {
                let _number = user.get();
                key_invariant(key);
            }
            TableChange::AddMember(group, user) | TableChange::DropMember(group, user) => {
                let _numbers = (group.get(), user.get());
            }
        }
    }

    /// Writes it at the end of a text, without its kind.
    fn write_to<A: Allocator + Copy>(&self, writer: &mut Writer<A>) -> Result<(), Memory>
        ensures ok { OnOk result (writer.new
            ≡ (fields (kind (table_action_of self.now))).onto writer.old (of_table (table_action_of self.now))) }
        ensures front { BeginsWith writer.new writer.old }
    {
        match self {
            TableChange::AddUser(user, key) | TableChange::SetKey(user, key) => {
                writer.user(*user)?;
                writer.bytes(key.as_bytes())
            }
            TableChange::AddMember(group, user) | TableChange::DropMember(group, user) => {
                writer.group(*group)?;
                writer.user(*user)
            }
        }
    }
}

/// What is left of the text of a change of this kind.
fn read_after_kind<A: Allocator + Copy>(
    alloc: A,
    reader: &mut Reader<'_>,
    kind: u8,
) -> Result<Change<A>, ReadError>
    requires low { 1 ≤ kind }
    requires high { kind ≤ 9 }
    ensures reads { Reads result reader.new ((fields kind).read reader.old) }
{
    if kind > 5 {
        return Ok(Change::of_table(read_table_change(reader, kind)?));
    }
    let principal = reader.principal()?;
    let i_number = reader.i_number()?;
    let action = read_action(alloc, reader, kind)?;
    Ok(Change::new(principal, i_number, action))
}

/// The rows of the changes.
#[derive(Clone, Copy)]
pub(crate) struct Changes;

impl<A: Allocator + Copy> RowFormat<A> for Changes {
    ghost use Rattle.update_cert.specs.Cert.{change_rows};

    type Item = Change<A>;

    ghost format = { λ _. change_rows };

    fn read_fields(
        &self,
        alloc: A,
        reader: &mut Reader<'_>,
        _before: Option<&Change<A>>,
    ) -> Result<Change<A>, ReadError> {
        let kind = reader.u8_in(1, 9)?;
        read_after_kind(alloc, reader, kind)
    }

    fn write_fields(&self, writer: &mut Writer<A>, row: &Change<A>) -> Result<(), Memory> {
        match &row.action {
            AnyAction::At(action) => {
                writer.u8(action.kind())?;
                writer.principal(row.principal)?;
                writer.i_number(row.i_number)?;
                action.write_to(writer)
            }
            AnyAction::OfTable(change) => {
                writer.u8(change.kind())?;
                change.write_to(writer)
            }
        }
    }
}

impl<A: Allocator> Change<A> {
    /// The change of these parts, whose own contracts say that they fit.
    pub fn new(principal: Principal, i_number: INumber, action: Action<A>) -> Change<A>
        ensures { result ≡ record { principal = principal; i_number = i_number; action = action_of action } }
    {
        let _place = (principal.get(), i_number.get());
        action.fits();
        Change {
            principal,
            i_number,
            action: AnyAction::At(action),
        }
    }

    /// A change of the table of principals, at user 0's i-number 1.
    pub fn of_table(change: TableChange) -> Change<A>
        ensures { result ≡ of_table (table_action_of change) }
    {
        change.fits();
        Change {
            principal: Principal::from(User::superuser()),
            i_number: INumber::table(),
            action: AnyAction::OfTable(change),
        }
    }

    /// Whose i-number it is.
    pub fn principal(&self) -> Principal
        ensures same { result ≡ self.now.principal }
        ensures fits { change.Fits self.now }
    {
        self.principal
    }

    /// Where something is done.
    pub fn i_number(&self) -> INumber
        ensures { result ≡ self.now.i_number }
    {
        self.i_number
    }

    /// What is done there.
    pub fn action(&self) -> &AnyAction<A>
        ensures { any_action_of result.now ≡ self.now.action }
    {
        &self.action
    }
}
