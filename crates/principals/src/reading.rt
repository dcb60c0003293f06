//! The text of the table.

ghost use Rattle.std.specs.Prelude.{◌≡◌, ◌≢◌, ◌<◌, ◌≤◌, ◌-◌, [], ◌∷◌, length, OnOk, OnErr, IfOk, IfErr};
ghost use Rattle.std.specs.Option.{option_copied};
ghost use Rattle.layout.specs.declared.error.ReadError.TheVariants as read_error;
ghost use Rattle.layout.specs.Format.{BeginsWith, IsBytes, Reads, ReadsAs};
ghost use Rattle.principals.specs.TableText.{key as key_format, who, listed_at, dated, listing, keys_after, keys_of};
ghost use Rattle.principals.specs.TableText.{key_count, may_come, is_renewed, are_renewed, single, several, users};
ghost use Rattle.principals.specs.TableText.{begins_row, ends_row, rows_of, listed_user};

use crate::marks::no_marks;
use crate::table::{Listing, Renewal, Row, Table, last_since};
use layout::{
    Group, Memory, ReadError, Reader, RowFormat, RowState, Text, User, Version, Writer, read_rows,
    read_rows_into, write_rows,
};
use lms_sign::{KEY_SIZE, PublicKey};
use std::alloc::Allocator;
use std::marker::Model;

/// A public key, as a table or a change of it has one: 56 bytes.
pub fn read_key(reader: &mut Reader<'_>) -> Result<PublicKey, ReadError>
    ensures reads { Reads result reader.new (key_format.read reader.old) }
    ensures bytes { IsBytes reader.old }
    ensures no_memory { IfErr result (λ e. e ≢ read_error.Memory) }
    ensures err { OnErr result (reader.new ≡ reader.old) }
{
    let left = reader.left();
    let bytes = reader.bytes(KEY_SIZE)?;
    let mut copy = [0; KEY_SIZE];
    copy.copy_from_slice(bytes);
    match PublicKey::from_bytes(copy) {
        Some(key) => Ok(key),
        None => {
            reader.go_back(left);
            Err(ReadError::Range)
        }
    }
}

/// Who is listed next.
fn read_who<A: Allocator>(
    reader: &mut Reader<'_>,
    before: Option<&Listing<A>>,
) -> Result<User, ReadError>
    ensures reads { Reads result reader.new ((who (option_copied before.entry)).read reader.old) }
    ensures no_memory { IfErr result (λ e. e ≢ read_error.Memory) }
{
    let user = reader.user()?;
    match before {
        None if user != User::superuser() => Err(ReadError::Range),
        Some(before) if user.get() <= before.user.get() => Err(ReadError::Order),
        _ => Ok(user),
    }
}

/// Since when that user is listed.
fn read_since<A: Allocator>(
    reader: &mut Reader<'_>,
    before: Option<&Listing<A>>,
) -> Result<u32, ReadError>
    ensures reads { Reads result reader.new ((listed_at (option_copied before.entry)).read reader.old) }
    ensures no_memory { IfErr result (λ e. e ≢ read_error.Memory) }
{
    match before {
        None => reader.u32_in(0, 0),
        Some(_) => reader.u32_in(1, u32::MAX),
    }
}

/// A key that came later than those before, in a listing.
impl<A: Allocator + Copy> RowState<A> for Listing<A> {
    ghost use Rattle.principals.specs.TableText.{renewals};

    type Item = Renewal;

    ghost format = { renewals };

    ghost room = { λ l. 15 - length l.later };

    fn read_fields(&self, _alloc: A, reader: &mut Reader<'_>) -> Result<Renewal, ReadError> {
        let since = reader.u32_in(1, u32::MAX)?;
        if since <= last_since(self) {
            return Err(ReadError::Order);
        }
        let key = read_key(reader)?;
        Ok(Renewal { since, key })
    }

    fn add(&mut self, row: Renewal) -> Result<(), Memory> {
        self.later.push(row)?;
        Ok(())
    }
}

/// The rows of the keys that came later, as they are written.
#[derive(Clone, Copy)]
struct Renewals;

impl<A: Allocator + Copy> RowFormat<A> for Renewals {
    ghost use Rattle.std.specs.Int.{w32};
    ghost use Rattle.layout.specs.Format.{uint_in};

    type Item = Renewal;

    ghost format = { λ _ _. dated (uint_in w32 1 4294967295) };

    fn read_fields(
        &self,
        _alloc: A,
        reader: &mut Reader<'_>,
        _before: Option<&Renewal>,
    ) -> Result<Renewal, ReadError> {
        let since = reader.u32_in(1, u32::MAX)?;
        let key = read_key(reader)?;
        Ok(Renewal { since, key })
    }

    fn write_fields(&self, writer: &mut Writer<A>, row: &Renewal) -> Result<(), Memory> {
        writer.u32(row.since)?;
        writer.bytes(row.key.as_bytes())
    }
}

/// The users that have one key each.
#[derive(Clone, Copy)]
struct Singles;

impl<A: Allocator + Copy> RowFormat<A> for Singles {
    type Item = Listing<A>;

    ghost format = { λ _. listing };

    fn read_fields(
        &self,
        alloc: A,
        reader: &mut Reader<'_>,
        before: Option<&Listing<A>>,
    ) -> Result<Listing<A>, ReadError> {
        let user = read_who(reader, before)?;
        let since = read_since(reader, before)?;
        let key = read_key(reader)?;
        let later = Vec::new(alloc);
        Ok(Listing {
            user,
            since,
            key,
            later,
        })
    }

    fn write_fields(&self, writer: &mut Writer<A>, row: &Listing<A>) -> Result<(), Memory> {
        writer.user(row.user)?;
        writer.u32(row.since)?;
        writer.bytes(row.key.as_bytes())
    }
}

/// As many keys of a user as were counted.
fn read_keys<A: Allocator + Copy>(
    alloc: A,
    reader: &mut Reader<'_>,
    before: Option<&Listing<A>>,
    user: User,
    count: u8,
) -> Result<Listing<A>, ReadError>
    requires low { 1 ≤ count }
    requires high { count ≤ 16 }
    ensures reads { ReadsAs keys_of result reader.new
        ((keys_after (option_copied before.entry) user count).read reader.old) }
    ensures user { IfOk result (λ l. l.user ≡ user) }
{
    let since = read_since(reader, before)?;
    let key = read_key(reader)?;
    let later = Vec::new(alloc);
    let mut listing = Listing {
        user,
        since,
        key,
        later,
    };
    read_rows_into(alloc, reader, &mut listing, usize::from(count) - 1)?;
    Ok(listing)
}

/// Whether the user has more than one key.
fn is_renewed<A: Allocator>(listing: &Listing<A>) -> bool
    ensures { result ≡ is_renewed listing.now }
{
    listing.later.len() >= 1
}

/// Whether one of these users has more than one key.
fn are_renewed<A: Allocator>(users: &[Listing<A>]) -> bool
    ensures { result ≡ are_renewed users.now }
{
    users.iter().any(|listing| is_renewed(listing))
}

/// How many users are to come, and those that came.
#[derive(Drop)]
struct Coming<A: Allocator> {
    left: usize,
    came: Vec<Listing<A>, A>,
}

impl<A: Allocator> Model for Coming<A> {
    ghost use Rattle.principals.specs.TableText.{Users};

    ghost Value = { Users };

    ghost view = { λ c. record { left = c.left; came = c.came.items } };
}

/// How many keys the next user has.
fn read_count<A: Allocator>(coming: &Coming<A>, reader: &mut Reader<'_>) -> Result<u8, ReadError>
    ensures reads { Reads result reader.new ((key_count (may_come coming.now)).read reader.old) }
    ensures no_memory { IfErr result (λ e. e ≢ read_error.Memory) }
    ensures low { IfOk result (λ n. 1 ≤ n) }
    ensures high { IfOk result (λ n. n ≤ 16) }
{
    let count = reader.u8_in(1, 16)?;
    if coming.came.is_empty() && count != 1 {
        return Err(ReadError::Range);
    }
    if count < 2 && coming.left == 1 && !are_renewed(&coming.came) {
        return Err(ReadError::Range);
    }
    Ok(count)
}

impl<A: Allocator + Copy> RowState<A> for Coming<A> {
    ghost use Rattle.principals.specs.TableText.{user_rows};

    type Item = Listing<A>;

    ghost format = { user_rows };

    ghost room = { λ s. s.left };

    fn read_fields(&self, alloc: A, reader: &mut Reader<'_>) -> Result<Listing<A>, ReadError> {
        let before = self.came.last();
        let user = read_who(reader, before)?;
        let count = read_count(self, reader)?;
        read_keys(alloc, reader, before, user, count)
    }

    fn add(&mut self, row: Listing<A>) -> Result<(), Memory> {
        self.came.push(row)?;
        self.left -= 1;
        Ok(())
    }
}

/// The users, where one has more than one key.
fn read_several<A: Allocator + Copy>(
    alloc: A,
    reader: &mut Reader<'_>,
) -> Result<Vec<Listing<A>, A>, ReadError>
    ensures reads { ReadsAs (λ v. v.items) result reader.new (several.read reader.old) }
{
    let count = usize::from(reader.u8_in(1, u8::MAX)?);
    let came = Vec::new(alloc);
    let mut coming = Coming { left: count, came };
    read_rows_into(alloc, reader, &mut coming, count)?;
    Ok(coming.came)
}

/// The users, where each has one key.
fn read_single<A: Allocator + Copy>(
    alloc: A,
    reader: &mut Reader<'_>,
) -> Result<Vec<Listing<A>, A>, ReadError>
    ensures reads { ReadsAs (λ v. v.items) result reader.new (single.read reader.old) }
{
    let count = usize::from(reader.u8_in(1, u8::MAX)?);
    read_rows(alloc, reader, &Singles, count)
}

/// The users after their tag.
fn read_listings<A: Allocator + Copy>(
    alloc: A,
    reader: &mut Reader<'_>,
) -> Result<Vec<Listing<A>, A>, ReadError>
    ensures reads { ReadsAs (λ v. v.items) result reader.new (users.read reader.old) }
    ensures bytes { IsBytes reader.old }
{
    if reader.tag(b"SPT2").is_ok() {
        return read_several(alloc, reader);
    }
    reader.tag(b"SPT1")?;
    read_single(alloc, reader)
}

/// The users, in a table without rows.
fn read_users<A: Allocator + Copy>(alloc: A, reader: &mut Reader<'_>) -> Result<Table<A>, ReadError>
    ensures reads { ReadsAs (λ t. t.users) result reader.new (users.read reader.old) }
    ensures rows { IfOk result (λ t. t.rows ≡ []) }
    ensures bytes { IsBytes reader.old }
{
    let mut others = read_listings(alloc, reader)?;
    let superuser = others.remove(0);
    Ok(Table {
        superuser,
        others,
        rows: Vec::new(alloc),
        marks: no_marks(),
    })
}

/// The users with all their keys, as they are written.
#[derive(Clone, Copy)]
struct Several;

impl<A: Allocator + Copy> RowFormat<A> for Several {
    ghost use Rattle.principals.specs.Kept.{any_listing};

    type Item = Listing<A>;

    ghost format = { λ _. any_listing };

    fn read_fields(
        &self,
        alloc: A,
        reader: &mut Reader<'_>,
        before: Option<&Listing<A>>,
    ) -> Result<Listing<A>, ReadError> {
        let user = read_who(reader, before)?;
        let count = reader.u8_in(1, 16)?;
        if before.is_none() && count != 1 {
            return Err(ReadError::Range);
        }
        read_keys(alloc, reader, before, user, count)
    }

    fn write_fields(&self, writer: &mut Writer<A>, row: &Listing<A>) -> Result<(), Memory> {
        writer.user(row.user)?;
        writer.u8(row.later.len() as u8 + 1)?;
        writer.u32(row.since)?;
        writer.bytes(row.key.as_bytes())?;
        write_rows(writer, &Renewals, &row.later)
    }
}

/// The users, where each has one key.
fn write_single<A: Allocator + Copy>(
    writer: &mut Writer<A>,
    superuser: &Listing<A>,
    others: &[Listing<A>],
) -> Result<(), Memory>
    requires { length others.now < 255 }
    ensures ok { OnOk result (writer.new ≡ single.onto writer.old (superuser.now ∷ others.now)) }
    ensures front { BeginsWith writer.new writer.old }
{
    writer.u8(others.len() as u8 + 1)?;
    Singles.write_row(writer, superuser)?;
    write_rows(writer, &Singles, others)
}

/// The users, where one has more than one key.
fn write_several<A: Allocator + Copy>(
    writer: &mut Writer<A>,
    superuser: &Listing<A>,
    others: &[Listing<A>],
) -> Result<(), Memory>
    requires { length others.now < 255 }
    ensures ok { OnOk result (writer.new ≡ several.onto writer.old (superuser.now ∷ others.now)) }
    ensures front { BeginsWith writer.new writer.old }
{
    writer.u8(others.len() as u8 + 1)?;
    Several.write_row(writer, superuser)?;
    write_rows(writer, &Several, others)
}

/// The users after their tag.
fn write_users<A: Allocator + Copy>(
    writer: &mut Writer<A>,
    superuser: &Listing<A>,
    others: &[Listing<A>],
) -> Result<(), Memory>
    requires { length others.now < 255 }
    ensures ok { OnOk result (writer.new ≡ users.onto writer.old (superuser.now ∷ others.now)) }
    ensures front { BeginsWith writer.new writer.old }
{
    if is_renewed(superuser) || are_renewed(others) {
        writer.tag(b"SPT2")?;
        write_several(writer, superuser, others)
    } else {
        writer.tag(b"SPT1")?;
        write_single(writer, superuser, others)
    }
}

/// A table whose rows are read.
#[derive(Drop)]
struct Filling<A: Allocator> {
    table: Table<A>,
}

impl<A: Allocator> Model for Filling<A> {
    ghost use Rattle.principals.specs.Table.{Table};

    ghost Value = { Table };

    ghost view = { λ f. f.table };
}

/// Where a row begins.
fn read_begins<A: Allocator>(
    table: &Table<A>,
    reader: &mut Reader<'_>,
) -> Result<Version, ReadError>
    ensures reads { Reads result reader.new ((begins_row table.now).read reader.old) }
    ensures no_memory { IfErr result (λ e. e ≢ read_error.Memory) }
{
    let begins = reader.version()?;
    if begins.get() < table.last_begins() {
        return Err(ReadError::Order);
    }
    Ok(begins)
}

/// Where a row of a group and a user ends, which begins there.
fn read_until<A: Allocator>(
    table: &Table<A>,
    reader: &mut Reader<'_>,
    group: Group,
    user: User,
    begins: Version,
) -> Result<u32, ReadError>
    ensures reads { Reads result reader.new ((ends_row table.now group user begins).read reader.old) }
    ensures no_memory { IfErr result (λ e. e ≢ read_error.Memory) }
{
    let until = reader.u32_in(0, u32::MAX)?;
    let may = if until == 0 {
        !table.is_member_now(group, user)
    } else {
        begins.get() <= until
    };
    if !may {
        return Err(ReadError::Range);
    }
    Ok(until)
}

/// A listed user.
fn read_listed<A: Allocator>(table: &Table<A>, reader: &mut Reader<'_>) -> Result<User, ReadError>
    ensures reads { Reads result reader.new ((listed_user table.now).read reader.old) }
    ensures no_memory { IfErr result (λ e. e ≢ read_error.Memory) }
{
    let user = reader.user()?;
    if !table.lists_user(user) {
        return Err(ReadError::Range);
    }
    Ok(user)
}

impl<A: Allocator + Copy> RowState<A> for Filling<A> {
    ghost use Rattle.principals.specs.TableText.{member_rows};

    type Item = Row;

    ghost format = { member_rows };

    ghost room = { λ t. 65535 - length t.rows };

    fn read_fields(&self, _alloc: A, reader: &mut Reader<'_>) -> Result<Row, ReadError> {
        let table = &self.table;
        let group = reader.group()?;
        let user = read_listed(table, reader)?;
        let begins = read_begins(table, reader)?;
        let until = read_until(table, reader, group, user, begins)?;
        Ok(Row {
            group,
            user,
            begins,
            until,
        })
    }

    fn add(&mut self, row: Row) -> Result<(), Memory> {
        self.table.push(row)
    }
}

/// The rows of members, for the users of a table without rows.
fn read_members<A: Allocator + Copy>(
    alloc: A,
    reader: &mut Reader<'_>,
    table: Table<A>,
) -> Result<Table<A>, ReadError>
    requires { table.rows ≡ [] }
    ensures reads { ReadsAs (λ t. t.rows) result reader.new ((rows_of table.users).read reader.old) }
    ensures users { IfOk result (λ t. t.users ≡ table.users) }
{
    let count = reader.u16_in(0, u16::MAX)?;
    let mut filling = Filling { table };
    read_rows_into(alloc, reader, &mut filling, usize::from(count))?;
    let Filling { table } = filling;
    Ok(table)
}

/// The rows of members, as they are written.
#[derive(Clone, Copy)]
struct Members;

impl<A: Allocator + Copy> RowFormat<A> for Members {
    ghost use Rattle.principals.specs.TableText.{plain_row};

    type Item = Row;

    ghost format = { λ _ _. plain_row };

    fn read_fields(
        &self,
        _alloc: A,
        reader: &mut Reader<'_>,
        _before: Option<&Row>,
    ) -> Result<Row, ReadError> {
        let group = reader.group()?;
        let user = reader.user()?;
        let begins = reader.version()?;
        let until = reader.u32_in(0, u32::MAX)?;
        Ok(Row {
            group,
            user,
            begins,
            until,
        })
    }

    fn write_fields(&self, writer: &mut Writer<A>, row: &Row) -> Result<(), Memory> {
        writer.group(row.group)?;
        writer.user(row.user)?;
        writer.version(row.begins)?;
        writer.u32(row.until)
    }
}

impl<A: Allocator + Copy> Text<A> for Table<A> {
    ghost use Rattle.principals.specs.TableText.{table};
    ghost use Rattle.principals.specs.TableTextLaws.{lawful_table};

    ghost format = { table };

    fn read_fields(alloc: A, reader: &mut Reader<'_>) -> Result<Table<A>, ReadError> {
        let table = read_users(alloc, reader)?;
        read_members(alloc, reader, table)
    }

    fn write_fields(&self, writer: &mut Writer<A>) -> Result<(), Memory> {
        write_users(writer, &self.superuser, &self.others)?;
        writer.u16(self.rows.len() as u16)?;
        write_rows(writer, &Members, &self.rows)
    }

    ghost lawful = { lawful_table };
}
