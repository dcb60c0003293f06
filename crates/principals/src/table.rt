//! The table, and its rows.

ghost use Rattle.std.specs.Prelude.{◌≡◌, ◌≢◌, ◌<◌, ◌≤◌, ◌⊎◌, ◌++◌, ◌∷◌, ◌==◌, ◌&&◌, nat_le, [], true, false, length};
ghost use Rattle.std.specs.Prelude.{slice_index_or, map, find, Some, None, IfOk, IfErr, OnOk, OnErr, MatchResult, if◌then◌else◌};
ghost use Rattle.std.specs.Option.{option_copied};
ghost use Rattle.std.specs.List.{list_any, slice_set};
ghost use Rattle.std.specs.Ordering.{nat_cmp};
ghost use Rattle.layout.specs.Ascending.{Ascends, Stands, IsFree, row_at};
ghost use Rattle.principals.specs.Table.{Listing as ListingModel, user_of, listing_of, user_refused, ended, Told};
ghost use Rattle.principals.specs.Table.{last_key, last_since, key_by, listed_key_at, listing_refused, with_later};
ghost use Rattle.principals.specs.TableText.{key as key_format, without_rows};
ghost use Rattle.principals.specs.Kept.{AreUsers};
ghost use Rattle.principals.specs.declared.error.TableError.TheVariants as table_error;

use crate::error::TableError;
use crate::marks::{Marks, no_marks, slot};
use layout::{Group, Memory, Principal, User, Version, are_bytes};
use lms_sign::PublicKey;
use std::alloc::Allocator;
use std::marker::Model;

/// How many rows of members a table has at most.
pub(crate) const MOST_ROWS: usize = 65535;

/// How many bytes the text of a table has at most: the tag, the users after their count, and the rows after theirs.
pub const TABLE_SIZE: usize = 4
    + (1 + 255 * (1 + 1 + MOST_KEYS * (4 + 56)))
    + (2 + MOST_ROWS * (1 + 1 + 4 + 4));

/// How many keys a user has at most.
pub(crate) const MOST_KEYS: usize = 16;

/// A key, and the number of user 0's operation with which it came.
#[derive(Clone, Copy, Debug)]
pub struct Renewal {
    pub since: u32,
    pub key: PublicKey,
}

/// A user and its keys.
#[derive(Drop)]
pub struct Listing<A: Allocator> {
    pub(crate) user: User,
    /// The number of user 0's operation that listed the user; 0 for user 0 itself.
    pub(crate) since: u32,
    pub(crate) key: PublicKey,
    /// The keys that came later, in the order of their numbers.
    pub(crate) later: Vec<Renewal, A>,
}

impl<A: Allocator> Model for Listing<A> {
    ghost use Rattle.std.specs.Prelude.{length, ◌≤◌};
    ghost use Rattle.principals.specs.Table.{Listing};

    ghost Value = { Listing };

    ghost view = { λ l. record { user = l.user; since = l.since; key = l.key; later = l.later.items } };

    ghost invariant = { λ l. length l.later.items ≤ 15 };
}

/// A user is a member of a group from a number of user 0's on.
#[derive(Clone, Copy, Debug, PartialEq, Eq)]
pub struct Row {
    pub group: Group,
    pub user: User,
    /// The number of user 0's operation that made the user a member.
    pub begins: Version,
    /// The number of the one that took it out of the group; 0 while the row is open.
    pub until: u32,
}

/// Who is a user, since when and by which keys, and who is a member of which group.
#[derive(Drop)]
pub struct Table<A: Allocator> {
    /// User 0, so that the table of the beginning takes no memory.
    pub(crate) superuser: Listing<A>,
    /// The other users, ascending.
    pub(crate) others: Vec<Listing<A>, A>,
    /// The rows of members, in the order of writing.
    pub(crate) rows: Vec<Row, A>,
    /// Which pairs have an open row.
    pub(crate) marks: Marks,
}

impl<A: Allocator> Model for Table<A> {
    ghost use Rattle.std.specs.Prelude.{◌∷◌};
    ghost use Rattle.principals.specs.Table.{Table};
    ghost use Rattle.principals.specs.Kept.{IsKept};

    ghost Value = { Table };

    ghost view = { λ t. record { users = t.superuser ∷ t.others.items; rows = t.rows.items } };

    ghost invariant = { λ t. IsKept t.superuser t.others.items t.rows.items t.marks };
}

/// That a key fits a text, for the contract of what holds it: it does nothing.
pub fn key_invariant(key: &PublicKey)
    ensures { key_format.Fits key.now }
{
    are_bytes(key.as_bytes());
}

/// Whether one of these is the user, listed at this number or before.
fn is_since<A: Allocator>(others: &[Listing<A>], user: User, number: u32) -> bool
    ensures { result ≡ list_any (λ l. (l.user == user) && nat_le l.since number) others.now }
{
    others
        .iter()
        .any(|listing| listing.user == user && listing.since <= number)
}

/// The last key of a listing.
fn last_key<A: Allocator>(listing: &Listing<A>) -> PublicKey
    ensures { result ≡ last_key listing.now.key listing.now.later }
{
    match listing.later.last() {
        Some(renewal) => renewal.key,
        None => listing.key,
    }
}

/// Since when it is.
pub(crate) fn last_since<A: Allocator>(listing: &Listing<A>) -> u32
    ensures { result ≡ last_since listing.now.since listing.now.later }
{
    match listing.later.last() {
        Some(renewal) => renewal.since,
        None => listing.since,
    }
}

/// The last of these keys that came at this number of user 0's or before.
fn key_by(later: &[Renewal], version: u32, before: Option<PublicKey>) -> Option<PublicKey>
    ensures { result ≡ key_by version before later.now }
{
    let mut found = before;
    for renewal in later {
        if renewal.since <= version {
            found = Some(renewal.key);
        }
    }
    found
}

/// The key of a listing at this number of user 0's.
fn listed_key_at<A: Allocator>(listing: &Listing<A>, version: u32) -> Option<PublicKey>
    ensures { result ≡ listed_key_at version listing.now }
{
    let first = if listing.since <= version {
        Some(listing.key)
    } else {
        None
    };
    key_by(&listing.later, version, first)
}

/// A listing like this one.
fn copy_listing<A: Allocator + Copy>(alloc: A, listing: &Listing<A>) -> Result<Listing<A>, Memory>
    ensures { IfOk result (λ copy. copy ≡ listing.now) }
{
    let later = Vec::from_slice(alloc, &listing.later)?;
    Ok(Listing {
        user: listing.user,
        since: listing.since,
        key: listing.key,
        later,
    })
}

/// Listings like these.
fn copy_listings<A: Allocator + Copy>(
    alloc: A,
    listings: &[Listing<A>],
) -> Result<Vec<Listing<A>, A>, Memory>
    ensures { IfOk result (λ copies. copies.items ≡ listings.now) }
{
    let mut copies = Vec::new(alloc);
    for listing in listings {
        copies.push(copy_listing(alloc, listing)?)?;
    }
    Ok(copies)
}

/// Why a listing takes no further key at this number, if it takes none.
fn refusal<A: Allocator>(listing: &Listing<A>, number: Version) -> Option<TableError>
    ensures { result ≡ listing_refused number listing.now }
{
    if listing.later.len() >= MOST_KEYS - 1 {
        return Some(TableError::KeysFull);
    }
    if number.get() <= last_since(listing) {
        return Some(TableError::TooSoon);
    }
    None
}

/// One more key of a listing.
fn push_key<A: Allocator>(listing: &mut Listing<A>, renewal: Renewal) -> Result<(), Memory>
    requires { length listing.old.later < 15 }
    ensures ok { OnOk result (listing.new ≡ with_later renewal listing.old) }
    ensures err { OnErr result (listing.new ≡ listing.old) }
{
    listing.later.push(renewal)?;
    Ok(())
}

/// Whether a listing is the user's.
fn is_of<A: Allocator>(listing: &Listing<A>, user: User) -> bool
    ensures { result ≡ (listing.now.user == user) }
{
    listing.user == user
}

/// Whether the user is listed among these.
fn is_among<A: Allocator>(listings: &[Listing<A>], user: User) -> bool
    ensures { result ≡ list_any (λ l. l.user == user) listings.now }
{
    listings.iter().any(|listing| is_of(listing, user))
}

/// The listing of a user among these.
fn listing_among<A: Allocator>(listings: &[Listing<A>], user: User) -> Option<&Listing<A>>
    ensures { option_copied result ≡ find (λ l. l.user == user) listings.now }
{
    listings.iter().find(|listing| is_of(*listing, user))
}

/// The listing of a user.
fn listing_in<'a, A: Allocator>(
    superuser: &'a Listing<A>,
    others: &'a [Listing<A>],
    user: User,
) -> Option<&'a Listing<A>>
    ensures { option_copied result ≡ find (λ l. l.user == user) (superuser.now ∷ others.now) }
{
    if is_of(superuser, user) {
        return Some(superuser);
    }
    listing_among(others, user)
}

/// Where a user stands among the others, or where it would stand.
fn place_of<A: Allocator>(others: &[Listing<A>], user: User) -> Result<usize, usize>
    requires { Ascends nat_cmp user_of None others.now }
    ensures { MatchResult result (Stands nat_cmp user_of others.now user) (IsFree nat_cmp user_of others.now user) }
{
    others.binary_search_by_key(&user.get(), |listing| listing.user.get())
}

/// Where a new user goes among the others.
fn room_for<A: Allocator>(
    superuser: &Listing<A>,
    others: &[Listing<A>],
    user: User,
) -> Result<usize, TableError>
    requires { AreUsers (superuser.now ∷ others.now) }
    ensures told { Told (user_refused (without_rows (superuser.now ∷ others.now)) user) result }
    ensures room { IfOk result (λ place. IsFree nat_cmp user_of others.now user place) }
    ensures other { IfOk result (λ _. 0 < user) }
{
    if is_of(superuser, user) {
        return Err(TableError::Listed);
    }
    match place_of(others, user) {
        Ok(_) => Err(TableError::Listed),
        Err(place) => Ok(place),
    }
}

/// A row, which ends at this number if it is the pair's and open.
fn ended_row(row: Row, number: Version, group: Group, user: User) -> Row
    ensures { result ≡ ended number group user row }
{
    if row.group == group && row.user == user && row.until == 0 {
        Row {
            until: number.get(),
            ..row
        }
    } else {
        row
    }
}

/// Writes a number into what is open of a pair's rows: one pass.
fn end_each(rows: &mut [Row], number: Version, group: Group, user: User)
    ensures { rows.new ≡ map (ended number group user) rows.old }
{
    for row in rows.iter_mut() {
        *row = ended_row(*row, number, group, user);
    }
}

/// The same, of the rows of a table, which keeps them all.
fn end_rows<A: Allocator>(rows: &mut Vec<Row, A>, number: Version, group: Group, user: User)
    ensures { rows.new.items ≡ map (ended number group user) rows.old.items }
{
    end_each(rows, number, group, user);
}

impl<A: Allocator + Copy> Table<A> {
    ghost use Rattle.principals.specs.Table.{genesis, user_added};
    ghost use Rattle.principals.specs.TableText.{table as table_format};

    /// The table of the beginning: user 0 with the key that every client knows. It takes no memory.
    pub fn genesis(alloc: A, key: PublicKey) -> Table<A>
        ensures same { result ≡ genesis key }
        ensures fits { table_format.Fits (genesis key) }
    {
        key_invariant(&key);
        Table {
            superuser: Listing {
                user: User::superuser(),
                since: 0,
                key,
                later: Vec::new(alloc),
            },
            others: Vec::new(alloc),
            rows: Vec::new(alloc),
            marks: no_marks(),
        }
    }

    /// A table like this one.
    pub fn copy(&self, alloc: A) -> Result<Table<A>, Memory>
        ensures { IfOk result (λ copy. copy ≡ self.now) }
    {
        let superuser = copy_listing(alloc, &self.superuser)?;
        let others = copy_listings(alloc, &self.others)?;
        let rows = Vec::from_slice(alloc, &self.rows)?;
        Ok(Table {
            superuser,
            others,
            rows,
            marks: self.marks,
        })
    }

    /// Lists a user, by user 0's operation of this number: one binary search and one shift. Listed where it is listed
    /// already. The number isn't compared with those in the table.
    pub fn add_user(
        &mut self,
        number: Version,
        user: User,
        key: PublicKey,
    ) -> Result<(), TableError>
        ensures ok { OnOk result (self.new ≡ user_added number user key self.old) }
        ensures told { Told (user_refused self.old user) result }
        // A table that has a text has one afterwards.
        ensures fits { table_format.Fits self.old → OnOk result (table_format.Fits self.new) }
        ensures err { OnErr result (self.new ≡ self.old) }
    {
        let place = room_for(&self.superuser, &self.others, user)?;
        let since = number.get();
        let _user = user.get();
        key_invariant(&key);
        let later = Vec::new(*self.others.allocator());
        self.others.insert(
            place,
            Listing {
                user,
                since,
                key,
                later,
            },
        )?;
        Ok(())
    }
}

impl<A: Allocator> Table<A> {
    ghost use Rattle.principals.specs.Table.{key_of, key_at, since, is_listed, lists_user, is_member, is_member_now};
    ghost use Rattle.principals.specs.Table.{key_set, member_added, member_dropped};
    ghost use Rattle.principals.specs.Table.{key_refused, member_refused, drop_refused};
    ghost use Rattle.principals.specs.TableText.{table as table_format, with_next, last_begins, NoneAfter};

    /// The key of a user that came last. None where it isn't listed.
    pub fn key_of(&self, user: User) -> Option<PublicKey>
        ensures { result ≡ key_of user self.now }
    {
        let listing = listing_in(&self.superuser, &self.others, user)?;
        Some(last_key(listing))
    }

    /// The key of a user at a number of user 0's: the last that came with it or before. None where the user isn't
    /// listed by then.
    pub fn key_at(&self, user: User, version: u32) -> Option<PublicKey>
        ensures { result ≡ key_at user version self.now }
    {
        let listing = listing_in(&self.superuser, &self.others, user)?;
        listed_key_at(listing, version)
    }

    /// The number of user 0's operation that listed a user; 0 for user 0 itself. None where it isn't listed.
    pub fn since(&self, user: User) -> Option<u32>
        ensures { result ≡ since user self.now }
    {
        let listing = listing_in(&self.superuser, &self.others, user)?;
        Some(listing.since)
    }

    /// Whether the user is listed since this number of user 0's or before.
    pub fn is_listed(&self, user: User, number: u32) -> bool
        ensures { result ≡ is_listed self.now user number }
    {
        (self.superuser.user == user && self.superuser.since <= number)
            || is_since(&self.others, user, number)
    }

    /// Whether the user is listed, since whenever.
    pub(crate) fn lists_user(&self, user: User) -> bool
        ensures { result ≡ lists_user self.now user }
    {
        is_of(&self.superuser, user) || is_among(&self.others, user)
    }

    /// Whether the user is a member of the group at this number of user 0's: one pass over the rows.
    pub fn is_member(&self, group: Group, user: User, version: u32) -> bool
        ensures { result ≡ is_member self.now group user version }
    {
        self.rows.iter().any(|row| {
            row.group == group
                && row.user == user
                && row.begins.get() <= version
                && (row.until == 0 || version < row.until)
        })
    }

    /// Whether the user is a member of the group after all of user 0's operations.
    pub(crate) fn is_member_now(&self, group: Group, user: User) -> bool
        ensures { result ≡ is_member_now self.now group user }
    {
        self.marks[slot(group, user)]
    }

    /// That its text isn't longer than `TABLE_SIZE`: it does nothing.
    pub fn type_invariant(&self)
        ensures { length (table_format.spell self.now) ≤ TABLE_SIZE }
    {
        // It is as its type keeps it.
        let _rows = self.rows.len();
    }

    /// Where the last row begins, 0 where there is none.
    pub(crate) fn last_begins(&self) -> u32
        ensures { result ≡ last_begins self.now }
    {
        match self.rows.last() {
            Some(row) => row.begins.get(),
            None => 0,
        }
    }

    /// One more row at the end.
    pub(crate) fn push(&mut self, row: Row) -> Result<(), Memory>
        requires { length self.old.rows < 65535 }
        ensures ok { OnOk result (self.new ≡ with_next self.old row) }
        ensures err { OnErr result (self.new ≡ self.old) }
    {
        let place = slot(row.group, row.user);
        let open = row.until == 0;
        self.rows.push(row)?;
        if open {
            self.marks[place] = true;
        }
        Ok(())
    }

    /// Gives a user one more key, by user 0's operation of this number: one binary search. Unlisted where the user
    /// isn't listed, Pinned where it is user 0, KeysFull where it has 16 keys, TooSoon where its last key came with
    /// this number or later; of several the least.
    pub fn set_key(&mut self, number: Version, user: User, key: PublicKey) -> Result<(), TableError>
        ensures ok { OnOk result (self.new ≡ key_set number user key self.old) }
        ensures told { Told (key_refused self.old user number) result }
        // A table that has a text has one afterwards.
        ensures fits { table_format.Fits self.old → OnOk result (table_format.Fits self.new) }
        ensures err { OnErr result (self.new ≡ self.old) }
    {
        if is_of(&self.superuser, user) {
            return Err(TableError::Pinned);
        }
        let Ok(place) = place_of(&self.others, user) else {
            return Err(TableError::Unlisted);
        };
        if let Some(error) = refusal(&self.others[place], number) {
            return Err(error);
        }
        let since = number.get();
        key_invariant(&key);
        push_key(&mut self.others[place], Renewal { since, key })?;
        Ok(())
    }

    /// An open row at the end.
    fn open_row(&mut self, number: Version, group: Group, user: User) -> Result<(), TableError>
        ensures ok { OnOk result (self.new ≡ member_added number group user self.old) }
        ensures told { Told (member_refused self.old group user) result }
        ensures fits { table_format.Fits self.old → NoneAfter number self.old
            → OnOk result (table_format.Fits self.new) }
        ensures err { OnErr result (self.new ≡ self.old) }
    {
        if self.is_member_now(group, user) {
            return Err(TableError::Listed);
        }
        if !self.lists_user(user) {
            return Err(TableError::Unlisted);
        }
        if self.rows.len() >= MOST_ROWS {
            return Err(TableError::Full);
        }
        let _fits = (group.get(), user.get(), number.get());
        self.push(Row {
            group,
            user,
            begins: number,
            until: 0,
        })?;
        Ok(())
    }

    /// Makes a user a member of a group, by user 0's operation of this number. Listed where it is a member now,
    /// Unlisted where it isn't listed, NotGroup where the principal is a user, Full at 65,535 rows; of several the
    /// least.
    pub fn add_member(
        &mut self,
        number: Version,
        group: Principal,
        user: User,
    ) -> Result<(), TableError>
        ensures ok { OnOk result (self.new ≡ member_added number group user self.old) }
        ensures told { Told (member_refused self.old group user) result }
        // A table that has a text has one afterwards, if the number isn't less than those before.
        ensures fits { table_format.Fits self.old → NoneAfter number self.old
            → OnOk result (table_format.Fits self.new) }
        ensures err { OnErr result (self.new ≡ self.old) }
    {
        match Group::new(group.get()) {
            Some(group) => self.open_row(number, group, user),
            None if !self.lists_user(user) => Err(TableError::Unlisted),
            None => Err(TableError::NotGroup),
        }
    }

    /// Takes a user out of a group, by user 0's operation of this number, and answers whether it was a member now: one
    /// pass over the rows. It isn't asked whether the user is listed.
    pub fn end_member(&mut self, number: Version, group: Group, user: User) -> bool
        ensures member { result ≡ is_member_now self.old group user }
        ensures rows { self.new ≡ (if result then member_dropped number group user self.old else self.old) }
        // A table that has a text has one afterwards, if the number isn't less than those before.
        ensures fits { table_format.Fits self.old → NoneAfter number self.old → table_format.Fits self.new }
    {
        if !self.is_member_now(group, user) {
            return false;
        }
        let _number = number.get();
        end_rows(&mut self.rows, number, group, user);
        self.marks[slot(group, user)] = false;
        true
    }

    /// Takes a member out of a group, by user 0's operation of this number: one pass over the rows. Unlisted where the
    /// user isn't listed, NotGroup where the principal is a user, NotMember where it is no member now; of several the
    /// least.
    pub fn drop_member(
        &mut self,
        number: Version,
        group: Principal,
        user: User,
    ) -> Result<(), TableError>
        ensures ok { OnOk result (self.new ≡ member_dropped number group user self.old) }
        ensures told { Told (drop_refused self.old group user) result }
        ensures no_memory { IfErr result (λ e. e ≢ table_error.Memory) }
        // A table that has a text has one afterwards, if the number isn't less than those before.
        ensures fits { table_format.Fits self.old → NoneAfter number self.old
            → OnOk result (table_format.Fits self.new) }
        ensures err { OnErr result (self.new ≡ self.old) }
    {
        if !self.lists_user(user) {
            return Err(TableError::Unlisted);
        }
        let Some(group) = Group::new(group.get()) else {
            return Err(TableError::NotGroup);
        };
        if !self.end_member(number, group, user) {
            return Err(TableError::NotMember);
        }
        Ok(())
    }
}
