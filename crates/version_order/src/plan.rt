//! Plans of operations.

ghost use Rattle.std.specs.Prelude.{◌≡◌, ◌<◌, ◌++◌, Option, OnOk, OnErr, IfOk, [], ◌∷◌, length, ◌≤◌};
ghost use Rattle.std.specs.List.{All};
ghost use Rattle.std.specs.Option.{option_copied};
ghost use Rattle.layout.specs.Format.{Reads};
ghost use Rattle.version_order.specs.Plan.{entry};

use crate::vector::Vector;
use layout::{
    Digest, Memory, ReadError, Reader, RowFormat, Text, User, Version, Writer, digest, read_rows,
    write_rows,
};
use std::alloc::Allocator;
use std::marker::Model;

/// How many bytes the text of a plan has at most: the tag, the user, the number, the digest, a component for each of 96
/// principals and an entry for each of 64 users.
pub const PLAN_SIZE: usize = 4 + 1 + 4 + 32 + (1 + 96 * (1 + 4)) + (1 + 64 * (1 + 4 + 32));

/// An operation that was pending when another was placed.
#[derive(Clone, Copy, Debug, PartialEq, Eq)]
pub struct Entry {
    pub user: User,
    pub number: Version,
    /// The digest of its plan.
    pub plan: Digest,
}

impl Entry {
    ghost use Rattle.layout.specs.Format.{raw};
    ghost use Rattle.layout.specs.Ranges.{user, version};

    /// That its fields fit their texts, as their own contracts say.
    fn fits(&self)
        ensures user { user.Fits self.now.user }
        ensures number { version.Fits self.now.number }
        ensures plan { (raw 32).Fits self.now.plan }
    {
        let _numbers = (self.user.get(), self.number.get());
        let _plan = self.plan.as_bytes();
    }
}

/// The rows of the entries.
#[derive(Clone, Copy)]
struct EntryRows;

impl<A: Allocator + Copy> RowFormat<A> for EntryRows {
    type Item = Entry;

    ghost format = { λ _. entry };

    fn read_fields(
        &self,
        _alloc: A,
        reader: &mut Reader<'_>,
        before: Option<&Entry>,
    ) -> Result<Entry, ReadError> {
        let user = reader.user()?;
        if before.is_some_and(|before| user.get() <= before.user.get()) {
            return Err(ReadError::Order);
        }
        let number = reader.version()?;
        let plan = reader.digest()?;
        Ok(Entry { user, number, plan })
    }

    fn write_fields(&self, writer: &mut Writer<A>, row: &Entry) -> Result<(), Memory> {
        writer.user(row.user)?;
        writer.version(row.number)?;
        writer.digest(&row.plan)
    }
}

/// Entries of a plan, ascending by user.
#[derive(Drop)]
pub struct Entries<A: Allocator> {
    rows: Vec<Entry, A>,
}

impl<A: Allocator> Model for Entries<A> {
    ghost use Rattle.std.specs.Prelude.{List};
    ghost use Rattle.version_order.specs.declared.plan.Entry.{Entry};

    ghost Value = { List Entry };

    ghost use Rattle.version_order.specs.Plan.{entries as entries_format};

    ghost view = { λ e. e.rows.items };

    ghost invariant = { λ e. entries_format.Fits e.rows.items };
}

impl<A: Allocator + Copy> Text<A> for Entries<A> {
    ghost use Rattle.version_order.specs.Plan.{entries};
    ghost use Rattle.version_order.specs.PlanLaws.{lawful_entries};

    ghost format = { entries };

    fn read_fields(alloc: A, reader: &mut Reader<'_>) -> Result<Entries<A>, ReadError> {
        let count = reader.u8_in(0, u8::MAX)?;
        let entries = read_rows(alloc, reader, &EntryRows, usize::from(count))?;
        Ok(Entries { rows: entries })
    }

    fn write_fields(&self, writer: &mut Writer<A>) -> Result<(), Memory> {
        writer.u8(self.rows.len() as u8)?;
        write_rows(writer, &EntryRows, &self.rows)
    }

    ghost lawful = { lawful_entries };
}

impl<A: Allocator> Entries<A> {
    ghost use Rattle.version_order.specs.Plan.{entries as entries_format};

    /// No entries.
    pub fn new(alloc: A) -> Entries<A>
        ensures { result ≡ [] }
    {
        Entries {
            rows: Vec::new(alloc),
        }
    }

    /// The entries of a list that ascends by user.
    pub fn from_vec(entries: Vec<Entry, A>) -> Entries<A>
        requires fits { entries_format.Fits entries.items }
        ensures { result ≡ entries.items }
    {
        Entries { rows: entries }
    }

    /// Adds the entry of a user above the others.
    pub fn push(&mut self, entry: Entry) -> Result<(), Memory>
        requires above { All (λ e. e.user < entry.user) self.old }
        ensures ok { OnOk result (self.new ≡ self.old ++ entry ∷ []) }
        ensures err { OnErr result (self.new ≡ self.old) }
    {
        entry.fits();
        self.rows.push(entry)?;
        Ok(())
    }

    /// The entries, ascending by user.
    pub fn as_slice(&self) -> &[Entry]
        ensures same { result.now ≡ self.now }
        ensures fits { entries_format.Fits self.now }
    {
        &self.rows
    }
}

/// What the server expects of an operation.
#[derive(Drop)]
pub struct Plan<A: Allocator> {
    user: User,
    number: Version,
    certificate: Digest,
    vector: Vector<A>,
    entries: Entries<A>,
}

impl<A: Allocator> Model for Plan<A> {
    ghost use Rattle.version_order.specs.Plan.{Plan, plan};

    ghost Value = { Plan };

    ghost view = { λ p. record {
      user = p.user;
      number = p.number;
      certificate = p.certificate;
      vector = p.vector;
      entries = p.entries;
    } };

    ghost invariant = { λ p. plan.Fits
        (record {
          user = p.user;
          number = p.number;
          certificate = p.certificate;
          vector = p.vector;
          entries = p.entries;
        }) };
}

impl<A: Allocator> Plan<A> {
    ghost use Rattle.version_order.specs.Plan.{plan};

    /// The plan of these parts, whose own contracts say that they fit.
    pub fn new(
        user: User,
        number: Version,
        certificate: Digest,
        vector: Vector<A>,
        entries: Entries<A>,
    ) -> Plan<A>
        ensures { result ≡ record {
          user = user;
          number = number;
          certificate = certificate;
          vector = vector;
          entries = entries;
        } }
    {
        let _user = user.get();
        let _number = number.get();
        let _certificate = certificate.as_bytes();
        let _components = vector.components();
        let _entries = entries.as_slice();
        Plan {
            user,
            number,
            certificate,
            vector,
            entries,
        }
    }

    /// Whose operation it is.
    pub fn user(&self) -> User
        ensures same { result ≡ self.now.user }
        ensures fits { plan.Fits self.now }
    {
        self.user
    }

    /// The number of the operation among the user's own.
    pub fn number(&self) -> Version
        ensures { result ≡ self.now.number }
    {
        self.number
    }

    /// The digest of the operation's certificate.
    pub fn certificate(&self) -> Digest
        ensures { result ≡ self.now.certificate }
    {
        self.certificate
    }

    /// The vector after the operation.
    pub fn vector(&self) -> &Vector<A>
        ensures { result.now ≡ self.now.vector }
    {
        &self.vector
    }

    /// The operations that were pending when this one was placed.
    pub fn entries(&self) -> &Entries<A>
        ensures { result.now ≡ self.now.entries }
    {
        &self.entries
    }
}

impl<A: Allocator + Copy> Text<A> for Plan<A> {
    ghost use Rattle.version_order.specs.Plan.{plan};
    ghost use Rattle.version_order.specs.PlanLaws.{lawful_plan};

    ghost format = { plan };

    fn read_fields(alloc: A, reader: &mut Reader<'_>) -> Result<Plan<A>, ReadError> {
        reader.tag(b"SVP1")?;
        let user = reader.user()?;
        let number = reader.version()?;
        let certificate = reader.digest()?;
        let vector = Vector::read_from(alloc, reader)?;
        let entries = Entries::read_from(alloc, reader)?;
        Ok(Plan::new(user, number, certificate, vector, entries))
    }

    fn write_fields(&self, writer: &mut Writer<A>) -> Result<(), Memory> {
        writer.tag(b"SVP1")?;
        writer.user(self.user)?;
        writer.version(self.number)?;
        writer.digest(&self.certificate)?;
        self.vector.write_to(writer)?;
        self.entries.write_to(writer)
    }

    ghost lawful = { lawful_plan };
}

impl<A: Allocator + Copy> Entries<A> {
    /// Entries like these.
    pub fn copy(&self, alloc: A) -> Result<Entries<A>, Memory>
        ensures { IfOk result (λ copy. copy ≡ self.now) }
    {
        let rows = Vec::from_slice(alloc, &self.rows)?;
        Ok(Entries { rows })
    }
}

impl<A: Allocator + Copy> Plan<A> {
    ghost use Rattle.version_order.specs.Plan.{digest_of_plan, entry_of};

    /// A plan like this one.
    pub fn copy(&self, alloc: A) -> Result<Plan<A>, Memory>
        ensures { IfOk result (λ copy. copy ≡ self.now) }
    {
        let vector = self.vector.copy(alloc)?;
        let entries = self.entries.copy(alloc)?;
        Ok(Plan::new(self.user, self.number, self.certificate, vector, entries))
    }

    /// The digest of its text.
    pub fn digest(&self, alloc: A) -> Result<Digest, Memory>
        ensures { IfOk result (λ digest. digest ≡ digest_of_plan self.now) }
    {
        let text = self.text(alloc)?;
        Ok(digest(&text))
    }

    /// The entry that a later plan has of it while its operation is pending.
    pub fn entry(&self, alloc: A) -> Result<Entry, Memory>
        ensures { IfOk result (λ entry. entry ≡ entry_of self.now) }
    {
        let plan = self.digest(alloc)?;
        Ok(Entry {
            user: self.user,
            number: self.number,
            plan,
        })
    }
}
