//! Version structures.

ghost use Rattle.std.specs.Prelude.{◌≡◌, ◌++◌, Option, OnOk, OnErr, IfOk, IsOk, IsSome, MatchResult, [], length, ◌≤◌};
ghost use Rattle.std.specs.Option.{option_copied};
ghost use Rattle.std.specs.Ordering.{nat_cmp};
ghost use Rattle.layout.specs.Ascending.{Stands, IsFree, row_at, with_row};
ghost use Rattle.layout.specs.Format.{Reads};
ghost use Rattle.version_order.specs.Structure.{group_record, group_records, group_of};

use crate::plan::{PLAN_SIZE, Plan};
use layout::{
    Digest, Group, Memory, ReadError, Reader, RowFormat, Text, Version, Writer, digest,
    read_nested, read_rows, write_nested, write_rows,
};
use std::alloc::Allocator;
use std::marker::Model;

/// How many bytes the text of a structure has at most: the tag, the plan after its size, the handle, and a record for
/// each of 32 groups.
pub const STRUCTURE_SIZE: usize = 4 + (2 + PLAN_SIZE) + 32 + (1 + 32 * (1 + 4 + 4 + 32));

/// The state of a group that a user wrote.
#[derive(Clone, Copy, Debug, PartialEq, Eq)]
pub struct GroupRecord {
    pub group: Group,
    pub version: Version,
    /// The table version at which the user was a member.
    pub table: u32,
    /// The handle of the group's i-table.
    pub handle: Digest,
}

impl GroupRecord {
    ghost use Rattle.layout.specs.Format.{raw};
    ghost use Rattle.layout.specs.Ranges.{group, version};

    /// That its fields fit their texts, as their own contracts say.
    fn fits(&self)
        ensures group { group.Fits self.now.group }
        ensures version { version.Fits self.now.version }
        ensures handle { (raw 32).Fits self.now.handle }
    {
        let _numbers = (self.group.get(), self.version.get());
        let _handle = self.handle.as_bytes();
    }
}

/// The rows of the group records.
#[derive(Clone, Copy)]
struct GroupRecordRows;

impl<A: Allocator + Copy> RowFormat<A> for GroupRecordRows {
    type Item = GroupRecord;

    ghost format = { λ _. group_record };

    fn read_fields(
        &self,
        _alloc: A,
        reader: &mut Reader<'_>,
        before: Option<&GroupRecord>,
    ) -> Result<GroupRecord, ReadError> {
        let group = reader.group()?;
        if before.is_some_and(|before| group.get() <= before.group.get()) {
            return Err(ReadError::Order);
        }
        let version = reader.version()?;
        let table = reader.u32_in(0, u32::MAX)?;
        let handle = reader.digest()?;
        Ok(GroupRecord {
            group,
            version,
            table,
            handle,
        })
    }

    fn write_fields(&self, writer: &mut Writer<A>, row: &GroupRecord) -> Result<(), Memory> {
        writer.group(row.group)?;
        writer.version(row.version)?;
        writer.u32(row.table)?;
        writer.digest(&row.handle)
    }
}

/// Group records of a structure, ascending by group.
#[derive(Drop)]
pub struct GroupRecords<A: Allocator> {
    records: Vec<GroupRecord, A>,
}

impl<A: Allocator> Model for GroupRecords<A> {
    ghost use Rattle.std.specs.Prelude.{List};
    ghost use Rattle.version_order.specs.declared.structure.GroupRecord.{GroupRecord};

    ghost Value = { List GroupRecord };

    ghost use Rattle.version_order.specs.Structure.{group_records};

    ghost view = { λ r. r.records.items };

    ghost invariant = { λ r. group_records.Fits r.records.items };
}

impl<A: Allocator + Copy> Text<A> for GroupRecords<A> {
    ghost use Rattle.version_order.specs.Structure.{group_records};
    ghost use Rattle.version_order.specs.StructureLaws.{lawful_group_records};

    ghost format = { group_records };

    fn read_fields(alloc: A, reader: &mut Reader<'_>) -> Result<GroupRecords<A>, ReadError> {
        let count = reader.u8_in(0, u8::MAX)?;
        let records = read_rows(alloc, reader, &GroupRecordRows, usize::from(count))?;
        Ok(GroupRecords { records })
    }

    fn write_fields(&self, writer: &mut Writer<A>) -> Result<(), Memory> {
        writer.u8(self.records.len() as u8)?;
        write_rows(writer, &GroupRecordRows, &self.records)
    }

    ghost lawful = { lawful_group_records };
}

/// Where the record of a group stands, or where it would stand.
fn find(records: &[GroupRecord], group: Group) -> Result<usize, usize>
    requires { group_records.Fits records.now }
    ensures { MatchResult result (Stands nat_cmp group_of records.now group)
        (IsFree nat_cmp group_of records.now group) }
{
    records.binary_search_by_key(&group.get(), |record| record.group.get())
}

/// Puts a record in its place, or in that of the one of its group.
fn put<A: Allocator>(records: &mut Vec<GroupRecord, A>, state: GroupRecord) -> Result<(), Memory>
    requires { group_records.Fits records.old.items }
    ensures ok { OnOk result (records.new.items ≡ with_row nat_cmp group_of records.old.items state) }
    ensures listed { IsSome (row_at nat_cmp group_of records.old.items state.group) → IsOk result }
    ensures err { OnErr result (records.new.items ≡ records.old.items) }
{
    match find(records, state.group) {
        Ok(place) => records[place] = state,
        Err(place) => records.insert(place, state)?,
    }
    Ok(())
}

impl<A: Allocator> GroupRecords<A> {
    /// No records.
    pub fn new(alloc: A) -> GroupRecords<A>
        ensures { result ≡ [] }
    {
        GroupRecords {
            records: Vec::new(alloc),
        }
    }

    /// The records of a list that ascends by group.
    pub fn from_vec(records: Vec<GroupRecord, A>) -> GroupRecords<A>
        requires fits { group_records.Fits records.items }
        ensures { result ≡ records.items }
    {
        GroupRecords { records }
    }

    /// The records, ascending by group.
    pub fn as_slice(&self) -> &[GroupRecord]
        ensures same { result.now ≡ self.now }
        ensures fits { group_records.Fits self.now }
    {
        &self.records
    }

    /// Sets the record of a group, in the place of the one that the group has, if it has one: one binary search and at
    /// most one shift.
    pub fn set(&mut self, state: GroupRecord) -> Result<(), Memory>
        ensures ok { OnOk result (self.new ≡ with_row nat_cmp group_of self.old state) }
        // Where the group has a record it takes no memory.
        ensures listed { IsSome (row_at nat_cmp group_of self.old state.group) → IsOk result }
        ensures err { OnErr result (self.new ≡ self.old) }
    {
        state.fits();
        put(&mut self.records, state)
    }
}

/// What a user signs for an operation.
#[derive(Drop)]
pub struct Structure<A: Allocator> {
    plan: Plan<A>,
    handle: Digest,
    groups: GroupRecords<A>,
}

impl<A: Allocator> Model for Structure<A> {
    ghost use Rattle.version_order.specs.Structure.{Structure, structure};

    ghost Value = { Structure };

    ghost view = { λ s. record { plan = s.plan; handle = s.handle; groups = s.groups } };

    ghost invariant = { λ s. structure.Fits (record { plan = s.plan; handle = s.handle; groups = s.groups }) };
}

impl<A: Allocator> Structure<A> {
    ghost use Rattle.version_order.specs.Structure.{structure};

    /// The structure of these parts, whose own contracts say that they fit.
    #[tactic(auto, using(crate::specs::StructureLaws::nested_plan))]
    pub fn new(plan: Plan<A>, handle: Digest, groups: GroupRecords<A>) -> Structure<A>
        ensures { result ≡ record { plan = plan; handle = handle; groups = groups } }
    {
        let _user = plan.user();
        let _handle = handle.as_bytes();
        let _records = groups.as_slice();
        Structure {
            plan,
            handle,
            groups,
        }
    }

    /// The plan of the operation.
    pub fn plan(&self) -> &Plan<A>
        ensures same { result.now ≡ self.now.plan }
        ensures fits { structure.Fits self.now }
    {
        &self.plan
    }

    /// The handle of the user's own i-table after the operation.
    pub fn handle(&self) -> Digest
        ensures { result ≡ self.now.handle }
    {
        self.handle
    }

    /// The states of groups that the user wrote.
    pub fn groups(&self) -> &GroupRecords<A>
        ensures { result.now ≡ self.now.groups }
    {
        &self.groups
    }
}

impl<A: Allocator + Copy> Text<A> for Structure<A> {
    ghost use Rattle.version_order.specs.Structure.{structure};
    ghost use Rattle.version_order.specs.StructureLaws.{lawful_structure};

    ghost format = { structure };

    fn read_fields(alloc: A, reader: &mut Reader<'_>) -> Result<Structure<A>, ReadError> {
        reader.tag(b"SVS1")?;
        let plan = read_nested(alloc, reader)?;
        let handle = reader.digest()?;
        let groups = GroupRecords::read_from(alloc, reader)?;
        Ok(Structure::new(plan, handle, groups))
    }

    fn write_fields(&self, writer: &mut Writer<A>) -> Result<(), Memory> {
        writer.tag(b"SVS1")?;
        write_nested(*writer.allocator(), writer, &self.plan)?;
        writer.digest(&self.handle)?;
        self.groups.write_to(writer)
    }

    ghost lawful = { lawful_structure };
}

impl<A: Allocator + Copy> GroupRecords<A> {
    /// Records like these.
    pub fn copy(&self, alloc: A) -> Result<GroupRecords<A>, Memory>
        ensures { IfOk result (λ copy. copy ≡ self.now) }
    {
        let records = Vec::from_slice(alloc, &self.records)?;
        Ok(GroupRecords { records })
    }
}

impl<A: Allocator + Copy> Structure<A> {
    ghost use Rattle.version_order.specs.Structure.{digest_of_structure};

    /// A structure like this one.
    pub fn copy(&self, alloc: A) -> Result<Structure<A>, Memory>
        ensures { IfOk result (λ copy. copy ≡ self.now) }
    {
        let plan = self.plan.copy(alloc)?;
        let groups = self.groups.copy(alloc)?;
        Ok(Structure::new(plan, self.handle, groups))
    }

    /// The digest of its text, without signature.
    pub fn digest(&self, alloc: A) -> Result<Digest, Memory>
        ensures { IfOk result (λ digest. digest ≡ digest_of_structure self.now) }
    {
        let text = self.text(alloc)?;
        Ok(digest(&text))
    }
}
