//! Vectors of versions.

ghost use Rattle.std.specs.Prelude.{◌≡◌, ◌≢◌, ◌==◌, ℕ, if◌then◌else◌, IfErr, ◌<◌, ◌≤◌, ◌↔◌, ◌+◌, ◌++◌, Option, OnOk};
ghost use Rattle.std.specs.Prelude.{OnErr, IfOk, IsTrue, MatchResult, [], length};
ghost use Rattle.std.specs.Option.{option_copied};
ghost use Rattle.layout.specs.Format.{Reads};
ghost use Rattle.std.specs.Ordering.{nat_cmp};
ghost use Rattle.layout.specs.Ascending.{Stands, IsFree};
ghost use Rattle.version_order.specs.Vector.{principal_of, vector, component, version_of, raised, depth, user_version};
ghost use Rattle.version_order.specs.Vector.{is_below};

use crate::error::PlanError;
use layout::{
    Memory, Principal, ReadError, Reader, RowFormat, Text, Version, Writer, read_rows, write_rows,
};
use std::alloc::Allocator;
use std::marker::Model;

/// A principal and its version.
#[derive(Clone, Copy, Debug, PartialEq, Eq)]
pub struct Component {
    pub principal: Principal,
    pub version: Version,
}

/// The rows of a vector.
#[derive(Clone, Copy)]
struct Components;

impl<A: Allocator + Copy> RowFormat<A> for Components {
    type Item = Component;

    ghost format = { λ _. component };

    fn read_fields(
        &self,
        _alloc: A,
        reader: &mut Reader<'_>,
        before: Option<&Component>,
    ) -> Result<Component, ReadError> {
        let principal = reader.principal()?;
        if before.is_some_and(|before| principal.get() <= before.principal.get()) {
            return Err(ReadError::Order);
        }
        let version = reader.version()?;
        Ok(Component { principal, version })
    }

    fn write_fields(&self, writer: &mut Writer<A>, row: &Component) -> Result<(), Memory> {
        writer.principal(row.principal)?;
        writer.version(row.version)
    }
}

/// A version for each principal that has one, ascending by principal.
#[derive(Drop)]
pub struct Vector<A: Allocator> {
    components: Vec<Component, A>,
}

impl<A: Allocator> Model for Vector<A> {
    ghost use Rattle.std.specs.Prelude.{List};
    ghost use Rattle.version_order.specs.declared.vector.Component.{Component};

    ghost Value = { List Component };

    ghost use Rattle.version_order.specs.Vector.{vector};

    ghost view = { λ v. v.components.items };

    ghost invariant = { λ v. vector.Fits v.components.items };
}

impl<A: Allocator + Copy> Text<A> for Vector<A> {
    ghost use Rattle.version_order.specs.Vector.{vector};
    ghost use Rattle.version_order.specs.VectorLaws.{lawful_vector};

    ghost format = { vector };

    fn read_fields(alloc: A, reader: &mut Reader<'_>) -> Result<Vector<A>, ReadError> {
        let count = reader.u8_in(0, u8::MAX)?;
        let components = read_rows(alloc, reader, &Components, usize::from(count))?;
        Ok(Vector { components })
    }

    fn write_fields(&self, writer: &mut Writer<A>) -> Result<(), Memory> {
        writer.u8(self.components.len() as u8)?;
        write_rows(writer, &Components, &self.components)
    }

    ghost lawful = { lawful_vector };
}

impl Component {
    /// What it adds to the depth.
    fn user_version(&self) -> u64
        ensures same { result ≡ user_version self.now }
        ensures range { result ≤ 4294967295 }
    {
        if self.principal.get() < 64 {
            u64::from(self.version.get())
        } else {
            0
        }
    }
}

fn depth_of(components: &[Component]) -> u64
    requires { length components.now < 256 }
    ensures { result ≡ depth components.now }
{
    let mut sum = 0;
    for component in components {
        sum += component.user_version();
    }
    sum
}

/// Where a principal stands, or where it would stand.
fn find(components: &[Component], principal: Principal) -> Result<usize, usize>
    requires { vector.Fits components.now }
    ensures { MatchResult result (Stands nat_cmp principal_of components.now principal)
        (IsFree nat_cmp principal_of components.now principal) }
{
    components.binary_search_by_key(&principal.get(), |component| component.principal.get())
}

fn version_in(components: &[Component], principal: Principal) -> u32
    requires { vector.Fits components.now }
    ensures { result ≡ version_of principal components.now }
{
    match find(components, principal) {
        Ok(place) => components[place].version.get(),
        Err(_) => 0,
    }
}

/// Whether none of the first components is greater than the second's: it goes over both lists once.
fn none_greater(first: &[Component], second: &[Component]) -> bool
    requires first { vector.Fits first.now }
    requires second { vector.Fits second.now }
    ensures { result ≡ is_below first.now second.now }
{
    let mut left = first;
    for other in second {
        let Some((own, after)) = left.split_first() else {
            return true;
        };
        let (own_number, other_number) = (own.principal.get(), other.principal.get());
        if own_number < other_number {
            // The second has version 0 there.
            return false;
        }
        if own_number == other_number {
            if own.version.get() > other.version.get() {
                return false;
            }
            left = after;
        }
    }
    left.is_empty()
}

/// Adds one to the version of a principal. After an error the components are as before.
fn raise<A: Allocator>(
    components: &mut Vec<Component, A>,
    principal: Principal,
) -> Result<(), PlanError>
    requires { vector.Fits components.old.items }
    ensures ok { OnOk result (components.new.items ≡ raised principal components.old.items) }
    ensures within { OnOk result (version_of principal components.old.items < 4294967295) }
    ensures limit { (result ≡ Err PlanError.Limit) ↔ (version_of principal components.old.items ≡ 4294967295) }
    ensures no_memory { 0 < version_of principal components.old.items → IfErr result (λ e. e ≢ PlanError.Memory) }
    ensures err { OnErr result (components.new.items ≡ components.old.items) }
{
    match find(components, principal) {
        Ok(place) => {
            let Some(version) = components[place].version.next() else {
                return Err(PlanError::Limit);
            };
            components[place] = Component { principal, version };
        }
        Err(place) => {
            let version = Version::first();
            components.insert(place, Component { principal, version })?;
        }
    }
    Ok(())
}

impl<A: Allocator> Vector<A> {
    /// No components: each version is 0.
    pub fn new(alloc: A) -> Vector<A>
        ensures { result ≡ [] }
    {
        Vector {
            components: Vec::new(alloc),
        }
    }

    /// The components, ascending by principal.
    pub fn components(&self) -> &[Component]
        ensures same { result.now ≡ self.now }
        ensures fits { vector.Fits self.now }
    {
        &self.components
    }

    /// The version of a principal: 0 where it isn't listed.
    pub fn version_of(&self, principal: Principal) -> u32
        ensures { result ≡ version_of principal self.now }
    {
        version_in(&self.components, principal)
    }

    /// The sum of the users' versions.
    pub fn depth(&self) -> u64
        ensures { result ≡ depth self.now }
    {
        depth_of(&self.components)
    }

    /// Whether none of its components is greater than the other's.
    pub fn is_below(&self, other: &Vector<A>) -> bool
        ensures { result ≡ is_below self.now other.now }
    {
        none_greater(&self.components, &other.components)
    }

    /// Adds one to the version of a principal. After an error the vector is as before.
    pub fn raise(&mut self, principal: Principal) -> Result<(), PlanError>
        ensures ok { OnOk result (self.new ≡ raised principal self.old) }
        ensures within { OnOk result (version_of principal self.old < 4294967295) }
        ensures limit { (result ≡ Err PlanError.Limit) ↔ (version_of principal self.old ≡ 4294967295) }
        // The principal has one more, and each other what it had.
        ensures versions { OnOk result
            ((p : ℕ) → version_of p self.new ≡ version_of p self.old + (if principal == p then 1 else 0)) }
        // One that is listed takes no memory.
        ensures no_memory { 0 < version_of principal self.old → IfErr result (λ e. e ≢ PlanError.Memory) }
        ensures err { OnErr result (self.new ≡ self.old) }
    {
        let _number = principal.get();
        raise(&mut self.components, principal)
    }

    /// Whether the other one is the same vector.
    pub fn same(&self, other: &Vector<A>) -> bool
        ensures { IsTrue result ↔ (self.now ≡ other.now) }
    {
        self.components.as_slice() == other.components.as_slice()
    }
}

impl<A: Allocator + Copy> Vector<A> {
    /// A vector like this one.
    pub fn copy(&self, alloc: A) -> Result<Vector<A>, Memory>
        ensures { IfOk result (λ copy. copy ≡ self.now) }
    {
        let components = Vec::from_slice(alloc, &self.components)?;
        Ok(Vector { components })
    }
}
