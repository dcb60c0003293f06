//! The latest structure of each user, ascending by user.

ghost use Rattle.std.specs.Prelude.{◌≡◌, ◌==◌, ◌<◌, None, IsOk, IfOk, OnOk, OnErr, MatchResult, find, vec_len};
ghost use Rattle.std.specs.Prelude.{vec_capacity};
ghost use Rattle.std.specs.Option.{option_copied};
ghost use Rattle.std.specs.Ordering.{nat_cmp};
ghost use Rattle.std.specs.Str.{bytes_eq};
ghost use Rattle.layout.specs.Ascending.{Ascends, Stands, IsFree, with_row};
ghost use Rattle.version_order.specs.Structure.{structure as structure_format, digest_of_structure};
ghost use Rattle.pending_list.specs.Signed.{signed};
ghost use Rattle.pending_list.specs.Reply.{user_of, signed_structure, digest_of_last};

use crate::signed_text::unsigned;
use layout::{Digest, Memory, User, Writer, beside, digest};
use lms_sign::SIGNATURE_SIZE;
use pending_list::Signed;
use std::alloc::Allocator;
use std::marker::Model;
use version_order::{Plan, Structure};

/// A structure with its signature, and the text that spells both. Contracts see the structure.
#[derive(Drop)]
pub(crate) struct SpelledStructure<A: Allocator> {
    value: Signed<Structure<A>>,
    text: Vec<u8, A>,
}

impl<A: Allocator> Model for SpelledStructure<A> {
    ghost use Rattle.std.specs.Prelude.{◌≡◌};
    ghost use Rattle.version_order.specs.Structure.{Structure, structure as structure_format};
    ghost use Rattle.pending_list.specs.declared.signed.Signed.{Signed};
    ghost use Rattle.pending_list.specs.Signed.{signed};

    ghost Value = { Signed Structure };

    ghost view = { λ s. s.value };

    ghost invariant = { λ s. s.text.items ≡ (signed structure_format).spell s.value };
}

impl<A: Allocator> SpelledStructure<A> {
    /// Its plan.
    pub(crate) fn plan(&self) -> &Plan<A>
        ensures { result.now ≡ self.now.value.plan }
    {
        self.value.value.plan()
    }

    /// Whether the text spells it with its signature.
    pub(crate) fn is_spelled(&self, text: &[u8]) -> bool
        ensures { result ≡ bytes_eq text.now ((signed structure_format).spell self.now) }
    {
        text == self.text.as_slice()
    }

    /// How many bytes its row of a reply takes.
    pub(crate) fn row_size(&self) -> usize {
        self.text.len().saturating_add(2)
    }

    /// Writes its row of a reply.
    pub(crate) fn write_row(&self, writer: &mut Writer<A>) -> Result<(), Memory>
        ensures ok { OnOk result (writer.new ≡ signed_structure.onto writer.old self.now) }
        ensures fits { signed_structure.Fits self.now }
    {
        let _plan = self.value.value.plan();
        let _signature = self.value.signature.as_bytes();
        writer.u16((self.text.len() - SIGNATURE_SIZE) as u16)?;
        writer.bytes(&self.text)
    }
}

impl<A: Allocator + Copy> SpelledStructure<A> {
    /// The structure, with a copy of the text that spells it with its signature.
    pub(crate) fn new(
        alloc: A,
        value: Signed<Structure<A>>,
        text: &[u8],
    ) -> Result<SpelledStructure<A>, Memory>
        requires { text.now ≡ (signed structure_format).spell value }
        ensures { IfOk result (λ structure. structure ≡ value) }
    {
        let (value, text) = beside(value, Vec::from_slice(alloc, text))?;
        Ok(SpelledStructure { value, text })
    }

    /// Its digest.
    fn digest(&self) -> Digest
        ensures { result ≡ digest_of_structure self.now.value }
    {
        digest(unsigned::<A, Structure<A>>(&self.value, &self.text))
    }
}

/// The digest by which a certificate names its user's last structure: 32 zeros where it has none.
pub(crate) fn digest_of_last<A: Allocator + Copy>(last: Option<&SpelledStructure<A>>) -> Digest
    ensures { result ≡ digest_of_last (option_copied last.entry) }
{
    match last {
        Some(last) => last.digest(),
        None => Digest::from_bytes([0; 32]),
    }
}

/// Whose structure it is.
fn user_of<A: Allocator>(structure: &SpelledStructure<A>) -> u8
    ensures { result ≡ user_of structure.now }
{
    structure.plan().user().get()
}

/// Where a user's structure stands, or where it would stand.
fn place_of<A: Allocator>(structures: &[SpelledStructure<A>], user: u8) -> Result<usize, usize>
    requires { Ascends nat_cmp user_of None structures.now }
    ensures { MatchResult result (Stands nat_cmp user_of structures.now user)
        (IsFree nat_cmp user_of structures.now user) }
{
    structures.binary_search_by_key(&user, |structure| user_of(structure))
}

/// The structure of a user, if there is one.
pub(crate) fn structure_of<A: Allocator>(
    structures: &[SpelledStructure<A>],
    user: User,
) -> Option<&SpelledStructure<A>>
    ensures { option_copied result ≡ find (λ s. s.value.plan.user == user) structures.now }
{
    let user = user.get();
    structures
        .iter()
        .find(|structure| user_of(structure) == user)
}

/// Puts a structure in its place, or in that of the one of its user.
pub(crate) fn put<A: Allocator>(
    structures: &mut Vec<SpelledStructure<A>, A>,
    structure: SpelledStructure<A>,
) -> Result<(), Memory>
    requires { Ascends nat_cmp user_of None structures.old.items }
    ensures ok { OnOk result (structures.new.items ≡ with_row nat_cmp user_of structures.old.items structure) }
    // It takes no memory where there is room for one more.
    ensures room { vec_len structures.old < vec_capacity structures.old → IsOk result }
    ensures err { OnErr result (structures.new.items ≡ structures.old.items) }
{
    match place_of(structures, user_of(&structure)) {
        Ok(place) => structures[place] = structure,
        Err(place) => structures.insert(place, structure)?,
    }
    Ok(())
}
