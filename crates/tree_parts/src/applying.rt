//! The changes of a certificate, applied to a principal's part.

ghost use Rattle.std.specs.Prelude.{◌≡◌, ◌∷◌, [], ℕ, List, IfOk, IfErr, OnErr, OnOk};
ghost use Rattle.update_cert.specs.World.{Actor, Tree, after_change};
ghost use Rattle.update_cert.specs.Reading.{after_read, read_change, void_of_read};
ghost use Rattle.tree_parts.specs.Blocks.{ForEachReading};
ghost use Rattle.tree_parts.specs.Part.{IsPartOf, handle, slot_at};
ghost use Rattle.tree_parts.specs.Acts.{HasBy, LiesBy, is_void_of};
ghost use Rattle.tree_parts.specs.Asked.{HasAskedFor, IsAskedFor, IsMadeIn, IsReadFrom, Lacks, slot_within};
ghost use Rattle.tree_parts.specs.Slots.{slot_after};
ghost use Rattle.tree_parts.specs.declared.scope.Scope.TheVariants as scopes;

use crate::blocks::Blocks;
use crate::error::ApplyError;
use crate::part::Part;
use crate::scope::Scope;
use layout::{User, put_in};
use std::alloc::Allocator;
use update_cert::{Cert, Change, Voids};

/// Applies a change of a scope, if it is done in this part, and answers whether it is such a one and has no effect.
fn apply_covered<A: Allocator + Copy, B: Blocks>(
    alloc: A,
    part: &mut Part<A>,
    blocks: &B,
    scope: &Scope,
    user: User,
    is_member: bool,
    change: &Change<A>,
) -> Result<bool, ApplyError>
    requires read { IsReadFrom (B.held blocks.now) part.old }
    ensures part { ForEachReading (B.held blocks.now) (λ reads.
        (tree : Tree) (actor : Actor) → scope.now ≡ scopes.All → IsPartOf reads part.old tree → actor.user ≡ user
        → actor.member part.old.table.principal ≡ is_member
        → OnOk result (IsPartOf reads part.new (after_change actor (read_change reads change.now) tree))) }
    ensures slots { ForEachReading (B.held blocks.now) (λ reads.
        (actor : Actor) → actor.user ≡ user → actor.member part.old.table.principal ≡ is_member
        → OnOk result ((i : ℕ) → slot_at reads part.new i
        ≡ slot_within scope.now reads actor part.old.table.principal i (change.now ∷ []) (slot_at reads part.old i))) }
    ensures void { ForEachReading (B.held blocks.now) (λ reads.
        (tree : Tree) (actor : Actor) → scope.now ≡ scopes.All → IsPartOf reads part.old tree → actor.user ≡ user
        → actor.member part.old.table.principal ≡ is_member
        → IfOk result (λ is_void. is_void ≡ is_void_of actor part.old.table.principal change.now tree)) }
    ensures principal { OnOk result (part.new.table.principal ≡ part.old.table.principal) }
    ensures handle { OnOk result (handle part.new ≡ handle part.old) }
    ensures read { OnOk result (IsReadFrom (B.held blocks.now) part.new) }
    ensures missing { (actor : Actor) → actor.user ≡ user → actor.member part.old.table.principal ≡ is_member
        → IfErr result (λ e. IsMadeIn scope.now part.old.table.principal change.now
        × Lacks (B.held blocks.now) (LiesBy (B.held blocks.now) actor part.old change.now) e) }
    ensures taken { (actor : Actor) → actor.user ≡ user → actor.member part.old.table.principal ≡ is_member
        → OnOk result (IsMadeIn scope.now part.old.table.principal change.now
        → HasBy (B.held blocks.now) actor part.old change.now) }
{
    if !scope.covers(change.i_number()) {
        return Ok(false);
    }
    part.apply_change(alloc, blocks, user, is_member, change)
}

/// A part after a certificate's changes.
#[derive(Drop)]
pub struct Applied<A: Allocator> {
    /// The part after those of its changes that are made.
    pub part: Part<A>,
    /// Its changes of the part that have no effect, where all are made.
    pub voids: Voids<A>,
}

/// Makes those of a certificate's changes in a principal's part that are in a scope: the others, and those of other
/// principals, are passed over. The errors are Missing of a block, and Memory; after an error the part is gone.
pub fn apply_within<A: Allocator + Copy, B: Blocks>(
    alloc: A,
    part: Part<A>,
    blocks: &B,
    scope: &Scope,
    is_member: bool,
    cert: &Cert<A>,
) -> Result<Applied<A>, ApplyError>
    requires read { IsReadFrom (B.held blocks.now) part }
    // Where all are made: for each tree of which this is the principal's part, whatever stands for digests that no
    // block tells of.
    ensures part { ForEachReading (B.held blocks.now) (λ reads.
        (tree : Tree) (actor : Actor) → scope.now ≡ scopes.All → IsPartOf reads part tree
        → actor.user ≡ cert.now.user → actor.member part.table.principal ≡ is_member
        → IfOk result (λ made. IsPartOf reads made.part (after_read reads actor cert.now.changes tree))) }
    ensures voids { ForEachReading (B.held blocks.now) (λ reads.
        (tree : Tree) (actor : Actor) → scope.now ≡ scopes.All → IsPartOf reads part tree
        → actor.user ≡ cert.now.user → actor.member part.table.principal ≡ is_member
        → IfOk result (λ made. made.voids
        ≡ void_of_read reads actor part.table.principal cert.now.changes tree)) }
    // By which digest, or by which entries, each thing stands there: as before at i-numbers that aren't in the scope.
    ensures slots { ForEachReading (B.held blocks.now) (λ reads.
        (actor : Actor) → actor.user ≡ cert.now.user → actor.member part.table.principal ≡ is_member
        → IfOk result (λ made. (i : ℕ) → slot_at reads made.part i
        ≡ slot_within scope.now reads actor part.table.principal i cert.now.changes (slot_at reads part i))) }
    // Whose part it is stays, and on which handle it stands.
    ensures principal { IfOk result (λ made. made.part.table.principal ≡ part.table.principal) }
    ensures handle { IfOk result (λ made. handle made.part ≡ handle part) }
    ensures read { IfOk result (λ made. IsReadFrom (B.held blocks.now) made.part) }
    // Missing names the chunk that the i-number of a change of the scope is in, an i-node that such a change meets at
    // its turn, or a block of the directory that it is of, and no text of it is held that its spot takes.
    ensures missing { (actor : Actor) → actor.user ≡ cert.now.user → actor.member part.table.principal ≡ is_member
        → IfErr result (Lacks (B.held blocks.now)
        (IsAskedFor (B.held blocks.now) scope.now actor cert.now.changes part)) }
    // Where they are made, nothing that they ask for is missing: each block is what its place takes.
    ensures taken { (actor : Actor) → actor.user ≡ cert.now.user → actor.member part.table.principal ≡ is_member
        → OnOk result (HasAskedFor (B.held blocks.now) scope.now actor cert.now.changes part) }
{
    let user = cert.user();
    let mut changed = part;
    let mut numbers = Vec::new(alloc);
    for (place, change) in cert.changes().iter().enumerate() {
        if apply_covered(alloc, &mut changed, blocks, scope, user, is_member, change)? {
            numbers.push(place as u8 + 1)?;
        }
    }
    Ok(Applied {
        part: changed,
        voids: Voids::of(numbers),
    })
}

/// Makes a certificate's changes in a principal's part: those of other principals are passed over. The answer tells which
/// of its own changes had no effect. The errors are Missing of a block, and Memory; after an error the part is as before.
pub fn apply<A: Allocator + Copy, B: Blocks>(
    alloc: A,
    part: &mut Part<A>,
    blocks: &B,
    is_member: bool,
    cert: &Cert<A>,
) -> Result<Voids<A>, ApplyError>
    requires read { IsReadFrom (B.held blocks.now) part.old }
    // For each tree of which this is the principal's part, whatever stands for digests that no block tells of.
    ensures part { ForEachReading (B.held blocks.now) (λ reads.
        (tree : Tree) (actor : Actor) → IsPartOf reads part.old tree
        → actor.user ≡ cert.now.user → actor.member part.old.table.principal ≡ is_member
        → OnOk result (IsPartOf reads part.new (after_read reads actor cert.now.changes tree))) }
    ensures voids { ForEachReading (B.held blocks.now) (λ reads.
        (tree : Tree) (actor : Actor) → IsPartOf reads part.old tree
        → actor.user ≡ cert.now.user → actor.member part.old.table.principal ≡ is_member
        → IfOk result (λ voids. voids
        ≡ void_of_read reads actor part.old.table.principal cert.now.changes tree)) }
    // By which digest, or by which entries, each thing stands there.
    ensures slots { ForEachReading (B.held blocks.now) (λ reads.
        (actor : Actor) → actor.user ≡ cert.now.user → actor.member part.old.table.principal ≡ is_member
        → OnOk result ((i : ℕ)
        → slot_at reads part.new i
        ≡ slot_after reads actor part.old.table.principal i cert.now.changes (slot_at reads part.old i))) }
    // Whose part it is stays, and on which handle it stands.
    ensures principal { OnOk result (part.new.table.principal ≡ part.old.table.principal) }
    ensures handle { OnOk result (handle part.new ≡ handle part.old) }
    ensures read { OnOk result (IsReadFrom (B.held blocks.now) part.new) }
    // Missing names the chunk that a change's i-number is in, an i-node that a change meets at its turn, or a block of
    // the directory that it is of, and no text of it is held that its spot takes.
    ensures missing { (actor : Actor) → actor.user ≡ cert.now.user → actor.member part.old.table.principal ≡ is_member
        → IfErr result (Lacks (B.held blocks.now)
        (IsAskedFor (B.held blocks.now) scopes.All actor cert.now.changes part.old)) }
    // Where they are applied, nothing that they ask for is missing: each block is what its place takes.
    ensures taken { (actor : Actor) → actor.user ≡ cert.now.user → actor.member part.old.table.principal ≡ is_member
        → OnOk result (HasAskedFor (B.held blocks.now) scopes.All actor cert.now.changes part.old) }
    ensures err { OnErr result (part.new ≡ part.old) }
{
    let copy = part.copy(alloc)?;
    let made = apply_within(alloc, copy, blocks, &Scope::All, is_member, cert)?;
    put_in(part, made.part);
    Ok(made.voids)
}
