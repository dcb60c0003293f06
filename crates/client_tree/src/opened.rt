//! A principal's part of the tree of a view, opened.

ghost use Rattle.std.specs.Prelude.{◌≡◌, ◌==◌, ◌&&◌, ◌++◌, ◌∷◌, [], ℕ, List, true, false, is_some, IfOk, IfErr, OnOk, filter};
ghost use Rattle.std.specs.List.{list_any};
ghost use Rattle.layout.specs.Types.{Handle};
ghost use Rattle.itable.specs.ITable.{loaded};
ghost use Rattle.principals.specs.Table.{Table as Principals};
ghost use Rattle.update_cert.specs.World.{Tree, is_table};
ghost use Rattle.update_cert.specs.Reading.{void_of_read};
ghost use Rattle.tree_parts.specs.Blocks.{ForEachReading};
ghost use Rattle.tree_parts.specs.Part.{IsPartOf};
ghost use Rattle.tree_parts.specs.Asked.{HasAskedFor, IsAskedFor, IsReadFrom, IsRoot, Lacks, covers};
ghost use Rattle.tree_parts.specs.declared.scope.Scope.{Scope as ScopeModel};
ghost use Rattle.tree_parts.specs.declared.scope.Scope.TheVariants as scopes;
ghost use Rattle.pending_list.specs.Reply.{PendingItem as Item};
ghost use Rattle.client_tree.specs.View.{actor_of, comes_after, handle_of, shown, tree_before};
ghost use Rattle.client_tree.specs.Opened.{HasAskedByItems, HasOpening, HasOpeningAt, IsNeeded, IsOpened, IsOpenedAt};
ghost use Rattle.client_tree.specs.Opened.{IsOpening, IsOpeningAt, IsPartAfter, changes_part, has_change, is_touched};
ghost use Rattle.client_tree.specs.Opened.{items_on};

use crate::view::{View, acts_for};
use layout::{INumber, Principal};
use pending_list::PendingItem;
use principals::Table;
use std::alloc::Allocator;
use tree_parts::{Applied, ApplyError, Blocks, Part, Scope, apply_within, is_table};
use update_cert::Change;

/// What an operation makes of a principal's part within a scope, where it is permitted by this table.
fn apply_item<A: Allocator + Copy, B: Blocks>(
    alloc: A,
    part: Part<A>,
    blocks: &B,
    scope: &Scope,
    table: &Table<A>,
    item: &PendingItem<A>,
) -> Result<Applied<A>, ApplyError>
    requires read { IsReadFrom (B.held blocks.now) part }
    ensures voids { ForEachReading (B.held blocks.now) (λ reads.
        (tree : Tree) → scope.now ≡ scopes.All → IsPartOf reads part tree
        → IfOk result (λ made. made.voids
        ≡ void_of_read reads (actor_of table.now item.now) part.table.principal item.now.cert.changes tree)) }
    ensures after { (p : ℕ) (h : Handle) (items : List Item)
        → IsPartAfter (B.held blocks.now) scope.now table.now items p h part
        → IfOk result (λ made.
        IsPartAfter (B.held blocks.now) scope.now table.now (items ++ item.now ∷ []) p h made.part) }
    ensures read { IfOk result (λ made. IsReadFrom (B.held blocks.now) made.part) }
    ensures missing { IfErr result (Lacks (B.held blocks.now)
        (IsAskedFor (B.held blocks.now) scope.now (actor_of table.now item.now) item.now.cert.changes part)) }
    ensures taken { OnOk result (HasAskedFor (B.held blocks.now) scope.now (actor_of table.now item.now)
        item.now.cert.changes part) }
{
    let is_member = acts_for(table, part.principal(), item);
    apply_within(alloc, part, blocks, scope, is_member, item.cert())
}

/// Whether a change is made in this principal's part, within a scope.
fn is_made<A: Allocator>(scope: &Scope, principal: Principal, change: &Change<A>) -> bool
    ensures { result ≡ (covers scope.now change.now.i_number && (change.now.principal == principal)) }
{
    scope.covers(change.i_number()) && change.principal() == principal
}

/// Whether an operation has such a change.
fn has_change<A: Allocator>(scope: &Scope, principal: Principal, item: &PendingItem<A>) -> bool
    ensures { result ≡ has_change scope.now principal item.now }
{
    item.cert()
        .changes()
        .iter()
        .any(|change| is_made(scope, principal, change))
}

impl<'a, A: Allocator> View<'a, A> {
    /// Whether an operation of another has a change of a principal's part within a scope, and is applied to that part.
    fn touches(&self, scope: &Scope, principal: Principal, item: &PendingItem<A>) -> bool
        ensures { result ≡ changes_part self.now scope.now principal item.now }
    {
        has_change(scope, principal, item) && self.comes_after(principal, item)
    }

    /// Whether one of the operations of others does.
    fn others_touch(&self, scope: &Scope, principal: Principal) -> bool
        ensures { result ≡ list_any (changes_part self.now scope.now principal) self.now.others }
    {
        self.others()
            .iter()
            .any(|item| self.touches(scope, principal, item))
    }

    /// Whether one of the operations on a principal's part has a change of it, within a scope.
    pub(crate) fn is_touched(&self, scope: &Scope, principal: Principal) -> bool
        ensures { result ≡ is_touched self.now scope.now principal }
    {
        self.others_touch(scope, principal) || has_change(scope, principal, self.own())
    }
}

impl<'a, A: Allocator + Copy> View<'a, A> {
    /// What the operations of others make of a principal's part within a scope, those that come after its handle, in
    /// order.
    fn after_others<B: Blocks>(
        &self,
        alloc: A,
        blocks: &B,
        scope: &Scope,
        principal: Principal,
        part: Part<A>,
    ) -> Result<Part<A>, ApplyError>
        requires first { IsPartAfter (B.held blocks.now) scope.now self.now.table [] principal
            (handle_of self.now principal) part }
        requires read { IsReadFrom (B.held blocks.now) part }
        ensures after { IfOk result (IsPartAfter (B.held blocks.now) scope.now self.now.table
            (filter (comes_after self.now principal) self.now.others) principal (handle_of self.now principal)) }
        ensures read { IfOk result (IsReadFrom (B.held blocks.now)) }
        ensures missing { IfErr result
            (Lacks (B.held blocks.now) (IsOpening (B.held blocks.now) self.now scope.now principal)) }
        ensures taken { OnOk result (HasAskedByItems (B.held blocks.now) scope.now self.now.table
            (filter (comes_after self.now principal) self.now.others) principal (handle_of self.now principal)) }
    {
        let mut after = part;
        for item in self.others() {
            if self.comes_after(principal, item) {
                let made = apply_item(alloc, after, blocks, scope, self.table(), item)?;
                after = made.part;
            }
        }
        Ok(after)
    }

    /// A principal's part before any operation. The errors are Missing of its root, and Memory.
    pub(crate) fn first_part<B: Blocks>(
        &self,
        alloc: A,
        blocks: &B,
        principal: Principal,
    ) -> Result<Part<A>, ApplyError>
        ensures after { (scope : ScopeModel) → IfOk result (IsPartAfter (B.held blocks.now) scope self.now.table []
            principal (handle_of self.now principal)) }
        ensures read { IfOk result (IsReadFrom (B.held blocks.now)) }
        ensures missing { IfErr result
            (Lacks (B.held blocks.now) (IsRoot principal (handle_of self.now principal))) }
    {
        let handle = self.handle_of(alloc, principal)?;
        Part::open(alloc, blocks, principal, handle)
    }

    /// A principal's part before the own operation, as the operations of others make it within a scope.
    fn earlier<B: Blocks>(
        &self,
        alloc: A,
        blocks: &B,
        scope: &Scope,
        principal: Principal,
    ) -> Result<Part<A>, ApplyError>
        ensures after { IfOk result (IsPartAfter (B.held blocks.now) scope.now self.now.table
            (filter (comes_after self.now principal) self.now.others) principal (handle_of self.now principal)) }
        ensures read { IfOk result (IsReadFrom (B.held blocks.now)) }
        ensures missing { IfErr result
            (Lacks (B.held blocks.now) (IsOpening (B.held blocks.now) self.now scope.now principal)) }
        ensures taken { OnOk result (HasAskedByItems (B.held blocks.now) scope.now self.now.table
            (filter (comes_after self.now principal) self.now.others) principal (handle_of self.now principal)) }
    {
        let part = self.first_part(alloc, blocks, principal)?;
        self.after_others(alloc, blocks, scope, principal, part)
    }

    /// A principal's part after the operations, as they make it within a scope, and the own changes without effect.
    fn open_within<B: Blocks>(
        &self,
        alloc: A,
        blocks: &B,
        scope: &Scope,
        principal: Principal,
    ) -> Result<Applied<A>, ApplyError>
        ensures after { IfOk result (λ opened. IsPartAfter (B.held blocks.now) scope.now self.now.table
            (items_on self.now principal) principal (handle_of self.now principal) opened.part) }
        ensures read { IfOk result (λ opened. IsReadFrom (B.held blocks.now) opened.part) }
        ensures voids { ForEachReading (B.held blocks.now) (λ reads.
            (users : Principals) → scope.now ≡ scopes.All → IfOk result (λ opened. opened.voids
            ≡ void_of_read reads (actor_of self.now.table self.now.own) principal self.now.own.cert.changes
            (tree_before reads users self.now))) }
        ensures missing { IfErr result
            (Lacks (B.held blocks.now) (IsOpening (B.held blocks.now) self.now scope.now principal)) }
        ensures taken { OnOk result (HasOpening (B.held blocks.now) self.now scope.now principal) }
    {
        let earlier = self.earlier(alloc, blocks, scope, principal)?;
        apply_item(alloc, earlier, blocks, scope, self.table(), self.own())
    }

    /// A principal's part, as all operations make it, and the own changes of it that have no effect. The errors are
    /// Missing of a block, and Memory.
    pub(crate) fn open<B: Blocks>(
        &self,
        alloc: A,
        blocks: &B,
        principal: Principal,
    ) -> Result<Applied<A>, ApplyError>
        ensures opened { IfOk result (λ opened. IsOpened (B.held blocks.now) self.now principal opened.part) }
        ensures voids { ForEachReading (B.held blocks.now) (λ reads.
            (users : Principals) → IfOk result (λ opened. opened.voids
            ≡ void_of_read reads (actor_of self.now.table self.now.own) principal self.now.own.cert.changes
            (tree_before reads users self.now))) }
        ensures missing { IfErr result
            (Lacks (B.held blocks.now) (IsOpening (B.held blocks.now) self.now scopes.All principal)) }
    {
        self.open_within(alloc, blocks, &Scope::All, principal)
    }

    /// A principal's part, as the changes at one i-number make it, with the chunk of that i-number. The errors are
    /// Missing of a block, and Memory.
    pub(crate) fn open_at<B: Blocks>(
        &self,
        alloc: A,
        blocks: &B,
        principal: Principal,
        i_number: INumber,
    ) -> Result<Part<A>, ApplyError>
        ensures opened { IfOk result (IsOpenedAt (B.held blocks.now) self.now principal i_number) }
        ensures loaded { IfOk result (λ part. loaded part.table i_number ≡ true) }
        ensures missing { IfErr result
            (Lacks (B.held blocks.now) (IsOpeningAt (B.held blocks.now) self.now principal i_number)) }
    {
        let mut opened = self.open_within(alloc, blocks, &Scope::At(i_number), principal)?;
        opened.part.load(alloc, blocks, i_number)?;
        Ok(opened.part)
    }

    /// A principal's part, of which all is loaded that it is stored by: of user 0's the chunk in which the table of
    /// principals is. The errors are Missing of a block, and Memory.
    pub(crate) fn open_to_store<B: Blocks>(
        &self,
        alloc: A,
        blocks: &B,
        principal: Principal,
    ) -> Result<Applied<A>, ApplyError>
        requires touched { is_touched self.now scopes.All principal ≡ true }
        ensures opened { IfOk result (λ opened. IsOpened (B.held blocks.now) self.now principal opened.part) }
        ensures loaded { IfOk result (λ opened. principal ≡ 0 → loaded opened.part.table 1 ≡ true) }
        ensures voids { ForEachReading (B.held blocks.now) (λ reads.
            (users : Principals) → IfOk result (λ opened. opened.voids
            ≡ void_of_read reads (actor_of self.now.table self.now.own) principal self.now.own.cert.changes
            (tree_before reads users self.now))) }
        ensures missing { IfErr result (Lacks (B.held blocks.now) (IsNeeded (B.held blocks.now) self.now principal)) }
    {
        let mut opened = self.open(alloc, blocks, principal)?;
        if principal.get() != 0 {
            return Ok(opened);
        }
        opened.part.load(alloc, blocks, INumber::table())?;
        Ok(opened)
    }

    /// Whether anything stands at an i-number of a principal, whose part before any operation is this one. Where no
    /// operation has a change there, the part is left with the chunk of that i-number. The errors are Missing of a
    /// block, and Memory.
    pub(crate) fn is_mapped<B: Blocks>(
        &self,
        alloc: A,
        blocks: &B,
        before: &mut Part<A>,
        principal: Principal,
        i_number: INumber,
    ) -> Result<bool, ApplyError>
        requires before { (scope : ScopeModel) → IsPartAfter (B.held blocks.now) scope self.now.table [] principal
            (handle_of self.now principal) before.old }
        requires read { IsReadFrom (B.held blocks.now) before.old }
        ensures before { OnOk result ((scope : ScopeModel) → IsPartAfter (B.held blocks.now) scope self.now.table []
            principal (handle_of self.now principal) before.new) }
        ensures read { OnOk result (IsReadFrom (B.held blocks.now) before.new) }
        ensures mapped { ForEachReading (B.held blocks.now) (λ reads. (users : Principals)
            → IfOk result (λ is. is ≡ is_some (shown reads users self.now principal i_number))) }
        // The table of principals stands at its place, and was read before.
        ensures taken { is_table principal i_number ≡ false
            → OnOk result (HasOpeningAt (B.held blocks.now) self.now principal i_number) }
        ensures missing { IfErr result (λ e. (is_table principal i_number ≡ false)
            × Lacks (B.held blocks.now) (IsOpeningAt (B.held blocks.now) self.now principal i_number) e) }
    {
        if is_table(principal, i_number) {
            return Ok(true);
        }
        if self.is_touched(&Scope::At(i_number), principal) {
            let opened = self.open_at(alloc, blocks, principal, i_number)?;
            return Ok(opened.stands(i_number));
        }
        before.load(alloc, blocks, i_number)?;
        Ok(before.stands(i_number))
    }
}
