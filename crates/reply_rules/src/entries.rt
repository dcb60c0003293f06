//! The rule on entries. Each plan's entry is made once.

ghost use Rattle.std.specs.Prelude.{◌≡◌, ◌∷◌, [], ◌&&◌, IfOk, map};
ghost use Rattle.version_order.specs.Plan.{entry_of};
ghost use Rattle.pending_list.specs.Reply as reply_spec;
ghost use Rattle.reply_rules.specs.Lists.{shown, pending};
ghost use Rattle.reply_rules.specs.Rules.{waiting, above, left_of, entries_of, top_entries, own_entry_of_top};
ghost use Rattle.reply_rules.specs.Rules.{top_known, top_waiting, above_show, other_entries, own_only, own_all};
ghost use Rattle.reply_rules.specs.Rules.{entries};
ghost use Rattle.reply_rules.specs.Shown.{shows_left, shows_by};

use crate::reply_lists::Lists;
use crate::rest::{Rest, are_listed, are_of_either};
use layout::{Memory, User};
use pending_list::{PendingItem, Signed, outranks};
use std::alloc::Allocator;
use version_order::{Entry, Plan, Structure};

/// The entries of these structures' plans.
fn entries_of_structures<A: Allocator + Copy>(
    alloc: A,
    structures: &[Signed<Structure<A>>],
) -> Result<Vec<Entry, A>, Memory>
    ensures { IfOk result (λ made. made.items ≡ entries_of (map (λ z. z.value.plan) structures.now)) }
{
    let mut made = Vec::new(alloc);
    for structure in structures {
        made.push(structure.value.plan().entry(alloc)?)?;
    }
    Ok(made)
}

/// The entries of these pending plans.
fn entries_of_pending<A: Allocator + Copy>(
    alloc: A,
    items: &[PendingItem<A>],
) -> Result<Vec<Entry, A>, Memory>
    ensures { IfOk result (λ made. made.items ≡ entries_of (map (λ i. i.plan) items.now)) }
{
    let mut made = Vec::new(alloc);
    for item in items {
        made.push(item.plan().entry(alloc)?)?;
    }
    Ok(made)
}

/// Top's entries, none where there is no structure.
fn top_entries<'a, A: Allocator>(lists: &Lists<'a, A>) -> &'a [Entry]
    ensures { result.now ≡ top_entries lists.now }
{
    match lists.top() {
        Some(top) => top.value.plan().entries().as_slice(),
        None => &[],
    }
}

/// The entry of top, of those of the structures: top is the first one that it doesn't outrank.
fn entry_of_top<'e, A: Allocator>(
    structures: &[Signed<Structure<A>>],
    best: &Signed<Structure<A>>,
    entered: &'e [Entry],
) -> &'e [Entry]
    requires best { reply_spec.top structures.now ≡ Some best.now }
    requires entered { entered.now ≡ entries_of (map (λ z. z.value.plan) structures.now) }
    ensures { result.now ≡ entry_of best.now.value.plan ∷ [] }
{
    let mut rest = entered;
    for structure in structures {
        let (own, later) = rest.split_at(1);
        if !outranks(best, structure) {
            return own;
        }
        rest = later;
    }
    &[]
}

/// Top's own entry, of those of the structures: none where there is no structure.
fn own_entry_of_top<'e, A: Allocator>(lists: &Lists<'_, A>, entered: &'e [Entry]) -> &'e [Entry]
    requires { entered.now ≡ entries_of (shown lists.now) }
    ensures { result.now ≡ own_entry_of_top lists.now }
{
    match lists.top() {
        Some(best) => entry_of_top(lists.structures(), best, entered),
        None => &[],
    }
}

/// Whether a plan of this user and with these entries shows what it has to, where those left of them without those
/// before are these.
fn shows_left<A: Allocator>(
    top: &[Entry],
    own: &[Entry],
    waiting: &[Entry],
    before: &[Entry],
    left: &Rest<A>,
    rest: &Option<Rest<A>>,
    entries: &[Entry],
    user: User,
) -> bool
    ensures { result ≡ shows_left top.now own.now waiting.now before.now left.now rest.now entries.now user }
{
    are_listed(before, entries)
        && left.is_of_either(top, own)
        && left.has_all(waiting)
        && left.is_of_others(user)
        && left.is_within(rest)
}

/// Whether a plan above shows what it has to, told by the entries of those that wait and of those before it, and by
/// what is left of its own without the latter.
fn shows<A: Allocator>(
    lists: &Lists<'_, A>,
    own: &[Entry],
    waiting: &[Entry],
    before: &[Entry],
    left: &Rest<A>,
    rest: &Option<Rest<A>>,
    plan: &Plan<A>,
) -> bool
    requires own { own.now ≡ own_entry_of_top lists.now }
    requires left { left.now ≡ left_of before.now plan.now.entries }
    ensures { result ≡ shows_by lists.now waiting.now before.now rest.now plan.now }
{
    let top = top_entries(lists);
    let entries = plan.entries().as_slice();
    shows_left(top, own, waiting, before, left, rest, entries, plan.user())
}

/// Whether each plan above does.
fn above_show<A: Allocator + Copy>(
    alloc: A,
    lists: &Lists<'_, A>,
    own: &[Entry],
    waits: &[Entry],
    later: &[Entry],
) -> Result<bool, Memory>
    requires own { own.now ≡ own_entry_of_top lists.now }
    requires waits { waits.now ≡ entries_of (waiting lists.now) }
    requires later { later.now ≡ entries_of (above lists.now) }
    ensures { IfOk result (λ show. show ≡ above_show lists.now) }
{
    let items = lists.above();
    let mut rest = None;
    for (k, item) in items.iter().enumerate() {
        let plan = item.plan();
        let before = &later[..k];
        let left = Rest::of(alloc, before, plan.entries().as_slice())?;
        if !shows(lists, own, waits, before, &left, &rest, plan) {
            return Ok(false);
        }
        rest = Some(left);
    }
    Ok(true)
}

/// Whether the own plan's entries are those of the other pending plans, and all of them.
fn own_shows<A: Allocator>(lists: &Lists<'_, A>, others: &[Entry]) -> bool
    requires { others.now ≡ other_entries lists.now }
    ensures { result ≡ (own_only lists.now && own_all lists.now) }
{
    let own = lists.own().plan().entries().as_slice();
    are_listed(own, others) && are_listed(others, own)
}

/// Whether each entry of top is of its user's structure or pending plan.
fn top_known<A: Allocator>(lists: &Lists<'_, A>, entered: &[Entry], made: &[Entry]) -> bool
    requires entered { entered.now ≡ entries_of (shown lists.now) }
    requires made { made.now ≡ entries_of (pending lists.now) }
    ensures { result ≡ top_known lists.now }
{
    are_of_either(top_entries(lists), entered, made)
}

/// Whether each pending plan that isn't above is an entry of top.
fn top_waiting<A: Allocator>(lists: &Lists<'_, A>, waits: &[Entry]) -> bool
    requires { waits.now ≡ entries_of (waiting lists.now) }
    ensures { result ≡ top_waiting lists.now }
{
    are_listed(waits, top_entries(lists))
}

/// Whether the rule on entries holds, told by the entries of the structures, of the pending plans, of those of them
/// that wait and that are above, and of the others.
#[tactic(auto, unfolding(crate::specs::Rules::entries))]
fn all_hold<A: Allocator + Copy>(
    alloc: A,
    lists: &Lists<'_, A>,
    own: &[Entry],
    entered: &[Entry],
    made: &[Entry],
    waits: &[Entry],
    later: &[Entry],
    others: &[Entry],
) -> Result<bool, Memory>
    requires own { own.now ≡ own_entry_of_top lists.now }
    requires entered { entered.now ≡ entries_of (shown lists.now) }
    requires made { made.now ≡ entries_of (pending lists.now) }
    requires waits { waits.now ≡ entries_of (waiting lists.now) }
    requires later { later.now ≡ entries_of (above lists.now) }
    requires others { others.now ≡ other_entries lists.now }
    ensures { IfOk result (λ hold. hold ≡ entries lists.now) }
{
    Ok(
        top_known(lists, entered, made)
            && top_waiting(lists, waits)
            && above_show(alloc, lists, own, waits, later)?
            && own_shows(lists, others),
    )
}

/// The same, told by the entries of the structures and of the pending plans.
fn hold_by<A: Allocator + Copy>(
    alloc: A,
    lists: &Lists<'_, A>,
    own: &[Entry],
    entered: &[Entry],
    made: &[Entry],
) -> Result<bool, Memory>
    requires own { own.now ≡ own_entry_of_top lists.now }
    requires entered { entered.now ≡ entries_of (shown lists.now) }
    requires made { made.now ≡ entries_of (pending lists.now) }
    ensures { IfOk result (λ hold. hold ≡ entries lists.now) }
{
    let (waits, later) = made.split_at(lists.waiting().len());
    let others = &made[..lists.others().len()];
    all_hold(alloc, lists, own, entered, made, waits, later, others)
}

/// Whether the rule on entries holds.
pub fn entries_hold<A: Allocator + Copy>(alloc: A, lists: &Lists<'_, A>) -> Result<bool, Memory>
    ensures { IfOk result (λ holds. holds ≡ entries lists.now) }
{
    let entered = entries_of_structures(alloc, lists.structures())?;
    let made = entries_of_pending(alloc, lists.pending())?;
    let own = own_entry_of_top(lists, &entered);
    hold_by(alloc, lists, own, &entered, &made)
}
