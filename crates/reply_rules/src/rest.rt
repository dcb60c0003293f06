//! Entries, and the rest of a plan's entries.

ghost use Rattle.std.specs.Prelude.{◌≡◌, ◌==◌, ◌||◌, not, IfOk};
ghost use Rattle.std.specs.List.{list_all};
ghost use Rattle.reply_rules.specs.Rules.{same_entry, lists_entry, left_of, within};

use layout::{Memory, User};
use std::alloc::Allocator;
use std::marker::Model;
use version_order::Entry;

/// Whether two entries have the same user, number and digest.
fn same_entry(a: &Entry, b: &Entry) -> bool
    ensures { result ≡ same_entry a.now b.now }
{
    a.user == b.user && a.number == b.number && a.plan == b.plan
}

/// Whether the entry is one of these.
pub(crate) fn lists_entry(entries: &[Entry], entry: &Entry) -> bool
    ensures { result ≡ lists_entry entries.now entry.now }
{
    entries.iter().any(|listed| same_entry(entry, listed))
}

/// Whether each of these entries is one of those.
pub(crate) fn are_listed(entries: &[Entry], listed: &[Entry]) -> bool
    ensures { result ≡ list_all (lists_entry listed.now) entries.now }
{
    entries.iter().all(|entry| lists_entry(listed, entry))
}

/// Whether each of these entries is one of the first or of the second ones.
pub(crate) fn are_of_either(entries: &[Entry], first: &[Entry], second: &[Entry]) -> bool
    ensures { result ≡ list_all (λ e. lists_entry first.now e || lists_entry second.now e) entries.now }
{
    entries.iter().all(|entry| lists_entry(first, entry) || lists_entry(second, entry))
}

/// What is left of these entries without the known ones.
fn entries_left<A: Allocator>(
    alloc: A,
    known: &[Entry],
    entries: &[Entry],
) -> Result<Vec<Entry, A>, Memory>
    ensures { IfOk result (λ left. left.items ≡ left_of known.now entries.now) }
{
    let mut left = Vec::new(alloc);
    for entry in entries {
        if !lists_entry(known, entry) {
            left.push(*entry)?;
        }
    }
    Ok(left)
}

/// The rest of a plan's entries: those that aren't of the plans above before it.
#[derive(Drop)]
pub(crate) struct Rest<A: Allocator> {
    left: Vec<Entry, A>,
}

impl<A: Allocator> Model for Rest<A> {
    ghost use Rattle.std.specs.Prelude.{List};
    ghost use Rattle.version_order.specs.declared.plan.Entry.{Entry};

    ghost Value = { List Entry };

    ghost view = { λ r. r.left.items };
}

impl<A: Allocator> Rest<A> {
    /// What is left of a plan's entries without those of the plans before it.
    pub(crate) fn of(alloc: A, before: &[Entry], entries: &[Entry]) -> Result<Rest<A>, Memory>
        ensures { IfOk result (λ rest. rest ≡ left_of before.now entries.now) }
    {
        Ok(Rest {
            left: entries_left(alloc, before, entries)?,
        })
    }

    /// Whether each of these entries is in it.
    pub(crate) fn has_all(&self, entries: &[Entry]) -> bool
        ensures { result ≡ list_all (lists_entry self.now) entries.now }
    {
        are_listed(entries, &self.left)
    }

    /// Whether each entry of the rest is one of the first or of the second ones.
    pub(crate) fn is_of_either(&self, first: &[Entry], second: &[Entry]) -> bool
        ensures { result ≡ list_all (λ e. lists_entry first.now e || lists_entry second.now e) self.now }
    {
        are_of_either(&self.left, first, second)
    }

    /// Whether none of its entries is of the user.
    pub(crate) fn is_of_others(&self, user: User) -> bool
        ensures { result ≡ list_all (λ e. not (e.user == user)) self.now }
    {
        self.left.iter().all(|entry| entry.user != user)
    }

    /// Whether each of its entries is in that of the plan before it, where there is one.
    pub(crate) fn is_within(&self, rest: &Option<Rest<A>>) -> bool
        ensures { result ≡ within self.now rest.now }
    {
        match rest {
            Some(rest) => rest.has_all(&self.left),
            None => true,
        }
    }
}
