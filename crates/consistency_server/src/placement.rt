//! Operations that are pending.

ghost use Rattle.std.specs.Prelude.{◌≡◌, ◌==◌, ◌&&◌, ◌<◌, ◌++◌, [], ◌∷◌, IfOk, find, filter, not, vec_len};
ghost use Rattle.std.specs.Prelude.{vec_capacity};
ghost use Rattle.std.specs.List.{list_any};
ghost use Rattle.std.specs.Option.{option_copied};
ghost use Rattle.std.specs.Str.{bytes_eq};
ghost use Rattle.version_order.specs.Plan.{plan as plan_format, entry_of};
ghost use Rattle.update_cert.specs.Cert.{cert};
ghost use Rattle.pending_list.specs.Signed.{signed};
ghost use Rattle.consistency_server.specs.State.{pending_of, entries_of};
ghost use Rattle.consistency_server.specs.Answers.{cert_of, same_plan};

use crate::item::SpelledItem;
use crate::payload::Payload;
use layout::{Memory, Text, User, Version};
use std::alloc::Allocator;
use std::marker::Model;
use version_order::{Entries, Entry, Plan};

/// An operation that is pending, and the text of its reply.
#[derive(Drop)]
pub(crate) struct Placement<A: Allocator> {
    item: SpelledItem<A>,
    /// What later plans have of it.
    entry: Entry,
    reply: Payload<A>,
}

impl<A: Allocator> Model for Placement<A> {
    ghost use Rattle.std.specs.Prelude.{◌≡◌};
    ghost use Rattle.version_order.specs.Plan.{entry_of};
    ghost use Rattle.consistency_server.specs.State.{Placement};

    ghost Value = { Placement };

    ghost view = { λ w. record { item = w.item; reply = w.reply } };

    ghost invariant = { λ w. w.entry ≡ entry_of w.item.plan };
}

impl<A: Allocator> Placement<A> {
    pub(crate) fn new(item: SpelledItem<A>, entry: Entry, reply: Payload<A>) -> Placement<A>
        requires { entry ≡ entry_of item.plan }
        ensures { result ≡ record { item = item; reply = reply } }
    {
        Placement { item, entry, reply }
    }

    pub(crate) fn item(&self) -> &SpelledItem<A>
        ensures { result.now ≡ self.now.item }
    {
        &self.item
    }

    /// Whose operation it is.
    pub(crate) fn user(&self) -> User
        ensures { result ≡ self.now.item.plan.user }
    {
        self.item.plan().user()
    }

    pub(crate) fn entry(&self) -> Entry
        ensures { result ≡ entry_of self.now.item.plan }
    {
        self.entry
    }

    pub(crate) fn reply(&self) -> &Payload<A>
        ensures { result.now ≡ self.now.reply }
    {
        &self.reply
    }

    /// Whether it is the operation of this user and number.
    pub(crate) fn is_of(&self, user: User, number: Version) -> bool
        ensures { result ≡ ((user == self.now.item.plan.user) && (number == self.now.item.plan.number)) }
    {
        user == self.item.plan().user() && number == self.item.plan().number()
    }
}

// ---- the list of those that are pending

/// The operation of a user, if one is pending.
pub(crate) fn pending_of<A: Allocator>(
    pending: &[Placement<A>],
    user: User,
) -> Option<&Placement<A>>
    ensures { option_copied result ≡ pending_of user pending.now }
{
    pending.iter().find(|placement| placement.user() == user)
}

/// The operation that is pending with the signed certificate that the text spells, if there is one.
pub(crate) fn with_cert<'a, A: Allocator>(
    pending: &'a [Placement<A>],
    text: &[u8],
) -> Option<&'a Placement<A>>
    ensures { option_copied result
        ≡ find (λ w. bytes_eq text.now ((signed cert).spell (cert_of w.item))) pending.now }
{
    pending
        .iter()
        .find(|placement| placement.item().has_cert(text))
}

/// Whether an operation is pending with the plan that the text spells.
fn have_spelled_plan<A: Allocator>(pending: &[Placement<A>], text: &[u8]) -> bool
    ensures { result ≡ list_any (λ w. bytes_eq text.now (plan_format.spell w.item.plan)) pending.now }
{
    pending
        .iter()
        .any(|placement| placement.item().has_plan(text))
}

/// Whether an operation of this plan is pending.
pub(crate) fn have_plan<A: Allocator + Copy>(
    alloc: A,
    pending: &[Placement<A>],
    plan: &Plan<A>,
) -> Result<bool, Memory>
    ensures { IfOk result (λ have. have ≡ list_any (same_plan plan.now) pending.now) }
{
    let text = plan.text(alloc)?;
    Ok(have_spelled_plan(pending, &text))
}

/// An entry for each of these, ascending by user.
pub(crate) fn entries_of<A: Allocator>(
    alloc: A,
    pending: &[Placement<A>],
) -> Result<Entries<A>, Memory>
    ensures { IfOk result (λ entries. entries ≡ entries_of pending.now) }
{
    let mut entries = Entries::new(alloc);
    for number in 0..64 {
        let Some(user) = User::new(number) else {
            unreachable!()
        };
        if let Some(placement) = pending_of(pending, user) {
            entries.push(placement.entry())?;
        }
    }
    Ok(entries)
}

/// Puts an operation after the others, where there is room.
pub(crate) fn place<A: Allocator>(pending: &mut Vec<Placement<A>, A>, placement: Placement<A>)
    requires { vec_len pending.old < vec_capacity pending.old }
    ensures { pending.new.items ≡ pending.old.items ++ placement ∷ [] }
{
    pending.push(placement).unwrap();
}

/// Takes the operation of this user and number out.
pub(crate) fn take_out<A: Allocator>(
    pending: &mut Vec<Placement<A>, A>,
    user: User,
    number: Version,
)
    ensures { pending.new.items ≡ filter (λ w. not
        ((user == w.item.plan.user) && (number == w.item.plan.number))) pending.old.items }
{
    pending.retain(|placement| !placement.is_of(user, number));
}
