//! The first broken rule of those on a reply itself.

ghost use Rattle.std.specs.Prelude.{IfErr, OnOk, Ok, ◌≡◌, ℕ, List, IfOk, Option, Some, None, IsSome, true, map};
ghost use Rattle.std.specs.List.{list_all};
ghost use Rattle.std.specs.Option.{option_copied, option_map};
ghost use Rattle.reply_rules.specs.Lists.{lists_of};
ghost use Rattle.reply_rules.specs.Rules.{lists};
ghost use Rattle.pending_list.specs.Signed.{signed};
ghost use Rattle.update_cert.specs.Cert.{cert};
ghost use Rattle.reply_check.specs.FirstBroken.{own_last, own_pending, super_signature, shown_of, structure_sent};
ghost use Rattle.reply_check.specs.FirstBroken.{cert_sent, same_bytes, structure_verifies, cert_verifies, of_reply};
ghost use Rattle.reply_check.specs.FirstBroken.{reply_breaks, reply_in};

use crate::known::{Known, cert_sent};
use crate::lists::{Admitted, shown_of};
use layout::{Memory, ReadError, Text, User};
use pending_list::{PendingItem, Reply, Signed};
use reply_rules::{Rule, lists_hold};
use std::alloc::Allocator;
use version_order::Structure;

/// Whether the rule on the own last structure holds.
#[tactic(auto, unfolding(crate::specs::FirstBroken::own_last))]
fn own_last<A: Allocator + Copy>(
    alloc: A,
    known: &Known<'_, A>,
    reply: &Reply<A>,
) -> Result<bool, Memory>
    ensures { IfOk result (λ holds. holds ≡ own_last known.now.user known.now.last reply.now) }
{
    match (shown_of(known.user(), reply.structures()), known.last()) {
        (None, None) => Ok(true),
        (Some(shown), Some(last)) => {
            let shown = shown.text(alloc)?;
            let last = last.text(alloc)?;
            Ok(shown.as_slice() == last.as_slice())
        }
        _ => Ok(false),
    }
}

/// Whether the rule on the own pending certificate holds.
#[tactic(auto, unfolding(crate::specs::FirstBroken::own_pending))]
fn own_pending<A: Allocator + Copy>(
    alloc: A,
    known: &Known<'_, A>,
    reply: &Reply<A>,
) -> Result<bool, Memory>
    ensures { IfOk result (λ holds. holds ≡ own_pending known.now.declared reply.now) }
{
    match reply.pending().last() {
        Some(item) => {
            let sent = cert_sent(alloc, item)?;
            Ok(sent.as_slice() == known.declared())
        }
        None => Ok(false),
    }
}

/// Whether a structure, if it is user 0's, verifies under user 0's key.
fn structure_verifies<A: Allocator + Copy>(
    alloc: A,
    known: &Known<'_, A>,
    structure: &Signed<Structure<A>>,
) -> Result<bool, Memory>
    ensures { IfOk result (λ holds. holds ≡ structure_verifies known.now.pinned structure.now) }
{
    if structure.value.plan().user() != User::superuser() {
        return Ok(true);
    }
    known.structure_is_signed(alloc, known.pinned(), structure)
}

/// Whether a pending certificate, if it is user 0's, verifies under user 0's key.
fn cert_verifies<A: Allocator + Copy>(
    alloc: A,
    known: &Known<'_, A>,
    item: &PendingItem<A>,
) -> Result<bool, Memory>
    ensures { IfOk result (λ holds. holds ≡ cert_verifies known.now.pinned item.now) }
{
    if item.cert().user() != User::superuser() {
        return Ok(true);
    }
    known.cert_is_signed(alloc, known.pinned(), item)
}

fn structures_verify<A: Allocator + Copy>(
    alloc: A,
    known: &Known<'_, A>,
    structures: &[Signed<Structure<A>>],
) -> Result<bool, Memory>
    ensures { IfOk result (λ holds. holds ≡ list_all (structure_verifies known.now.pinned) structures.now) }
{
    for structure in structures {
        if !structure_verifies(alloc, known, structure)? {
            return Ok(false);
        }
    }
    Ok(true)
}

fn certs_verify<A: Allocator + Copy>(
    alloc: A,
    known: &Known<'_, A>,
    pending: &[PendingItem<A>],
) -> Result<bool, Memory>
    ensures { IfOk result (λ holds. holds ≡ list_all (cert_verifies known.now.pinned) pending.now) }
{
    for item in pending {
        if !cert_verifies(alloc, known, item)? {
            return Ok(false);
        }
    }
    Ok(true)
}

/// Whether the rule on user 0's signatures holds.
#[tactic(auto, unfolding(crate::specs::FirstBroken::super_signature))]
fn super_signature<A: Allocator + Copy>(
    alloc: A,
    known: &Known<'_, A>,
    reply: &Reply<A>,
) -> Result<bool, Memory>
    ensures { IfOk result (λ holds. holds ≡ super_signature known.now.pinned reply.now) }
{
    Ok(
        structures_verify(alloc, known, reply.structures())?
            && certs_verify(alloc, known, reply.pending())?,
    )
}

/// The first of the rules on the reply itself that it breaks, for a client that knows this.
#[tactic(auto, unfolding(crate::specs::FirstBroken::of_reply))]
fn broken_alone<A: Allocator + Copy>(
    alloc: A,
    known: &Known<'_, A>,
    reply: &Reply<A>,
) -> Result<Option<Rule>, Memory>
    ensures first { IfOk result (λ rule. rule ≡ of_reply known.now reply.now) }
    // Then something is pending.
    ensures pending { IfOk result (λ rule. rule ≡ None → IsSome (lists_of reply.now)) }
    ensures lists { IfOk result (λ rule. rule ≡ None → lists reply.now ≡ true) }
    ensures signed { IfOk result (λ rule. rule ≡ None → super_signature known.now.pinned reply.now ≡ true) }
{
    if !lists_hold(reply) {
        return Ok(Some(Rule::Lists));
    }
    if !own_last(alloc, known, reply)? {
        return Ok(Some(Rule::OwnLast));
    }
    if !own_pending(alloc, known, reply)? {
        return Ok(Some(Rule::OwnPending));
    }
    if !super_signature(alloc, known, reply)? {
        return Ok(Some(Rule::SuperSignature));
    }
    Ok(None)
}

/// Reads and judges the bytes of a reply by the rules on the reply itself: the reply, or the first of them that it
/// breaks.
#[tactic(auto, unfolding(crate::specs::FirstBroken::reply_breaks))]
pub fn judge<A: Allocator + Copy>(
    alloc: A,
    known: &Known<'_, A>,
    text: &[u8],
) -> Result<Result<Admitted<A>, Rule>, Memory>
    ensures broken { IfOk result (λ judged. IfErr judged (λ rule. reply_breaks known.now text.now ≡ Some rule)) }
    ensures accepted { IfOk result (λ judged. OnOk judged (reply_breaks known.now text.now ≡ None)) }
    ensures read { IfOk result (λ judged. IfOk judged (λ r. reply_in text.now ≡ Some r)) }
{
    let reply = match Reply::read(alloc, text) {
        Ok(reply) => reply,
        Err(ReadError::Memory) => return Err(Memory),
        Err(_) => return Ok(Err(Rule::Form)),
    };
    match broken_alone(alloc, known, &reply)? {
        Some(rule) => Ok(Err(rule)),
        None => Ok(Ok(Admitted::new(*known.pinned(), reply))),
    }
}
