//! What the own operation makes of the tree, and what is told of it, as far as the blocks that are held tell it.

ghost use Rattle.std.specs.Prelude.{◌≡◌, ◌≤◌, ◌<◌, None, IfOk, IsSomeAnd};
ghost use Rattle.std.specs.List.{All};
ghost use Rattle.reply_rules.specs.Lists.{lists_of};
ghost use Rattle.tree_parts.specs.declared.error.ApplyError.TheVariants as apply_error;
ghost use Rattle.layout.specs.Hash.{hash};
ghost use Rattle.checked_blocks.specs.CheckedBlocks.{holding, known_blocks};
ghost use Rattle.version_order.specs.Vector.{version_of};
ghost use Rattle.reply_check.specs.FirstBroken.{lists_break, view_over};
ghost use Rattle.reply_check.specs.Good.{record_over, view_of};
ghost use Rattle.reply_check.specs.Reached.{CountsRaised, IsAnswer, IsMade, IsRaisedIn, IsReached, IsWritten};

use crate::asked::Asked;
use crate::by_table::lists_broken;
use crate::good::Good;
use crate::known::Known;
use crate::lists::{Admitted, Lists};
use checked_blocks::{CheckedBlocks, With};
use client_tree::{Answer, PendingTable, Question, Stored, View, table_of};
use layout::{Digest, Group, Memory, Version};
use lms_sign::PublicKey;
use pending_list::table_version;
use principals::Table;
use reply_rules::Rule;
use std::alloc::Allocator;
use tree_parts::{ApplyError, Blocks};
use update_cert::Voids;
use version_order::{GroupRecord, Plan};

/// What the own operation makes of the parts that it may change, or the block that is wanted to tell it.
#[derive(Drop)]
pub enum Written<A: Allocator> {
    /// This block is wanted.
    Lacks(Asked),
    /// It makes this of them.
    Parts(Made<A>),
}

/// What the own operation makes.
#[derive(Drop)]
pub struct Made<A: Allocator> {
    /// The handle of the own part.
    pub handle: Digest,
    /// The records of the groups that it raises.
    pub records: Vec<GroupRecord, A>,
    /// The texts that are new, of the own part and of those of these groups.
    pub texts: Vec<Vec<u8, A>, A>,
    /// The changes that it loses.
    pub lost: Vec<u8, A>,
}

/// How far a reply comes that breaks none of the rules on itself.
#[derive(Drop)]
pub enum Reached<A: Allocator> {
    /// This block is wanted to read the table of principals.
    Lacks(Asked),
    /// The lists break this rule by the table.
    Breaks(Rule),
    /// They break none by this table.
    BreaksNone(PendingTable<A>, Written<A>),
}

/// The answer to a question, or the block that is wanted to tell it.
#[derive(Drop)]
pub enum Shown<A: Allocator> {
    /// This block is wanted.
    Lacks(Asked),
    /// This is the answer.
    Tells(Answer<A>),
}

/// The block that is missing.
fn wanted(error: ApplyError) -> Result<Asked, Memory>
    ensures { IfOk result (λ a. error ≡ apply_error.Missing a.digest a.spot) }
{
    match error {
        ApplyError::Missing(digest, spot) => Ok(Asked { digest, spot }),
        ApplyError::Memory => Err(Memory),
    }
}

/// The record of a group's part, as it is stored, after an operation over this plan that raised the group.
fn record_over<A: Allocator>(plan: &Plan<A>, part: &Stored<A>) -> GroupRecord
    requires low { 64 ≤ part.now.principal }
    requires high { part.now.principal < 96 }
    requires raised { 0 < version_of part.now.principal plan.now.vector }
    ensures { result ≡ record_over plan.now part.now }
{
    let Some(group) = Group::new(part.principal.get()) else {
        unreachable!()
    };
    let Some(version) = Version::new(plan.vector().version_of(part.principal)) else {
        unreachable!()
    };
    GroupRecord {
        group,
        version,
        table: table_version(plan),
        handle: part.handle,
    }
}

/// What the own operation makes of the own part and of these parts of groups.
fn gather<A: Allocator + Copy>(
    alloc: A,
    plan: &Plan<A>,
    own: Stored<A>,
    groups: Vec<Stored<A>, A>,
    lost: Vec<u8, A>,
) -> Result<Made<A>, Memory>
    requires { All (IsRaisedIn plan.now) groups.items }
    ensures made { IfOk result (IsMade plan.now own groups.items) }
    ensures lost { IfOk result (λ m. m.lost.items ≡ lost.items) }
{
    let mut texts = own.texts;
    let mut records = Vec::new(alloc);
    for group in groups {
        records.push(record_over(plan, &group))?;
        let mut more = group.texts;
        texts.append(&mut more)?;
    }
    Ok(Made {
        handle: own.handle,
        records,
        texts,
        lost,
    })
}

/// What the own operation makes of the tree of a view, where these of its changes have no effect on the table.
fn write_in<A: Allocator + Copy, B: Blocks>(
    alloc: A,
    view: &View<'_, A>,
    voids: &Voids<A>,
    plan: &Plan<A>,
    blocks: &B,
) -> Result<Written<A>, Memory>
    requires plan { plan.now ≡ view.now.own.plan }
    requires raised { CountsRaised view.now }
    ensures { IfOk result (λ written. IsWritten (B.held blocks.now) view.now voids.now written) }
{
    match view.outcome(alloc, blocks, voids) {
        Ok(outcome) => {
            let mut parts = outcome.parts;
            // The own part comes first.
            let own = parts.remove(0);
            Ok(Written::Parts(gather(alloc, plan, own, parts, outcome.lost)?))
        }
        Err(error) => Ok(Written::Lacks(wanted(error)?)),
    }
}

/// What the own operation makes of the tree of good lists.
fn write<A: Allocator + Copy, B: Blocks>(
    alloc: A,
    pinned: &PublicKey,
    good: &Good<A>,
    blocks: &B,
) -> Result<Written<A>, Memory>
    ensures { IfOk result (λ written. IsWritten (B.held blocks.now) (view_of pinned.now good.now) good.now.void
        written) }
{
    let view = good.lists.view(pinned.as_bytes(), &good.table.table);
    write_in(
        alloc,
        &view,
        &good.table.voids,
        good.lists.own().plan(),
        blocks,
    )
}

/// The same, of a reply whose lists break no rule by this table.
fn write_reply<A: Allocator + Copy, B: Blocks>(
    alloc: A,
    pinned: &PublicKey,
    table: &PendingTable<A>,
    reply: &Admitted<A>,
    blocks: &B,
) -> Result<Written<A>, Memory>
    requires { IsSomeAnd (lists_of reply.now) (λ x. lists_break table.now.table x ≡ None) }
    ensures { IfOk result (λ written. IsSomeAnd (lists_of reply.now)
        (λ x. IsWritten (B.held blocks.now) (view_over pinned.now table.now.table x) table.now.voids written)) }
{
    let (own, _others) = reply.split();
    let view = reply.view(pinned.as_bytes(), &table.table);
    write_in(alloc, &view, &table.voids, own.plan(), blocks)
}

/// How far a reply comes that breaks none of the rules on itself, by these blocks.
pub fn reach<A: Allocator + Copy, B: Blocks>(
    alloc: A,
    known: &Known<'_, A>,
    reply: &Admitted<A>,
    blocks: &B,
) -> Result<Reached<A>, Memory>
    ensures { IfOk result (λ reached. IsSomeAnd (lists_of reply.now)
        (λ x. IsReached (B.held blocks.now) known.now.pinned x reached)) }
{
    let (own, others) = reply.split();
    let pinned = known.pinned();
    let key = pinned.as_bytes();
    let table = match table_of(alloc, blocks, key, reply.structures(), others, own) {
        Ok(table) => table,
        Err(error) => return Ok(Reached::Lacks(wanted(error)?)),
    };
    if let Some(rule) = lists_broken(alloc, known, &table.table, reply)? {
        return Ok(Reached::Breaks(rule));
    }
    let written = write_reply(alloc, pinned, &table, reply, blocks)?;
    Ok(Reached::BreaksNone(table, written))
}

/// The answer to a question about the tree of a view.
fn show_in<A: Allocator + Copy, B: Blocks>(
    alloc: A,
    view: &View<'_, A>,
    question: Question,
    blocks: &B,
) -> Result<Shown<A>, Memory>
    ensures { IfOk result (λ shown. IsAnswer (B.held blocks.now) view.now question shown) }
{
    match view.answer(alloc, blocks, question) {
        Ok(answer) => Ok(Shown::Tells(answer)),
        Err(error) => Ok(Shown::Lacks(wanted(error)?)),
    }
}

/// The answer to a question about the tree of these lists, by this table of principals.
pub fn show<A: Allocator + Copy, B: Blocks>(
    alloc: A,
    pinned: &PublicKey,
    table: &Table<A>,
    lists: &Lists<A>,
    question: Question,
    blocks: &B,
) -> Result<Shown<A>, Memory>
    ensures { IfOk result (λ shown. IsAnswer (B.held blocks.now) (view_over pinned.now table.now lists.now) question
        shown) }
{
    let view = lists.view(pinned.as_bytes(), table);
    show_in(alloc, &view, question, blocks)
}

/// The same as `write`, where one block more is held, whose digest was computed.
pub fn write_with<A: Allocator + Copy>(
    alloc: A,
    pinned: &PublicKey,
    good: &Good<A>,
    blocks: &CheckedBlocks<A>,
    digest: Digest,
    text: &[u8],
) -> Result<Written<A>, Memory>
    requires { digest ≡ hash text.now }
    ensures { IfOk result (λ written. IsWritten (known_blocks (holding blocks.now text.now))
        (view_of pinned.now good.now) good.now.void written) }
{
    let with = With::new(blocks, digest, text);
    write(alloc, pinned, good, &with)
}

/// The same as `reach`, where one block more is held, whose digest was computed.
pub fn reach_with<A: Allocator + Copy>(
    alloc: A,
    known: &Known<'_, A>,
    reply: &Admitted<A>,
    blocks: &CheckedBlocks<A>,
    digest: Digest,
    text: &[u8],
) -> Result<Reached<A>, Memory>
    requires { digest ≡ hash text.now }
    ensures { IfOk result (λ reached. IsSomeAnd (lists_of reply.now)
        (λ x. IsReached (known_blocks (holding blocks.now text.now)) known.now.pinned x reached)) }
{
    let with = With::new(blocks, digest, text);
    reach(alloc, known, reply, &with)
}

/// The same as `show`, where one block more is held, whose digest was computed.
pub fn show_with<A: Allocator + Copy>(
    alloc: A,
    pinned: &PublicKey,
    table: &Table<A>,
    lists: &Lists<A>,
    question: Question,
    blocks: &CheckedBlocks<A>,
    digest: Digest,
    text: &[u8],
) -> Result<Shown<A>, Memory>
    requires { digest ≡ hash text.now }
    ensures { IfOk result (λ shown. IsAnswer (known_blocks (holding blocks.now text.now))
        (view_over pinned.now table.now lists.now) question shown) }
{
    let with = With::new(blocks, digest, text);
    show(alloc, pinned, table, lists, question, &with)
}
