//! The i-tables at the beginning.

ghost use Rattle.std.specs.Prelude.{◌≡◌, ◌∷◌, [], IfOk, length, map};
ghost use Rattle.std.specs.Vec.{vec_items};
ghost use Rattle.itable.specs.declared.inode.Kind.TheVariants as kind;
ghost use Rattle.itable.specs.Inode.{inode};
ghost use Rattle.directory.specs.Directory.{directory};
ghost use Rattle.client_tree.specs.Genesis.{table_text, inode_digest, table_inode, root_inode, first_pairs};
ghost use Rattle.client_tree.specs.Genesis.{first_table, first_table_texts, first_handle, common_texts, first_blocks};
ghost use Rattle.client_tree.specs.Held.{keeping_all};

use crate::held::Held;
use directory::Directory;
use itable::{ITable, Inode};
use layout::{Digest, INumber, Memory, Principal, Text, User, Writer, digest};
use lms_sign::Key;
use std::alloc::Allocator;

/// The text of the table of principals, under the key of user 0.
#[tactic(auto, unfolding(crate::specs::Genesis::table_text, layout::specs::Format::be))]
fn table_text<A: Allocator + Copy>(alloc: A, key: &Key) -> Result<Vec<u8, A>, Memory>
    ensures text { IfOk result (λ text. text.items ≡ table_text key.now) }
    ensures size { IfOk result (λ text. length text.items ≡ 68) }
{
    let mut writer = Writer::new(alloc);
    writer.tag(b"SPT1\x01\x00\x00\x00\x00\x00")?;
    writer.bytes(key)?;
    writer.u16(0)?;
    Ok(writer.finish())
}

/// The i-node of the table.
fn table_inode<A: Allocator + Copy>(alloc: A, key: &Key) -> Result<Inode<A>, Memory>
    ensures { IfOk result (λ inode. inode ≡ table_inode key.now) }
{
    let text = table_text(alloc, key)?;
    Inode::of_file(alloc, &text)
}

/// The text of the table's i-node.
fn table_inode_text<A: Allocator + Copy>(alloc: A, key: &Key) -> Result<Vec<u8, A>, Memory>
    ensures { IfOk result (λ text. text.items ≡ inode.spell (table_inode key.now)) }
{
    table_inode(alloc, key)?.text(alloc)
}

/// The text of the empty directory.
fn root_text<A: Allocator + Copy>(alloc: A) -> Result<Vec<u8, A>, Memory>
    ensures { IfOk result (λ text. text.items ≡ directory.spell []) }
{
    Directory::empty(alloc).text(alloc)
}

/// The i-node of the root directory.
#[tactic(auto, unfolding(layout::specs::Format::be, layout::specs::Format::spell_rows))]
fn root_inode<A: Allocator + Copy>(alloc: A) -> Result<Inode<A>, Memory>
    ensures { IfOk result (λ inode. inode ≡ root_inode) }
{
    let text = root_text(alloc)?;
    Inode::of_directory(alloc, &text)
}

/// The text of the root directory's i-node.
fn root_inode_text<A: Allocator + Copy>(alloc: A) -> Result<Vec<u8, A>, Memory>
    ensures { IfOk result (λ text. text.items ≡ inode.spell root_inode) }
{
    root_inode(alloc)?.text(alloc)
}

/// The digest of the i-node of the empty directory.
pub fn root_digest<A: Allocator + Copy>(alloc: A) -> Result<Digest, Memory>
    ensures { IfOk result (λ digest. digest ≡ inode_digest root_inode) }
{
    let text = root_inode_text(alloc)?;
    Ok(digest(&text))
}

/// What user 0 has: the table and the root directory.
fn superusers_table<A: Allocator + Copy>(alloc: A, key: &Key) -> Result<ITable<A>, Memory>
    ensures { IfOk result (λ table. table ≡ record { principal = 0; pairs = first_pairs key.now; unloaded = [] }) }
{
    let table_digest = digest(&table_inode_text(alloc, key)?);
    let root_digest = root_digest(alloc)?;
    let mut table = ITable::empty(alloc, Principal::from(User::superuser()));
    table.set(INumber::table(), table_digest)?;
    table.set(INumber::root(), root_digest)?;
    Ok(table)
}

/// The i-table of a principal at the beginning, where user 0 has this key.
fn first_table<A: Allocator + Copy>(
    alloc: A,
    principal: Principal,
    key: &Key,
) -> Result<ITable<A>, Memory>
    ensures { IfOk result (λ table. table ≡ first_table principal key.now) }
{
    if principal.get() == 0 {
        superusers_table(alloc, key)
    } else {
        Ok(ITable::empty(alloc, principal))
    }
}

/// The handle of a principal's i-table at the beginning, where user 0 has this key.
pub(crate) fn first_handle<A: Allocator + Copy>(
    alloc: A,
    principal: Principal,
    key: &Key,
) -> Result<Digest, Memory>
    ensures { IfOk result (λ handle. handle ≡ first_handle principal key.now) }
{
    let mut table = first_table(alloc, principal, key)?;
    table.handle(alloc)
}

/// The texts by which a principal's i-table is stored at the beginning.
fn first_table_texts<A: Allocator + Copy>(
    alloc: A,
    key: &Key,
    principal: Principal,
) -> Result<Vec<Vec<u8, A>, A>, Memory>
    ensures { IfOk result (λ texts. map vec_items texts.items ≡ first_table_texts key.now principal) }
{
    let mut table = first_table(alloc, principal, key)?;
    table.texts(alloc)
}

/// The table of principals of the beginning with its i-node, and the empty directory with its.
fn common_blocks<A: Allocator + Copy>(alloc: A, key: &Key) -> Result<Held<A>, Memory>
    ensures { IfOk result (λ blocks. blocks ≡ keeping_all [] (common_texts key.now)) }
{
    let mut blocks = Held::empty(alloc);
    blocks.keep(table_text(alloc, key)?)?;
    blocks.keep(table_inode_text(alloc, key)?)?;
    blocks.keep(root_text(alloc)?)?;
    blocks.keep(root_inode_text(alloc)?)?;
    Ok(blocks)
}

/// The blocks of the beginning that each client holds, where user 0 has this key. The error is Memory.
pub fn first_blocks<A: Allocator + Copy>(alloc: A, key: &Key) -> Result<Held<A>, Memory>
    ensures { IfOk result (λ blocks. blocks ≡ first_blocks key.now) }
{
    let mut blocks = common_blocks(alloc, key)?;
    for number in 0..96 {
        let Some(principal) = Principal::new(number) else {
            unreachable!()
        };
        blocks.keep_all(first_table_texts(alloc, key, principal)?)?;
    }
    Ok(blocks)
}
