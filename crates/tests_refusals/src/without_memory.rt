//! What takes no memory, done while all of it is refused.

use crate::clients::{HeapClient, closed, committed};
use crate::courses::{after, keys_of};
use crate::here::Here;
use crate::meter::Heap;
use crate::plans::{the_group, user_of};
use crate::stored::Host;
use block_store::Store;
use client_verify::Phase;
use layout::digest;
use lms_sign::{Leaf, PrivateKey, PublicKey, burn, sign, verify};
use tests_aids::{Aided, check, found, given};
use tests_refusing::Refusing;
use tree_parts::Blocks;
use version_order::{below, depth};
use wire::Status;

/// User 1 is listed, a member of a group, and has declared its first operation. User 0 has signed its second one.
const BEFORE: &[u8] = b"+1 j1 b0 u0 c0 b0 u0 m1one b1";

/// The SHA-256 of `abc` (FIPS 180-4's own example).
const OF_ABC: [u8; 32] = *b"\xba\x78\x16\xbf\x8f\x01\xcf\xea\x41\x41\x40\xde\x5d\xae\x22\x23\
    \xb0\x03\x61\xa3\x96\x17\x7a\x9c\xb4\x10\xff\x61\xf2\x00\x15\xad";

/// The statuses that leave what is signed uncommitted.
const NOT_OK: &[Status] = &[
    Status::Form,
    Status::UnknownUser,
    Status::BadSignature,
    Status::WrongNumber,
    Status::NotPending,
    Status::Busy,
    Status::TooLarge,
    Status::Absent,
    Status::Memory,
];

/// User 0's view: who has which key, who is a member, and how deep its one structure is.
fn shows_view(rt: &impl Aided, client: &HeapClient<'_>, pinned: PublicKey) {
    if !client.has_view() {
        rt.fail("no view");
    }
    let (zero, one, group) = (user_of(rt, b'0'), user_of(rt, b'1'), the_group(rt));
    let table = client.table();
    check(rt, table.key_of(zero) == Some(pinned), "user 0's key");
    check(rt, table.is_member(group, one, 1), "a member");
    check(rt, !table.is_member(group, zero, 1), "no member");
    check(rt, client.lost().is_empty(), "nothing is lost");
    let [structure] = client.structures() else {
        rt.fail("not one structure");
    };
    let plan = structure.value.plan();
    check(rt, depth(plan) == 2, "its depth");
    check(rt, below(plan, plan), "no component falls");
}

/// User 0's client shows what it signed.
fn shows_signed(rt: &impl Aided, client: &HeapClient<'_>) {
    if client.phase() != Phase::Signed {
        rt.fail("nothing is signed");
    }
    check(rt, client.signed().starts_with(b"SVS1"), "a structure");
    check(rt, client.number() == 2, "its number");
    check(rt, client.user() == user_of(rt, b'0'), "whose it is");
    let unknown = client.blocks().get(digest(b"abc"));
    check(rt, unknown.is_none(), "a block that it doesn't know");
}

/// It has one key, of whose 1,024 leaves four are used.
fn shows_leaves(rt: &impl Aided, client: &HeapClient<'_>) {
    if client.phase() != Phase::Signed {
        rt.fail("nothing is signed");
    }
    client.type_invariant();
    check(rt, client.key_count() == 1, "one key");
    check(rt, client.free_leaves() == 1_020, "its leaves");
    check(rt, client.free_leaves_of(0) == 1_020, "the first key's");
}

/// And its devices.
fn shows_devices(rt: &impl Aided, client: &HeapClient<'_>) {
    client.type_invariant();
    check(rt, client.ledger_of(0).text().len() == 1_080, "its ledger");
    check(rt, client.journal().text().len() > 5_000, "its journal");
}

/// The answer to its commit is none of these.
fn takes_no_other(rt: &impl Aided, client: &mut HeapClient<'_>) {
    for status in NOT_OK {
        if client.phase() != Phase::Signed {
            rt.fail("nothing is signed any more");
        }
        client.on_committed(*status);
    }
}

/// It waits for no block, keeps fewer of them, and takes the answer to its commit.
fn goes_on(rt: &impl Aided, client: &mut HeapClient<'_>) {
    let rests = !client.wants() && !client.ready() && !client.looking();
    check(rt, rests, "at rest");
    client.cache(1);
    client.cache(4_096);
    takes_no_other(rt, client);
    committed(rt, client);
    check(rt, client.phase() == Phase::Idle, "it is over");
}

/// User 1's client shows what it declared.
fn shows_declared(rt: &impl Aided, client: &HeapClient<'_>) {
    if client.phase() != Phase::Declared {
        rt.fail("nothing is declared");
    }
    check(rt, client.declared().starts_with(b"SUC1"), "a certificate");
    check(rt, client.declared_by() == Some(0), "its first key's");
}

/// The digest of a text, and a public key and its bytes.
fn is_named(rt: &impl Aided, public: PublicKey) {
    check(rt, digest(b"abc").as_bytes() == &OF_ABC, "a digest");
    let bytes = *public.as_bytes();
    check(rt, PublicKey::from_bytes(bytes) == Some(public), "the key");
    check(rt, PublicKey::from_bytes([0; 56]).is_none(), "no key");
}

/// A leaf tells its number and its key, and does so once it is spent.
fn is_told(rt: &impl Aided, public: PublicKey) {
    let leaf = Leaf::issue(&public, 2);
    let (number, key) = (leaf.number(), leaf.key());
    let spent = burn(leaf);
    let (spent_number, spent_key) = (spent.number(), spent.key());
    spent.end();
    check(rt, number == 2 && spent_number == 2, "its number");
    check(rt, key == public && spent_key == public, "its key");
}

/// A key signs, what it signs verifies, and a leaf is burned.
fn signs(rt: &impl Aided, key: &PrivateKey<Heap<'_>>) {
    if !key.has_leaf(0) {
        rt.fail("a leaf that can't sign");
    }
    let public = key.public();
    let (signature, spent) = sign(key, Leaf::issue(&public, 0), b"text");
    spent.end();
    check(rt, verify(&public, b"text", &signature), "it verifies");
    burn(Leaf::issue(&public, 1)).end();
}

/// A store of one block gives it by its pass and by its number, while memory is refused.
fn is_read<R: Host>(rt: &R, heap: Heap<'_>) {
    let host = &(rt, Here);
    let store = given(host, Store::new(heap), "memory");
    let pass = given(host, store.put(rt, b"block"), "memory");
    heap.refuse_all();
    let block = store.get_by_pass(&pass);
    check(host, block == b"block".as_slice(), "by its pass");
    match store.get_at(0) {
        Some((_pass, block)) => check(host, block == b"block".as_slice(), "by its number"),
        None => host.fail("no block"),
    }
    check(host, store.put(rt, b"another").is_err(), "no memory");
    heap.refuse(0);
}

#[test]
fn what_takes_no_memory_is_done_without(rt: HostRuntime) {
    let host = &(&rt, Here);
    let heap = Refusing::new(rt.alloc());
    is_read(&rt, &heap);
    let mut keys = keys_of(host, &heap, 2);
    let key = found(host, keys.first(), "a key");
    let pinned = key.public();
    heap.refuse_all();
    signs(host, key);
    is_named(host, pinned);
    is_told(host, pinned);
    heap.refuse(0);
    let mut clients = after(host, &heap, &mut keys, BEFORE);
    heap.refuse_all();
    let client = found(host, clients.first_mut(), "user 0");
    shows_signed(host, client);
    shows_leaves(host, client);
    shows_devices(host, client);
    shows_view(host, client, pinned);
    goes_on(host, client);
    shows_declared(host, found(host, clients.last(), "user 1"));
    let last = found(host, clients.pop(), "user 1");
    let key = closed(host, last);
    check(host, key.public() != pinned, "its own key");
    heap.refuse(0);
}
