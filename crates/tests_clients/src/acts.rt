//! What a script has a client do, and what comes of it, told as a text: `accepted`, the name of the rule that is
//! broken, `need` and the digest of the block that is asked for, or what a look sees.

use crate::reopening::{error_name, now, view};
use crate::words::{ByHand, byte, letter_of, push, put_text, short, text_at, two_bytes};
use client_tree::Held;
use client_verify::{ClientError, Look, Rule, SeenKind, Step};
use directory::Directory;
use layout::{Digest, let_go, put_in};
use std::alloc::Global;
use tests_aids::blocks::HELLO;
use tests_aids::numbers::{i_number, principal};
use tests_aids::texts::{changed, joined};
use tests_aids::{Host, check};
use tests_client_aids::changes::{Planned, nothing};
use tests_client_aids::clients::{
    MemoryClient, begun, declaring_key, end, give, hand, leaves_left, look_at, signed,
    signed_again, step_on,
};
use tree_parts::Blocks;
use wire::Status;

/// How many blocks are handed in at most for one reply or one look.
const BOUND: usize = 2000;

/// What stands beside the clients: the texts made by hand, the stored blocks, and the changes of the next operation
/// that is declared.
#[derive(Drop)]
pub(crate) struct Stage {
    pub(crate) by_hand: ByHand,
    pub(crate) store: Held<Global>,
    pub(crate) planned: Planned,
    /// Whether the store hands in something else before each block.
    pub(crate) is_hostile: bool,
}

/// Stores a copy of each text.
pub(crate) fn keep_each(rt: &impl Host, store: &mut Held<Global>, texts: &[Vec<u8>]) {
    for text in texts {
        let _digest = store.keep(joined(rt, &[text])).expect(rt, "memory");
    }
}

/// The name of a rule.
fn name_of(rule: Rule) -> &'static [u8] {
    match rule {
        Rule::Form => b"Form",
        Rule::Lists => b"Lists",
        Rule::OwnLast => b"OwnLast",
        Rule::OwnPending => b"OwnPending",
        Rule::SuperSignature => b"SuperSignature",
        Rule::Block => b"Block",
        Rule::Content => b"Content",
        Rule::UnknownUser => b"UnknownUser",
        Rule::Signature => b"Signature",
        Rule::Certificate => b"Certificate",
        Rule::Numbers => b"Numbers",
        Rule::Vector => b"Vector",
        Rule::Entries => b"Entries",
        Rule::Link => b"Link",
        Rule::GroupRecord => b"GroupRecord",
    }
}

/// The block that is asked for.
fn need_told(rt: &impl Host, digest: Digest) -> Vec<u8> {
    joined(rt, &[b"need", digest.as_bytes()])
}

/// What comes of a reply or of a block that was handed in. New texts are stored, and listed, each after its size.
fn step_told(
    rt: &impl Host,
    store: &mut Held<Global>,
    list: &mut Vec<u8>,
    step: Step<Global>,
) -> Vec<u8> {
    match step {
        Step::Need(digest) => need_told(rt, digest),
        Step::Store(texts) => {
            push(rt, list, &[(texts.len() % 256) as u8]);
            list_each(rt, list, &texts);
            store.keep_all(texts).expect(rt, "memory");
            joined(rt, &[b"accepted"])
        }
        Step::Broken(rule) => joined(rt, &[name_of(rule)]),
    }
}

/// Lists texts, each after its size.
fn list_each(rt: &impl Host, list: &mut Vec<u8>, texts: &[Vec<u8>]) {
    for text in texts {
        push(rt, list, &two_bytes(text.len()));
        push(rt, list, text);
    }
}

/// Of which kind and size something is.
fn kind_told(rt: &impl Host, kind: SeenKind) -> Vec<u8> {
    match kind {
        SeenKind::Nothing => joined(rt, &[b"nothing", &0u32.to_be_bytes()]),
        SeenKind::File(size) => joined(rt, &[b"file", &size.to_be_bytes()]),
        SeenKind::Directory(size) => joined(rt, &[b"directory", &size.to_be_bytes()]),
    }
}

/// The entries of a directory.
fn directory_told(rt: &impl Host, directory: &Directory<Global>) -> Vec<u8> {
    let mut told = joined(rt, &[b"directory"]);
    for entry in directory.entries() {
        let target = entry.target();
        push(rt, &mut told, entry.name().as_bytes());
        push(rt, &mut told, &[target.principal.get()]);
        push(rt, &mut told, &target.i_number.get().to_be_bytes());
    }
    told
}

/// What a look sees.
fn look_told(rt: &impl Host, look: &Look<Global>) -> Vec<u8> {
    match look {
        Look::Need(digest) => need_told(rt, *digest),
        Look::File(bytes) => joined(rt, &[b"file", bytes]),
        Look::Kind(kind) => kind_told(rt, *kind),
        Look::Free(Some(free)) => joined(rt, &[b"free", &free.get().to_be_bytes()]),
        Look::Free(None) => joined(rt, &[b"full"]),
        Look::None => joined(rt, &[b"nothing"]),
        Look::Dir(directory) => directory_told(rt, directory),
        Look::Broken(rule) => joined(rt, &[name_of(*rule)]),
    }
}

/// What is handed in for the block that a reply or a look asks for breaks the rule on blocks.
fn breaks(rt: &impl Host, client: &mut MemoryClient, block: Option<&[u8]>, is_look: bool) {
    let is_broken = if is_look {
        let look = give(rt, client, block);
        let is_broken = matches!(look, Look::Broken(Rule::Block));
        let_go(look);
        is_broken
    } else {
        matches!(hand(rt, client, block), Step::Broken(Rule::Block))
    };
    check(rt, is_broken, "a block of a hostile store");
}

/// A hostile store first hands in nothing, the block without its last byte, the block with its last bit changed, and
/// another block.
fn betray(rt: &impl Host, client: &mut MemoryClient, block: Option<&[u8]>, is_look: bool) {
    let block = block.expect(rt, "a stored block");
    let cut = &block[..block.len().saturating_sub(1)];
    let flipped = changed(rt, block);
    breaks(rt, client, None, is_look);
    breaks(rt, client, Some(cut), is_look);
    breaks(rt, client, Some(&flipped), is_look);
    breaks(rt, client, Some(HELLO), is_look);
}

/// Hands a reply in, and each block that it asks for.
fn hear(
    rt: &impl Host,
    client: &mut MemoryClient,
    store: &mut Held<Global>,
    lists: &mut Lists,
    reply: &[u8],
) -> Vec<u8> {
    let mut step = step_on(rt, client, reply);
    for _ in 0..BOUND {
        let Step::Need(digest) = step else {
            return step_told(rt, store, &mut lists.new, step);
        };
        push(rt, &mut lists.asked, digest.as_bytes());
        if lists.is_hostile {
            betray(rt, client, store.get(digest), false);
        }
        put_in(&mut step, hand(rt, client, store.get(digest)));
    }
    panic!(rt; "too many blocks")
}

/// Goes on with a look that was begun, through which the stored blocks are handed in.
pub(crate) fn see(
    rt: &impl Host,
    client: &mut MemoryClient,
    store: &Held<Global>,
    lists: &mut Lists,
    begun: Look<Global>,
) -> Vec<u8> {
    let mut look = begun;
    for _ in 0..BOUND {
        let told = look_told(rt, &look);
        let Look::Need(digest) = look else {
            let_go(look);
            return told;
        };
        push(rt, &mut lists.asked, digest.as_bytes());
        if lists.is_hostile {
            betray(rt, client, store.get(digest), true);
        }
        let next = give(rt, client, store.get(digest));
        let_go(look);
        look = next;
    }
    panic!(rt; "too many blocks")
}

/// Begins a look at an i-number of a principal (`l`), at its kind (`w`), or for the least i-number from it up to
/// another at which nothing stands (`v`).
fn begin_look(
    rt: &impl Host,
    client: &mut MemoryClient,
    verb: u8,
    words: &[&[u8]],
) -> Look<Global> {
    let [owner, first, rest @ ..] = words else {
        panic!(rt; "at what");
    };
    let (owner, first) = (byte(owner), short(first));
    match (verb, rest) {
        (b'v', [last, ..]) => begin_free(rt, client, owner, first, short(last)),
        (b'w', _) => begin_kind(rt, client, owner, first),
        _ => look_at(rt, client, owner, first),
    }
}

/// Begins a look at the kind of what stands at an i-number.
fn begin_kind(rt: &impl Host, client: &mut MemoryClient, owner: u8, at: u16) -> Look<Global> {
    let (owner, at) = (principal(rt, owner), i_number(rt, at));
    assert!(rt; client.has_view());
    client.kind(owner, at).expect(rt, "memory")
}

/// Begins a look for the least i-number at which nothing stands.
fn begin_free(
    rt: &impl Host,
    client: &mut MemoryClient,
    owner: u8,
    first: u16,
    last: u16,
) -> Look<Global> {
    let (owner, first, last) = (
        principal(rt, owner),
        i_number(rt, first),
        i_number(rt, last),
    );
    assert!(rt; client.has_view() && first.get() <= last.get());
    client.free(owner, first, last).expect(rt, "memory")
}

/// What the client answers to the declaration of its operation of the changes that were planned. What was laid out for
/// them is stored.
fn declare(
    rt: &impl Host,
    client: &mut MemoryClient,
    stage: &mut Stage,
) -> Result<Vec<u8>, ClientError> {
    let Stage { store, planned, .. } = stage;
    keep_each(rt, store, &planned.laid);
    let answer = begun(rt, client, &planned.changes, &planned.laid);
    put_in(planned, nothing(rt));
    answer
}

/// By which of its keys the client signed what it has declared, if by one, how many keys it has, and how many leaves of
/// the newest aren't used.
fn keys_told(rt: &impl Host, client: &MemoryClient) -> Vec<u8> {
    let mut told = Vec::new(rt.alloc());
    if let Some(key) = declaring_key(rt, client) {
        push(rt, &mut told, &[(key % 256) as u8]);
    }
    push(rt, &mut told, &[(client.key_count() % 256) as u8]);
    push(rt, &mut told, &leaves_left(rt, client).to_be_bytes());
    told
}

/// What was asked for, as digests, and what was new, each text after its size.
#[derive(Drop)]
pub(crate) struct Lists {
    pub(crate) asked: Vec<u8>,
    new: Vec<u8>,
    is_hostile: bool,
}

/// Nothing was asked for or new.
pub(crate) fn no_lists(rt: &impl Host, is_hostile: bool) -> Lists {
    let (asked, new) = (Vec::new(rt.alloc()), Vec::new(rt.alloc()));
    Lists {
        asked,
        new,
        is_hostile,
    }
}

/// What a client makes of a reply, of a block, or of a look. Text Z has the digests of the blocks that are asked for,
/// and text Y the new texts.
fn judge(
    rt: &impl Host,
    client: &mut MemoryClient,
    stage: &mut Stage,
    verb: u8,
    words: &[&[u8]],
) -> Vec<u8> {
    let mut lists = no_lists(rt, stage.is_hostile);
    let Stage { by_hand, store, .. } = stage;
    let told = match words {
        [of] => judge_text(rt, client, store, &mut lists, verb, handed(rt, by_hand, of)),
        _ => {
            let begun = begin_look(rt, client, verb, words);
            see(rt, client, store, &mut lists, begun)
        }
    };
    let Lists { asked, new, .. } = lists;
    put_text(rt, &mut by_hand.texts, b'Z', asked);
    put_text(rt, &mut by_hand.texts, b'Y', new);
    told
}

/// What is handed in, unless it is nothing.
fn handed<'a>(rt: &impl Host, by_hand: &'a ByHand, word: &[u8]) -> Option<&'a [u8]> {
    match letter_of(word) {
        b'-' => None,
        letter => Some(text_at(rt, &by_hand.texts, letter)),
    }
}

/// What a client makes of a reply with the stored blocks (`h`), of a reply alone (`a`), or of a block, or none.
fn judge_text(
    rt: &impl Host,
    client: &mut MemoryClient,
    store: &mut Held<Global>,
    lists: &mut Lists,
    verb: u8,
    text: Option<&[u8]>,
) -> Vec<u8> {
    let step = match (verb, text) {
        (b'h', Some(reply)) => return hear(rt, client, store, lists, reply),
        (b'a', Some(reply)) => step_on(rt, client, reply),
        (_, block) => hand(rt, client, block),
    };
    step_told(rt, store, &mut lists.new, step)
}

/// A client acts: it declares (`d`), anew or by a key once more, signs (`i`), ends (`o`), tells of itself (`n`, `q`, and
/// `w` alone), or judges.
pub(crate) fn client_acts(
    rt: &impl Host,
    client: &mut MemoryClient,
    stage: &mut Stage,
    verb: u8,
    words: &[&[u8]],
) -> Vec<u8> {
    let letter = match words {
        [name, ..] => letter_of(name),
        _ => 0,
    };
    let answer = match verb {
        b'd' => match words {
            [_, key] => signed_again(rt, client, usize::from(byte(key))),
            _ => declare(rt, client, stage),
        },
        b'i' => signed(rt, client),
        b'w' if words.is_empty() => return keys_told(rt, client),
        b'n' => return now(rt, client, &mut stage.by_hand.texts, letter),
        b'q' => return view(rt, client, &mut stage.by_hand.texts, letter),
        b'o' => return ended(rt, client),
        _ => return judge(rt, client, stage, verb, words),
    };
    match answer {
        Ok(text) => put_text(rt, &mut stage.by_hand.texts, letter, text),
        Err(error) => return error_name(rt, error),
    }
    Vec::new(rt.alloc())
}

/// The server's answer to the signed structure was that it is committed.
fn ended(rt: &impl Host, client: &mut MemoryClient) -> Vec<u8> {
    end(rt, client, Status::Ok);
    Vec::new(rt.alloc())
}
