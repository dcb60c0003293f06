//! Each growth of what these rows do is refused, one a run, until a run meets no refusal.

use crate::beside::sweep_calls;
use crate::courses::{Course, story_of, sweep};
use crate::here::Here;
use crate::served::{COMMIT, REPLY_SIZE, UPDATE, first_calls, serve_blocks, serve_calls};
use crate::stored::sweep_blocks;
use consistency_server::CallKind;
use tests_aids::texts::{first_reply, joined};
use tests_aids::{Aided, check, check_text};

/// What a client keeps of blocks for later it goes without where memory runs out for it: these calls answer as always.
const KEEPS: &[u8] = b"brnlg";

/// A file of one block that is laid out has an i-node, too: of `begin` the digests of both are refused, and a copy of each.
const FILE: &[u8] = b"bbb";

/// The room of a cache takes five growths: of `begin` where it gets a block that was laid out, and of `on_block` where it
/// gets one that was read.
const ROOM_LAID: &[u8] = b"bbbbb";

const ROOM_READ: &[u8] = b"nnnnn";

/// So many blocks a client's cache may have at first.
const CACHED_AT_FIRST: usize = 1_024;

/// User 0's first operation, without changes.
static FIRST: Course = Course {
    users: 1,
    cached: CACHED_AT_FIRST,
    before: b"",
    moves: b"b0 u0 c0",
    seen: b"",
};

/// Users 1 and 2 are pending, each with a write on an own file. User 2 commits and user 0 reads, then user 1 commits
/// and user 0 reads: both writes both times.
static TWO_WRITERS: Course = Course {
    users: 3,
    cached: CACHED_AT_FIRST,
    before: b"+1 +2 b0 u0 c0 m1one b1 u1 c1 m2two b2 u2 c2",
    moves: b"p1uno b1 p2due b2 u1 u2 c2 b0 u0 c0 l01 l02 c1 b0 u0 c0 l01 l02",
    seen: b"unodueunodue",
};

/// A member declares that it puts a file, and is dropped before that is placed: the change is lost.
static DROPPED_MEMBER: Course = Course {
    users: 2,
    cached: CACHED_AT_FIRST,
    before: b"",
    moves: b"+1 j1 b0 u0 c0 mgold b1 u1 c1 pgnew b1 d1 b0 u0 c0 u1 c1 l1g",
    seen: b"1old",
};

/// A text has the size that the front of its frame tells, which counts a byte more.
fn is_framed(rt: &impl Aided, text: &[u8], front: &[u8]) {
    let size = text.len().wrapping_add(1).to_be_bytes();
    check(rt, front.get(..4) == size.get(4..), "its frame's size");
}

/// User 0's first operation comes to what is made by hand, of the sizes that the formats tell.
#[test]
fn the_first_operation_is_as_made_by_hand(rt: HostRuntime) {
    let host = &(&rt, Here);
    let story = story_of(host, &FIRST);
    let (update, commit) = first_calls(host);
    let reply = first_reply(host, &update);
    is_framed(host, &update, UPDATE);
    is_framed(host, &commit, COMMIT);
    check(
        host,
        reply.len().wrapping_add(1) == REPLY_SIZE,
        "the reply's",
    );
    let begins = update.starts_with(b"SUC1\0\0\0\0\x01");
    check(host, begins, "user 0's first certificate");
    check_text(
        host,
        &story.said,
        &joined(host, &[&update, &reply, &commit]),
    );
    let [declared, committed] = story.calls.as_slice() else {
        host.fail("not two calls");
    };
    check(host, declared.kind() == CallKind::Update, "it is declared");
    check_text(host, declared.text(), &update);
    check(
        host,
        committed.kind() == CallKind::Commit,
        "it is committed",
    );
    check_text(host, committed.text(), &commit);
}

/// How many growths of the server's calls of a course are refused: after status 9 who comes next is answered as if the
/// call hadn't come.
fn traceless(rt: &impl Aided, course: &Course) -> u64 {
    let story = story_of(rt, course);
    sweep_calls(rt, course.users, &story.calls)
}

#[test]
fn status_nine_leaves_no_trace(rt: HostRuntime) {
    let host = &(&rt, Here);
    let found = [
        traceless(host, &FIRST),
        traceless(host, &TWO_WRITERS),
        traceless(host, &DROPPED_MEMBER),
    ];
    if found != [21, 143, 86] {
        host.fail(format_args!("{found:?}"));
    }
}

#[test]
fn each_growth_refused_first_operation(rt: HostRuntime) {
    let rt = &(rt, Here);
    sweep(rt, &FIRST).is(rt, 112, 0, b"");
}

#[test]
fn each_growth_refused_two_writers(rt: HostRuntime) {
    let rt = &(rt, Here);
    sweep(rt, &TWO_WRITERS).is(rt, 1010, 65, KEEPS);
}

#[test]
fn each_growth_refused_dropped_member(rt: HostRuntime) {
    let rt = &(rt, Here);
    sweep(rt, &DROPPED_MEMBER).is(rt, 734, 38, KEEPS);
}

/// A course over caches of one block. What is untold then follows from its moves: so much where a file is laid out, and
/// where a client's cache gets its first blocks.
fn has_untold(rt: &impl Aided, course: Course, growths: u64, untold: &[&[u8]]) {
    let cached = 1;
    let swept = sweep(rt, &Course { cached, ..course });
    swept.has_untold(rt, growths, &joined(rt, untold));
}

/// Both files are put: user 0's cache had no block before.
#[test]
fn each_growth_refused_two_writers_small_caches(rt: HostRuntime) {
    let rt = &(rt, Here);
    has_untold(rt, TWO_WRITERS, 1063, &[FILE, FILE, ROOM_READ]);
}

/// User 1 makes a file, by which its cache has its first block, and puts it; then user 0 reads blocks.
#[test]
fn each_growth_refused_dropped_member_small_caches(rt: HostRuntime) {
    let rt = &(rt, Here);
    has_untold(rt, DROPPED_MEMBER, 732, &[ROOM_LAID, FILE, FILE, ROOM_READ]);
}

/// Of a store's forty blocks one makes room for later ones early, and goes without where memory runs out for that.
#[test]
fn each_growth_refused_blocks(rt: HostRuntime) {
    let host = &(&rt, Here);
    sweep_blocks(&rt).is(host, 46, 1, b"p");
}

/// None goes untold: by status 9, by an end of the conversation, or as the server isn't begun.
#[test]
fn each_growth_refused_requests(rt: HostRuntime) {
    let host = &(&rt, Here);
    let (blocks, how) = serve_blocks(&rt);
    blocks.is(host, 36, 0, b"");
    how.are(host, 6, 24, 6);
    let (calls, how) = serve_calls(&rt);
    calls.is(host, 74, 0, b"");
    how.are(host, 37, 31, 6);
}
