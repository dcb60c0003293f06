//! User 0's first two operations between a client and a server, byte for byte: their certificates, replies, structures
//! and frames, and what the client shows of them.

use crate::acts::Stage;
use crate::here::Here;
use crate::restarts::FIRST;
use crate::script::{client_in, new_actors, new_stage, play_each};
use crate::words::text_at;
use layout::let_go;
use tests_aids::texts::key_of;
use tests_aids::{Host, check, check_text};
use tests_client_aids::clients::MemoryClient;
use wire::{RequestKind, Status, reply_frame, request_frame};

/// The client asks for no block, and has no view at the beginning.
static NO_VIEW: &[u8] = b"\
    query 0 x =\n";

/// The server places the first certificate, text u, with the reply that is made by hand, text r, each time that it
/// comes. The client accepts the reply, and signs the structure of the plan made by hand, p, with the handle of the
/// beginning and no records, text s; then it shows this structure alone.
static FIRST_OPERATION: &[u8] = b"\
    between y u 0 42\n\
    equal y = 'SUC1 00 :1 $0 00\n\
    update 0 u ok x\n\
    equal x = r\n\
    update 0 u ok x\n\
    equal x = r\n\
    hear 0 r = 'accepted\n\
    equal Z =\n\
    equal Y = 00\n\
    issue 0 s\n\
    between y s 0 87\n\
    equal y = 'SVS1 0030 p $B 00\n\
    commit 0 s ok\n\
    over 0\n\
    now 0 x = 'idle :1\n\
    yield 0 = 02\n\
    query 0 x = 'view\n\
    equal x = s\n";

/// The second one names the first structure. Its certificate, reply and structure are texts v, w and t.
static SECOND_OPERATION: &[u8] = b"\
    declare 0 v\n\
    text p 'SVP1 00 :2 %v 01 00 :2 00\n\
    text w 'SRL1 01 *s s 01 *v v +p p\n\
    between y v 0 42\n\
    equal y = 'SUC1 00 :2 %s 00\n\
    update 0 v ok x\n\
    equal x = w\n\
    update 0 v ok x\n\
    equal x = w\n\
    hear 0 w = 'accepted\n\
    equal Z =\n\
    equal Y = 00\n\
    issue 0 t\n\
    between y t 0 87\n\
    equal y = 'SVS1 0030 p $B 00\n\
    commit 0 t ok\n\
    over 0\n\
    now 0 x = 'idle :2\n\
    yield 0 = 04\n\
    query 0 x = 'view\n\
    equal x = t\n";

/// The client shows user 0's key.
fn shows_key(rt: &impl Host, client: &MemoryClient) {
    assert!(rt; client.has_view());
    let key = client.table().key_of(client.user()).expect(rt, "a key");
    check_text(rt, key.as_bytes(), key_of(rt, 0).public().as_bytes());
}

#[test]
fn two_operations_byte_for_byte(rt: HostRuntime) {
    let rt = &(rt, Here);
    let mut stage = new_stage(rt);
    let mut actors = new_actors(rt, &stage);
    for scripts in [
        [NO_VIEW, FIRST, FIRST_OPERATION],
        [SECOND_OPERATION, b"", b""],
    ] {
        play_each(rt, &mut actors, &mut stage, &scripts);
        shows_key(rt, client_in(rt, &mut actors.users, 0));
    }
    are_framed(rt, &stage);
    let_go((actors, stage));
}

/// The frames of the first operation's texts, and of the answer to its commit: of each the kind where it is a request
/// and no reply with status 0, the text's letter, how many bytes that has, and how the frame begins. Text A is empty.
fn are_framed(rt: &impl Host, stage: &Stage) {
    let (update, commit) = (Some(RequestKind::Update), Some(RequestKind::Commit));
    let frames: [(Option<RequestKind>, u8, usize, &[u8]); 4] = [
        (update, b'u', 2550, b"\0\0\x09\xf7\x01SUC1"),
        (commit, b's', 2595, b"\0\0\x0a\x24\x02SVS1"),
        (
            None,
            b'r',
            2608,
            b"\0\0\x0a\x31\0SRL1\0\x01\0\x2aSUC1\0\0\0\0\x01",
        ),
        (None, b'A', 0, b"\0\0\0\x01\0"),
    ];
    for (kind, letter, size, start) in frames {
        let text = text_at(rt, &stage.by_hand.texts, letter);
        assert!(rt; text.len() == size && text.len() < 2097152);
        let frame = match kind {
            Some(kind) => request_frame(rt.alloc(), kind, text),
            None => reply_frame(rt.alloc(), Status::Ok, text),
        };
        let frame = frame.expect(rt, "memory");
        check(rt, frame.starts_with(start), "the frame");
    }
}
