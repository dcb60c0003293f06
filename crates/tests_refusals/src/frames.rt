//! The frame of user 0's first certificate, cut at each of its bytes.

use crate::here::Here;
use crate::served::{UPDATE, first_calls};
use std::alloc::Global;
use tests_aids::texts::joined;
use tests_aids::{Aided, check, given};
use wire::Frames;

/// The next body of a stream, if one is there.
fn next(rt: &impl Aided, frames: &mut Frames<Global>) -> Option<Vec<u8>> {
    given(rt, frames.next_frame(), "no fault")
}

/// The frame comes in two pieces: it is there after its last byte, and not before.
fn comes_in_two(rt: &impl Aided, frame: &[u8], cut: usize) {
    let mut frames = Frames::new(rt.alloc());
    given(rt, frames.feed(frame.get(..cut).unwrap_or(&[])), "memory");
    check(rt, next(rt, &mut frames).is_none(), "it is cut");
    given(rt, frames.feed(frame.get(cut..).unwrap_or(&[])), "memory");
    match (next(rt, &mut frames), frame.get(4..)) {
        (Some(found), Some(body)) => check(rt, found.as_slice() == body, "the body"),
        _ => rt.fail("no frame"),
    }
    check(rt, next(rt, &mut frames).is_none(), "nothing behind it");
}

/// It has 2,555 bytes.
#[test]
fn an_update_is_cut_at_each_byte(rt: HostRuntime) {
    let host = &(&rt, Here);
    let (update, _commit) = first_calls(host);
    check(
        host,
        update.starts_with(b"SUC1\0\0\0\0\x01"),
        "its beginning",
    );
    let frame = joined(host, &[UPDATE, &update]);
    check(host, frame.len() == 2_555, "its size");
    for cut in 0..frame.len() {
        comes_in_two(host, &frame, cut);
    }
}
