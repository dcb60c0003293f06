//! Streams that come in pieces.

ghost use Rattle.std.specs.Prelude.{◌<◌};

use std::alloc::Global;
use std::process::Abort;
use wire::{FrameError, Frames};

/// What comes next of a stream: the bytes of a body, none of which is empty, or else nothing yet.
const NOTHING: Option<&[u8]> = Some(&[]);

/// Or a length that is at fault.
const FAULT: Option<&[u8]> = None;

/// Hands in the next bytes of a stream, if any, and tells whether this comes next.
fn gives(
    rt: &(impl Abort + Alloc<A = Global>),
    frames: &mut Frames<Global>,
    bytes: &[u8],
    wanted: Option<&[u8]>,
) -> bool {
    if !bytes.is_empty() {
        frames.feed(bytes).expect(rt, "memory");
    }
    match (frames.next_frame(), wanted) {
        (Ok(Some(body)), Some(wanted)) => !wanted.is_empty() && body.as_slice() == wanted,
        (Ok(None), Some(wanted)) => wanted.is_empty(),
        (Err(FrameError::Length), None) => true,
        _ => false,
    }
}

/// The body of the frame of an UPDATE without changes is as long: 2,551 bytes.
const UPDATE: &[u8] = &[1; 2551];

/// How long it is, in four bytes.
const LENGTH: [u8; 4] = [0, 0, 0x09, 0xf7];

/// The frame of this body.
fn frame_of(rt: &(impl Abort + Alloc<A = Global>), length: [u8; 4], body: &[u8]) -> Vec<u8> {
    let mut frame = Vec::from_slice(rt.alloc(), &length).expect(rt, "memory");
    frame.extend_from_slice(body).expect(rt, "memory");
    frame
}

/// That frame comes in two pieces, of which the second one isn't empty.
fn comes_in_two(rt: &(impl Abort + Alloc<A = Global>), front: &[u8], rest: &[u8]) {
    let mut frames = Frames::new(rt.alloc());
    assert!(rt; gives(rt, &mut frames, front, NOTHING), "{front:?}");
    let comes = gives(rt, &mut frames, rest, Some(UPDATE));
    assert!(rt;
        comes && gives(rt, &mut frames, &[], NOTHING),
        "{front:?} and the rest"
    );
}

#[test]
fn no_frame_before_its_last_byte(rt: HostRuntime) {
    let frame = frame_of(&rt, LENGTH, UPDATE);
    for cut in 0..frame.len() {
        let (front, rest) = frame.split_at(cut);
        comes_in_two(&rt, front, rest);
    }
}

#[test]
fn a_frame_comes_by_bytes(rt: HostRuntime) {
    let mut frames = Frames::new(rt.alloc());
    for byte in &frame_of(&rt, LENGTH, UPDATE) {
        assert!(rt;
            gives(&rt, &mut frames, &[], NOTHING),
            "before the last byte"
        );
        frames.feed(&[*byte]).expect(&rt, "memory");
        frames.feed(&[]).expect(&rt, "memory");
    }
    assert!(rt; gives(&rt, &mut frames, &[], Some(UPDATE)), "by bytes");
}

/// After a frame, with which all but a byte of this length comes, the length is at fault whatever follows.
fn stays_at_fault(rt: &(impl Abort + Alloc<A = Global>), [a, b, c, d]: [u8; 4]) {
    let mut frames = Frames::new(rt.alloc());
    assert!(rt; gives(rt, &mut frames, &[], NOTHING), "before any byte");
    frames.feed(&[0, 0, 0, 2, 5, 6]).expect(rt, "memory");
    let steps: [(&[u8], Option<&[u8]>); 5] = [
        (&[a, b, c], Some(&[5, 6])),
        (&[], NOTHING),
        (&[d], FAULT),
        (&[0, 0, 0, 1, 5], FAULT),
        (&[], FAULT),
    ];
    for (bytes, wanted) in &steps {
        assert!(rt; gives(rt, &mut frames, bytes, *wanted), "{bytes:?}");
    }
}

/// Lengths 0, 2,097,153 and 4,294,967,295.
#[test]
fn a_length_at_fault_stays(rt: HostRuntime) {
    for length in [[0, 0, 0, 0], [0, 0x20, 0, 1], [0xff; 4]] {
        stays_at_fault(&rt, length);
    }
}

#[test]
fn the_largest_frame_passes(rt: HostRuntime) {
    let body = Vec::from_elem(rt.alloc(), 9u8, 2_097_152).expect(&rt, "memory");
    let frame = frame_of(&rt, [0, 0x20, 0, 0], &body);
    let mut frames = Frames::new(rt.alloc());
    for piece in frame.chunks(65_536) {
        assert!(rt;
            gives(&rt, &mut frames, &[], NOTHING),
            "before the last piece"
        );
        frames.feed(piece).expect(&rt, "memory");
    }
    for (bytes, wanted) in [
        ([0, 0, 0, 1, 7].as_slice(), Some(body.as_slice())),
        (&[], Some(&[7])),
        (&[], NOTHING),
    ] {
        assert!(rt;
            gives(&rt, &mut frames, bytes, wanted),
            "the largest one, and the one after it"
        );
    }
}

/// How many frames come of the stream in pieces of this size, each of which holds its number.
fn count_in_pieces(rt: &(impl Abort + Alloc<A = Global>), stream: &[u8], size: usize) -> u32
    requires { 0 < size }
{
    let mut frames = Frames::new(rt.alloc());
    let mut number = 0u32;
    for piece in stream.chunks(size) {
        frames.feed(piece).expect(rt, "memory");
        for _ in 0..piece.len() {
            if !gives(rt, &mut frames, &[], Some(&number.to_be_bytes())) {
                break;
            }
            number = number.wrapping_add(1);
        }
    }
    number
}

#[test]
fn a_long_stream_comes_in_order(rt: HostRuntime) {
    let mut stream = Vec::new(rt.alloc());
    for number in 0..10_000u32 {
        let [a, b, c, d] = number.to_be_bytes();
        let frame = [0, 0, 0, 4, a, b, c, d];
        stream.extend_from_slice(&frame).expect(&rt, "memory");
    }
    for size in [1, 7, 8, 60, 4_096, 80_000] {
        assert_eq!(rt; count_in_pieces(&rt, &stream, size), 10_000, "by {size}");
    }
}
