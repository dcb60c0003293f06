//! Clients over TCP that send requests one by one, each once the one before is replied.

use crate::serving::{Host, Left, serve_beside};
use lms_sign::PublicKey;
use server_workers::Gate;
use std::alloc::Global;
use std::io::{self, Read, Write};
use std::net::{Net, TcpListener, TcpStream};
use std::sync::atomic::{AtomicBool, Ordering};
use std::thread;

/// What is said over a connection, and who is told that a request was replied.
#[derive(Clone, Copy)]
pub(crate) struct Talk<'a> {
    /// The frames of the requests.
    pub(crate) requests: &'a [u8],
    /// The frames of the replies.
    pub(crate) replies: &'a [u8],
    pub(crate) answered: &'a AtomicBool,
}

/// The first of these frames, and the others.
fn first_frame(frames: &[u8]) -> Option<(&[u8], &[u8])> {
    let [a, b, c, d, ..] = frames else {
        return None;
    };
    let size = u32::from_be_bytes([*a, *b, *c, *d]) as usize;
    frames.split_at_checked(size.saturating_add(4))
}

/// Sends a frame, and puts the one that is replied after others.
fn exchange(
    alloc: Global,
    stream: &mut TcpStream,
    frame: &[u8],
    replies: &mut Vec<u8>,
) -> io::Result<()> {
    stream.write_all(frame)?;
    let mut size = [0; 4];
    stream.read_exact(&mut size)?;
    let mut body = Vec::from_elem(alloc, 0u8, u32::from_be_bytes(size) as usize)?;
    stream.read_exact(&mut body)?;
    replies.extend_from_slice(&size)?;
    replies.extend_from_slice(&body)?;
    Ok(())
}

/// Sends the requests over a stream, and is replied as is said.
fn is_replied<R: Host>(rt: &R, stream: TcpStream, talk: Talk<'_>) {
    let mut stream = stream;
    let mut replies = Vec::new(rt.alloc());
    let mut rest = talk.requests;
    for _request in 0..talk.requests.len() {
        let Some((frame, others)) = first_frame(rest) else {
            break;
        };
        let replied = exchange(rt.alloc(), &mut stream, frame, &mut replies);
        assert!(rt; replied.is_ok(), "a reply");
        talk.answered.store(true, Ordering::SeqCst);
        rest = others;
    }
    assert!(rt; rest.is_empty(), "all requests were sent");
    assert!(rt; replies.as_slice() == talk.replies, "the replies");
}

/// Clients say the same over each of these streams, at once.
fn all_are_replied<R: Host>(rt: &R, streams: Vec<TcpStream>, talk: Talk<'_>) {
    thread::scope(thread::scope_env(), rt, |scope| {
        for stream in streams {
            let spawned = scope.spawn(move || is_replied(rt, stream, talk));
            assert!(rt; spawned.is_ok(), "a thread");
        }
    });
}

/// Serves so many connections over TCP, over each of which a client says this: what is left of the server.
pub(crate) fn serve_talks<
    R: Host + Net<Listener = TcpListener, Stream = TcpStream>,
    G: Gate + Sync,
>(rt: &R, gate: &G, count: u32, pinned: PublicKey, talk: Talk<'_>) -> Left<Vec<u8>> {
    serve_beside(rt, gate, count, pinned, |streams| {
        all_are_replied(rt, streams, talk)
    })
}
