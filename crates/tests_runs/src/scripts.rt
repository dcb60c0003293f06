//! What scripts print where a reader or a writer fails: the lines before stand. Whole scripts, with what they print,
//! stand in `scripts/` and are played by `sundr_play` (`tools/play_rows`).

use fork_theorem::{CACHED_AT_FIRST, PlayError, play};
use std::alloc::Global;
use std::io::{self, BufReader, Cursor, ErrorKind, Read};
use std::process::Abort;
use std::sync::Wait;

/// What a script is played in.
pub(crate) trait ScriptHost: Alloc<A = Global> + Abort + Wait {}

impl<R: Alloc<A = Global> + Abort + Wait> ScriptHost for R {}

/// Fails the test where two texts differ.
fn check_text(rt: &impl ScriptHost, found: &[u8], wanted: &[u8]) {
    assert!(rt; found == wanted, "{found:?} is not {wanted:?}");
}

/// The script prints these lines, whether a client's cache may have 1,024 blocks or one.
pub(crate) fn prints(rt: &impl ScriptHost, script: &[u8], lines: &[u8]) {
    for capacity in [CACHED_AT_FIRST, 1] {
        let mut reader = Cursor::new(script);
        let mut writer = Vec::new(rt.alloc());
        play(rt, rt.alloc(), capacity, &mut reader, &mut writer).expect(rt, "lines");
        check_text(rt, &writer, lines);
    }
}

/// Gives these bytes, and then fails.
#[derive(Drop)]
struct Failing {
    bytes: &'static [u8],
}

impl Read for Failing {
    fn read(&mut self, buffer: &mut [u8]) -> io::Result<usize> {
        let size = self.bytes.len().min(buffer.len());
        if size == 0 {
            return Err(io::Error::from(ErrorKind::Other));
        }
        let (front, rest) = self.bytes.split_at(size);
        buffer[..size].copy_from_slice(front);
        self.bytes = rest;
        Ok(size)
    }
}

/// Fails in its third line.
const SCRIPT: &[u8] = b"begin 0\nshow\nbeg";

#[test]
fn lines_before_a_failing_read(rt: HostRuntime) {
    let failing = Failing { bytes: SCRIPT };
    let mut reader = BufReader::new(rt.alloc(), failing).expect(&rt, "memory");
    let mut writer = Vec::new(rt.alloc());
    let played = play(&rt, rt.alloc(), CACHED_AT_FIRST, &mut reader, &mut writer);
    assert!(rt; matches!(played, Err(PlayError::Read)), "no reader");
    check_text(&rt, &writer, b"0 begin 1\nerror\n");
}

/// A writer with room for the first line and a part of the second one.
const ROOM: usize = 12;

#[test]
fn lines_before_a_failing_write(rt: HostRuntime) {
    let mut room = [0; ROOM];
    let mut reader = Cursor::new(b"begin 0\nupdate 0 a\ncommit 0 a\n".as_slice());
    let mut writer = Cursor::new(room.as_mut_slice());
    let played = play(&rt, rt.alloc(), CACHED_AT_FIRST, &mut reader, &mut writer);
    assert!(rt; matches!(played, Err(PlayError::Write)), "no writer");
    check_text(&rt, &room, b"0 begin 1\n0 ");
}
