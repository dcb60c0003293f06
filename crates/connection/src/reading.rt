//! Reads that a signal may interrupt.

ghost use Rattle.std.specs.Prelude.{◌≤◌, length, IfOk};

use std::io::{self, ErrorKind, Read};

/// Reads bytes into the front of a buffer, and tells how many. A read that was interrupted is tried again.
pub fn read_some<S: Read>(stream: &mut S, buffer: &mut [u8]) -> io::Result<usize>
    ensures { IfOk result (λ count. count ≤ length buffer.new) }
{
    for _turn in 0..u64::MAX {
        match stream.read(buffer) {
            Err(error) if error.kind() == ErrorKind::Interrupted => {}
            read => return read,
        }
    }
    Err(ErrorKind::Interrupted.into())
}
