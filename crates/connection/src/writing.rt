//! Bytes written whole.

ghost use Rattle.std.specs.Prelude.{OnOk, OnErr};
ghost use Rattle.std.specs.Io.KnownBytes.{Appends};
ghost use Rattle.connection.specs.Written.{AppendsBeginning};

use std::io::{ErrorKind, Write};
use thiserror::Error;

/// The writer took no more.
#[derive(Clone, Copy, Debug, Error)]
#[error("the writer took no more")]
pub struct WriteFault;

/// Writes all bytes, or where the writer fails a beginning of them.
pub fn write_whole<W: Write>(writer: &mut W, bytes: &[u8]) -> Result<(), WriteFault>
    ensures ok { OnOk result (Appends (W.contents writer.old) (W.contents writer.new) bytes.now) }
    ensures err { OnErr result (AppendsBeginning (W.contents writer.old) (W.contents writer.new) bytes.now) }
{
    let mut rest = bytes;
    for _turn in 0..u64::MAX {
        if rest.is_empty() {
            return Ok(());
        }
        match writer.write(rest) {
            Ok(count) if count > 0 => rest = &rest[count..],
            Err(error) if error.kind() == ErrorKind::Interrupted => {}
            Ok(_) | Err(_) => return Err(WriteFault),
        }
    }
    Err(WriteFault)
}
