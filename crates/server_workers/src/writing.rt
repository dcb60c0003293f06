//! The records of the log, written.

ghost use Rattle.std.specs.Prelude.{◌≡◌, ◌∷◌, OnOk, OnErr};
ghost use Rattle.std.specs.Int.{w32};
ghost use Rattle.std.specs.Io.KnownBytes.{Appends};
ghost use Rattle.layout.specs.Format.{be};
ghost use Rattle.server_workers.specs.Records.{number_of, record_of};
ghost use Rattle.connection.specs.Written.{AppendsBeginning};

use connection::{WriteFault, write_whole};
use consistency_server::{Call, CallKind};
use std::alloc::Allocator;
use std::io::Write;

/// The number of a record's kind.
fn number_of(kind: CallKind) -> u8
    ensures { result ≡ number_of kind }
{
    match kind {
        CallKind::Update => 1,
        CallKind::Commit => 2,
    }
}

/// What stands before the text of a record.
#[tactic(auto, unfolding(layout::specs::Format::be))]
fn head_of(kind: CallKind, size: u32) -> [u8; 5]
    ensures { result ≡ number_of kind ∷ be w32 size }
{
    let [first, second, third, last] = size.to_be_bytes();
    [number_of(kind), first, second, third, last]
}

/// Writes the record of a call, or where the writer fails a beginning of it. A text of 4 GiB, which no frame brings,
/// counts as a failed write.
pub(crate) fn write_record<A: Allocator, W: Write>(
    writer: &mut W,
    call: &Call<A>,
) -> Result<(), WriteFault>
    ensures ok { OnOk result (Appends (W.contents writer.old) (W.contents writer.new) (record_of call.now)) }
    ensures err { OnErr result (AppendsBeginning (W.contents writer.old) (W.contents writer.new) (record_of call.now)) }
{
    let text = call.text();
    let Ok(size) = u32::try_from(text.len()) else {
        return Err(WriteFault);
    };
    write_whole(writer, &head_of(call.kind(), size))?;
    write_whole(writer, text)
}
