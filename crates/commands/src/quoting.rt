//! Names of rows, printed: no control character is printed of one.

ghost use Rattle.std.specs.Prelude.{◌≡◌, ◌<◌, OnOk, OnErr};
ghost use Rattle.std.specs.Io.KnownBytes.{Appends};
ghost use Rattle.std.specs.List.{flat_map, list_any};
ghost use Rattle.connection.specs.Written.{AppendsBeginning};
ghost use Rattle.commands.specs.Quoting.{escaped, has_wide_control, hex_digit, is_quoted, is_special, quoted};
ghost use Rattle.commands.specs.Quoting.{shown_name};

use connection::{WriteFault, write_whole};
use std::io::Write;

/// The last byte that a character of ASCII has.
const LAST_ASCII: u8 = 127;

/// The first byte of the characters 0x80 to 0xbf.
const WIDE: u8 = 0xc2;

/// Behind it, the first second byte of one that is no control character.
const FIRST_VISIBLE: u8 = 0xa0;

/// Whether a byte is a control character of ASCII, a quote or a backslash.
fn is_special(byte: u8) -> bool
    ensures { result ≡ is_special byte }
{
    byte < b' ' || byte == b'"' || byte == b'\\' || byte == LAST_ASCII
}

/// Whether there is a control character of two bytes.
fn has_wide_control(name: &[u8]) -> bool
    ensures { result ≡ has_wide_control 0 name.now }
{
    let mut before = 0;
    for byte in name {
        if before == WIDE && *byte < FIRST_VISIBLE {
            return true;
        }
        before = *byte;
    }
    false
}

/// Whether there is a control character of ASCII, a quote or a backslash.
fn has_special(name: &[u8]) -> bool
    ensures { result ≡ list_any is_special name.now }
{
    name.iter().any(|byte| is_special(*byte))
}

/// Whether a name is printed in quotes.
fn is_quoted(name: &[u8]) -> bool
    ensures { result ≡ is_quoted name.now }
{
    has_special(name) || has_wide_control(name)
}

fn hex_digit(number: u8) -> u8
    requires { number < 16 }
    ensures { result ≡ hex_digit number }
{
    if number < 10 {
        b'0' + number
    } else {
        b'a' + (number - 10)
    }
}

/// Writes a byte as it stands in quotes.
fn write_escaped<W: Write>(writer: &mut W, byte: u8) -> Result<(), WriteFault>
    ensures ok { OnOk result (Appends (W.contents writer.old) (W.contents writer.new) (escaped byte)) }
    ensures err { OnErr result (AppendsBeginning (W.contents writer.old) (W.contents writer.new) (escaped byte)) }
{
    if is_special(byte) || byte > LAST_ASCII {
        let escape = [b'\\', b'x', hex_digit(byte / 16), hex_digit(byte % 16)];
        write_whole(writer, &escape)
    } else {
        write_whole(writer, &[byte])
    }
}

/// Writes bytes as they stand in quotes, one after the other.
fn write_all_escaped<W: Write>(writer: &mut W, name: &[u8]) -> Result<(), WriteFault>
    ensures ok { OnOk result (Appends (W.contents writer.old) (W.contents writer.new) (flat_map escaped name.now)) }
    ensures err { OnErr result
        (AppendsBeginning (W.contents writer.old) (W.contents writer.new) (flat_map escaped name.now)) }
{
    for byte in name {
        write_escaped(writer, *byte)?;
    }
    Ok(())
}

/// Writes a name in quotes.
fn write_quoted<W: Write>(writer: &mut W, name: &[u8]) -> Result<(), WriteFault>
    ensures ok { OnOk result (Appends (W.contents writer.old) (W.contents writer.new) (quoted name.now)) }
    ensures err { OnErr result (AppendsBeginning (W.contents writer.old) (W.contents writer.new) (quoted name.now)) }
{
    write_whole(writer, b"\"")?;
    write_all_escaped(writer, name)?;
    write_whole(writer, b"\"")
}

/// Writes a name of a row.
pub(crate) fn write_name<W: Write>(writer: &mut W, name: &[u8]) -> Result<(), WriteFault>
    ensures ok { OnOk result (Appends (W.contents writer.old) (W.contents writer.new) (shown_name name.now)) }
    ensures err { OnErr result
        (AppendsBeginning (W.contents writer.old) (W.contents writer.new) (shown_name name.now)) }
{
    if is_quoted(name) {
        write_quoted(writer, name)
    } else {
        write_whole(writer, name)
    }
}
