//! The names of a directory's entries.

ghost use Rattle.layout.specs.declared.error.ReadError.TheVariants as read_error;
ghost use Rattle.std.specs.Prelude.{◌≡◌, ◌≢◌, true, false, IfOk, IfErr, OnErr, MatchOption};
ghost use Rattle.layout.specs.Format.{IsBytes, ReadsAs};
ghost use Rattle.directory.specs.Name.{has_length, has_separator, is_dots, is_allowed, is_name, name};

use layout::{Memory, ReadError, Reader, Text, Writer, are_bytes};
use std::alloc::{AllocError, Allocator};
use std::marker::Model;

/// The name of an entry: 1 to 255 bytes of UTF-8, without a slash or a zero byte, and neither `.` nor `..`.
#[derive(Debug, Drop)]
pub struct Name<A: Allocator> {
    text: String<A>,
}

impl<A: Allocator> Model for Name<A> {
    ghost use Rattle.std.specs.Prelude.{ℕ, List, ◌≡◌, true};
    ghost use Rattle.std.specs.String.{string_bytes};
    ghost use Rattle.directory.specs.Name.{is_name};

    ghost Value = { List ℕ };

    ghost view = { λ n. string_bytes n.text };

    ghost invariant = { λ n. is_name (string_bytes n.text) ≡ true };
}

fn has_length(bytes: &[u8]) -> bool
    ensures { result ≡ has_length bytes.now }
{
    (1..=255).contains(&bytes.len())
}

fn has_separator(bytes: &[u8]) -> bool
    ensures { result ≡ has_separator bytes.now }
{
    bytes.iter().any(|byte| *byte == b'/' || *byte == 0)
}

fn is_dots(bytes: &[u8]) -> bool
    ensures { result ≡ is_dots bytes.now }
{
    bytes == b".".as_slice() || bytes == b"..".as_slice()
}

fn is_allowed(bytes: &[u8]) -> bool
    ensures { result ≡ is_allowed bytes.now }
{
    has_length(bytes) && !has_separator(bytes) && !is_dots(bytes)
}

/// The bytes as a text, if they are a name.
#[tactic(auto, using(crate::proofs::Names::name_tests))]
pub fn name_text(bytes: &[u8]) -> Option<&str>
    ensures { MatchOption result (is_name bytes.now ≡ false)
        (λ text. (is_name bytes.now ≡ true) × (text.now ≡ bytes.now)) }
{
    match std::str::from_utf8(bytes) {
        Ok(text) if is_allowed(bytes) => Some(text),
        _ => None,
    }
}

/// A length, and as many bytes that are a name.
fn read_parts<'a>(reader: &mut Reader<'a>) -> Result<&'a str, ReadError>
    ensures reads { ReadsAs (λ text. text.now) result reader.new (name.read reader.old) }
    ensures name { IfOk result (λ text. is_name text.now ≡ true) }
    ensures bytes { IsBytes reader.old }
    ensures no_memory { IfErr result (λ e. e ≢ read_error.Memory) }
{
    let length = reader.u8_in(0, u8::MAX)?;
    let bytes = reader.bytes(usize::from(length))?;
    name_text(bytes).ok_or(ReadError::Range)
}

/// A name after its length, in what is left of a text. It takes no memory. After a refusal the reader stands where it
/// stood.
pub fn read_name<'a>(reader: &mut Reader<'a>) -> Result<&'a str, ReadError>
    ensures reads { ReadsAs (λ text. text.now) result reader.new (name.read reader.old) }
    ensures name { IfOk result (λ text. is_name text.now ≡ true) }
    ensures bytes { IsBytes reader.old }
    ensures no_memory { IfErr result (λ e. e ≢ read_error.Memory) }
    ensures err { OnErr result (reader.new ≡ reader.old) }
{
    let start = reader.left();
    let found = read_parts(reader);
    if found.is_err() {
        reader.go_back(start);
    }
    found
}

impl<A: Allocator + Copy> Text<A> for Name<A> {
    ghost use Rattle.directory.specs.Name.{name};
    ghost use Rattle.directory.specs.NameLaws.{lawful_name};

    ghost format = { name };

    fn read_fields(alloc: A, reader: &mut Reader<'_>) -> Result<Name<A>, ReadError> {
        let text = read_name(reader)?;
        Ok(Name::new(alloc, text)?)
    }

    #[tactic(auto, using(crate::proofs::Names::length_name))]
    fn write_fields(&self, writer: &mut Writer<A>) -> Result<(), Memory> {
        let bytes = self.as_bytes();
        writer.u8(bytes.len() as u8)?;
        writer.bytes(bytes)
    }

    ghost lawful = { lawful_name };
}

impl<A: Allocator> Name<A> {
    /// The name that a text is. `name_text` tells whether bytes are one.
    pub fn new(alloc: A, text: &str) -> Result<Name<A>, AllocError>
        requires { is_name text.now ≡ true }
        ensures { IfOk result (λ name. name ≡ text.now) }
    {
        let text = String::from_str(alloc, text)?;
        Ok(Name { text })
    }

    /// Its bytes.
    #[tactic(auto, using(crate::proofs::Names::fits_name))]
    pub fn as_bytes(&self) -> &[u8]
        ensures same { result.now ≡ self.now }
        ensures name { is_name self.now ≡ true }
        ensures fits { name.Fits self.now }
    {
        let bytes = self.text.as_bytes();
        are_bytes(bytes);
        bytes
    }

    /// Its text.
    pub fn as_str(&self) -> &str
        ensures same { result.now ≡ self.now }
        ensures name { is_name self.now ≡ true }
    {
        self.text.as_str()
    }
}
