//! Records, and the bytes that they begin with.

ghost use Rattle.std.specs.Prelude.{◌≡◌, ◌<◌, ◌≤◌, ◌^◌, length, IfSome, IfNone};
ghost use Rattle.record_log.specs.Records.{header, IsShort};

use std::alloc::Allocator;
use std::marker::Model;

/// How many bytes a record has before its text: its kind, and the length of the text.
pub(crate) const HEADER_SIZE: usize = 5;

/// A record: a text, and a number that says what it is. The length of the text has four bytes.
#[derive(Debug, Drop)]
pub struct Record<A: Allocator> {
    kind: u8,
    text: Vec<u8, A>,
}

impl<A: Allocator> Model for Record<A> {
    ghost use Rattle.std.specs.Prelude.{◌<◌, ◌^◌, length};
    ghost use Rattle.record_log.specs.Records.{Record};

    ghost Value = { Record };

    ghost view = { λ r. record { kind = r.kind; text = r.text.items } };

    ghost invariant = { λ r. length r.text.items < 2 ^ 32 };
}

impl<A: Allocator> Record<A> {
    /// A record, unless the text is too long.
    pub fn new(kind: u8, text: Vec<u8, A>) -> Option<Record<A>>
        ensures some { IfSome result (λ r. r ≡ record { kind = kind; text = text.items }) }
        ensures none { IfNone result (2 ^ 32 ≤ length text.items) }
    {
        if u32::try_from(text.len()).is_err() {
            return None;
        }
        Some(Record { kind, text })
    }

    /// What it is.
    pub fn kind(&self) -> u8
        ensures { result ≡ self.now.kind }
    {
        self.kind
    }

    /// Its text.
    pub fn text(&self) -> &[u8]
        ensures same { result.now ≡ self.now.text }
        ensures short { IsShort self.now }
    {
        &self.text
    }
}

/// What a record of this kind, whose text has that length, begins with.
pub(crate) fn header(kind: u8, size: u32) -> [u8; 5]
    ensures { result ≡ header kind size }
{
    let [a, b, c, d] = size.to_be_bytes();
    [kind, a, b, c, d]
}

/// The kind and the length that a record begins with.
pub(crate) fn read_header(bytes: &[u8; 5]) -> (u8, usize)
    ensures header { bytes.now ≡ header result.0 result.1 }
    ensures small { result.1 < 2 ^ 32 }
{
    let [kind, a, b, c, d] = *bytes;
    let size = u32::from_be_bytes([a, b, c, d]);
    (kind, size as usize)
}
