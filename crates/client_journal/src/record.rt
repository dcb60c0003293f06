//! Records, and the bytes that they begin with.

ghost use Rattle.std.specs.Prelude.{◌≡◌, ◌<◌, ◌^◌, IfSome, IfNone, None, get_or};
ghost use Rattle.client_journal.specs.Records.{header, kind_of};

use crate::kind::Kind;
use std::marker::Model;

/// How many bytes a record has before its text: its kind, and the length of the text.
pub(crate) const HEADER_SIZE: usize = 5;

/// A record: a signed text, and what it is.
#[derive(Drop)]
pub struct Record<'a> {
    pub kind: Kind,
    pub text: &'a [u8],
}

impl<'a> Model for Record<'a> {
    ghost use Rattle.client_journal.specs.Records.{Record};

    ghost Value = { Record };

    ghost view = { λ r. record { kind = r.kind; text = r.text.now } };
}

/// What a record of this kind, whose text has that length, begins with.
pub(crate) fn header(kind: Kind, size: u32) -> [u8; 5]
    ensures { result ≡ header kind size }
{
    let [a, b, c, d] = size.to_be_bytes();
    [kind.number(), a, b, c, d]
}

/// The kind and the length that a record begins with.
pub(crate) fn read_header(bytes: &[u8; 5]) -> Option<(Kind, usize)>
    ensures header { IfSome result (λ h. bytes.now ≡ header h.0 h.1) }
    ensures small { IfSome result (λ h. h.1 < 2 ^ 32) }
    ensures other_kind { IfNone result (kind_of (get_or bytes.now 0 0) ≡ None) }
{
    let [number, a, b, c, d] = *bytes;
    let size = u32::from_be_bytes([a, b, c, d]);
    match Kind::of(number) {
        Some(kind) => Some((kind, size as usize)),
        None => None,
    }
}
