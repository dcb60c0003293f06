//! What stands on the devices of a client of an honest run, by what it answered: made by hand from the description of
//! the formats, for a crash to leave it.

use crate::answers::{fields, first_field};
use crate::honest::{Rows, answers_of, does, goes_on};
use lms_sign::PublicKey;
use tests_aids::texts::joined;
use tests_aids::{Host, found, given};

/// The kinds of records.
const CERTIFICATE: u8 = 1;

const STRUCTURE: u8 = 2;

/// The bytes of a ledger.
const LEDGER_SIZE: usize = 1_080;

/// The kind and the text of what an answer released, if it did.
fn signed_in(told: &[u8]) -> Option<(u8, &[u8])> {
    match told {
        [b'b', text @ ..] => Some((CERTIFICATE, text)),
        [b's', fields @ ..] => Some((STRUCTURE, first_field(fields))),
        _ => None,
    }
}

/// The ledger and the journal, each a field, of the client of a user with this key after these steps, which it answered
/// so, and in which none of its devices failed. The ledger has the public key, and a byte for each leaf: 1 where it
/// signed. The journal has each record after its open gate, and a closed one.
fn devices_after(
    rt: &impl Host,
    number: u8,
    key: &PublicKey,
    rows: &[Vec<u8>],
    told: &[Vec<u8>],
) -> Vec<u8> {
    let mut ledger = joined(rt, &[key.as_bytes()]);
    let mut journal = Vec::new(rt.alloc());
    for (row, told) in rows.iter().zip(told) {
        if let Some((kind, text)) = signed_in(told)
            && row.first() == Some(&number)
        {
            let [.., a, b, c, d] = text.len().to_be_bytes();
            let record = joined(rt, &[&[1, kind, a, b, c, d], text]);
            given(rt, ledger.push(1), "memory");
            given(rt, journal.extend_from_slice(&record), "memory");
        }
    }
    for _ in ledger.len()..LEDGER_SIZE {
        given(rt, ledger.push(0), "memory");
    }
    given(rt, journal.push(0), "memory");
    fields(rt, &[&ledger, &journal])
}

/// The clients of these users crash, which leaves what stood on their devices, and are opened again. None of these
/// devices ever failed.
pub(crate) fn crash(rt: &impl Host, rows: &mut Rows, keys: &[PublicKey], users: &[u8]) {
    let told = answers_of(rt, keys, rows);
    for user in users {
        let key = found(rt, keys.get(usize::from(*user)), "a key");
        let left = devices_after(rt, *user, key, rows, &told);
        does(rt, rows, *user, b'x', &left);
        goes_on(rt, rows, *user, b"o");
    }
}
