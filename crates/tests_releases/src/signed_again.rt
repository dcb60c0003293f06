//! Journals in which a certificate follows a certificate: the same, signed once more, or another.

use crate::crashes::{Host, device_of};
use crate::journals::state_of;
use client_journal::{JournalError, JournalState};
use std::alloc::Global;

/// The size of a signature.
const SIGNATURE_SIZE: usize = 2508;

/// A text of so many bytes, the signature at its end of this byte, and what was signed of one byte but for one place.
fn signed_text(rt: &impl Host, size: usize, other: usize, signature: u8) -> Vec<u8> {
    let mut text = Vec::from_elem(rt.alloc(), signature, size).expect(rt, "memory");
    for (place, byte) in text.iter_mut().enumerate() {
        if place < size.saturating_sub(SIGNATURE_SIZE) {
            *byte = if place == other { 6 } else { 5 };
        }
    }
    text
}

/// What a journal tells that has these records: of each the number of its kind, and its text.
fn told(rt: &impl Host, records: &[(u8, &[u8])]) -> Result<JournalState<Global>, JournalError> {
    let mut file = Vec::new(rt.alloc());
    for (kind, text) in records {
        file.extend_from_slice(&[1, *kind]).expect(rt, "memory");
        let size = u32::try_from(text.len()).expect(rt, "a short text");
        file.extend_from_slice(&size.to_be_bytes())
            .expect(rt, "memory");
        file.extend_from_slice(text).expect(rt, "memory");
    }
    file.push(0).expect(rt, "memory");
    let (state, _) = state_of(rt.alloc(), device_of(rt, &file));
    state
}

/// Whether this certificate is told, after this structure or after none.
fn tells_certificate(
    state: &Result<JournalState<Global>, JournalError>,
    structure: Option<&[u8]>,
    certificate: &[u8],
) -> bool {
    match state {
        Ok(JournalState::Declared(None, found)) => {
            structure.is_none() && found.as_slice() == certificate
        }
        Ok(JournalState::Declared(Some(last), found)) => {
            structure == Some(last.as_slice()) && found.as_slice() == certificate
        }
        _ => false,
    }
}

/// A certificate of this size is read after the same, signed with other bytes or with the same ones, however often, and
/// a structure after it.
fn is_read_again(rt: &impl Host, size: usize) {
    let structure = signed_text(rt, 2595, 0, 9);
    let first = signed_text(rt, size, size, 7);
    let second = signed_text(rt, size, size, 8);
    let alone = told(rt, &[(1, &first), (1, &second)]);
    let same = told(rt, &[(1, &first), (1, &first)]);
    let thrice = told(rt, &[(1, &first), (1, &second), (1, &first)]);
    let after = told(
        rt,
        &[(1, &first), (2, &structure), (1, &first), (1, &second)],
    );
    let before = told(
        rt,
        &[(1, &first), (1, &second), (2, &structure), (1, &first)],
    );
    let last = Some(structure.as_slice());
    assert!(rt; tells_certificate(&alone, None, &second), "{size}");
    assert!(rt; tells_certificate(&same, None, &first), "{size}");
    assert!(rt; tells_certificate(&thrice, None, &first), "{size}");
    assert!(rt; tells_certificate(&after, last, &second), "{size}");
    assert!(rt; tells_certificate(&before, last, &first), "{size}");
    let signed = told(rt, &[(1, &first), (1, &second), (2, &structure)]);
    let is_signed = matches!(signed, Ok(JournalState::Signed(_)));
    assert!(rt; is_signed, "{size}");
}

#[test]
fn a_certificate_is_signed_again(rt: HostRuntime) {
    for signed in [1, 42, 255, 256, 257, 512, 600] {
        is_read_again(&rt, SIGNATURE_SIZE + signed);
    }
}

/// The sizes of two certificates that aren't the same, and where the second differs.
static OTHERS: [(usize, usize, usize); 11] = [
    // nothing was signed
    (2508, 2508, 2508),
    (42, 42, 42),
    // one begins the other
    (2550, 2551, 2551),
    (2551, 2550, 2551),
    (2508, 2509, 2509),
    (2509, 2508, 2509),
    // one byte differs
    (2550, 2550, 0),
    (2550, 2550, 41),
    (2764, 2764, 255),
    (2765, 2765, 256),
    (3108, 3108, 599),
];

#[test]
fn another_certificate_is_out_of_turn(rt: HostRuntime) {
    let structure = signed_text(&rt, 2595, 0, 9);
    for (before, after, other) in OTHERS {
        let first = signed_text(&rt, before, before, 7);
        let second = signed_text(&rt, after, other, 7);
        let alone = told(&rt, &[(1, &first), (1, &second)]);
        let later = told(
            &rt,
            &[(1, &first), (2, &structure), (1, &first), (1, &second)],
        );
        let alone = matches!(alone, Err(JournalError::Damaged));
        let later = matches!(later, Err(JournalError::Damaged));
        assert!(rt; alone && later, "{before}, {after}, {other}");
    }
}
