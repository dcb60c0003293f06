//! What clients answer, spelled as bytes: so what a client answers that stands alone can be compared with what `run`
//! answers, and tests look at bytes alone. The first byte tells what it is:
//!
//! - `-`: the step isn't taken; `k`: closed; `y`: it has a key more; `c`: it knows of the commit; `h`: its cache has
//!   another size; `x`: the crash came;
//! - `o`: open, and the letter of the phase, and the text to be sent again;
//! - `b`: the certificate that it declared, or signed again; `s`: four fields, the structure that it signed, and of the
//!   view the table, the numbers of the lost changes, and the signatures of the structures;
//! - `n`: the digest of the block that it asks for; `t`: the texts to be stored, each a field; `!`: the broken rule;
//! - `F`: the bytes of a file; `D`: the entries of a directory, each a field, an i-number of a principal and its name;
//!   `0`: nothing stands there; `K`: a kind and size; `P`: a free i-number, or none;
//! - `v`: the server's status; `e`: an error, with a letter for the call and one for the error.

use client_runs::Answer;
use client_verify::{ClientError, Look, Phase, Rule, Step};
use directory::Directory;
use layout::{Digest, Text};
use lms_sign::SIGNATURE_SIZE;
use pending_list::Signed;
use principals::Table;
use std::alloc::Global;
use tests_aids::texts::joined;
use tests_aids::{Aided, given};
use version_order::Structure;

// ---- fields

/// Adds a text after its size.
fn add_field(rt: &impl Aided, fields: &mut Vec<u8>, text: &[u8]) {
    let [.., a, b, c, d] = text.len().to_be_bytes();
    let field = joined(rt, &[&[a, b, c, d], text]);
    given(rt, fields.extend_from_slice(&field), "memory");
}

/// The texts, each after its size.
pub(crate) fn fields(rt: &impl Aided, texts: &[&[u8]]) -> Vec<u8> {
    let mut fields = Vec::new(rt.alloc());
    for text in texts {
        add_field(rt, &mut fields, text);
    }
    fields
}

/// The first text of those that stand after their sizes, and what comes after it.
fn split_field(text: &[u8]) -> Option<(&[u8], &[u8])> {
    let [a, b, c, d, after @ ..] = text else {
        return None;
    };
    let size = u32::from_be_bytes([*a, *b, *c, *d]) as usize;
    match (after.get(..size), after.get(size..)) {
        (Some(field), Some(rest)) => Some((field, rest)),
        _ => None,
    }
}

/// The texts, each of which stands after its size.
pub(crate) fn fields_of<'a>(rt: &impl Aided, text: &'a [u8]) -> Vec<&'a [u8]> {
    let mut fields = Vec::new(rt.alloc());
    let mut rest = text;
    for _ in 0..text.len() {
        let Some((field, after)) = split_field(rest) else {
            break;
        };
        given(rt, fields.push(field), "memory");
        rest = after;
    }
    fields
}

/// The first text of those that stand after their sizes.
pub(crate) fn first_field(text: &[u8]) -> &[u8] {
    match split_field(text) {
        Some((field, _)) => field,
        None => &[],
    }
}

// ---- what is told of views

/// What is told of an accepted view.
#[derive(Clone, Copy)]
pub(crate) struct View<'a> {
    pub(crate) text: &'a [u8],
    pub(crate) table: &'a [u8],
    pub(crate) lost: &'a [u8],
    /// How many structures it has.
    pub(crate) structures: usize,
}

/// The accepted view that an answer tells of, if it is one.
pub(crate) fn view_in<'a>(rt: &impl Aided, told: &'a [u8]) -> Option<View<'a>> {
    let [b's', rest @ ..] = told else {
        return None;
    };
    match fields_of(rt, rest).as_slice() {
        [text, table, lost, signatures] => Some(View {
            text,
            table,
            lost,
            structures: signatures.len() / SIGNATURE_SIZE,
        }),
        _ => rt.fail("no view"),
    }
}

/// The signed text that an answer released: no bytes where it released none.
pub(crate) fn released(told: &[u8]) -> &[u8] {
    match told {
        [b'o', _, text @ ..] | [b'b', text @ ..] => text,
        [b's', rest @ ..] => first_field(rest),
        _ => &[],
    }
}

/// How many answers begin with these bytes.
pub(crate) fn count_told(told: &[Vec<u8>], beginning: &[u8]) -> usize {
    let mut count = 0usize;
    for text in told {
        if text.starts_with(beginning) {
            count = count.wrapping_add(1);
        }
    }
    count
}

/// How many answers tell of an accepted view.
pub(crate) fn count_views(told: &[Vec<u8>]) -> usize {
    count_told(told, b"s")
}

// ---- spelling

/// A letter for each phase.
fn phase_letter(phase: Phase) -> u8 {
    match phase {
        Phase::Idle => b'i',
        Phase::Declared => b'd',
        Phase::Signed => b's',
        Phase::Failed => b'f',
    }
}

/// An error of this call.
fn error_text(rt: &impl Aided, call: u8, error: &ClientError) -> Vec<u8> {
    let letter = match error {
        ClientError::Memory => b'm',
        ClientError::NoLeaf => b'l',
        ClientError::Device => b'd',
        ClientError::NoNumber => b'n',
        ClientError::Foreign => b'f',
        ClientError::Damaged => b'g',
        ClientError::NoKey => b'k',
    };
    joined(rt, &[&[b'e', call, letter]])
}

/// A client is open, in this phase, with this text to be sent again.
pub(crate) fn opened_text(rt: &impl Aided, phase: Phase, again: &[u8]) -> Vec<u8> {
    joined(rt, &[&[b'o', phase_letter(phase)], again])
}

/// The block of this digest is asked for.
fn need_text(rt: &impl Aided, digest: &Digest) -> Vec<u8> {
    joined(rt, &[b"n", digest.as_bytes()])
}

/// This rule is broken.
fn broken_text(rt: &impl Aided, rule: Rule) -> Vec<u8> {
    joined(rt, &[&[b'!', rule as u8]])
}

/// These texts are to be stored.
fn store_text(rt: &impl Aided, texts: &[Vec<u8>]) -> Vec<u8> {
    let mut told = joined(rt, &[b"t"]);
    for text in texts {
        add_field(rt, &mut told, text);
    }
    told
}

/// What a client answers that judges a reply.
pub(crate) fn step_text(rt: &impl Aided, step: &Step<Global>) -> Vec<u8> {
    match step {
        Step::Need(digest) => need_text(rt, digest),
        Step::Store(texts) => store_text(rt, texts),
        Step::Broken(rule) => broken_text(rt, *rule),
    }
}

/// The entries of a directory.
fn directory_text(rt: &impl Aided, directory: &Directory<Global>) -> Vec<u8> {
    let mut told = joined(rt, &[b"D"]);
    for entry in directory.entries() {
        let target = entry.target();
        let [high, low] = target.i_number.get().to_be_bytes();
        let place = [target.principal.get(), high, low];
        let row = joined(rt, &[&place, entry.name().as_bytes()]);
        add_field(rt, &mut told, &row);
    }
    told
}

/// What a client answers that looks: the block that it asks for, or what stands there.
pub(crate) fn look_text(rt: &impl Aided, look: &Look<Global>) -> Vec<u8> {
    match look {
        Look::Need(digest) => need_text(rt, digest),
        Look::File(bytes) => joined(rt, &[b"F", bytes]),
        Look::Dir(directory) => directory_text(rt, directory),
        Look::None => joined(rt, &[b"0"]),
        Look::Kind(_) => joined(rt, &[b"K"]),
        Look::Free(_) => joined(rt, &[b"P"]),
        Look::Broken(rule) => broken_text(rt, *rule),
    }
}

/// A signed structure, and the accepted view.
pub(crate) fn view_text(
    rt: &impl Aided,
    text: &[u8],
    structures: &[Signed<Structure<Global>>],
    table: &Table<Global>,
    lost: &[u8],
) -> Vec<u8> {
    let mut signatures = Vec::new(rt.alloc());
    for shown in structures {
        let signature = shown.signature.as_bytes();
        given(rt, signatures.extend_from_slice(signature), "memory");
    }
    let table = given(rt, table.text(rt.alloc()), "memory");
    let fields = fields(rt, &[text, &table, lost, &signatures]);
    joined(rt, &[b"s", &fields])
}

/// The error of an answer, with a letter for the call.
fn error_in(answer: &Answer<Global>) -> Option<(u8, &ClientError)> {
    match answer {
        Answer::Refused(error) => Some((b'o', error)),
        Answer::Begun(Err(error)) => Some((b'd', error)),
        Answer::Asks(Err(error)) => Some((b'r', error)),
        Answer::Signed(Err(error)) => Some((b's', error)),
        Answer::Sees(Err(error)) => Some((b'v', error)),
        _ => None,
    }
}

/// An answer without a text.
fn letter_of(answer: &Answer<Global>) -> &'static [u8] {
    match answer {
        Answer::NotTaken => b"-",
        Answer::Closed => b"k",
        Answer::Gained => b"y",
        Answer::Committed => b"c",
        Answer::Cached => b"h",
        Answer::Crashed => b"x",
        _ => b"?",
    }
}

/// An answer of `run`, or of `honest_run`.
fn spelled(rt: &impl Aided, answer: &Answer<Global>) -> Vec<u8> {
    match answer {
        Answer::Opened(phase, again) => opened_text(rt, *phase, again),
        Answer::Begun(Ok(update)) => joined(rt, &[b"b", update]),
        Answer::Asks(Ok(step)) => step_text(rt, step),
        Answer::Signed(Ok(view)) => {
            view_text(rt, &view.text, &view.structures, &view.table, &view.lost)
        }
        Answer::Sees(Ok(look)) => look_text(rt, look),
        Answer::Served(status) => joined(rt, &[&[b'v', *status as u8]]),
        _ => match error_in(answer) {
            Some((call, error)) => error_text(rt, call, error),
            None => joined(rt, &[letter_of(answer)]),
        },
    }
}

/// All answers.
pub(crate) fn all_spelled(rt: &impl Aided, answers: &[Answer<Global>]) -> Vec<Vec<u8>> {
    let mut told = Vec::new(rt.alloc());
    for answer in answers {
        given(rt, told.push(spelled(rt, answer)), "memory");
    }
    told
}
