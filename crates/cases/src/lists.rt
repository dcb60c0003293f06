//! Replies that are made of operations, each of which is told by its parts: the first rule on the lists that they
//! break.
//!
//! A line has, with `|` between them, the operations whose structures are shown; those that are pending, of which the
//! last is the own one; and all operations of the line, in the order of their placing. They name one another by their
//! places in it.
//!
//! An operation has a name, by which its parts were told before, and after it, with `;` before each, those of its parts
//! that are others: the `user` and the `number` of the plan, and the `signer` and the number `signed` of the
//! certificate where these are others; the operation whose structure the certificate names `last`, of which `-` is
//! none, and `?` what nobody made; the versions that the vector `counts`, each after its principal; the operations of
//! which the plan has `entries`, ascending by user, of which `?` is user 1's first one with a plan of nobody's;
//! `changes g`, where the certificate changes group 64; and `another`, where the plan names another certificate. Each
//! number has one digit, and `g` is group 64.

use crate::names::{push, two_bytes};
use crate::stop::Stop;
use crate::words::{Words, found};
use crate::world::World;
use layout::{digest, let_go};
use lms_sign::SIGNATURE_SIZE;
use std::alloc::Global;

/// A signature that nobody checks.
const SIGNATURE: [u8; SIGNATURE_SIZE] = [0; SIGNATURE_SIZE];

/// How many bytes a structure has beside its plan: a tag, the plan's size, a handle, and that there are no records.
const STRUCTURE_REST: usize = 4 + 2 + 32 + 1;

/// How many operations a line has at most.
const MOST_OPERATIONS: usize = 9;

/// The group that `g` is.
const GROUP: u8 = 64;

/// An operation of a line.
#[derive(Drop)]
struct Placed {
    user: u8,
    number: u8,
    certificate: Vec<u8>,
    plan: Vec<u8>,
}

/// The parts of an operation: those of the one of its name, and its own.
#[derive(Clone, Copy)]
struct Parts<'a> {
    known: &'a str,
    own: &'a str,
}

impl<'a> Parts<'a> {
    /// What the last part with this word says after it.
    fn said(self, word: &str) -> Option<&'a str> {
        let mut said = None;
        for parts in [self.known, self.own] {
            for part in parts.split(';') {
                said = part.strip_prefix(word).or(said);
            }
        }
        said
    }

    /// The number that it says.
    fn number(self, word: &str) -> Option<u8> {
        for digit in self.said(word)?.bytes() {
            let number = number_of(digit);
            if number.is_some() {
                return number;
            }
        }
        None
    }
}

/// The number of a digit, where `?` is greater than each place of a line.
fn number_of(digit: u8) -> Option<u8> {
    match digit {
        b'0'..=b'9' => Some(digit - b'0'),
        b'g' => Some(GROUP),
        b'?' => Some(u8::MAX),
        _ => None,
    }
}

/// The numbers that digits tell.
fn numbers(alloc: Global, digits: &str) -> Result<Vec<u8>, Stop> {
    let mut numbers = Vec::new(alloc);
    for digit in digits.bytes() {
        if let Some(number) = number_of(digit) {
            numbers.push(number)?;
        }
    }
    Ok(numbers)
}

/// Adds a text after its size.
fn push_sized(inner: &[u8], text: &mut Vec<u8>) -> Result<(), Stop> {
    push(text, &two_bytes(inner.len())?)?;
    push(text, inner)
}

/// Adds how many rows there are.
fn push_count(count: usize, text: &mut Vec<u8>) -> Result<(), Stop> {
    let [.., count] = count.to_be_bytes();
    push(text, &[count])
}

/// Adds the structure of an operation, without records.
fn push_structure(placed: &Placed, text: &mut Vec<u8>) -> Result<(), Stop> {
    push(text, b"SVS1")?;
    push_sized(&placed.plan, text)?;
    push(text, &[0; 33])
}

/// Adds the digest by which a certificate names the structure before it.
fn push_last(line: &[Placed], parts: Parts<'_>, text: &mut Vec<u8>) -> Result<(), Stop> {
    let Some(place) = parts.number("last") else {
        return push(text, &[0; 32]);
    };
    let Some(placed) = line.get(usize::from(place)) else {
        return push(text, &[1; 32]);
    };
    let from = text.len();
    push_structure(placed, text)?;
    let named = digest(text.get(from..).unwrap_or(&[]));
    text.truncate(from);
    push(text, named.as_bytes())
}

/// Adds the operation's certificate after these.
fn push_certificate(
    line: &[Placed],
    parts: Parts<'_>,
    own: (u8, u8),
    text: &mut Vec<u8>,
) -> Result<(), Stop> {
    let signer = parts.number("signer").unwrap_or(own.0);
    let signed = parts.number("signed").unwrap_or(own.1);
    push(text, b"SUC1")?;
    push(text, &[signer, 0, 0, 0, signed])?;
    push_last(line, parts, text)?;
    match parts.number("changes") {
        Some(_) => push(text, b"\x01\x03\x40\0\x05"),
        None => push(text, b"\0"),
    }
}

/// Adds the entries of the operations at these places.
fn push_entries(line: &[Placed], places: &[u8], text: &mut Vec<u8>) -> Result<(), Stop> {
    push_count(places.len(), text)?;
    for place in places {
        match line.get(usize::from(*place)) {
            Some(placed) => {
                push(text, &[placed.user, 0, 0, 0, placed.number])?;
                push(text, digest(&placed.plan).as_bytes())?;
            }
            None => {
                push(text, &[1, 0, 0, 0, 1])?;
                push(text, &[0; 32])?;
            }
        }
    }
    Ok(())
}

/// Adds the vector of these versions, each after its principal.
fn push_vector(counted: &[u8], text: &mut Vec<u8>) -> Result<(), Stop> {
    push_count(counted.len() / 2, text)?;
    for pair in counted.chunks(2) {
        let [principal, version] = pair else {
            return Err(Stop::Word);
        };
        push(text, &[*principal, 0, 0, 0, *version])?;
    }
    Ok(())
}

/// Adds the operation's plan after these, which names a certificate.
fn push_plan(
    world: &World,
    line: &[Placed],
    parts: Parts<'_>,
    placed: &mut Placed,
) -> Result<(), Stop> {
    let text = &mut placed.plan;
    push(text, b"SVP1")?;
    push(text, &[placed.user, 0, 0, 0, placed.number])?;
    match parts.said("another") {
        Some(_) => push(text, &[1; 32])?,
        None => push(text, digest(&placed.certificate).as_bytes())?,
    }
    push_vector(
        &numbers(world.alloc, parts.said("counts").unwrap_or(""))?,
        text,
    )?;
    push_entries(
        line,
        &numbers(world.alloc, parts.said("entries").unwrap_or(""))?,
        text,
    )
}

/// Adds an operation to a line.
fn place(world: &World, line: &mut Vec<Placed>, operation: &str) -> Result<(), Stop> {
    let (name, _) = operation.split_once(';').unwrap_or((operation, ""));
    let Ok(known) = std::str::from_utf8(world.names.bytes_of(name)?) else {
        return Err(Stop::Word);
    };
    let parts = Parts {
        known,
        own: operation,
    };
    let user = found(parts.number("user"))?;
    let number = found(parts.number("number"))?;
    let mut placed = Placed {
        user,
        number,
        certificate: Vec::new(world.alloc),
        plan: Vec::new(world.alloc),
    };
    push_certificate(line, parts, (user, number), &mut placed.certificate)?;
    push_plan(world, line, parts, &mut placed)?;
    line.push(placed)?;
    Ok(())
}

/// Adds the structures of the operations at these places.
fn push_shown(line: &[Placed], places: &[u8], text: &mut Vec<u8>) -> Result<(), Stop> {
    push_count(places.len(), text)?;
    for place in places {
        let placed = found(line.get(usize::from(*place)))?;
        // The structure stands after its size: that of what is around its plan, and its plan's.
        let size = placed.plan.len().saturating_add(STRUCTURE_REST);
        push(text, &two_bytes(size)?)?;
        push_structure(placed, text)?;
        push(text, &SIGNATURE)?;
    }
    Ok(())
}

/// Adds the pending operations at these places.
fn push_pending(line: &[Placed], places: &[u8], text: &mut Vec<u8>) -> Result<(), Stop> {
    push_count(places.len(), text)?;
    for place in places {
        let placed = found(line.get(usize::from(*place)))?;
        push_sized(&placed.certificate, text)?;
        push(text, &SIGNATURE)?;
        push_sized(&placed.plan, text)?;
    }
    Ok(())
}

/// Adds the reply whose lists have the operations at these places.
fn push_reply(
    world: &World,
    line: &[Placed],
    places: (&str, &str),
    text: &mut Vec<u8>,
) -> Result<(), Stop> {
    push(text, b"SRL1")?;
    push_shown(line, &numbers(world.alloc, places.0)?, text)?;
    push_pending(line, &numbers(world.alloc, places.1)?, text)
}

/// Adds all operations that are left to a line.
fn place_all(world: &World, line: &mut Vec<Placed>, words: &mut Words<'_>) -> Result<(), Stop> {
    for _ in 0..MOST_OPERATIONS {
        if words.is_empty() {
            break;
        }
        place(world, line, words.part())?;
    }
    Ok(())
}

/// The text is that of a reply.
pub(crate) fn list(world: &mut World, words: &mut Words<'_>) -> Result<(), Stop> {
    let places = (words.part(), words.part());
    let mut line = Vec::new(world.alloc);
    let mut text = Vec::new(world.alloc);
    place_all(world, &mut line, words)?;
    push_reply(world, &line, places, &mut text)?;
    let_go(line);
    world.keep(Ok(text))
}

/// An operation has a name and these parts from now on.
pub(crate) fn operation(world: &mut World, words: &mut Words<'_>) -> Result<(), Stop> {
    let parts = words.rest();
    let (name, _) = parts.split_once(';').unwrap_or((parts, ""));
    let parts = Vec::from_slice(world.alloc, parts.as_bytes())?;
    world.names.name(name, parts)
}
