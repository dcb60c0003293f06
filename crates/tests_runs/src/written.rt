//! Scripts (`stage.rt`) in which operations and looks have signs of their own. A row of one capital letter is the
//! declaration of that operation, A the first one; and a user's row `*` stands for looks at all places.

use crate::notes::Notes;
use crate::plain_world::Operation;
use crate::stage::plays;
use tests_aids::texts::joined;
use tests_aids::{Host, found, given};

/// Adds looks of a user at all places, each a principal and an i-number.
fn add_looks(rt: &impl Host, rows: &mut Vec<Vec<u8>>, digit: u8, places: &[(u8, u8)]) {
    for (owner, number) in places {
        let row = joined(rt, &[&[digit, b'L', *owner, *number]]);
        given(rt, rows.push(row), "memory");
    }
}

/// Adds the declaration of the operation of this letter.
fn add_declaration(rt: &impl Host, rows: &mut Vec<Vec<u8>>, letter: u8, operations: &[Operation]) {
    let place = usize::from(letter.wrapping_sub(b'A'));
    let Operation { user, changes } = found(rt, operations.get(place), "an operation");
    let digit = user.wrapping_add(b'0');
    let row = joined(rt, &[&[digit, b'D'], changes]);
    given(rt, rows.push(row), "memory");
}

/// The rows, with operations and looks in the place of their signs.
fn written_out(
    rt: &impl Host,
    operations: &[Operation],
    places: &[(u8, u8)],
    script: &[&[u8]],
) -> Vec<Vec<u8>> {
    let mut rows = Vec::new(rt.alloc());
    for row in script {
        match *row {
            [letter] => add_declaration(rt, &mut rows, *letter, operations),
            [digit, b'*'] => add_looks(rt, &mut rows, *digit, places),
            _ => given(rt, rows.push(joined(rt, &[row])), "memory"),
        }
    }
    rows
}

/// What the script says happens (`plays`), with these operations and looks.
pub(crate) fn plays_written(
    rt: &impl Host,
    operations: &[Operation],
    places: &[(u8, u8)],
    script: &[&[u8]],
) -> Notes {
    let written = written_out(rt, operations, places, script);
    let mut rows = Vec::new(rt.alloc());
    for row in &written {
        given(rt, rows.push(row.as_slice()), "memory");
    }
    plays(rt, &rows)
}
