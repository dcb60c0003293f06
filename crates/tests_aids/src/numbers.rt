//! Principals, i-numbers, names and entries.

use crate::host::{Aided, found, given};
use directory::{Entry, Name, Target, name_text};
use layout::{INumber, Principal};
use std::alloc::Global;

/// The principal of a number.
pub fn principal(rt: &impl Aided, number: u8) -> Principal {
    found(rt, Principal::new(number), "a principal")
}

/// An i-number.
pub fn i_number(rt: &impl Aided, number: u16) -> INumber {
    found(rt, INumber::new(number), "an i-number")
}

/// A name.
pub fn name(rt: &impl Aided, bytes: &[u8]) -> Name<Global> {
    let text = found(rt, name_text(bytes), "a name");
    given(rt, Name::new(rt.alloc(), text), "memory")
}

/// The entry of a name, which stands for an i-number of a principal.
pub fn entry(rt: &impl Aided, bytes: &[u8], target: (u8, u16)) -> Entry<Global> {
    let text = found(rt, name_text(bytes), "a name");
    let target = Target {
        principal: principal(rt, target.0),
        i_number: i_number(rt, target.1),
    };
    given(rt, Entry::new(rt.alloc(), text, target), "memory")
}
