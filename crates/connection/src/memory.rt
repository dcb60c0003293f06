//! A connection in memory.

ghost use Rattle.std.specs.Prelude.{◌≡◌, ◌<◌, ◌≤◌, ◌-◌, [], Ok, true, take, length, min, nat_eq, IfOk, OnErr};
ghost use Rattle.leaf_ledger.specs.Device.{HasCause};
ghost use Rattle.connection.specs.Told.{goes_on, told_of};

use crate::connection::{Connection, ConnectionFault, fault};

/// A connection whose bytes are known before, and come in pieces. What is written to it is put to the output. It fails
/// where that finds no memory.
#[derive(Drop)]
pub struct MemoryConnection<'a> {
    input: &'a [u8],
    given: usize,
    piece: usize,
    output: &'a mut Vec<u8>,
    faults: u64,
    ghost within: { given ≤ length input.now },
    ghost some: { 0 < piece },
}

impl<'a> MemoryConnection<'a> {
    /// A connection that gives these bytes, at most so many at a time.
    pub fn new(input: &'a [u8], piece: usize, output: &'a mut Vec<u8>) -> MemoryConnection<'a>
        requires { 0 < piece }
        ensures input { (result.input ≡ input.entry) × (result.given ≡ 0) × (result.piece ≡ piece) }
        ensures output { result.output ≡ output.entry }
    {
        MemoryConnection {
            input,
            given: 0,
            piece,
            output,
            faults: 0,
        }
    }
}

impl<'a> Connection for MemoryConnection<'a> {
    ghost told = { λ c. told_of c.input.now c.given c.output.now.items };

    ghost is_at_end = { λ c. nat_eq c.given (length c.input.now) };

    ghost fault_count = { λ c. c.faults };

    fn read(&mut self, buffer: &mut [u8]) -> Result<usize, ConnectionFault>
        ensures bound { IfOk result (λ count. count ≤ length buffer.new) }
        ensures ok { IfOk result (λ count. told_of self.new.input.now self.new.given self.new.output.now.items
            ≡ goes_on (take count buffer.new) [] (told_of self.old.input.now self.old.given self.old.output.now.items)) }
        ensures end { result ≡ Ok 0 → 0 < length buffer.new
            → nat_eq self.new.given (length self.new.input.now) ≡ true }
        ensures err { OnErr result (told_of self.new.input.now self.new.given self.new.output.now.items
            ≡ told_of self.old.input.now self.old.given self.old.output.now.items) }
        ensures cause { HasCause self.old.faults self.new.faults result }
        // So many come at once, and not more.
        ensures count { result ≡ Ok (min (min (length self.old.input.now - self.old.given) (length buffer.old))
            self.old.piece) }
        ensures same { (self.new.input ≡ self.old.input) × (self.new.piece ≡ self.old.piece) }
    {
        let left = self.input.len() - self.given;
        let count = left.min(buffer.len()).min(self.piece);
        buffer[..count].copy_from_slice(&self.input[self.given..self.given + count]);
        self.given += count;
        Ok(count)
    }

    fn write(&mut self, bytes: &[u8]) -> Result<(), ConnectionFault> {
        match self.output.extend_from_slice(bytes) {
            Ok(()) => Ok(()),
            Err(_) => Err(fault(&mut self.faults)),
        }
    }

    fn faults(&self) -> u64 {
        self.faults
    }
}
