//! Reading fields from the front of a text.

ghost use Rattle.layout.specs.declared.error.ReadError.TheVariants as read_error;
ghost use Rattle.std.specs.Prelude.{◌≢◌, IfErr, ◌≡◌, length, OnErr, IfOk, nat_lt};
ghost use Rattle.std.specs.Int.{w8, w16, w32};
ghost use Rattle.layout.specs.Format.{Reads, ReadsAs, IsBytes, uint_in, tagged, raw, string, ends};

use crate::error::ReadError;
use std::marker::Model;

/// What is left of a text.
#[derive(Drop)]
pub struct Reader<'a> {
    left: &'a [u8],
}

impl<'a> Model for Reader<'a> {
    ghost use Rattle.std.specs.Prelude.{ℕ, List};

    ghost Value = { List ℕ };

    ghost view = { λ r. r.left.now };
}

/// Whether fewer bytes are left than are wanted. What is left are bytes, whatever they are.
fn is_short(left: &[u8], wanted: usize) -> bool
    ensures short { result ≡ nat_lt (length left.now) wanted }
    ensures bytes { IsBytes left.now }
{
    left.len() < wanted
}

impl<'a> Reader<'a> {
    pub fn new(bytes: &'a [u8]) -> Reader<'a>
        ensures { result ≡ bytes.now }
    {
        Reader { left: bytes }
    }

    /// A byte from `low` to `high`.
    pub fn u8_in(&mut self, low: u8, high: u8) -> Result<u8, ReadError>
        ensures reads { Reads result self.new ((uint_in w8 low high).read self.old) }
        ensures bytes { IsBytes self.old }
        ensures no_memory { IfErr result (λ e. e ≢ read_error.Memory) }
        ensures err { OnErr result (self.new ≡ self.old) }
    {
        if is_short(self.left, 1) {
            return Err(ReadError::Short);
        }
        let (front, rest) = self.left.split_at(1);
        let number = front[0];
        if number < low || high < number {
            return Err(ReadError::Range);
        }
        self.left = rest;
        Ok(number)
    }

    /// Two bytes, a number from `low` to `high`.
    pub fn u16_in(&mut self, low: u16, high: u16) -> Result<u16, ReadError>
        ensures reads { Reads result self.new ((uint_in w16 low high).read self.old) }
        ensures bytes { IsBytes self.old }
        ensures no_memory { IfErr result (λ e. e ≢ read_error.Memory) }
        ensures err { OnErr result (self.new ≡ self.old) }
    {
        if is_short(self.left, 2) {
            return Err(ReadError::Short);
        }
        let (front, rest) = self.left.split_at(2);
        let number = u16::from_be_bytes([front[0], front[1]]);
        if number < low || high < number {
            return Err(ReadError::Range);
        }
        self.left = rest;
        Ok(number)
    }

    /// Four bytes, a number from `low` to `high`.
    pub fn u32_in(&mut self, low: u32, high: u32) -> Result<u32, ReadError>
        ensures reads { Reads result self.new ((uint_in w32 low high).read self.old) }
        ensures bytes { IsBytes self.old }
        ensures no_memory { IfErr result (λ e. e ≢ read_error.Memory) }
        ensures err { OnErr result (self.new ≡ self.old) }
    {
        if is_short(self.left, 4) {
            return Err(ReadError::Short);
        }
        let (front, rest) = self.left.split_at(4);
        let number = u32::from_be_bytes([front[0], front[1], front[2], front[3]]);
        if number < low || high < number {
            return Err(ReadError::Range);
        }
        self.left = rest;
        Ok(number)
    }

    /// As many bytes as are wanted.
    pub fn bytes(&mut self, count: usize) -> Result<&'a [u8], ReadError>
        ensures reads { ReadsAs (λ x. x.now) result self.new ((raw count).read self.old) }
        ensures bytes { IsBytes self.old }
        ensures no_memory { IfErr result (λ e. e ≢ read_error.Memory) }
        ensures size { IfOk result (λ x. length x.now ≡ count) }
        ensures err { OnErr result (self.new ≡ self.old) }
    {
        if is_short(self.left, count) {
            return Err(ReadError::Short);
        }
        let (front, rest) = self.left.split_at(count);
        self.left = rest;
        Ok(front)
    }

    /// These very bytes.
    pub fn tag(&mut self, tag: &[u8]) -> Result<(), ReadError>
        ensures reads { Reads result self.new ((tagged tag.now).read self.old) }
        ensures bytes { IsBytes self.old }
        ensures no_memory { IfErr result (λ e. e ≢ read_error.Memory) }
        ensures err { OnErr result (self.new ≡ self.old) }
    {
        if is_short(self.left, tag.len()) {
            return Err(ReadError::Short);
        }
        let (front, rest) = self.left.split_at(tag.len());
        if front != tag {
            return Err(ReadError::BadTag);
        }
        self.left = rest;
        Ok(())
    }

    /// Two bytes of size, and as many bytes.
    pub fn sized(&mut self) -> Result<&'a [u8], ReadError>
        ensures reads { ReadsAs (λ x. x.now) result self.new ((string (uint_in w16 0 65535)).read self.old) }
        ensures bytes { IsBytes self.old }
        ensures no_memory { IfErr result (λ e. e ≢ read_error.Memory) }
        ensures err { OnErr result (self.new ≡ self.old) }
    {
        let start = self.left;
        let size = self.u16_in(0, u16::MAX)?;
        match self.bytes(usize::from(size)) {
            Ok(bytes) => Ok(bytes),
            Err(fault) => {
                self.left = start;
                Err(fault)
            }
        }
    }

    /// What is left.
    pub fn left(&self) -> &'a [u8]
        ensures { result.now ≡ self.now }
    {
        self.left
    }

    /// Goes back to where this was left.
    pub fn go_back(&mut self, left: &'a [u8])
        ensures { self.new ≡ left.now }
    {
        self.left = left;
    }

    /// Whether nothing is left.
    pub fn is_empty(&self) -> bool
        ensures { result ≡ ends self.now }
    {
        self.left.is_empty()
    }
}
