//! A stream that comes in pieces, and its frames.

ghost use Rattle.std.specs.Prelude.{◌≡◌, ◌≢◌, ◌≤◌, ◌<◌, ◌+◌, ◌-◌, MatchBool, ◌++◌, ◌∷◌, [], Err, IfOk, IfErr, IfSome};
ghost use Rattle.std.specs.Prelude.{IfNone, OnOk, OnErr, drop, length};
ghost use Rattle.layout.specs.declared.error.ReadError.TheVariants as read_error;
ghost use Rattle.wire.specs.declared.stream.FrameError.TheVariants as frame_error;
ghost use Rattle.wire.specs.Stream.{IsFrameThen, BeginsFrame, BeginsAtFault, Runs, step_of_feed, step_of_next};

use crate::frames::first_body;
use layout::{Memory, ReadError, Reader};
use std::alloc::{AllocError, Allocator};
use std::marker::Model;
use thiserror::Error;

/// Why no frame is handed out.
#[derive(Debug, Drop, Error)]
pub enum FrameError {
    /// The length of the next frame is 0 or above `BODY_LIMIT`. From then on each call answers so.
    #[error("the length of a frame is out of range")]
    Length,
    /// Memory ran out. The frame still waits.
    #[error("out of memory")]
    Memory,
}

impl From<AllocError> for FrameError {
    ghost from_gives = { λ _ e. e ≡ frame_error.Memory };

    fn from(_e: AllocError) -> FrameError {
        FrameError::Memory
    }
}

fn is_range(fault: &ReadError) -> bool
    ensures { MatchBool result (fault.now ≡ read_error.Range) (fault.now ≢ read_error.Range) }
{
    matches!(fault, ReadError::Range)
}

/// Takes a stream in pieces of any size, and hands out its frames. Contracts see the bytes that wait.
#[derive(Drop)]
pub struct Frames<A: Allocator> {
    /// What was fed, but for what was let go.
    bytes: Vec<u8, A>,
    /// How many of these bytes were handed out. They are let go of once they are half of all, so that each byte of a
    /// stream is moved once on average.
    handed_out: usize,
}

impl<A: Allocator> Model for Frames<A> {
    ghost use Rattle.std.specs.Prelude.{ℕ, List, ◌≤◌, length, drop};

    ghost Value = { List ℕ };

    ghost view = { λ f. drop f.handed_out f.bytes.items };

    ghost invariant = { λ f. f.handed_out ≤ length f.bytes.items };
}

/// Lets go of the bytes in front that were handed out, where they are half of all or more, and tells how many are left
/// of them.
fn let_go<A: Allocator>(bytes: &mut Vec<u8, A>, handed_out: usize) -> usize
    requires { handed_out ≤ length bytes.old.items }
    ensures waiting { drop result bytes.new.items ≡ drop handed_out bytes.old.items }
    // At most half of what is kept was handed out.
    ensures few { result + result ≤ length bytes.new.items }
    // Nothing is moved while more than half of the bytes wait.
    ensures same { handed_out + handed_out < length bytes.old.items → bytes.new.items ≡ bytes.old.items }
{
    let waiting = bytes.len() - handed_out;
    if handed_out < waiting {
        return handed_out;
    }
    let (front, back) = bytes.split_at_mut(handed_out);
    front[..waiting].copy_from_slice(back);
    bytes.truncate(waiting);
    0
}

impl<A: Allocator> Frames<A> {
    /// Nothing was fed.
    pub fn new(alloc: A) -> Frames<A>
        ensures { result ≡ [] }
    {
        Frames {
            bytes: Vec::new(alloc),
            handed_out: 0,
        }
    }

    /// Takes a piece of the stream. Where memory ran out it took nothing of it.
    pub fn feed(&mut self, piece: &[u8]) -> Result<(), Memory>
        ensures ok { OnOk result (self.new ≡ self.old ++ piece.now) }
        ensures err { OnErr result (self.new ≡ self.old) }
        // Memory is wanted for bytes alone.
        ensures memory { OnErr result (piece.now ≢ []) }
        // A length at fault stays in front.
        ensures at_fault { BeginsAtFault self.old → BeginsAtFault self.new }
        ensures step { Runs self.old (step_of_feed piece.now result ∷ []) self.new }
    {
        self.handed_out = let_go(&mut self.bytes, self.handed_out);
        self.bytes.extend_from_slice(piece)?;
        Ok(())
    }

    /// What waits.
    fn waiting(&self) -> &[u8]
        ensures { result.now ≡ self.now }
    {
        &self.bytes[self.handed_out..]
    }

    /// The body of the frame that begins what waits, and what waits after it, if it is whole.
    fn next_body(&self) -> Result<Option<(&[u8], &[u8])>, FrameError>
        ensures frame { IfOk result (λ next. IfSome next (λ x. IsFrameThen x.0.now x.1.now self.now)) }
        ensures none { IfOk result (λ next. IfNone next (¬ BeginsFrame self.now × ¬ BeginsAtFault self.now)) }
        ensures err { IfErr result (λ e. (e ≡ frame_error.Length) × BeginsAtFault self.now) }
    {
        let mut reader = Reader::new(self.waiting());
        match first_body(&mut reader) {
            Ok(body) => Ok(Some((body, reader.left()))),
            Err(fault) if is_range(&fault) => Err(FrameError::Length),
            Err(_) => Ok(None),
        }
    }
}

impl<A: Allocator + Copy> Frames<A> {
    /// Hands out the body of the next frame, 1 to 2,097,152 bytes. None where it isn't whole yet.
    pub fn next_frame(&mut self) -> Result<Option<Vec<u8, A>>, FrameError>
        // What is handed out began what waited, and the rest waits on.
        ensures frame { IfOk result (λ next. IfSome next (λ body. IsFrameThen body.items self.new self.old)) }
        ensures none { IfOk result (λ next. IfNone next (¬ BeginsFrame self.old × ¬ BeginsAtFault self.old)) }
        ensures none_same { IfOk result (λ next. IfNone next (self.new ≡ self.old)) }
        ensures length { IfErr result (λ e. e ≡ frame_error.Length → BeginsAtFault self.old) }
        ensures at_fault { BeginsAtFault self.old → result ≡ Err frame_error.Length }
        // Memory is wanted for a whole frame alone.
        ensures memory { IfErr result (λ e. e ≡ frame_error.Memory → BeginsFrame self.old) }
        ensures err { OnErr result (self.new ≡ self.old) }
        ensures step { Runs self.old (step_of_next result ∷ []) self.new }
    {
        let alloc = *self.bytes.allocator();
        match self.next_body()? {
            Some((body, after)) => {
                let body = Vec::from_slice(alloc, body)?;
                let waiting = after.len();
                self.handed_out = self.bytes.len() - waiting;
                Ok(Some(body))
            }
            None => Ok(None),
        }
    }
}
