//! Connections that bring one text again and again, and count what comes of it.

ghost use Rattle.std.specs.Prelude.{◌≤◌, None};
ghost use Rattle.std.specs.Iterator.{at_most};
ghost use Rattle.leaf_ledger.specs.Device.{HasRisen};

use connection::{Connection, ConnectionFault};
use std::sync::atomic::{AtomicU64, Ordering};

/// What all connections count together.
#[derive(Drop)]
pub(crate) struct Counts {
    /// How many are open, how many were at most, and how many came.
    pub(crate) open: AtomicU64,
    pub(crate) most: AtomicU64,
    pub(crate) all: AtomicU64,
    /// How often something was read.
    pub(crate) reads: AtomicU64,
    /// How often the reply was written that ends them, and how often another one.
    pub(crate) last_replies: AtomicU64,
    pub(crate) other_replies: AtomicU64,
    /// How many bytes were to be written.
    pub(crate) size: AtomicU64,
}

impl Counts {
    /// Nothing was counted.
    pub(crate) fn new() -> Counts {
        Counts {
            open: AtomicU64::new(0),
            most: AtomicU64::new(0),
            all: AtomicU64::new(0),
            reads: AtomicU64::new(0),
            last_replies: AtomicU64::new(0),
            other_replies: AtomicU64::new(0),
            size: AtomicU64::new(0),
        }
    }
}

/// What a connection brings: the text, and in how many reads.
#[derive(Clone, Copy)]
pub(crate) struct Brought<'a> {
    pub(crate) text: &'a [u8],
    pub(crate) reads: u64,
}

/// How connections end.
#[derive(Clone, Copy)]
pub(crate) struct Ending<'a> {
    /// Each ends once this reply was written so often over all of them.
    pub(crate) reply: &'a [u8],
    pub(crate) times: u64,
    /// In the place of an end there is a fault, and each write is one.
    pub(crate) is_fault: bool,
}

/// A connection that brings a text in its first so many reads.
pub(crate) struct Counted<'a> {
    counts: &'a Counts,
    brought: Brought<'a>,
    ending: Ending<'a>,
    ended: bool,
    faults: u64,
}

impl<'a> Counted<'a> {
    /// A connection from which nothing was read, and which counts as open until it is let go.
    pub(crate) fn new(counts: &'a Counts, brought: Brought<'a>, ending: Ending<'a>) -> Counted<'a> {
        let open = counts.open.fetch_add(1, Ordering::SeqCst).wrapping_add(1);
        counts.most.fetch_max(open, Ordering::SeqCst);
        counts.all.fetch_add(1, Ordering::SeqCst);
        Counted {
            counts,
            brought,
            ending,
            ended: false,
            faults: 0,
        }
    }

    /// It brings nothing more.
    fn is_done(&self) -> bool {
        let replies = self.counts.last_replies.load(Ordering::SeqCst);
        self.brought.reads == 0 || replies >= self.ending.times
    }
}

impl<'a> Drop for Counted<'a> {
    fn drop(self) {
        let Self {
            counts,
            brought: _,
            ending: _,
            ended: _,
            faults: _,
        } = self;
        counts.open.fetch_sub(1, Ordering::SeqCst);
    }
}

/// Counts a fault.
fn fault(faults: &mut u64) -> ConnectionFault
    ensures later { faults.old ≤ faults.new }
    ensures rose { HasRisen faults.old faults.new }
{
    *faults = faults.saturating_add(1);
    ConnectionFault
}

impl<'a> Connection for Counted<'a> {
    ghost told = { λ _. None };

    ghost is_at_end = { λ c. c.ended };

    ghost fault_count = { λ c. c.faults };

    fn read(&mut self, buffer: &mut [u8]) -> Result<usize, ConnectionFault> {
        self.counts.reads.fetch_add(1, Ordering::SeqCst);
        if self.is_done() {
            if self.ending.is_fault {
                return Err(fault(&mut self.faults));
            }
            self.ended = true;
            return Ok(0);
        }
        self.brought.reads = self.brought.reads.saturating_sub(1);
        let text = self.brought.text;
        let count = text.len().min(buffer.len());
        buffer[..count].copy_from_slice(&text[..count]);
        self.ended = count == 0;
        Ok(count)
    }

    fn write(&mut self, bytes: &[u8]) -> Result<(), ConnectionFault> {
        let counts = self.counts;
        let replies = if bytes == self.ending.reply {
            &counts.last_replies
        } else {
            &counts.other_replies
        };
        replies.fetch_add(1, Ordering::SeqCst);
        counts.size.fetch_add(bytes.len() as u64, Ordering::SeqCst);
        if self.ending.is_fault {
            return Err(fault(&mut self.faults));
        }
        Ok(())
    }

    fn faults(&self) -> u64 {
        self.faults
    }
}

/// Connections that come one by one: the last one brings something else than the others.
#[derive(Drop)]
pub(crate) struct Coming<'a> {
    pub(crate) counts: &'a Counts,
    pub(crate) others: Brought<'a>,
    pub(crate) last: Brought<'a>,
    pub(crate) ending: Ending<'a>,
    pub(crate) left: u32,
}

impl<'a> Coming<'a> {
    /// So many come, of which the last one brings this and the others that.
    pub(crate) fn new(
        counts: &'a Counts,
        (others, last): (Brought<'a>, Brought<'a>),
        ending: Ending<'a>,
        left: u32,
    ) -> Coming<'a> {
        Coming {
            counts,
            others,
            last,
            ending,
            left,
        }
    }
}

impl<'a> Iterator for Coming<'a> {
    type Item = Counted<'a>;

    ghost remaining = { λ s. at_most s.left };

    fn next(&mut self) -> Option<Counted<'a>> {
        if self.left == 0 {
            return None;
        }
        self.left -= 1;
        let brought = if self.left == 0 {
            self.last
        } else {
            self.others
        };
        Some(Counted::new(self.counts, brought, self.ending))
    }
}
