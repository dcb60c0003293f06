//! Texts in memory whose history only contracts see: of it, only how many calls there were is kept, since a snapshot
//! has no bytes.

ghost use Rattle.std.specs.Prelude.{◌≡◌, ◌≤◌, length, IfOk, OnOk, OnErr};
ghost use Rattle.leaf_ledger.specs.Device.{wrote_bytes, synced, started};

use crate::extent::Extent;
use crate::moment::Moment;
use crate::recording::splice;
use layout::{Memory, beside};
use std::alloc::Allocator;
use std::marker::Model;
use std::snapshot::Snapshot;

/// How many calls can be told of: a vector has no more elements, whatever their size.
const MOST_CALLS: usize = isize::MAX as usize;

/// A text in memory, with what contracts see of its history: what it was at first, and after each call since.
#[derive(Drop)]
pub(crate) struct Followed<A: Allocator> {
    first: Snapshot<Vec<u8, A>>,
    last: Moment<A>,
    moments: Vec<Snapshot<Moment<A>>, A>,
}

impl<A: Allocator> Model for Followed<A> {
    ghost use Rattle.std.specs.Prelude.{◌≡◌};
    ghost use Rattle.leaf_ledger.specs.Device.{History, started};
    ghost use Rattle.leaf_ledger.specs.Followed.{followed};

    ghost Value = { History };

    ghost view = { λ f. followed (started f.first.value.items) f.moments.items };

    ghost invariant = { λ f. (followed (started f.first.value.items) f.moments.items).now.text ≡ f.last.text.items };
}

impl<A: Allocator + Copy> Followed<A> {
    /// A text of which a sync has just succeeded, with room for so many bytes past its end. Room for the snapshots of all
    /// calls to come has no bytes, and is asked for here.
    pub(crate) fn new(text: Vec<u8, A>, room: usize) -> Result<Followed<A>, Memory>
        ensures { IfOk result (λ followed. followed ≡ started text.items) }
    {
        let mut text = text;
        text.reserve(room)?;
        let moments = Vec::with_capacity(*text.allocator(), MOST_CALLS);
        let (text, moments) = beside(text, moments)?;
        Ok(Followed {
            first: Snapshot::of(&text),
            last: Moment {
                text,
                written: None,
            },
            moments,
        })
    }
}

impl<A: Allocator> Followed<A> {
    /// Makes room for so many bytes past the end.
    pub(crate) fn reserve(&mut self, more: usize) -> Result<(), Memory>
        ensures { self.new ≡ self.old }
    {
        self.last.text.reserve(more)?;
        Ok(())
    }

    /// Writes bytes at an offset. It takes no memory where there is room for them, and then fails only after
    /// `MOST_CALLS` calls.
    pub(crate) fn write(&mut self, at: usize, bytes: &[u8]) -> Result<(), Memory>
        requires { at ≤ length self.old.now.text }
        ensures ok { OnOk result (self.new ≡ wrote_bytes at bytes.now self.old) }
        ensures err { OnErr result (self.new ≡ self.old) }
    {
        self.moments.reserve(1)?;
        splice(&mut self.last.text, at, bytes)?;
        self.last.written = Some(Extent {
            at,
            size: bytes.len(),
        });
        self.moments.push_reserved(Snapshot::of(&self.last));
        Ok(())
    }

    /// Syncs: what a read gives is the synced text from now on. It takes no memory, and fails only after
    /// `MOST_CALLS` calls.
    pub(crate) fn sync(&mut self) -> Result<(), Memory>
        ensures ok { OnOk result (self.new ≡ synced self.old) }
        ensures err { OnErr result (self.new ≡ self.old) }
    {
        self.moments.reserve(1)?;
        self.last.written = None;
        self.moments.push_reserved(Snapshot::of(&self.last));
        Ok(())
    }

    /// What a read gives.
    pub(crate) fn text(&self) -> &[u8]
        ensures { result.now ≡ self.now.now.text }
    {
        &self.last.text
    }
}
