//! Texts in memory that keep their history.

ghost use Rattle.std.specs.Prelude.{◌≡◌, ◌+◌, ◌≤◌, ◌<◌, ◌++◌, [], ◌∷◌, length, IfOk, OnOk, OnErr, true, false};
ghost use Rattle.leaf_ledger.specs.Device.{History, wrote, written, synced, started, Torn, IsOutside, reach, MayLeave};

use crate::device_call::DeviceCall;
use crate::extent::Extent;
use layout::Memory;
use std::alloc::Allocator;
use std::marker::Model;

/// Writes bytes into a text at an offset, over what is there and past the end.
pub(crate) fn splice<A: Allocator>(
    text: &mut Vec<u8, A>,
    at: usize,
    bytes: &[u8],
) -> Result<(), Memory>
    requires { at ≤ length text.old.items }
    ensures ok { OnOk result (text.new.items ≡ written at bytes.now text.old.items) }
    ensures err { OnErr result (text.new.items ≡ text.old.items) }
{
    let inside = bytes.len().min(text.len() - at);
    let (front, back) = bytes.split_at(inside);
    text.extend_from_slice(back)?;
    text[at..at + inside].copy_from_slice(front);
    Ok(())
}

/// Whether a place is in none of the extents.
fn is_outside(extents: &[Extent], i: usize) -> bool
    ensures yes { result ≡ true → IsOutside extents.now i }
    ensures no { result ≡ false → IsOutside extents.now i → ⊥ }
{
    let mut rest = extents;
    while let [extent, after @ ..] = rest {
        if extent.at <= i && i - extent.at < extent.size {
            return false;
        }
        rest = after;
    }
    true
}

/// Whether a length is at most a size or the end of one of the extents.
fn reaches(extents: &[Extent], size: usize, length: usize) -> bool
    ensures yes { result ≡ true → length ≤ reach size extents.now }
    ensures no { result ≡ false → reach size extents.now < length }
{
    let mut rest = extents;
    while let [extent, after @ ..] = rest {
        if length <= extent.at || length - extent.at <= extent.size {
            return true;
        }
        rest = after;
    }
    length <= size
}

/// Whether a text may be left where these extents of another were written.
fn may_be_left(synced_text: &[u8], unsynced: &[Extent], left: &[u8]) -> bool
    ensures yes { result ≡ true → Torn synced_text.now unsynced.now left.now }
    ensures no { result ≡ false → Torn synced_text.now unsynced.now left.now → ⊥ }
{
    if left.len() < synced_text.len() || !reaches(unsynced, synced_text.len(), left.len()) {
        return false;
    }
    for i in 0..synced_text.len() {
        if left[i] != synced_text[i] && is_outside(unsynced, i) {
            return false;
        }
    }
    true
}

/// A text in memory with the calls that made it: what it was at first and each call since, so that each moment that it
/// had can be told again.
#[derive(Drop)]
pub(crate) struct Recording<A: Allocator> {
    first: Vec<u8, A>,
    calls: Vec<DeviceCall<A>, A>,
    text: Vec<u8, A>,
    synced_text: Vec<u8, A>,
    unsynced: Vec<Extent, A>,
}

impl<A: Allocator> Model for Recording<A> {
    ghost use Rattle.std.specs.Prelude.{◌≡◌};
    ghost use Rattle.leaf_ledger.specs.Device.{History, started};
    ghost use Rattle.leaf_ledger.specs.Recording.{replayed};

    ghost Value = { History };

    ghost view = { λ r. replayed (started r.first.items) r.calls.items };

    ghost invariant = { λ r. (replayed (started r.first.items) r.calls.items).now
        ≡ record { text = r.text.items; synced_text = r.synced_text.items; unsynced = r.unsynced.items } };
}

impl<A: Allocator + Copy> Recording<A> {
    /// A text of which a sync has just succeeded.
    pub(crate) fn new(alloc: A, text: Vec<u8, A>) -> Result<Recording<A>, Memory>
        ensures { IfOk result (λ recording. recording ≡ started text.items) }
    {
        let first = Vec::from_slice(alloc, &text)?;
        let synced_text = Vec::from_slice(alloc, &text)?;
        Ok(Recording {
            first,
            calls: Vec::new(alloc),
            text,
            synced_text,
            unsynced: Vec::new(alloc),
        })
    }

    /// Writes bytes at an offset, as the front of a write of `size` bytes.
    pub(crate) fn write(&mut self, at: usize, bytes: &[u8], size: usize) -> Result<(), Memory>
        requires { at ≤ length self.old.now.text }
        ensures ok { OnOk result (self.new ≡ wrote at size (written at bytes.now self.old.now.text) self.old) }
        ensures err { OnErr result (self.new ≡ self.old) }
    {
        let copy = Vec::from_slice(*self.calls.allocator(), bytes)?;
        let extent = Extent { at, size };
        self.calls.reserve(1)?;
        self.unsynced.reserve(1)?;
        splice(&mut self.text, at, bytes)?;
        self.calls.push_reserved(DeviceCall::Write(extent, copy));
        self.unsynced.push_reserved(extent);
        Ok(())
    }

    /// Syncs: what a read gives is the synced text from now on.
    pub(crate) fn sync(&mut self) -> Result<(), Memory>
        ensures ok { OnOk result (self.new ≡ synced self.old) }
        ensures err { OnErr result (self.new ≡ self.old) }
    {
        let synced_text = Vec::from_slice(*self.calls.allocator(), &self.text)?;
        self.calls.push(DeviceCall::Sync)?;
        self.synced_text = synced_text;
        self.unsynced.clear();
        Ok(())
    }
}

impl<A: Allocator> Recording<A> {
    /// What a read gives.
    pub(crate) fn text(&self) -> &[u8]
        ensures { result.now ≡ self.now.now.text }
    {
        &self.text
    }

    /// What stood there at the last sync that succeeded.
    pub(crate) fn synced_text(&self) -> &[u8]
        ensures { result.now ≡ self.now.now.synced_text }
    {
        &self.synced_text
    }

    /// What was written since.
    pub(crate) fn unsynced(&self) -> &[Extent]
        ensures { result.now ≡ self.now.now.unsynced }
    {
        &self.unsynced
    }

    /// Whether a crash now may leave a text.
    pub(crate) fn may_leave(&self, left: &[u8]) -> bool
        ensures yes { result ≡ true → MayLeave self.now.now left.now }
        ensures no { result ≡ false → MayLeave self.now.now left.now → ⊥ }
    {
        may_be_left(&self.synced_text, &self.unsynced, left)
    }
}
