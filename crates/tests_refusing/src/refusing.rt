//! An allocator that refuses one growth, or all.

use std::alloc::{AllocError, Allocator};
use std::sync::atomic::{AtomicU64, Ordering};

/// The count at which a growth is refused. No other one is before the count at which all are.
const DUE: u64 = 1 << 63;

/// From this count on each growth is refused.
const ALL: u64 = 1 << 62;

/// The count from which none is refused.
const NONE: u64 = DUE - 1;

/// Passes growths on or refuses them, whichever thread asks for them. It counts down by one with each.
pub struct Refusing<B: Allocator> {
    inner: B,
    left: AtomicU64,
}

/// Counts a growth. True where it is refused.
fn is_due(left: &AtomicU64) -> bool {
    let count = left.fetch_sub(1, Ordering::SeqCst);
    count == DUE || count <= ALL
}

impl<B: Allocator> Refusing<B> {
    /// Refuses none.
    pub const fn new(inner: B) -> Refusing<B> {
        Refusing {
            inner,
            left: AtomicU64::new(NONE),
        }
    }

    /// Refuses the growth of this number, counted from 1 from now on; none at 0.
    pub fn refuse(&self, number: u64) {
        self.left.store(NONE.wrapping_add(number), Ordering::SeqCst);
    }

    /// Refuses each growth from now on.
    pub fn refuse_all(&self) {
        self.left.store(ALL, Ordering::SeqCst);
    }

    /// Refuses none and counts none until it goes on: what is left to count then.
    pub fn pause(&self) -> u64 {
        self.left.swap(NONE, Ordering::SeqCst)
    }

    /// Goes on with this left to count.
    pub fn go_on(&self, left: u64) {
        self.left.store(left, Ordering::SeqCst);
    }

    /// How many growths it was asked for since it was told to refuse this number.
    pub fn asked(&self, number: u64) -> u64 {
        NONE.wrapping_add(number)
            .wrapping_sub(self.left.load(Ordering::SeqCst))
    }
}

impl<B: Allocator> Drop for Refusing<B> {
    fn drop(self) {
        let Self { inner: _, left: _ } = self;
    }
}

unsafe impl<B: Allocator> Allocator for Refusing<B> {
    ghost dealloc_token = { λ heap ty ptr. B.dealloc_token heap.inner ty ptr };

    fn allocate(&self, size: usize, align: usize) -> Result<*mut u8, AllocError> {
        if is_due(&self.left) {
            return Err(AllocError);
        }
        self.inner.allocate(size, align)
    }

    unsafe fn deallocate(&self, ptr: *mut u8, size: usize, align: usize) {
        self.inner.deallocate(ptr, size, align);
    }
}
