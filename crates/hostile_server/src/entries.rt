//! The entries of plans.

use layout::{Memory, User};
use std::alloc::Allocator;
use version_order::{Entries, Entry};

/// These entries ascending by user: of several of one user the last one.
pub(crate) fn entries_of<A: Allocator>(alloc: A, rows: &[Entry]) -> Result<Entries<A>, Memory> {
    let mut entries = Entries::new(alloc);
    for number in 0..64 {
        let Some(user) = User::new(number) else {
            unreachable!()
        };
        if let Some(row) = rows.iter().rev().find(|row| row.user == user) {
            entries.push(Entry { user, ..*row })?;
        }
    }
    Ok(entries)
}
