//! What the ledgers and the journal of a folder tell: how far its last operation is, and how many leaves each key has
//! left.

ghost use Rattle.std.specs.Prelude.{◌≡◌, ◌==◌, length, filter};

use crate::folder::{Keys, check_folder, check_ledger, last_signed, read_device, read_keys};
use crate::hindrance::{FolderFile, Hindrance};
use crate::place::look_at_place;
use crate::{OwnKeys, client_over, own_key};
use client_verify::{Client, Phase};
use commands::Refusal;
use file_commands::Line;
use layout::{User, let_go};
use leaf_ledger::MemoryDevice;
use lms_sign::KEY_SIZE;
use std::alloc::{AllocError, Global};
use std::fmt;
use std::thread::Threads;

/// Of how many free leaves fewer are told beside an answer.
const FEW: usize = 64;

/// A client over what the files of a folder hold, which are left as they are.
type ReadClient = Client<MemoryDevice<Global>, MemoryDevice<Global>, Global>;

/// How many marks are those of free leaves.
fn free_count(marks: &[u8]) -> usize
    ensures { result ≡ length (filter (λ mark. mark == 0) marks.now) }
{
    marks.iter().filter(|mark| **mark == 0).count()
}

/// How many leaves are free by a ledger's file: the key, and a mark for each of its leaves.
pub(crate) fn free_leaves(ledger: &[u8]) -> usize {
    free_count(&ledger[KEY_SIZE.min(ledger.len())..])
}

/// How many leaves are free, if they are so few that it is told beside an answer.
pub(crate) fn few_leaves(ledger: &[u8]) -> Option<usize> {
    let count = free_leaves(ledger);
    if count < FEW { Some(count) } else { None }
}

/// How far a user is by the files of a folder.
#[derive(Drop)]
pub(crate) struct Standing {
    user: User,
    number: u32,
    phase: Phase,
    /// Of each key, the oldest first.
    leaves: Vec<usize>,
}

/// How many leaves each of these keys has left.
fn leaves_of(
    alloc: Global,
    keys: &OwnKeys<MemoryDevice<Global>>,
) -> Result<Vec<usize>, AllocError> {
    let mut leaves = Vec::new(alloc);
    for (_, ledger) in keys {
        leaves.push(free_leaves(ledger.text()))?;
    }
    Ok(leaves)
}

impl Standing {
    /// What a client tells over the files of its folder.
    fn of(alloc: Global, client: ReadClient) -> Result<Standing, AllocError> {
        let (user, number, phase) = (client.user(), client.number(), client.phase());
        let parts = client.close();
        let leaves = leaves_of(alloc, &parts.keys);
        let_go(parts);
        Ok(Standing {
            user,
            number,
            phase,
            leaves: leaves?,
        })
    }
}

/// How far an operation is, as it is printed.
fn words_of(phase: Phase) -> &'static str {
    match phase {
        Phase::Idle => "idle",
        Phase::Declared => "declared",
        Phase::Signed => "signed",
        Phase::Failed => "failed",
    }
}

impl fmt::Display for Standing {
    fn fmt<W: fmt::Write>(&self, f: &mut fmt::Formatter<W>) -> fmt::Result {
        writeln!(f, "user {}", self.user.get())?;
        if self.number == 0 {
            write!(f, "no operation")?;
        } else {
            write!(f, "operation {} {}", self.number, words_of(self.phase))?;
        }
        for (number, count) in self.leaves.iter().enumerate() {
            write!(f, "\nkey {number} leaves {count}")?;
        }
        Ok(())
    }
}

/// The keys of these seeds, each with what its ledger's file holds. What was signed last is signed with a leaf that is
/// used.
fn read_own<H: Threads + Sync>(
    rt: &HostRuntime,
    host: &H,
    folder: &str,
    keys: &Keys,
    last: &[u8],
) -> Result<OwnKeys<MemoryDevice<Global>>, Hindrance> {
    let mut own = Vec::new(rt.alloc());
    for seed in &keys.seeds {
        let ledger = read_device(rt, folder, FolderFile::Ledger(seed.number))?;
        let key = own_key(rt, host, folder, seed, false)?;
        check_ledger(seed.number, ledger.text(), &key, last)?;
        own.push((key, ledger))?;
    }
    Ok(own)
}

/// What hinders a client over devices in memory, which hold what was read: they fail only where memory runs out.
fn of_memory(hindrance: Hindrance) -> Hindrance {
    match hindrance {
        Hindrance::Refused(Refusal::Device) => Hindrance::Refused(Refusal::Memory),
        other => other,
    }
}

/// The user's client over what the files of the folder hold.
fn read_client<H: Threads + Sync>(
    rt: &HostRuntime,
    host: &H,
    line: &Line<'_>,
    keys: &Keys,
) -> Result<ReadClient, Hindrance> {
    let journal = read_device(rt, line.dir, FolderFile::Journal)?;
    let own = read_own(rt, host, line.dir, keys, last_signed(journal.text(), None))?;
    match client_over(rt.alloc(), line.user, keys, own, journal) {
        Ok(client) => Ok(client),
        Err(hindrance) => Err(of_memory(hindrance)),
    }
}

/// How far the user of a folder is. A folder that a command would refuse is refused, but for one that is in use. Nothing
/// is written to it, it isn't locked, and no leaf is used.
pub(crate) fn read_standing<H: Threads + Sync>(
    rt: &HostRuntime,
    host: &H,
    line: &Line<'_>,
) -> Result<Standing, Hindrance> {
    let keys = read_keys(rt, line.dir, line.user)?;
    check_folder(rt, line, &keys)?;
    look_at_place(rt, line.dir, &keys, line.moved)?;
    let client = read_client(rt, host, line, &keys)?;
    Ok(Standing::of(rt.alloc(), client)?)
}
