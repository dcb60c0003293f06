//! The making of one more key of a user.

use crate::folder::{Keys, MOST_KEYS, count_of, keep_leaves, path_of, read_keys, read_present};
use crate::hindrance::{At, FileFault, FolderFile, Hindrance, RenewalFault};
use crate::init::{
    Digits, Fingerprint, SeedBytes, key_of_seed, move_in, new_ledger, random_seed, sync_folder,
};
use crate::standing::free_leaves;
use crate::working::end_work;
use crate::{Opened, OwnClient, lock_and_open};
use client_verify::Phase;
use commands::Refusal;
use drawn_key::LEDGER_SIZE;
use file_commands::Line;
use layout::{User, let_go};
use leaf_ledger::FileDevice;
use lms_sign::{KEY_SIZE, PrivateKey, PublicKey, SIGNATURE_SIZE, verify};
use std::alloc::{AllocError, Global};
use std::fs;
use std::thread::Threads;

/// How many leaves a key has.
const LEAVES: usize = LEDGER_SIZE - KEY_SIZE;

/// More free leaves than these are many.
const MANY: usize = LEAVES / 2;

/// What is told beside a new key.
const NEXT: &str =
    "renew: user 0 has to type that line soon; until then commands go on with the key before, and each operation takes a leaf of the new one, too";

/// A key that was made: whose it is, and its public key.
#[derive(Clone, Copy)]
pub(crate) struct Renewed {
    user: User,
    key: PublicKey,
}

/// What a folder tells of its newest key.
#[derive(Clone, Copy)]
struct Newest {
    /// Whether an operation is declared.
    is_declared: bool,
    /// Whether it signed the last structure: only a key that is listed signs one.
    has_signed: bool,
    /// How many leaves it has left.
    leaves: usize,
}

/// The structure that was signed last, with its signature; nothing where an operation is declared, or none was signed.
fn signed_text(alloc: Global, client: &OwnClient) -> Result<Vec<u8>, AllocError> {
    match client.phase() {
        Phase::Signed => Vec::from_slice(alloc, client.signed()),
        _ => Ok(Vec::new(alloc)),
    }
}

/// What the newest key, with its ledger, tells of itself: whether it signed a text, with its signature at the end, and how
/// many leaves it has left.
fn tell_newest(
    newest: Option<&(PrivateKey<Global>, FileDevice<Global>)>,
    signed: &[u8],
) -> (bool, usize) {
    match newest {
        Some((key, ledger)) => {
            let (text, signature) = signed.split_at(signed.len().saturating_sub(SIGNATURE_SIZE));
            let has_signed = verify(&key.public(), text, signature);
            (has_signed, free_leaves(ledger.text()))
        }
        None => (false, 0),
    }
}

/// What a client over a folder tells of its newest key.
fn newest_of(alloc: Global, client: OwnClient) -> Result<Newest, AllocError> {
    let is_declared = matches!(client.phase(), Phase::Declared);
    let signed = signed_text(alloc, &client);
    let parts = client.close();
    let newest = match &signed {
        Ok(signed) => tell_newest(parts.keys.last(), signed),
        Err(_) => (false, 0),
    };
    let_go(parts);
    let_go(signed?);
    let (has_signed, leaves) = newest;
    Ok(Newest {
        is_declared,
        has_signed,
        leaves,
    })
}

/// Why no further key is made beside the newest, if none is to be.
fn fault_of(newest: &Newest, early: bool) -> Option<RenewalFault> {
    if newest.is_declared && newest.leaves == 0 {
        Some(RenewalFault::Spent)
    } else if newest.is_declared {
        Some(RenewalFault::UnderWay)
    } else if !newest.has_signed {
        Some(RenewalFault::Unlisted)
    } else if newest.leaves > MANY && !early {
        Some(RenewalFault::ManyLeaves)
    } else {
        None
    }
}

/// The number of a user's next key.
fn next_number(user: User, keys: &Keys) -> Result<u8, Hindrance> {
    let count = count_of(keys);
    if user.get() == 0 {
        Err(Hindrance::NotRenewed(RenewalFault::Pinned))
    } else if count >= MOST_KEYS {
        Err(Hindrance::NotRenewed(RenewalFault::KeysFull))
    } else {
        Ok(count)
    }
}

/// Refuses to make a ledger where there is one already, unless it is new: that one is left of a renewal that was
/// stopped before its seed was there.
fn check_unused(rt: &HostRuntime, folder: &str, number: u8) -> Result<(), Hindrance> {
    let file = FolderFile::Ledger(number);
    let ledger = read_present(rt, folder, file)?;
    let is_new = ledger.len() == LEDGER_SIZE && free_leaves(&ledger) == LEAVES;
    if ledger.is_empty() || is_new {
        return Ok(());
    }
    Err(Hindrance::OfFile(Refusal::Foreign, file, FileFault::Seedless))
}

/// Makes a file of a folder, which is there whole or not at all, and syncs the folder.
fn make_whole(
    rt: &HostRuntime,
    folder: &str,
    file: FolderFile,
    bytes: &[u8],
) -> Result<(), Hindrance> {
    At::File(file).given(move_in(rt, folder, file, bytes))?;
    At::Folder.given(sync_folder(rt, folder))
}

/// Makes the ledger of a key, with all leaves free, and then its seed: where the seed is, the ledger is. So that it
/// stays so whatever the system has written of both, a ledger is never removed.
fn make_both(
    rt: &HostRuntime,
    folder: &str,
    number: u8,
    key: &PublicKey,
    seed: &SeedBytes,
) -> Result<(), Hindrance> {
    let path = path_of(rt.alloc(), folder, FolderFile::Seed(number))?;
    make_whole(rt, folder, FolderFile::Ledger(number), &new_ledger(key))?;
    let made = make_whole(rt, folder, FolderFile::Seed(number), seed);
    if made.is_err() {
        let _ = fs::remove_file(rt, &path);
    }
    made
}

/// Makes the key of a number, and keeps its leaves. That they can't be kept is no fault.
fn make_key<H: Threads + Sync>(
    rt: &HostRuntime,
    host: &H,
    folder: &str,
    number: u8,
) -> Result<PublicKey, Hindrance> {
    check_unused(rt, folder, number)?;
    let seed = random_seed(rt, number)?;
    let key = key_of_seed(rt, host, &seed)?;
    let public = key.public();
    let made = make_both(rt, folder, number, &public, &seed);
    if made.is_ok() {
        let _ = keep_leaves(rt, folder, number, &key);
    }
    let_go(key);
    match made {
        Ok(()) => Ok(public),
        Err(hindrance) => Err(hindrance),
    }
}

/// Makes one more key of a folder's user, where the newest is one that user 0 listed, and has few leaves left or it is
/// wanted early. The folder is locked until the key is there.
pub(crate) fn renew<H: Threads + Sync>(
    rt: &HostRuntime,
    host: &H,
    line: &Line<'_>,
    early: bool,
) -> Result<Renewed, Hindrance> {
    let keys = read_keys(rt, line.dir, line.user)?;
    let number = next_number(line.user, &keys)?;
    let Opened { client, locks } = lock_and_open(rt, host, line, &keys)?;
    let newest = newest_of(rt.alloc(), client)?;
    end_work(rt, line.dir);
    if let Some(fault) = fault_of(&newest, early) {
        return Err(Hindrance::NotRenewed(fault));
    }
    let key = make_key(rt, host, line.dir, number)?;
    let_go(locks);
    Ok(Renewed {
        user: line.user,
        key,
    })
}

/// Prints what user 0 types to set the key, and its fingerprint.
pub(crate) fn print_renewed(rt: &HostRuntime, renewed: &Renewed) -> anyhow::Result<()> {
    let user = renewed.user.get();
    let digits = Digits(&renewed.key);
    let fingerprint = Fingerprint::of(&renewed.key);
    println!(rt; "setkey {user} {digits}")?;
    println!(rt; "fingerprint of user {user}'s key: {fingerprint}")?;
    Ok(())
}

/// Tells what has to be done with the key.
pub(crate) fn tell_next(rt: &HostRuntime) {
    let _ = eprintln!(rt; "sundr: {NEXT}");
}
