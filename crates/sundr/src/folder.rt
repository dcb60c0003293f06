//! What a user's folder has: the keys, the user's number, and the files of the client's ledgers and journal; and the
//! file that is put.

use crate::hindrance::{At, FileFault, FolderFile, Hindrance};
use crate::opening::{check_no_links, make, open_to_write};
use crate::place::check_files;
use commands::Refusal;
use drawn_key::{LEDGER_SIZE, kept_key};
use file_commands::Line;
use itable::FILE_SIZE;
use kept_blocks::{KeptBlocks, MOST_BLOCKS, MOST_BYTES};
use layout::{Memory, Text, User};
use leaf_ledger::MemoryDevice;
use lms_sign::{
    ID_SIZE, KEPT_SIZE, KEY_SIZE, PrivateKey, PublicKey, SEED_SIZE, SIGNATURE_SIZE, verify,
};
use std::alloc::{AllocError, Global};
use std::fs::{self, File, Metadata, TryLockError};
use std::io::{self, ErrorKind, Read, Write};
use std::os::unix::fs::MetadataExt;

/// How much is read of the file of a user's number: more than a number and a newline have.
const USER_SIZE: u64 = 8;

/// How many keys a user has at most.
pub(crate) const MOST_KEYS: u8 = 16;

/// How many bytes the file of kept blocks has at most: a tag and a count; of each block its digest, its size and its bytes.
const BLOCKS_SIZE: usize = 6 + MOST_BLOCKS * (34 + MOST_BYTES);

/// How many bytes a record of a journal has before its text: its gate, its kind, and the text's size.
const RECORD_HEAD: usize = 6;

/// More bytes than a journal can have: a record for each leaf of all keys, each with more than a certificate or a structure
/// has.
const JOURNAL_SIZE: u64 = 1024 * MOST_KEYS as u64 * 20_480;

/// The gate of a record that is there.
const OPEN: u8 = 1;

/// The kind of a record that has a certificate.
pub(crate) const CERTIFICATE: u8 = 1;

/// How much is read of a file of the system that is put: one byte more than a file may have.
pub(crate) const CONTENT_SIZE: u64 = FILE_SIZE as u64 + 1;

/// The mode of a file that its owner alone reads and writes.
pub(crate) const OWNERS_ALONE: u32 = 0o600;

/// What a file's mode has where others than its owner may use it.
const FOR_OTHERS: u32 = 0o077;

/// What a key is drawn from, and which of the user's keys it is.
#[derive(Clone, Copy)]
pub(crate) struct Seed {
    pub(crate) number: u8,
    pub(crate) seed: [u8; SEED_SIZE],
    pub(crate) id: [u8; ID_SIZE],
}

/// What a user's own keys are drawn from, the oldest first, and user 0's public key.
#[derive(Drop)]
pub(crate) struct Keys {
    pub(crate) seeds: Vec<Seed>,
    pub(crate) pinned: PublicKey,
}

/// The path of a file of a user's folder.
pub(crate) fn path_of(alloc: Global, folder: &str, file: FolderFile) -> Result<String, AllocError> {
    format!(in alloc; "{folder}/{file}")
}

/// A file of the system, if there is one.
pub(crate) fn open_there(rt: &HostRuntime, path: &str) -> io::Result<Option<File>> {
    match File::open(rt, path) {
        Ok(file) => Ok(Some(file)),
        Err(fault) if fault.kind() == ErrorKind::NotFound => Ok(None),
        Err(fault) => Err(fault),
    }
}

/// The first bytes of a file, at most so many.
pub(crate) fn read_first(rt: &HostRuntime, file: File, size: u64) -> io::Result<Vec<u8>> {
    let mut bytes = Vec::new(rt.alloc());
    file.take(size).read_to_end(&mut bytes)?;
    Ok(bytes)
}

/// Reads the last bytes of a file: none are to follow them.
fn read_last(file: &mut File, bytes: &mut [u8]) -> Option<()> {
    file.read_exact(bytes).ok()?;
    match file.read(&mut [0]) {
        Ok(0) => Some(()),
        _ => None,
    }
}

/// The file of a seed, if there is one. One that others than its owner may use is refused.
fn open_seed(rt: &HostRuntime, folder: &str, number: u8) -> Result<Option<File>, Hindrance> {
    let seed = FolderFile::Seed(number);
    let at = At::Key(seed, FileFault::NoSeed);
    let path = path_of(rt.alloc(), folder, seed)?;
    let Some(file) = at.given(open_there(rt, &path))? else {
        return Ok(None);
    };
    match at.given(file.metadata()) {
        Ok(found) if found.mode() & FOR_OTHERS == 0 => Ok(Some(file)),
        Ok(_) => Err(Hindrance::NoKeys(seed, FileFault::TooOpen)),
        Err(hindrance) => Err(hindrance),
    }
}

/// The seed and the identifier of the key of a number in a user's folder, if they are there.
fn read_seed(rt: &HostRuntime, folder: &str, number: u8) -> Result<Option<Seed>, Hindrance> {
    let at = At::Key(FolderFile::Seed(number), FileFault::NoSeed);
    let (mut seed, mut id) = ([0; SEED_SIZE], [0; ID_SIZE]);
    let Some(mut file) = open_seed(rt, folder, number)? else {
        return Ok(None);
    };
    at.given(file.read_exact(&mut seed))?;
    match read_last(&mut file, &mut id) {
        Some(()) => Ok(Some(Seed { number, seed, id })),
        None => Err(Hindrance::NoKeys(FolderFile::Seed(number), FileFault::NoSeed)),
    }
}

/// Refuses a seed whose key has the identifier of one before it: leaves of the two would sign with one another's.
fn check_identifier(seeds: &[Seed], seed: &Seed) -> Result<(), Hindrance> {
    for before in seeds {
        if before.id == seed.id {
            return Err(Hindrance::NoKeys(FolderFile::Seed(seed.number), FileFault::Twin));
        }
    }
    Ok(())
}

/// How many seeds of a user's folder are read: user 0 has one key for good.
fn most_seeds(user: User) -> u8 {
    if user.get() == 0 { 1 } else { MOST_KEYS }
}

/// The seeds of a user's keys, the oldest first, up to the first that isn't there.
pub(crate) fn read_seeds(
    rt: &HostRuntime,
    folder: &str,
    user: User,
) -> Result<Vec<Seed>, Hindrance> {
    let mut seeds = Vec::new(rt.alloc());
    for number in 0..most_seeds(user) {
        match read_seed(rt, folder, number)? {
            Some(seed) => {
                check_identifier(&seeds, &seed)?;
                seeds.push(seed)?;
            }
            None => break,
        }
    }
    if seeds.is_empty() {
        return Err(Hindrance::NoKeys(FolderFile::Seed(0), FileFault::Unmade));
    }
    Ok(seeds)
}

/// User 0's public key in a user's folder.
fn read_pinned(rt: &HostRuntime, folder: &str) -> Result<PublicKey, Hindrance> {
    let at = At::Key(FolderFile::SuperKey, FileFault::NoKey);
    let path = path_of(rt.alloc(), folder, FolderFile::SuperKey)?;
    let mut bytes = [0; KEY_SIZE];
    let mut file = at.given(File::open(rt, &path))?;
    let key = match read_last(&mut file, &mut bytes) {
        Some(()) => PublicKey::from_bytes(bytes),
        None => None,
    };
    key.ok_or(Hindrance::NoKeys(FolderFile::SuperKey, FileFault::NoKey))
}

/// What a user's folder has of keys.
pub(crate) fn read_keys(rt: &HostRuntime, folder: &str, user: User) -> Result<Keys, Hindrance> {
    let seeds = read_seeds(rt, folder, user)?;
    let pinned = read_pinned(rt, folder)?;
    Ok(Keys { seeds, pinned })
}

/// A signed text of a journal.
#[derive(Clone, Copy)]
struct Signed<'a> {
    kind: u8,
    text: &'a [u8],
}

/// The first signed text of a journal's records, and those behind it, if there is one.
fn first_signed(records: &[u8]) -> Option<(Signed<'_>, &[u8])> {
    let (head, rest) = records.split_at(RECORD_HEAD.min(records.len()));
    let [OPEN, kind, a, b, c, d] = head else {
        return None;
    };
    let size = u32::from_be_bytes([*a, *b, *c, *d]) as usize;
    if size > rest.len() {
        return None;
    }
    let (text, behind) = rest.split_at(size);
    Some((Signed { kind: *kind, text }, behind))
}

/// The text that was signed last by a journal, with its signature, or the last one of a kind that is said; nothing where
/// it has none.
pub(crate) fn last_signed(journal: &[u8], wanted: Option<u8>) -> &[u8] {
    let (mut rest, mut last) = (journal, &journal[..0]);
    for _ in 0..journal.len() {
        match first_signed(rest) {
            Some((signed, behind)) => {
                if wanted.unwrap_or(signed.kind) == signed.kind {
                    last = signed.text;
                }
                rest = behind;
            }
            None => break,
        }
    }
    last
}

/// Whether a leaf is free by the ledger of a key that signed this text with it. A signature begins with its leaf's number.
fn forgets(ledger: &[u8], key: &PublicKey, signed: &[u8]) -> bool {
    let (text, signature) = signed.split_at(signed.len().saturating_sub(SIGNATURE_SIZE));
    let [a, b, c, d, ..] = signature else {
        return false;
    };
    let leaf = u32::from_be_bytes([*a, *b, *c, *d]) as usize;
    match ledger.get(KEY_SIZE.saturating_add(leaf)) {
        Some(0) => verify(key, text, signature),
        _ => false,
    }
}

/// Refuses the ledger of a seed that has something, and isn't a whole one of its key; and one in which the leaf is free by
/// which the key signed the text that was signed last.
pub(crate) fn check_ledger(
    number: u8,
    ledger: &[u8],
    key: &PrivateKey<Global>,
    last: &[u8],
) -> Result<(), Hindrance> {
    let public = key.public();
    let is_its = ledger.len() == LEDGER_SIZE && ledger.starts_with(public.as_bytes());
    let fault = if !ledger.is_empty() && !is_its {
        FileFault::OfOtherSeed
    } else if forgets(ledger, &public, last) {
        FileFault::Older
    } else {
        return Ok(());
    };
    Err(Hindrance::OfFile(Refusal::Foreign, FolderFile::Ledger(number), fault))
}

/// The first bytes of a file of a folder, at most so many, if there is one.
pub(crate) fn read_most(
    rt: &HostRuntime,
    folder: &str,
    file: FolderFile,
    size: u64,
) -> Result<Option<Vec<u8>>, Hindrance> {
    match open_present(rt, folder, file)? {
        Some(opened) => Ok(Some(At::File(file).given(read_first(rt, opened, size))?)),
        None => Ok(None),
    }
}

/// The bytes of a file of a folder, if it can be read and has just so many.
fn read_sized(rt: &HostRuntime, folder: &str, file: FolderFile, size: usize) -> Option<Vec<u8>> {
    match read_most(rt, folder, file, (size as u64).saturating_add(1)) {
        Ok(Some(bytes)) if bytes.len() == size => Some(bytes),
        _ => None,
    }
}

/// The key of a seed, if it can be made of what was kept of its leaves: it has to be the key of its ledger, and the next
/// leaf one of the seed's.
pub(crate) fn read_kept(
    rt: &HostRuntime,
    folder: &str,
    seed: &Seed,
) -> Result<Option<PrivateKey<Global>>, Memory> {
    let file = FolderFile::Ledger(seed.number);
    let Some(ledger) = read_sized(rt, folder, file, LEDGER_SIZE) else {
        return Ok(None);
    };
    let Some(kept) = read_sized(rt, folder, FolderFile::Leaves(seed.number), KEPT_SIZE) else {
        return Ok(None);
    };
    kept_key(rt.alloc(), seed.seed, seed.id, &ledger, &kept)
}

/// Makes a new file of the owner's alone with these bytes. No link is followed.
fn write_new(rt: &HostRuntime, path: &str, bytes: &[u8]) -> io::Result<()> {
    let mut file = make(rt, path, OWNERS_ALONE)?;
    file.write_all(bytes)
}

/// Writes bytes into a file beside one of a folder, and moves it into its place, if that can be done.
fn put_in_place(rt: &HostRuntime, folder: &str, file: FolderFile, bytes: &[u8]) -> Option<()> {
    let path = path_of(rt.alloc(), folder, file).ok()?;
    let beside = format!(in rt.alloc(); "{path}.new").ok()?;
    // What a command left that was stopped.
    let _ = fs::remove_file(rt, &beside);
    write_new(rt, &beside, bytes).ok()?;
    fs::rename(rt, &beside, &path).ok()
}

/// Keeps the keys of the leaves of the key of a number, if that can be done. They are no secret, and need not be there.
pub(crate) fn keep_leaves(
    rt: &HostRuntime,
    folder: &str,
    number: u8,
    key: &PrivateKey<Global>,
) -> Option<()> {
    let kept = key.kept_leaves(rt.alloc()).ok()?;
    put_in_place(rt, folder, FolderFile::Leaves(number), &kept)
}

/// The text of the blocks that were kept, if one can be read.
fn read_blocks_text(rt: &HostRuntime, folder: &str) -> Option<Vec<u8>> {
    read_most(rt, folder, FolderFile::Blocks, BLOCKS_SIZE as u64 + 1).ok()?
}

/// The blocks that were kept, if their file is one of them. Each is compared with its digest when it is asked for.
pub(crate) fn read_blocks(rt: &HostRuntime, folder: &str) -> KeptBlocks<Global> {
    let Some(text) = read_blocks_text(rt, folder) else {
        return KeptBlocks::empty(rt.alloc());
    };
    match KeptBlocks::read(rt.alloc(), &text) {
        Ok(blocks) => blocks,
        Err(_) => KeptBlocks::empty(rt.alloc()),
    }
}

/// Keeps these blocks, if they aren't those that were kept and it can be done.
pub(crate) fn keep_blocks(
    rt: &HostRuntime,
    folder: &str,
    blocks: &KeptBlocks<Global>,
) -> Option<()> {
    let text = blocks.text(rt.alloc()).ok()?;
    match read_blocks_text(rt, folder) {
        Some(before) if before == text => Some(()),
        _ => put_in_place(rt, folder, FolderFile::Blocks, &text),
    }
}

/// The first bytes of a file of the system that is named, at most so many.
pub(crate) fn read_named(rt: &HostRuntime, path: &str, size: u64) -> Result<Vec<u8>, Hindrance> {
    let file = At::Named.given(File::open(rt, path))?;
    At::Named.given(read_first(rt, file, size))
}

/// The user whose number a text is.
fn user_of(text: &[u8]) -> Option<User> {
    let text = std::str::from_utf8(text).ok()?;
    User::new(text.trim_end().parse::<u8>().ok()?)
}

/// Refuses a folder that tells that it is another user's.
pub(crate) fn check_user(rt: &HostRuntime, folder: &str, user: User) -> Result<(), Hindrance> {
    let file = FolderFile::User;
    let Some(text) = read_most(rt, folder, file, USER_SIZE)? else {
        return Ok(());
    };
    match user_of(&text) {
        Some(own) if own.get() == user.get() => Ok(()),
        Some(own) => Err(Hindrance::OfUser(own)),
        None => Err(Hindrance::OfFile(Refusal::Foreign, file, FileFault::NoNumber)),
    }
}

/// What the system tells of a file of a folder, if there is one.
pub(crate) fn found_in(
    rt: &HostRuntime,
    folder: &str,
    file: FolderFile,
) -> Result<Option<Metadata>, AllocError> {
    let path = path_of(rt.alloc(), folder, file)?;
    Ok(fs::metadata(rt, &path).ok())
}

/// Whether there is a file of a folder that has bytes, or something that is no file.
pub(crate) fn has_bytes(
    rt: &HostRuntime,
    folder: &str,
    file: FolderFile,
) -> Result<bool, AllocError> {
    match found_in(rt, folder, file)? {
        Some(found) => Ok(!found.is_file() || found.len() != 0),
        None => Ok(false),
    }
}

/// Refuses a folder whose first ledger would be made beside a journal that has something in it: leaves that were used
/// would be handed out again. The journal is looked at first, since another process makes the ledger before it.
fn check_first_ledger(rt: &HostRuntime, folder: &str) -> Result<(), Hindrance> {
    let first = FolderFile::Ledger(0);
    if has_bytes(rt, folder, FolderFile::Journal)? && !has_bytes(rt, folder, first)? {
        return Err(Hindrance::OfFile(Refusal::Foreign, first, FileFault::Gone));
    }
    Ok(())
}

/// Refuses a file that has more bytes than it can have. It isn't read.
fn check_size(
    rt: &HostRuntime,
    folder: &str,
    file: FolderFile,
    most: u64,
    refusal: Refusal,
) -> Result<(), Hindrance> {
    match found_in(rt, folder, file)? {
        Some(found) if found.is_file() && found.len() > most => {
            Err(Hindrance::OfFile(refusal, file, FileFault::TooLong))
        }
        _ => Ok(()),
    }
}

/// Refuses a folder of so many keys with a ledger or a journal that has more bytes than it can have.
fn check_sizes(rt: &HostRuntime, folder: &str, count: u8) -> Result<(), Hindrance> {
    for number in 0..count {
        let ledger = FolderFile::Ledger(number);
        check_size(rt, folder, ledger, LEDGER_SIZE as u64, Refusal::Foreign)?;
    }
    check_size(
        rt,
        folder,
        FolderFile::Journal,
        JOURNAL_SIZE,
        Refusal::Damaged,
    )
}

/// Refuses a folder that isn't this user's, in which a link stands for a file that is written, or that hasn't the files
/// that it had. Nothing is written.
pub(crate) fn check_folder(
    rt: &HostRuntime,
    line: &Line<'_>,
    keys: &Keys,
) -> Result<(), Hindrance> {
    check_user(rt, line.dir, line.user)?;
    check_no_links(rt, line.dir, count_of(keys))?;
    check_first_ledger(rt, line.dir)?;
    check_sizes(rt, line.dir, count_of(keys))?;
    check_files(rt, line.dir, count_of(keys), line.moved)
}

/// How many keys there are.
pub(crate) fn count_of(keys: &Keys) -> u8 {
    match u8::try_from(keys.seeds.len()) {
        Ok(count) => count,
        Err(_) => MOST_KEYS,
    }
}

/// Locks a ledger's file: while the handle is open, no other process is given the lock. Where the system gives none, for
/// whatever cause, that is refused, since two processes would sign with one leaf.
fn lock_ledger(rt: &HostRuntime, folder: &str, number: u8) -> Result<File, Hindrance> {
    let ledger = FolderFile::Ledger(number);
    let file = open_to_write(rt, folder, ledger)?;
    match file.try_lock() {
        Ok(()) => Ok(file),
        Err(TryLockError::WouldBlock) => {
            Err(Hindrance::OfFile(Refusal::Device, ledger, FileFault::InUse))
        }
        Err(TryLockError::Error(_)) => {
            Err(Hindrance::OfFile(Refusal::Device, ledger, FileFault::NoLocks))
        }
    }
}

/// Refuses a folder that got a further key since its seeds were read: from then on that one is the newest.
fn check_newest(rt: &HostRuntime, folder: &str, user: User, count: u8) -> Result<(), Hindrance> {
    let next = FolderFile::Seed(count);
    match found_in(rt, folder, next)? {
        Some(_) if count < most_seeds(user) => {
            Err(Hindrance::OfFile(Refusal::Device, next, FileFault::InUse))
        }
        _ => Ok(()),
    }
}

/// Locks the files of all ledgers, the first one first: then no other process makes a further key.
pub(crate) fn lock_ledgers(
    rt: &HostRuntime,
    folder: &str,
    user: User,
    keys: &Keys,
) -> Result<Vec<File>, Hindrance> {
    let mut locks = Vec::new(rt.alloc());
    for number in 0..count_of(keys) {
        locks.push(lock_ledger(rt, folder, number)?)?;
    }
    check_newest(rt, folder, user, count_of(keys))?;
    Ok(locks)
}

/// A file of a folder, if there is one.
pub(crate) fn open_present(
    rt: &HostRuntime,
    folder: &str,
    file: FolderFile,
) -> Result<Option<File>, Hindrance> {
    let path = path_of(rt.alloc(), folder, file)?;
    At::File(file).given(open_there(rt, &path))
}

/// What a file of a folder holds; nothing where there is none.
pub(crate) fn read_present(
    rt: &HostRuntime,
    folder: &str,
    file: FolderFile,
) -> Result<Vec<u8>, Hindrance> {
    match read_most(rt, folder, file, u64::MAX)? {
        Some(text) => Ok(text),
        None => Ok(Vec::new(rt.alloc())),
    }
}

/// A device in memory, with what a file of a folder holds. The file is left as it is.
pub(crate) fn read_device(
    rt: &HostRuntime,
    folder: &str,
    file: FolderFile,
) -> Result<MemoryDevice<Global>, Hindrance> {
    let text = read_present(rt, folder, file)?;
    Ok(MemoryDevice::new(rt.alloc(), text)?)
}
