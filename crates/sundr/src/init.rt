//! The making of a user's folder.

use crate::folder::{MOST_KEYS, OWNERS_ALONE, path_of, read_named};
use crate::hindrance::{At, FileFault, FolderFile, Hindrance};
use crate::opening::make;
use crate::place::new_place;
use commands::Refusal;
use drawn_key::{LEDGER_SIZE, drawn_key};
use file_commands::NewFolder;
use hex::FromHex;
use layout::{User, digest, let_go};
use lms_sign::{ID_SIZE, KEY_SIZE, PrivateKey, PublicKey, SEED_SIZE};
use std::alloc::Global;
use std::fmt;
use std::fs::{self, DirBuilder, File};
use std::io::{self, ErrorKind, Write};
use std::os::unix::fs::DirBuilderExt;
use std::path::Path;
use std::random::RandomSource;
use std::thread::Threads;

/// The mode of a folder that its owner alone enters.
const OWNERS_FOLDER: u32 = 0o700;

/// How much is read of a file of a public key: more than its digits have.
const KEY_FILE_SIZE: u64 = 128;

/// How many bytes of a key's digest are told as its fingerprint.
const FINGERPRINT_SIZE: usize = 12;

/// A seed and its identifier, as their file has them.
pub(crate) type SeedBytes = [u8; SEED_SIZE + ID_SIZE];

/// The files of a user's folder beside those of keys, none of which may be there before it is made.
const FILES: [FolderFile; 4] = [
    FolderFile::SuperKey,
    FolderFile::User,
    FolderFile::Journal,
    FolderFile::Place,
];

/// What a journal without a record holds: a gate that is closed.
const NEW_JOURNAL: [u8; 1] = [0];

/// A folder that was made: whose it is, the user's public key, and user 0's.
#[derive(Clone, Copy)]
pub(crate) struct Made {
    user: User,
    own: PublicKey,
    super_key: PublicKey,
}

/// The first bytes of a key's digest, to be read out to each other: they show that no key was changed on its way.
#[derive(Clone, Copy)]
pub(crate) struct Fingerprint([u8; FINGERPRINT_SIZE]);

impl Fingerprint {
    pub(crate) fn of(key: &PublicKey) -> Fingerprint {
        let digest = digest(key.as_bytes());
        let mut first = [0; FINGERPRINT_SIZE];
        first.copy_from_slice(&digest.as_bytes()[..FINGERPRINT_SIZE]);
        Fingerprint(first)
    }
}

impl fmt::Display for Fingerprint {
    fn fmt<W: fmt::Write>(&self, f: &mut fmt::Formatter<W>) -> fmt::Result {
        for (place, byte) in self.0.iter().enumerate() {
            if place != 0 && place % 2 == 0 {
                write!(f, " ")?;
            }
            write!(f, "{byte:02x}")?;
        }
        Ok(())
    }
}

/// A public key as it is printed, in hexadecimal digits, which takes no memory.
#[derive(Clone, Copy)]
pub(crate) struct Digits<'a>(pub(crate) &'a PublicKey);

impl fmt::Display for Digits<'_> {
    fn fmt<W: fmt::Write>(&self, f: &mut fmt::Formatter<W>) -> fmt::Result {
        for byte in self.0.as_bytes().iter() {
            write!(f, "{byte:02x}")?;
        }
        Ok(())
    }
}

/// The key of a file's bytes: 56 of them, or their digits.
fn key_of(text: &[u8]) -> Option<PublicKey> {
    match <[u8; KEY_SIZE]>::try_from(text) {
        Ok(bytes) => PublicKey::from_bytes(bytes),
        Err(_) => {
            let digits = std::str::from_utf8(text).ok()?.trim_end();
            PublicKey::from_bytes(<[u8; KEY_SIZE] as FromHex>::from_hex(digits).ok()?)
        }
    }
}

/// User 0's public key in a file of the system.
fn read_super_key(rt: &HostRuntime, path: &str) -> Result<PublicKey, Hindrance> {
    let text = read_named(rt, path, KEY_FILE_SIZE)?;
    key_of(&text).ok_or(Hindrance::NoFile(FileFault::NoKey))
}

/// Refuses a folder that has this file.
fn check_absent(rt: &HostRuntime, folder: &str, file: FolderFile) -> Result<(), Hindrance> {
    let path = path_of(rt.alloc(), folder, file)?;
    if fs::symlink_metadata(rt, &path).is_ok() {
        return Err(Hindrance::OfFile(Refusal::There, file, FileFault::Present));
    }
    Ok(())
}

/// Refuses a folder that has a user's files: a key whose seed is lost can't be made again.
fn check_unmade(rt: &HostRuntime, folder: &str) -> Result<(), Hindrance> {
    for number in 0..MOST_KEYS {
        check_absent(rt, folder, FolderFile::Seed(number))?;
        check_absent(rt, folder, FolderFile::Ledger(number))?;
    }
    for file in FILES {
        check_absent(rt, folder, file)?;
    }
    Ok(())
}

/// A seed and an identifier for the key of a number, from the system's random bytes.
pub(crate) fn random_seed(rt: &HostRuntime, number: u8) -> Result<SeedBytes, Hindrance> {
    let mut seed = [0; SEED_SIZE + ID_SIZE];
    match rt.fill_bytes(&mut seed) {
        Ok(()) => Ok(seed),
        Err(_) => Err(Hindrance::OfFile(
            Refusal::Device,
            FolderFile::Seed(number),
            FileFault::NoRandom,
        )),
    }
}

/// The key of a seed and an identifier.
pub(crate) fn key_of_seed<H: Threads + Sync>(
    rt: &HostRuntime,
    host: &H,
    seed: &SeedBytes,
) -> Result<PrivateKey<Global>, Hindrance> {
    let (mut own_seed, mut id) = ([0; SEED_SIZE], [0; ID_SIZE]);
    own_seed.copy_from_slice(&seed[..SEED_SIZE]);
    id.copy_from_slice(&seed[SEED_SIZE..]);
    Ok(drawn_key(host, rt.alloc(), own_seed, id)?)
}

/// Makes the folder where there is none.
fn make_folder(rt: &HostRuntime, folder: &str) -> Result<(), Hindrance> {
    match fs::metadata(rt, folder) {
        Ok(found) if found.is_dir() => Ok(()),
        _ => At::Folder.given(DirBuilder::new().mode(OWNERS_FOLDER).create(rt, folder)),
    }
}

/// Writes the bytes of a file that was made, and syncs it.
pub(crate) fn fill(file: &mut File, bytes: &[u8]) -> io::Result<()> {
    file.write_all(bytes)?;
    file.sync_all()
}

/// Makes a file of the owner's alone with these bytes, where there is none. Nothing that is there is written over, and
/// no link is followed.
pub(crate) fn make_file(rt: &HostRuntime, path: &str, bytes: &[u8]) -> io::Result<()> {
    let mut file = make(rt, path, OWNERS_ALONE)?;
    let filled = fill(&mut file, bytes);
    if filled.is_err() {
        let _ = fs::remove_file(rt, path);
    }
    filled
}

/// Moves a file into its place. Where that can't be done, it isn't left.
fn move_into(rt: &HostRuntime, beside: &str, path: &str) -> io::Result<()> {
    let moved = fs::rename(rt, beside, path);
    if moved.is_err() {
        let _ = fs::remove_file(rt, beside);
    }
    moved
}

/// Makes a file of a folder with these bytes beside its place, and moves it there: it is there whole or as it was.
pub(crate) fn move_in(
    rt: &HostRuntime,
    folder: &str,
    file: FolderFile,
    bytes: &[u8],
) -> io::Result<()> {
    let path = path_of(rt.alloc(), folder, file)?;
    let beside = format!(in rt.alloc(); "{path}.new")?;
    // What a command left that was stopped.
    let _ = fs::remove_file(rt, &beside);
    make_file(rt, &beside, bytes)?;
    move_into(rt, &beside, &path)
}

/// Syncs a folder, and the one in which it stands.
pub(crate) fn sync_folder(rt: &HostRuntime, folder: &str) -> io::Result<()> {
    File::open(rt, folder)?.sync_all()?;
    let above = match Path::new(folder).parent() {
        Some(above) if !above.as_str().is_empty() => above.as_str(),
        _ => ".",
    };
    File::open(rt, above)?.sync_all()
}

/// Removes the first files of these, so many. It takes no memory.
fn unmake(rt: &HostRuntime, paths: &[String], count: usize) {
    for path in paths.iter().take(count) {
        let _ = fs::remove_file(rt, path);
    }
}

/// A file of a folder that is to be made, with the bytes that it gets.
type Filled<'a> = (FolderFile, &'a [u8]);

/// Where these files of a folder stand.
fn paths_of(
    rt: &HostRuntime,
    folder: &str,
    files: &[Filled<'_>],
) -> Result<Vec<String>, Hindrance> {
    let mut paths = Vec::new(rt.alloc());
    for (file, _) in files {
        paths.push(path_of(rt.alloc(), folder, *file)?)?;
    }
    Ok(paths)
}

/// Makes a file of a folder at its path, where there is none.
fn make_absent(
    rt: &HostRuntime,
    path: &str,
    file: FolderFile,
    bytes: &[u8],
) -> Result<(), Hindrance> {
    match make_file(rt, path, bytes) {
        Err(fault) if fault.kind() == ErrorKind::AlreadyExists => {
            Err(Hindrance::OfFile(Refusal::There, file, FileFault::Present))
        }
        made => At::File(file).given(made),
    }
}

/// Makes these files of a folder at their paths, and syncs it. Where that can't be done, none of them is left.
fn make_at(
    rt: &HostRuntime,
    folder: &str,
    files: &[Filled<'_>],
    paths: &[String],
) -> Result<(), Hindrance> {
    for (count, ((file, bytes), path)) in files.iter().zip(paths).enumerate() {
        if let Err(hindrance) = make_absent(rt, path, *file, bytes) {
            unmake(rt, paths, count);
            return Err(hindrance);
        }
    }
    let synced = At::Folder.given(sync_folder(rt, folder));
    if synced.is_err() {
        unmake(rt, paths, paths.len());
    }
    synced
}

/// What the ledger of a key holds of which no leaf is used: the key, and a mark of zero for each leaf.
pub(crate) fn new_ledger(key: &PublicKey) -> [u8; LEDGER_SIZE] {
    let mut ledger = [0; LEDGER_SIZE];
    ledger[..KEY_SIZE].copy_from_slice(key.as_bytes());
    ledger
}

/// Makes the file of the folder's place, and then the seed: where it is, all are.
fn make_last(rt: &HostRuntime, folder: &str, seed: &SeedBytes) -> Result<(), Hindrance> {
    let place = new_place(rt, folder)?;
    let files: [Filled<'_>; 2] = [
        (FolderFile::Place, place.as_bytes()),
        (FolderFile::Seed(0), seed),
    ];
    let paths = paths_of(rt, folder, &files)?;
    make_at(rt, folder, &files, &paths)
}

/// Makes the folder and its files, the seed as the last one.
fn make_all(
    rt: &HostRuntime,
    folder: &str,
    made: &Made,
    seed: &SeedBytes,
) -> Result<(), Hindrance> {
    make_folder(rt, folder)?;
    let user = made.user.get();
    let number = format!(in rt.alloc(); "{user}\n")?;
    let (ledger, journal) = (new_ledger(&made.own), NEW_JOURNAL);
    let files: [Filled<'_>; 4] = [
        (FolderFile::SuperKey, made.super_key.as_bytes()),
        (FolderFile::User, number.as_bytes()),
        (FolderFile::Ledger(0), &ledger),
        (FolderFile::Journal, &journal),
    ];
    let paths = paths_of(rt, folder, &files)?;
    make_at(rt, folder, &files, &paths)?;
    let last = make_last(rt, folder, seed);
    if last.is_err() {
        unmake(rt, &paths, paths.len());
    }
    last
}

/// Makes a user's folder with a new key. Where that can't be done, it has no seed.
pub(crate) fn init<H: Threads + Sync>(
    rt: &HostRuntime,
    host: &H,
    new: &NewFolder<'_>,
) -> Result<Made, Hindrance> {
    let given = match new.super_key {
        Some(path) => Some(read_super_key(rt, path)?),
        None => None,
    };
    check_unmade(rt, new.dir)?;
    let seed = random_seed(rt, 0)?;
    let key = key_of_seed(rt, host, &seed)?;
    let own = key.public();
    let_go(key);
    let made = Made {
        user: new.user,
        own,
        super_key: given.unwrap_or(own),
    };
    make_all(rt, new.dir, &made, &seed)?;
    Ok(made)
}

/// Prints what user 0 types to add the user, or user 0's own key, and fingerprints of the own key and of user 0's.
pub(crate) fn print_made(rt: &HostRuntime, made: &Made) -> anyhow::Result<()> {
    let user = made.user.get();
    let digits = Digits(&made.own);
    let (own, super_key) = (Fingerprint::of(&made.own), Fingerprint::of(&made.super_key));
    if user == 0 {
        println!(rt; "{digits}")?;
    } else {
        println!(rt; "adduser {user} {digits}")?;
        println!(rt; "fingerprint of user {user}'s key: {own}")?;
    }
    println!(rt; "fingerprint of user 0's key: {super_key}")?;
    Ok(())
}
