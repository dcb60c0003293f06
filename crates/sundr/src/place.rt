//! The place of a folder: by which numbers the system has it and its ledgers. A copy has others, and so has what was put
//! back.

use crate::folder::{
    Keys, MOST_KEYS, count_of, found_in, has_bytes, open_present, path_of, read_most,
};
use crate::hindrance::{At, FileFault, FolderFile, Hindrance};
use crate::init::move_in;
use commands::Refusal;
use layout::let_go;
use std::fs::{self, File, Metadata};
use std::io;
use std::os::unix::fs::MetadataExt;
use std::time::UNIX_EPOCH;

/// The words that the line of a place begins with: the last one is its version.
const HEAD: &str = "sundr place 1";

/// How many blanks these words have.
const HEAD_BLANKS: usize = 2;

/// How many numbers a place has of the folder, and how many of each ledger: the device, the file's number on it, and when
/// it was made.
const NUMBERS: usize = 3;

/// How much is read of the file of a place: more than a line of all numbers has.
const PLACE_SIZE: u64 = 2048;

/// The greatest size of a journal without a record.
const NEW_JOURNAL: u64 = 1;

/// What is told where a folder that was used gets its first place.
const LATE: &str = "is written: from now on a copy of the folder is refused";

/// What is told where a ledger is made.
const NEW_LEDGER: &str = "is made: if this seed signed before, anywhere, stop now";

/// When a file was made, in nanoseconds since 1970; 0 where its file system doesn't tell.
fn made_at(found: &Metadata) -> u128 {
    let Ok(made) = found.created() else {
        return 0;
    };
    match made.duration_since(UNIX_EPOCH) {
        Ok(since) => since.as_nanos(),
        Err(_) => 0,
    }
}

/// Puts the numbers of a file behind what was told before.
fn add_numbers(rt: &HostRuntime, told: &mut String, found: &Metadata) -> io::Result<()> {
    let (device, number, made) = (found.dev(), found.ino(), made_at(found));
    let numbers = format!(in rt.alloc(); " {device} {number} {made}")?;
    told.push_str(&numbers)?;
    Ok(())
}

/// The place that the system has a folder and its ledgers at.
fn place_text(rt: &HostRuntime, folder: &str, ledgers: &[File]) -> io::Result<String> {
    let found = fs::metadata(rt, folder)?;
    let mut told = String::from_str(rt.alloc(), HEAD)?;
    add_numbers(rt, &mut told, &found)?;
    for ledger in ledgers {
        let found = ledger.metadata()?;
        add_numbers(rt, &mut told, &found)?;
    }
    told.push_str("\n")?;
    Ok(told)
}

/// How many numbers a place has.
fn count_in(place: &[u8]) -> usize {
    let mut blanks = 0usize;
    for byte in place {
        if *byte == b' ' {
            blanks = blanks.saturating_add(1);
        }
    }
    blanks.saturating_sub(HEAD_BLANKS)
}

/// Of how many ledgers a place tells, beside the folder.
fn ledgers_in(place: &[u8]) -> usize {
    (count_in(place) / NUMBERS).saturating_sub(1)
}

/// The numbers of a text, if it is the line of a place.
fn numbers_of(text: &[u8]) -> Option<&[u8]> {
    text.strip_prefix(HEAD.as_bytes())?
        .strip_prefix(b" ")?
        .strip_suffix(b"\n")
}

/// Whether a text is numbers in decimal digits, with a blank between each and the next.
fn are_numbers(text: &[u8]) -> bool {
    let mut is_within = false;
    for byte in text {
        let is_digit = byte.is_ascii_digit();
        if !is_digit && (*byte != b' ' || !is_within) {
            return false;
        }
        is_within = is_digit;
    }
    is_within
}

/// Whether a text is a place: of a folder, and of one ledger at least.
fn is_place(text: &[u8]) -> bool {
    match numbers_of(text) {
        Some(numbers) => {
            are_numbers(numbers) && count_in(text) % NUMBERS == 0 && ledgers_in(text) != 0
        }
        None => false,
    }
}

/// What is told of a place that doesn't fit its folder.
fn foreign(fault: FileFault) -> Hindrance {
    Hindrance::OfFile(Refusal::Foreign, FolderFile::Place, fault)
}

/// The place at which a folder tells that it was used last, if it does. A file that is none is refused; where the folder is
/// said to be moved it tells nothing.
fn told_place(rt: &HostRuntime, folder: &str, moved: bool) -> Result<Option<Vec<u8>>, Hindrance> {
    let told = read_most(rt, folder, FolderFile::Place, PLACE_SIZE)?;
    let is_whole = match &told {
        Some(text) => is_place(text),
        None => true,
    };
    if is_whole {
        Ok(told)
    } else if moved {
        Ok(None)
    } else {
        Err(foreign(FileFault::NoPlace))
    }
}

/// Refuses a folder without a file with which it was used.
fn check_used(
    rt: &HostRuntime,
    folder: &str,
    file: FolderFile,
    lost: FileFault,
) -> Result<(), Hindrance> {
    if has_bytes(rt, folder, file)? {
        return Ok(());
    }
    Err(Hindrance::OfFile(Refusal::Foreign, file, lost))
}

/// Refuses a folder of so many keys that hasn't each of the ledgers, so many, with which it was used.
fn check_ledgers(rt: &HostRuntime, folder: &str, count: u8, used: usize) -> Result<(), Hindrance> {
    for number in 0..count {
        if usize::from(number) < used {
            check_used(rt, folder, FolderFile::Ledger(number), FileFault::Lost)?;
        }
    }
    Ok(())
}

/// Refuses a folder without its first ledger that has a user's number: both are made by `init`, before the seed.
fn check_made(rt: &HostRuntime, folder: &str) -> Result<(), Hindrance> {
    let path = path_of(rt.alloc(), folder, FolderFile::User)?;
    if fs::symlink_metadata(rt, &path).is_err() {
        return Ok(());
    }
    check_used(rt, folder, FolderFile::Ledger(0), FileFault::Unmarked)
}

/// Refuses a folder that hasn't each ledger and the journal with which it was used. Where it tells of no place, but its
/// journal has something, it may have been used with any ledger, and where that has nothing with the first one, if `init`
/// made it. Its place is looked at first, since another process makes these files before it tells of them.
pub(crate) fn check_files(
    rt: &HostRuntime,
    folder: &str,
    count: u8,
    moved: bool,
) -> Result<(), Hindrance> {
    let told = told_place(rt, folder, moved)?;
    if let Some(place) = told {
        check_ledgers(rt, folder, count, ledgers_in(&place))?;
        check_used(rt, folder, FolderFile::Journal, FileFault::Forgotten)
    } else if has_bytes(rt, folder, FolderFile::Journal)? {
        check_ledgers(rt, folder, count, usize::from(MOST_KEYS))
    } else {
        check_made(rt, folder)
    }
}

/// Whether a place tells of the same ledgers as another, and then of further ones: its line goes on.
fn goes_on(place: &[u8], other: &[u8]) -> bool {
    match other.strip_suffix(b"\n") {
        Some(line) => match place.strip_prefix(line) {
            Some(rest) => rest.starts_with(b" "),
            None => false,
        },
        None => false,
    }
}

/// What has to be done so that a folder tells its place.
#[derive(Clone, Copy)]
enum Telling {
    /// Nothing.
    Told,
    /// Its file is written.
    Untold,
    /// Its file is written, and that is told, since the folder was used without it.
    Late,
}

/// The place that a folder has, and what has to be done so that the folder tells it.
#[derive(Drop)]
pub(crate) struct Place {
    text: String,
    telling: Telling,
}

/// Whether a folder was used: its journal has more than a gate.
fn was_used(rt: &HostRuntime, folder: &str) -> Result<bool, Hindrance> {
    match found_in(rt, folder, FolderFile::Journal)? {
        Some(found) => Ok(found.len() > NEW_JOURNAL),
        None => Ok(false),
    }
}

/// What has to be done so that a folder tells the place that it has, where it tells that it was used last at another one
/// or at that. It is refused at another one, unless it is said to be moved: it is a copy, or was put back, and would sign
/// with leaves that were used; or a seed is gone. Where it got a further ledger since, it is at the same one.
fn telling_after(told: &[u8], own: &[u8], moved: bool) -> Result<Telling, Hindrance> {
    let ledgers = ledgers_in(own);
    if told == own {
        Ok(Telling::Told)
    } else if moved || goes_on(own, told) {
        Ok(Telling::Untold)
    } else if ledgers != 0 && goes_on(told, own) {
        let next = u8::try_from(ledgers).unwrap_or(MOST_KEYS);
        Err(Hindrance::NoKeys(FolderFile::Seed(next), FileFault::SeedGone))
    } else {
        Err(foreign(FileFault::Elsewhere))
    }
}

/// What has to be done so that a folder tells the place that it has.
fn telling_of(
    rt: &HostRuntime,
    folder: &str,
    own: &str,
    moved: bool,
) -> Result<Telling, Hindrance> {
    match told_place(rt, folder, moved)? {
        Some(told) => telling_after(&told, own.as_bytes(), moved),
        None if was_used(rt, folder)? => Ok(Telling::Late),
        None => Ok(Telling::Untold),
    }
}

/// The place that a folder has, with the ledgers that are open.
fn own_place(rt: &HostRuntime, folder: &str, ledgers: &[File]) -> Result<String, Hindrance> {
    At::File(FolderFile::Place).given(place_text(rt, folder, ledgers))
}

/// Refuses a folder that isn't at the place at which it was used last, unless it is said to be moved, and gives the place
/// that it has.
pub(crate) fn check_place(
    rt: &HostRuntime,
    folder: &str,
    ledgers: &[File],
    moved: bool,
) -> Result<Place, Hindrance> {
    let text = own_place(rt, folder, ledgers)?;
    let telling = telling_of(rt, folder, &text, moved)?;
    Ok(Place { text, telling })
}

/// Refuses a folder whose ledgers aren't at the place any more that was checked: they were opened by their names since,
/// and those that are locked have to be those that are used.
fn check_again(
    rt: &HostRuntime,
    folder: &str,
    keys: &Keys,
    place: &Place,
) -> Result<(), Hindrance> {
    let ledgers = open_ledgers(rt, folder, count_of(keys))?;
    let text = own_place(rt, folder, &ledgers)?;
    if text != place.text {
        return Err(foreign(FileFault::Elsewhere));
    }
    Ok(())
}

/// Puts the file of a folder's place there, which is there whole or as it was, and syncs the folder.
fn put_place(rt: &HostRuntime, folder: &str, text: &str) -> io::Result<()> {
    move_in(rt, folder, FolderFile::Place, text.as_bytes())?;
    File::open(rt, folder)?.sync_all()
}

/// Tells a folder its place, where it doesn't tell that already, and if its ledgers are those that were checked. Only then
/// leaves are taken.
pub(crate) fn tell_place(
    rt: &HostRuntime,
    folder: &str,
    keys: &Keys,
    place: &Place,
) -> Result<(), Hindrance> {
    check_again(rt, folder, keys, place)?;
    if matches!(place.telling, Telling::Told) {
        return Ok(());
    }
    let file = FolderFile::Place;
    At::File(file).given(put_place(rt, folder, &place.text))?;
    if matches!(place.telling, Telling::Late) {
        let _ = eprintln!(rt; "sundr: {folder}/{file}: {LATE}");
    }
    Ok(())
}

/// Whether a file has nothing.
fn is_empty(file: &File) -> bool {
    match file.metadata() {
        Ok(found) => found.len() == 0,
        Err(_) => false,
    }
}

/// Tells which of a folder's ledgers, the first one first, are made: they have nothing yet. The seed of one may have signed
/// with leaves that are free in it, of which nothing tells here.
pub(crate) fn tell_new_ledgers(rt: &HostRuntime, folder: &str, ledgers: &[File]) {
    let mut number = 0u8;
    for ledger in ledgers {
        if is_empty(ledger) {
            let file = FolderFile::Ledger(number);
            let _ = eprintln!(rt; "sundr: {folder}/{file}: {NEW_LEDGER}");
        }
        number = number.saturating_add(1);
    }
}

/// The files of the ledgers that there are of so many keys, the first one first, up to one that isn't there.
fn open_ledgers(rt: &HostRuntime, folder: &str, count: u8) -> Result<Vec<File>, Hindrance> {
    let mut ledgers = Vec::new(rt.alloc());
    for number in 0..count {
        match open_present(rt, folder, FolderFile::Ledger(number))? {
            Some(ledger) => ledgers.push(ledger)?,
            None => break,
        }
    }
    Ok(ledgers)
}

/// The place of a folder whose first ledger was made.
pub(crate) fn new_place(rt: &HostRuntime, folder: &str) -> Result<String, Hindrance> {
    let ledgers = open_ledgers(rt, folder, 1)?;
    own_place(rt, folder, &ledgers)
}

/// Refuses a folder as `check_place` does, and locks nothing.
pub(crate) fn look_at_place(
    rt: &HostRuntime,
    folder: &str,
    keys: &Keys,
    moved: bool,
) -> Result<(), Hindrance> {
    // Without its ledger a folder isn't at the place that it tells of.
    let ledgers = open_ledgers(rt, folder, count_of(keys))?;
    let place = check_place(rt, folder, &ledgers, moved)?;
    let_go(place);
    Ok(())
}
