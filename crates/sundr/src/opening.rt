//! The files of a user's folder that are written as they stand: the ledgers and the journal. No link is followed, which
//! could lead to a file of another place, or have one made there.

use crate::folder::{OWNERS_ALONE, path_of};
use crate::hindrance::{At, FileFault, FolderFile, Hindrance};
use commands::Refusal;
use layout::beside;
use leaf_ledger::FileDevice;
use std::alloc::Global;
use std::fs::{self, File, Metadata, OpenOptions};
use std::io::{self, ErrorKind, Read};
use std::os::unix::fs::{MetadataExt, OpenOptionsExt};

/// By which numbers the system knows a file: those of its device, and of it there.
type Numbers = (u64, u64);

/// The numbers of a file.
fn numbers_of(found: &Metadata) -> Numbers {
    (found.dev(), found.ino())
}

/// What is told of a file of the folder that is at fault.
fn at_fault(file: FolderFile, fault: FileFault) -> Hindrance {
    Hindrance::OfFile(Refusal::Device, file, fault)
}

/// Refuses a link in the place of a file of the folder, wherever it leads.
fn check_no_link(rt: &HostRuntime, folder: &str, file: FolderFile) -> Result<(), Hindrance> {
    let path = path_of(rt.alloc(), folder, file)?;
    match fs::symlink_metadata(rt, &path) {
        Ok(found) if found.is_symlink() => Err(at_fault(file, FileFault::Link)),
        _ => Ok(()),
    }
}

/// Refuses a folder of so many keys in which a link stands for a ledger, or for the journal.
pub(crate) fn check_no_links(rt: &HostRuntime, folder: &str, count: u8) -> Result<(), Hindrance> {
    for number in 0..count {
        check_no_link(rt, folder, FolderFile::Ledger(number))?;
    }
    check_no_link(rt, folder, FolderFile::Journal)
}

/// Makes a file of a mode, for reads and writes, where nothing is there, nor a link.
pub(crate) fn make(rt: &HostRuntime, path: &str, mode: u32) -> io::Result<File> {
    OpenOptions::new()
        .read(true)
        .write(true)
        .create_new(true)
        .mode(mode)
        .open(rt, path)
}

/// Opens a file that is there, for reads and writes, and gives its numbers. Where a link is there, it is another's file.
fn open_anywhere(rt: &HostRuntime, path: &str) -> io::Result<(File, Numbers)> {
    let file = OpenOptions::new().read(true).write(true).open(rt, path)?;
    let numbers = numbers_of(&file.metadata()?);
    Ok((file, numbers))
}

/// A file of the folder for reads and writes, if it is there: the one that has the name in the folder itself, as it had
/// before it was opened.
pub(crate) fn open_present_to_write(
    rt: &HostRuntime,
    folder: &str,
    file: FolderFile,
) -> Result<Option<File>, Hindrance> {
    let path = path_of(rt.alloc(), folder, file)?;
    let found = match fs::symlink_metadata(rt, &path) {
        Ok(found) => found,
        Err(fault) if fault.kind() == ErrorKind::NotFound => return Ok(None),
        Err(fault) => return Err(At::File(file).hindrance(&fault)),
    };
    if found.is_symlink() {
        return Err(at_fault(file, FileFault::Link));
    }
    let (opened, numbers) = At::File(file).given(open_anywhere(rt, &path))?;
    if numbers != numbers_of(&found) {
        return Err(at_fault(file, FileFault::Other));
    }
    Ok(Some(opened))
}

/// A file of the folder for reads and writes, which is made where there is none.
pub(crate) fn open_to_write(
    rt: &HostRuntime,
    folder: &str,
    file: FolderFile,
) -> Result<File, Hindrance> {
    let path = path_of(rt.alloc(), folder, file)?;
    match make(rt, &path, OWNERS_ALONE) {
        Ok(made) => Ok(made),
        Err(fault) if fault.kind() == ErrorKind::AlreadyExists => {
            let there = open_present_to_write(rt, folder, file)?;
            there.ok_or(at_fault(file, FileFault::Other))
        }
        Err(fault) => Err(At::File(file).hindrance(&fault)),
    }
}

/// The bytes of a file, once it and its folder are synced.
fn synced_bytes(rt: &HostRuntime, folder: &str, file: &mut File) -> io::Result<Vec<u8>> {
    file.sync_all()?;
    File::open(rt, folder)?.sync_all()?;
    let mut text = Vec::new(rt.alloc());
    file.read_to_end(&mut text)?;
    Ok(text)
}

/// The device over a file of the folder, which is made where there is none. File and folder are synced first, so that
/// what the file holds stays, and that it is there.
pub(crate) fn open_device(
    rt: &HostRuntime,
    folder: &str,
    file: FolderFile,
) -> Result<FileDevice<Global>, Hindrance> {
    let mut opened = open_to_write(rt, folder, file)?;
    let read = synced_bytes(rt, folder, &mut opened);
    let (opened, text) = At::File(file).given(beside(opened, read))?;
    Ok(FileDevice::over(opened, text)?)
}
