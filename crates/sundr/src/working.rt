//! Whether the last command in a folder came to its end. Where it didn't, or a device failed, the system may tell bytes of
//! a ledger or of the journal that aren't on the disk, and that it syncs no more: after a sync that failed it takes what it
//! holds for written.

use crate::folder::{OWNERS_ALONE, path_of};
use crate::hindrance::{At, FolderFile, Hindrance};
use crate::opening::{make, open_present_to_write};
use std::fs::{self, File};
use std::io::{self, ErrorKind};
use std::os::unix::fs::FileExt;

/// Makes the file that is there while a command works in the folder, and tells whether it was there.
fn make_note(rt: &HostRuntime, path: &str) -> io::Result<bool> {
    match make(rt, path, OWNERS_ALONE) {
        Ok(_) => Ok(false),
        Err(fault) if fault.kind() == ErrorKind::AlreadyExists => Ok(true),
        Err(fault) => Err(fault),
    }
}

/// Writes a file's bytes over themselves, so that a sync brings them to the disk.
fn write_again(rt: &HostRuntime, file: &File) -> io::Result<()> {
    let size = file.metadata()?.len();
    let mut bytes = vec![in rt.alloc(); 0u8; size as usize]?;
    file.read_exact_at(&mut bytes, 0)?;
    file.write_all_at(&bytes, 0)?;
    file.sync_all()
}

/// Writes the ledgers, which are locked, and the journal, where there is one, over themselves.
fn write_all_again(rt: &HostRuntime, folder: &str, ledgers: &[File]) -> Result<(), Hindrance> {
    let mut number = 0u8;
    for ledger in ledgers {
        At::File(FolderFile::Ledger(number)).given(write_again(rt, ledger))?;
        number = number.saturating_add(1);
    }
    let file = FolderFile::Journal;
    match open_present_to_write(rt, folder, file)? {
        Some(journal) => At::File(file).given(write_again(rt, &journal)),
        None => Ok(()),
    }
}

/// A command begins to work in a folder, whose ledgers are locked. Where the one before didn't come to its end, or a device
/// failed it, ledgers and journal are written anew with the bytes that they have.
pub(crate) fn begin_work(
    rt: &HostRuntime,
    folder: &str,
    ledgers: &[File],
) -> Result<(), Hindrance> {
    let path = path_of(rt.alloc(), folder, FolderFile::Working)?;
    if At::File(FolderFile::Working).given(make_note(rt, &path))? {
        write_all_again(rt, folder, ledgers)?;
    }
    Ok(())
}

/// A command came to its end, and no device failed it. That the file can't be removed is no fault: then the next command
/// takes more time.
pub(crate) fn end_work(rt: &HostRuntime, folder: &str) {
    if let Ok(path) = path_of(rt.alloc(), folder, FolderFile::Working) {
        let _ = fs::remove_file(rt, &path);
    }
}
