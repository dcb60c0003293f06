//! Files that no other server writes.

use std::fs::{self, File, OpenOptions, TryLockError};
use std::io;
use std::os::unix::fs::MetadataExt;
use std::rt::Files;
use thiserror::Error;

/// Why a file isn't opened, which this is of: the log, or the blocks.
#[derive(Debug, Drop, Error)]
pub(crate) enum FileFault {
    #[error("the file of the {0}: {1}")]
    System(&'static str, io::Error),
    #[error("the file of the {0} is a symbolic link, which isn't followed")]
    Link(&'static str),
    #[error("the file of the {0} isn't a regular file")]
    Kind(&'static str),
    #[error("the file of the {0} was replaced by another one while it was opened")]
    Replaced(&'static str),
    #[error("the file of the {0} is locked: another server writes it")]
    Locked(&'static str),
}

/// The regular file that is there under a name, and no other one that a link leads to.
pub(crate) fn open_present<R: Files<File = File>>(
    rt: &R,
    options: &OpenOptions,
    name: &str,
    what: &'static str,
) -> Result<File, FileFault> {
    let found = match fs::symlink_metadata(rt, name) {
        Ok(found) => found,
        Err(fault) => return Err(FileFault::System(what, fault)),
    };
    if found.is_symlink() {
        return Err(FileFault::Link(what));
    }
    if !found.is_file() {
        return Err(FileFault::Kind(what));
    }
    let (file, opened) = match open_with_facts(rt, options, name) {
        Ok(opened) => opened,
        Err(fault) => return Err(FileFault::System(what, fault)),
    };
    if opened != (found.dev(), found.ino()) {
        return Err(FileFault::Replaced(what));
    }
    Ok(file)
}

/// Opens a file, and tells its device and its number there.
fn open_with_facts<R: Files<File = File>>(
    rt: &R,
    options: &OpenOptions,
    name: &str,
) -> io::Result<(File, (u64, u64))> {
    let file = options.open(rt, name)?;
    let opened = file.metadata()?;
    Ok((file, (opened.dev(), opened.ino())))
}

/// Locks a file until it is closed. Where the system knows no locks, that is told, and all goes on.
pub(crate) fn lock_file<R: Eprint>(
    rt: &R,
    file: &File,
    what: &'static str,
) -> Result<(), FileFault> {
    match file.try_lock() {
        Ok(()) => Ok(()),
        Err(TryLockError::WouldBlock) => Err(FileFault::Locked(what)),
        Err(TryLockError::Error(fault)) if fault.kind() == io::ErrorKind::Unsupported => {
            let _ = eprintln!(rt;
                "sundrd: the file of the {what} can't be locked: no other server may write it"
            );
            Ok(())
        }
        Err(TryLockError::Error(fault)) => Err(FileFault::System(what, fault)),
    }
}
