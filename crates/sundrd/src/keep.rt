//! The folder of a server that keeps what it has.

use crate::files::{FileFault, lock_file, open_present};
use block_file::{BlockError, BlockFile};
use kept_server::Kept;
use layout::let_go;
use lms_sign::PublicKey;
use server_log::{OpenError, open_order};
use std::alloc::{AllocError, Global};
use std::fs::{File, OpenOptions};
use std::io;
use std::os::unix::fs::{FileExt, OpenOptionsExt};
use std::rt::Files;
use storage::FileStorage;
use thiserror::Error;

/// What a server keeps, over files of the system.
pub(crate) type KeptFiles = Kept<FileStorage, FileStorage, Global>;

/// The mode of a file that its owner alone reads and writes.
const OWNERS_ALONE: u32 = 0o600;

/// How many bytes of room are made at once behind the records of the log: those of about 200 operations.
const LOG_AHEAD: usize = 1 << 20;

/// The byte before a record of the log.
const OPEN_GATE: u8 = 1;

/// Why a folder isn't served.
#[derive(Debug, Drop, Error)]
pub(crate) enum KeepFault {
    #[error("the folder: {0}")]
    Folder(io::Error),
    #[error("{0}")]
    File(FileFault),
    #[error("the folder has a log and no file of blocks")]
    NoBlocks,
    #[error("the folder has blocks and no log, or one without records")]
    NoLog,
    #[error("{0}")]
    Order(OpenError),
    #[error("the blocks: {0}")]
    Blocks(BlockError),
}

/// What is opened to be read and written.
fn both_ways() -> OpenOptions {
    let mut options = OpenOptions::new();
    options.read(true).write(true);
    options
}

/// A file of the folder, if it is there.
fn find<R: Files<File = File>>(
    rt: &R,
    name: &str,
    what: &'static str,
) -> Result<Option<File>, KeepFault> {
    match open_present(rt, &both_ways(), name, what) {
        Ok(file) => Ok(Some(file)),
        Err(FileFault::System(_, fault)) if fault.kind() == io::ErrorKind::NotFound => Ok(None),
        Err(fault) => Err(KeepFault::File(fault)),
    }
}

/// A new file of the folder, its owner's alone.
fn make<R: Files<File = File>>(rt: &R, name: &str, what: &'static str) -> Result<File, KeepFault> {
    OpenOptions::new()
        .read(true)
        .write(true)
        .create_new(true)
        .mode(OWNERS_ALONE)
        .open(rt, name)
        .map_err(|fault| KeepFault::File(FileFault::System(what, fault)))
}

/// How many bytes a file has.
fn size_of(file: &File, what: &'static str) -> Result<u64, KeepFault> {
    match file.metadata() {
        Ok(found) => Ok(found.len()),
        Err(fault) => Err(KeepFault::File(FileFault::System(what, fault))),
    }
}

/// Whether a folder has no log yet: none, or one of at most one byte, or whose first gate is closed, which tells no
/// records.
fn is_new(log: &Option<File>) -> Result<bool, KeepFault> {
    let Some(file) = log else {
        return Ok(true);
    };
    let mut begin = [0; 2];
    match file.read_at(&mut begin, 0) {
        Ok(count) => Ok(count < 2 || begin[0] != OPEN_GATE),
        Err(fault) => Err(KeepFault::File(FileFault::System("log", fault))),
    }
}

/// The files of the log and of the blocks, which are made where the folder has neither. The blocks' file is made first,
/// so that no crash leaves a log without it.
fn open_files<R: Eprint + Files<File = File>>(
    rt: &R,
    log: &str,
    blocks: &str,
) -> Result<(File, File), KeepFault> {
    let found_log = find(rt, log, "log")?;
    let found_blocks = find(rt, blocks, "blocks")?;
    let blocks = match found_blocks {
        Some(file) => {
            if is_new(&found_log)? && size_of(&file, "blocks")? != 0 {
                return Err(KeepFault::NoLog);
            }
            file
        }
        None => {
            if found_log.is_some() {
                return Err(KeepFault::NoBlocks);
            }
            make(rt, blocks, "blocks")?
        }
    };
    let log = match found_log {
        Some(file) => file,
        None => make(rt, log, "log")?,
    };
    Ok((log, blocks))
}

/// Opens the files of a folder that is there, locks them, and syncs the folder.
fn open_folder<R: Eprint + Files<File = File>>(
    rt: &R,
    folder: &str,
    log: &str,
    blocks: &str,
) -> Result<(File, File), KeepFault> {
    let folder = File::open(rt, folder).map_err(KeepFault::Folder)?;
    let (log, blocks) = open_files(rt, log, blocks)?;
    lock_file(rt, &log, "log").map_err(KeepFault::File)?;
    lock_file(rt, &blocks, "blocks").map_err(KeepFault::File)?;
    folder.sync_all().map_err(KeepFault::Folder)?;
    Ok((log, blocks))
}

/// The names of the two files of a folder.
fn names(alloc: Global, folder: &str) -> Result<(String, String), AllocError> {
    Ok((
        format!(in alloc; "{folder}/log")?,
        format!(in alloc; "{folder}/blocks")?,
    ))
}

/// Reads back what a folder keeps, or begins it anew where it has neither log nor blocks. What is refused is left as it
/// is.
pub(crate) fn open_kept<R: AllocGlobal + Eprint + Files<File = File>>(
    rt: &R,
    folder: &str,
    pinned: PublicKey,
    room: u64,
) -> anyhow::Result<KeptFiles> {
    let alloc = rt.alloc();
    let (log, blocks) = names(alloc, folder)?;
    let (log, blocks) = open_folder(rt, folder, &log, &blocks)?;
    let (ordered, log) = match open_order(alloc, FileStorage::over(log), pinned) {
        Ok(opened) => opened,
        Err((fault, storage)) => {
            let_go(storage);
            return Err(KeepFault::Order(fault).into());
        }
    };
    match BlockFile::open(alloc, FileStorage::over(blocks), room) {
        Ok(blocks) => Ok(Kept {
            ordered,
            log,
            ahead: LOG_AHEAD,
            blocks,
        }),
        Err((fault, storage)) => {
            let_go(storage);
            Err(KeepFault::Blocks(fault).into())
        }
    }
}
