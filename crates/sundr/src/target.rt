//! A file of the system into which the bytes of a file are written that is got.

use crate::folder::OWNERS_ALONE;
use crate::hindrance::{At, FileFault, Hindrance};
use crate::init::fill;
use crate::opening::make;
use commands::Answer;
use std::alloc::{AllocError, Global};
use std::fs::{self, File, Permissions};
use std::io::{self, ErrorKind};
use std::os::unix::fs::{MetadataExt, PermissionsExt};
use std::path::Path;

/// The mode of a file that is made, of which the system takes what it takes of each new one.
const NEW_MODE: u32 = 0o666;

/// What of a file's mode says who may use it.
const USE: u32 = 0o777;

/// How many names are tried for the file beside: one that is there was left by a command that was stopped.
const MOST_NAMES: u8 = 100;

/// A file that gets its bytes once all of them are there. Until then they stand beside it.
#[derive(Drop)]
pub(crate) struct Target<'a> {
    path: &'a str,
    beside: String,
    file: File,
    /// The mode of the file that was there before.
    mode: Option<u32>,
}

/// The mode of the file at a path, if there is one. What is neither a file nor nothing can't get bytes.
fn mode_at(rt: &HostRuntime, path: &str) -> Result<Option<u32>, Hindrance> {
    match fs::metadata(rt, path) {
        Ok(found) if found.is_dir() => Err(Hindrance::NoFile(FileFault::Directory)),
        Ok(found) if !found.is_file() => Err(Hindrance::NoFile(FileFault::NoFile)),
        Ok(found) => Ok(Some(found.mode() & USE)),
        Err(fault) if fault.kind() == ErrorKind::NotFound => Ok(None),
        Err(fault) => Err(At::Named.hindrance(&fault)),
    }
}

/// The folder in which a file stands.
fn folder_of(path: &str) -> &str {
    match Path::new(path).parent() {
        Some(above) if !above.as_str().is_empty() => above.as_str(),
        _ => ".",
    }
}

/// A name beside a file, one of many.
fn name_beside(alloc: Global, path: &str, number: u8) -> Result<String, AllocError> {
    let folder = folder_of(path);
    format!(in alloc; "{folder}/.sundr-get.{number}")
}

/// Makes a file beside another one, by the first name that is free.
fn make_beside(rt: &HostRuntime, path: &str, mode: u32) -> io::Result<(String, File)> {
    for number in 0..MOST_NAMES {
        let beside = name_beside(rt.alloc(), path, number)?;
        match make(rt, &beside, mode) {
            Ok(file) => return Ok((beside, file)),
            Err(fault) if fault.kind() == ErrorKind::AlreadyExists => (),
            Err(fault) => return Err(fault),
        }
    }
    Err(ErrorKind::AlreadyExists.into())
}

/// Syncs the folder in which a file stands.
fn sync_above(rt: &HostRuntime, path: &str) -> io::Result<()> {
    File::open(rt, folder_of(path))?.sync_all()
}

impl<'a> Target<'a> {
    /// The file at a path, which isn't touched, with an empty one beside. Where another one is there, only its owner reads
    /// the one beside.
    pub(crate) fn open(rt: &HostRuntime, path: &'a str) -> Result<Target<'a>, Hindrance> {
        let mode = mode_at(rt, path)?;
        let growing = if mode.is_some() {
            OWNERS_ALONE
        } else {
            NEW_MODE
        };
        match make_beside(rt, path, growing) {
            Ok((beside, file)) => Ok(Target {
                path,
                beside,
                file,
                mode,
            }),
            Err(fault) => Err(At::Named.hindrance(&fault)),
        }
    }

    /// Writes the bytes of the file beside, and moves it into its place. Who may use it is as before, if that can be set.
    fn put(&mut self, rt: &HostRuntime, bytes: &[u8]) -> io::Result<()> {
        fill(&mut self.file, bytes)?;
        if let Some(mode) = self.mode {
            let _ = self.file.set_permissions(Permissions::from_mode(mode));
        }
        fs::rename(rt, &self.beside, self.path)?;
        // The file has its bytes: that its folder can't be synced is no fault.
        let _ = sync_above(rt, self.path);
        Ok(())
    }

    /// The file has the bytes that an answer shows: whether it shows any. It is as it was where there are none, or they
    /// can't be written, and nothing is left beside it.
    pub(crate) fn take(
        &mut self,
        rt: &HostRuntime,
        answer: Option<&Answer<Global>>,
    ) -> Result<bool, Hindrance> {
        let written = match answer {
            Some(Answer::Bytes(bytes)) => At::Named.given(self.put(rt, bytes)),
            _ => {
                let _ = fs::remove_file(rt, &self.beside);
                return Ok(false);
            }
        };
        if written.is_err() {
            let _ = fs::remove_file(rt, &self.beside);
        }
        written?;
        Ok(true)
    }
}
