//! All that stands in a folder of this system is written below a directory.

use crate::asking::Asks;
use crate::folder::{CONTENT_SIZE, read_named};
use crate::hindrance::{At, Hindrance};
use crate::lost::{is_unwritten, last_operation};
use crate::tree::{Context, IN_THE_WAY, OWN_FOLDER, Shown, Stopped, joined, place_word};
use commands::{Answer, Command, Kind, MOST_FILES, NewFile, Refusal, Row, have_names};
use directory::{MOST_ENTRIES, Target as Place};
use itable::FILE_SIZE;
use layout::let_go;
use std::alloc::{AllocError, Global};
use std::fs;
use std::io::{self, ErrorKind};
use update_cert::Cert;

/// What is told of a name that is none here.
const NO_NAME: &str = "a name that no entry may have";

/// What is told of a folder with names that aren't text.
const NO_TEXT: &str = "a name in it isn't UTF-8";

/// What is told of a file for which its directory has no room.
const NO_ROOM: &str = "the directory has as many entries as one may have";

/// A folder whose files are to be written, and the directory for them.
#[derive(Drop)]
struct Pending {
    folder: String,
    path: String,
}

/// A file that is to be written, its bytes, and where the one stands that has its name.
#[derive(Drop)]
struct Content {
    name: String,
    bytes: Vec<u8>,
    there: Option<Place>,
}

/// What is still to be written.
#[derive(Drop)]
struct Putting<'a, S: Asks> {
    context: Context<'a, S>,
    pending: Vec<Pending>,
    /// The files that are written next, all into one directory.
    files: Vec<Content>,
    /// How many entries that directory has by then.
    entries: usize,
}

/// The names of a folder, in ascending order, and whether it has others that aren't text.
fn names_in(rt: &HostRuntime, folder: &str) -> io::Result<(Vec<String>, bool)> {
    let mut names = Vec::new(rt.alloc());
    let mut has_others = false;
    for entry in fs::read_dir(rt, folder)? {
        match entry {
            Ok(entry) => names.push(String::from_str(rt.alloc(), entry.file_name())?)?,
            Err(fault) if fault.kind() == ErrorKind::InvalidFilename => has_others = true,
            Err(fault) => return Err(fault),
        }
    }
    names.sort()?;
    Ok((names, has_others))
}

/// What stands under a name among these entries, and where, if one has it.
fn found_in(rows: &[Row<Global>], name: &str) -> Option<(Kind, Place)> {
    for row in rows {
        if row.entry().name().as_str() == name {
            return Some((row.kind(), row.entry().target()));
        }
    }
    None
}

/// Whether an entry may have a name.
fn is_name(name: &str) -> bool {
    have_names(&[NewFile { name, content: &[] }])
}

/// The names and the bytes of these files.
fn new_files<'a>(alloc: Global, files: &'a [Content]) -> Result<Vec<NewFile<'a>>, AllocError> {
    let mut all = Vec::new(alloc);
    for file in files {
        all.push(NewFile {
            name: &file.name,
            content: &file.bytes,
        })?;
    }
    Ok(all)
}

/// Whether the changes without effect of an operation, if it can be read, concern a file.
fn is_lost(operation: &Option<Cert<Global>>, lost: &[u8], file: &Content) -> bool {
    match operation {
        Some(operation) => is_unwritten(operation.changes(), lost, &file.name, file.there),
        None => true,
    }
}

impl<S: Asks> Putting<'_, S> {
    /// The entries of a directory, which is made where nothing is there.
    fn rows_at(&mut self, path: &str) -> Result<Vec<Row<Global>>, Stopped> {
        match self.context.session.run(&Command::Mkdir(path)) {
            Answer::Done => return Ok(Vec::new(self.context.rt.alloc())),
            Answer::Refused(Refusal::There) => {}
            other => return Err(self.context.stop(other)),
        }
        // What is there was looked at just now.
        match self.context.session.show(&Command::Details(path)) {
            Answer::Details(rows) => Ok(rows),
            other => Err(self.context.stop(other)),
        }
    }

    /// Whether the file at a place has these bytes.
    fn has_content(&mut self, place: Place, content: &[u8]) -> Result<bool, Stopped> {
        let word = place_word(self.context.rt.alloc(), place)?;
        match self.context.session.show(&Command::Cat(&word)) {
            Answer::Bytes(bytes) => Ok(bytes.as_slice() == content),
            other => Err(self.context.stop(other)),
        }
    }

    /// Tells which of the files that were next these changes concern, which had no effect in the last operation: how many.
    fn tell_lost(&self, directory: &str, lost: &[u8]) -> usize {
        let rt = self.context.rt;
        let operation = last_operation(rt, self.context.dir);
        let mut count = 0usize;
        for file in &self.files {
            if is_lost(&operation, lost, file) {
                count = count.saturating_add(1);
                let _ = eprintln!(rt;
                    "sundr: {}/{}: not written",
                    Shown(directory),
                    Shown(&file.name)
                );
            }
        }
        let_go(operation);
        count
    }

    /// What came of the operation that writes the files that are next into a directory.
    fn written(&mut self, directory: &str, answer: Answer<Global>) -> Result<(), Stopped> {
        let count = self.files.len();
        match answer {
            Answer::Done => {
                self.context.count(count);
                Ok(())
            }
            Answer::Lost(lost) => {
                let left = self.tell_lost(directory, &lost);
                self.context.count(count.saturating_sub(left));
                Err(self.context.stop(Answer::Lost(lost)))
            }
            other => Err(self.context.stop(other)),
        }
    }

    /// Asks that the files that are next are written into a directory, in one operation.
    fn ask(&mut self, directory: &str) -> Result<Answer<Global>, AllocError> {
        let files = new_files(self.context.rt.alloc(), &self.files)?;
        let command = Command::PutAll {
            directory,
            files: &files,
        };
        Ok(self.context.run(&command))
    }

    /// Writes the files that are next into a directory.
    fn write(&mut self, directory: &str) -> Result<(), Stopped> {
        if self.files.is_empty() {
            return Ok(());
        }
        let written = match self.ask(directory) {
            Ok(answer) => self.written(directory, answer),
            Err(error) => Err(error.into()),
        };
        self.files.clear();
        written
    }

    /// Why a file isn't written, if it isn't: what stands under its name, the name itself, its size, or no room for one
    /// more entry.
    fn unwritten(
        &self,
        found: Option<(Kind, Place)>,
        name: &str,
        size: usize,
    ) -> Option<&'static str> {
        match found {
            Some((Kind::Directory | Kind::Nothing, _)) => Some(IN_THE_WAY),
            None if !is_name(name) => Some(NO_NAME),
            None if self.entries >= MOST_ENTRIES => Some(NO_ROOM),
            _ if size > FILE_SIZE as usize => Some("larger than a file may be"),
            _ => None,
        }
    }

    /// Whether a file is to be written: it isn't left out, nor stands there with the same bytes.
    fn is_due(
        &mut self,
        found: Option<(Kind, Place)>,
        (from, name): (&str, &str),
        bytes: &[u8],
    ) -> Result<bool, Stopped> {
        if let Some(why) = self.unwritten(found, name, bytes.len()) {
            self.context.leave_out(from, why);
            return Ok(false);
        }
        match found {
            Some((Kind::File(size), place)) if size as usize == bytes.len() => {
                Ok(!self.has_content(place, bytes)?)
            }
            _ => Ok(true),
        }
    }

    /// A file of these bytes is written next.
    fn push(&mut self, name: &str, bytes: Vec<u8>, there: Option<Place>) -> Result<(), Stopped> {
        let name = String::from_str(self.context.rt.alloc(), name)?;
        self.files.push(Content { name, bytes, there })?;
        if there.is_none() {
            self.entries = self.entries.saturating_add(1);
        }
        Ok(())
    }

    /// A file is written next, unless it stands there with the same bytes. As many as one operation makes are written.
    fn add_file(
        &mut self,
        rows: &[Row<Global>],
        (from, directory, name): (&str, &str, &str),
    ) -> Result<(), Stopped> {
        let bytes = read_named(self.context.rt, from, CONTENT_SIZE)?;
        let found = found_in(rows, name);
        if !self.is_due(found, (from, name), &bytes)? {
            return Ok(());
        }
        let there = match found {
            Some((_, place)) => Some(place),
            None => None,
        };
        self.push(name, bytes, there)?;
        if self.files.len() >= MOST_FILES {
            self.write(directory)?;
        }
        Ok(())
    }

    /// A folder is written later, into the directory of its name.
    fn add_folder(
        &mut self,
        rows: &[Row<Global>],
        (from, directory, name): (&str, &str, &str),
    ) -> Result<(), Stopped> {
        let alloc = self.context.rt.alloc();
        match found_in(rows, name) {
            Some((Kind::File(_) | Kind::Nothing, _)) => self.context.leave_out(from, IN_THE_WAY),
            None if !is_name(name) => self.context.leave_out(from, NO_NAME),
            _ => self
                .pending
                .push(folder_for(alloc, from, directory, name)?)?,
        }
        Ok(())
    }

    /// What stands at a path of this system is written under a name: a file, or later all that stands in a folder.
    fn add_found(
        &mut self,
        rows: &[Row<Global>],
        (from, directory, name): (&str, &str, &str),
    ) -> Result<(), Stopped> {
        let found = At::Named.given(fs::symlink_metadata(self.context.rt, from))?;
        if found.is_dir() {
            self.add_folder(rows, (from, directory, name))
        } else if found.is_file() {
            self.add_file(rows, (from, directory, name))
        } else {
            self.context.leave_out(from, "neither a file nor a folder");
            Ok(())
        }
    }

    /// What has a name in a folder is written. What this system doesn't let be read is left out.
    fn add(&mut self, rows: &[Row<Global>], here: &Pending, name: &str) -> Result<(), Stopped> {
        let from = joined(self.context.rt.alloc(), &here.folder, name)?;
        let done = self.add_found(rows, (&from, &here.path, name));
        self.context.past(&from, done)
    }

    /// Writes what stands in a folder under these names.
    fn add_all(
        &mut self,
        rows: &[Row<Global>],
        here: &Pending,
        names: &[String],
    ) -> Result<(), Stopped> {
        self.entries = rows.len();
        for name in names {
            self.add(rows, here, name)?;
        }
        self.write(&here.path)
    }

    /// The names of a folder. Those that aren't text are left out.
    fn names(&mut self, folder: &str) -> Result<Vec<String>, Stopped> {
        let (names, has_others) = At::Named.given(names_in(self.context.rt, folder))?;
        if has_others {
            self.context.leave_out(folder, NO_TEXT);
        }
        Ok(names)
    }

    /// Writes what stands in a folder, unless it is the user's own.
    fn go_on(&mut self, here: &Pending) -> Result<(), Stopped> {
        match fs::metadata(self.context.rt, &here.folder) {
            Ok(found) if self.context.is_own(&found) => {
                self.context.leave_out(&here.folder, OWN_FOLDER);
                return Ok(());
            }
            _ => (),
        }
        let names = self.names(&here.folder)?;
        let rows = self.rows_at(&here.path)?;
        self.add_all(&rows, here, &names)
    }

    /// Writes what stands in each folder that was put off, those last that stand deepest.
    fn go(&mut self) -> Result<(), Stopped> {
        for _ in 0..u64::MAX {
            match self.pending.pop() {
                Some(next) => {
                    let done = self.go_on(&next);
                    self.context.past(&next.folder, done)?;
                }
                None => break,
            }
        }
        Ok(())
    }
}

/// A folder, and the directory of a name for it.
fn folder_for(alloc: Global, folder: &str, above: &str, name: &str) -> Result<Pending, AllocError> {
    Ok(Pending {
        folder: String::from_str(alloc, folder)?,
        path: joined(alloc, above, name)?,
    })
}

/// The first folder, of those whose files are to be written.
fn first(alloc: Global, folder: &str, path: &str) -> Result<Vec<Pending>, Hindrance> {
    let first = Pending {
        folder: String::from_str(alloc, folder)?,
        path: String::from_str(alloc, path)?,
    };
    let mut pending = Vec::new(alloc);
    pending.push(first)?;
    Ok(pending)
}

/// Writes all that stands in a folder of this system below a directory, which is made where nothing is there. Eight files
/// at most go into one operation; what is there already with the same bytes is left as it is.
pub(crate) fn put_tree<S: Asks>(
    context: Context<'_, S>,
    folder: &str,
    path: &str,
) -> Result<Answer<Global>, Hindrance> {
    let rt = context.rt;
    let pending = first(rt.alloc(), folder, path)?;
    let mut putting = Putting {
        context,
        pending,
        files: Vec::new(rt.alloc()),
        entries: 0,
    };
    let gone = putting.go();
    let Putting { context, .. } = putting;
    context.finish(path, gone)
}
