//! All that stands below a directory is written into a folder of this system.

use crate::asking::Asks;
use crate::found::{split_last, start_alone};
use crate::hindrance::{At, Hindrance};
use crate::target::Target;
use crate::tree::{Context, IN_THE_WAY, OWN_FOLDER, Stopped, joined, place_word};
use commands::{Answer, Command, Kind, Row};
use directory::Target as Place;
use layout::let_go;
use std::alloc::Global;
use std::fs::{self, Metadata};
use std::io::{self, ErrorKind};

/// A directory whose entries are to be written, and the folder for them.
#[derive(Drop)]
struct Pending {
    place: Place,
    folder: String,
}

/// What is still to be written.
#[derive(Drop)]
struct Getting<'a, S: Asks> {
    context: Context<'a, S>,
    pending: Vec<Pending>,
    /// The directories that were met: each is written once, under the name that was met first.
    met: Vec<Place>,
}

/// The place to which a path leads, in the view of the last look; none where that isn't told.
fn place_at<S: Asks>(session: &mut S, path: &str) -> Option<Place> {
    if let Some(place) = start_alone(path) {
        return Some(place);
    }
    let (above, name) = split_last(path)?;
    match session.show(&Command::Ls(above)) {
        Answer::Listing(entries) => entries.get(name.as_bytes()),
        _ => None,
    }
}

/// Whether a directory was met.
fn is_met(met: &[Place], place: &Place) -> bool {
    for before in met {
        if before == place {
            return true;
        }
    }
    false
}

impl<S: Asks> Getting<'_, S> {
    /// Makes a folder where there is none. Why nothing can be written into what is there, if it can't: it is no folder,
    /// or the user's own, whose files stay as they are.
    fn enter(
        &self,
        folder: &str,
        there: io::Result<Metadata>,
    ) -> Result<Option<&'static str>, Hindrance> {
        match there {
            Ok(found) if !found.is_dir() => Ok(Some(IN_THE_WAY)),
            Ok(found) if self.context.is_own(&found) => Ok(Some(OWN_FOLDER)),
            Ok(_) => Ok(None),
            Err(fault) if fault.kind() == ErrorKind::NotFound => {
                At::Named.given(fs::create_dir(self.context.rt, folder))?;
                Ok(None)
            }
            Err(fault) => Err(At::Named.hindrance(&fault)),
        }
    }

    /// A directory is written later, into a folder that is made, unless it was met before.
    fn add(&mut self, place: Place, folder: String) -> Result<(), Stopped> {
        if is_met(&self.met, &place) {
            self.context
                .leave_out(&folder, "the directory has another name, too");
            return Ok(());
        }
        // No link is followed that somebody may have had made for what is written here.
        let there = fs::symlink_metadata(self.context.rt, &folder);
        if let Some(why) = self.enter(&folder, there)? {
            self.context.leave_out(&folder, why);
            return Ok(());
        }
        self.met.push(place)?;
        self.pending.push(Pending { place, folder })?;
        Ok(())
    }

    /// Writes the bytes of the file at a place into one of this system, which is counted.
    fn take_file(&mut self, place: Place, path: &str) -> Result<(), Stopped> {
        let rt = self.context.rt;
        let word = place_word(rt.alloc(), place)?;
        let mut target = Target::open(rt, path)?;
        let shown = self.context.session.show(&Command::Cat(&word));
        match target.take(rt, Some(&shown)) {
            Ok(true) => {
                self.context.count(1);
                Ok(())
            }
            Ok(false) => Err(self.context.stop(shown)),
            Err(hindrance) => Err(hindrance.into()),
        }
    }

    /// Writes what an entry of a directory stands for. What this system doesn't let be written is left out.
    fn take(&mut self, row: &Row<Global>, folder: &str) -> Result<(), Stopped> {
        let alloc = self.context.rt.alloc();
        let path = joined(alloc, folder, row.entry().name().as_str())?;
        let place = row.entry().target();
        let done = match row.kind() {
            Kind::Nothing => {
                self.context.leave_out(&path, "nothing is there");
                return Ok(());
            }
            Kind::File(_) => self.take_file(place, &path),
            Kind::Directory => {
                let folder = joined(alloc, folder, row.entry().name().as_str())?;
                self.add(place, folder)
            }
        };
        self.context.past(&path, done)
    }

    /// Writes what the entries of a directory stand for.
    fn take_all(&mut self, rows: &[Row<Global>], folder: &str) -> Result<(), Stopped> {
        for row in rows {
            self.take(row, folder)?;
        }
        Ok(())
    }

    /// Writes the directory that was put off last, of which the entries are told in the view of the last look.
    fn go_on(&mut self, next: &Pending) -> Result<(), Stopped> {
        let word = place_word(self.context.rt.alloc(), next.place)?;
        match self.context.session.show(&Command::Details(&word)) {
            Answer::Details(rows) => self.take_all(&rows, &next.folder),
            other => Err(self.context.stop(other)),
        }
    }

    /// Writes the entries of the directory at a path.
    fn begin(&mut self, rows: &[Row<Global>], path: &str, folder: &str) -> Result<(), Stopped> {
        if let Some(place) = place_at(self.context.session, path) {
            self.met.push(place)?;
        }
        self.take_all(rows, folder)
    }

    /// Writes the entries of the directory at a path, and then each directory that was put off.
    fn go(&mut self, rows: &[Row<Global>], path: &str, folder: &str) -> Result<(), Stopped> {
        let there = fs::metadata(self.context.rt, folder);
        if let Some(why) = self.enter(folder, there)? {
            self.context.leave_out(folder, why);
            return Ok(());
        }
        self.begin(rows, path, folder)?;
        for _ in 0..u64::MAX {
            match self.pending.pop() {
                Some(next) => self.go_on(&next)?,
                None => break,
            }
        }
        Ok(())
    }
}

/// Writes all that stands below a directory into a folder of this system, which is made where there is none. All of it is
/// of the view of one look.
pub(crate) fn get_tree<S: Asks>(
    context: Context<'_, S>,
    path: &str,
    folder: &str,
) -> Result<Answer<Global>, Hindrance> {
    let rt = context.rt;
    let rows = match context.session.run(&Command::Details(path)) {
        Answer::Details(rows) => rows,
        other => return Ok(other),
    };
    let mut getting = Getting {
        context,
        pending: Vec::new(rt.alloc()),
        met: Vec::new(rt.alloc()),
    };
    let gone = getting.go(&rows, path, folder);
    let_go(rows);
    let Getting { context, .. } = getting;
    context.finish(folder, gone)
}
