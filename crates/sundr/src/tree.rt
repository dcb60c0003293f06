//! What is written of a whole folder: how much, and what was left out.

use crate::asking::Asks;
use crate::hindrance::{At, FileFault, Hindrance};
use commands::{Answer, Command, Refusal};
use directory::Target as Place;
use layout::put_in;
use std::alloc::{AllocError, AllocFailed, Global};
use std::fmt;
use std::fs::{self, Metadata};
use std::io::IsTerminal;
use std::os::unix::fs::MetadataExt;

/// What is told of the folder of the own keys.
pub(crate) const OWN_FOLDER: &str = "the folder of the own keys";

/// What is told where something of another kind stands.
pub(crate) const IN_THE_WAY: &str = "something else stands there under this name";

/// A name of somebody's choice, of which a terminal isn't told what it could take for a command.
#[derive(Clone, Copy)]
pub(crate) struct Shown<'a>(pub(crate) &'a str);

impl fmt::Display for Shown<'_> {
    fn fmt<W: fmt::Write>(&self, f: &mut fmt::Formatter<W>) -> fmt::Result {
        for c in self.0.chars() {
            if c.is_control() {
                write!(f, "\\u{{{:x}}}", u32::from(c))?;
            } else {
                write!(f, "{c}")?;
            }
        }
        Ok(())
    }
}

/// Why no more is written.
#[derive(Clone, Copy)]
pub(crate) enum Stopped {
    /// An answer that isn't that all was done, which is kept.
    Answered,
    /// This hinders.
    Hindered(Hindrance),
}

impl From<Hindrance> for Stopped {
    fn from(hindrance: Hindrance) -> Stopped {
        Stopped::Hindered(hindrance)
    }
}

impl From<AllocError> for Stopped {
    fn from(error: AllocError) -> Stopped {
        Stopped::Hindered(Hindrance::from(error))
    }
}

impl<T: Drop> From<AllocFailed<T>> for Stopped {
    fn from(failed: AllocFailed<T>) -> Stopped {
        Stopped::Hindered(Hindrance::from(failed))
    }
}

/// The word for what stands at an i-number.
pub(crate) fn place_word(alloc: Global, place: Place) -> Result<String, AllocError> {
    let (principal, i_number) = (place.principal.get(), place.i_number.get());
    format!(in alloc; "@{principal}:{i_number}")
}

/// A name in a directory or a folder.
pub(crate) fn joined(alloc: Global, above: &str, name: &str) -> Result<String, AllocError> {
    let above = above.strip_suffix('/').unwrap_or(above);
    format!(in alloc; "{above}/{name}")
}

/// With what a folder is put or got: a session of the user whose folder this is; and how much of it was.
#[derive(Drop)]
pub(crate) struct Context<'a, S: Asks> {
    pub(crate) rt: &'a HostRuntime,
    pub(crate) dir: &'a str,
    pub(crate) session: &'a mut S,
    /// The numbers by which the system knows the user's own folder: nothing below it is put, and nothing is written into
    /// it.
    own: (u64, u64),
    /// How many files were written.
    files: u64,
    /// Whether something was left out.
    is_partial: bool,
    /// What came of a command, where that stopped it.
    answer: Option<Answer<Global>>,
}

/// What is told at the end, where all was gone through or it was stopped.
fn end_of(
    gone: Result<(), Stopped>,
    is_partial: bool,
    answer: Option<Answer<Global>>,
) -> Result<Answer<Global>, Hindrance> {
    match gone {
        Err(Stopped::Hindered(hindrance)) => Err(hindrance),
        Ok(()) if is_partial => Err(Hindrance::NoFile(FileFault::LeftOut)),
        _ => Ok(answer.unwrap_or(Answer::Done)),
    }
}

impl<'a, S: Asks> Context<'a, S> {
    /// That of a session, of the user of a folder. Nothing was written or left out.
    pub(crate) fn new(
        rt: &'a HostRuntime,
        dir: &'a str,
        session: &'a mut S,
    ) -> Result<Context<'a, S>, Hindrance> {
        let own = At::Folder.given(fs::metadata(rt, dir))?;
        Ok(Context {
            rt,
            dir,
            session,
            own: (own.dev(), own.ino()),
            files: 0,
            is_partial: false,
            answer: None,
        })
    }

    /// Whether a folder is the user's own.
    pub(crate) fn is_own(&self, found: &Metadata) -> bool {
        (found.dev(), found.ino()) == self.own
    }

    /// Carries a command out.
    pub(crate) fn run(&mut self, command: &Command<'_>) -> Answer<Global> {
        self.session.run(command)
    }

    /// An answer isn't that all was done.
    pub(crate) fn stop(&mut self, answer: Answer<Global>) -> Stopped {
        put_in(&mut self.answer, Some(answer));
        Stopped::Answered
    }

    /// So many files more were written, which is told where standard error is a terminal.
    pub(crate) fn count(&mut self, files: usize) {
        let rt = self.rt;
        self.files = self.files.saturating_add(files as u64);
        if rt.stderr().is_terminal() {
            let _ = eprint!(rt; "\r{} files", self.files);
        }
    }

    /// Something is left out: that is told, with its name and why.
    pub(crate) fn leave_out(&mut self, name: &str, why: &str) {
        let rt = self.rt;
        self.is_partial = true;
        let _ = eprintln!(rt; "sundr: {}: {why}: left out", Shown(name));
    }

    /// What came of a file or a folder of this system. Where it is at fault, it is left out, but for a full disk.
    pub(crate) fn past(&mut self, name: &str, done: Result<(), Stopped>) -> Result<(), Stopped> {
        match done {
            Err(Stopped::Hindered(Hindrance::NoFile(FileFault::Full))) => done,
            Err(Stopped::Hindered(Hindrance::NoFile(fault))) => {
                self.leave_out(name, fault.words());
                Ok(())
            }
            _ => done,
        }
    }

    /// Tells when all was gone through, or when it was stopped: then how much was written before, and whether the same may
    /// come to an end another time.
    fn tell_end(&self, name: &str, is_whole: bool) {
        let rt = self.rt;
        if rt.stderr().is_terminal() {
            let _ = eprintln!(rt;);
        }
        if is_whole {
            return;
        }
        let hint = match &self.answer {
            Some(Answer::Refused(Refusal::Cut | Refusal::Memory)) => ": say it again to go on",
            _ => "",
        };
        let _ = eprintln!(rt;
            "sundr: {}: {} files were written{hint}",
            Shown(name),
            self.files
        );
    }

    /// What is told at the end.
    pub(crate) fn finish(
        self,
        name: &str,
        gone: Result<(), Stopped>,
    ) -> Result<Answer<Global>, Hindrance> {
        self.tell_end(name, gone.is_ok());
        let Context {
            is_partial,
            answer,
            ..
        } = self;
        end_of(gone, is_partial, answer)
    }
}
