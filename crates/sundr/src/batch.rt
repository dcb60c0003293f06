//! Commands that come on standard input, a line each.

use crate::asking::{Asking, Asks};
use crate::folder::{read_blocks, read_keys};
use crate::hindrance::Hindrance;
use crate::obeying::{
    Beside, Outcome, answer_in, end, finish, prepare, public_keys, work_and_look,
};
use crate::printing::{print_with_reason, refuse, tell, tell_leaves};
use crate::reaching::{Contact, Server};
use crate::standing::read_standing;
use crate::{Opened, OwnClient, WORDS, lock_and_open};
use commands::{Answer, Refusal};
use file_commands::{Line, LineError, SplitError, Wanted, split_words};
use layout::let_go;
use std::alloc::{AllocError, Global};
use std::io::{self, ErrorKind, Input};
use std::net::{Net, TcpStream};
use std::thread::Threads;

/// What comes before the words of a line: the name of the program that reads them.
const PROGRAM: &str = "sundr";

/// The words that a line is read of.
pub(crate) fn with_program<'a>(
    alloc: Global,
    words: &'a [String],
) -> Result<Vec<&'a str>, AllocError> {
    let mut all = Vec::new(alloc);
    all.push(PROGRAM)?;
    for word in words {
        all.push(word.as_str())?;
    }
    Ok(all)
}

/// The words of a line, or the status of one whose words are at fault, of which is told.
pub(crate) fn words_of(rt: &HostRuntime, text: &str) -> Result<Vec<String>, u8> {
    match split_words(rt.alloc(), text) {
        Ok(words) => Ok(words),
        Err(error) => {
            let _ = match error {
                SplitError::Memory => eprintln!(rt; "{error}"),
                SplitError::Unclosed => eprintln!(rt; "error: {error}"),
            };
            Err(WORDS)
        }
    }
}

/// With what the lines of a batch are carried out: what draws keys, what is known of the server, and the line that
/// begins the batch.
#[derive(Drop)]
struct Batch<'a, H> {
    rt: &'a HostRuntime,
    host: &'a H,
    contact: &'a Contact<'a>,
    line: &'a Line<'a>,
}

/// What came of a line.
#[derive(Clone, Copy)]
struct Ended {
    status: u8,
    /// Whether nothing may be sent any more over the connection that it went over: that was cut, or memory ran out, perhaps
    /// before a reply was read.
    is_cut: bool,
    /// Whether no line is read behind it.
    is_last: bool,
}

/// What came of a line for which nothing was sent.
fn unsent(status: u8) -> Ended {
    Ended {
        status,
        is_cut: false,
        is_last: false,
    }
}

impl<H: Threads + Sync> Batch<'_, H> {
    /// Does in a session what is wanted, and tells what is told beside it.
    fn obey_in<S: Asks>(
        &self,
        session: &mut S,
        wanted: &Wanted<'_>,
        beside: &mut Beside,
    ) -> Result<Outcome, Hindrance> {
        let mut prepared = prepare(self.rt, wanted)?;
        let (outcome, found) = work_and_look(self.rt, self.line, session, wanted, &prepared);
        beside.reach = self.contact.reach.get();
        beside.found = found;
        finish(self.rt, &mut prepared, outcome)
    }

    /// Does what is wanted; a batch and a renewal aren't done in a batch.
    fn obey<S: Asks>(
        &self,
        session: &mut S,
        wanted: &Wanted<'_>,
        beside: &mut Beside,
    ) -> Result<Outcome, Hindrance> {
        let (rt, host, line) = (self.rt, self.host, self.line);
        match wanted {
            Wanted::Key => Ok(Outcome::Keys(public_keys(rt, host, line)?)),
            Wanted::Status => Ok(Outcome::Status(read_standing(rt, host, line)?)),
            _ => self.obey_in(session, wanted, beside),
        }
    }

    /// Does what is wanted, and prints what comes of it.
    fn carry_out<S: Asks>(&self, session: &mut S, wanted: &Wanted<'_>) -> anyhow::Result<Ended> {
        let mut beside = Beside::new();
        let outcome = self.obey(session, wanted, &mut beside);
        let is_cut = matches!(
            answer_in(&outcome),
            Some(Answer::Refused(Refusal::Cut | Refusal::Memory))
        );
        let status = print_with_reason(self.rt, self.line, wanted, &outcome, beside);
        let_go(outcome);
        Ok(Ended {
            status: status?,
            is_cut,
            is_last: false,
        })
    }

    /// Carries out what these words say, before which the program's name stands.
    fn carry_out_words<S: Asks>(&self, session: &mut S, words: &[&str]) -> anyhow::Result<Ended> {
        match Wanted::read(self.rt.alloc(), words) {
            Ok(wanted) => self.carry_out(session, &wanted),
            Err(error) => {
                let status = refuse(self.rt, &error);
                let_go(error);
                Ok(unsent(status?))
            }
        }
    }

    /// Carries out what stands in a line, and prints what comes of it. Where it has no words, that is nothing.
    fn carry_out_text<S: Asks>(&self, session: &mut S, text: &str) -> anyhow::Result<Ended> {
        let words = match words_of(self.rt, text) {
            Ok(words) if words.is_empty() => return Ok(unsent(0)),
            Ok(words) => words,
            Err(status) => return Ok(unsent(status)),
        };
        match with_program(self.rt.alloc(), &words) {
            Ok(words) => self.carry_out_words(session, &words),
            Err(_) => Ok(unsent(refuse(self.rt, &LineError::Memory)?)),
        }
    }

    /// Carries out a line as it was read. Where memory ran out, what comes behind it isn't the next line.
    fn carry_out_read<S: Asks>(
        &self,
        session: &mut S,
        text: io::Result<String>,
    ) -> anyhow::Result<Ended> {
        let rt = self.rt;
        match text {
            Ok(text) => self.carry_out_text(session, &text),
            Err(fault) if fault.kind() == ErrorKind::OutOfMemory => Ok(Ended {
                status: refuse(rt, &LineError::Memory)?,
                is_cut: false,
                is_last: true,
            }),
            Err(fault) if fault.kind() == ErrorKind::InvalidData => {
                let _ = eprintln!(rt; "error: a word isn't UTF-8");
                Ok(unsent(WORDS))
            }
            Err(fault) => Err(fault.into()),
        }
    }

    /// Carries out a line with its number, from 1 on. A status that isn't 0 is told with it. Where the line can't be read,
    /// or its answer can't be printed, that is told, and no line is read behind it.
    fn carry_out_numbered<S: Asks>(
        &self,
        session: &mut S,
        number: usize,
        text: io::Result<String>,
    ) -> Ended {
        let rt = self.rt;
        match self.carry_out_read(session, text) {
            Ok(ended) => {
                if ended.status != 0 && !ended.is_last {
                    let _ = eprintln!(rt; "line {number}: status {}", ended.status);
                }
                ended
            }
            Err(error) => Ended {
                status: tell(rt, error),
                is_cut: false,
                is_last: true,
            },
        }
    }
}

impl<'a, H: Net<Stream = TcpStream> + Threads + Sync> Batch<'a, H> {
    /// The server.
    fn server(&self) -> Server<'a, H> {
        Server {
            host: self.host,
            address: self.line.server,
            contact: self.contact,
        }
    }

    /// Carries out the lines of standard input, up to the first whose status isn't 0 where it stops there, or to one that
    /// can't be read or whose answer can't be printed: the first status that isn't 0, or 0.
    fn carry_out_all(&self, client: OwnClient, stops: bool) -> u8 {
        let rt = self.rt;
        let kept = read_blocks(rt, self.line.dir);
        let mut session = Asking::new(rt, self.server(), client, kept);
        let mut first = 0;
        for (place, text) in rt.lines(rt.alloc()).enumerate() {
            let ended = self.carry_out_numbered(&mut session, place.saturating_add(1), text);
            if first == 0 {
                first = ended.status;
            }
            if ended.is_last || (stops && ended.status != 0) {
                break;
            }
            if ended.is_cut {
                session = session.again(self.server());
            }
        }
        tell_leaves(rt, end(rt, self.line.dir, session));
        first
    }
}

/// Carries out the lines of standard input by one client over one connection: the status to end with.
pub(crate) fn carry_out_batch<H: Net<Stream = TcpStream> + Threads + Sync>(
    rt: &HostRuntime,
    host: &H,
    line: &Line<'_>,
    stops: bool,
) -> Result<u8, Hindrance> {
    let keys = read_keys(rt, line.dir, line.user)?;
    let Opened { client, locks } = lock_and_open(rt, host, line, &keys)?;
    let contact = Contact::new(rt);
    let batch = Batch {
        rt,
        host,
        contact: &contact,
        line,
    };
    let status = batch.carry_out_all(client, stops);
    let_go(locks);
    Ok(status)
}
