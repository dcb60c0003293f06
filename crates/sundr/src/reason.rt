//! What is told beside an answer on standard error: what it means, and what can be done.

use crate::found::{Found, start_alone};
use crate::hindrance::{FileFault, FolderFile, Hindrance};
use crate::reaching::Reach;
use commands::{Answer, Command, Refusal, path_of, place_of};
use file_commands::{Line, NewFolder, Wanted};
use layout::User;
use reply_rules::Rule;
use std::alloc::Global;
use wire::Status;

/// How many bytes a name has at most.
const MOST_BYTES: usize = 255;

/// Why a link isn't made at an i-number at which nothing stands.
const NO_NAME: &str = "isn't a name: a link is one in a directory, as /a/b or @p:i/b";

/// Why a change of what stands at a path had no effect.
const LOST: &str =
    "without effect: you may not change what it names, or another user came first: look, and try again";

/// What an answer means: a line of two parts.
#[derive(Clone, Copy)]
pub(crate) enum Reason<'a> {
    /// What is so of a file of the folder.
    OfFile {
        folder: &'a str,
        file: FolderFile,
        words: &'a str,
    },
    /// What is so of something that has a name: a word of the command line, a status, or a command.
    Of {
        name: &'a str,
        words: &'a str,
    },
    /// That the folder is one user's, and not another's.
    OfUser {
        folder: &'a str,
        own: u8,
        other: u8,
    },
}

impl Reason<'_> {
    /// Tells it.
    pub(crate) fn tell(self, rt: &HostRuntime) {
        let _ = match self {
            Reason::OfFile {
                folder,
                file,
                words,
            } => eprintln!(rt; "sundr: {folder}/{file}: {words}"),
            Reason::Of { name, words } => eprintln!(rt; "sundr: {name}: {words}"),
            Reason::OfUser { folder, own, other } => eprintln!(rt;
                "sundr: {folder}: the folder of user {own}, not of user {other}: say --user {own}"
            ),
        };
    }
}

/// The path that a command names, or where it names none what it is called.
fn name_of<'a>(command: &Command<'a>) -> &'a str {
    match command {
        Command::Ls(path) | Command::Cat(path) | Command::Mkdir(path) | Command::Rm(path) => *path,
        Command::Put { path, .. } | Command::Link { path, .. } => *path,
        Command::AddName { path, .. } | Command::DropName { path, .. } => *path,
        Command::Details(path) => *path,
        Command::PutAll { directory, .. } => *directory,
        Command::AddUser { .. } => "adduser",
        Command::SetKey { .. } => "setkey",
        Command::AddMember { .. } => "addmember",
        Command::DropMember { .. } => "dropmember",
        Command::Admin(_) => "admin",
    }
}

/// The path that is named in what is wanted, or where none is what that is called.
fn name_in<'a>(wanted: &Wanted<'a>) -> &'a str {
    match wanted {
        Wanted::Key => "key",
        Wanted::Users => "users",
        Wanted::Status => "status",
        Wanted::Batch { .. } => "batch",
        Wanted::Renew { .. } => "renew",
        Wanted::Admin(file) => *file,
        Wanted::Put { path, .. } | Wanted::Get { path, .. } => *path,
        Wanted::PutTree { path, .. } | Wanted::GetTree { path, .. } => *path,
        Wanted::Move { path, .. } => *path,
        Wanted::Run(command) => name_of(command),
    }
}

/// The path at which a name or something is to be made.
fn new_name_in<'a>(wanted: &Wanted<'a>) -> &'a str {
    match wanted {
        Wanted::Move { to, .. } => *to,
        _ => name_in(wanted),
    }
}

/// The file of the system that is named, or where none is the path that is.
fn file_in<'a>(wanted: &Wanted<'a>) -> &'a str {
    match wanted {
        Wanted::Put { file, .. } | Wanted::Get { file, .. } | Wanted::Admin(file) => *file,
        Wanted::PutTree { dir, .. } | Wanted::GetTree { dir, .. } => *dir,
        _ => name_in(wanted),
    }
}

/// The name of a status, and what it means.
fn reason_of_status<'a>(status: Status) -> Reason<'a> {
    let (name, words) = match status {
        Status::Ok => ("Ok", "done"),
        Status::Form => (
            "Form",
            "the server couldn't read what it was sent: are sundr and sundrd of one version?",
        ),
        Status::UnknownUser => (
            "UnknownUser",
            "the server lists no such user: user 0 has yet to add it (adduser), or the server was started anew or is another one",
        ),
        Status::BadSignature => (
            "BadSignature",
            "the server lists this user with another key: compare the one that user 0 added or set last with the last line that the command key prints",
        ),
        Status::WrongNumber => (
            "WrongNumber",
            "server and folder don't fit, one of them is older: the server was started anew, or the folder was copied; never go on with a copy",
        ),
        Status::NotPending => (
            "NotPending",
            "the server doesn't know what this folder signed last: it was started anew, or the folder was copied; never go on with a copy",
        ),
        Status::Busy => ("Busy", "the log of the server is full for now: try again"),
        Status::TooLarge => (
            "TooLarge",
            "an operation's number is the last one, or a block is too large",
        ),
        Status::Absent => ("Absent", "the server lacks a block"),
        Status::Memory => (
            "Memory",
            "the server has no memory left, or no room for blocks (sundrd --room): ask who runs it",
        ),
    };
    Reason::Of { name, words }
}

/// What a broken rule says of a server.
fn words_of_rule(rule: Rule) -> &'static str {
    match rule {
        Rule::SuperSignature => {
            "its user 0 isn't the one of super.pub, or it showed what no honest server shows: nothing of it was taken; is it the right server?"
        }
        _ => {
            "it showed what no honest server shows: nothing of it was taken; keep the folder, don't go on with this server, and tell the others"
        }
    }
}

/// Why changes of a command had no effect.
fn words_of_lost(command: &Command<'_>) -> &'static str {
    match command {
        Command::AddUser { .. } => "without effect: user 0 alone adds users, and each number once",
        Command::SetKey { .. } => {
            "without effect: user 0 alone sets keys, of a listed user other than 0 who has fewer than 16"
        }
        Command::AddMember { .. } => {
            "without effect: user 0 alone adds members, who are listed and no members yet"
        }
        Command::DropMember { .. } => {
            "without effect: user 0 alone drops members, and only who is one"
        }
        _ => LOST,
    }
}

/// Why changes of what is wanted had no effect.
fn words_of_lost_in(wanted: &Wanted<'_>) -> &'static str {
    match wanted {
        Wanted::Run(command) => words_of_lost(command),
        Wanted::Admin(_) => {
            "these lines are without effect: user 0 alone makes them, each on what the lines before it left"
        }
        _ => LOST,
    }
}

/// The path that is named, or of two the one that is none.
fn path_in<'a>(wanted: &Wanted<'a>) -> &'a str {
    match wanted {
        Wanted::Move { path, to } if path_of(path).is_some() && path_of(to).is_none() => *to,
        _ => name_in(wanted),
    }
}

/// Whether a name in a path has more bytes than it may have.
fn has_long_name(path: &str) -> bool {
    let mut size = 0usize;
    for byte in path.as_bytes() {
        size = if *byte == b'/' {
            0
        } else {
            size.saturating_add(1)
        };
        if size > MOST_BYTES {
            return true;
        }
    }
    false
}

/// Why a text is no path, if it is none.
fn words_of_none(path: &str) -> Option<&'static str> {
    if path_of(path).is_some() {
        None
    } else if has_long_name(path) {
        Some("not a path: a name in it has more than 255 bytes, the most that a name may have")
    } else {
        Some("not a path: paths are /, /a/b, @p:i and @p:i/a/b")
    }
}

/// Why a command finds no path where its path is one.
fn words_of_path(command: &Command<'_>, found: Found) -> &'static str {
    match command {
        Command::Ls(_) | Command::Details(_) => found.no_directory(),
        Command::Cat(_) => found.no_file(),
        Command::Link { target, .. } if place_of(target).is_none() => {
            "can't lead to that: what it is to lead to is told as @p:i"
        }
        Command::Link { path, .. } if start_alone(path).is_some() => NO_NAME,
        Command::Rm(_) => found.nothing(),
        _ => "can't be made: no such directory above it",
    }
}

/// Why what is wanted finds no path.
fn words_of_path_in(wanted: &Wanted<'_>, found: Found) -> &'static str {
    if let Some(words) = words_of_none(path_in(wanted)) {
        return words;
    }
    match wanted {
        Wanted::Run(command) => words_of_path(command, found),
        Wanted::Move { .. } => {
            "can't be moved: it has no name there, or no directory is there for the new one, or it is a directory and would leave its own"
        }
        Wanted::Get { .. } => found.no_file(),
        Wanted::GetTree { .. } => found.no_directory(),
        Wanted::PutTree { .. } => {
            "no directory can be there: it is a file, or no such directory above it, or it has a name that none may have"
        }
        _ => found.no_place(),
    }
}

/// What is told of a server that said no more.
fn words_of_reach(reach: Reach) -> &'static str {
    match reach {
        Reach::Unreached(unreached) => unreached.words(),
        Reach::Broken(broken) => broken.words(),
        Reach::Untried | Reach::Joined => {
            "what came is no answer: does sundrd listen there, of the same version?"
        }
    }
}

/// What is told of the folder where a client can't use it.
fn reason_of_folder<'a>(folder: &'a str, refusal: Refusal) -> Reason<'a> {
    match refusal {
        Refusal::Foreign => Reason::OfFile {
            folder,
            file: FolderFile::Ledger(0),
            words: FileFault::OfOtherSeed.words(),
        },
        Refusal::Damaged => Reason::OfFile {
            folder,
            file: FolderFile::Journal,
            words: "changed, cut short, or another user's (is --user right?): leave it, and make a new folder",
        },
        Refusal::NoLeaf => Reason::Of {
            name: folder,
            words: "its newest key hasn't two leaves left, which an operation takes: renew makes another key, but for user 0",
        },
        Refusal::NoKey => Reason::Of {
            name: folder,
            words: "a key by which user 0 listed this user isn't here: is a seed of the folder missing?",
        },
        _ => Reason::Of {
            name: folder,
            words: "its ledger or journal can't be read, written or synced: is the disk full or failing?",
        },
    }
}

/// What is told where memory ran out.
fn reason_of_memory<'a>() -> Reason<'a> {
    Reason::Of {
        name: "memory",
        words: "it ran out on this machine: free some, and try again",
    }
}

/// How much what is wanted may have at most.
fn words_of_size(wanted: &Wanted<'_>) -> &'static str {
    match wanted {
        Wanted::Admin(_) => "more than 16 changes, the most that an operation may have",
        _ => "more than 4194304 bytes, the most that a file may have",
    }
}

/// What a refusal means.
fn reason_of_refusal<'a>(
    line: &Line<'a>,
    wanted: &Wanted<'a>,
    reach: Reach,
    found: Found,
    refusal: Refusal,
) -> Reason<'a> {
    let (name, words) = match refusal {
        Refusal::NoPath => (path_in(wanted), words_of_path_in(wanted, found)),
        Refusal::There => (new_name_in(wanted), "already there"),
        Refusal::NotEmpty => (name_in(wanted), "directory not empty"),
        Refusal::NoNumber => (
            name_in(wanted),
            "no number is free: of its place, or of a further operation",
        ),
        Refusal::TooLarge => (file_in(wanted), words_of_size(wanted)),
        Refusal::Cut => (line.server, words_of_reach(reach)),
        Refusal::Memory => return reason_of_memory(),
        Refusal::NoLeaf | Refusal::NoKey | Refusal::Device | Refusal::Foreign | Refusal::Damaged =>
            {
                return reason_of_folder(line.dir, refusal);
            }
    };
    Reason::Of { name, words }
}

/// What an answer means, if that is told beside it.
pub(crate) fn reason_of_answer<'a>(
    line: &Line<'a>,
    wanted: &Wanted<'a>,
    reach: Reach,
    found: Found,
    answer: &Answer<Global>,
) -> Option<Reason<'a>> {
    match answer {
        Answer::Done | Answer::Bytes(_) | Answer::Listing(_) | Answer::Details(_) => None,
        Answer::Lost(_) => Some(Reason::Of {
            name: name_in(wanted),
            words: words_of_lost_in(wanted),
        }),
        Answer::Broken(rule) => Some(Reason::Of {
            name: line.server,
            words: words_of_rule(*rule),
        }),
        Answer::Declined(status) => Some(reason_of_status(*status)),
        Answer::Refused(refusal) => Some(reason_of_refusal(line, wanted, reach, found, *refusal)),
    }
}

/// What is so of a folder, or of a file that is named, which hinders a command, but for what is told otherwise.
fn reason_in<'a>(folder: &'a str, named: &'a str, hindrance: Hindrance) -> Option<Reason<'a>> {
    let (name, words) = match hindrance {
        Hindrance::NoKeys(file, fault) | Hindrance::OfFile(_, file, fault) => {
            let words = fault.words();
            return Some(Reason::OfFile {
                folder,
                file,
                words,
            });
        }
        Hindrance::NoFile(fault) => (named, fault.words()),
        Hindrance::NoFolder(fault) => (folder, fault.words()),
        Hindrance::NotRenewed(fault) => (folder, fault.words()),
        Hindrance::OfUser(_) | Hindrance::Refused(_) | Hindrance::Told(_) => return None,
    };
    Some(Reason::Of { name, words })
}

/// Why a command isn't begun, if that wasn't told.
pub(crate) fn reason_of_hindrance<'a>(
    line: &Line<'a>,
    wanted: &Wanted<'a>,
    hindrance: Hindrance,
) -> Option<Reason<'a>> {
    match hindrance {
        Hindrance::OfUser(own) => Some(Reason::OfUser {
            folder: line.dir,
            own: own.get(),
            other: line.user.get(),
        }),
        Hindrance::Refused(refusal) => {
            Some(reason_of_refusal(line, wanted, Reach::Untried, Found::Unasked, refusal))
        }
        other => reason_in(line.dir, file_in(wanted), other),
    }
}

/// Why a folder isn't made.
pub(crate) fn reason_of_unmade<'a>(
    new: &NewFolder<'a>,
    hindrance: Hindrance,
) -> Option<Reason<'a>> {
    match hindrance {
        Hindrance::OfUser(_) => Some(reason_of_folder(new.dir, Refusal::Foreign)),
        Hindrance::Refused(Refusal::Memory) => Some(reason_of_memory()),
        Hindrance::Refused(refusal) => Some(reason_of_folder(new.dir, refusal)),
        other => reason_in(new.dir, new.super_key.unwrap_or(new.dir), other),
    }
}
