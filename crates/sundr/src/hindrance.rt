//! Why a command isn't begun.

use commands::Refusal;
use layout::{Memory, User};
use std::alloc::{AllocError, AllocFailed};
use std::fmt;
use std::io::{self, ErrorKind};

/// A file of a user's folder.
#[derive(Clone, Copy)]
pub(crate) enum FolderFile {
    /// That of the seed of the key of this number, and of its identifier.
    Seed(u8),
    /// That of user 0's public key.
    SuperKey,
    /// That of the user's number.
    User,
    /// That of the ledger of the key of this number.
    Ledger(u8),
    /// That of the keys of the leaves of the key of this number, so that it need not be drawn each time.
    Leaves(u8),
    /// That of the journal.
    Journal,
    /// That of the place at which the folder was used last.
    Place,
    /// That of blocks that were got or stored before, so that they need not be asked for again.
    Blocks,
    /// The one that is there while a command works.
    Working,
    /// The one that names the server.
    Config,
}

impl FolderFile {
    /// What its name begins with, and the number of the key whose file it is; 0 of one that isn't a key's.
    fn name(self) -> (&'static str, u8) {
        match self {
            FolderFile::Seed(number) => ("seed", number),
            FolderFile::SuperKey => ("super.pub", 0),
            FolderFile::User => ("user", 0),
            FolderFile::Ledger(number) => ("ledger", number),
            FolderFile::Leaves(number) => ("leaves", number),
            FolderFile::Journal => ("journal", 0),
            FolderFile::Place => ("place", 0),
            FolderFile::Blocks => ("blocks", 0),
            FolderFile::Working => ("working", 0),
            FolderFile::Config => ("config", 0),
        }
    }
}

/// Its name in the folder: of a key but the first one with the key's number.
impl fmt::Display for FolderFile {
    fn fmt<W: fmt::Write>(&self, f: &mut fmt::Formatter<W>) -> fmt::Result {
        let (name, number) = self.name();
        if number == 0 {
            write!(f, "{name}")
        } else {
            write!(f, "{name}.{number}")
        }
    }
}

/// What is told of a file that is there where a user's folder is to be made.
const PRESENT: &str =
    "already there: a folder that has a user's files is left as it is, since a key whose seed is lost can't be made again";

/// What is told of a folder in which another process works.
const IN_USE: &str = "in use: another sundr works in this folder, wait until it has ended";

/// What is told of a folder that is at another place.
const ELSEWHERE: &str =
    "the folder was used last at another place, so it is a copy, or was put back, and would sign again with what is used up: never go on with one; if it was only moved, say --moved once";

/// What is told of a file that isn't a place.
const NO_PLACE: &str =
    "not a place as this sundr writes it: it was changed, cut short, or is of another version; if the folder is no copy, and wasn't put back, say --moved once";

/// What is told of a file without a change.
const NO_CHANGE: &str = "no change is in it: a line each of adduser, setkey, addmember, dropmember";

/// What is told of the first ledger where its folder was used.
const GONE: &str =
    "gone or empty, though the journal isn't: a new one would sign again with what is used up; put it back, no older copy, or make a new folder";

/// What is told of a later one.
const LOST: &str =
    "gone or empty, though the folder was used with it: a new one would sign again with what is used up; put it back, no older copy, or make a new folder";

/// What is told of the first ledger where the folder has a user's number alone.
const UNMARKED: &str =
    "gone or empty, though the file user is there, which sundr init makes with it: a new one would sign again with what is used up; put it back, no older copy, or make a new folder";

/// What is told of a journal.
const FORGOTTEN: &str =
    "gone or empty, though the folder was used with it: with a new one another text would be signed in the place of one that was; put it back, no older copy, or make a new folder";

/// What is told of a ledger without its seed.
const SEEDLESS: &str =
    "there, and not new, without the seed beside it: put the seed back, or move this file out of the folder";

/// What is told of a ledger that isn't its seed's.
const OF_OTHER_SEED: &str =
    "not whole, or not of the seed beside it: are files of two folders mixed?";

/// What is told of a ledger that is older than the journal.
const OLDER: &str =
    "an older one: a leaf is free in it by which the key signed what the journal has last, so it was put back, and would sign again with what is used up; put the newest one back, or make a new folder";

/// What is told of a seed that was copied.
const TWIN: &str =
    "has the identifier of a seed before it, so that both would sign with the same leaves: move this file and its ledger out of the folder";

/// What is at fault with a file.
#[derive(Clone, Copy)]
pub(crate) enum FileFault {
    /// There is none.
    Absent,
    /// There is none, in a folder that `init` makes.
    Unmade,
    /// There is one, where a folder is to be made.
    Present,
    /// The system doesn't let it be used so.
    Denied,
    /// It is a directory.
    Directory,
    /// It is no directory.
    NoDirectory,
    /// It is neither a file nor a directory.
    NoFile,
    /// The disk has no room.
    Full,
    /// The system tells of another fault.
    Other,
    /// It isn't a seed with its identifier.
    NoSeed,
    /// It has the identifier of another seed.
    Twin,
    /// The system gives no random bytes for it.
    NoRandom,
    /// It isn't a public key.
    NoKey,
    /// Others than its owner may use it.
    TooOpen,
    /// Another process has locked it.
    InUse,
    /// It can't be locked where it is.
    NoLocks,
    /// It is a link, which isn't followed.
    Link,
    /// It has nothing, but once had: another file tells so.
    Gone,
    /// It has nothing, but once had: the folder tells where it was.
    Lost,
    /// It has nothing, but once had: the folder tells whose it is.
    Unmarked,
    /// It has nothing, but once had what was signed: the folder tells where it was.
    Forgotten,
    /// It is gone, but the folder tells that there was a ledger beside it.
    SeedGone,
    /// It is there without its seed.
    Seedless,
    /// It is of a time before the journal's last text.
    Older,
    /// It isn't whole, or is another key's.
    OfOtherSeed,
    /// It has more bytes than it can have.
    TooLong,
    /// It has no text of UTF-8.
    NoText,
    /// It has no change.
    NoChange,
    /// It isn't a user's number.
    NoNumber,
    /// It tells of no place.
    NoPlace,
    /// It tells of another place.
    Elsewhere,
    /// Some of what stands in it was left out.
    LeftOut,
}

impl FileFault {
    /// What a fault of the system is at a file.
    fn of(kind: ErrorKind) -> FileFault {
        match kind {
            ErrorKind::NotFound => FileFault::Absent,
            ErrorKind::PermissionDenied | ErrorKind::ReadOnlyFilesystem => FileFault::Denied,
            ErrorKind::IsADirectory => FileFault::Directory,
            ErrorKind::StorageFull | ErrorKind::QuotaExceeded => FileFault::Full,
            _ => FileFault::Other,
        }
    }

    /// What is told of it, after the file's name.
    pub(crate) fn words(self) -> &'static str {
        match self {
            FileFault::Absent => "no such file",
            FileFault::Unmade => "no such file: sundr init makes a user's folder",
            FileFault::Present => PRESENT,
            FileFault::Denied => "permission denied",
            FileFault::Directory => "is a directory",
            FileFault::NoDirectory => "is no directory",
            FileFault::NoFile => "is no file",
            FileFault::Full => "no space left on the disk",
            FileFault::Link => "is a symbolic link, which isn't followed",
            FileFault::Other => "can't be read or written",
            FileFault::NoSeed => "not a seed of 48 bytes",
            FileFault::Twin => TWIN,
            FileFault::NoRandom => "the system gives no random bytes for it",
            FileFault::NoKey => "not a public key of 56 bytes",
            FileFault::TooOpen => "permissions are too open: chmod 600 makes it its owner's alone",
            FileFault::InUse => IN_USE,
            FileFault::NoLocks => "can't be locked: keep the folder on a disk of this machine",
            FileFault::NoNumber => "not a user's number, 0 to 63",
            FileFault::NoPlace => NO_PLACE,
            FileFault::Elsewhere => ELSEWHERE,
            FileFault::NoText => "not text in UTF-8",
            FileFault::NoChange => NO_CHANGE,
            FileFault::Gone => GONE,
            FileFault::Lost => LOST,
            FileFault::Unmarked => UNMARKED,
            FileFault::Forgotten => FORGOTTEN,
            FileFault::SeedGone => "gone, though the folder was used with it: put it back",
            FileFault::Seedless => SEEDLESS,
            FileFault::Older => OLDER,
            FileFault::OfOtherSeed => OF_OTHER_SEED,
            FileFault::LeftOut => "some of it was left out, as is told above",
            FileFault::TooLong => "longer than it can be: not a file that sundr wrote",
        }
    }
}

/// Why a key isn't renewed.
#[derive(Clone, Copy)]
pub(crate) enum RenewalFault {
    /// User 0 has one key for good.
    Pinned,
    /// The user has as many keys as one may have.
    KeysFull,
    /// An operation is declared and not yet signed.
    UnderWay,
    /// An operation is declared, and the newest key has no leaf to sign it.
    Spent,
    /// The newest key has signed no operation that was placed.
    Unlisted,
    /// The newest key has many leaves left.
    ManyLeaves,
}

impl RenewalFault {
    /// What is told of it.
    pub(crate) fn words(self) -> &'static str {
        match self {
            RenewalFault::Pinned =>
                "user 0 has one key for good, the one that all others were told",
            RenewalFault::KeysFull => "the folder has 16 keys, the most that a user may have",
            RenewalFault::UnderWay => {
                "an operation is begun, and nothing tells until it is finished whether user 0 has set the newest key: any command that asks the server finishes it first"
            }
            RenewalFault::Spent => {
                "an operation is begun, and the newest key has no leaf left to finish it: where a command that asks the server is answered no leaf, who goes on needs a new folder, added as a new user"
            }
            RenewalFault::Unlisted => {
                "the newest key hasn't signed an operation yet: user 0 has to type it (the last line of key), and then a command that asks the server has to be done"
            }
            RenewalFault::ManyLeaves => {
                "the newest key has more than 512 leaves left, and a user has at most 16 keys: --early makes one all the same"
            }
        }
    }
}

/// Why a command isn't begun.
#[derive(Clone, Copy)]
pub(crate) enum Hindrance {
    /// The folder hasn't the keys that the command needs: this file of it is at fault.
    NoKeys(FolderFile, FileFault),
    /// The file that is to be put can't be read, or the one into which a file is to be written can't be, or the one of
    /// user 0's key of which a folder is to be made.
    NoFile(FileFault),
    /// The folder can't be made.
    NoFolder(FileFault),
    /// What an answer tells too, since this file of the folder is at fault.
    OfFile(Refusal, FolderFile, FileFault),
    /// The folder is this other user's, which is told as a ledger is that is another key's.
    OfUser(User),
    /// What an answer tells too.
    Refused(Refusal),
    /// No further key is made.
    NotRenewed(RenewalFault),
    /// What was wanted was told to be at fault: the status to end with.
    Told(u8),
}

impl Hindrance {
    /// What an answer tells too, if that is printed of it, or else the words that are.
    pub(crate) fn refusal(self) -> Result<Refusal, &'static str> {
        match self {
            Hindrance::NoKeys(..) => Err("no keys"),
            Hindrance::NoFile(_) => Err("no file"),
            Hindrance::NotRenewed(_) => Err("no renewal"),
            Hindrance::Told(_) => Err(""),
            Hindrance::NoFolder(_) => Ok(Refusal::Device),
            Hindrance::OfUser(_) => Ok(Refusal::Foreign),
            Hindrance::OfFile(refusal, ..) | Hindrance::Refused(refusal) => Ok(refusal),
        }
    }
}

impl From<AllocError> for Hindrance {
    fn from(_e: AllocError) -> Hindrance {
        Hindrance::Refused(Refusal::Memory)
    }
}

impl From<Memory> for Hindrance {
    fn from(_e: Memory) -> Hindrance {
        Hindrance::Refused(Refusal::Memory)
    }
}

impl<T: Drop> From<AllocFailed<T>> for Hindrance {
    fn from(_e: AllocFailed<T>) -> Hindrance {
        Hindrance::Refused(Refusal::Memory)
    }
}

/// What the system tells a fault of.
#[derive(Clone, Copy)]
pub(crate) enum At {
    /// Another file of the folder than those of its keys.
    File(FolderFile),
    /// The file of a seed, or of user 0's public key; and what one is that is too short.
    Key(FolderFile, FileFault),
    /// A file that is named.
    Named,
    /// The folder itself.
    Folder,
}

impl At {
    /// What a fault of the system there is told as: want of memory as that, and any other as what it hinders.
    pub(crate) fn hindrance(self, fault: &io::Error) -> Hindrance {
        let kind = fault.kind();
        if kind == ErrorKind::OutOfMemory {
            return Hindrance::Refused(Refusal::Memory);
        }
        let at_fault = FileFault::of(kind);
        match self {
            At::File(file) => Hindrance::OfFile(Refusal::Device, file, at_fault),
            At::Named => Hindrance::NoFile(at_fault),
            At::Folder if kind == ErrorKind::AlreadyExists => {
                Hindrance::NoFolder(FileFault::NoDirectory)
            }
            At::Folder => Hindrance::NoFolder(at_fault),
            At::Key(file, short) => match kind {
                ErrorKind::UnexpectedEof => Hindrance::NoKeys(file, short),
                ErrorKind::NotFound => Hindrance::NoKeys(file, FileFault::Unmade),
                _ => Hindrance::NoKeys(file, at_fault),
            },
        }
    }

    /// What the system gave, or what its fault there is told as.
    pub(crate) fn given<T>(self, given: io::Result<T>) -> Result<T, Hindrance> {
        match given {
            Ok(it) => Ok(it),
            Err(fault) => Err(self.hindrance(&fault)),
        }
    }
}
