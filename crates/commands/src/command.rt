//! Commands.

ghost use Rattle.std.specs.Prelude.{◌≡◌};
ghost use Rattle.commands.specs.Asked.{only_reads, table_change_of};

use crate::files::NewFile;
use layout::{Group, User};
use lms_sign::PublicKey;
use update_cert::TableChange;

/// What a user asks for. A path is a word of a command line: `/a/b`, from the root directory on, or `@p:i/a/b`, from
/// what stands at the i-number of a principal.
#[derive(Clone, Copy)]
pub enum Command<'a> {
    /// To see the entries of the directory to which the path leads.
    Ls(&'a str),
    /// To see the entries of the directory to which the path leads, with what stands at each.
    Details(&'a str),
    /// To see the bytes of the file to which the path leads.
    Cat(&'a str),
    /// To write a file: in the place of the one to which the path leads, or a new one.
    Put {
        /// Where it is to stand.
        path: &'a str,
        /// Its bytes.
        content: &'a [u8],
    },
    /// To write several files of one directory in one operation, each as `Put` does.
    PutAll {
        /// The directory.
        directory: &'a str,
        /// The files, of which no two have one name: at most `MOST_FILES`.
        files: &'a [NewFile<'a>],
    },
    /// To make an empty directory.
    Mkdir(&'a str),
    /// To take away a name and what stands there, a file or an empty directory.
    Rm(&'a str),
    /// To give what stands at an i-number one more name.
    Link {
        /// The new name, in its directory.
        path: &'a str,
        /// What it is to stand for: `@p:i`.
        target: &'a str,
    },
    /// To give what a name stands for one more name.
    AddName {
        /// The name.
        path: &'a str,
        /// The new name.
        to: &'a str,
    },
    /// To take a name away and nothing else, where another name stands for the same.
    DropName {
        /// The name.
        path: &'a str,
        /// The other name, which stays.
        to: &'a str,
    },
    /// To list a user.
    AddUser {
        /// Who.
        user: User,
        /// The user's key.
        key: PublicKey,
    },
    /// To give a user one more key, by which the user signs from then on.
    SetKey {
        /// Who.
        user: User,
        /// The key.
        key: PublicKey,
    },
    /// To make a user a member of a group.
    AddMember {
        /// Of which group.
        group: Group,
        /// Who.
        user: User,
    },
    /// To make a user a member of a group no more.
    DropMember {
        /// Of which group.
        group: Group,
        /// Who.
        user: User,
    },
    /// To change the table of principals so, in one operation.
    Admin(&'a [TableChange]),
}

impl<'a> Command<'a> {
    /// Whether it writes nothing, whatever is there.
    pub fn only_reads(&self) -> bool
        ensures { result ≡ only_reads self.now }
    {
        matches!(self, Command::Ls(_) | Command::Details(_) | Command::Cat(_))
    }

    /// The change of the table of principals that it asks for, if it asks for one alone.
    pub fn table_change(&self) -> Option<TableChange>
        ensures { result ≡ table_change_of self.now }
    {
        match self {
            Command::AddUser { user, key } => Some(TableChange::AddUser(*user, *key)),
            Command::SetKey { user, key } => Some(TableChange::SetKey(*user, *key)),
            Command::AddMember { group, user } => Some(TableChange::AddMember(*group, *user)),
            Command::DropMember { group, user } => Some(TableChange::DropMember(*group, *user)),
            _ => None,
        }
    }
}
