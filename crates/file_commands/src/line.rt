//! What a command line says.

use commands::Command;
use layout::User;
use thiserror::Error;

/// What hinders a line from being read.
#[derive(Debug, Drop, Error)]
pub enum LineError {
    /// The words aren't ones that the program takes, or ask for help: this is clap's text.
    #[error("{0}")]
    Words(clap::Error),
    /// What stands for a key isn't one of 112 hexadecimal digits.
    #[error("bad key")]
    Key,
    /// A file of user 0's public key is named for user 0, whose own key that is.
    #[error("error: SUPER_PUB is for other users than 0, whose own key it is")]
    SuperKeyGiven,
    /// No file of user 0's public key is named for another user.
    #[error("error: SUPER_PUB is lacking: the file of user 0's public key")]
    SuperKeyLacking,
    /// Memory ran out.
    #[error("memory")]
    Memory,
}

/// What is to be done.
#[derive(Clone, Copy)]
pub enum Wanted<'a> {
    /// To print the own public keys.
    Key,
    /// To print the users that the table of principals lists.
    Users,
    /// To print whose the folder is, how far its last operation is, and how many leaves each key has left.
    Status,
    /// To carry out a command; none that needs a file's content, of which a line has the name alone.
    Run(Command<'a>),
    /// To put the content of a file of the system at a path.
    Put {
        /// The path.
        path: &'a str,
        /// The file's name.
        file: &'a str,
    },
    /// To write the content of the file at a path into a file of the system.
    Get {
        /// The path.
        path: &'a str,
        /// The file's name.
        file: &'a str,
    },
    /// To put the files of a folder of the system into the directory at a path, with those below it.
    PutTree {
        /// The path.
        path: &'a str,
        /// The folder's name.
        dir: &'a str,
    },
    /// To write the files of the directory at a path into a folder of the system, with those below it.
    GetTree {
        /// The path.
        path: &'a str,
        /// The folder's name.
        dir: &'a str,
    },
    /// To give what a name stands for another name in its place.
    Move {
        /// The name.
        path: &'a str,
        /// The new name.
        to: &'a str,
    },
    /// To make the changes that a file of the system has, a line each, in one operation.
    Admin(&'a str),
    /// To make one more key, and to print what user 0 types to set it.
    Renew {
        /// Whether it is made also where the key before has many leaves left.
        early: bool,
    },
    /// To carry out the commands that come on standard input, a line each.
    Batch {
        /// Whether it ends at the first whose status isn't 0.
        stops: bool,
    },
}

/// A command line that asks for what is done by the files of a folder.
#[derive(Clone, Copy)]
pub struct Line<'a> {
    /// The directory with the user's keys and journal.
    pub dir: &'a str,
    /// The server's address.
    pub server: &'a str,
    /// The user.
    pub user: User,
    /// Whether the directory was moved, and no other copy of it is used.
    pub moved: bool,
    /// What is to be done.
    pub wanted: Wanted<'a>,
}

/// A user's folder that is to be made.
#[derive(Clone, Copy)]
pub struct NewFolder<'a> {
    /// Where it is made.
    pub dir: &'a str,
    /// The user whose it is.
    pub user: User,
    /// The file of user 0's public key; none where it is user 0's, whose own key that is.
    pub super_key: Option<&'a str>,
}

/// What a command line asks for.
#[derive(Clone, Copy)]
pub enum Request<'a> {
    /// To make a user's folder.
    Init(NewFolder<'a>),
    /// To do what is wanted by the files of a folder.
    Line(Line<'a>),
}
