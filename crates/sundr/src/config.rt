//! What the file `config` of a user's folder says.

use crate::folder::read_most;
use crate::hindrance::{FolderFile, Hindrance};
use commands::Refusal;
use file_commands::{SplitError, split_words};
use layout::put_in;
use std::alloc::Global;

/// How many bytes it has at most.
const CONFIG_SIZE: usize = 4096;

/// The word before the server's address.
const SERVER: &str = "server";

/// Why what the file says can't be used.
#[derive(Clone, Copy)]
pub(crate) enum ConfigFault {
    /// Memory ran out.
    Memory,
    /// It can't be read, is too large, or isn't text.
    Unread,
    /// A line isn't one of the file's.
    Line,
}

impl ConfigFault {
    /// What is told of it.
    pub(crate) fn words(self) -> &'static str {
        match self {
            ConfigFault::Memory => "memory",
            ConfigFault::Unread => {
                "error: the file config in DIR can't be read as text of at most 4096 bytes"
            }
            ConfigFault::Line => "error: the file config in DIR has a line that isn't: server ADDR",
        }
    }
}

/// The address of a line's words, of which there are two, the first of them `server`.
fn address_of(words: Vec<String>) -> Result<Option<String>, ConfigFault> {
    let mut words = words;
    let is_server = words.len() == 2 && words[0].as_str() == SERVER;
    match words.pop() {
        Some(address) if is_server && !address.is_empty() => Ok(Some(address)),
        Some(_) => Err(ConfigFault::Line),
        None => Ok(None),
    }
}

/// The address that a line names; None where it has no words.
fn address_in(alloc: Global, line: &str) -> Result<Option<String>, ConfigFault> {
    match split_words(alloc, line) {
        Ok(words) => address_of(words),
        Err(SplitError::Memory) => Err(ConfigFault::Memory),
        Err(SplitError::Unclosed) => Err(ConfigFault::Line),
    }
}

/// The address that the lines of a text name, the last where several do.
fn server_in(alloc: Global, text: &str) -> Result<Option<String>, ConfigFault> {
    let mut server = None;
    for line in text.lines() {
        match address_in(alloc, line) {
            Ok(None) => (),
            Ok(address) => put_in(&mut server, address),
            Err(fault) => return Err(fault),
        }
    }
    Ok(server)
}

/// What the file of a folder holds; None where there is none.
fn read_text(rt: &HostRuntime, folder: &str) -> Result<Option<Vec<u8>>, ConfigFault> {
    match read_most(rt, folder, FolderFile::Config, CONFIG_SIZE as u64 + 1) {
        Ok(Some(text)) if text.len() > CONFIG_SIZE => Err(ConfigFault::Unread),
        Ok(text) => Ok(text),
        Err(Hindrance::Refused(Refusal::Memory)) => Err(ConfigFault::Memory),
        Err(_) => Err(ConfigFault::Unread),
    }
}

/// The server's address that the file of a folder names, if there is one that does.
pub(crate) fn server_of(rt: &HostRuntime, folder: &str) -> Result<Option<String>, ConfigFault> {
    let Some(text) = read_text(rt, folder)? else {
        return Ok(None);
    };
    match std::str::from_utf8(&text) {
        Ok(text) => server_in(rt.alloc(), text),
        Err(_) => Err(ConfigFault::Unread),
    }
}
