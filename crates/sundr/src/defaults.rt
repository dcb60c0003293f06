//! Options that stand in the environment, or in the folder, where the words don't give them.

use crate::config::{ConfigFault, server_of};
use std::alloc::{AllocError, Global};
use std::env::{self, Env, FillError, VarError};
use std::io::{self, ErrorKind};

/// An option, and the variable of the environment that stands for it.
#[derive(Clone, Copy)]
struct Default {
    option: &'static str,
    variable: &'static str,
}

/// The option that names the folder.
const DIR: &str = "--dir";

/// The option that names the server, which may stand in the folder, too.
const SERVER: &str = "--server";

/// The options that may stand in the environment.
const DEFAULTS: [Default; 3] = [
    Default {
        option: DIR,
        variable: "SUNDR_DIR",
    },
    Default {
        option: SERVER,
        variable: "SUNDR_SERVER",
    },
    Default {
        option: "--user",
        variable: "SUNDR_USER",
    },
];

/// Whether a word gives an option: it is the option, or that with its value.
fn gives(word: &str, option: &str) -> bool {
    match word.strip_prefix(option) {
        Some(rest) => rest.is_empty() || rest.starts_with('='),
        None => false,
    }
}

/// How much of an entry of the environment is looked at.
const ENTRY_SIZE: usize = 8192;

/// Whether an entry of the environment is this variable's.
fn is_of(entry: &[u8], variable: &str) -> bool {
    match entry.strip_prefix(variable.as_bytes()) {
        Some(rest) => rest.starts_with(b"="),
        None => false,
    }
}

/// Whether the environment has a variable, by its entries: to look at these takes no memory.
fn is_present(rt: &HostRuntime, variable: &str) -> bool {
    let mut entry = [0u8; ENTRY_SIZE];
    for number in 0..usize::MAX {
        match rt.var_at(number, &mut entry) {
            Ok(size) if is_of(&entry[..size], variable) => return true,
            Ok(_) | Err(FillError::TooLong) => {}
            Err(FillError::NotPresent) => break,
        }
    }
    false
}

/// What a variable of the environment stands for, unless it is empty. The system tells that there is none also where it
/// lacks memory to look for it.
fn value_of(rt: &HostRuntime, variable: &str) -> io::Result<Option<String>> {
    match env::var(rt, variable) {
        Ok(value) if value.is_empty() => Ok(None),
        Ok(value) => Ok(Some(value)),
        Err(VarError::NotPresent) if is_present(rt, variable) => {
            Err(ErrorKind::OutOfMemory.into())
        }
        Err(VarError::NotPresent) => Ok(None),
        Err(VarError::NotUnicode) => Err(ErrorKind::InvalidData.into()),
        Err(VarError::OutOfMemory) => Err(ErrorKind::OutOfMemory.into()),
    }
}

/// Whether an option can be put behind the program's name, since no word gives it.
fn lacks(words: &[String], option: &str) -> bool {
    for word in words {
        if gives(word, option) {
            return false;
        }
    }
    !words.is_empty()
}

/// Puts an option behind the program's name. It is one word with its value, so that this is taken for no other option,
/// whatever it begins with.
fn put(
    alloc: Global,
    words: &mut Vec<String>,
    option: &str,
    value: &str,
) -> Result<(), AllocError> {
    let word = format!(in alloc; "{option}={value}")?;
    let place = words.len().min(1);
    words.insert(place, word)?;
    Ok(())
}

/// Puts an option behind the program's name, if no word gives it and the environment has its value.
fn add(rt: &HostRuntime, words: &mut Vec<String>, default: Default) -> io::Result<()> {
    if !lacks(words, default.option) {
        return Ok(());
    }
    if let Some(value) = value_of(rt, default.variable)? {
        put(rt.alloc(), words, default.option, &value)?;
    }
    Ok(())
}

/// Puts the options that no word gives, and that stand in the environment, behind the program's name.
pub(crate) fn with_defaults(rt: &HostRuntime, words: Vec<String>) -> io::Result<Vec<String>> {
    let mut words = words;
    for default in DEFAULTS {
        add(rt, &mut words, default)?;
    }
    Ok(words)
}

/// The value that the words give an option first: behind it in one word, or the word after it.
fn value_in<'a>(words: &'a [String], option: &str) -> Option<&'a str> {
    for (place, word) in words.iter().enumerate() {
        match word.strip_prefix(option) {
            Some("") => return Some(words.get(place.saturating_add(1))?.as_str()),
            Some(rest) if rest.starts_with('=') => return rest.strip_prefix('='),
            _ => (),
        }
    }
    None
}

/// The server's address that the folder names which the words do.
fn server_named(rt: &HostRuntime, words: &[String]) -> Result<Option<String>, ConfigFault> {
    match value_in(words, DIR) {
        Some(folder) => server_of(rt, folder),
        None => Ok(None),
    }
}

/// Puts the server's address behind the program's name, where no word gives it and the folder has it.
pub(crate) fn add_config(rt: &HostRuntime, words: &mut Vec<String>) -> Result<(), ConfigFault> {
    if !lacks(words, SERVER) {
        return Ok(());
    }
    let Some(server) = server_named(rt, words)? else {
        return Ok(());
    };
    match put(rt.alloc(), words, SERVER, &server) {
        Ok(()) => Ok(()),
        Err(_) => Err(ConfigFault::Memory),
    }
}
