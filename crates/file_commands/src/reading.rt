//! The reading of a command line.

ghost use Rattle.std.specs.Prelude.{◌≡◌, true, Ok, [], map, option_map, IfOk, IfErr, MatchResult};
ghost use Rattle.clap.specs.Words.{HasMatchesOf, app_of, fault_of, found_of, is_simple_and_free, rows_of};
ghost use Rattle.clap.specs.Words.{subcommand_rows_of};
ghost use Rattle.file_commands.specs.Lines.{reads, order_of, said, text_in, number_in, user_in, group_in, key_of};
ghost use Rattle.file_commands.specs.Lines.{Get, GetTree, Put, PutTree, admin_in, files_in, link_in, list_in};
ghost use Rattle.file_commands.specs.Lines.{member_in, move_in, order_in, user_key_in};
ghost use Rattle.file_commands.specs.Lines.{command_of, is_set, line_in, order_met, IsErrorOf, IsFaultOf, IsWhy};
ghost use Rattle.file_commands.specs.Lines.{asked, asked_new, init_in, request_in, request_of, super_key_for, work_in};
ghost use Rattle.file_commands.specs.Words.{line_app, sundr_app};

use crate::line::{Line, LineError, NewFolder, Request, Wanted};
use crate::words::{command, line_command};
use clap::error::ErrorKind;
use clap::{ArgMatches, Command as Words};
use commands::Command;
use hex::FromHex;
use layout::{Group, User, let_go};
use lms_sign::{KEY_SIZE, PublicKey};
use std::alloc::Global;
use std::convert::AsStr;

/// What is told where a value isn't there: clap itself wants each that no variable of the environment stands for.
const MISSING: &str =
    "--dir, --server and --user are required, or SUNDR_DIR, SUNDR_SERVER and SUNDR_USER";

/// Why matches aren't read as a line.
#[derive(Clone, Copy, Debug)]
pub(crate) enum Unread {
    /// A value isn't there, or not in its range.
    Words,
    /// What stands for a key is none.
    Key,
    /// A file of user 0's public key is named for user 0.
    SuperKeyGiven,
    /// No file of user 0's public key is named for another user.
    SuperKeyLacking,
}

/// A value of the matches as text.
fn text<'a>(matches: &ArgMatches<'a>, id: &str) -> Result<&'a str, Unread>
    ensures { reads (λ text. text.now) result ≡ text_in id.now (rows_of (found_of matches.now)) }
{
    matches.get_str(id).ok_or(Unread::Words)
}

/// A value of the matches as a number.
fn number(matches: &ArgMatches<'_>, id: &str) -> Result<u8, Unread>
    ensures { result ≡ number_in id.now (rows_of (found_of matches.now)) }
{
    matches.get_one::<u8>(id).ok_or(Unread::Words)
}

/// Whether an option without a value is given.
fn is_set(matches: &ArgMatches<'_>, id: &str) -> bool
    ensures { result ≡ is_set id.now (rows_of (found_of matches.now)) }
{
    match text(matches, id) {
        Ok(text) => text == "true",
        Err(_) => false,
    }
}

fn user(matches: &ArgMatches<'_>, id: &str) -> Result<User, Unread>
    ensures { result ≡ user_in id.now (rows_of (found_of matches.now)) }
{
    User::new(number(matches, id)?).ok_or(Unread::Words)
}

fn group(matches: &ArgMatches<'_>, id: &str) -> Result<Group, Unread>
    ensures { result ≡ group_in id.now (rows_of (found_of matches.now)) }
{
    Group::new(number(matches, id)?).ok_or(Unread::Words)
}

/// The key of a text.
fn key(text: &str) -> Result<PublicKey, Unread>
    ensures { result ≡ key_of text.now }
{
    match <[u8; KEY_SIZE] as FromHex>::from_hex(text) {
        Ok(bytes) => PublicKey::from_bytes(bytes).ok_or(Unread::Key),
        Err(_) => Err(Unread::Key),
    }
}

/// A path, and the name of a file whose content is put there; or the name of a folder, and the path for it.
fn put<'a>(matches: &ArgMatches<'a>) -> Result<Wanted<'a>, Unread>
    ensures { reads order_of result ≡ files_in Put (λ dir path. PutTree path dir) (rows_of (found_of matches.now)) }
{
    let path = text(matches, "PATH")?;
    let file = text(matches, "FILE")?;
    if is_set(matches, "recursive") {
        Ok(Wanted::PutTree {
            path: file,
            dir: path,
        })
    } else {
        Ok(Wanted::Put { path, file })
    }
}

/// A path, and the name of a file into which the content there is written, or of a folder.
fn get<'a>(matches: &ArgMatches<'a>) -> Result<Wanted<'a>, Unread>
    ensures { reads order_of result ≡ files_in Get GetTree (rows_of (found_of matches.now)) }
{
    let path = text(matches, "PATH")?;
    let file = text(matches, "FILE")?;
    if is_set(matches, "recursive") {
        Ok(Wanted::GetTree { path, dir: file })
    } else {
        Ok(Wanted::Get { path, file })
    }
}

/// A path, with what stands at each entry or without.
fn list<'a>(matches: &ArgMatches<'a>) -> Result<Wanted<'a>, Unread>
    ensures { reads order_of result ≡ list_in (rows_of (found_of matches.now)) }
{
    let path = text(matches, "PATH")?;
    if is_set(matches, "long") {
        Ok(Wanted::Run(Command::Details(path)))
    } else {
        Ok(Wanted::Run(Command::Ls(path)))
    }
}

/// A path, and another.
fn rename<'a>(matches: &ArgMatches<'a>) -> Result<Wanted<'a>, Unread>
    ensures { reads order_of result ≡ move_in (rows_of (found_of matches.now)) }
{
    let path = text(matches, "PATH")?;
    let to = text(matches, "TO")?;
    Ok(Wanted::Move { path, to })
}

/// A path, and a place.
fn link<'a>(matches: &ArgMatches<'a>) -> Result<Wanted<'a>, Unread>
    ensures { reads order_of result ≡ link_in (rows_of (found_of matches.now)) }
{
    let path = text(matches, "PATH")?;
    let target = text(matches, "TARGET")?;
    Ok(Wanted::Run(Command::Link { path, target }))
}

/// A user, and a key of the user's.
fn user_key(matches: &ArgMatches<'_>) -> Result<(User, PublicKey), Unread>
    ensures { result ≡ user_key_in (rows_of (found_of matches.now)) }
{
    let user = user(matches, "U")?;
    let key = key(text(matches, "HEX")?)?;
    Ok((user, key))
}

/// The name of a file of changes.
fn admin<'a>(matches: &ArgMatches<'a>) -> Result<Wanted<'a>, Unread>
    ensures { reads order_of result ≡ admin_in (rows_of (found_of matches.now)) }
{
    let file = text(matches, "FILE")?;
    Ok(Wanted::Admin(file))
}

/// A group, and a user.
fn member(matches: &ArgMatches<'_>) -> Result<(Group, User), Unread>
    ensures { result ≡ member_in (rows_of (found_of matches.now)) }
{
    let group = group(matches, "G")?;
    let user = user(matches, "U")?;
    Ok((group, user))
}

/// What is to be done by the command of this name, with these words.
fn wanted<'a>(name: &str, matches: &ArgMatches<'a>) -> Result<Wanted<'a>, Unread>
    ensures { reads order_of result ≡ order_in name.now (rows_of (found_of matches.now)) }
{
    let command = match name {
        "key" => return Ok(Wanted::Key),
        "users" => return Ok(Wanted::Users),
        "status" => return Ok(Wanted::Status),
        "batch" => return Ok(Wanted::Batch {
            stops: is_set(matches, "stop"),
        }),
        "ls" => return list(matches),
        "put" => return put(matches),
        "get" => return get(matches),
        "mv" => return rename(matches),
        "link" => return link(matches),
        "admin" => return admin(matches),
        "renew" => return Ok(Wanted::Renew {
            early: is_set(matches, "early"),
        }),
        "adduser" => {
            let (user, key) = user_key(matches)?;
            Command::AddUser { user, key }
        }
        "setkey" => {
            let (user, key) = user_key(matches)?;
            Command::SetKey { user, key }
        }
        "cat" => Command::Cat(text(matches, "PATH")?),
        "mkdir" => Command::Mkdir(text(matches, "PATH")?),
        "rm" => Command::Rm(text(matches, "PATH")?),
        "addmember" => {
            let (group, user) = member(matches)?;
            Command::AddMember { group, user }
        }
        "dropmember" => {
            let (group, user) = member(matches)?;
            Command::DropMember { group, user }
        }
        _ => return Err(Unread::Words),
    };
    Ok(Wanted::Run(command))
}

/// What is to be done by the command that the matches give.
fn met<'a>(matches: &ArgMatches<'a>) -> Result<Wanted<'a>, Unread>
    ensures { reads order_of result ≡ order_met (subcommand_rows_of matches.now) }
{
    match matches.subcommand() {
        Some((name, inner)) => wanted(name, inner),
        None => Err(Unread::Words),
    }
}

/// The line that the matches give.
fn line<'a>(matches: &ArgMatches<'a>) -> Result<Line<'a>, Unread>
    ensures { reads said result ≡ line_in (rows_of (found_of matches.now)) (subcommand_rows_of matches.now) }
{
    let dir = text(matches, "dir")?;
    let server = text(matches, "server")?;
    let user = user(matches, "user")?;
    let moved = is_set(matches, "moved");
    match met(matches) {
        Ok(wanted) => Ok(Line {
            dir,
            server,
            user,
            moved,
            wanted,
        }),
        Err(unread) => Err(unread),
    }
}

/// The file of user 0's public key for a user's folder, where this one is named: user 0's own needs none.
fn super_key<'a>(user: User, given: Option<&'a str>) -> Result<Option<&'a str>, Unread>
    ensures { reads (option_map (λ file. file.now)) result
        ≡ super_key_for user (option_map (λ file. file.now) given.entry) }
{
    match given {
        Some(_) if user.get() == 0 => Err(Unread::SuperKeyGiven),
        None if user.get() != 0 => Err(Unread::SuperKeyLacking),
        _ => Ok(given),
    }
}

/// A folder that is to be made.
fn new_folder<'a>(matches: &ArgMatches<'a>) -> Result<NewFolder<'a>, Unread>
    ensures { reads asked_new result ≡ init_in (rows_of (found_of matches.now)) }
{
    let dir = text(matches, "DIR")?;
    let user = user(matches, "USER")?;
    match super_key(user, matches.get_str("SUPER_PUB")) {
        Ok(super_key) => Ok(NewFolder {
            dir,
            user,
            super_key,
        }),
        Err(unread) => Err(unread),
    }
}

/// To make a folder, as these matches give it.
fn init<'a>(matches: &ArgMatches<'a>) -> Result<Request<'a>, Unread>
    ensures { reads asked result ≡ init_in (rows_of (found_of matches.now)) }
{
    match new_folder(matches) {
        Ok(folder) => Ok(Request::Init(folder)),
        Err(unread) => Err(unread),
    }
}

/// To do what is wanted, as the matches give it.
fn work<'a>(matches: &ArgMatches<'a>) -> Result<Request<'a>, Unread>
    ensures { reads asked result ≡ work_in (rows_of (found_of matches.now)) (subcommand_rows_of matches.now) }
{
    match line(matches) {
        Ok(line) => Ok(Request::Line(line)),
        Err(unread) => Err(unread),
    }
}

/// What the matches ask for.
fn request<'a>(matches: &ArgMatches<'a>) -> Result<Request<'a>, Unread>
    ensures { reads asked result ≡ request_in (rows_of (found_of matches.now)) (subcommand_rows_of matches.now) }
{
    match matches.subcommand() {
        Some(("init", inner)) => init(inner),
        _ => work(matches),
    }
}

/// The error of a line that isn't read.
fn refuse(words: &mut Words<'_>, unread: Unread) -> LineError
    ensures { IsErrorOf result unread }
{
    match unread {
        Unread::Key => LineError::Key,
        Unread::SuperKeyGiven => LineError::SuperKeyGiven,
        Unread::SuperKeyLacking => LineError::SuperKeyLacking,
        Unread::Words => {
            match words.error(ErrorKind::MissingRequiredArgument, MISSING) {
                Ok(fault) => LineError::Words(fault),
                Err(_) => LineError::Memory,
            }
        }
    }
}

/// The matches of words.
fn matched<'a, S: AsStr>(
    command: &mut Words<'a>,
    words: &'a [S],
) -> Result<ArgMatches<'a>, LineError>
    requires { is_simple_and_free (app_of command.old) ≡ true }
    ensures ok { IfOk result (λ m. HasMatchesOf (app_of command.old) (map S.text words.entry.now) m) }
    ensures none { IfOk result (λ m. fault_of (app_of command.old) (map S.text words.entry.now) ≡ []) }
    ensures fault { IfErr result (λ e. IsFaultOf e (fault_of (app_of command.old) (map S.text words.entry.now))) }
{
    match command.try_get_matches_from_mut(words) {
        Ok(matches) => Ok(matches),
        Err(fault) if fault.kind() == ErrorKind::OutOfMemory => Err(LineError::Memory),
        Err(fault) => Err(LineError::Words(fault)),
    }
}

/// What words ask for.
fn request_by<'a, S: AsStr>(
    command: &mut Words<'a>,
    words: &'a [S],
) -> Result<Request<'a>, LineError>
    requires { app_of command.old ≡ sundr_app }
    ensures { MatchResult result (λ request. request_of (map S.text words.entry.now) ≡ Ok (asked request))
        (λ e. IsWhy e (request_of (map S.text words.entry.now))) }
{
    match matched(command, words) {
        Ok(matches) => match request(&matches) {
            Ok(request) => Ok(request),
            Err(unread) => Err(refuse(command, unread)),
        },
        Err(error) => Err(error),
    }
}

/// What words of a line of a batch say is to be done.
fn met_by<'a, S: AsStr>(command: &mut Words<'a>, words: &'a [S]) -> Result<Wanted<'a>, LineError>
    requires { app_of command.old ≡ line_app }
    ensures { MatchResult result (λ wanted. command_of (map S.text words.entry.now) ≡ Ok (order_of wanted))
        (λ e. IsWhy e (command_of (map S.text words.entry.now))) }
{
    match matched(command, words) {
        Ok(matches) => match met(&matches) {
            Ok(wanted) => Ok(wanted),
            Err(unread) => Err(refuse(command, unread)),
        },
        Err(error) => Err(error),
    }
}

impl<'a> Request<'a> {
    /// Reads what is asked for from the words of a command line, of which the first is the program's name.
    pub fn read<S: AsStr>(alloc: Global, words: &'a [S]) -> Result<Request<'a>, LineError>
        ensures { MatchResult result (λ request. request_of (map S.text words.entry.now) ≡ Ok (asked request))
            (λ e. IsWhy e (request_of (map S.text words.entry.now))) }
    {
        let Ok(mut command) = command(alloc) else {
            return Err(LineError::Memory);
        };
        let request = request_by(&mut command, words);
        let_go(command);
        request
    }
}

impl<'a> Wanted<'a> {
    /// Reads what is to be done from the words of a line of a batch, before which the program's name stands.
    pub fn read<S: AsStr>(alloc: Global, words: &'a [S]) -> Result<Wanted<'a>, LineError>
        ensures { MatchResult result (λ wanted. command_of (map S.text words.entry.now) ≡ Ok (order_of wanted))
            (λ e. IsWhy e (command_of (map S.text words.entry.now))) }
    {
        let Ok(mut command) = line_command(alloc) else {
            return Err(LineError::Memory);
        };
        let wanted = met_by(&mut command, words);
        let_go(command);
        wanted
    }
}
