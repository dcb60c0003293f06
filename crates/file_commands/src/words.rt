//! The words that the program takes.

ghost use Rattle.std.specs.Prelude.{◌≡◌, false, true, codes, IfOk};
ghost use Rattle.clap.specs.Words.{App, app_of, rule_of, with_subcommand};
ghost use Rattle.file_commands.specs.Words.{admin_app, batch_app, file_app, flag, folder_app, init_app, key_app};
ghost use Rattle.file_commands.specs.Words.{line_app, link_app, ls_app, member_app, mv_app, of_group};
ghost use Rattle.file_commands.specs.Words.{of_user, option, optional, options_app, path_app, placed, renew_app};
ghost use Rattle.file_commands.specs.Words.{requires_command, short_flag, status_app, sundr_app, user_key_app};
ghost use Rattle.file_commands.specs.Words.{users_app, valued, versioned, with_changes, with_commands, with_files};
ghost use Rattle.file_commands.specs.Words.{with_looks};

use clap::{Arg, ArgAction, Command, value_parser};
use layout::beside;
use std::alloc::{AllocError, Global};

/// The version of the program.
const VERSION: &str = "0.1.0";

/// How the program's words go together.
const USAGE: &str = "sundr --dir <DIR> --server <ADDR> --user <U> [--moved] <COMMAND>
       sundr init <DIR> <USER> [SUPER_PUB]";

/// What the help says at its end: the statuses with which it ends.
const STATUSES: &str = "Statuses:
  0  All was done or shown
  1  lost: changes had no effect
  2  broken: what the server showed breaks a rule
  3  declined: the server refused
  4  Not done, or not known to be: the answer says why, and standard error more
  5  The words are at fault
  6  The answer couldn't be printed";

/// What help says of a command: what it does, and an example of its words.
#[derive(Clone, Copy)]
struct Help {
    about: &'static str,
    example: &'static str,
}

const LS: Help = Help {
    about: "Prints a line `NAME p:i` for each entry of a directory, in order of the names' bytes",
    example: "Example: sundr --dir alice --server localhost:7440 --user 1 ls -l /docs",
};

const CAT: Help = Help {
    about: "Prints the bytes of a file",
    example: "Example: sundr --dir alice --server localhost:7440 --user 1 cat /docs/plan",
};

const PUT: Help = Help {
    about: "Writes the bytes of FILE at PATH: over the file there, or as a new one",
    example: "Example: sundr --dir alice --server localhost:7440 --user 1 put /docs/plan plan.txt",
};

const GET: Help = Help {
    about: "Writes the bytes of the file at PATH into FILE, once all of them were checked",
    example: "Example: sundr --dir alice --server localhost:7440 --user 1 get /docs/plan plan.txt",
};

const MV: Help = Help {
    about: "Gives what the name PATH stands for the name TO, and takes PATH away",
    example: "Example: sundr --dir alice --server localhost:7440 --user 1 mv /docs/plan /docs/old",
};

const MKDIR: Help = Help {
    about: "Makes an empty directory, of the principal of the directory in which it gets its name",
    example: "Example: sundr --dir alice --server localhost:7440 --user 1 mkdir /alice/docs",
};

const RM: Help = Help {
    about: "Removes a name with the file or empty directory of the same principal that it stands for; or one at `@p:i`",
    example: "Example: sundr --dir alice --server localhost:7440 --user 1 rm /docs/plan",
};

const LINK: Help = Help {
    about: "Gives what stands at i-number i of principal p the name PATH",
    example: "Example: sundr --dir root --server localhost:7440 --user 0 link /alice @1:1",
};

const ADD_USER: Help = Help {
    about: "Lists user U with a key; for user 0 alone",
    example: "Example: sundr --dir root --server localhost:7440 --user 0 adduser 1 HEX, HEX being what `key` prints",
};

const SET_KEY: Help = Help {
    about: "Gives user U one more key, by which U signs from then on; for user 0 alone",
    example: "Example: sundr --dir root --server localhost:7440 --user 0 setkey 1 HEX, as `renew` prints it",
};

const ADD_MEMBER: Help = Help {
    about: "Makes user U a member of group G; for user 0 alone",
    example: "Example: sundr --dir root --server localhost:7440 --user 0 addmember 64 1",
};

const DROP_MEMBER: Help = Help {
    about: "Makes user U a member of group G no more; for user 0 alone",
    example: "Example: sundr --dir root --server localhost:7440 --user 0 dropmember 64 1",
};

/// A value, by its place, that may be left out.
fn optional<'a>(alloc: Global, name: &'a str, help: &'a str) -> Arg<'a>
    ensures rule { rule_of result ≡ optional name.entry.now }
    ensures local { result.global ≡ false }
{
    Arg::new(alloc, name).action(ArgAction::Set).help(help)
}

/// A required value, by its place.
fn placed<'a>(alloc: Global, name: &'a str, help: &'a str) -> Arg<'a>
    ensures rule { rule_of result ≡ placed name.entry.now }
    ensures local { result.global ≡ false }
{
    optional(alloc, name, help).required(true)
}

/// The same argument, whose value help calls so.
fn valued<'a>(arg: Arg<'a>, value: &'a str) -> Arg<'a>
    ensures rule { rule_of result ≡ valued (rule_of arg.entry) }
    ensures local { result.global ≡ arg.entry.global }
{
    arg.value_name(value)
}

/// An option with a value.
fn option<'a>(alloc: Global, name: &'a str, value: &'a str, help: &'a str) -> Arg<'a>
    ensures rule { rule_of result ≡ option name.entry.now }
    ensures local { result.global ≡ false }
{
    valued(optional(alloc, name, help).long(name), value)
}

/// An option without a value.
fn flag<'a>(alloc: Global, name: &'a str, help: &'a str) -> Arg<'a>
    ensures rule { rule_of result ≡ flag name.entry.now }
    ensures local { result.global ≡ false }
{
    Arg::new(alloc, name)
        .long(name)
        .action(ArgAction::SetTrue)
        .help(help)
}

/// An option without a value, with a short name too.
fn short_flag<'a>(alloc: Global, short: char, name: &'a str, help: &'a str) -> Arg<'a>
    ensures rule { rule_of result ≡ short_flag short name.entry.now }
    ensures local { result.global ≡ false }
{
    flag(alloc, name, help).short(short)
}

/// The same argument, with a user's number as its value.
fn of_user<'a>(arg: Arg<'a>) -> Arg<'a>
    ensures rule { rule_of result ≡ of_user (rule_of arg.entry) }
    ensures local { result.global ≡ arg.entry.global }
{
    arg.value_parser(value_parser!(u8).range(0..=63))
}

/// The same argument, with a group's number as its value.
fn of_group<'a>(arg: Arg<'a>) -> Arg<'a>
    ensures rule { rule_of result ≡ of_group (rule_of arg.entry) }
    ensures local { result.global ≡ arg.entry.global }
{
    arg.value_parser(value_parser!(u8).range(64..=95))
}

fn path<'a>(alloc: Global) -> Arg<'a>
    ensures rule { rule_of result ≡ placed (codes "PATH") }
    ensures local { result.global ≡ false }
{
    placed(
        alloc,
        "PATH",
        "`/a/b` from the root directory, or `@p:i/a/b` from i-number i of principal p",
    )
}

fn user<'a>(alloc: Global) -> Arg<'a>
    ensures rule { rule_of result ≡ of_user (placed (codes "U")) }
    ensures local { result.global ≡ false }
{
    of_user(placed(alloc, "U", "A user, 0 to 63"))
}

/// The making of a folder, by its place alone.
fn folder_command<'a>(alloc: Global) -> Result<Command<'a>, AllocError>
    ensures { IfOk result (λ c. app_of c ≡ folder_app) }
{
    Command::new(alloc, "init")
        .about(
            "Makes a user's folder with a new key, and prints what user 0 types to add the user, and fingerprints of keys",
        )
        .after_help("Example: sundr init alice 1 root/super.pub")
        .arg(placed(
            alloc,
            "DIR",
            "The user's folder, which is made; one that has a user's files is refused",
        ))
}

/// The making of a user's folder.
fn init_command<'a>(alloc: Global) -> Result<Command<'a>, AllocError>
    ensures { IfOk result (λ c. app_of c ≡ init_app) }
{
    folder_command(alloc)?
        .arg(of_user(placed(alloc, "USER", "The user's number, 0 to 63")))?
        .arg(optional(
            alloc,
            "SUPER_PUB",
            "The file of user 0's public key, of 56 bytes or their 112 digits; for all users but 0",
        ))
}

fn key_command<'a>(alloc: Global) -> Command<'a>
    ensures { app_of result ≡ key_app }
{
    Command::new(alloc, "key")
        .about(
            "Prints the own public keys in 112 hexadecimal digits, the oldest first; no server is asked",
        )
        .after_help("Example: sundr --dir alice --server localhost:7440 --user 1 key")
}

fn status_command<'a>(alloc: Global) -> Command<'a>
    ensures { app_of result ≡ status_app }
{
    Command::new(alloc, "status")
        .about(
            "Prints whose DIR is, how far its last operation is, and how many leaves each key has left; no server is asked",
        )
        .after_help("Example: sundr --dir alice --server localhost:7440 --user 1 status")
}

fn users_command<'a>(alloc: Global) -> Command<'a>
    ensures { app_of result ≡ users_app }
{
    Command::new(alloc, "users")
        .about(
            "Prints the users that are listed, with their groups and the fingerprints of their keys",
        )
        .after_help("Example: sundr --dir alice --server localhost:7440 --user 1 users")
}

/// A command that takes a path alone.
fn path_command<'a>(alloc: Global, name: &'a str, help: Help) -> Result<Command<'a>, AllocError>
    ensures { IfOk result (λ c. app_of c ≡ path_app name.entry.now) }
{
    Command::new(alloc, name)
        .about(help.about)
        .after_help(help.example)
        .arg(path(alloc))
}

fn ls_command<'a>(alloc: Global) -> Result<Command<'a>, AllocError>
    ensures { IfOk result (λ c. app_of c ≡ ls_app) }
{
    path_command(alloc, "ls", LS)?.arg(short_flag(
        alloc,
        'l',
        "long",
        "Prints `KIND SIZE p:i NAME`: f and a file's size, d for a directory, or - for nothing",
    ))
}

/// A command that takes a path and a file, or a folder.
fn file_command<'a>(
    alloc: Global,
    name: &'a str,
    help: Help,
    file: &'a str,
    recursive: &'a str,
) -> Result<Command<'a>, AllocError>
    ensures { IfOk result (λ c. app_of c ≡ file_app name.entry.now) }
{
    path_command(alloc, name, help)?
        .arg(placed(alloc, "FILE", file))?
        .arg(short_flag(alloc, 'r', "recursive", recursive))
}

fn put_command<'a>(alloc: Global) -> Result<Command<'a>, AllocError>
    ensures { IfOk result (λ c. app_of c ≡ file_app (codes "put")) }
{
    file_command(
        alloc,
        "put",
        PUT,
        "A file of this system, of at most 4,194,304 bytes",
        "Takes a folder of this system, and then PATH: writes all that stands in the folder below PATH",
    )
}

fn get_command<'a>(alloc: Global) -> Result<Command<'a>, AllocError>
    ensures { IfOk result (λ c. app_of c ≡ file_app (codes "get")) }
{
    file_command(
        alloc,
        "get",
        GET,
        "A file of this system, which is made, or whose bytes are replaced",
        "Takes PATH, and then a folder of this system: writes all that stands below PATH into the folder",
    )
}

fn mv_command<'a>(alloc: Global) -> Result<Command<'a>, AllocError>
    ensures { IfOk result (λ c. app_of c ≡ mv_app) }
{
    path_command(alloc, "mv", MV)?.arg(placed(alloc, "TO", "The new name, as PATH"))
}

fn link_command<'a>(alloc: Global) -> Result<Command<'a>, AllocError>
    ensures { IfOk result (λ c. app_of c ≡ link_app) }
{
    path_command(alloc, "link", LINK)?.arg(placed(alloc, "TARGET", "`@p:i`"))
}

/// A command that takes a user and a key.
fn user_key_command<'a>(alloc: Global, name: &'a str, help: Help) -> Result<Command<'a>, AllocError>
    ensures { IfOk result (λ c. app_of c ≡ user_key_app name.entry.now) }
{
    Command::new(alloc, name)
        .about(help.about)
        .after_help(help.example)
        .arg(user(alloc))?
        .arg(placed(
            alloc,
            "HEX",
            "The user's public key, 112 hexadecimal digits",
        ))
}

/// A command that takes a group and a user.
fn member_command<'a>(alloc: Global, name: &'a str, help: Help) -> Result<Command<'a>, AllocError>
    ensures { IfOk result (λ c. app_of c ≡ member_app name.entry.now) }
{
    Command::new(alloc, name)
        .about(help.about)
        .after_help(help.example)
        .arg(of_group(placed(alloc, "G", "A group, 64 to 95")))?
        .arg(user(alloc))
}

/// The options before the command.
fn options<'a>(alloc: Global) -> Result<Command<'a>, AllocError>
    ensures { IfOk result (λ c. app_of c ≡ options_app) }
{
    Command::new(alloc, "sundr")
        .arg(option(
            alloc,
            "dir",
            "DIR",
            "The directory with seed, super.pub, ledger and journal; else that of SUNDR_DIR",
        ))?
        .arg(option(
            alloc,
            "server",
            "ADDR",
            "The server's address; else that of SUNDR_SERVER, or of the file config in DIR",
        ))?
        .arg(of_user(option(
            alloc,
            "user",
            "U",
            "The own number, 0 to 63; else that of SUNDR_USER",
        )))?
        .arg(flag(
            alloc,
            "moved",
            "DIR was moved, and its place before is gone: a copy of DIR, or an older one put back, would sign with leaves that were used, and then others can forge",
        ))
}

/// The options, after which a command is required.
fn program<'a>(alloc: Global) -> Result<Command<'a>, AllocError>
    ensures { IfOk result (λ c. app_of c ≡ versioned (requires_command options_app)) }
{
    let command = options(alloc)?.subcommand_required(true);
    Ok(
        command
            .version(VERSION)
            .about("Works in a file system whose server nobody needs to trust")
            .override_usage(USAGE)
            .after_help(STATUSES),
    )
}

/// Changes that come in a file.
fn admin_command<'a>(alloc: Global) -> Result<Command<'a>, AllocError>
    ensures { IfOk result (λ c. app_of c ≡ admin_app) }
{
    Command::new(alloc, "admin")
        .about(
            "Makes the changes of FILE in one operation, a line each: at most 16 of adduser, setkey, addmember, dropmember; for user 0 alone",
        )
        .after_help("Example: sundr --dir root --server localhost:7440 --user 0 admin changes")
        .arg(placed(
            alloc,
            "FILE",
            "A file of this system, with words as on a command line",
        ))
}

/// The making of one more key.
fn renew_command<'a>(alloc: Global) -> Result<Command<'a>, AllocError>
    ensures { IfOk result (λ c. app_of c ≡ renew_app) }
{
    Command::new(alloc, "renew")
        .about(
            "Makes one more key in DIR, and prints what user 0 types to set it, and the key's fingerprint; for users other than 0; no server is asked",
        )
        .after_help(
            "Example: sundr --dir alice --server localhost:7440 --user 1 renew, before the leaves of `status` are few",
        )
        .arg(flag(
            alloc,
            "early",
            "Also where more than 512 leaves are left: a user has at most 16 keys",
        ))
}

/// Commands that come on standard input.
fn batch_command<'a>(alloc: Global) -> Result<Command<'a>, AllocError>
    ensures { IfOk result (λ c. app_of c ≡ batch_app) }
{
    Command::new(alloc, "batch")
        .about(
            "Carries out commands from standard input, a line each, with words as here after the options, quoted as in a shell",
        )
        .after_help(
            "Example: sundr --dir alice --server localhost:7440 --user 1 batch --stop < commands",
        )
        .arg(flag(
            alloc,
            "stop",
            "Ends at the first command whose status isn't 0",
        ))
}

/// The same command, with one more subcommand, if there was memory for that.
fn with_sub<'a>(
    command: Command<'a>,
    sub: Result<Command<'a>, AllocError>,
) -> Result<Command<'a>, AllocError>
    ensures { (app : App) → IfOk sub.entry (λ c. app_of c ≡ app) → app.top.is_plain ≡ true
        → IfOk result (λ c. app_of c ≡ with_subcommand (app_of command.entry) app.top) }
{
    let (command, sub) = beside(command, sub)?;
    command.subcommand(sub)
}

/// The same command, with the commands that show something.
fn with_looks<'a>(alloc: Global, command: Command<'a>) -> Result<Command<'a>, AllocError>
    ensures { IfOk result (λ c. app_of c ≡ with_looks (app_of command.entry)) }
{
    let key = command.subcommand(key_command(alloc))?;
    let status = key.subcommand(status_command(alloc))?;
    let users = status.subcommand(users_command(alloc))?;
    let ls = with_sub(users, ls_command(alloc))?;
    with_sub(ls, path_command(alloc, "cat", CAT))
}

/// The same command, with those for files and names.
fn with_files<'a>(alloc: Global, command: Command<'a>) -> Result<Command<'a>, AllocError>
    ensures { IfOk result (λ c. app_of c ≡ with_files (app_of command.entry)) }
{
    let put = with_sub(command, put_command(alloc))?;
    let get = with_sub(put, get_command(alloc))?;
    let mkdir = with_sub(get, path_command(alloc, "mkdir", MKDIR))?;
    let rm = with_sub(mkdir, path_command(alloc, "rm", RM))?;
    let mv = with_sub(rm, mv_command(alloc))?;
    with_sub(mv, link_command(alloc))
}

/// The same command, with those that change the table of principals.
fn with_changes<'a>(alloc: Global, command: Command<'a>) -> Result<Command<'a>, AllocError>
    ensures { IfOk result (λ c. app_of c ≡ with_changes (app_of command.entry)) }
{
    let add = with_sub(command, user_key_command(alloc, "adduser", ADD_USER))?;
    let set = with_sub(add, user_key_command(alloc, "setkey", SET_KEY))?;
    let join = with_sub(set, member_command(alloc, "addmember", ADD_MEMBER))?;
    let leave = with_sub(join, member_command(alloc, "dropmember", DROP_MEMBER))?;
    with_sub(leave, admin_command(alloc))
}

/// The same command, with the commands of a user.
fn with_commands<'a>(alloc: Global, command: Command<'a>) -> Result<Command<'a>, AllocError>
    ensures { IfOk result (λ c. app_of c ≡ with_commands (app_of command.entry)) }
{
    let looks = with_looks(alloc, command)?;
    let files = with_files(alloc, looks)?;
    with_changes(alloc, files)
}

/// The words that the program takes.
pub(crate) fn command<'a>(alloc: Global) -> Result<Command<'a>, AllocError>
    ensures { IfOk result (λ c. app_of c ≡ sundr_app) }
{
    let begun = program(alloc)?.subcommand(init_command(alloc)?)?;
    with_commands(alloc, begun)?
        .subcommand(renew_command(alloc)?)?
        .subcommand(batch_command(alloc)?)
}

/// The words that a line of a batch may have, after the program's name.
pub(crate) fn line_command<'a>(alloc: Global) -> Result<Command<'a>, AllocError>
    ensures { IfOk result (λ c. app_of c ≡ line_app) }
{
    with_commands(
        alloc,
        Command::new(alloc, "sundr").subcommand_required(true),
    )
}
