//! Answers, printed.

ghost use Rattle.std.specs.Prelude.{◌≡◌, OnOk, OnErr};
ghost use Rattle.std.specs.List.{flat_map};
ghost use Rattle.std.specs.Io.KnownBytes.{Appends};
ghost use Rattle.connection.specs.Written.{AppendsBeginning};
ghost use Rattle.commands.specs.Answers.{answer_of, printed, status_of, name_of_rule};
ghost use Rattle.commands.specs.Answers.{lost_line, broken_line, declined_line, refused_line};
ghost use Rattle.commands.specs.Answers.{kind_letter, kind_text, row_text, size_in, target_text};

use crate::answer::{Answer, Refusal};
use crate::quoting::write_name;
use crate::row::{Kind, Row};
use connection::{WriteFault, write_whole};
use directory::{Entry, Target};
use itoa::Buffer;
use reply_rules::Rule;
use std::alloc::Allocator;
use std::io::Write;
use wire::Status;

/// What is printed as a piece of an answer.
trait Piece {
    ghost use Rattle.std.specs.Prelude.{OnOk, OnErr};
    ghost use Rattle.std.specs.Io.KnownBytes.{Appends};
    ghost use Rattle.layout.specs.Types.{Bytes};
    ghost use Rattle.connection.specs.Written.{AppendsBeginning};

    /// Its text.
    ghost text: { Self → Bytes };

    /// Writes its text, or where the writer fails a beginning of it.
    fn print<W: Write>(&self, writer: &mut W) -> Result<(), WriteFault>
        ensures ok { OnOk result (Appends (W.contents writer.old) (W.contents writer.new) (text self.now)) }
        ensures err { OnErr result (AppendsBeginning (W.contents writer.old) (W.contents writer.new) (text self.now)) };
}

/// Writes pieces, one after the other, or where the writer fails a beginning of them.
fn print_all<W: Write, P: Piece>(writer: &mut W, pieces: &[P]) -> Result<(), WriteFault>
    ensures ok { OnOk result (Appends (W.contents writer.old) (W.contents writer.new) (flat_map P.text pieces.now)) }
    ensures err { OnErr result
        (AppendsBeginning (W.contents writer.old) (W.contents writer.new) (flat_map P.text pieces.now)) }
{
    for piece in pieces {
        piece.print(writer)?;
    }
    Ok(())
}

/// Bytes are printed as they are.
impl<'a> Piece for &'a [u8] {
    ghost text = { λ bytes. bytes.now };

    fn print<W: Write>(&self, writer: &mut W) -> Result<(), WriteFault> {
        write_whole(writer, self)
    }
}

/// A number is printed after a blank.
impl Piece for u8 {
    ghost use Rattle.commands.specs.Answers.{number_text};

    ghost text = { number_text };

    fn print<W: Write>(&self, writer: &mut W) -> Result<(), WriteFault> {
        let number = *self;
        let mut digits = Buffer::new();
        print_all(writer, &[b" ".as_slice(), digits.format(number).as_bytes()])
    }
}

/// An entry is printed as a line: its name, and what it stands for.
impl<A: Allocator> Piece for Entry<A> {
    ghost use Rattle.commands.specs.Answers.{entry_line};

    ghost text = { entry_line };

    fn print<W: Write>(&self, writer: &mut W) -> Result<(), WriteFault> {
        let target = self.target();
        let mut principal = Buffer::new();
        let mut i_number = Buffer::new();
        print_all(
            writer,
            &[
                self.name().as_bytes(),
                b" ",
                principal.format(target.principal.get()).as_bytes(),
                b":",
                i_number.format(target.i_number.get()).as_bytes(),
                b"\n",
            ],
        )
    }
}

/// The letter of a kind.
fn letter_of(kind: Kind) -> &'static str
    ensures { result.now ≡ kind_letter kind }
{
    match kind {
        Kind::Nothing => "-",
        Kind::File(_) => "f",
        Kind::Directory => "d",
    }
}

/// How many bytes a file has.
fn size_in(kind: Kind) -> u32
    ensures { result ≡ size_in kind }
{
    match kind {
        Kind::File(size) => size,
        Kind::Nothing | Kind::Directory => 0,
    }
}

/// Writes of what kind and size it is, and a blank.
fn write_kind<W: Write>(writer: &mut W, kind: Kind) -> Result<(), WriteFault>
    ensures ok { OnOk result (Appends (W.contents writer.old) (W.contents writer.new) (kind_text kind)) }
    ensures err { OnErr result (AppendsBeginning (W.contents writer.old) (W.contents writer.new) (kind_text kind)) }
{
    let mut size = Buffer::new();
    print_all(
        writer,
        &[
            letter_of(kind).as_bytes(),
            b" ",
            size.format(size_in(kind)).as_bytes(),
            b" ",
        ],
    )
}

/// Writes a target, and a blank.
fn write_target<W: Write>(writer: &mut W, target: Target) -> Result<(), WriteFault>
    ensures ok { OnOk result (Appends (W.contents writer.old) (W.contents writer.new) (target_text target)) }
    ensures err { OnErr result
        (AppendsBeginning (W.contents writer.old) (W.contents writer.new) (target_text target)) }
{
    let mut principal = Buffer::new();
    let mut i_number = Buffer::new();
    print_all(
        writer,
        &[
            principal.format(target.principal.get()).as_bytes(),
            b":",
            i_number.format(target.i_number.get()).as_bytes(),
            b" ",
        ],
    )
}

/// Writes a row.
fn write_row<W: Write>(
    writer: &mut W,
    kind: Kind,
    target: Target,
    name: &[u8],
) -> Result<(), WriteFault>
    ensures ok { OnOk result (Appends (W.contents writer.old) (W.contents writer.new) (row_text kind target name.now)) }
    ensures err { OnErr result
        (AppendsBeginning (W.contents writer.old) (W.contents writer.new) (row_text kind target name.now)) }
{
    write_kind(writer, kind)?;
    write_target(writer, target)?;
    write_name(writer, name)?;
    write_whole(writer, b"\n")
}

/// An entry with what stands there is printed as a line.
impl<A: Allocator> Piece for Row<A> {
    ghost use Rattle.commands.specs.Answers.{row_line};

    ghost text = { row_line };

    fn print<W: Write>(&self, writer: &mut W) -> Result<(), WriteFault> {
        let entry = self.entry();
        write_row(writer, self.kind(), entry.target(), entry.name().as_bytes())
    }
}

/// The name of a rule.
fn name_of_rule(rule: Rule) -> &'static str
    ensures { result.now ≡ name_of_rule rule }
{
    match rule {
        Rule::Form => "Form",
        Rule::Lists => "Lists",
        Rule::OwnLast => "OwnLast",
        Rule::OwnPending => "OwnPending",
        Rule::SuperSignature => "SuperSignature",
        Rule::Block => "Block",
        Rule::Content => "Content",
        Rule::UnknownUser => "UnknownUser",
        Rule::Signature => "Signature",
        Rule::Certificate => "Certificate",
        Rule::Numbers => "Numbers",
        Rule::Vector => "Vector",
        Rule::Entries => "Entries",
        Rule::Link => "Link",
        Rule::GroupRecord => "GroupRecord",
    }
}

/// Writes which changes had no effect.
fn write_lost<W: Write>(writer: &mut W, numbers: &[u8]) -> Result<(), WriteFault>
    ensures ok { OnOk result (Appends (W.contents writer.old) (W.contents writer.new) (lost_line numbers.now)) }
    ensures err { OnErr result
        (AppendsBeginning (W.contents writer.old) (W.contents writer.new) (lost_line numbers.now)) }
{
    write_whole(writer, b"lost")?;
    print_all(writer, numbers)?;
    write_whole(writer, b"\n")
}

/// Writes which rule was broken.
fn write_broken<W: Write>(writer: &mut W, rule: Rule) -> Result<(), WriteFault>
    ensures ok { OnOk result (Appends (W.contents writer.old) (W.contents writer.new) (broken_line rule)) }
    ensures err { OnErr result (AppendsBeginning (W.contents writer.old) (W.contents writer.new) (broken_line rule)) }
{
    let mut number = Buffer::new();
    print_all(
        writer,
        &[
            b"broken ".as_slice(),
            number.format(rule.number()).as_bytes(),
            b" ",
            name_of_rule(rule).as_bytes(),
            b"\n",
        ],
    )
}

/// Writes with which status the server declined.
fn write_declined<W: Write>(writer: &mut W, status: Status) -> Result<(), WriteFault>
    ensures ok { OnOk result (Appends (W.contents writer.old) (W.contents writer.new) (declined_line status)) }
    ensures err { OnErr result
        (AppendsBeginning (W.contents writer.old) (W.contents writer.new) (declined_line status)) }
{
    let mut number = Buffer::new();
    print_all(
        writer,
        &[
            b"declined ".as_slice(),
            number.format(status.number()).as_bytes(),
            b"\n",
        ],
    )
}

/// Writes why nothing came of a command.
fn write_refused<W: Write>(writer: &mut W, refusal: Refusal) -> Result<(), WriteFault>
    ensures ok { OnOk result (Appends (W.contents writer.old) (W.contents writer.new) (refused_line refusal)) }
    ensures err { OnErr result
        (AppendsBeginning (W.contents writer.old) (W.contents writer.new) (refused_line refusal)) }
{
    print_all(writer, &[refusal.words().as_bytes(), b"\n"])
}

impl<A: Allocator> Answer<A> {
    /// Writes what is printed of it, each line with its newline, and a file's bytes as they are. After a fault of the
    /// writer a beginning of it is out.
    pub fn write<W: Write>(&self, writer: &mut W) -> Result<(), WriteFault>
        ensures ok { OnOk result
            (Appends (W.contents writer.old) (W.contents writer.new) (printed (answer_of self.now))) }
        ensures err { OnErr result
            (AppendsBeginning (W.contents writer.old) (W.contents writer.new) (printed (answer_of self.now))) }
    {
        match self {
            Answer::Done => write_whole(writer, b"done\n"),
            Answer::Bytes(bytes) => write_whole(writer, bytes),
            Answer::Listing(directory) => print_all(writer, directory.entries()),
            Answer::Details(rows) => print_all(writer, rows),
            Answer::Lost(numbers) => write_lost(writer, numbers),
            Answer::Broken(rule) => write_broken(writer, *rule),
            Answer::Declined(status) => write_declined(writer, *status),
            Answer::Refused(refusal) => write_refused(writer, *refusal),
        }
    }

    /// The status with which a program ends that was given the command: 0 where all was done or shown, 1 where changes
    /// had no effect, 2 for a broken rule, 3 where the server declined, and 4 for each refusal.
    pub fn status(&self) -> u8
        ensures { result ≡ status_of (answer_of self.now) }
    {
        match self {
            Answer::Done | Answer::Bytes(_) | Answer::Listing(_) | Answer::Details(_) => 0,
            Answer::Lost(_) => 1,
            Answer::Broken(_) => 2,
            Answer::Declined(_) => 3,
            Answer::Refused(_) => 4,
        }
    }
}
