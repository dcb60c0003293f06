//! Paths, read from their texts.

ghost use Rattle.std.specs.Prelude.{◌≡◌, ◌∷◌, [], true, not, MatchOption};
ghost use Rattle.std.specs.List.{list_all};
ghost use Rattle.std.specs.Char.{is_ascii_digit};
ghost use Rattle.directory.specs.Name.{is_name};
ghost use Rattle.commands.specs.Paths.{is_number, within, number_in, target_of, target_in, place_of};
ghost use Rattle.commands.specs.Paths.{path_of, path_from, parts, parts_of, has_some, start_of, root};

use directory::{Target, name_text};
use layout::{INumber, Principal, User};
use std::marker::Model;

/// The names of a path that are left, in turn.
#[derive(Drop)]
pub struct Names<'a> {
    left: Option<&'a str>,
}

impl<'a> Model for Names<'a> {
    ghost use Rattle.std.specs.Prelude.{◌≡◌, List, true};
    ghost use Rattle.std.specs.List.{list_all};
    ghost use Rattle.layout.specs.Types.{Bytes};
    ghost use Rattle.directory.specs.Name.{is_name};
    ghost use Rattle.commands.specs.Paths.{parts_of};

    ghost Value = { List Bytes };

    ghost view = { λ n. parts_of n.left };

    ghost invariant = { λ n. list_all is_name (parts_of n.left) ≡ true };
}

/// Where a path begins, and the names through which it leads on: `/a/b` begins at the root directory, and `@p:i/a/b` at
/// what stands at the i-number of a principal.
#[derive(Drop)]
pub struct Path<'a> {
    start: Target,
    names: Names<'a>,
}

impl<'a> Model for Path<'a> {
    ghost use Rattle.commands.specs.Paths.{Path};

    ghost Value = { Path };

    ghost view = { λ p. record { start = p.start; names = p.names } };
}

// ---- numbers

fn are_digits(word: &str) -> bool
    ensures { result ≡ list_all is_ascii_digit word.now }
{
    word.as_bytes().iter().all(|byte| byte.is_ascii_digit())
}

/// Whether a word is a number: ASCII digits, with no sign.
fn is_number(word: &str) -> bool
    ensures { result ≡ is_number word.now }
{
    !word.is_empty() && are_digits(word)
}

/// A number, if it is from `low` to `high`.
fn within(number: u16, low: u16, high: u16) -> Option<u16>
    ensures { result ≡ within low high number }
{
    if low <= number && number <= high {
        Some(number)
    } else {
        None
    }
}

/// The number from `low` to `high` that a word is.
fn number_in(word: &str, low: u16, high: u16) -> Option<u16>
    ensures { result ≡ number_in low high word.now }
{
    if !is_number(word) {
        return None;
    }
    match word.parse::<u16>() {
        Ok(number) => within(number, low, high),
        Err(_) => None,
    }
}

fn principal_of(word: &str) -> Option<Principal>
    ensures { result ≡ number_in 0 95 word.now }
{
    match number_in(word, 0, 95) {
        Some(number) => Principal::new(number as u8),
        None => None,
    }
}

fn i_number_of(word: &str) -> Option<INumber>
    ensures { result ≡ number_in 1 4095 word.now }
{
    match number_in(word, 1, 4095) {
        Some(number) => INumber::new(number),
        None => None,
    }
}

fn target_of(principal: Option<Principal>, i_number: Option<INumber>) -> Option<Target>
    ensures { result ≡ target_of principal i_number }
{
    match (principal, i_number) {
        (Some(principal), Some(i_number)) => Some(Target {
            principal,
            i_number,
        }),
        _ => None,
    }
}

/// A principal, a colon, and an i-number.
fn target_in(text: &str) -> Option<Target>
    ensures { result ≡ target_in text.now }
{
    match text.split_once(':') {
        Some((principal, i_number)) => { target_of(principal_of(principal), i_number_of(i_number)) }
        None => None,
    }
}

/// The place that a word names: `@p:i`, a principal from 0 to 95 and an i-number from 1 to 4,095 in ASCII digits.
pub fn place_of(word: &str) -> Option<Target>
    ensures { result ≡ place_of word.now }
{
    match word.strip_prefix('@') {
        Some(text) => target_in(text),
        None => None,
    }
}

// ---- names

/// What stands before the first slash of a text, and what stands after it, if there is one.
fn first_part(text: &str) -> (&str, Option<&str>)
    ensures { parts text.now ≡ result.0.now ∷ parts_of result.1 }
{
    match text.split_once('/') {
        Some((part, rest)) => (part, Some(rest)),
        None => (text, None),
    }
}

/// Whether there is a part.
#[tactic(auto, using(crate::proofs::PathText::has_some_is))]
fn has_some(left: Option<&str>) -> bool
    ensures { result ≡ has_some (parts_of left.entry) }
{
    left.is_some()
}

pub(crate) fn is_name(part: &str) -> bool
    ensures { result ≡ is_name part.now }
{
    name_text(part.as_bytes()).is_some()
}

/// Whether each part of a text between slashes is a name.
fn are_names(text: &str) -> bool
    ensures { result ≡ list_all is_name (parts text.now) }
{
    text.split('/').all(is_name)
}

impl<'a> Names<'a> {
    /// The next name, after which the others are left.
    pub fn next(&mut self) -> Option<&'a str>
        ensures { MatchOption result ((self.old ≡ []) × (self.new ≡ []))
            (λ name. (self.old ≡ name.now ∷ self.new) × (is_name name.now ≡ true)) }
    {
        let text = self.left?;
        let (name, rest) = first_part(text);
        self.left = rest;
        Some(name)
    }

    /// Whether none is left.
    pub fn is_empty(&self) -> bool
        ensures { result ≡ not (has_some self.now) }
    {
        !has_some(self.left)
    }
}

// ---- paths

/// The root directory, user 0's i-number 2.
fn root() -> Target
    ensures { result ≡ root }
{
    Target {
        principal: Principal::from(User::superuser()),
        i_number: INumber::root(),
    }
}

/// Where the path begins of whose text this is the part before the first slash.
fn start_of(part: &str, has_names: bool) -> Option<Target>
    ensures { result ≡ start_of part.now has_names }
{
    if !part.is_empty() {
        return place_of(part);
    }
    if has_names { Some(root()) } else { None }
}

/// The path from here through names, if each part that is left is one.
fn path_from(left: Option<&str>, start: Target) -> Option<Path<'_>>
    ensures { result ≡ path_from (parts_of left.entry) start }
{
    match left {
        Some(names) if !are_names(names) => None,
        _ => Some(Path {
            start,
            names: Names { left },
        }),
    }
}

/// The path that a text is, if it is one.
#[tactic(auto, unfolding(crate::specs::Paths::path_of))]
pub fn path_of(text: &str) -> Option<Path<'_>>
    ensures { result ≡ path_of text.now }
{
    if text == "/" {
        return path_from(None, root());
    }
    let (part, left) = first_part(text);
    match start_of(part, has_some(left)) {
        Some(start) => path_from(left, start),
        None => None,
    }
}

impl<'a> Path<'a> {
    /// Where it begins.
    pub fn start(&self) -> Target
        ensures { result ≡ self.now.start }
    {
        self.start
    }

    /// The names through which it leads on.
    pub fn names(self) -> Names<'a>
        ensures { result ≡ self.entry.names }
    {
        self.names
    }
}
