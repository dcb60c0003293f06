//! Pairs that ascend by i-number, as a map.

ghost use Rattle.std.specs.Prelude.{◌≡◌, ◌<◌, ◌≤◌, ◌-◌, ◌++◌, take, drop, None, IsSome, IsOk, OnOk, OnErr, MatchResult};
ghost use Rattle.std.specs.Prelude.{filter, length};
ghost use Rattle.std.specs.Bool.{Decides};
ghost use Rattle.std.specs.Ordering.{nat_cmp};
ghost use Rattle.std.specs.List.{AllWithin};
ghost use Rattle.layout.specs.Ascending.{Ascends, Stands, IsFree, row_at, with_row, without_row};
ghost use Rattle.itable.specs.Chunk.{chunk_number, i_number_of};
ghost use Rattle.itable.specs.ITable.{is_in};

use crate::chunk::{ChunkNumber, Pair};
use layout::{INumber, Memory};
use std::alloc::Allocator;
use std::ops::Range;

/// Where an i-number stands, or where it would stand.
fn find(pairs: &[Pair], i_number: INumber) -> Result<usize, usize>
    requires { Ascends nat_cmp i_number_of None pairs.now }
    ensures { MatchResult result (Stands nat_cmp i_number_of pairs.now i_number)
        (IsFree nat_cmp i_number_of pairs.now i_number) }
{
    pairs.binary_search_by_key(&i_number.get(), |pair| pair.i_number.get())
}

/// Puts a pair in its place, or in that of the one with its i-number.
pub(crate) fn put<A: Allocator>(pairs: &mut Vec<Pair, A>, pair: Pair) -> Result<(), Memory>
    requires { Ascends nat_cmp i_number_of None pairs.old.items }
    ensures ok { OnOk result (pairs.new.items ≡ with_row nat_cmp i_number_of pairs.old.items pair) }
    ensures mapped { IsSome (row_at nat_cmp i_number_of pairs.old.items pair.i_number) → IsOk result }
    ensures err { OnErr result (pairs.new.items ≡ pairs.old.items) }
{
    match find(pairs, pair.i_number) {
        Ok(place) => pairs[place] = pair,
        Err(place) => pairs.insert(place, pair)?,
    }
    Ok(())
}

/// Puts pairs before those that stand from this place on. After an error they are as before.
pub(crate) fn put_run<A: Allocator>(
    pairs: &mut Vec<Pair, A>,
    place: usize,
    run: &[Pair],
) -> Result<(), Memory>
    requires { place ≤ length pairs.old.items }
    ensures ok { OnOk result (pairs.new.items
        ≡ take place pairs.old.items ++ (run.now ++ drop place pairs.old.items)) }
    ensures err { OnErr result (pairs.new.items ≡ pairs.old.items) }
{
    pairs.extend_from_slice(run)?;
    pairs[place..].rotate_right(run.len());
    Ok(())
}

/// Takes the pair of an i-number out, if there is one.
pub(crate) fn take_out<A: Allocator>(pairs: &mut Vec<Pair, A>, i_number: INumber) -> Option<Pair>
    requires { Ascends nat_cmp i_number_of None pairs.old.items }
    ensures found { result ≡ row_at nat_cmp i_number_of pairs.old.items i_number }
    ensures left { pairs.new.items ≡ without_row nat_cmp i_number_of pairs.old.items i_number }
{
    match find(pairs, i_number) {
        Ok(place) => Some(pairs.remove(place)),
        Err(_) => None,
    }
}

/// The pair of an i-number, if there is one.
pub(crate) fn pair_at(pairs: &[Pair], i_number: INumber) -> Option<Pair>
    requires { Ascends nat_cmp i_number_of None pairs.now }
    ensures { result ≡ row_at nat_cmp i_number_of pairs.now i_number }
{
    match find(pairs, i_number) {
        Ok(place) => Some(pairs[place]),
        Err(_) => None,
    }
}

/// How many pairs stand in chunks below this number.
pub(crate) fn count_below(pairs: &[Pair], number: u8) -> usize
    requires { Ascends nat_cmp i_number_of None pairs.now }
    ensures inside { result ≤ length pairs.now }
    ensures below { AllWithin (λ p. chunk_number p.i_number < number) pairs.now 0 result }
    ensures from { AllWithin (λ p. number ≤ chunk_number p.i_number) pairs.now result (length pairs.now) }
{
    pairs.partition_point(|pair| ChunkNumber::of(pair.i_number).get() < number)
}

/// The places of a chunk's pairs, which stand next to each other.
fn places_of(pairs: &[Pair], number: ChunkNumber) -> Range<usize>
    requires { Ascends nat_cmp i_number_of None pairs.now }
    ensures order { result.start ≤ result.end }
    ensures inside { result.end ≤ length pairs.now }
    ensures pairs { take (result.end - result.start) (drop result.start pairs.now) ≡ filter (is_in number) pairs.now }
{
    let number = number.get();
    let start = count_below(pairs, number);
    let end = count_below(pairs, number + 1);
    start..end
}

/// The pairs of a chunk.
pub(crate) fn run_of(pairs: &[Pair], number: ChunkNumber) -> &[Pair]
    requires { Ascends nat_cmp i_number_of None pairs.now }
    ensures { result.now ≡ filter (is_in number) pairs.now }
{
    let places = places_of(pairs, number);
    &pairs[places.start..places.end]
}

/// Whether these are the same pairs.
pub(crate) fn are_same(pairs: &[Pair], others: &[Pair]) -> bool
    ensures { Decides result (pairs.now ≡ others.now) }
{
    pairs == others
}
