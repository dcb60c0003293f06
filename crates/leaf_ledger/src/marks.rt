//! The marks of a ledger's leaves.

ghost use Rattle.std.specs.Prelude.{◌==◌, ◌≡◌, ◌≢◌, ◌<◌, ◌≤◌, ℕ, length, get_or, IfSome, IfNone};
ghost use Rattle.std.specs.List.{filter};
ghost use Rattle.leaf_ledger.specs.Ledger.{free_mark};

/// The first place from one on whose mark is 0.
pub(crate) fn first_free(marks: &[u8], from: usize) -> Option<usize>
    requires { from ≤ length marks.now }
    ensures found { IfSome result (λ i. (from ≤ i) × (i < length marks.now) × (get_or marks.now i 0 ≡ 0)
        × ((k : ℕ) → from ≤ k → k < i → get_or marks.now k 0 ≢ 0)) }
    ensures none { IfNone result ((k : ℕ) → from ≤ k → k < length marks.now → get_or marks.now k 0 ≢ 0) }
{
    for i in from..marks.len() {
        if marks[i] == 0 {
            return Some(i);
        }
    }
    None
}

/// How many of the marks are 0.
pub(crate) fn count_free(marks: &[u8]) -> usize
    ensures count { result ≡ length (filter (λ mark. mark == free_mark) marks.now) }
    ensures few { result ≤ length marks.now }
{
    marks.iter().filter(|mark| **mark == 0).count()
}
