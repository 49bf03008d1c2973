//! Rows of bits for the events of a chart.

ghost use Rattle.std.specs.Prelude.{◌≡◌, ℕ, ◌≤◌, false, length, IsTrue, IfOk, IfSome, IfNone};
ghost use Rattle.bit_rows.specs.Rows.{has};
ghost use Rattle.msc_chart.specs.Lists.{IsLeast};
ghost use Rattle.msc_race.specs.Rows.{is_masked, IsRow};

use bit_rows::row;
use bit_rows::row::lowest_in;
use bit_rows::set::Set;
use msc_chart::EVENT_LIMIT;
use std::alloc::{AllocError, Global};

/// A row without events, with room for those below `n`.
pub fn blank(alloc: Global, n: u32) -> Result<Vec<u64>, AllocError>
    requires { n ≤ EVENT_LIMIT }
    ensures row { IfOk result (λ row. IsRow n row.items) }
    ensures blank { IfOk result (λ row. (y : ℕ) → has row.items y ≡ false) }
{
    row::blank(alloc, n)
}

/// A set without events, with room for those below `n`.
pub fn empty(alloc: Global, n: u32) -> Result<Set, AllocError>
    requires { n ≤ EVENT_LIMIT }
    ensures row { IfOk result (λ set. IsRow n set) }
    ensures none { IfOk result (λ set. (y : ℕ) → has set y ≡ false) }
{
    Set::blank(alloc, n)
}

/// The least number of one of two sets that is also in a row.
pub fn lowest(a: &Set, b: &Set, mask: &[u64]) -> Option<u32>
    requires few { length a.now ≤ 64 }
    requires b { length b.now ≡ length a.now }
    requires mask { length mask.now ≡ length a.now }
    ensures some { IfSome result (λ y. IsLeast (λ z. IsTrue (is_masked a.now b.now mask.now z)) y) }
    ensures none { IfNone result ((y : ℕ) → IsTrue (is_masked a.now b.now mask.now y) → ⊥) }
{
    let (one, other) = (a.words(), b.words());
    let mut left = a.summary() | b.summary();
    while left != 0 {
        let k = left.trailing_zeros();
        let word = (one[k as usize] | other[k as usize]) & mask[k as usize];
        if word != 0 {
            return Some(lowest_in(word, k));
        }
        left &= left - 1;
    }
    None
}
