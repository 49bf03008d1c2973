//! Closing a table of pairs under transitivity (Warshall 1962), and the least number from which a
//! path leads back to it.

ghost use Rattle.std.specs.Prelude.{◌≡◌, ℕ, ◌*◌, ◌<◌, length, IfOk, IsTrue, MatchOption};
ghost use Rattle.bit_rows.specs.Rows.{word_count};
ghost use Rattle.bit_rows.specs.Tables.{cell};
ghost use Rattle.msc_chart.specs.Lists.{IsLeast};
ghost use Rattle.msc_follow.specs.Paths.{HasNoClosedPath, IsLeastOnARing, Path};
ghost use Rattle.msc_follow.specs.Tables.{HasJoined, IsClosed};

use bit_rows::table::{has, merge};
use std::alloc::{AllocError, Global};

/// Adds row `k` to each row that has `k`.
fn join_rows(words: &mut [u64], n: u32, k: u32)
    requires square { length words.old ≡ n * word_count n }
    requires number { k < n }
    ensures { HasJoined n words.old words.new k n }
{
    for i in 0..n {
        if has(words, n, i, k) {
            merge(words, n, i, k);
        }
    }
}

/// Closes a table under transitivity: it then has a pair if and only if a path of pairs that it had
/// leads from the first to the second.
fn close(words: &mut [u64], n: u32)
    requires square { length words.old ≡ n * word_count n }
    ensures { IsClosed n words.old words.new n }
{
    for k in 0..n {
        join_rows(words, n, k);
    }
}

/// The least number that a table pairs with itself.
fn least_with_itself(words: &[u64], n: u32) -> Option<u32>
    requires { length words.now ≡ n * word_count n }
    ensures { MatchOption result ((e : ℕ) → e < n → IsTrue (cell n words.now e e) → ⊥)
        (IsLeast (λ e. (e < n) × IsTrue (cell n words.now e e))) }
{
    for e in 0..n {
        if has(words, n, e, e) {
            return Some(e);
        }
    }
    None
}

/// The least number from which a path of pairs leads back to itself, if there is one. An error is a
/// growth of memory that was refused.
pub(crate) fn least_on_a_ring(
    alloc: Global,
    steps: &[u64],
    n: u32,
) -> Result<Option<u32>, AllocError>
    requires square { length steps.now ≡ n * word_count n }
    requires inside { (x y : ℕ) → IsTrue (cell n steps.now x y) → (x < n) × (y < n) }
    ensures { IfOk result (λ least. MatchOption least (HasNoClosedPath (cell n steps.now))
        (IsLeastOnARing (cell n steps.now))) }
{
    let mut closed = steps.to_vec(alloc)?;
    close(&mut closed, n);
    Ok(least_with_itself(&closed, n))
}
