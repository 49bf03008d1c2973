//! One row of bits.

ghost use Rattle.std.specs.Prelude.{◌≡◌, ◌≢◌, ℕ, ◌+◌, ◌*◌, ◌/◌, ◌%◌, ◌<◌, ◌≤◌, ◌||◌, false, length};
ghost use Rattle.std.specs.Prelude.{◌&&◌, not, nat_eq, nat_le, nat_lt, replicate, IsTrue, IfOk};
ghost use Rattle.bit_rows.specs.Rows.{bit_of, has, word_count, AreApartTo, IsFirstCommon};
ghost use Rattle.bit_rows.specs.Rows.{all_ones, HasNumbersOf32Bits, IsWithout};

use std::alloc::{AllocError, Global};

/// The number of words with a bit for each number below `n`.
pub fn word_count(n: u32) -> usize
    ensures count { result ≡ word_count n }
    ensures small { result ≤ n }
    ensures enough { n ≤ 64 * result }
{
    (n as usize).div_ceil(64)
}

/// `count` words that are 0.
pub(crate) fn zeros(alloc: Global, count: usize) -> Result<Vec<u64>, AllocError>
    ensures { IfOk result (λ words. words.items ≡ replicate count 0) }
{
    vec![in alloc; 0u64; count]
}

/// `count` words whose bits are all 1.
fn ones(alloc: Global, count: usize) -> Result<Vec<u64>, AllocError>
    ensures { IfOk result (λ words. words.items ≡ replicate count all_ones) }
{
    vec![in alloc; u64::MAX; count]
}

/// A row without numbers, with room for those below `n`. An error is a growth of memory that was
/// refused.
pub fn blank(alloc: Global, n: u32) -> Result<Vec<u64>, AllocError>
    ensures words { IfOk result (λ row. length row.items ≡ word_count n) }
    ensures none { IfOk result (λ row. (y : ℕ) → has row.items y ≡ false) }
{
    zeros(alloc, word_count(n))
}

/// The row of all numbers below `n`. An error is a growth of memory that was refused.
pub fn full(alloc: Global, n: u32) -> Result<Vec<u64>, AllocError>
    ensures words { IfOk result (λ row. length row.items ≡ word_count n) }
    ensures numbers { IfOk result (λ row. (y : ℕ) → has row.items y ≡ nat_lt y n) }
{
    let mut row = ones(alloc, word_count(n))?;
    let rest = n % 64;
    if rest == 0 {
        return Ok(row);
    }
    row[n as usize / 64] = u64::MAX >> (64 - rest);
    Ok(row)
}

/// Whether the row has number `y`.
pub fn has(row: &[u64], y: u32) -> bool
    requires { y < 64 * length row.now }
    ensures { result ≡ has row.now y }
{
    let word = row[y as usize / 64];
    (word >> (y % 64)) & 1 == 1
}

/// Puts number `y` into the row.
pub fn put(row: &mut [u64], y: u32)
    requires { y < 64 * length row.old }
    ensures { (z : ℕ) → has row.new z ≡ (has row.old z || nat_eq z y) }
{
    row[y as usize / 64] |= 1 << (y % 64);
}

/// Takes number `y` out of the row.
pub fn clear(row: &mut [u64], y: u32)
    requires { y < 64 * length row.old }
    ensures { IsWithout row.old row.new y }
{
    row[y as usize / 64] &= !(1 << (y % 64));
}

/// Makes the row the numbers that two others of its length have in common.
pub(crate) fn meet(row: &mut [u64], one: &[u64], other: &[u64])
    requires one { length one.now ≡ length row.old }
    requires other { length other.now ≡ length row.old }
    ensures { (y : ℕ) → has row.new y ≡ (has one.now y && has other.now y) }
{
    for (k, word) in row.iter_mut().enumerate() {
        *word = one[k] & other[k];
    }
}

/// Takes the numbers of another row of its length out of the row.
pub fn part(row: &mut [u64], other: &[u64])
    requires { length other.now ≡ length row.old }
    ensures { (y : ℕ) → has row.new y ≡ (has row.old y && not (has other.now y)) }
{
    for (k, word) in row.iter_mut().enumerate() {
        *word &= !other[k];
    }
}

/// Adds the numbers of another row of its length to the row.
pub(crate) fn join(row: &mut [u64], other: &[u64])
    requires { length other.now ≡ length row.old }
    ensures { (y : ℕ) → has row.new y ≡ (has row.old y || has other.now y) }
{
    for (k, word) in row.iter_mut().enumerate() {
        *word |= other[k];
    }
}

/// The lowest number that `word` has as word `k` of a row.
pub fn lowest_in(word: u64, k: u32) -> u32
    requires few { HasNumbersOf32Bits k }
    requires some { word ≢ 0 }
    ensures place { result / 64 ≡ k }
    ensures itself { IsTrue (bit_of word (result % 64)) }
    ensures lowest { (i : ℕ) → i < result % 64 → bit_of word i ≡ false }
{
    64 * k + word.trailing_zeros()
}

/// The bits of word `k` of a row that are 0 and represent numbers from `start` up to `end`. The
/// word has some of these numbers.
pub fn zeros_in(word: u64, k: u32, start: u32, end: u32) -> u64
    requires few { HasNumbersOf32Bits k }
    requires start { start < 64 * k + 64 }
    requires end { 64 * k < end }
    ensures { (f : ℕ) → f / 64 ≡ k
        → bit_of result (f % 64) ≡ (not (bit_of word (f % 64)) && nat_le start f && nat_lt f end) }
{
    let zeros = !word;
    if zeros == 0 {
        return 0;
    }
    let from = start.saturating_sub(64 * k);
    let past = (64 * k + 64).saturating_sub(end);
    zeros & (u64::MAX << from) & (u64::MAX >> past)
}

/// The first word in which two rows of one length have a number in common, given that the words
/// below `from` have none; or the number of words.
pub fn first_common(one: &[u64], other: &[u64], from: usize) -> usize
    requires other { length other.now ≡ length one.now }
    requires from { AreApartTo one.now other.now from }
    ensures { IsFirstCommon one.now other.now result }
{
    for k in from..one.len() {
        if one[k] & other[k] != 0 {
            return k;
        }
    }
    one.len()
}
