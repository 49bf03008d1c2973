//! Rows of bits, one after the other: each has a bit for each number below `n`.

ghost use Rattle.std.specs.Prelude.{◌≡◌, ℕ, ◌*◌, ◌<◌, ◌||◌, ◌&&◌, not, length, nat_eq, IfOk};
ghost use Rattle.std.specs.Prelude.{false};
ghost use Rattle.bit_rows.specs.Rows.{has, word_count};
ghost use Rattle.bit_rows.specs.Tables.{cell, with_row, HasRow};

use crate::row;
use crate::row::{clear, join, meet, part, word_count, zeros};
use std::alloc::{AllocError, Global};

/// `rows` rows without a number. An error is a growth of memory that was refused.
pub fn blank(alloc: Global, rows: u32, n: u32) -> Result<Vec<u64>, AllocError>
    ensures square { IfOk result (λ words. length words.items ≡ rows * word_count n) }
    ensures none { IfOk result (λ words. (x y : ℕ) → cell n words.items x y ≡ false) }
{
    zeros(alloc, rows as usize * word_count(n))
}

/// The words of row `e`.
pub fn row_of(words: &[u64], n: u32, e: u32) -> &[u64]
    requires row { HasRow n words.now e }
    ensures words { length result.now ≡ word_count n }
    ensures numbers { (y : ℕ) → has result.now y ≡ cell n words.now e y }
{
    let count = word_count(n);
    let rest = &words[e as usize * count..];
    &rest[..count]
}

/// Whether the table has the pair (e, f).
pub fn has(words: &[u64], n: u32, e: u32, f: u32) -> bool
    requires row { HasRow n words.now e }
    requires column { f < n }
    ensures { result ≡ cell n words.now e f }
{
    row::has(row_of(words, n, e), f)
}

/// Puts the pair (e, f) into the table.
pub fn put(words: &mut [u64], n: u32, e: u32, f: u32)
    requires row { HasRow n words.old e }
    requires column { f < n }
    ensures { (x y : ℕ) → cell n words.new x y
        ≡ (cell n words.old x y || (nat_eq x e && nat_eq y f)) }
{
    let place = e as usize * word_count(n) + f as usize / 64;
    words[place] |= 1 << (f % 64);
}

/// Adds the numbers of row `f` to row `e`.
pub fn merge(words: &mut [u64], n: u32, e: u32, f: u32)
    requires row { HasRow n words.old e }
    requires other { HasRow n words.old f }
    ensures { (x y : ℕ) → cell n words.new x y
        ≡ (cell n words.old x y || (nat_eq x e && cell n words.old f y)) }
{
    let count = word_count(n);
    for k in 0..count {
        let word = words[f as usize * count + k];
        words[e as usize * count + k] |= word;
    }
}

/// Adds the numbers of row `f` to row `e`, and `f` itself if `wanted`.
pub fn take_in(words: &mut [u64], n: u32, e: u32, f: u32, wanted: bool)
    requires row { HasRow n words.old e }
    requires other { HasRow n words.old f }
    requires column { f < n }
    ensures { (x y : ℕ) → cell n words.new x y ≡ with_row (cell n words.old) e f wanted x y }
{
    merge(words, n, e, f);
    if wanted {
        put(words, n, e, f);
    }
}

/// Adds a row of numbers to row `e`.
pub fn take_row(words: &mut [u64], n: u32, e: u32, row: &[u64])
    requires row { HasRow n words.old e }
    requires numbers { length row.now ≡ word_count n }
    ensures { (x y : ℕ) → cell n words.new x y
        ≡ (cell n words.old x y || (nat_eq x e && has row.now y)) }
{
    let count = word_count(n);
    let start = e as usize * count;
    join(&mut words[start..start + count], row);
}

/// Makes `left` the numbers that row `e` of one table and row `q` of another have in common.
pub fn common(left: &mut [u64], words: &[u64], masks: &[u64], n: u32, e: u32, q: u32)
    requires left { length left.old ≡ word_count n }
    requires row { HasRow n words.now e }
    requires mask { HasRow n masks.now q }
    ensures { (y : ℕ) → has left.new y ≡ (cell n words.now e y && cell n masks.now q y) }
{
    meet(left, row_of(words, n, e), row_of(masks, n, q));
}

/// Takes the numbers of row `c`, and `c` itself, out of `left`.
pub fn drop_row(left: &mut [u64], words: &[u64], n: u32, c: u32)
    requires left { length left.old ≡ word_count n }
    requires row { HasRow n words.now c }
    requires column { c < n }
    ensures { (y : ℕ) → has left.new y
        ≡ (has left.old y && not (nat_eq y c || cell n words.now c y)) }
{
    part(left, row_of(words, n, c));
    clear(left, c);
}

/// Adds the numbers of row `c`, and `c` itself, to `row`.
pub fn put_row(row: &mut [u64], words: &[u64], n: u32, c: u32)
    requires length { length row.old ≡ word_count n }
    requires row { HasRow n words.now c }
    requires column { c < n }
    ensures { (y : ℕ) → has row.new y
        ≡ (has row.old y || (nat_eq y c || cell n words.now c y)) }
{
    join(row, row_of(words, n, c));
    row::put(row, c);
}
