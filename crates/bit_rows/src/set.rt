//! Sets of numbers for repeated queries of the least number.

ghost use Rattle.std.specs.Prelude.{◌≡◌, ℕ, ◌*◌, ◌/◌, ◌<◌, ◌≤◌, ◌||◌, false, length, nat_eq};
ghost use Rattle.std.specs.Prelude.{IsTrue, IfOk};
ghost use Rattle.bit_rows.specs.Rows.{bit_of, has, word_count, IsWith, IsWithout};

use crate::{SET_LIMIT, row};
use std::alloc::{AllocError, Global};
use std::marker::Model;

/// A row of bits, and a word that shows which of the row's words have a number.
///
/// Contracts see the row.
#[derive(Drop)]
pub struct Set {
    words: Vec<u64>,
    some: u64,
}

impl Model for Set {
    ghost use Rattle.std.specs.Prelude.{List, ℕ};
    ghost use Rattle.bit_rows.specs.Sets.{HasSummary};

    ghost Value = { List ℕ };

    ghost view = { λ s. s.words.items };

    ghost invariant = { λ s. HasSummary s.words.items s.some };
}

impl Set {
    /// A set without numbers, with room for those below `n`. An error is a growth of memory that
    /// was refused.
    pub fn blank(alloc: Global, n: u32) -> Result<Set, AllocError>
        requires { n ≤ SET_LIMIT }
        ensures words { IfOk result (λ set. length set ≡ word_count n) }
        ensures none { IfOk result (λ set. (y : ℕ) → has set y ≡ false) }
    {
        Ok(Set {
            words: row::blank(alloc, n)?,
            some: 0,
        })
    }

    /// Puts number `y` into the set.
    fn put(&mut self, y: u32)
        requires { y < 64 * length self.old }
        ensures numbers { (z : ℕ) → has self.new z ≡ (has self.old z || nat_eq z y) }
        ensures words { length self.new ≡ length self.old }
    {
        row::put(&mut self.words, y);
        self.some |= 1 << (y / 64);
    }

    /// Puts number `y` into the set, if `wanted`.
    pub fn put_where(&mut self, y: u32, wanted: bool)
        requires { y < 64 * length self.old }
        ensures numbers { IsWith self.old self.new wanted y }
        ensures words { length self.new ≡ length self.old }
    {
        if wanted {
            self.put(y);
        }
    }

    /// Takes number `y` out of the set.
    pub fn clear(&mut self, y: u32)
        requires { y < 64 * length self.old }
        ensures numbers { IsWithout self.old self.new y }
        ensures words { length self.new ≡ length self.old }
    {
        row::clear(&mut self.words, y);
        if self.words[y as usize / 64] == 0 {
            self.some &= !(1 << (y / 64));
        }
    }

    /// The row of the set's numbers.
    pub fn words(&self) -> &[u64]
        ensures { result.now ≡ self.now }
    {
        self.words.as_slice()
    }

    /// A word with a bit for each word of the row that has a number.
    pub fn summary(&self) -> u64
        ensures told { (y : ℕ) → IsTrue (has self.now y) → IsTrue (bit_of result (y / 64)) }
        ensures within { (k : ℕ) → IsTrue (bit_of result k) → k < length self.now }
    {
        self.some
    }
}
