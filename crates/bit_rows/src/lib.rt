//! Rows of bits: sets of numbers, 64 in a word.
//!
//! Number `y` of a row is bit `y % 64` of word `y / 64`. [`row`] has the calls on one row.
//! [`table`] has the calls on rows of one length, one after the other; row `x` has each `y` of the
//! pairs (x, y). [`set`] has rows with a summary of the words that have a number. Numbers start at
//! 0. Contracts see a row by its numbers, and a table by its pairs.
//!
//! # Choices
//!
//! - A table is itself a row, in which pair (x, y) has a number. So each write of a bit is proved
//!   once, by one definition (`has`).
//! - The lemmas `by_test` and `clash` are also in `proofs/ListLemmas` of `msc_chart`: neither crate
//!   uses the other.
#![tactic(auto)]

pub mod laws;
pub mod row;
pub mod set;
pub mod table;

/// The numbers of a set are below this limit: one word has a bit for each word of its row.
pub const SET_LIMIT: u32 = 4096;
