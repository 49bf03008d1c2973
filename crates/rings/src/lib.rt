//! Rings: paths from a number back to itself, along the pairs of a table of rows (`bit_rows`).
//!
//! Numbers start at 0. Number x leads to number y if the table has the pair (x, y). A ring is the
//! list of its numbers from its start on, each once; the last leads back to the start.
//!
//! # Choices
//!
//! - The distance of each number to the start is computed first. The walk then takes the nearest
//!   number, and of several the least. So it finds the least of the shortest rings without
//!   comparing rings.
#![tactic(auto)]

mod away;
mod walking;

pub use walking::ring;
