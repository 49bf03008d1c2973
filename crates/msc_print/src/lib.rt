//! Printing: a page, the printer that hands full pages to a writer, and the one loop that prints
//! pairs of events from any source.
//!
//! A [`Printer`] keeps the fault that ends it, so a call that prints a text returns no error. Its
//! contracts have one form, `Prints`: a text follows all that was printed before. A source of pairs
//! implements [`Pairs`], and what prints each pair implements [`Rows`]; [`print_pairs`] connects
//! them. To print pairs of a new kind, implement these two.
//!
//! # Choices
//!
//! - If each call returned a `Result`, each `?` would be one more goal, and callers would convert
//!   the error of a page to that of a writer. After a fault a call does nothing, so one lemma
//!   composes calls.
//! - Pages are made here and not by a `BufWriter` over the output: a call that is generic over its
//!   writer does not say that the writer inside is still the same.
//! - A walk is a value of its own, which the caller makes. So a source can be shared.
#![tactic(auto)]

mod both;
mod page;
mod pairs;
mod printer;
mod printing;
mod rows;

pub use both::Both;
pub use page::{PAGE_SIZE, Page, WriteFault};
pub use pairs::{Pair, PairList, Pairs};
pub use printer::{Print, Printer, Text, print_by, write_by};
pub use printing::print_pairs;
pub use rows::Rows;
