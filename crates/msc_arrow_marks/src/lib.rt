//! Marks of diagrams: comments that accept the races of an arrow, with their reasons.
//!
//! A mark is a comment in a line of its own, `%% race ok: REASON`, and belongs to the next arrow
//! below it. Between `ok` and the colon may stand ` in ARCH, ARCH..`, the architectures that it is
//! for, and then ` with ID; ID..`, the arrows whose races with this one it accepts. An ID is the
//! label of an arrow between double quotes, or its number. [`DiagramMarks`] has the marks of a
//! diagram and the faulty ones. Marks are this project's own.
//!
//! Arrows are numbered from 1, in the order of the text; places are bytes of it, from 0.
//!
//! # Choices
//!
//! - One blank is before each word, and none before a comma, a semicolon or the colon, as in the
//!   marks of charts (`msc_mark`). Whoever begins a comment with `race ok` means a mark, so one with
//!   other blanks is faulty.
//! - A label has no double quote, since a quote ends it. An arrow whose label has one is named by
//!   its number.
//! - Marks and faults are found together, since the second mark of an arrow is a fault and not a
//!   mark.
#![tactic(auto)]

mod accepting;
mod below;
mod fault;
mod finding;
mod head;
mod label;
pub mod laws;
mod marks;
mod other;
mod parts;
mod reading;
#[cfg(test)]
mod tests;

pub use accepting::{AcceptedArrows, SpokenArrow, is_named, spoken_arrows, spoken_other};
pub use fault::{FaultyMark, Slip};
pub use marks::{ArrowMark, DiagramMarks};
pub use other::OtherArrow;
pub use reading::MarkText;
