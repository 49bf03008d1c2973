//! Diagnostics on a text, as people read them: a sentence, the lines of the text with marks below
//! them, and notes. The form is that of rustc.
//!
//! A diagnostic is plain data. Its marks are parts of the text, by their places. Lines are numbered
//! from 1, and bytes and columns from 0; columns are those of a terminal. What is shown of a line is
//! what `msc_spoken` shows of it. The other texts of a diagnostic are printed as they are, so they
//! have to be shown already.
//!
//! Contracts see a diagnostic and a text, and the bytes that are printed of them:
//! `diagnostic_text` in `specs/Blocks.antt`.
//!
//! # Choices
//!
//! - A line of more than 100 columns is shown through a window of 100. One is enough for all marks
//!   that begin in it; marks that begin after it get a window of their own.
//! - What is shown before a mark and what is shown of it are each read as a text of their own. So a
//!   part that begins inside of a character has `?` for each of the bytes that are left of it.
//! - Marks are few, so one is put after the other into a list that is in order. The rows of equal
//!   marks then stand in the order in which they are given.
//! - The rows are put together in memory and printed at once: there is one place where memory can
//!   run out, and a printer is never left with half a diagnostic for another reason.
//!
//! # Where to change what
//!
//! - a word, a colour or a part of a row: `frame.rt`, `colour.rt`, `diagnostic.rt` and
//!   `specs/Rows.antt`
//! - which rows there are: `printing.rt` and `specs/Blocks.antt`
//! - the size of a window, and where it begins: `window.rt` and `specs/Windows.antt`
//! - where a mark begins and ends: `mark.rt` and `specs/Marks.antt`
//! - what ends a line: `source.rt` and `specs/Lines.antt`
#![tactic(auto)]

mod characters;
mod colour;
mod diagnostic;
mod frame;
pub mod laws;
mod mark;
mod printing;
mod source;
#[cfg(test)]
mod tests;
mod window;

pub use diagnostic::{Diagnostic, Level, Note, NoteKind};
pub use mark::{Mark, Sign};
pub use printing::{diagnostic_text, print_diagnostic};
pub use source::{LineEnds, Source};
