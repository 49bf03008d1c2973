//! Diagrams in Markdown: which lines of a text are blocks of diagrams, and which of these are
//! sequence diagrams of Mermaid.
//!
//! [`Markdown::of`] reads the lines of a text once, from the first one on. A block is between
//! fences of backquotes or tildes, in a directive (`:::mermaid`), in a shortcode of Hugo, or in an
//! element `pre` or `div` of HTML. Blocks of diagrams and lines are numbered from 1; `msc_mermaid`
//! reads a line of a block with blanks for the columns before it (`LinePart`).
//!
//! Where to change what: the marks before a block are in `marks`; the beginning and the end of a
//! block in `closing`, with HTML and Hugo in `markup`; one more line in `around`; all lines in
//! `markdown`.
//!
//! # Choices
//!
//! - Numbers count the diagrams of all languages. So the N-th stays the N-th when a further
//!   language is read.
//! - A misspelt `sequenceDiagram`, or one outside the blocks of a text with blocks of diagrams,
//!   counts as a sequence diagram: it is refused, not skipped.
//! - A line of a block is a part of a line of the file, with its number and the columns before it.
//!   So a block is read without a copy, and its places are those of the file.
//! - The definition goes from line to line, as Markdown does: the block around a line decides what
//!   the line means. A shortcode begins a block only if it has its end further down, so the walk
//!   carries the number of following lines that have such an end.
#![tactic(auto)]

mod around;
mod blanks;
mod closing;
pub mod laws;
mod markdown;
mod marks;
mod markup;
mod seeking;

pub use around::BlockKind;
pub use markdown::{Markdown, Start, is_sequence_text};
