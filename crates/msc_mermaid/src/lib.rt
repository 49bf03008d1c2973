//! Sequence diagrams of Mermaid: from a text to its diagram.
//!
//! [`diagram_of`] reads the statements of a text, line by line, and returns their diagram.
//! [`diagram_of_parts`] does so for a part of a text. Lines and columns of a text and arrows are
//! numbered from 1, its bytes from 0: the [`Span`]s of statements, labels and names are bytes of
//! the whole text.
//!
//! Where to change what: white space is in `white`; a key word or a mark in `key`, an arrow in
//! `head`; the first words of statements in `row`, with the patterns of `pattern`; their meaning in
//! `saying`, names in `name`, lines in `declaring`; the blocks in which a statement may be, and the
//! place at which a line is first named, in `outline`; the places of its bytes in `reading`.
//! `cutting` cuts a line into statements; `waiting` joins the lines of one; `progress` lists the
//! comments; `line_kind`, `progress` and `mermaid` leave out everything else: front matter,
//! directives, titles and descriptions.
//!
//! # Choices
//!
//! - Definitions are functions of bytes, lines and statements, so each text has one diagram or one
//!   first fault.
//! - A diagram is a flat list of statements, and each block has its end in it. A tree of blocks
//!   would be a further type, with a proof that it agrees with the list.
//! - Each statement fits the first row of a table of patterns. One matcher is proved for all rows.
//! - A text on which the rules of Mermaid leave a doubt is refused.
//! - No law states yet that each statement is read. It is proved that a line is its pieces and a
//!   comment, and that a fact that holds for each statement that is read holds for all of them
//!   (`read_all`, `proofs/StepLemmas`). The law would cut a text into statements without reading
//!   them.
#![tactic(auto)]

mod ahead;
mod cutting;
mod declaring;
mod fault;
mod head;
mod key;
pub mod laws;
mod line_kind;
mod lines;
mod markup;
mod mermaid;
mod name;
mod outline;
mod part;
mod pattern;
mod progress;
mod reading;
mod row;
mod saying;
mod seeking;
mod statement;
mod waiting;
mod white;

pub use ahead::Ahead;
pub use fault::{Expectation, ImportFault};
pub use head::Head;
pub use key::{are_spelled, begin_so};
pub use line_kind::is_head;
pub use lines::{counted, lines_of, starts_of};
pub use mermaid::{beginning_of, diagram_of, end_of};
pub use part::{LinePart, diagram_of_parts, first_place};
pub use pattern::{begins_word, is_word_byte};
pub use row::{Closer, Kind};
pub use seeking::entity_in;
pub use statement::{Arrow, Cross, Diagram, Fate, Placed, Span, Statement};
pub use white::trimmed;

/// The greatest number of nested blocks.
pub const DEPTH_LIMIT: usize = 10;

/// The greatest number of lines of a diagram.
pub const LINE_LIMIT: usize = 32;
