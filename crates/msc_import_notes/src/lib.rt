//! Notes on a fault of an import, which follow its line: its place in the text, and what helps.
//!
//! A place is a byte of the text, from 0, or the text's length. [`tell_import`] computes the notes
//! on a fault that `msc_mermaid` and the crates above it answer; notes are those of `msc_notes`,
//! whose calls print them. The contract says that the place is on the line that the fault names;
//! which place of this line it is, and the notes, are tested.
//!
//! Where to change what: `tell` chooses the notes of each fault; `hints` has the notes of a
//! statement, `names` those of its names, `kinds` those of another diagram; `counting_lines` finds
//! parts without an end; `statement` and `bytes` read a statement. `scenarios` has the notes on too
//! many scenarios, `blocks` those on the blocks of Markdown, and `other_way` those on a diagram
//! that is read as a chart.
//!
//! # Choices
//!
//! - The reader gives the place of a statement, or of a part that is no statement. The arrow or
//!   name in question is searched again here: it only serves notes.
//! - The reader is called again on changed texts. The block around a refused `end` is the one that
//!   lacks its end in the text before it; a sender is a line too many if an arrow from it to itself
//!   is.
#![tactic(auto)]

mod blocks;
mod bytes;
mod counting_lines;
mod hints;
mod kinds;
mod names;
mod near;
mod other_way;
mod plain;
mod scenarios;
mod spans;
mod statement;
mod tell;

pub use blocks::{with_block_notes, with_whole_lines};
pub use other_way::{is_sequence_diagram, tell_other_way};
pub use plain::{block_text, with_plain_lines};
pub use scenarios::tell_scenarios;
pub use spans::{ToldText, import_spans, line_span};
pub use tell::{fault_line, tell_import};
