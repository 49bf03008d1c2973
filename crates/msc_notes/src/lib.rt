//! Notes on a fault, which follow its line: its place in the text, and what helps.
//!
//! A place is a byte of the text, from 0, or the text's length. [`tell_parse`] computes the notes
//! on the first lexical or grammar fault of a text, [`tell_chart`] those on a fault of a draft, and
//! the calls of [`writing`] print them.
//!
//! # Choices
//!
//! - Notes are plain data: lines for people and lines for editors are made of the same notes.
//! - Places, names and first occurrences are proved. Which name or event was probably meant is a
//!   guess, by the distance of `strsim`, and only tested.
//! - To learn whether a name was expected, the parser reads the text with a `;` in place of the
//!   word. So the table of what may follow stays in the parser.
#![tactic(auto)]

mod alike;
mod chart;
mod counting;
mod draft;
mod event;
mod grammar;
mod lexical;
mod near;
mod nearest;
mod note;
mod other_faults;
mod parse;
mod ring;
mod standing;
pub mod writing;

pub use chart::tell_chart;
pub use event::{OwnEvent, events_of};
pub use note::{FaultNotes, Note, Tag};
pub use other_faults::{FURTHER_LIMIT, FurtherFaults, NotedFault, further, tell_further};
pub use parse::tell_parse;
pub use standing::faults;
