//! Findings and refusals as records of JSON (RFC 8259), a line for each chart or diagram; and
//! findings as one document of SARIF (version 2.1.0).
//!
//! Both are printed in parts, so that memory does not grow with the number of races. The record of
//! a check is [`print_head`], [`print_entry`] for each race, and [`print_end`]; [`print_refusal`]
//! prints a whole record. A document is [`print_sarif_head`], [`print_finding`] for each finding,
//! and [`print_sarif_end`]. What they print is plain data that the caller lends: names, words and
//! numbers. So this crate does not depend on those that find races.
//!
//! Lines, columns, rounds and scenarios are numbered from 1, bytes and events from 0. Contracts see
//! the plain data (`specs/Plain.antt`, `specs/SarifPlain.antt`), its value of JSON, and the bytes
//! (`specs/Records.antt`, `specs/Documents.antt`). Laws state that the parts are the bytes of one
//! value, and that the grammar of JSON reads these as that value.
//!
//! # Choices
//!
//! - `Writer` of the kit's crate `json` writes all tokens, so it decides escapes, commas and
//!   numbers. Each part has a writer of its own.
//! - One run can show several races, so its text is made once ([`run_text`], [`steps_text`]), and
//!   entries and findings take the text.
//! - Names and labels are bytes, and JSON is UTF-8: U+FFFD replaces what is no UTF-8, as in
//!   `String::from_utf8_lossy`. In a URI each such byte is escaped.
//!
//! # Where to change what
//!
//! - a member of a head: `head.rt` and `specs/Heads.antt`
//! - a member of an entry or an event: `entry.rt`, `event.rt`, `specs/Entries.antt` and
//!   `specs/Events.antt`
//! - a member of a fault: `fault.rt` and `specs/Faults.antt`
//! - a rule of SARIF: `rule.rt` and `specs/Rules.antt`
//! - a member or the message of a finding, or its run: `result.rt`, `flow.rt` and
//!   `specs/Results.antt`
//! - what precedes and follows the findings: `document.rt` and `specs/Documents.antt`
//! - how values are written: `value.rt` and `specs/Members.antt`
#![tactic(auto)]

mod document;
#[cfg(test)]
mod document_tests;
mod entry;
mod event;
mod fault;
mod flow;
mod head;
pub mod laws;
mod location;
mod part;
mod printing;
mod result;
mod rule;
#[cfg(test)]
mod tests;
mod uri;
mod value;

pub use document::{
    Ending, Failure, ScannedFile, print_finding, print_sarif_end, print_sarif_head, steps_text,
};
pub use entry::{Entry, ListedScenario};
pub use event::{Event, EventKind, EventNumber, Message, Position, Statement};
pub use fault::{Fault, FaultNote, FaultPosition, Refusal};
pub use flow::Step;
pub use head::{Checked, CheckedChart, CheckedDiagram, Counts, Head, Link, Opening};
pub use location::Region;
pub use printing::{print_end, print_entry, print_head, print_refusal, run_text};
pub use result::{Finding, Level, Mark};
