//! Refusals as people read them: for each fault a stage with a number, a sentence, marks in the text,
//! and what helps. `msc_diagnostic` prints them.
//!
//! A fault is shown with what `msc_notes` says of it ([`msc_notes::FaultNotes`]): its place, and notes
//! such as the name that was probably meant. Callers give spans of the text to underline, so nothing
//! here reads a text again. Places are bytes of the text, from 0; events are numbered from 0. Names and
//! identifiers are those of the text. Contracts see a refusal as plain data: `Words` in
//! `specs/Words.antt`.
//!
//! # Choices
//!
//! - A span that no caller knows has no bytes. A mark of it is one column wide.
//! - Bytes of the text and of notes are printed as `msc_spoken` shows them.
//! - Events that wait for each other are a ring, whose diagnostic is in `msc_full`.
//!
//! # Where to change what
//!
//! - faults of tokens and of the grammar: `text_fault.rt` and `specs/TextFaults.antt`
//! - faults of a chart: `chart_fault.rt`, `message.rt`, `specs/ChartFaults.antt` and
//!   `specs/Messages.antt`
//! - faults of rules for links, of comments and of names on a command line: `rule_fault.rt` and
//!   `specs/RuleFaults.antt`
//! - memory and devices: `device_fault.rt`
//! - how a refusal is printed: `printing.rt`
#![tactic(auto)]

mod chart_fault;
mod device_fault;
mod message;
mod printing;
mod rule_fault;
#[cfg(test)]
mod tests;
mod text_fault;
mod told;
mod words;

pub use chart_fault::chart_words;
pub use device_fault::{cause_of, memory_words, reading_words, writing_words};
pub use message::MessageEnd;
pub use printing::words_text;
pub use rule_fault::{
    MarkSlip, instance_words, link_words, mark_words, queues_words, rounds_words,
};
pub use text_fault::parse_words;
pub use told::{has_tag, note_place, note_text};
pub use words::{FaultWords, Span};
