//! Texts that the program prints: canonical texts, verdicts, races, executions and fault lines.
//!
//! Each call writes exactly its text or answers an `io::Error`; no contract says how much was
//! written before an error. The contracts cite definitions of these texts. Only the calls of
//! `EventTexts` and [`ring_steps`] take memory, beyond what the writer does. Events are numbered
//! from 0, over all lines.
//!
//! # Choices
//!
//! - Parameters of messages are not printed, since a chart does not keep them.
//! - The lines of a verdict are made from the texts of events, which [`EventTexts`] makes once:
//!   such lines may be gigabytes. An explanation has one run, which `write_run` prints. Contracts
//!   say that both print the same (`run_line`).
//! - Places, and whether runs are in words, are data besides the chart ([`Style`]). So a renderer
//!   knows no text.
#![tactic(auto)]

mod counts;
mod editor;
mod event_position_texts;
mod event_texts;
mod fault;
mod following;
mod instance;
mod lines;
mod link;
mod links;
mod list;
mod mark;
mod names;
mod pair;
mod race;
mod race_line;
mod ready_format;
mod reasons;
mod rounds;
mod stale;
mod sticks;
mod style;
mod trace;
mod two_rounds;
mod verdict;
mod writing;

pub use counts::{Counts, write_ready_tally, write_tally};
pub use editor::{Editor, EditorLines};
pub use event_texts::EventTexts;
pub use fault::Fault;
pub use following::{ring_steps, write_follows, write_never};
pub use instance::write_instance_fault;
pub use lines::Lines;
pub use link::{RulesOf, write_link_fault, write_queues_fault};
pub use links::{write_queues, write_queues_line};
pub use list::write_list;
pub use mark::write_mark_fault;
pub use names::EventNames;
pub use pair::{EventName, NamedFault, write_pair_fault};
pub use race::write_race;
pub use ready_format::ReadyFormat;
pub use reasons::write_explained;
pub use rounds::{RoundEditor, RoundLines, RoundNames, write_again_count};
pub use sticks::{OneRound, write_ready_head};
pub use style::Style;
pub use trace::write_trace;
pub use two_rounds::write_unroll_fault;
pub use verdict::write_verdict;
pub use writing::{write_draft, write_fault};
