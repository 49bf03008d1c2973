//! What people call the instances, messages and steps of charts and diagrams.
//!
//! A message of a chart is called by its identifier, and a step by its text; an arrow of a diagram
//! by its label as people read it (`msc_spoken`). Such a text stands between quotes. An arrow or a
//! step without one is called by the line of the text on which it stands, from 1. Instances are
//! numbered from 0. Contracts see texts as their bytes.
//!
//! # Choices
//!
//! - A text that has a double quote stands between apostrophes, so that the reader sees where it
//!   ends.
//! - Two lines of a diagram that would be called the same are told apart by their identifiers.
#![tactic(auto)]

mod message;
mod names;
mod quoting;
#[cfg(test)]
mod tests;

pub use message::{action_said, label_said, message_said};
pub use names::{LineName, ident_said, line_names};
pub use quoting::quoted;
