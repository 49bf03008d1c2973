//! What findings show of a diagram: what people call its lines and arrows, and where these stand in
//! the text; the choices of a scenario in words; and the events of a scenario.
//!
//! [`DiagramWords`] owns the texts of a diagram, made once for all of its scenarios. [`LentDiagram`]
//! lends them, and [`ScenarioEvents`] are the events of one scenario. [`choices_said`] names the
//! choices of a scenario, and [`queues_said`] prints an architecture. Lines, statements and events are numbered from 0, lines of the text and
//! rounds of loops from 1; places are bytes of the text, from 0. Contracts see texts as their bytes.
//!
//! # Choices
//!
//! - The block of a choice is found by the walk that makes scenarios: with the choices before it and
//!   one that no block has, the walk stops there. So there is no second walk that could disagree.
//! - Labels are taken from the text by their places, since an arrow has blanks for their entities.
#![tactic(auto)]

mod branches;
mod choices;
mod lent;
mod loops;
mod queues;
mod shown;
mod span;
#[cfg(test)]
mod tests;
mod words;

pub use choices::choices_said;
pub use lent::{LentDiagram, ScenarioEvents};
pub use queues::queues_said;
pub use words::{ArrowWords, DiagramWords};

/// A choice that no block has.
const NO_CHOICE: usize = usize::MAX;
