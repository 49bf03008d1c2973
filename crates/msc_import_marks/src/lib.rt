//! The marks of a diagram as comments of an imported chart.
//!
//! A mark of an arrow becomes the comment of each event of the arrow. In it, other arrows are named
//! by what the chart calls their messages. So the chart accepts the races that the diagram accepts:
//! of arrows that are actions, at least those.
//!
//! Statements of a diagram and events of a chart are numbered from 0; places are bytes of a text,
//! from 0.
#![tactic(auto)]

mod comment;
mod commented;
mod comments;
mod marked;
mod met;
#[cfg(test)]
mod tests;

pub use marked::{DrawnScenario, with_marks};
pub use met::statement_at;
