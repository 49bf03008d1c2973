//! What the marks of a diagram accept of the races of its scenarios, and which marks accept none.
//!
//! [`ScenarioMarks`] has the marks of a diagram and the statements that draw the events of one of its
//! scenarios. A mark that accepts no race of any scenario is idle: [`idle_marks`] has those that may
//! be, and [`ScenarioMarks::keep_idle`] drops those that accept a race of a scenario.
//!
//! Statements, events and marks are numbered from 0.
//!
//! # Choices
//!
//! - All races of a scenario are listed first, 8 bytes for each: two questions are asked of them,
//!   which are accepted and which marks accept one.
#![tactic(auto)]

mod accepting;
mod idle;
mod places;
mod races;

pub use accepting::ScenarioMarks;
pub use idle::idle_marks;
pub use places::{mark_place, position_at};
pub use races::all_races;
