//! Findings as people read them: races, instances that can block, charts that can never happen, and
//! stale marks, each as a diagnostic with the lines of the text that it is about, the reason, and
//! what would prevent it.
//!
//! Events are plain data ([`ShownEvent`]): what people call them, and where they stand in the text. So
//! charts and diagrams share all of it. Events are numbered from 0, in the
//! order of the chart.
#![tactic(auto)]

mod block;
mod event;
mod race;
mod ring;
mod stale;
mod step;
mod stick;
#[cfg(test)]
mod tests;

pub use event::{ShownEvent, ShownText};
pub use race::{ShownRace, left_text, race_text};
pub use ring::{never_text, waiting_text};
pub use stale::{StaleMark, stale_text};
pub use step::{ShownStep, StepOrder, chart_steps};
pub use stick::{ShownStick, StickShown, stick_text};
