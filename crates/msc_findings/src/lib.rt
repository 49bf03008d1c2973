//! Findings as people read them: each race as a diagnostic with the lines of the text, stale marks,
//! sticks, and a closing line with what was found.
//!
//! [`FullRaces`] is for the races of a chart, [`FullRounds`] for those between two rounds of it, and
//! [`FullScenario`] for those of a scenario of a diagram. They are renderers of `msc_judge`, next to
//! those of lines and counts. [`ClosingNames`] print the closing line of a diagram, which is about
//! all of its scenarios. A [`FullFormat`] prints sticks, one by one. All diagnostics are those of
//! `msc_full`. Events are numbered from 0, in the order of the chart.
#![tactic(auto)]

mod closing;
mod format;
mod race;
mod races;
mod rounds;
mod run;
mod scenario;
mod sticks;

pub use closing::{ClosingNames, print_diagram_help};
pub use format::{Following, FullFormat, ShownMark};
pub use races::FullRaces;
pub use rounds::FullRounds;
pub use scenario::{FullScenario, LoopRound, ShownScenario};
pub use sticks::FoundStick;
