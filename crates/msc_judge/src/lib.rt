//! Judging a chart under an architecture: its races as findings, in order, printed by a renderer.
//!
//! A source of races knows no texts, and a renderer does not know how an answer was found. A
//! renderer prints the heading, each finding and the end. The texts of a race are in `rows.rt`;
//! `msc_reason` decides which races are listed.
//!
//! # Choices
//!
//! - One call judges for all options and formats: it counts, and then walks once more. So a format
//!   is a renderer, and no option has a path of its own.
//! - Only the first event of a race decides its witness, so the rows keep the line of the last
//!   run.
//! - Between two rounds a race is closest among all races of both rounds, of whatever kind; kinds
//!   are left out after that. A choice among the races that count would have to list pairs over
//!   many segments, and laws of n rounds are about all kinds.
#![tactic(auto)]

mod again;
mod heading;
mod judging;
mod marking;
mod options;
mod races;
mod renderer;
mod rounds;
mod rows;
mod silent;
mod texts;

pub use again::judge_rounds;
pub use judging::{RaceCheck, judge};
pub use marking::Marking;
pub use options::CheckOptions;
pub use races::ListedRaces;
pub use renderer::{Finding, Heading, Renderer, Totals};
pub use rounds::Rounds;
pub use rows::{RaceRows, ShownRun};
pub use silent::Silent;
