//! Draws a chart under an architecture, with the bars of its closest races, or a run that reverses
//! one of its races; in text or in SVG.
//!
//! Events are numbered from 0, over all lines. Both forms are this project's own.
//!
//! # Choices
//!
//! - Closest races come from `msc_reason` event by event, and each segment needs two tables for its
//!   bars. So memory does not grow with the number of races.
//! - [`draw_reversal`] returns none if and only if the pair is no race. It requires two events; its
//!   callers refuse other numbers.
#![tactic(auto)]

mod closest;
mod drawing;
mod marking;
mod notes;
mod numbering;
mod picture_format;
mod reversing;

pub use closest::bars_listed;
pub use drawing::{draw_chart, verdict};
pub use numbering::scene_of_races;
pub use picture_format::PictureFormat;
pub use reversing::draw_reversal;
