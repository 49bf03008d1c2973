//! Races and runs of a chart under an architecture.
//!
//! [`check`] computes whether a chart has races, and which. [`Enforced`] is a chart under an
//! architecture with its enforced order; [`Enforced::reversing_run`] and
//! [`Enforced::short_witness`] show that a race happens. The runs, the enforced order, races and
//! the witness are defined in
//! `msc_chart`, the short witness in `specs/Short`; the laws connect them. The terms are from Z.120;
//! races are after Alur, Holzmann and Peled (1996), the enforced order, the witness and the
//! short witness are this project's own. Events are numbered from 0, over all lines.
//!
//! # Choices
//!
//! - Segments do not decrease along a line, so the events drawn after an event are a range of
//!   numbers. Races are the zeros of a row in this range, and whole words of ones are skipped.
//!   `push_word` and `lowest` walk over bits themselves instead of calling `bit_rows`: this loop is
//!   their purpose.
//! - A witness depends on its first event only. So it is made once for all races of that event.
//! - A short witness depends on both events, and ends with the second. Only the order of a queue
//!   can block it: an output of the past whose input is not of the past waits for the other outputs
//!   of its queue. If such outputs wait in a ring, the witness up to the second event is shown. The
//!   code does not try whether another order of the past is a run; none of 66 such pairs in charts
//!   made for this had one.
//! - For each queue the code keeps a number below which no output is left whose input is of the
//!   past. It only grows. So a short witness takes the steps of a witness, and at most 32 walks
//!   over the events.
#![tactic(auto)]

mod beginning;
mod choosing;
mod enforced;
pub mod laws;
mod lines;
mod needing;
mod queued_run;
mod racing;
mod remaining;
mod reversing;
mod rows;
mod short;
mod shortening;
mod shown;
mod spans;
mod verdict;

pub use enforced::Enforced;
pub use racing::{Walk, count_races, races};
pub use verdict::{Verdict, check};
