//! Systems whose instances are ready: each takes a message only after all that is drawn before it
//! has happened, and leaves the others in their queues. Can such a system blocked pair?
//!
//! The definitions are this project's own; the terms are from Z.120. Events are numbered from 0,
//! over all lines.
//!
//! # Choices
//!
//! - The ready order is kept as rows if some instances are named: it is looked up for each pair of
//!   a line and, in a run, for each event that may come next. If all instances are ready, it is the
//!   visual order, and there are no rows.
//! - Whether a blocked pair between two rounds is first is decided among all blocked pairs of two
//!   rounds: its run is one of two rounds, and a blocked pair of either round may come first in it.
//! - The search for the next event of a run goes line by line, each from its first event that is
//!   left. On a ready line it ends at an event that may not come. So a run takes a few look-ups for
//!   each event, instead of one for each event of the chart.
#![tactic(auto)]

mod beginning;
mod blocked_pairs;
mod finishing;
pub mod laws;
mod leaving;
mod queue_numbers;
mod ready;
mod rounds;
mod rows;
mod running;
mod sticking;

pub use blocked_pairs::BlockedPairs;
pub use ready::Ready;
pub use rounds::RoundBlockedPairs;
