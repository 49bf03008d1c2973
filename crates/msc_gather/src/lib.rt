//! Gathering: from the logs of instances to the run of a chart that has them as its lines.
//!
//! Each instance of a running chart logs its own events in their order. A run whose lines are these
//! logs is a trace of the execution; of all such runs, [`gather`] returns the least, event by
//! event. This crate defines the conditions on logs, and the order of the events in such a run; the
//! laws connect both with runs. Events are numbered from 0, over all lines; there is a log for each
//! instance, by its number. The forms are this project's own.
#![tactic(auto)]

mod fault;
mod gathering;
pub mod laws;
mod linking;
mod marking;
mod merging;

pub use fault::GatherFault;
pub use gathering::gather;
