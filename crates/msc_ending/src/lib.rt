//! How a run on threads ends: the run of an instance, and the start of all of them.
//!
//! [`End`] is how the run of one instance ended, [`RunFault`] why a chart was not run. They are
//! data of the model and need neither queues nor threads, so the crates that print them depend on
//! neither. Messages and instances are numbered as in the chart, from 0.
#![tactic(auto)]

mod end;
mod fault;

pub use end::End;
pub use fault::RunFault;
