//! An execution of a chart, printed with its trace.
//!
//! # Choices
//!
//! - The text of an execution is made as a whole before it is written: a trace has at most 3,072
//!   lines. So nothing was written if memory ran out.
//! - [`gather`](msc_gather::gather) returns a fault if logs have no run, for callers with logs of
//!   their own. A law states that this never happens after an execution.
#![tactic(auto)]

mod running;

pub use running::print_execution;
