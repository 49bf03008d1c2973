//! Calls from the bytes of a text to the bytes of an answer: its canonical text, the verdict on its
//! chart, an execution of its chart and its trace; and reading an input.
//!
//! They are for callers that have a text. The program makes the chart itself, and uses the crates
//! below.
//!
//! # Choices
//!
//! - A law states that an execution always has a trace, so [`run_text`] has no fault for logs
//!   without a run.
#![tactic(auto)]

mod checking;
mod input;
mod reading;
mod running;

pub use checking::check_text;
pub use input::read_all;
pub use msc_report::{Fault, write_draft, write_fault, write_trace, write_verdict};
pub use msc_source::CALL_LIMIT;
pub use reading::read_text;
pub use running::run_text;
