//! Instances of a chart on threads: each runs its line by itself, over queues.
//!
//! [`Gate`] decides when an event may happen; [`InstanceEnds`] are an instance's ends of its
//! queues. An instance sends the messages that its line allows, takes those that come, and logs
//! each event; its clock is after Lamport (1978). Instances, events and messages are numbered as in
//! the chart, queues as the architecture numbers them. `msc_execution` defines executions.
//!
//! # Choices
//!
//! - No instance begins before all threads are started. Otherwise instances that wait for each
//!   other, or for one without a thread, would end only when their patience runs out. A thread
//!   checks two flags at most 4,294,967,295 times, since each call but those that join threads has
//!   to return; then it begins without knowing.
//! - No public clause states that the instance in `NotStarted` is the first whose thread was
//!   refused: the library returns only the closure. `run_all` states it as far as it can
//!   (`WasRefused`, `specs/Threads`), and `tools/hostile/threads.py` tests it.
//! - After each round in vain an instance yields its time slice at once. Spinning for some rounds
//!   first was faster only between two instances on several processors, and up to 23 times slower
//!   on one.
//! - The gate is called before an output or an action, and after an input is logged: no gate can
//!   prevent a message that has come.
#![tactic(auto)]

mod active;
mod counting;
mod ends;
mod execution;
mod fitting;
mod gate;
mod journal;
mod line;
mod outlets;
mod round;
mod running;
mod sending;
mod settling;
mod start;
mod taking;
mod threads;
mod wiring;

pub use ends::{InstanceEnd, InstanceEnds};
pub use execution::{Execution, run_chart};
pub use gate::{AlwaysOpen, Gate};
pub use msc_ending::{End, RunFault};
pub use running::run_instance;
pub use wiring::wire;
