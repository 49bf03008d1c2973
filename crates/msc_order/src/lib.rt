//! Orders of a chart's events, as rows of bits.
//!
//! [`Order::visual`] is the visual order of Alur, Holzmann and Peled (1996), [`Order::enforced`]
//! the order that lines, messages and queues of an architecture enforce. Events are numbered from
//! 0, in the order of the text.
//!
//! # Choices
//!
//! - Contracts see a table of truth values and no words. Rows of words are about thirty times as
//!   fast, and were as easy to prove.
//! - The rule of queues is applied once, after all other rules, and takes in whole rows. An input
//!   that took in only the inputs of its queue, without the rows after them, would be wrong
//!   (`must-fail/queue_rule_once`).
//! - The row that an input takes in by the rule of queues is kept for the next output: outputs of a
//!   coregion mostly share it. Two coregions of 512 outputs took 12 times as long without that.
#![tactic(auto)]

mod closing;
mod order;
mod queueing;
mod segments;

pub use order::Order;
