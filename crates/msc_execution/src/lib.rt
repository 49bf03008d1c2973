//! Executions of a chart: the logs of its instances, and the run that they make together.
//!
//! An instance of a chart under an architecture has a role: it sends to some queues and takes from
//! others. It logs the events of its line as they come, and leaves its log, its ends of the queues
//! and how it ended (`End` of `msc_ending`). An execution consists of these parts of all instances,
//! with their queues settled. Its events, sorted by keys from its clocks, are a run of the chart.
//! This crate defines executions over plain data and states their laws ([`laws`]); it runs nothing.
//! Instances, events and messages are numbered as in the chart, queues as the architecture numbers
//! them. Clocks are after Lamport (1978), from 0; the places of a queue and the offers made there
//! are this project's own.
//!
//! # Choices
//!
//! - `msc_instance` has the code that runs instances. So a reader of the laws need not know about
//!   threads.
//! - The clocks and slots that an instance read are one record for its whole run (`Reading`), known
//!   only in the proof. With a record for each event, facts about its claims, its clock and its log
//!   would not join.
#![tactic(auto)]

pub mod laws;
