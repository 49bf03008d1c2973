//! The report of a chart's races, and that of a diagram's scenarios: one page in HTML without external
//! files.
//!
//! Events are numbered from 0, over all lines, and races from 1. The form is this project's own.
//!
//! # Choices
//!
//! - Names, labels and texts are read from the chart's `Scene`. So a report shows what its picture
//!   shows.
//! - A sentence is a list of parts: words, code, and the number of a race. Its bytes are those of
//!   the element with these parts.
//! - The first articles have pictures of runs, as long as these fit into 1,500 rows; the first that
//!   does not fit ends the pictures (`AreDrawn`, `specs/Findings`).
//! - The report of a diagram cuts the findings as people read them into paragraphs (`specs/Paragraphs`).
//!   So its articles are what `check --format full` prints, and this crate depends on no diagram.
#![tactic(auto)]

mod article;
mod diagram;
mod figure;
mod front;
pub mod laws;
mod naming;
mod opening;
mod paragraph;
mod part;
mod races;
mod report;
mod telling;

pub use diagram::{DiagramReport, ReportSection, report_diagram};
pub use report::report_chart;
