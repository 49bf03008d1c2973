//! Laws of imports, above the definitions of diagrams and of charts.
//!
//! `msc_import` walks a scenario of a diagram arrow by arrow, and its draft becomes a chart
//! ([`msc_chart`]). The laws of this crate are about these charts: they are drawn from top to
//! bottom, each arrow below those above it in the text. This crate runs nothing.
//!
//! # Choices
//!
//! - An event has a height: four times the number of its arrow in the path, and two below that
//!   for an input. Of an arrow with two heads, the second output is between the first output and
//!   its input, and the second input is below that. Laws of charts need only four facts: no two
//!   events are at one height, each line goes down, an input is two below its output, and an output
//!   between these is on another line.
//! - Two messages of an import differ in their names or numbers, since neither is cut. A number has
//!   at most 7 digits, as a text has at most 1,048,576 bytes, and at most 11 rounds of 4 digits:
//!   fewer than 64 bytes. A made name has at most 57 bytes, and the number after it 3.
#![tactic(auto)]

pub mod laws;
