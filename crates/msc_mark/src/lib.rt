//! Marks: races that are accepted, with their reasons, in the chart's text; and the comment after
//! the chart's name.
//!
//! A mark is the comment of an event's statement that begins with `race ok` and has the
//! architectures and the other events that it is for, and a reason. [`Marks::of`] finds the marks
//! of a text, and [`Accepted`] says which races of a chart they accept. Marks are this project's
//! own. [`chart_comment`] finds the comment after the chart's name, in which a text names its
//! queues. Events are numbered from 0, in the order of the text; places are bytes of it, from 0.
//!
//! # Choices
//!
//! - One blank is between two words, and none before `race`, a comma, a semicolon or the colon. A
//!   mark with other blanks is faulty: whoever begins a comment with `race ok` means a mark. So
//!   `race okay` is faulty, but ` race ok: x` and `Race ok: x` are comments.
//! - The first colon ends the parts. So a reason may have any bytes.
//! - A mark may name events that the chart does not have. It fits no race then, and is stale.
//! - A message is named with its message instance name: `END_MARKER` is not `END_MARKER, 2`.
#![tactic(auto)]

mod accepted;
mod after_name;
mod comment;
mod fault;
mod ident;
pub mod laws;
mod mark;
mod marks;
mod named;
mod numbering;
mod place;
mod reading;
mod row;
mod word;

pub use accepted::Accepted;
pub use after_name::{ChartComment, chart_comment};
pub use fault::MarkFault;
pub use mark::Mark;
pub use marks::Marks;
