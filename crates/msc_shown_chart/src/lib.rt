//! What findings show of a chart: what people call its instances and events, where the statements of
//! events stand in the text, and the marks of the text.
//!
//! [`ChartWords`] owns these texts, made once from a chart and its text. [`LentWords`] lends them,
//! and gives the [`FullFormat`](msc_findings::FullFormat) of a chart. Events and instances are
//! numbered from 0, in the order of the text; places are bytes of the text, from 0, and lines are
//! numbered from 1. Contracts see texts as their bytes.
#![tactic(auto)]

mod lent;
mod marks;
mod shown;
mod words;

pub use lent::{LentWords, lent_names};
pub use marks::{MarkWords, text_end};
pub use shown::shown_as;
pub use words::{ChartWords, EventWords, file_said, position_said};
