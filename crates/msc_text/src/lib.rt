//! Answers in bytes: the canonical text of a draft, the races of a chart, the reason for a pair of
//! its events, a run that keeps its drawing, its blocked pairs and its list of events.
//!
//! # Choices
//!
//! - This crate has the calls that need only a chart and its text, apart from `msc_tool`: they and
//!   their edits are checked without queues, threads and executions.
//! - Races are counted before the first byte, and made as they are printed. All races of a chart
//!   can be megabytes, and their runs gigabytes, but counting takes less than a fiftieth of
//!   printing.
//! - Sticks are printed in the same way. Before the first byte it is known whether some run is
//!   whole, and there are two tables as long as the chart. Each first blocked pair has exactly one
//!   run (`each_first_blocked_pair_has_one_run`), so contracts can speak of a beginning of the
//!   answer. Its run depends on its second event only, and is kept: at most 1,024 runs, and mostly
//!   a few.
//! - An explanation is printed as a whole: a chain has at most some 3,000 lines.
#![tactic(auto)]

mod blocked_pairs;
mod explaining;
mod following;
mod judging;
mod left;
mod listing;
mod readying;
mod sources;
mod stick_format;
mod text;

pub use explaining::explain_pair;
pub use following::follow_drawing;
pub use judging::{ChartFormat, CheckInput, Judged, judge_chart, passes_chart};
pub use listing::list_chart;
pub use readying::{ReadyQuery, write_ready};
pub use stick_format::StickFormat;
pub use text::write_reading;
