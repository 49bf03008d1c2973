//! Scans: all charts and sequence diagrams of files and folders, checked in one run.
//!
//! [`scan`] finds the files of its paths, checks each text as `check` does, and prints what it finds
//! in the order of the files. A text is a chart, a sequence diagram, or Markdown with sequence
//! diagrams; it has the queues that it names itself, or those of the architectures of the words.
//!
//! Where to change what: what the words say is in `words`; what a text holds in `holding`; charts in
//! `charts`, diagrams in `diagrams`; their queues in `queues`; what is printed of a verdict in
//! `putting`, of a refusal in `refusing`, of a path that fails in `failing`; files in `files`, with
//! threads in `rounds`, and all paths in `paths`; the numbers in `tally` and `progress`, and the lines that say them in
//! `last_lines`.
//!
//! # Choices
//!
//! - A contract says what was printed if the scan came to its end. If memory runs out or the output
//!   fails, the status is that of a failure, and nothing is promised of what went out before.
//! - A verdict is printed on a page, since only then is it known whether it is shown. One that is too
//!   long for that is shown, and made again straight to the output; so is what is printed of a file.
//! - What a file holds is not known to a contract: it speaks of some text of each file.
//! - A refusal comes of the text and its marks, so it comes under the first architecture.
#![tactic(auto)]

mod charts;
mod diagrams;
mod failing;
mod files;
mod holding;
mod last_lines;
mod naming;
mod outcome;
mod page;
mod paths;
mod progress;
mod putting;
mod queues;
mod refusing;
mod rounds;
mod tally;
mod texts;
mod words;

pub use files::ReadsFiles;
pub use outcome::Outcome;
pub use paths::scan;
pub use tally::Tally;
pub use words::{Architecture, ScanArgs};
