//! Answers: what the program prints for a task on a text, and its exit status.
//!
//! A [`Task`] is what a command line requests, as plain data; `msc_command` makes it of words.
//! [`perform`] reads the input once and prints the answer or the refusal.
//!
//! # Choices
//!
//! - A [`Recorded`] writer keeps why it failed, for the note `output: CAUSE`: the faults of answers
//!   carry no cause.
//! - `perform` prints the notes on a refusal, since it has the text. If memory runs out there, the
//!   line of the refusal stays alone, and the status stays.
//! - With `--format lines` a refusal is on both streams: editors read only the output. Its
//!   lines are made as a whole before they are written, and the contract is about the first
//!   (`IsRefusalText`, `specs/Refused`).
//!
//! # Where to change what
//!
//! - what a task is: `tasks`; which function answers it: `answering`
//! - commands on a chart: `chart_answers`; events by their names: `naming`; ready instances: `readied`
//! - all scenarios of a diagram: `scenarios`; all diagrams of a Markdown text: `surveying`
//! - pictures and reports: `drawing`, `reporting`; imports: `importing`
//! - queues by rules and by what a text says: `links`, `own`
//! - refusals: their lines and statuses in `ending`, notes in `notes`, lines for editors in `refused`,
//!   words in `refused_words`
#![tactic(auto)]

mod answering;
mod arrow_marks;
mod chart_answers;
mod choices;
mod drawing;
mod ending;
mod importing;
mod links;
mod marked;
mod naming;
mod notes;
mod output;
mod own;
mod readied;
mod recorded;
mod refusal_output;
mod refused;
mod refused_words;
mod reporting;
mod rounds;
mod scenarios;
mod shown_diagram;
mod sited;
mod surveying;
mod tasks;
mod text_chart;
mod verdicts;
mod version;

pub use answering::perform;
pub use arrow_marks::{RefusedMark, marks_of_diagram};
pub use chart_answers::Checked;
pub use choices::{gives_choices, gives_rounds, title_of};
pub use ending::{Refusal, Status, end_with, is_spent, write_refusal};
pub use links::{names_in, names_of, queues_at, queues_in};
pub use notes::{write_cause, write_notes};
pub use own::{LinkRefusal, OwnPlace, chart_is_silent, diagram_is_silent};
pub use recorded::{Recorded, ShowsColours, TellsFailure};
pub use refusal_output::end_unread_task;
pub use refused::refusal_lines;
pub use refused_words::{refusal_words, unread_words};
pub use scenarios::{Charts, Surveyed, Told, diagram_of, scenarios_of};
pub use shown_diagram::{DiagramText, block_line};
pub use surveying::{diagram_at, numbered, of_block, worse};
pub use tasks::{
    ChartCommand, CheckArgs, ChosenArgs, DiagramArgs, Drawn, EventStyle, ExplainArgs, FollowArgs,
    Format, GREATEST_LIMIT, ImportArgs, LinkWords, QuietArgs, ReadyArgs, RefusalForm, ReportArgs,
    Request, ReverseArgs, ScenarioArgs, Task, TextArgs, form_of, is_full,
};
pub use text_chart::TextChart;
pub use verdicts::{Subject, Verdict, check_under};
pub use version::VERSION;
