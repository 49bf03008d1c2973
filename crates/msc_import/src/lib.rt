//! Imports: from a sequence diagram of another language (Mermaid, also in Markdown) to the drafts
//! of charts.
//!
//! A text has diagrams (`msc_markdown`), each of which is read (`msc_mermaid`); a diagram has
//! paths (`msc_scenarios`), and a path is drawn as a draft. So an import has two steps: [`read`], and
//! [`draw_chosen`] or [`draw_all`]; [`import`] takes both. Lines and columns of a text are numbered
//! from 1, arrows from 1, choices and instances from 0.
//!
//! # Choices
//!
//! - All lines take a step of a path together, the first line first (`specs/Plans`). So of
//!   several `par`s that are no coregion, the fault names the one that ends first, and its first
//!   line.
//! - `--par drawn` acts on a line, not on a whole `par`: a line on which its branches are a
//!   coregion keeps it. So no order is drawn that a chart can leave open.
//! - The text of each draft is written once, and its length is checked. The limits leave no draft
//!   that is too long, but no bound of its text is proved; with the check, the clause `again` needs
//!   no premise.
//! - A fault has a name as an array of bytes ([`ShortName`]): refusals are copied and take no
//!   memory.
//! - All scenarios are tried before the first is used ([`Drawings`]). They are kept if they have
//!   few events; if not, only the first is, and the others are drawn again when they are taken.
//! - [`Language::Any`] is Mermaid so far. If no line begins a diagram, the fault is on the first
//!   line that is not blank: a diagram was expected there.
#![tactic(auto)]

mod drafting;
mod drawing;
mod drawings;
mod importing;
pub mod laws;
mod numbering;
mod placing;
mod plan;
mod short_name;
mod spanning;
mod whole;

pub use drawing::{chart_name, draw};
pub use drawings::{Drawings, Scenario};
pub use importing::{
    DiagramReading, Imported, Importing, Language, Refused, draw_chosen, import, import_from, read,
    read_from,
};
pub use numbering::arrow_numbers;
pub use placing::places;
pub use plan::{Manner, Own, Par};
pub use short_name::ShortName;
pub use spanning::{EventSpans, TextSpans};
pub use whole::{ImportingAll, Scenarios, draw_all};

/// The numbers of rounds of loops with which scenarios are counted.
const SCENARIO_ROUNDS: [usize; 2] = [0, 2];
