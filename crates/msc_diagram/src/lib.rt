//! Prints the races of a diagram's scenarios, each once, and the lines of faults of imports and of
//! marks.
//!
//! # Choices
//!
//! - A race of a diagram is told apart by its two places: its instance, and the position and the
//!   end of each arrow. Scenarios give the same race other events, and rounds other names. A lost
//!   arrow has the place of its output, so a race is printed once if the arrow is lost in one
//!   scenario and arrives in another.
//! - Numbers over all scenarios count places; pairs of events would count how often a block is met.
//!   `races N` of a scenario counts pairs, as `check` of its chart does.
//! - A place is allowed only if all its races are, in every scenario. So no filter hides a place
//!   with a race that counts, and such a race is listed in the next scenario in which it counts.
//! - With `--allow`, `--closest` or `--accept`, and always for people, the scenarios are judged
//!   twice: first for the numbers above them and the stale marks, then for the list. Only places and
//!   numbers of marks are kept in between, and a proof says that both find the same.
//! - Which races of a scenario are new depends on the earlier ones, so they are made as a list
//!   before they are printed. Their places are kept anyway, some 70 bytes for each.
//! - A scenario and its chart are kept by the source, or made when it is printed and dropped before
//!   the next, as its order is. If memory runs out in between, contracts speak of the scenarios so
//!   far.
//! - `--most` shortens only the list: `listed L`, the heads of scenarios and the status stay.
//! - A run is printed only with `--show`, `--words` or `--short`: runs of all scenarios are long.
//! - Parallel branches drawn one below the other are found by planning each walk again with such
//!   branches refused, as the definition says it.
#![tactic(auto)]

mod answer;
mod arrows;
mod cases;
mod check;
mod closing;
mod counting;
mod fault;
mod first_listed;
mod full;
mod heads;
mod judging;
pub mod laws;
mod lent;
mod marked;
mod numbers;
mod passing;
mod place;
mod reported;
mod scenario;
mod source;
mod stale;
mod tally;
mod telling;

pub use arrows::{arrows_of, rounds_of};
pub use check::{ScenarioCheck, UsedMarks};
pub use closing::has_marks;
pub use fault::{write_accept_fault, write_import_fault};
pub use first_listed::new_races;
pub use full::FullDiagram;
pub use heads::write_diagram_top;
pub use judging::{DiagramFormat, DiagramStyle, Judged, judge_scenarios};
pub use lent::Lent;
pub use passing::scenarios_pass;
pub use scenario::Scenario;
pub use source::Source;
