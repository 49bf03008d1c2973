//! Whether a drawing can happen: whether some whole run of a chart keeps the drawn order.
//!
//! In such a run an event comes before another if a *step* leads from it to the other
//! (`specs/Steps`): an output to its input, an event to one that is drawn after it, or an output to
//! another of its queue whose input is drawn after its own. Some whole run keeps the drawn order if
//! and only if the steps have no ring. Steps are this project's own; the drawn order is from Z.120
//! and from Alur, Holzmann and Peled (1996). Events are numbered from 0, over all lines.
//!
//! # Choices
//!
//! - The run is made first, by `Ready::finishing_run` with all instances ready. A table of steps is
//!   needed only if it is not whole.
//! - The ring goes through the least event that is on a ring. The closed table of steps finds that
//!   event: it takes a merge of two rows for each pair of the closed table. A search for a ring
//!   through one event after the other would take the square of the number of events for each.
#![tactic(auto)]

mod closing;
mod following;
pub mod laws;
mod table;

pub use following::{Followed, follow};
