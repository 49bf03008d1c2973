//! Rules on links: from names and kinds to the queues of a system.
//!
//! A link is an ordered pair of instances. A rule is a kind and the text of LINK, which names all
//! links to an instance (`NAME`) or one link (`NAME>NAME`). [`queues_of`] returns the architecture
//! that two lists of rules give, those of a text and those of a command line, or the first fault.
//!
//! [`own_queues`] reads the rules that a text has in a comment of its own, and [`own_said`] prints
//! them. [`print_queues`] and [`print_queue_options`] print an architecture, in words and as options
//! of a command line; [`print_queues_named`] prints it with other names than those of the chart.
//!
//! Lines are numbered from 0, in the order of their names. [`queues_of`] takes no memory.
//!
//! # What to change here
//!
//! - a form of LINK: [`spelling`], and `specs/Names`;
//! - which names a line has: [`line`], and `line_of` of `specs/Links`;
//! - a fault, or the order of faults: [`fault`] and [`link`], `fault_of` of `specs/Rules`;
//! - which rule wins: [`queues`], and `ruled_kind` of `specs/Rules`;
//! - what a comment may say: [`comment`], and `specs/Comments`;
//! - which links of an architecture are listed: [`listing`], and `specs/Listed`;
//! - the texts of an architecture and of rules: [`said`], and `specs/Said`.
//!
//! # Choices
//!
//! - Each list has a table of kinds, so the time is linear in the number of rules.
//! - A fault of a list that both the text and the command line could have says which list it is in
//!   ([`RulesFault`]): a fault of a text has a place.
#![tactic(auto)]

mod blank;
mod comment;
mod fault;
pub mod laws;
mod line;
mod link;
mod listing;
mod queues;
mod rule;
mod said;
mod spelling;
mod table;
#[cfg(test)]
mod tests;

pub use comment::{OwnFault, OwnQueues, own_queues, own_queues_of_chart};
pub use fault::{LinkFault, RulesFault};
pub use line::LineNames;
pub use link::Link;
pub use listing::{ListedLink, are_alike};
pub use queues::queues_of;
pub use rule::{Rule, same_kind};
pub use said::{own_said, print_queue_options, print_queues, print_queues_named};
