//! From a draft to its chart: instances, events, messages and actions by number (a basic message
//! sequence chart, ITU-T Z.120).
//!
//! [`Chart::build`] returns the chart of a draft or the draft's first fault, and the methods of
//! [`Chart`] read it. Everything is numbered from 0: instances by their sections, events in the
//! order of the text, messages by their outputs, actions among themselves. Contracts see the lists
//! of all four. The visual order is from Alur, Holzmann and Peled (1996); the enforced order, runs
//! and races of an architecture are defined here too, for the crates above.
//!
//! Limits: [`INSTANCE_LIMIT`] instances, [`MESSAGE_LIMIT`] messages and [`ACTION_LIMIT`] actions.
//!
//! # Choices
//!
//! - [`Chart`] has no architecture, and [`Wiring`] gives the queue of an event: the visual order
//!   and printed texts need only the first. `message` and `partner` return an `Option`;
//!   `message_of` and `other_end` are for callers that know the kind of an event.
//! - An end of a message has a truth value `sends`. It is neither the `Direction` of a statement
//!   nor the `EventKind` of an event, so neither has to match the other.
//! - The set that finds partners holds actions too, each with the number of its event (`Mark`). So
//!   a key that is not new means a repeated event, and an index in the set is an event's number.
//!   Definitions have no such number (`Act`).
//! - A message end hashes each of its names in one write. The byte by byte hashing of a derived
//!   `Hash` took a quarter of the time for a chart with long names.
//! - Code and definition count segments in the same way. The law `items_are_drawn_in_order` states
//!   what segments mean, so its proof would fail for a mistake that both share.
//! - Queues are numbered up to a bound of the architecture (`queue_bound`): 32 if all links are of
//!   the kind `Mailbox`, not 2,080. Tables over queues are the largest that the crates above make.
//! - An architecture is either one kind for all links or a table of kinds ([`Links`]). A table that
//!   has one kind is another value, whose queues are the same (`one_kind_is_the_old_rule`).
//! - Definitions and laws are about n rounds, and [`Chart::two_rounds`] makes two. Message m of the
//!   second round has the name of message m, and a number that follows those of the first round; so
//!   a caller that prints an event of two rounds takes its names from the chart
//!   (`RoundNumbers::place`). The linear order of two rounds is that of the chart, twice, and shows
//!   that no event precedes itself.
//! - `IsDistinct` (`proofs/ListLemmas`) is `IsOnce` from the head of a list on, for induction.
#![tactic(auto)]

mod building;
mod chart;
mod charting;
mod check;
mod cycle;
mod end;
mod event;
mod fault;
pub mod laws;
mod linear;
mod message;
mod numbering;
mod queue;
mod round_numbers;
mod rounds;
mod unrolled;
mod wiring;

pub use chart::Chart;
pub use event::{Event, EventKind};
pub use fault::{ChartFault, UnrollFault};
pub use queue::{LinkKind, Links, Queues};
pub use round_numbers::RoundNumbers;
pub use unrolled::Unrolled;
pub use wiring::Wiring;

/// The greatest number of instances of a chart.
pub const INSTANCE_LIMIT: u32 = 32;

/// The greatest number of messages of a chart.
pub const MESSAGE_LIMIT: u32 = 1_024;

/// The greatest number of actions of a chart.
pub const ACTION_LIMIT: u32 = 1_024;

/// The greatest number of events of a chart: two for each message, and one for each action.
pub const EVENT_LIMIT: u32 = 2 * MESSAGE_LIMIT + ACTION_LIMIT;

/// The limit of the numbers of queues.
pub const QUEUE_LIMIT: u32 = INSTANCE_LIMIT * INSTANCE_LIMIT + INSTANCE_LIMIT + MESSAGE_LIMIT;

/// The greatest number of messages of a chart whose two rounds are a chart.
pub const ROUND_MESSAGE_LIMIT: u32 = MESSAGE_LIMIT / 2;

/// The greatest number of actions of a chart whose two rounds are a chart.
pub const ROUND_ACTION_LIMIT: u32 = ACTION_LIMIT / 2;
