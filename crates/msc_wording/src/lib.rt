//! Findings in words: races, instances that can block, charts that never happen, stale marks, and
//! the closing line of a file.
//!
//! A finding is plain data: what its events do ([`Act`]), what their messages are called, the
//! numbers of their instances, and their lines. Nothing here knows a chart or a diagram, so both
//! have the same sentences. A caller names messages and instances as people read them; what it
//! passes is printed as it is. Sentences have no full stop.
//!
//! Instances are numbered from 0, and lines of a text from 1. An instance whose number is not below
//! the number of names has no name. Contracts see each text as the list of its bytes.
//!
//! # Choices
//!
//! - A long sentence is a function of its parts, such as `both_from`, with a definition of its own.
//!   So each proof is about one sentence or about what its parts are.
//! - Labels of marks are fixed texts, so they take no memory.
//! - The help on an order of two events names only the lines that no mark shows.
//!
//! # Where to change what
//!
//! - what an event does, and has done: `event.rt` and `specs/Events.antt`
//! - the sentence of a race, its labels and its reason: `race.rt` and `specs/Races.antt`
//! - the help on an order of two events: `pair.rt` and `specs/Pairs.antt`
//! - how messages arrive: `way.rt` and `specs/Ways.antt`
//! - instances that can block, rings, runs: `blocked.rt`, `ring.rt`, `run.rt`
//! - scenarios and their choices: `scenario.rt` and `specs/Scenarios.antt`
//! - what is said of a whole text: `checking.rt`, `readying.rt` and `closing.rt`
#![tactic(auto)]

mod blocked;
mod checking;
mod closing;
mod event;
mod number;
mod pair;
mod race;
mod readying;
mod ring;
mod run;
mod scenario;
mod stale;
#[cfg(test)]
mod tests;
mod way;

pub use blocked::{SpokenBlockedPair, blocks_before};
pub use checking::{RacesFound, SpokenCheck};
pub use closing::{MarkedText, bold, closing_line, help_line, refused_verdict, with_queues};
pub use event::{Act, SpokenEvent};
pub use number::plural;
pub use pair::SpokenPair;
pub use race::SpokenRace;
pub use readying::SpokenReadiness;
pub use ring::{RingOrder, SpokenRingStep, never_sentence, ring_notes};
pub use run::{SpokenStep, run_rows};
pub use scenario::{Outcome, SpokenChoice, choices_text, scenarios_text};
pub use stale::{stale_help, stale_sentence};
pub use way::Way;
