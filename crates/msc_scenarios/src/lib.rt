//! Scenarios of a diagram: its paths through its blocks.
//!
//! A walk goes through a diagram's statements and takes a choice at each block that has one
//! ([`Walker`]); its steps are a path. Paths are counted ([`scenarios`]) and listed by their
//! choices ([`all_choices`]). A path names its messages, and lines get the names of instances
//! ([`names_of`]). Choices and instances are numbered from 0, rounds of loops from 1.
//!
//! Where to change what: each kind of block has its case in `steps`, `walking`, `counting` and
//! `choosing`, by its `Passage`; names are made in `naming` and `line_name`.
//!
//! # Choices
//!
//! - A scenario is defined in three forms. `specs/Choosing` lists choices as the code does,
//!   `specs/Steps` walks as the code does, and `specs/Histories` is a relation with a rule for
//!   each kind of block. Laws state that they agree, so a mistake would have to occur three times.
//! - A history includes whether a break ended it. The law on arrows outside all blocks is about
//!   histories that no break ends: a `break` inside an `alt` ends that branch only.
//! - A list of choices has at most 65,536 (`CHOICE_LIMIT`), since loops in loops make choices for
//!   up to 1,024 times 1,024 rounds. A longer list is refused as if memory ran out, before it takes
//!   any. Import fault 15 would say more, but it names an arrow, which only a walk finds, and a
//!   walk needs the list. A walk with a part of the list would do, with a proof that it begins the
//!   walk with the whole list. That is open.
#![tactic(auto)]

mod choosing;
mod counting;
pub mod laws;
mod line_name;
mod naming;
mod path;
mod steps;
mod walking;

pub use choosing::all_choices;
pub use counting::scenarios;
pub use line_name::{kind_of, names_of};
pub use naming::made;
pub use steps::{Ending, Message, Step, joint};
pub use walking::Walker;

/// The greatest number of arrows of a scenario.
pub const ARROW_LIMIT: usize = 1024;

/// The greatest number of rounds of a loop.
pub const ROUND_LIMIT: usize = 1024;

/// The greatest number of scenarios that are counted.
pub const SCENARIO_LIMIT: usize = 4096;

/// The greatest number of choices of a scenario, if all scenarios are made.
const CHOICE_LIMIT: usize = 65_536;
