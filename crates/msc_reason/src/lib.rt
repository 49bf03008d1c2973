//! Which races of a chart to look at, and why they are races.
//!
//! A [`Listing`] enumerates the races that count, or the closest of them, event by event. If all
//! races count, the closest ones are those between whose events nothing is drawn: every race spans
//! one of them. [`cause_of`] returns the kind of a race, and the one pair of events that would have
//! to be enforced for it to be no race. [`explain`] returns why a pair of events is enforced, or a
//! run that reverses it. Races are after Alur, Holzmann and Peled (1996); closest races, kinds,
//! lacks and chains are this project's own. Events are numbered from 0, over all lines.
//!
//! # Choices
//!
//! - There may be several reasons why a pair is enforced, and `IsChosenWhy` (`specs/Rules`) chooses
//!   one. So a second program can compute what is printed.
//! - The accepted races are a set of pairs ([`Pairs`]). So this crate does not depend on texts,
//!   each race is looked up in the marks once, and a check without marks has no set.
//! - A [`KindSet`] has a flag for each kind: a check looks up the kind of up to half a million
//!   races.
//! - [`pair_fault`] refuses two numbers that are not two events, before anything is explained. They
//!   are no `Fault`, so no call without a pair can return such a fault.
#![tactic(auto)]

mod cause;
mod chaining;
mod counting;
mod explaining;
mod kinds;
mod lacking;
pub mod laws;
mod left_out;
mod marks;
mod pair;
mod pairs;
mod reason;
mod selecting;
mod why;

pub use cause::{Cause, RaceKind};
pub use chaining::why_of;
pub use counting::counts;
pub use explaining::explain;
pub use kinds::KindSet;
pub use lacking::{cause_of, is_race, kind_of};
pub use left_out::LeftOut;
pub use pair::{PairFault, pair_fault};
pub use pairs::Pairs;
pub use reason::Reason;
pub use selecting::{Listing, Stream, count_counting, none_counts};
pub use why::Why;
