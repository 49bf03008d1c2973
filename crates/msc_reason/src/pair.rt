//! Whether two numbers are two events of a chart.

ghost use Rattle.std.specs.Prelude.{◌≡◌, MatchOption};
ghost use Rattle.msc_reason.specs.Pairs.{AreTwoEvents, IsPairFault};

use msc_chart::{Chart, Event};
use thiserror::Error;

/// Why two numbers are not two events of a chart. The first of these faults is returned, in this
/// order: the first number is no event, the second is no event, both are one event.
#[derive(Clone, Copy, Debug, PartialEq, Eq, Error)]
pub enum PairFault {
    /// No event of the chart has this number.
    #[error("no event {0}")]
    NoEvent(u32),
    /// Both numbers are this one.
    #[error("{0} and {0} are one event")]
    OneEvent(u32),
}

/// Why two numbers are not two events of a chart, if they are not. It takes no memory.
pub fn pair_fault(chart: &Chart, e: Event, f: Event) -> Option<PairFault>
    ensures { MatchOption result (AreTwoEvents chart.now e f) (IsPairFault chart.now e f) }
{
    if e >= chart.events() {
        return Some(PairFault::NoEvent(e));
    }
    if f >= chart.events() {
        return Some(PairFault::NoEvent(f));
    }
    if e == f {
        return Some(PairFault::OneEvent(e));
    }
    None
}
