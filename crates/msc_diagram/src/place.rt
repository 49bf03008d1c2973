//! Places of events in a diagram. Events of two scenarios have one place if one arrow draws them.

ghost use Rattle.std.specs.Prelude.{◌≡◌, ℕ, ◌<◌, IfOk, get_or, length};
ghost use Rattle.msc_diagram.specs.Places.{place_of, AreAllPlaces};

use crate::scenario::Scenario;
use std::alloc::{AllocError, Global};

/// The place of an event: its instance, from 0, whether it is an output or an action, and the
/// position of its arrow. So an arrow that is lost in one scenario and arrives in another has one
/// place at its sender.
#[derive(Clone, Copy, PartialEq, Eq, Hash)]
pub(crate) struct EventPlace {
    pub instance: u32,
    pub acts: bool,
    pub line: usize,
    pub column: usize,
}

impl EventPlace {
    /// The place of event `e` of a scenario. It takes no memory.
    fn of(scenario: &Scenario<'_>, e: u32) -> EventPlace
        requires { e < length scenario.now.chart.events }
        ensures { result ≡ place_of scenario.now e }
    {
        let chart = &scenario.chart;
        let position = scenario.event_positions.position(e);
        EventPlace {
            instance: chart.instance_of(e),
            acts: chart.is_controlled(e),
            line: position.line,
            column: position.column,
        }
    }
}

/// The places of all events of a scenario, in their order. An error is a growth of memory that was
/// refused.
pub(crate) fn places_of(
    alloc: Global,
    scenario: &Scenario<'_>,
) -> Result<Vec<EventPlace>, AllocError>
    ensures { IfOk result (λ places. AreAllPlaces scenario.now places.items) }
{
    let events = scenario.chart.events();
    let mut places = Vec::with_capacity(alloc, events as usize)?;
    for e in 0..events {
        places.push(EventPlace::of(scenario, e))?;
    }
    Ok(places)
}
