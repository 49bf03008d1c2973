//! The positions of the arrows of a scenario's events in the text.

ghost use Rattle.std.specs.Prelude.{◌≡◌, ◌++◌, [], map, IfOk, OnOk};
ghost use Rattle.std.specs.List.{flat_map};
ghost use Rattle.msc_import.specs.Plans.{seen};
ghost use Rattle.msc_mermaid.specs.Gives.{Gives};
ghost use Rattle.msc_import.specs.Places.{place_of, places, places_in, walk_places};

use crate::plan::{Manner, Plan, Planned, plans_of};
use msc_mermaid::{Diagram, ImportFault};
use msc_place::Position;
use msc_scenarios::Walker;
use std::alloc::{AllocError, Global};

/// Appends the positions of these events' arrows.
fn put_places(places: &mut Vec<Position>, events: &[Planned]) -> Result<(), AllocError>
    ensures { OnOk result
        (places.new.items ≡ places.old.items ++ map (λ e. place_of (seen e)) events.now) }
{
    for event in events {
        let Planned { message, side: _ } = *event;
        places.push(Position {
            line: message.line,
            column: message.column,
        })?;
    }
    Ok(())
}

/// The positions of the arrows of the events on all lines.
pub(crate) fn places_in(alloc: Global, plans: &[Plan]) -> Result<Vec<Position>, AllocError>
    ensures { IfOk result (λ v. v.items ≡ flat_map places_in plans.now) }
{
    let mut places = Vec::new(alloc);
    for plan in plans {
        put_places(&mut places, plan.events())?;
    }
    Ok(places)
}

/// The positions of the arrows of a walk's events.
#[tactic(auto, unfolding(crate::specs::Places::walk_places))]
fn walk_places(alloc: Global, manner: Manner, walker: &Walker) -> Result<Vec<Position>, ImportFault>
    ensures { Gives (λ v. v.items) result (walk_places manner walker.now) }
{
    let plans = plans_of(alloc, manner, walker.lines().len(), walker.steps())?;
    walker.whole()?;
    Ok(places_in(alloc, plans.as_slice())?)
}

/// The positions of the arrows of the events that the draft of a diagram's scenario with these
/// choices has, in their order; or the first fault of the scenario.
#[tactic(auto, unfolding(crate::specs::Places::places))]
pub fn places(
    alloc: Global,
    diagram: &Diagram,
    choices: &[usize],
    manner: Manner,
) -> Result<Vec<Position>, ImportFault>
    ensures { Gives (λ v. v.items) result (places manner diagram.now choices.now) }
{
    let walker = Walker::through(alloc, diagram, choices)?;
    walk_places(alloc, manner, &walker)
}
