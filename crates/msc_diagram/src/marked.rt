//! The races of a scenario that marks accept.

ghost use Rattle.std.specs.Prelude.{◌≡◌, IfOk};
ghost use Rattle.msc_race.specs.Views.{races_of};
ghost use Rattle.msc_diagram.specs.Marked.{AreMarked, AreMarkedIf, IsLeftBy, idle_by, uses_by};

use crate::arrows::arrows_of;
use crate::check::{ScenarioCheck, UsedMarks};
use crate::scenario::Scenario;
use msc_chart::Event;
use msc_race::Enforced;
use msc_reason::{KindSet, LeftOut, Pairs};
use msc_scenario_marks::{ScenarioMarks, all_races};
use std::alloc::{AllocError, Global};

/// The races of a scenario, with the marks of its diagram: the statements that draw its events, all
/// its races, and those that are accepted.
#[derive(Drop)]
pub(crate) struct MarkedRaces {
    arrows: Vec<usize>,
    races: Vec<(Event, Event)>,
    accepted: Pairs,
}

impl MarkedRaces {
    /// The races of a scenario with these marks. `enforced` is its chart under the architecture.
    fn of(
        alloc: Global,
        marks: UsedMarks<'_>,
        scenario: &Scenario<'_>,
        enforced: &Enforced<'_>,
    ) -> Result<MarkedRaces, AllocError>
        ensures { IfOk result (AreMarked marks.entry scenario.now enforced.now) }
    {
        let statements = marks.accepted.statements();
        let arrows = arrows_of(alloc, statements, scenario.spans.events.as_slice())?;
        let races = all_races(alloc, enforced)?;
        let drawn = ScenarioMarks {
            accepted: marks.accepted,
            arrows: arrows.as_slice(),
        };
        let accepted = drawn.pairs(alloc, enforced, races.as_slice())?;
        Ok(MarkedRaces {
            arrows,
            races,
            accepted,
        })
    }

    /// Keeps the numbers of the marks that accept none of these races.
    fn keep_idle(&self, idle: &mut Vec<usize>, marks: UsedMarks<'_>)
        ensures { idle.new.items ≡ idle_by marks.entry self.now idle.old.items }
    {
        let drawn = ScenarioMarks {
            accepted: marks.accepted,
            arrows: self.arrows.as_slice(),
        };
        drawn.keep_idle(idle, marks.chosen, self.races.as_slice());
    }
}

/// The races of a scenario with these marks, if marks are used.
pub(crate) fn marked_races(
    alloc: Global,
    check: ScenarioCheck<'_>,
    scenario: &Scenario<'_>,
    enforced: &Enforced<'_>,
) -> Result<Option<MarkedRaces>, AllocError>
    ensures { IfOk result (AreMarkedIf check.entry.marks scenario.now enforced.now) }
{
    match check.marks {
        Some(marks) => Ok(Some(MarkedRaces::of(alloc, marks, scenario, enforced)?)),
        None => Ok(None),
    }
}

/// The races that are left out: those of these kinds, and those that marks accept.
pub(crate) fn left_out<'r>(kinds: KindSet, marked: Option<&'r MarkedRaces>) -> LeftOut<'r>
    ensures { IsLeftBy kinds marked.entry result }
{
    match marked {
        Some(marked) => LeftOut {
            kinds,
            accepted: Some(&marked.accepted),
        },
        None => LeftOut::of_kinds(kinds),
    }
}

/// Keeps the numbers of the marks that accept none of these races, if marks are used.
pub(crate) fn keep_idle(
    idle: &mut Vec<usize>,
    check: ScenarioCheck<'_>,
    marked: Option<&MarkedRaces>,
)
    ensures { idle.new.items ≡ uses_by check.entry.marks marked.entry idle.old.items }
{
    if let (Some(marks), Some(marked)) = (check.marks, marked) {
        marked.keep_idle(idle, marks);
    }
}
