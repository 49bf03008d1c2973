//! The marks that accept no race.

ghost use Rattle.std.specs.Prelude.{◌≡◌, ◌&&◌, ◌||◌, IfOk, length, nat_eq, not, slice_get};
ghost use Rattle.std.specs.List.{filter, list_any, range_with_len};
ghost use Rattle.msc_scenario_marks.specs.Idle.{accepts_by, is_met, is_used, may_be_idle};
ghost use Rattle.msc_scenario_marks.specs.Idle.{mark_may_be_idle, mark_is_used};

use crate::accepting::ScenarioMarks;
use msc_arrow_marks::{AcceptedArrows, ArrowMark};
use msc_chart::Event;
use std::alloc::{AllocError, Global};

/// Whether a mark is stale if it accepts no race: it has no arrow below it, or is for the
/// architecture.
fn mark_may_be_idle(accepted: &AcceptedArrows<'_>, mark: &ArrowMark) -> bool
    ensures { result ≡ mark_may_be_idle accepted.now mark.now }
{
    mark.arrow.is_none() || accepted.is_for(mark)
}

/// Whether the mark with this number is.
fn may_be_idle(accepted: &AcceptedArrows<'_>, k: usize) -> bool
    ensures { result ≡ may_be_idle accepted.now k }
{
    match accepted.marks().get(k) {
        Some(mark) => mark_may_be_idle(accepted, mark),
        None => false,
    }
}

/// The numbers of the marks of a diagram that are stale if they accept no race: those that have no
/// arrow below them, and those that are for the architecture. An error is a growth of memory that
/// was refused.
pub fn idle_marks(alloc: Global, accepted: &AcceptedArrows<'_>) -> Result<Vec<usize>, AllocError>
    ensures { IfOk result (λ idle. idle.items ≡ filter (may_be_idle accepted.now)
        (range_with_len 0 (length accepted.now.marks))) }
{
    let mut idle = Vec::new(alloc);
    for k in 0..accepted.marks().len() {
        if may_be_idle(accepted, k) {
            idle.push(k)?;
        }
    }
    Ok(idle)
}

impl<'m> ScenarioMarks<'m> {
    /// Whether the mark of statement `x` accepts a race of these two events.
    fn accepts_by(self, x: usize, e: Event, f: Event) -> bool
        ensures { result ≡ accepts_by self.entry.accepted.now self.entry.arrows.now x (e, f) }
    {
        let (i, j) = (self.arrow(e), self.arrow(f));
        i == x && self.accepted.accepts_from(i, j) || j == x && self.accepted.accepts_from(j, i)
    }

    /// Whether the mark of statement `x` accepts one of these races.
    fn accepts_some(self, x: usize, races: &[(Event, Event)]) -> bool
        ensures { result ≡ list_any (accepts_by self.entry.accepted.now self.entry.arrows.now x)
            races.now }
    {
        races.iter().any(|race| self.accepts_by(x, race.0, race.1))
    }

    /// Whether statement `x` draws an event of the scenario.
    fn meets(self, x: usize) -> bool
        ensures { result ≡ is_met self.entry.arrows.now x }
    {
        self.arrows.iter().any(|arrow| *arrow == x)
    }

    /// Whether a mark accepts one of these races of the scenario; or the scenario alone is asked for
    /// and does not meet the arrow of the mark, so that the mark may accept races of others.
    fn mark_is_used(self, chosen: bool, races: &[(Event, Event)], mark: &ArrowMark) -> bool
        ensures { result ≡ mark_is_used self.entry.accepted.now self.entry.arrows.now chosen races.now
            mark.now }
    {
        match mark.arrow {
            Some(x) => chosen && !self.meets(x) || self.accepts_some(x, races),
            None => false,
        }
    }

    /// The same of the mark with this number.
    fn is_used(self, chosen: bool, races: &[(Event, Event)], k: usize) -> bool
        ensures { result ≡ is_used self.entry.accepted.now self.entry.arrows.now chosen races.now k }
    {
        match self.accepted.marks().get(k) {
            Some(mark) => self.mark_is_used(chosen, races, mark),
            None => false,
        }
    }

    /// Keeps the numbers of the marks that accept none of these races, which are all of the
    /// scenario. If the scenario alone is `chosen`, those whose arrows it does not meet are dropped
    /// too: they may accept races of other scenarios. It takes no memory.
    pub fn keep_idle(self, idle: &mut Vec<usize>, chosen: bool, races: &[(Event, Event)])
        ensures { idle.new.items ≡ filter (λ k.
            not (is_used self.entry.accepted.now self.entry.arrows.now chosen races.now k))
            idle.old.items }
    {
        idle.retain(|k| !self.is_used(chosen, races, *k))
    }
}
