//! The races of a scenario that marks accept.

ghost use Rattle.std.specs.Prelude.{◌≡◌, ◌<◌, ◌&&◌, ◌||◌, ℕ, IfOk, nat_eq};
ghost use Rattle.msc_chart.specs.Lists.{Occurs};
ghost use Rattle.msc_race.specs.Views.{races_of};
ghost use Rattle.msc_reason.specs.PairTables.{has_pair};
ghost use Rattle.msc_scenario_marks.specs.Accepting.{accepts_race, arrow_at, is_put};

use msc_arrow_marks::AcceptedArrows;
use msc_chart::Event;
use msc_race::Enforced;
use msc_reason::Pairs;
use std::alloc::{AllocError, Global};

/// The marks of a diagram under an architecture, and for each event of a scenario the number of the
/// statement that draws it; a greater number if none does.
#[derive(Clone, Copy)]
pub struct ScenarioMarks<'m> {
    pub accepted: &'m AcceptedArrows<'m>,
    pub arrows: &'m [usize],
}

impl<'m> ScenarioMarks<'m> {
    /// The statement that draws an event; the number of all statements, if none does.
    pub(crate) fn arrow(self, e: Event) -> usize
        ensures { result ≡ arrow_at self.entry.accepted.now self.entry.arrows.now e }
    {
        match self.arrows.get(e as usize) {
            Some(arrow) => *arrow,
            None => self.accepted.statements().len(),
        }
    }

    /// Whether a race of these two events is accepted. It takes no memory.
    pub fn accepts(self, e: Event, f: Event) -> bool
        ensures { result ≡ accepts_race self.entry.accepted.now self.entry.arrows.now (e, f) }
    {
        self.accepted.accepts(self.arrow(e), self.arrow(f))
    }

    /// Adds a race to a set, if it is accepted.
    fn put_race(self, pairs: &mut Pairs, e: Event, f: Event)
        requires first { e < pairs.old.events }
        requires second { f < pairs.old.events }
        ensures size { pairs.new.events ≡ pairs.old.events }
        ensures put { (x y : ℕ) → has_pair pairs.new x y
            ≡ (has_pair pairs.old x y
            || is_put self.entry.accepted.now self.entry.arrows.now x y (e, f)) }
    {
        if self.accepts(e, f) {
            pairs.put(e, f);
        }
    }

    /// The accepted ones of these races, which are all of a chart under an architecture, as a set. An
    /// error is a growth of memory that was refused.
    pub fn pairs(
        self,
        alloc: Global,
        enforced: &Enforced<'_>,
        races: &[(Event, Event)],
    ) -> Result<Pairs, AllocError>
        requires { races.now ≡ races_of enforced.now }
        ensures { IfOk result (λ pairs. (p : ℕ × ℕ) → Occurs races.now p → has_pair pairs p.0 p.1
            ≡ accepts_race self.entry.accepted.now self.entry.arrows.now p) }
    {
        enforced.facts();
        let mut pairs = Pairs::none(alloc, enforced.events())?;
        for race in races {
            let (e, f) = *race;
            self.put_race(&mut pairs, e, f);
        }
        Ok(pairs)
    }
}
