//! Short witnesses that show that an order is not enforced.

ghost use Rattle.std.specs.Prelude.{◌≡◌, ◌+◌, ◌<◌, [], ◌∷◌, ◌++◌, length, IfOk, IsTrue};
ghost use Rattle.std.specs.Prelude.{MatchOption};
ghost use Rattle.msc_chart.specs.Lists.{occurs, until};
ghost use Rattle.msc_race.specs.Reversals.{ComesFirst};
ghost use Rattle.msc_race.specs.Short.{HasNoNeededRun, IsNeededRun, IsShortAnswer};
ghost use Rattle.msc_race.specs.Views.{wiring_of};

use crate::choosing::Choice;
use crate::enforced::Enforced;
use crate::laws::{short_witnesses_show, the_witness_reverses, what_is_enforced_is_needed};
use crate::shortening::Shortening;
use msc_chart::Event;
use std::alloc::{AllocError, Global};

/// The place of the first `f` in a list, or the list's length.
fn place_of(events: &[Event], f: Event) -> usize
    ensures { result ≡ length (until events.now f) }
{
    for k in 0..events.len() {
        if events[k] == f {
            return k;
        }
    }
    events.len()
}

/// A list up to `f`, including it.
fn up_to(mut events: Vec<Event>, f: Event) -> Vec<Event>
    requires { IsTrue (occurs events.items f) }
    ensures { result.items ≡ until events.items f ++ f ∷ [] }
{
    let place = place_of(&events, f);
    events.truncate(place + 1);
    events
}

impl<'a> Enforced<'a> {
    /// All of the past of event `f`, in the order of the short witness, or none if not all of it
    /// can come so. An error is a growth of memory that was refused.
    fn needed_run(&self, alloc: Global, f: Event) -> Result<Option<Vec<Event>>, AllocError>
        requires { f < length self.now.chart.events }
        ensures { IfOk result (λ run. MatchOption run (HasNoNeededRun (wiring_of self.now) f)
            (λ events. IsNeededRun (wiring_of self.now) f events.items)) }
    {
        self.facts();
        what_is_enforced_is_needed();
        let choice = Choice {
            wiring: *self.wiring(),
            order: self.order(),
            e: f,
        };
        let mut shortening = Shortening::start(alloc, &choice)?;
        while let Some(x) = shortening.next() {
            shortening.occur(&choice, x)?;
        }
        if shortening.lacks(&choice, f) {
            return Ok(None);
        }
        Ok(Some(shortening.into_run()))
    }

    /// The short witness of events `e` and `f`: a run that ends with `f` and does not have `e`. If
    /// `f` and all that is enforced before it can come in this way, the run has exactly these
    /// events, and no run that has `f` is shorter: each event is the least of them that may come
    /// next and is no output that waits. An output whose input is not one of them waits while an
    /// output of its queue whose input is one of them has not come. Otherwise the short witness is
    /// the witness of `e` up to `f`. There is none if and only if `e` is `f`, or is enforced before
    /// it. An error is a growth of memory that was refused.
    pub fn short_witness(
        &self,
        alloc: Global,
        e: Event,
        f: Event,
    ) -> Result<Option<Vec<Event>>, AllocError>
        requires e_known { e < length self.now.chart.events }
        requires f_known { f < length self.now.chart.events }
        ensures { IfOk result (λ run. MatchOption run (ComesFirst (wiring_of self.now) e f)
            (λ events. IsShortAnswer (wiring_of self.now) e f events.items)) }
    {
        self.facts();
        the_witness_reverses();
        short_witnesses_show();
        if e == f || self.holds(e, f) {
            return Ok(None);
        }
        match self.needed_run(alloc, f)? {
            Some(run) => Ok(Some(run)),
            None => Ok(Some(up_to(self.witness_run(alloc, e)?, f))),
        }
    }
}
