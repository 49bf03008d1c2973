//! Runs that show that an order is not enforced.

ghost use Rattle.std.specs.Prelude.{◌<◌, length, IfOk, MatchOption};
ghost use Rattle.msc_chart.specs.Witness.{IsWitness};
ghost use Rattle.msc_race.specs.Reversals.{ComesFirst, IsReversingRun};
ghost use Rattle.msc_race.specs.Views.{wiring_of};

use crate::beginning::Beginning;
use crate::choosing::Choice;
use crate::enforced::Enforced;
use crate::laws::the_witness_reverses;
use msc_chart::Event;
use std::alloc::{AllocError, Global};

impl<'a> Enforced<'a> {
    /// The witness of event `e`: while events are left that are free of `e`, that is other than
    /// `e` and not enforced after it, the next event is the least of them that may come next and
    /// does not wait; after that it is the least event that may come next. It reverses every race
    /// of `e`. An error is a growth of memory that was refused.
    pub fn witness_run(&self, alloc: Global, e: Event) -> Result<Vec<Event>, AllocError>
        requires { e < length self.now.chart.events }
        ensures { IfOk result (λ run. IsWitness (wiring_of self.now) e run.items) }
    {
        self.facts();
        let choice = Choice {
            wiring: *self.wiring(),
            order: self.order(),
            e,
        };
        let mut beginning = Beginning::start(alloc, &choice)?;
        while let Some(x) = beginning.next() {
            beginning.occur(&choice, x)?;
        }
        Ok(beginning.into_run())
    }

    /// A whole run with event `f` before event `e`: the witness of `e`. There is none if and
    /// only if `e` is `f`, or is enforced before it. An error is a growth of memory that was
    /// refused.
    pub fn reversing_run(
        &self,
        alloc: Global,
        e: Event,
        f: Event,
    ) -> Result<Option<Vec<Event>>, AllocError>
        requires e_known { e < length self.now.chart.events }
        requires f_known { f < length self.now.chart.events }
        ensures { IfOk result (λ run. MatchOption run (ComesFirst (wiring_of self.now) e f)
            (λ events. IsReversingRun (wiring_of self.now) e f events.items)) }
    {
        self.facts();
        the_witness_reverses();
        if e == f || self.holds(e, f) {
            return Ok(None);
        }
        Ok(Some(self.witness_run(alloc, e)?))
    }
}
