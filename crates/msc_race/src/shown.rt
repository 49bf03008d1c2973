//! Runs that show that an order is not enforced, whole or short.

ghost use Rattle.std.specs.Prelude.{◌<◌, length, IfOk, MatchOption};
ghost use Rattle.msc_race.specs.Reversals.{ComesFirst};
ghost use Rattle.msc_race.specs.Shown.{IsShown};
ghost use Rattle.msc_race.specs.Views.{wiring_of};

use crate::enforced::Enforced;
use msc_chart::Event;
use std::alloc::{AllocError, Global};

impl<'a> Enforced<'a> {
    /// A run with event `f` and without event `e` before it: the witness of `e` or, if a short
    /// run is requested, the short witness of both. There is none if and only if `e` is `f`, or is
    /// enforced before it. An error is a growth of memory that was refused.
    pub fn shown_run(
        &self,
        alloc: Global,
        e: Event,
        f: Event,
        short: bool,
    ) -> Result<Option<Vec<Event>>, AllocError>
        requires e_known { e < length self.now.chart.events }
        requires f_known { f < length self.now.chart.events }
        ensures { IfOk result (λ run. MatchOption run (ComesFirst (wiring_of self.now) e f)
            (λ events. IsShown short (wiring_of self.now) e f events.items)) }
    {
        if short {
            return self.short_witness(alloc, e, f);
        }
        self.reversing_run(alloc, e, f)
    }
}
