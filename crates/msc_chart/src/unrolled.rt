//! A chart with its two rounds.

ghost use Rattle.std.specs.Prelude.{◌≡◌, ◌≢◌, IfErr, IfOk, OnOk};
ghost use Rattle.msc_chart.specs.Rounds.{two_rounds, IsShort, IsUnrollFault};
ghost use Rattle.msc_chart.specs.declared.fault.UnrollFault.TheVariants as unrollings;

use crate::chart::Chart;
use crate::fault::UnrollFault;
use crate::round_numbers::RoundNumbers;
use std::alloc::Global;
use std::marker::Model;

/// A chart, the chart of two rounds of it, and the numbers of its events there. Contracts see the
/// chart: the rest follows from it.
#[derive(Drop)]
pub struct Unrolled<'a> {
    one: &'a Chart,
    two: Chart,
    numbers: RoundNumbers<'a>,
}

impl<'a> Model for Unrolled<'a> {
    ghost use Rattle.std.specs.Prelude.{◌≡◌};
    ghost use Rattle.msc_chart.specs.Drawings.{Drawing};
    ghost use Rattle.msc_chart.specs.Rounds.{two_rounds};

    ghost Value = { Drawing };

    ghost view = { λ u. u.one.now };

    ghost invariant = { λ u. (u.two ≡ two_rounds u.one.now) × (u.numbers ≡ u.one.now) };
}

impl<'a> Unrolled<'a> {
    /// The two rounds of a chart. An error is that two rounds exceed the limits of a chart, or a
    /// growth of memory that was refused.
    pub fn of(alloc: Global, one: &'a Chart) -> Result<Unrolled<'a>, UnrollFault>
        ensures chart { IfOk result (λ u. u ≡ one.now) }
        ensures short { OnOk result (IsShort one.now) }
        ensures fault { IfErr result (λ f. f ≢ unrollings.Memory → IsUnrollFault one.now f) }
    {
        let two = one.two_rounds(alloc)?;
        let numbers = RoundNumbers::of(alloc, one)?;
        Ok(Unrolled { one, two, numbers })
    }

    /// The chart of two rounds.
    pub fn two(&self) -> &Chart
        ensures { result.now ≡ two_rounds self.now }
    {
        &self.two
    }

    /// The numbers of the chart's events in two rounds.
    pub fn numbers(&self) -> &RoundNumbers<'a>
        ensures { result.now ≡ self.now }
    {
        &self.numbers
    }
}
