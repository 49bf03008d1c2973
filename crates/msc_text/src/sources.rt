//! Sources of pairs of events of a chart with ready instances: its blocked pairs, the blocked pairs
//! between two rounds of it, and the races that are left.

ghost use Rattle.std.specs.Prelude.{◌≡◌, length};
ghost use Rattle.msc_chart.specs.Orders.{IsWired};
ghost use Rattle.msc_chart.specs.Rounds.{two_rounds};
ghost use Rattle.msc_ready.specs.Held.{wiring_of};
ghost use Rattle.msc_ready.specs.Rounds.{between_from};
ghost use Rattle.msc_ready.specs.Views.{blocked_pairs_from};
ghost use Rattle.msc_text.specs.LeftRaces.{left_from};

use msc_print::{Pair, Pairs};
use msc_ready::{BlockedPairs, Ready, RoundBlockedPairs};
use msc_report::RoundNames;
use std::alloc::AllocError;

/// All blocked pairs of a chart.
#[derive(Clone, Copy)]
pub(crate) struct AllBlockedPairs<'s, 'a> {
    pub blocked_pairs: &'s BlockedPairs<'a>,
}

impl Pairs for AllBlockedPairs<'_, '_> {
    type Walk = Vec<Pair>;

    ghost size = { λ s. length s.blocked_pairs.now.chart.events };

    ghost from = { λ s e. blocked_pairs_from s.blocked_pairs.now e };

    ghost has_reached = { λ s w e. Unit {0} };

    ghost at = { λ w. w.items };

    fn size(&self) -> u32 {
        self.blocked_pairs.ready().events()
    }

    fn next(&self, walk: &mut Vec<Pair>, e: u32) -> Result<(), AllocError> {
        self.blocked_pairs.next(walk, e)
    }

    fn pairs<'w>(&self, walk: &'w Vec<Pair>) -> &'w [Pair] {
        walk.as_slice()
    }
}

/// The blocked pairs between two rounds of a chart.
#[derive(Clone, Copy)]
pub(crate) struct BlockedPairsBetween<'s, 'a> {
    /// The blocked pairs of the chart of two rounds.
    pub blocked_pairs: &'s BlockedPairs<'a>,
    pub names: RoundNames<'s>,
    ghost two: { blocked_pairs.now.chart ≡ two_rounds names.chart.now },
}

impl<'s, 'a> BlockedPairsBetween<'s, 'a> {
    /// These blocked pairs, with the numbers of the events in their rounds.
    pub fn rounds(&self) -> RoundBlockedPairs<'s, 'a>
        ensures blocked_pairs { result.blocked_pairs.now ≡ self.now.blocked_pairs.now }
        ensures numbers { result.numbers.now ≡ self.now.names.chart.now }
    {
        RoundBlockedPairs {
            blocked_pairs: self.blocked_pairs,
            numbers: self.names.numbers,
        }
    }
}

impl Pairs for BlockedPairsBetween<'_, '_> {
    type Walk = Vec<Pair>;

    ghost size = { λ s. length s.blocked_pairs.now.chart.events };

    ghost from = { λ s e. between_from s.blocked_pairs.now s.names.chart.now e };

    ghost has_reached = { λ s w e. Unit {0} };

    ghost at = { λ w. w.items };

    fn size(&self) -> u32 {
        self.blocked_pairs.ready().events()
    }

    fn next(&self, walk: &mut Vec<Pair>, e: u32) -> Result<(), AllocError> {
        self.names.chart.facts();
        self.rounds().next(walk, e)
    }

    fn pairs<'w>(&self, walk: &'w Vec<Pair>) -> &'w [Pair] {
        walk.as_slice()
    }
}

/// The races that are left.
#[derive(Clone, Copy)]
pub(crate) struct LeftRaces<'s, 'a> {
    pub ready: &'s Ready<'a>,
    ghost wired: { IsWired (wiring_of ready.now) },
}

impl Pairs for LeftRaces<'_, '_> {
    type Walk = Vec<Pair>;

    ghost size = { λ s. length s.ready.now.chart.events };

    ghost from = { λ s e. left_from s.ready.now s.wired e };

    ghost has_reached = { λ s w e. Unit {0} };

    ghost at = { λ w. w.items };

    fn size(&self) -> u32 {
        self.ready.events()
    }

    fn next(&self, walk: &mut Vec<Pair>, e: u32) -> Result<(), AllocError> {
        self.ready.next_left(walk, e)
    }

    fn pairs<'w>(&self, walk: &'w Vec<Pair>) -> &'w [Pair] {
        walk.as_slice()
    }
}
