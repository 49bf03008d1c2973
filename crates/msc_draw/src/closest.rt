//! The bars of a chart's closest races.

ghost use Rattle.std.specs.Prelude.{◌≡◌, IfOk, length};
ghost use Rattle.msc_draw.specs.Listed.{AreClosestBars, listed_of};
ghost use Rattle.msc_picture.specs.Bars.{bars_of};

use crate::marking::Marking;
use listed::Listed;
use msc_picture::RaceBar;
use msc_race::Enforced;
use msc_reason::laws::{every_race_that_counts_spans_a_closest_one, what_counts_is_listed};
use msc_reason::{KindSet, LeftOut, Listing, Stream};
use std::alloc::{AllocError, Global};

/// The bars of the races that a listing lists, and the number of these races. The memory does not
/// grow with their number. An error is a growth of memory that was refused.
pub fn bars_listed(alloc: Global, listing: &Listing) -> Result<(Listed<RaceBar>, usize), AllocError>
    ensures bars { IfOk result
        (λ p. p.0 ≡ bars_of listing.now.judged.chart.events (listed_of listing.now)) }
    ensures told { IfOk result (λ p. p.1 ≡ length (listed_of listing.now)) }
{
    let chart = listing.enforced().chart();
    let mut marking = Marking::start(alloc, chart)?;
    let mut stream = Stream::new(alloc);
    for e in 0..chart.events() {
        listing.next(&mut stream, e)?;
        marking.take(alloc, chart, e, stream.races.as_slice())?;
    }
    let all = marking.finish(alloc, chart)?;
    Ok(all)
}

/// The bars of the closest races of a chart under an architecture, and the number of these races.
/// The memory does not grow with their number.
pub fn closest_bars(
    alloc: Global,
    enforced: Enforced,
) -> Result<(Listed<RaceBar>, usize), AllocError>
    ensures { IfOk result (AreClosestBars enforced.entry) }
{
    every_race_that_counts_spans_a_closest_one();
    what_counts_is_listed();
    enforced.facts();
    let listing = Listing::of(alloc, enforced, LeftOut::of_kinds(KindSet::NONE), true)?;
    let bars = bars_listed(alloc, &listing)?;
    Ok(bars)
}
