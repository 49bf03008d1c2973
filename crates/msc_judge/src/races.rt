//! The races of a chart that are listed, as a source of pairs.

ghost use Rattle.std.specs.Prelude.{length};
ghost use Rattle.msc_race.specs.Walks.{HasReached};
ghost use Rattle.msc_reason.specs.Marked.{listed_from};

use msc_print::{Pair, Pairs};
use msc_reason::{Listing, Stream};
use std::alloc::AllocError;

/// The races that a listing lists.
#[derive(Clone, Copy)]
pub struct ListedRaces<'r, 'a> {
    pub listing: &'r Listing<'a>,
}

impl Pairs for ListedRaces<'_, '_> {
    type Walk = Stream;

    ghost size = { λ s. length s.listing.now.judged.chart.events };

    ghost from = { λ s e. listed_from s.listing.now.judged s.listing.now.allowed s.listing.now.closest e };

    ghost has_reached = { λ s w e. HasReached s.listing.now.judged.chart.events e w.walk };

    ghost at = { λ w. w.races.items };

    fn size(&self) -> u32 {
        self.listing.events()
    }

    fn next(&self, walk: &mut Stream, e: u32) -> Result<(), AllocError> {
        self.listing.next(walk, e)
    }

    fn pairs<'w>(&self, walk: &'w Stream) -> &'w [Pair] {
        walk.races.as_slice()
    }
}
