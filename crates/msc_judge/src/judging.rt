//! Prints the races of a chart under an architecture by a renderer.

ghost use Rattle.std.specs.Prelude.{◌≡◌, ℕ, List, IfOk, length};
ghost use Rattle.msc_print.specs.Prints.{Prints};
ghost use Rattle.msc_race.specs.Views.{races_of, wiring_of};
ghost use Rattle.msc_reason.specs.Counting.{listed};
ghost use Rattle.msc_reason.specs.Marked.{cause_in};
ghost use Rattle.msc_reason.specs.Named.{AreEventsOf};
ghost use Rattle.msc_reason.specs.Selected.{selected};
ghost use Rattle.msc_judge.specs.Findings.{closing_totals, heading_of, left_of, passes, texts};
ghost use Rattle.msc_judge.specs.Findings.{totals_in, Answers, AreShown};
ghost use Rattle.msc_judge.specs.Telling.{listed_text, race_text, told_from};

use crate::heading::{heading_of, passes};
use crate::marking::Marking;
use crate::options::CheckOptions;
use crate::races::ListedRaces;
use crate::renderer::{Heading, Renderer, Totals};
use crate::rows::RaceRows;
use crate::texts::{EndText, HeadingText};
use msc_print::{Print, Printer, WriteFault, print_pairs, write_by};
use msc_race::Enforced;
use msc_race::laws::{short_witnesses_show, the_witness_reverses};
use msc_reason::{LeftOut, Listing, Stream};
use std::alloc::{AllocError, Global};
use std::io::Write;

/// The races of a chart under an architecture, and how to print them.
pub struct RaceCheck<'j, R: Renderer> {
    /// The chart under the architecture.
    pub enforced: Enforced<'j>,
    /// The number of its races.
    pub races: u32,
    pub options: CheckOptions,
    pub marking: Marking<'j>,
    pub renderer: &'j R,
}

/// What a whole answer found.
pub(crate) fn totals_in(most: u32, stale: usize, between: Option<u32>, heading: Heading) -> Totals
    ensures { result ≡ totals_in most stale between heading }
{
    Totals {
        heading,
        most,
        stale,
        between,
    }
}

/// What a whole answer found, if the races of one round close it.
fn closing_totals(closes: bool, most: u32, stale: usize, heading: Heading) -> Option<Totals>
    ensures { result ≡ closing_totals closes most stale heading }
{
    if closes {
        Some(totals_in(most, stale, None, heading))
    } else {
        None
    }
}

/// The races that are listed, with their heading and what marks accept.
#[derive(Drop)]
pub(crate) struct RaceList<'t, 'a, R: Renderer> {
    pub heading: Heading,
    pub rows: RaceRows<'t, 'a, R>,
    pub marking: Marking<'t>,
    /// Whether these races close the answer.
    pub closes: bool,
}

impl<'t, 'a, R: Renderer> RaceList<'t, 'a, R> {
    /// Prints each race that is listed.
    fn print_races<W: Write>(
        &self,
        alloc: Global,
        printer: &mut Printer<'_, W>,
    ) -> Result<(), AllocError>
        requires fits { R.fits self.now.rows.renderer.now
            self.now.rows.listing.now.judged.chart }
        requires races { self.now.heading.races
            ≡ length (races_of self.now.rows.listing.now.judged) }
        ensures { (runs : ℕ × ℕ → List ℕ)
            → AreShown self.now.rows.options.short
            (wiring_of self.now.rows.listing.now.judged) runs
            → Prints printer.old printer.new (told_from (race_text
            (texts R.heading_text R.run_text R.finding_text R.end_text
            self.now.rows.renderer.now self.now.rows.listing.now.judged.chart)
            self.now.rows.listing.now.judged self.now.rows.options runs)
            self.now.rows.options.most 0 (listed self.now.rows.listing.now.judged
            self.now.rows.listing.now.allowed self.now.rows.listing.now.closest
            (cause_in self.now.rows.listing.now.judged))) }
    {
        if self.heading.races == 0 {
            return Ok(());
        }
        let listing = self.rows.listing;
        listing.enforced().facts();
        let races = ListedRaces { listing };
        let mut walk = Stream::new(alloc);
        print_pairs(alloc, printer, &races, &mut walk, &self.rows, 0)?;
        Ok(())
    }
}

impl<'t, 'a, R: Renderer> Print for RaceList<'t, 'a, R> {
    ghost can_print = { λ l. R.fits l.rows.renderer.now l.rows.listing.now.judged.chart
        × (l.rows.listing.now ≡ selected l.rows.listing.now.judged
        (left_of l.rows.options l.marking) l.rows.options.closest)
        × (l.heading ≡ heading_of l.rows.listing.now.judged l.rows.options.closest
        (left_of l.rows.options l.marking) (cause_in l.rows.listing.now.judged))
        × AreEventsOf l.rows.listing.now.judged.chart l.marking.stale.now };

    ghost is_text = { λ l text. (runs : ℕ × ℕ → List ℕ)
        × AreShown l.rows.options.short (wiring_of l.rows.listing.now.judged) runs
        × (text ≡ listed_text (texts R.heading_text R.run_text R.finding_text R.end_text
        l.rows.renderer.now l.rows.listing.now.judged.chart)
        l.rows.listing.now.judged l.rows.options l.marking l.closes runs) };

    ghost is_answer = { λ l passed. passed ≡ passes l.rows.listing.now.judged l.rows.options
        l.marking (cause_in l.rows.listing.now.judged) };

    fn print<W: Write>(
        &self,
        alloc: Global,
        printer: &mut Printer<'_, W>,
    ) -> Result<bool, AllocError> {
        let chart = self.rows.listing.enforced().chart();
        let renderer = self.rows.renderer;
        let heading = HeadingText {
            renderer,
            chart,
            heading: self.heading,
        };
        let end = EndText {
            renderer,
            chart,
            stale: self.marking.stale,
            totals: closing_totals(
                self.closes,
                self.rows.options.most,
                self.marking.stale.len(),
                self.heading,
            ),
        };
        printer.print_text(&heading);
        let printed = self.print_races(alloc, printer);
        printer.print_text(&end);
        printed?;
        Ok(passes(self.heading, self.marking.stale))
    }
}

/// What does not count: the kinds that the options leave out, and the races that marks accept.
pub(crate) fn left_of<'m>(options: CheckOptions, marking: Marking<'m>) -> LeftOut<'m>
    ensures { result ≡ left_of options marking.entry }
{
    LeftOut {
        kinds: options.allowed,
        accepted: marking.accepted,
    }
}

/// Writes by a renderer a heading, each race that the options select, in order, the first ones with
/// runs that show them, and an end. Returns what was found. No list has all races.
///
/// After `Memory` the writer has a beginning of the answer; `Device` says that a write failed.
pub fn judge<R: Renderer, W: Write>(
    alloc: Global,
    check: RaceCheck<'_, R>,
    writer: &mut W,
) -> Result<Totals, WriteFault>
    requires races { check.races ≡ length (races_of check.enforced) }
    requires fits { R.fits check.renderer.now check.enforced.chart }
    requires stale { AreEventsOf check.enforced.chart check.marking.stale.now }
    ensures { Answers check.entry.enforced check.entry.options check.entry.marking
        (texts R.heading_text R.run_text R.finding_text R.end_text
        check.entry.renderer.now check.entry.enforced.chart)
        result (W.contents writer.old) (W.contents writer.new) }
{
    the_witness_reverses();
    short_witnesses_show();
    let RaceCheck {
        enforced,
        races,
        options,
        marking,
        renderer,
    } = check;
    enforced.facts();
    let left = left_of(options, marking);
    let listing = Listing::of(alloc, enforced, left, options.closest)?;
    let heading = heading_of(alloc, &listing, races)?;
    let totals = totals_in(options.most, marking.stale.len(), None, heading);
    let list = RaceList {
        heading,
        rows: RaceRows {
            listing: &listing,
            options,
            renderer,
        },
        marking,
        closes: true,
    };
    match write_by(alloc, &list, writer) {
        Ok(_) => Ok(totals),
        Err(fault) => Err(fault),
    }
}
