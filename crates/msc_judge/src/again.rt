//! Prints the races of a chart, and then the races between two rounds of it.

ghost use Rattle.std.specs.Prelude.{◌≡◌, ◌++◌, ◌&&◌, ℕ, List, length, nat_eq};
ghost use Rattle.msc_chart.specs.Rounds.{two_rounds};
ghost use Rattle.msc_print.specs.Prints.{Prints};
ghost use Rattle.msc_race.specs.Views.{races_of, wiring_of};
ghost use Rattle.msc_reason.specs.LeftOut.{of_kinds};
ghost use Rattle.msc_reason.specs.Marked.{cause_in};
ghost use Rattle.msc_reason.specs.Named.{AreEventsOf};
ghost use Rattle.msc_judge.specs.Between.{told_of};
ghost use Rattle.msc_judge.specs.Findings.{passes, texts, AreShown};
ghost use Rattle.msc_judge.specs.Rounds.{round_heading, AnswersRounds};
ghost use Rattle.msc_judge.specs.Findings.{totals_in};
ghost use Rattle.msc_judge.specs.Telling.{listed_text, number_in, race_text, rounds_from};
ghost use Rattle.msc_judge.specs.Telling.{told_from};

use crate::heading::heading_of;
use crate::judging::{RaceCheck, RaceList, left_of, totals_in};
use crate::options::CheckOptions;
use crate::renderer::{Heading, Renderer, Totals};
use crate::rounds::Rounds;
use crate::rows::RaceRows;
use crate::texts::{EndText, HeadingText};
use msc_chart::Queues;
use msc_print::{Both, Print, Printer, WriteFault, print_pairs, write_by};
use msc_race::laws::{short_witnesses_show, the_witness_reverses};
use msc_reason::Listing;
use std::alloc::{AllocError, Global};
use std::io::Write;

/// The number of races that are listed, by their heading.
fn number_in(heading: Heading) -> u32
    ensures { result ≡ number_in heading }
{
    heading.closest.unwrap_or(heading.counting)
}

/// The heading of `count` races between two rounds.
fn round_heading(queues: Queues, count: u32) -> Heading
    ensures { result ≡ round_heading queues count }
{
    Heading {
        queues,
        races: count,
        left_out: None,
        accepted: None,
        counting: count,
        closest: None,
    }
}

/// The races between two rounds, `count` of them. They are numbered after the races of one round,
/// which have this heading, and beside which `stale` marks accept no race.
#[derive(Drop)]
struct RoundList<'t, 'a, R: Renderer> {
    rounds: Rounds<'t, 'a>,
    options: CheckOptions,
    renderer: &'t R,
    count: u32,
    heading: Heading,
    stale: usize,
}

impl<'t, 'a, R: Renderer> RoundList<'t, 'a, R> {
    /// Prints each race between the rounds.
    fn print_races<W: Write>(
        &self,
        alloc: Global,
        printer: &mut Printer<'_, W>,
    ) -> Result<(), AllocError>
        requires { R.fits self.now.renderer.now self.now.rounds.listing.now.judged.chart }
        ensures { (runs : ℕ × ℕ → List ℕ)
            → AreShown self.now.options.short (wiring_of self.now.rounds.listing.now.judged) runs
            → Prints printer.old printer.new (told_from (race_text
            (texts R.heading_text R.run_text R.finding_text R.end_text
            self.now.renderer.now self.now.rounds.listing.now.judged.chart)
            self.now.rounds.listing.now.judged self.now.options runs)
            self.now.options.most (number_in self.now.heading) (told_of self.now.rounds.numbers.now
            self.now.rounds.listing.now.judged self.now.rounds.listing.now.allowed)) }
    {
        let listing = self.rounds.listing;
        listing.enforced().facts();
        let rows = RaceRows {
            listing,
            options: self.options,
            renderer: self.renderer,
        };
        let mut walk = Vec::new(alloc);
        let first = number_in(self.heading);
        print_pairs(alloc, printer, &self.rounds, &mut walk, &rows, first)?;
        Ok(())
    }
}

impl<'t, 'a, R: Renderer> Print for RoundList<'t, 'a, R> {
    ghost can_print = { λ l. R.fits l.renderer.now l.rounds.listing.now.judged.chart
        × (l.count ≡ length (told_of l.rounds.numbers.now l.rounds.listing.now.judged
        l.rounds.listing.now.allowed)) };

    ghost is_text = { λ l text. (runs : ℕ × ℕ → List ℕ)
        × AreShown l.options.short (wiring_of l.rounds.listing.now.judged) runs
        × (text ≡ rounds_from (texts R.heading_text R.run_text R.finding_text R.end_text
        l.renderer.now l.rounds.listing.now.judged.chart)
        l.rounds.listing.now.judged l.options l.stale runs l.heading (told_of l.rounds.numbers.now
        l.rounds.listing.now.judged l.rounds.listing.now.allowed)) };

    ghost is_answer = { λ l passed. passed ≡ nat_eq (length (told_of l.rounds.numbers.now
        l.rounds.listing.now.judged l.rounds.listing.now.allowed)) 0 };

    fn print<W: Write>(
        &self,
        alloc: Global,
        printer: &mut Printer<'_, W>,
    ) -> Result<bool, AllocError> {
        let enforced = self.rounds.listing.enforced();
        let (chart, queues) = (enforced.chart(), enforced.queues());
        let renderer = self.renderer;
        let heading = HeadingText {
            renderer,
            chart,
            heading: round_heading(queues, self.count),
        };
        let end = EndText {
            renderer,
            chart,
            stale: &[],
            totals: Some(totals_in(
                self.options.most,
                self.stale,
                Some(self.count),
                self.heading,
            )),
        };
        printer.print_text(&heading);
        let printed = self.print_races(alloc, printer);
        printer.print_text(&end);
        printed?;
        Ok(self.count == 0)
    }
}

/// Writes by a renderer what [`judge`](crate::judge) writes of a chart. Then it writes by a second
/// one how many of the closest races of two rounds are between the first and the second and of no
/// kind that is left out, and each of them. These are numbered after the listed races, so the
/// limits on rows and on runs hold over both. Marks do not accept them. Returns what was found.
///
/// After `Memory` the writer has a beginning of the answer; `Device` says that a write failed.
pub fn judge_rounds<'r, 'a, R: Renderer, S: Renderer, W: Write>(
    alloc: Global,
    check: RaceCheck<'_, R>,
    rounds: Rounds<'r, 'a>,
    second: &'r S,
    writer: &mut W,
) -> Result<Totals, WriteFault>
    requires races { check.races ≡ length (races_of check.enforced) }
    requires fits { R.fits check.renderer.now check.enforced.chart }
    requires stale { AreEventsOf check.enforced.chart check.marking.stale.now }
    requires one { rounds.numbers.now ≡ check.enforced.chart }
    requires kinds { rounds.listing.now.allowed ≡ of_kinds check.options.allowed }
    requires second { S.fits second.now rounds.listing.now.judged.chart }
    ensures { AnswersRounds check.entry.enforced rounds.entry.listing.now.judged
        check.entry.options check.entry.marking
        (texts R.heading_text R.run_text R.finding_text R.end_text
        check.entry.renderer.now check.entry.enforced.chart)
        (texts S.heading_text S.run_text S.finding_text S.end_text
        second.now rounds.entry.listing.now.judged.chart)
        result (W.contents writer.old) (W.contents writer.new) }
{
    the_witness_reverses();
    short_witnesses_show();
    rounds.listing.enforced().facts();
    let RaceCheck {
        enforced,
        races,
        options,
        marking,
        renderer,
    } = check;
    enforced.facts();
    let left = left_of(options, marking);
    let listing = Listing::of(alloc, enforced, left, options.closest)?;
    let heading = heading_of(alloc, &listing, races)?;
    let count = rounds.count(alloc)?;
    let totals = totals_in(options.most, marking.stale.len(), Some(count), heading);
    let first = &RaceList {
        heading,
        rows: RaceRows {
            listing: &listing,
            options,
            renderer,
        },
        marking,
        closes: false,
    };
    let second = &RoundList {
        rounds,
        options,
        renderer: second,
        count,
        heading,
        stale: marking.stale.len(),
    };
    match write_by(alloc, &Both { first, second }, writer) {
        Ok(_) => Ok(totals),
        Err(fault) => Err(fault),
    }
}
