//! The rows of races: what a renderer prints of each, with the run that shows it.

ghost use Rattle.std.specs.Prelude.{◌≡◌, ℕ, ◌<◌, List, IfOk, MatchOption, None, OnOk, Some, cond};
ghost use Rattle.std.specs.Prelude.{false, length, option_map, true};
ghost use Rattle.msc_chart.specs.Witness.{IsWitness};
ghost use Rattle.msc_chart.specs.Orders.{IsRace};
ghost use Rattle.msc_chart.specs.Runs.{Run};
ghost use Rattle.msc_print.specs.Prints.{Prints};
ghost use Rattle.msc_race.specs.Short.{IsShortWitness};
ghost use Rattle.msc_race.specs.Views.{wiring_of};
ghost use Rattle.msc_reason.specs.Marked.{cause_in};
ghost use Rattle.msc_reason.specs.Named.{NamesCause};
ghost use Rattle.msc_judge.specs.Findings.{finding_of, texts, AreShown};
ghost use Rattle.msc_judge.specs.Renderings.{NamesEvents};
ghost use Rattle.msc_judge.specs.Rows.{first_row, next_number, HasKept};
ghost use Rattle.msc_judge.specs.Telling.{race_text};

use crate::options::CheckOptions;
use crate::renderer::{Finding, Renderer};
use crate::texts::FindingText;
use msc_chart::Event;
use msc_print::{Pair, Printer, Rows};
use msc_race::laws::{short_witnesses_show, the_witness_reverses};
use msc_reason::{Cause, Listing, cause_of};
use std::alloc::{AllocError, Global};
use std::io::Write;

/// The rows of a chart's races by a renderer. The count of these rows is the number of races
/// before.
#[derive(Drop)]
pub struct RaceRows<'t, 'a, R: Renderer> {
    pub listing: &'t Listing<'a>,
    pub options: CheckOptions,
    pub renderer: &'t R,
}

/// The line of the run that shows the last race. If it is the witness of an event, it shows all
/// races whose first event that is.
#[derive(Drop)]
pub struct ShownRun {
    /// The event of whose witness this is the line, if it is one.
    pub witness_of: Option<Event>,
    pub line: Vec<u8>,
}

impl<'t, 'a, R: Renderer> RaceRows<'t, 'a, R> {
    /// What a race lacks, if this is requested.
    fn cause_of(&self, race: Pair) -> Option<Cause>
        requires { IsRace (wiring_of self.now.listing.now.judged) race.0 race.1 }
        ensures value { result ≡ cond self.now.options.why
            (Some (cause_in self.now.listing.now.judged race.0 race.1)) None }
        ensures named { MatchOption result (Unit {0})
            (NamesCause self.now.listing.now.judged.chart) }
    {
        if !self.options.why {
            return None;
        }
        Some(cause_of(self.listing.enforced(), race.0, race.1))
    }

    /// A race as a finding of this number.
    fn finding_of(&self, race: Pair, number: u32) -> Finding
        requires { IsRace (wiring_of self.now.listing.now.judged) race.0 race.1 }
        ensures value { result ≡ finding_of self.now.options.why
            (cause_in self.now.listing.now.judged) number race }
        ensures named { NamesEvents self.now.listing.now.judged.chart result }
    {
        Finding {
            number,
            first: race.0,
            second: race.1,
            cause: self.cause_of(race),
        }
    }

    /// The line of a run.
    fn run_line(&self, alloc: Global, run: &[Event]) -> Result<Vec<u8>, AllocError>
        requires fits { R.fits self.now.renderer.now self.now.listing.now.judged.chart }
        requires run { Run (wiring_of self.now.listing.now.judged) run.now }
        ensures { IfOk result (λ line. line.items ≡ R.run_text self.now.renderer.now
            self.now.listing.now.judged.chart run.now) }
    {
        self.renderer
            .run_line(alloc, self.listing.enforced().chart(), run)
    }

    /// The line of the witness of an event.
    fn witness_line(&self, alloc: Global, e: Event) -> Result<Vec<u8>, AllocError>
        requires fits { R.fits self.now.renderer.now self.now.listing.now.judged.chart }
        requires known { e < length self.now.listing.now.judged.chart.events }
        ensures { IfOk result (λ line. (run : List ℕ)
            → IsWitness (wiring_of self.now.listing.now.judged) e run
            → line.items ≡ R.run_text self.now.renderer.now
            self.now.listing.now.judged.chart run) }
    {
        the_witness_reverses();
        let run = self.listing.enforced().witness_run(alloc, e)?;
        self.run_line(alloc, run.as_slice())
    }

    /// The line of the short witness of a race.
    fn short_line(&self, alloc: Global, race: Pair) -> Result<Vec<u8>, AllocError>
        requires fits { R.fits self.now.renderer.now self.now.listing.now.judged.chart }
        requires race { IsRace (wiring_of self.now.listing.now.judged) race.0 race.1 }
        ensures { IfOk result (λ line. (run : List ℕ)
            → IsShortWitness (wiring_of self.now.listing.now.judged) race.0 race.1 run
            → line.items ≡ R.run_text self.now.renderer.now
            self.now.listing.now.judged.chart run) }
    {
        short_witnesses_show();
        match self
            .listing
            .enforced()
            .short_witness(alloc, race.0, race.1)?
        {
            Some(run) => self.run_line(alloc, run.as_slice()),
            None => Ok(Vec::new(alloc)),
        }
    }

    /// Keeps the line of the short witness of a race.
    fn keep_short(&self, alloc: Global, kept: &mut ShownRun, race: Pair) -> Result<(), AllocError>
        requires fits { R.fits self.now.renderer.now self.now.listing.now.judged.chart }
        requires race { IsRace (wiring_of self.now.listing.now.judged) race.0 race.1 }
        requires short { self.now.options.short ≡ true }
        requires kept { HasKept (wiring_of self.now.listing.now.judged)
            (R.run_text self.now.renderer.now self.now.listing.now.judged.chart) kept.old }
        ensures kept { HasKept (wiring_of self.now.listing.now.judged)
            (R.run_text self.now.renderer.now self.now.listing.now.judged.chart) kept.new }
        ensures line { OnOk result ((runs : ℕ × ℕ → List ℕ)
            → AreShown self.now.options.short (wiring_of self.now.listing.now.judged) runs
            → kept.new.line.items ≡ R.run_text self.now.renderer.now
            self.now.listing.now.judged.chart (runs race)) }
    {
        let line = self.short_line(alloc, race)?;
        kept.witness_of = None;
        kept.line = line;
        Ok(())
    }

    /// Keeps the line of the witness of a race's first event. If it is kept already, nothing is
    /// done.
    fn keep_witness(&self, alloc: Global, kept: &mut ShownRun, race: Pair) -> Result<(), AllocError>
        requires fits { R.fits self.now.renderer.now self.now.listing.now.judged.chart }
        requires race { IsRace (wiring_of self.now.listing.now.judged) race.0 race.1 }
        requires short { self.now.options.short ≡ false }
        requires kept { HasKept (wiring_of self.now.listing.now.judged)
            (R.run_text self.now.renderer.now self.now.listing.now.judged.chart) kept.old }
        ensures kept { HasKept (wiring_of self.now.listing.now.judged)
            (R.run_text self.now.renderer.now self.now.listing.now.judged.chart) kept.new }
        ensures line { OnOk result ((runs : ℕ × ℕ → List ℕ)
            → AreShown self.now.options.short (wiring_of self.now.listing.now.judged) runs
            → kept.new.line.items ≡ R.run_text self.now.renderer.now
            self.now.listing.now.judged.chart (runs race)) }
    {
        if let Some(e) = kept.witness_of {
            if e == race.0 {
                return Ok(());
            }
        }
        let line = self.witness_line(alloc, race.0)?;
        kept.witness_of = Some(race.0);
        kept.line = line;
        Ok(())
    }

    /// Keeps the line of the run that shows a race.
    fn keep_line(&self, alloc: Global, kept: &mut ShownRun, race: Pair) -> Result<(), AllocError>
        requires fits { R.fits self.now.renderer.now self.now.listing.now.judged.chart }
        requires race { IsRace (wiring_of self.now.listing.now.judged) race.0 race.1 }
        requires kept { HasKept (wiring_of self.now.listing.now.judged)
            (R.run_text self.now.renderer.now self.now.listing.now.judged.chart) kept.old }
        ensures kept { HasKept (wiring_of self.now.listing.now.judged)
            (R.run_text self.now.renderer.now self.now.listing.now.judged.chart) kept.new }
        ensures line { OnOk result ((runs : ℕ × ℕ → List ℕ)
            → AreShown self.now.options.short (wiring_of self.now.listing.now.judged) runs
            → kept.new.line.items ≡ R.run_text self.now.renderer.now
            self.now.listing.now.judged.chart (runs race)) }
    {
        if self.options.short {
            return self.keep_short(alloc, kept, race);
        }
        self.keep_witness(alloc, kept, race)
    }

    /// Prints a race as a finding of this number, with a line if one is given.
    // Inlined, as `print_race` and `print_row` are: a chart may have half a million races.
    #[inline(always)]
    fn print_finding<W: Write>(
        &self,
        printer: &mut Printer<'_, W>,
        race: Pair,
        number: u32,
        line: Option<&[u8]>,
    )
        requires fits { R.fits self.now.renderer.now self.now.listing.now.judged.chart }
        requires race { IsRace (wiring_of self.now.listing.now.judged) race.0 race.1 }
        ensures { Prints printer.old printer.new (R.finding_text self.now.renderer.now
            self.now.listing.now.judged.chart
            (finding_of self.now.options.why (cause_in self.now.listing.now.judged) number race)
            (option_map (λ l. l.now) line.entry)) }
    {
        let finding = self.finding_of(race, number);
        let text = FindingText {
            renderer: self.renderer,
            chart: self.listing.enforced().chart(),
            finding,
            line,
        };
        printer.print_text(&text);
    }

    /// Prints a race of this number, which is one of the first, with the line of the run that shows
    /// it. If memory runs out, the printer stops.
    // Apart from `print_race`: room for a run is made only here.
    #[inline(never)]
    fn print_shown<W: Write>(
        &self,
        alloc: Global,
        printer: &mut Printer<'_, W>,
        kept: &mut ShownRun,
        number: u32,
        race: Pair,
    )
        requires fits { R.fits self.now.renderer.now self.now.listing.now.judged.chart }
        requires race { IsRace (wiring_of self.now.listing.now.judged) race.0 race.1 }
        requires shown { number < self.now.options.show }
        requires kept { HasKept (wiring_of self.now.listing.now.judged)
            (R.run_text self.now.renderer.now self.now.listing.now.judged.chart) kept.old }
        ensures kept { HasKept (wiring_of self.now.listing.now.judged)
            (R.run_text self.now.renderer.now self.now.listing.now.judged.chart) kept.new }
        ensures printed { (runs : ℕ × ℕ → List ℕ)
            → AreShown self.now.options.short (wiring_of self.now.listing.now.judged) runs
            → Prints printer.old printer.new (race_text
            (texts R.heading_text R.run_text R.finding_text R.end_text
            self.now.renderer.now self.now.listing.now.judged.chart)
            self.now.listing.now.judged self.now.options runs number race) }
    {
        match self.keep_line(alloc, kept, race) {
            Ok(()) => {
                let line = Some(kept.line.as_slice());
                self.print_finding(printer, race, number, line);
            }
            Err(_) => printer.stop(),
        }
    }

    /// Prints a race of this number, with the line of the run that shows it if it is one of the
    /// first. If memory runs out, the printer stops.
    #[inline(always)]
    fn print_race<W: Write>(
        &self,
        alloc: Global,
        printer: &mut Printer<'_, W>,
        kept: &mut ShownRun,
        number: u32,
        race: Pair,
    )
        requires fits { R.fits self.now.renderer.now self.now.listing.now.judged.chart }
        requires race { IsRace (wiring_of self.now.listing.now.judged) race.0 race.1 }
        requires kept { HasKept (wiring_of self.now.listing.now.judged)
            (R.run_text self.now.renderer.now self.now.listing.now.judged.chart) kept.old }
        ensures kept { HasKept (wiring_of self.now.listing.now.judged)
            (R.run_text self.now.renderer.now self.now.listing.now.judged.chart) kept.new }
        ensures printed { (runs : ℕ × ℕ → List ℕ)
            → AreShown self.now.options.short (wiring_of self.now.listing.now.judged) runs
            → Prints printer.old printer.new (race_text
            (texts R.heading_text R.run_text R.finding_text R.end_text
            self.now.renderer.now self.now.listing.now.judged.chart)
            self.now.listing.now.judged self.now.options runs number race) }
    {
        if number >= self.options.show {
            self.print_finding(printer, race, number, None);
            return;
        }
        self.print_shown(alloc, printer, kept, number, race);
    }
}

impl<'t, 'a, R: Renderer> Rows for RaceRows<'t, 'a, R> {
    type Memo = ShownRun;

    ghost can_print = { λ s p. R.fits s.renderer.now s.listing.now.judged.chart
        × IsRace (wiring_of s.listing.now.judged) p.0 p.1 };

    ghost are_runs = { λ s runs. AreShown s.options.short (wiring_of s.listing.now.judged) runs };

    ghost row_text = { λ s runs n p. first_row (race_text
        (texts R.heading_text R.run_text R.finding_text R.end_text
        s.renderer.now s.listing.now.judged.chart)
        s.listing.now.judged s.options runs) s.options.most n p };

    ghost after = { λ s n p. next_number s.options.most n p };

    ghost has_memo = { λ s kept. HasKept (wiring_of s.listing.now.judged)
        (R.run_text s.renderer.now s.listing.now.judged.chart) kept };

    ghost goes_on = { λ s. ⊥ };

    fn memo(&self, alloc: Global) -> ShownRun {
        ShownRun {
            witness_of: None,
            line: Vec::new(alloc),
        }
    }

    #[inline(always)]
    fn print_row<W: Write>(
        &self,
        alloc: Global,
        printer: &mut Printer<'_, W>,
        memo: &mut ShownRun,
        count: u32,
        pair: Pair,
    ) -> u32 {
        if count >= self.options.most {
            return count;
        }
        self.print_race(alloc, printer, memo, count, pair);
        count + 1
    }

    fn is_done(&self, count: u32) -> bool {
        if count < self.options.most {
            return false;
        }
        true
    }
}
