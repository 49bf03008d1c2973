//! Prints the new races of one scenario, after those of earlier scenarios.

ghost use Rattle.std.specs.Prelude.{◌≡◌, ◌++◌, ℕ, List, OnOk};
ghost use Rattle.msc_print.specs.Pages.{Puts};
ghost use Rattle.msc_race.specs.Views.{wiring_of, AreRacesOf};
ghost use Rattle.msc_judge.specs.Findings.{texts, AreShown};
ghost use Rattle.msc_judge.specs.Telling.{race_text, told_from};
ghost use Rattle.msc_diagram.specs.Scenarios.{head_text};

use crate::heads::write_scenario_head;
use crate::scenario::Scenario;
use msc_judge::{RaceRows, Renderer};
use msc_print::{Page, Pair, PairList, Print, Printer, WriteFault, print_by, print_pairs};
use std::alloc::{AllocError, Global};
use std::io::Write;

/// Appends the head of a scenario with `races` races to a page, if it has a number.
fn print_head(
    page: &mut Page,
    number: Option<usize>,
    choices: &[usize],
    races: u32,
) -> Result<(), AllocError>
    ensures { OnOk result (page.new.bytes.items
        ≡ page.old.bytes.items ++ head_text number choices.now races) }
{
    let Some(number) = number else {
        return Ok(());
    };
    match write_scenario_head(page, number, choices, races) {
        Ok(()) => Ok(()),
        Err(_) => Err(AllocError),
    }
}

/// The head of a scenario, which precedes its listed races: its number, if heads are printed, and
/// the number of its races.
#[derive(Clone, Copy)]
pub(crate) struct Head {
    pub number: Option<usize>,
    pub races: u32,
}

/// New races of a scenario, numbered from `first` on.
#[derive(Clone, Copy)]
pub(crate) struct NewPairs<'t> {
    pub pairs: &'t [Pair],
    pub first: u32,
}

/// Races of a scenario, numbered from `first` on.
#[derive(Drop)]
struct NewRaces<'t, 'a, R: Renderer> {
    rows: &'t RaceRows<'t, 'a, R>,
    races: &'t [Pair],
    first: u32,
}

impl<'t, 'a, R: Renderer> Print for NewRaces<'t, 'a, R> {
    ghost can_print = { λ n. R.fits n.rows.now.renderer.now n.rows.now.listing.now.judged.chart
        × AreRacesOf n.rows.now.listing.now.judged n.races.now };

    ghost is_text = { λ n text. (runs : ℕ × ℕ → List ℕ)
        × AreShown n.rows.now.options.short (wiring_of n.rows.now.listing.now.judged) runs
        × (text ≡ told_from (race_text (texts R.heading_text R.run_text R.finding_text R.end_text
        n.rows.now.renderer.now n.rows.now.listing.now.judged.chart)
        n.rows.now.listing.now.judged n.rows.now.options runs)
        n.rows.now.options.most n.first n.races.now) };

    ghost is_answer = { λ n answer. Unit {0} };

    fn print<W: Write>(
        &self,
        alloc: Global,
        printer: &mut Printer<'_, W>,
    ) -> Result<bool, AllocError> {
        let list = PairList { pairs: self.races };
        let mut walk = list;
        print_pairs(alloc, printer, &list, &mut walk, self.rows, self.first)?;
        Ok(true)
    }
}

/// Appends the head of a scenario and its new races to a page. Full pages go to the writer.
pub(crate) fn print_scenario<R: Renderer, W: Write>(
    alloc: Global,
    writer: &mut W,
    page: &mut Page,
    rows: &RaceRows<'_, '_, R>,
    new: NewPairs<'_>,
    scenario: &Scenario<'_>,
    head: Head,
) -> Result<(), WriteFault>
    requires fits { R.fits rows.now.renderer.now rows.now.listing.now.judged.chart }
    requires races { AreRacesOf rows.now.listing.now.judged new.pairs.now }
    ensures { (runs : ℕ × ℕ → List ℕ)
        → AreShown rows.now.options.short (wiring_of rows.now.listing.now.judged) runs
        → Puts result (W.contents writer.old) (W.contents writer.new)
        page.old.bytes.items page.new.bytes.items
        (head_text head.number scenario.now.choices head.races ++ told_from (race_text
        (texts R.heading_text R.run_text R.finding_text R.end_text
        rows.now.renderer.now rows.now.listing.now.judged.chart)
        rows.now.listing.now.judged rows.now.options runs)
        rows.now.options.most new.entry.first new.entry.pairs.now) }
{
    print_head(page, head.number, scenario.choices.as_slice(), head.races)?;
    let races = NewRaces {
        rows,
        races: new.pairs,
        first: new.first,
    };
    print_by(alloc, &races, writer, page)?;
    Ok(())
}
