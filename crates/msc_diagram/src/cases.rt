//! All scenarios, one below the other.

ghost use Rattle.std.specs.Prelude.{◌≡◌, ◌++◌, ◌<◌, ℕ, List, None, OnOk, Some, cond, length};
ghost use Rattle.std.specs.List.{All};
ghost use Rattle.msc_race.specs.Views.{wiring_of, AreRacesOf};
ghost use Rattle.msc_reason.specs.Counting.{listed};
ghost use Rattle.msc_reason.specs.Marked.{cause_in};
ghost use Rattle.msc_judge.specs.Findings.{AreShown};
ghost use Rattle.msc_judge.specs.Telling.{race_text, told_from};
ghost use Rattle.msc_diagram.specs.Places.{above_with, fresh, AreAllPlaces};
ghost use Rattle.msc_diagram.specs.Scenarios.{head_text, told_text, AreTextsIf};
ghost use Rattle.msc_diagram.specs.Telling.{has_heads, AreTextsBy, PutsNew, TellsCase, TellsCases};

use crate::check::ScenarioCheck;
use crate::counting::new_listed;
use crate::full::{FullAsked, FullRaces, print_full};
use crate::marked::{left_out, marked_races};
use crate::place::{EventPlace, places_of};
use crate::reported::ReportedRaces;
use crate::scenario::Scenario;
use crate::source::Source;
use crate::telling::{Head, NewPairs, print_scenario};
use msc_judge::RaceRows;
use msc_print::{Page, WriteFault};
use msc_race::Enforced;
use msc_race::laws::{short_witnesses_show, the_witness_reverses};
use msc_reason::{Listing, count_counting};
use msc_report::{Editor, Lines, Style};
use std::alloc::Global;
use std::io::Write;

/// How scenarios are printed: in lines, with runs in words or by numbers; in lines for editors; or
/// as people read them.
#[derive(Clone, Copy)]
pub(crate) enum RaceFormat<'f, 'w> {
    Lines(bool),
    Editor,
    Full(FullRaces<'f, 'w>),
}

/// A check of scenarios, and the format of its answer.
#[derive(Clone, Copy)]
pub(crate) struct Asked<'f, 'w> {
    pub check: ScenarioCheck<'f>,
    pub format: RaceFormat<'f, 'w>,
}

/// A scenario with its number, from 1, and the number of its races.
#[derive(Clone, Copy)]
pub(crate) struct Numbered<'s, 'f> {
    pub scenario: &'s Scenario<'f>,
    pub number: usize,
    pub races: u32,
}

/// Appends the head of a scenario and its new races to a page in a format. Full pages go to the
/// writer.
fn print_new<W: Write>(
    alloc: Global,
    writer: &mut W,
    page: &mut Page,
    new: NewPairs<'_>,
    places: &[EventPlace],
    listing: &Listing<'_>,
    asked: Asked<'_, '_>,
    numbered: Numbered<'_, '_>,
) -> Result<(), WriteFault>
    requires chart { listing.now.judged.chart ≡ numbered.scenario.now.chart }
    requires races { AreRacesOf listing.now.judged new.pairs.now }
    requires places { AreAllPlaces numbered.scenario.now places.now }
    requires within { All (λ p. (p.0 < length places.now) × (p.1 < length places.now)) new.pairs.now }
    ensures { (runs : ℕ × ℕ → List ℕ)
        → AreShown asked.entry.check.options.short (wiring_of listing.now.judged) runs
        → PutsNew (AreTextsBy asked.entry.format asked.entry.check.queues numbered.entry.number
        new.entry.first new.entry.pairs.now numbered.entry.scenario.now)
        (λ texts. head_text (cond (has_heads asked.entry.format) (Some numbered.entry.number) None)
        numbered.entry.scenario.now.choices numbered.entry.races
        ++ told_from (race_text texts listing.now.judged asked.entry.check.options runs)
        asked.entry.check.options.most new.entry.first new.entry.pairs.now)
        result (W.contents writer.old) (W.contents writer.new)
        page.old.bytes.items page.new.bytes.items }
{
    let Numbered {
        scenario,
        number,
        races,
    } = numbered;
    let options = asked.check.options;
    match asked.format {
        RaceFormat::Lines(words) => {
            let style = Style {
                event_positions: Some(&scenario.event_positions),
                words,
            };
            let rows = RaceRows {
                listing,
                options,
                renderer: &Lines::of(alloc, &scenario.chart, races, style)?,
            };
            let head = Head {
                number: Some(number),
                races,
            };
            print_scenario(alloc, writer, page, &rows, new, scenario, head)
        }
        RaceFormat::Editor => {
            let rows = RaceRows {
                listing,
                options,
                renderer: &Editor {
                    event_positions: &scenario.event_positions,
                },
            };
            let head = Head {
                number: None,
                races,
            };
            print_scenario(alloc, writer, page, &rows, new, scenario, head)
        }
        RaceFormat::Full(races) => {
            let asked = FullAsked {
                queues: asked.check.queues,
                options,
                races,
            };
            print_full(alloc, writer, page, new, places, listing, asked, numbered)
        }
    }
}

/// Appends a scenario to a page in a format, if it has a new race: only then the texts of its
/// events are made. Full pages go to the writer.
fn print_in_format<W: Write>(
    alloc: Global,
    writer: &mut W,
    page: &mut Page,
    reported: &mut ReportedRaces,
    listing: &Listing<'_>,
    asked: Asked<'_, '_>,
    numbered: Numbered<'_, '_>,
) -> Result<(), WriteFault>
    requires chart { listing.now.judged.chart ≡ numbered.scenario.now.chart }
    ensures reported { OnOk result (reported.new ≡ above_with numbered.entry.scenario.now reported.old
        (listed listing.now.judged listing.now.allowed listing.now.closest
        (cause_in listing.now.judged))) }
    ensures put { (runs : ℕ × ℕ → List ℕ)
        → AreShown asked.entry.check.options.short (wiring_of listing.now.judged) runs
        → PutsNew (AreTextsIf (AreTextsBy asked.entry.format asked.entry.check.queues)
        numbered.entry.number (length reported.old) (fresh numbered.entry.scenario.now reported.old
        (listed listing.now.judged listing.now.allowed listing.now.closest
        (cause_in listing.now.judged))) numbered.entry.scenario.now)
        (λ texts. told_text (race_text texts listing.now.judged asked.entry.check.options runs)
        (head_text (cond (has_heads asked.entry.format) (Some numbered.entry.number) None)
        numbered.entry.scenario.now.choices numbered.entry.races)
        asked.entry.check.options.most (length reported.old) (fresh numbered.entry.scenario.now reported.old
        (listed listing.now.judged listing.now.allowed listing.now.closest
        (cause_in listing.now.judged))))
        result (W.contents writer.old) (W.contents writer.new)
        page.old.bytes.items page.new.bytes.items }
{
    listing.enforced().facts();
    let places = places_of(alloc, numbered.scenario)?;
    let first = reported.len();
    let new = new_listed(alloc, reported, listing, places.as_slice())?;
    if new.is_empty() {
        return Ok(());
    }
    let new = NewPairs {
        pairs: new.as_slice(),
        first,
    };
    print_new(
        alloc,
        writer,
        page,
        new,
        places.as_slice(),
        listing,
        asked,
        numbered,
    )
}

/// Appends the scenario of this number to a page, and returns how many of its races count.
fn print_case<W: Write>(
    alloc: Global,
    writer: &mut W,
    page: &mut Page,
    reported: &mut ReportedRaces,
    asked: Asked<'_, '_>,
    scenario: &Scenario<'_>,
    number: usize,
) -> Result<u32, WriteFault>
    ensures { TellsCase asked.entry number scenario.now reported.old reported.new
        (W.contents writer.old) (W.contents writer.new)
        page.old.bytes.items page.new.bytes.items result }
{
    the_witness_reverses();
    short_witnesses_show();
    let check = asked.check;
    let enforced = Enforced::of(alloc, &scenario.chart, check.queues)?;
    enforced.facts();
    let races = enforced.count_races();
    let marked = marked_races(alloc, check, scenario, &enforced)?;
    let left = left_out(check.options.allowed, marked.as_ref());
    let counting = count_counting(alloc, &enforced, left, races)?;
    let listing = &Listing::of(alloc, enforced, left, check.options.closest)?;
    let numbered = Numbered {
        scenario,
        number,
        races,
    };
    print_in_format(alloc, writer, page, reported, listing, asked, numbered)?;
    Ok(counting)
}

/// Appends scenarios to a page, one after another, and returns how many of them have no race that
/// counts. Full pages go to the writer.
pub(crate) fn print_cases<S: Source, W: Write>(
    alloc: Global,
    writer: &mut W,
    page: &mut Page,
    reported: &mut ReportedRaces,
    asked: Asked<'_, '_>,
    scenarios: &S,
) -> Result<usize, WriteFault>
    ensures { TellsCases asked.entry (S.scenarios scenarios.now) reported.old reported.new
        (W.contents writer.old) (W.contents writer.new)
        page.old.bytes.items page.new.bytes.items result }
{
    let mut passed = 0;
    for i in 0..scenarios.len() {
        let scenario = scenarios.scenario(alloc, i)?;
        let counting = print_case(alloc, writer, page, reported, asked, scenario.get(), i + 1)?;
        if counting == 0 {
            passed += 1;
        }
    }
    Ok(passed)
}
