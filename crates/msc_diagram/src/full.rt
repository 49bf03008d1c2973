//! The races of a scenario as people read them.

ghost use Rattle.std.specs.Prelude.{◌≡◌, ◌<◌, ℕ, IfOk, List, length};
ghost use Rattle.std.specs.List.{All};
ghost use Rattle.msc_race.specs.Views.{wiring_of, AreRacesOf};
ghost use Rattle.msc_judge.specs.Findings.{AreShown, Texts};
ghost use Rattle.msc_judge.specs.Telling.{race_text, told_from};
ghost use Rattle.msc_print.specs.Pages.{Puts};
ghost use Rattle.msc_diagram.specs.Full.{AreEventsOf, AreFullTexts};
ghost use Rattle.msc_diagram.specs.Places.{AreAllPlaces};
ghost use Rattle.msc_diagram.specs.Tallies.{counts_of};
ghost use Rattle.msc_diagram.specs.Telling.{AreCaseWords, PutsNew};

use crate::arrows::{arrows_of, rounds_of};
use crate::cases::Numbered;
use crate::place::EventPlace;
use crate::tally::PlaceTally;
use crate::telling::{Head, NewPairs, print_scenario};
use msc_chart::Queues;
use msc_findings::{ClosingNames, Following, FullScenario, ShownScenario};
use msc_judge::{CheckOptions, RaceRows};
use msc_mermaid::Diagram;
use msc_print::{Page, Pair, WriteFault};
use msc_reason::Listing;
use msc_shown_diagram::{LentDiagram, ScenarioEvents, choices_said};
use std::alloc::{AllocError, Global};
use std::io::Write;

/// A diagram as its findings show it.
#[derive(Clone, Copy)]
pub struct FullDiagram<'f, 'w> {
    /// Its words, lent.
    pub lent: &'f LentDiagram<'w>,
    pub diagram: &'f Diagram,
    /// The text of its file.
    pub text: &'f [u8],
    /// The names in its closing line.
    pub names: ClosingNames<'f>,
    pub following: Following,
}

/// The races of the scenarios of a diagram as people read them: the diagram, the number of its
/// scenarios, and in how many of them a race counts at each place.
#[derive(Clone, Copy)]
pub(crate) struct FullRaces<'f, 'w> {
    pub shown: FullDiagram<'f, 'w>,
    pub scenarios: usize,
    pub tally: &'f PlaceTally,
}

/// What is asked of the races of a scenario.
#[derive(Clone, Copy)]
pub(crate) struct FullAsked<'f, 'w> {
    pub queues: Queues,
    pub options: CheckOptions,
    pub races: FullRaces<'f, 'w>,
}

/// The events of a scenario, by the words of its diagram.
fn events_of<'w>(
    alloc: Global,
    shown: FullDiagram<'_, 'w>,
    queues: Queues,
    numbered: Numbered<'_, '_>,
) -> Result<ScenarioEvents<'w>, AllocError>
    ensures { IfOk result (AreEventsOf shown.entry queues numbered.entry.scenario.now) }
{
    let scenario = numbered.scenario;
    let events = scenario.spans.events.as_slice();
    let arrows = arrows_of(alloc, shown.diagram.statements.as_slice(), events)?;
    let rounds = rounds_of(alloc, events)?;
    shown.lent.scenario(
        alloc,
        &scenario.chart,
        queues,
        arrows.as_slice(),
        rounds.as_slice(),
    )
}

/// The words of the new races of a scenario: those of its events, its choices, and for each of these
/// races the number of scenarios in which one at its places counts.
#[derive(Drop)]
struct CaseWords<'w> {
    events: ScenarioEvents<'w>,
    choices: String,
    counts: Vec<usize>,
}

/// The words of the new races of a scenario, whose events have these places.
fn words_of<'w>(
    alloc: Global,
    asked: FullAsked<'_, 'w>,
    places: &[EventPlace],
    pairs: &[Pair],
    numbered: Numbered<'_, '_>,
) -> Result<CaseWords<'w>, AllocError>
    requires places { AreAllPlaces numbered.scenario.now places.now }
    requires within { All (λ p. (p.0 < length places.now) × (p.1 < length places.now)) pairs.now }
    ensures { IfOk result (AreCaseWords asked.entry pairs.now numbered.entry.scenario.now) }
{
    let shown = asked.races.shown;
    let choices = numbered.scenario.choices.as_slice();
    let events = events_of(alloc, shown, asked.queues, numbered)?;
    let choices = choices_said(alloc, shown.diagram, shown.text, choices)?;
    let counts = asked.races.tally.counts(alloc, places, pairs)?;
    Ok(CaseWords {
        events,
        choices,
        counts,
    })
}

/// Appends the new races of a scenario with these words to a page. Full pages go to the writer.
// Apart from `print_full`, whose words outlast what is lent of them here.
fn print_with<'x, 'w, W: Write>(
    alloc: Global,
    writer: &mut W,
    page: &mut Page,
    new: NewPairs<'_>,
    listing: &Listing<'_>,
    asked: FullAsked<'x, 'w>,
    numbered: Numbered<'_, '_>,
    words: &'x CaseWords<'w>,
) -> Result<(), WriteFault>
    requires races { AreRacesOf listing.now.judged new.pairs.now }
    requires words { AreCaseWords asked new.pairs.now numbered.scenario.now words.now }
    ensures { (runs : ℕ × ℕ → List ℕ)
        → AreShown asked.entry.options.short (wiring_of listing.now.judged) runs
        → (texts : Texts) × AreFullTexts asked.entry.races.shown asked.entry.races.scenarios
        asked.entry.queues numbered.entry.number new.entry.first
        (counts_of asked.entry.races.tally.now numbered.entry.scenario.now new.entry.pairs.now)
        numbered.entry.scenario.now texts
        × Puts result (W.contents writer.old) (W.contents writer.new)
        page.old.bytes.items page.new.bytes.items
        (told_from (race_text texts listing.now.judged asked.entry.options runs)
        asked.entry.options.most new.entry.first new.entry.pairs.now) }
{
    let shown = asked.races.shown;
    let renderer = FullScenario {
        alloc,
        text: shown.lent.text(&words.events, shown.names.colours),
        scenario: ShownScenario {
            number: numbered.number,
            scenarios: asked.races.scenarios,
            choices: words.choices.as_str(),
            counts: words.counts.as_slice(),
            first: new.first,
            rounds: words.events.rounds.as_slice(),
        },
    };
    let rows = RaceRows {
        listing,
        options: asked.options,
        renderer: &renderer,
    };
    let head = Head {
        number: None,
        races: numbered.races,
    };
    print_scenario(alloc, writer, page, &rows, new, numbered.scenario, head)
}

/// Appends the new races of a scenario to a page. Full pages go to the writer. `places` has the
/// places of its events.
pub(crate) fn print_full<W: Write>(
    alloc: Global,
    writer: &mut W,
    page: &mut Page,
    new: NewPairs<'_>,
    places: &[EventPlace],
    listing: &Listing<'_>,
    asked: FullAsked<'_, '_>,
    numbered: Numbered<'_, '_>,
) -> Result<(), WriteFault>
    requires races { AreRacesOf listing.now.judged new.pairs.now }
    requires places { AreAllPlaces numbered.scenario.now places.now }
    requires within { All (λ p. (p.0 < length places.now) × (p.1 < length places.now)) new.pairs.now }
    ensures { (runs : ℕ × ℕ → List ℕ)
        → AreShown asked.entry.options.short (wiring_of listing.now.judged) runs
        → PutsNew (AreFullTexts asked.entry.races.shown asked.entry.races.scenarios
        asked.entry.queues numbered.entry.number new.entry.first
        (counts_of asked.entry.races.tally.now numbered.entry.scenario.now new.entry.pairs.now)
        numbered.entry.scenario.now)
        (λ texts. told_from (race_text texts listing.now.judged asked.entry.options runs)
        asked.entry.options.most new.entry.first new.entry.pairs.now)
        result (W.contents writer.old) (W.contents writer.new)
        page.old.bytes.items page.new.bytes.items }
{
    let words = words_of(alloc, asked, places, new.pairs, numbered)?;
    print_with(alloc, writer, page, new, listing, asked, numbered, &words)
}
