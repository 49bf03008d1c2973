//! Races as diagnostics.

ghost use Rattle.std.specs.Prelude.{◌≡◌, IfOk, map};
ghost use Rattle.std.specs.Option.{option_copied};
ghost use Rattle.msc_diagnostic.specs.Plain.{plain_mark, plain_note};
ghost use Rattle.msc_full.specs.Blocks.{rows_of};
ghost use Rattle.msc_full.specs.Races.{is_one_span, left_between, left_text, numbers_of, race_level};
ghost use Rattle.msc_full.specs.Races.{plain_race, race_marks, race_notes};
ghost use Rattle.msc_full.specs.Races.{race_text, spoken_race, text_between};
ghost use Rattle.msc_full.specs.Races.{AreStrings};

use crate::block::{
    BlockParts, PairEvents, PairNumbers, events_of, mark, note, parts_text, way_between,
};
use crate::event::{ShownEvent, ShownText};
use msc_chart::Event;
use msc_diagnostic::{Level, Mark, Note, NoteKind, Sign};
use msc_reason::Cause;
use msc_wording::{SpokenPair, SpokenRace};
use std::alloc::{AllocError, Global};

/// A race, as sentences name it.
fn spoken_race<'t>(events: PairEvents<'t>, cause: Cause, is_next: bool) -> SpokenRace<'t>
    ensures { result ≡ spoken_race events.entry cause is_next }
{
    SpokenRace {
        pair: SpokenPair {
            first: events.first.spoken,
            second: events.second.spoken,
            is_next,
            needed: events.needed.spoken,
            output: events.output.spoken,
        },
        kind: cause.kind,
        is_always: cause.always,
        way: way_between(&events.first, &events.second),
    }
}

/// The level of a race: one that every run reverses is an error.
fn race_level(is_always: bool) -> Level
    ensures { result ≡ race_level is_always }
{
    if is_always {
        Level::Error
    } else {
        Level::Warning
    }
}

/// Whether two events are in one statement of the text.
fn is_one_span(first: &ShownEvent<'_>, second: &ShownEvent<'_>) -> bool
    ensures { result ≡ is_one_span first.now second.now }
{
    first.first == second.first && first.past == second.past
}

/// The marks of a race: a caret at the event that is drawn first, and a dash at the other one; or one
/// mark, if both are in one statement.
fn race_marks(
    alloc: Global,
    race: &SpokenRace<'_>,
    first: &ShownEvent<'_>,
    second: &ShownEvent<'_>,
) -> Result<Vec<Mark<'static>>, AllocError>
    ensures { IfOk result (λ marks.
        map plain_mark marks.items ≡ race_marks race.now first.now second.now) }
{
    let mut marks = Vec::new(alloc);
    if is_one_span(first, second) {
        marks.push(mark(first, Sign::Caret, race.shared_label()))?;
        return Ok(marks);
    }
    marks.push(mark(first, Sign::Caret, race.first_label()))?;
    marks.push(mark(second, Sign::Dash, race.second_label()))?;
    Ok(marks)
}

/// What the notes of a race say.
#[derive(Clone, Copy)]
struct RaceNotes<'n> {
    reason: &'n str,
    scenarios: Option<&'n str>,
    help: &'n str,
    run: Option<&'n [&'n str]>,
}

/// The notes of a race: why it is one, in which scenarios, what would prevent it, and a run.
fn race_notes<'n>(alloc: Global, said: RaceNotes<'n>) -> Result<Vec<Note<'n>>, AllocError>
    ensures { IfOk result (λ notes. map plain_note notes.items
        ≡ race_notes said.entry.reason.now (option_copied said.entry.scenarios)
        said.entry.help.now (rows_of said.entry.run)) }
{
    let mut notes = Vec::new(alloc);
    notes.push(note(NoteKind::Note, said.reason))?;
    if let Some(scenarios) = said.scenarios {
        notes.push(note(NoteKind::Note, scenarios))?;
    }
    notes.push(note(NoteKind::Help, said.help))?;
    if let Some(rows) = said.run {
        notes.push(Note {
            kind: NoteKind::Note,
            text: "a run that shows it:",
            rows,
        })?;
    }
    Ok(notes)
}

/// A race to print as a diagnostic.
#[derive(Clone, Copy)]
pub struct ShownRace<'t> {
    /// The event that is drawn first, and the one that can come before it.
    pub first: Event,
    pub second: Event,
    /// Why it is a race, and what it lacks.
    pub cause: Cause,
    /// Whether the second event is of the next round.
    pub is_next: bool,
    /// A note on the scenarios of a diagram in which it is a race, if there is one.
    pub scenarios: Option<&'t str>,
    /// The rows of a run that shows it, if one is printed.
    pub run: Option<&'t [&'t str]>,
}

/// The texts of a race.
#[derive(Drop)]
struct RaceStrings {
    sentence: String,
    reason: String,
    help: String,
}

/// The texts of a race: its sentence, its reason and its help.
fn strings_of(
    alloc: Global,
    text: ShownText<'_, '_>,
    race: &SpokenRace<'_>,
) -> Result<RaceStrings, AllocError>
    ensures { IfOk result (λ strings. AreStrings text.entry race.now strings) }
{
    let sentence = race.sentence(alloc, text.names)?;
    let reason = race.reason(alloc, text.names)?;
    let marked = [race.pair.first.line, race.pair.second.line];
    let help = race.help(alloc, text.names, &marked)?;
    Ok(RaceStrings {
        sentence,
        reason,
        help,
    })
}

/// The text of the diagnostic of a race between two events.
fn text_between<'t>(
    alloc: Global,
    text: ShownText<'_, '_>,
    shown: ShownRace<'t>,
    first: &ShownEvent<'t>,
    second: &ShownEvent<'t>,
    race: &SpokenRace<'_>,
) -> Result<Vec<u8>, AllocError>
    ensures { IfOk result (λ bytes. bytes.items
        ≡ text_between text.entry (plain_race shown.entry) first.now second.now race.now) }
{
    let strings = strings_of(alloc, text, race)?;
    let said = RaceNotes {
        reason: strings.reason.as_str(),
        scenarios: shown.scenarios,
        help: strings.help.as_str(),
        run: shown.run,
    };
    let marks = race_marks(alloc, race, first, second)?;
    let notes = race_notes(alloc, said)?;
    let parts = BlockParts {
        level: race_level(race.is_always),
        id: race.kind.word(),
        sentence: strings.sentence.as_str(),
        place: first.place,
    };
    let bytes = parts_text(alloc, text, parts, marks.as_slice(), notes.as_slice())?;
    Ok(bytes)
}

/// The numbers of the events of a race, and of those of its cause.
fn numbers_of(race: ShownRace<'_>) -> PairNumbers
    ensures { result ≡ numbers_of (plain_race race.entry) }
{
    PairNumbers {
        first: race.first,
        second: race.second,
        needed: race.cause.needed,
        output: race.cause.output,
    }
}

/// A race as a diagnostic, with an empty row after it: that its second event can come before its
/// first, both in the lines of the text, why, in which scenarios, what would prevent it, and a run.
/// It is empty if the text lacks one of the events. The only error is want of memory.
pub fn race_text(
    alloc: Global,
    text: ShownText<'_, '_>,
    race: ShownRace<'_>,
) -> Result<Vec<u8>, AllocError>
    ensures { IfOk result (λ bytes. bytes.items ≡ race_text text.entry (plain_race race.entry)) }
{
    let Some(events) = events_of(text.events, numbers_of(race)) else {
        return Ok(Vec::new(alloc));
    };
    let spoken = spoken_race(events, race.cause, race.is_next);
    let bytes = text_between(alloc, text, race, &events.first, &events.second, &spoken)?;
    Ok(bytes)
}

/// The text of the diagnostic of a race that is left, between two events.
fn left_between<'t>(
    alloc: Global,
    text: ShownText<'_, '_>,
    first: &ShownEvent<'t>,
    second: &ShownEvent<'t>,
    race: &SpokenRace<'_>,
) -> Result<Vec<u8>, AllocError>
    ensures { IfOk result (λ bytes. bytes.items
        ≡ left_between text.entry first.now second.now race.now) }
{
    let sentence = race.sentence(alloc, text.names)?;
    let marks = race_marks(alloc, race, first, second)?;
    let parts = BlockParts {
        level: Level::Warning,
        id: "race",
        sentence: sentence.as_str(),
        place: first.place,
    };
    let bytes = parts_text(alloc, text, parts, marks.as_slice(), &[])?;
    Ok(bytes)
}

/// A race that is left where only some instances are ready, as a diagnostic with an empty row after
/// it: that its second event can come before its first, both in the lines of the text. It is empty
/// if the text lacks one of the events. The only error is want of memory.
pub fn left_text(
    alloc: Global,
    text: ShownText<'_, '_>,
    race: ShownRace<'_>,
) -> Result<Vec<u8>, AllocError>
    ensures { IfOk result (λ bytes. bytes.items ≡ left_text text.entry (plain_race race.entry)) }
{
    let Some(events) = events_of(text.events, numbers_of(race)) else {
        return Ok(Vec::new(alloc));
    };
    let spoken = spoken_race(events, race.cause, race.is_next);
    let bytes = left_between(alloc, text, &events.first, &events.second, &spoken)?;
    Ok(bytes)
}
