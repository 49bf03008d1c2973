//! Instances that can block, as diagnostics.

ghost use Rattle.std.specs.Prelude.{◌≡◌, IfOk, map};
ghost use Rattle.msc_diagnostic.specs.Plain.{plain_mark, plain_note};
ghost use Rattle.msc_full.specs.Sticks.{behind_of, comes_by_mailbox, plain_stick, run_of};
ghost use Rattle.msc_full.specs.Sticks.{shown_part, spoken_stick, stick_between, stick_marks};
ghost use Rattle.msc_full.specs.Sticks.{stick_notes, stick_numbers, stick_text};
ghost use Rattle.msc_full.specs.Sticks.{AreStickStrings};

use crate::block::{BlockParts, PairEvents, PairNumbers, events_of, mark, note, parts_text};
use crate::event::{ShownEvent, ShownText};
use msc_chart::{Event, LinkKind};
use msc_diagnostic::{Level, Mark, Note, NoteKind, Sign};
use msc_wording::{SpokenBlockedPair, SpokenPair};
use std::alloc::{AllocError, Global};

/// What a note shows of a stick.
#[derive(Clone, Copy)]
pub enum StickShown<'t> {
    /// Nothing.
    Nothing,
    /// The rows of a run after which the instance is stuck.
    Run(&'t [&'t str]),
    /// That the instance blocks before, at an earlier line.
    Behind(&'t str),
}

/// A stick to print as a diagnostic: an instance waits for its first input, and the message of the
/// second is ahead in their queue.
#[derive(Clone, Copy)]
pub struct ShownStick<'t> {
    pub first: Event,
    pub second: Event,
    /// The order of these two would prevent it: `output` only after `needed`.
    pub needed: Event,
    pub output: Event,
    /// Whether the second input is of the next round.
    pub is_next: bool,
    pub shown: StickShown<'t>,
}

/// Whether the message of an input comes through a mailbox.
fn comes_by_mailbox(event: &ShownEvent<'_>) -> bool
    ensures { result ≡ comes_by_mailbox event.now.kind }
{
    match event.kind {
        LinkKind::Mailbox => true,
        LinkKind::Pair | LinkKind::Single => false,
    }
}

/// A stick, as sentences name it.
fn spoken_stick<'t>(events: PairEvents<'t>, is_next: bool) -> SpokenBlockedPair<'t>
    ensures { result ≡ spoken_stick events.entry is_next }
{
    SpokenBlockedPair {
        pair: SpokenPair {
            first: events.first.spoken,
            second: events.second.spoken,
            is_next,
            needed: events.needed.spoken,
            output: events.output.spoken,
        },
        in_mailbox: comes_by_mailbox(&events.first),
    }
}

/// The marks of a stick: a caret at the input that is waited for, and a dash at the other one.
fn stick_marks(
    alloc: Global,
    stick: &SpokenBlockedPair<'_>,
    first: &ShownEvent<'_>,
    second: &ShownEvent<'_>,
) -> Result<Vec<Mark<'static>>, AllocError>
    ensures { IfOk result (λ marks.
        map plain_mark marks.items ≡ stick_marks stick.now first.now second.now) }
{
    let mut marks = Vec::new(alloc);
    marks.push(mark(first, Sign::Caret, stick.first_label()))?;
    marks.push(mark(second, Sign::Dash, stick.second_label()))?;
    Ok(marks)
}

/// The notes of a stick: what would prevent it, and what is shown of it.
fn stick_notes<'n>(
    alloc: Global,
    help: &'n str,
    shown: StickShown<'n>,
) -> Result<Vec<Note<'n>>, AllocError>
    ensures { IfOk result (λ notes.
        map plain_note notes.items ≡ stick_notes help.now
        (shown_part (behind_of shown.entry) (run_of shown.entry))) }
{
    let mut notes = Vec::new(alloc);
    notes.push(note(NoteKind::Help, help))?;
    match shown {
        StickShown::Nothing => {}
        StickShown::Run(rows) => {
            notes.push(Note {
                kind: NoteKind::Note,
                text: "a run that shows it:",
                rows,
            })?;
        }
        StickShown::Behind(text) => notes.push(note(NoteKind::Note, text))?,
    }
    Ok(notes)
}

/// The texts of a stick.
#[derive(Drop)]
struct StickStrings {
    sentence: String,
    help: String,
}

/// The texts of a stick: its sentence and its help.
fn strings_of(
    alloc: Global,
    text: ShownText<'_, '_>,
    stick: &SpokenBlockedPair<'_>,
) -> Result<StickStrings, AllocError>
    ensures { IfOk result (λ strings. AreStickStrings text.entry stick.now strings) }
{
    let sentence = stick.sentence(alloc, text.names)?;
    let marked = [stick.pair.first.line, stick.pair.second.line];
    let help = stick.help(alloc, text.names, &marked)?;
    Ok(StickStrings { sentence, help })
}

/// The text of the diagnostic of a stick of two events.
fn stick_between<'t>(
    alloc: Global,
    text: ShownText<'_, '_>,
    shown: StickShown<'t>,
    first: &ShownEvent<'t>,
    second: &ShownEvent<'t>,
    stick: &SpokenBlockedPair<'_>,
) -> Result<Vec<u8>, AllocError>
    ensures { IfOk result (λ bytes. bytes.items
        ≡ stick_between text.entry (shown_part (behind_of shown.entry) (run_of shown.entry))
        first.now second.now stick.now) }
{
    let strings = strings_of(alloc, text, stick)?;
    let marks = stick_marks(alloc, stick, first, second)?;
    let notes = stick_notes(alloc, strings.help.as_str(), shown)?;
    let parts = BlockParts {
        level: Level::Error,
        id: "stick",
        sentence: strings.sentence.as_str(),
        place: first.place,
    };
    let bytes = parts_text(alloc, text, parts, marks.as_slice(), notes.as_slice())?;
    Ok(bytes)
}

/// The numbers of the events of a stick.
fn stick_numbers(stick: ShownStick<'_>) -> PairNumbers
    ensures { result ≡ stick_numbers (plain_stick stick.entry) }
{
    PairNumbers {
        first: stick.first,
        second: stick.second,
        needed: stick.needed,
        output: stick.output,
    }
}

/// A stick as a diagnostic, with an empty row after it: what the instance waits for and what is
/// ahead of it, both in the lines of the text, what would prevent it, and what is shown of it. It is
/// empty if the text lacks one of the events. The only error is want of memory.
pub fn stick_text(
    alloc: Global,
    text: ShownText<'_, '_>,
    stick: ShownStick<'_>,
) -> Result<Vec<u8>, AllocError>
    ensures { IfOk result (λ bytes. bytes.items
        ≡ stick_text text.entry (plain_stick stick.entry)) }
{
    let Some(events) = events_of(text.events, stick_numbers(stick)) else {
        return Ok(Vec::new(alloc));
    };
    let spoken = spoken_stick(events, stick.is_next);
    let (first, second) = (&events.first, &events.second);
    let bytes = stick_between(alloc, text, stick.shown, first, second, &spoken)?;
    Ok(bytes)
}
