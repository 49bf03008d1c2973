//! What the instances and events of a chart are called, and where the statements of events stand.

ghost use Rattle.std.specs.Prelude.{◌≡◌, ◌<◌, ◌≤◌, IfOk, length, map, option_map};
ghost use Rattle.std.specs.String.{string_bytes};
ghost use Rattle.msc_parser.specs.Drafts.{statements_of};
ghost use Rattle.msc_parser.specs.Grammar.{Tree};
ghost use Rattle.msc_parser.specs.Parsing.{HasDraft};
ghost use Rattle.msc_place.specs.Standing.{IsInside};
ghost use Rattle.msc_shown_chart.specs.Words.{event_said, file_said, name_said, plain_words};
ghost use Rattle.msc_shown_chart.specs.Words.{position_said, queues_written, AreAllWords};
ghost use Rattle.msc_shown_chart.specs.Words.{AreEventWords, IsEventWords, IsPlaced};
ghost use Rattle.msc_shown_chart.specs.Charts.{IsShownOf};

use crate::marks::{MarkWords, marks_said};
use msc_chart::{Chart, Event, Queues};
use msc_links::print_queues;
use msc_mark::Marks;
use msc_place::writing::write_file;
use msc_place::{EventPlace, Lines, Places, Position};
use msc_speech::{action_said, message_said};
use msc_spoken::shown;
use std::alloc::{AllocError, Global};

/// The words of an event.
#[derive(Drop)]
pub struct EventWords {
    /// The message as sentences name it, such as `"pay"` in its quotes; of an action its text.
    pub message: String,
    /// Where its statement begins, as it is printed: `FILE:LINE:COLUMN`.
    pub place: String,
    /// The place of the first byte of its statement, and the place after its `;`.
    pub first: usize,
    pub past: usize,
    /// The line on which it begins, from 1.
    pub line: usize,
}

/// The words of a chart and its text.
#[derive(Drop)]
pub struct ChartWords {
    /// The name of the file, as people read it.
    pub file: String,
    /// The architecture, as it is written.
    pub queues: String,
    /// The names of the instances.
    pub names: Vec<String>,
    pub events: Vec<EventWords>,
    /// The marks of the text, if marks are used.
    pub marks: Vec<MarkWords>,
}

/// The name of a file as people read it, without control characters. The only error is want of
/// memory.
pub fn file_said(alloc: Global, file: &[u8]) -> Result<String, AllocError>
    ensures { IfOk result (λ said. string_bytes said ≡ file_said file.now) }
{
    let mut bytes = Vec::new(alloc);
    if write_file(&mut bytes, file).is_err() {
        return Err(AllocError);
    }
    shown(alloc, bytes.as_slice())
}

/// A place in a file, as it is printed: `FILE:LINE:COLUMN`. The only error is want of memory.
#[tactic(auto, unfolding(crate::specs::Words::position_said))]
pub fn position_said(alloc: Global, file: &str, position: Position) -> Result<String, AllocError>
    ensures { IfOk result (λ said. string_bytes said
        ≡ position_said file.now position.line position.column) }
{
    let (line, column) = (position.line, position.column);
    format!(in alloc; "{file}:{line}:{column}")
}

/// What the message or the action of an event is called. The event begins on this line.
fn event_said(alloc: Global, chart: &Chart, e: Event, line: usize) -> Result<String, AllocError>
    requires { e < length chart.now.events }
    ensures { IfOk result (λ said. string_bytes said ≡ event_said chart.now e line) }
{
    match chart.label(e) {
        Some(label) => action_said(alloc, label, line),
        None => {
            let m = chart.message_of(e);
            message_said(alloc, chart.message_name(m), chart.message_number(m))
        }
    }
}

/// A chart and its text, with the name of its file as people read it.
#[derive(Clone, Copy)]
struct Reader<'r, 't> {
    chart: &'r Chart,
    file: &'r str,
    places: &'r Places<'t>,
    lines: &'r Lines<'t>,
    ghost same: { lines.now ≡ places.now.text },
}

impl Reader<'_, '_> {
    /// The words of an event whose statement stands at these places.
    fn words_at(&self, alloc: Global, e: Event, at: EventPlace) -> Result<EventWords, AllocError>
        requires known { e < length self.now.chart.now.events }
        requires inside { IsInside (length self.now.places.now.text) at }
        ensures { IfOk result (λ words. IsPlaced self.now.chart.now self.now.file.now
            self.now.places.now.text e at (plain_words words)) }
    {
        let position = self.lines.position(at.start);
        let message = event_said(alloc, self.chart, e, position.line)?;
        let place = position_said(alloc, self.file, position)?;
        Ok(EventWords {
            message,
            place,
            first: at.start,
            past: at.end,
            line: position.line,
        })
    }

    /// The words of an event.
    fn words(&self, alloc: Global, e: Event) -> Result<EventWords, AllocError>
        requires { e < length self.now.chart.now.events }
        ensures { IfOk result (λ words. (t : Tree) → HasDraft self.now.places.now.text t
            → e < length (statements_of t.sections)
            → IsEventWords self.now.chart.now self.now.file.now self.now.places.now.text t e
            (plain_words words)) }
    {
        match self.places.event(e as usize) {
            Some(at) => self.words_at(alloc, e, at),
            None => {
                let nowhere = EventPlace {
                    start: 0,
                    end: 0,
                    address: None,
                };
                self.words_at(alloc, e, nowhere)
            }
        }
    }

    /// The words of all events.
    fn all(&self, alloc: Global) -> Result<Vec<EventWords>, AllocError>
        ensures { IfOk result (λ all. AreAllWords self.now.chart.now self.now.file.now
            self.now.places.now.text (map plain_words all.items)) }
    {
        let mut all = Vec::new(alloc);
        for e in 0..self.chart.events() {
            all.push(self.words(alloc, e)?)?;
        }
        Ok(all)
    }
}

/// The names of a chart's instances as people read them.
fn names_said(alloc: Global, chart: &Chart) -> Result<Vec<String>, AllocError>
    ensures { IfOk result (λ names.
        map string_bytes names.items ≡ map name_said chart.now.instances) }
{
    let mut names = Vec::new(alloc);
    for i in 0..chart.instances() {
        names.push(shown(alloc, chart.instance_name(i))?)?;
    }
    Ok(names)
}

/// The words of all events of a chart; `file` is the name of its file as people read it.
fn events_said(
    alloc: Global,
    chart: &Chart,
    file: &str,
    text: &[u8],
) -> Result<Vec<EventWords>, AllocError>
    ensures { IfOk result (λ events. AreAllWords chart.now file.now text.now
        (map plain_words events.items)) }
{
    let places = Places::of(alloc, text)?;
    let lines = Lines::of(alloc, text)?;
    let reader = Reader {
        chart,
        file,
        places: &places,
        lines: &lines,
    };
    let events = reader.all(alloc)?;
    Ok(events)
}

/// An architecture as it is written, with the names of a chart's instances.
fn queues_said(alloc: Global, chart: &Chart, queues: Queues) -> Result<String, AllocError>
    ensures { IfOk result (λ said. string_bytes said ≡ queues_written chart.now queues) }
{
    let mut bytes = Vec::new(alloc);
    print_queues(&mut bytes, alloc, chart, &queues)?;
    shown(alloc, bytes.as_slice())
}

impl ChartWords {
    /// The words of a chart under an architecture, by its text, which stands in the file of
    /// this name, and of the marks of the text, if marks are used. The only error is want of memory.
    pub fn of(
        alloc: Global,
        chart: &Chart,
        queues: Queues,
        file: &[u8],
        text: &[u8],
        marks: Option<&Marks>,
    ) -> Result<ChartWords, AllocError>
        ensures { IfOk result (IsShownOf chart.now queues file.now text.now
            (option_map (λ m. m.now) marks.entry)) }
    {
        let file = file_said(alloc, file)?;
        let queues = queues_said(alloc, chart, queues)?;
        let names = names_said(alloc, chart)?;
        let events = events_said(alloc, chart, file.as_str(), text)?;
        let marks = marks_said(alloc, file.as_str(), text, marks)?;
        Ok(ChartWords {
            file,
            queues,
            names,
            events,
            marks,
        })
    }
}
