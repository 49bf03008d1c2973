//! Events of a draft that wait for each other, as a diagnostic.

ghost use Rattle.std.specs.Prelude.{◌≡◌, ◌≤◌, IfOk, IfSome, List, All, Some, length, map, slice_get};
ghost use Rattle.std.specs.String.{string_bytes};
ghost use Rattle.msc_notes.specs.Events.{own_view, owned_of};
ghost use Rattle.msc_parser.specs.Parsing.{HasDraft};
ghost use Rattle.msc_parser.specs.Grammar.{Tree};
ghost use Rattle.msc_place.specs.Standing.{IsInside};
ghost use Rattle.msc_refusals.specs.Rings.{act_of, index_of, is_other, plain_ring, statement_said};
ghost use Rattle.msc_refusals.specs.Rings.{peer_name, AreRing, IsPlacedRing, IsRingBlock, IsRingEvent, IsWaiting};
ghost use Rattle.msc_shown_chart.specs.Shown.{plain_event};
ghost use Rattle.msc_speech.specs.Messages.{message_said};
ghost use Rattle.msc_shown_chart.specs.Words.{name_said};

use crate::answer::RefusedText;
use crate::end::is_output;
use crate::part::event_at;
use msc_chart::{Event, LinkKind};
use msc_diagnostic::{LineEnds, Source};
use msc_full::{ShownEvent, ShownStep, ShownText, StepOrder, waiting_text};
use msc_notes::{Note, OwnEvent, Tag};
use msc_parser::{Draft, Section, Signal, Statement};
use msc_place::{EventPlace, Lines, Places};
use msc_shown_chart::{EventWords, lent_names, position_said};
use msc_speech::{action_said, message_said};
use msc_spoken::shown;
use msc_wording::{Act, SpokenEvent};
use std::alloc::{AllocError, Global};

/// An event of a ring: its words, what it does, and the numbers of its instance and of the other one.
#[derive(Drop)]
struct RingEvent {
    words: EventWords,
    act: Act,
    owner: usize,
    peer: usize,
}

/// What a statement does.
fn act_of(statement: &Statement) -> Act
    ensures { result ≡ act_of statement.now }
{
    match statement {
        Statement::Message(signal) => {
            if is_output(signal.direction) {
                Act::Sends
            } else {
                Act::Receives
            }
        }
        Statement::Action(_) => Act::Acts,
    }
}

/// The message of a statement, as sentences name it.
fn signal_called(alloc: Global, signal: &Signal) -> Result<String, AllocError>
    ensures { IfOk result (λ said. string_bytes said
        ≡ message_said signal.now.name signal.now.number) }
{
    let number = match &signal.number {
        Some(number) => Some(number.as_slice()),
        None => None,
    };
    message_said(alloc, signal.name.as_slice(), number)
}

/// What the message or the action of a statement on this line is called.
fn statement_said(alloc: Global, statement: &Statement, line: usize) -> Result<String, AllocError>
    ensures { IfOk result (λ said. string_bytes said ≡ statement_said statement.now line) }
{
    match statement {
        Statement::Message(signal) => signal_called(alloc, signal),
        Statement::Action(label) => action_said(alloc, label.as_slice(), line),
    }
}

/// The name of the instance at the other end of a statement; of an action that of its own.
fn peer_name<'d>(event: &OwnEvent<'d>) -> &'d [u8]
    ensures { result.now ≡ peer_name event.now.own.now event.now.statement.now }
{
    match event.statement {
        Statement::Message(signal) => signal.address.as_slice(),
        Statement::Action(_) => event.own,
    }
}

/// Whether a section has another name.
fn is_other(section: &Section, name: &[u8]) -> bool
    ensures { result ≡ is_other name.now section.now }
{
    section.decl.name.as_slice() != name
}

/// The number of the first section with a name, or that of all sections if none has it.
fn index_of(sections: &[Section], name: &[u8]) -> usize
    ensures { result ≡ index_of name.now sections.now }
{
    sections
        .iter()
        .take_while(|section| is_other(section, name))
        .count()
}

/// A draft that is no chart since its events wait for each other, with its events, their places and
/// the lines of the text.
#[derive(Clone, Copy)]
pub(crate) struct RingReader<'r, 't> {
    pub refused: RefusedText<'r>,
    pub draft: &'r Draft,
    pub events: &'r [OwnEvent<'r>],
    pub places: &'r Places<'t>,
    pub lines: &'r Lines<'t>,
    ghost places_are: { places.now.text ≡ refused.text.now },
    ghost lines_are: { lines.now ≡ refused.text.now },
    ghost events_are: { map own_view events.now ≡ owned_of draft.now.sections },
}

impl RingReader<'_, '_> {
    /// An event whose statement stands at these places.
    fn event_in(
        &self,
        alloc: Global,
        event: &OwnEvent<'_>,
        at: EventPlace,
    ) -> Result<RingEvent, AllocError>
        requires { IsInside (length self.now.refused.text.now) at }
        ensures { IfOk result (λ ring. IsPlacedRing self.now.refused self.now.draft.now
            (own_view event.now) at (plain_ring ring)) }
    {
        let position = self.lines.position(at.start);
        let message = statement_said(alloc, event.statement, position.line)?;
        let place = position_said(alloc, self.refused.file, position)?;
        let words = EventWords {
            message,
            place,
            first: at.start,
            past: at.end,
            line: position.line,
        };
        Ok(RingEvent {
            words,
            act: act_of(event.statement),
            owner: index_of(self.draft.sections(), event.own),
            peer: index_of(self.draft.sections(), peer_name(event)),
        })
    }

    /// The event whose statement begins at a place, if there is one.
    fn event_at(&self, alloc: Global, at: usize) -> Result<Option<RingEvent>, AllocError>
        requires { HasDraft self.now.refused.text.now self.now.draft.now }
        ensures { IfOk result (λ event. IfSome event (λ event.
            IsRingEvent self.now.refused self.now.draft.now (plain_ring event))) }
    {
        let Some((e, place)) = event_at(self.places, self.events.len(), at) else {
            return Ok(None);
        };
        match self.events.get(e) {
            Some(event) => Ok(Some(self.event_in(alloc, event, place)?)),
            None => Ok(None),
        }
    }

    /// The first event of the step of a note, if it has one.
    fn first_of(&self, alloc: Global, note: &Note) -> Result<Option<RingEvent>, AllocError>
        requires { HasDraft self.now.refused.text.now self.now.draft.now }
        ensures { IfOk result (λ event. IfSome event (λ event.
            IsRingEvent self.now.refused self.now.draft.now (plain_ring event))) }
    {
        match note.pair {
            Some((first, _)) => self.event_at(alloc, first),
            None => Ok(None),
        }
    }

    /// The first event of the step of each of these notes.
    fn events_of(&self, alloc: Global, notes: &[Note]) -> Result<Vec<RingEvent>, AllocError>
        requires { HasDraft self.now.refused.text.now self.now.draft.now }
        ensures { IfOk result (λ events.
            AreRing self.now.refused self.now.draft.now (map plain_ring events.items)) }
    {
        let mut events = Vec::new(alloc);
        for note in notes {
            if let Some(event) = self.first_of(alloc, note)? {
                events.push(event)?;
            }
        }
        Ok(events)
    }
}

/// The names of the instances of a draft, as sentences name them.
fn names_of(alloc: Global, sections: &[Section]) -> Result<Vec<String>, AllocError>
    ensures { IfOk result (λ names. map string_bytes names.items
        ≡ map (λ section. name_said section.decl.name) sections.now) }
{
    let mut names = Vec::new(alloc);
    for section in sections {
        names.push(shown(alloc, section.decl.name.as_slice())?)?;
    }
    Ok(names)
}

/// Why the first event of the step of a note has to come before the second.
fn order_of(note: &Note) -> StepOrder {
    match note.tag {
        Tag::Sent => StepOrder::Sent,
        _ => StepOrder::Drawn,
    }
}

/// The number of an event of a ring.
fn number_of(k: usize) -> Event {
    Event::try_from(k).unwrap_or(Event::MAX)
}

/// The steps of a ring: from each event to the next, and from the last to the first.
fn steps_of(alloc: Global, notes: &[Note]) -> Result<Vec<ShownStep>, AllocError> {
    let mut steps = Vec::new(alloc);
    for (k, note) in notes.iter().enumerate() {
        let next = if k + 1 < notes.len() { k + 1 } else { 0 };
        steps.push(ShownStep {
            first: number_of(k),
            second: number_of(next),
            order: order_of(note),
        })?;
    }
    Ok(steps)
}

/// An event, lent.
fn lent_event(event: &RingEvent) -> ShownEvent<'_>
    ensures { plain_event result ≡ plain_ring event.entry.now }
{
    ShownEvent {
        spoken: SpokenEvent {
            act: event.act,
            message: event.words.message.as_str(),
            owner: event.owner,
            peer: event.peer,
            line: event.words.line,
        },
        first: event.words.first,
        past: event.words.past,
        place: event.words.place.as_str(),
        kind: LinkKind::Pair,
        queue: 0,
    }
}

/// These events, lent.
fn lent_events(alloc: Global, events: &[RingEvent]) -> Result<Vec<ShownEvent<'_>>, AllocError>
    ensures { IfOk result (λ lent. map plain_event lent.items ≡ map plain_ring events.now) }
{
    let mut lent = Vec::new(alloc);
    for event in events {
        lent.push(lent_event(event))?;
    }
    Ok(lent)
}

/// The diagnostic of a ring of these events, with these steps.
fn ring_text<'w>(
    alloc: Global,
    text: &'w [u8],
    colours: bool,
    names: &'w [String],
    events: &'w [RingEvent],
    steps: &[ShownStep],
) -> Result<Vec<u8>, AllocError>
    ensures { IfOk result (λ bytes. IsWaiting text.entry.now colours
        (map string_bytes names.entry.now) (map plain_ring events.entry.now) steps.now bytes.items) }
{
    let source = Source::new(alloc, text, LineEnds::LineFeed)?;
    let names = lent_names(alloc, names)?;
    let events = lent_events(alloc, events)?;
    let shown = ShownText {
        source: &source,
        names: names.as_slice(),
        events: events.as_slice(),
        colours,
    };
    let bytes = waiting_text(alloc, shown, steps)?;
    Ok(bytes)
}

/// Events that wait for each other, by the notes on them, as a diagnostic with an empty row after it.
pub(crate) fn ring_block(
    alloc: Global,
    reader: &RingReader<'_, '_>,
    notes: &[Note],
) -> Result<Vec<u8>, AllocError>
    requires { HasDraft reader.now.refused.text.now reader.now.draft.now }
    ensures { IfOk result (λ bytes.
        IsRingBlock reader.now.refused reader.now.draft.now bytes.items) }
{
    let names = names_of(alloc, reader.draft.sections())?;
    let events = reader.events_of(alloc, notes)?;
    let steps = steps_of(alloc, notes)?;
    let refused = reader.refused;
    let bytes = ring_text(
        alloc,
        refused.text,
        refused.colours,
        names.as_slice(),
        events.as_slice(),
        steps.as_slice(),
    )?;
    Ok(bytes)
}
