//! Notes on a fault of a draft.

ghost use Rattle.std.specs.Prelude.{◌≡◌, ℕ, ◌≤◌, None, Some, length, map, slice_get, IfOk};
ghost use Rattle.std.specs.Prelude.{IfSome, MatchOption};
ghost use Rattle.msc_parser.specs.declared.tree.Statement.TheVariants.{Message};
ghost use Rattle.msc_chart.specs.Events.{acts_of};
ghost use Rattle.msc_parser.specs.Grammar.{Tree};
ghost use Rattle.msc_parser.specs.Parsing.{HasDraft};
ghost use Rattle.msc_place.specs.Standing.{BeginsEvent, NamesAddress, NamesSection};
ghost use Rattle.msc_notes.specs.Events.{HasNoSignal, own_view, owned_of, statement_view};
ghost use Rattle.msc_notes.specs.Faults.{BeginsOrNone, HasNoMessage, IsChartPlace};
ghost use Rattle.msc_notes.specs.FaultNotes.{AreChartNotes, AreOfAddress, AreOfHeader, AreOfName};
ghost use Rattle.msc_notes.specs.FaultNotes.{AreRepeated, AreTwice, BeginWith, HasNoMessageAt};
ghost use Rattle.msc_notes.specs.FaultNotes.{HasNoneNamed, IsFirstLike, IsFirstNamed};
ghost use Rattle.msc_notes.specs.FaultNotes.{first_note, name_note};

use crate::counting::{last_action, last_message};
use crate::draft::{apart_hint, first_event, first_section};
use crate::event::{OwnEvent, events_of};
use crate::near::unmatched_notes;
use crate::nearest::nearest;
use crate::note::{FaultNotes, Note, Tag, placed, worded};
use crate::ring::ring_notes;
use listed::Listed;
use msc_chart::{ChartFault, INSTANCE_LIMIT};
use msc_parser::{Draft, Section, Signal};
use msc_place::Places;
use std::alloc::{AllocError, Global};

/// The place of the statement of an event.
fn event_place(places: &Places, e: usize) -> Option<usize>
    ensures stands { (t : Tree) → HasDraft places.now.text t
        → BeginsOrNone places.now.text t e result }
    ensures inside { IfSome result (λ at. at ≤ length places.now.text) }
{
    match places.event(e) {
        Some(place) => Some(place.start),
        None => None,
    }
}

/// The place of the address of an event.
fn address_place(places: &Places, e: usize) -> Option<usize>
    ensures stands { (t : Tree) → HasDraft places.now.text t
        → MatchOption result (HasNoMessage t e) (NamesAddress places.now.text t e) }
    ensures inside { IfSome result (λ at. at ≤ length places.now.text) }
{
    match places.event(e) {
        Some(place) => place.address,
        None => None,
    }
}

/// The place of the statement of an event, if there is such an event.
fn some_place(places: &Places, e: Option<usize>) -> Option<usize>
    ensures stands { (t : Tree) → HasDraft places.now.text t
        → MatchOption e (result ≡ None) (λ e. BeginsOrNone places.now.text t e result) }
    ensures inside { IfSome result (λ at. at ≤ length places.now.text) }
{
    match e {
        Some(e) => event_place(places, e),
        None => None,
    }
}

/// The place of a fault of a draft, if it has one.
fn place(draft: &Draft, events: &[OwnEvent], places: &Places, fault: ChartFault) -> Option<usize>
    requires { map own_view events.now ≡ owned_of draft.now.sections }
    ensures stands { HasDraft places.now.text draft.now
        → IsChartPlace places.now.text draft.now fault result }
    ensures inside { IfSome result (λ at. at ≤ length places.now.text) }
{
    match fault {
        ChartFault::TooManyInstances => places.section(INSTANCE_LIMIT as usize),
        ChartFault::TwiceInstance(i) => places.section(i as usize),
        ChartFault::HeaderWithoutBody(k) => places.header(k as usize),
        ChartFault::UnknownAddress(e) => address_place(places, e as usize),
        ChartFault::TooManyMessages => some_place(places, last_message(events)),
        ChartFault::TooManyActions => some_place(places, last_action(events)),
        ChartFault::TwiceEvent(e)
        | ChartFault::UnmatchedOut(e)
        | ChartFault::UnmatchedIn(e)
        | ChartFault::Cyclic(e) => event_place(places, e as usize),
        ChartFault::Memory => None,
    }
}

/// The note of the section's name that was probably meant, if there is one.
fn nearest_note(
    alloc: Global,
    draft: &Draft,
    places: &Places,
    name: &[u8],
) -> Result<Option<Note>, AllocError> {
    if let Some(i) = nearest(alloc, draft.sections(), name)?
        && let Some(section) = draft.sections().get(i)
        && let Some(place) = places.section(i)
    {
        let text = Vec::from_slice(alloc, section.decl.name.as_slice())?;
        return Ok(Some(placed(Tag::Nearest, text, place)));
    }
    Ok(None)
}

/// The notes on a name that no section has: the name, and the section's name that was probably
/// meant.
fn named_notes(
    alloc: Global,
    draft: &Draft,
    places: &Places,
    name: &[u8],
) -> Result<Vec<Note>, AllocError>
    ensures { IfOk result (λ notes. BeginWith notes.items (name_note name.now)) }
{
    let mut notes = Vec::new(alloc);
    notes.push(worded(Tag::Name, Vec::from_slice(alloc, name)?))?;
    if let Some(note) = nearest_note(alloc, draft, places, name)? {
        notes.push(note)?;
    }
    Ok(notes)
}

/// The note on the place of a first occurrence.
fn first_at(alloc: Global, place: usize) -> Note
    ensures { result ≡ first_note place }
{
    placed(Tag::First, Vec::new(alloc), place)
}

/// The place of the first section with a name.
fn first_named(draft: &Draft, places: &Places, name: &[u8]) -> Option<usize>
    ensures { HasDraft places.now.text draft.now
        → MatchOption result (HasNoneNamed draft.now.sections name.now)
        (λ at. (j : ℕ) × IsFirstNamed draft.now.sections name.now j
        × NamesSection places.now.text draft.now j at) }
{
    match first_section(draft.sections(), name) {
        Some(j) => places.section(j),
        None => None,
    }
}

/// The notes on a name that an earlier section has: the name, and the place of the first.
fn section_notes(
    alloc: Global,
    draft: &Draft,
    places: &Places,
    name: &[u8],
) -> Result<Vec<Note>, AllocError>
    ensures { IfOk result (λ notes. HasDraft places.now.text draft.now
        → AreOfName places.now.text draft.now name.now notes.items) }
{
    match first_named(draft, places, name) {
        Some(place) => {
            let mut notes = Vec::new(alloc);
            notes.push(worded(Tag::Name, Vec::from_slice(alloc, name)?))?;
            notes.push(first_at(alloc, place))?;
            Ok(notes)
        }
        None => Ok(Vec::new(alloc)),
    }
}

/// Section `i`, if there is one.
fn section_at(draft: &Draft, i: usize) -> Option<&Section>
    ensures { MatchOption result (length draft.now.sections ≤ i)
        (λ s. slice_get draft.now.sections i ≡ Some s.now) }
{
    draft.sections().get(i)
}

/// The notes on a section whose name an earlier one has.
fn repeated_notes(
    alloc: Global,
    draft: &Draft,
    places: &Places,
    i: usize,
) -> Result<Vec<Note>, AllocError>
    ensures { IfOk result (λ notes. HasDraft places.now.text draft.now
        → AreRepeated places.now.text draft.now i notes.items) }
{
    match section_at(draft, i) {
        Some(section) => section_notes(alloc, draft, places, section.decl.name.as_slice()),
        None => Ok(Vec::new(alloc)),
    }
}

/// The place of the first event with the kind and key of event `e`.
fn first_like(draft: &Draft, events: &[OwnEvent], places: &Places, e: usize) -> Option<usize>
    requires { map own_view events.now ≡ owned_of draft.now.sections }
    ensures { HasDraft places.now.text draft.now
        → MatchOption result (HasNoMessageAt (acts_of draft.now) e)
        (λ at. (j : ℕ) × IsFirstLike (acts_of draft.now) e j
        × BeginsEvent places.now.text draft.now j at) }
{
    match first_event(events, e) {
        Some(j) => event_place(places, j),
        None => None,
    }
}

/// The hint on a message that occurs twice, if event `e` is an end of one.
fn apart_note(alloc: Global, events: &[OwnEvent], e: usize) -> Result<Option<Note>, AllocError> {
    match signal_at(events, e) {
        Some(signal) => {
            let hint = apart_hint(alloc, events, signal.name.as_slice())?;
            Ok(Some(worded(Tag::Hint, hint)))
        }
        None => Ok(None),
    }
}

/// The place of the first event with a kind and key, and a hint to tell event `e` apart from it.
fn apart_notes(
    alloc: Global,
    events: &[OwnEvent],
    e: usize,
    place: usize,
) -> Result<Vec<Note>, AllocError>
    ensures { IfOk result (λ notes. BeginWith notes.items (first_note place)) }
{
    let mut notes = Vec::new(alloc);
    notes.push(first_at(alloc, place))?;
    if let Some(note) = apart_note(alloc, events, e)? {
        notes.push(note)?;
    }
    Ok(notes)
}

/// The notes on a message event whose kind and key an earlier one has.
fn twice_notes(
    alloc: Global,
    draft: &Draft,
    events: &[OwnEvent],
    places: &Places,
    e: usize,
) -> Result<Vec<Note>, AllocError>
    requires { map own_view events.now ≡ owned_of draft.now.sections }
    ensures { IfOk result (λ notes. HasDraft places.now.text draft.now
        → AreTwice places.now.text draft.now e notes.items) }
{
    match first_like(draft, events, places, e) {
        Some(place) => apart_notes(alloc, events, e, place),
        None => Ok(Vec::new(alloc)),
    }
}

/// Event `e`, if it is a message event.
fn signal_at<'d>(events: &[OwnEvent<'d>], e: usize) -> Option<&'d Signal>
    ensures { MatchOption result (HasNoSignal (map statement_view events.now) e)
        (λ s. slice_get (map statement_view events.now) e ≡ Some (Message s.now)) }
{
    match events.get(e) {
        Some(event) => event.signal(),
        None => None,
    }
}

/// The notes on an event with an unknown address.
fn address_notes(
    alloc: Global,
    draft: &Draft,
    events: &[OwnEvent],
    places: &Places,
    e: usize,
) -> Result<Vec<Note>, AllocError>
    requires { map own_view events.now ≡ owned_of draft.now.sections }
    ensures { IfOk result (λ notes. AreOfAddress draft.now e notes.items) }
{
    match signal_at(events, e) {
        Some(signal) => named_notes(alloc, draft, places, signal.address.as_slice()),
        None => Ok(Vec::new(alloc)),
    }
}

/// The notes on a header name without a section.
fn header_notes(
    alloc: Global,
    draft: &Draft,
    places: &Places,
    k: usize,
) -> Result<Vec<Note>, AllocError>
    ensures { IfOk result (λ notes. AreOfHeader draft.now k notes.items) }
{
    match draft.header().get(k) {
        Some(decl) => named_notes(alloc, draft, places, decl.name.as_slice()),
        None => Ok(Vec::new(alloc)),
    }
}

/// The notes on a fault of a draft.
fn notes(
    alloc: Global,
    draft: &Draft,
    events: &[OwnEvent],
    places: &Places,
    fault: ChartFault,
) -> Result<Vec<Note>, AllocError>
    requires { map own_view events.now ≡ owned_of draft.now.sections }
    ensures { IfOk result (λ notes. HasDraft places.now.text draft.now
        → AreChartNotes places.now.text draft.now fault notes.items) }
{
    match fault {
        ChartFault::TwiceInstance(i) => repeated_notes(alloc, draft, places, i as usize),
        ChartFault::HeaderWithoutBody(k) => header_notes(alloc, draft, places, k as usize),
        ChartFault::UnknownAddress(e) => address_notes(alloc, draft, events, places, e as usize),
        ChartFault::TwiceEvent(e) => twice_notes(alloc, draft, events, places, e as usize),
        ChartFault::UnmatchedOut(e) | ChartFault::UnmatchedIn(e) => {
            unmatched_notes(alloc, events, places, e as usize)
        }
        ChartFault::Cyclic(e) => ring_notes(alloc, events, places, e),
        _ => Ok(Vec::new(alloc)),
    }
}

/// The place of a fault of a draft, and the notes on it. The fault may be the first, or any other
/// that stands in the draft. `places` are those of the draft's text. The only error is want of
/// memory.
pub fn tell_chart(
    alloc: Global,
    draft: &Draft,
    places: &Places,
    fault: ChartFault,
) -> Result<FaultNotes, AllocError>
    ensures place { IfOk result (λ told. HasDraft places.now.text draft.now
        → IsChartPlace places.now.text draft.now fault told.place) }
    ensures inside { IfOk result
        (λ told. IfSome told.place (λ at. at ≤ length places.now.text)) }
    ensures notes { IfOk result (λ told. HasDraft places.now.text draft.now
        → AreChartNotes places.now.text draft.now fault told.notes) }
{
    let events = events_of(alloc, draft)?;
    Ok(FaultNotes {
        place: place(draft, &events, places, fault),
        notes: Listed::from_vec(notes(alloc, draft, &events, places, fault)?),
    })
}
