//! The ring of an event that precedes itself.

ghost use Rattle.std.specs.Prelude.{◌≡◌, ◌*◌, ◌<◌, ◌≤◌, length, IfOk};
ghost use Rattle.bit_rows.specs.Rows.{word_count};

use crate::alike::{End, are_partners};
use crate::event::{OwnEvent, put_event};
use crate::note::{Note, Tag, paired};
use bit_rows::table;
use msc_chart::EVENT_LIMIT;
use msc_place::Places;
use rings::ring;
use std::alloc::{AllocError, Global};

/// Whether the first event is an output, and the second its input.
fn is_sent(a: &OwnEvent, b: &OwnEvent) -> bool {
    match End::of(a) {
        Some(end) => end.sends && are_partners(a, b),
        None => false,
    }
}

/// Whether the second event is drawn below the first.
fn is_drawn(a: &OwnEvent, b: &OwnEvent) -> bool {
    a.line == b.line && a.item < b.item
}

/// The steps of each event.
fn steps(alloc: Global, events: &[OwnEvent]) -> Result<Vec<u64>, AllocError>
    requires { length events.now ≤ EVENT_LIMIT }
    ensures { IfOk result
        (λ words. length words.items ≡ length events.now * word_count (length events.now)) }
{
    let n = events.len() as u32;
    let mut words = table::blank(alloc, n, n)?;
    for x in 0..n {
        put_steps(&mut words, events, x);
    }
    Ok(words)
}

/// Adds the steps of an event to the table.
fn put_steps(words: &mut [u64], events: &[OwnEvent], x: u32)
    requires few { length events.now ≤ EVENT_LIMIT }
    requires square { length words.old ≡ length events.now * word_count (length events.now) }
    requires event { x < length events.now }
    ensures { length words.new ≡ length words.old }
{
    let n = events.len() as u32;
    for y in 0..n {
        let (a, b) = (&events[x as usize], &events[y as usize]);
        if is_drawn(a, b) || is_sent(a, b) {
            table::put(words, n, x, y);
        }
    }
}

/// A step of the ring: what it is, its events, and their places.
fn step_note(
    alloc: Global,
    events: &[OwnEvent],
    places: &Places,
    x: u32,
    y: u32,
) -> Result<Option<Note>, AllocError> {
    let (Some(a), Some(b)) = (events.get(x as usize), events.get(y as usize)) else {
        return Ok(None);
    };
    let tag = if is_sent(a, b) { Tag::Sent } else { Tag::Drawn };
    let mut text = Vec::from_slice(alloc, format!(in alloc; "{x} {y}: ")?.as_bytes())?;
    put_event(&mut text, a)?;
    text.extend_from_slice(b"; ")?;
    put_event(&mut text, b)?;
    let pair = match (places.event(x as usize), places.event(y as usize)) {
        (Some(first), Some(second)) => Some((first.start, second.start)),
        _ => None,
    };
    Ok(Some(paired(tag, text, pair)))
}

/// The ring through event `e`: the shortest, and of several the least, event by event; none if
/// there is none, or if the draft has more events than a chart may have.
fn ring_of(alloc: Global, events: &[OwnEvent], e: u32) -> Result<Vec<u32>, AllocError> {
    if events.len() > EVENT_LIMIT as usize || e as usize >= events.len() {
        return Ok(Vec::new(alloc));
    }
    let words = steps(alloc, events)?;
    let found = ring(alloc, &words, events.len() as u32, e)?;
    Ok(found.unwrap_or(Vec::new(alloc)))
}

/// The notes on an event that precedes itself: the steps of its ring.
pub(crate) fn ring_notes(
    alloc: Global,
    events: &[OwnEvent],
    places: &Places,
    e: u32,
) -> Result<Vec<Note>, AllocError> {
    let numbers = ring_of(alloc, events, e)?;
    let mut notes = Vec::new(alloc);
    for (k, x) in numbers.iter().enumerate() {
        let y = numbers.get(k + 1).copied().unwrap_or(e);
        if let Some(note) = step_note(alloc, events, places, *x, y)? {
            notes.push(note)?;
        }
    }
    Ok(notes)
}
