//! The other end that a message lacks, and the event that may have been meant.

use crate::alike::End;
use crate::event::{OwnEvent, put_event, put_message};
use crate::note::{Note, Tag, placed, worded};
use crate::standing::{ends_of, is_unmatched};
use indexmap::{IndexMap, IndexSet};
use msc_place::Places;
use std::alloc::{AllocError, Global};

/// What an event has in common with the missing end of a message, if it may be meant as that end.
/// The most telling likeness comes first.
#[derive(Clone, Copy, PartialEq, Eq, Hash)]
enum Likeness<'d> {
    /// The sender, the receiver and the name of the message.
    ByName(&'d [u8], &'d [u8], &'d [u8]),
    /// The name and the message instance name, or none.
    ByMessage(&'d [u8], Option<&'d [u8]>),
    /// The sender and the receiver.
    ByInstances(&'d [u8], &'d [u8]),
}

/// What an end of a message can have in common with another one, the most telling first.
fn likenesses<'d>(end: &End<'d>) -> [Likeness<'d>; 3] {
    [
        Likeness::ByName(end.sender, end.receiver, end.name),
        Likeness::ByMessage(end.name, end.number),
        Likeness::ByInstances(end.sender, end.receiver),
    ]
}

/// The outputs, or the inputs, that have no other end: the first of each likeness.
#[derive(Drop)]
pub(crate) struct Lonely<'d> {
    firsts: IndexMap<Likeness<'d>, usize>,
}

impl<'d> Lonely<'d> {
    /// Keeps an event for each of its likenesses that has none yet.
    fn note(&mut self, e: usize, end: &End<'d>) -> Result<(), AllocError> {
        for likeness in likenesses(end) {
            if !self.firsts.contains_key(&likeness) {
                self.firsts.insert(likeness, e)?;
            }
        }
        Ok(())
    }

    /// The outputs, or the inputs, among these events whose other end is none of the ends.
    pub fn of(
        alloc: Global,
        events: &[OwnEvent<'d>],
        ends: &IndexSet<End<'d>>,
        sends: bool,
    ) -> Result<Lonely<'d>, AllocError> {
        let mut lonely = Lonely {
            firsts: IndexMap::new(alloc),
        };
        for (e, event) in events.iter().enumerate() {
            if is_unmatched(event, ends, sends)
                && let Some(end) = End::of(event)
            {
                lonely.note(e, &end)?;
            }
        }
        Ok(lonely)
    }

    /// The event that may have been meant as the other end of a message: the first of those that
    /// have most in common with it.
    pub fn near(&self, end: &End<'d>) -> Option<usize> {
        for likeness in likenesses(end) {
            if let Some(e) = self.firsts.get(&likeness) {
                return Some(*e);
            }
        }
        None
    }
}

/// The other end that is missing, in words.
fn wanted(alloc: Global, end: &End) -> Result<Vec<u8>, AllocError> {
    let (word, preposition, address, own): (&[u8], &[u8], &[u8], &[u8]) = if end.sends {
        (b"in ", b" from ", end.sender, end.receiver)
    } else {
        (b"out ", b" to ", end.receiver, end.sender)
    };
    let mut text = Vec::from_slice(alloc, word)?;
    put_message(&mut text, end.name, end.number)?;
    text.extend_from_slice(preposition)?;
    text.extend_from_slice(address)?;
    text.extend_from_slice(b" on ")?;
    text.extend_from_slice(own)?;
    Ok(text)
}

/// The event that may have been meant as the other end of a message, if there is one.
fn near<'d>(
    alloc: Global,
    events: &[OwnEvent<'d>],
    end: &End<'d>,
) -> Result<Option<usize>, AllocError> {
    let ends = ends_of(alloc, events)?;
    let lonely = Lonely::of(alloc, events, &ends, !end.sends)?;
    Ok(lonely.near(end))
}

/// The notes on event `e`, an end of a message without the other.
pub(crate) fn unmatched_notes(
    alloc: Global,
    events: &[OwnEvent],
    places: &Places,
    e: usize,
) -> Result<Vec<Note>, AllocError> {
    let mut notes = Vec::new(alloc);
    let Some(end) = events.get(e).and_then(|event| End::of(event)) else {
        return Ok(notes);
    };
    notes.push(worded(Tag::Wanted, wanted(alloc, &end)?))?;
    if let Some(f) = near(alloc, events, &end)?
        && let Some(place) = places.event(f)
        && let Some(event) = events.get(f)
    {
        let mut text = Vec::new(alloc);
        put_event(&mut text, event)?;
        notes.push(placed(Tag::Near, text, place.start))?;
    }
    Ok(notes)
}
