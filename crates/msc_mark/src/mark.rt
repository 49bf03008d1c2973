//! Marks, and what they are for.

ghost use Rattle.std.specs.Prelude.{◌≡◌};
ghost use Rattle.msc_mark.specs.Accepting.{has_part, is_architecture_place, is_event_place};
ghost use Rattle.msc_mark.specs.Accepting.{is_for_queues, is_queues, names_queues};

use crate::place::MarkPlace;
use crate::word::name_of;
use listed::Listed;
use msc_chart::Queues;

/// A mark: the number of its event, the place of the apostrophe at which its text begins, and its
/// words, up to the reason.
#[derive(Drop)]
pub struct Mark {
    pub event: usize,
    pub place: usize,
    pub words: Listed<Listed<u8>>,
}

/// Whether architectures are named.
fn has_architectures(words: &[Listed<u8>]) -> bool
    ensures { result ≡ has_part is_architecture_place words.now }
{
    let mut place = MarkPlace::Race;
    for word in words {
        if place.is_architecture() {
            return true;
        }
        place = place.next(word.as_slice());
    }
    false
}

/// Whether other events are named.
fn has_events(words: &[Listed<u8>]) -> bool
    ensures { result ≡ has_part is_event_place words.now }
{
    let mut place = MarkPlace::Race;
    for word in words {
        if place.is_event() {
            return true;
        }
        place = place.next(word.as_slice());
    }
    false
}

/// Whether the word, at a place, is the one for the architecture.
fn is_queues(queues: Queues, place: MarkPlace, word: &[u8]) -> bool
    ensures { result ≡ is_queues queues place word.now }
{
    place.is_architecture() && name_of(word) == queues.word().as_bytes()
}

/// Whether the architecture is among those that are named.
fn names_queues(queues: Queues, words: &[Listed<u8>]) -> bool
    ensures { result ≡ names_queues queues words.now }
{
    let mut place = MarkPlace::Race;
    for word in words {
        if is_queues(queues, place, word.as_slice()) {
            return true;
        }
        place = place.next(word.as_slice());
    }
    false
}

impl Mark {
    /// Whether the mark is for the architecture. It takes no memory.
    pub fn is_for(&self, queues: Queues) -> bool
        ensures { result ≡ is_for_queues queues self.now }
    {
        let words = self.words.as_slice();
        !has_architectures(words) || names_queues(queues, words)
    }

    /// Whether the mark names events. It takes no memory.
    pub(crate) fn names_events(&self) -> bool
        ensures { result ≡ has_part is_event_place self.now.words }
    {
        has_events(self.words.as_slice())
    }
}
