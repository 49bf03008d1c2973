//! Places between the words of a mark.

ghost use Rattle.std.specs.Prelude.{◌≡◌, cond};
ghost use Rattle.msc_mark.specs.Places.{behind, behind_architecture, behind_event, is_complete};
ghost use Rattle.msc_mark.specs.Places.{behind_number, next};
ghost use Rattle.msc_mark.specs.Accepting.{is_architecture_place, is_event_place};
ghost use Rattle.msc_mark.specs.Accepting.{is_number_place};
ghost use Rattle.msc_mark.specs.Words.{is_architecture};
ghost use Rattle.msc_mark.specs.declared.place.MarkPlace.TheVariants.{Race};

use crate::word::{Closing, closing_of, name_of};
use listed::Listed;
use msc_chart::LinkKind;

/// A place between two words of a mark.
#[derive(Clone, Copy, Debug, PartialEq, Eq)]
pub(crate) enum MarkPlace {
    /// Before the first word.
    Race,
    /// After `race`.
    Ok,
    /// After `race ok`.
    Parts,
    /// After `in`, or after the comma that follows an architecture.
    Architecture,
    /// After the last architecture.
    Events,
    /// After `with`, or after the semicolon that follows an event.
    Event,
    /// After the comma that follows the name of a message.
    Number,
    /// After the last event.
    Done,
    /// After a word that may not be there.
    Wrong,
}

/// Whether the name is the word for an architecture.
fn is_architecture(name: &[u8]) -> bool
    ensures { result ≡ is_architecture name.now }
{
    name == LinkKind::Pair.word().as_bytes()
        || name == LinkKind::Mailbox.word().as_bytes()
        || name == LinkKind::Single.word().as_bytes()
}

/// The place after an architecture.
fn behind_architecture(word: &[u8]) -> MarkPlace
    ensures { result ≡ behind_architecture word.now }
{
    if !is_architecture(name_of(word)) {
        return MarkPlace::Wrong;
    }
    match closing_of(word) {
        Closing::Bare => MarkPlace::Events,
        Closing::Comma => MarkPlace::Architecture,
        _ => MarkPlace::Wrong,
    }
}

/// The place after the name of an event's message.
fn behind_event(word: &[u8]) -> MarkPlace
    ensures { result ≡ behind_event word.now }
{
    match closing_of(word) {
        Closing::Bare => MarkPlace::Done,
        Closing::Comma => MarkPlace::Number,
        Closing::Semicolon => MarkPlace::Event,
        Closing::Other => MarkPlace::Wrong,
    }
}

/// The place after the number of an event's message.
fn behind_number(word: &[u8]) -> MarkPlace
    ensures { result ≡ behind_number word.now }
{
    match closing_of(word) {
        Closing::Bare => MarkPlace::Done,
        Closing::Semicolon => MarkPlace::Event,
        _ => MarkPlace::Wrong,
    }
}

/// This place if the word is the right one, otherwise that of a wrong word.
fn only(is: bool, place: MarkPlace) -> MarkPlace
    ensures { result ≡ cond is place MarkPlace.Wrong }
{
    if is { place } else { MarkPlace::Wrong }
}

impl MarkPlace {
    /// The place after a word.
    pub(crate) fn next(self, word: &[u8]) -> MarkPlace
        ensures { result ≡ next self word.now }
    {
        match self {
            MarkPlace::Race => only(word == "race".as_bytes(), MarkPlace::Ok),
            MarkPlace::Ok => only(word == "ok".as_bytes(), MarkPlace::Parts),
            MarkPlace::Parts if word == "in".as_bytes() => MarkPlace::Architecture,
            MarkPlace::Parts => only(word == "with".as_bytes(), MarkPlace::Event),
            MarkPlace::Architecture => behind_architecture(word),
            MarkPlace::Events => only(word == "with".as_bytes(), MarkPlace::Event),
            MarkPlace::Event => behind_event(word),
            MarkPlace::Number => behind_number(word),
            MarkPlace::Done | MarkPlace::Wrong => MarkPlace::Wrong,
        }
    }

    /// Whether it is after `in` or the comma of an architecture.
    pub(crate) fn is_architecture(self) -> bool
        ensures { result ≡ is_architecture_place self }
    {
        matches!(self, MarkPlace::Architecture)
    }

    /// Whether it is after `with` or the semicolon of an event.
    pub(crate) fn is_event(self) -> bool
        ensures { result ≡ is_event_place self }
    {
        matches!(self, MarkPlace::Event)
    }

    /// Whether it is after the comma of a message's name.
    pub(crate) fn is_number(self) -> bool
        ensures { result ≡ is_number_place self }
    {
        matches!(self, MarkPlace::Number)
    }

    /// Whether a reason may follow.
    pub(crate) fn is_complete(self) -> bool
        ensures { result ≡ is_complete self }
    {
        matches!(self, MarkPlace::Parts | MarkPlace::Events | MarkPlace::Done)
    }
}

/// The place after the words of a mark.
pub(crate) fn place_behind(words: &[Listed<u8>]) -> MarkPlace
    ensures { result ≡ behind Race words.now }
{
    let mut place = MarkPlace::Race;
    for word in words {
        place = place.next(word.as_slice());
    }
    place
}
