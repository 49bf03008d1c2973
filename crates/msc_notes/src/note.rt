//! Notes, as plain data.

ghost use Rattle.std.specs.Prelude.{◌≡◌, List, [], Option, None, Some, codes};
ghost use Rattle.msc_notes.specs.Notes.{word_of};

use listed::Listed;

/// The kind of a note: the first word of its line.
#[derive(Clone, Copy, Debug, PartialEq, Eq)]
pub enum Tag {
    /// What was found at the place of the fault.
    Found,
    /// What to write in its place.
    Hint,
    /// The end of the token before the fault.
    Behind,
    /// The name that the fault is about.
    Name,
    /// The name that is most like it.
    Nearest,
    /// The place of the first of two.
    First,
    /// The other end that is missing.
    Wanted,
    /// The event that may have been meant as the other end.
    Near,
    /// Two steps of a ring, of which the second is drawn below the first.
    Drawn,
    /// Two steps of a ring: an output and its input.
    Sent,
    /// Where a part begins that has no end.
    Opened,
    /// The block that is open at the fault.
    Inside,
}

impl Tag {
    /// The word.
    pub fn word(self) -> &'static str
        ensures { result.now ≡ word_of self }
    {
        match self {
            Tag::Found => "found",
            Tag::Hint => "hint",
            Tag::Behind => "behind",
            Tag::Name => "name",
            Tag::Nearest => "nearest",
            Tag::First => "first",
            Tag::Wanted => "wanted",
            Tag::Near => "near",
            Tag::Drawn => "drawn",
            Tag::Sent => "sent",
            Tag::Opened => "opened",
            Tag::Inside => "inside",
        }
    }
}

/// A note: its word, the text after that, which may be empty, and a place; or two places, of the
/// events that the note shows.
#[derive(Drop)]
pub struct Note {
    pub tag: Tag,
    pub text: Listed<u8>,
    pub place: Option<usize>,
    pub pair: Option<(usize, usize)>,
}

/// The place of a fault, if it has one, and the notes on it.
#[derive(Drop)]
pub struct FaultNotes {
    pub place: Option<usize>,
    pub notes: Listed<Note>,
}

/// A note of a text.
pub(crate) fn worded(tag: Tag, text: Vec<u8>) -> Note
    ensures { result ≡ record { tag = tag; text = text.items; place = None; pair = None } }
{
    Note {
        tag,
        text: Listed::from_vec(text),
        place: None,
        pair: None,
    }
}

/// A note of a text and a place.
pub(crate) fn placed(tag: Tag, text: Vec<u8>, place: usize) -> Note
    ensures { result ≡ record { tag = tag; text = text.items; place = Some place; pair = None } }
{
    Note {
        tag,
        text: Listed::from_vec(text),
        place: Some(place),
        pair: None,
    }
}

/// A note of a text that shows two events, at their places.
pub(crate) fn paired(tag: Tag, text: Vec<u8>, pair: Option<(usize, usize)>) -> Note
    ensures { result ≡ record { tag = tag; text = text.items; place = None; pair = pair } }
{
    Note {
        tag,
        text: Listed::from_vec(text),
        place: None,
        pair,
    }
}
