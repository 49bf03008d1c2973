//! Diagnostics.

ghost use Rattle.std.specs.Prelude.{◌≡◌};
ghost use Rattle.msc_diagnostic.specs.Rows.{kind_word, level_colour, level_word};

use crate::colour::Colour;
use crate::mark::Mark;

/// How grave a diagnostic is.
#[derive(Clone, Copy, Debug, PartialEq, Eq)]
pub enum Level {
    /// Something is wrong: the word is `error`, in red.
    Error,
    /// Something may be wrong: the word is `warning`, in yellow.
    Warning,
}

impl Level {
    /// The word of the level.
    pub(crate) fn word(self) -> &'static [u8]
        ensures { result.now ≡ level_word self }
    {
        match self {
            Level::Error => b"error",
            Level::Warning => b"warning",
        }
    }

    /// The colour of the level.
    pub(crate) fn colour(self) -> Colour
        ensures { result ≡ level_colour self }
    {
        match self {
            Level::Error => Colour::BoldRed,
            Level::Warning => Colour::BoldYellow,
        }
    }
}

/// What a note is.
#[derive(Clone, Copy, Debug, PartialEq, Eq)]
pub enum NoteKind {
    /// It explains.
    Note,
    /// It says what to do.
    Help,
}

impl NoteKind {
    /// The word before the note.
    pub(crate) fn word(self) -> &'static [u8]
        ensures { result.now ≡ kind_word self }
    {
        match self {
            NoteKind::Note => b"note",
            NoteKind::Help => b"help",
        }
    }
}

/// A note at the end of a diagnostic.
#[derive(Clone, Copy)]
pub struct Note<'t> {
    pub kind: NoteKind,
    pub text: &'t str,
    /// Further rows, which are printed below the text.
    pub rows: &'t [&'t str],
}

/// A diagnostic on a text. Its own texts are printed as they are, so they have to be shown already.
#[derive(Clone, Copy)]
pub struct Diagnostic<'t> {
    pub level: Level,
    /// The kind of diagnostic, between brackets.
    pub id: &'t str,
    pub sentence: &'t str,
    /// Where it is, after `-->`: the place of a mark, or a file.
    pub place: Option<&'t str>,
    /// The marks, in any order. Without marks, no line of the text is printed.
    pub marks: &'t [Mark<'t>],
    pub notes: &'t [Note<'t>],
}
