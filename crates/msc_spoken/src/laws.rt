//! Laws of what is read and shown, over the definitions alone. The functions have no code: a caller
//! calls one for its law.

ghost use Rattle.msc_spoken.specs.Laws.{CutsToFit, OnlyShownCharacters, ReadsUtf8};
ghost use Rattle.msc_spoken.specs.Laws.{SpokenHasSingleBlanks};

/// The bytes of a text are read as UTF-8: each character is one whose encoding is there, and each
/// `?` is one, or replaces a byte at which no encoding of a character begins.
pub fn reads_utf8()
    ensures { ReadsUtf8 }
{}

/// Each character of a shown or spoken text is one that is shown, also if the text is cut. So no
/// control, no override of the direction of writing, and no joiner comes through.
pub fn only_shown_characters()
    ensures { OnlyShownCharacters }
{}

/// A spoken name or label has no blank at its beginning or end, and no two next to each other.
pub fn spoken_has_single_blanks()
    ensures { SpokenHasSingleBlanks }
{}

/// A text is cut after the longest front that fits, and then takes at most 43 columns.
pub fn cuts_to_fit()
    ensures { CutsToFit }
{}
