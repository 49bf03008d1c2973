//! Laws of diagnostics, over the definitions alone. The functions have no code: a caller calls one
//! for its law.

ghost use Rattle.msc_diagnostic.specs.Laws.{ColoursAddNothing, LinesLieBetweenEnds, MarksAreSorted};
ghost use Rattle.msc_diagnostic.specs.Laws.{MarksStandBelowTheirSpans, OnlyShownCharacters};
ghost use Rattle.msc_diagnostic.specs.Laws.{WindowsHoldTheirMarks};

/// Without the sequences of its colours, a diagnostic is the one that has none. Each sequence that
/// begins a colour is closed after the text that has it.
pub fn colours_add_nothing()
    ensures { ColoursAddNothing }
{}

/// A mark that lies in the window on its line stands below its part of it: the columns before the
/// mark in its row are those of what is shown there before its part, and it has the columns of what
/// is shown of its part.
pub fn marks_stand_below_their_spans()
    ensures { MarksStandBelowTheirSpans }
{}

/// Each character of a diagnostic is one that is shown, or ends a row, if its own texts are shown;
/// with colours their sequences are added. So no control, no override of the direction of writing,
/// and no joiner of the text that it is on comes through.
pub fn only_shown_characters()
    ensures { OnlyShownCharacters }
{
    msc_spoken::laws::only_shown_characters();
}

/// The marks are listed by where they begin, and then by where they end, and none is added or left
/// out.
pub fn marks_are_sorted()
    ensures { MarksAreSorted }
{}

/// A line lies between two ends of lines: none of its bytes is a line feed, or a carriage return if
/// each kind of end counts. A place is on the line that begins last at it or before it.
pub fn lines_lie_between_ends()
    ensures { LinesLieBetweenEnds }
{}

/// A window has the column at which its first mark begins, and all marks of its line if they fit
/// into one window from there. It is full, if the line has as many columns.
pub fn windows_hold_their_marks()
    ensures { WindowsHoldTheirMarks }
{}
