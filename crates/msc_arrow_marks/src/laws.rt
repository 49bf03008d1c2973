//! Laws of marks, over the definitions alone. The functions have no code: a caller calls one for its
//! law.

ghost use Rattle.msc_arrow_marks.specs.Laws.{PartsMakeTheText};

/// The parts of a text between separators that are not between double quotes make the text again,
/// and no part has such a separator.
pub fn parts_make_the_text()
    ensures { PartsMakeTheText }
{}
