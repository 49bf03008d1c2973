//! Laws of imports, over the definitions alone. The functions have no code: a caller calls one for
//! its law.

ghost use Rattle.msc_import.specs.ArrowEnds.{ArrowsHaveTheirEnds};
ghost use Rattle.msc_import.specs.Laws.{LinesKeepTheArrowsOrder, ReadingComesFirst};
ghost use Rattle.msc_import.specs.Numbering.{NumbersNameTheArrows};
ghost use Rattle.msc_import.specs.Segments.{HistoriesHaveSegments, LinesAreDrawnInSegments};

/// Each line of a draft has the ends of the path's arrows in their order.
pub fn lines_keep_the_arrows_order()
    ensures { LinesKeepTheArrowsOrder }
{}

/// The sender of an arrow has its output and its receiver the input; of two heads each has both. A
/// lost message is a step of its sender. Nothing else is drawn of an arrow.
pub fn arrows_have_their_ends()
    ensures { ArrowsHaveTheirEnds }
{}

/// A line is drawn as its path is met: it has the segments of its path, one below the other,
/// each as an item. An end of an arrow is a segment by itself, the two ends of an arrow with two
/// heads are one, and the branches of a par are one if each has at most one. Each history of a
/// diagram has such segments.
pub fn drawn_as_met()
    ensures drawn { LinesAreDrawnInSegments }
    ensures segments { HistoriesHaveSegments }
{}

/// The arrow of each event of a draft is the one with the event's number, among the arrows that the
/// path of the scenario meets, in their order. So there are as many numbers as there are positions,
/// and each position is that of the arrow with the number.
pub fn arrow_numbers_name_the_arrows()
    ensures { NumbersNameTheArrows }
{}

/// What is imported of a text is drawn of its diagram, if it has one; otherwise the text is refused
/// as its diagram is.
pub fn reading_comes_first()
    ensures { ReadingComesFirst }
{}
