//! Laws of Markdown, over the definitions only. The functions do nothing when they run: a caller
//! that needs a law calls its function.

ghost use Rattle.msc_markdown.specs.Laws.{PartsAreOfTheirLines};

/// The part of a line that belongs to a block is contiguous in the line, and has the number of the
/// line.
pub fn parts_are_of_their_lines()
    ensures { PartsAreOfTheirLines }
{}
