//! Laws of trees, over their definitions only. The functions have no code: a caller that needs a
//! law calls its function.

ghost use Rattle.msc_tree.specs.Laws.{BlocksHaveALineForEachChild, EachAmpersandIsAnEscape};
ghost use Rattle.msc_tree.specs.Laws.{BlocksComeInTwoParts, EscapesHaveNoMarkup, EscapesReadBack};

/// The escaped form of a text is read as that text, has no sign of a tag and no quotation mark, and
/// each of its ampersands begins an escape.
pub fn escape_reads_back()
    ensures back { EscapesReadBack }
    ensures markup { EscapesHaveNoMarkup }
    ensures named { EachAmpersandIsAnEscape }
{}

/// A block has a line for each child, between its beginning and its end; so the line of a block
/// whose children come in two parts is appended in two parts.
pub fn blocks_have_a_line_for_each_child()
    ensures lines { BlocksHaveALineForEachChild }
    ensures parts { BlocksComeInTwoParts }
{}
