//! Laws of diagrams, over the definitions only. The functions do nothing when they run: a caller
//! that needs a law calls its function.

ghost use Rattle.msc_mermaid.specs.Laws.{ArrowsSpellTheirTexts, CommentsBeginWithTheirMark};
ghost use Rattle.msc_mermaid.specs.Laws.{LinesSpellTheirNames};
ghost use Rattle.msc_mermaid.specs.Laws.{LinesStandWhereTheyBegin, StatementsBeginAtTheirPlaces};

/// A statement spells its texts. An arrow begins with its sender, and it has its receiver and the
/// bytes of its label at the places that are given for them. A declaration of a line has the line
/// at the place that is given for it.
pub fn statements_spell_their_texts()
    ensures arrows { ArrowsSpellTheirTexts }
    ensures lines { LinesSpellTheirNames }
{}

/// Each line of a text begins at the place that is given for it, after a byte order mark and line
/// ends of one byte or two.
pub fn lines_stand_where_they_begin()
    ensures { LinesStandWhereTheyBegin }
{}

/// The bytes of a statement of a text begin at its place: its line begins at the place that is
/// given for it, and the column of the statement counts the bytes of the line before it.
pub fn statements_begin_at_their_places()
    ensures { StatementsBeginAtTheirPlaces }
{}

/// Each comment of a text begins at its place with its mark, two percent signs.
pub fn comments_begin_with_their_mark()
    ensures { CommentsBeginWithTheirMark }
{}
