//! Laws of drafts and texts, over their definitions only. The functions have no code: a caller that
//! needs a law calls its function.

ghost use Rattle.msc_parser.specs.Parsing.{OneDraft, OneParsing};
ghost use Rattle.msc_parser.specs.Table.{TableFitsTheGrammar};

use msc_lexer::laws::one_reading;

/// A list of tokens has at most one draft.
pub fn one_draft()
    ensures { OneDraft }
{}

/// A text has at most one draft, at most one first fault, and never both.
pub fn one_parsing()
    ensures { OneParsing }
{
    one_reading();
}

/// The table of places agrees with the grammar: after each beginning of a chart it allows exactly
/// the symbols with which some chart continues, and the end of the text if and only if the
/// beginning is a chart.
pub fn table_fits_the_grammar()
    ensures { TableFitsTheGrammar }
{}
