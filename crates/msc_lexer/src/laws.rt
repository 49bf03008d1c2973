//! Laws of texts and tokens, over their definitions only. The functions have no code: a caller that
//! needs a law calls its function.

ghost use Rattle.std.specs.Prelude.{◌≡◌};
ghost use Rattle.msc_lexer.specs.Lexing.{OneReading};
ghost use Rattle.msc_lexer.specs.Lexemes.{PrintsPieces};

use crate::{NAME_LIMIT, TEXT_LIMIT};

/// A text has at most one list of tokens, at most one first fault, and never both.
pub fn one_reading()
    ensures { OneReading }
{}

/// The printed text of pieces that fit is read as those pieces.
pub fn prints_pieces()
    ensures { PrintsPieces }
{}

/// The limits of a text and of a name, in bytes.
pub fn limits_of_texts()
    ensures text { TEXT_LIMIT ≡ 1048576 }
    ensures name { NAME_LIMIT ≡ 64 }
{}
