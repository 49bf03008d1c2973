//! The places of the names of instances.

ghost use Rattle.std.specs.Prelude.{◌≡◌, ℕ, List, IfOk};
ghost use Rattle.msc_lexer.specs.Lexemes.{lexemes, lexeme_of};
ghost use Rattle.msc_place.specs.Collecting.{leads_name, stops_part, name_places};

use crate::statements::first_place;
use msc_lexer::{Kind, Token, Word};
use std::alloc::{AllocError, Global};

/// A part of a chart that has names of instances.
#[derive(Clone, Copy)]
pub(crate) enum Part {
    /// The part before the first section.
    Header,
    /// The sections.
    Sections,
}

/// Whether a name of the part follows the token.
fn leads_name(part: Part, token: &Token) -> bool
    ensures { (text : List ℕ) → result ≡ leads_name part (lexeme_of text token.now).symbol }
{
    match part {
        Part::Header => matches!(token.kind, Kind::Word(Word::Inst) | Kind::Comma),
        Part::Sections => token.kind == Kind::Word(Word::Instance),
    }
}

/// Whether the part ends before the token.
fn stops_part(part: Part, token: &Token) -> bool
    ensures { (text : List ℕ) → result ≡ stops_part part (lexeme_of text token.now).symbol }
{
    match part {
        Part::Header => token.kind == Kind::Word(Word::Instance),
        Part::Sections => false,
    }
}

/// The places of the names of instances in a part, in the order of the text.
pub(crate) fn name_places(
    alloc: Global,
    tokens: &[Token],
    part: Part,
) -> Result<Vec<usize>, AllocError>
    ensures { IfOk result
        (λ places. (text : List ℕ) → places.items ≡ name_places part (lexemes text tokens.now)) }
{
    let mut places = Vec::new(alloc);
    for (i, token) in tokens.iter().enumerate() {
        if stops_part(part, token) {
            return Ok(places);
        }
        if leads_name(part, token) {
            places.push(first_place(&tokens[i + 1..]))?;
        }
    }
    Ok(places)
}
