//! The refusal of a text that has no draft.

ghost use Rattle.std.specs.Prelude.{◌≡◌, IfOk, List};
ghost use Rattle.msc_lexer.specs.Lexing.{HasTokens};
ghost use Rattle.msc_lexer.specs.declared.token.Token.{Token};
ghost use Rattle.msc_refusals.specs.Parses.{token_past, IsParseRefusal, IsPast, IsTokenPast};
ghost use Rattle.msc_refusals.specs.Parses.{lexical_past};

use crate::answer::{RefusedText, words_refusal};
use crate::part::name_past;
use msc_fault_words::parse_words;
use msc_lexer::{LexFault, Token};
use msc_notes::FaultNotes;
use msc_parser::ParseFault;
use msc_place::token_at;
use std::alloc::{AllocError, Global};

/// The place after a token, or this place if there is none.
fn token_past(token: Option<Token>, at: usize) -> usize
    ensures { result ≡ token_past at token }
{
    match token {
        Some(token) => token.end as usize,
        None => at,
    }
}

/// The place after the token at a place of a text.
fn past_token(alloc: Global, text: &[u8], at: usize) -> Result<usize, AllocError>
    ensures { IfOk result (IsTokenPast text.now at) }
{
    let spot = token_at(alloc, text, at)?;
    Ok(token_past(spot.token, at))
}

/// The place after a name that is too long; of any other lexical fault its place.
fn lexical_past(text: &[u8], fault: LexFault) -> usize
    ensures { result ≡ lexical_past text.now fault }
{
    match fault {
        LexFault::LongName(at) => name_past(text, at),
        LexFault::BadByte(at) | LexFault::OpenNote(at) | LexFault::OpenText(at) => at,
        LexFault::TooLong | LexFault::Memory => 0,
    }
}

/// The place after what the first fault of a text is about.
fn past_of(alloc: Global, text: &[u8], fault: ParseFault) -> Result<usize, AllocError>
    ensures { IfOk result (IsPast text.now fault) }
{
    match fault {
        ParseFault::Lex(fault) => Ok(lexical_past(text, fault)),
        ParseFault::Unsupported(at, _) => past_token(alloc, text, at),
        ParseFault::Expected(at, _) => past_token(alloc, text, at),
        ParseFault::Memory => Ok(0),
    }
}

/// The refusal of a text for its first fault, with these notes on it. The only error is want of
/// memory.
pub fn parse_refusal(
    alloc: Global,
    refused: RefusedText<'_>,
    fault: ParseFault,
    told: &FaultNotes,
) -> Result<Vec<u8>, AllocError>
    ensures { IfOk result (λ bytes.
        IsParseRefusal refused.entry fault told.now.notes bytes.items) }
{
    let past = past_of(alloc, refused.text, fault)?;
    let words = parse_words(alloc, refused.text, fault, past, told)?;
    words_refusal(alloc, refused, &words)
}
