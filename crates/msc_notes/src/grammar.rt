//! Notes on grammar faults.

ghost use Rattle.std.specs.Prelude.{◌≡◌, ◌≤◌, List, length, IfOk, IfSome};
ghost use Rattle.msc_lexer.specs.declared.token.Token.{Token};
ghost use Rattle.msc_lexer.specs.Lexing.{HasTokens};
ghost use Rattle.msc_notes.specs.Behind.{AreExpected, IsOnAnotherLine, expected_notes};

use crate::note::{Note, Tag, placed, worded};
use listed::Listed;
use msc_lexer::{Kind, Token};
use msc_parser::{ParseFault, What, parse};
use msc_place::{Position, TokenAt, token_at};
use std::alloc::{AllocError, Global};

/// The bytes of a token.
fn bytes_of(text: &[u8], token: Token) -> &[u8] {
    text.get(token.start as usize..token.end as usize)
        .unwrap_or(b"")
}

/// The word for a kind of token.
fn kind_words(kind: Kind) -> &'static [u8] {
    match kind {
        Kind::Word(_) => b"the reserved word ",
        Kind::Name => b"the name ",
        Kind::Text => b"a text",
        Kind::Semicolon => b";",
        Kind::Comma => b",",
        Kind::Colon => b":",
        Kind::LeftParen => b"(",
        Kind::RightParen => b")",
    }
}

/// What was found: a token, or the end of the text.
fn found(alloc: Global, text: &[u8], token: Option<Token>) -> Result<Vec<u8>, AllocError> {
    let Some(token) = token else {
        return Vec::from_slice(alloc, b"the end of the text");
    };
    let mut words = Vec::from_slice(alloc, kind_words(token.kind))?;
    match token.kind {
        Kind::Word(word) => words.extend_from_slice(word.spelling())?,
        Kind::Name => words.extend_from_slice(bytes_of(text, token))?,
        _ => {}
    }
    Ok(words)
}

/// Whether a name is expected at a place: a `;` there would be refused for want of one.
fn expects_name(alloc: Global, text: &[u8], at: usize) -> Result<bool, AllocError> {
    let mut tried = Vec::from_slice(alloc, text.get(..at).unwrap_or(b""))?;
    tried.push(b';')?;
    match parse(alloc, &tried) {
        Err(ParseFault::Expected(place, What::Name)) => Ok(place == at),
        Err(ParseFault::Memory) => Err(AllocError),
        _ => Ok(false),
    }
}

/// What to write in place of a reserved word if a name is expected.
fn reserved_hint(alloc: Global, word: &[u8]) -> Result<Vec<u8>, AllocError> {
    let mut hint = Vec::from_slice(alloc, word)?;
    hint.extend_from_slice(b" is reserved in any case; ")?;
    hint.extend_from_slice(word)?;
    hint.extend_from_slice(b"_ is a name")?;
    Ok(hint)
}

/// The hint on a token that is a reserved word.
fn hint(
    alloc: Global,
    text: &[u8],
    token: Option<Token>,
) -> Result<Option<Listed<u8>>, AllocError> {
    let Some(token) = token else {
        return Ok(None);
    };
    match token.kind {
        Kind::Word(_) => {
            let hint = reserved_hint(alloc, bytes_of(text, token))?;
            Ok(Some(Listed::from_vec(hint)))
        }
        _ => Ok(None),
    }
}

/// The place after the token before a fault, if that is on another line than the fault.
fn behind(text: &[u8], at: usize, spot: TokenAt) -> Option<usize>
    requires at { at ≤ length text.now }
    requires behind { IfSome spot.behind (λ b. b ≤ length text.now) }
    ensures { IsOnAnotherLine text.now at spot.behind result }
{
    match spot.behind {
        Some(end) => {
            let before = Position::of(text, end);
            let here = Position::of(text, at);
            if before.line == here.line {
                None
            } else {
                Some(end)
            }
        }
        None => None,
    }
}

/// The notes on a word that is not supported.
pub(crate) fn unsupported_notes(
    alloc: Global,
    text: &[u8],
    at: usize,
) -> Result<Vec<Note>, AllocError> {
    let mut notes = Vec::new(alloc);
    if expects_name(alloc, text, at)? {
        let spot = token_at(alloc, text, at)?;
        if let Some(hint) = hint(alloc, text, spot.token)? {
            notes.push(worded(Tag::Hint, hint.into_vec()))?;
        }
    }
    Ok(notes)
}

/// The notes: what was found, the end of the token before it, and a hint.
fn assembled(
    alloc: Global,
    found: Vec<u8>,
    behind: Option<usize>,
    hint: Option<Listed<u8>>,
) -> Result<Vec<Note>, AllocError>
    ensures { IfOk result (λ notes. notes.items ≡ expected_notes found.items behind hint) }
{
    let mut notes = Vec::new(alloc);
    notes.push(worded(Tag::Found, found))?;
    if let Some(at) = behind {
        notes.push(placed(Tag::Behind, Vec::new(alloc), at))?;
    }
    if let Some(hint) = hint {
        notes.push(worded(Tag::Hint, hint.into_vec()))?;
    }
    Ok(notes)
}

/// The hint if something else was expected: on a reserved word in place of a name.
fn expected_hint(
    alloc: Global,
    text: &[u8],
    token: Option<Token>,
    what: What,
) -> Result<Option<Listed<u8>>, AllocError> {
    match what {
        What::Name => hint(alloc, text, token),
        _ => Ok(None),
    }
}

/// The notes if something else was expected.
pub(crate) fn expected_notes(
    alloc: Global,
    text: &[u8],
    at: usize,
    what: What,
) -> Result<Vec<Note>, AllocError>
    requires { at ≤ length text.now }
    ensures { IfOk result (λ notes. (ts : List Token) → HasTokens text.now ts
        → AreExpected text.now at notes.items) }
{
    let spot = token_at(alloc, text, at)?;
    let found = found(alloc, text, spot.token)?;
    let hint = expected_hint(alloc, text, spot.token, what)?;
    assembled(alloc, found, behind(text, at, spot), hint)
}
