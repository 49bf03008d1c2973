//! One token at a time, and the end of a statement.
//!
//! Each function reads the front of a slice of tokens, and returns the rest of the slice with its
//! result.

ghost use Rattle.std.specs.Prelude.{◌≡◌, ◌↔◌, IsTrue, length, Some};
ghost use Rattle.msc_lexer.specs.Lexemes.{lexemes, AreWithin};
ghost use Rattle.msc_parser.specs.Parsing.{is_refused, fault_at};
ghost use Rattle.msc_parser.specs.Reading.{first_kind, TakesToken, TakesName, TakesText, Ends};

use crate::fault::{ParseFault, What};
use crate::name::Name;
use crate::tree::Label;
use msc_lexer::{Kind, Token, Word, text_bytes};
use std::alloc::Global;

/// Whether this profile of Z.120 refuses the word.
fn is_refused(word: Word) -> bool
    ensures { result ≡ is_refused word }
{
    match word {
        Word::Env
        | Word::Condition
        | Word::Set
        | Word::Reset
        | Word::Timeout
        | Word::Create
        | Word::Stop => true,
        _ => false,
    }
}

/// The fault if `what` was expected at these tokens.
pub fn unexpected(text: &[u8], tokens: &[Token], what: What) -> ParseFault
    ensures { result ≡ fault_at (length text.now) what (lexemes text.now tokens.now) }
{
    match tokens {
        [] => ParseFault::Expected(text.len(), what),
        [token, ..] => {
            let place = token.start as usize;
            match token.kind {
                Kind::Word(word) if is_refused(word) => ParseFault::Unsupported(place, word),
                _ => ParseFault::Expected(place, what),
            }
        }
    }
}

/// Whether the first token is of this kind.
pub fn stands(kind: Kind, tokens: &[Token]) -> bool
    ensures { IsTrue result ↔ (first_kind tokens.now ≡ Some kind) }
{
    match tokens.first() {
        Some(token) => token.kind == kind,
        None => false,
    }
}

/// Takes a token of this kind. Otherwise the fault has `what` as the expected part.
pub fn take<'a>(
    kind: Kind,
    what: What,
    text: &[u8],
    tokens: &'a [Token],
) -> Result<&'a [Token], ParseFault>
    requires { AreWithin text.now tokens.now }
    ensures { TakesToken text.now kind what tokens.now result }
{
    if stands(kind, tokens) {
        Ok(&tokens[1..])
    } else {
        Err(unexpected(text, tokens, what))
    }
}

/// Takes a name, with its bytes. Otherwise the fault has `what` as the expected part.
pub fn take_name<'a>(
    alloc: Global,
    what: What,
    text: &[u8],
    tokens: &'a [Token],
) -> Result<(Name, &'a [Token]), ParseFault>
    requires { AreWithin text.now tokens.now }
    ensures { TakesName text.now what tokens.now result }
{
    if !stands(Kind::Name, tokens) {
        return Err(unexpected(text, tokens, what));
    }
    let token = tokens[0];
    let name = Name::from_slice(alloc, &text[token.start as usize..token.end as usize])?;
    Ok((name, &tokens[1..]))
}

/// Takes a text, with the bytes that it holds.
pub fn take_text<'a>(
    alloc: Global,
    text: &[u8],
    tokens: &'a [Token],
) -> Result<(Label, &'a [Token]), ParseFault>
    requires { AreWithin text.now tokens.now }
    ensures { TakesText text.now tokens.now result }
{
    if !stands(Kind::Text, tokens) {
        return Err(unexpected(text, tokens, What::Text));
    }
    let bytes = text_bytes(alloc, text, &tokens[0])?;
    Ok((Label::from_vec(bytes), &tokens[1..]))
}

/// Takes the end of a statement: `;`, or a comment and `;`. The comment is not kept.
pub fn take_end<'a>(text: &[u8], tokens: &'a [Token]) -> Result<&'a [Token], ParseFault>
    requires { AreWithin text.now tokens.now }
    ensures { Ends text.now tokens.now result }
{
    if !stands(Kind::Word(Word::Comment), tokens) {
        return take(Kind::Semicolon, What::End, text, tokens);
    }
    let rest = take(Kind::Text, What::Text, text, &tokens[1..])?;
    take(Kind::Semicolon, What::End, text, rest)
}
