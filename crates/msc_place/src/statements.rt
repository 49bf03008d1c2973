//! The places of the statements of events.

ghost use Rattle.std.specs.Prelude.{◌≡◌, ℕ, List, IfOk};
ghost use Rattle.msc_lexer.specs.Lexemes.{lexemes, lexeme_of};
ghost use Rattle.msc_place.specs.Standing.{begins_event};
ghost use Rattle.msc_place.specs.Collecting.{is_semicolon, leads_address, first_place};
ghost use Rattle.msc_place.specs.Collecting.{end_of, address_of};
ghost use Rattle.msc_place.specs.Collecting.{event_place, event_places};

use crate::places::EventPlace;
use msc_lexer::{Kind, Token, Word};
use std::alloc::{AllocError, Global};

/// Whether the token begins the statement of an event.
fn begins_event(token: &Token) -> bool
    ensures { (text : List ℕ) → result ≡ begins_event (lexeme_of text token.now).symbol }
{
    matches!(
        token.kind,
        Kind::Word(Word::Output | Word::Input | Word::Action)
    )
}

/// Whether the token is a `;`.
fn is_semicolon(token: &Token) -> bool
    ensures { (text : List ℕ) → result ≡ is_semicolon (lexeme_of text token.now).symbol }
{
    token.kind == Kind::Semicolon
}

/// Whether an address follows the token.
fn leads_address(token: &Token) -> bool
    ensures { (text : List ℕ) → result ≡ leads_address (lexeme_of text token.now).symbol }
{
    matches!(token.kind, Kind::Word(Word::To | Word::From))
}

/// The place of the first token.
pub(crate) fn first_place(tokens: &[Token]) -> usize
    ensures { (text : List ℕ) → result ≡ first_place (lexemes text tokens.now) }
{
    match tokens {
        [first, ..] => first.start as usize,
        [] => 0,
    }
}

/// The place after the first `;`.
fn end_of(tokens: &[Token]) -> usize
    ensures { (text : List ℕ) → result ≡ end_of (lexemes text tokens.now) }
{
    for token in tokens {
        if is_semicolon(token) {
            return token.start as usize + 1;
        }
    }
    0
}

/// The place of the address in a statement, if it has one.
fn address_of(tokens: &[Token]) -> Option<usize>
    ensures { (text : List ℕ) → result ≡ address_of (lexemes text tokens.now) }
{
    for (i, token) in tokens.iter().enumerate() {
        if is_semicolon(token) {
            return None;
        }
        if leads_address(token) {
            return Some(first_place(&tokens[i + 1..]));
        }
    }
    None
}

/// The places of the statement that these tokens begin with.
fn event_place(tokens: &[Token]) -> EventPlace
    ensures { (text : List ℕ) → result ≡ event_place (lexemes text tokens.now) }
{
    EventPlace {
        start: first_place(tokens),
        end: end_of(tokens),
        address: address_of(tokens),
    }
}

/// The places of the statements of events, in the order of the text.
pub(crate) fn event_places(alloc: Global, tokens: &[Token]) -> Result<Vec<EventPlace>, AllocError>
    ensures { IfOk result
        (λ places. (text : List ℕ) → places.items ≡ event_places (lexemes text tokens.now)) }
{
    let mut places = Vec::new(alloc);
    for (i, token) in tokens.iter().enumerate() {
        if begins_event(token) {
            places.push(event_place(&tokens[i..]))?;
        }
    }
    Ok(places)
}
