//! Message events: a message's name, its message instance name and its parameters, and the address.
//!
//! Each function reads the front of a slice of tokens, and returns the rest of the slice with its
//! result.

ghost use Rattle.std.specs.Prelude.{◌≡◌, ◌≢◌, Some};
ghost use Rattle.msc_lexer.specs.Lexemes.{AreWithin};
ghost use Rattle.msc_parser.specs.declared.tree.Direction.{Direction};
ghost use Rattle.msc_parser.specs.Forms.{IsNamed, AreListed};
ghost use Rattle.msc_parser.specs.Grammar.{address_word, IsNumber, AreParameters};
ghost use Rattle.msc_parser.specs.Places.{AfterMessage, AfterNumber, GrammarPlace, Message};
ghost use Rattle.msc_parser.specs.Places.{Parameters};
ghost use Rattle.msc_parser.specs.Places.{AfterParameter, AfterParameters, address_what};
ghost use Rattle.msc_parser.specs.Reading.{first_kind, Reads, Leaves, IsAddressOf, IsSignalOf};

use crate::fault::{ParseFault, What};
use crate::name::Name;
use crate::taking::{stands, take, take_end, take_name};
use crate::tree::{Direction, Signal};
use listed::Listed;
use msc_lexer::{Kind, Token, Word};
use std::alloc::Global;

/// The word before the address of a message event.
pub fn address_word(direction: Direction) -> Word
    ensures { result ≡ address_word direction }
{
    match direction {
        Direction::Output => Word::To,
        Direction::Input => Word::From,
    }
}

/// The part that is expected before the address of a message event.
fn address_what(direction: Direction) -> What
    ensures { result ≡ address_what direction }
{
    match direction {
        Direction::Output => What::To,
        Direction::Input => What::From,
    }
}

/// The message instance name after a message's name, if there is one.
fn number<'a>(
    alloc: Global,
    text: &[u8],
    tokens: &'a [Token],
) -> Result<(Option<Name>, &'a [Token]), ParseFault>
    requires { AreWithin text.now tokens.now }
    ensures { (w : Direction) (p : GrammarPlace) →
        Reads text.now IsNumber (AfterMessage w p) (AfterNumber w p) tokens.now result }
{
    if !stands(Kind::Comma, tokens) {
        return Ok((None, tokens));
    }
    let (number, rest) = take_name(alloc, What::Name, text, &tokens[1..])?;
    Ok((Some(number), rest))
}

/// Names with commas between them, after `(`.
fn names<'a>(
    alloc: Global,
    text: &[u8],
    tokens: &'a [Token],
) -> Result<(Listed<Name>, &'a [Token]), ParseFault>
    requires within { AreWithin text.now tokens.now }
    requires some { first_kind tokens.now ≢ Some Kind.RightParen }
    ensures reads { (w : Direction) (p : GrammarPlace) →
        Reads text.now (AreListed IsNamed) (Parameters w p) (AfterParameter w p) tokens.now result }
    ensures stopped { Leaves Kind.Comma result }
{
    let (first, mut rest) = take_name(alloc, What::Parameter, text, tokens)?;
    let mut names = Vec::new(alloc);
    names.push(first)?;
    'names: while stands(Kind::Comma, rest) {
        let (more, after) = take_name(alloc, What::Name, text, &rest[1..])?;
        names.push(more)?;
        rest = after;
    }
    Ok((Listed::from_vec(names), rest))
}

/// The parameters of a message, in parentheses, if there are any.
fn parameters<'a>(
    alloc: Global,
    text: &[u8],
    tokens: &'a [Token],
) -> Result<(Listed<Name>, &'a [Token]), ParseFault>
    requires { AreWithin text.now tokens.now }
    ensures { (w : Direction) (p : GrammarPlace) →
        Reads text.now AreParameters (AfterNumber w p) (AfterParameters w p) tokens.now result }
{
    if !stands(Kind::LeftParen, tokens) {
        return Ok((Listed::from_vec(Vec::new(alloc)), tokens));
    }
    let rest = &tokens[1..];
    if stands(Kind::RightParen, rest) {
        return Ok((Listed::from_vec(Vec::new(alloc)), &rest[1..]));
    }
    let (names, rest) = names(alloc, text, rest)?;
    let rest = take(Kind::RightParen, What::Parameter, text, rest)?;
    Ok((names, rest))
}

/// The address of a message event of this direction, from the word before it to the end of the
/// statement.
fn address<'a>(
    alloc: Global,
    direction: Direction,
    text: &[u8],
    tokens: &'a [Token],
) -> Result<(Name, &'a [Token]), ParseFault>
    requires { AreWithin text.now tokens.now }
    ensures { (p : GrammarPlace) →
        Reads text.now (IsAddressOf direction) (AfterParameters direction p) p tokens.now result }
{
    let rest = take(
        Kind::Word(address_word(direction)),
        address_what(direction),
        text,
        tokens,
    )?;
    let (address, rest) = take_name(alloc, What::Name, text, rest)?;
    let rest = take_end(text, rest)?;
    Ok((address, rest))
}

/// A message event of this direction, after its first word.
pub fn signal<'a>(
    alloc: Global,
    direction: Direction,
    text: &[u8],
    tokens: &'a [Token],
) -> Result<(Signal, &'a [Token]), ParseFault>
    requires { AreWithin text.now tokens.now }
    ensures { (p : GrammarPlace) →
        Reads text.now (IsSignalOf direction) (Message direction p) p tokens.now result }
{
    let (name, rest) = take_name(alloc, What::Name, text, tokens)?;
    let (number, rest) = number(alloc, text, rest)?;
    let (parameters, rest) = parameters(alloc, text, rest)?;
    let (address, rest) = address(alloc, direction, text, rest)?;
    let signal = Signal {
        direction,
        name,
        number,
        parameters,
        address,
    };
    Ok((signal, rest))
}
