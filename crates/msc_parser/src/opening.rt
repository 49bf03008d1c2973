//! Events: those of messages, and actions, distinguished by their first words.
//!
//! Each function reads the front of a slice of tokens, and returns the rest of the slice with its
//! result.

ghost use Rattle.std.specs.Prelude.{◌≡◌, ◌≢◌, Some, IfSome, IfNone};
ghost use Rattle.msc_lexer.specs.Lexemes.{AreWithin};
ghost use Rattle.msc_parser.specs.Grammar.{IsAction};
ghost use Rattle.msc_parser.specs.Places.{GrammarPlace, ActionText};
ghost use Rattle.msc_parser.specs.Reading.{first_kind, Reads, opening_word, behind_opening};
ghost use Rattle.msc_parser.specs.Reading.{IsOpened};

use crate::fault::ParseFault;
use crate::signalling::signal;
use crate::taking::{stands, take_end, take_text};
use crate::tree::{Direction, Label, Statement};
use msc_lexer::{Kind, Token, Word};
use std::alloc::Global;

/// The beginning of an event.
#[derive(Clone, Copy)]
pub enum Opening {
    /// With `out` or `in`.
    Message(Direction),
    /// With `action`.
    Action,
}

/// The beginning of the event at the front, if there is one.
pub fn first_opening(tokens: &[Token]) -> Option<Opening>
    ensures some { IfSome result (λ o.
        first_kind tokens.now ≡ Some (Kind.Word (opening_word o))) }
    ensures none { IfNone result
        ((o : Opening) → first_kind tokens.now ≢ Some (Kind.Word (opening_word o))) }
{
    if stands(Kind::Word(Word::Output), tokens) {
        Some(Opening::Message(Direction::Output))
    } else if stands(Kind::Word(Word::Input), tokens) {
        Some(Opening::Message(Direction::Input))
    } else if stands(Kind::Word(Word::Action), tokens) {
        Some(Opening::Action)
    } else {
        None
    }
}

/// An action after its first word.
fn action<'a>(
    alloc: Global,
    text: &[u8],
    tokens: &'a [Token],
) -> Result<(Label, &'a [Token]), ParseFault>
    requires { AreWithin text.now tokens.now }
    ensures { (p : GrammarPlace) → Reads text.now IsAction (ActionText p) p tokens.now result }
{
    let (label, rest) = take_text(alloc, text, tokens)?;
    let rest = take_end(text, rest)?;
    Ok((label, rest))
}

/// An event with this beginning, after its first word.
pub fn opened<'a>(
    alloc: Global,
    opening: Opening,
    text: &[u8],
    tokens: &'a [Token],
) -> Result<(Statement, &'a [Token]), ParseFault>
    requires { AreWithin text.now tokens.now }
    ensures { (p : GrammarPlace) →
        Reads text.now (IsOpened opening) (behind_opening opening p) p tokens.now result }
{
    match opening {
        Opening::Message(direction) => {
            let (signal, rest) = signal(alloc, direction, text, tokens)?;
            Ok((Statement::Message(signal), rest))
        }
        Opening::Action => {
            let (label, rest) = action(alloc, text, tokens)?;
            Ok((Statement::Action(label), rest))
        }
    }
}
