//! From a text to its draft, or to its first fault.

ghost use Rattle.std.specs.Prelude.{◌≡◌, ◌≢◌, ◌≤◌, length, IfOk, IfErr};
ghost use Rattle.msc_lexer.specs.Lexemes.{AreWithin, HaveNames, lexemes};
ghost use Rattle.msc_parser.specs.declared.fault.ParseFault.{ParseFault};
ghost use Rattle.msc_parser.specs.Grammar.{Tree};
ghost use Rattle.msc_parser.specs.Parsing.{HasDraft, HasParseFault, IsDraftOrMemory};
ghost use Rattle.msc_parser.specs.Parsing.{IsFaultOrMemory};
ghost use Rattle.msc_parser.specs.Reading.{ReadsChart};

use crate::draft::Draft;
use crate::fault::{ParseFault, What};
use crate::heading::header;
use crate::sectioning::sections;
use crate::taking::{take, take_end, take_name, unexpected};
use msc_lexer::laws::one_reading;
use msc_lexer::{Kind, LexFault, TEXT_LIMIT, Token, Word, lex};
use std::alloc::Global;

/// The draft of all tokens of a text.
fn chart(alloc: Global, text: &[u8], tokens: &[Token]) -> Result<Draft, ParseFault>
    requires within { AreWithin text.now tokens.now }
    requires named { HaveNames (lexemes text.now tokens.now) }
    requires few { length tokens.now ≤ TEXT_LIMIT }
    ensures { ReadsChart text.now tokens.now result }
{
    let rest = take(Kind::Word(Word::Msc), What::Msc, text, tokens)?;
    let (name, rest) = take_name(alloc, What::Name, text, rest)?;
    let rest = take_end(text, rest)?;
    let (header, rest) = header(alloc, text, rest)?;
    let (sections, rest) = sections(alloc, text, rest)?;
    let rest = take_end(text, rest)?;
    if !rest.is_empty() {
        return Err(unexpected(text, rest, What::Nothing));
    }
    Ok(Draft::new(name, header, sections))
}

/// The draft of a text, or a fault of it.
fn whole(alloc: Global, text: &[u8]) -> Result<Draft, ParseFault>
    ensures accepted { IfOk result (HasDraft text.now) }
    ensures fault { IfErr result (λ e. e ≢ ParseFault.Memory → HasParseFault text.now e) }
{
    match lex(alloc, text) {
        Ok(tokens) => chart(alloc, text, tokens.as_slice()),
        Err(LexFault::Memory) => Err(ParseFault::Memory),
        Err(fault) => Err(ParseFault::Lex(fault)),
    }
}

/// The draft of a text, or its first fault.
///
/// The whole text is read into tokens first, so `Lex` precedes every fault of the grammar.
/// Otherwise the first token with which no chart continues decides: `Unsupported` if it is a word
/// that this profile of Z.120 refuses, and `Expected` otherwise. `Memory` is returned if a growth
/// of memory was refused.
pub fn parse(alloc: Global, text: &[u8]) -> Result<Draft, ParseFault>
    // The text has the returned draft, or the returned fault.
    ensures accepted { IfOk result (HasDraft text.now) }
    ensures fault { IfErr result (λ e. e ≢ ParseFault.Memory → HasParseFault text.now e) }

    // The text's draft or its fault is returned, unless memory runs out.
    ensures only_accepted { (t : Tree) → HasDraft text.now t → IsDraftOrMemory t result }
    ensures only_fault { (f : ParseFault) → HasParseFault text.now f → IsFaultOrMemory f result }
{
    one_reading();
    whole(alloc, text)
}
