//! The sections of a chart: events and coregions (Z.120), instance by instance.
//!
//! Each function reads the front of a slice of tokens, and returns the rest of the slice with its
//! result.

ghost use Rattle.std.specs.Prelude.{◌≡◌, ◌≢◌, ◌≤◌, [], Some, length};
ghost use Rattle.msc_lexer.specs.Lexemes.{AreWithin, Reserved};
ghost use Rattle.msc_parser.specs.Grammar.{IsEvent, IsCoregion, IsItem, IsInstance, IsSection};
ghost use Rattle.msc_parser.specs.Places.{InInstance, DeclName, Items, Events, Sections};
ghost use Rattle.msc_parser.specs.Places.{StatementEnd, Done};
ghost use Rattle.msc_parser.specs.Reading.{first_kind, Reads, Uses, AreUpTo};

use crate::fault::{ParseFault, What};
use crate::heading::decl;
use crate::opening::{first_opening, opened};
use crate::taking::{stands, take, take_end, unexpected};
use crate::tree::{Item, Section, Statement};
use listed::Listed;
use msc_lexer::{Kind, Token, Word};
use std::alloc::Global;

/// An event of a coregion.
fn event<'a>(
    alloc: Global,
    text: &[u8],
    tokens: &'a [Token],
) -> Result<(Statement, &'a [Token]), ParseFault>
    requires within { AreWithin text.now tokens.now }
    requires goes_on { first_kind tokens.now ≢ Some (Kind.Word Word.EndConcurrent) }
    ensures reads { Reads text.now IsEvent Events Events tokens.now result }
    ensures uses { Uses tokens.now result }
{
    let Some(opening) = first_opening(tokens) else {
        return Err(unexpected(text, tokens, What::Event));
    };
    opened(alloc, opening, text, &tokens[1..])
}

/// The events of a coregion, and its `endconcurrent`.
fn events<'a>(
    alloc: Global,
    text: &[u8],
    tokens: &'a [Token],
) -> Result<(Listed<Statement>, &'a [Token]), ParseFault>
    requires { AreWithin text.now tokens.now }
    ensures { Reads text.now (AreUpTo (Reserved Word.EndConcurrent)
        IsEvent) Events (StatementEnd Items) tokens.now result }
{
    let mut events = Vec::new(alloc);
    let mut rest = tokens;
    'statements: while !stands(Kind::Word(Word::EndConcurrent), rest) {
        let (event, after) = event(alloc, text, rest)?;
        events.push(event)?;
        rest = after;
    }
    Ok((Listed::from_vec(events), &rest[1..]))
}

/// A coregion after its first word.
fn coregion<'a>(
    alloc: Global,
    text: &[u8],
    tokens: &'a [Token],
) -> Result<(Listed<Statement>, &'a [Token]), ParseFault>
    requires { AreWithin text.now tokens.now }
    ensures { Reads text.now IsCoregion (StatementEnd Events) Items tokens.now result }
{
    let rest = take_end(text, tokens)?;
    let (events, rest) = events(alloc, text, rest)?;
    let rest = take_end(text, rest)?;
    Ok((events, rest))
}

/// An item of a section.
fn item<'a>(
    alloc: Global,
    text: &[u8],
    tokens: &'a [Token],
) -> Result<(Item, &'a [Token]), ParseFault>
    requires within { AreWithin text.now tokens.now }
    requires goes_on { first_kind tokens.now ≢ Some (Kind.Word Word.EndInstance) }
    ensures reads { Reads text.now IsItem Items Items tokens.now result }
    ensures uses { Uses tokens.now result }
{
    if stands(Kind::Word(Word::Concurrent), tokens) {
        let (events, rest) = coregion(alloc, text, &tokens[1..])?;
        return Ok((Item::Coregion(events), rest));
    }
    let Some(opening) = first_opening(tokens) else {
        return Err(unexpected(text, tokens, What::Item));
    };
    let (event, rest) = opened(alloc, opening, text, &tokens[1..])?;
    Ok((Item::Single(event), rest))
}

/// The number of statement ends before the next `endinstance`, which is at least the number of
/// items of the section with which these tokens begin.
fn statement_ends(tokens: &[Token]) -> usize
    ensures { result ≤ length tokens.now }
{
    let mut ends = 0;
    let mut at = 0;
    while at < tokens.len() && tokens[at].kind != Kind::Word(Word::EndInstance) {
        if tokens[at].kind == Kind::Semicolon {
            ends += 1;
        }
        at += 1;
    }
    ends
}

/// An empty list with room for `count` items. If that room is refused, it is a list that grows.
fn room_for(alloc: Global, count: usize) -> Vec<Item>
    ensures { result.items ≡ [] }
{
    match Vec::with_capacity(alloc, count) {
        Ok(items) => items,
        Err(_) => Vec::new(alloc),
    }
}

/// The items of a section, and its `endinstance`. Room for them is made at once, so that no list is
/// copied to grow.
fn items<'a>(
    alloc: Global,
    text: &[u8],
    tokens: &'a [Token],
) -> Result<(Listed<Item>, &'a [Token]), ParseFault>
    requires { AreWithin text.now tokens.now }
    ensures { Reads text.now (AreUpTo (Reserved Word.EndInstance)
        IsItem) Items (StatementEnd Sections) tokens.now result }
{
    let mut items = room_for(alloc, statement_ends(tokens));
    let mut rest = tokens;
    'statements: while !stands(Kind::Word(Word::EndInstance), rest) {
        let (item, after) = item(alloc, text, rest)?;
        items.push(item)?;
        rest = after;
    }
    Ok((Listed::from_vec(items), &rest[1..]))
}

/// A section after its first word.
fn section<'a>(
    alloc: Global,
    text: &[u8],
    tokens: &'a [Token],
) -> Result<(Section, &'a [Token]), ParseFault>
    requires { AreWithin text.now tokens.now }
    ensures { Reads text.now IsInstance (DeclName InInstance) Sections tokens.now result }
{
    let (decl, rest) = decl(alloc, text, tokens)?;
    let rest = take_end(text, rest)?;
    let (items, rest) = items(alloc, text, rest)?;
    let rest = take_end(text, rest)?;
    Ok((Section { decl, items }, rest))
}

/// The sections of a chart, and its `endmsc`.
pub fn sections<'a>(
    alloc: Global,
    text: &[u8],
    tokens: &'a [Token],
) -> Result<(Listed<Section>, &'a [Token]), ParseFault>
    requires { AreWithin text.now tokens.now }
    ensures { Reads text.now (AreUpTo (Reserved Word.EndMsc)
        IsSection) Sections (StatementEnd Done) tokens.now result }
{
    let mut sections = Vec::new(alloc);
    let mut rest = tokens;
    'instances: while stands(Kind::Word(Word::Instance), rest) {
        let (section, after) = section(alloc, text, &rest[1..])?;
        sections.push(section)?;
        rest = after;
    }
    let rest = take(Kind::Word(Word::EndMsc), What::Section, text, rest)?;
    Ok((Listed::from_vec(sections), rest))
}
