//! The draft of a path.

ghost use Rattle.std.specs.Prelude.{◌≡◌, ◌++◌, codes, map, IfOk};
ghost use Rattle.std.specs.List.{list_all};
ghost use Rattle.msc_lexer.specs.Bytes.{is_run_byte};
ghost use Rattle.std.specs.Option.{option_copied};
ghost use Rattle.msc_import.specs.Drafting.{between, decl_of, drawn_event, drawn_item, drawn_items};
ghost use Rattle.msc_import.specs.Drafting.{fitted, ident_text, is_chart_name, line_name};
ghost use Rattle.msc_import.specs.Plans.{seen};
ghost use Rattle.msc_import.specs.Drafting.{shown_by, shown_of, signal};
ghost use Rattle.msc_scenarios.specs.Naming.{kind_of};

use crate::plan::{Planned, Side};
use listed::Listed;
use msc_lexer::{NAME_LIMIT, Word};
use msc_mermaid::{Placed, Statement, is_word_byte};
use msc_parser::{Decl, Direction, Item, Name, Signal, Statement as Drawn};
use msc_scenarios::{Message, kind_of};
use std::alloc::{AllocError, Global};

/// Whether all bytes can be in names.
fn are_word_bytes(bytes: &[u8]) -> bool
    ensures { result ≡ list_all is_run_byte bytes.now }
{
    bytes.iter().all(|byte| is_word_byte(*byte))
}

/// Whether the bytes are a name of charts.
fn is_chart_name(bytes: &[u8]) -> bool
    ensures { result ≡ is_chart_name bytes.now }
{
    !bytes.is_empty()
        && are_word_bytes(bytes)
        && Word::of(bytes).is_none()
        && bytes.len() <= NAME_LIMIT
}

/// The bytes if they are a name of charts, otherwise one letter.
#[tactic(auto, unfolding(crate::specs::Drafting::fitted))]
pub(crate) fn fitted(alloc: Global, bytes: &[u8]) -> Result<Name, AllocError>
    ensures { IfOk result (λ n. n ≡ fitted bytes.now) }
{
    if !is_chart_name(bytes) {
        return Name::from_slice(alloc, "m".as_bytes());
    }
    Name::from_slice(alloc, bytes)
}

/// A message's name and its number.
fn ident_text(alloc: Global, message: &Message) -> Result<Vec<u8>, AllocError>
    ensures { IfOk result (λ v. v.items ≡ ident_text message.now) }
{
    let mut text = Vec::from_slice(alloc, message.name.as_slice())?;
    text.extend_from_slice(b", ")?;
    text.extend_from_slice(message.number.as_slice())?;
    Ok(text)
}

/// The name of a line.
pub(crate) fn line_name(names: &[Name], line: usize) -> &[u8]
    ensures { result.now ≡ line_name names.now line }
{
    if line < names.len() {
        names[line].as_slice()
    } else {
        &[]
    }
}

/// An output or an input of a message.
fn signal(
    alloc: Global,
    direction: Direction,
    message: &Message,
    address: &[u8],
) -> Result<Signal, AllocError>
    ensures { IfOk result (λ s. s ≡ signal direction message.now address.now) }
{
    Ok(Signal {
        direction,
        name: fitted(alloc, message.name.as_slice())?,
        number: Some(fitted(alloc, message.number.as_slice())?),
        parameters: Listed::from_vec(Vec::new(alloc)),
        address: fitted(alloc, address)?,
    })
}

/// The text of the action for a message that is lost.
fn lost_text(alloc: Global, names: &[Name], message: &Message) -> Result<Vec<u8>, AllocError>
    ensures { IfOk result (λ v. v.items
        ≡ codes "lost " ++ ident_text message.now ++ codes " to " ++ line_name names.now message.now.to) }
{
    let mut text = Vec::from_slice(alloc, b"lost ")?;
    text.extend_from_slice(ident_text(alloc, message)?.as_slice())?;
    text.extend_from_slice(b" to ")?;
    text.extend_from_slice(line_name(names, message.to))?;
    Ok(text)
}

/// The event of an end of a message.
#[tactic(auto, unfolding(crate::specs::Drafting::drawn_event))]
fn drawn_event(alloc: Global, names: &[Name], planned: Planned) -> Result<Drawn, AllocError>
    ensures { IfOk result (λ s. s ≡ drawn_event names.now (seen planned.entry)) }
{
    let message = planned.message;
    let from = line_name(names, message.from);
    let to = line_name(names, message.to);
    match planned.side {
        Side::Out => Ok(Drawn::Message(signal(alloc, Direction::Output, message, to)?)),
        Side::In => Ok(Drawn::Message(signal(alloc, Direction::Input, message, from)?)),
        Side::OutBack => Ok(Drawn::Message(signal(alloc, Direction::Output, message, from)?)),
        Side::InBack => Ok(Drawn::Message(signal(alloc, Direction::Input, message, to)?)),
        Side::Own => Ok(Drawn::Action(Listed::from_vec(ident_text(alloc, message)?))),
        Side::Lost => Ok(Drawn::Action(Listed::from_vec(lost_text(alloc, names, message)?))),
    }
}

/// These events.
fn drawn_events(
    alloc: Global,
    names: &[Name],
    events: &[Planned],
) -> Result<Listed<Drawn>, AllocError>
    ensures { IfOk result (λ l. l ≡ map (λ e. drawn_event names.now (seen e)) events.now) }
{
    let mut drawn = Vec::new(alloc);
    for event in events {
        drawn.push(drawn_event(alloc, names, *event)?)?;
    }
    Ok(Listed::from_vec(drawn))
}

/// A segment: one event, or a coregion.
fn drawn_item(alloc: Global, names: &[Name], events: &[Planned]) -> Result<Item, AllocError>
    ensures { IfOk result (λ i. i ≡ drawn_item names.now (map seen events.now)) }
{
    if events.len() != 1 {
        return Ok(Item::Coregion(drawn_events(alloc, names, events)?));
    }
    Ok(Item::Single(drawn_event(alloc, names, events[0])?))
}

/// The events between two places.
fn between<'e, 's>(events: &'e [Planned<'s>], start: usize, stop: usize) -> &'e [Planned<'s>]
    ensures { map seen result.now ≡ between (map seen events.now) start stop }
{
    if start <= stop && stop <= events.len() {
        &events[start..stop]
    } else {
        &[]
    }
}

/// The segments of events.
pub(crate) fn drawn_items(
    alloc: Global,
    names: &[Name],
    events: &[Planned],
    ends: &[usize],
) -> Result<Listed<Item>, AllocError>
    ensures { IfOk result (λ l. l ≡ drawn_items names.now (map seen events.now) 0 ends.now) }
{
    let mut items = Vec::new(alloc);
    let mut start = 0;
    for stop in ends {
        items.push(drawn_item(alloc, names, between(events, start, *stop))?)?;
        start = *stop;
    }
    Ok(Listed::from_vec(items))
}

/// The shown name that a statement gives a line.
fn shown_by<'s>(ident: &[u8], statement: &'s Statement) -> Option<&'s [u8]>
    ensures { option_copied result ≡ shown_by ident.now statement.now }
{
    match statement {
        Statement::Declares(other, Some(shown)) if other.as_slice() == ident => {
            Some(shown.as_slice())
        }
        _ => None,
    }
}

/// The first shown name of a line.
fn shown_of<'s>(ident: &[u8], statements: &'s [Placed]) -> Option<&'s [u8]>
    ensures { option_copied result ≡ shown_of ident.now statements.now }
{
    for placed in statements {
        if let Some(shown) = shown_by(ident, &placed.statement) {
            return Some(shown);
        }
    }
    None
}

/// The kind of a line of this name, with names of charts only.
fn fitted_kind(alloc: Global, name: &[u8], shown: &[u8]) -> Result<Listed<Name>, AllocError>
    ensures { IfOk result (λ l. l ≡ map fitted (kind_of name.now shown.now)) }
{
    let kind = kind_of(alloc, name, shown)?;
    let mut names = Vec::new(alloc);
    for name in kind.as_slice() {
        names.push(fitted(alloc, name.as_slice())?)?;
    }
    Ok(Listed::from_vec(names))
}

/// The name and the kind of a line.
#[tactic(auto, unfolding(crate::specs::Drafting::decl_of))]
pub(crate) fn decl_of(
    alloc: Global,
    name: &[u8],
    ident: &[u8],
    statements: &[Placed],
) -> Result<Decl, AllocError>
    ensures { IfOk result (λ d. d ≡ decl_of name.now ident.now statements.now) }
{
    let kind = match shown_of(ident, statements) {
        None => Listed::from_vec(Vec::new(alloc)),
        Some(shown) => fitted_kind(alloc, name, shown)?,
    };
    Ok(Decl {
        name: fitted(alloc, name)?,
        kind,
    })
}
