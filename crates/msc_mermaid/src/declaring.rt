//! Declarations of lines, and the texts that readers see.

ghost use Rattle.std.specs.Prelude.{◌≡◌, ◌≤◌, ◌==◌, drop, get_or, length, not, IfOk};
ghost use Rattle.std.specs.List.{prefix_len};
ghost use Rattle.msc_mermaid.specs.Gives.{Gives};
ghost use Rattle.msc_mermaid.specs.Names.{behind_colon, behind_quote, configured, declared};
ghost use Rattle.msc_mermaid.specs.Names.{declares, from_shown, is_quote, line_of, name_tail, plain};
ghost use Rattle.msc_mermaid.specs.Names.{shown_behind, shown_in, shown_text, unwrapped, up_to};
ghost use Rattle.msc_mermaid.specs.Names.{value_behind, value_of, value_shown, value_tail};

use crate::cutting::without_entities;
use crate::fault::{Expectation, ImportFault};
use crate::key::Mark;
use crate::lines::further;
use crate::name::{name_at, owned, parted};
use crate::seeking::{Sought, holds, is_alias};
use crate::statement::Statement;
use crate::white::{before_white, behind_white, trimmed, white_in_front};
use listed::Listed;
use msc_place::Position;
use std::alloc::{AllocError, Global};

/// The number of bytes of a statement from the name that it mentions or declares to its end, and
/// the number from the label of its arrow or the shown name of its line.
#[derive(Clone, Copy)]
pub(crate) struct Tails {
    pub name: usize,
    pub shown: usize,
}

/// A label or a shown name, and the number of bytes of its statement from its start to the end.
#[derive(Drop)]
pub(crate) struct Shown {
    pub text: Listed<u8>,
    pub tail: usize,
}

/// The number of bytes from a name to the end, if the bytes begin with white space and this name.
pub(crate) fn name_tail(bytes: &[u8], name: &[u8]) -> usize
    ensures { result ≡ name_tail bytes.now name.now }
{
    bytes.len().saturating_sub(white_in_front(name))
}

/// The bytes after a colon, if they begin with one.
fn behind_colon(bytes: &[u8]) -> &[u8]
    ensures { result.now ≡ behind_colon bytes.now }
{
    if Mark::Colon.begins(bytes) {
        return &bytes[1..];
    }
    bytes
}

/// A label or shown name without the word on its wrapping: the bytes after that word, or all bytes.
fn unwrapped<'t>(here: &'t [u8], bytes: &'t [u8]) -> &'t [u8]
    ensures { result.now ≡ unwrapped here.now bytes.now }
{
    if Mark::Wrap.begins(here) {
        return &here[5..];
    }
    if Mark::NoWrap.begins(here) {
        return &here[7..];
    }
    bytes
}

/// The bytes from a label or a shown name on, without the word on its wrapping.
fn from_shown(bytes: &[u8]) -> &[u8]
    ensures { result.now ≡ from_shown bytes.now }
{
    behind_white(unwrapped(behind_colon(behind_white(bytes)), bytes))
}

/// A label or a shown name at the end of a statement, without the word on its wrapping and with
/// blanks for its entities.
pub(crate) fn shown_text(alloc: Global, bytes: &[u8]) -> Result<Shown, AllocError>
    ensures { IfOk result (λ s. s ≡ shown_text bytes.now) }
{
    let rest = from_shown(bytes);
    Ok(Shown {
        text: without_entities(alloc, before_white(rest))?,
        tail: rest.len(),
    })
}

/// The first byte, or 0 if there is none.
fn first(bytes: &[u8]) -> u8
    ensures { result ≡ get_or bytes.now 0 0 }
{
    match bytes {
        [] => 0,
        [first, ..] => *first,
    }
}

/// Whether the byte is a quotation mark.
fn is_quote(byte: u8) -> bool
    ensures { result ≡ is_quote byte }
{
    byte == b'"' || byte == b'\''
}

/// The bytes after the first one, if there is one.
fn behind_first(bytes: &[u8]) -> &[u8]
    ensures { result.now ≡ drop 1 bytes.now }
{
    match bytes {
        [] => bytes,
        [_, rest @ ..] => rest,
    }
}

/// The bytes after a quotation mark, if they begin with one.
fn behind_quote(bytes: &[u8]) -> &[u8]
    ensures { result.now ≡ behind_quote bytes.now }
{
    if is_quote(first(bytes)) {
        behind_first(bytes)
    } else {
        bytes
    }
}

/// The number of bytes before the first byte of this value.
fn length_up_to(stop: u8, bytes: &[u8]) -> usize
    ensures length { result ≡ prefix_len (λ b. not (b == stop)) bytes.now }
    ensures within { result ≤ length bytes.now }
{
    bytes.iter().take_while(|byte| !(**byte == stop)).count()
}

/// The bytes before the first byte of this value.
fn up_to(stop: u8, bytes: &[u8]) -> &[u8]
    ensures { result.now ≡ up_to stop bytes.now }
{
    &bytes[..length_up_to(stop, bytes)]
}

/// A value of a configuration: the bytes between quotation marks, or before a comma.
fn value_of(bytes: &[u8]) -> &[u8]
    ensures { result.now ≡ value_of bytes.now }
{
    let quote = first(bytes);
    if is_quote(quote) {
        up_to(quote, behind_first(bytes))
    } else {
        trimmed(up_to(b',', bytes))
    }
}

/// The number of these bytes from a value to the end.
fn value_tail(bytes: &[u8]) -> usize
    ensures { result ≡ value_tail bytes.now }
{
    if is_quote(first(bytes)) {
        behind_first(bytes).len()
    } else {
        name_tail(bytes, up_to(b',', bytes))
    }
}

/// The shown name of this value, which `behind` bytes of the statement follow.
fn value_shown(alloc: Global, behind: usize, bytes: &[u8]) -> Result<Shown, AllocError>
    ensures { IfOk result (λ s. s ≡ value_shown behind bytes.now) }
{
    Ok(Shown {
        text: without_entities(alloc, value_of(bytes))?,
        tail: further(behind, value_tail(bytes)),
    })
}

/// The shown name after `alias` in a configuration, which `behind` bytes of the statement follow: a
/// colon and a value.
fn value_behind(alloc: Global, behind: usize, bytes: &[u8]) -> Result<Option<Shown>, AllocError>
    ensures { IfOk result (λ o. o ≡ value_behind behind bytes.now) }
{
    if !Mark::Colon.begins(bytes) {
        return Ok(None);
    }
    let value = value_shown(alloc, behind, behind_white(&bytes[1..]))?;
    Ok(Some(value))
}

/// The shown name in a configuration, which `behind` bytes of the statement follow, if there is
/// one.
fn shown_in(alloc: Global, behind: usize, config: &[u8]) -> Result<Option<Shown>, AllocError>
    ensures { IfOk result (λ o. o ≡ shown_in behind config.now) }
{
    let at = Sought::Text(Mark::Shown).before(config);
    if at == config.len() {
        return Ok(None);
    }
    let rest = Mark::Shown.behind(&config[at..]);
    value_behind(alloc, behind, behind_white(behind_quote(rest)))
}

/// A line of this name and shown name, with the number of bytes of its statement from each of them
/// on.
fn declares(name: Listed<u8>, tail: usize, shown: Option<Shown>) -> (Statement, Tails)
    ensures { result ≡ declares name tail shown }
{
    match shown {
        None => (
            Statement::Declares(name, None),
            Tails {
                name: tail,
                shown: 0,
            },
        ),
        Some(shown) => (
            Statement::Declares(name, Some(shown.text)),
            Tails {
                name: tail,
                shown: shown.tail,
            },
        ),
    }
}

/// A line of this name and shown name, with `tail` bytes from the name on.
#[tactic(auto, unfolding(crate::specs::Names::line_of))]
fn line_of(
    alloc: Global,
    here: Position,
    ident: &[u8],
    tail: usize,
    shown: Option<Shown>,
) -> Result<(Statement, Tails), ImportFault>
    ensures { Gives (λ x. x) result (line_of here ident.now tail shown) }
{
    let name = name_at(here, ident)?;
    Ok(declares(owned(alloc, name)?, tail, shown))
}

/// The shown name of a line with this configuration: the name after `as`, or otherwise the one in
/// the configuration. `bytes` follow the configuration, and `behind` bytes of the statement are
/// left at its end.
#[tactic(auto, unfolding(crate::specs::Names::shown_behind))]
fn shown_behind(
    alloc: Global,
    here: Position,
    behind: usize,
    config: &[u8],
    bytes: &[u8],
) -> Result<Option<Shown>, ImportFault>
    ensures { Gives (λ x. x) result (shown_behind here behind config.now bytes.now) }
{
    if bytes.is_empty() {
        return Ok(shown_in(alloc, behind, config)?);
    }
    if !is_alias(bytes) {
        return Err(ImportFault::Expected(here, Expectation::StatementEnd));
    }
    let shown = shown_text(alloc, Mark::As.behind(bytes))?;
    Ok(Some(shown))
}

/// A line of this name, from which this number of bytes is left, with the configuration that begins
/// here.
#[tactic(auto, unfolding(crate::specs::Names::configured))]
fn configured(
    alloc: Global,
    here: Position,
    ident: &[u8],
    tail: usize,
    bytes: &[u8],
) -> Result<(Statement, Tails), ImportFault>
    ensures { Gives (λ x. x) result (configured here ident.now tail bytes.now) }
{
    let name = name_at(here, ident)?;
    let parts = parted(here, Mark::DescriptionEnd, Expectation::Description, bytes)?;
    let behind = bytes.len().saturating_sub(parts.0.len());
    let shown = shown_behind(alloc, here, behind, parts.0, behind_white(parts.1))?;
    Ok(declares(owned(alloc, name)?, tail, shown))
}

/// A line without a configuration.
#[tactic(auto, unfolding(crate::specs::Names::plain))]
fn plain(alloc: Global, here: Position, bytes: &[u8]) -> Result<(Statement, Tails), ImportFault>
    ensures { Gives (λ x. x) result (plain here bytes.now) }
{
    let at = Sought::Alias.before(bytes);
    if at == bytes.len() {
        return line_of(alloc, here, bytes, name_tail(bytes, bytes), None);
    }
    let ident = &bytes[..at];
    let shown = shown_text(alloc, Mark::As.behind(behind_white(&bytes[at..])))?;
    line_of(alloc, here, ident, name_tail(bytes, ident), Some(shown))
}

/// The line that is declared.
#[tactic(auto, unfolding(crate::specs::Names::declared))]
pub(crate) fn declared(
    alloc: Global,
    here: Position,
    bytes: &[u8],
) -> Result<(Statement, Tails), ImportFault>
    ensures { Gives (λ x. x) result (declared here bytes.now) }
{
    let at = Sought::Text(Mark::Config).before(bytes);
    if at < Sought::Alias.before(bytes) {
        let ident = &bytes[..at];
        let config = Mark::Config.behind(&bytes[at..]);
        configured(alloc, here, ident, name_tail(bytes, ident), config)
    } else {
        plain(alloc, here, bytes)
    }
}
