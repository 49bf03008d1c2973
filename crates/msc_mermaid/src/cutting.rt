//! Lines of statements are cut into pieces, each of which is a statement. A piece ends before each
//! `;` that belongs to no entity, and the last piece ends before a `#` that begins none. An entity
//! is `#`, a word and `;`.

ghost use Rattle.std.specs.Prelude.{◌≡◌, false, map, IfOk};
ghost use Rattle.msc_lexer.specs.Bytes.{begins};
ghost use Rattle.msc_mermaid.specs.Cutting.{bare_from, bare_step, cut, is_entity, is_semicolon};
ghost use Rattle.msc_mermaid.specs.Cutting.{leaves_open, open_step, turn_at, without_entities};

use crate::key::Mark;
use crate::pattern::word_length;
use crate::row::behind_first_word;
use listed::Listed;
use std::alloc::{AllocError, Global};

/// The effect of a byte of a line.
#[derive(Clone, Copy)]
pub(crate) enum Turn {
    /// The line ends before it.
    End,
    /// A piece ends before it.
    Cut,
    /// The piece goes on after it, within an entity or not.
    On(bool),
}

/// Whether the bytes begin with a semicolon.
fn begins_semicolon(bytes: &[u8]) -> bool
    ensures { result ≡ begins is_semicolon bytes.now }
{
    match bytes {
        [] => false,
        [first, ..] => *first == b';',
    }
}

/// Whether these bytes make an entity of the `#` before them.
fn is_entity(bytes: &[u8]) -> bool
    ensures { result ≡ is_entity bytes.now }
{
    word_length(bytes) > 0 && begins_semicolon(behind_first_word(bytes))
}

/// The effect of a byte, within an entity or not, that is followed by these.
fn turn_at(within: bool, byte: u8, rest: &[u8]) -> Turn
    ensures { result ≡ turn_at within byte rest.now }
{
    if within {
        return Turn::On(byte != b';');
    }
    if byte == b';' {
        return Turn::Cut;
    }
    if byte != b'#' {
        return Turn::On(false);
    }
    if is_entity(rest) {
        Turn::On(true)
    } else {
        Turn::End
    }
}

/// The pieces of a line. The only error is that memory ran out.
pub(crate) fn cut(alloc: Global, bytes: &[u8]) -> Result<Vec<&[u8]>, AllocError>
    ensures { IfOk result (λ v. map (λ x. x.now) v.items ≡ cut bytes.now) }
{
    let mut pieces = Vec::new(alloc);
    let mut start = 0;
    let mut within = false;
    for i in 0..bytes.len() {
        match turn_at(within, bytes[i], &bytes[i + 1..]) {
            Turn::End => {
                pieces.push(&bytes[start..i])?;
                return Ok(pieces);
            }
            Turn::Cut => {
                pieces.push(&bytes[start..i])?;
                start = i + 1;
                within = false;
            }
            Turn::On(next) => within = next,
        }
    }
    pieces.push(&bytes[start..])?;
    Ok(pieces)
}

/// The byte that replaces a byte in a text for readers, within an entity or not, and whether the
/// next byte is within an entity.
fn bare_step(within: bool, byte: u8, rest: &[u8]) -> (u8, bool)
    ensures { result ≡ bare_step within byte rest.now }
{
    if within {
        return (b' ', byte != b';');
    }
    if byte == b'#' && is_entity(rest) {
        return (b' ', true);
    }
    (byte, false)
}

/// The bytes with blanks for entities, in new memory.
pub(crate) fn without_entities(alloc: Global, bytes: &[u8]) -> Result<Listed<u8>, AllocError>
    ensures { IfOk result (λ l. l ≡ without_entities bytes.now) }
{
    let mut bare = Vec::new(alloc);
    let mut within = false;
    for i in 0..bytes.len() {
        let (byte, next) = bare_step(within, bytes[i], &bytes[i + 1..]);
        bare.push(byte)?;
        within = next;
    }
    Ok(Listed::from_vec(bare))
}

/// Whether a directive is open after a byte, given whether it was open before.
fn open_step(was: bool, bytes: &[u8]) -> bool
    ensures { result ≡ open_step was bytes.now }
{
    if was {
        !Mark::DirectiveEnd.begins(bytes)
    } else {
        Mark::Directive.begins(bytes)
    }
}

/// Whether a directive is open after the bytes: no `}%%` follows the last `%%{`.
pub(crate) fn leaves_open(bytes: &[u8]) -> bool
    ensures { result ≡ leaves_open false bytes.now }
{
    let mut open = false;
    for i in 0..bytes.len() {
        open = open_step(open, &bytes[i..]);
    }
    open
}
