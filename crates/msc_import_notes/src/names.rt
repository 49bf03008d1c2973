//! The name of a statement that does not fit, and the places of names.

use crate::bytes::{
    arrow_from, before_white, begins_with_white, behind, first_word, found_from, front, past_white,
    word_length,
};
use crate::hints::{Answer, joined, name_between, run_before, second};
use crate::statement::Statement;
use msc_mermaid::trimmed;
use std::alloc::{AllocError, Global};

/// Parts that no name has.
const BARRED: &[&[u8]] = &[b"%%", b"()", b"-/", b"-\\", b"-|"];

/// Whether the bytes are a name.
fn is_name(name: &[u8]) -> bool {
    let barred = name.iter().any(|byte| matches!(
        byte,
        b'+' | b'<' | b'=' | b'>' | b':' | b',' | b';'
    ));
    let ends = name.first() == Some(&b'-') || name.last() == Some(&b'-');
    !name.is_empty() && !barred && !ends && !has_barred(name)
}

/// Whether the bytes have a part that no name has.
fn has_barred(name: &[u8]) -> bool {
    BARRED
        .iter()
        .any(|part| found_from(name, part, 0).is_some())
}

/// Whether a name before `()` makes it a part of itself.
fn is_joining(name: &[u8]) -> bool {
    name.iter()
        .any(|byte| matches!(byte, b'-' | b'/' | b'\\' | b'('))
}

/// Whether `as` is here, with white space after it.
fn begins_alias(word: &[u8]) -> bool {
    front(word, 2).eq_ignore_ascii_case(b"as") && begins_with_white(behind(word, 2)) > 0
}

/// The place of ` as ` in a declaration, or its end.
fn alias_from(bytes: &[u8], from: usize) -> usize {
    let mut past = from;
    for at in from..bytes.len() {
        if at >= past {
            let next = past_white(bytes, at);
            if next > at && begins_alias(behind(bytes, next)) {
                return at;
            }
            past = next;
        }
    }
    bytes.len()
}

/// The place of the name of a declaration, and the end of what is taken for it.
pub(crate) fn declared(own: &Statement) -> (usize, usize) {
    let bare = own.bare.as_slice();
    let mut at = own.word.len();
    if own.is_one_of(&[b"create"]) {
        at = past_white(bare, at);
        at = at.saturating_add(word_length(behind(bare, at)));
    }
    at = past_white(bare, at);
    let brace = found_from(bare, b"@{", at).unwrap_or(bare.len());
    (at, brace.min(alias_from(bare, at)))
}

/// The end of the sign after an arrow: `+`, `-` or `()`.
fn past_sign(bare: &[u8], at: usize) -> usize {
    let rest = behind(bare, at);
    if rest.starts_with(b"+") || rest.starts_with(b"-") {
        return at.saturating_add(1);
    }
    if rest.starts_with(b"()") {
        return at.saturating_add(2);
    }
    at
}

/// The place of the receiver of an arrow that ends here, and of the colon after it.
pub(crate) fn receiver(bare: &[u8], past: usize) -> (usize, usize) {
    let at = past_sign(bare, past_white(bare, past));
    let colon = found_from(bare, b":", at).unwrap_or(bare.len());
    (past_white(bare, at), colon)
}

/// The name of the sender before an arrow, and whether `()` follows it.
pub(crate) fn sender(bare: &[u8], arrow: usize) -> (&[u8], bool) {
    let part = trimmed(front(bare, arrow));
    if part.ends_with(b"()") {
        return (trimmed(front(part, part.len().saturating_sub(2))), true);
    }
    (part, false)
}

/// The answer on the sender of an arrow, if its name does not fit.
fn sender_answer(
    alloc: Global,
    text: &[u8],
    own: &Statement,
    arrow: (usize, usize),
) -> Result<Option<Answer>, AllocError> {
    let bare = own.bare.as_slice();
    let (name, central) = sender(bare, arrow.0);
    if is_name(name) {
        if central && is_joining(name) {
            return Ok(Some(joined(alloc, text, own)?));
        }
        return Ok(None);
    }
    if !central && (name.ends_with(b"<") || name.ends_with(b"-")) {
        return Ok(Some(run_before(alloc, text, own, arrow.0)?));
    }
    let mut past = before_white(front(bare, arrow.0));
    if central {
        past = past.saturating_sub(2);
    }
    Ok(Some(name_between(alloc, text, own, 0, past, None)?))
}

/// The answer on an arrow in which a name does not fit.
fn arrow_answer(alloc: Global, text: &[u8], own: &Statement) -> Result<Answer, AllocError> {
    let bare = own.bare.as_slice();
    let Some(arrow) = arrow_from(bare, 0) else {
        return name_between(alloc, text, own, 0, bare.len(), None);
    };
    if let Some(answer) = sender_answer(alloc, text, own, arrow)? {
        return Ok(answer);
    }
    let at = past_white(bare, arrow.1);
    let rest = behind(bare, at);
    if rest.starts_with(b"-") && arrow_from(rest, 0).is_some_and(|(first, _)| first == 0) {
        return second(alloc, text, own, at);
    }
    let (start, colon) = receiver(bare, arrow.1);
    name_between(alloc, text, own, start, colon, Some(arrow))
}

/// The answer on a statement in which a name does not fit.
pub(crate) fn name_answer(
    alloc: Global,
    text: &[u8],
    own: &Statement,
) -> Result<Answer, AllocError> {
    let bare = own.bare.as_slice();
    if own.is_one_of(&[b"participant", b"actor", b"create"]) {
        let (first, past) = declared(own);
        return name_between(alloc, text, own, first, past, None);
    }
    if own.is_one_of(&[b"destroy", b"activate", b"deactivate"]) {
        return name_between(alloc, text, own, own.word.len(), bare.len(), None);
    }
    if own.is_one_of(&[b"links", b"link", b"properties", b"details"]) {
        let colon = found_from(bare, b":", own.word.len()).unwrap_or(bare.len());
        return name_between(alloc, text, own, own.word.len(), colon, None);
    }
    arrow_answer(alloc, text, own)
}

/// The word at a place of a text.
pub(crate) fn word_at(text: &[u8], at: usize) -> &[u8] {
    first_word(behind(text, at))
}

/// The number of bytes of the name that stands at a place of a text: of a declaration, or of a line of
/// an arrow; at least one.
pub(crate) fn name_length(alloc: Global, text: &[u8], at: usize) -> Result<usize, AllocError> {
    let own = Statement::of(alloc, text, at)?;
    let bare = own.bare.as_slice();
    let part = front(bare, found_from(bare, b":", 0).unwrap_or(bare.len()));
    if let Some((first, _)) = arrow_from(part, 0) {
        return Ok(sender(part, first).0.len().max(1));
    }
    let brace = found_from(part, b"@{", 0).unwrap_or(part.len());
    let past = brace.min(alias_from(part, 0));
    Ok(before_white(front(part, past)).max(1))
}
