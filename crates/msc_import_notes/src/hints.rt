//! Notes on the faults of a statement: what was found, and hints.

use crate::bytes::{
    arrow_from, behind, between, first_word, found_from, front, past_white, run_around, shown,
    unknown_arrow,
};
use crate::near::nearest;
use crate::statement::{Statement, line_rest};
use listed::Listed;
use msc_mermaid::trimmed;
use msc_notes::{Note, Tag};
use std::alloc::{AllocError, Global};

/// The hint on the arrows that there are.
const ARROWS: &[u8] = b"arrows are ->> -->> -> --> -x --x -) --) <<->> <<-->>";

/// The words that a misspelt one may have been, in the order of their bytes.
const NEAR: &[&[u8]] = &[
    b"accdescr",
    b"acctitle",
    b"activate",
    b"actor",
    b"alt",
    b"and",
    b"autonumber",
    b"box",
    b"break",
    b"create",
    b"critical",
    b"deactivate",
    b"destroy",
    b"details",
    b"else",
    b"end",
    b"link",
    b"links",
    b"loop",
    b"note",
    b"off",
    b"opt",
    b"option",
    b"over",
    b"par",
    b"par_over",
    b"participant",
    b"properties",
    b"rect",
    b"title",
];

/// The greatest number of bytes that are shown of what was found.
const FOUND: usize = 40;

/// A note of a text.
pub(crate) fn worded(tag: Tag, text: Vec<u8>) -> Note {
    Note {
        tag,
        text: Listed::from_vec(text),
        place: None,
        pair: None,
    }
}

/// A note of a text and a place.
pub(crate) fn placed(tag: Tag, text: Vec<u8>, place: usize) -> Note {
    Note {
        tag,
        text: Listed::from_vec(text),
        place: Some(place),
        pair: None,
    }
}

/// Appends a hint to notes.
pub(crate) fn hint(alloc: Global, notes: &mut Vec<Note>, text: &[u8]) -> Result<(), AllocError> {
    notes.push(worded(Tag::Hint, Vec::from_slice(alloc, text)?))?;
    Ok(())
}

/// The place of the bytes up to the next space, after leading spaces, and how many of them are
/// shown.
pub(crate) fn found_part(bytes: &[u8]) -> (usize, usize) {
    let mut start = 0usize;
    for (i, byte) in bytes.iter().enumerate() {
        if *byte == b' ' && i > start {
            return (start, i.saturating_sub(start).min(FOUND));
        }
        if *byte == b' ' {
            start = i.saturating_add(1);
        }
    }
    (start, bytes.len().saturating_sub(start).min(FOUND))
}

/// The part of a text that begins at a place, as it is shown.
pub(crate) fn what_stands(alloc: Global, text: &[u8], at: usize) -> Result<Vec<u8>, AllocError> {
    let rest = line_rest(text, at);
    if !trimmed(rest).is_empty() {
        let (first, length) = found_part(rest);
        return shown(alloc, front(behind(rest, first), length));
    }
    if at.saturating_add(rest.len()) >= text.len() {
        return Vec::from_slice(alloc, b"the end of the text");
    }
    Vec::from_slice(alloc, b"the end of the line")
}

/// A note on what was found at a place of a text.
pub(crate) fn found(alloc: Global, text: &[u8], at: usize) -> Result<Note, AllocError> {
    Ok(worded(Tag::Found, what_stands(alloc, text, at)?))
}

/// The place of a fault of a statement, after its first byte, and the notes that follow it.
#[derive(Drop)]
pub(crate) struct Answer {
    pub offset: usize,
    pub notes: Vec<Note>,
}

/// The word of `&WORD;` at the end of the line before a statement, if it is there.
fn entity_before(before: &[u8]) -> Option<&[u8]> {
    let line = trimmed(before);
    let mut start = None;
    for (i, byte) in line.iter().enumerate() {
        if *byte == b'&' {
            start = Some(i.saturating_add(1));
        }
    }
    let rest = behind(line, start?);
    let word = first_word(rest);
    if word.is_empty() || behind(rest, word.len()) != b";".as_slice() {
        return None;
    }
    Some(word)
}

/// Appends the hint on the semicolon before a statement, if there is one.
fn semicolon(alloc: Global, notes: &mut Vec<Note>, own: &Statement) -> Result<(), AllocError> {
    if own.is_first() {
        return Ok(());
    }
    let Some(word) = entity_before(own.before) else {
        let text = b"a semicolon ends a statement; inside a text write #59;";
        return hint(alloc, notes, text);
    };
    let mut text = Vec::from_slice(alloc, b"write #")?;
    text.extend_from_slice(word)?;
    text.extend_from_slice(b"; for &")?;
    text.extend_from_slice(word)?;
    text.extend_from_slice(b";")?;
    notes.push(worded(Tag::Hint, text))?;
    Ok(())
}

/// The notes on what was found at a place of a statement, or on a run of bytes there.
fn begun(
    alloc: Global,
    text: &[u8],
    own: &Statement,
    place: (usize, Option<usize>),
) -> Result<Vec<Note>, AllocError> {
    let mut notes = Vec::new(alloc);
    match place {
        (at, None) => notes.push(found(alloc, text, own.at.saturating_add(at))?)?,
        (at, Some(past)) => {
            let run = shown(alloc, between(own.held, at, past))?;
            notes.push(worded(Tag::Found, run))?;
        }
    }
    Ok(notes)
}

/// The hint on the meaning of the key word of a statement that fits none of its patterns.
fn key_word_hint(alloc: Global, own: &Statement) -> Result<Option<Vec<u8>>, AllocError> {
    let next = own.has_arrow_next();
    if own.has_key_word() && (next || own.behind_word().starts_with(b"-")) {
        if next && own.is_one_of(&[b"else", b"and", b"option"]) {
            let text = Vec::from_slice(alloc, b"a label cannot begin with an arrow here")?;
            return Ok(Some(text));
        }
        let mut text = Vec::from_slice(alloc, front(own.held, own.word.len()))?;
        text.extend_from_slice(b" is a key word; no participant has such a name")?;
        return Ok(Some(text));
    }
    let text: &[u8] = match own.word.as_slice() {
        b"end" => b"end stands alone",
        b"note" => b"note left of, right of or over NAME: TEXT",
        _ => return Ok(None),
    };
    Ok(Some(Vec::from_slice(alloc, text)?))
}

/// The answer on a statement that fits no row.
pub(crate) fn no_statement(
    alloc: Global,
    text: &[u8],
    own: &Statement,
) -> Result<Answer, AllocError> {
    let run = unknown_arrow(own.bare.as_slice());
    let place = match run {
        Some((at, past)) => (at, Some(past)),
        None => (0, None),
    };
    let mut notes = begun(alloc, text, own, place)?;
    if run.is_some() {
        hint(alloc, &mut notes, ARROWS)?;
    }
    if let Some(more) = key_word_hint(alloc, own)? {
        notes.push(worded(Tag::Hint, more))?;
    }
    if run.is_none()
        && own.is_first()
        && !own.has_key_word()
        && let Some(word) = nearest(alloc, NEAR, first_word(own.bare.as_slice()))?
    {
        notes.push(worded(Tag::Nearest, Vec::from_slice(alloc, word)?))?;
    }
    semicolon(alloc, &mut notes, own)?;
    Ok(Answer {
        offset: place.0,
        notes,
    })
}

/// The answer on a name that does not fit, at this place, with these hints.
fn no_name(
    alloc: Global,
    text: &[u8],
    own: &Statement,
    place: (usize, Option<usize>),
    hints: &[&[u8]],
) -> Result<Answer, AllocError> {
    let mut notes = begun(alloc, text, own, place)?;
    for more in hints {
        hint(alloc, &mut notes, more)?;
    }
    semicolon(alloc, &mut notes, own)?;
    Ok(Answer {
        offset: place.0,
        notes,
    })
}

/// The answer on a name before an arrow that ends with a part of one: the run around the arrow.
pub(crate) fn run_before(
    alloc: Global,
    text: &[u8],
    own: &Statement,
    arrow: usize,
) -> Result<Answer, AllocError> {
    let place = match run_around(own.bare.as_slice(), arrow) {
        Some((at, past)) => (at, Some(past)),
        None => (arrow, None),
    };
    no_name(alloc, text, own, place, &[ARROWS])
}

/// The answer on a name after `-x` or `--x`, at this place, up to a second arrow.
fn cross_in_name(
    alloc: Global,
    text: &[u8],
    own: &Statement,
    cross: (usize, usize),
    other: usize,
) -> Result<Answer, AllocError> {
    let mut more = Vec::from_slice(alloc, between(own.held, cross.0, cross.1))?;
    more.extend_from_slice(b" is an arrow: call it participant P as ")?;
    let name = shown(alloc, front(own.held, other).trim_ascii())?;
    more.extend_from_slice(name.as_slice())?;
    no_name(alloc, text, own, (cross.0, None), &[more.as_slice()])
}

/// Whether a name has one of the bytes `<`, `=` and `>`.
fn has_arrow_byte(name: &[u8]) -> bool {
    name.iter().any(|byte| matches!(byte, b'<' | b'=' | b'>'))
}

/// The second arrow in a name after an arrow with a cross, if a letter follows the cross.
fn second_arrow(own: &Statement, arrow: (usize, usize), past: usize) -> Option<usize> {
    let bare = own.bare.as_slice();
    let last = between(bare, arrow.1.saturating_sub(1), arrow.1);
    let next = first_word(behind(bare, arrow.1));
    if last.eq_ignore_ascii_case(b"x") && !next.is_empty() {
        return arrow_from(front(bare, past), arrow.1).map(|(at, _)| at);
    }
    None
}

/// The answer on a name between two places, after this arrow if one is given.
pub(crate) fn name_between(
    alloc: Global,
    text: &[u8],
    own: &Statement,
    first: usize,
    past: usize,
    arrow: Option<(usize, usize)>,
) -> Result<Answer, AllocError> {
    let part = front(own.bare.as_slice(), past);
    let start = past_white(part, first).min(part.len());
    let name = trimmed(behind(part, start));
    if let Some(cross) = arrow
        && let Some(other) = second_arrow(own, cross, past)
    {
        return cross_in_name(alloc, text, own, cross, other);
    }
    let mut hints: Vec<&[u8]> = Vec::new(alloc);
    if has_arrow_byte(name) {
        hints.push(ARROWS)?;
    }
    if own.is_one_of(&[b"participant", b"actor", b"create"]) && name.contains(&b':') {
        hints.push(b"a shown name follows as")?;
    }
    if found_from(name, b"()", 0).is_some() {
        hints.push(b"() goes between a name and an arrow, once")?;
    }
    no_name(alloc, text, own, (start, None), hints.as_slice())
}

/// The answer on a name before `()` with bytes that make `()` a part of it.
pub(crate) fn joined(alloc: Global, text: &[u8], own: &Statement) -> Result<Answer, AllocError> {
    no_name(
        alloc,
        text,
        own,
        (0, None),
        &[b"a name before () has none of - / \\ ("],
    )
}

/// The answer on an arrow right after another one, at this place.
pub(crate) fn second(
    alloc: Global,
    text: &[u8],
    own: &Statement,
    at: usize,
) -> Result<Answer, AllocError> {
    no_name(alloc, text, own, (at, None), &[])
}

/// The answer on an arrow that ends here and has no label.
pub(crate) fn no_label(
    alloc: Global,
    text: &[u8],
    own: &Statement,
    past: usize,
) -> Result<Answer, AllocError> {
    let wide = found_from(own.bare.as_slice(), b"\xEF\xBC\x9A", past);
    let (at, more): (usize, &[u8]) = match wide {
        Some(at) => (at, b"the colon is :, not the wide one"),
        None => (
            own.held.len(),
            b"a colon follows the receiver, and a text that may be empty",
        ),
    };
    let mut notes = begun(alloc, text, own, (at, None))?;
    hint(alloc, &mut notes, more)?;
    Ok(Answer { offset: at, notes })
}
