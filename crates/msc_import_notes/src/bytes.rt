//! Bytes of statements: white space, entities, arrows and runs of bytes that look like arrows.

ghost use Rattle.std.specs.Prelude.{◌≡◌, take};

use msc_mermaid::{is_word_byte, trimmed};
use std::alloc::{AllocError, Global};

/// The arrows, each before those that it begins with.
const ARROWS: &[&[u8]] = &[
    b"<<-->>", b"<<->>", b"-->>", b"--|\\", b"--|/", b"--\\\\", b"--//", b"/|--", b"\\|--",
    b"//--", b"\\\\--", b"->>", b"-->", b"--)", b"-|\\", b"-|/", b"-\\\\", b"-//", b"--x", b"--X",
    b"/|-", b"\\|-", b"//-", b"\\\\-", b"->", b"-)", b"-x", b"-X",
];

/// What a run of bytes has that is meant for an arrow: one of these.
const SIGNS: &[&[u8]] = &[
    b"->", b"=>", b"~>", b"<-", b"<=", b"--", b"==", b"-|", b">>",
];

/// The bytes after the first `count`, or none.
pub(crate) fn behind(bytes: &[u8], count: usize) -> &[u8] {
    bytes.get(count..).unwrap_or(b"")
}

/// The first `count` bytes, or all.
pub(crate) fn front(bytes: &[u8], count: usize) -> &[u8]
    ensures { result.now ≡ take count bytes.now }
{
    bytes.get(..count).unwrap_or(bytes)
}

/// The bytes from one place to another, or none.
pub(crate) fn between(bytes: &[u8], first: usize, past: usize) -> &[u8] {
    bytes.get(first..past).unwrap_or(b"")
}

/// The number of bytes of white space in front.
pub(crate) fn white_in_front(bytes: &[u8]) -> usize {
    let mut past = 0usize;
    for i in 0..bytes.len() {
        if i == past {
            let size = begins_with_white(behind(bytes, i));
            if size == 0 {
                return i;
            }
            past = i.saturating_add(size);
        }
    }
    bytes.len()
}

/// The number of bytes of the character in front, if it is white space; otherwise 0.
pub(crate) fn begins_with_white(bytes: &[u8]) -> usize {
    for size in 1..4 {
        let first = front(bytes, size);
        if first.len() == size && trimmed(first).is_empty() {
            return size;
        }
    }
    0
}

/// The first place from this one on that begins no white space.
pub(crate) fn past_white(bytes: &[u8], at: usize) -> usize {
    at.saturating_add(white_in_front(behind(bytes, at)))
}

/// The place after which there is only white space.
pub(crate) fn before_white(bytes: &[u8]) -> usize {
    let own = trimmed(bytes).len();
    if own == 0 {
        return 0;
    }
    white_in_front(bytes).saturating_add(own)
}

/// The number of bytes of the word in front.
pub(crate) fn word_length(bytes: &[u8]) -> usize {
    let mut length = 0usize;
    for byte in bytes {
        if !is_word_byte(*byte) {
            return length;
        }
        length = length.saturating_add(1);
    }
    length
}

/// The word in front.
pub(crate) fn first_word(bytes: &[u8]) -> &[u8] {
    front(bytes, word_length(bytes))
}

/// The place of the first such bytes from this place on.
pub(crate) fn found_from(bytes: &[u8], sought: &[u8], from: usize) -> Option<usize> {
    for at in from..bytes.len() {
        if behind(bytes, at).starts_with(sought) {
            return Some(at);
        }
    }
    None
}

/// The number of bytes of the entity in front: `#`, a word and `;`; otherwise 0.
fn entity_length(bytes: &[u8]) -> usize {
    if bytes.first() != Some(&b'#') {
        return 0;
    }
    let length = word_length(behind(bytes, 1));
    let end = length.saturating_add(1);
    if length > 0 && bytes.get(end) == Some(&b';') {
        return end.saturating_add(1);
    }
    0
}

/// The bytes of a statement with letters for its entities.
pub(crate) fn bare(alloc: Global, bytes: &[u8]) -> Result<Vec<u8>, AllocError> {
    let mut letters = Vec::new(alloc);
    let mut past = 0usize;
    for (i, byte) in bytes.iter().enumerate() {
        if i >= past {
            past = i.saturating_add(entity_length(behind(bytes, i)));
        }
        letters.push(if i < past { 255 } else { *byte })?;
    }
    Ok(letters)
}

/// The number of bytes of a statement that begins here: up to a `;` that ends no entity, or a `#`
/// that begins none.
pub(crate) fn statement_length(bytes: &[u8]) -> usize {
    let mut past = 0usize;
    for (i, byte) in bytes.iter().enumerate() {
        if i >= past {
            past = i.saturating_add(entity_length(behind(bytes, i)));
        }
        if i >= past && (*byte == b';' || *byte == b'#') {
            return i;
        }
    }
    bytes.len()
}

/// The number of bytes of the arrow in front; otherwise 0.
pub(crate) fn arrow_length(bytes: &[u8]) -> usize {
    for arrow in ARROWS {
        if bytes.starts_with(arrow) {
            return arrow.len();
        }
    }
    0
}

/// The place of the first arrow from this place on, and the place after it.
pub(crate) fn arrow_from(bytes: &[u8], from: usize) -> Option<(usize, usize)> {
    for at in from..bytes.len() {
        let length = arrow_length(behind(bytes, at));
        if length > 0 {
            return Some((at, at.saturating_add(length)));
        }
    }
    None
}

/// Whether the character in front is a drawn arrow, or else a dash of a word processor: U+2190 to
/// U+21FF, U+27F0 to U+27FF and U+2900 to U+297F are arrows, U+2013, U+2014 and U+2212 are dashes.
fn drawn(bytes: &[u8]) -> Option<bool> {
    match bytes {
        [226, 134 | 135, 128..=191, ..] => Some(true),
        [226, 159, 176..=191, ..] => Some(true),
        [226, 164 | 165, 128..=191, ..] => Some(true),
        [226, 128, 147 | 148, ..] => Some(false),
        [226, 136, 146, ..] => Some(false),
        _ => None,
    }
}

/// The number of bytes of the character in front if it can be a part of an arrow; otherwise 0.
fn part_length(bytes: &[u8]) -> usize {
    if drawn(bytes).is_some() {
        return 3;
    }
    match bytes.first() {
        Some(b'<' | b'>' | b'=' | b'~' | b'|' | b'/' | b'\\' | b'-') => 1,
        _ => 0,
    }
}

/// The number of bytes of such characters in front.
fn run_length(bytes: &[u8]) -> usize {
    let mut past = 0usize;
    for i in 0..bytes.len() {
        if i == past {
            let length = part_length(behind(bytes, i));
            if length == 0 {
                return past;
            }
            past = i.saturating_add(length);
        }
    }
    past
}

/// Whether the bytes in front make an arrow of a run of such bytes.
fn begins_sign(bytes: &[u8]) -> bool {
    match drawn(bytes) {
        Some(true) => true,
        Some(false) => bytes.get(3) == Some(&b'>'),
        None => SIGNS.iter().any(|sign| bytes.starts_with(sign)),
    }
}

/// Whether a run of bytes was meant for an arrow.
fn is_meant(run: &[u8]) -> bool {
    (0..run.len()).any(|i| begins_sign(behind(run, i)))
}

/// Whether the bytes are an arrow.
fn is_arrow(run: &[u8]) -> bool {
    !run.is_empty() && ARROWS.iter().any(|arrow| run == *arrow)
}

/// The run of bytes of arrows around a place.
pub(crate) fn run_around(bytes: &[u8], place: usize) -> Option<(usize, usize)> {
    let mut past = 0usize;
    for at in 0..bytes.len() {
        if at >= past {
            let length = run_length(behind(bytes, at));
            past = at.saturating_add(length);
            if length > 0 && at <= place && place < past {
                return Some((at, past));
            }
        }
    }
    None
}

/// The first run of bytes before the first colon that was meant for an arrow, and is none.
pub(crate) fn unknown_arrow(bytes: &[u8]) -> Option<(usize, usize)> {
    let end = found_from(bytes, b":", 0).unwrap_or(bytes.len());
    let part = front(bytes, end);
    let mut past = 0usize;
    for at in 0..part.len() {
        if at >= past {
            let length = run_length(behind(part, at));
            past = at.saturating_add(length);
            let run = between(part, at, past);
            if length > 0 && is_meant(run) && !is_arrow(run) {
                return Some((at, past));
            }
        }
    }
    None
}

/// Bytes as a source line shows them.
pub(crate) fn shown(alloc: Global, bytes: &[u8]) -> Result<Vec<u8>, AllocError> {
    let mut row = Vec::new(alloc);
    for byte in bytes {
        match *byte {
            b'\t' => row.push(b' ')?,
            b' '..=b'~' => row.push(*byte)?,
            128..=191 => {}
            _ => row.push(b'?')?,
        }
    }
    Ok(row)
}
