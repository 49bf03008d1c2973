//! The lines of a text that count: neither empty, nor front matter, directives or comments.

use crate::bytes::{behind, found_from, front, past_white, white_in_front};
use crate::statement::line_rest;
use msc_mermaid::{is_head, trimmed};

/// The place after the line of a place.
fn next_line(text: &[u8], at: usize) -> usize {
    at.saturating_add(line_rest(text, at).len())
        .saturating_add(1)
}

/// The place of the first line that is not blank, if there is one.
pub(crate) fn first_filled(text: &[u8]) -> Option<usize> {
    let mut past = 0usize;
    for at in 0..text.len() {
        if at == past {
            if !trimmed(line_rest(text, at)).is_empty() {
                return Some(at);
            }
            past = next_line(text, at);
        }
    }
    None
}

/// The place of the front matter of a text, and of the line after it if it has an end.
fn front_matter(text: &[u8]) -> Option<(usize, Option<usize>)> {
    let start = first_filled(text)?;
    if trimmed(line_rest(text, start)) != b"---".as_slice() {
        return None;
    }
    let mut past = next_line(text, start);
    for at in past..text.len() {
        if at == past {
            past = next_line(text, at);
            if trimmed(line_rest(text, at)) == b"---".as_slice() {
                return Some((start, Some(past)));
            }
        }
    }
    Some((start, None))
}

/// The place of the front matter of a text, if it has no end.
pub(crate) fn open_front(text: &[u8]) -> Option<usize> {
    match front_matter(text) {
        Some((start, None)) => Some(past_white_of(text, start)),
        _ => None,
    }
}

/// The first byte of a line that is no white space.
pub(crate) fn past_white_of(text: &[u8], start: usize) -> usize {
    start.saturating_add(white_in_front(line_rest(text, start)))
}

/// The place after the front matter; none if it has no end.
fn behind_front(text: &[u8]) -> Option<usize> {
    match front_matter(text) {
        None => Some(0),
        Some((_, past)) => past,
    }
}

/// How far the lines of a text were read.
#[derive(Clone, Copy)]
struct Going {
    /// The directive that is open, if one is.
    open: Option<usize>,
    /// The first line that counts.
    first: Option<usize>,
}

/// The place of a directive at the beginning of a line, after the word that a diagram begins with.
fn directive_at(text: &[u8], start: usize) -> Option<usize> {
    let mut at = past_white_of(text, start);
    if is_head(behind(text, at)) {
        let rest = line_rest(text, at);
        at = at.saturating_add(past_white(rest, 15));
    }
    if line_rest(text, at).starts_with(b"%%{") {
        return Some(at);
    }
    None
}

impl Going {
    /// The state after the line that begins here.
    fn behind_line(self, text: &[u8], start: usize) -> Going {
        let line = line_rest(text, start);
        let Going { open, first } = self;
        if open.is_some() {
            let open = open.filter(|_| found_from(line, b"}%%", 0).is_none());
            return Going { open, first };
        }
        let own = trimmed(line);
        let counts = !own.is_empty() && !own.starts_with(b"%%");
        let first = match first {
            None if counts => Some(past_white_of(text, start)),
            _ => first,
        };
        let Some(at) = directive_at(text, start) else {
            return Going { open: None, first };
        };
        let ended = found_from(line_rest(text, at), b"}%%", 3).is_some();
        Going {
            open: if ended { None } else { Some(at) },
            first,
        }
    }
}

/// The state after all lines of a text.
fn gone(text: &[u8]) -> Going {
    let mut going = Going {
        open: None,
        first: None,
    };
    let Some(mut past) = behind_front(text) else {
        return going;
    };
    for at in past..text.len() {
        if at == past {
            going = going.behind_line(text, at);
            past = next_line(text, at);
        }
    }
    going
}

/// The place of the directive that is open at the end of a text.
pub(crate) fn open_directive(text: &[u8]) -> Option<usize> {
    gone(text).open
}

/// The place of the first line that counts, without the white space in front of it.
pub(crate) fn first_counting(text: &[u8]) -> Option<usize> {
    gone(text).first
}

/// The place after the last `}` of a line, if it has one and is no comment.
fn past_brace(line: &[u8]) -> Option<usize> {
    if trimmed(line).starts_with(b"%%") {
        return None;
    }
    let mut past = None;
    for (i, byte) in line.iter().enumerate() {
        if *byte == b'}' {
            past = Some(i.saturating_add(1));
        }
    }
    past
}

/// The place after the last `}` of a text, outside comments.
fn past_braces(text: &[u8]) -> usize {
    let mut past = 0usize;
    let mut last = 0usize;
    for at in 0..text.len() {
        if at == past {
            if let Some(length) = past_brace(line_rest(text, at)) {
                last = at.saturating_add(length);
            }
            past = next_line(text, at);
        }
    }
    last
}

/// The place after `accDescr` and `{`, if they are here.
fn description_here(text: &[u8], at: usize) -> Option<usize> {
    if !front(behind(text, at), 8).eq_ignore_ascii_case(b"accdescr") {
        return None;
    }
    let brace = past_white(text, at.saturating_add(8));
    if text.get(brace) == Some(&b'{') {
        return Some(brace.saturating_add(1));
    }
    None
}

/// The place after the `{` of the description that is open at the end of a text.
pub(crate) fn open_description(text: &[u8]) -> Option<usize> {
    for at in past_braces(text)..text.len() {
        let found = description_here(text, at);
        if found.is_some() {
            return found;
        }
    }
    None
}
