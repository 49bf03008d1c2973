//! The marks of a text, as findings show them.

ghost use Rattle.std.specs.Prelude.{◌≡◌, ◌<◌, ◌+◌, ◌≤◌, IfOk, false, length, map, drop};
ghost use Rattle.msc_mark.specs.declared.mark.Mark.{Mark as TextMark};
ghost use Rattle.msc_shown_chart.specs.Marks.{ends_text, may_end, plain_mark, quoted_from, text_end};
ghost use Rattle.std.specs.Prelude.{option_map};
ghost use Rattle.msc_shown_chart.specs.Marks.{marks_in, AreMarkWords, IsMarkWords};

use crate::words::position_said;
use msc_mark::{Mark, Marks};
use msc_place::Lines;
use std::alloc::{AllocError, Global};

/// A mark: the number of its event, and where its text stands, from its first apostrophe to its
/// last.
#[derive(Drop)]
pub struct MarkWords {
    pub event: usize,
    /// The places of the first byte and after the last.
    pub first: usize,
    pub past: usize,
    /// The place as it is printed: `FILE:LINE:COLUMN`.
    pub place: String,
}

/// Whether the text has ended before this byte; `closes` says whether the byte before it may be the
/// last apostrophe.
fn ends_text(closes: bool, byte: u8) -> bool
    ensures { result ≡ ends_text closes byte }
{
    closes && byte != b'\''
}

/// Whether this byte may be the last apostrophe; `closes` says whether the byte before it may be.
fn may_end(closes: bool, byte: u8) -> bool
    ensures { result ≡ may_end closes byte }
{
    byte == b'\'' && !closes
}

/// The number of bytes of a text between apostrophes, after the first one, up to and with its last
/// apostrophe. Two apostrophes next to each other are one of the text.
fn quoted_length(bytes: &[u8]) -> usize
    ensures value { result ≡ quoted_from false bytes.now }
    ensures within { result ≤ length bytes.now }
{
    let mut closes = false;
    for i in 0..bytes.len() {
        let byte = bytes[i];
        if ends_text(closes, byte) {
            return i;
        }
        closes = may_end(closes, byte);
    }
    bytes.len()
}

/// The place after the text that begins with the apostrophe at this place; the place itself, if it is
/// the end of the whole text. It takes no memory.
pub fn text_end(text: &[u8], at: usize) -> usize
    ensures { result ≡ text_end text.now at }
{
    if at >= text.len() {
        return at;
    }
    at + 1 + quoted_length(&text[at + 1..])
}

/// The words of a mark.
fn mark_words(
    alloc: Global,
    file: &str,
    lines: &Lines<'_>,
    mark: &Mark,
) -> Result<MarkWords, AllocError>
    ensures { IfOk result (λ words. IsMarkWords file.now lines.now mark.now (plain_mark words)) }
{
    let text = lines.text();
    let position = lines.position(mark.place.min(text.len()));
    let place = position_said(alloc, file, position)?;
    Ok(MarkWords {
        event: mark.event,
        first: mark.place,
        past: text_end(text, mark.place),
        place,
    })
}

/// The words of these marks.
fn all_words(
    alloc: Global,
    file: &str,
    lines: &Lines<'_>,
    marks: &[Mark],
) -> Result<Vec<MarkWords>, AllocError>
    ensures { IfOk result (λ words.
        AreMarkWords file.now lines.now marks.now (map plain_mark words.items)) }
{
    let mut all = Vec::new(alloc);
    for mark in marks {
        all.push(mark_words(alloc, file, lines, mark)?)?;
    }
    Ok(all)
}

/// The words of the marks of a text, if marks are used; `file` is the name of its file as people
/// read it. The only error is want of memory.
pub(crate) fn marks_said(
    alloc: Global,
    file: &str,
    text: &[u8],
    marks: Option<&Marks>,
) -> Result<Vec<MarkWords>, AllocError>
    ensures { IfOk result (λ words. AreMarkWords file.now text.now
        (marks_in (option_map (λ m. m.now) marks.entry)) (map plain_mark words.items)) }
{
    let Some(marks) = marks else {
        return Ok(Vec::new(alloc));
    };
    let lines = Lines::of(alloc, text)?;
    all_words(alloc, file, &lines, marks.as_slice())
}
