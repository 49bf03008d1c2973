//! Names of charts, made of any bytes.

ghost use Rattle.std.specs.Prelude.{◌≡◌, ◌≤◌, ◌<◌, length, drop, take, slice_index, IfOk};
ghost use Rattle.std.specs.Char.{is_ascii_alphanumeric};
ghost use Rattle.std.specs.List.{prefix_len, suffix_len};
ghost use Rattle.msc_lexer.specs.Bytes.{begins};
ghost use Rattle.msc_scenarios.specs.Naming.{before_bars, behind_bars, behind_inner, is_bar};
ghost use Rattle.msc_scenarios.specs.Naming.{is_break_tag, is_closing, is_escape, is_inner, is_opening};
ghost use Rattle.msc_scenarios.specs.Naming.{is_style_tag, made, opening_length, or_else, pass_step};
ghost use Rattle.msc_scenarios.specs.Naming.{passed, shortened, tag_length, unreserved};

use msc_lexer::Word;
use msc_mermaid::{are_spelled, is_word_byte};
use std::alloc::{AllocError, Global};

/// The greatest number of bytes of a made name, without a number or an underscore after it.
const MADE_LIMIT: usize = 56;

/// A pass over the bytes from which a name is made.
#[derive(Clone, Copy)]
pub(crate) enum Pass {
    /// Tags become blanks.
    Tags,
    /// Backslashes with a letter become blanks.
    Escapes,
    /// Bytes that names cannot have become underscores, one for each run of bytes.
    Gaps,
}

/// Whether the bytes begin with `<`.
fn begins_opening(bytes: &[u8]) -> bool
    ensures { result ≡ begins is_opening bytes.now }
{
    match bytes {
        [] => false,
        [first, ..] => *first == b'<',
    }
}

/// Whether the bytes begin with `>`.
fn begins_closing(bytes: &[u8]) -> bool
    ensures { result ≡ begins is_closing bytes.now }
{
    match bytes {
        [] => false,
        [first, ..] => *first == b'>',
    }
}

/// Whether these bytes make a blank of the backslash before them.
fn begins_escape(bytes: &[u8]) -> bool
    ensures { result ≡ begins is_escape bytes.now }
{
    match bytes {
        [] => false,
        [first, ..] => *first == b'n' || *first == b'l' || *first == b'r' || *first == b't',
    }
}

/// Whether it is the name of a tag that breaks a line, or of a short tag.
fn is_break_tag(word: &[u8]) -> bool
    ensures { result ≡ is_break_tag word.now }
{
    are_spelled(word, "br".as_bytes())
        || are_spelled(word, "b".as_bytes())
        || are_spelled(word, "i".as_bytes())
        || are_spelled(word, "u".as_bytes())
        || are_spelled(word, "s".as_bytes())
}

/// Whether it is the name of a tag that styles a text.
fn is_style_tag(word: &[u8]) -> bool
    ensures { result ≡ is_style_tag word.now }
{
    are_spelled(word, "color".as_bytes())
        || are_spelled(word, "size".as_bytes())
        || are_spelled(word, "back".as_bytes())
        || are_spelled(word, "font".as_bytes())
}

/// The number of letters and digits at the front.
fn letters(bytes: &[u8]) -> usize
    ensures length { result ≡ prefix_len is_ascii_alphanumeric bytes.now }
    ensures within { result ≤ length bytes.now }
{
    bytes
        .iter()
        .take_while(|byte| byte.is_ascii_alphanumeric())
        .count()
}

/// The number of bytes at the front that a tag may contain.
fn inner(bytes: &[u8]) -> usize
    ensures length { result ≡ prefix_len is_inner bytes.now }
    ensures within { result ≤ length bytes.now }
{
    bytes
        .iter()
        .take_while(|byte| !(**byte == b'<' || **byte == b'>'))
        .count()
}

/// The bytes after what opens a tag.
fn behind_opening(bytes: &[u8]) -> &[u8]
    ensures { result.now ≡ drop (opening_length bytes.now) bytes.now }
{
    match bytes {
        [] => bytes,
        [_, b'/', rest @ ..] => rest,
        [_, rest @ ..] => rest,
    }
}

/// The bytes after all that a tag may contain.
fn behind_inner(bytes: &[u8]) -> &[u8]
    ensures value { result.now ≡ behind_inner bytes.now }
    ensures short { length result.now ≤ length bytes.now }
{
    &bytes[inner(bytes)..]
}

/// The number of bytes of the tag at the front, or 0 if there is none.
#[tactic(auto, unfolding(crate::specs::Naming::tag_length))]
fn tag_length(bytes: &[u8]) -> usize
    ensures { result ≡ tag_length bytes.now }
{
    if !begins_opening(bytes) {
        return 0;
    }
    let rest = behind_opening(bytes);
    let count = letters(rest);
    let name = &rest[..count];
    if !is_break_tag(name) && !is_style_tag(name) {
        return 0;
    }
    let tail = behind_inner(&rest[count..]);
    if !begins_closing(tail) {
        return 0;
    }
    bytes.len() - tail.len() + 1
}

impl Pass {
    /// The byte that replaces a byte followed by these, if there is one, and the state after it.
    #[tactic(auto, unfolding(crate::specs::Naming::pass_step))]
    fn step(self, state: usize, bytes: &[u8]) -> (Option<u8>, usize)
        requires { 0 < length bytes.now }
        ensures { result ≡ pass_step self state (slice_index bytes.now 0) (drop 1 bytes.now) }
    {
        match self {
            Pass::Tags if state > 0 => (None, state - 1),
            Pass::Tags => {
                let length = tag_length(bytes);
                if length > 0 {
                    (Some(b' '), length - 1)
                } else {
                    (Some(bytes[0]), 0)
                }
            }
            Pass::Escapes if state > 0 => (None, state - 1),
            Pass::Escapes if bytes[0] == b'\\' && begins_escape(&bytes[1..]) => (Some(b' '), 1),
            Pass::Escapes => (Some(bytes[0]), 0),
            Pass::Gaps if is_word_byte(bytes[0]) => (Some(bytes[0]), 0),
            Pass::Gaps if state > 0 => (None, 1),
            Pass::Gaps => (Some(b'_'), 1),
        }
    }

    /// The bytes that the pass leaves.
    fn over(self, alloc: Global, bytes: &[u8]) -> Result<Vec<u8>, AllocError>
        ensures { IfOk result (λ v. v.items ≡ passed self 0 bytes.now) }
    {
        let mut left = Vec::with_capacity(alloc, bytes.len())?;
        let mut state = 0;
        for i in 0..bytes.len() {
            let (put, next) = self.step(state, &bytes[i..]);
            if let Some(byte) = put {
                left.push(byte)?;
            }
            state = next;
        }
        Ok(left)
    }
}

/// The number of underscores at the front.
fn bars_in_front(bytes: &[u8]) -> usize
    ensures length { result ≡ prefix_len is_bar bytes.now }
    ensures within { result ≤ length bytes.now }
{
    bytes.iter().take_while(|byte| **byte == b'_').count()
}

/// The number of underscores at the end.
fn bars_at_end(bytes: &[u8]) -> usize
    ensures length { result ≡ suffix_len is_bar bytes.now }
    ensures within { result ≤ length bytes.now }
{
    bytes.iter().rev().take_while(|byte| **byte == b'_').count()
}

/// The bytes without underscores at the front.
fn behind_bars(bytes: &[u8]) -> &[u8]
    ensures { result.now ≡ behind_bars bytes.now }
{
    &bytes[bars_in_front(bytes)..]
}

/// The bytes without underscores at the end.
fn before_bars(bytes: &[u8]) -> &[u8]
    ensures { result.now ≡ before_bars bytes.now }
{
    &bytes[..bytes.len() - bars_at_end(bytes)]
}

/// The first bytes, at most `limit`.
fn at_most(bytes: &[u8], limit: usize) -> &[u8]
    ensures { result.now ≡ take limit bytes.now }
{
    if bytes.len() <= limit {
        return bytes;
    }
    &bytes[..limit]
}

/// The first bytes that a made name may have, without underscores at their end.
fn shortened(bytes: &[u8]) -> &[u8]
    ensures { result.now ≡ shortened bytes.now }
{
    before_bars(at_most(bytes, MADE_LIMIT))
}

/// These bytes, or the others if there are none.
fn or_else<'b>(bytes: &'b [u8], others: &'b [u8]) -> &'b [u8]
    ensures { result.now ≡ or_else bytes.now others.now }
{
    match bytes {
        [] => others,
        [_, ..] => bytes,
    }
}

/// The name, followed by an underscore if it is a reserved word.
fn unreserved(alloc: Global, name: &[u8]) -> Result<Vec<u8>, AllocError>
    ensures { IfOk result (λ v. v.items ≡ unreserved name.now) }
{
    let mut free = Vec::from_slice(alloc, name)?;
    if Word::of(name).is_some() {
        free.push(b'_')?;
    }
    Ok(free)
}

/// The name that is made of bytes; if nothing is left of them, of these others. The only error is
/// that memory ran out.
#[tactic(auto, unfolding(crate::specs::Naming::made))]
pub fn made(alloc: Global, bytes: &[u8], others: &[u8]) -> Result<Vec<u8>, AllocError>
    ensures { IfOk result (λ v. v.items ≡ made bytes.now others.now) }
{
    let plain = Pass::Tags.over(alloc, bytes)?;
    let plain = Pass::Escapes.over(alloc, plain.as_slice())?;
    let plain = Pass::Gaps.over(alloc, plain.as_slice())?;
    let left = shortened(before_bars(behind_bars(plain.as_slice())));
    unreserved(alloc, or_else(left, others))
}
