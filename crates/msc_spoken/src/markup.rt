//! Markup in names and labels: tags such as `<br/>`, and escapes such as `\n`.

ghost use Rattle.std.specs.Prelude.{◌≡◌, ◌≤◌, ◌<◌, length, slice_index, IfOk};
ghost use Rattle.std.specs.List.{prefix_len};
ghost use Rattle.msc_spoken.specs.Markup.{after_inner, after_opening, begins_escape, is_inner};
ghost use Rattle.msc_spoken.specs.Markup.{is_short_tag, is_spelled, is_style_tag, markup_front};
ghost use Rattle.msc_spoken.specs.Markup.{tag_rest, without_markup};
ghost use Rattle.msc_spoken.specs.Replacing.{replaced};

use crate::front::{begins, word_length};
use std::alloc::{AllocError, Global};

/// A kind of markup.
#[derive(Clone, Copy)]
pub(crate) enum Markup {
    /// `<`, at most one `/`, a name, and all up to `>`.
    Tags,
    /// A backslash and a letter.
    Escapes,
}

/// Whether the word is this one, in either case.
fn is_spelled(word: &[u8], name: &[u8]) -> bool
    ensures { result ≡ is_spelled word.now name.now }
{
    word.eq_ignore_ascii_case(name)
}

/// Whether it is the name of a tag that breaks a line, or of a short tag.
fn is_short_tag(word: &[u8]) -> bool
    ensures { result ≡ is_short_tag word.now }
{
    is_spelled(word, "br".as_bytes())
        || is_spelled(word, "b".as_bytes())
        || is_spelled(word, "i".as_bytes())
        || is_spelled(word, "u".as_bytes())
        || is_spelled(word, "s".as_bytes())
}

/// Whether it is the name of a tag that styles a text.
fn is_style_tag(word: &[u8]) -> bool
    ensures { result ≡ is_style_tag word.now }
{
    is_spelled(word, "color".as_bytes())
        || is_spelled(word, "size".as_bytes())
        || is_spelled(word, "back".as_bytes())
        || is_spelled(word, "font".as_bytes())
}

/// The bytes after what opens a tag.
fn after_opening(bytes: &[u8]) -> &[u8]
    ensures { result.now ≡ after_opening bytes.now }
{
    match bytes {
        [] => bytes,
        [_, b'/', rest @ ..] => rest,
        [_, rest @ ..] => rest,
    }
}

/// The number of bytes at the front that a tag may contain.
fn inner_length(bytes: &[u8]) -> usize
    ensures length { result ≡ prefix_len is_inner bytes.now }
    ensures within { result ≤ length bytes.now }
{
    bytes
        .iter()
        .take_while(|byte| !(**byte == b'<' || **byte == b'>'))
        .count()
}

/// The bytes after all that a tag may contain.
fn after_inner(bytes: &[u8]) -> &[u8]
    ensures value { result.now ≡ after_inner bytes.now }
    ensures short { length result.now ≤ length bytes.now }
{
    &bytes[inner_length(bytes)..]
}

/// The number of bytes after the `<` of the tag at the front, if there is one.
#[tactic(auto, unfolding(crate::specs::Markup::tag_rest, crate::specs::Markup::begins_tag))]
fn tag_rest(bytes: &[u8]) -> Option<usize>
    ensures { result ≡ tag_rest bytes.now }
{
    if !begins(bytes, b'<') {
        return None;
    }
    let rest = after_opening(bytes);
    let length = word_length(rest);
    let name = &rest[..length];
    if !is_short_tag(name) && !is_style_tag(name) {
        return None;
    }
    let tail = after_inner(&rest[length..]);
    if !begins(tail, b'>') {
        return None;
    }
    Some(bytes.len() - tail.len())
}

/// Whether the bytes begin with an escape.
#[tactic(auto, unfolding(crate::specs::Markup::begins_escape))]
fn begins_escape(bytes: &[u8]) -> bool
    ensures { result ≡ begins_escape bytes.now }
{
    match bytes {
        [b'\\', b'n' | b'l' | b'r' | b't', ..] => true,
        _ => false,
    }
}

impl Markup {
    /// The byte that replaces the front of the bytes, and the number of bytes after the first that
    /// it replaces.
    #[tactic(auto, unfolding(crate::specs::Markup::markup_front))]
    fn front(self, bytes: &[u8]) -> (u8, usize)
        requires { 0 < length bytes.now }
        ensures { result ≡ markup_front self bytes.now }
    {
        match self {
            Markup::Tags => match tag_rest(bytes) {
                Some(more) => (b' ', more),
                None => (bytes[0], 0),
            },
            Markup::Escapes if begins_escape(bytes) => (b' ', 1),
            Markup::Escapes => (bytes[0], 0),
        }
    }

    /// The bytes with a blank for each piece of this markup.
    fn replaced(self, alloc: Global, bytes: &[u8]) -> Result<Vec<u8>, AllocError>
        ensures { IfOk result (λ left. left.items ≡ replaced (markup_front self) 0 bytes.now) }
    {
        let mut left = Vec::with_capacity(alloc, bytes.len())?;
        let mut more = 0;
        for i in 0..bytes.len() {
            if more > 0 {
                more -= 1;
            } else {
                let front = self.front(&bytes[i..]);
                left.push(front.0)?;
                more = front.1;
            }
        }
        Ok(left)
    }
}

/// A text with a blank for each tag, and then for each escape. A tag is `<`, at most one `/`, one
/// of `br`, `b`, `i`, `u`, `s`, `color`, `size`, `back` and `font` in either case, then bytes but
/// `<` and `>` of which the first is no letter and no digit, and `>`. An escape is a backslash and
/// `n`, `l`, `r` or `t`. The only error is want of memory.
#[tactic(auto, unfolding(crate::specs::Markup::without_markup))]
pub fn without_markup(alloc: Global, bytes: &[u8]) -> Result<Vec<u8>, AllocError>
    ensures { IfOk result (λ left. left.items ≡ without_markup bytes.now) }
{
    let left = Markup::Tags.replaced(alloc, bytes)?;
    Markup::Escapes.replaced(alloc, left.as_slice())
}
