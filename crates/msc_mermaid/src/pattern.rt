//! Patterns of the bytes that may follow the word with which a statement begins, part by part.

ghost use Rattle.std.specs.Prelude.{◌≡◌, ◌≤◌, length};
ghost use Rattle.std.specs.Char.{is_ascii_digit};
ghost use Rattle.std.specs.List.{prefix_len};
ghost use Rattle.std.specs.Option.{option_copied};
ghost use Rattle.msc_lexer.specs.Bytes.{begins, is_run_byte};
ghost use Rattle.msc_mermaid.specs.Keys.{spelling};
ghost use Rattle.msc_mermaid.specs.Patterns.{behind, first_fit, fits, is_word, only, parts_of};

use crate::key::{Key, Mark};
use crate::seeking::Sought;
use crate::white::{begins_white, behind_white};

/// A part of a pattern.
#[derive(Clone, Copy)]
pub(crate) enum Part {
    /// All white space at the front, if any.
    Blanks,
    /// White space, and all that follows it.
    Gap,
    /// Nothing is left.
    Finish,
    /// This text.
    Text(Mark),
    /// This word, followed by no byte of a word.
    Word(Key),
    /// All digits at the front, at least one.
    Digits,
    /// Anything without an arrow before this text, which remains.
    NoArrow(Mark),
}

/// The pattern of the bytes that may follow a word.
#[derive(Clone, Copy)]
pub(crate) enum Pattern {
    Anything,
    Name,
    Participant,
    Actor,
    Alone,
    LeftOf,
    RightOf,
    Over,
    Off,
    Number,
    Numbers,
    Text,
    ColonText,
    AccTitle,
    AccDescr,
    AccBlock,
}

/// Whether words are made of this byte.
pub fn is_word_byte(byte: u8) -> bool
    ensures { result ≡ is_run_byte byte }
{
    byte.is_ascii_alphanumeric() || byte == b'_'
}

/// The number of bytes of the word at the front.
pub(crate) fn word_length(bytes: &[u8]) -> usize
    ensures length { result ≡ prefix_len is_run_byte bytes.now }
    ensures within { result ≤ length bytes.now }
{
    bytes.iter().take_while(|byte| is_word_byte(**byte)).count()
}

/// Whether the bytes begin with a byte of a word.
pub fn begins_word(bytes: &[u8]) -> bool
    ensures { result ≡ begins is_run_byte bytes.now }
{
    match bytes {
        [] => false,
        [first, ..] => is_word_byte(*first),
    }
}

/// The number of digits at the front.
fn digits(bytes: &[u8]) -> usize
    ensures length { result ≡ prefix_len is_ascii_digit bytes.now }
    ensures within { result ≤ length bytes.now }
{
    bytes
        .iter()
        .take_while(|byte| byte.is_ascii_digit())
        .count()
}

/// Whether the bytes begin with a digit.
fn begins_digit(bytes: &[u8]) -> bool
    ensures { result ≡ begins is_ascii_digit bytes.now }
{
    match bytes {
        [] => false,
        [first, ..] => first.is_ascii_digit(),
    }
}

/// Whether the bytes begin with the word, and no byte of a word follows it.
fn is_word(bytes: &[u8], key: Key) -> bool
    ensures { result ≡ is_word bytes.now (spelling key) }
{
    key.begins(bytes) && !begins_word(&bytes[key.length()..])
}

/// These bytes if the test holds, and nothing otherwise.
fn only(test: bool, bytes: &[u8]) -> Option<&[u8]>
    ensures { option_copied result ≡ only test bytes.now }
{
    if test { Some(bytes) } else { None }
}

/// The bytes after a text.
fn behind_text(mark: Mark, bytes: &[u8]) -> Option<&[u8]>
    ensures { option_copied result ≡ behind (Part.Text mark) bytes.now }
{
    if mark.begins(bytes) {
        return Some(&bytes[mark.length()..]);
    }
    None
}

/// The bytes after a word.
fn behind_word(key: Key, bytes: &[u8]) -> Option<&[u8]>
    ensures { option_copied result ≡ behind (Part.Word key) bytes.now }
{
    if key.begins(bytes) && is_word(bytes, key) {
        return Some(&bytes[key.length()..]);
    }
    None
}

impl Part {
    /// The bytes after this part, if they begin with it.
    fn behind(self, bytes: &[u8]) -> Option<&[u8]>
        ensures { option_copied result ≡ behind self bytes.now }
    {
        match self {
            Part::Blanks => Some(behind_white(bytes)),
            Part::Gap => only(begins_white(bytes), behind_white(bytes)),
            Part::Finish => only(bytes.is_empty(), bytes),
            Part::Text(mark) => behind_text(mark, bytes),
            Part::Word(key) => behind_word(key, bytes),
            Part::Digits => only(begins_digit(bytes), &bytes[digits(bytes)..]),
            Part::NoArrow(mark) => only(
                Sought::Text(mark).before(bytes) < Sought::Arrow.before(bytes),
                bytes,
            ),
        }
    }
}

/// The bytes after these parts, if they begin with them.
fn fits<'t>(parts: &[Part], bytes: &'t [u8]) -> Option<&'t [u8]>
    ensures { option_copied result ≡ fits parts.now bytes.now }
{
    let mut rest = bytes;
    for part in parts {
        match part.behind(rest) {
            None => return None,
            Some(after) => rest = after,
        }
    }
    Some(rest)
}

impl Pattern {
    /// Its parts.
    fn parts(self) -> &'static [Part]
        ensures { result.now ≡ parts_of self }
    {
        match self {
            Pattern::Anything => &[],
            Pattern::Name => &[Part::Blanks],
            Pattern::Participant => &[Part::Gap, Part::Word(Key::Participant), Part::Blanks],
            Pattern::Actor => &[Part::Gap, Part::Word(Key::Actor), Part::Blanks],
            Pattern::Alone => &[Part::Blanks, Part::Finish],
            Pattern::LeftOf => &[
                Part::Blanks,
                Part::Text(Mark::LeftOf),
                Part::Gap,
                Part::NoArrow(Mark::Colon),
            ],
            Pattern::RightOf => &[
                Part::Blanks,
                Part::Text(Mark::RightOf),
                Part::Gap,
                Part::NoArrow(Mark::Colon),
            ],
            Pattern::Over => &[
                Part::Blanks,
                Part::Text(Mark::Over),
                Part::Gap,
                Part::NoArrow(Mark::Colon),
            ],
            Pattern::Off => &[Part::Blanks, Part::Text(Mark::Off), Part::Finish],
            Pattern::Number => &[Part::Blanks, Part::Digits, Part::Finish],
            Pattern::Numbers => &[
                Part::Blanks,
                Part::Digits,
                Part::Gap,
                Part::Digits,
                Part::Finish,
            ],
            Pattern::Text => &[Part::Gap],
            Pattern::ColonText => &[Part::Text(Mark::Colon), Part::Gap],
            Pattern::AccTitle => &[
                Part::Text(Mark::AccTitle),
                Part::Blanks,
                Part::Text(Mark::Colon),
            ],
            Pattern::AccDescr => &[
                Part::Text(Mark::AccDescr),
                Part::Blanks,
                Part::Text(Mark::Colon),
            ],
            Pattern::AccBlock => &[
                Part::Text(Mark::AccDescr),
                Part::Blanks,
                Part::Text(Mark::Description),
            ],
        }
    }
}

/// The bytes after the first of these patterns with which they begin.
pub(crate) fn first_fit<'t>(patterns: &[Pattern], bytes: &'t [u8]) -> Option<&'t [u8]>
    ensures { option_copied result ≡ first_fit patterns.now bytes.now }
{
    for pattern in patterns {
        if let Some(rest) = fits(pattern.parts(), bytes) {
            return Some(rest);
        }
    }
    None
}
