//! The shapes of lines of a Mermaid text, by their beginnings, and the ends of what is left out.

ghost use Rattle.std.specs.Prelude.{◌≡◌, ◌≤◌, IsTrue, length};
ghost use Rattle.msc_mermaid.specs.Gives.{Gives};
ghost use Rattle.msc_mermaid.specs.Mermaid.{allows_comment, closed, is_commented, is_front};
ghost use Rattle.msc_mermaid.specs.Mermaid.{is_head, line_kind_of, undirected};

use crate::fault::{Expectation, ImportFault};
use crate::key::{Key, Mark};
use crate::lines::Row;
use crate::pattern::begins_word;
use crate::row::first_word;
use crate::seeking::{Sought, holds};
use crate::white::{behind_white, trimmed};

/// The shape of a line.
#[derive(Clone, Copy)]
pub(crate) enum LineKind {
    /// Empty.
    Nothing,
    /// It begins a directive.
    Directive,
    /// A comment.
    Comment,
    /// It begins with the word with which a diagram begins.
    Head,
    /// Any other line.
    Other,
}

/// Whether the line, without white space at its ends, is one before or after front matter.
pub(crate) fn is_front(bytes: &[u8]) -> bool
    ensures { result ≡ is_front bytes.now }
{
    bytes == "---".as_bytes()
}

/// Whether the bytes begin with the word with which a diagram begins.
pub fn is_head(bytes: &[u8]) -> bool
    ensures value { result ≡ is_head bytes.now }
    ensures room { IsTrue result → 15 ≤ length bytes.now }
{
    bytes.starts_with("sequenceDiagram".as_bytes())
        && bytes.len() >= 15
        && !begins_word(&bytes[15..])
}

/// The shape of a line without white space at its ends.
#[tactic(auto, unfolding(crate::specs::Mermaid::line_kind_of))]
pub(crate) fn line_kind_of(bytes: &[u8]) -> LineKind
    ensures value { result ≡ line_kind_of bytes.now }
    ensures room { result ≡ LineKind.Head → 15 ≤ length bytes.now }
{
    if bytes.is_empty() {
        return LineKind::Nothing;
    }
    if Mark::Directive.begins(bytes) {
        return LineKind::Directive;
    }
    if Mark::Comment.begins(bytes) {
        return LineKind::Comment;
    }
    if is_head(bytes) {
        return LineKind::Head;
    }
    LineKind::Other
}

/// Whether a part that is left out ends in these bytes, after the mark, and the line with it.
#[tactic(auto, unfolding(crate::specs::Mermaid::closed))]
pub(crate) fn closed(row: Row, mark: Mark, bytes: &[u8]) -> Result<bool, ImportFault>
    ensures { Gives (λ x. x) result
        (closed row.entry.line row.entry.bytes.now mark bytes.now) }
{
    let at = Sought::Text(mark).before(bytes);
    if at == bytes.len() {
        return Ok(false);
    }
    let rest = mark.behind(&bytes[at..]);
    if !trimmed(rest).is_empty() {
        let found = row.position_of(behind_white(rest));
        return Err(ImportFault::Expected(found, Expectation::LineEnd));
    }
    Ok(true)
}

/// The end of a line that may not have a directive.
pub(crate) fn undirected<'t>(row: Row, bytes: &'t [u8]) -> Result<&'t [u8], ImportFault>
    ensures { Gives (λ x. x.now) result
        (undirected row.entry.line row.entry.bytes.now bytes.now) }
{
    let at = Sought::Text(Mark::Directive).before(bytes);
    if at < bytes.len() {
        let found = row.position_of(&bytes[at..]);
        return Err(ImportFault::Expected(found, Expectation::Statement));
    }
    Ok(bytes)
}

/// Whether a comment may follow the word in its statement.
fn allows_comment(key: Option<Key>) -> bool
    ensures { result ≡ allows_comment key }
{
    matches!(key, Some(Key::End | Key::Autonumber))
}

/// Whether the statement ends in a comment.
pub(crate) fn is_commented(bytes: &[u8]) -> bool
    ensures { result ≡ is_commented bytes.now }
{
    allows_comment(Key::of(first_word(bytes))) && holds(bytes, Sought::Text(Mark::Comment))
}
