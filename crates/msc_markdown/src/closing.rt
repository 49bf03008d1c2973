//! The beginning of a block of Markdown, after the marks before it, and its end.

ghost use Rattle.std.specs.Prelude.{◌≡◌, ◌≤◌, ◌&&◌, ◌==◌, length, nat_le};
ghost use Rattle.std.specs.List.{list_any};
ghost use Rattle.std.specs.Option.{option_copied};
ghost use Rattle.msc_lexer.specs.Bytes.{begins, is_run_byte};
ghost use Rattle.msc_markdown.specs.Closings.{are_attributes, backquotes, before_end, begins_shortcode};
ghost use Rattle.msc_markdown.specs.Closings.{begins_shortcode_with, begins_tag, behind_name};
ghost use Rattle.msc_markdown.specs.Closings.{closing_of, ends_of, has_attributes, has_class};
ghost use Rattle.msc_markdown.specs.Closings.{has_options, has_parameters, is_backquote};
ghost use Rattle.msc_markdown.specs.Closings.{is_backquote_fence, is_closed_by, is_directive, is_end};
ghost use Rattle.msc_markdown.specs.Closings.{is_exactly, is_language, is_marked, is_tilde};
ghost use Rattle.msc_markdown.specs.Closings.{is_unclosed, is_word, text_of, tildes};

use crate::blanks::{begins_blank, behind, behind_blanks, trimmed};
use crate::markup::{Shortcode, Tag, class_value, inside_of, is_class, is_named};
use crate::seeking::Sought;
use msc_mermaid::{are_spelled, begin_so, begins_word};

/// The end of a block.
#[derive(Clone, Copy, Debug, PartialEq, Eq)]
pub(crate) enum Closing {
    /// A line of at least this number of backquotes.
    Backquotes(usize),
    /// A line of at least this number of tildes.
    Tildes(usize),
    /// A line of three colons.
    Colons,
    /// The end of an element of HTML.
    Element(Tag),
    /// The end of the block of a shortcode of Hugo.
    Short(Shortcode),
}

/// The number of lines after a line on which the block of a shortcode may end.
#[derive(Clone, Copy, Debug, PartialEq, Eq)]
pub(crate) struct Ends {
    pub angle: usize,
    pub percent: usize,
}

impl Ends {
    /// The number for this shortcode.
    fn of(self, shortcode: Shortcode) -> usize
        ensures { result ≡ ends_of shortcode self }
    {
        match shortcode {
            Shortcode::Angle => self.angle,
            Shortcode::Percent => self.percent,
        }
    }
}

/// Whether the byte is a backquote.
fn is_backquote(byte: u8) -> bool
    ensures { result ≡ is_backquote byte }
{
    byte == b'`'
}

/// Whether the byte is a tilde.
fn is_tilde(byte: u8) -> bool
    ensures { result ≡ is_tilde byte }
{
    byte == b'~'
}

/// The number of backquotes at the front.
fn backquotes(bytes: &[u8]) -> usize
    ensures length { result ≡ backquotes bytes.now }
    ensures within { result ≤ length bytes.now }
{
    bytes.iter().take_while(|byte| is_backquote(**byte)).count()
}

/// The number of tildes at the front.
fn tildes(bytes: &[u8]) -> usize
    ensures length { result ≡ tildes bytes.now }
    ensures within { result ≤ length bytes.now }
{
    bytes.iter().take_while(|byte| is_tilde(**byte)).count()
}

/// Whether there is a backquote.
fn has_backquote(bytes: &[u8]) -> bool
    ensures { result ≡ list_any is_backquote bytes.now }
{
    bytes.iter().any(|byte| is_backquote(*byte))
}

/// Whether the bytes begin with a fence of backquotes.
fn is_backquote_fence(bytes: &[u8]) -> bool
    ensures { result ≡ is_backquote_fence bytes.now }
{
    let count = backquotes(bytes);
    count >= 3 && !has_backquote(behind(bytes, count))
}

/// Whether the bytes begin with a directive.
fn is_directive(bytes: &[u8]) -> bool
    ensures { result ≡ is_directive bytes.now }
{
    bytes.starts_with(b":::") && are_spelled(trimmed(behind(bytes, 3)), b"mermaid")
}

/// The bytes after the name of a shortcode.
fn behind_name(bytes: &[u8]) -> &[u8]
    ensures { result.now ≡ behind_name bytes.now }
{
    behind(behind_blanks(behind(bytes, 3)), 7)
}

/// Whether the bytes do not end with a slash.
fn is_unclosed(bytes: &[u8]) -> bool
    ensures { result ≡ is_unclosed bytes.now }
{
    bytes.len() == 0 || bytes[bytes.len() - 1] != b'/'
}

/// Whether these are the parameters of a shortcode that begins a block.
fn has_parameters(bytes: &[u8]) -> bool
    ensures { result ≡ has_parameters bytes.now }
{
    (bytes.len() == 0 || begins_blank(bytes)) && is_unclosed(bytes)
}

/// Whether a shortcode with these bytes after its name begins a block.
fn begins_shortcode_with(shortcode: Shortcode, ends: Ends, rest: &[u8]) -> bool
    ensures { result ≡ begins_shortcode_with shortcode ends rest.now }
{
    let at = Sought::Ending(shortcode).before(rest);
    at < rest.len()
        && has_parameters(&rest[..at])
        && (ends.of(shortcode) > 0 || Sought::ShortcodeEnd(shortcode).holds(behind(rest, at + 3)))
}

/// Whether the bytes begin with a shortcode of Hugo that begins a block.
fn begins_shortcode(shortcode: Shortcode, ends: Ends, bytes: &[u8]) -> bool
    ensures { result ≡ begins_shortcode shortcode ends bytes.now }
{
    bytes.starts_with(shortcode.opening())
        && is_named(behind_blanks(behind(bytes, 3)))
        && begins_shortcode_with(shortcode, ends, behind_name(bytes))
}

/// Whether one of these classes is `mermaid`.
fn has_class(value: Option<&[u8]>) -> bool
    ensures { result ≡ has_class (option_copied value.entry) }
{
    match value {
        None => false,
        Some(classes) => is_class(classes) || Sought::FurtherClass.holds(classes),
    }
}

/// Whether the first `class` among these attributes has the class `mermaid`.
fn are_attributes(bytes: &[u8]) -> bool
    ensures { result ≡ are_attributes bytes.now }
{
    let at = Sought::Class.before(bytes);
    begins_blank(bytes) && at < bytes.len() && has_class(class_value(&bytes[at..]))
}

/// Whether the bytes begin with such attributes and a `>`.
fn has_attributes(bytes: &[u8]) -> bool
    ensures { result ≡ has_attributes bytes.now }
{
    let count = inside_of(bytes);
    count < bytes.len() && are_attributes(&bytes[..count])
}

/// Whether the bytes begin with an element of HTML that begins a block.
fn begins_tag(tag: Tag, bytes: &[u8]) -> bool
    ensures { result ≡ begins_tag tag bytes.now }
{
    begin_so(bytes, tag.opening()) && has_attributes(behind(bytes, 4))
}

/// The end of the block that begins here, if this number of ends of shortcodes follow on later
/// lines.
#[tactic(auto, unfolding(crate::specs::Closings::closing_of))]
pub(crate) fn closing_of(ends: Ends, bytes: &[u8]) -> Option<Closing>
    ensures { result ≡ closing_of ends bytes.now }
{
    if is_backquote_fence(bytes) {
        return Some(Closing::Backquotes(backquotes(bytes)));
    }
    if tildes(bytes) >= 3 {
        return Some(Closing::Tildes(tildes(bytes)));
    }
    if is_directive(bytes) {
        return Some(Closing::Colons);
    }
    if begins_tag(Tag::Pre, bytes) {
        return Some(Closing::Element(Tag::Pre));
    }
    if begins_tag(Tag::Div, bytes) {
        return Some(Closing::Element(Tag::Div));
    }
    if begins_shortcode(Shortcode::Angle, ends, bytes) {
        return Some(Closing::Short(Shortcode::Angle));
    }
    if begins_shortcode(Shortcode::Percent, ends, bytes) {
        return Some(Closing::Short(Shortcode::Percent));
    }
    None
}

/// Whether the bytes begin with the word, in any case, and no further byte of a word follows it.
fn is_word(bytes: &[u8], word: &[u8]) -> bool
    ensures { result ≡ is_word bytes.now word.now }
{
    begin_so(bytes, word) && !begins_word(behind(bytes, word.len()))
}

/// The same with this spelling.
fn is_exactly(bytes: &[u8], word: &[u8]) -> bool
    ensures { result ≡ is_exactly bytes.now word.now }
{
    bytes.starts_with(word) && !begins_word(behind(bytes, word.len()))
}

/// Whether the bytes begin with the word of a language of diagrams.
fn is_language(bytes: &[u8]) -> bool
    ensures { result ≡ is_language bytes.now }
{
    is_word(bytes, b"mermaid")
        || is_word(bytes, b"{mermaid")
        || is_word(bytes, b"{.mermaid")
        || is_exactly(bytes, b"plantuml")
        || is_exactly(bytes, b"puml")
        || is_exactly(bytes, b"mscgen")
}

/// Whether there are at least `least` counted bytes, and no others.
fn is_closed_by(count: usize, least: usize, length: usize) -> bool
    ensures { result ≡ (nat_le least length && count == length) }
{
    least <= length && count == length
}

impl Closing {
    /// Whether the block with this beginning is one of a diagram.
    pub(crate) fn is_marked(self, bytes: &[u8]) -> bool
        ensures { result ≡ is_marked self bytes.now }
    {
        match self {
            Closing::Backquotes(count) | Closing::Tildes(count) => {
                is_language(behind_blanks(behind(bytes, count)))
            }
            Closing::Colons | Closing::Element(_) | Closing::Short(_) => true,
        }
    }

    /// Whether it may have options of MyST.
    pub(crate) fn has_options(self, bytes: &[u8]) -> bool
        ensures { result ≡ has_options self bytes.now }
    {
        match self {
            Closing::Backquotes(count) | Closing::Tildes(count) => {
                is_word(behind_blanks(behind(bytes, count)), b"{mermaid")
            }
            Closing::Colons | Closing::Element(_) | Closing::Short(_) => false,
        }
    }

    /// The bytes of the line after the beginning of the block, which are part of it.
    pub(crate) fn text_of(self, bytes: &[u8]) -> &[u8]
        ensures { result.now ≡ text_of self bytes.now }
    {
        match self {
            Closing::Element(_) => behind(bytes, inside_of(bytes) + 1),
            Closing::Short(shortcode) => {
                let rest = behind_name(bytes);
                behind(rest, Sought::Ending(shortcode).before(rest) + 3)
            }
            Closing::Backquotes(_) | Closing::Tildes(_) | Closing::Colons => &[],
        }
    }

    /// Whether the line with these bytes after the marks at its front ends the block.
    pub(crate) fn is_end(self, bytes: &[u8]) -> bool
        ensures { result ≡ is_end self bytes.now }
    {
        match self {
            Closing::Backquotes(count) => {
                let line = trimmed(bytes);
                is_closed_by(backquotes(line), count, line.len())
            }
            Closing::Tildes(count) => {
                let line = trimmed(bytes);
                is_closed_by(tildes(line), count, line.len())
            }
            Closing::Colons => trimmed(bytes) == ":::".as_bytes(),
            Closing::Element(tag) => Sought::TagEnd(tag).holds(bytes),
            Closing::Short(shortcode) => Sought::ShortcodeEnd(shortcode).holds(bytes),
        }
    }

    /// The part of such a line that belongs to the block.
    pub(crate) fn before_end(self, bytes: &[u8]) -> &[u8]
        ensures { result.now ≡ before_end self bytes.now }
    {
        match self {
            Closing::Element(tag) => &bytes[..Sought::TagEnd(tag).before(bytes)],
            Closing::Short(shortcode) => &bytes[..Sought::ShortcodeEnd(shortcode).before(bytes)],
            Closing::Backquotes(_) | Closing::Tildes(_) | Closing::Colons => {
                if self.is_end(bytes) { &[] } else { bytes }
            }
        }
    }
}
