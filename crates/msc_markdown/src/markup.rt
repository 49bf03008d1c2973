//! Blocks in HTML and in shortcodes of Hugo.

ghost use Rattle.std.specs.Prelude.{◌≡◌, ◌≤◌, length};
ghost use Rattle.std.specs.List.{prefix_len};
ghost use Rattle.std.specs.Option.{option_copied};
ghost use Rattle.msc_markdown.specs.Markup.{class_value, ending, ends_name, ends_shortcode};
ghost use Rattle.msc_markdown.specs.Markup.{ends_slash, given_value, is_class, is_further_class};
ghost use Rattle.msc_markdown.specs.Markup.{is_inside, is_named, is_not, is_plain, opening};
ghost use Rattle.msc_markdown.specs.Markup.{plain_value, tag_ending, tag_opening, value_of};
ghost use Rattle.msc_markdown.specs.Markup.{value_up_to};

use crate::blanks::{begins_blank, behind, behind_blanks, is_blank};
use msc_mermaid::begin_so;

/// A shortcode of Hugo, by the mark that its braces have.
#[derive(Clone, Copy, Debug, PartialEq, Eq)]
pub(crate) enum Shortcode {
    /// `{{< mermaid >}}`.
    Angle,
    /// `{{% mermaid %}}`.
    Percent,
}

/// An element of HTML.
#[derive(Clone, Copy, Debug, PartialEq, Eq)]
pub(crate) enum Tag {
    Pre,
    Div,
}

/// Whether the bytes begin with the name of a shortcode.
pub(crate) fn is_named(bytes: &[u8]) -> bool
    ensures { result ≡ is_named bytes.now }
{
    bytes.starts_with(b"mermaid")
}

impl Shortcode {
    /// Its beginning.
    pub(crate) fn opening(self) -> &'static [u8]
        ensures { result.now ≡ opening self }
    {
        match self {
            Shortcode::Angle => b"{{<",
            Shortcode::Percent => b"{{%",
        }
    }

    /// Its end.
    pub(crate) fn ending(self) -> &'static [u8]
        ensures { result.now ≡ ending self }
    {
        match self {
            Shortcode::Angle => b">}}",
            Shortcode::Percent => b"%}}",
        }
    }

    /// Whether the bytes begin with the end of its block, from the name on.
    fn ends_name(self, bytes: &[u8]) -> bool
        ensures { result ≡ ends_name self bytes.now }
    {
        is_named(bytes) && behind_blanks(behind(bytes, 7)).starts_with(self.ending())
    }

    /// Whether the bytes begin with the end of its block, from the slash on.
    fn ends_slash(self, bytes: &[u8]) -> bool
        ensures { result ≡ ends_slash self bytes.now }
    {
        bytes.starts_with(b"/") && self.ends_name(behind_blanks(behind(bytes, 1)))
    }

    /// Whether the bytes begin with the end of its block.
    pub(crate) fn ends(self, bytes: &[u8]) -> bool
        ensures { result ≡ ends_shortcode self bytes.now }
    {
        bytes.starts_with(self.opening()) && self.ends_slash(behind_blanks(behind(bytes, 3)))
    }
}

impl Tag {
    /// Its beginning.
    pub(crate) fn opening(self) -> &'static [u8]
        ensures { result.now ≡ tag_opening self }
    {
        match self {
            Tag::Pre => b"<pre",
            Tag::Div => b"<div",
        }
    }

    /// Its end.
    pub(crate) fn ending(self) -> &'static [u8]
        ensures { result.now ≡ tag_ending self }
    {
        match self {
            Tag::Pre => b"</pre>",
            Tag::Div => b"</div>",
        }
    }
}

/// The number of bytes before the first `>`, or of all bytes if there is none.
pub(crate) fn inside_of(bytes: &[u8]) -> usize
    ensures length { result ≡ prefix_len is_inside bytes.now }
    ensures within { result ≤ length bytes.now }
{
    bytes.iter().take_while(|byte| **byte != b'>').count()
}

/// The number of bytes before the first one that is this mark, or of all bytes if there is none.
fn before_mark(mark: u8, bytes: &[u8]) -> usize
    ensures length { result ≡ prefix_len (is_not mark) bytes.now }
    ensures within { result ≤ length bytes.now }
{
    bytes.iter().take_while(|byte| **byte != mark).count()
}

/// The value of an attribute up to this mark.
fn value_up_to(mark: u8, bytes: &[u8]) -> Option<&[u8]>
    ensures { option_copied result ≡ value_up_to mark bytes.now }
{
    let count = before_mark(mark, bytes);
    if count < bytes.len() {
        Some(&bytes[..count])
    } else {
        None
    }
}

/// Whether a value without quotation marks has this byte.
fn is_plain(byte: u8) -> bool
    ensures { result ≡ is_plain byte }
{
    !(is_blank(byte) || byte == b'"' || byte == b'\'')
}

/// The number of such bytes at the front.
fn plain(bytes: &[u8]) -> usize
    ensures length { result ≡ prefix_len is_plain bytes.now }
    ensures within { result ≤ length bytes.now }
{
    bytes.iter().take_while(|byte| is_plain(**byte)).count()
}

/// A value without quotation marks.
fn plain_value(bytes: &[u8]) -> Option<&[u8]>
    ensures { option_copied result ≡ plain_value bytes.now }
{
    let count = plain(bytes);
    if count > 0 {
        Some(&bytes[..count])
    } else {
        None
    }
}

/// The value at the front.
fn value_of(bytes: &[u8]) -> Option<&[u8]>
    ensures { option_copied result ≡ value_of bytes.now }
{
    if bytes.starts_with(b"\"") {
        return value_up_to(b'"', behind(bytes, 1));
    }
    if bytes.starts_with(b"'") {
        return value_up_to(b'\'', behind(bytes, 1));
    }
    plain_value(bytes)
}

/// The value after `=` at the front.
fn given_value(bytes: &[u8]) -> Option<&[u8]>
    ensures { option_copied result ≡ given_value bytes.now }
{
    if bytes.starts_with(b"=") {
        return value_of(behind_blanks(behind(bytes, 1)));
    }
    None
}

/// The value of the attribute `class` that follows a blank at the front.
pub(crate) fn class_value(bytes: &[u8]) -> Option<&[u8]>
    ensures { option_copied result ≡ class_value bytes.now }
{
    if begins_blank(bytes) && begin_so(behind(bytes, 1), b"class") {
        return given_value(behind_blanks(behind(bytes, 6)));
    }
    None
}

/// Whether the bytes begin with the class `mermaid`.
pub(crate) fn is_class(bytes: &[u8]) -> bool
    ensures { result ≡ is_class bytes.now }
{
    begin_so(bytes, b"mermaid")
        && ((bytes.len() > 7 && begins_blank(behind(bytes, 7))) || bytes.len() == 7)
}

/// Whether the bytes begin with a blank and this class.
pub(crate) fn is_further_class(bytes: &[u8]) -> bool
    ensures { result ≡ is_further_class bytes.now }
{
    begins_blank(bytes) && is_class(behind(bytes, 1))
}
