//! The first place of a line at which something is found.

ghost use Rattle.std.specs.Prelude.{◌≡◌, ◌≤◌, length};
ghost use Rattle.msc_markdown.specs.Seeking.{before, holds, is_here};

use crate::markup::{Shortcode, Tag, class_value, is_further_class};
use msc_mermaid::begin_so;

/// The part that is searched.
#[derive(Clone, Copy)]
pub(crate) enum Sought {
    /// The end of a shortcode.
    Ending(Shortcode),
    /// The end of the block of a shortcode.
    ShortcodeEnd(Shortcode),
    /// The end of an element.
    TagEnd(Tag),
    /// An attribute `class` after a blank.
    Class,
    /// The class `mermaid` after a blank.
    FurtherClass,
    /// The word with which a sequence diagram begins.
    Diagram,
}

impl Sought {
    /// Whether the bytes begin with it.
    fn is_here(self, bytes: &[u8]) -> bool
        ensures { result ≡ is_here self bytes.now }
    {
        match self {
            Sought::Ending(shortcode) => bytes.starts_with(shortcode.ending()),
            Sought::ShortcodeEnd(shortcode) => shortcode.ends(bytes),
            Sought::TagEnd(tag) => begin_so(bytes, tag.ending()),
            Sought::Class => class_value(bytes).is_some(),
            Sought::FurtherClass => is_further_class(bytes),
            Sought::Diagram => bytes.starts_with(b"sequenceDiagram"),
        }
    }

    /// The number of bytes before the first place at which it is found, or of all bytes if there is
    /// none.
    pub(crate) fn before(self, bytes: &[u8]) -> usize
        ensures value { result ≡ before self bytes.now }
        ensures within { result ≤ length bytes.now }
    {
        for i in 0..bytes.len() {
            if self.is_here(&bytes[i..]) {
                return i;
            }
        }
        bytes.len()
    }

    /// Whether the bytes have it.
    pub(crate) fn holds(self, bytes: &[u8]) -> bool
        ensures { result ≡ holds self bytes.now }
    {
        self.before(bytes) < bytes.len()
    }
}
