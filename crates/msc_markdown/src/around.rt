//! One more line of a text of Markdown: the part of it that belongs to a block, and the block
//! around the next line.

ghost use Rattle.std.specs.Prelude.{◌≡◌, ◌≤◌, length};
ghost use Rattle.std.specs.List.{prefix_len};
ghost use Rattle.msc_lexer.specs.Bytes.{begins};
ghost use Rattle.msc_mermaid.specs.Parts.{stretch};
ghost use Rattle.msc_markdown.specs.Arounds.{around_of, begun, behind_marks, columns_before};
ghost use Rattle.msc_markdown.specs.Arounds.{form_of};
ghost use Rattle.msc_markdown.specs.Arounds.{is_colon, is_left_out, is_option, is_option_byte};
ghost use Rattle.msc_markdown.specs.Arounds.{is_option_of, left_by, nothing, on_behind, outside};
ghost use Rattle.msc_markdown.specs.Arounds.{part_of};
ghost use Rattle.msc_markdown.specs.Arounds.{passed, start_of, within};

use crate::blanks::behind;
use crate::closing::{Closing, Ends, closing_of};
use crate::marks::{marks, quoted, quoted_in_front, quotes, quotes_before};
use msc_mermaid::{LinePart, counted, is_head, is_word_byte, trimmed};

/// The form of a block of a diagram.
#[derive(Clone, Copy, Debug, PartialEq, Eq)]
pub enum BlockKind {
    /// Between fences, or in a directive.
    Fenced,
    /// In an element of HTML or a shortcode of Hugo, which a browser reads first.
    Markup,
    /// In a line outside of all blocks.
    Stray,
}

/// The block around a line.
#[derive(Clone, Copy, Debug, PartialEq, Eq)]
pub(crate) struct Around {
    /// The least number of marks of block quotes on its lines.
    pub quotes: usize,
    pub closing: Closing,
    /// It is a block of a diagram.
    pub marked: bool,
    /// Options of MyST may follow.
    pub options: bool,
}

/// The result of a line.
#[derive(Clone, Copy)]
pub(crate) struct Left<'t> {
    /// The part of it that belongs to a block.
    pub part: LinePart<'t>,
    /// The form of the block of a diagram that starts on it.
    pub start: Option<BlockKind>,
    /// The block around the next line.
    pub after: Option<Around>,
}

/// Whether the bytes begin with `:`.
fn begins_colon(bytes: &[u8]) -> bool
    ensures { result ≡ begins is_colon bytes.now }
{
    match bytes {
        [] => false,
        [first, ..] => *first == b':',
    }
}

/// Whether the name of an option has this byte.
fn is_option_byte(byte: u8) -> bool
    ensures { result ≡ is_option_byte byte }
{
    is_word_byte(byte) || byte == b'-'
}

/// The number of such bytes at the front.
fn option_bytes(bytes: &[u8]) -> usize
    ensures length { result ≡ prefix_len is_option_byte bytes.now }
    ensures within { result ≤ length bytes.now }
{
    bytes
        .iter()
        .take_while(|byte| is_option_byte(**byte))
        .count()
}

/// Whether a name of `count` bytes and a colon are at the front.
fn is_option_of(count: usize, bytes: &[u8]) -> bool
    ensures { result ≡ is_option_of count bytes.now }
{
    count > 0 && begins_colon(behind(bytes, count))
}

/// Whether it is an option of MyST.
fn is_option(bytes: &[u8]) -> bool
    ensures { result ≡ is_option bytes.now }
{
    let name = behind(bytes, 1);
    begins_colon(bytes) && is_option_of(option_bytes(name), name)
}

/// The bytes of a line after the marks at its front.
fn behind_marks(line: &[u8]) -> &[u8]
    ensures { result.now ≡ behind_marks line.now }
{
    &line[marks(line)..]
}

/// The number of columns of a line before its last bytes, which are these.
fn columns_before(line: &[u8], bytes: &[u8]) -> usize
    ensures { result ≡ columns_before line.now bytes.now }
{
    if bytes.len() > line.len() {
        return 0;
    }
    counted(&line[..line.len() - bytes.len()])
}

/// No part of the line of this number.
fn nothing(at: usize) -> LinePart<'static>
    ensures { stretch result ≡ nothing at }
{
    LinePart {
        line: at,
        before: 0,
        skipped: 0,
        bytes: &[],
    }
}

impl Closing {
    /// The form of a block with this end.
    fn kind(self) -> BlockKind
        ensures { result ≡ form_of self }
    {
        match self {
            Closing::Element(_) | Closing::Short(_) => BlockKind::Markup,
            Closing::Backquotes(_) | Closing::Tildes(_) | Closing::Colons => BlockKind::Fenced,
        }
    }
}

impl Around {
    /// The block that begins with a line, and has this end.
    fn of(closing: Closing, line: &[u8]) -> Around
        ensures { result ≡ around_of closing line.now }
    {
        let rest = behind_marks(line);
        Around {
            quotes: quotes(&line[..marks(line)]),
            closing,
            marked: closing.is_marked(rest),
            options: closing.has_options(rest),
        }
    }

    /// The form of a block of a diagram.
    fn start(self) -> Option<BlockKind>
        ensures { result ≡ start_of self }
    {
        if self.marked {
            Some(self.closing.kind())
        } else {
            None
        }
    }

    /// Whether a line of the block is left out.
    fn is_left_out(self, bytes: &[u8]) -> bool
        ensures { result ≡ is_left_out self bytes.now }
    {
        let text = trimmed(bytes);
        self.options && (text.is_empty() || is_option(text))
    }

    /// The part that belongs to the block, of the bytes after `before` columns of a line, which
    /// have `skipped` bytes.
    fn part(self, at: usize, before: usize, skipped: usize, bytes: &[u8]) -> LinePart<'_>
        ensures { stretch result ≡ part_of at self before skipped bytes.now }
    {
        if self.marked && !self.is_left_out(bytes) {
            LinePart {
                line: at,
                before,
                skipped,
                bytes,
            }
        } else {
            nothing(at)
        }
    }

    /// The block after a line of it.
    fn on(self, bytes: &[u8]) -> Around
        ensures { result ≡ on_behind self bytes.now }
    {
        Around {
            quotes: self.quotes,
            closing: self.closing,
            marked: self.marked,
            options: self.is_left_out(bytes),
        }
    }

    /// The result of a line of the block with these bytes after this number of columns, which have
    /// this number of bytes.
    #[tactic(auto, unfolding(crate::specs::Arounds::within))]
    fn within(
        self,
        at: usize,
        start: Option<BlockKind>,
        before: usize,
        skipped: usize,
        held: &[u8],
    ) -> Left<'_>
        ensures part { stretch result.part ≡ (within at self start before skipped held.now).part }
        ensures start { result.start ≡ (within at self start before skipped held.now).start }
        ensures after { result.after ≡ (within at self start before skipped held.now).after }
    {
        let text = self.closing.before_end(held);
        let after = if self.closing.is_end(held) {
            None
        } else {
            Some(self.on(text))
        };
        Left {
            part: self.part(at, before, skipped, text),
            start,
            after,
        }
    }
}

/// The result of a line with which a block with this end begins.
fn begun(at: usize, closing: Closing, line: &[u8]) -> Left<'_>
    ensures part { stretch result.part ≡ (begun at closing line.now).part }
    ensures start { result.start ≡ (begun at closing line.now).start }
    ensures after { result.after ≡ (begun at closing line.now).after }
{
    let around = Around::of(closing, line);
    let text = closing.text_of(behind_marks(line));
    let skipped = line.len().saturating_sub(text.len());
    let before = columns_before(line, text);
    around.within(at, around.start(), before, skipped, text)
}

/// The result of a line with which no block begins.
fn passed(at: usize, line: &[u8]) -> Left<'_>
    ensures part { stretch result.part ≡ (passed at line.now).part }
    ensures start { result.start ≡ (passed at line.now).start }
    ensures after { result.after ≡ (passed at line.now).after }
{
    let before = quoted_in_front(line);
    let bytes = &line[before..];
    if is_head(bytes) {
        return Left {
            part: LinePart {
                line: at,
                before,
                skipped: before,
                bytes,
            },
            start: Some(BlockKind::Stray),
            after: None,
        };
    }
    Left {
        part: nothing(at),
        start: None,
        after: None,
    }
}

/// The result of a line outside of all blocks.
fn outside(at: usize, ends: Ends, line: &[u8]) -> Left<'_>
    ensures part { stretch result.part ≡ (outside at ends line.now).part }
    ensures start { result.start ≡ (outside at ends line.now).start }
    ensures after { result.after ≡ (outside at ends line.now).after }
{
    match closing_of(ends, behind_marks(line)) {
        None => passed(at, line),
        Some(closing) => begun(at, closing, line),
    }
}

/// The result of a line inside this block, if any, when this number of ends of shortcodes follow.
#[tactic(auto, unfolding(crate::specs::Arounds::left_by))]
pub(crate) fn left_by(at: usize, ends: Ends, line: &[u8], around: Option<Around>) -> Left<'_>
    ensures part { stretch result.part ≡ (left_by at ends line.now around).part }
    ensures start { result.start ≡ (left_by at ends line.now around).start }
    ensures after { result.after ≡ (left_by at ends line.now around).after }
{
    match around {
        Some(block) if block.quotes <= quotes_before(line) => {
            let before = quoted(block.quotes, line);
            block.within(at, None, before, before, &line[before..])
        }
        _ => outside(at, ends, line),
    }
}
