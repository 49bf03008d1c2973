//! The rows of a diagnostic.

ghost use Rattle.std.specs.Prelude.{◌≡◌, ◌++◌, OnOk};
ghost use Rattle.msc_diagnostic.specs.Rows.{bar, bar_row, blank_before, blanks, closed, dots_row};
ghost use Rattle.msc_diagnostic.specs.Rows.{further_row, head_row, level_part, line_row, mark_row};
ghost use Rattle.msc_diagnostic.specs.Rows.{note_row, number_part, opened, painted, place_row};
ghost use Rattle.msc_diagnostic.specs.Rows.{sentence_part, signs_part};

use crate::colour::{Colour, closed, opened, put, put_many, put_text};
use crate::diagnostic::{Level, NoteKind};
use crate::mark::Sign;
use itoa::Buffer;
use std::alloc::{AllocError, Global};

/// How the rows of a diagnostic begin, and their colours. Each error is want of memory.
#[derive(Clone, Copy)]
pub(crate) struct Frame {
    /// Whether there are colours.
    pub(crate) colours: bool,
    pub(crate) level: Level,
    /// The columns of the numbers of lines.
    pub(crate) gap: usize,
}

/// Signs in the row of a mark, and how many columns are before them.
#[derive(Clone, Copy)]
pub(crate) struct Signs {
    pub(crate) before: usize,
    pub(crate) count: usize,
    pub(crate) sign: Sign,
}

/// A blank, if a text follows.
fn blank_before(text: &str) -> &'static [u8]
    ensures { result.now ≡ blank_before text.now }
{
    if text.is_empty() { b"" } else { b" " }
}

impl Frame {
    /// Begins a colour.
    fn open(&self, out: &mut Vec<u8>, colour: Colour) -> Result<(), AllocError>
        ensures { OnOk result (out.new.items ≡ out.old.items ++ opened self.now.colours colour) }
    {
        put(out, opened(self.colours, colour))
    }

    /// Ends a colour.
    fn close(&self, out: &mut Vec<u8>) -> Result<(), AllocError>
        ensures { OnOk result (out.new.items ≡ out.old.items ++ closed self.now.colours) }
    {
        put(out, closed(self.colours))
    }

    /// Appends a text in a colour.
    fn print_painted(
        &self,
        out: &mut Vec<u8>,
        colour: Colour,
        text: &[u8],
    ) -> Result<(), AllocError>
        ensures { OnOk result (out.new.items ≡ out.old.items ++ painted self.now colour text.now) }
    {
        self.open(out, colour)?;
        put(out, text)?;
        self.close(out)
    }

    /// Appends blanks in the width of the numbers of lines.
    fn print_gap(&self, alloc: Global, out: &mut Vec<u8>) -> Result<(), AllocError>
        ensures { OnOk result (out.new.items ≡ out.old.items ++ blanks self.now.gap) }
    {
        put_many(alloc, out, b' ', self.gap)
    }

    /// Appends the level and the ID.
    #[tactic(auto, unfolding(crate::specs::Rows::level_part))]
    fn print_level(&self, out: &mut Vec<u8>, id: &str) -> Result<(), AllocError>
        ensures { OnOk result (out.new.items ≡ out.old.items ++ level_part self.now id.now) }
    {
        self.open(out, self.level.colour())?;
        put(out, self.level.word())?;
        put(out, b"[")?;
        put_text(out, id)?;
        put(out, b"]")?;
        self.close(out)
    }

    /// Appends the sentence.
    #[tactic(auto, unfolding(crate::specs::Rows::sentence_part))]
    fn print_sentence(&self, out: &mut Vec<u8>, sentence: &str) -> Result<(), AllocError>
        ensures { OnOk result
            (out.new.items ≡ out.old.items ++ sentence_part self.now sentence.now) }
    {
        self.open(out, Colour::Bold)?;
        put(out, b": ")?;
        put_text(out, sentence)?;
        self.close(out)
    }

    /// Appends the level, the ID and the sentence.
    pub(crate) fn print_head(
        &self,
        out: &mut Vec<u8>,
        id: &str,
        sentence: &str,
    ) -> Result<(), AllocError>
        ensures { OnOk result (out.new.items
            ≡ out.old.items ++ head_row self.now id.now sentence.now) }
    {
        self.print_level(out, id)?;
        self.print_sentence(out, sentence)?;
        put(out, b"\n")
    }

    /// Appends a place.
    pub(crate) fn print_place(
        &self,
        alloc: Global,
        out: &mut Vec<u8>,
        place: &str,
    ) -> Result<(), AllocError>
        ensures { OnOk result (out.new.items ≡ out.old.items ++ place_row self.now place.now) }
    {
        self.print_gap(alloc, out)?;
        self.print_painted(out, Colour::BoldBlue, b"-->")?;
        put(out, b" ")?;
        put_text(out, place)?;
        put(out, b"\n")
    }

    /// Appends the bar below the numbers of lines.
    #[tactic(auto, unfolding(crate::specs::Rows::bar))]
    fn print_bar(&self, alloc: Global, out: &mut Vec<u8>) -> Result<(), AllocError>
        ensures { OnOk result (out.new.items ≡ out.old.items ++ bar self.now) }
    {
        self.open(out, Colour::BoldBlue)?;
        self.print_gap(alloc, out)?;
        put(out, b" |")?;
        self.close(out)
    }

    /// Appends the number of a line, and a bar.
    #[tactic(auto, unfolding(crate::specs::Rows::number_part))]
    fn print_number(&self, alloc: Global, out: &mut Vec<u8>, line: usize) -> Result<(), AllocError>
        ensures { OnOk result (out.new.items ≡ out.old.items ++ number_part self.now line) }
    {
        let mut buffer = Buffer::new();
        let number = buffer.format(line);
        self.open(out, Colour::BoldBlue)?;
        put_many(alloc, out, b' ', self.gap.saturating_sub(number.len()))?;
        put_text(out, number)?;
        put(out, b" |")?;
        self.close(out)
    }

    /// Appends a row with a bar only.
    pub(crate) fn print_bar_row(&self, alloc: Global, out: &mut Vec<u8>) -> Result<(), AllocError>
        ensures { OnOk result (out.new.items ≡ out.old.items ++ bar_row self.now) }
    {
        self.print_bar(alloc, out)?;
        put(out, b"\n")
    }

    /// Appends the row in place of lines that are left out.
    pub(crate) fn print_dots(&self, out: &mut Vec<u8>) -> Result<(), AllocError>
        ensures { OnOk result (out.new.items ≡ out.old.items ++ dots_row self.now) }
    {
        self.print_painted(out, Colour::BoldBlue, b"...")?;
        put(out, b"\n")
    }

    /// Appends a line by its number, and what is shown of it.
    pub(crate) fn print_line(
        &self,
        alloc: Global,
        out: &mut Vec<u8>,
        line: usize,
        text: &str,
    ) -> Result<(), AllocError>
        ensures { OnOk result (out.new.items ≡ out.old.items ++ line_row self.now line text.now) }
    {
        self.print_number(alloc, out, line)?;
        put(out, blank_before(text))?;
        put_text(out, text)?;
        put(out, b"\n")
    }

    /// Appends the signs of a mark, and its label.
    #[tactic(auto, unfolding(crate::specs::Rows::signs_part))]
    fn print_signs(
        &self,
        alloc: Global,
        out: &mut Vec<u8>,
        signs: Signs,
        label: &str,
    ) -> Result<(), AllocError>
        ensures { OnOk result (out.new.items ≡ out.old.items
            ++ signs_part self.now signs.count signs.sign label.now) }
    {
        self.open(out, signs.sign.colour(self.level))?;
        put_many(alloc, out, signs.sign.code(), signs.count)?;
        put(out, blank_before(label))?;
        put_text(out, label)?;
        self.close(out)
    }

    /// Appends the row of a mark.
    pub(crate) fn print_mark(
        &self,
        alloc: Global,
        out: &mut Vec<u8>,
        signs: Signs,
        label: &str,
    ) -> Result<(), AllocError>
        ensures { OnOk result (out.new.items ≡ out.old.items
            ++ mark_row self.now signs.before signs.count signs.sign label.now) }
    {
        self.print_bar(alloc, out)?;
        put(out, b" ")?;
        put_many(alloc, out, b' ', signs.before)?;
        self.print_signs(alloc, out, signs, label)?;
        put(out, b"\n")
    }

    /// Appends the first row of a note.
    pub(crate) fn print_note(
        &self,
        alloc: Global,
        out: &mut Vec<u8>,
        kind: NoteKind,
        text: &str,
    ) -> Result<(), AllocError>
        ensures { OnOk result (out.new.items ≡ out.old.items ++ note_row self.now kind text.now) }
    {
        self.print_gap(alloc, out)?;
        self.print_painted(out, Colour::BoldBlue, b" = ")?;
        self.print_painted(out, Colour::Bold, kind.word())?;
        put(out, b": ")?;
        put_text(out, text)?;
        put(out, b"\n")
    }

    /// Appends a further row of a note.
    pub(crate) fn print_further(
        &self,
        alloc: Global,
        out: &mut Vec<u8>,
        text: &str,
    ) -> Result<(), AllocError>
        ensures { OnOk result (out.new.items ≡ out.old.items ++ further_row self.now text.now) }
    {
        self.print_gap(alloc, out)?;
        put(out, b"   ")?;
        put_text(out, text)?;
        put(out, b"\n")
    }
}
