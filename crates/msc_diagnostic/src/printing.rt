//! A diagnostic, row by row.

ghost use Rattle.std.specs.Prelude.{◌≡◌, ◌++◌, IfOk, OnOk, map};
ghost use Rattle.std.specs.List.{flat_map};
ghost use Rattle.std.specs.Option.{option_map};
ghost use Rattle.msc_print.specs.Prints.{Prints};
ghost use Rattle.msc_diagnostic.specs.Blocks.{diagnostic_text, frame_of, no_window, parts_of};
ghost use Rattle.msc_diagnostic.specs.Blocks.{greatest_line, lines_part, next_window, notes_part};
ghost use Rattle.msc_diagnostic.specs.Blocks.{opening_rows, place_part, plain_row, rows_before};
ghost use Rattle.msc_diagnostic.specs.Blocks.{rows_between, rows_of, shown_line, signs_row};
ghost use Rattle.msc_diagnostic.specs.Blocks.{window_for, window_row};
ghost use Rattle.msc_diagnostic.specs.Plain.{plain_diagnostic, plain_note};
ghost use Rattle.msc_diagnostic.specs.Rows.{further_row, note_rows};

use crate::characters::{columns_of, shown_characters};
use crate::colour::put;
use crate::diagnostic::{Diagnostic, Level, Note};
use crate::frame::{Frame, Signs};
use crate::mark::{Placed, placed_marks};
use crate::source::Source;
use crate::window::{Window, last_column, window_at, window_begin};
use itoa::Buffer;
use msc_print::Printer;
use std::alloc::{AllocError, Global};
use std::io::Write;

/// The shown part of a line.
fn shown_line(alloc: Global, source: &Source<'_>, line: usize) -> Result<Vec<char>, AllocError>
    ensures { IfOk result (λ shown. shown.items
        ≡ shown_line source.now.ends source.now.text.now line) }
{
    shown_characters(alloc, source.line_bytes(line))
}

/// The window on a line for a mark and those after it: `marks` are these.
#[tactic(auto, unfolding(crate::specs::Blocks::window_for))]
fn window_for(
    alloc: Global,
    source: &Source<'_>,
    mark: &Placed<'_>,
    marks: &[Placed<'_>],
) -> Result<Window, AllocError>
    ensures { IfOk result (λ window. window
        ≡ window_for source.now.ends source.now.text.now mark.now marks.now) }
{
    let shown = shown_line(alloc, source, mark.line)?;
    let total = columns_of(shown.as_slice())?;
    let begin = window_begin(total, mark.column, last_column(mark.line, marks));
    window_at(mark.line, begin, shown.as_slice())
}

/// The window for a mark and those after it, if the one before it is below this window.
fn next_window(
    alloc: Global,
    source: &Source<'_>,
    window: &Window,
    mark: &Placed<'_>,
    marks: &[Placed<'_>],
) -> Result<Window, AllocError>
    ensures { IfOk result (λ next. next
        ≡ next_window source.now.ends source.now.text.now window.now mark.now marks.now) }
{
    if window.continues(mark) {
        return Ok(*window);
    }
    window_for(alloc, source, mark, marks)
}

/// The greatest line with a mark, and at least 1.
fn greatest_line(marks: &[Placed<'_>]) -> usize
    ensures { result ≡ greatest_line marks.now }
{
    let mut greatest = 1;
    for mark in marks {
        greatest = mark.line.max(greatest);
    }
    greatest
}

/// The frame of a diagnostic with these marks.
fn frame_of(colours: bool, level: Level, marks: &[Placed<'_>]) -> Frame
    ensures { result ≡ frame_of colours level marks.now }
{
    let mut buffer = Buffer::new();
    let gap = buffer.format(greatest_line(marks)).len();
    Frame {
        colours,
        level,
        gap,
    }
}

impl Frame {
    /// Appends the row of a window.
    fn print_window(
        &self,
        alloc: Global,
        out: &mut Vec<u8>,
        window: &Window,
        shown: &[char],
    ) -> Result<(), AllocError>
        ensures { OnOk result (out.new.items
            ≡ out.old.items ++ window_row self.now window.now shown.now) }
    {
        let text = window.text(alloc, shown)?;
        self.print_line(alloc, out, window.line, text.as_str())
    }

    /// Appends a line without marks.
    #[tactic(auto, unfolding(crate::specs::Blocks::plain_row))]
    fn print_plain(
        &self,
        alloc: Global,
        out: &mut Vec<u8>,
        source: &Source<'_>,
        line: usize,
    ) -> Result<(), AllocError>
        ensures { OnOk result (out.new.items
            ≡ out.old.items ++ plain_row self.now source.now.ends source.now.text.now line) }
    {
        let shown = shown_line(alloc, source, line)?;
        let window = window_at(line, 0, shown.as_slice())?;
        self.print_window(alloc, out, &window, shown.as_slice())
    }

    /// Appends what is between two lines with marks: the line between them, or `...` for more. The
    /// line 0 is before the first.
    fn print_between(
        &self,
        alloc: Global,
        out: &mut Vec<u8>,
        source: &Source<'_>,
        before: usize,
        line: usize,
    ) -> Result<(), AllocError>
        ensures { OnOk result (out.new.items ≡ out.old.items
            ++ rows_between self.now source.now.ends source.now.text.now before line) }
    {
        let lines = line.saturating_sub(before);
        if before == 0 || lines <= 1 {
            return Ok(());
        }
        if lines == 2 {
            return self.print_plain(alloc, out, source, line.saturating_sub(1));
        }
        self.print_dots(out)
    }

    /// Appends the rows up to the line of a mark.
    fn print_opening(
        &self,
        alloc: Global,
        out: &mut Vec<u8>,
        source: &Source<'_>,
        before: &Window,
        mark: &Placed<'_>,
        window: &Window,
    ) -> Result<(), AllocError>
        ensures { OnOk result (out.new.items ≡ out.old.items
            ++ opening_rows self.now source.now.ends source.now.text.now before.now mark.now
            window.now) }
    {
        self.print_between(alloc, out, source, before.line, mark.line)?;
        let shown = shown_line(alloc, source, mark.line)?;
        self.print_window(alloc, out, window, shown.as_slice())
    }

    /// Appends the rows before that of a mark.
    fn print_rows_before(
        &self,
        alloc: Global,
        out: &mut Vec<u8>,
        source: &Source<'_>,
        before: &Window,
        mark: &Placed<'_>,
        window: &Window,
    ) -> Result<(), AllocError>
        ensures { OnOk result (out.new.items ≡ out.old.items
            ++ rows_before self.now source.now.ends source.now.text.now before.now mark.now
            window.now) }
    {
        if before.continues(mark) {
            return Ok(());
        }
        self.print_opening(alloc, out, source, before, mark, window)
    }

    /// Appends the row of a mark.
    fn print_signs_row(
        &self,
        alloc: Global,
        out: &mut Vec<u8>,
        window: &Window,
        mark: &Placed<'_>,
    ) -> Result<(), AllocError>
        ensures { OnOk result (out.new.items
            ≡ out.old.items ++ signs_row self.now window.now mark.now) }
    {
        let signs = Signs {
            before: window.columns_before(mark)?,
            count: window.columns_marked(mark),
            sign: mark.sign,
        };
        self.print_mark(alloc, out, signs, mark.label)
    }

    /// Appends the rows of marks that are in order.
    fn print_rows_of(
        &self,
        alloc: Global,
        out: &mut Vec<u8>,
        source: &Source<'_>,
        marks: &[Placed<'_>],
    ) -> Result<(), AllocError>
        ensures { OnOk result (out.new.items ≡ out.old.items
            ++ rows_of self.now source.now.ends source.now.text.now no_window marks.now) }
    {
        let mut window = Window {
            line: 0,
            begin: 0,
            total: 0,
            skipped: 0,
            count: 0,
            low: 0,
            high: 0,
        };
        for i in 0..marks.len() {
            let mark = &marks[i];
            let next = next_window(alloc, source, &window, mark, &marks[i..])?;
            self.print_rows_before(alloc, out, source, &window, mark, &next)?;
            self.print_signs_row(alloc, out, &next, mark)?;
            window = next;
        }
        Ok(())
    }

    /// Appends the lines with marks.
    fn print_lines(
        &self,
        alloc: Global,
        out: &mut Vec<u8>,
        source: &Source<'_>,
        marks: &[Placed<'_>],
    ) -> Result<(), AllocError>
        ensures { OnOk result (out.new.items ≡ out.old.items
            ++ lines_part self.now source.now.ends source.now.text.now marks.now) }
    {
        if marks.is_empty() {
            return Ok(());
        }
        self.print_bar_row(alloc, out)?;
        self.print_rows_of(alloc, out, source, marks)
    }

    /// Appends the further rows of a note.
    fn print_all_further(
        &self,
        alloc: Global,
        out: &mut Vec<u8>,
        rows: &[&str],
    ) -> Result<(), AllocError>
        ensures { OnOk result (out.new.items
            ≡ out.old.items ++ flat_map (λ row. further_row self.now row.now) rows.now) }
    {
        for row in rows {
            self.print_further(alloc, out, row)?;
        }
        Ok(())
    }

    /// Appends a note.
    fn print_note_rows(
        &self,
        alloc: Global,
        out: &mut Vec<u8>,
        note: &Note<'_>,
    ) -> Result<(), AllocError>
        ensures { OnOk result (out.new.items ≡ out.old.items ++ note_rows self.now (plain_note note.now)) }
    {
        self.print_note(alloc, out, note.kind, note.text)?;
        self.print_all_further(alloc, out, note.rows)?;
        Ok(())
    }

    /// Appends all notes.
    fn print_notes(
        &self,
        alloc: Global,
        out: &mut Vec<u8>,
        notes: &[Note<'_>],
    ) -> Result<(), AllocError>
        ensures { OnOk result (out.new.items
            ≡ out.old.items ++ flat_map (note_rows self.now) (map plain_note notes.now)) }
    {
        for note in notes {
            self.print_note_rows(alloc, out, note)?;
        }
        Ok(())
    }

    /// Appends the notes, after a bar if there are marks.
    fn print_notes_part(
        &self,
        alloc: Global,
        out: &mut Vec<u8>,
        marks: &[Placed<'_>],
        notes: &[Note<'_>],
    ) -> Result<(), AllocError>
        ensures { OnOk result (out.new.items
            ≡ out.old.items ++ notes_part self.now marks.now (map plain_note notes.now)) }
    {
        if !marks.is_empty() && !notes.is_empty() {
            self.print_bar_row(alloc, out)?;
        }
        self.print_notes(alloc, out, notes)
    }

    /// Appends a place, if there is one.
    fn print_place_part(
        &self,
        alloc: Global,
        out: &mut Vec<u8>,
        place: Option<&str>,
    ) -> Result<(), AllocError>
        ensures { OnOk result (out.new.items
            ≡ out.old.items ++ place_part self.now (option_map (λ p. p.now) place.entry)) }
    {
        match place {
            Some(place) => self.print_place(alloc, out, place),
            None => Ok(()),
        }
    }

    /// Appends a diagnostic with these marks.
    fn print_parts(
        &self,
        alloc: Global,
        out: &mut Vec<u8>,
        source: &Source<'_>,
        marks: &[Placed<'_>],
        diagnostic: &Diagnostic<'_>,
    ) -> Result<(), AllocError>
        ensures { OnOk result (out.new.items ≡ out.old.items
            ++ parts_of self.now source.now.ends source.now.text.now marks.now
            (plain_diagnostic diagnostic.now)) }
    {
        self.print_head(out, diagnostic.id, diagnostic.sentence)?;
        self.print_place_part(alloc, out, diagnostic.place)?;
        self.print_lines(alloc, out, source, marks)?;
        self.print_notes_part(alloc, out, marks, diagnostic.notes)?;
        put(out, b"\n")
    }
}

/// The text of a diagnostic on a text, with an empty row after it. The only error is want of memory.
#[tactic(auto, unfolding(crate::specs::Blocks::diagnostic_text))]
pub fn diagnostic_text(
    alloc: Global,
    source: &Source<'_>,
    diagnostic: &Diagnostic<'_>,
    colours: bool,
) -> Result<Vec<u8>, AllocError>
    ensures { IfOk result (λ text. text.items
        ≡ diagnostic_text colours source.now.ends source.now.text.now (plain_diagnostic diagnostic.now)) }
{
    let marks = placed_marks(alloc, source, diagnostic.marks)?;
    let frame = frame_of(colours, diagnostic.level, marks.as_slice());
    let mut text = Vec::new(alloc);
    frame.print_parts(alloc, &mut text, source, marks.as_slice(), diagnostic)?;
    Ok(text)
}

/// Prints a diagnostic on a text, and an empty row after it; with colours if requested. Want of
/// memory stops the printer, as any other fault of it does.
pub fn print_diagnostic<W: Write>(
    alloc: Global,
    printer: &mut Printer<'_, W>,
    source: &Source<'_>,
    diagnostic: &Diagnostic<'_>,
    colours: bool,
)
    ensures { Prints printer.old printer.new
        (diagnostic_text colours source.now.ends source.now.text.now (plain_diagnostic diagnostic.now)) }
{
    match diagnostic_text(alloc, source, diagnostic, colours) {
        Ok(text) => printer.put(text.as_slice()),
        Err(_) => printer.stop(),
    }
}
