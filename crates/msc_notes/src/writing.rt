//! Notes as they are printed.

ghost use Rattle.std.specs.Prelude.{◌≡◌, OnOk};
ghost use Rattle.std.specs.Io.KnownBytes.{Appends};
ghost use Rattle.msc_notes.specs.Texts.{error_text, note_line, note_words, placed_words};
ghost use Rattle.msc_notes.specs.Texts.{stands_at, IsFaultPosition, StandsAt};
ghost use Rattle.msc_place.specs.declared.position.Position.{Position};

use crate::note::{FaultNotes, Note, Tag};
use crate::other_faults::FurtherFaults;
use msc_chart::ChartFault;
use msc_place::writing::{write_place, write_places};
use msc_place::{Lines, Position};
use std::io;
use std::io::Write;

/// The beginning of a text.
const BEGINNING: Position = Position { line: 1, column: 1 };

/// The position of a place; that of one past the text is its end.
fn position_of(lines: &Lines, at: usize) -> Position
    ensures { StandsAt lines.now at result }
{
    lines.position(at.min(lines.text().len()))
}

/// The position of a fault: that of its place, or the beginning of the text if it has none.
fn position_of_fault(lines: &Lines, place: Option<usize>) -> Position
    ensures { IsFaultPosition lines.now place result }
{
    match place {
        Some(at) => position_of(lines, at),
        None => BEGINNING,
    }
}

/// Writes the words of a note: the first, and its text.
fn write_words<W: Write>(writer: &mut W, note: &Note) -> io::Result<()>
    ensures { OnOk result (Appends (W.contents writer.old) (W.contents writer.new)
        (note_words note.now)) }
{
    writer.write_all(note.tag.word().as_bytes())?;
    if !note.text.as_slice().is_empty() {
        writer.write_all(b" ")?;
        writer.write_all(note.text.as_slice())?;
    }
    Ok(())
}

/// Writes a note: its line, and the line of its two places if it has them.
pub fn write_note<W: Write>(
    writer: &mut W,
    file: &[u8],
    lines: &Lines,
    note: &Note,
) -> io::Result<()> {
    write_words(writer, note)?;
    if let Some(at) = note.place {
        writer.write_all(b" ")?;
        write_place(writer, file, position_of(lines, at))?;
    }
    writer.write_all(b"\n")?;
    match note.pair {
        Some((first, second)) => {
            let second = position_of(lines, second);
            write_places(writer, file, position_of(lines, first), second)
        }
        None => Ok(()),
    }
}

/// The place of a note in lines for editors: its own, the first of its two, or that of its fault;
/// the beginning of the text if the fault has none.
fn stands_at(note: &Note, fault: Option<usize>) -> usize
    ensures { result ≡ stands_at note.now.place note.now.pair fault }
{
    match (note.place, note.pair, fault) {
        (Some(at), _, _) => at,
        (None, Some((first, _)), _) => first,
        (None, None, Some(at)) => at,
        (None, None, None) => 0,
    }
}

/// Writes the words of a note whose line begins with its place.
fn write_placed_words<W: Write>(writer: &mut W, note: &Note) -> io::Result<()>
    ensures { OnOk result (Appends (W.contents writer.old) (W.contents writer.new)
        (placed_words note.now.tag note.now)) }
{
    match note.tag {
        Tag::Behind => writer.write_all(b"what stands before ends here"),
        Tag::First => writer.write_all(b"the first one stands here"),
        Tag::Opened => writer.write_all(b"it is opened here"),
        _ => write_words(writer, note),
    }
}

/// Writes a note as a line for editors: its place, the word `note`, and its words. `fault` is the
/// place of the fault, if it has one.
pub fn write_note_line<W: Write>(
    writer: &mut W,
    file: &[u8],
    lines: &Lines,
    note: &Note,
    fault: Option<usize>,
) -> io::Result<()>
    ensures { OnOk result ((p : Position)
        × StandsAt lines.now (stands_at note.now.place note.now.pair fault) p
        × Appends (W.contents writer.old) (W.contents writer.new)
        (note_line file.now p note.now)) }
{
    write_place(writer, file, position_of(lines, stands_at(note, fault)))?;
    writer.write_all(b": note: ")?;
    write_placed_words(writer, note)?;
    writer.write_all(b"\n")
}

/// Writes what precedes the line of a fault for editors: the position of its place, if it has one,
/// and the word `error`.
pub fn write_error<W: Write>(
    writer: &mut W,
    file: &[u8],
    lines: &Lines,
    place: Option<usize>,
) -> io::Result<()>
    ensures { OnOk result ((p : Position) × IsFaultPosition lines.now place p
        × Appends (W.contents writer.old) (W.contents writer.new) (error_text file.now p)) }
{
    write_place(writer, file, position_of_fault(lines, place))?;
    writer.write_all(b": error: ")
}

/// Writes what follows the line of a fault: its place, if it has one, the line of that, as
/// [`msc_place::excerpt`] makes it, or none; and then its notes.
pub fn write_fault_notes<W: Write>(
    writer: &mut W,
    file: &[u8],
    lines: &Lines,
    told: &FaultNotes,
    excerpt: &[u8],
) -> io::Result<()> {
    if let Some(at) = told.place {
        writer.write_all(b"at ")?;
        write_place(writer, file, position_of(lines, at))?;
        writer.write_all(b"\n")?;
        writer.write_all(excerpt)?;
    }
    for note in told.notes.as_slice() {
        write_note(writer, file, lines, note)?;
    }
    Ok(())
}

/// Writes the further faults of a draft, after the notes on its first one. If there are any, these
/// are their number, and for each that is printed its line, which the caller words, its place and
/// its notes.
pub fn write_further<W: Write, F: FnMut(&mut W, ChartFault) -> io::Result<()>>(
    writer: &mut W,
    file: &[u8],
    lines: &Lines,
    further: &FurtherFaults,
    mut write_line: F,
) -> io::Result<()>
    requires { F.IsAlwaysCallable write_line }
{
    if further.count == 0 {
        return Ok(());
    }
    writeln!(writer, "further {}", further.count)?;
    for other in further.first.as_slice() {
        write_line(writer, other.fault)?;
        write_fault_notes(writer, file, lines, &other.told, b"")?;
    }
    Ok(())
}
