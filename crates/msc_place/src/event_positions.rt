//! The places of the events of a text, as answers show them.

ghost use Rattle.std.specs.Prelude.{◌≡◌, ◌≤◌, IfOk, OnOk, length, map};
ghost use Rattle.std.specs.Io.KnownBytes.{Appends};
ghost use Rattle.msc_parser.specs.Grammar.{Tree};
ghost use Rattle.msc_parser.specs.Parsing.{HasDraft};
ghost use Rattle.msc_place.specs.EventPositions.{event_position_line, event_position_of};
ghost use Rattle.msc_place.specs.EventPositions.{event_position_text, event_positions_in};
ghost use Rattle.msc_place.specs.EventPositions.{event_positions_line, AreEventPositions};
ghost use Rattle.msc_place.specs.Texts.{shown_byte};

use crate::index::Lines;
use crate::places::Places;
use crate::position::Position;
use crate::writing::{is_plain, write_file, write_position};
use std::alloc::{AllocError, Global};
use std::io;
use std::io::Write;
use std::marker::Model;

/// The file of a text, and the positions at which the statements of its events begin. Contracts see
/// these two.
#[derive(Drop)]
pub struct EventPositions<'f> {
    file: &'f [u8],
    /// Whether each byte of the file's name is shown as it is; this is found once.
    plain: bool,
    positions: Vec<Position>,
}

impl<'f> Model for EventPositions<'f> {
    ghost use Rattle.msc_place.specs.EventPositions.{EventPositionsIn, event_positions_in};

    ghost Value = { EventPositionsIn };

    ghost use Rattle.std.specs.Prelude.{◌≡◌, IsTrue, map};
    ghost use Rattle.msc_place.specs.Texts.{shown_byte};

    ghost view = { λ s. event_positions_in s.file.now s.positions.items };

    ghost invariant = { λ s. IsTrue s.plain → map shown_byte s.file.now ≡ s.file.now };
}

/// The position of an event without a place: the beginning of the text.
const BEGINNING: Position = Position { line: 1, column: 1 };

impl<'f> EventPositions<'f> {
    /// The places of the events of the text of a file of this name. The only error is want of
    /// memory.
    pub fn of(alloc: Global, file: &'f [u8], text: &[u8]) -> Result<EventPositions<'f>, AllocError>
        ensures file { IfOk result (λ event_positions. event_positions.file ≡ file.entry.now) }
        ensures positions { IfOk result (λ event_positions. (t : Tree) → HasDraft text.now t
            → AreEventPositions text.now t event_positions.positions) }
    {
        let places = Places::of(alloc, text)?;
        let lines = Lines::of(alloc, text)?;
        let positions = places.positions(alloc, &lines)?;
        Ok(EventPositions::at(file, positions))
    }

    /// The places of events in the text of a file of this name, by the positions at which they
    /// begin.
    pub fn at(file: &'f [u8], positions: Vec<Position>) -> EventPositions<'f>
        ensures { result ≡ event_positions_in file.now positions.items }
    {
        EventPositions {
            file,
            plain: is_plain(file),
            positions,
        }
    }

    /// The position of the statement of event `e`; the beginning of the text if there is no such
    /// event. It takes no memory.
    pub fn position(&self, e: u32) -> Position
        ensures { result ≡ event_position_of self.now e }
    {
        self.positions.get(e as usize).copied().unwrap_or(BEGINNING)
    }

    /// Writes the name of the file.
    fn write_file<W: Write>(&self, writer: &mut W) -> io::Result<()>
        ensures { OnOk result (Appends (W.contents writer.old) (W.contents writer.new)
            (map shown_byte self.now.file)) }
    {
        if self.plain {
            return writer.write_all(self.file);
        }
        write_file(writer, self.file)
    }

    /// Writes the place of event `e`.
    pub fn write_event_position<W: Write>(&self, writer: &mut W, e: u32) -> io::Result<()>
        ensures { OnOk result (Appends (W.contents writer.old) (W.contents writer.new)
            (event_position_text self.now e)) }
    {
        self.write_file(writer)?;
        write_position(writer, self.position(e))
    }

    /// Writes the line of the place of event `e`.
    pub fn write_event_position_line<W: Write>(&self, writer: &mut W, e: u32) -> io::Result<()>
        ensures { OnOk result (Appends (W.contents writer.old) (W.contents writer.new)
            (event_position_line self.now e)) }
    {
        writer.write_all(b"at ")?;
        self.write_event_position(writer, e)?;
        writer.write_all(b"\n")
    }

    /// Writes the line of the places of two events.
    pub fn write_event_positions_line<W: Write>(
        &self,
        writer: &mut W,
        e: u32,
        f: u32,
    ) -> io::Result<()>
        ensures { OnOk result (Appends (W.contents writer.old) (W.contents writer.new)
            (event_positions_line self.now e f)) }
    {
        writer.write_all(b"at ")?;
        self.write_event_position(writer, e)?;
        writer.write_all(b" ")?;
        self.write_event_position(writer, f)?;
        writer.write_all(b"\n")
    }
}
