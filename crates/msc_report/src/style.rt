//! How answers print events, besides their numbers.

ghost use Rattle.std.specs.Prelude.{OnOk, option_map};
ghost use Rattle.std.specs.Io.KnownBytes.{Appends};
ghost use Rattle.msc_report.specs.Styles.{at_text, event_position_text};

use msc_chart::Event;
use msc_place::EventPositions;
use std::io;
use std::io::Write;

/// How answers print events, besides their numbers.
#[derive(Clone, Copy)]
pub struct Style<'s> {
    /// The places of the events of the text, if places are printed.
    pub event_positions: Option<&'s EventPositions<'s>>,
    /// Whether a run is printed in words, a line for each of its events.
    pub words: bool,
}

impl Style<'_> {
    /// Only by their numbers.
    pub const PLAIN: Style<'static> = Style {
        event_positions: None,
        words: false,
    };
}

/// Writes the line of the places of two events after `blanks`, if places are printed.
pub(crate) fn write_at<W: Write>(
    writer: &mut W,
    event_positions: Option<&EventPositions<'_>>,
    blanks: &str,
    e: Event,
    f: Event,
) -> io::Result<()>
    ensures { OnOk result (Appends (W.contents writer.old) (W.contents writer.new)
        (at_text (option_map (λ s. s.now) event_positions.entry) blanks.now e f)) }
{
    match event_positions {
        Some(event_positions) => {
            writer.write_all(blanks.as_bytes())?;
            event_positions.write_event_positions_line(writer, e, f)
        }
        None => Ok(()),
    }
}

/// Writes the line of the place of an event, if places are printed.
pub(crate) fn write_event_position<W: Write>(
    writer: &mut W,
    event_positions: Option<&EventPositions<'_>>,
    e: Event,
) -> io::Result<()>
    ensures { OnOk result (Appends (W.contents writer.old) (W.contents writer.new)
        (event_position_text (option_map (λ s. s.now) event_positions.entry) e)) }
{
    match event_positions {
        Some(event_positions) => event_positions.write_event_position_line(writer, e),
        None => Ok(()),
    }
}
