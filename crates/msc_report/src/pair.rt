//! The names of events on a command line, and the faults of a pair of them.

ghost use Rattle.std.specs.Prelude.{OnOk};
ghost use Rattle.std.specs.Io.KnownBytes.{Appends};
ghost use Rattle.msc_report.specs.Texts.{event_word, pair_fault_line};

use std::io;
use std::io::Write;

/// The name of an event: its number, from 0, or a line of the text, from 1, for the first event
/// whose statement begins there.
#[derive(Clone, Copy, Debug, PartialEq, Eq)]
pub enum EventName {
    Number(u32),
    Line(u32),
}

/// Why two names are not two events of a chart, or not a race.
#[derive(Clone, Copy, Debug, PartialEq, Eq)]
pub enum NamedFault {
    /// The first name that no event has.
    NoEvent(EventName),
    /// Both names are those of one event.
    OneEvent(EventName, EventName),
    /// The events are no race, and one is required.
    NoRace(EventName, EventName),
}

/// Writes the name of an event.
fn write_name<W: Write>(writer: &mut W, name: EventName) -> io::Result<()>
    ensures { OnOk result (Appends (W.contents writer.old) (W.contents writer.new)
        (event_word name)) }
{
    match name {
        EventName::Number(e) => write!(writer, "{e}"),
        EventName::Line(line) => write!(writer, ":{line}"),
    }
}

/// Writes the line of a name that no event has.
fn write_no_event<W: Write>(writer: &mut W, name: EventName) -> io::Result<()>
    ensures { OnOk result (Appends (W.contents writer.old) (W.contents writer.new)
        (pair_fault_line (NamedFault.NoEvent name))) }
{
    writer.write_all(b"pair fault 1: no event ")?;
    write_name(writer, name)?;
    writer.write_all(b"\n")
}

/// Writes the line of two names of one event.
fn write_one_event<W: Write>(writer: &mut W, e: EventName, f: EventName) -> io::Result<()>
    ensures { OnOk result (Appends (W.contents writer.old) (W.contents writer.new)
        (pair_fault_line (NamedFault.OneEvent e f))) }
{
    writer.write_all(b"pair fault 2: ")?;
    write_name(writer, e)?;
    writer.write_all(b" and ")?;
    write_name(writer, f)?;
    writer.write_all(b" are one event\n")
}

/// Writes the line of two names of events that are no race.
fn write_no_race<W: Write>(writer: &mut W, e: EventName, f: EventName) -> io::Result<()>
    ensures { OnOk result (Appends (W.contents writer.old) (W.contents writer.new)
        (pair_fault_line (NamedFault.NoRace e f))) }
{
    writer.write_all(b"pair fault 3: ")?;
    write_name(writer, e)?;
    writer.write_all(b" ")?;
    write_name(writer, f)?;
    writer.write_all(b" is no race\n")
}

/// Writes the line of the fault of two names.
pub fn write_pair_fault<W: Write>(writer: &mut W, fault: NamedFault) -> io::Result<()>
    ensures { OnOk result (Appends (W.contents writer.old) (W.contents writer.new)
        (pair_fault_line fault)) }
{
    match fault {
        NamedFault::NoEvent(name) => write_no_event(writer, name),
        NamedFault::OneEvent(e, f) => write_one_event(writer, e, f),
        NamedFault::NoRace(e, f) => write_no_race(writer, e, f),
    }
}
