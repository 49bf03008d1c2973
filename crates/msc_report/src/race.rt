//! The text of one race.

ghost use Rattle.std.specs.Prelude.{◌≡◌, ◌<◌, ◌++◌, false, OnOk, Some, length, option_map};
ghost use Rattle.std.specs.Io.KnownBytes.{Appends};
ghost use Rattle.std.specs.List.{flat_map};
ghost use Rattle.std.specs.Option.{option_copied};
ghost use Rattle.msc_chart.specs.Charts.{is_local, line, message, partner};
ghost use Rattle.msc_chart.specs.Drawings.{message_at};
ghost use Rattle.msc_report.specs.Verdicts.{action_text, event_at, event_text, instance_text};
ghost use Rattle.msc_report.specs.Verdicts.{message_text, number_text, pair_place, race_events};
ghost use Rattle.msc_report.specs.Verdicts.{race_text, run_line, shown_byte, spaced};

use itoa::Buffer;
use msc_chart::{Chart, Event};
use std::io;
use std::io::Write;

/// Writes a message instance name after a comma, if there is one.
fn write_number<W: Write>(writer: &mut W, number: Option<&[u8]>) -> io::Result<()>
    ensures { OnOk result (Appends (W.contents writer.old) (W.contents writer.new)
        (number_text (option_copied number.entry))) }
{
    match number {
        Some(number) => {
            writer.write_all(b", ")?;
            writer.write_all(number)
        }
        None => Ok(()),
    }
}

/// Writes the name of message `m`.
fn write_message<W: Write>(writer: &mut W, chart: &Chart, m: u32) -> io::Result<()>
    requires { m < length chart.now.messages }
    ensures { OnOk result (Appends (W.contents writer.old) (W.contents writer.new)
        (message_text (message_at chart.now m))) }
{
    writer.write_all(chart.message_name(m))?;
    write_number(writer, chart.message_number(m))
}

/// Writes the name of an instance.
pub(crate) fn write_instance<W: Write>(writer: &mut W, chart: &Chart, i: u32) -> io::Result<()>
    requires { i < length chart.now.instances }
    ensures { OnOk result (Appends (W.contents writer.old) (W.contents writer.new)
        (instance_text chart.now i)) }
{
    writer.write_all(chart.instance_name(i))
}

/// The instance at the other end of the message of event `e`.
fn address_of(chart: &Chart, e: Event) -> u32
    requires { e < length chart.now.events }
    ensures value { result ≡ line chart.now.events (partner chart.now.events e) }
    ensures known { result < length chart.now.instances }
{
    chart.facts();
    chart.instance_of(chart.other_end(e))
}

/// Writes an event by its words, its message and the instance at the other end.
pub(crate) fn write_signal<W: Write>(
    writer: &mut W,
    chart: &Chart,
    e: Event,
    way: &[u8],
    preposition: &[u8],
) -> io::Result<()>
    requires known { e < length chart.now.events }
    requires message { is_local chart.now.events e ≡ false }
    ensures { OnOk result (Appends (W.contents writer.old) (W.contents writer.new)
        (way.now ++ (message_text (message_at chart.now (message chart.now.events e))
        ++ (preposition.now
        ++ instance_text chart.now (line chart.now.events (partner chart.now.events e)))))) }
{
    writer.write_all(way)?;
    write_message(writer, chart, chart.message_of(e))?;
    writer.write_all(preposition)?;
    write_instance(writer, chart, address_of(chart, e))
}

/// Writes an output or an input in the words of its statement.
fn write_message_end<W: Write>(writer: &mut W, chart: &Chart, e: Event) -> io::Result<()>
    requires known { e < length chart.now.events }
    requires message { is_local chart.now.events e ≡ false }
    ensures { OnOk result (Appends (W.contents writer.old) (W.contents writer.new)
        (event_text chart.now e)) }
{
    if chart.is_output(e) {
        write_signal(writer, chart, e, b"out ", b" to ")
    } else {
        write_signal(writer, chart, e, b"in ", b" from ")
    }
}

/// Writes a byte of an action's text: an apostrophe doubled, and a question mark for a byte that is
/// neither a visible character of ASCII nor a space.
fn write_byte<W: Write>(writer: &mut W, byte: u8) -> io::Result<()>
    ensures { OnOk result (Appends (W.contents writer.old) (W.contents writer.new)
        (shown_byte byte)) }
{
    if byte == b'\'' {
        return writer.write_all(b"''");
    }
    if byte < 32 || byte > 126 {
        return writer.write_all(b"?");
    }
    writer.write_all(&[byte])
}

/// Writes the bytes of an action's text.
fn write_label<W: Write>(writer: &mut W, label: &[u8]) -> io::Result<()>
    ensures { OnOk result (Appends (W.contents writer.old) (W.contents writer.new)
        (flat_map shown_byte label.now)) }
{
    for byte in label {
        write_byte(writer, *byte)?;
    }
    Ok(())
}

/// Writes an action by its text.
fn write_action<W: Write>(writer: &mut W, label: &[u8]) -> io::Result<()>
    ensures { OnOk result (Appends (W.contents writer.old) (W.contents writer.new)
        (action_text label.now)) }
{
    writer.write_all(b"action '")?;
    write_label(writer, label)?;
    writer.write_all(b"'")
}

/// Writes what event `e` does, in the words of its statement.
pub(crate) fn write_event<W: Write>(writer: &mut W, chart: &Chart, e: Event) -> io::Result<()>
    requires { e < length chart.now.events }
    ensures { OnOk result (Appends (W.contents writer.old) (W.contents writer.new)
        (event_text chart.now e)) }
{
    match chart.label(e) {
        Some(label) => write_action(writer, label),
        None => write_message_end(writer, chart, e),
    }
}

/// Writes event `e` with the name of its instance.
pub fn write_event_at<W: Write>(writer: &mut W, chart: &Chart, e: Event) -> io::Result<()>
    requires { e < length chart.now.events }
    ensures { OnOk result (Appends (W.contents writer.old) (W.contents writer.new)
        (event_at chart.now e)) }
{
    chart.facts();
    write_instance(writer, chart, chart.instance_of(e))?;
    writer.write_all(b" ")?;
    write_event(writer, chart, e)
}

/// Writes numbers with a space before each.
pub(crate) fn write_numbers<W: Write>(writer: &mut W, numbers: &[u32]) -> io::Result<()>
    ensures { OnOk result (Appends (W.contents writer.old) (W.contents writer.new)
        (flat_map spaced numbers.now)) }
{
    let mut digits = Buffer::new();
    for number in numbers {
        writer.write_all(b" ")?;
        writer.write_all(digits.format(*number).as_bytes())?;
    }
    Ok(())
}

/// Writes the line of a run: its events.
pub fn write_run<W: Write>(writer: &mut W, run: &[Event]) -> io::Result<()>
    ensures { OnOk result (Appends (W.contents writer.old) (W.contents writer.new)
        (run_line (Some run.now))) }
{
    writer.write_all(b"run")?;
    write_numbers(writer, run)?;
    writer.write_all(b"\n")
}

/// Writes a word, two events of one line, and the name of their instance.
pub(crate) fn write_pair_place<W: Write>(
    writer: &mut W,
    chart: &Chart,
    word: &str,
    e: Event,
    f: Event,
) -> io::Result<()>
    requires { e < length chart.now.events }
    ensures { OnOk result (Appends (W.contents writer.old) (W.contents writer.new)
        (pair_place word.now chart.now e f)) }
{
    chart.facts();
    let mut digits = Buffer::new();
    writer.write_all(word.as_bytes())?;
    writer.write_all(b" ")?;
    writer.write_all(digits.format(e).as_bytes())?;
    writer.write_all(b" ")?;
    writer.write_all(digits.format(f).as_bytes())?;
    writer.write_all(b" on ")?;
    write_instance(writer, chart, chart.instance_of(e))
}

/// Writes what two events do, to the end of the line.
pub(crate) fn write_events<W: Write>(
    writer: &mut W,
    chart: &Chart,
    e: Event,
    f: Event,
) -> io::Result<()>
    requires e_known { e < length chart.now.events }
    requires f_known { f < length chart.now.events }
    ensures { OnOk result (Appends (W.contents writer.old) (W.contents writer.new)
        (race_events chart.now e f)) }
{
    write_event(writer, chart, e)?;
    writer.write_all(b"; ")?;
    write_event(writer, chart, f)?;
    writer.write_all(b"\n")
}

/// Writes the line of a run, if one is shown.
fn write_shown<W: Write>(writer: &mut W, run: Option<&[Event]>) -> io::Result<()>
    ensures { OnOk result (Appends (W.contents writer.old) (W.contents writer.new)
        (run_line (option_map (λ r. r.now) run.entry))) }
{
    match run {
        Some(run) => write_run(writer, run),
        None => Ok(()),
    }
}

/// Writes the race of `e` and `f`, two events of one line: their numbers, the instance's name and
/// what they do; and below it a run that shows it, if one is given.
pub fn write_race<W: Write>(
    writer: &mut W,
    chart: &Chart,
    e: Event,
    f: Event,
    run: Option<&[Event]>,
) -> io::Result<()>
    requires e_known { e < length chart.now.events }
    requires f_known { f < length chart.now.events }
    ensures { OnOk result (Appends (W.contents writer.old) (W.contents writer.new)
        (race_text chart.now e f (option_map (λ r. r.now) run.entry))) }
{
    write_pair_place(writer, chart, "race", e, f)?;
    writer.write_all(b": ")?;
    write_events(writer, chart, e, f)?;
    write_shown(writer, run)
}
