//! The lines of answers on ready instances: whether a system of them can stick, and how.

ghost use Rattle.std.specs.Prelude.{◌≡◌, ◌<◌, ◌++◌, Bool, IsTrue, List, OnOk, Some, length};
ghost use Rattle.std.specs.Prelude.{option_map};
ghost use Rattle.std.specs.Io.KnownBytes.{Appends};
ghost use Rattle.std.specs.Option.{option_copied};
ghost use Rattle.msc_chart.specs.Charts.{is_input};
ghost use Rattle.msc_chart.specs.Drawings.{Drawing};
ghost use Rattle.msc_reason.specs.Named.{AreEventsOf};
ghost use Rattle.msc_report.specs.EventTexts.{AreTextsOf};
ghost use Rattle.msc_report.specs.ReadyFormats.{ready_behind, ready_left, ready_run, ready_stick};
ghost use Rattle.msc_report.specs.BlockedPairs.{bare_stick, behind_line, coming_text};
ghost use Rattle.msc_report.specs.BlockedPairs.{finishing_line};
ghost use Rattle.msc_report.specs.BlockedPairs.{left_race, owner_text, ready_head};
ghost use Rattle.msc_report.specs.BlockedPairs.{ready_line, ready_name, ready_names, stick_lines};
ghost use Rattle.msc_report.specs.BlockedPairs.{told_pair};
ghost use Rattle.msc_report.specs.BlockedPairs.{waits_line, waits_text};
ghost use Rattle.msc_report.specs.Styles.{run_text};

use crate::editor::{Editor, PairKind};
use crate::event_texts::EventTexts;
use crate::lines::{print_placed_pair, print_places};
use crate::links::write_queues;
use crate::names::EventNames;
use crate::race::{write_events, write_instance, write_pair_place, write_signal};
use crate::ready_format::ReadyFormat;
use crate::reasons::write_run_in;
use crate::style::{Style, write_at};
use crate::verdict::write_name_line;
use msc_chart::{Chart, Event, Queues};
use msc_place::EventPositions;
use msc_print::Page;
use std::alloc::AllocError;
use std::io;
use std::io::Write;

/// Writes the name of an instance, if it is ready.
fn write_ready_name<W: Write>(
    writer: &mut W,
    chart: &Chart,
    lines: &[bool],
    i: u32,
) -> io::Result<()>
    requires known { i < length chart.now.instances }
    requires lines { length lines.now ≡ length chart.now.instances }
    ensures { OnOk result (Appends (W.contents writer.old) (W.contents writer.new)
        (ready_name chart.now lines.now i)) }
{
    if !lines[i as usize] {
        return Ok(());
    }
    writer.write_all(b" ")?;
    write_instance(writer, chart, i)
}

/// Writes the names of the instances that are ready, in their order.
fn write_ready_names<W: Write>(writer: &mut W, chart: &Chart, lines: &[bool]) -> io::Result<()>
    requires { length lines.now ≡ length chart.now.instances }
    ensures { OnOk result (Appends (W.contents writer.old) (W.contents writer.new)
        (ready_names chart.now lines.now (length chart.now.instances))) }
{
    for i in 0..chart.instances() {
        write_ready_name(writer, chart, lines, i)?;
    }
    Ok(())
}

/// Writes the line of the ready instances, if not all are.
fn write_ready_line<W: Write>(
    writer: &mut W,
    chart: &Chart,
    lines: Option<&[bool]>,
) -> io::Result<()>
    requires { (l : List Bool) → option_copied lines ≡ Some l
        → length l ≡ length chart.now.instances }
    ensures { OnOk result (Appends (W.contents writer.old) (W.contents writer.new)
        (ready_line chart.now (option_copied lines.entry))) }
{
    match lines {
        Some(lines) => {
            writer.write_all(b"ready")?;
            write_ready_names(writer, chart, lines)?;
            writer.write_all(b"\n")
        }
        None => Ok(()),
    }
}

/// Writes whether a system with `count` sticks finishes, may stick, or never finishes.
fn write_finishing<W: Write>(writer: &mut W, count: u32, may: bool) -> io::Result<()>
    ensures { OnOk result (Appends (W.contents writer.old) (W.contents writer.new)
        (finishing_line count may)) }
{
    if count == 0 {
        return writer.write_all(b"finishes\n");
    }
    if may {
        return writeln!(writer, "may stick {count}");
    }
    writeln!(writer, "never finishes {count}")
}

/// Writes the lines that precede the sticks: the chart's name, the architecture, the ready
/// instances, if not all are, and whether a system with `count` sticks finishes, may stick, or
/// never finishes.
pub fn write_ready_head<W: Write>(
    writer: &mut W,
    chart: &Chart,
    queues: Queues,
    lines: Option<&[bool]>,
    count: u32,
    may: bool,
) -> io::Result<()>
    requires { (l : List Bool) → option_copied lines ≡ Some l
        → length l ≡ length chart.now.instances }
    ensures { OnOk result (Appends (W.contents writer.old) (W.contents writer.new)
        (ready_head chart.now queues (option_copied lines.entry) count may)) }
{
    write_name_line(writer, chart)?;
    write_queues(writer, chart, &queues)?;
    write_ready_line(writer, chart, lines)?;
    write_finishing(writer, count, may)
}

/// Writes a word, two events of one line, the name of their instance, what both of them do, and
/// their places, if places are printed.
pub(crate) fn write_told_pair<W: Write>(
    writer: &mut W,
    chart: &Chart,
    event_positions: Option<&EventPositions<'_>>,
    word: &str,
    e: Event,
    f: Event,
) -> io::Result<()>
    requires e_known { e < length chart.now.events }
    requires f_known { f < length chart.now.events }
    ensures { OnOk result (Appends (W.contents writer.old) (W.contents writer.new)
        (told_pair (option_map (λ s. s.now) event_positions.entry) word.now chart.now e f)) }
{
    write_pair_place(writer, chart, word, e, f)?;
    writer.write_all(b": ")?;
    write_events(writer, chart, e, f)?;
    write_at(writer, event_positions, "", e, f)
}

/// Appends a word, two events of one line, the name of their instance, what both of them do, and
/// their places, if places are printed.
pub(crate) fn print_told_pair(
    page: &mut Page,
    texts: &EventTexts,
    event_positions: Option<&EventPositions<'_>>,
    word: &str,
    e: Event,
    f: Event,
) -> Result<(), AllocError>
    requires e_known { e < length texts.now }
    requires f_known { f < length texts.now }
    ensures { (d : Drawing) → AreTextsOf d texts.now
        → OnOk result (page.new.bytes.items ≡ page.old.bytes.items
        ++ told_pair (option_map (λ s. s.now) event_positions.entry) word.now d e f) }
{
    texts.print_told(page, word, e, f)?;
    print_places(page, event_positions, e, f)
}

/// Writes the message of an input, and its sender.
fn write_coming<W: Write>(writer: &mut W, chart: &Chart, e: Event) -> io::Result<()>
    requires { IsTrue (is_input chart.now.events e) }
    ensures { OnOk result (Appends (W.contents writer.old) (W.contents writer.new)
        (coming_text chart.now e)) }
{
    write_signal(writer, chart, e, b"", b" from ")
}

/// Writes the name of the instance of an input.
fn write_owner<W: Write>(writer: &mut W, chart: &Chart, e: Event) -> io::Result<()>
    requires { IsTrue (is_input chart.now.events e) }
    ensures { OnOk result (Appends (W.contents writer.old) (W.contents writer.new)
        (owner_text chart.now e)) }
{
    chart.facts();
    write_instance(writer, chart, chart.instance_of(e))
}

/// Writes what the instance of two inputs waits for, and the message that precedes it in its queue.
pub(crate) fn write_waits<W: Write>(
    writer: &mut W,
    chart: &Chart,
    e: Event,
    f: Event,
) -> io::Result<()>
    requires e_input { IsTrue (is_input chart.now.events e) }
    requires f_input { IsTrue (is_input chart.now.events f) }
    ensures { OnOk result (Appends (W.contents writer.old) (W.contents writer.new)
        (waits_line chart.now e f)) }
{
    write_owner(writer, chart, e)?;
    writer.write_all(b" waits for ")?;
    write_coming(writer, chart, e)?;
    writer.write_all(b"; in its queue ")?;
    write_coming(writer, chart, f)?;
    writer.write_all(b" stands first\n")
}

/// Appends what the instance of two inputs waits for, if answers are in words.
pub(crate) fn print_waits(
    page: &mut Page,
    chart: &Chart,
    words: bool,
    e: Event,
    f: Event,
) -> Result<(), AllocError>
    requires e_input { IsTrue (is_input chart.now.events e) }
    requires f_input { IsTrue (is_input chart.now.events f) }
    ensures { OnOk result (page.new.bytes.items
        ≡ page.old.bytes.items ++ waits_text words chart.now e f) }
{
    if !words {
        return Ok(());
    }
    match write_waits(page, chart, e, f) {
        Ok(()) => Ok(()),
        Err(_) => Err(AllocError),
    }
}

/// The events of a chart, by their numbers, with their texts.
#[derive(Clone, Copy)]
pub struct OneRound<'c> {
    pub chart: &'c Chart,
    pub texts: &'c EventTexts,
    ghost made: { AreTextsOf chart.now texts.now },
}

impl OneRound<'_> {
    /// Appends a stick and its two outputs, with their places, if places are printed.
    fn print_blocked_pair_lines(
        &self,
        page: &mut Page,
        event_positions: Option<&EventPositions<'_>>,
        e: Event,
        f: Event,
    ) -> Result<(), AllocError>
        requires e_known { e < length self.now.chart.now.events }
        requires f_known { f < length self.now.chart.now.events }
        ensures { OnOk result (page.new.bytes.items ≡ page.old.bytes.items
            ++ stick_lines (option_map (λ s. s.now) event_positions.entry) self.now.chart.now e f) }
    {
        self.chart.facts();
        print_told_pair(page, self.texts, event_positions, "stick", e, f)?;
        let (s, t) = (self.chart.other_end(e), self.chart.other_end(f));
        print_placed_pair(page, self.texts, event_positions, "needs", s, t)
    }

    /// Appends a stick, two inputs of one line, in a style, without what shows it.
    fn print_stick(
        &self,
        page: &mut Page,
        style: Style<'_>,
        e: Event,
        f: Event,
    ) -> Result<(), AllocError>
        requires e_input { IsTrue (is_input self.now.chart.now.events e) }
        requires f_input { IsTrue (is_input self.now.chart.now.events f) }
        ensures { OnOk result (page.new.bytes.items
            ≡ page.old.bytes.items ++ bare_stick style.entry self.now.chart.now e f) }
    {
        self.print_blocked_pair_lines(page, style.event_positions, e, f)?;
        print_waits(page, self.chart, style.words, e, f)
    }

    /// Appends the line of the stick that is ahead of another.
    fn print_ahead(&self, page: &mut Page, ahead: (Event, Event)) -> Result<(), AllocError>
        requires first { ahead.0 < length self.now.chart.now.events }
        requires second { ahead.1 < length self.now.chart.now.events }
        ensures { OnOk result (page.new.bytes.items ≡ page.old.bytes.items ++ behind_line ahead) }
    {
        page.bytes.extend_from_slice(b"behind")?;
        page.bytes.extend_from_slice(self.texts.number(ahead.0))?;
        page.bytes.extend_from_slice(self.texts.number(ahead.1))?;
        page.bytes.extend_from_slice(b"\n")
    }

    /// Appends a run: by the numbers of its events, or in words, a line for each.
    fn print_run_in(&self, page: &mut Page, words: bool, run: &[Event]) -> Result<(), AllocError>
        requires { AreEventsOf self.now.chart.now run.now }
        ensures { OnOk result (page.new.bytes.items
            ≡ page.old.bytes.items ++ run_text words self.now.chart.now run.now) }
    {
        match write_run_in(page, self.chart, words, run) {
            Ok(()) => Ok(()),
            Err(_) => Err(AllocError),
        }
    }

    /// Appends a race that is left in a style: with its place, if places are printed.
    fn print_race(
        &self,
        page: &mut Page,
        style: Style<'_>,
        e: Event,
        f: Event,
    ) -> Result<(), AllocError>
        requires e_known { e < length self.now.chart.now.events }
        requires f_known { f < length self.now.chart.now.events }
        ensures { OnOk result (page.new.bytes.items
            ≡ page.old.bytes.items ++ left_race style.entry self.now.chart.now (e, f)) }
    {
        self.texts.print_race(&mut page.bytes, e, f)?;
        print_places(page, style.event_positions, e, f)
    }

    /// Appends a race that is left, in a format. The only error is want of memory.
    pub fn print_left_race(
        &self,
        page: &mut Page,
        format: ReadyFormat<'_>,
        race: (Event, Event),
    ) -> Result<(), AllocError>
        requires first { race.0 < length self.now.chart.now.events }
        requires second { race.1 < length self.now.chart.now.events }
        ensures { OnOk result (page.new.bytes.items
            ≡ page.old.bytes.items ++ ready_left format.entry self.now.chart.now race) }
    {
        let (e, f) = race;
        match format {
            ReadyFormat::Lines(style) => self.print_race(page, style, e, f),
            ReadyFormat::Count(_) => Ok(()),
            ReadyFormat::Editor(event_positions) => {
                let editor = Editor { event_positions };
                editor.print_pair(page, self.chart, "race", e, f, PairKind::Left)
            }
        }
    }
}

impl EventNames for OneRound<'_> {
    ghost drawing = { λ s. s.chart.now };

    ghost stick_text = { λ s format p. ready_stick format s.chart.now p };

    ghost behind_text = { λ s format p. ready_behind format p };

    ghost run_lines = { λ s format run. ready_run format s.chart.now run };

    fn print_blocked_pair(
        &self,
        page: &mut Page,
        format: ReadyFormat<'_>,
        stick: (Event, Event),
    ) -> Result<(), AllocError> {
        let (e, f) = stick;
        match format {
            ReadyFormat::Lines(style) => self.print_stick(page, style, e, f),
            ReadyFormat::Count(_) => Ok(()),
            ReadyFormat::Editor(event_positions) => {
                let editor = Editor { event_positions };
                editor.print_pair(page, self.chart, "stick", e, f, PairKind::Stick)
            }
        }
    }

    fn print_behind(
        &self,
        page: &mut Page,
        format: ReadyFormat<'_>,
        ahead: (Event, Event),
    ) -> Result<(), AllocError> {
        match format {
            ReadyFormat::Lines(_) => self.print_ahead(page, ahead),
            ReadyFormat::Count(_) => Ok(()),
            ReadyFormat::Editor(_) => Ok(()),
        }
    }

    fn print_run(
        &self,
        page: &mut Page,
        format: ReadyFormat<'_>,
        run: &[Event],
    ) -> Result<(), AllocError> {
        match format {
            ReadyFormat::Lines(style) => self.print_run_in(page, style.words, run),
            ReadyFormat::Count(_) => Ok(()),
            ReadyFormat::Editor(_) => Ok(()),
        }
    }
}
