//! The renderer of lines: the head of a verdict, and for each race a line, why it is one if
//! requested, and the run that shows it.

ghost use Rattle.std.specs.Prelude.{◌≡◌, ◌<◌, [], ◌++◌, IfOk, MatchOption, None, OnOk, Some};
ghost use Rattle.std.specs.Prelude.{length};
ghost use Rattle.std.specs.Prelude.{option_map, List};
ghost use Rattle.std.specs.Io.KnownBytes.{Appends};
ghost use Rattle.std.specs.List.{All};
ghost use Rattle.msc_chart.specs.Drawings.{Drawing};
ghost use Rattle.msc_place.specs.EventPositions.{event_positions_line};
ghost use Rattle.msc_report.specs.EventTexts.{AreTextsOf, EventText};
ghost use Rattle.msc_report.specs.Fitting.{ArePlacesIn, FitsLines};
ghost use Rattle.msc_report.specs.Lines.{accepted_line, both_at, closest_line, finding_text};
ghost use Rattle.msc_report.specs.Lines.{heading_text};
ghost use Rattle.msc_report.specs.Lines.{kind_line};
ghost use Rattle.msc_report.specs.Lines.{cause_text, left_out_line, pair_line, pair_text, why_text};
ghost use Rattle.msc_report.specs.Stale.{stale_lines};
ghost use Rattle.msc_report.specs.Styles.{at_text, run_text, event_positions_in, steps_text};
ghost use Rattle.msc_report.specs.Verdicts.{race_text, run_line};
ghost use Rattle.msc_reason.specs.Named.{NamesCause};

use crate::event_position_texts::EventPositionTexts;
use crate::event_texts::EventTexts;
use crate::race::{write_event_at, write_race, write_run};
use crate::stale::write_stale_lines;
use crate::style::{Style, write_at};
use crate::trace::write_steps;
use crate::verdict::write_head;
use itoa::Buffer;
use msc_chart::{Chart, Event};
use msc_judge::{Finding, Heading, Renderer, Totals};
use msc_place::EventPositions;
use msc_print::Page;
use msc_reason::Cause;
use std::alloc::{AllocError, Global};
use std::io;
use std::io::Write;

/// Writes the line of a race's kind.
pub(crate) fn write_kind<W: Write>(writer: &mut W, cause: &Cause) -> io::Result<()>
    ensures { OnOk result (Appends (W.contents writer.old) (W.contents writer.new)
        (kind_line cause.now)) }
{
    writer.write_all(b"kind ")?;
    writer.write_all(cause.kind.word().as_bytes())?;
    if cause.always {
        writer.write_all(b" always")?;
    }
    writer.write_all(b"\n")
}

/// Writes what two events do on their lines, to the end of a line.
pub(crate) fn write_both_at<W: Write>(
    writer: &mut W,
    chart: &Chart,
    e: Event,
    f: Event,
) -> io::Result<()>
    requires e_known { e < length chart.now.events }
    requires f_known { f < length chart.now.events }
    ensures { OnOk result (Appends (W.contents writer.old) (W.contents writer.new)
        (both_at chart.now e f)) }
{
    write_event_at(writer, chart, e)?;
    writer.write_all(b"; ")?;
    write_event_at(writer, chart, f)?;
    writer.write_all(b"\n")
}

/// Writes a line that names two events: a word, their numbers, and what both of them do.
pub(crate) fn write_pair<W: Write>(
    writer: &mut W,
    chart: &Chart,
    word: &str,
    e: Event,
    f: Event,
) -> io::Result<()>
    requires e_known { e < length chart.now.events }
    requires f_known { f < length chart.now.events }
    ensures { OnOk result (Appends (W.contents writer.old) (W.contents writer.new)
        (pair_line word.now chart.now e f)) }
{
    let mut digits = Buffer::new();
    writer.write_all(word.as_bytes())?;
    writer.write_all(b" ")?;
    writer.write_all(digits.format(e).as_bytes())?;
    writer.write_all(b" ")?;
    writer.write_all(digits.format(f).as_bytes())?;
    writer.write_all(b": ")?;
    write_both_at(writer, chart, e, f)
}

/// Writes such a line, and the line of their places after the same blanks, if places are printed.
pub(crate) fn write_placed_pair<W: Write>(
    writer: &mut W,
    chart: &Chart,
    event_positions: Option<&EventPositions<'_>>,
    blanks: &str,
    word: &str,
    e: Event,
    f: Event,
) -> io::Result<()>
    requires e_known { e < length chart.now.events }
    requires f_known { f < length chart.now.events }
    ensures { OnOk result (Appends (W.contents writer.old) (W.contents writer.new)
        (pair_text (option_map (λ s. s.now) event_positions.entry) blanks.now word.now chart.now e f)) }
{
    writer.write_all(blanks.as_bytes())?;
    write_pair(writer, chart, word, e, f)?;
    write_at(writer, event_positions, blanks, e, f)
}

/// Writes why a pair is a race.
pub(crate) fn write_why<W: Write>(
    writer: &mut W,
    chart: &Chart,
    cause: &Cause,
    event_positions: Option<&EventPositions<'_>>,
) -> io::Result<()>
    requires needed { cause.now.needed < length chart.now.events }
    requires output { cause.now.output < length chart.now.events }
    ensures { OnOk result (Appends (W.contents writer.old) (W.contents writer.new)
        (why_text (option_map (λ s. s.now) event_positions.entry) chart.now cause.now)) }
{
    write_kind(writer, cause)?;
    write_placed_pair(
        writer,
        chart,
        event_positions,
        "",
        "needs",
        cause.needed,
        cause.output,
    )
}

/// Writes how many races do not count, if kinds are left out.
fn write_left_out<W: Write>(writer: &mut W, count: Option<u32>) -> io::Result<()>
    ensures { OnOk result (Appends (W.contents writer.old) (W.contents writer.new)
        (left_out_line count)) }
{
    match count {
        Some(count) => writeln!(writer, "allowed {count}"),
        None => Ok(()),
    }
}

/// Writes how many races are accepted, if marks are used.
fn write_accepted<W: Write>(writer: &mut W, count: Option<u32>) -> io::Result<()>
    ensures { OnOk result (Appends (W.contents writer.old) (W.contents writer.new)
        (accepted_line count)) }
{
    match count {
        Some(count) => writeln!(writer, "accepted {count}"),
        None => Ok(()),
    }
}

/// Writes how many races are closest, if only these are listed.
fn write_closest<W: Write>(writer: &mut W, count: Option<u32>) -> io::Result<()>
    ensures { OnOk result (Appends (W.contents writer.old) (W.contents writer.new)
        (closest_line count)) }
{
    match count {
        Some(count) => writeln!(writer, "closest {count}"),
        None => Ok(()),
    }
}

/// Writes the lines that precede the races.
fn write_heading<W: Write>(writer: &mut W, chart: &Chart, heading: Heading) -> io::Result<()>
    ensures { OnOk result (Appends (W.contents writer.old) (W.contents writer.new)
        (heading_text chart.now heading)) }
{
    write_head(writer, chart, heading.queues, heading.races)?;
    write_left_out(writer, heading.left_out)?;
    write_accepted(writer, heading.accepted)?;
    write_closest(writer, heading.closest)
}

/// Appends the line of a race's kind to a page.
pub(crate) fn print_kind(page: &mut Page, cause: &Cause) -> Result<(), AllocError>
    ensures { OnOk result
        (page.new.bytes.items ≡ page.old.bytes.items ++ kind_line cause.now) }
{
    page.bytes.extend_from_slice(b"kind ")?;
    page.bytes.extend_from_slice(cause.kind.word().as_bytes())?;
    if cause.always {
        return page.bytes.extend_from_slice(b" always\n");
    }
    page.bytes.extend_from_slice(b"\n")
}

/// Appends a line that names two events, made from their texts, and the line of their places, if
/// places are printed.
pub(crate) fn print_placed_pair(
    page: &mut Page,
    texts: &EventTexts,
    event_positions: Option<&EventPositions<'_>>,
    word: &str,
    e: Event,
    f: Event,
) -> Result<(), AllocError>
    requires e_known { e < length texts.now }
    requires f_known { f < length texts.now }
    ensures { (d : Drawing) → AreTextsOf d texts.now
        → OnOk result (page.new.bytes.items ≡ page.old.bytes.items
        ++ pair_text (option_map (λ s. s.now) event_positions.entry) [] word.now d e f) }
{
    texts.print_pair(page, word, e, f)?;
    print_places(page, event_positions, e, f)
}

/// Appends why a pair is a race to a page, made from the texts of events.
// Separate from `print_cause`, which is called for each race: only this makes room for the text.
#[inline(never)]
fn print_made_why(
    page: &mut Page,
    texts: &EventTexts,
    cause: &Cause,
    event_positions: Option<&EventPositions<'_>>,
) -> Result<(), AllocError>
    requires needed { cause.now.needed < length texts.now }
    requires output { cause.now.output < length texts.now }
    ensures { (d : Drawing) → AreTextsOf d texts.now
        → OnOk result (page.new.bytes.items ≡ page.old.bytes.items
        ++ why_text (option_map (λ s. s.now) event_positions.entry) d cause.now) }
{
    print_kind(page, cause)?;
    print_placed_pair(
        page,
        texts,
        event_positions,
        "needs",
        cause.needed,
        cause.output,
    )
}

/// Appends why a pair is a race to a page, if no texts were made.
// Separate from `print_cause`, which is called for each race: only this makes room for the text.
#[inline(never)]
fn print_why(
    page: &mut Page,
    chart: &Chart,
    cause: &Cause,
    event_positions: Option<&EventPositions<'_>>,
) -> Result<(), AllocError>
    requires { NamesCause chart.now cause.now }
    ensures { OnOk result (page.new.bytes.items ≡ page.old.bytes.items
        ++ why_text (option_map (λ s. s.now) event_positions.entry) chart.now cause.now) }
{
    match write_why(page, chart, cause, event_positions) {
        Ok(()) => Ok(()),
        Err(_) => Err(AllocError),
    }
}

/// Appends the line of a race to a page, if no texts were made.
// Separate from the line that is made from texts: only this makes room for the text.
#[inline(never)]
fn print_bare_race(page: &mut Page, chart: &Chart, e: Event, f: Event) -> Result<(), AllocError>
    requires e_known { e < length chart.now.events }
    requires f_known { f < length chart.now.events }
    ensures { OnOk result (page.new.bytes.items
        ≡ page.old.bytes.items ++ race_text chart.now e f None) }
{
    match write_race(page, chart, e, f, None) {
        Ok(()) => Ok(()),
        Err(_) => Err(AllocError),
    }
}

/// Appends the places of a race to a page.
// Separate from `print_places`, which is called for each race: only this makes room for the text.
#[inline(never)]
fn print_event_positions(
    page: &mut Page,
    event_positions: &EventPositions<'_>,
    e: Event,
    f: Event,
) -> Result<(), AllocError>
    ensures { OnOk result (page.new.bytes.items
        ≡ page.old.bytes.items ++ event_positions_line event_positions.now e f) }
{
    match event_positions.write_event_positions_line(page, e, f) {
        Ok(()) => Ok(()),
        Err(_) => Err(AllocError),
    }
}

/// Appends the places of two events to a page, if places are printed.
#[inline(always)]
pub(crate) fn print_places(
    page: &mut Page,
    event_positions: Option<&EventPositions<'_>>,
    e: Event,
    f: Event,
) -> Result<(), AllocError>
    ensures { OnOk result (page.new.bytes.items ≡ page.old.bytes.items
        ++ at_text (option_map (λ s. s.now) event_positions.entry) [] e f) }
{
    let Some(event_positions) = event_positions else {
        return Ok(());
    };
    print_event_positions(page, event_positions, e, f)
}

/// The lines of a run in words.
fn steps_of(alloc: Global, chart: &Chart, run: &[Event]) -> Result<Vec<u8>, AllocError>
    requires { All (λ e. e < length chart.now.events) run.now }
    ensures { IfOk result (λ lines. lines.items ≡ steps_text chart.now run.now) }
{
    let mut lines = Page::new(alloc);
    match write_steps(&mut lines, chart, run) {
        Ok(()) => Ok(lines.bytes),
        Err(_) => Err(AllocError),
    }
}

/// The line of a run.
fn line_of(alloc: Global, run: &[Event]) -> Result<Vec<u8>, AllocError>
    ensures { IfOk result (λ line. line.items ≡ run_line (Some run.now)) }
{
    let mut line = Page::new(alloc);
    match write_run(&mut line, run) {
        Ok(()) => Ok(line.bytes),
        Err(_) => Err(AllocError),
    }
}

/// The places of a chart's events, made once, if places are printed.
fn places_of(
    alloc: Global,
    chart: &Chart,
    event_positions: Option<&EventPositions<'_>>,
) -> Result<Option<EventPositionTexts>, AllocError>
    ensures { IfOk result (λ places. MatchOption places (Unit {0})
        (ArePlacesIn (option_map (λ s. s.now) event_positions.entry) (length chart.now.events))) }
{
    match event_positions {
        Some(event_positions) => Ok(Some(EventPositionTexts::new(
            alloc,
            event_positions,
            chart.events(),
        )?)),
        None => Ok(None),
    }
}

/// Lines of races, in a style. The texts of the chart's events are made once, if it has races.
#[derive(Drop)]
pub struct Lines<'s> {
    texts: Option<EventTexts>,
    /// The places of the events, if they are printed.
    places: Option<EventPositionTexts>,
    style: Style<'s>,
}

impl<'s> Lines<'s> {
    /// The lines of a chart with `races` races. An error is a growth of memory that was refused.
    pub fn of(
        alloc: Global,
        chart: &Chart,
        races: u32,
        style: Style<'s>,
    ) -> Result<Lines<'s>, AllocError>
        ensures fits { IfOk result (FitsLines chart.now) }
        ensures style { IfOk result (λ lines. lines.style ≡ style.entry) }
    {
        if races == 0 {
            return Ok(Lines {
                texts: None,
                places: None,
                style,
            });
        }
        let texts = Some(EventTexts::new(alloc, chart)?);
        let places = places_of(alloc, chart, style.event_positions)?;
        Ok(Lines {
            texts,
            places,
            style,
        })
    }

    /// The texts of the chart's events, if they were made.
    pub fn texts(&self) -> Option<&EventTexts>
        ensures { (d : Drawing) (t : List EventText) → FitsLines d self.now
            → option_map (λ x. x.now) result ≡ Some t → AreTextsOf d t }
    {
        self.texts.as_ref()
    }

    /// Appends the line of a race to a page.
    #[inline(always)]
    fn print_race(
        &self,
        page: &mut Page,
        chart: &Chart,
        e: Event,
        f: Event,
    ) -> Result<(), AllocError>
        requires fits { FitsLines chart.now self.now }
        requires e_known { e < length chart.now.events }
        requires f_known { f < length chart.now.events }
        ensures { OnOk result (page.new.bytes.items
            ≡ page.old.bytes.items ++ race_text chart.now e f None) }
    {
        if let Some(texts) = &self.texts {
            return texts.print_race(&mut page.bytes, e, f);
        }
        print_bare_race(page, chart, e, f)
    }

    /// Appends the places of a race to a page, if places are printed.
    // Inlined, so that a row without places makes no call: a chart may have half a million races.
    #[inline(always)]
    fn print_places(
        &self,
        page: &mut Page,
        chart: &Chart,
        e: Event,
        f: Event,
    ) -> Result<(), AllocError>
        requires fits { FitsLines chart.now self.now }
        requires e_known { e < length chart.now.events }
        requires f_known { f < length chart.now.events }
        ensures { OnOk result (page.new.bytes.items ≡ page.old.bytes.items
            ++ at_text (event_positions_in self.now.style) [] e f) }
    {
        if let Some(places) = &self.places {
            return places.print_line(page, e, f);
        }
        print_places(page, self.style.event_positions, e, f)
    }

    /// Appends why a pair is a race to a page, if that is requested.
    fn print_cause(
        &self,
        page: &mut Page,
        chart: &Chart,
        cause: Option<Cause>,
    ) -> Result<(), AllocError>
        requires fits { FitsLines chart.now self.now }
        requires named { MatchOption cause (Unit {0}) (NamesCause chart.now) }
        ensures { OnOk result (page.new.bytes.items ≡ page.old.bytes.items
            ++ cause_text (event_positions_in self.now.style) chart.now cause) }
    {
        let Some(cause) = cause else {
            return Ok(());
        };
        if let Some(texts) = &self.texts {
            return print_made_why(page, texts, &cause, self.style.event_positions);
        }
        print_why(page, chart, &cause, self.style.event_positions)
    }

    /// The line of a run, by the numbers of its events.
    fn numbered_run(&self, alloc: Global, run: &[Event]) -> Result<Vec<u8>, AllocError>
        requires { (d : Drawing) × FitsLines d self.now × All (λ e. e < length d.events) run.now }
        ensures { IfOk result (λ line. line.items ≡ run_line (Some run.now)) }
    {
        match &self.texts {
            Some(texts) => texts.run_line(alloc, run),
            None => line_of(alloc, run),
        }
    }
}

impl<'s> Renderer for Lines<'s> {
    ghost fits = { λ s d. FitsLines d s };

    ghost heading_text = { λ s d h. heading_text d h };

    ghost run_text = { λ s d run. run_text s.style.words d run };

    ghost finding_text = { λ s d f line. finding_text (event_positions_in s.style) d f line };

    ghost end_text = { λ s d stale totals. stale_lines (event_positions_in s.style) d stale };

    fn print_heading(
        &self,
        page: &mut Page,
        chart: &Chart,
        heading: Heading,
    ) -> Result<(), AllocError> {
        match write_heading(page, chart, heading) {
            Ok(()) => Ok(()),
            Err(_) => Err(AllocError),
        }
    }

    fn run_line(&self, alloc: Global, chart: &Chart, run: &[Event]) -> Result<Vec<u8>, AllocError> {
        if self.style.words {
            return steps_of(alloc, chart, run);
        }
        self.numbered_run(alloc, run)
    }

    #[inline(always)]
    fn print_finding(
        &self,
        page: &mut Page,
        chart: &Chart,
        finding: Finding,
        line: Option<&[u8]>,
    ) -> Result<(), AllocError> {
        self.print_race(page, chart, finding.first, finding.second)?;
        self.print_places(page, chart, finding.first, finding.second)?;
        self.print_cause(page, chart, finding.cause)?;
        if let Some(line) = line {
            page.bytes.extend_from_slice(line)?;
        }
        Ok(())
    }

    fn print_end(
        &self,
        page: &mut Page,
        chart: &Chart,
        stale: &[Event],
        _totals: Option<Totals>,
    ) -> Result<(), AllocError> {
        match write_stale_lines(page, chart, self.style.event_positions, stale) {
            Ok(()) => Ok(()),
            Err(_) => Err(AllocError),
        }
    }
}
