//! The renderer of lines for editors: that no run keeps the drawing; each race as a line that begins
//! with its place, and a note at the event drawn below it; and each mark that accepts no race. The
//! lines of sticks and of races that are left have the same form.

ghost use Rattle.std.specs.Prelude.{◌≡◌, ◌<◌, [], ◌++◌, IfOk, OnOk, length, option_map};
ghost use Rattle.std.specs.Io.KnownBytes.{Appends};
ghost use Rattle.msc_chart.specs.Drawings.{Drawing};
ghost use Rattle.msc_place.specs.EventPositions.{EventPositionsIn};
ghost use Rattle.msc_report.specs.EventTexts.{AreTextsOf};
ghost use Rattle.msc_report.specs.Fitting.{FitsEditor};
ghost use Rattle.msc_report.specs.EventPositionTexts.{AreEventPositionsOf};
ghost use Rattle.msc_report.specs.Editors.{again_lines, bracketed, editor_text, grave_line};
ghost use Rattle.msc_report.specs.Editors.{level_word, note_line, pair_lines, pair_word};
ghost use Rattle.msc_report.specs.Editors.{race_level, told_text};
ghost use Rattle.msc_report.specs.Following.{never_error, AreStepsOf};
ghost use Rattle.msc_report.specs.Stale.{stale_warnings};

use crate::event_position_texts::EventPositionTexts;
use crate::event_texts::EventTexts;
use crate::following::write_never_error;
use crate::race::{write_event, write_pair_place};
use crate::stale::write_stale_warnings;
use msc_chart::{Chart, Event};
use msc_judge::{Finding, Heading, Renderer, Totals};
use msc_place::EventPositions;
use msc_print::Page;
use msc_reason::Cause;
use std::alloc::{AllocError, Global};
use std::io;
use std::io::Write;

/// Lines for editors, of a chart with the places of its events.
#[derive(Clone, Copy)]
pub struct Editor<'s> {
    pub event_positions: &'s EventPositions<'s>,
}

/// What a pair of events is, in lines for editors.
#[derive(Clone, Copy)]
pub(crate) enum PairKind {
    /// A race, with its kind and what it lacks if this is requested.
    Race(Option<Cause>),
    /// A stick.
    Stick,
    /// A race that is left.
    Left,
}

/// The word for the level of a race: one that every run reverses is an error.
fn race_level(cause: Option<Cause>) -> &'static str
    ensures { result.now ≡ race_level cause }
{
    match cause {
        Some(cause) if cause.always => "error",
        _ => "warning",
    }
}

impl PairKind {
    /// The word for its level: a stick is an error.
    fn level_word(self) -> &'static str
        ensures { result.now ≡ level_word self }
    {
        match self {
            PairKind::Race(cause) => race_level(cause),
            PairKind::Stick => "error",
            PairKind::Left => "warning",
        }
    }

    /// The word for what it is, if one is printed: that of a race is its kind.
    fn word(self) -> Option<&'static str>
        ensures { option_map (λ word. word.now) result ≡ pair_word self }
    {
        match self {
            PairKind::Race(Some(cause)) => Some(cause.kind.word()),
            PairKind::Race(None) => None,
            PairKind::Stick => Some("stick"),
            PairKind::Left => Some("race"),
        }
    }
}

/// Writes a word between brackets after a space, if there is one.
fn write_bracketed<W: Write>(writer: &mut W, word: Option<&str>) -> io::Result<()>
    ensures { OnOk result (Appends (W.contents writer.old) (W.contents writer.new)
        (bracketed (option_map (λ word. word.now) word.entry))) }
{
    match word {
        Some(word) => {
            writer.write_all(b" [")?;
            writer.write_all(word.as_bytes())?;
            writer.write_all(b"]")
        }
        None => Ok(()),
    }
}

/// Writes a word, two events of one line, the name of their instance, and what both of them do.
fn write_told<W: Write>(
    writer: &mut W,
    chart: &Chart,
    word: &str,
    e: Event,
    f: Event,
) -> io::Result<()>
    requires e_known { e < length chart.now.events }
    requires f_known { f < length chart.now.events }
    ensures { OnOk result (Appends (W.contents writer.old) (W.contents writer.new)
        (told_text word.now chart.now e f)) }
{
    write_pair_place(writer, chart, word, e, f)?;
    writer.write_all(b": ")?;
    write_event(writer, chart, e)?;
    writer.write_all(b"; ")?;
    write_event(writer, chart, f)
}

impl<'s> Editor<'s> {
    /// Writes the line of a pair of events, at the first of them, after a word.
    fn write_grave<W: Write>(
        &self,
        writer: &mut W,
        chart: &Chart,
        word: &str,
        e: Event,
        f: Event,
        kind: PairKind,
    ) -> io::Result<()>
        requires e_known { e < length chart.now.events }
        requires f_known { f < length chart.now.events }
        ensures { OnOk result (Appends (W.contents writer.old) (W.contents writer.new)
            (grave_line self.now.event_positions.now word.now chart.now e f kind)) }
    {
        self.event_positions.write_event_position(writer, e)?;
        let level = kind.level_word();
        writer.write_all(b": ")?;
        writer.write_all(level.as_bytes())?;
        writer.write_all(b": ")?;
        write_told(writer, chart, word, e, f)?;
        let name = kind.word();
        write_bracketed(writer, name)?;
        writer.write_all(b"\n")
    }

    /// Writes a note at an event.
    fn write_note<W: Write>(&self, writer: &mut W, f: Event, note: &str) -> io::Result<()>
        ensures { OnOk result (Appends (W.contents writer.old) (W.contents writer.new)
            (note_line self.now.event_positions.now f note.now)) }
    {
        self.event_positions.write_event_position(writer, f)?;
        writer.write_all(b": note: ")?;
        writer.write_all(note.as_bytes())?;
        writer.write_all(b"\n")
    }

    /// Writes both lines of a pair of events of one round, after a word.
    fn write_pair<W: Write>(
        &self,
        writer: &mut W,
        chart: &Chart,
        word: &str,
        e: Event,
        f: Event,
        kind: PairKind,
    ) -> io::Result<()>
        requires e_known { e < length chart.now.events }
        requires f_known { f < length chart.now.events }
        ensures { OnOk result (Appends (W.contents writer.old) (W.contents writer.new)
            (pair_lines self.now.event_positions.now word.now chart.now e f kind)) }
    {
        self.write_grave(writer, chart, word, e, f, kind)?;
        self.write_note(writer, f, "the event drawn below it")
    }

    /// Appends the same to a page. The only error is want of memory.
    pub(crate) fn print_pair(
        &self,
        page: &mut Page,
        chart: &Chart,
        word: &str,
        e: Event,
        f: Event,
        kind: PairKind,
    ) -> Result<(), AllocError>
        requires e_known { e < length chart.now.events }
        requires f_known { f < length chart.now.events }
        ensures { OnOk result (page.new.bytes.items ≡ page.old.bytes.items
            ++ pair_lines self.now.event_positions.now word.now chart.now e f kind) }
    {
        match self.write_pair(page, chart, word, e, f, kind) {
            Ok(()) => Ok(()),
            Err(_) => Err(AllocError),
        }
    }

    /// Writes both lines of a pair of an event of a round and one of the next.
    pub(crate) fn write_again<W: Write>(
        &self,
        writer: &mut W,
        chart: &Chart,
        e: Event,
        f: Event,
        kind: PairKind,
    ) -> io::Result<()>
        requires e_known { e < length chart.now.events }
        requires f_known { f < length chart.now.events }
        ensures { OnOk result (Appends (W.contents writer.old) (W.contents writer.new)
            (again_lines self.now.event_positions.now chart.now e f kind)) }
    {
        self.write_grave(writer, chart, "again", e, f, kind)?;
        self.write_note(writer, f, "the event of the next round")
    }

    /// Appends the same to a page. The only error is want of memory.
    pub(crate) fn print_again(
        &self,
        page: &mut Page,
        chart: &Chart,
        e: Event,
        f: Event,
        kind: PairKind,
    ) -> Result<(), AllocError>
        requires e_known { e < length chart.now.events }
        requires f_known { f < length chart.now.events }
        ensures { OnOk result (page.new.bytes.items ≡ page.old.bytes.items
            ++ again_lines self.now.event_positions.now chart.now e f kind) }
    {
        match self.write_again(page, chart, e, f, kind) {
            Ok(()) => Ok(()),
            Err(_) => Err(AllocError),
        }
    }

    /// Writes both lines of a race.
    fn write_finding<W: Write>(
        &self,
        writer: &mut W,
        chart: &Chart,
        finding: Finding,
    ) -> io::Result<()>
        requires e_known { finding.first < length chart.now.events }
        requires f_known { finding.second < length chart.now.events }
        ensures { OnOk result (Appends (W.contents writer.old) (W.contents writer.new)
            (editor_text self.now.event_positions.now chart.now finding)) }
    {
        let (e, f) = (finding.first, finding.second);
        self.write_pair(writer, chart, "race", e, f, PairKind::Race(finding.cause))
    }
}

/// Appends a word between brackets after a space to a page, if there is one.
fn print_bracketed(page: &mut Page, word: Option<&str>) -> Result<(), AllocError>
    ensures { OnOk result (page.new.bytes.items ≡ page.old.bytes.items
        ++ bracketed (option_map (λ word. word.now) word.entry)) }
{
    let Some(word) = word else {
        return Ok(());
    };
    page.bytes.extend_from_slice(b" [")?;
    page.bytes.extend_from_slice(word.as_bytes())?;
    page.bytes.extend_from_slice(b"]")
}

/// The texts of a chart's events and their places, of which lines for editors are made.
#[derive(Drop)]
pub(crate) struct WarningTexts {
    pub texts: EventTexts,
    pub places: EventPositionTexts,
}

impl WarningTexts {
    /// Appends the line of a pair of events, at the first of them, after a word.
    fn print_grave(
        &self,
        page: &mut Page,
        word: &str,
        e: Event,
        f: Event,
        kind: PairKind,
    ) -> Result<(), AllocError>
        requires e_known { e < length self.now.texts }
        requires f_known { f < length self.now.texts }
        requires place_known { e < length self.now.places }
        ensures { (d : Drawing) (event_positions : EventPositionsIn) → AreTextsOf d self.now.texts
            → AreEventPositionsOf event_positions (length self.now.places) self.now.places
            → OnOk result (page.new.bytes.items
            ≡ page.old.bytes.items ++ grave_line event_positions word.now d e f kind) }
    {
        let level = kind.level_word();
        page.bytes.extend_from_slice(self.places.event_position(e))?;
        page.bytes.extend_from_slice(b": ")?;
        page.bytes.extend_from_slice(level.as_bytes())?;
        page.bytes.extend_from_slice(b": ")?;
        self.texts.print_told_words(page, word, e, f)?;
        let name = kind.word();
        print_bracketed(page, name)?;
        page.bytes.extend_from_slice(b"\n")?;
        Ok(())
    }

    /// Appends a note at an event.
    fn print_note(&self, page: &mut Page, f: Event, note: &str) -> Result<(), AllocError>
        requires { f < length self.now.places }
        ensures { (event_positions : EventPositionsIn) → AreEventPositionsOf event_positions (length self.now.places) self.now.places
            → OnOk result (page.new.bytes.items
            ≡ page.old.bytes.items ++ note_line event_positions f note.now) }
    {
        page.bytes.extend_from_slice(self.places.event_position(f))?;
        page.bytes.extend_from_slice(b": note: ")?;
        page.bytes.extend_from_slice(note.as_bytes())?;
        page.bytes.extend_from_slice(b"\n")?;
        Ok(())
    }
}

/// Lines for editors, made from the texts and the places of a chart's events. These are made once,
/// if the chart has races.
#[derive(Drop)]
pub struct EditorLines<'s, 'r> {
    made: Option<WarningTexts>,
    event_positions: &'s EventPositions<'s>,
    /// The steps of the ring by which no run keeps the drawing, if none does.
    ring: &'r [(Event, Event)],
}

impl<'s, 'r> EditorLines<'s, 'r> {
    /// The lines of a chart with `races` races, and of the steps of a ring by which no run keeps the
    /// drawing; there are none if some run does. An error is a growth of memory that was refused.
    pub fn of(
        alloc: Global,
        chart: &Chart,
        races: u32,
        event_positions: &'s EventPositions<'s>,
        ring: &'r [(Event, Event)],
    ) -> Result<EditorLines<'s, 'r>, AllocError>
        requires { AreStepsOf chart.now ring.now }
        ensures fits { IfOk result (FitsEditor chart.now) }
        ensures event_positions { IfOk result (λ lines. lines.event_positions ≡ event_positions.entry) }
        ensures ring { IfOk result (λ lines. lines.ring.now ≡ ring.now) }
    {
        if races == 0 {
            return Ok(EditorLines {
                made: None,
                event_positions,
                ring,
            });
        }
        let texts = EventTexts::new(alloc, chart)?;
        let places = EventPositionTexts::new(alloc, event_positions, chart.events())?;
        let made = Some(WarningTexts { texts, places });
        Ok(EditorLines {
            made,
            event_positions,
            ring,
        })
    }

    /// Appends both lines of a race, made from texts.
    fn print_made(made: &WarningTexts, page: &mut Page, finding: Finding) -> Result<(), AllocError>
        requires e_known { finding.first < length made.now.texts }
        requires f_known { finding.second < length made.now.texts }
        requires places { length made.now.places ≡ length made.now.texts }
        ensures { (d : Drawing) (event_positions : EventPositionsIn) → AreTextsOf d made.now.texts
            → AreEventPositionsOf event_positions (length made.now.places) made.now.places
            → OnOk result (page.new.bytes.items
            ≡ page.old.bytes.items ++ editor_text event_positions d finding) }
    {
        let (e, f) = (finding.first, finding.second);
        made.print_grave(page, "race", e, f, PairKind::Race(finding.cause))?;
        made.print_note(page, f, "the event drawn below it")
    }
}

impl<'s> Renderer for Editor<'s> {
    ghost fits = { λ s d. Unit {0} };

    ghost heading_text = { λ s d h. [] };

    ghost run_text = { λ s d run. [] };

    ghost finding_text = { λ s d f line. editor_text s.event_positions.now d f };

    ghost end_text = { λ s d stale totals. stale_warnings s.event_positions.now d stale };

    fn print_heading(
        &self,
        _page: &mut Page,
        _chart: &Chart,
        _heading: Heading,
    ) -> Result<(), AllocError> {
        Ok(())
    }

    fn run_line(
        &self,
        alloc: Global,
        _chart: &Chart,
        _run: &[Event],
    ) -> Result<Vec<u8>, AllocError> {
        Ok(Vec::new(alloc))
    }

    fn print_finding(
        &self,
        page: &mut Page,
        chart: &Chart,
        finding: Finding,
        _line: Option<&[u8]>,
    ) -> Result<(), AllocError> {
        match self.write_finding(page, chart, finding) {
            Ok(()) => Ok(()),
            Err(_) => Err(AllocError),
        }
    }

    fn print_end(
        &self,
        page: &mut Page,
        chart: &Chart,
        stale: &[Event],
        _totals: Option<Totals>,
    ) -> Result<(), AllocError> {
        match write_stale_warnings(page, chart, self.event_positions, stale) {
            Ok(()) => Ok(()),
            Err(_) => Err(AllocError),
        }
    }
}

impl<'s, 'r> Renderer for EditorLines<'s, 'r> {
    ghost fits = { λ s d. FitsEditor d s };

    ghost heading_text = { λ s d h. never_error s.event_positions.now d s.ring.now };

    ghost run_text = { λ s d run. [] };

    ghost finding_text = { λ s d f line. editor_text s.event_positions.now d f };

    ghost end_text = { λ s d stale totals. stale_warnings s.event_positions.now d stale };

    fn print_heading(
        &self,
        page: &mut Page,
        chart: &Chart,
        _heading: Heading,
    ) -> Result<(), AllocError> {
        match write_never_error(page, chart, self.event_positions, self.ring) {
            Ok(()) => Ok(()),
            Err(_) => Err(AllocError),
        }
    }

    fn run_line(
        &self,
        alloc: Global,
        _chart: &Chart,
        _run: &[Event],
    ) -> Result<Vec<u8>, AllocError> {
        Ok(Vec::new(alloc))
    }

    fn print_finding(
        &self,
        page: &mut Page,
        chart: &Chart,
        finding: Finding,
        _line: Option<&[u8]>,
    ) -> Result<(), AllocError> {
        if let Some(made) = &self.made {
            return EditorLines::print_made(made, page, finding);
        }
        let editor = Editor {
            event_positions: self.event_positions,
        };
        match editor.write_finding(page, chart, finding) {
            Ok(()) => Ok(()),
            Err(_) => Err(AllocError),
        }
    }

    fn print_end(
        &self,
        page: &mut Page,
        chart: &Chart,
        stale: &[Event],
        _totals: Option<Totals>,
    ) -> Result<(), AllocError> {
        match write_stale_warnings(page, chart, self.event_positions, stale) {
            Ok(()) => Ok(()),
            Err(_) => Err(AllocError),
        }
    }
}
