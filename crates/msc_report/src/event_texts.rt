//! The texts of a chart's events, made once.

ghost use Rattle.std.specs.Prelude.{◌≡◌, ℕ, ◌<◌, ◌≤◌, ◌++◌, IfOk, None, OnOk, Some, get_or, length};
ghost use Rattle.std.specs.Prelude.{take};
ghost use Rattle.std.specs.List.{All};
ghost use Rattle.msc_chart.specs.Drawings.{Drawing};
ghost use Rattle.msc_report.specs.EventTexts.{no_text, AreTextsOf};
ghost use Rattle.msc_report.specs.Editors.{told_text};
ghost use Rattle.msc_report.specs.Lines.{both_at, pair_line};
ghost use Rattle.msc_report.specs.Spans.{named_text, place_text, HasPutText};
ghost use Rattle.msc_report.specs.BlockedPairs.{told_line};
ghost use Rattle.msc_report.specs.Verdicts.{event_text, race_text, run_line, spaced};

use crate::race::write_event;
use crate::race_line::{WORDS, all_are_short, are_short, print_blocks, print_number, print_slices};
use itoa::Buffer;
use msc_chart::{Chart, Event};
use msc_print::Page;
use std::alloc::{AllocError, Global};
use std::marker::Model;

/// Where the parts of an event's text stand. The text is `race E: on INSTANCE: EV; INSTANCE EV` and
/// the end of a line, for event E that does EV. Each part begins or ends at one of these places.
#[derive(Clone, Copy)]
pub(crate) struct Span {
    /// The beginning of the line of a race whose first event it is.
    pub opening: usize,
    /// Its number after a space.
    pub number: usize,
    /// The end of its number.
    pub colon: usize,
    /// The name of its instance and what it does, as the first of two events of one line.
    pub first: usize,
    /// What separates it from the event before it.
    pub next: usize,
    /// The name of its instance and what it does.
    pub placed: usize,
    /// What it does.
    pub second: usize,
    /// The end of what it does.
    pub stop: usize,
    /// The end of the line.
    pub end: usize,
}

/// The texts of the events of a chart. Lines that name many events are made from them.
///
/// Contracts see what is printed of each event, in order.
#[derive(Drop)]
pub struct EventTexts {
    bytes: Vec<u8>,
    spans: Vec<Span>,
    /// Whether the parts of each race are known to fit into their blocks. Then the check of each
    /// race is skipped.
    short: bool,
}

impl Model for EventTexts {
    ghost use Rattle.std.specs.Prelude.{List, map};
    ghost use Rattle.std.specs.List.{All};
    ghost use Rattle.msc_report.specs.EventTexts.{EventText};

    ghost Value = { List EventText };

    ghost use Rattle.std.specs.Prelude.{IsTrue};
    ghost use Rattle.msc_report.specs.Spans.{text_at, AllAreShort, IsSpanIn};

    ghost view = { λ t. map (text_at t.bytes.items) t.spans.items };

    ghost invariant = { λ t. All (IsSpanIn t.bytes.items) t.spans.items
        × (IsTrue t.short → AllAreShort t.bytes.items t.spans.items) };
}

/// Appends the number of an event after a space.
pub(crate) fn print_spaced(page: &mut Page, e: Event) -> Result<(), AllocError>
    ensures { OnOk result (page.new.bytes.items ≡ page.old.bytes.items ++ spaced e) }
{
    let mut digits = Buffer::new();
    page.bytes.extend_from_slice(b" ")?;
    page.bytes.extend_from_slice(digits.format(e).as_bytes())
}

/// Appends the name of the instance of event `e`, before what it does as the first of two events.
fn print_place(page: &mut Page, chart: &Chart, e: Event) -> Result<(), AllocError>
    requires { e < length chart.now.events }
    ensures { OnOk result
        (page.new.bytes.items ≡ page.old.bytes.items ++ place_text chart.now e) }
{
    chart.facts();
    page.bytes.extend_from_slice(b" on ")?;
    page.bytes
        .extend_from_slice(chart.instance_name(chart.instance_of(e)))?;
    page.bytes.extend_from_slice(b": ")
}

/// Appends the name of the instance of event `e` and a space.
fn print_owner(page: &mut Page, chart: &Chart, e: Event) -> Result<(), AllocError>
    requires { e < length chart.now.events }
    ensures { OnOk result
        (page.new.bytes.items ≡ page.old.bytes.items ++ named_text chart.now e) }
{
    chart.facts();
    page.bytes
        .extend_from_slice(chart.instance_name(chart.instance_of(e)))?;
    page.bytes.extend_from_slice(b" ")
}

/// Appends what event `e` does. The only error is want of memory.
fn print_event(page: &mut Page, chart: &Chart, e: Event) -> Result<(), AllocError>
    requires { e < length chart.now.events }
    ensures { OnOk result
        (page.new.bytes.items ≡ page.old.bytes.items ++ event_text chart.now e) }
{
    match write_event(page, chart, e) {
        Ok(()) => Ok(()),
        Err(_) => Err(AllocError),
    }
}

/// Appends the text of event `e`, and returns where its parts are. What the event does is copied
/// the second time.
fn print_parts(page: &mut Page, chart: &Chart, e: Event) -> Result<Span, AllocError>
    requires { e < length chart.now.events }
    ensures { IfOk result (HasPutText chart.now e page.old.bytes.items page.new.bytes.items) }
{
    let opening = page.bytes.len();
    page.bytes.extend_from_slice(b"race")?;
    let number = page.bytes.len();
    print_spaced(page, e)?;
    let colon = page.bytes.len();
    page.bytes.extend_from_slice(b": ")?;
    let first = page.bytes.len();
    print_place(page, chart, e)?;
    let from = page.bytes.len();
    print_event(page, chart, e)?;
    let next = page.bytes.len();
    page.bytes.extend_from_slice(b"; ")?;
    let placed = page.bytes.len();
    print_owner(page, chart, e)?;
    let second = page.bytes.len();
    page.bytes.extend_from_within(from..next)?;
    let stop = page.bytes.len();
    page.bytes.extend_from_slice(b"\n")?;
    Ok(Span {
        opening,
        number,
        colon,
        first,
        next,
        placed,
        second,
        stop,
        end: page.bytes.len(),
    })
}

impl EventTexts {
    /// The texts of a chart's events. An error is a growth of memory that was refused.
    pub fn new(alloc: Global, chart: &Chart) -> Result<EventTexts, AllocError>
        ensures { IfOk result (AreTextsOf chart.now) }
    {
        let mut page = Page::new(alloc);
        let mut spans = Vec::with_capacity(alloc, chart.events() as usize)?;
        for e in 0..chart.events() {
            let span = print_parts(&mut page, chart, e)?;
            spans.push(span)?;
        }
        // a block that begins within the texts ends within the bytes then
        page.bytes.extend_from_slice(&[0; WORDS])?;
        let short = all_are_short(page.bytes.as_slice(), spans.as_slice());
        Ok(EventTexts {
            bytes: page.bytes,
            spans,
            short,
        })
    }

    /// Writes a space and the number of event `e` after the first `at` bytes of a line, and returns
    /// where the number ends.
    fn print_number(&self, line: &mut Vec<u8>, at: usize, e: Event) -> Result<usize, AllocError>
        requires known { e < length self.now }
        requires room { at ≤ length line.old.items }
        ensures within { IfOk result (λ end. end ≤ length line.new.items) }
        ensures put { IfOk result (λ end. take end line.new.items
            ≡ take at line.old.items ++ (get_or self.now e no_text).number) }
    {
        let span = self.spans[e as usize];
        print_number(line, at, self.bytes.as_slice(), &span)
    }

    /// The number of event `e` after a space.
    pub(crate) fn number(&self, e: Event) -> &[u8]
        requires { e < length self.now }
        ensures { result.now ≡ (get_or self.now e no_text).number }
    {
        let span = &self.spans[e as usize];
        &self.bytes[span.number..span.colon]
    }

    /// The same before a colon and a space.
    fn numbered(&self, e: Event) -> &[u8]
        requires { e < length self.now }
        ensures { result.now ≡ (get_or self.now e no_text).numbered }
    {
        let span = &self.spans[e as usize];
        &self.bytes[span.number..span.first]
    }

    /// The name of the instance of event `e` and what it does, as the first of two events of one
    /// line.
    fn first(&self, e: Event) -> &[u8]
        requires { e < length self.now }
        ensures { result.now ≡ (get_or self.now e no_text).first }
    {
        let span = &self.spans[e as usize];
        &self.bytes[span.first..span.placed]
    }

    /// What event `e` does, to the end of the line.
    fn second(&self, e: Event) -> &[u8]
        requires { e < length self.now }
        ensures { result.now ≡ (get_or self.now e no_text).second }
    {
        let span = &self.spans[e as usize];
        &self.bytes[span.second..span.end]
    }

    /// What event `e` does.
    fn words(&self, e: Event) -> &[u8]
        requires { e < length self.now }
        ensures { result.now ≡ (get_or self.now e no_text).words }
    {
        let span = &self.spans[e as usize];
        &self.bytes[span.second..span.stop]
    }

    /// The name of the instance of event `e` and what it does.
    fn placed(&self, e: Event) -> &[u8]
        requires { e < length self.now }
        ensures { result.now ≡ (get_or self.now e no_text).placed }
    {
        let span = &self.spans[e as usize];
        &self.bytes[span.placed..span.stop]
    }

    /// The same as the second of two events, to the end of the line.
    fn next(&self, e: Event) -> &[u8]
        requires { e < length self.now }
        ensures { result.now ≡ (get_or self.now e no_text).next }
    {
        let span = &self.spans[e as usize];
        &self.bytes[span.next..span.end]
    }

    /// Appends a word, two events of one line, the name of their instance, and what both of them
    /// do, to the end of the line.
    pub(crate) fn print_told(
        &self,
        page: &mut Page,
        word: &str,
        e: Event,
        f: Event,
    ) -> Result<(), AllocError>
        requires e_known { e < length self.now }
        requires f_known { f < length self.now }
        ensures { (d : Drawing) → AreTextsOf d self.now → OnOk result
            (page.new.bytes.items ≡ page.old.bytes.items ++ told_line word.now d e f) }
    {
        page.bytes.extend_from_slice(word.as_bytes())?;
        page.bytes.extend_from_slice(self.number(e))?;
        page.bytes.extend_from_slice(self.number(f))?;
        page.bytes.extend_from_slice(self.first(e))?;
        page.bytes.extend_from_slice(self.second(f))?;
        Ok(())
    }

    /// The same, without the end of the line.
    pub(crate) fn print_told_words(
        &self,
        page: &mut Page,
        word: &str,
        e: Event,
        f: Event,
    ) -> Result<(), AllocError>
        requires e_known { e < length self.now }
        requires f_known { f < length self.now }
        ensures { (d : Drawing) → AreTextsOf d self.now → OnOk result
            (page.new.bytes.items ≡ page.old.bytes.items ++ told_text word.now d e f) }
    {
        page.bytes.extend_from_slice(word.as_bytes())?;
        page.bytes.extend_from_slice(self.number(e))?;
        page.bytes.extend_from_slice(self.number(f))?;
        page.bytes.extend_from_slice(self.first(e))?;
        page.bytes.extend_from_slice(self.words(f))?;
        Ok(())
    }

    /// Appends what two events do on their lines, to the end of the line.
    pub(crate) fn print_both_at(
        &self,
        page: &mut Page,
        e: Event,
        f: Event,
    ) -> Result<(), AllocError>
        requires e_known { e < length self.now }
        requires f_known { f < length self.now }
        ensures { (d : Drawing) → AreTextsOf d self.now → OnOk result
            (page.new.bytes.items ≡ page.old.bytes.items ++ both_at d e f) }
    {
        page.bytes.extend_from_slice(self.placed(e))?;
        page.bytes.extend_from_slice(self.next(f))?;
        Ok(())
    }

    /// Appends a line that names two events: a word, their numbers, and what both of them do.
    pub(crate) fn print_pair(
        &self,
        page: &mut Page,
        word: &str,
        e: Event,
        f: Event,
    ) -> Result<(), AllocError>
        requires e_known { e < length self.now }
        requires f_known { f < length self.now }
        ensures { (d : Drawing) → AreTextsOf d self.now → OnOk result
            (page.new.bytes.items ≡ page.old.bytes.items ++ pair_line word.now d e f) }
    {
        page.bytes.extend_from_slice(word.as_bytes())?;
        page.bytes.extend_from_slice(self.number(e))?;
        page.bytes.extend_from_slice(self.numbered(f))?;
        page.bytes.extend_from_slice(self.placed(e))?;
        page.bytes.extend_from_slice(self.next(f))?;
        Ok(())
    }

    /// Appends the text of the race of `e` and `f`, two events of one line, to a page. An error is
    /// a growth of memory that was refused; the page then has any bytes.
    pub fn print_race(&self, page: &mut Vec<u8>, e: Event, f: Event) -> Result<(), AllocError>
        requires e_known { e < length self.now }
        requires f_known { f < length self.now }
        ensures { (d : Drawing) → AreTextsOf d self.now
            → OnOk result (page.new.items ≡ page.old.items ++ race_text d e f None) }
    {
        let one = self.spans[e as usize];
        let two = self.spans[f as usize];
        if self.short || are_short(self.bytes.as_slice(), &one, &two) {
            print_blocks(page, self.bytes.as_slice(), &one, &two)
        } else {
            print_slices(page, self.bytes.as_slice(), &one, &two)
        }
    }

    /// The line of a run, for a caller that prints it after more than one race. An error is a
    /// growth of memory that was refused.
    pub fn run_line(&self, alloc: Global, run: &[Event]) -> Result<Vec<u8>, AllocError>
        requires { All (λ e. e < length self.now) run.now }
        ensures { (d : Drawing) → AreTextsOf d self.now
            → IfOk result (λ line. line.items ≡ run_line (Some run.now)) }
    {
        let mut line = Vec::from_slice(alloc, b"run")?;
        let mut end = line.len();
        for e in run {
            end = self.print_number(&mut line, end, *e)?;
        }
        line.truncate(end);
        line.extend_from_slice(b"\n")?;
        Ok(line)
    }
}
