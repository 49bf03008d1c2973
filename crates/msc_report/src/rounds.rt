//! The renderers of two rounds of a chart: the races between a round and the next, as lines and as
//! lines for editors; and the lines of sticks between them.
//!
//! Events of two rounds are shown by their numbers in the chart: event E of round R is E.R, and
//! rounds are shown from 1.

ghost use Rattle.std.specs.Prelude.{◌≡◌, ◌+◌, ◌<◌, [], ◌++◌, IsTrue, MatchOption, OnOk, length};
ghost use Rattle.std.specs.Prelude.{codes, decimal, option_map, List, Some};
ghost use Rattle.std.specs.Io.KnownBytes.{Appends};
ghost use Rattle.std.specs.List.{flat_map};
ghost use Rattle.msc_chart.specs.Charts.{is_input};
ghost use Rattle.msc_chart.specs.Rounds.{event_of, round_of, two_rounds};
ghost use Rattle.msc_judge.specs.Renderings.{NamesEvents};
ghost use Rattle.msc_reason.specs.Named.{AreEventsOf, NamesCause};
ghost use Rattle.msc_report.specs.EventTexts.{AreTextsOf, EventText};
ghost use Rattle.msc_report.specs.Lines.{both_at};
ghost use Rattle.msc_report.specs.ReadyFormats.{ready_again_behind, ready_again_run};
ghost use Rattle.msc_report.specs.ReadyFormats.{ready_again_stick};
ghost use Rattle.msc_report.specs.Rounds.{again_behind, again_count, again_needs, again_stick};
ghost use Rattle.msc_report.specs.Rounds.{again_text, both_told, once, output_in, round_bare};
ghost use Rattle.msc_report.specs.Rounds.{round_finding, round_cause, round_line, round_name};
ghost use Rattle.msc_report.specs.Rounds.{round_run, round_run_text, round_steps, round_warning};
ghost use Rattle.msc_report.specs.Rounds.{spaced_name};
ghost use Rattle.msc_report.specs.BlockedPairs.{waits_text};
ghost use Rattle.msc_report.specs.Styles.{event_positions_in};
ghost use Rattle.msc_report.specs.Verdicts.{spaced};

use crate::editor::{Editor, PairKind};
use crate::event_texts::{EventTexts, print_spaced};
use crate::lines::{print_kind, print_places, write_both_at};
use crate::names::EventNames;
use crate::race::write_event_at;
use crate::ready_format::ReadyFormat;
use crate::sticks::{print_told_pair, print_waits, write_told_pair};
use crate::style::Style;
use itoa::Buffer;
use msc_chart::{Chart, Event, RoundNumbers};
use msc_judge::{Finding, Heading, Renderer, Totals};
use msc_place::EventPositions;
use msc_print::Page;
use msc_reason::Cause;
use std::alloc::{AllocError, Global};
use std::io;
use std::io::Write;

/// The names of the events of two rounds of a chart, by the chart of one round.
#[derive(Clone, Copy)]
pub struct RoundNames<'r> {
    /// The chart of one round.
    pub chart: &'r Chart,
    /// Its events in two rounds.
    pub numbers: &'r RoundNumbers<'r>,
    /// The texts of its events, if they were made.
    pub texts: Option<&'r EventTexts>,
    ghost same: { numbers.now ≡ chart.now },
    ghost made: { (t : List EventText) → option_map (λ x. x.now) texts ≡ Some t
        → AreTextsOf chart.now t },
}

/// Writes how many pairs of an event of one round and one of the next there are.
pub fn write_again_count<W: Write>(writer: &mut W, count: u32) -> io::Result<()>
    ensures { OnOk result (Appends (W.contents writer.old) (W.contents writer.new)
        (again_count count)) }
{
    writeln!(writer, "again {count}")
}

/// Appends the number of a round, from 0, as names of events have it.
fn print_round(page: &mut Page, round: u32) -> Result<(), AllocError>
    requires { round < 2 }
    ensures { OnOk result (page.new.bytes.items
        ≡ page.old.bytes.items ++ (codes "." ++ decimal (round + 1))) }
{
    if round == 0 {
        return page.bytes.extend_from_slice(b".1");
    }
    page.bytes.extend_from_slice(b".2")
}

impl RoundNames<'_> {
    /// The event of the chart that is event `k` of two rounds, and its round, from 0.
    fn place(&self, k: Event) -> (Event, u32)
        requires { k < length (two_rounds self.now.chart.now).events }
        ensures event { result.0 ≡ event_of 2 self.now.chart.now.events k }
        ensures round { result.1 ≡ round_of 2 self.now.chart.now.events k }
        ensures known { result.0 < length self.now.chart.now.events }
        ensures few { result.1 < 2 }
    {
        self.numbers.place(k)
    }

    /// The event of the chart that is event `k` of two rounds.
    fn once(&self, k: Event) -> Event
        requires { k < length (two_rounds self.now.chart.now).events }
        ensures event { result ≡ once self.now.chart.now k }
        ensures known { result < length self.now.chart.now.events }
    {
        self.place(k).0
    }

    /// The output of input `k` of two rounds, in its round.
    fn output(&self, k: Event) -> Event
        requires { k < length (two_rounds self.now.chart.now).events }
        ensures output { result ≡ output_in self.now.chart.now k }
        ensures known { result < length (two_rounds self.now.chart.now).events }
    {
        self.chart.facts();
        let (e, round) = self.place(k);
        self.numbers.number(self.chart.other_end(e), round)
    }

    /// Writes the number of event `k` in the chart, and its round.
    fn write_name<W: Write>(&self, writer: &mut W, k: Event) -> io::Result<()>
        requires { k < length (two_rounds self.now.chart.now).events }
        ensures { OnOk result (Appends (W.contents writer.old) (W.contents writer.new)
            (round_name self.now.chart.now k)) }
    {
        let (e, round) = self.place(k);
        let mut digits = Buffer::new();
        writer.write_all(digits.format(e).as_bytes())?;
        writer.write_all(b".")?;
        writer.write_all(digits.format(round + 1).as_bytes())
    }

    /// Writes the same after a space.
    fn write_spaced<W: Write>(&self, writer: &mut W, k: Event) -> io::Result<()>
        requires { k < length (two_rounds self.now.chart.now).events }
        ensures { OnOk result (Appends (W.contents writer.old) (W.contents writer.new)
            (spaced_name self.now.chart.now k)) }
    {
        writer.write_all(b" ")?;
        self.write_name(writer, k)
    }

    /// Writes the events of a run, with a space before each.
    fn write_names<W: Write>(&self, writer: &mut W, run: &[Event]) -> io::Result<()>
        requires { AreEventsOf (two_rounds self.now.chart.now) run.now }
        ensures { OnOk result (Appends (W.contents writer.old) (W.contents writer.new)
            (flat_map (spaced_name self.now.chart.now) run.now)) }
    {
        for k in run {
            self.write_spaced(writer, *k)?;
        }
        Ok(())
    }

    /// Writes the line of a run: its events.
    fn write_run<W: Write>(&self, writer: &mut W, run: &[Event]) -> io::Result<()>
        requires { AreEventsOf (two_rounds self.now.chart.now) run.now }
        ensures { OnOk result (Appends (W.contents writer.old) (W.contents writer.new)
            (round_run self.now.chart.now run.now)) }
    {
        writer.write_all(b"run")?;
        self.write_names(writer, run)?;
        writer.write_all(b"\n")
    }

    /// Writes the line of an event: its name, the name of its instance, and what it does.
    fn write_line<W: Write>(&self, writer: &mut W, k: Event) -> io::Result<()>
        requires { k < length (two_rounds self.now.chart.now).events }
        ensures { OnOk result (Appends (W.contents writer.old) (W.contents writer.new)
            (round_line self.now.chart.now k)) }
    {
        self.write_name(writer, k)?;
        writer.write_all(b" ")?;
        write_event_at(writer, self.chart, self.once(k))?;
        writer.write_all(b"\n")
    }

    /// Writes the lines of the events of a run, in their order.
    fn write_lines<W: Write>(&self, writer: &mut W, run: &[Event]) -> io::Result<()>
        requires { AreEventsOf (two_rounds self.now.chart.now) run.now }
        ensures { OnOk result (Appends (W.contents writer.old) (W.contents writer.new)
            (flat_map (round_line self.now.chart.now) run.now)) }
    {
        for k in run {
            self.write_line(writer, *k)?;
        }
        Ok(())
    }

    /// Writes a run in words: the number of its events, and a line for each of them.
    fn write_steps<W: Write>(&self, writer: &mut W, run: &[Event]) -> io::Result<()>
        requires { AreEventsOf (two_rounds self.now.chart.now) run.now }
        ensures { OnOk result (Appends (W.contents writer.old) (W.contents writer.new)
            (round_steps self.now.chart.now run.now)) }
    {
        let count = run.len();
        writeln!(writer, "steps {count}")?;
        self.write_lines(writer, run)
    }

    /// Writes a run: by the names of its events, or in words, a line for each.
    fn write_run_in<W: Write>(&self, writer: &mut W, words: bool, run: &[Event]) -> io::Result<()>
        requires { AreEventsOf (two_rounds self.now.chart.now) run.now }
        ensures { OnOk result (Appends (W.contents writer.old) (W.contents writer.new)
            (round_run_text words self.now.chart.now run.now)) }
    {
        if words {
            return self.write_steps(writer, run);
        }
        self.write_run(writer, run)
    }

    /// The texts of the chart's events, if they were made.
    fn made_texts(&self) -> Option<&EventTexts>
        ensures { MatchOption result (Unit {0})
            (λ t. AreTextsOf self.now.chart.now t.now) }
    {
        self.texts
    }

    /// Appends the number of event `e` of the chart after a space.
    fn print_number(&self, page: &mut Page, e: Event) -> Result<(), AllocError>
        requires { e < length self.now.chart.now.events }
        ensures { OnOk result (page.new.bytes.items ≡ page.old.bytes.items ++ spaced e) }
    {
        if let Some(texts) = self.made_texts() {
            return page.bytes.extend_from_slice(texts.number(e));
        }
        print_spaced(page, e)
    }

    /// Appends the number of event `k` in the chart after a space, and its round.
    fn print_spaced_name(&self, page: &mut Page, k: Event) -> Result<(), AllocError>
        requires { k < length (two_rounds self.now.chart.now).events }
        ensures { OnOk result
            (page.new.bytes.items ≡ page.old.bytes.items ++ spaced_name self.now.chart.now k) }
    {
        let (e, round) = self.place(k);
        self.print_number(page, e)?;
        print_round(page, round)
    }

    /// Appends a pair of an event of one round and one of the next, two events of one line, with
    /// their places, if places are printed.
    fn print_again(
        &self,
        page: &mut Page,
        event_positions: Option<&EventPositions<'_>>,
        k: Event,
        l: Event,
    ) -> Result<(), AllocError>
        requires k_known { k < length (two_rounds self.now.chart.now).events }
        requires l_known { l < length (two_rounds self.now.chart.now).events }
        ensures { OnOk result (page.new.bytes.items ≡ page.old.bytes.items
            ++ again_text (option_map (λ s. s.now) event_positions.entry) self.now.chart.now k l) }
    {
        let (e, f) = (self.once(k), self.once(l));
        if let Some(texts) = self.made_texts() {
            return print_told_pair(page, texts, event_positions, "again", e, f);
        }
        match write_told_pair(page, self.chart, event_positions, "again", e, f) {
            Ok(()) => Ok(()),
            Err(_) => Err(AllocError),
        }
    }

    /// Appends what two events of the chart do on their lines, to the end of the line.
    fn print_both_at(&self, page: &mut Page, e: Event, f: Event) -> Result<(), AllocError>
        requires e_known { e < length self.now.chart.now.events }
        requires f_known { f < length self.now.chart.now.events }
        ensures { OnOk result
            (page.new.bytes.items ≡ page.old.bytes.items ++ both_at self.now.chart.now e f) }
    {
        if let Some(texts) = self.made_texts() {
            return texts.print_both_at(page, e, f);
        }
        match write_both_at(page, self.chart, e, f) {
            Ok(()) => Ok(()),
            Err(_) => Err(AllocError),
        }
    }

    /// Appends what two events of two rounds do on their lines, to the end of the line, and their
    /// places, if places are printed.
    fn print_both(
        &self,
        page: &mut Page,
        event_positions: Option<&EventPositions<'_>>,
        k: Event,
        l: Event,
    ) -> Result<(), AllocError>
        requires k_known { k < length (two_rounds self.now.chart.now).events }
        requires l_known { l < length (two_rounds self.now.chart.now).events }
        ensures { OnOk result (page.new.bytes.items ≡ page.old.bytes.items
            ++ both_told (option_map (λ s. s.now) event_positions.entry) self.now.chart.now k l) }
    {
        let (e, f) = (self.once(k), self.once(l));
        self.print_both_at(page, e, f)?;
        print_places(page, event_positions, e, f)
    }

    /// Appends the line `needs`: the first of two events of two rounds would have to come before
    /// the other. Their places follow, if places are printed.
    fn print_needs(
        &self,
        page: &mut Page,
        event_positions: Option<&EventPositions<'_>>,
        k: Event,
        l: Event,
    ) -> Result<(), AllocError>
        requires k_known { k < length (two_rounds self.now.chart.now).events }
        requires l_known { l < length (two_rounds self.now.chart.now).events }
        ensures { OnOk result (page.new.bytes.items ≡ page.old.bytes.items
            ++ again_needs (option_map (λ s. s.now) event_positions.entry) self.now.chart.now k l) }
    {
        page.bytes.extend_from_slice(b"needs")?;
        self.print_spaced_name(page, k)?;
        self.print_spaced_name(page, l)?;
        page.bytes.extend_from_slice(b": ")?;
        self.print_both(page, event_positions, k, l)
    }

    /// Appends what the instance of two inputs waits for, and the message that precedes it in its
    /// queue, if answers are in words.
    fn print_waits(
        &self,
        page: &mut Page,
        words: bool,
        k: Event,
        l: Event,
    ) -> Result<(), AllocError>
        requires k_input { IsTrue (is_input (two_rounds self.now.chart.now).events k) }
        requires l_input { IsTrue (is_input (two_rounds self.now.chart.now).events l) }
        ensures { OnOk result (page.new.bytes.items ≡ page.old.bytes.items
            ++ waits_text words self.now.chart.now (once self.now.chart.now k)
            (once self.now.chart.now l)) }
    {
        self.chart.facts();
        print_waits(page, self.chart, words, self.once(k), self.once(l))
    }

    /// Appends a stick, two inputs of one line, in a style, without what shows it.
    fn print_stick(
        &self,
        page: &mut Page,
        style: Style<'_>,
        k: Event,
        l: Event,
    ) -> Result<(), AllocError>
        requires k_input { IsTrue (is_input (two_rounds self.now.chart.now).events k) }
        requires l_input { IsTrue (is_input (two_rounds self.now.chart.now).events l) }
        ensures { OnOk result (page.new.bytes.items
            ≡ page.old.bytes.items ++ again_stick style.entry self.now.chart.now k l) }
    {
        self.print_again(page, style.event_positions, k, l)?;
        let (s, t) = (self.output(k), self.output(l));
        self.print_needs(page, style.event_positions, s, t)?;
        self.print_waits(page, style.words, k, l)
    }

    /// Appends the line of the stick that is ahead of another.
    fn print_ahead(&self, page: &mut Page, ahead: (Event, Event)) -> Result<(), AllocError>
        requires first { ahead.0 < length (two_rounds self.now.chart.now).events }
        requires second { ahead.1 < length (two_rounds self.now.chart.now).events }
        ensures { OnOk result (page.new.bytes.items
            ≡ page.old.bytes.items ++ again_behind self.now.chart.now ahead) }
    {
        page.bytes.extend_from_slice(b"behind")?;
        self.print_spaced_name(page, ahead.0)?;
        self.print_spaced_name(page, ahead.1)?;
        page.bytes.extend_from_slice(b"\n")
    }

    /// Appends a run: by the names of its events, or in words, a line for each.
    fn print_run_in(&self, page: &mut Page, words: bool, run: &[Event]) -> Result<(), AllocError>
        requires { AreEventsOf (two_rounds self.now.chart.now) run.now }
        ensures { OnOk result (page.new.bytes.items
            ≡ page.old.bytes.items ++ round_run_text words self.now.chart.now run.now) }
    {
        match self.write_run_in(page, words, run) {
            Ok(()) => Ok(()),
            Err(_) => Err(AllocError),
        }
    }
}

impl EventNames for RoundNames<'_> {
    ghost drawing = { λ s. two_rounds s.chart.now };

    ghost stick_text = { λ s format p. ready_again_stick format s.chart.now p };

    ghost behind_text = { λ s format p. ready_again_behind format s.chart.now p };

    ghost run_lines = { λ s format run. ready_again_run format s.chart.now run };

    fn print_blocked_pair(
        &self,
        page: &mut Page,
        format: ReadyFormat<'_>,
        stick: (Event, Event),
    ) -> Result<(), AllocError> {
        let (k, l) = stick;
        match format {
            ReadyFormat::Lines(style) => self.print_stick(page, style, k, l),
            ReadyFormat::Count(_) => Ok(()),
            ReadyFormat::Editor(event_positions) => {
                let editor = Editor { event_positions };
                let (e, f) = (self.once(k), self.once(l));
                editor.print_again(page, self.chart, e, f, PairKind::Stick)
            }
        }
    }

    fn print_behind(
        &self,
        page: &mut Page,
        format: ReadyFormat<'_>,
        ahead: (Event, Event),
    ) -> Result<(), AllocError> {
        match format {
            ReadyFormat::Lines(_) => self.print_ahead(page, ahead),
            ReadyFormat::Count(_) => Ok(()),
            ReadyFormat::Editor(_) => Ok(()),
        }
    }

    fn print_run(
        &self,
        page: &mut Page,
        format: ReadyFormat<'_>,
        run: &[Event],
    ) -> Result<(), AllocError> {
        match format {
            ReadyFormat::Lines(style) => self.print_run_in(page, style.words, run),
            ReadyFormat::Count(_) => Ok(()),
            ReadyFormat::Editor(_) => Ok(()),
        }
    }
}

/// Lines of the closest races between two rounds, in a style.
#[derive(Clone, Copy)]
pub struct RoundLines<'s> {
    pub names: RoundNames<'s>,
    pub style: Style<'s>,
}

impl RoundLines<'_> {
    /// Appends why a pair is a race, if requested.
    fn print_cause(&self, page: &mut Page, cause: Option<Cause>) -> Result<(), AllocError>
        requires { MatchOption cause (Unit {0}) (NamesCause (two_rounds self.now.names.chart.now)) }
        ensures { OnOk result (page.new.bytes.items ≡ page.old.bytes.items
            ++ round_cause (event_positions_in self.now.style) self.now.names.chart.now cause) }
    {
        match cause {
            Some(cause) => {
                print_kind(page, &cause)?;
                let names = &self.names;
                names.print_needs(page, self.style.event_positions, cause.needed, cause.output)
            }
            None => Ok(()),
        }
    }

    /// Appends a race, without the run that shows it.
    fn print_bare(&self, page: &mut Page, finding: Finding) -> Result<(), AllocError>
        requires { NamesEvents (two_rounds self.now.names.chart.now) finding }
        ensures { OnOk result (page.new.bytes.items ≡ page.old.bytes.items
            ++ round_bare (event_positions_in self.now.style) self.now.names.chart.now finding) }
    {
        let names = &self.names;
        names.print_again(
            page,
            self.style.event_positions,
            finding.first,
            finding.second,
        )?;
        self.print_cause(page, finding.cause)
    }
}

impl<'s> Renderer for RoundLines<'s> {
    ghost fits = { λ s d. d ≡ two_rounds s.names.chart.now };

    ghost heading_text = { λ s d h. again_count h.counting };

    ghost run_text = { λ s d run. round_run_text s.style.words s.names.chart.now run };

    ghost finding_text = { λ s d f line.
        round_finding (event_positions_in s.style) s.names.chart.now f line };

    ghost end_text = { λ s d stale totals. [] };

    fn print_heading(
        &self,
        page: &mut Page,
        _chart: &Chart,
        heading: Heading,
    ) -> Result<(), AllocError> {
        match write_again_count(page, heading.counting) {
            Ok(()) => Ok(()),
            Err(_) => Err(AllocError),
        }
    }

    fn run_line(
        &self,
        alloc: Global,
        _chart: &Chart,
        run: &[Event],
    ) -> Result<Vec<u8>, AllocError> {
        let mut lines = Page::new(alloc);
        self.names.print_run_in(&mut lines, self.style.words, run)?;
        Ok(lines.bytes)
    }

    fn print_finding(
        &self,
        page: &mut Page,
        _chart: &Chart,
        finding: Finding,
        line: Option<&[u8]>,
    ) -> Result<(), AllocError> {
        self.print_bare(page, finding)?;
        if let Some(line) = line {
            page.bytes.extend_from_slice(line)?;
        }
        Ok(())
    }

    fn print_end(
        &self,
        _page: &mut Page,
        _chart: &Chart,
        _stale: &[Event],
        _totals: Option<Totals>,
    ) -> Result<(), AllocError> {
        Ok(())
    }
}

/// Lines for editors of the closest races between two rounds.
#[derive(Clone, Copy)]
pub struct RoundEditor<'s> {
    pub names: RoundNames<'s>,
    pub event_positions: &'s EventPositions<'s>,
}

impl RoundEditor<'_> {
    /// Writes both lines of a race.
    fn write_finding<W: Write>(&self, writer: &mut W, finding: Finding) -> io::Result<()>
        requires k_known { finding.first < length (two_rounds self.now.names.chart.now).events }
        requires l_known { finding.second < length (two_rounds self.now.names.chart.now).events }
        ensures { OnOk result (Appends (W.contents writer.old) (W.contents writer.new)
            (round_warning self.now.event_positions.now self.now.names.chart.now finding)) }
    {
        let (e, f) = (
            self.names.once(finding.first),
            self.names.once(finding.second),
        );
        let editor = Editor {
            event_positions: self.event_positions,
        };
        editor.write_again(
            writer,
            self.names.chart,
            e,
            f,
            PairKind::Race(finding.cause),
        )
    }
}

impl<'s> Renderer for RoundEditor<'s> {
    ghost fits = { λ s d. d ≡ two_rounds s.names.chart.now };

    ghost heading_text = { λ s d h. [] };

    ghost run_text = { λ s d run. [] };

    ghost finding_text = { λ s d f line. round_warning s.event_positions.now s.names.chart.now f };

    ghost end_text = { λ s d stale totals. [] };

    fn print_heading(
        &self,
        _page: &mut Page,
        _chart: &Chart,
        _heading: Heading,
    ) -> Result<(), AllocError> {
        Ok(())
    }

    fn run_line(
        &self,
        alloc: Global,
        _chart: &Chart,
        _run: &[Event],
    ) -> Result<Vec<u8>, AllocError> {
        Ok(Vec::new(alloc))
    }

    fn print_finding(
        &self,
        page: &mut Page,
        _chart: &Chart,
        finding: Finding,
        _line: Option<&[u8]>,
    ) -> Result<(), AllocError> {
        match self.write_finding(page, finding) {
            Ok(()) => Ok(()),
            Err(_) => Err(AllocError),
        }
    }

    fn print_end(
        &self,
        _page: &mut Page,
        _chart: &Chart,
        _stale: &[Event],
        _totals: Option<Totals>,
    ) -> Result<(), AllocError> {
        Ok(())
    }
}
