//! The format of an answer on ready instances, and how sticks are printed in it.

ghost use Rattle.std.specs.Prelude.{◌≡◌, ◌++◌, ◌<◌, ℕ, List, OnOk, Option, length};
ghost use Rattle.std.specs.Option.{option_copied};
ghost use Rattle.msc_chart.specs.Drawings.{Drawing};
ghost use Rattle.msc_text.specs.StickFormats.{again_texts, comes_left_last, left_race_in, once_texts};
ghost use Rattle.msc_text.specs.StickFormats.{runs_in, showing_text};
ghost use Rattle.msc_text.specs.declared.stick_format.StickFormat.{StickFormat};
ghost use Rattle.msc_text.specs.Readied.{CanAppendStick};
ghost use Rattle.msc_chart.specs.Rounds.{two_rounds};

use msc_chart::Event;
use msc_findings::{FoundStick, FullFormat};
use msc_print::{Page, Pair};
use msc_report::{EventNames, OneRound, ReadyFormat, RoundNames};
use std::alloc::{AllocError, Global};

/// The format of an answer on ready instances.
#[derive(Clone, Copy)]
pub enum StickFormat<'f, 'w> {
    /// Lines of text, one line with numbers, or lines for editors.
    Plain(ReadyFormat<'f>),
    /// Findings for people: each stick and each race that is left, and a line with what was found.
    Full(FullFormat<'f, 'w>),
}

impl StickFormat<'_, '_> {
    /// The number of first sticks with a run, if `show` are requested.
    pub(crate) fn runs_shown(self, show: u32) -> u32
        ensures { result ≡ runs_in self.entry show }
    {
        match self {
            StickFormat::Plain(format) => format.runs_shown(show),
            StickFormat::Full(_) => show,
        }
    }

    /// Whether the races that are left follow the sticks between two rounds, and do not precede
    /// them.
    pub(crate) fn left_comes_last(self) -> bool
        ensures { result ≡ comes_left_last self.entry }
    {
        match self {
            StickFormat::Plain(format) => format.left_comes_last(),
            StickFormat::Full(_) => true,
        }
    }
}

/// The names of events in sticks, in each format.
pub(crate) trait StickNames: Drop {
    /// The chart whose events are named. For two rounds it is the chart of two rounds.
    ghost drawing: { Self → Drawing };

    /// The text of a stick in a format, with the stick that is ahead of it, or with its run.
    ghost text: { Self → StickFormat → ℕ × ℕ → Option (ℕ × ℕ) → Option (List ℕ) → List ℕ };

    /// Appends a stick in a format, with the stick that is ahead of it, or with its run. The only
    /// error is want of memory.
    fn print_stick(
        &self,
        alloc: Global,
        page: &mut Page,
        format: StickFormat<'_, '_>,
        stick: FoundStick<'_>,
    ) -> Result<(), AllocError>
        requires { CanAppendStick (drawing self.now) stick.pair stick.ahead
            (option_copied stick.run) }
        ensures { OnOk result (page.new.bytes.items ≡ page.old.bytes.items
            ++ text self.now format.entry stick.entry.pair stick.entry.ahead
            (option_copied stick.entry.run)) };
}

/// Appends what shows a stick: the one that is ahead of it, or its run.
fn print_shown<N: EventNames>(
    names: &N,
    page: &mut Page,
    format: ReadyFormat<'_>,
    stick: FoundStick<'_>,
) -> Result<(), AllocError>
    requires { CanAppendStick (N.drawing names.now) stick.pair stick.ahead
        (option_copied stick.run) }
    ensures { OnOk result (page.new.bytes.items ≡ page.old.bytes.items
        ++ showing_text (N.behind_text names.now format.entry)
        (N.run_lines names.now format.entry) stick.entry.ahead (option_copied stick.entry.run)) }
{
    if let Some(ahead) = stick.ahead {
        return names.print_behind(page, format, ahead);
    }
    match stick.run {
        Some(run) => names.print_run(page, format, run),
        None => Ok(()),
    }
}

/// Appends a stick with what shows it.
fn print_plain<N: EventNames>(
    names: &N,
    page: &mut Page,
    format: ReadyFormat<'_>,
    stick: FoundStick<'_>,
) -> Result<(), AllocError>
    requires { CanAppendStick (N.drawing names.now) stick.pair stick.ahead
        (option_copied stick.run) }
    ensures { OnOk result (page.new.bytes.items ≡ page.old.bytes.items
        ++ (N.stick_text names.now format.entry stick.entry.pair
        ++ showing_text (N.behind_text names.now format.entry)
        (N.run_lines names.now format.entry) stick.entry.ahead (option_copied stick.entry.run))) }
{
    names.print_blocked_pair(page, format, stick.pair)?;
    print_shown(names, page, format, stick)
}

impl StickNames for OneRound<'_> {
    ghost drawing = { λ s. s.chart.now };

    ghost text = { λ s format. once_texts format s.chart.now };

    fn print_stick(
        &self,
        alloc: Global,
        page: &mut Page,
        format: StickFormat<'_, '_>,
        stick: FoundStick<'_>,
    ) -> Result<(), AllocError> {
        match format {
            StickFormat::Plain(format) => print_plain(self, page, format, stick),
            StickFormat::Full(format) => format.print_stick(alloc, page, self.chart, stick),
        }
    }
}

impl StickNames for RoundNames<'_> {
    ghost drawing = { λ s. two_rounds s.chart.now };

    ghost text = { λ s format. again_texts format s.chart.now };

    fn print_stick(
        &self,
        alloc: Global,
        page: &mut Page,
        format: StickFormat<'_, '_>,
        stick: FoundStick<'_>,
    ) -> Result<(), AllocError> {
        match format {
            StickFormat::Plain(format) => print_plain(self, page, format, stick),
            StickFormat::Full(format) => {
                format.print_round_stick(alloc, page, self.chart, self.numbers, stick)
            }
        }
    }
}

/// Appends a race that is left, in a format. The only error is want of memory.
pub(crate) fn print_left_race(
    alloc: Global,
    page: &mut Page,
    names: OneRound<'_>,
    format: StickFormat<'_, '_>,
    race: Pair,
) -> Result<(), AllocError>
    requires first { race.0 < length names.chart.now.events }
    requires second { race.1 < length names.chart.now.events }
    ensures { OnOk result (page.new.bytes.items ≡ page.old.bytes.items
        ++ left_race_in format.entry names.entry.chart.now race) }
{
    match format {
        StickFormat::Plain(format) => names.print_left_race(page, format, race),
        StickFormat::Full(format) => format.print_left(alloc, page, race),
    }
}
