//! The renderer of the races between two rounds of a chart.

ghost use Rattle.std.specs.Prelude.{◌≡◌, ◌<◌, ◌++◌, [], true, nat_eq, length, option_map, MatchOption, IfOk};
ghost use Rattle.msc_chart.specs.Rounds.{event_of, round_of, two_rounds};
ghost use Rattle.msc_judge.specs.Renderings.{NamesEvents};
ghost use Rattle.std.specs.List.{flat_map};
ghost use Rattle.msc_reason.specs.Named.{AreEventsOf, NamesCause};
ghost use Rattle.msc_findings.specs.Findings.{end_text, finding_text};
ghost use Rattle.msc_findings.specs.Rounds.{cause_once, once, round_finding, round_run, step_at};

use crate::format::FullFormat;
use crate::race::{FindingNotes, finding_text};
use crate::run::{push_step, rows_text};
use msc_chart::{Chart, Event, RoundNumbers};
use msc_full::ShownText;
use msc_judge::{Finding, Heading, Renderer, Totals};
use msc_print::Page;
use msc_reason::Cause;
use msc_wording::SpokenStep;
use std::alloc::{AllocError, Global};

/// The races between two rounds of a chart as people read them.
#[derive(Clone, Copy)]
pub struct FullRounds<'f, 'w, 'r> {
    pub alloc: Global,
    pub format: FullFormat<'f, 'w>,
    /// The events of the chart in two rounds.
    pub numbers: &'r RoundNumbers<'r>,
    /// Whether some run keeps the drawing of the chart.
    pub can_happen: bool,
}

/// The event of the chart that event `k` of two rounds is, and its round, from 0.
fn place(numbers: &RoundNumbers<'_>, k: Event) -> (Event, u32)
    requires { k < length (two_rounds numbers.now).events }
    ensures event { result.0 ≡ once numbers.now k }
    ensures round { result.1 ≡ round_of 2 numbers.now.events k }
    ensures known { result.0 < length numbers.now.events }
    ensures few { result.1 < 2 }
{
    numbers.place(k)
}

/// The event of the chart that event `k` of two rounds is.
pub(crate) fn once(numbers: &RoundNumbers<'_>, k: Event) -> Event
    requires { k < length (two_rounds numbers.now).events }
    ensures event { result ≡ once numbers.now k }
    ensures known { result < length numbers.now.events }
{
    place(numbers, k).0
}

/// The steps of a run of two rounds.
pub(crate) fn round_steps<'w>(
    alloc: Global,
    text: ShownText<'_, 'w>,
    numbers: &RoundNumbers<'_>,
    run: &[Event],
) -> Result<Vec<SpokenStep<'w>>, AllocError>
    requires { AreEventsOf (two_rounds numbers.now) run.now }
    ensures { IfOk result (λ steps. steps.items
        ≡ flat_map (step_at text.entry numbers.now) run.now) }
{
    let mut steps = Vec::new(alloc);
    for k in run {
        let (e, round) = place(numbers, *k);
        push_step(&mut steps, text.events, e, Some(round as usize + 1))?;
    }
    Ok(steps)
}

impl FullRounds<'_, '_, '_> {
    /// A cause by the events of the chart.
    fn cause_once(&self, cause: Cause) -> Cause
        requires { NamesCause (two_rounds self.now.numbers.now) cause }
        ensures { result ≡ cause_once self.now.numbers.now cause }
    {
        Cause {
            needed: once(self.numbers, cause.needed),
            output: once(self.numbers, cause.output),
            ..cause
        }
    }

    /// A finding by the events of the chart.
    fn finding_once(&self, finding: Finding) -> Finding
        requires { NamesEvents (two_rounds self.now.numbers.now) finding }
        ensures { result ≡ round_finding self.now.numbers.now finding }
    {
        let cause = match finding.cause {
            Some(cause) => Some(self.cause_once(cause)),
            None => None,
        };
        Finding {
            number: finding.number,
            first: once(self.numbers, finding.first),
            second: once(self.numbers, finding.second),
            cause,
        }
    }
}

impl Renderer for FullRounds<'_, '_, '_> {
    ghost fits = { λ s d. d ≡ two_rounds s.numbers.now };

    ghost heading_text = { λ s d h. [] };

    ghost run_text = { λ s d run. round_run s.format s.numbers.now run };

    ghost finding_text = { λ s d f line.
        finding_text s.format.text true (round_finding s.numbers.now f) line };

    ghost end_text = { λ s d stale totals. end_text s.format s.can_happen stale totals };

    fn print_heading(
        &self,
        _page: &mut Page,
        _chart: &Chart,
        _heading: Heading,
    ) -> Result<(), AllocError> {
        Ok(())
    }

    fn run_line(
        &self,
        alloc: Global,
        _chart: &Chart,
        run: &[Event],
    ) -> Result<Vec<u8>, AllocError> {
        let text = self.format.text;
        let steps = round_steps(alloc, text, self.numbers, run)?;
        let bytes = rows_text(alloc, text, steps.as_slice())?;
        Ok(bytes)
    }

    fn print_finding(
        &self,
        page: &mut Page,
        _chart: &Chart,
        finding: Finding,
        line: Option<&[u8]>,
    ) -> Result<(), AllocError> {
        let finding = self.finding_once(finding);
        let notes = FindingNotes {
            is_next: true,
            scenarios: None,
            line,
        };
        let text = finding_text(self.alloc, self.format.text, finding, notes)?;
        page.bytes.extend_from_slice(text.as_slice())
    }

    fn print_end(
        &self,
        page: &mut Page,
        _chart: &Chart,
        stale: &[Event],
        totals: Option<Totals>,
    ) -> Result<(), AllocError> {
        self.format.print_marks(self.alloc, page, stale)?;
        self.format
            .print_closing(self.alloc, page, totals, self.can_happen)
    }
}
