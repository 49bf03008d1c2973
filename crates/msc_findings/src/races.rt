//! The renderer of the races of a chart.

ghost use Rattle.std.specs.Prelude.{◌≡◌, ◌++◌, false, nat_eq, length, IfOk, None};
ghost use Rattle.msc_full.specs.Steps.{AreStepsOf};
ghost use Rattle.msc_findings.specs.Findings.{end_text, finding_text, never_part, run_text, step_in};

use crate::format::FullFormat;
use crate::race::{FindingNotes, finding_text};
use crate::run::run_text;
use msc_chart::{Chart, Event};
use msc_full::{chart_steps, never_text};
use msc_judge::{Finding, Heading, Renderer, Totals};
use msc_print::Page;
use std::alloc::{AllocError, Global};

/// The races of a chart as people read them.
#[derive(Clone, Copy)]
pub struct FullRaces<'f, 'w, 'r> {
    pub alloc: Global,
    pub format: FullFormat<'f, 'w>,
    /// The steps of the ring by which no run keeps the drawing, if none does.
    pub ring: &'r [(Event, Event)],
}

impl Renderer for FullRaces<'_, '_, '_> {
    ghost fits = { λ s d. AreStepsOf d s.ring.now };

    ghost heading_text = { λ s d h. never_part s.format d s.ring.now };

    ghost run_text = { λ s d run. run_text s.format run };

    ghost finding_text = { λ s d f line. finding_text s.format.text false f line };

    ghost end_text = { λ s d stale totals.
        end_text s.format (nat_eq (length s.ring.now) 0) stale totals };

    fn print_heading(
        &self,
        page: &mut Page,
        chart: &Chart,
        _heading: Heading,
    ) -> Result<(), AllocError> {
        let steps = chart_steps(self.alloc, chart, self.ring)?;
        let text = never_text(self.alloc, self.format.text, steps.as_slice())?;
        page.bytes.extend_from_slice(text.as_slice())
    }

    fn run_line(
        &self,
        alloc: Global,
        _chart: &Chart,
        run: &[Event],
    ) -> Result<Vec<u8>, AllocError> {
        run_text(alloc, self.format.text, run)
    }

    fn print_finding(
        &self,
        page: &mut Page,
        _chart: &Chart,
        finding: Finding,
        line: Option<&[u8]>,
    ) -> Result<(), AllocError> {
        let notes = FindingNotes {
            is_next: false,
            scenarios: None,
            line,
        };
        let text = finding_text(self.alloc, self.format.text, finding, notes)?;
        page.bytes.extend_from_slice(text.as_slice())
    }

    fn print_end(
        &self,
        page: &mut Page,
        _chart: &Chart,
        stale: &[Event],
        totals: Option<Totals>,
    ) -> Result<(), AllocError> {
        self.format.print_marks(self.alloc, page, stale)?;
        self.format
            .print_closing(self.alloc, page, totals, self.ring.is_empty())
    }
}
