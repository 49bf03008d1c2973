//! The texts of a renderer, as texts that a printer prints.

ghost use Rattle.std.specs.Prelude.{◌<◌, length, option_map};
ghost use Rattle.std.specs.List.{All};
ghost use Rattle.msc_judge.specs.Renderings.{NamesEvents};

use crate::renderer::{Finding, Heading, Renderer, Totals};
use msc_chart::{Chart, Event};
use msc_print::{Page, Text};
use std::alloc::AllocError;

/// The text of a heading.
#[derive(Drop)]
pub struct HeadingText<'t, R: Renderer> {
    pub renderer: &'t R,
    pub chart: &'t Chart,
    pub heading: Heading,
}

impl<'t, R: Renderer> Text for HeadingText<'t, R> {
    ghost can_append = { λ t. R.fits t.renderer.now t.chart.now };

    ghost bytes = { λ t. R.heading_text t.renderer.now t.chart.now t.heading };

    fn append(&self, page: &mut Page) -> Result<(), AllocError> {
        self.renderer.print_heading(page, self.chart, self.heading)
    }
}

/// The text of a finding, with the line of the run that shows it if it is shown.
#[derive(Drop)]
pub struct FindingText<'t, 'l, R: Renderer> {
    pub renderer: &'t R,
    pub chart: &'t Chart,
    pub finding: Finding,
    pub line: Option<&'l [u8]>,
}

impl<'t, 'l, R: Renderer> Text for FindingText<'t, 'l, R> {
    ghost can_append = { λ t. R.fits t.renderer.now t.chart.now × NamesEvents t.chart.now t.finding };

    ghost bytes = { λ t. R.finding_text t.renderer.now t.chart.now t.finding
        (option_map (λ l. l.now) t.line) };

    #[inline(always)]
    fn append(&self, page: &mut Page) -> Result<(), AllocError> {
        self.renderer
            .print_finding(page, self.chart, self.finding, self.line)
    }
}

/// The text after the last finding, with the events whose marks accept no race; and, if it closes
/// the answer, with what the answer found.
#[derive(Drop)]
pub struct EndText<'t, R: Renderer> {
    pub renderer: &'t R,
    pub chart: &'t Chart,
    pub stale: &'t [Event],
    pub totals: Option<Totals>,
}

impl<'t, R: Renderer> Text for EndText<'t, R> {
    ghost can_append = { λ t. R.fits t.renderer.now t.chart.now
        × All (λ e. e < length t.chart.now.events) t.stale.now };

    ghost bytes = { λ t. R.end_text t.renderer.now t.chart.now t.stale.now t.totals };

    fn append(&self, page: &mut Page) -> Result<(), AllocError> {
        self.renderer
            .print_end(page, self.chart, self.stale, self.totals)
    }
}
