//! The renderer that writes nothing.

ghost use Rattle.std.specs.Prelude.{[]};

use crate::renderer::{Finding, Heading, Renderer, Totals};
use msc_chart::{Chart, Event};
use msc_print::Page;
use std::alloc::{AllocError, Global};

/// Writes nothing, if only the answer counts.
#[derive(Clone, Copy)]
pub struct Silent;

impl Renderer for Silent {
    ghost fits = { λ s d. Unit {0} };

    ghost heading_text = { λ s d h. [] };

    ghost run_text = { λ s d run. [] };

    ghost finding_text = { λ s d f line. [] };

    ghost end_text = { λ s d stale totals. [] };

    fn print_heading(
        &self,
        _page: &mut Page,
        _chart: &Chart,
        _heading: Heading,
    ) -> Result<(), AllocError> {
        Ok(())
    }

    fn run_line(
        &self,
        alloc: Global,
        _chart: &Chart,
        _run: &[Event],
    ) -> Result<Vec<u8>, AllocError> {
        Ok(Vec::new(alloc))
    }

    fn print_finding(
        &self,
        _page: &mut Page,
        _chart: &Chart,
        _finding: Finding,
        _line: Option<&[u8]>,
    ) -> Result<(), AllocError> {
        Ok(())
    }

    fn print_end(
        &self,
        _page: &mut Page,
        _chart: &Chart,
        _stale: &[Event],
        _totals: Option<Totals>,
    ) -> Result<(), AllocError> {
        Ok(())
    }
}
