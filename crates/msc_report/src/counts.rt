//! The renderer of a count, one line for each chart, and that line of sticks.

ghost use Rattle.std.specs.Prelude.{◌≡◌, [], ◌++◌, OnOk};
ghost use Rattle.std.specs.Io.KnownBytes.{Appends};
ghost use Rattle.msc_report.specs.Counts.{ready_tally_line, tally_line};

use msc_chart::{Chart, Event};
use msc_judge::{Finding, Heading, Renderer, Totals};
use msc_place::writing::write_file;
use msc_print::Page;
use std::alloc::{AllocError, Global};
use std::io;
use std::io::Write;

/// One line with the number of races of a chart, of the closest of those that count, and the name
/// of its file.
#[derive(Drop)]
pub struct Counts<'f> {
    pub file: &'f [u8],
}

/// Writes the line of a file: that there are no races, or how many, and how many of those that
/// count are closest.
pub fn write_tally<W: Write>(writer: &mut W, file: &[u8], heading: Heading) -> io::Result<()>
    ensures { OnOk result (Appends (W.contents writer.old) (W.contents writer.new)
        (tally_line file.now heading)) }
{
    if heading.races == 0 {
        writer.write_all(b"pass ")?;
    } else {
        let (races, closest) = (heading.races, heading.closest.unwrap_or(0));
        write!(writer, "races {races} closest {closest} ")?;
    }
    write_file(writer, file)?;
    writer.write_all(b"\n")
}

/// Writes the line of a file: that there are no sticks, or how many, and how many of them are
/// first.
pub fn write_ready_tally<W: Write>(
    writer: &mut W,
    file: &[u8],
    sticks: u32,
    first: u32,
) -> io::Result<()>
    ensures { OnOk result (Appends (W.contents writer.old) (W.contents writer.new)
        (ready_tally_line file.now sticks first)) }
{
    if sticks == 0 {
        writer.write_all(b"finishes ")?;
    } else {
        write!(writer, "sticks {sticks} first {first} ")?;
    }
    write_file(writer, file)?;
    writer.write_all(b"\n")
}

impl<'f> Renderer for Counts<'f> {
    ghost fits = { λ s d. Unit {0} };

    ghost heading_text = { λ s d h. tally_line s.file.now h };

    ghost run_text = { λ s d run. [] };

    ghost finding_text = { λ s d f line. [] };

    ghost end_text = { λ s d stale totals. [] };

    fn print_heading(
        &self,
        page: &mut Page,
        _chart: &Chart,
        heading: Heading,
    ) -> Result<(), AllocError> {
        match write_tally(page, self.file, heading) {
            Ok(()) => Ok(()),
            Err(_) => Err(AllocError),
        }
    }

    fn run_line(
        &self,
        alloc: Global,
        _chart: &Chart,
        _run: &[Event],
    ) -> Result<Vec<u8>, AllocError> {
        Ok(Vec::new(alloc))
    }

    fn print_finding(
        &self,
        _page: &mut Page,
        _chart: &Chart,
        _finding: Finding,
        _line: Option<&[u8]>,
    ) -> Result<(), AllocError> {
        Ok(())
    }

    fn print_end(
        &self,
        _page: &mut Page,
        _chart: &Chart,
        _stale: &[Event],
        _totals: Option<Totals>,
    ) -> Result<(), AllocError> {
        Ok(())
    }
}
