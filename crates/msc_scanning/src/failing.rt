//! Paths that fail.

ghost use Rattle.std.specs.Prelude.{◌≡◌};
ghost use Rattle.msc_scanning.specs.Refusing.{PutsFailed};
ghost use Rattle.msc_scanning.specs.Putting.{Gives};

use crate::outcome::Outcome;
use crate::putting::put_header;
use crate::refusing::{counted_line, ended};
use crate::words::Plan;
use msc_answer::{Format, Status, unread_words, write_cause};
use msc_diagnostic::{Diagnostic, Level, LineEnds, Source, diagnostic_text};
use msc_place::writing::write_file;
use msc_print::Page;
use msc_report::Fault;
use msc_shown_chart::file_said;
use std::alloc::{AllocError, Global};
use std::io;
use std::io::Write;

/// Why a path fails.
#[derive(Clone, Copy)]
pub(crate) enum Failure<'e> {
    /// A file or a folder that cannot be read.
    Unread(&'e io::Error),
    /// No file of it has a chart or a sequence diagram.
    Nothing,
    /// A folder below too many others.
    TooDeep,
}

impl<'e> Failure<'e> {
    /// Its stage and number.
    fn id(self) -> &'static str {
        match self {
            Failure::Unread(_) => "device",
            Failure::Nothing => "scan 1",
            Failure::TooDeep => "scan 2",
        }
    }

    /// What it says of the path.
    fn sentence(self) -> &'static str {
        match self {
            Failure::Unread(_) => "device fault",
            Failure::Nothing => "no chart and no sequence diagram here",
            Failure::TooDeep => "more than 64 levels of folders",
        }
    }

    /// Its fixed line.
    fn line(self) -> &'static str {
        match self {
            Failure::Unread(_) => "device fault\n",
            Failure::Nothing => "scan fault 1: no chart and no sequence diagram here\n",
            Failure::TooDeep => "scan fault 2: more than 64 levels of folders\n",
        }
    }
}

/// A failure as people read it, with an empty line after it.
fn failure_block(
    alloc: Global,
    colours: bool,
    name: &str,
    failure: Failure<'_>,
) -> Result<Vec<u8>, AllocError> {
    if let Failure::Unread(error) = failure {
        return unread_words(alloc, colours, name, error);
    }
    let file = file_said(alloc, name.as_bytes())?;
    let source = Source::new(alloc, b"", LineEnds::LineFeed)?;
    let diagnostic = Diagnostic {
        level: Level::Error,
        id: failure.id(),
        sentence: failure.sentence(),
        place: Some(file.as_str()),
        marks: &[],
        notes: &[],
    };
    let bytes = diagnostic_text(alloc, &source, &diagnostic, colours)?;
    Ok(bytes)
}

/// Writes the cause of a failure, after these bytes.
fn write_why<W: Write>(
    writer: &mut W,
    name: &str,
    failure: Failure<'_>,
    before: &[u8],
) -> io::Result<()> {
    if let Failure::Unread(error) = failure {
        writer.write_all(before)?;
        return write_cause(writer, name, error);
    }
    Ok(())
}

/// Writes a failure in text: the line of the path, the fixed line, and the cause if notes are
/// requested.
fn write_text<W: Write>(
    writer: &mut W,
    plan: Plan<'_>,
    name: &str,
    failure: Failure<'_>,
) -> io::Result<()> {
    put_header(plan, name.as_bytes(), false, writer)?;
    writer.write_all(failure.line().as_bytes())?;
    if !plan.args.notes {
        return Ok(());
    }
    write_why(writer, name, failure, b"")
}

/// Writes a failure for editors.
fn write_lines<W: Write>(writer: &mut W, name: &str, failure: Failure<'_>) -> io::Result<()> {
    write_file(writer, name.as_bytes())?;
    writer.write_all(b":1:1: error: ")?;
    writer.write_all(failure.line().as_bytes())?;
    if let Failure::Unread(error) = failure {
        write_file(writer, name.as_bytes())?;
        writer.write_all(b":1:1: note: ")?;
        return write_cause(writer, name, error);
    }
    Ok(())
}

/// A failure in the format of a scan.
fn failure_page(
    alloc: Global,
    plan: Plan<'_>,
    name: &str,
    failure: Failure<'_>,
) -> Result<Page, AllocError> {
    let mut page = Page::new(alloc);
    let written = match plan.args.words.check_args.format {
        Format::Text => write_text(&mut page, plan, name, failure),
        Format::Count => return counted_line(alloc, b"failed ", name.as_bytes()),
        Format::Lines => write_lines(&mut page, name, failure),
        Format::Full => {
            let colours = plan.args.words.check_args.colours;
            page.bytes = failure_block(alloc, colours, name, failure)?;
            Ok(())
        }
    };
    page.if_written(written)
}

/// Writes that a path fails.
pub(crate) fn put_failure<O: Write>(
    alloc: Global,
    plan: Plan<'_>,
    name: &str,
    failure: Failure<'_>,
    output: &mut O,
) -> Result<Outcome, Fault>
    ensures { Gives O.contents (PutsFailed plan.entry) result output.old output.new }
{
    if !plan.args.words.quiet {
        let page = failure_page(alloc, plan, name, failure)?;
        output.write_all(page.bytes.as_slice())?;
    }
    Ok(ended(Status::Failed))
}
