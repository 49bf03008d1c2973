//! Prints stale marks: those that accept no race.

ghost use Rattle.std.specs.Prelude.{◌≡◌, ◌++◌, List, [], OnOk};
ghost use Rattle.std.specs.List.{flat_map};
ghost use Rattle.std.specs.Option.{option_copied, option_map_or};
ghost use Rattle.msc_mermaid.specs.Lines.{starts_of};
ghost use Rattle.msc_place.specs.Texts.{place_text};
ghost use Rattle.msc_diagram.specs.Stale.{each_stale, editor_at, line_at, stale_at_position, stale_by};
ghost use Rattle.msc_diagram.specs.Stale.{stale_diagnostic};

use crate::cases::RaceFormat;
use crate::check::UsedMarks;
use crate::full::FullDiagram;
use msc_arrow_marks::ArrowMark;
use msc_full::{StaleMark, stale_text};
use msc_mermaid::starts_of;
use msc_place::Position;
use msc_place::writing::write_place;
use msc_print::Page;
use msc_scenario_marks::mark_place;
use msc_shown_chart::{file_said, position_said};
use std::alloc::{AllocError, Global};

/// Appends a place in a file to a page.
fn print_position(page: &mut Page, file: &str, position: Position) -> Result<(), AllocError>
    ensures { OnOk result (page.new.bytes.items ≡ page.old.bytes.items
        ++ place_text file.now position.line position.column) }
{
    match write_place(page, file.as_bytes(), position) {
        Ok(()) => Ok(()),
        Err(_) => Err(AllocError),
    }
}

/// The marks of a diagram, and where the lines of its text begin.
#[derive(Clone, Copy)]
struct PlacedMarks<'a> {
    used: UsedMarks<'a>,
    starts: &'a [usize],
}

/// Appends the lines of a stale mark to a page.
fn print_line(page: &mut Page, file: &str, position: Position) -> Result<(), AllocError>
    ensures { OnOk result (page.new.bytes.items
        ≡ page.old.bytes.items ++ line_at (place_text file.now position.line position.column)) }
{
    page.bytes.extend_from_slice(b"stale\nat ")?;
    print_position(page, file, position)?;
    page.bytes.extend_from_slice(b"\n")
}

/// Appends the line for editors of a stale mark to a page.
fn print_editor(page: &mut Page, file: &str, position: Position) -> Result<(), AllocError>
    ensures { OnOk result (page.new.bytes.items
        ≡ page.old.bytes.items ++ editor_at (place_text file.now position.line position.column)) }
{
    print_position(page, file, position)?;
    page.bytes.extend_from_slice(b": warning: stale [stale]\n")
}

/// Appends the diagnostic of a stale mark at this place to a page.
fn print_diagnostic(
    alloc: Global,
    page: &mut Page,
    shown: FullDiagram<'_, '_>,
    place: &str,
    mark: Option<&ArrowMark>,
) -> Result<(), AllocError>
    ensures { OnOk result (page.new.bytes.items ≡ page.old.bytes.items
        ++ option_map_or (stale_diagnostic shown.entry place.now) (option_copied mark.entry) []) }
{
    let Some(mark) = mark else {
        return Ok(());
    };
    let stale = StaleMark {
        first: mark.comment.first,
        past: mark.comment.past,
        place,
        has_arrow: mark.arrow.is_some(),
    };
    let text = stale_text(alloc, shown.lent.text_alone(shown.names.colours), stale)?;
    page.bytes.extend_from_slice(text.as_slice())
}

/// Appends a stale mark at this position to a page in a format.
fn print_at(
    alloc: Global,
    page: &mut Page,
    format: RaceFormat<'_, '_>,
    file: &str,
    stale: (Position, Option<&ArrowMark>),
) -> Result<(), AllocError>
    ensures { OnOk result (page.new.bytes.items ≡ page.old.bytes.items
        ++ stale_at_position format.entry file.now stale.entry.0 (option_copied stale.entry.1)) }
{
    let (position, mark) = stale;
    match format {
        RaceFormat::Lines(_) => print_line(page, file, position),
        RaceFormat::Editor => print_editor(page, file, position),
        RaceFormat::Full(races) => {
            let file = file_said(alloc, file.as_bytes())?;
            let place = position_said(alloc, file.as_str(), position)?;
            print_diagnostic(alloc, page, races.shown, place.as_str(), mark)
        }
    }
}

/// Appends a stale mark to a page in a format.
fn print_one(
    alloc: Global,
    page: &mut Page,
    format: RaceFormat<'_, '_>,
    marks: PlacedMarks<'_>,
    mark: usize,
) -> Result<(), AllocError>
    requires { marks.starts.now ≡ starts_of marks.used.accepted.now.text }
    ensures { OnOk result (page.new.bytes.items ≡ page.old.bytes.items
        ++ stale_by format.entry marks.entry.used mark) }
{
    let position = mark_place(marks.used.accepted, marks.starts, mark);
    let own = marks.used.accepted.marks().get(mark);
    print_at(alloc, page, format, marks.used.file, (position, own))
}

/// Appends these stale marks to a page in a format.
fn print_each(
    alloc: Global,
    page: &mut Page,
    format: RaceFormat<'_, '_>,
    marks: PlacedMarks<'_>,
    stale: &[usize],
) -> Result<(), AllocError>
    requires { marks.starts.now ≡ starts_of marks.used.accepted.now.text }
    ensures { OnOk result (page.new.bytes.items ≡ page.old.bytes.items
        ++ flat_map (stale_by format.entry marks.entry.used) stale.now) }
{
    for mark in stale {
        print_one(alloc, page, format, marks, *mark)?;
    }
    Ok(())
}

/// Appends these stale marks to a page in a format. It looks once where lines begin.
fn print_marks(
    alloc: Global,
    page: &mut Page,
    format: RaceFormat<'_, '_>,
    used: UsedMarks<'_>,
    stale: &[usize],
) -> Result<(), AllocError>
    ensures { OnOk result (page.new.bytes.items ≡ page.old.bytes.items
        ++ flat_map (stale_by format.entry used.entry) stale.now) }
{
    let starts = starts_of(alloc, used.accepted.text())?;
    let marks = PlacedMarks {
        used,
        starts: starts.as_slice(),
    };
    print_each(alloc, page, format, marks, stale)
}

/// Appends these stale marks to a page in a format, if marks are used.
pub(crate) fn print_stale(
    alloc: Global,
    page: &mut Page,
    format: RaceFormat<'_, '_>,
    marks: Option<UsedMarks<'_>>,
    stale: &[usize],
) -> Result<(), AllocError>
    ensures { OnOk result (page.new.bytes.items ≡ page.old.bytes.items
        ++ each_stale marks.entry (stale_by format.entry) stale.now) }
{
    match marks {
        Some(marks) => print_marks(alloc, page, format, marks, stale),
        None => Ok(()),
    }
}
