//! What closes the findings of a diagram as people read them.

ghost use Rattle.std.specs.Prelude.{◌≡◌, ◌++◌, OnOk};
ghost use Rattle.msc_findings.specs.Closing.{marked_help};
ghost use Rattle.msc_wording.specs.declared.closing.MarkedText.TheVariants.{Diagram};
ghost use Rattle.msc_diagram.specs.Closing.{check_of, closing_text, following_by, found_of};
ghost use Rattle.msc_diagram.specs.Closing.{has_marks, shown_of};

use crate::check::UsedMarks;
use crate::full::FullDiagram;
use crate::numbers::PlaceCounts;
use msc_findings::{Following, print_diagram_help};
use msc_print::Page;
use msc_wording::{RacesFound, SpokenCheck};
use std::alloc::{AllocError, Global};

/// The races found in `scenarios` scenarios, of which `passed` have none that counts.
fn found_of(listed: u32, scenarios: usize, passed: usize) -> RacesFound
    ensures { result ≡ found_of listed scenarios passed }
{
    let races = listed as usize;
    if scenarios == 1 {
        return RacesFound::InOneScenario(races);
    }
    RacesFound::InScenarios {
        races,
        scenarios,
        free: passed,
    }
}

/// The number of printed findings, if `most` leaves some of the `listed` ones out.
fn shown_of(listed: u32, most: u32) -> Option<usize>
    ensures { result ≡ shown_of listed most }
{
    if listed <= most {
        return None;
    }
    Some(most as usize)
}

/// What a check of `scenarios` scenarios found, of which `passed` have no race that counts, and
/// `stale` stale marks. It prints at most `most` findings.
fn check_of(
    counts: PlaceCounts,
    stale: usize,
    most: u32,
    scenarios: usize,
    passed: usize,
) -> SpokenCheck
    ensures { result ≡ check_of counts stale most scenarios passed }
{
    let left_out = counts.allowed.unwrap_or(0);
    let accepted = counts.accepted.unwrap_or(0);
    let wider = counts
        .races
        .saturating_sub(left_out)
        .saturating_sub(accepted)
        .saturating_sub(counts.listed);
    SpokenCheck {
        found: found_of(counts.listed, scenarios, passed),
        wider: wider as usize,
        left_out: left_out as usize,
        accepted: accepted as usize,
        stale,
        shown: shown_of(counts.listed, most),
        can_happen: true,
    }
}

/// Whether marks are used, and the diagram has some.
pub fn has_marks(marks: Option<UsedMarks<'_>>) -> bool
    ensures { result ≡ has_marks marks.entry }
{
    match marks {
        Some(marks) => 0 < marks.accepted.marks().len(),
        None => false,
    }
}

/// Appends the lines that follow the closing line of a diagram with `listed` listed races; `marked`
/// says whether it has marks.
fn print_following(
    alloc: Global,
    page: &mut Page,
    shown: FullDiagram<'_, '_>,
    listed: u32,
    marked: bool,
) -> Result<(), AllocError>
    ensures { OnOk result (page.new.bytes.items ≡ page.old.bytes.items
        ++ following_by shown.entry.following listed marked
        (marked_help Diagram shown.entry.names.colours)) }
{
    match shown.following {
        Following::Help => {
            if marked || listed == 0 {
                return Ok(());
            }
            print_diagram_help(alloc, page, shown.names.colours)
        }
        Following::Blank => page.bytes.extend_from_slice(b"\n"),
    }
}

/// Appends the closing line of a diagram of `scenarios` scenarios, of which `passed` have no race
/// that counts, with `stale` stale marks, and what follows it.
pub(crate) fn print_closing(
    alloc: Global,
    page: &mut Page,
    shown: FullDiagram<'_, '_>,
    marks: Option<UsedMarks<'_>>,
    counts: PlaceCounts,
    stale: usize,
    most: u32,
    scenarios: usize,
    passed: usize,
) -> Result<(), AllocError>
    ensures { OnOk result (page.new.bytes.items ≡ page.old.bytes.items
        ++ closing_text shown.entry marks.entry counts stale most scenarios passed) }
{
    let check = check_of(counts, stale, most, scenarios, passed);
    shown.names.print_check(alloc, page, check)?;
    print_following(alloc, page, shown, counts.listed, has_marks(marks))
}
