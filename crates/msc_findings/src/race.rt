//! The diagnostic of a finding.

ghost use Rattle.std.specs.Prelude.{◌≡◌, IfOk, Some};
ghost use Rattle.std.specs.Option.{option_copied, option_map};
ghost use Rattle.msc_full.specs.Blocks.{rows_of, texts_of};
ghost use Rattle.msc_findings.specs.Findings.{cause_text, finding_with};

use crate::run::rows_of_line;
use msc_full::{ShownRace, ShownText, race_text};
use msc_judge::Finding;
use msc_reason::Cause;
use std::alloc::{AllocError, Global};

/// These rows, lent, if there are any.
fn lent<'r, 'l>(rows: &'r Option<Vec<&'l str>>) -> Option<&'r [&'l str]>
    ensures { rows_of result ≡ option_map (λ them. texts_of them.items) rows.entry.now }
{
    match rows {
        Some(rows) => Some(rows.as_slice()),
        None => None,
    }
}

/// What a diagnostic says of a finding besides its cause.
#[derive(Clone, Copy)]
pub(crate) struct FindingNotes<'n> {
    /// Whether the second event is of the next round.
    pub is_next: bool,
    /// A note on the scenarios in which it is a race, if there is one.
    pub scenarios: Option<&'n str>,
    /// The text of a run that shows it, if one is given.
    pub line: Option<&'n [u8]>,
}

/// The diagnostic of a finding with this cause.
fn cause_text(
    alloc: Global,
    text: ShownText<'_, '_>,
    finding: Finding,
    cause: Cause,
    notes: FindingNotes<'_>,
) -> Result<Vec<u8>, AllocError>
    ensures { IfOk result (λ bytes. bytes.items
        ≡ cause_text text.entry finding notes.entry.is_next (option_copied notes.entry.scenarios)
        (option_copied notes.entry.line) (Some cause)) }
{
    let rows = rows_of_line(alloc, notes.line)?;
    let race = ShownRace {
        first: finding.first,
        second: finding.second,
        cause,
        is_next: notes.is_next,
        scenarios: notes.scenarios,
        run: lent(&rows),
    };
    let bytes = race_text(alloc, text, race)?;
    Ok(bytes)
}

/// The diagnostic of a finding with these notes. It is empty if the finding has no cause.
pub(crate) fn finding_text(
    alloc: Global,
    text: ShownText<'_, '_>,
    finding: Finding,
    notes: FindingNotes<'_>,
) -> Result<Vec<u8>, AllocError>
    ensures { IfOk result (λ bytes. bytes.items
        ≡ finding_with text.entry finding notes.entry.is_next (option_copied notes.entry.scenarios)
        (option_copied notes.entry.line)) }
{
    match finding.cause {
        Some(cause) => cause_text(alloc, text, finding, cause, notes),
        None => Ok(Vec::new(alloc)),
    }
}
