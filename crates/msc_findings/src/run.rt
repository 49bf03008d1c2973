//! The rows of a run.

ghost use Rattle.std.specs.Prelude.{◌≡◌, ◌++◌, IfOk, OnOk, map, slice_get};
ghost use Rattle.std.specs.List.{flat_map};
ghost use Rattle.std.specs.Option.{option_copied, option_map};
ghost use Rattle.std.specs.String.{string_bytes};
ghost use Rattle.msc_full.specs.Blocks.{texts_of};
ghost use Rattle.msc_findings.specs.Findings.{run_rows_text, step_in};
ghost use Rattle.msc_findings.specs.Runs.{joined, rows_in, rows_of_line, rows_text, step_of};

use msc_chart::Event;
use msc_full::{ShownEvent, ShownText};
use msc_wording::{SpokenStep, run_rows};
use std::alloc::{AllocError, Global};
use std::str;

/// Appends the step of event `e`, if there is such an event.
pub(crate) fn push_step<'t>(
    steps: &mut Vec<SpokenStep<'t>>,
    events: &[ShownEvent<'t>],
    e: Event,
    round: Option<usize>,
) -> Result<(), AllocError>
    ensures { OnOk result (steps.new.items ≡ steps.old.items
        ++ step_of round (slice_get events.now e)) }
{
    match events.get(e as usize) {
        Some(event) => {
            let event = event.spoken;
            steps.push(SpokenStep { event, round })?;
            Ok(())
        }
        None => Ok(()),
    }
}

/// The steps of a run of a chart.
pub(crate) fn run_steps<'w>(
    alloc: Global,
    text: ShownText<'_, 'w>,
    run: &[Event],
) -> Result<Vec<SpokenStep<'w>>, AllocError>
    ensures { IfOk result (λ steps. steps.items ≡ flat_map (step_in text.entry) run.now) }
{
    let mut steps = Vec::new(alloc);
    for e in run {
        push_step(&mut steps, text.events, *e, None)?;
    }
    Ok(steps)
}

/// These rows, lent.
pub(crate) fn lent_rows(alloc: Global, rows: &[String]) -> Result<Vec<&str>, AllocError>
    ensures { IfOk result (λ lent. texts_of lent.items ≡ map string_bytes rows.now) }
{
    let mut lent = Vec::new(alloc);
    for row in rows {
        lent.push(row.as_str())?;
    }
    Ok(lent)
}

/// These rows, each with its line feed.
fn joined(alloc: Global, rows: &[String]) -> Result<Vec<u8>, AllocError>
    ensures { IfOk result (λ bytes. bytes.items ≡ joined (map string_bytes rows.now)) }
{
    let mut bytes = Vec::new(alloc);
    for row in rows {
        bytes.extend_from_slice(row.as_bytes())?;
        bytes.extend_from_slice(b"\n")?;
    }
    Ok(bytes)
}

/// The rows of these steps, each with its line feed.
pub(crate) fn rows_text(
    alloc: Global,
    text: ShownText<'_, '_>,
    steps: &[SpokenStep<'_>],
) -> Result<Vec<u8>, AllocError>
    ensures { IfOk result (λ bytes. bytes.items ≡ rows_text text.entry steps.now) }
{
    let rows = run_rows(alloc, text.names, steps)?;
    let bytes = joined(alloc, rows.as_slice())?;
    Ok(bytes)
}

/// The rows of a run of a chart, each with its line feed.
pub(crate) fn run_text(
    alloc: Global,
    text: ShownText<'_, '_>,
    run: &[Event],
) -> Result<Vec<u8>, AllocError>
    ensures { IfOk result (λ bytes. bytes.items ≡ run_rows_text text.entry run.now) }
{
    let steps = run_steps(alloc, text, run)?;
    let bytes = rows_text(alloc, text, steps.as_slice())?;
    Ok(bytes)
}

/// The rows among these bytes, which are UTF-8.
fn rows_in<'l>(alloc: Global, bytes: &'l [u8]) -> Result<Vec<&'l str>, AllocError>
    ensures { IfOk result (λ rows. texts_of rows.items ≡ rows_in bytes.now) }
{
    match str::from_utf8(bytes) {
        Ok(text) => text.lines().collect(alloc),
        Err(_) => Ok(Vec::new(alloc)),
    }
}

/// The rows of a run, if one is printed.
pub(crate) fn rows_of_line<'l>(
    alloc: Global,
    line: Option<&'l [u8]>,
) -> Result<Option<Vec<&'l str>>, AllocError>
    ensures { IfOk result (λ rows. option_map (λ them. texts_of them.items) rows
        ≡ rows_of_line (option_copied line.entry)) }
{
    match line {
        Some(line) => Ok(Some(rows_in(alloc, line)?)),
        None => Ok(None),
    }
}
