//! Runs in words.

ghost use Rattle.std.specs.Prelude.{◌-◌, ◌≡◌, IfOk, decimal, length, map, replicate};
ghost use Rattle.std.specs.String.{string_bytes};
ghost use Rattle.msc_wording.specs.Runs.{number_text, round_text, run_row, run_rows, step_text};

use crate::event::{SpokenEvent, does_at, name_at};
use std::alloc::{AllocError, Global};

/// An event of a run.
#[derive(Clone, Copy)]
pub struct SpokenStep<'t> {
    pub event: SpokenEvent<'t>,
    /// The round that it is of, from 1, if the run is one of several rounds.
    pub round: Option<usize>,
}

/// So many blanks.
fn blanks(alloc: Global, count: usize) -> Result<String, AllocError>
    ensures { IfOk result (λ text. string_bytes text ≡ replicate count 32) }
{
    let mut text = String::new(alloc);
    for _i in 0..count {
        text.push_str(" ")?;
    }
    Ok(text)
}

/// The number of a row, right-aligned in so many columns.
#[tactic(auto, unfolding(crate::specs::Runs::number_text))]
fn number_text(alloc: Global, width: usize, number: usize) -> Result<String, AllocError>
    ensures { IfOk result (λ text. string_bytes text ≡ number_text width number) }
{
    let digits = format!(in alloc; "{number}")?;
    let blanks = blanks(alloc, width.saturating_sub(digits.len()))?;
    format!(in alloc; "{blanks}{digits}. ")
}

/// The round of a step.
#[tactic(auto, unfolding(crate::specs::Runs::round_text))]
fn round_text(alloc: Global, round: Option<usize>) -> Result<String, AllocError>
    ensures { IfOk result (λ text. string_bytes text ≡ round_text round) }
{
    match round {
        Some(round) => format!(in alloc; "round {round}: "),
        None => Ok(String::new(alloc)),
    }
}

/// What happens in a step, and where it is drawn.
#[tactic(auto, unfolding(crate::specs::Runs::step_text))]
fn step_text(alloc: Global, names: &[&str], event: &SpokenEvent<'_>) -> Result<String, AllocError>
    ensures { IfOk result (λ text. string_bytes text
        ≡ step_text (map (λ name. name.now) names.now) event.now) }
{
    let owner = name_at(names, event.owner);
    let does = does_at(alloc, names, event)?;
    format!(in alloc; "{owner} {does}")
}

/// The row of a step, by its number.
#[tactic(auto, unfolding(crate::specs::Runs::run_row))]
fn run_row(
    alloc: Global,
    names: &[&str],
    width: usize,
    number: usize,
    step: &SpokenStep<'_>,
) -> Result<String, AllocError>
    ensures { IfOk result (λ text. string_bytes text
        ≡ run_row (map (λ name. name.now) names.now) width number step.now) }
{
    let number = number_text(alloc, width, number)?;
    let round = round_text(alloc, step.round)?;
    let event = step_text(alloc, names, &step.event)?;
    format!(in alloc; "{number}{round}{event}")
}

/// The number of digits of a number.
fn digits(alloc: Global, number: usize) -> Result<usize, AllocError>
    ensures { IfOk result (λ count. count ≡ length (decimal number)) }
{
    let text = format!(in alloc; "{number}")?;
    Ok(text.len())
}

/// The rows of a note on a run that shows a finding: for each of its steps a number, from 1, the
/// round, if it has one, what happens, and its line. Instances are named by `names`, by their
/// numbers. The only error is want of memory.
pub fn run_rows(
    alloc: Global,
    names: &[&str],
    steps: &[SpokenStep<'_>],
) -> Result<Vec<String>, AllocError>
    ensures { IfOk result (λ rows. map string_bytes rows.items
        ≡ run_rows (map (λ name. name.now) names.now) steps.now) }
{
    let width = digits(alloc, steps.len())?;
    let mut rows = Vec::new(alloc);
    for (index, step) in steps.iter().enumerate() {
        rows.push(run_row(alloc, names, width, index + 1, step)?)?;
    }
    Ok(rows)
}
