//! The statements of a diagram that draw the events of a scenario.

ghost use Rattle.std.specs.Prelude.{◌≡◌, IfOk, map};
ghost use Rattle.msc_diagram.specs.Arrows.{arrow_of, arrows_of, rounds_of};

use listed::Listed;
use msc_import::EventSpans;
use msc_import_marks::statement_at;
use msc_mermaid::Placed;
use std::alloc::{AllocError, Global};

/// The number of the statement that draws an event; the number of all statements, if none does.
fn arrow_of(statements: &[Placed], event: &EventSpans) -> usize
    ensures { result ≡ arrow_of statements.now event.now }
{
    statement_at(statements, event.statement).unwrap_or(statements.len())
}

/// The numbers of the statements that draw these events. The only error is want of memory.
pub fn arrows_of(
    alloc: Global,
    statements: &[Placed],
    events: &[EventSpans],
) -> Result<Vec<usize>, AllocError>
    ensures { IfOk result (λ arrows. arrows.items ≡ arrows_of statements.now events.now) }
{
    let mut arrows = Vec::with_capacity(alloc, events.len())?;
    for event in events {
        arrows.push(arrow_of(statements, event))?;
    }
    Ok(arrows)
}

/// The rounds of the loops around the arrows of these events. The only error is want of memory.
pub fn rounds_of(alloc: Global, events: &[EventSpans]) -> Result<Vec<Listed<usize>>, AllocError>
    ensures { IfOk result (λ rounds. rounds.items ≡ rounds_of events.now) }
{
    let mut all = Vec::with_capacity(alloc, events.len())?;
    for event in events {
        let rounds = Vec::from_slice(alloc, event.rounds.as_slice())?;
        all.push(Listed::from_vec(rounds))?;
    }
    Ok(all)
}
