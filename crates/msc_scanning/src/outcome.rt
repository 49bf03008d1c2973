//! What a scan found of a diagram.

ghost use Rattle.std.specs.Prelude.{◌≡◌, ◌++◌, ◌∷◌, [], IfOk, OnOk};

use msc_answer::Status;
use msc_wording::MarkedText;
use std::alloc::{AllocError, Global};

/// What a scan found of a diagram, or that a path failed.
#[derive(Clone, Copy)]
pub struct Outcome {
    pub status: Status,
    /// Whether some race counts.
    pub races: bool,
    /// The number of races that marks accept.
    pub accepted: u32,
    /// Whether the text says nothing of its queues.
    pub silent: bool,
    /// Whether marks are used, and the text has one.
    pub marked: bool,
    /// How a race of the text is accepted, if some races are listed.
    pub help: Option<MarkedText>,
}

/// The list of one end.
pub(crate) fn alone(alloc: Global, outcome: Outcome) -> Result<Vec<Outcome>, AllocError>
    ensures { IfOk result (λ outcomes. outcomes.items ≡ outcome ∷ []) }
{
    let mut outcomes = Vec::new(alloc);
    outcomes.push(outcome)?;
    Ok(outcomes)
}

/// Appends an end to others.
pub(crate) fn put_outcome(outcomes: &mut Vec<Outcome>, outcome: Outcome) -> Result<(), AllocError>
    ensures { OnOk result (outcomes.new.items ≡ outcomes.old.items ++ outcome ∷ []) }
{
    outcomes.push(outcome)?;
    Ok(())
}
