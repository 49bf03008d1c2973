//! What was printed of the files of a scan so far.

ghost use Rattle.std.specs.Prelude.{◌≡◌};
ghost use Rattle.msc_scanning.specs.Progress.{any_answered, is_answered, with_outcomes, worst};

use crate::outcome::Outcome;
use crate::tally::Tally;
use msc_answer::{Status, worse};

/// What was found of the files so far.
#[derive(Clone, Copy)]
pub(crate) struct Progress {
    pub tally: Tally,
    /// The worst status.
    pub status: Status,
    /// Whether the current path has a diagram, or something of it failed.
    pub found: bool,
}

impl Progress {
    /// Of none.
    pub const NONE: Progress = Progress {
        tally: Tally::NOTHING,
        status: Status::Done,
        found: false,
    };

    /// The same with the diagrams of one more file.
    pub fn with_outcomes(self, outcomes: &[Outcome]) -> Progress
        ensures { result ≡ with_outcomes self outcomes.now }
    {
        let tally = self.tally.with_all(outcomes);
        let files = tally
            .files
            .saturating_add(usize::from(any_answered(outcomes)));
        Progress {
            tally: Tally { files, ..tally },
            status: worst(self.status, outcomes),
            found: self.found || !outcomes.is_empty(),
        }
    }
}

/// Whether a diagram was checked or refused.
fn is_answered(status: Status) -> bool
    ensures { result ≡ is_answered status }
{
    match status {
        Status::Done | Status::Races | Status::Refused => true,
        Status::Unfinished | Status::Failed => false,
    }
}

/// Whether one of these diagrams was checked or refused.
fn any_answered(outcomes: &[Outcome]) -> bool
    ensures { result ≡ any_answered outcomes.now }
{
    outcomes.iter().any(|one| is_answered(one.status))
}

/// The worst of these statuses.
fn worst(status: Status, outcomes: &[Outcome]) -> Status
    ensures { result ≡ worst status outcomes.now }
{
    let mut status = status;
    for one in outcomes {
        status = worse(status, one.status);
    }
    status
}
