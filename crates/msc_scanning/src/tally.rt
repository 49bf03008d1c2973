//! What a scan counts.

ghost use Rattle.std.specs.Prelude.{◌≡◌};
ghost use Rattle.msc_scanning.specs.Outcomes.{counted, found_in, is_checked, nothing_counted};
ghost use Rattle.msc_scanning.specs.Outcomes.{with_all, with_outcome};

use crate::outcome::Outcome;
use msc_answer::Status;
use msc_wording::MarkedText;

/// What was counted of the diagrams of a scan. Each number stops at its greatest value.
#[derive(Clone, Copy)]
pub struct Tally {
    /// The numbers of diagrams that pass, have races, and have stale marks but no races.
    pub passed: usize,
    pub races: usize,
    pub stale: usize,
    /// The numbers of refused diagrams, and of paths that failed.
    pub refused: usize,
    pub failed: usize,
    /// The number of files with a diagram that was checked or refused.
    pub files: usize,
    /// The number of races that marks accept.
    pub accepted: usize,
    /// The number of diagrams that say nothing of their queues.
    pub silent: usize,
    /// Whether a mark was met.
    pub marked: bool,
    /// How a race of the first diagram with races is accepted.
    pub help: Option<MarkedText>,
}

impl Tally {
    /// Nothing was counted.
    pub const NOTHING: Tally = Tally {
        passed: 0,
        races: 0,
        stale: 0,
        refused: 0,
        failed: 0,
        files: 0,
        accepted: 0,
        silent: 0,
        marked: false,
        help: None,
    };

    /// The same with what a check found.
    fn with_found(self, one: Outcome) -> Tally
        ensures { result ≡ found_in one self }
    {
        Tally {
            accepted: self.accepted.saturating_add(one.accepted as usize),
            silent: self.silent.saturating_add(usize::from(one.silent)),
            marked: self.marked || one.marked,
            help: self.help.or(one.help),
            ..self
        }
    }

    /// The same with a diagram that ended so; `races` says whether it has races.
    fn with_status(self, status: Status, races: bool) -> Tally
        ensures { result ≡ counted status races self }
    {
        match status {
            Status::Done => Tally {
                passed: self.passed.saturating_add(1),
                ..self
            },
            Status::Races => Tally {
                races: self.races.saturating_add(usize::from(races)),
                stale: self.stale.saturating_add(usize::from(!races)),
                ..self
            },
            Status::Refused => Tally {
                refused: self.refused.saturating_add(1),
                ..self
            },
            Status::Unfinished | Status::Failed => Tally {
                failed: self.failed.saturating_add(1),
                ..self
            },
        }
    }

    /// The same with one more diagram.
    fn with(self, one: Outcome) -> Tally
        ensures { result ≡ with_outcome one self }
    {
        let found = match one.status {
            Status::Done | Status::Races => self.with_found(one),
            Status::Refused | Status::Unfinished | Status::Failed => self,
        };
        found.with_status(one.status, one.races)
    }

    /// The same with all of these diagrams.
    pub fn with_all(self, others: &[Outcome]) -> Tally
        ensures { result ≡ with_all others.now self }
    {
        counted(self, others)
    }
}

/// A tally with all of these diagrams.
fn counted(tally: Tally, others: &[Outcome]) -> Tally
    ensures { result ≡ with_all others.now tally }
{
    let mut tally = tally;
    for one in others {
        tally = tally.with(*one);
    }
    tally
}
