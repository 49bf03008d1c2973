//! The places of the races of all scenarios: all numbers are made from them.

ghost use Rattle.std.specs.Prelude.{◌≡◌, [], IfOk, None, Some, cond, is_some, length, true};
ghost use Rattle.msc_reason.specs.Kinds.{is_empty};
ghost use Rattle.msc_diagram.specs.Counts.{counts_of, names, without};
ghost use Rattle.msc_diagram.specs.Stale.{told_marks};
ghost use Rattle.msc_diagram.specs.Tallies.{tally_at};
ghost use Rattle.msc_diagram.specs.declared.place.EventPlace.{EventPlace};

use crate::check::{ScenarioCheck, UsedMarks};
use crate::numbers::PlaceCounts;
use crate::reported::ReportedRaces;
use crate::tally::PlaceTally;
use msc_scenario_marks::idle_marks;
use std::alloc::{AllocError, Global};

/// The places of races that were found in scenarios.
#[derive(Drop)]
pub(crate) struct Answer {
    /// The places of all races.
    pub all: ReportedRaces,
    /// The places of races of kinds that are not left out, if some are or marks are used.
    pub named: ReportedRaces,
    /// The places of races that count, if marks are used.
    pub counting: ReportedRaces,
    /// The places of races that are listed.
    pub listed: ReportedRaces,
    /// The number of scenarios in which a race counts at each place, if the caller wants it.
    pub tally: PlaceTally,
    /// The numbers of the marks that accept no race, ascending.
    pub idle: Vec<usize>,
}

/// The numbers of places of races, and the numbers of the stale marks.
#[derive(Drop)]
pub(crate) struct Above {
    pub counts: PlaceCounts,
    pub stale: Vec<usize>,
}

/// The numbers of the marks that are stale if they accept no race.
pub(crate) fn told_marks(
    alloc: Global,
    marks: Option<UsedMarks<'_>>,
) -> Result<Vec<usize>, AllocError>
    ensures { IfOk result (λ told. told.items ≡ told_marks marks.entry) }
{
    match marks {
        Some(marks) => idle_marks(alloc, marks.accepted),
        None => Ok(Vec::new(alloc)),
    }
}

impl Answer {
    /// No race was found.
    pub fn of(alloc: Global, check: ScenarioCheck<'_>) -> Result<Answer, AllocError>
        ensures all { IfOk result (λ answer. answer.all ≡ []) }
        ensures named { IfOk result (λ answer. answer.named ≡ []) }
        ensures counting { IfOk result (λ answer. answer.counting ≡ []) }
        ensures listed { IfOk result (λ answer. answer.listed ≡ []) }
        ensures tally { IfOk result (λ answer. (places : EventPlace × EventPlace)
            → tally_at answer.tally places ≡ 0) }
        ensures idle { IfOk result (λ answer. answer.idle.items ≡ told_marks check.entry.marks) }
    {
        Ok(Answer {
            all: ReportedRaces::new(alloc),
            named: ReportedRaces::new(alloc),
            counting: ReportedRaces::new(alloc),
            listed: ReportedRaces::new(alloc),
            tally: PlaceTally::new(alloc),
            idle: told_marks(alloc, check.marks)?,
        })
    }

    /// The number of allowed places, if some kinds are left out. It takes no memory.
    fn count_allowed(&self, check: ScenarioCheck<'_>) -> Option<u32>
        ensures { result ≡ cond (is_empty check.entry.options.allowed) None
            (Some (length (without self.now.all self.now.named))) }
    {
        if check.options.allowed.is_empty() {
            return None;
        }
        Some(self.all.count_without(&self.named))
    }

    /// The number of accepted places, if marks are used. It takes no memory.
    fn count_accepted(&self, check: ScenarioCheck<'_>) -> Option<u32>
        ensures { result ≡ cond (is_some check.entry.marks)
            (Some (length (without self.now.named self.now.counting))) None }
    {
        if check.marks.is_some() {
            Some(self.named.count_without(&self.counting))
        } else {
            None
        }
    }

    /// The numbers of places. It takes no memory.
    pub fn counts(&self, check: ScenarioCheck<'_>) -> PlaceCounts
        ensures { result ≡ counts_of check.entry self.now.all self.now.named
            self.now.counting self.now.listed }
    {
        let listed = self.listed.len();
        PlaceCounts {
            races: self.all.len(),
            allowed: self.count_allowed(check),
            accepted: self.count_accepted(check),
            closest: if check.options.closest {
                Some(listed)
            } else {
                None
            },
            listed,
        }
    }
}
