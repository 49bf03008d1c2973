//! The races of scenarios that are listed first there.

ghost use Rattle.std.specs.Prelude.{◌≡◌, IfOk};
ghost use Rattle.msc_diagram.specs.NewRaces.{AreNewLists, IsNewIn};

use crate::check::ScenarioCheck;
use crate::counting::new_listed;
use crate::marked::{left_out, marked_races};
use crate::place::places_of;
use crate::reported::ReportedRaces;
use crate::scenario::Scenario;
use crate::source::Source;
use listed::Listed;
use msc_print::Pair;
use msc_race::Enforced;
use msc_race::laws::{short_witnesses_show, the_witness_reverses};
use msc_reason::Listing;
use std::alloc::{AllocError, Global};

/// The races of a scenario that a check lists and whose places no earlier race has. Adds their
/// places.
fn new_of(
    alloc: Global,
    reported: &mut ReportedRaces,
    scenario: &Scenario<'_>,
    check: ScenarioCheck<'_>,
) -> Result<Vec<Pair>, AllocError>
    ensures { IfOk result
        (λ new. IsNewIn scenario.now check.entry reported.old reported.new new.items) }
{
    the_witness_reverses();
    short_witnesses_show();
    let enforced = Enforced::of(alloc, &scenario.chart, check.queues)?;
    enforced.facts();
    let places = places_of(alloc, scenario)?;
    let marked = marked_races(alloc, check, scenario, &enforced)?;
    let left = left_out(check.options.allowed, marked.as_ref());
    let listing = Listing::of(alloc, enforced, left, check.options.closest)?;
    let new = new_listed(alloc, reported, &listing, places.as_slice())?;
    Ok(new)
}

/// For each scenario, the races that a check lists first there: a race is not listed again if an
/// earlier one has the places of its events. An error is a growth of memory that was refused.
pub fn new_races<S: Source>(
    alloc: Global,
    scenarios: &S,
    check: ScenarioCheck<'_>,
) -> Result<Vec<Listed<Pair>>, AllocError>
    ensures { IfOk result
        (λ lists. AreNewLists (S.scenarios scenarios.now) check.entry lists.items) }
{
    let mut reported = ReportedRaces::new(alloc);
    let mut lists = Vec::new(alloc);
    for i in 0..scenarios.len() {
        let scenario = scenarios.scenario(alloc, i)?;
        let new = new_of(alloc, &mut reported, scenario.get(), check)?;
        lists.push(Listed::from_vec(new))?;
    }
    Ok(lists)
}
