//! Counts the places of races in scenarios.

ghost use Rattle.std.specs.Prelude.{◌≡◌, ◌+◌, IfOk, OnOk, [], count_by, length, true};
ghost use Rattle.std.specs.List.{filter};
ghost use Rattle.msc_race.specs.Views.{races_of, AreRacesOf};
ghost use Rattle.msc_reason.specs.Counting.{counting, counts, listed};
ghost use Rattle.msc_reason.specs.Marked.{cause_in};
ghost use Rattle.msc_diagram.specs.Counts.{AreCountsOf};
ghost use Rattle.msc_diagram.specs.Places.{above_with, fresh, same_places, AreAllPlaces};
ghost use Rattle.msc_diagram.specs.Tallies.{tally_at};
ghost use Rattle.msc_diagram.specs.Telling.{IsAnswerOf, SeesCase, SeesCases, SeesSelected};
ghost use Rattle.msc_diagram.specs.declared.place.EventPlace.{EventPlace};
ghost use Rattle.msc_diagram.specs.declared.scenario.Scenario.{Scenario};

use crate::answer::{Above, Answer};
use crate::check::ScenarioCheck;
use crate::marked::{keep_idle, left_out, marked_races};
use crate::place::{EventPlace, places_of};
use crate::reported::ReportedRaces;
use crate::scenario::Scenario;
use crate::source::Source;
use crate::tally::PlaceTally;
use msc_chart::Event;
use msc_race::laws::{short_witnesses_show, the_witness_reverses};
use msc_race::{Enforced, Walk};
use msc_reason::{LeftOut, Listing, Stream, counts};
use std::alloc::{AllocError, Global};

/// Adds the places of all races of a scenario. `places` has the places of its events.
fn see_all(
    alloc: Global,
    reported: &mut ReportedRaces,
    enforced: &Enforced<'_>,
    places: &[EventPlace],
) -> Result<(), AllocError>
    requires { length places.now ≡ length enforced.now.chart.events }
    ensures { (s : Scenario) → AreAllPlaces s places.now
        → OnOk result (reported.new ≡ above_with s reported.old (races_of enforced.now)) }
{
    let mut walk = Walk::new();
    let mut races = Vec::new(alloc);
    let mut new = Vec::new(alloc);
    for e in 0..enforced.events() {
        enforced.next_races(&mut walk, &mut races, e)?;
        reported.see(places, races.as_slice(), &mut new)?;
    }
    Ok(())
}

/// Keeps the races that count.
fn keep_counting(
    list: &mut Vec<(Event, Event)>,
    enforced: &Enforced<'_>,
    left: LeftOut<'_>,
    races: &[(Event, Event)],
) -> Result<(), AllocError>
    requires { AreRacesOf enforced.now races.now }
    ensures { OnOk result (list.new.items
        ≡ filter (counts left.entry (cause_in enforced.now)) races.now) }
{
    list.clear();
    for race in races {
        if counts(enforced, left, *race) {
            list.push(*race)?;
        }
    }
    Ok(())
}

/// Adds the places of the listed races of a scenario, and returns the races whose places are new.
pub(crate) fn new_listed(
    alloc: Global,
    reported: &mut ReportedRaces,
    listing: &Listing<'_>,
    places: &[EventPlace],
) -> Result<Vec<(Event, Event)>, AllocError>
    requires { length places.now ≡ length listing.now.judged.chart.events }
    ensures list { (s : Scenario) → AreAllPlaces s places.now
        → IfOk result (λ new. new.items ≡ fresh s reported.old (listed listing.now.judged
        listing.now.allowed listing.now.closest (cause_in listing.now.judged))) }
    ensures reported { (s : Scenario) → AreAllPlaces s places.now
        → OnOk result (reported.new ≡ above_with s reported.old (listed listing.now.judged
        listing.now.allowed listing.now.closest (cause_in listing.now.judged))) }
{
    listing.enforced().facts();
    let mut stream = Stream::new(alloc);
    let mut new = Vec::new(alloc);
    let mut all = Vec::new(alloc);
    for e in 0..listing.events() {
        listing.next(&mut stream, e)?;
        reported.see(places, stream.races.as_slice(), &mut new)?;
        all.extend_from_slice(new.as_slice())?;
    }
    Ok(all)
}

/// Adds the places of the listed races of a scenario.
fn see_listed(
    alloc: Global,
    reported: &mut ReportedRaces,
    listing: &Listing<'_>,
    places: &[EventPlace],
) -> Result<(), AllocError>
    requires { length places.now ≡ length listing.now.judged.chart.events }
    ensures { (s : Scenario) → AreAllPlaces s places.now
        → OnOk result (reported.new ≡ above_with s reported.old (listed listing.now.judged
        listing.now.allowed listing.now.closest (cause_in listing.now.judged))) }
{
    new_listed(alloc, reported, listing, places)?;
    Ok(())
}

/// Adds the places of the races of a scenario that count.
fn see_counting(
    alloc: Global,
    reported: &mut ReportedRaces,
    enforced: &Enforced<'_>,
    left: LeftOut<'_>,
    places: &[EventPlace],
) -> Result<(), AllocError>
    requires { length places.now ≡ length enforced.now.chart.events }
    ensures { (s : Scenario) → AreAllPlaces s places.now
        → OnOk result (reported.new ≡ above_with s reported.old
        (counting enforced.now left.entry (cause_in enforced.now))) }
{
    let mut walk = Walk::new();
    let mut races = Vec::new(alloc);
    let mut counted = Vec::new(alloc);
    let mut new = Vec::new(alloc);
    for e in 0..enforced.events() {
        enforced.next_races(&mut walk, &mut races, e)?;
        keep_counting(&mut counted, enforced, left, races.as_slice())?;
        reported.see(places, counted.as_slice(), &mut new)?;
    }
    Ok(())
}

/// Adds the places of the races of a scenario that count with `left` left out, if the check needs
/// them.
fn see_if(
    alloc: Global,
    reported: &mut ReportedRaces,
    asked: bool,
    enforced: &Enforced<'_>,
    left: LeftOut<'_>,
    places: &[EventPlace],
) -> Result<(), AllocError>
    requires { length places.now ≡ length enforced.now.chart.events }
    ensures { (s : Scenario) → AreAllPlaces s places.now → asked ≡ true
        → OnOk result (reported.new ≡ above_with s reported.old
        (counting enforced.now left.entry (cause_in enforced.now))) }
{
    if !asked {
        return Ok(());
    }
    see_counting(alloc, reported, enforced, left, places)
}

/// Counts one more scenario for the places of its races that count, if the caller wants it.
fn see_tally(
    alloc: Global,
    tally: &mut PlaceTally,
    tallies: bool,
    enforced: &Enforced<'_>,
    left: LeftOut<'_>,
    places: &[EventPlace],
) -> Result<(), AllocError>
    requires { length places.now ≡ length enforced.now.chart.events }
    ensures { (s : Scenario) → AreAllPlaces s places.now → tallies ≡ true
        → (p : EventPlace × EventPlace) → OnOk result (tally_at tally.new p ≡ tally_at tally.old p
        + count_by (same_places p) (above_with s [] (counting enforced.now left.entry (cause_in enforced.now)))) }
{
    if !tallies {
        return Ok(());
    }
    let mut own = ReportedRaces::new(alloc);
    see_counting(alloc, &mut own, enforced, left, places)?;
    tally.add_all(&own)
}

/// Adds the places of the races of a scenario: of all, of those of kinds that are not left out, and
/// of those that count, as far as the check needs them. Counts the scenario for the places of the
/// latter if the caller wants it.
fn see_selected(
    alloc: Global,
    answer: &mut Answer,
    check: ScenarioCheck<'_>,
    tallies: bool,
    enforced: &Enforced<'_>,
    left: LeftOut<'_>,
    places: &[EventPlace],
) -> Result<(), AllocError>
    requires { length places.now ≡ length enforced.now.chart.events }
    ensures { (s : Scenario) → AreAllPlaces s places.now → OnOk result
        (SeesSelected s check.entry tallies enforced.now left.entry answer.old answer.new) }
{
    let kinds = LeftOut::of_kinds(check.options.allowed);
    let accepts = check.marks.is_some();
    see_all(alloc, &mut answer.all, enforced, places)?;
    see_if(
        alloc,
        &mut answer.named,
        check.names(),
        enforced,
        kinds,
        places,
    )?;
    see_if(alloc, &mut answer.counting, accepts, enforced, left, places)?;
    see_tally(alloc, &mut answer.tally, tallies, enforced, left, places)?;
    Ok(())
}

/// Adds the places of the races of a scenario, with those that are listed, and drops the marks that
/// accept one.
fn see_case(
    alloc: Global,
    answer: &mut Answer,
    scenario: &Scenario<'_>,
    check: ScenarioCheck<'_>,
    tallies: bool,
) -> Result<(), AllocError>
    ensures { OnOk result (SeesCase scenario.now check.entry tallies answer.old answer.new) }
{
    the_witness_reverses();
    short_witnesses_show();
    let enforced = Enforced::of(alloc, &scenario.chart, check.queues)?;
    enforced.facts();
    let places = places_of(alloc, scenario)?;
    let marked = marked_races(alloc, check, scenario, &enforced)?;
    let left = left_out(check.options.allowed, marked.as_ref());
    keep_idle(&mut answer.idle, check, marked.as_ref());
    see_selected(
        alloc,
        answer,
        check,
        tallies,
        &enforced,
        left,
        places.as_slice(),
    )?;
    let listing = Listing::of(alloc, enforced, left, check.options.closest)?;
    see_listed(alloc, &mut answer.listed, &listing, places.as_slice())
}

/// Adds the places of the races of all scenarios.
fn see_cases<S: Source>(
    alloc: Global,
    answer: &mut Answer,
    scenarios: &S,
    check: ScenarioCheck<'_>,
    tallies: bool,
) -> Result<(), AllocError>
    ensures { OnOk result
        (SeesCases (S.scenarios scenarios.now) check.entry tallies answer.old answer.new) }
{
    for i in 0..scenarios.len() {
        let scenario = scenarios.scenario(alloc, i)?;
        see_case(alloc, answer, scenario.get(), check, tallies)?;
    }
    Ok(())
}

/// The places of the races of these scenarios, and the marks that accept none; and in how many
/// scenarios a race counts at each place, if the caller wants it.
pub(crate) fn answer_of<S: Source>(
    alloc: Global,
    scenarios: &S,
    check: ScenarioCheck<'_>,
    tallies: bool,
) -> Result<Answer, AllocError>
    ensures { IfOk result (IsAnswerOf (S.scenarios scenarios.now) check.entry tallies) }
{
    let mut answer = Answer::of(alloc, check)?;
    see_cases(alloc, &mut answer, scenarios, check, tallies)?;
    Ok(answer)
}

/// The numbers of places of races in these scenarios, and the stale marks.
pub(crate) fn count_places<S: Source>(
    alloc: Global,
    scenarios: &S,
    check: ScenarioCheck<'_>,
) -> Result<Above, AllocError>
    ensures { IfOk result (λ above. AreCountsOf (S.scenarios scenarios.now) check.entry
        above.counts above.stale.items) }
{
    let answer = answer_of(alloc, scenarios, check, false)?;
    Ok(Above {
        counts: answer.counts(check),
        stale: answer.idle,
    })
}
