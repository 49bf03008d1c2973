//! In how many scenarios a race counts, by its places.

ghost use Rattle.std.specs.Prelude.{◌≡◌, ◌+◌, ◌<◌, IfOk, OnOk, Some, count_by, cond, length, map};
ghost use Rattle.std.specs.List.{All};
ghost use Rattle.msc_diagram.specs.Places.{places_in, same_places, AreAllPlaces};
ghost use Rattle.msc_diagram.specs.Tallies.{tally_at};
ghost use Rattle.msc_diagram.specs.declared.place.EventPlace.{EventPlace};
ghost use Rattle.msc_diagram.specs.declared.scenario.Scenario.{Scenario};

use crate::place::EventPlace;
use crate::reported::ReportedRaces;
use indexmap::IndexMap;
use msc_chart::Event;
use std::alloc::{AllocError, Global};
use std::marker::Model;

/// For each two places of events the number of scenarios in which a race there counts. Contracts
/// see these numbers by their places.
#[derive(Drop)]
pub(crate) struct PlaceTally {
    pairs: IndexMap<(EventPlace, EventPlace), usize>,
}

impl Model for PlaceTally {
    ghost use Rattle.std.specs.Prelude.{ℕ, List};
    ghost use Rattle.msc_diagram.specs.declared.place.EventPlace.{EventPlace};

    ghost Value = { List ((EventPlace × EventPlace) × ℕ) };

    ghost view = { λ t. t.pairs.entries };
}

impl PlaceTally {
    /// No race counts anywhere.
    pub fn new(alloc: Global) -> PlaceTally
        ensures { (places : EventPlace × EventPlace) → tally_at result places ≡ 0 }
    {
        PlaceTally {
            pairs: IndexMap::new(alloc),
        }
    }

    /// The number for two places. It takes no memory.
    fn count(&self, places: (EventPlace, EventPlace)) -> usize
        ensures { result ≡ tally_at self.now places }
    {
        match self.pairs.get(&places) {
            Some(count) => *count,
            None => 0,
        }
    }

    /// Counts one more scenario for two places. An error is a growth of memory that was refused, or
    /// that the number is full.
    fn add(&mut self, places: (EventPlace, EventPlace)) -> Result<(), AllocError>
        ensures { (p : EventPlace × EventPlace) → OnOk result
            (tally_at self.new p ≡ tally_at self.old p + cond (same_places p places) 1 0) }
    {
        let Some(count) = self.count(places).checked_add(1) else {
            return Err(AllocError);
        };
        self.pairs.insert(places, count)?;
        Ok(())
    }

    /// Counts one more scenario for the places of these races, each once.
    pub fn add_all(&mut self, races: &ReportedRaces) -> Result<(), AllocError>
        ensures { (p : EventPlace × EventPlace) → OnOk result
            (tally_at self.new p ≡ tally_at self.old p + count_by (same_places p) races.now) }
    {
        for places in races.as_slice() {
            self.add(*places)?;
        }
        Ok(())
    }

    /// The numbers for these races of a scenario, whose events have these places.
    pub fn counts(
        &self,
        alloc: Global,
        places: &[EventPlace],
        races: &[(Event, Event)],
    ) -> Result<Vec<usize>, AllocError>
        requires { All (λ p. (p.0 < length places.now) × (p.1 < length places.now)) races.now }
        ensures { (s : Scenario) → AreAllPlaces s places.now → IfOk result (λ counts.
            counts.items ≡ map (λ p. tally_at self.now (places_in s p)) races.now) }
    {
        let mut counts = Vec::with_capacity(alloc, races.len())?;
        for race in races {
            let (e, f) = *race;
            counts.push(self.count((places[e as usize], places[f as usize])))?;
        }
        Ok(counts)
    }
}
