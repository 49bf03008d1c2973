//! The races that were found, each pair of places once.

ghost use Rattle.std.specs.Prelude.{◌≡◌, ◌+◌, ◌<◌, ◌≤◌, ◌^◌, [], ◌∷◌, ◌++◌, IfOk, OnOk, length};
ghost use Rattle.std.specs.Prelude.{cond, not};
ghost use Rattle.std.specs.List.{All, list_any};
ghost use Rattle.msc_diagram.specs.Counts.{without};
ghost use Rattle.msc_diagram.specs.Places.{above_with, fresh, same_places, AreAllPlaces};
ghost use Rattle.msc_diagram.specs.declared.scenario.Scenario.{Scenario};

use crate::place::EventPlace;
use indexmap::IndexSet;
use msc_chart::Event;
use std::alloc::{AllocError, Global};
use std::marker::Model;

/// The greatest number of races that are kept: numbers of findings stay within 32 bits.
const SEEN_LIMIT: usize = 0x8000_0000;

/// The places of the races that were found, in their order, each pair of places once. Contracts see
/// this list.
#[derive(Drop)]
pub(crate) struct ReportedRaces {
    pairs: IndexSet<(EventPlace, EventPlace)>,
}

impl Model for ReportedRaces {
    ghost use Rattle.std.specs.Prelude.{List, ◌≤◌, ◌^◌, length};
    ghost use Rattle.msc_diagram.specs.declared.place.EventPlace.{EventPlace};

    ghost Value = { List (EventPlace × EventPlace) };

    ghost view = { λ s. s.pairs.keys };

    ghost invariant = { λ s. length s.pairs.keys ≤ 2 ^ 31 };
}

impl ReportedRaces {
    /// No race yet.
    pub fn new(alloc: Global) -> ReportedRaces
        ensures { result ≡ [] }
    {
        ReportedRaces {
            pairs: IndexSet::new(alloc),
        }
    }

    /// The number of these races. It takes no memory.
    pub fn len(&self) -> u32
        ensures value { result ≡ length self.now }
        ensures few { length self.now ≤ 2 ^ 31 }
    {
        self.pairs.len() as u32
    }

    /// The places of these races. It takes no memory.
    pub fn as_slice(&self) -> &[(EventPlace, EventPlace)]
        ensures { result.now ≡ self.now }
    {
        self.pairs.as_slice()
    }

    /// The number of races that are here and not there. It takes no memory.
    pub fn count_without(&self, other: &ReportedRaces) -> u32
        ensures { result ≡ length (without self.now other.now) }
    {
        let mut count = 0;
        for places in self.pairs.as_slice() {
            if !other.pairs.contains(places) {
                count += 1;
            }
        }
        count
    }

    /// Adds the places of a race, and returns whether they are new. An error is a growth of memory
    /// that was refused, or that the list is full.
    fn sees(&mut self, places: (EventPlace, EventPlace)) -> Result<bool, AllocError>
        ensures new { IfOk result (λ new. new ≡ not (list_any (same_places places) self.old)) }
        ensures reported { OnOk result (self.new ≡ cond (list_any (same_places places) self.old)
            self.old (self.old ++ places ∷ [])) }
    {
        if self.pairs.len() >= SEEN_LIMIT {
            return Err(AllocError);
        }
        let (_, is_new) = self.pairs.insert_full(places)?;
        Ok(is_new)
    }

    /// Adds these races of a scenario, whose events have these places; the list then has the races
    /// that are new. An error is a growth of memory that was refused, or that the list is full.
    pub fn see(
        &mut self,
        places: &[EventPlace],
        races: &[(Event, Event)],
        list: &mut Vec<(Event, Event)>,
    ) -> Result<(), AllocError>
        requires { All (λ p. (p.0 < length places.now) × (p.1 < length places.now)) races.now }
        ensures list { (s : Scenario) → AreAllPlaces s places.now
            → OnOk result (list.new.items ≡ fresh s self.old races.now) }
        ensures reported { (s : Scenario) → AreAllPlaces s places.now
            → OnOk result (self.new ≡ above_with s self.old races.now) }
    {
        list.clear();
        for race in races {
            let (e, f) = *race;
            if self.sees((places[e as usize], places[f as usize]))? {
                list.push(*race)?;
            }
        }
        Ok(())
    }
}
