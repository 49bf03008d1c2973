//! Entries of a list: races, and pairs of two rounds.

ghost use Rattle.std.specs.Prelude.{codes, map};
ghost use Rattle.std.specs.Option.{option_map};
ghost use Rattle.msc_record.specs.Entries.{again_members, entry_members, notes_json};
ghost use Rattle.msc_record.specs.Entries.{pair_members, scenario_members, spoken_members};
ghost use Rattle.msc_record.specs.Lent.{plain_entry, plain_scenario};
ghost use Rattle.msc_record.specs.Members.{member_tokens, tokens_of};
ghost use Rattle.msc_record.specs.Writing.{Adds};

use crate::event::{Event, EventNumber};
use crate::value::{Object, write_list, write_member};
use json::Writer;
use std::alloc::{AllocError, Global};

/// The scenario of a diagram in which a race is listed.
#[derive(Clone, Copy)]
pub struct ListedScenario<'t> {
    /// Its number, from 1.
    pub scenario: u64,
    /// Its choices, in the order in which they are met.
    pub choices: &'t [u64],
    /// The number of scenarios in which the race counts.
    pub scenarios: u64,
}

/// A race, or a pair of events of two rounds.
#[derive(Clone, Copy)]
pub struct Entry<'t> {
    /// Of a diagram the scenario in which it is listed.
    pub scenario: Option<ListedScenario<'t>>,
    /// The name of the instance of both events.
    pub instance: &'t [u8],
    /// Whether the second event is of the next round.
    pub is_next: bool,
    /// The word of its kind.
    pub kind: &'t str,
    /// Whether every run reverses it.
    pub is_always: bool,
    pub sentence: &'t str,
    pub notes: &'t [&'t str],
    /// The event that is drawn first, and the one that can come before it.
    pub first: Event<'t>,
    pub second: Event<'t>,
    /// The two events whose order would prevent it: `output` after `needed`.
    pub needed: EventNumber,
    pub output: EventNumber,
}

/// Writes the scenario of an entry, if it has one.
fn write_scenario(
    alloc: Global,
    writer: &mut Writer,
    listed: Option<ListedScenario<'_>>,
) -> Result<(), AllocError>
    ensures { Adds result writer.old writer.new
        (tokens_of (scenario_members (option_map plain_scenario listed.entry))) }
{
    let Some(listed) = listed else {
        return Ok(());
    };
    write_member(alloc, writer, "scenario", &listed.scenario)?;
    write_list(alloc, writer, "choose", listed.choices)?;
    write_member(alloc, writer, "scenarios", &listed.scenarios)
}

/// Writes what only a pair of two rounds has.
fn write_again(alloc: Global, writer: &mut Writer, is_next: bool) -> Result<(), AllocError>
    ensures { Adds result writer.old writer.new (tokens_of (again_members is_next)) }
{
    if is_next {
        write_member(alloc, writer, "again", &true)
    } else {
        Ok(())
    }
}

/// Writes notes.
fn write_notes(alloc: Global, writer: &mut Writer, notes: &[&str]) -> Result<(), AllocError>
    ensures { Adds result writer.old writer.new
        (member_tokens (codes "notes", notes_json (map (λ note. note.now) notes.now))) }
{
    write_list(alloc, writer, "notes", notes)
}

impl Entry<'_> {
    /// Writes its kind and its words.
    fn write_spoken(&self, alloc: Global, writer: &mut Writer) -> Result<(), AllocError>
        ensures { Adds result writer.old writer.new
            (tokens_of (spoken_members (plain_entry self.now))) }
    {
        write_member(alloc, writer, "kind", &self.kind)?;
        write_member(alloc, writer, "always", &self.is_always)?;
        write_member(alloc, writer, "sentence", &self.sentence)?;
        write_notes(alloc, writer, self.notes)
    }

    /// Writes its events.
    fn write_pair(&self, alloc: Global, writer: &mut Writer) -> Result<(), AllocError>
        ensures { Adds result writer.old writer.new
            (tokens_of (pair_members (plain_entry self.now))) }
    {
        write_member(alloc, writer, "first", &self.first)?;
        write_member(alloc, writer, "second", &self.second)?;
        write_list(alloc, writer, "needs", &[self.needed, self.output])
    }
}

impl Object for Entry<'_> {
    ghost members = { λ e. entry_members (plain_entry e) };

    #[tactic(auto, unfolding(crate::specs::Entries::entry_members))]
    fn write_members(&self, alloc: Global, writer: &mut Writer) -> Result<(), AllocError> {
        write_scenario(alloc, writer, self.scenario)?;
        write_member(alloc, writer, "instance", &self.instance)?;
        write_again(alloc, writer, self.is_next)?;
        self.write_spoken(alloc, writer)?;
        self.write_pair(alloc, writer)
    }
}
