//! All scenarios of a diagram. The first are kept; each of the others is drawn when it is taken.

ghost use Rattle.std.specs.Prelude.{◌≡◌, ◌<◌, [], length, not, slice_get, take, IfErr, IfOk, Some};
ghost use Rattle.std.specs.List.{All, list_any};
ghost use Rattle.msc_import.specs.Drafting.{IsReadAgain};
ghost use Rattle.msc_import.specs.Drawings.{list_of, scenario_with, scenarios_on, shares_line};
ghost use Rattle.msc_import.specs.Drawings.{AreDrawn, AreFirst, TriesAll};
ghost use Rattle.msc_mermaid.specs.Gives.{Fails, Gives};

use crate::drawing::draw;
use crate::importing::drawn_at;
use crate::plan::{Manner, Own, Par, plans_of};
use crate::spanning::TextSpans;
use listed::Listed;
use msc_mermaid::{Diagram, ImportFault};
use msc_parser::Draft;
use msc_place::Position;
use msc_scenarios::Walker;
use std::alloc::{AllocError, Global};
use std::marker::Model;
use std::mem;

/// The greatest number of events with which all scenarios of a diagram are kept: some 7 MB. If they
/// have more, only the first is kept, so memory does not grow with their number.
const KEPT_EVENTS: usize = 32_768;

/// A scenario: the choices of its blocks in the order in which they are met, its draft, the
/// positions of the arrows of its events in the text, in their order, and the places of the names
/// and labels of its lines and events.
#[derive(Drop)]
pub struct Scenario {
    pub choices: Listed<usize>,
    pub draft: Draft,
    pub places: Listed<Position>,
    pub spans: TextSpans,
}

/// All scenarios of a diagram, in the order of their choices. The choices of all are kept, and the
/// first scenarios until they are taken as a list. Contracts see the list of all.
#[derive(Drop)]
pub struct Drawings<'n> {
    diagram: &'n Diagram,
    manner: Manner,
    name: &'n [u8],
    lists: Vec<Listed<usize>>,
    first: Vec<Scenario>,
}

impl<'n> Model for Drawings<'n> {
    ghost use Rattle.std.specs.Prelude.{List, []};
    ghost use Rattle.msc_import.specs.Drawings.{list_of, scenarios_on, AreDrawn, AreFirst};
    ghost use Rattle.msc_import.specs.declared.drawings.Scenario.{Scenario};

    ghost Value = { List Scenario };

    ghost view = { λ x.
        list_of (scenarios_on x.manner x.name.now x.diagram.now [] x.lists.items) };

    ghost invariant = { λ x.
        AreDrawn (scenarios_on x.manner x.name.now x.diagram.now [] x.lists.items)
        × AreFirst x.manner x.name.now x.diagram.now x.lists.items x.first.items };
}

/// The scenario with these choices.
#[tactic(auto, unfolding(crate::specs::Drawings::scenario_with))]
fn scenario_with(
    alloc: Global,
    manner: Manner,
    name: &[u8],
    diagram: &Diagram,
    given: &Listed<usize>,
) -> Result<Scenario, ImportFault>
    ensures given { Gives (λ x. x) result (scenario_with manner name.now diagram.now given.now) }
    ensures again { IfOk result (λ s. IsReadAgain s.draft) }
{
    let imported = drawn_at(alloc, manner, name, diagram, given.as_slice())?;
    let choices = Vec::from_slice(alloc, given.as_slice())?;
    Ok(Scenario {
        choices: Listed::from_vec(choices),
        draft: imported.draft,
        places: imported.places,
        spans: imported.spans,
    })
}

/// Whether a further scenario is kept, if `kept` of `scenarios` are and have this number of events:
/// all would have at most [`KEPT_EVENTS`] if the others had as many in the mean.
fn keeps_more(kept: usize, events: usize, scenarios: usize) -> bool {
    match events.checked_div(kept) {
        Some(mean) => mean.saturating_mul(scenarios) <= KEPT_EVENTS,
        None => true,
    }
}

/// The first of the scenarios with these choices: as many as are kept, and at least one. An error
/// is also the first fault of the first scenario that has one.
pub(crate) fn draw_first(
    alloc: Global,
    manner: Manner,
    name: &[u8],
    diagram: &Diagram,
    lists: &[Listed<usize>],
) -> Result<Vec<Scenario>, ImportFault>
    ensures first { IfOk result (λ v. AreFirst manner name.now diagram.now lists.now v.items) }
    ensures fails { IfErr result
        (λ fault. Fails fault (scenarios_on manner name.now diagram.now [] lists.now)) }
{
    let mut first = Vec::new(alloc);
    let mut events: usize = 0;
    for given in lists {
        if !keeps_more(first.len(), events, lists.len()) {
            return Ok(first);
        }
        let scenario = scenario_with(alloc, manner, name, diagram, given)?;
        events = events.saturating_add(scenario.places.as_slice().len());
        first.push(scenario)?;
    }
    Ok(first)
}

/// Nothing, if each of the scenarios with these choices has a draft; otherwise the first fault of
/// the first that has none. The first scenarios were drawn; of the others no draft is kept.
pub(crate) fn try_others(
    alloc: Global,
    manner: Manner,
    name: &[u8],
    diagram: &Diagram,
    lists: &[Listed<usize>],
    first: &[Scenario],
) -> Result<(), ImportFault>
    requires { AreFirst manner name.now diagram.now lists.now first.now }
    ensures { TriesAll result (scenarios_on manner name.now diagram.now [] lists.now) }
{
    for i in first.len()..lists.len() {
        draw(alloc, diagram, lists[i].as_slice(), manner, name)?;
    }
    Ok(())
}

/// Whether parallel branches share a line in the scenario with these choices: one of them has more
/// than one segment there.
fn shares_line(
    alloc: Global,
    own: Own,
    diagram: &Diagram,
    given: &[usize],
) -> Result<bool, AllocError>
    ensures { IfOk result (λ shares. shares ≡ shares_line own diagram.now given.now) }
{
    let manner = Manner {
        own,
        par: Par::Refused,
    };
    let walker = Walker::through(alloc, diagram, given)?;
    match plans_of(alloc, manner, walker.lines().len(), walker.steps()) {
        Ok(_) => Ok(false),
        Err(ImportFault::Shared(_, _)) => Ok(true),
        Err(_) => Err(AllocError),
    }
}

/// Whether parallel branches share a line in some scenario with one of these choices.
pub(crate) fn share_lines(
    alloc: Global,
    own: Own,
    diagram: &Diagram,
    lists: &[Listed<usize>],
) -> Result<bool, AllocError>
    ensures { IfOk result (λ share. share ≡ list_any (shares_line own diagram.now) lists.now) }
{
    for given in lists {
        if shares_line(alloc, own, diagram, given.as_slice())? {
            return Ok(true);
        }
    }
    Ok(false)
}

impl<'n> Drawings<'n> {
    /// The scenarios with these choices, all of which have a draft; these are the first. It takes
    /// no memory.
    pub(crate) fn of(
        manner: Manner,
        name: &'n [u8],
        diagram: &'n Diagram,
        lists: Vec<Listed<usize>>,
        first: Vec<Scenario>,
    ) -> Self
        requires drawn { AreDrawn (scenarios_on manner name.now diagram.now [] lists.items) }
        requires first { AreFirst manner name.now diagram.now lists.items first.items }
        ensures { result
            ≡ list_of (scenarios_on manner name.entry.now diagram.entry.now [] lists.items) }
    {
        Drawings {
            diagram,
            manner,
            name,
            lists,
            first,
        }
    }

    /// Their number. It takes no memory.
    pub fn len(&self) -> usize
        ensures { result ≡ length self.now }
    {
        self.lists.len()
    }

    /// Takes the first scenarios out, which were drawn before: afterwards none is kept, and each is
    /// drawn by [`scenario`](Self::scenario). It takes no memory.
    pub fn take_first(&mut self, alloc: Global) -> Vec<Scenario>
        ensures first { result.items ≡ take (length result.items) self.old }
        ensures same { self.new ≡ self.old }
    {
        mem::replace(&mut self.first, Vec::new(alloc))
    }

    /// Draws the scenario with this number, from 0. An error is a growth of memory that was
    /// refused.
    pub fn scenario(&self, alloc: Global, i: usize) -> Result<Scenario, AllocError>
        requires { i < length self.now }
        ensures given { IfOk result (λ s. slice_get self.now i ≡ Some s) }

        // The text of its draft is read again, as this draft.
        ensures again { IfOk result (λ s. IsReadAgain s.draft) }
    {
        let given = &self.lists[i];
        match scenario_with(alloc, self.manner, self.name, self.diagram, given) {
            Ok(scenario) => Ok(scenario),
            Err(_) => Err(AllocError),
        }
    }
}
