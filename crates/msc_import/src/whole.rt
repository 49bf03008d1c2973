//! All scenarios of a diagram, or one of them. Whether each has a draft is checked first, and the
//! first are kept.

ghost use Rattle.std.specs.Prelude.{◌≡◌, ◌∷◌, [], IfErr, IfOk, Ok};
ghost use Rattle.msc_mermaid.specs.Gives.{Fails, Gives};
ghost use Rattle.msc_import.specs.Importing.{told_of, Imports};
ghost use Rattle.msc_import.specs.Whole.{all_of, all_scenarios, choices_within, draws_branches};
ghost use Rattle.msc_import.specs.Whole.{reading_of_all, wanted_all, wanted_choices};
ghost use Rattle.msc_import.specs.Whole.{AreChoices, IsTried};

use crate::drawing::chart_name;
use crate::drawings::{Drawings, Scenario, draw_first, share_lines, try_others};
use crate::importing::{DiagramReading, Language, Refused, unnamed, with_name};
use crate::plan::{Manner, Par};
use listed::Listed;
use msc_mermaid::{Cross, Diagram, ImportFault};
use msc_parser::Name;
use msc_scenarios::{all_choices, scenarios};
use std::alloc::{AllocError, Global};

/// The import of all scenarios of a text, or of one of them, and its options.
#[derive(Clone, Copy)]
pub struct ImportingAll<'r, 'n> {
    pub language: Language,
    /// The number of the block of Markdown, as in [`Importing`](crate::Importing).
    pub fence: Option<usize>,
    /// The meaning of arrows with a cross; without one, a cross is a choice.
    pub cross: Option<Cross>,
    pub manner: Manner,
    /// The numbers of rounds that each loop goes, in ascending order.
    pub rounds: &'r [usize],
    /// The greatest number of scenarios: 1 to [`SCENARIO_LIMIT`](crate::SCENARIO_LIMIT), since no
    /// more are counted.
    pub limit: usize,
    /// The choices of the only scenario that is wanted, as in [`Importing`](crate::Importing);
    /// without them, all are. With them, the rounds and the limit count for nothing.
    pub choose: Option<&'r [usize]>,
    /// The bytes from which the name of all charts is made.
    pub name: &'n [u8],
}

/// All scenarios of a diagram, in the order of their choices; the name of the charts; and whether
/// parallel branches are drawn one below the other in some scenario.
#[derive(Drop)]
pub struct Scenarios<'n> {
    pub name: Name,
    pub list: Drawings<'n>,
    pub drawn: bool,
}

/// The choices of the wanted scenarios of a diagram, each of which has a draft, and the first of
/// these.
#[derive(Drop)]
struct Tried {
    lists: Vec<Listed<usize>>,
    first: Vec<Scenario>,
}

/// The choices of all scenarios of a diagram. An error is that there are more than the limit, or a
/// growth of memory that was refused.
#[tactic(auto, unfolding(crate::specs::Whole::choices_within))]
fn choices_within(
    alloc: Global,
    rounds: &[usize],
    limit: usize,
    diagram: &Diagram,
) -> Result<Vec<Listed<usize>>, ImportFault>
    ensures { Gives (λ lists. lists.items) result (choices_within rounds.now limit diagram.now) }
{
    if scenarios(alloc, diagram, rounds)? > limit {
        return Err(ImportFault::TooManyScenarios(limit));
    }
    let lists = all_choices(alloc, diagram, rounds)?;
    Ok(lists)
}

/// These choices alone.
fn only_choices(alloc: Global, given: &[usize]) -> Result<Vec<Listed<usize>>, AllocError>
    ensures { IfOk result (λ lists. lists.items ≡ given.now ∷ []) }
{
    let mut lists = Vec::new(alloc);
    lists.push(Listed::from_vec(Vec::from_slice(alloc, given)?))?;
    Ok(lists)
}

/// The choices of the scenarios of a diagram that are wanted: of the one that is given, or of all.
#[tactic(auto, unfolding(crate::specs::Whole::wanted_choices))]
fn wanted_choices(
    alloc: Global,
    importing: ImportingAll<'_, '_>,
    diagram: &Diagram,
) -> Result<Vec<Listed<usize>>, ImportFault>
    ensures { Gives (λ lists. lists.items) result
        (wanted_choices (wanted_all importing.entry) diagram.now) }
{
    match importing.choose {
        Some(given) => {
            let lists = only_choices(alloc, given)?;
            Ok(lists)
        }
        None => choices_within(alloc, importing.rounds, importing.limit, diagram),
    }
}

/// The choices of the wanted scenarios of a diagram, and the first of these. An error is that there
/// are more than the limit; the first fault of the first scenario that has one; or a growth of
/// memory that was refused.
#[tactic(auto, unfolding(crate::specs::Whole::all_scenarios))]
fn try_scenarios(
    alloc: Global,
    importing: ImportingAll<'_, '_>,
    diagram: &Diagram,
) -> Result<Tried, ImportFault>
    ensures ok { IfOk result (IsTried (wanted_all importing.entry) diagram.now) }
    ensures err { IfErr result
        (λ fault. Fails fault (all_scenarios (wanted_all importing.entry) diagram.now)) }
{
    let ImportingAll { manner, name, .. } = importing;
    let lists = wanted_choices(alloc, importing, diagram)?;
    let first = draw_first(alloc, manner, name, diagram, lists.as_slice())?;
    try_others(
        alloc,
        manner,
        name,
        diagram,
        lists.as_slice(),
        first.as_slice(),
    )?;
    Ok(Tried { lists, first })
}

/// Whether parallel branches are drawn one below the other in a scenario with one of these choices.
#[tactic(auto, using(crate::proofs::AllLemmas::draws_none))]
fn draws_branches(
    alloc: Global,
    importing: ImportingAll<'_, '_>,
    diagram: &Diagram,
    lists: &[Listed<usize>],
) -> Result<bool, AllocError>
    requires { AreChoices (wanted_all importing) diagram.now lists.now }
    ensures { IfOk result (λ drawn. drawn
        ≡ draws_branches (wanted_all importing.entry) diagram.now) }
{
    let Manner { own, par } = importing.manner;
    match par {
        Par::Refused => Ok(false),
        Par::Drawn => {
            let share = share_lines(alloc, own, diagram, lists)?;
            Ok(share)
        }
    }
}

/// The scenarios with these choices, with the name of the charts.
fn all_of<'n>(
    alloc: Global,
    importing: ImportingAll<'_, 'n>,
    diagram: &'n Diagram,
    tried: Tried,
) -> Result<Scenarios<'n>, AllocError>
    requires { IsTried (wanted_all importing) diagram.now tried }
    ensures { IfOk result (λ x. all_of (wanted_all importing.entry) diagram.entry.now ≡ Ok x) }
{
    let Tried { lists, first } = tried;
    let name = chart_name(alloc, importing.name)?;
    let drawn = draws_branches(alloc, importing, diagram, lists.as_slice())?;
    let list = Drawings::of(importing.manner, importing.name, diagram, lists, first);
    Ok(Scenarios { name, list, drawn })
}

/// All scenarios of a diagram, each once, in the order of their choices; or the one that is chosen.
/// Of `importing`, only the manner, the rounds, the limit, the chosen scenario and the name count. An
/// error is that the diagram has more scenarios than the limit; the first fault of the first
/// scenario that has one; or a growth of memory that was refused.
pub fn draw_all<'n>(
    alloc: Global,
    importing: ImportingAll<'_, 'n>,
    diagram: &'n Diagram,
) -> Result<Scenarios<'n>, Refused>
    ensures { Imports result
        (told_of diagram.entry.now.lines (all_of (wanted_all importing.entry) diagram.entry.now)) }
{
    let tried = match try_scenarios(alloc, importing, diagram) {
        Ok(tried) => tried,
        Err(fault) => return Err(with_name(alloc, diagram, fault)),
    };
    match all_of(alloc, importing, diagram, tried) {
        Ok(scenarios) => Ok(scenarios),
        Err(_) => Err(unnamed(ImportFault::Memory)),
    }
}

impl ImportingAll<'_, '_> {
    /// Which diagram of the text is read, and how.
    pub fn reading(&self) -> DiagramReading
        ensures { result ≡ reading_of_all (wanted_all self.now) }
    {
        DiagramReading {
            language: self.language,
            fence: self.fence,
            cross: self.cross,
        }
    }
}
