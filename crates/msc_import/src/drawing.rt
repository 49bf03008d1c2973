//! Scenarios: a walk through a diagram, and its draft.

ghost use Rattle.std.specs.Prelude.{◌≡◌, ◌+◌, ◌<◌, [], length, IfOk, IfSome, IfNone, OnOk, nat_le};
ghost use Rattle.std.specs.List.{AllByRecursion, flat_map};
ghost use Rattle.msc_parser.specs.Drafts.{IsSectionNamed, statements_in, statements_of};
ghost use Rattle.msc_import.specs.Drafting.{chart_name, drawn, drawn_as, drawn_plans, drawn_walk};
ghost use Rattle.msc_import.specs.Drafting.{few_events};
ghost use Rattle.msc_import.specs.Drafting.{line_name, section_of, sections_on, short_enough, too_long};
ghost use Rattle.msc_import.specs.Drafting.{IsReadAgain};
ghost use Rattle.msc_mermaid.specs.Gives.{Gives};
ghost use Rattle.msc_mermaid.specs.Reading.{Leaves};

use crate::drafting::{decl_of, drawn_items, fitted, line_name};
use crate::plan::{Manner, Plan, plans_of};
use listed::Listed;
use msc_lexer::TEXT_LIMIT;
use msc_mermaid::{Diagram, ImportFault, Placed};
use msc_parser::{Draft, Item, Name, Section};
use msc_place::Position;
use msc_scenarios::{Walker, made, names_of};
use std::alloc::{AllocError, Global};

/// The fault of a draft that is too long as a whole: no arrow of it is the one too many.
fn too_long() -> ImportFault
    ensures { result ≡ too_long }
{
    ImportFault::TooManyArrows(Position { line: 0, column: 0 })
}

/// How many events an item has.
fn events_in(item: &Item) -> usize
    ensures { result ≡ length (statements_in item.now) }
{
    match item {
        Item::Single(_) => 1,
        Item::Coregion(events) => events.as_slice().len(),
    }
}

/// The rest of this number of events without those of the items, if they are there.
fn spend(items: &[Item], events: usize) -> Option<usize>
    ensures some { IfSome result
        (λ left. left + length (flat_map statements_in items.now) ≡ events) }
    ensures none { IfNone result (events < length (flat_map statements_in items.now)) }
{
    let mut left = events;
    for item in items {
        let count = events_in(item);
        if count > left {
            return None;
        }
        left -= count;
    }
    Some(left)
}

/// Whether the sections have no more events than a text has bytes.
fn is_few(sections: &[Section]) -> bool
    ensures { result ≡ nat_le (length (statements_of sections.now)) TEXT_LIMIT }
{
    let mut left = TEXT_LIMIT;
    for section in sections {
        match spend(section.items.as_slice(), left) {
            None => return false,
            Some(rest) => left = rest,
        }
    }
    true
}

/// A line of the draft.
fn section_of(
    alloc: Global,
    names: &[Name],
    line: usize,
    ident: &[u8],
    statements: &[Placed],
    plan: &Plan,
) -> Result<Section, AllocError>
    ensures { IfOk result
        (λ s. s ≡ section_of names.now line ident.now statements.now plan.now) }
{
    Ok(Section {
        decl: decl_of(alloc, line_name(names, line), ident, statements)?,
        items: drawn_items(alloc, names, plan.events(), plan.ends())?,
    })
}

/// A line of the diagram.
fn ident_at(lines: &[Listed<u8>], line: usize) -> &[u8]
    ensures { result.now ≡ line_name lines.now line }
{
    if line < lines.len() {
        lines[line].as_slice()
    } else {
        &[]
    }
}

/// The lines of the draft.
fn sections_of(
    alloc: Global,
    lines: &[Listed<u8>],
    names: &[Name],
    statements: &[Placed],
    plans: &[Plan],
) -> Result<Vec<Section>, AllocError>
    ensures { IfOk result (λ v.
        v.items ≡ sections_on lines.now names.now statements.now 0 plans.now []) }
{
    let mut sections = Vec::new(alloc);
    for i in 0..plans.len() {
        let ident = ident_at(lines, i);
        let section = section_of(alloc, names, i, ident, statements, &plans[i])?;
        sections.push(section)?;
    }
    Ok(sections)
}

/// The name of a chart, made from `name`.
pub fn chart_name(alloc: Global, name: &[u8]) -> Result<Name, AllocError>
    ensures { IfOk result (λ n. n ≡ chart_name name.now) }
{
    let plain = made(alloc, name, "diagram".as_bytes())?;
    fitted(alloc, plain.as_slice())
}

/// The draft of these lines, if they have no more events than a text has bytes.
fn few_events(alloc: Global, name: &[u8], sections: Vec<Section>) -> Result<Draft, ImportFault>
    requires { AllByRecursion IsSectionNamed sections.items }
    ensures { Gives (λ d. d) result (few_events name.now sections.items) }
{
    if !is_few(sections.as_slice()) {
        return Err(too_long());
    }
    let name = chart_name(alloc, name)?;
    let header = Listed::from_vec(Vec::new(alloc));
    Ok(Draft::new(name, header, Listed::from_vec(sections)))
}

/// Nothing, if the text of a draft is no longer than a text may be.
fn short_enough(alloc: Global, draft: &Draft) -> Result<(), ImportFault>
    ensures short { Leaves result draft.now (short_enough draft.now) }
    ensures again { OnOk result (IsReadAgain draft.now) }
{
    let text = draft.write(alloc)?;
    if text.len() > TEXT_LIMIT {
        return Err(too_long());
    }
    Ok(())
}

/// The draft of these lines.
fn drawn_as(alloc: Global, name: &[u8], sections: Vec<Section>) -> Result<Draft, ImportFault>
    requires { AllByRecursion IsSectionNamed sections.items }
    ensures drawn { Gives (λ d. d) result (drawn_as name.now sections.items) }
    ensures again { IfOk result (λ d. IsReadAgain d) }
{
    let draft = few_events(alloc, name, sections)?;
    short_enough(alloc, &draft)?;
    Ok(draft)
}

/// The draft of a diagram with these lines and statements, of which each line has its plan.
pub(crate) fn drawn_plans(
    alloc: Global,
    name: &[u8],
    lines: &[Listed<u8>],
    statements: &[Placed],
    plans: &[Plan],
) -> Result<Draft, ImportFault>
    ensures drawn { Gives (λ d. d) result (drawn_plans name.now lines.now statements.now plans.now) }
    ensures again { IfOk result (λ d. IsReadAgain d) }
{
    let names = names_of(alloc, lines)?;
    let sections = sections_of(alloc, lines, names.as_slice(), statements, plans)?;
    drawn_as(alloc, name, sections)
}

/// The draft of a walk through these statements.
#[tactic(auto, unfolding(crate::specs::Drafting::drawn_walk))]
fn drawn_walk(
    alloc: Global,
    manner: Manner,
    name: &[u8],
    statements: &[Placed],
    walker: &Walker,
) -> Result<Draft, ImportFault>
    ensures drawn { Gives (λ d. d) result (drawn_walk manner name.now statements.now walker.now) }
    ensures again { IfOk result (λ d. IsReadAgain d) }
{
    let lines = walker.lines();
    let plans = plans_of(alloc, manner, lines.len(), walker.steps())?;
    walker.whole()?;
    drawn_plans(alloc, name, lines, statements, plans.as_slice())
}

/// The draft of a diagram's scenario with these choices, in the order in which blocks are met;
/// choices that are not given are the main ones. The chart's name is made from `name`. An error is
/// the first fault of the scenario: parallel branches that share a line, a choice that is more than
/// its block's greatest one, too many arrows, or more choices than blocks; or a growth of memory
/// that was refused.
#[tactic(auto, unfolding(crate::specs::Drafting::drawn))]
pub fn draw(
    alloc: Global,
    diagram: &Diagram,
    choices: &[usize],
    manner: Manner,
    name: &[u8],
) -> Result<Draft, ImportFault>
    ensures drawn { Gives (λ d. d) result (drawn manner name.now diagram.now choices.now) }

    // Its text is read again, as this draft.
    ensures again { IfOk result (λ d. IsReadAgain d) }
{
    let walker = Walker::through(alloc, diagram, choices)?;
    drawn_walk(alloc, manner, name, diagram.statements.as_slice(), &walker)
}
