//! Imports: from a text to the draft of one of its scenarios, with the places of its events.

ghost use Rattle.std.specs.Prelude.{◌≡◌, ◌⊎◌, [], IfOk, option_map};
ghost use Rattle.std.specs.List.{list_any};
ghost use Rattle.msc_import.specs.Drafting.{IsReadAgain};
ghost use Rattle.msc_mermaid.specs.Gives.{Gives};
ghost use Rattle.msc_import.specs.Importing.{Imports, chosen, diagram_by, diagram_from, drawn_at};
ghost use Rattle.msc_import.specs.Importing.{entity_of};
ghost use Rattle.msc_import.specs.Importing.{imported, imported_from, imported_plans, is_any};
ghost use Rattle.msc_import.specs.Importing.{read, read_from, reading_of};
ghost use Rattle.msc_import.specs.Importing.{scenario_of, seen, short_bytes, told_of};
ghost use Rattle.msc_import.specs.Importing.{told_by_content, wanted, with_name};
ghost use Rattle.msc_mermaid.specs.White.{trimmed};
ghost use Rattle.msc_mermaid.specs.Mermaid.{is_head};
ghost use Rattle.msc_mermaid.specs.declared.fault.ImportFault.TheVariants.{Memory};

use crate::SCENARIO_ROUNDS;
use crate::drafting::line_name;
use crate::drawing::drawn_plans;
use crate::placing::places_in;
use crate::plan::{Manner, Plan, plans_of};
use crate::short_name::ShortName;
use crate::spanning::{TextSpans, sites_in, sites_of};
use listed::Listed;
use msc_lexer::TEXT_LIMIT;
use msc_markdown::Markdown;
use msc_mermaid::{
    Cross, Diagram, Expectation, ImportFault, beginning_of, diagram_of, is_head, lines_of, trimmed,
};
use msc_parser::Draft;
use msc_place::Position;
use msc_scenarios::{Walker, names_of, scenarios};
use std::alloc::Global;

/// The language of a text with a diagram.
#[derive(Clone, Copy, Debug, PartialEq, Eq)]
pub enum Language {
    /// Mermaid's sequence diagrams.
    Mermaid,
    /// The language of the first line that begins a diagram.
    Any,
}

/// Which diagram of a text is read, and how.
#[derive(Clone, Copy)]
pub struct DiagramReading {
    pub language: Language,
    /// The number of the block of Markdown, as in [`Importing`].
    pub fence: Option<usize>,
    /// The meaning of arrows with a cross; without one, a cross is a choice.
    pub cross: Option<Cross>,
}

/// A text's import: what is imported, and how.
#[derive(Clone, Copy)]
pub struct Importing<'a> {
    pub language: Language,
    /// The number of the block of Markdown, from 1; without one, the text has to be a diagram as a
    /// whole, or to have one block that is a sequence diagram.
    pub fence: Option<usize>,
    /// The meaning of arrows with a cross; without one, a cross is a choice.
    pub cross: Option<Cross>,
    pub manner: Manner,
    /// The choices of the scenario, in the order in which blocks are met; without them, the diagram
    /// has to have one scenario.
    pub choices: Option<&'a [usize]>,
    /// The bytes from which the name of the chart is made.
    pub name: &'a [u8],
}

/// An import: a draft; the positions of the arrows of its events in the text, in their order; and
/// the places of the names and labels of its lines and events.
#[derive(Drop)]
pub struct Imported {
    pub draft: Draft,
    pub places: Listed<Position>,
    pub spans: TextSpans,
}

/// Why nothing was imported: the first fault, and the name of the line of the diagram, or the
/// entity of HTML, that the fault has, if any.
#[derive(Clone, Copy)]
pub struct Refused {
    pub fault: ImportFault,
    pub name: ShortName,
}

/// Whether a line of the text begins a diagram.
fn begins_diagram(lines: &[&[u8]]) -> bool
    ensures { result ≡ list_any (λ line. is_head (trimmed line.now)) lines.now }
{
    lines.iter().any(|line| is_head(trimmed(line)))
}

/// The diagram of a text whose language its content decides.
#[tactic(auto, unfolding(crate::specs::Importing::told_by_content))]
fn told_by_content(alloc: Global, cross: Option<Cross>, text: &[u8]) -> Result<Diagram, ImportFault>
    ensures { Gives (λ x. x) result (told_by_content cross text.now) }
{
    if text.len() > TEXT_LIMIT {
        return Err(ImportFault::TooLong);
    }
    let found = lines_of(alloc, text)?;
    let lines = found.as_slice();
    if !begins_diagram(lines) {
        let place = beginning_of(lines);
        return Err(ImportFault::Expected(place, Expectation::AnyDiagram));
    }
    diagram_of(alloc, cross, text)
}

/// The diagram of a text in its language.
#[tactic(auto, unfolding(crate::specs::Importing::diagram_by))]
fn diagram_by(
    alloc: Global,
    language: Language,
    cross: Option<Cross>,
    text: &[u8],
) -> Result<Diagram, ImportFault>
    ensures { Gives (λ x. x) result (diagram_by language cross text.now) }
{
    match language {
        Language::Mermaid => diagram_of(alloc, cross, text),
        Language::Any => told_by_content(alloc, cross, text),
    }
}

/// Whether the content of the text decides its language.
fn is_any(language: Language) -> bool
    ensures { result ≡ is_any language }
{
    language == Language::Any
}

/// The diagram of a text: the text as a whole, or its only block that is a sequence diagram, or the
/// block of this number.
#[tactic(auto, unfolding(crate::specs::Importing::diagram_from))]
fn diagram_from(
    alloc: Global,
    reading: DiagramReading,
    found: &Markdown<'_>,
) -> Result<Diagram, ImportFault>
    ensures { Gives (λ x. x) result
        (diagram_from reading.language reading.cross reading.fence found.now) }
{
    let DiagramReading {
        language,
        fence,
        cross,
    } = reading;
    if let Some(number) = fence {
        return found.diagram(alloc, is_any(language), cross, number);
    }
    if found.is_diagram() {
        return diagram_by(alloc, language, cross, found.text());
    }
    match found.numbers() {
        [] => diagram_by(alloc, language, cross, found.text()),
        [number] => found.diagram(alloc, is_any(language), cross, *number),
        numbers => Err(ImportFault::SeveralDiagrams(numbers.len())),
    }
}

/// The choices of the scenario that is requested.
#[tactic(auto, unfolding(crate::specs::Importing::chosen))]
fn chosen<'a>(
    alloc: Global,
    choices: Option<&'a [usize]>,
    diagram: &Diagram,
) -> Result<&'a [usize], ImportFault>
    ensures { Gives (λ x. x.now) result (chosen (option_map (λ c. c.now) choices.entry) diagram.now) }
{
    if let Some(given) = choices {
        return Ok(given);
    }
    let count = scenarios(alloc, diagram, &SCENARIO_ROUNDS)?;
    if count != 1 {
        return Err(ImportFault::Several(count));
    }
    Ok(&[])
}

/// The draft of a diagram, of which these lines have these plans, the places of its events, and the
/// places of names and labels in the text.
#[tactic(auto, unfolding(crate::specs::Importing::imported_plans))]
fn imported_plans(
    alloc: Global,
    name: &[u8],
    diagram: &Diagram,
    lines: &[Listed<u8>],
    plans: &[Plan],
) -> Result<Imported, ImportFault>
    ensures given { Gives (λ x. x) result
        (imported_plans name.now diagram.now lines.now plans.now) }
    ensures again { IfOk result (λ x. IsReadAgain x.draft) }
{
    let draft = drawn_plans(alloc, name, lines, diagram.statements.as_slice(), plans)?;
    let found = places_in(alloc, plans)?;
    let events = sites_in(alloc, plans)?;
    let spans = sites_of(alloc, diagram, events)?;
    Ok(Imported {
        draft,
        places: Listed::from_vec(found),
        spans,
    })
}

/// The draft of a diagram's scenario with these choices, the places of its events, and the places
/// of names and labels in the text, by one walk through the diagram.
#[tactic(auto, unfolding(crate::specs::Importing::drawn_at, crate::specs::Importing::imported_plans, crate::specs::Drafting::drawn, crate::specs::Drafting::drawn_walk, crate::specs::Places::places, crate::specs::Places::walk_places, crate::specs::Places::event_spans, crate::specs::Places::walk_spans))]
pub(crate) fn drawn_at(
    alloc: Global,
    manner: Manner,
    name: &[u8],
    diagram: &Diagram,
    given: &[usize],
) -> Result<Imported, ImportFault>
    ensures given { Gives (λ x. x) result (drawn_at manner name.now diagram.now given.now) }
    ensures again { IfOk result (λ x. IsReadAgain x.draft) }
{
    let walker = Walker::through(alloc, diagram, given)?;
    let lines = walker.lines();
    let plans = plans_of(alloc, manner, lines.len(), walker.steps())?;
    walker.whole()?;
    imported_plans(alloc, name, diagram, lines, plans.as_slice())
}

/// The draft and the places of the requested scenario.
#[tactic(auto, unfolding(crate::specs::Importing::scenario_of))]
fn scenario_of(
    alloc: Global,
    importing: Importing<'_>,
    diagram: &Diagram,
) -> Result<Imported, ImportFault>
    ensures given { Gives (λ x. x) result (scenario_of (wanted importing.entry) diagram.now) }
    ensures again { IfOk result (λ x. IsReadAgain x.draft) }
{
    let given = chosen(alloc, importing.choices, diagram)?;
    drawn_at(alloc, importing.manner, importing.name, diagram, given)
}

/// A fault of a diagram, with the name of its line.
pub(crate) fn with_name(alloc: Global, diagram: &Diagram, fault: ImportFault) -> Refused
    ensures { (result.fault ≡ Memory) ⊎ (seen result ≡ with_name diagram.now.lines fault) }
{
    let ImportFault::Shared(_, line) = fault else {
        return unnamed(fault);
    };
    match names_of(alloc, diagram.lines.as_slice()) {
        Ok(names) => Refused {
            fault,
            name: ShortName::of(line_name(names.as_slice(), line)),
        },
        Err(_) => unnamed(ImportFault::Memory),
    }
}

/// A fault without a line of a diagram.
pub(crate) fn unnamed(fault: ImportFault) -> Refused
    ensures fault { result.fault ≡ fault }
    ensures name { short_bytes result.name ≡ [] }
{
    Refused {
        fault,
        name: ShortName::of(&[]),
    }
}

/// A fault of a text, with its entity of HTML.
pub(crate) fn unread(found: &Markdown<'_>, fault: ImportFault) -> Refused
    ensures fault { result.fault ≡ fault }
    ensures name { short_bytes result.name ≡ entity_of found.now fault }
{
    let ImportFault::Entity(here) = fault else {
        return unnamed(fault);
    };
    Refused {
        fault,
        name: ShortName::of(found.entity(here.line)),
    }
}

/// The diagram of a text whose blocks are known. An error is the first fault of the diagram, or
/// that the text has several, or not the requested one; or a growth of memory that was refused.
#[tactic(auto, unfolding(crate::specs::Importing::answered))]
pub fn read_from(
    alloc: Global,
    reading: DiagramReading,
    found: &Markdown<'_>,
) -> Result<Diagram, Refused>
    ensures { Imports result (read_from reading found.now) }
{
    match diagram_from(alloc, reading, found) {
        Ok(diagram) => Ok(diagram),
        Err(fault) => Err(unread(found, fault)),
    }
}

/// The diagram of a text, as [`read_from`] reads it. An error is also that the text is too long,
/// before all others.
#[tactic(auto, unfolding(crate::specs::Importing::found_as))]
pub fn read(alloc: Global, reading: DiagramReading, text: &[u8]) -> Result<Diagram, Refused>
    ensures { Imports result (read reading text.now) }
{
    let found = match Markdown::of(alloc, text) {
        Ok(found) => found,
        Err(fault) => return Err(unnamed(fault)),
    };
    read_from(alloc, reading, &found)
}

/// The requested scenario of a diagram: its draft, with the places of its events. Of `importing`,
/// only the manner, the choices and the name count. An error is, without choices, that the diagram
/// has several scenarios; the first fault of the scenario; or a growth of memory that was refused.
pub fn draw_chosen(
    alloc: Global,
    importing: Importing<'_>,
    diagram: &Diagram,
) -> Result<Imported, Refused>
    ensures given { Imports result
        (told_of diagram.now.lines (scenario_of (wanted importing.entry) diagram.now)) }

    // The text of the draft is read again, as this draft.
    ensures again { IfOk result (λ x. IsReadAgain x.draft) }
{
    match scenario_of(alloc, importing, diagram) {
        Ok(imported) => Ok(imported),
        Err(fault) => Err(with_name(alloc, diagram, fault)),
    }
}

impl Importing<'_> {
    /// Which diagram of the text is read, and how.
    pub fn reading(&self) -> DiagramReading
        ensures { result ≡ reading_of (wanted self.now) }
    {
        DiagramReading {
            language: self.language,
            fence: self.fence,
            cross: self.cross,
        }
    }
}

/// The import of a text whose blocks are known: its diagram is read ([`read_from`]), and the
/// requested scenario of it is drawn ([`draw_chosen`]). An error is the first of these two.
#[tactic(auto, unfolding(crate::specs::Importing::answered))]
pub fn import_from(
    alloc: Global,
    importing: Importing<'_>,
    found: &Markdown<'_>,
) -> Result<Imported, Refused>
    ensures given { Imports result (imported_from (wanted importing.entry) found.now) }

    // The text of the draft is read again, as this draft.
    ensures again { IfOk result (λ x. IsReadAgain x.draft) }
{
    let diagram = read_from(alloc, importing.reading(), found)?;
    draw_chosen(alloc, importing, &diagram)
}

/// The import of a text, as [`import_from`] makes it. An error is also that the text is too long,
/// before all others.
#[tactic(auto, unfolding(crate::specs::Importing::found_as))]
pub fn import(alloc: Global, importing: Importing<'_>, text: &[u8]) -> Result<Imported, Refused>
    ensures given { Imports result (imported (wanted importing.entry) text.now) }

    // The text of the draft is read again, as this draft.
    ensures again { IfOk result (λ x. IsReadAgain x.draft) }
{
    let found = match Markdown::of(alloc, text) {
        Ok(found) => found,
        Err(fault) => return Err(unnamed(fault)),
    };
    import_from(alloc, importing, &found)
}
