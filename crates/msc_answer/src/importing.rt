//! Imports, as pages: the canonical text of a scenario of a diagram, with the queues that the diagram
//! names itself and its marks, or the list of its events with the places of their arrows.

ghost use Rattle.std.specs.Prelude.{◌≡◌, ℕ, List, [], IfOk, Ok, Option, false, option_map, true, unwrap_or};
ghost use Rattle.msc_import.specs.Importing.{read, reading_of, Wanted};
ghost use Rattle.msc_answer.specs.Importing.{IsChartOrFault, IsImportedOn, IsPageOf, IsTextOf};
ghost use Rattle.msc_answer.specs.Importing.{IsCommentOf, IsFirstOwn, IsImportAs, first_reading};
ghost use Rattle.msc_answer.specs.Importing.{choices_by, choices_of, wanted_of, wanted_with};
ghost use Rattle.msc_answer.specs.Importing.{IsChartImport, IsImportBy, IsReadFor};

use crate::choices::choices_in;
use crate::ending::Refusal;
use crate::links::names_of;
use crate::own::{after_signs, bytes_at};
use crate::scenarios::reading_of;
use crate::tasks::{ChosenArgs, DiagramArgs, ImportArgs};
use msc_chart::Chart;
use msc_import::laws::reading_comes_first;
use msc_import::{Imported, Importing, Manner, draw_chosen, read};
use msc_import_laws::laws::imports_are_charts;
use msc_import_marks::{DrawnScenario, with_marks};
use msc_links::{OwnFault, OwnQueues, own_queues, own_said};
use msc_mermaid::{Diagram, Span};
use msc_parser::Draft;
use msc_place::EventPositions;
use msc_print::Page;
use msc_source::SourceFault;
use msc_text::list_chart;
use std::alloc::{AllocError, Global};

/// A diagram, and its import with a scenario.
#[derive(Drop)]
pub(crate) struct ImportedDiagram {
    /// The number of the diagram, from 1, if it is given.
    pub number: Option<usize>,
    pub diagram: Diagram,
    /// The given choices of the scenario.
    pub choices: Vec<usize>,
    pub manner: Manner,
    pub imported: Imported,
}

/// The number of a diagram in Markdown, if it is given.
pub(crate) fn fence_of(number: Option<u32>) -> Option<usize>
    ensures { result ≡ number }
{
    match number {
        Some(number) => Some(number as usize),
        None => None,
    }
}

/// The chart of a draft, or why it has none.
pub(crate) fn chart_of(alloc: Global, draft: &Draft) -> Result<Chart, SourceFault>
    ensures { IsChartOrFault draft.now result }
{
    Ok(Chart::build(alloc, draft)?)
}

/// The events of an import of the text of a file of this name, on a page.
fn list_page(alloc: Global, file: &str, imported: Imported) -> Result<Page, Refusal<'static>>
    ensures { (x : Wanted) (text : List ℕ) → IsPageOf x true file.now text imported result }
{
    let chart = chart_of(alloc, &imported.draft)?;
    let event_positions = EventPositions::at(file.as_bytes(), imported.places.into_vec());
    let page = list_chart(alloc, &chart, Some(&event_positions))?;
    Ok(page)
}

/// What the first of these comment lines says of queues that says something, if it can be read.
fn first_own<'t>(
    alloc: Global,
    text: &'t [u8],
    comments: &[Span],
) -> Result<Option<OwnQueues<'t>>, AllocError>
    ensures { IfOk result (IsFirstOwn (first_reading text.entry.now comments.now)) }
{
    for comment in comments {
        match own_queues(alloc, after_signs(bytes_at(text, *comment))) {
            Ok(None) => {}
            Ok(Some(own)) => return Ok(Some(own)),
            Err(OwnFault::Expected) => return Ok(None),
            Err(OwnFault::Memory) => return Err(AllocError),
        }
    }
    Ok(None)
}

/// The queues that the diagram of a text names itself, as a comment with the names of the lines of
/// an import of it, if it names some without a fault.
fn comment_of(
    alloc: Global,
    text: &[u8],
    imported: &Imported,
) -> Result<Option<Vec<u8>>, Refusal<'static>>
    ensures { IsCommentOf text.now imported.now result }
{
    let Some(own) = first_own(alloc, text, imported.spans.comments.as_slice())? else {
        return Ok(None);
    };
    let chart = chart_of(alloc, &imported.draft)?;
    chart.facts();
    let names = names_of(alloc, text, &imported.spans, &chart)?;
    let comment = own_said(alloc, &own, names.as_slice())?;
    Ok(comment)
}

/// The canonical text of an import, with the queues that the diagram names itself.
fn text_of(alloc: Global, text: &[u8], imported: &Imported) -> Result<Vec<u8>, Refusal<'static>>
    ensures { IsTextOf text.now imported.now result }
{
    let comment = comment_of(alloc, text, imported)?;
    let bytes = match &comment {
        None => imported.draft.write_with(alloc, None)?,
        Some(comment) => imported.draft.write_with(alloc, Some(comment.as_slice()))?,
    };
    Ok(bytes)
}

/// The text of an import with the marks of the diagram, on a page. `choices` are those of the
/// scenario.
fn text_page(
    alloc: Global,
    words: DiagramArgs<'_>,
    choices: &[usize],
    text: &[u8],
    diagram: &Diagram,
    imported: &Imported,
) -> Result<Page, Refusal<'static>>
    ensures { (given : Option (List ℕ)) → choices.now ≡ unwrap_or given []
        → read (reading_of (wanted_with words.entry given)) text.now ≡ Ok diagram.now
        → IsPageOf (wanted_with words.entry given) false [] text.now imported.now result }
{
    let chart = text_of(alloc, text, imported)?;
    let drawn = DrawnScenario {
        diagram,
        choices,
        own: words.manner.own,
        events: imported.spans.events.as_slice(),
    };
    let bytes = with_marks(alloc, text, drawn, chart)?;
    Ok(Page { bytes })
}

/// The diagram of a text.
fn diagram_of(
    alloc: Global,
    words: DiagramArgs<'_>,
    text: &[u8],
) -> Result<Diagram, Refusal<'static>>
    ensures { (choices : Option (List ℕ)) → IsReadFor (wanted_with words.entry choices) text.now result }
{
    let diagram = read(alloc, reading_of(words), text)?;
    Ok(diagram)
}

/// The scenario of a diagram with these choices.
fn drawn_of(
    alloc: Global,
    words: DiagramArgs<'_>,
    choices: Option<&[usize]>,
    diagram: &Diagram,
) -> Result<Imported, Refusal<'static>>
    ensures { (text : List ℕ)
        → read (reading_of (wanted_with words.entry (option_map (λ c. c.now) choices.entry))) text ≡ Ok diagram.now
        → IsImportAs (wanted_with words.entry (option_map (λ c. c.now) choices.entry)) text result }
{
    reading_comes_first();
    let importing = Importing {
        language: words.language,
        fence: fence_of(words.fence),
        cross: words.cross,
        manner: words.manner,
        choices,
        name: words.name,
    };
    let imported = draw_chosen(alloc, importing, diagram)?;
    Ok(imported)
}

/// The choices in the word of `--choose`, if it is given.
pub(crate) fn given_choices(
    alloc: Global,
    choose: Option<&str>,
) -> Result<Option<Vec<usize>>, AllocError>
    ensures { IfOk result (λ given. option_map (λ v. v.items) given
        ≡ choices_by (option_map (λ word. word.now) choose.entry)) }
{
    match choose {
        None => Ok(None),
        Some(word) => Ok(Some(choices_in(alloc, word)?)),
    }
}

/// The given choices; without one, all are the main ones.
fn given_or_main(choices: Option<&[usize]>) -> &[usize]
    ensures { result.now ≡ unwrap_or (option_map (λ c. c.now) choices.entry) [] }
{
    match choices {
        Some(choices) => choices,
        None => &[],
    }
}

/// The diagram of a text, and its scenario with these choices.
fn import_with(
    alloc: Global,
    words: DiagramArgs<'_>,
    choices: Option<&[usize]>,
    text: &[u8],
) -> Result<ImportedDiagram, Refusal<'static>>
    ensures { IsImportBy words.entry.fence (wanted_with words.entry (option_map (λ c. c.now) choices.entry))
        text.now result }
{
    reading_comes_first();
    let diagram = diagram_of(alloc, words, text)?;
    let imported = drawn_of(alloc, words, choices, &diagram)?;
    Ok(ImportedDiagram {
        number: fence_of(words.fence),
        diagram,
        choices: Vec::from_slice(alloc, given_or_main(choices))?,
        manner: words.manner,
        imported,
    })
}

/// The import of a text, with the choices of the words.
fn import_by(
    alloc: Global,
    words: ChosenArgs<'_>,
    text: &[u8],
) -> Result<ImportedDiagram, Refusal<'static>>
    ensures { IsImportBy words.entry.diagram.fence (wanted_of words.entry) text.now result }
{
    match given_choices(alloc, words.choose)? {
        None => import_with(alloc, words.diagram, None, text),
        Some(choices) => import_with(alloc, words.diagram, Some(choices.as_slice()), text),
    }
}

/// The import of a text, with the choices of the words. It is a chart.
pub(crate) fn import_chosen(
    alloc: Global,
    words: ChosenArgs<'_>,
    text: &[u8],
) -> Result<ImportedDiagram, Refusal<'static>>
    ensures { IsChartImport words.entry text.now result }
{
    imports_are_charts();
    import_by(alloc, words, text)
}

/// The page of an import of a text of the file of this name, with these choices.
fn page_of(
    alloc: Global,
    words: ImportArgs<'_>,
    choices: Option<&[usize]>,
    file: &str,
    text: &[u8],
    diagram: &Diagram,
    imported: Imported,
) -> Result<Page, Refusal<'static>>
    requires read { read (reading_of (wanted_of words.chosen)) text.now ≡ Ok diagram.now }
    requires choices { option_map (λ c. c.now) choices ≡ choices_of words.chosen }
    ensures { IsPageOf (wanted_of words.entry.chosen) words.entry.list file.now text.now imported result }
{
    if words.list {
        return list_page(alloc, file, imported);
    }
    let given = given_or_main(choices);
    text_page(alloc, words.chosen.diagram, given, text, diagram, &imported)
}

/// The page of an import with these choices of the text of a file of this name.
fn page_with(
    alloc: Global,
    words: ImportArgs<'_>,
    choices: Option<&[usize]>,
    file: &str,
    text: &[u8],
) -> Result<Page, Refusal<'static>>
    requires { option_map (λ c. c.now) choices ≡ choices_of words.chosen }
    ensures { IsImportedOn words.entry file.now text.now result }
{
    imports_are_charts();
    reading_comes_first();
    let diagram = diagram_of(alloc, words.chosen.diagram, text)?;
    let imported = drawn_of(alloc, words.chosen.diagram, choices, &diagram)?;
    page_of(alloc, words, choices, file, text, &diagram, imported)
}

/// The page with the import of the text of a file of this name.
pub(crate) fn import_page(
    alloc: Global,
    words: ImportArgs<'_>,
    file: &str,
    text: &[u8],
) -> Result<Page, Refusal<'static>>
    ensures { IsImportedOn words.entry file.now text.now result }
{
    match given_choices(alloc, words.chosen.choose)? {
        None => page_with(alloc, words, None, file, text),
        Some(choices) => page_with(alloc, words, Some(choices.as_slice()), file, text),
    }
}
