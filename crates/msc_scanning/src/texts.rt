//! Writes the verdicts on what a text holds.

ghost use Rattle.std.specs.Prelude.{◌≡◌, [], Ok};
ghost use Rattle.msc_markdown.specs.Markdowns.{markdown};
ghost use Rattle.msc_scanning.specs.Folding.{Folds};
ghost use Rattle.msc_scanning.specs.Putting.{Gives};
ghost use Rattle.msc_scanning.specs.Texts.{language_of, AreWordsFor, GivesNext, PutsNumber, PutsText};

use crate::charts::put_chart;
use crate::diagrams::{put_block, put_diagram};
use crate::holding::{Holding, holding_of};
use crate::outcome::{Outcome, alone, put_outcome};
use crate::words::Plan;
use msc_answer::{DiagramArgs, ScenarioArgs, title_of};
use msc_import::Language;
use msc_markdown::Markdown;
use msc_report::Fault;
use msc_scan::FileKind;
use std::alloc::Global;
use std::io::Write;

/// The language of a diagram, by how its file is read.
fn language_of(kind: Option<FileKind>) -> Language
    ensures { result ≡ language_of kind }
{
    match kind {
        Some(FileKind::Mermaid) => Language::Mermaid,
        Some(FileKind::Chart | FileKind::Markdown) | None => Language::Any,
    }
}

/// The words of the check of a diagram of a file.
fn words_for<'w>(plan: Plan<'w>, file: &'w str, kind: Option<FileKind>) -> ScenarioArgs<'w>
    ensures { AreWordsFor plan.entry file.entry.now kind result }
{
    let words = plan.printing();
    ScenarioArgs {
        diagram: DiagramArgs {
            language: language_of(kind),
            fence: None,
            cross: words.diagram.cross,
            manner: words.diagram.manner,
            name: title_of(file),
        },
        ..words
    }
}

/// Writes the verdict on the sequence diagram of Markdown with this number, and appends how it ended.
fn put_number<O: Write>(
    alloc: Global,
    plan: Plan<'_>,
    words: ScenarioArgs<'_>,
    file: &str,
    found: &Markdown<'_>,
    number: usize,
    outcomes: &mut Vec<Outcome>,
    output: &mut O,
) -> Result<(), Fault>
    requires { markdown found.now.text ≡ Ok found.now }
    ensures { GivesNext O.contents (PutsNumber plan.entry words.entry file.now found.now.text number) result
        outcomes.old.items outcomes.new.items output.old output.new }
{
    let outcome = put_block(alloc, plan, words, file, found, number, output)?;
    put_outcome(outcomes, outcome)?;
    Ok(())
}

/// Writes the verdicts on all sequence diagrams of Markdown, in the order of their numbers.
fn put_blocks<O: Write>(
    alloc: Global,
    plan: Plan<'_>,
    words: ScenarioArgs<'_>,
    file: &str,
    found: &Markdown<'_>,
    output: &mut O,
) -> Result<Vec<Outcome>, Fault>
    requires { markdown found.now.text ≡ Ok found.now }
    ensures { Gives O.contents (λ outcomes. Folds (PutsNumber plan.entry words.entry file.now found.now.text)
        found.now.numbers [] outcomes.items) result output.old output.new }
{
    let mut outcomes = Vec::new(alloc);
    for number in found.numbers() {
        put_number(
            alloc,
            plan,
            words,
            file,
            found,
            *number,
            &mut outcomes,
            output,
        )?;
    }
    Ok(outcomes)
}

/// Writes the verdicts on what a text holds, and returns how each of its diagrams ended.
pub(crate) fn put_text<O: Write>(
    alloc: Global,
    plan: Plan<'_>,
    file: &str,
    kind: Option<FileKind>,
    text: &[u8],
    output: &mut O,
) -> Result<Vec<Outcome>, Fault>
    ensures { Gives O.contents (λ outcomes. PutsText plan.entry file.now kind text.now outcomes.items)
        result output.old output.new }
{
    let words = words_for(plan, file, kind);
    match holding_of(alloc, kind, text)? {
        Holding::Nothing => Ok(Vec::new(alloc)),
        Holding::Chart => {
            let outcome = put_chart(alloc, plan, file, text, output)?;
            Ok(alone(alloc, outcome)?)
        }
        Holding::Diagram => {
            let outcome = put_diagram(alloc, plan, words, file, text, output)?;
            Ok(alone(alloc, outcome)?)
        }
        Holding::Blocks(found) => put_blocks(alloc, plan, words, file, &found, output),
    }
}
