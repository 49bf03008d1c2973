//! The choices of a scenario in words.

ghost use Rattle.std.specs.Prelude.{◌≡◌, ◌≤◌, ◌++◌, IfOk, OnOk, is_some, length, map, replicate};
ghost use Rattle.std.specs.Prelude.{not};
ghost use Rattle.std.specs.List.{prefix_len};
ghost use Rattle.std.specs.String.{string_bytes};
ghost use Rattle.msc_mermaid.specs.Gives.{Fails};
ghost use Rattle.msc_scenarios.specs.Steps.{Walk, joint};
ghost use Rattle.msc_shown_diagram.specs.Branches.{label_text};
ghost use Rattle.msc_shown_diagram.specs.Choices.{arrow_choice, begins_at, block_choice, block_outcome};
ghost use Rattle.msc_shown_diagram.specs.Choices.{choice_by, choice_said, fate_of, first_said};
ghost use Rattle.msc_shown_diagram.specs.Choices.{line_unless, next_choice, no_choice, plain_choice};
ghost use Rattle.msc_shown_diagram.specs.Choices.{plain_lent, statement_choice, statements_at};
ghost use Rattle.msc_shown_diagram.specs.Choices.{stop_at, stop_of, taken_or_not, AreChoicesSaid};

use crate::NO_CHOICE;
use crate::branches::{branch_said, label_text, named_branch};
use crate::span::bytes_at;
use msc_mermaid::{Diagram, ImportFault, Kind, Placed, Statement};
use msc_place::Position;
use msc_scenarios::{Walker, joint};
use msc_speech::label_said;
use msc_wording::{Outcome, SpokenChoice, choices_text};
use std::alloc::{AllocError, Global};

/// The number of choices that are named.
const NAMED: usize = 8;

/// A choice in words: what it is about, its line, unless that is named, and what is chosen.
#[derive(Drop)]
struct ChoiceWords {
    subject: String,
    line: Option<usize>,
    outcome: Outcome,
}

/// No words.
fn no_words(alloc: Global) -> ChoiceWords
    ensures { plain_choice result ≡ no_choice }
{
    ChoiceWords {
        subject: String::new(alloc),
        line: None,
        outcome: Outcome::Branch,
    }
}

/// Whether a block is taken.
fn taken_or_not(choice: usize) -> Outcome
    ensures { result ≡ taken_or_not choice }
{
    if choice == 0 {
        Outcome::Skipped
    } else {
        Outcome::Taken
    }
}

/// What is chosen of a block; `several` says whether it has several branches.
fn block_outcome(kind: Kind, several: bool, choice: usize) -> Outcome
    ensures { result ≡ block_outcome kind several choice }
{
    match kind {
        Kind::Alt => {
            if several {
                Outcome::Branch
            } else {
                taken_or_not(choice)
            }
        }
        Kind::Opt | Kind::Break => taken_or_not(choice),
        Kind::Loop => Outcome::Times(choice),
        Kind::Critical => {
            if choice == 0 {
                Outcome::WithoutOption
            } else {
                Outcome::Branch
            }
        }
        Kind::Par | Kind::Plain => Outcome::Branch,
    }
}

/// The choice of a block, which begins with `placed` and goes on with `rest`.
fn block_said(
    alloc: Global,
    text: &[u8],
    kind: Kind,
    placed: &Placed,
    rest: &[Placed],
    choice: usize,
) -> Result<ChoiceWords, AllocError>
    ensures { IfOk result (λ said. plain_choice said
        ≡ block_choice text.now kind placed.now rest.now choice) }
{
    let branch = named_branch(placed, rest, choice);
    let several = joint(rest, 0).is_some();
    let subject = branch_said(alloc, text, branch)?;
    Ok(ChoiceWords {
        subject,
        line: Some(branch.line),
        outcome: block_outcome(kind, several, choice),
    })
}

/// Whether a message is lost or arrives.
fn fate_of(choice: usize) -> Outcome
    ensures { result ≡ fate_of choice }
{
    if choice == 0 {
        Outcome::Lost
    } else {
        Outcome::Arrives
    }
}

/// The line, unless the label is empty: then what the message is called names it.
fn line_unless(label: &str, line: usize) -> Option<usize>
    ensures { result ≡ line_unless label.now line }
{
    if label.is_empty() { None } else { Some(line) }
}

/// The choice of an arrow with a cross.
fn arrow_said(
    alloc: Global,
    text: &[u8],
    placed: &Placed,
    choice: usize,
) -> Result<ChoiceWords, AllocError>
    ensures { IfOk result (λ said. plain_choice said
        ≡ arrow_choice text.now placed.now choice) }
{
    let label = bytes_at(text, placed.shown);
    let subject = label_said(alloc, label, false, placed.line)?;
    let label = label_text(alloc, label)?;
    Ok(ChoiceWords {
        subject,
        line: line_unless(label.as_str(), placed.line),
        outcome: fate_of(choice),
    })
}

/// The choice of a statement, after which `rest` follows.
fn statement_said(
    alloc: Global,
    text: &[u8],
    placed: &Placed,
    rest: &[Placed],
    choice: usize,
) -> Result<ChoiceWords, AllocError>
    ensures { IfOk result (λ said. plain_choice said
        ≡ statement_choice text.now placed.now placed.now.statement rest.now choice) }
{
    match &placed.statement {
        Statement::Says(_) => arrow_said(alloc, text, placed, choice),
        Statement::Begins(kind) => block_said(alloc, text, *kind, placed, rest, choice),
        Statement::Declares(_, _) | Statement::Closes(_) => Ok(no_words(alloc)),
    }
}

/// The choice of the first of these statements.
fn choice_by(
    alloc: Global,
    text: &[u8],
    statements: &[Placed],
    choice: usize,
) -> Result<ChoiceWords, AllocError>
    ensures { IfOk result (λ said. plain_choice said
        ≡ choice_by text.now statements.now choice) }
{
    match statements {
        [] => Ok(no_words(alloc)),
        [placed, rest @ ..] => statement_said(alloc, text, placed, rest, choice),
    }
}

/// Whether a statement begins at this position.
fn begins_at(placed: &Placed, here: Position) -> bool
    ensures { result ≡ begins_at here placed.now }
{
    placed.line == here.line && placed.column == here.column
}

/// The number of statements before the one that begins at this position.
fn count_before(statements: &[Placed], here: Position) -> usize
    ensures value { result ≡ prefix_len (λ p. not (begins_at here p)) statements.now }
    ensures within { result ≤ length statements.now }
{
    statements
        .iter()
        .take_while(|placed| !begins_at(placed, here))
        .count()
}

/// The statements from the one that begins at this position on.
fn statements_at(statements: &[Placed], here: Position) -> &[Placed]
    ensures { result.now ≡ statements_at here statements.now }
{
    &statements[count_before(statements, here)..]
}

/// The position at which a walk stopped for want of a choice, if it did. An error is that memory
/// ran out.
fn stop_of(fault: ImportFault) -> Result<Option<Position>, AllocError>
    ensures { (walked : _) → Fails {A = Walk} fault walked
        → IfOk result (λ at. at ≡ stop_of walked) }
{
    match fault {
        ImportFault::Memory => Err(AllocError),
        ImportFault::Choice(here, _, _) => Ok(Some(here)),
        _ => Ok(None),
    }
}

/// The position at which a walk with these choices stops for want of a choice, if it does.
fn stop_at(
    alloc: Global,
    diagram: &Diagram,
    given: &[usize],
) -> Result<Option<Position>, AllocError>
    ensures { IfOk result (λ at. at ≡ stop_at diagram.now given.now) }
{
    let walker = Walker::through(alloc, diagram, given)?;
    match walker.whole() {
        Ok(()) => Ok(None),
        Err(fault) => stop_of(fault),
    }
}

/// The position of the block or the arrow that takes the choice after these, if one does.
fn next_choice(
    alloc: Global,
    diagram: &Diagram,
    before: &[usize],
) -> Result<Option<Position>, AllocError>
    ensures { IfOk result (λ at. at ≡ next_choice diagram.now before.now) }
{
    let mut given = Vec::from_slice(alloc, before)?;
    given.push(NO_CHOICE)?;
    stop_at(alloc, diagram, given.as_slice())
}

/// A choice after others in words.
fn choice_said(
    alloc: Global,
    diagram: &Diagram,
    text: &[u8],
    before: &[usize],
    choice: usize,
) -> Result<ChoiceWords, AllocError>
    ensures { IfOk result (λ said. plain_choice said
        ≡ choice_said diagram.now text.now before.now choice) }
{
    match next_choice(alloc, diagram, before)? {
        None => Ok(no_words(alloc)),
        Some(here) => {
            let statements = statements_at(diagram.statements.as_slice(), here);
            choice_by(alloc, text, statements, choice)
        }
    }
}

/// The first choices of a scenario in words, at most eight.
fn first_said(
    alloc: Global,
    diagram: &Diagram,
    text: &[u8],
    choices: &[usize],
) -> Result<Vec<ChoiceWords>, AllocError>
    ensures { IfOk result (λ said. map plain_choice said.items
        ≡ first_said diagram.now text.now choices.now) }
{
    let mut said = Vec::new(alloc);
    for k in 0..choices.len().min(NAMED) {
        let words = choice_said(alloc, diagram, text, &choices[..k], choices[k])?;
        said.push(words)?;
    }
    Ok(said)
}

/// A choice, lent.
fn lent_choice(words: &ChoiceWords) -> SpokenChoice<'_>
    ensures { plain_lent result ≡ plain_choice words.now }
{
    SpokenChoice {
        subject: words.subject.as_str(),
        line: words.line,
        outcome: words.outcome,
    }
}

/// These choices, lent.
fn lent_choices(alloc: Global, words: &[ChoiceWords]) -> Result<Vec<SpokenChoice<'_>>, AllocError>
    ensures { IfOk result (λ lent.
        map plain_lent lent.items ≡ map plain_choice words.now) }
{
    let mut lent = Vec::new(alloc);
    for choice in words {
        lent.push(lent_choice(choice))?;
    }
    Ok(lent)
}

/// Appends `more` choices, which are only counted.
fn push_more(choices: &mut Vec<SpokenChoice<'_>>, more: usize) -> Result<(), AllocError>
    ensures { OnOk result (map plain_lent choices.new.items
        ≡ map plain_lent choices.old.items ++ replicate more no_choice) }
{
    for _ in 0..more {
        choices.push(SpokenChoice {
            subject: "",
            line: None,
            outcome: Outcome::Branch,
        })?;
    }
    Ok(())
}

/// The choices of a scenario in words: of a diagram in this text, by their numbers. The first eight
/// are named, in the order in which they are met, and the others counted. The only error is want of
/// memory.
pub fn choices_said(
    alloc: Global,
    diagram: &Diagram,
    text: &[u8],
    choices: &[usize],
) -> Result<String, AllocError>
    ensures { IfOk result (λ said.
        AreChoicesSaid diagram.now text.now choices.now (string_bytes said)) }
{
    let words = first_said(alloc, diagram, text, choices)?;
    let mut lent = lent_choices(alloc, words.as_slice())?;
    push_more(&mut lent, choices.len().saturating_sub(NAMED))?;
    let said = choices_text(alloc, lent.as_slice())?;
    Ok(said)
}
