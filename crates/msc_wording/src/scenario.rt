//! The scenarios of a diagram, in words.

ghost use Rattle.std.specs.Prelude.{◌++◌, ◌≡◌, IfOk, OnOk};
ghost use Rattle.std.specs.List.{flat_map};
ghost use Rattle.std.specs.String.{string_bytes};
ghost use Rattle.msc_wording.specs.Scenarios.{all_text, choice_text, choices_text, joined_choices};
ghost use Rattle.msc_wording.specs.Scenarios.{more_choices, next_choice, one_text, outcome_text};
ghost use Rattle.msc_wording.specs.Scenarios.{scenarios_text, some_text, subject_text, such_as};
ghost use Rattle.msc_wording.specs.Scenarios.{times_text};

use crate::event::with_line;
use crate::number::plural;
use std::alloc::{AllocError, Global};

/// The number of choices that are named.
const CHOICES: usize = 8;

/// A choice of a scenario.
#[derive(Clone, Copy)]
pub enum Outcome {
    /// The branch that is named.
    Branch,
    /// The block is taken.
    Taken,
    /// The block is skipped.
    Skipped,
    /// The loop has this number of rounds.
    Times(usize),
    /// No option of the block is taken.
    WithoutOption,
    /// The message is lost.
    Lost,
    /// The message arrives.
    Arrives,
}

/// A choice of a scenario.
#[derive(Clone, Copy)]
pub struct SpokenChoice<'t> {
    /// The branch or the message as it is named, such as `alt "paid"` or `"pay"`.
    pub subject: &'t str,
    /// The line of the text, from 1, unless the subject names it.
    pub line: Option<usize>,
    pub outcome: Outcome,
}

/// How many rounds a loop has.
#[tactic(auto, unfolding(crate::specs::Scenarios::times_text))]
fn times(alloc: Global, rounds: usize) -> Result<String, AllocError>
    ensures { IfOk result (λ text. string_bytes text ≡ times_text rounds) }
{
    match rounds {
        0 => String::from_str(alloc, " skipped"),
        1 => String::from_str(alloc, " once"),
        2 => String::from_str(alloc, " twice"),
        _ => format!(in alloc; " {rounds} times"),
    }
}

impl Outcome {
    /// The words after the subject.
    #[tactic(auto, unfolding(crate::specs::Scenarios::outcome_text))]
    fn text(self, alloc: Global) -> Result<String, AllocError>
        ensures { IfOk result (λ text. string_bytes text ≡ outcome_text self) }
    {
        match self {
            Outcome::Branch => Ok(String::new(alloc)),
            Outcome::Taken => String::from_str(alloc, " taken"),
            Outcome::Skipped => String::from_str(alloc, " skipped"),
            Outcome::Times(rounds) => times(alloc, rounds),
            Outcome::WithoutOption => String::from_str(alloc, " without an option"),
            Outcome::Lost => String::from_str(alloc, " is lost"),
            Outcome::Arrives => String::from_str(alloc, " arrives"),
        }
    }
}

impl SpokenChoice<'_> {
    /// The subject, and its line.
    fn subject_text(&self, alloc: Global) -> Result<String, AllocError>
        ensures { IfOk result (λ text. string_bytes text
            ≡ subject_text self.now.subject.now self.now.line) }
    {
        match self.line {
            Some(line) => with_line(alloc, self.subject, line),
            None => String::from_str(alloc, self.subject),
        }
    }

    /// The choice in words.
    #[tactic(auto, unfolding(crate::specs::Scenarios::choice_text))]
    fn text(&self, alloc: Global) -> Result<String, AllocError>
        ensures { IfOk result (λ text. string_bytes text ≡ choice_text self.now) }
    {
        let subject = self.subject_text(alloc)?;
        let outcome = self.outcome.text(alloc)?;
        format!(in alloc; "{subject}{outcome}")
    }
}

/// Appends a choice after a comma.
fn print_choice(
    text: &mut String,
    alloc: Global,
    choice: &SpokenChoice<'_>,
) -> Result<(), AllocError>
    ensures { OnOk result (string_bytes text.new
        ≡ string_bytes text.old ++ next_choice choice.now) }
{
    let choice = choice.text(alloc)?;
    write!(text, ", {choice}")
}

/// Appends choices, a comma before each.
fn print_choices(
    text: &mut String,
    alloc: Global,
    choices: &[SpokenChoice<'_>],
) -> Result<(), AllocError>
    ensures { OnOk result (string_bytes text.new
        ≡ string_bytes text.old ++ flat_map next_choice choices.now) }
{
    for choice in choices {
        print_choice(text, alloc, choice)?;
    }
    Ok(())
}

/// Choices with commas between them.
fn joined(alloc: Global, choices: &[SpokenChoice<'_>]) -> Result<String, AllocError>
    ensures { IfOk result (λ text. string_bytes text ≡ joined_choices choices.now) }
{
    match choices {
        [] => Ok(String::new(alloc)),
        [first, others @ ..] => {
            let mut text = first.text(alloc)?;
            print_choices(&mut text, alloc, others)?;
            Ok(text)
        }
    }
}

/// Appends how many more choices there are, if there are some.
#[tactic(auto, unfolding(crate::specs::Scenarios::more_choices))]
fn print_more(text: &mut String, more: usize) -> Result<(), AllocError>
    ensures { OnOk result (string_bytes text.new ≡ string_bytes text.old ++ more_choices more) }
{
    if more == 0 {
        return Ok(());
    }
    let choices = plural(more, "choice", "choices");
    write!(text, ", and {more} more {choices}")
}

/// The choices of a scenario: the first eight, and how many more there are. The only error is want
/// of memory.
pub fn choices_text(alloc: Global, choices: &[SpokenChoice<'_>]) -> Result<String, AllocError>
    ensures { IfOk result (λ text. string_bytes text ≡ choices_text choices.now) }
{
    let count = choices.len().min(CHOICES);
    let mut text = joined(alloc, &choices[..count])?;
    print_more(&mut text, choices.len() - count)?;
    Ok(text)
}

/// That a race counts in each scenario.
#[tactic(auto, unfolding(crate::specs::Scenarios::all_text))]
fn all(alloc: Global, scenarios: usize) -> Result<String, AllocError>
    ensures { IfOk result (λ text. string_bytes text ≡ all_text scenarios) }
{
    if scenarios == 2 {
        return String::from_str(alloc, "in both scenarios");
    }
    format!(in alloc; "in all {scenarios} scenarios")
}

/// That a race counts in one scenario.
#[tactic(auto, unfolding(crate::specs::Scenarios::one_text))]
fn one(alloc: Global, scenarios: usize, number: usize, choices: &str) -> Result<String, AllocError>
    ensures { IfOk result (λ text. string_bytes text ≡ one_text scenarios number choices.now) }
{
    format!(in alloc; "in scenario {number} of {scenarios}: {choices}")
}

/// One of several scenarios.
#[tactic(auto, unfolding(crate::specs::Scenarios::such_as))]
fn such_as(alloc: Global, number: usize, choices: &str) -> Result<String, AllocError>
    ensures { IfOk result (λ text. string_bytes text ≡ such_as number choices.now) }
{
    format!(in alloc; ", such as scenario {number}: {choices}")
}

/// That a race counts in so many scenarios.
#[tactic(auto, unfolding(crate::specs::Scenarios::some_text))]
fn some(alloc: Global, count: usize, scenarios: usize, example: &str) -> Result<String, AllocError>
    ensures { IfOk result (λ text. string_bytes text ≡ some_text count scenarios example.now) }
{
    format!(in alloc; "in {count} of {scenarios} scenarios{example}")
}

/// In which scenarios a race counts, as the text of a note: in `count` of `scenarios`, of which
/// there are several. One of them has this number, from 1, and these choices. The only error is
/// want of memory.
pub fn scenarios_text(
    alloc: Global,
    count: usize,
    scenarios: usize,
    number: usize,
    choices: &str,
) -> Result<String, AllocError>
    ensures { IfOk result (λ text. string_bytes text
        ≡ scenarios_text count scenarios number choices.now) }
{
    if count == scenarios {
        all(alloc, scenarios)
    } else if count == 1 {
        one(alloc, scenarios, number, choices)
    } else {
        let example = such_as(alloc, number, choices)?;
        some(alloc, count, scenarios, example.as_str())
    }
}
