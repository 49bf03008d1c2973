//! Sentences of faults of imports that have a word or a number in them.

ghost use Rattle.std.specs.Prelude.{◌≡◌, IfOk};
ghost use Rattle.std.specs.String.{string_bytes};
ghost use Rattle.msc_import_words.specs.Sentences.{choice_text, choices_text, diagrams_text};
ghost use Rattle.msc_import_words.specs.Sentences.{none_text, outside_text, scenarios_text};
ghost use Rattle.msc_import_words.specs.Sentences.{several_text, shared_text, unsupported_text};
ghost use Rattle.msc_mermaid.specs.Expectations.{closer_word};
ghost use Rattle.msc_mermaid.specs.Keys.{head_text};
ghost use Rattle.msc_fault_words.specs.Told.{shown_bytes};

use msc_mermaid::{Closer, Head};
use msc_scenarios::SCENARIO_LIMIT;
use msc_spoken::shown;
use std::alloc::{AllocError, Global};

/// That an arrow is not supported.
#[tactic(auto, unfolding(crate::specs::Sentences::unsupported_text))]
pub(crate) fn head_text(alloc: Global, head: Head) -> Result<String, AllocError>
    ensures { IfOk result (λ text. string_bytes text ≡ unsupported_text (head_text head)) }
{
    format!(in alloc; "\"{head}\" is not supported")
}

/// That an entity of HTML is not supported.
#[tactic(auto, unfolding(crate::specs::Sentences::unsupported_text))]
pub(crate) fn entity_text(alloc: Global, name: &[u8]) -> Result<String, AllocError>
    ensures { IfOk result (λ text. string_bytes text
        ≡ unsupported_text (shown_bytes name.now)) }
{
    let name = shown(alloc, name)?;
    format!(in alloc; "\"{name}\" is not supported")
}

/// That a word is outside of its block.
#[tactic(auto, unfolding(crate::specs::Sentences::outside_text))]
pub(crate) fn outside_text(alloc: Global, word: Closer) -> Result<String, AllocError>
    ensures { IfOk result (λ text. string_bytes text ≡ outside_text (closer_word word)) }
{
    format!(in alloc; "\"{word}\" stands outside of its block")
}

/// That a diagram has more scenarios than the limit.
#[tactic(auto, unfolding(crate::specs::Sentences::scenarios_text))]
pub(crate) fn scenarios_text(alloc: Global, limit: usize) -> Result<String, AllocError>
    ensures { IfOk result (λ text. string_bytes text ≡ scenarios_text limit) }
{
    format!(in alloc; "more than {limit} scenarios")
}

/// That a diagram has several scenarios.
#[tactic(auto, unfolding(crate::specs::Sentences::several_text))]
pub(crate) fn several_text(alloc: Global, count: usize) -> Result<String, AllocError>
    ensures { IfOk result (λ text. string_bytes text ≡ several_text count) }
{
    if count <= SCENARIO_LIMIT {
        return format!(in alloc; "{count} scenarios, say --choose");
    }
    String::from_str(alloc, "more than 4096 scenarios, say --choose")
}

/// That a choice is greater than the greatest of its block.
#[tactic(auto, unfolding(crate::specs::Sentences::choice_text))]
pub(crate) fn choice_text(alloc: Global, choice: usize, most: usize) -> Result<String, AllocError>
    ensures { IfOk result (λ text. string_bytes text ≡ choice_text choice most) }
{
    format!(in alloc; "choice {choice} is more than {most}")
}

/// That there are more choices than blocks.
#[tactic(auto, unfolding(crate::specs::Sentences::choices_text))]
pub(crate) fn choices_text(alloc: Global, given: usize, met: usize) -> Result<String, AllocError>
    ensures { IfOk result (λ text. string_bytes text ≡ choices_text given met) }
{
    format!(in alloc; "{given} choices for {met} blocks")
}

/// That branches share a line.
#[tactic(auto, unfolding(crate::specs::Sentences::shared_text))]
pub(crate) fn shared_text(alloc: Global, name: &[u8]) -> Result<String, AllocError>
    ensures { IfOk result (λ text. string_bytes text ≡ shared_text (shown_bytes name.now)) }
{
    let name = shown(alloc, name)?;
    format!(in alloc; "parallel branches share {name}")
}

/// That a text has no diagram of this number.
#[tactic(auto, unfolding(crate::specs::Sentences::none_text))]
pub(crate) fn none_text(alloc: Global, number: usize) -> Result<String, AllocError>
    ensures { IfOk result (λ text. string_bytes text ≡ none_text number) }
{
    format!(in alloc; "no diagram {number}")
}

/// That a text has several diagrams.
#[tactic(auto, unfolding(crate::specs::Sentences::diagrams_text))]
pub(crate) fn diagrams_text(alloc: Global, count: usize) -> Result<String, AllocError>
    ensures { IfOk result (λ text. string_bytes text ≡ diagrams_text count) }
{
    format!(in alloc; "{count} diagrams, say --fence")
}
