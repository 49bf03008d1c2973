//! Two events that can come in the other order than drawn.

ghost use Rattle.std.specs.Prelude.{◌==◌, ◌≡◌, IfOk, map};
ghost use Rattle.std.specs.List.{list_any};
ghost use Rattle.std.specs.String.{string_bytes};
ghost use Rattle.msc_wording.specs.Pairs.{doer_text, help_text, line_unless_marked, needed_text};
ghost use Rattle.msc_wording.specs.Pairs.{only_after, second_text, sends_text};

use crate::event::{SpokenEvent, has_done, line_text, name_at, next_round};
use std::alloc::{AllocError, Global};

/// Two events of one instance that can come in the other order than drawn, and the order of two
/// events that would prevent it: `output` only after `needed`.
#[derive(Clone, Copy)]
pub struct SpokenPair<'t> {
    /// The event that is drawn first.
    pub first: SpokenEvent<'t>,
    /// The event that is drawn second. It receives.
    pub second: SpokenEvent<'t>,
    /// Whether `second` and `output` are of the next round of a loop.
    pub is_next: bool,
    pub needed: SpokenEvent<'t>,
    /// The output of the message that `second` receives.
    pub output: SpokenEvent<'t>,
}

/// Whether a line is one of those that are marked.
fn is_marked(marked: &[usize], line: usize) -> bool
    ensures { result ≡ list_any (λ each. each == line) marked.now }
{
    marked.iter().any(|each| *each == line)
}

/// The line of an event, unless it is marked.
#[tactic(auto, unfolding(crate::specs::Pairs::line_unless_marked))]
fn line_unless_marked(
    alloc: Global,
    marked: &[usize],
    event: &SpokenEvent<'_>,
) -> Result<String, AllocError>
    ensures { IfOk result (λ text. string_bytes text ≡ line_unless_marked marked.now event.now) }
{
    if is_marked(marked, event.line) {
        return Ok(String::new(alloc));
    }
    line_text(alloc, event.line)
}

/// A condition on the order of two events.
#[tactic(auto, unfolding(crate::specs::Pairs::only_after))]
fn only_after(alloc: Global, sends: &str, needed: &str) -> Result<String, AllocError>
    ensures { IfOk result (λ text. string_bytes text ≡ only_after sends.now needed.now) }
{
    format!(in alloc; " if {sends} only after {needed}")
}

impl SpokenPair<'_> {
    /// The message that is received, and its round.
    #[tactic(auto, unfolding(crate::specs::Pairs::second_text))]
    pub(crate) fn second_text(&self, alloc: Global) -> Result<String, AllocError>
        ensures { IfOk result (λ text. string_bytes text ≡ second_text self.now) }
    {
        let round = next_round(self.is_next);
        let message = self.second.message;
        format!(in alloc; "{round}{message}")
    }

    /// That the output is sent, and its round and line.
    #[tactic(auto, unfolding(crate::specs::Pairs::sends_text))]
    fn sends_text(
        &self,
        alloc: Global,
        names: &[&str],
        marked: &[usize],
    ) -> Result<String, AllocError>
        ensures { IfOk result (λ text. string_bytes text
            ≡ sends_text (map (λ name. name.now) names.now) marked.now self.now) }
    {
        let sender = name_at(names, self.output.owner);
        let round = next_round(self.is_next);
        let message = self.output.message;
        let line = line_unless_marked(alloc, marked, &self.output)?;
        format!(in alloc; "{sender} sends {round}{message}{line}")
    }

    /// Which instance has to have done the needed event.
    #[tactic(auto, unfolding(crate::specs::Pairs::doer_text))]
    fn doer<'n>(&self, names: &[&'n str]) -> &'n str
        ensures { result.now ≡ doer_text (map (λ name. name.now) names.now) self.now }
    {
        if self.needed.owner == self.output.owner {
            "it"
        } else {
            name_at(names, self.needed.owner)
        }
    }

    /// What has to be done before the output.
    #[tactic(auto, unfolding(crate::specs::Pairs::needed_text))]
    fn needed_text(
        &self,
        alloc: Global,
        names: &[&str],
        marked: &[usize],
    ) -> Result<String, AllocError>
        ensures { IfOk result (λ text. string_bytes text
            ≡ needed_text (map (λ name. name.now) names.now) marked.now self.now) }
    {
        let doer = self.doer(names);
        let done = has_done(alloc, names, &self.needed, self.second.owner)?;
        let line = line_unless_marked(alloc, marked, &self.needed)?;
        format!(in alloc; "{doer} {done}{line}")
    }

    /// The order of two events that would prevent the other order of the pair.
    pub(crate) fn help(
        &self,
        alloc: Global,
        names: &[&str],
        marked: &[usize],
    ) -> Result<String, AllocError>
        ensures { IfOk result (λ text. string_bytes text
            ≡ help_text (map (λ name. name.now) names.now) marked.now self.now) }
    {
        let sends = self.sends_text(alloc, names, marked)?;
        let needed = self.needed_text(alloc, names, marked)?;
        only_after(alloc, sends.as_str(), needed.as_str())
    }
}
