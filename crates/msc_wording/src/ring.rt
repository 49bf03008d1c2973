//! Rings of events that wait for each other, in words.

ghost use Rattle.std.specs.Prelude.{◌≡◌, IfOk, codes, map};
ghost use Rattle.std.specs.String.{string_bytes};
ghost use Rattle.msc_wording.specs.Rings.{drawn_step, drawn_text, first_sent_text, more_steps};
ghost use Rattle.msc_wording.specs.Rings.{queued_step, queued_text, ring_notes, ring_step};
ghost use Rattle.msc_wording.specs.Rings.{sent_step, sent_text};

use crate::event::{SpokenEvent, does_at, line_text, name_at, with_line};
use crate::number::plural;
use crate::way::Way;
use std::alloc::{AllocError, Global};

/// The number of steps of a ring that are explained.
const STEPS: usize = 8;

/// Why an event has to come before another.
#[derive(Clone, Copy)]
pub enum RingOrder {
    /// The second event receives what the first one sends.
    Sent,
    /// They are drawn in this order on one instance.
    Drawn,
    /// They send two messages that arrive in this way, and the first is received first.
    Queued(Way),
}

/// A step of a ring: its first event has to come before its second.
#[derive(Clone, Copy)]
pub struct SpokenRingStep<'t> {
    pub first: SpokenEvent<'t>,
    pub second: SpokenEvent<'t>,
    pub order: RingOrder,
}

/// That a chart can never happen, in a sentence without a full stop.
pub fn never_sentence() -> &'static str
    ensures { result.now ≡ codes "this chart can never happen as it is drawn" }
{
    "this chart can never happen as it is drawn"
}

/// That a message is sent before it is received.
#[tactic(auto, unfolding(crate::specs::Rings::sent_text))]
fn sent(alloc: Global, message: &str, line: &str, other: &str) -> Result<String, AllocError>
    ensures { IfOk result (λ text. string_bytes text ≡ sent_text message.now line.now other.now) }
{
    format!(in alloc; "{message} is sent{line} before it is received{other}")
}

/// That an instance does one thing before another.
#[tactic(auto, unfolding(crate::specs::Rings::drawn_text))]
fn drawn(alloc: Global, owner: &str, first: &str, second: &str) -> Result<String, AllocError>
    ensures { IfOk result (λ text. string_bytes text
        ≡ drawn_text owner.now first.now second.now) }
{
    format!(in alloc; "{owner} {first} before it {second}, as drawn")
}

/// That a message has to be sent before another.
#[tactic(auto, unfolding(crate::specs::Rings::first_sent_text))]
fn first_sent(alloc: Global, first: &str, second: &str) -> Result<String, AllocError>
    ensures { IfOk result (λ text. string_bytes text ≡ first_sent_text first.now second.now) }
{
    format!(in alloc; "{first} has to be sent before {second}")
}

/// Why that is so.
#[tactic(auto, unfolding(crate::specs::Rings::queued_text))]
fn queued(alloc: Global, sent: &str, reader: &str, way: &str) -> Result<String, AllocError>
    ensures { IfOk result (λ text. string_bytes text
        ≡ queued_text sent.now reader.now way.now) }
{
    format!(in alloc; "{sent}: {reader} receives it first, and {way}")
}

impl SpokenRingStep<'_> {
    /// The step of a message.
    fn sent_step(&self, alloc: Global) -> Result<String, AllocError>
        ensures { IfOk result (λ text. string_bytes text ≡ sent_step self.now) }
    {
        let line = line_text(alloc, self.first.line)?;
        let other = line_text(alloc, self.second.line)?;
        sent(alloc, self.first.message, line.as_str(), other.as_str())
    }

    /// The step from an event to one below it.
    fn drawn_step(&self, alloc: Global, names: &[&str]) -> Result<String, AllocError>
        ensures { IfOk result (λ text. string_bytes text
            ≡ drawn_step (map (λ name. name.now) names.now) self.now) }
    {
        let owner = name_at(names, self.first.owner);
        let first = does_at(alloc, names, &self.first)?;
        let second = does_at(alloc, names, &self.second)?;
        drawn(alloc, owner, first.as_str(), second.as_str())
    }

    /// The step from an output to another, of a message that is received later.
    fn queued_step(&self, alloc: Global, names: &[&str], way: Way) -> Result<String, AllocError>
        ensures { IfOk result (λ text. string_bytes text
            ≡ queued_step (map (λ name. name.now) names.now) self.now way) }
    {
        let reader = name_at(names, self.first.peer);
        let first = with_line(alloc, self.first.message, self.first.line)?;
        let second = with_line(alloc, self.second.message, self.second.line)?;
        let sent = first_sent(alloc, first.as_str(), second.as_str())?;
        queued(alloc, sent.as_str(), reader, way.text())
    }

    /// The text of the step.
    fn text(&self, alloc: Global, names: &[&str]) -> Result<String, AllocError>
        ensures { IfOk result (λ text. string_bytes text
            ≡ ring_step (map (λ name. name.now) names.now) self.now self.now.order) }
    {
        match self.order {
            RingOrder::Sent => self.sent_step(alloc),
            RingOrder::Drawn => self.drawn_step(alloc, names),
            RingOrder::Queued(way) => self.queued_step(alloc, names, way),
        }
    }
}

/// The first steps of a ring.
fn first_steps(
    alloc: Global,
    names: &[&str],
    steps: &[SpokenRingStep<'_>],
) -> Result<Vec<String>, AllocError>
    ensures { IfOk result (λ notes. map string_bytes notes.items
        ≡ map (λ step. ring_step (map (λ name. name.now) names.now) step step.order) steps.now) }
{
    let mut notes = Vec::new(alloc);
    for step in steps {
        notes.push(step.text(alloc, names)?)?;
    }
    Ok(notes)
}

/// How many more steps there are.
fn more_steps(alloc: Global, more: usize) -> Result<String, AllocError>
    ensures { IfOk result (λ text. string_bytes text ≡ more_steps more) }
{
    let steps = plural(more, "step", "steps");
    format!(in alloc; "and {more} more {steps}")
}

/// The texts of the notes on the steps of a ring: the first eight steps, and how many more there
/// are. Instances are named by `names`, by their numbers. The only error is want of memory.
pub fn ring_notes(
    alloc: Global,
    names: &[&str],
    steps: &[SpokenRingStep<'_>],
) -> Result<Vec<String>, AllocError>
    ensures { IfOk result (λ notes. map string_bytes notes.items
        ≡ ring_notes (map (λ name. name.now) names.now) steps.now) }
{
    let count = steps.len().min(STEPS);
    let mut notes = first_steps(alloc, names, &steps[..count])?;
    if steps.len() > STEPS {
        notes.push(more_steps(alloc, steps.len() - STEPS)?)?;
    }
    Ok(notes)
}
