//! Faults of messages, in words.

ghost use Rattle.std.specs.Prelude.{◌≡◌, IfOk};
ghost use Rattle.std.specs.String.{string_bytes};
ghost use Rattle.msc_fault_words.specs.Messages.{apart_text, apart_words, far_label};
ghost use Rattle.msc_fault_words.specs.Messages.{input_text, missing_text, near_label, needed_input};
ghost use Rattle.msc_fault_words.specs.Messages.{needed_output, needed_text, output_text, twice};
ghost use Rattle.msc_fault_words.specs.Messages.{twice_text, unmatched};
ghost use Rattle.msc_fault_words.specs.Messages.{unmatched_text, way_text};

use crate::told::{note_place, note_text};
use crate::words::{FaultWords, Span};
use msc_diagnostic::Sign;
use msc_notes::{FaultNotes, Note, Tag};
use msc_spoken::shown;
use std::alloc::{AllocError, Global};

/// An end of a message of a text, as sentences name it. Texts are printed as they are.
#[derive(Clone, Copy)]
pub struct MessageEnd<'t> {
    /// Whether it is an output.
    pub sends: bool,
    /// The identifier of the message, with its number if it has one: `NAME` or `NAME, NUMBER`.
    pub message: &'t str,
    /// The instance of the event.
    pub owner: &'t str,
    /// The instance that the event names as the other end.
    pub address: &'t str,
}

/// That a message is sent.
#[tactic(auto, unfolding(crate::specs::Messages::output_text))]
fn output_text(alloc: Global, message: &str, address: &str) -> Result<String, AllocError>
    ensures { IfOk result (λ text. string_bytes text ≡ output_text message.now address.now) }
{
    format!(in alloc; "\"{message}\" is sent to {address}")
}

/// That a message is received.
#[tactic(auto, unfolding(crate::specs::Messages::input_text))]
fn input_text(alloc: Global, message: &str, address: &str) -> Result<String, AllocError>
    ensures { IfOk result (λ text. string_bytes text ≡ input_text message.now address.now) }
{
    format!(in alloc; "\"{message}\" is received from {address}")
}

/// What an event does.
fn way_text(alloc: Global, end: MessageEnd<'_>) -> Result<String, AllocError>
    ensures { IfOk result (λ text. string_bytes text ≡ way_text end.entry) }
{
    if end.sends {
        output_text(alloc, end.message, end.address)
    } else {
        input_text(alloc, end.message, end.address)
    }
}

/// That an event is there twice.
#[tactic(auto, unfolding(crate::specs::Messages::twice_text))]
fn twice_text(alloc: Global, end: MessageEnd<'_>) -> Result<String, AllocError>
    ensures { IfOk result (λ text. string_bytes text ≡ twice_text end.entry) }
{
    let way = way_text(alloc, end)?;
    format!(in alloc; "{way} twice")
}

/// The identifier in a hint that ends with ` tells them apart`.
fn apart_words(hint: &[u8]) -> &[u8]
    ensures { result.now ≡ apart_words hint.now }
{
    &hint[..hint.len().saturating_sub(b" tells them apart".len())]
}

/// What tells two messages apart.
#[tactic(auto, unfolding(crate::specs::Messages::apart_text))]
fn apart_text(alloc: Global, hint: &[u8]) -> Result<String, AllocError>
    ensures { IfOk result (λ text. string_bytes text ≡ apart_text hint.now) }
{
    let identifier = shown(alloc, apart_words(hint))?;
    format!(in alloc; "a number tells them apart: {identifier}")
}

/// An event that an earlier one repeats.
pub(crate) fn twice_words(
    alloc: Global,
    end: MessageEnd<'_>,
    told: &FaultNotes,
    spans: &[Span],
) -> Result<FaultWords, AllocError>
    ensures { IfOk result (λ words. words
        ≡ twice end.entry told.now.place told.now.notes spans.now) }
{
    let notes = told.notes.as_slice();
    let mut words = FaultWords::new(alloc, "chart 6", twice_text(alloc, end)?);
    words.mark_at(spans, told.place, Sign::Caret, "again here")?;
    words.mark_at(
        spans,
        note_place(notes, Tag::First),
        Sign::Dash,
        "first here",
    )?;
    words.help(apart_text(alloc, note_text(notes, Tag::Hint))?)?;
    Ok(words)
}

/// What the other instance never does.
fn missing_text(sends: bool) -> &'static str
    ensures { result.now ≡ missing_text sends }
{
    if sends {
        "which never receives it"
    } else {
        "which never sends it"
    }
}

/// That an event has no other end.
#[tactic(auto, unfolding(crate::specs::Messages::unmatched_text))]
fn unmatched_text(alloc: Global, end: MessageEnd<'_>) -> Result<String, AllocError>
    ensures { IfOk result (λ text. string_bytes text ≡ unmatched_text end.entry) }
{
    let way = way_text(alloc, end)?;
    let missing = missing_text(end.sends);
    format!(in alloc; "{way}, {missing}")
}

/// The input that is missing.
#[tactic(auto, unfolding(crate::specs::Messages::needed_input))]
fn needed_input(alloc: Global, end: MessageEnd<'_>) -> Result<String, AllocError>
    ensures { IfOk result (λ text. string_bytes text ≡ needed_input end.entry) }
{
    let MessageEnd {
        message,
        owner,
        address,
        ..
    } = end;
    format!(in alloc; "{address} needs: in {message} from {owner}")
}

/// The output that is missing.
#[tactic(auto, unfolding(crate::specs::Messages::needed_output))]
fn needed_output(alloc: Global, end: MessageEnd<'_>) -> Result<String, AllocError>
    ensures { IfOk result (λ text. string_bytes text ≡ needed_output end.entry) }
{
    let MessageEnd {
        message,
        owner,
        address,
        ..
    } = end;
    format!(in alloc; "{address} needs: out {message} to {owner}")
}

/// The other end that is missing.
fn needed_text(alloc: Global, end: MessageEnd<'_>) -> Result<String, AllocError>
    ensures { IfOk result (λ text. string_bytes text ≡ needed_text end.entry) }
{
    if end.sends {
        needed_input(alloc, end)
    } else {
        needed_output(alloc, end)
    }
}

/// The label of an event without another end.
fn near_label(sends: bool) -> &'static str
    ensures { result.now ≡ near_label sends }
{
    if sends { "sent here" } else { "received here" }
}

/// The label of the event that may have been meant as the other end.
fn far_label(sends: bool) -> &'static str
    ensures { result.now ≡ far_label sends }
{
    if sends {
        "this input has no output"
    } else {
        "this output has no input"
    }
}

/// An event without another end.
pub(crate) fn unmatched_words(
    alloc: Global,
    id: &'static str,
    end: MessageEnd<'_>,
    told: &FaultNotes,
    spans: &[Span],
) -> Result<FaultWords, AllocError>
    ensures { IfOk result (λ words. words
        ≡ unmatched id.now end.entry told.now.place told.now.notes spans.now) }
{
    let near = note_place(told.notes.as_slice(), Tag::Near);
    let mut words = FaultWords::new(alloc, id, unmatched_text(alloc, end)?);
    words.mark_at(spans, told.place, Sign::Caret, near_label(end.sends))?;
    words.mark_at(spans, near, Sign::Dash, far_label(end.sends))?;
    words.help(needed_text(alloc, end)?)?;
    Ok(words)
}
