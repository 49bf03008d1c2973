//! Events in words.

ghost use Rattle.std.specs.Prelude.{◌≡◌, IfOk, map};
ghost use Rattle.std.specs.String.{string_bytes};
ghost use Rattle.msc_wording.specs.Events.{does_at_text, does_text, has_done_text, line_text};
ghost use Rattle.msc_wording.specs.Events.{name_at, next_round, peer_text, receiver_text};
ghost use Rattle.msc_wording.specs.Events.{with_line};

use std::alloc::{AllocError, Global};

/// What an event does.
#[derive(Clone, Copy, Debug, PartialEq, Eq)]
pub enum Act {
    /// It sends a message.
    Sends,
    /// It sends a message that is lost.
    Loses,
    /// It receives a message.
    Receives,
    /// It is an action.
    Acts,
}

/// An event, as sentences name it.
#[derive(Clone, Copy)]
pub struct SpokenEvent<'t> {
    pub act: Act,
    /// The message as it is named, such as `"pay"` in its quotes or `the message of line 3`; of an
    /// action its text, named in the same way.
    pub message: &'t str,
    /// The number of the event's instance, from 0.
    pub owner: usize,
    /// The number of the instance at the other end of the message, from 0. Of an action it is
    /// unused.
    pub peer: usize,
    /// The line of the text, from 1.
    pub line: usize,
}

/// The name of an instance, or none if there are fewer instances.
pub(crate) fn name_at<'n>(names: &[&'n str], instance: usize) -> &'n str
    ensures { result.now ≡ name_at (map (λ name. name.now) names.now) instance }
{
    match names.get(instance) {
        Some(name) => name,
        None => "",
    }
}

/// The instance at the other end of the message, or `itself` for a message to oneself.
#[tactic(auto, unfolding(crate::specs::Events::peer_text))]
pub(crate) fn peer<'n>(names: &[&'n str], event: &SpokenEvent<'_>) -> &'n str
    ensures { result.now ≡ peer_text (map (λ name. name.now) names.now) event.now }
{
    if event.peer == event.owner {
        "itself"
    } else {
        name_at(names, event.peer)
    }
}

/// What stands before a message of the next round.
pub(crate) fn next_round(is_next: bool) -> &'static str
    ensures { result.now ≡ next_round is_next }
{
    if is_next { "the next round's " } else { "" }
}

/// The line of an event.
#[tactic(auto, unfolding(crate::specs::Events::line_text))]
pub(crate) fn line_text(alloc: Global, line: usize) -> Result<String, AllocError>
    ensures { IfOk result (λ text. string_bytes text ≡ line_text line) }
{
    format!(in alloc; " (line {line})")
}

/// A text, and the line that it is about.
pub(crate) fn with_line(alloc: Global, text: &str, line: usize) -> Result<String, AllocError>
    ensures { IfOk result (λ whole. string_bytes whole ≡ with_line text.now line) }
{
    let line = line_text(alloc, line)?;
    format!(in alloc; "{text}{line}")
}

/// What an event does.
#[tactic(auto, unfolding(crate::specs::Events::does_text))]
pub(crate) fn does(
    alloc: Global,
    names: &[&str],
    event: &SpokenEvent<'_>,
) -> Result<String, AllocError>
    ensures { IfOk result (λ text. string_bytes text
        ≡ does_text (map (λ name. name.now) names.now) event.now event.now.act) }
{
    let message = event.message;
    let peer = peer(names, event);
    match event.act {
        Act::Sends => format!(in alloc; "sends {message} to {peer}"),
        Act::Loses => format!(in alloc; "sends {message} to {peer} (lost)"),
        Act::Receives => format!(in alloc; "receives {message} from {peer}"),
        Act::Acts => format!(in alloc; "does {message}"),
    }
}

/// What an event does, and its line.
#[tactic(auto, unfolding(crate::specs::Events::does_at_text))]
pub(crate) fn does_at(
    alloc: Global,
    names: &[&str],
    event: &SpokenEvent<'_>,
) -> Result<String, AllocError>
    ensures { IfOk result (λ text. string_bytes text
        ≡ does_at_text (map (λ name. name.now) names.now) event.now) }
{
    let does = does(alloc, names, event)?;
    with_line(alloc, does.as_str(), event.line)
}

/// The receiver of a message that was sent, unless a sentence on the instance `reader` has named
/// it.
#[tactic(auto, unfolding(crate::specs::Events::receiver_text))]
fn receiver(
    alloc: Global,
    names: &[&str],
    event: &SpokenEvent<'_>,
    reader: usize,
) -> Result<String, AllocError>
    ensures { IfOk result (λ text. string_bytes text
        ≡ receiver_text (map (λ name. name.now) names.now) event.now reader) }
{
    if event.peer == reader && event.owner != reader {
        return Ok(String::new(alloc));
    }
    let peer = peer(names, event);
    format!(in alloc; " to {peer}")
}

/// What an event has done, in a sentence on the instance `reader`.
#[tactic(auto, unfolding(crate::specs::Events::has_done_text))]
pub(crate) fn has_done(
    alloc: Global,
    names: &[&str],
    event: &SpokenEvent<'_>,
    reader: usize,
) -> Result<String, AllocError>
    ensures { IfOk result (λ text. string_bytes text
        ≡ has_done_text (map (λ name. name.now) names.now) event.now reader event.now.act) }
{
    let message = event.message;
    let receiver = receiver(alloc, names, event, reader)?;
    let peer = peer(names, event);
    match event.act {
        Act::Sends => format!(in alloc; "has sent {message}{receiver}"),
        Act::Loses => format!(in alloc; "has sent {message}{receiver} (lost)"),
        Act::Receives => format!(in alloc; "has received {message} from {peer}"),
        Act::Acts => format!(in alloc; "has done {message}"),
    }
}
