//! The closing line of a file, and the help on marks.

ghost use Rattle.std.specs.Prelude.{◌≡◌, IfOk};
ghost use Rattle.std.specs.String.{string_bytes};
ghost use Rattle.msc_wording.specs.Closing.{accepting_text, bold, closing_line, help_line};
ghost use Rattle.msc_wording.specs.Closing.{refused_verdict, with_queues};

use crate::number::plural;
use std::alloc::{AllocError, Global};

/// What a finding is marked in.
#[derive(Clone, Copy)]
pub enum MarkedText {
    /// A chart: a mark is the comment of an event.
    Chart,
    /// A diagram: a mark is a comment line above an arrow.
    Diagram,
}

/// A text in bold, if there are colours (ECMA-48, Select Graphic Rendition). The only error is want of
/// memory.
#[tactic(auto, unfolding(crate::specs::Closing::bold))]
pub fn bold(alloc: Global, text: &str, colours: bool) -> Result<String, AllocError>
    ensures { IfOk result (λ line. string_bytes line ≡ bold text.now colours) }
{
    if colours {
        format!(in alloc; "\x1b[1m{text}\x1b[0m")
    } else {
        String::from_str(alloc, text)
    }
}

/// What was found with these queues, which are named by a text such as `pair; mailbox worker`. The
/// only error is want of memory.
pub fn with_queues(alloc: Global, verdict: &str, queues: &str) -> Result<String, AllocError>
    ensures { IfOk result (λ text. string_bytes text ≡ with_queues verdict.now queues.now) }
{
    format!(in alloc; "{verdict} (queues: {queues})")
}

/// That a text was refused, and how many more faults it has that are not shown. The only error is
/// want of memory.
pub fn refused_verdict(alloc: Global, further: usize) -> Result<String, AllocError>
    ensures { IfOk result (λ text. string_bytes text ≡ refused_verdict further) }
{
    if further == 0 {
        return String::from_str(alloc, "refused");
    }
    let faults = plural(further, "fault", "faults");
    format!(in alloc; "refused, {further} more {faults} not shown")
}

/// The closing line of a file, without the end of the line. The only error is want of memory.
pub fn closing_line(
    alloc: Global,
    file: &str,
    verdict: &str,
    colours: bool,
) -> Result<String, AllocError>
    ensures { IfOk result (λ line. string_bytes line
        ≡ closing_line file.now verdict.now colours) }
{
    let file = format!(in alloc; "{file}: ")?;
    let file = bold(alloc, file.as_str(), colours)?;
    format!(in alloc; "{file}{verdict}")
}

/// How a race of a text is accepted.
fn accepting_text(text: MarkedText) -> &'static str
    ensures { result.now ≡ accepting_text text }
{
    match text {
        MarkedText::Chart => "the comment 'race ok: REASON' of one of its events",
        MarkedText::Diagram => "the line \"%% race ok: REASON\" above one of its arrows",
    }
}

/// The help on marks, without the end of the line. The only error is want of memory.
pub fn help_line(alloc: Global, text: MarkedText, colours: bool) -> Result<String, AllocError>
    ensures { IfOk result (λ line. string_bytes line ≡ help_line text colours) }
{
    let help = bold(alloc, "help", colours)?;
    let way = accepting_text(text);
    format!(in alloc; "{help}: a race that is meant is accepted by {way}")
}
