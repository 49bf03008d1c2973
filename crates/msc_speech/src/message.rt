//! What people call a message or a step.

ghost use Rattle.std.specs.Prelude.{◌≡◌, IfOk};
ghost use Rattle.std.specs.Option.{option_copied};
ghost use Rattle.std.specs.String.{string_bytes};
ghost use Rattle.msc_speech.specs.Messages.{action_said, called, label_said, line_said, message_said};
ghost use Rattle.msc_speech.specs.Messages.{with_number};

use crate::quoting::quoted;
use itoa::Buffer;
use msc_spoken::{cut, shown, spoken};
use std::alloc::{AllocError, Global};

/// A word and a line of the text.
fn line_said(alloc: Global, word: &str, line: usize) -> Result<String, AllocError>
    ensures { IfOk result (λ said. string_bytes said ≡ line_said word.now line) }
{
    let mut said = String::new(alloc);
    said.push_str(word)?;
    let mut buffer = Buffer::new();
    said.push_str(buffer.format(line))?;
    Ok(said)
}

/// A text between quotes; or, if it is empty, a word and a line of the text.
fn called(alloc: Global, text: &str, word: &str, line: usize) -> Result<String, AllocError>
    ensures { IfOk result (λ said. string_bytes said ≡ called text.now word.now line) }
{
    if text.is_empty() {
        return line_said(alloc, word, line);
    }
    quoted(alloc, text)
}

/// What a message of a chart is called, by its identifier and, after a comma, its number if it has
/// one: both between quotes. The only error is want of memory.
pub fn message_said(alloc: Global, name: &[u8], number: Option<&[u8]>) -> Result<String, AllocError>
    ensures { IfOk result (λ said. string_bytes said
        ≡ message_said name.now (option_copied number.entry)) }
{
    let mut text = shown(alloc, name)?;
    if let Some(number) = number {
        text.push_str(", ")?;
        text.push_str(shown(alloc, number)?.as_str())?;
    }
    quoted(alloc, text.as_str())
}

/// What a step of a chart is called: its text between quotes, cut if it is long; or `the action of
/// line L` if its text is empty, where `line` is its line. The only error is want of memory.
pub fn action_said(alloc: Global, text: &[u8], line: usize) -> Result<String, AllocError>
    ensures { IfOk result (λ said. string_bytes said ≡ action_said text.now line) }
{
    let text = shown(alloc, text)?;
    let text = cut(alloc, text.as_str())?;
    called(alloc, text.as_str(), "the action of line ", line)
}

/// What an arrow of a diagram is called: its label between quotes, as people read it and cut if it
/// is long. If nothing is left of the label, it is `the message of line L`, or `the step of line L`
/// if the arrow leads to the line that it comes from. The only error is want of memory.
pub fn label_said(
    alloc: Global,
    label: &[u8],
    is_step: bool,
    line: usize,
) -> Result<String, AllocError>
    ensures { IfOk result (λ said. string_bytes said ≡ label_said label.now is_step line) }
{
    let text = spoken(alloc, label)?;
    let text = cut(alloc, text.as_str())?;
    let word = if is_step {
        "the step of line "
    } else {
        "the message of line "
    };
    called(alloc, text.as_str(), word, line)
}
