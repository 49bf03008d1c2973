//! The boxes of actions: the lines of their texts, and the room that they take.

ghost use Rattle.std.specs.Prelude.{◌≡◌, ◌+◌, ◌*◌, ◌++◌, ◌∷◌, [], IfOk, List, OnOk, fold, get_or};
ghost use Rattle.std.specs.Prelude.{length, max, ℕ};
ghost use Rattle.msc_svg.specs.Actions.{action_box, box_of_lines, cut_line, ended, filled};
ghost use Rattle.msc_svg.specs.Actions.{first_lines, fits_behind, longest, part_of, parts_after};
ghost use Rattle.msc_svg.specs.Actions.{parts_of, with_part};

use crate::measure::times;
use listed::Listed;
use msc_parser::Label;
use msc_picture::plus;
use std::alloc::{AllocError, Global};

/// The greatest number of characters of a line.
const LINE: usize = 24;

/// A part of a word: at most as many characters as a line has, and whether others of the word come
/// before it.
#[derive(Drop)]
pub struct WordPart {
    pub text: Label,
    pub later: bool,
}

/// The box of an action: its lines, how far it reaches to both sides of its axis, and how far up
/// and down.
#[derive(Drop)]
pub struct ActionBox {
    pub lines: Listed<Label>,
    pub reach: usize,
    pub up: usize,
}

/// Appends the part of a word that ends here to the parts, if there is one.
fn end_part(
    parts: &mut Vec<WordPart>,
    alloc: Global,
    held: &[u8],
    later: bool,
) -> Result<(), AllocError>
    ensures { OnOk result (parts.new.items ≡ parts.old.items ++ part_of held.now later) }
{
    if held.len() == 0 {
        return Ok(());
    }
    parts.push(WordPart {
        text: Listed::from_vec(Vec::from_slice(alloc, held)?),
        later,
    })?;
    Ok(())
}

/// Takes one more byte of a text, after the beginning of a part. Returns whether the part that is
/// held then is a later part of its word.
fn take_byte(
    parts: &mut Vec<WordPart>,
    alloc: Global,
    held: &mut Vec<u8>,
    later: bool,
    byte: u8,
) -> Result<bool, AllocError>
    ensures { IfOk result (λ now. (bs : List ℕ)
        → parts.new.items ++ parts_after held.new.items now bs
        ≡ parts.old.items ++ parts_after held.old.items later (byte ∷ bs)) }
{
    if byte == b' ' {
        end_part(parts, alloc, held.as_slice(), later)?;
        held.clear();
        return Ok(false);
    }
    if held.len() == LINE {
        end_part(parts, alloc, held.as_slice(), later)?;
        held.clear();
        held.push(byte)?;
        return Ok(true);
    }
    held.push(byte)?;
    Ok(later)
}

/// The parts of the words of a text.
fn parts_of(alloc: Global, text: &[u8]) -> Result<Vec<WordPart>, AllocError>
    ensures { IfOk result (λ parts. parts.items ≡ parts_of text.now) }
{
    let mut parts = Vec::new(alloc);
    let mut held = Vec::new(alloc);
    let mut later = false;
    for byte in text {
        later = take_byte(&mut parts, alloc, &mut held, later, *byte)?;
    }
    end_part(&mut parts, alloc, held.as_slice(), later)?;
    Ok(parts)
}

/// Whether a part fits on the line so far.
fn fits_behind(line: &[u8], part: &WordPart) -> Result<bool, AllocError>
    ensures { IfOk result (λ fits. fits ≡ fits_behind line.now part.now) }
{
    let long = plus(line.len(), plus(part.text.as_slice().len(), 1)?)?;
    Ok(!(part.later || long > LINE))
}

/// Puts one more part into the lines.
fn put_part(
    lines: &mut Vec<Label>,
    alloc: Global,
    line: &mut Vec<u8>,
    part: &WordPart,
) -> Result<(), AllocError>
    ensures { OnOk result ((lines.new.items, line.new.items)
        ≡ with_part (lines.old.items, line.old.items) part.now) }
{
    if line.len() == 0 {
        return line.extend_from_slice(part.text.as_slice());
    }
    if fits_behind(line.as_slice(), part)? {
        line.extend_from_slice(b" ")?;
        return line.extend_from_slice(part.text.as_slice());
    }
    lines.push(Listed::from_vec(Vec::from_slice(alloc, line.as_slice())?))?;
    line.clear();
    line.extend_from_slice(part.text.as_slice())
}

/// The lines of a text.
fn filled(alloc: Global, text: &[u8]) -> Result<Vec<Label>, AllocError>
    ensures { IfOk result (λ lines. lines.items ≡ filled text.now) }
{
    let parts = parts_of(alloc, text)?;
    let mut lines = Vec::new(alloc);
    let mut line = Vec::new(alloc);
    for part in parts.as_slice() {
        put_part(&mut lines, alloc, &mut line, part)?;
    }
    lines.push(Listed::from_vec(line))?;
    Ok(lines)
}

/// The last line that is shown if there are more.
fn cut_line(alloc: Global, line: &[u8]) -> Result<Label, AllocError>
    ensures { IfOk result (λ cut. cut ≡ cut_line line.now) }
{
    let mut cut = Vec::from_slice(alloc, line)?;
    cut.truncate(22);
    cut.extend_from_slice(b"..")?;
    Ok(Listed::from_vec(cut))
}

/// The first four lines.
fn first_lines(alloc: Global, lines: Vec<Label>) -> Result<Vec<Label>, AllocError>
    ensures { IfOk result (λ first. first.items ≡ first_lines lines.items) }
{
    if lines.len() <= 4 {
        return Ok(lines);
    }
    let mut first = lines;
    let cut = cut_line(alloc, first[3].as_slice())?;
    first.truncate(3);
    first.push(cut)?;
    Ok(first)
}

/// The length of the longest line.
fn longest(lines: &[Label]) -> usize
    ensures { result ≡ longest lines.now }
{
    let mut most = 0;
    for line in lines {
        most = most.max(line.as_slice().len());
    }
    most
}

/// The box of an action with this text. An error is a growth of memory that was refused.
pub fn action_box(alloc: Global, text: &[u8]) -> Result<ActionBox, AllocError>
    ensures { IfOk result (λ b. b ≡ action_box text.now) }
{
    let lines = first_lines(alloc, filled(alloc, text)?)?;
    let reach = plus(times(4, longest(lines.as_slice()))?, 12)?;
    let up = plus(times(8, lines.len())?, 4)?;
    Ok(ActionBox {
        lines: Listed::from_vec(lines),
        reach,
        up,
    })
}
