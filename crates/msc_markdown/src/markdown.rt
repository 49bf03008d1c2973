//! The blocks of a text of Markdown, and those of them that are sequence diagrams.

ghost use Rattle.std.specs.Prelude.{[], ◌≡◌, ◌++◌, ◌-◌, IfOk, None, OnOk, cond, count_by, drop};
ghost use Rattle.std.specs.Prelude.{length, map, take};
ghost use Rattle.std.specs.List.{list_any};
ghost use Rattle.msc_mermaid.specs.Gives.{Gives};
ghost use Rattle.msc_mermaid.specs.Lines.{lines_of};
ghost use Rattle.msc_mermaid.specs.Mermaid.{is_head};
ghost use Rattle.msc_mermaid.specs.Parts.{stretch};
ghost use Rattle.msc_mermaid.specs.White.{trimmed};
ghost use Rattle.msc_markdown.specs.Markdowns.{block_parts, first_parts};
ghost use Rattle.msc_markdown.specs.Markdowns.{block_diagram, blocks_of, bytes_in};
ghost use Rattle.msc_markdown.specs.Markdowns.{diagram_of_block};
ghost use Rattle.msc_markdown.specs.Markdowns.{ends_in, entity_on, first_bytes, first_diagram};
ghost use Rattle.msc_markdown.specs.Markdowns.{has_head, is_block, is_markup, is_none};
ghost use Rattle.msc_markdown.specs.Markdowns.{is_sequence, is_sequence_by, look, markdown};
ghost use Rattle.msc_markdown.specs.Markdowns.{is_sequence_text};
ghost use Rattle.msc_markdown.specs.Markdowns.{next_line, numbers_from, own_parts, parts_from};
ghost use Rattle.msc_markdown.specs.Markdowns.{said_by, start_at, starts_from};
ghost use Rattle.msc_markdown.specs.Seeking.{holds};

use crate::around::{BlockKind, left_by};
use crate::closing::Ends;
use crate::markup::Shortcode;
use crate::seeking::Sought;
use msc_lexer::TEXT_LIMIT;
use msc_mermaid::{
    Ahead, Cross, Diagram, Expectation, ImportFault, LinePart, diagram_of_parts, end_of, entity_in,
    first_place, is_head, lines_of, starts_of, trimmed,
};
use msc_place::Position;
use std::alloc::{AllocError, Global};
use std::marker::Model;

/// The beginning of a block of a diagram: its line, from 1, and its form.
#[derive(Clone, Copy, Debug, PartialEq, Eq)]
pub struct Start {
    pub line: usize,
    pub kind: BlockKind,
}

/// The part of each line that belongs to a block, and the blocks that begin on the lines.
#[derive(Drop)]
struct Passed<'t> {
    parts: Vec<LinePart<'t>>,
    starts: Vec<Start>,
}

/// Whether the block of a shortcode may end on the line.
fn has_end(shortcode: Shortcode, line: &[u8]) -> bool
    ensures { result ≡ holds (Sought.ShortcodeEnd shortcode) line.now }
{
    Sought::ShortcodeEnd(shortcode).holds(line)
}

/// The number of lines on which it may end.
fn lines_with(shortcode: Shortcode, lines: &[&[u8]]) -> usize
    ensures { result ≡ count_by (λ l. holds (Sought.ShortcodeEnd shortcode) l.now) lines.now }
{
    lines.iter().filter(|line| has_end(shortcode, line)).count()
}

/// The count, or one less.
fn less(count: usize, one: bool) -> usize
    ensures { result ≡ count - cond one 1 0 }
{
    if one && count > 0 { count - 1 } else { count }
}

impl Ends {
    /// The numbers of these lines on which the block of a shortcode may end.
    fn on(lines: &[&[u8]]) -> Ends
        ensures { result ≡ ends_in (map (λ l. l.now) lines.now) }
    {
        Ends {
            angle: lines_with(Shortcode::Angle, lines),
            percent: lines_with(Shortcode::Percent, lines),
        }
    }

    /// The numbers after this line.
    fn behind(self, line: &[u8]) -> Ends
        ensures angle { result.angle
            ≡ self.angle - cond (holds (Sought.ShortcodeEnd Shortcode.Angle) line.now) 1 0 }
        ensures percent { result.percent
            ≡ self.percent - cond (holds (Sought.ShortcodeEnd Shortcode.Percent) line.now) 1 0 }
    {
        Ends {
            angle: less(self.angle, has_end(Shortcode::Angle, line)),
            percent: less(self.percent, has_end(Shortcode::Percent, line)),
        }
    }
}

/// Appends the beginning of a block on this line to others.
fn put_start(
    starts: &mut Vec<Start>,
    line: usize,
    kind: Option<BlockKind>,
) -> Result<(), AllocError>
    ensures { OnOk result (starts.new.items ≡ starts.old.items ++ start_at line kind []) }
{
    if let Some(kind) = kind {
        starts.push(Start { line, kind })?;
    }
    Ok(())
}

/// All lines, from the first one on.
fn pass<'t>(alloc: Global, lines: &[&'t [u8]]) -> Result<Passed<'t>, AllocError>
    ensures parts { IfOk result (λ p. map stretch p.parts.items
        ≡ parts_from 1 None (map (λ l. l.now) lines.now)) }
    ensures starts { IfOk result (λ p. p.starts.items
        ≡ starts_from 1 None (map (λ l. l.now) lines.now)) }
{
    let mut parts = Vec::new(alloc);
    let mut starts = Vec::new(alloc);
    let mut ends = Ends::on(lines);
    let mut around = None;
    for i in 0..lines.len() {
        let line = lines[i];
        ends = ends.behind(line);
        let left = left_by(i + 1, ends, line, around);
        parts.push(left.part)?;
        put_start(&mut starts, i + 1, left.start)?;
        around = left.after;
    }
    Ok(Passed { parts, starts })
}

/// Whether the block is not a single line outside of all blocks.
fn is_block(start: Start) -> bool
    ensures { result ≡ is_block start }
{
    start.kind != BlockKind::Stray
}

/// Whether one of these is such a block.
fn has_block(starts: &[Start]) -> bool
    ensures { result ≡ list_any is_block starts.now }
{
    starts.iter().any(|start| is_block(*start))
}

/// The blocks of diagrams among those that begin on lines.
fn blocks_of(alloc: Global, starts: Vec<Start>) -> Vec<Start>
    ensures { result.items ≡ blocks_of starts.items }
{
    if has_block(starts.as_slice()) {
        return starts;
    }
    drop(starts);
    Vec::new(alloc)
}

/// The line on which the first of these blocks begins, or this line if there is none.
fn next_line(blocks: &[Start], last: usize) -> usize
    ensures { result ≡ next_line blocks.now last }
{
    match blocks {
        [] => last,
        [first, ..] => first.line,
    }
}

/// The first `count` parts, or all of them.
fn first_parts<'p, 't>(parts: &'p [LinePart<'t>], count: usize) -> &'p [LinePart<'t>]
    ensures { result.now ≡ take count parts.now }
{
    if count < parts.len() {
        &parts[..count]
    } else {
        parts
    }
}

/// The parts after the first `count`.
fn parts_behind<'p, 't>(parts: &'p [LinePart<'t>], count: usize) -> &'p [LinePart<'t>]
    ensures { result.now ≡ drop count parts.now }
{
    if count > parts.len() {
        return &[];
    }
    &parts[count..]
}

/// The part that belongs to a block before these others.
fn own_parts<'p, 't>(
    start: Start,
    others: &[Start],
    parts: &'p [LinePart<'t>],
) -> &'p [LinePart<'t>]
    ensures { map stretch result.now ≡ own_parts start others.now (map stretch parts.now) }
{
    let past = next_line(others, parts.len() + 1);
    let rest = parts_behind(parts, start.line.saturating_sub(1));
    first_parts(rest, past.saturating_sub(start.line))
}

/// The state after these lines.
fn look(lines: &[&[u8]]) -> Ahead
    ensures { result ≡ look Ahead.Start (map (λ l. l.now) lines.now) }
{
    let mut ahead = Ahead::Start;
    for line in lines {
        ahead = ahead.behind(line);
    }
    ahead
}

/// The same for parts of lines, by their bytes.
fn look_on(parts: &[LinePart<'_>]) -> Ahead
    ensures { result ≡ look Ahead.Start (map (λ p. p.bytes.now) parts.now) }
{
    let mut ahead = Ahead::Start;
    for part in parts {
        ahead = ahead.behind(part.bytes);
    }
    ahead
}

/// The state after parts of lines.
fn look_at(parts: &[LinePart<'_>]) -> Ahead
    ensures { result ≡ look Ahead.Start (bytes_in (map stretch parts.now)) }
{
    look_on(parts)
}

/// Whether the bytes of one of these parts have the word with which a sequence diagram begins.
fn any_word(parts: &[LinePart<'_>]) -> bool
    ensures { result ≡ list_any (λ p. holds Sought.Diagram p.bytes.now) parts.now }
{
    parts.iter().any(|part| Sought::Diagram.holds(part.bytes))
}

/// Whether these parts have the word with which a sequence diagram begins.
fn has_word(parts: &[LinePart<'_>]) -> bool
    ensures { result ≡ list_any (holds Sought.Diagram) (bytes_in (map stretch parts.now)) }
{
    any_word(parts)
}

/// Whether these parts are a sequence diagram, given the state after them.
fn is_sequence_by(parts: &[LinePart<'_>], ahead: Ahead) -> bool
    ensures { result ≡ is_sequence_by (bytes_in (map stretch parts.now)) ahead }
{
    match ahead {
        Ahead::Diagram | Ahead::Near => true,
        Ahead::Start | Ahead::Behind | Ahead::Other => false,
        Ahead::Front | Ahead::Directive | Ahead::Wrong => has_word(parts),
    }
}

/// Whether one of these lines has the word with which a sequence diagram begins.
fn any_line_has_word(lines: &[&[u8]]) -> bool
    ensures { result ≡ list_any (λ l. holds Sought.Diagram l.now) lines.now }
{
    lines.iter().any(|line| Sought::Diagram.holds(line))
}

/// Whether these lines have the word with which a sequence diagram begins.
fn lines_have_word(lines: &[&[u8]]) -> bool
    ensures { result ≡ list_any (holds Sought.Diagram) (map (λ l. l.now) lines.now) }
{
    any_line_has_word(lines)
}

/// Whether these lines are a sequence diagram.
fn is_sequence_of(lines: &[&[u8]]) -> bool
    ensures { result ≡ is_sequence_text (map (λ l. l.now) lines.now) }
{
    match look(lines) {
        Ahead::Diagram | Ahead::Near => true,
        Ahead::Start | Ahead::Behind | Ahead::Other => false,
        Ahead::Front | Ahead::Directive | Ahead::Wrong => lines_have_word(lines),
    }
}

/// Whether a text of Mermaid is a sequence diagram, perhaps a misspelt one; otherwise it is a diagram
/// of another kind, or empty. The only error is a growth of memory that was refused.
pub fn is_sequence_text(alloc: Global, text: &[u8]) -> Result<bool, AllocError>
    ensures { IfOk result (λ is. is ≡ is_sequence_text (lines_of text.now)) }
{
    let lines = lines_of(alloc, text)?;
    Ok(is_sequence_of(lines.as_slice()))
}

/// Whether a block of these parts is a sequence diagram.
fn is_sequence(kind: BlockKind, parts: &[LinePart<'_>]) -> bool
    ensures { result ≡ is_sequence kind (bytes_in (map stretch parts.now)) }
{
    match kind {
        BlockKind::Stray => true,
        BlockKind::Fenced | BlockKind::Markup => is_sequence_by(parts, look_at(parts)),
    }
}

/// The blocks after the first `count`.
fn blocks_behind(blocks: &[Start], count: usize) -> &[Start]
    ensures { result.now ≡ drop count blocks.now }
{
    if count > blocks.len() {
        return &[];
    }
    &blocks[count..]
}

/// The numbers, from 1, of the blocks that are sequence diagrams.
fn numbers_of(
    alloc: Global,
    blocks: &[Start],
    parts: &[LinePart<'_>],
) -> Result<Vec<usize>, AllocError>
    ensures { IfOk result (λ v. v.items ≡ numbers_from 1 blocks.now (map stretch parts.now)) }
{
    let mut numbers = Vec::new(alloc);
    for i in 0..blocks.len() {
        let own = own_parts(blocks[i], blocks_behind(blocks, i + 1), parts);
        if is_sequence(blocks[i].kind, own) {
            numbers.push(i + 1)?;
        }
    }
    Ok(numbers)
}

/// The contents of a text: whether it is a sequence diagram as a whole, and its blocks of Markdown.
/// Contracts see all of it.
#[derive(Drop)]
pub struct Markdown<'t> {
    text: &'t [u8],
    line_starts: Vec<usize>,
    end: Position,
    whole: bool,
    parts: Vec<LinePart<'t>>,
    blocks: Vec<Start>,
    numbers: Vec<usize>,
}

impl<'t> Model for Markdown<'t> {
    ghost use Rattle.std.specs.Prelude.{◌≡◌, length, map};
    ghost use Rattle.msc_mermaid.specs.Parts.{stretch};
    ghost use Rattle.msc_markdown.specs.Markdowns.{Found};

    ghost Value = { Found };

    ghost view = { λ m. record {
      text = m.text.now;
      line_starts = m.line_starts.items;
      end = m.end;
      whole = m.whole;
      parts = map stretch m.parts.items;
      blocks = m.blocks.items;
      numbers = m.numbers.items;
    } };
}

/// Whether the bytes of one of these parts begin a diagram.
fn any_head(parts: &[LinePart<'_>]) -> bool
    ensures { result ≡ list_any (λ p. is_head (trimmed p.bytes.now)) parts.now }
{
    parts.iter().any(|part| is_head(trimmed(part.bytes)))
}

/// Whether a line of these parts begins a diagram.
fn has_head(parts: &[LinePart<'_>]) -> bool
    ensures { result ≡ has_head (bytes_in (map stretch parts.now)) }
{
    any_head(parts)
}

/// Whether a browser reads the block first.
fn is_markup(kind: BlockKind) -> bool
    ensures { result ≡ is_markup kind }
{
    match kind {
        BlockKind::Markup => true,
        BlockKind::Fenced | BlockKind::Stray => false,
    }
}

/// The bytes of the first of these parts.
fn first_bytes<'t>(parts: &[LinePart<'t>]) -> &'t [u8]
    ensures { result.now ≡ first_bytes (map stretch parts.now) }
{
    match parts {
        [] => &[],
        [first, ..] => first.bytes,
    }
}

/// The bytes of the first part after the first `count`.
fn bytes_behind<'t>(parts: &[LinePart<'t>], count: usize) -> &'t [u8]
    ensures { result.now ≡ first_bytes (drop count (map stretch parts.now)) }
{
    first_bytes(parts_behind(parts, count))
}

/// Whether the text of these parts may be of any language, and is of none.
fn is_none(is_any: bool, parts: &[LinePart<'_>]) -> bool
    ensures { result ≡ is_none is_any (map stretch parts.now) }
{
    is_any && !has_head(parts)
}

impl<'t> Markdown<'t> {
    /// The contents of a text. An error is that it is too long, or that memory ran out.
    #[tactic(auto, unfolding(crate::specs::Markdowns::markdown))]
    pub fn of(alloc: Global, text: &'t [u8]) -> Result<Markdown<'t>, ImportFault>
        ensures { Gives (λ m. m) result (markdown text.entry.now) }
    {
        if text.len() > TEXT_LIMIT {
            return Err(ImportFault::TooLong);
        }
        let line_starts = starts_of(alloc, text)?;
        let lines = lines_of(alloc, text)?;
        let whole = look(lines.as_slice()) == Ahead::Diagram;
        let Passed { parts, starts } = pass(alloc, lines.as_slice())?;
        let blocks = blocks_of(alloc, starts);
        let numbers = numbers_of(alloc, blocks.as_slice(), parts.as_slice())?;
        Ok(Markdown {
            text,
            line_starts,
            end: end_of(lines.as_slice()),
            whole,
            parts,
            blocks,
            numbers,
        })
    }

    /// The text. It takes no memory.
    pub fn text(&self) -> &'t [u8]
        ensures { result.now ≡ self.entry.now.text }
    {
        self.text
    }

    /// Whether the text is a sequence diagram as a whole: its first line that counts begins one.
    pub fn is_diagram(&self) -> bool
        ensures { result ≡ self.now.whole }
    {
        self.whole
    }

    /// The blocks of diagrams; the first has number 1.
    pub fn blocks(&self) -> &[Start]
        ensures { result.now ≡ self.now.blocks }
    {
        self.blocks.as_slice()
    }

    /// The numbers of the sequence diagrams among them, in ascending order.
    pub fn numbers(&self) -> &[usize]
        ensures { result.now ≡ self.now.numbers }
    {
        self.numbers.as_slice()
    }

    /// The parts that belong to the first of these blocks, or none if there is no block.
    fn first_parts(&self, blocks: &[Start]) -> &[LinePart<'t>]
        ensures { map stretch result.now ≡ first_parts blocks.now self.now.parts }
    {
        match blocks {
            [] => &[],
            [block, others @ ..] => own_parts(*block, others, self.parts.as_slice()),
        }
    }

    /// The parts that belong to the block of a number, from 1, line by line; none, if there is no
    /// such block. It takes no memory.
    #[tactic(auto, unfolding(crate::specs::Markdowns::block_parts))]
    pub fn block_parts(&self, number: usize) -> &[LinePart<'t>]
        ensures { map stretch result.now ≡ block_parts number self.now }
    {
        if number == 0 {
            return &[];
        }
        self.first_parts(blocks_behind(self.blocks.as_slice(), number - 1))
    }

    /// The diagram of a block of these parts, which a browser reads first or not.
    fn said(
        &self,
        alloc: Global,
        markup: bool,
        is_any: bool,
        cross: Option<Cross>,
        parts: &[LinePart<'_>],
    ) -> Result<Diagram, ImportFault>
        ensures { Gives (λ d. d) result
            (said_by markup is_any cross self.now (map stretch parts.now)) }
    {
        if is_none(is_any, parts) {
            let place = first_place(alloc, parts, self.end)?;
            return Err(ImportFault::Expected(place, Expectation::AnyDiagram));
        }
        let starts = self.line_starts.as_slice();
        diagram_of_parts(alloc, markup, cross, starts, self.end, parts)
    }

    /// The diagram of a block before these others.
    fn read(
        &self,
        alloc: Global,
        is_any: bool,
        cross: Option<Cross>,
        block: Start,
        others: &[Start],
    ) -> Result<Diagram, ImportFault>
        ensures { Gives (λ d. d) result (block_diagram is_any cross self.now block others.now) }
    {
        let parts = own_parts(block, others, self.parts.as_slice());
        if !is_block(block) {
            return Err(ImportFault::Stray(first_place(alloc, parts, self.end)?));
        }
        self.said(alloc, is_markup(block.kind), is_any, cross, parts)
    }

    /// The diagram of the first of these blocks, which has this number.
    fn first(
        &self,
        alloc: Global,
        is_any: bool,
        cross: Option<Cross>,
        number: usize,
        blocks: &[Start],
    ) -> Result<Diagram, ImportFault>
        ensures { Gives (λ d. d) result (first_diagram is_any cross self.now number blocks.now) }
    {
        match blocks {
            [] => Err(ImportFault::NoDiagram(number)),
            [block, others @ ..] => self.read(alloc, is_any, cross, *block, others),
        }
    }

    /// The diagram of the block of a number, from 1, or its first fault; that there is no such
    /// block; or that it is a single line outside of all others. If a block may be of any language
    /// and no line of it begins a diagram, it is a diagram of none.
    #[tactic(auto, unfolding(crate::specs::Markdowns::diagram_of_block))]
    pub fn diagram(
        &self,
        alloc: Global,
        is_any: bool,
        cross: Option<Cross>,
        number: usize,
    ) -> Result<Diagram, ImportFault>
        ensures { Gives (λ d. d) result (diagram_of_block is_any cross number self.now) }
    {
        if number == 0 {
            return Err(ImportFault::NoDiagram(number));
        }
        let blocks = blocks_behind(self.blocks.as_slice(), number - 1);
        self.first(alloc, is_any, cross, number, blocks)
    }

    /// The first entity of HTML in the parts of the line of this number, from 1, that belong to a
    /// block, or nothing: the entity of a fault. It takes no memory.
    pub fn entity(&self, line: usize) -> &'t [u8]
        ensures { result.now ≡ entity_on line self.entry.now }
    {
        entity_in(bytes_behind(self.parts.as_slice(), line.saturating_sub(1)))
    }
}
