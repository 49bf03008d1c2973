//! The arrows whose races marks accept, under an architecture.

ghost use Rattle.std.specs.Prelude.{◌≡◌, ◌≤◌, ◌<◌, IfOk, find, length, map, option_map};
ghost use Rattle.std.specs.Fmt.{decimal};
ghost use Rattle.std.specs.List.{list_any, prefix_len};
ghost use Rattle.msc_arrow_marks.specs.Accepting.{acceptance, accepts, accepts_from, fits, is_for};
ghost use Rattle.msc_arrow_marks.specs.Accepting.{is_kind, is_mark_of, is_named, is_zero, row_at, AreRows};
ghost use Rattle.msc_arrow_marks.specs.Accepting.{significant, spoken_arrow, spoken_bytes};
ghost use Rattle.msc_arrow_marks.specs.Accepting.{spoken_other};

use crate::finding::{bytes_at, is_same};
use crate::marks::{ArrowMark, DiagramMarks};
use crate::other::OtherArrow;
use crate::reading::MarkText;
use itoa::Buffer;
use listed::Listed;
use msc_chart::LinkKind;
use msc_mermaid::{Diagram, Placed, Statement};
use msc_spoken::spoken;
use std::alloc::{AllocError, Global};
use std::marker::Model;

/// A statement, as the names of arrows are compared with it: its number in decimal digits, and its
/// label as people read it, if it is an arrow.
#[derive(Drop)]
pub struct SpokenArrow {
    is: bool,
    digits: Listed<u8>,
    label: Listed<u8>,
}

/// A label as people read it.
fn spoken_bytes(alloc: Global, label: &[u8]) -> Result<Vec<u8>, AllocError>
    ensures { IfOk result (λ bytes. bytes.items ≡ spoken_bytes label.now) }
{
    let text = spoken(alloc, label)?;
    Vec::from_slice(alloc, text.as_bytes())
}

/// A number in decimal digits.
fn digits_of(alloc: Global, number: usize) -> Result<Vec<u8>, AllocError>
    ensures { IfOk result (λ digits. digits.items ≡ decimal number) }
{
    let mut buffer = Buffer::new();
    Vec::from_slice(alloc, buffer.format(number).as_bytes())
}

/// A statement of a text, as the names of arrows are compared with it.
fn spoken_arrow(alloc: Global, text: &[u8], placed: &Placed) -> Result<SpokenArrow, AllocError>
    ensures { IfOk result (λ arrow. arrow ≡ spoken_arrow text.now placed.now) }
{
    match &placed.statement {
        Statement::Says(_) => {
            let digits = digits_of(alloc, placed.number)?;
            let label = spoken_bytes(alloc, bytes_at(text, placed.shown))?;
            Ok(SpokenArrow {
                is: true,
                digits: Listed::from_vec(digits),
                label: Listed::from_vec(label),
            })
        }
        _ => Ok(SpokenArrow {
            is: false,
            digits: Listed::from_vec(Vec::new(alloc)),
            label: Listed::from_vec(Vec::new(alloc)),
        }),
    }
}

/// The statements of a text, as the names of arrows are compared with them. An error is a growth of
/// memory that was refused.
pub fn spoken_arrows(
    alloc: Global,
    text: &[u8],
    statements: &[Placed],
) -> Result<Vec<SpokenArrow>, AllocError>
    ensures { IfOk result (λ arrows. arrows.items ≡ map (spoken_arrow text.now) statements.now) }
{
    let mut arrows = Vec::with_capacity(alloc, statements.len())?;
    for placed in statements {
        arrows.push(spoken_arrow(alloc, text, placed)?)?;
    }
    Ok(arrows)
}

/// A name of an arrow with the label as people read it. An error is a growth of memory that was
/// refused.
pub fn spoken_other(alloc: Global, other: &OtherArrow) -> Result<OtherArrow, AllocError>
    ensures { IfOk result (λ spoken. spoken ≡ spoken_other other.now) }
{
    match other {
        OtherArrow::Label(label) => {
            let label = spoken_bytes(alloc, label.as_slice())?;
            Ok(OtherArrow::Label(Listed::from_vec(label)))
        }
        OtherArrow::Number(digits) => {
            let digits = Vec::from_slice(alloc, digits.as_slice())?;
            Ok(OtherArrow::Number(Listed::from_vec(digits)))
        }
    }
}

/// The names of arrows with labels as people read them.
fn spoken_others(alloc: Global, others: &[OtherArrow]) -> Result<Vec<OtherArrow>, AllocError>
    ensures { IfOk result (λ spoken. spoken.items ≡ map spoken_other others.now) }
{
    let mut spoken = Vec::with_capacity(alloc, others.len())?;
    for other in others {
        spoken.push(spoken_other(alloc, other)?)?;
    }
    Ok(spoken)
}

/// The number of zeros in front.
fn zeros(digits: &[u8]) -> usize
    ensures length { result ≡ prefix_len is_zero digits.now }
    ensures within { result ≤ length digits.now }
{
    digits.iter().take_while(|digit| **digit == b'0').count()
}

/// The digits without the zeros in front.
fn significant(digits: &[u8]) -> &[u8]
    ensures { result.now ≡ significant digits.now }
{
    &digits[zeros(digits)..]
}

/// Whether an arrow has this name, of which the label is as people read it. It takes no memory.
pub fn is_named(name: &OtherArrow, arrow: &SpokenArrow) -> bool
    ensures { result ≡ is_named arrow.now name.now }
{
    match name {
        OtherArrow::Label(label) => label.as_slice() == arrow.label.as_slice(),
        OtherArrow::Number(digits) => significant(digits.as_slice()) == arrow.digits.as_slice(),
    }
}

/// Whether one of the names is the arrow's.
fn has_name(names: &[OtherArrow], arrow: &SpokenArrow) -> bool
    ensures { result ≡ list_any (is_named arrow.now) names.now }
{
    names.iter().any(|name| is_named(name, arrow))
}

/// Whether a mark with these names is for races with an arrow.
fn fits(names: &[OtherArrow], arrow: &SpokenArrow) -> bool
    ensures { result ≡ fits names.now arrow.now }
{
    arrow.is && (names.is_empty() || has_name(names, arrow))
}

/// For each arrow whether a mark with these names is for races with it.
fn fitting(
    alloc: Global,
    names: &[OtherArrow],
    arrows: &[SpokenArrow],
) -> Result<Vec<bool>, AllocError>
    ensures { IfOk result (λ row. row.items ≡ map (fits names.now) arrows.now) }
{
    arrows.iter().map(|arrow| fits(names, arrow)).collect(alloc)
}

/// Whether a kind is among these.
fn has_kind(kinds: &[LinkKind], usual: LinkKind) -> bool
    ensures { result ≡ list_any (is_kind usual) kinds.now }
{
    kinds.iter().any(|kind| kind.word() == usual.word())
}

/// Whether a mark is for an architecture of this usual kind.
fn is_for(said: &MarkText, usual: LinkKind) -> bool
    ensures { result ≡ is_for usual said.now }
{
    let kinds = said.kinds.as_slice();
    kinds.is_empty() || has_kind(kinds, usual)
}

/// Whether a mark belongs to this statement, and is for the architecture.
fn is_mark_of(mark: &ArrowMark, usual: LinkKind, i: usize) -> bool
    ensures { result ≡ is_mark_of usual i mark.now }
{
    is_same(mark.arrow, Some(i)) && is_for(&mark.said, usual)
}

/// The first mark that belongs to this statement and is for the architecture.
fn mark_of(marks: &[ArrowMark], usual: LinkKind, i: usize) -> Option<&ArrowMark>
    ensures { option_map (λ mark. mark.now) result ≡ find (is_mark_of usual i) marks.now }
{
    marks.iter().find(|mark| is_mark_of(mark, usual, i))
}

/// For each statement whether the mark of statement `i` is for races with it; empty if it has none.
fn row_at(
    alloc: Global,
    marks: &[ArrowMark],
    arrows: &[SpokenArrow],
    usual: LinkKind,
    i: usize,
) -> Result<Vec<bool>, AllocError>
    ensures { IfOk result (λ row. row.items ≡ row_at marks.now arrows.now usual i) }
{
    match mark_of(marks, usual, i) {
        Some(mark) => {
            let names = spoken_others(alloc, mark.said.others.as_slice())?;
            fitting(alloc, names.as_slice(), arrows)
        }
        None => Ok(Vec::new(alloc)),
    }
}

/// The rows of all statements.
fn rows_of(
    alloc: Global,
    marks: &[ArrowMark],
    arrows: &[SpokenArrow],
    usual: LinkKind,
) -> Result<Vec<Listed<bool>>, AllocError>
    ensures { IfOk result (λ rows. AreRows marks.now arrows.now usual rows.items) }
{
    let mut rows = Vec::with_capacity(alloc, arrows.len())?;
    for i in 0..arrows.len() {
        let row = row_at(alloc, marks, arrows, usual, i)?;
        rows.push(Listed::from_vec(row))?;
    }
    Ok(rows)
}

/// The arrows of a diagram whose races its marks accept, under an architecture. Contracts see the
/// text, the marks, the statements and the usual kind.
#[derive(Drop)]
pub struct AcceptedArrows<'m> {
    text: &'m [u8],
    marks: &'m [ArrowMark],
    statements: &'m [Placed],
    usual: LinkKind,
    /// For each statement the row of its mark: whether it is for races with each statement.
    rows: Vec<Listed<bool>>,
}

impl<'m> Model for AcceptedArrows<'m> {
    ghost use Rattle.msc_arrow_marks.specs.Accepting.{acceptance, spoken_arrow, Acceptance, AreRows};
    ghost use Rattle.std.specs.Prelude.{map};

    ghost Value = { Acceptance };

    ghost view = { λ a. acceptance a.text.now a.marks.now a.statements.now a.usual };

    ghost invariant = { λ a.
        AreRows a.marks.now (map (spoken_arrow a.text.now) a.statements.now) a.usual a.rows.items };
}

impl<'m> AcceptedArrows<'m> {
    /// The arrows of a diagram of this text whose races its marks accept, under an architecture of
    /// this usual kind. An error is a growth of memory that was refused.
    pub fn of(
        alloc: Global,
        text: &'m [u8],
        marks: &'m DiagramMarks,
        diagram: &'m Diagram,
        usual: LinkKind,
    ) -> Result<AcceptedArrows<'m>, AllocError>
        ensures { IfOk result (λ accepted. accepted
            ≡ acceptance text.entry.now marks.entry.now.marks diagram.entry.now.statements usual) }
    {
        let (marks, statements) = (marks.marks.as_slice(), diagram.statements.as_slice());
        let arrows = spoken_arrows(alloc, text, statements)?;
        let rows = rows_of(alloc, marks, arrows.as_slice(), usual)?;
        Ok(AcceptedArrows {
            text,
            marks,
            statements,
            usual,
            rows,
        })
    }

    /// The text of the diagram.
    pub fn text(&self) -> &'m [u8]
        ensures { result.now ≡ self.now.text }
    {
        self.text
    }

    /// The marks of the diagram.
    pub fn marks(&self) -> &'m [ArrowMark]
        ensures { result.now ≡ self.now.marks }
    {
        self.marks
    }

    /// The statements of the diagram.
    pub fn statements(&self) -> &'m [Placed]
        ensures { result.now ≡ self.now.statements }
    {
        self.statements
    }

    /// Whether a mark is for the architecture. It takes no memory.
    pub fn is_for(&self, mark: &ArrowMark) -> bool
        ensures { result ≡ is_for self.now.usual mark.now.said }
    {
        is_for(&mark.said, self.usual)
    }

    /// Whether the mark of statement `i` accepts races with statement `j`: it is for the
    /// architecture, and `j` is an arrow that it names, or it names none. It takes no memory.
    pub fn accepts_from(&self, i: usize, j: usize) -> bool
        ensures { result ≡ accepts_from self.now i j }
    {
        if i >= self.rows.len() {
            return false;
        }
        match self.rows[i].as_slice().get(j) {
            Some(accepts) => *accepts,
            None => false,
        }
    }

    /// Whether a race of the arrows `i` and `j`, which are statements, is accepted: by the mark of
    /// either. It takes no memory.
    pub fn accepts(&self, i: usize, j: usize) -> bool
        ensures { result ≡ accepts self.now i j }
    {
        self.accepts_from(i, j) || self.accepts_from(j, i)
    }
}
