//! Finds marks among comments, and those that are faulty.

ghost use Rattle.std.specs.Prelude.{◌≡◌, ◌++◌, ◌∷◌, [], IfOk, OnOk, fold};
ghost use Rattle.msc_arrow_marks.specs.Marks.{after_comment, after_mark, bytes_at, comment_text};
ghost use Rattle.msc_arrow_marks.specs.Marks.{fault_at, found, found_in, is_label_marked, is_same};
ghost use Rattle.msc_arrow_marks.specs.Marks.{label_faults, last_is_of, nothing_found};

use crate::below::arrow_below;
use crate::fault::{FaultyMark, Slip};
use crate::label::has_mark;
use crate::marks::ArrowMark;
use crate::parts::behind;
use crate::reading::{MarkText, Reading, reading_of};
use msc_mermaid::{Diagram, Placed, Span, Statement, trimmed};
use std::alloc::{AllocError, Global};

/// The bytes of a text in a span, or none if the text is shorter.
pub(crate) fn bytes_at(text: &[u8], span: Span) -> &[u8]
    ensures { result.now ≡ bytes_at text.now span }
{
    if span.first <= span.past && span.past <= text.len() {
        &text[span.first..span.past]
    } else {
        &[]
    }
}

/// The text of a comment: what is behind its two percent signs, without white space around it.
fn comment_text(text: &[u8], comment: Span) -> &[u8]
    ensures { result.now ≡ comment_text text.now comment }
{
    trimmed(behind(bytes_at(text, comment), 2))
}

/// Whether two numbers of arrows are there and the same.
pub(crate) fn is_same(arrow: Option<usize>, other: Option<usize>) -> bool
    ensures { result ≡ is_same arrow other }
{
    match (arrow, other) {
        (Some(arrow), Some(other)) => arrow == other,
        _ => false,
    }
}

/// Whether the last mark belongs to this arrow.
fn last_is_of(marks: &[ArrowMark], arrow: Option<usize>) -> bool
    ensures { result ≡ last_is_of marks.now arrow }
{
    match marks.last() {
        Some(last) => is_same(last.arrow, arrow),
        None => false,
    }
}

/// The marks that were found so far, and the faulty ones among the comments.
#[derive(Drop)]
pub(crate) struct Finding {
    pub marks: Vec<ArrowMark>,
    pub faults: Vec<FaultyMark>,
}

impl Finding {
    /// Nothing was found.
    fn new(alloc: Global) -> Finding
        ensures { found result ≡ nothing_found }
    {
        Finding {
            marks: Vec::new(alloc),
            faults: Vec::new(alloc),
        }
    }

    /// Notes a comment that is faulty.
    fn refuse(&mut self, slip: Slip, span: Span) -> Result<(), AllocError>
        ensures marks { self.new.marks.items ≡ self.old.marks.items }
        ensures faults { OnOk result (self.new.faults.items
            ≡ self.old.faults.items ++ fault_at slip span ∷ []) }
    {
        self.faults.push(FaultyMark { slip, span })?;
        Ok(())
    }

    /// Notes a comment that is a mark: of this arrow, or a second one of it.
    fn take_mark(
        &mut self,
        arrow: Option<usize>,
        comment: Span,
        said: MarkText,
    ) -> Result<(), AllocError>
        ensures { OnOk result (found self.new ≡ after_mark (found self.old) arrow comment said) }
    {
        if last_is_of(self.marks.as_slice(), arrow) {
            return self.refuse(Slip::Second, comment);
        }
        self.marks.push(ArrowMark {
            arrow,
            comment,
            said,
        })?;
        Ok(())
    }

    /// Notes a comment.
    fn take_comment(
        &mut self,
        alloc: Global,
        text: &[u8],
        statements: &[Placed],
        comment: Span,
    ) -> Result<(), AllocError>
        ensures { OnOk result (found self.new
            ≡ after_comment text.now statements.now (found self.old) comment) }
    {
        match reading_of(alloc, comment_text(text, comment))? {
            Reading::Other => Ok(()),
            Reading::Faulty(slip) => self.refuse(slip, comment),
            Reading::Says(said) => {
                self.take_mark(arrow_below(statements, comment.first), comment, said)
            }
        }
    }

    /// Notes comments.
    fn take_comments(
        &mut self,
        alloc: Global,
        text: &[u8],
        statements: &[Placed],
        comments: &[Span],
    ) -> Result<(), AllocError>
        ensures { OnOk result (found self.new
            ≡ fold (after_comment text.now statements.now) (found self.old) comments.now) }
    {
        for comment in comments {
            self.take_comment(alloc, text, statements, *comment)?;
        }
        Ok(())
    }

    /// What the comments of a diagram have.
    pub(crate) fn of(alloc: Global, text: &[u8], diagram: &Diagram) -> Result<Finding, AllocError>
        ensures { IfOk result (λ finding. found finding ≡ found_in text.now diagram.now) }
    {
        let mut finding = Finding::new(alloc);
        let statements = diagram.statements.as_slice();
        let comments = diagram.comments.as_slice();
        finding.take_comments(alloc, text, statements, comments)?;
        Ok(finding)
    }
}

/// Whether the label of an arrow has a mark in it.
fn is_label_marked(alloc: Global, statement: &Statement) -> Result<bool, AllocError>
    ensures { IfOk result (λ marked. marked ≡ is_label_marked statement.now) }
{
    match statement {
        Statement::Says(arrow) => has_mark(alloc, arrow.label.as_slice()),
        _ => Ok(false),
    }
}

/// Appends a faulty mark for each arrow whose label has one in it.
pub(crate) fn label_faults(
    alloc: Global,
    faults: &mut Vec<FaultyMark>,
    statements: &[Placed],
) -> Result<(), AllocError>
    ensures { OnOk result
        (faults.new.items ≡ faults.old.items ++ label_faults statements.now) }
{
    for placed in statements {
        if is_label_marked(alloc, &placed.statement)? {
            faults.push(FaultyMark {
                slip: Slip::Label,
                span: placed.whole,
            })?;
        }
    }
    Ok(())
}
