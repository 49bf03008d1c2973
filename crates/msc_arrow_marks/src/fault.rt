//! Faulty marks.

use msc_mermaid::Span;

/// A fault of a mark.
#[derive(Clone, Copy, Debug, PartialEq, Eq)]
pub enum Slip {
    /// What follows `race ok` is no part of a mark.
    Part,
    /// Only the reason is missing.
    Reason,
    /// It follows an arrow on its line, so Mermaid reads it as part of the arrow's label.
    Label,
    /// The arrow below it has a mark already.
    Second,
}

/// A faulty mark: what is wrong, and the bytes of the comment, or of the arrow whose label contains
/// it.
#[derive(Clone, Copy, Debug, PartialEq, Eq)]
pub struct FaultyMark {
    pub slip: Slip,
    pub span: Span,
}
