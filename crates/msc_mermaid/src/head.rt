//! The arrows of Mermaid's sequence diagrams. An `x` in them may be a capital one.

ghost use Rattle.std.specs.Prelude.{◌≡◌, ◌≤◌, Some, IfSome, length, find};
ghost use Rattle.msc_mermaid.specs.Keys.{all_heads, begin_so, head_of, head_text, is_crossed};
ghost use Rattle.msc_mermaid.specs.Keys.{is_double, is_leftward};

use crate::key::begin_so;
use std::fmt;

/// An arrow: its line, solid or dotted, with its heads.
#[derive(Clone, Copy, Debug, PartialEq, Eq)]
pub enum Head {
    /// A dotted line with a head on both sides.
    DottedBoth,
    /// A line with a head on both sides.
    Both,
    /// A dotted line with a filled head.
    DottedFilled,
    /// A line with a filled head.
    Filled,
    /// A dotted line.
    DottedPlain,
    /// A line.
    Plain,
    /// A dotted line with a cross.
    DottedCross,
    /// A line with a cross.
    Cross,
    /// A dotted line with an open head.
    DottedPoint,
    /// A line with an open head.
    Point,
    /// A dotted line with the upper half of a filled head.
    DottedUpper,
    /// A line with the upper half of a filled head.
    Upper,
    /// A dotted line with the lower half of a filled head.
    DottedLower,
    /// A line with the lower half of a filled head.
    Lower,
    /// A dotted line with the upper half of an open head.
    DottedUpperStick,
    /// A line with the upper half of an open head.
    UpperStick,
    /// A dotted line with the lower half of an open head.
    DottedLowerStick,
    /// A line with the lower half of an open head.
    LowerStick,
    /// A dotted line with the upper half of a filled head on the left.
    DottedLeftUpper,
    /// A line with the upper half of a filled head on the left.
    LeftUpper,
    /// A dotted line with the lower half of a filled head on the left.
    DottedLeftLower,
    /// A line with the lower half of a filled head on the left.
    LeftLower,
    /// A dotted line with the upper half of an open head on the left.
    DottedLeftUpperStick,
    /// A line with the upper half of an open head on the left.
    LeftUpperStick,
    /// A dotted line with the lower half of an open head on the left.
    DottedLeftLowerStick,
    /// A line with the lower half of an open head on the left.
    LeftLowerStick,
}

/// Prints the arrow as it is written.
impl fmt::Display for Head {
    ghost output = { λ h. Some (head_text h) };

    fn fmt<W: fmt::Write>(&self, f: &mut fmt::Formatter<W>) -> fmt::Result {
        f.write_str(self.text())
    }
}

impl Head {
    /// Each of them once, a longer arrow before its beginnings.
    const ALL: [Head; 26] = [
        Head::DottedBoth,
        Head::Both,
        Head::DottedFilled,
        Head::Filled,
        Head::DottedPlain,
        Head::Plain,
        Head::DottedCross,
        Head::Cross,
        Head::DottedPoint,
        Head::Point,
        Head::DottedUpper,
        Head::Upper,
        Head::DottedLower,
        Head::Lower,
        Head::DottedUpperStick,
        Head::UpperStick,
        Head::DottedLowerStick,
        Head::LowerStick,
        Head::DottedLeftUpper,
        Head::LeftUpper,
        Head::DottedLeftLower,
        Head::LeftLower,
        Head::DottedLeftUpperStick,
        Head::LeftUpperStick,
        Head::DottedLeftLowerStick,
        Head::LeftLowerStick,
    ];

    /// Its text.
    pub(crate) fn text(self) -> &'static str
        ensures { result.now ≡ head_text self }
    {
        match self {
            Head::DottedBoth => "<<-->>",
            Head::Both => "<<->>",
            Head::DottedFilled => "-->>",
            Head::Filled => "->>",
            Head::DottedPlain => "-->",
            Head::Plain => "->",
            Head::DottedCross => "--x",
            Head::Cross => "-x",
            Head::DottedPoint => "--)",
            Head::Point => "-)",
            Head::DottedUpper => "--|\\",
            Head::Upper => "-|\\",
            Head::DottedLower => "--|/",
            Head::Lower => "-|/",
            Head::DottedUpperStick => "--\\\\",
            Head::UpperStick => "-\\\\",
            Head::DottedLowerStick => "--//",
            Head::LowerStick => "-//",
            Head::DottedLeftUpper => "/|--",
            Head::LeftUpper => "/|-",
            Head::DottedLeftLower => "\\|--",
            Head::LeftLower => "\\|-",
            Head::DottedLeftUpperStick => "//--",
            Head::LeftUpperStick => "//-",
            Head::DottedLeftLowerStick => "\\\\--",
            Head::LeftLowerStick => "\\\\-",
        }
    }

    /// Whether it has a head on both sides.
    pub(crate) fn is_double(self) -> bool
        ensures { result ≡ is_double self }
    {
        matches!(self, Head::DottedBoth | Head::Both)
    }

    /// Whether its only head is on the left.
    pub(crate) fn is_leftward(self) -> bool
        ensures { result ≡ is_leftward self }
    {
        matches!(
            self,
            Head::DottedLeftUpper
                | Head::LeftUpper
                | Head::DottedLeftLower
                | Head::LeftLower
                | Head::DottedLeftUpperStick
                | Head::LeftUpperStick
                | Head::DottedLeftLowerStick
                | Head::LeftLowerStick
        )
    }

    /// Whether it ends in a cross.
    pub(crate) fn is_crossed(self) -> bool
        ensures { result ≡ is_crossed self }
    {
        matches!(self, Head::DottedCross | Head::Cross)
    }

    /// The first of these arrows with which the bytes begin.
    fn among(bytes: &[u8], heads: &[Head]) -> Option<Head>
        ensures value { result ≡ find (λ h. begin_so bytes.now (head_text h)) heads.now }
        ensures room { IfSome result (λ h. length (head_text h) ≤ length bytes.now) }
    {
        for head in heads {
            if begin_so(bytes, head.text().as_bytes()) {
                return Some(*head);
            }
        }
        None
    }

    /// The number of bytes of the arrow.
    pub(crate) fn length(self) -> usize
        ensures { result ≡ length (head_text self) }
    {
        self.text().len()
    }

    /// The arrow with which the bytes begin.
    pub(crate) fn of(bytes: &[u8]) -> Option<Head>
        ensures value { result ≡ head_of bytes.now }
        ensures room { IfSome result (λ h. length (head_text h) ≤ length bytes.now) }
    {
        Head::among(bytes, &Head::ALL)
    }
}
