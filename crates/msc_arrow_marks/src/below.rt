//! The arrow below a comment.

ghost use Rattle.std.specs.Prelude.{◌≡◌};
ghost use Rattle.msc_mermaid.specs.Reading.{is_arrow};
ghost use Rattle.msc_arrow_marks.specs.Below.{arrow_below, is_below};

use msc_mermaid::{Placed, Statement};

/// Whether a statement is an arrow.
pub(crate) fn is_arrow(statement: &Statement) -> bool
    ensures { result ≡ is_arrow statement.now }
{
    matches!(statement, Statement::Says(_))
}

/// Whether a statement is an arrow that begins behind this place.
fn is_below(place: usize, placed: &Placed) -> bool
    ensures { result ≡ is_below place placed.now }
{
    is_arrow(&placed.statement) && place < placed.whole.first
}

/// The place among the statements, from 0, of the first arrow that begins behind this place of the
/// text, if there is one.
#[tactic(auto, unfolding(crate::specs::Below::arrow_below))]
pub(crate) fn arrow_below(statements: &[Placed], place: usize) -> Option<usize>
    ensures { result ≡ arrow_below statements.now place }
{
    statements.iter().position(|placed| is_below(place, placed))
}
