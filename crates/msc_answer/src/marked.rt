//! The marks of a text, if they are used.

ghost use Rattle.std.specs.Prelude.{◌≡◌, option_map};
ghost use Rattle.msc_answer.specs.Marked.{has_marks, ReadsMarks};

use msc_mark::{MarkFault, Marks};
use std::alloc::Global;

/// The marks of a text, if they are used.
pub(crate) fn marks_of(alloc: Global, accept: bool, text: &[u8]) -> Result<Option<Marks>, MarkFault>
    ensures { ReadsMarks accept text.now result }
{
    if !accept {
        return Ok(None);
    }
    Ok(Some(Marks::of(alloc, text)?))
}

/// Whether marks are used, and there are some.
pub(crate) fn has_marks(marks: Option<&Marks>) -> bool
    ensures { result ≡ has_marks (option_map (λ m. m.now) marks.entry) }
{
    match marks {
        Some(marks) => 0 < marks.as_slice().len(),
        None => false,
    }
}
