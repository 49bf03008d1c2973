//! One thing printed after another.

ghost use Rattle.std.specs.Prelude.{◌≡◌, ◌++◌, ◌&&◌, Bool, List, ℕ, IfOk, Ok};

use crate::printer::{Print, Printer};
use std::alloc::{AllocError, Global};
use std::io::Write;

/// Whether both pass, if both answers are known.
fn pass_both(
    first: Result<bool, AllocError>,
    second: Result<bool, AllocError>,
) -> Result<bool, AllocError>
    ensures { IfOk result (λ passed. (a b : Bool) × (first ≡ Ok a) × (second ≡ Ok b)
        × (passed ≡ (a && b))) }
{
    match (first, second) {
        (Ok(first), Ok(second)) => Ok(first && second),
        _ => Err(AllocError),
    }
}

/// One thing and then another. The answer is whether both pass.
#[derive(Drop)]
pub struct Both<'t, A: Print, B: Print> {
    pub first: &'t A,
    pub second: &'t B,
}

impl<'t, A: Print, B: Print> Print for Both<'t, A, B> {
    ghost can_print = { λ s. A.can_print s.first.now × B.can_print s.second.now };

    ghost is_text = { λ s text. (xs ys : List ℕ) × A.is_text s.first.now xs
        × B.is_text s.second.now ys × (text ≡ xs ++ ys) };

    ghost is_answer = { λ s passed. (a b : Bool) × A.is_answer s.first.now a
        × B.is_answer s.second.now b × (passed ≡ (a && b)) };

    fn print<W: Write>(
        &self,
        alloc: Global,
        printer: &mut Printer<'_, W>,
    ) -> Result<bool, AllocError> {
        let first = self.first.print(alloc, printer);
        let second = self.second.print(alloc, printer);
        pass_both(first, second)
    }
}
