//! What prints pairs of events, one after another.

ghost use Rattle.std.specs.Prelude.{◌≡◌, ℕ, [], List, IsTrue};
ghost use Rattle.msc_print.specs.Prints.{Prints};
ghost use Rattle.msc_print.specs.Rows.{count_after, rows_from};

use crate::pairs::Pair;
use crate::printer::Printer;
use std::alloc::Global;
use std::io::Write;

/// What prints a row for each pair of events. A row may depend on a count that each pair changes,
/// such as the number of rows so far, and on runs that show what a pair means.
pub trait Rows {
    /// The state that it keeps from one row to the next, such as the run of the last event.
    type Memo: Drop;

    /// It can print this pair.
    ghost can_print: { Self → ℕ × ℕ → Type 0 };

    /// These are the runs of pairs.
    ghost are_runs: { Self → (ℕ × ℕ → List ℕ) → Type 0 };

    /// The row of a pair, with these runs and this count.
    ghost row_text: { Self → (ℕ × ℕ → List ℕ) → ℕ → ℕ × ℕ → List ℕ };

    /// The count after a pair.
    ghost after: { Self → ℕ → ℕ × ℕ → ℕ };

    /// What it keeps is right.
    ghost has_memo: { Self → Self.Memo → Type 0 };

    /// It prints all pairs, however many there are.
    ghost goes_on: { Self → Type 0 };

    /// What it keeps before the first row.
    fn memo(&self, alloc: Global) -> Self::Memo
        ensures { has_memo self.now result };

    /// Prints the row of a pair, and returns the next count. If memory runs out, the printer stops.
    fn print_row<W: Write>(
        &self,
        alloc: Global,
        printer: &mut Printer<'_, W>,
        memo: &mut Self::Memo,
        count: u32,
        pair: Pair,
    ) -> u32
        requires pair { can_print self.now pair }
        requires memo { has_memo self.now memo.old }
        ensures memo { has_memo self.now memo.new }
        ensures count { result ≡ after self.now count pair }
        ensures printed { (runs : ℕ × ℕ → List ℕ) → are_runs self.now runs
            → Prints printer.old printer.new (row_text self.now runs count pair) };

    /// Whether all rows from this count on are empty and leave the count as it is.
    fn is_done(&self, count: u32) -> bool
        ensures rows { IsTrue result → (runs : ℕ × ℕ → List ℕ) (pairs : List (ℕ × ℕ))
            → rows_from (row_text self.now runs) (after self.now) count pairs ≡ [] }
        ensures count { IsTrue result → (pairs : List (ℕ × ℕ))
            → count_after (after self.now) count pairs ≡ count }
        ensures ends { IsTrue result → goes_on self.now → ⊥ };
}
