//! The loop that prints pairs from any source in any rows.

ghost use Rattle.std.specs.Prelude.{◌≡◌, ℕ, ◌<◌, List, IfOk, OnOk};
ghost use Rattle.std.specs.List.{All};
ghost use Rattle.msc_print.specs.Prints.{Prints};
ghost use Rattle.msc_print.specs.Rows.{below, count_after, rows_from};

use crate::pairs::{Pair, Pairs};
use crate::printer::Printer;
use crate::rows::Rows;
use std::alloc::{AllocError, Global};
use std::io::Write;

/// Prints the rows of these pairs, and returns the next count.
fn print_list<R: Rows, W: Write>(
    alloc: Global,
    printer: &mut Printer<'_, W>,
    rows: &R,
    memo: &mut R::Memo,
    pairs: &[Pair],
    count: u32,
) -> u32
    requires pairs { All (R.can_print rows.now) pairs.now }
    requires memo { R.has_memo rows.now memo.old }
    ensures memo { R.has_memo rows.now memo.new }
    ensures count { result ≡ count_after (R.after rows.now) count pairs.now }
    ensures printed { (runs : ℕ × ℕ → List ℕ) → R.are_runs rows.now runs
        → Prints printer.old printer.new
        (rows_from (R.row_text rows.now runs) (R.after rows.now) count pairs.now) }
{
    let mut next = count;
    for pair in pairs {
        next = rows.print_row(alloc, printer, memo, next, *pair);
    }
    next
}

/// Prints the rows of all pairs of a source, from a count on, and returns the next count. The walk
/// visits all events, unless all further rows are empty. An error is a growth of memory that was
/// refused, or a fault that had ended the printer.
pub fn print_pairs<P: Pairs, R: Rows, W: Write>(
    alloc: Global,
    printer: &mut Printer<'_, W>,
    pairs: &P,
    walk: &mut P::Walk,
    rows: &R,
    count: u32,
) -> Result<u32, AllocError>
    requires start { P.has_reached pairs.now walk.old 0 }
    requires pairs { (e : ℕ) → e < P.size pairs.now
        → All (R.can_print rows.now) (P.from pairs.now e) }
    ensures reached { OnOk result (R.goes_on rows.now
        → P.has_reached pairs.now walk.new (P.size pairs.now)) }
    ensures count { IfOk result (λ next. next ≡ count_after (R.after rows.now) count
        (below (P.from pairs.now) (P.size pairs.now))) }
    ensures printed { (runs : ℕ × ℕ → List ℕ) → R.are_runs rows.now runs
        → Prints printer.old printer.new (rows_from (R.row_text rows.now runs)
        (R.after rows.now) count (below (P.from pairs.now) (P.size pairs.now))) }
{
    let mut memo = rows.memo(alloc);
    let mut next = count;
    for e in 0..pairs.size() {
        if printer.has_ended() {
            return Err(AllocError);
        }
        if rows.is_done(next) {
            return Ok(next);
        }
        match pairs.next(walk, e) {
            Ok(()) => {
                let list = pairs.pairs(walk);
                next = print_list(alloc, printer, rows, &mut memo, list, next);
            }
            Err(_) => {
                printer.stop();
                return Err(AllocError);
            }
        }
    }
    Ok(next)
}
