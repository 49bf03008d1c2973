//! A shortest ring through a number.

ghost use Rattle.std.specs.Prelude.{◌≡◌, ◌*◌, ◌<◌, length, IfOk, IfSome, IfNone, MatchOption};
ghost use Rattle.bit_rows.specs.Rows.{word_count};
ghost use Rattle.bit_rows.specs.Tables.{cell};
ghost use Rattle.rings.specs.Rings.{IsLeastRing, HasNoRing};
ghost use Rattle.rings.specs.Walking.{IsNearest, HasNoNearest};

use crate::away::{NEVER, away_from};
use bit_rows::table;
use std::alloc::{AllocError, Global};

/// The nearest of the numbers to which `x` leads and whose distance is less than `bound`; if there
/// are several, the least.
fn nearest(steps: &[u64], n: u32, x: u32, away: &[u32], bound: u32) -> Option<u32>
    requires square { length steps.now ≡ n * word_count n }
    requires number { x < n }
    requires away { length away.now ≡ n }
    ensures found { IfSome result (IsNearest (cell n steps.now) n away.now x bound) }
    ensures none { IfNone result (HasNoNearest (cell n steps.now) n away.now x bound) }
{
    let mut found = None;
    let mut least = bound;
    for y in 0..n {
        if away[y as usize] < least && table::has(steps, n, x, y) {
            least = away[y as usize];
            found = Some(y);
        }
    }
    found
}

/// A ring through `start`, if there is one: the least of the shortest rings, number by number.
/// `steps` has a row for each number below `n`. The only error is that memory ran out.
pub fn ring(
    alloc: Global,
    steps: &[u64],
    n: u32,
    start: u32,
) -> Result<Option<Vec<u32>>, AllocError>
    requires square { length steps.now ≡ n * word_count n }
    requires start { start < n }
    ensures found { IfOk result
        (λ found. IfSome found (λ ring. IsLeastRing (cell n steps.now) n start ring.items)) }
    ensures none { IfOk result (λ found. IfNone found (HasNoRing (cell n steps.now) n start)) }
{
    let away = away_from(alloc, steps, n, start)?;
    let mut ring = Vec::new(alloc);
    ring.push(start)?;
    let mut last = start;
    let mut bound = NEVER;
    'ring: while let Some(next) = nearest(steps, n, last, &away, bound) {
        if next == start {
            return Ok(Some(ring));
        }
        ring.push(next)?;
        bound = away[next as usize];
        last = next;
    }
    Ok(None)
}
