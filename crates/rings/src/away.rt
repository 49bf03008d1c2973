//! The distance of each number from the start, in steps.

ghost use Rattle.std.specs.Prelude.{◌≡◌, ◌+◌, ◌*◌, ◌<◌, length, replicate, IfOk, OnOk};
ghost use Rattle.bit_rows.specs.Rows.{word_count};
ghost use Rattle.bit_rows.specs.Tables.{cell};
ghost use Rattle.rings.specs.Searching.{never, IsAway, IsSearch};

use bit_rows::table;
use std::alloc::{AllocError, Global};

/// The value for a number from which no path leads to the start.
pub(crate) const NEVER: u32 = u32::MAX;

/// Marks each number that leads to the one at place `at` of the queue and was not reached before as
/// one step farther away, and appends it to the queue.
fn reach(
    steps: &[u64],
    n: u32,
    start: u32,
    at: usize,
    away: &mut [u32],
    queue: &mut Vec<u32>,
) -> Result<(), AllocError>
    requires square { length steps.now ≡ n * word_count n }
    requires place { at < length queue.old.items }
    requires search { IsSearch (cell n steps.now) n start at away.old queue.old.items }
    ensures { OnOk result (IsSearch (cell n steps.now) n start (at + 1) away.new queue.new.items) }
{
    let y = queue[at];
    let farther = away[y as usize].saturating_add(1);
    for x in 0..n {
        if away[x as usize] == NEVER && table::has(steps, n, x, y) {
            away[x as usize] = farther;
            queue.push(x)?;
        }
    }
    Ok(())
}

/// The list before any number is reached.
fn nowhere(alloc: Global, n: u32) -> Result<Vec<u32>, AllocError>
    ensures { IfOk result (λ away. away.items ≡ replicate n never) }
{
    vec![in alloc; NEVER; n as usize]
}

/// The distance of each number from the start, in steps: a search from the start against the pairs,
/// the nearest numbers first.
pub(crate) fn away_from(
    alloc: Global,
    steps: &[u64],
    n: u32,
    start: u32,
) -> Result<Vec<u32>, AllocError>
    requires square { length steps.now ≡ n * word_count n }
    requires start { start < n }
    ensures { IfOk result (λ away. IsAway (cell n steps.now) n start away.items) }
{
    let mut away = nowhere(alloc, n)?;
    away[start as usize] = 0;
    let mut queue = Vec::with_capacity(alloc, n as usize)?;
    queue.push(start)?;
    for at in 0..n as usize {
        if at >= queue.len() {
            break;
        }
        reach(steps, n, start, at, &mut away, &mut queue)?;
    }
    Ok(away)
}
