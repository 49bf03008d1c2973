//! The rule of queues, once, over the caused order.
//!
//! The outputs are visited in the reverse of a linear order of the events. So for each output the
//! outputs of its queue that are caused after it are known, and its input takes in the inputs of
//! these. An output that is caused after one of them needs no visit: the row of that one's input
//! was taken in.

ghost use Rattle.std.specs.Prelude.{◌≡◌, ℕ, ◌+◌, ◌*◌, ◌<◌, ◌||◌, length, nat_eq, IsTrue};
ghost use Rattle.std.specs.Prelude.{false, OnOk};
ghost use Rattle.msc_chart.specs.Charts.{is_output, partner};
ghost use Rattle.msc_chart.specs.Orders.{queue, IsEnforcedOrder};
ghost use Rattle.msc_chart.specs.Wirings.{size, wired_by};
ghost use Rattle.bit_rows.specs.Rows.{has, word_count};
ghost use Rattle.bit_rows.specs.Tables.{cell, HasRow};
ghost use Rattle.msc_order.specs.Caused.{Caused};
ghost use Rattle.msc_order.specs.Closing.{IsTestOf, IsBetween, Keeps, HasSeen, IsAbove};
ghost use Rattle.msc_order.specs.Closing.{IsOutputOf, AreSeen, IsTaken, AreMoved};

use crate::closing::close;
use bit_rows::row;
use bit_rows::row::lowest_in;
use bit_rows::table::{blank, common, drop_row, put, put_row, take_row};
use msc_chart::laws::ends_share_queues;
use msc_chart::{Event, Wiring};
use std::alloc::{AllocError, Global};

/// Puts the input of output `c`, and all that comes after it, into `taken`.
#[tactic(auto, using(bit_rows::proofs::Cells::row_fits, bit_rows::proofs::Bits::words_enough))]
fn take_input(taken: &mut [u64], words: &[u64], wiring: &Wiring, c: Event)
    requires row { length taken.old ≡ word_count (size wiring.now) }
    requires square { length words.now ≡ size wiring.now * word_count (size wiring.now) }
    requires known { c < size wiring.now }
    ensures { (y : ℕ) → has taken.new y ≡ (has taken.old y
        || (nat_eq y (partner wiring.now.chart.now.events c)
        || cell (size wiring.now) words.now (partner wiring.now.chart.now.events c) y)) }
{
    wiring.chart.facts();
    let events = wiring.chart.events();
    let input = wiring.chart.other_end(c);
    put_row(taken, words, events, input);
}

/// Takes the inputs of those outputs that are left in word `k` into `taken`. Outputs that are
/// caused after one of them are then no longer left.
#[inline(never)]
fn take_word(taken: &mut [u64], left: &mut [u64], words: &[u64], wiring: &Wiring, k: usize)
    requires taken { length taken.old ≡ word_count (size wiring.now) }
    requires row { length left.old ≡ word_count (size wiring.now) }
    requires square { length words.now ≡ size wiring.now * word_count (size wiring.now) }
    requires word { k < length left.old }
    requires between { IsBetween (wired_by wiring.now) (cell (size wiring.now) words.now) }
    requires seen { AreSeen (wired_by wiring.now) (cell (size wiring.now) words.now)
        (has left.old) }
    requires above { IsAbove (64 * k) (has left.old) }
    ensures moved { AreMoved (wired_by wiring.now) (has left.old) (has left.new)
        (has taken.old) (has taken.new) }
    ensures above { IsAbove (64 * (k + 1)) (has left.new) }
{
    let events = wiring.chart.events();
    while left[k] != 0 {
        let c = lowest_in(left[k], k as u32);
        drop_row(left, words, events, c);
        take_input(taken, words, wiring, c);
    }
}

/// Takes the inputs of all outputs that are left into `taken`.
fn take_left(taken: &mut [u64], left: &mut [u64], words: &[u64], wiring: &Wiring)
    requires taken { length taken.old ≡ word_count (size wiring.now) }
    requires row { length left.old ≡ word_count (size wiring.now) }
    requires square { length words.now ≡ size wiring.now * word_count (size wiring.now) }
    requires between { IsBetween (wired_by wiring.now) (cell (size wiring.now) words.now) }
    requires seen { AreSeen (wired_by wiring.now) (cell (size wiring.now) words.now)
        (has left.old) }
    requires blank { (y : ℕ) → has taken.old y ≡ false }
    ensures { IsTaken (wired_by wiring.now) (has left.old) (has taken.new) }
{
    for k in 0..left.len() {
        if left[k] != 0 {
            take_word(taken, left, words, wiring, k);
        }
    }
}

/// Makes `taken` the row of the outputs in `left`, unless it is already: `kept` are the outputs of
/// which it was made last. Outputs of one coregion mostly have the same.
fn renew(taken: &mut [u64], kept: &mut [u64], left: &mut [u64], words: &[u64], wiring: &Wiring)
    requires taken { length taken.old ≡ word_count (size wiring.now) }
    requires kept { length kept.old ≡ word_count (size wiring.now) }
    requires row { length left.old ≡ word_count (size wiring.now) }
    requires square { length words.now ≡ size wiring.now * word_count (size wiring.now) }
    requires between { IsBetween (wired_by wiring.now) (cell (size wiring.now) words.now) }
    requires seen { AreSeen (wired_by wiring.now) (cell (size wiring.now) words.now)
        (has left.old) }
    requires last { IsTaken (wired_by wiring.now) (has kept.old) (has taken.old) }
    ensures kept { kept.new ≡ left.old }
    ensures taken { IsTaken (wired_by wiring.now) (has left.old) (has taken.new) }
{
    if &*left != &*kept {
        kept.copy_from_slice(left);
        taken.fill(0);
        take_left(taken, left, words, wiring);
    }
}

/// Adds the rule of queues for output `s`, where `masks` has, for each queue, the outputs that were
/// visited, and `taken` is the row of the outputs in `kept`.
fn add_queue_of(
    words: &mut [u64],
    masks: &mut [u64],
    left: &mut [u64],
    kept: &mut [u64],
    taken: &mut [u64],
    wiring: &Wiring,
    s: Event,
)
    requires square { length words.old ≡ size wiring.now * word_count (size wiring.now) }
    requires masks { HasRow (size wiring.now) masks.old (queue (wired_by wiring.now) s) }
    requires row { length left.old ≡ word_count (size wiring.now) }
    requires kept { length kept.old ≡ word_count (size wiring.now) }
    requires taken { length taken.old ≡ word_count (size wiring.now) }
    requires output { IsTrue (is_output wiring.now.chart.now.events s) }
    requires last { IsTaken (wired_by wiring.now) (has kept.old) (has taken.old) }
    requires between { IsBetween (wired_by wiring.now) (cell (size wiring.now) words.old) }
    requires seen { HasSeen (wired_by wiring.now) (cell (size wiring.now) words.old)
        (cell (size wiring.now) masks.old) }
    requires later { (c : ℕ) → IsOutputOf (wired_by wiring.now) (queue (wired_by wiring.now) s) c
        → Caused wiring.now.chart.now.events s c
        → IsTrue (cell (size wiring.now) masks.old (queue (wired_by wiring.now) s) c) }
    ensures last { IsTaken (wired_by wiring.now) (has kept.new) (has taken.new) }
    ensures between { IsBetween (wired_by wiring.now) (cell (size wiring.now) words.new) }
    ensures seen { HasSeen (wired_by wiring.now) (cell (size wiring.now) words.new)
        (cell (size wiring.now) masks.new) }
    ensures kept { Keeps (cell (size wiring.now) masks.old) (cell (size wiring.now) masks.new) }
    ensures own { IsTrue (cell (size wiring.now) masks.new (queue (wired_by wiring.now) s) s) }
{
    wiring.chart.facts();
    ends_share_queues();
    let events = wiring.chart.events();
    let q = wiring.queue(s);
    common(left, words, masks, events, s, q);
    renew(taken, kept, left, words, wiring);
    let input = wiring.chart.other_end(s);
    take_row(words, events, input, taken);
    put(masks, events, q, s);
}

/// Adds the rule of queues to the caused order.
fn add_queues(
    words: &mut [u64],
    masks: &mut [u64],
    left: &mut [u64],
    kept: &mut [u64],
    taken: &mut [u64],
    wiring: &Wiring,
)
    requires square { length words.old ≡ size wiring.now * word_count (size wiring.now) }
    requires masks { (e : ℕ) → IsTrue (is_output wiring.now.chart.now.events e)
        → HasRow (size wiring.now) masks.old (queue (wired_by wiring.now) e) }
    requires row { length left.old ≡ word_count (size wiring.now) }
    requires kept { length kept.old ≡ word_count (size wiring.now) }
    requires taken { length taken.old ≡ word_count (size wiring.now) }
    requires none { (y : ℕ) → has kept.old y ≡ false }
    requires nothing { (y : ℕ) → has taken.old y ≡ false }
    requires blank { (x y : ℕ) → cell (size wiring.now) masks.old x y ≡ false }
    requires caused { IsTestOf (Caused wiring.now.chart.now.events)
        (cell (size wiring.now) words.old) }
    ensures enforced { IsEnforcedOrder (wired_by wiring.now) (cell (size wiring.now) words.new) }
    ensures tight { (x y : ℕ) → IsTrue (cell (size wiring.now) words.new x y)
        → y < size wiring.now }
{
    ends_share_queues();
    wiring.chart.facts();
    let order = wiring.chart.linear_order();
    for done in 0..order.len() {
        let s = order[order.len() - 1 - done];
        if wiring.chart.is_output(s) {
            add_queue_of(words, masks, left, kept, taken, wiring, s);
        }
    }
}

/// Closes a blank table under all rules of the enforced order.
pub fn close_under_queues(
    alloc: Global,
    words: &mut [u64],
    wiring: &Wiring,
) -> Result<(), AllocError>
    requires square { length words.old ≡ size wiring.now * word_count (size wiring.now) }
    requires blank { (x y : ℕ) → cell (size wiring.now) words.old x y ≡ false }
    ensures enforced { OnOk result (IsEnforcedOrder (wired_by wiring.now)
        (cell (size wiring.now) words.new)) }
    ensures tight { OnOk result ((x y : ℕ) → IsTrue (cell (size wiring.now) words.new x y)
        → y < size wiring.now) }
{
    let events = wiring.chart.events();
    let mut masks = blank(alloc, wiring.queue_count(), events)?;
    let mut left = row::blank(alloc, events)?;
    let mut kept = row::blank(alloc, events)?;
    let mut taken = row::blank(alloc, events)?;
    close(alloc, words, wiring.chart, false)?;
    add_queues(words, &mut masks, &mut left, &mut kept, &mut taken, wiring);
    Ok(())
}
