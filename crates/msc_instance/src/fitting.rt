//! Whether ends fit an instance, by counts of its messages in tables of a fixed size.

ghost use Rattle.std.specs.Prelude.{◌≡◌, ℕ, ◌↔◌, IsTrue, length, get_or};
ghost use Rattle.msc_chart.specs.Orders.{queue_bound};
ghost use Rattle.msc_execution.specs.Roles.{IsFit, quota_of, role, sent_queues, taken_queues};
ghost use Rattle.msc_instance.specs.Fitting.{HasRoomFor, HaveRoom, numbers_in, numbers_of_ends};
ghost use Rattle.msc_instance.specs.Views.{ends_of};

use crate::ends::InstanceEnds;
use msc_chart::laws::{events_have_queues, queue_numbers_are_bounded};
use msc_chart::{Chart, QUEUE_LIMIT, Queues, Wiring};
use msc_fifo::Outlet;

/// The length of a table over the queues of any chart.
const TABLE_LENGTH: usize = QUEUE_LIMIT as usize;

/// A table with no message.
fn no_counts() -> [u32; TABLE_LENGTH]
    ensures { (q : ℕ) → get_or result q 0 ≡ 0 }
{
    [0; TABLE_LENGTH]
}

/// Counts the messages that instance `i` sends to each queue, and the messages that it takes from
/// it.
fn count_own(chart: &Chart, queues: Queues, i: u32, sent: &mut [u32], taken: &mut [u32])
    requires zero { (q : ℕ) → get_or sent.old q 0 ≡ 0 }
    requires none { (q : ℕ) → get_or taken.old q 0 ≡ 0 }
    requires sent { length sent.old ≡ queue_bound queues chart.now }
    requires taken { length taken.old ≡ queue_bound queues chart.now }
    ensures sent { numbers_in sent.new ≡ sent_queues (role queues chart.now i) }
    ensures taken { numbers_in taken.new ≡ taken_queues (role queues chart.now i) }
    ensures quotas { (q : ℕ) → get_or sent.new q 0 ≡ quota_of queues chart.now q i }
{
    queue_numbers_are_bounded();
    events_have_queues();
    chart.facts();
    for m in 0..chart.messages() {
        let q = chart.queue(m, queues) as usize;
        sent[q] += u32::from(chart.sender(m) == i);
        taken[q] += u32::from(chart.receiver(m) == i);
    }
}

/// Whether the numbers of the ends are those of the queues in the table, ascending.
fn are_numbered<T>(ends: &[(u32, T)], counts: &[u32]) -> bool
    ensures { IsTrue result ↔ (numbers_of_ends ends.now ≡ numbers_in counts.now) }
{
    let mut k = 0;
    for q in 0..counts.len() {
        if counts[q] > 0 {
            if k == ends.len() || ends[k].0 as usize != q {
                return false;
            }
            k += 1;
        }
    }
    k == ends.len()
}

/// Whether the outlet is open, with room for `messages` more messages.
fn has_room(outlet: &Outlet, messages: u32) -> bool
    ensures { IsTrue result ↔ HasRoomFor outlet.now messages }
{
    !outlet.is_closed() && messages <= outlet.left()
}

/// The number of messages of queue `q` in the table.
fn messages_of(counts: &[u32], q: u32) -> u32
    ensures { result ≡ get_or counts.now q 0 }
{
    match counts.get(q as usize) {
        Some(messages) => *messages,
        None => 0,
    }
}

/// Whether each outlet has room for the messages of its queue.
fn have_room(outlets: &[(u32, Outlet)], counts: &[u32]) -> bool
    ensures { IsTrue result ↔ HaveRoom counts.now outlets.now }
{
    for outlet in outlets {
        if !has_room(&outlet.1, messages_of(counts, outlet.0)) {
            return false;
        }
    }
    true
}

/// Whether the ends fit instance `i`, with empty tables for the counts of its messages.
fn fit_counted(
    ends: &InstanceEnds,
    chart: &Chart,
    i: u32,
    sent: &mut [u32],
    taken: &mut [u32],
) -> bool
    requires zero { (q : ℕ) → get_or sent.old q 0 ≡ 0 }
    requires none { (q : ℕ) → get_or taken.old q 0 ≡ 0 }
    requires sent { length sent.old ≡ queue_bound ends.now.queues chart.now }
    requires taken { length taken.old ≡ queue_bound ends.now.queues chart.now }
    ensures { IsTrue result ↔ IsFit (role ends.now.queues chart.now i) (ends_of ends.now) }
{
    count_own(chart, ends.queues, i, sent, taken);
    if !are_numbered(ends.outlets.as_slice(), sent) {
        return false;
    }
    if !are_numbered(ends.inlets.as_slice(), taken) {
        return false;
    }
    have_room(ends.outlets.as_slice(), sent)
}

impl InstanceEnds {
    /// Whether the ends fit instance `i` of the chart, from 0: an open outlet for each queue to
    /// which it sends, with room for its messages there, an inlet for each queue from which it
    /// takes, and no other; both lists ascend. It takes no memory.
    pub fn fits(&self, chart: &Chart, i: u32) -> bool
        ensures { IsTrue result ↔ IsFit (role self.now.queues chart.now i) (ends_of self.now) }
    {
        let wiring = Wiring {
            chart,
            queues: self.queues,
        };
        let bound = wiring.queue_count() as usize;
        let mut sent = no_counts();
        let mut taken = no_counts();
        fit_counted(self, chart, i, &mut sent[..bound], &mut taken[..bound])
    }
}
