//! The least event of a row that fits a rule.

ghost use Rattle.std.specs.Prelude.{◌≡◌, ◌+◌, ◌*◌, ◌<◌, ◌≤◌, IfNone, IfSome, length};
ghost use Rattle.bit_rows.specs.Rows.{has};
ghost use Rattle.msc_chart.specs.Lists.{IsLeast};
ghost use Rattle.msc_picture.specs.Courses.{IsLaid, frame_of};
ghost use Rattle.msc_picture.specs.Drawn.{Holds};
ghost use Rattle.msc_picture.specs.Frames.{Fits, HasNone};
ghost use Rattle.msc_picture.specs.Ready.{HasNoneTo, IsRowFor};

use crate::drawn::Drawn;
use crate::frame::Framed;
use crate::rule::Rule;
use bit_rows::row::{has, lowest_in, word_count};
use msc_chart::Event;

/// The least event of a row from `start` up to `end` that fits a rule, given that no event below
/// fits it.
fn least_between(
    d: &Drawn,
    f: &Framed,
    rule: Rule,
    row: &[u64],
    start: Event,
    end: Event,
) -> Option<Event>
    requires laid { IsLaid f.now }
    requires held { Holds f.now d.now }
    requires row { IsRowFor (frame_of f.now) d.now.past.items rule row.now }
    requires below { HasNoneTo (frame_of f.now) d.now.past.items rule start }
    requires ordered { start ≤ end }
    requires within { end ≤ length f.now.chart.now.events }
    ensures some { IfSome result (IsLeast (Fits (frame_of f.now) d.now.past.items rule)) }
    ensures none { IfNone result (HasNoneTo (frame_of f.now) d.now.past.items rule end) }
{
    for e in start..end {
        if has(row, e) && d.fits(f, rule, e) {
            return Some(e);
        }
    }
    None
}

/// The least event of word `k` of a row that fits a rule, given that no event of the words below
/// fits it.
fn least_in(d: &Drawn, f: &Framed, rule: Rule, row: &[u64], k: u32) -> Option<Event>
    requires laid { IsLaid f.now }
    requires held { Holds f.now d.now }
    requires row { IsRowFor (frame_of f.now) d.now.past.items rule row.now }
    requires below { HasNoneTo (frame_of f.now) d.now.past.items rule (64 * k) }
    requires known { k < length row.now }
    ensures some { IfSome result (IsLeast (Fits (frame_of f.now) d.now.past.items rule)) }
    ensures none { IfNone result
        (HasNoneTo (frame_of f.now) d.now.past.items rule (64 * k + 64)) }
{
    f.chart.facts();
    let many = f.chart.events();
    let word = row[k as usize];
    if word == 0 {
        return None;
    }
    let start = lowest_in(word, k);
    if start >= many {
        return None;
    }
    least_between(d, f, rule, row, start, many.min(64 * k + 64))
}

/// The least event that fits a rule. It is in this row.
pub(crate) fn least(d: &Drawn, f: &Framed, rule: Rule, row: &[u64]) -> Option<Event>
    requires laid { IsLaid f.now }
    requires held { Holds f.now d.now }
    requires row { IsRowFor (frame_of f.now) d.now.past.items rule row.now }
    ensures some { IfSome result (IsLeast (Fits (frame_of f.now) d.now.past.items rule)) }
    ensures none { IfNone result (HasNone (frame_of f.now) d.now.past.items rule) }
{
    f.chart.facts();
    for k in 0..word_count(f.chart.events()) as u32 {
        if let Some(e) = least_in(d, f, rule, row, k) {
            return Some(e);
        }
    }
    None
}
