//! The heading of an answer, before the first race: how many races the chart has, and how many
//! count.

ghost use Rattle.std.specs.Prelude.{◌≡◌, ◌&&◌, ◌-◌, ◌≤◌, None, IfOk, Some, cond, is_some, length};
ghost use Rattle.std.specs.Prelude.{nat_eq, true};
ghost use Rattle.msc_race.specs.Views.{races_of};
ghost use Rattle.msc_reason.specs.Counting.{counting, listed};
ghost use Rattle.msc_reason.specs.Kinds.{is_empty};
ghost use Rattle.msc_reason.specs.Marked.{cause_in};
ghost use Rattle.msc_judge.specs.Findings.{heading_of, number_of_others};

use crate::renderer::Heading;
use msc_chart::Event;
use msc_reason::{KindSet, LeftOut, Listing, count_counting};
use std::alloc::{AllocError, Global};

/// If kinds are left out, the number of races of these kinds: all but the others.
fn left_out_of(kinds: KindSet, races: u32, others: u32) -> Option<u32>
    requires { others ≤ races }
    ensures { result ≡ cond (is_empty kinds) None (Some (races - others)) }
{
    if kinds.is_empty() {
        return None;
    }
    Some(races - others)
}

/// If marks accept races, the number of accepted races: the others that do not count.
fn accepted_of(left: LeftOut<'_>, others: u32, counting: u32) -> Option<u32>
    requires { counting ≤ others }
    ensures { result ≡ cond (is_some left.entry.accepted) (Some (others - counting)) None }
{
    if left.accepted.is_none() {
        return None;
    }
    Some(others - counting)
}

/// The number of closest races among those that count, if the listing has only these.
fn closest_of(alloc: Global, listing: &Listing, races: u32) -> Result<Option<u32>, AllocError>
    requires { races ≡ length (races_of listing.now.judged) }
    ensures { IfOk result (λ closest. closest ≡ cond listing.now.closest (Some (length
        (listed listing.now.judged listing.now.allowed true (cause_in listing.now.judged)))) None) }
{
    if !listing.closest() {
        return Ok(None);
    }
    Ok(Some(listing.count(alloc, races)?))
}

/// The number of races that count. `others` races are of no kind that is left out.
fn counting_of(alloc: Global, listing: &Listing, races: u32, others: u32) -> Result<u32, AllocError>
    requires races { races ≡ length (races_of listing.now.judged) }
    requires others { others ≡ number_of_others listing.now.judged listing.now.allowed.kinds
        (cause_in listing.now.judged) }
    ensures few { IfOk result (λ count. count ≤ others) }
    ensures count { IfOk result (λ count. count ≡ length
        (counting listing.now.judged listing.now.allowed (cause_in listing.now.judged))) }
{
    let left = listing.left_out();
    if left.accepted.is_none() {
        return Ok(others);
    }
    count_counting(alloc, listing.enforced(), left, races)
}

/// Whether no race counts, and each mark accepts a race.
pub(crate) fn passes(heading: Heading, stale: &[Event]) -> bool
    ensures { result ≡ (nat_eq heading.counting 0 && nat_eq (length stale.now) 0) }
{
    heading.counting == 0 && stale.is_empty()
}

/// The heading of a chart with `races` races.
pub(crate) fn heading_of(
    alloc: Global,
    listing: &Listing,
    races: u32,
) -> Result<Heading, AllocError>
    requires { races ≡ length (races_of listing.now.judged) }
    ensures { IfOk result (λ heading. heading ≡ heading_of listing.now.judged listing.now.closest
        listing.now.allowed (cause_in listing.now.judged)) }
{
    let (enforced, left) = (listing.enforced(), listing.left_out());
    let others = count_counting(alloc, enforced, LeftOut::of_kinds(left.kinds), races)?;
    let counting = counting_of(alloc, listing, races, others)?;
    let closest = closest_of(alloc, listing, races)?;
    Ok(Heading {
        queues: enforced.queues(),
        races,
        left_out: left_out_of(left.kinds, races, others),
        accepted: accepted_of(left, others, counting),
        counting,
        closest,
    })
}
