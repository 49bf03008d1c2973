//! The queues that rules give.

ghost use Rattle.std.specs.Prelude.{◌≡◌, ◌≤◌, ◌<◌, ℕ, [], MatchResult, Ok, length};
ghost use Rattle.std.specs.Option.{option_or};
ghost use Rattle.msc_chart.specs.Architectures.{link_kind};
ghost use Rattle.msc_chart.specs.declared.queue.Queues.TheVariants.{Uniform};
ghost use Rattle.msc_links.specs.Links.{IsWithin};
ghost use Rattle.msc_links.specs.Rules.{AreRuled, IsRulesFault};
ghost use Rattle.msc_links.specs.Tables.{kind_at, tabled_kind};

use crate::fault::RulesFault;
use crate::line::LineNames;
use crate::link::Link;
use crate::rule::{Rule, table_of};
use crate::table::KindTable;
use msc_chart::{INSTANCE_LIMIT, LinkKind, Links, Queues};

/// The kind of a link in the first of two tables that has one.
fn kind_by(given: &KindTable, text: &KindTable, link: Link) -> Option<LinkKind>
    requires { IsWithin link }
    ensures { result ≡ option_or (kind_at given.now link) (kind_at text.now link) }
{
    match given.kind(link) {
        Some(kind) => Some(kind),
        None => text.kind(link),
    }
}

/// The kind of the link from a sender to a receiver by two tables.
fn tabled_kind(
    usual: LinkKind,
    text: &KindTable,
    given: &KindTable,
    sender: usize,
    receiver: usize,
) -> LinkKind
    requires sender { sender < INSTANCE_LIMIT }
    requires receiver { receiver < INSTANCE_LIMIT }
    ensures { result ≡ tabled_kind usual text.now given.now sender receiver }
{
    if let Some(kind) = kind_by(given, text, Link::Between(sender, receiver)) {
        return kind;
    }
    match kind_by(given, text, Link::To(receiver)) {
        Some(kind) => kind,
        None => usual,
    }
}

/// The kinds of all links by two tables.
fn tabled_links(usual: LinkKind, text: &KindTable, given: &KindTable) -> Links
    ensures usual { result.usual ≡ usual }
    ensures kinds { (s r : ℕ) → s < INSTANCE_LIMIT → r < INSTANCE_LIMIT
        → link_kind result s r ≡ tabled_kind usual text.now given.now s r }
{
    let mut links = Links::all(usual);
    for link in 0..INSTANCE_LIMIT * INSTANCE_LIMIT {
        let sender = link / INSTANCE_LIMIT;
        let receiver = link % INSTANCE_LIMIT;
        let kind = tabled_kind(usual, text, given, sender as usize, receiver as usize);
        links.give(sender, receiver, kind);
    }
    links
}

/// The queues that two lists of rules give, for lines with these names, or the first fault.
///
/// `text` has the rules of a text, and `given` those of a command line. The kind of a link is that
/// of the first that exists: a rule of `given` for the link, a rule of `text` for it, a rule of
/// `given` for all links to its receiver, a rule of `text` for these, and `usual`. It takes no
/// memory, and time for each rule and each link.
///
/// # Errors
///
/// The first fault of `text`, or of `given` if `text` has none. The fault of a list is that of its
/// first rule that has one; [`LinkFault`](crate::LinkFault) lists the faults of a rule in order.
pub fn queues_of<'w>(
    usual: LinkKind,
    text: &[Rule<'w>],
    given: &[Rule<'w>],
    names: &[LineNames<'_>],
) -> Result<Queues, RulesFault<'w>>
    requires { length names.now ≤ INSTANCE_LIMIT }
    ensures outcome { MatchResult result
        (AreRuled usual text.now given.now names.now)
        (IsRulesFault text.now given.now names.now) }
    ensures without_rules { text.now ≡ [] → given.now ≡ [] → result ≡ Ok (Uniform usual) }
{
    if text.is_empty() && given.is_empty() {
        return Ok(Queues::Uniform(usual));
    }
    let of_text = match table_of(names, text) {
        Ok(table) => table,
        Err(fault) => return Err(RulesFault::Text(fault)),
    };
    let of_given = match table_of(names, given) {
        Ok(table) => table,
        Err(fault) => return Err(RulesFault::Given(fault)),
    };
    Ok(Queues::Mixed(tabled_links(usual, &of_text, &of_given)))
}
