//! Rules, and the tables of their kinds.

ghost use Rattle.std.specs.Prelude.{◌≡◌, ◌≤◌, ◌+◌, ◌<◌, ℕ, Some, None, MatchResult, length, take};
ghost use Rattle.msc_chart.specs.Lists.{StandsAt};
ghost use Rattle.msc_links.specs.Links.{fault_text};
ghost use Rattle.msc_links.specs.Rules.{AreFaultless, HasFaultAt, HasNoFaultAt, IsFirstFault};
ghost use Rattle.msc_links.specs.Rules.{same_kind};
ghost use Rattle.msc_links.specs.Tables.{IsTableOf, differs};

use crate::blank::trimmed;
use crate::fault::LinkFault;
use crate::line::LineNames;
use crate::link::link_of;
use crate::table::KindTable;
use msc_chart::{INSTANCE_LIMIT, LinkKind};

/// A rule: all links that LINK names have a kind.
#[derive(Clone, Copy, Debug, PartialEq, Eq)]
pub struct Rule<'w> {
    /// The kind.
    pub kind: LinkKind,
    /// The text of LINK: `NAME`, all links to this instance, or `NAME>NAME`, the link from the
    /// first instance to the second. Blanks around each name are ignored.
    pub link: &'w [u8],
}

/// Whether two kinds are the same.
pub fn same_kind(one: LinkKind, other: LinkKind) -> bool
    ensures { result ≡ same_kind one other }
{
    matches!(
        (one, other),
        (LinkKind::Pair, LinkKind::Pair)
            | (LinkKind::Mailbox, LinkKind::Mailbox)
            | (LinkKind::Single, LinkKind::Single)
    )
}

/// Whether there is a kind, and it is another one.
fn differs(old: Option<LinkKind>, kind: LinkKind) -> bool
    ensures { result ≡ differs old kind }
{
    match old {
        Some(old) => !same_kind(old, kind),
        None => false,
    }
}

/// Enters the rule at a place in the table of those before it, or returns its fault.
fn enter<'w>(
    table: &mut KindTable,
    names: &[LineNames<'_>],
    rules: &[Rule<'w>],
    place: usize,
) -> Result<(), LinkFault<'w>>
    requires few { length names.now ≤ INSTANCE_LIMIT }
    requires within { place < length rules.now }
    requires table { IsTableOf names.now (take place rules.now) table.old }
    ensures { MatchResult result
        (λ _. HasNoFaultAt names.now rules.now place
        × IsTableOf names.now (take (place + 1) rules.now) table.new)
        (λ fault. HasFaultAt names.now rules.now place (fault_text fault)) }
{
    let rule = rules[place];
    let link = match link_of(names, rule.link) {
        Ok(link) => link,
        Err(fault) => return Err(fault),
    };
    if differs(table.kind(link), rule.kind) {
        return Err(LinkFault::TwoKinds(trimmed(rule.link)));
    }
    table.put(link, rule.kind);
    Ok(())
}

/// The table of the kinds that rules give, or the first fault of the rules.
pub(crate) fn table_of<'w>(
    names: &[LineNames<'_>],
    rules: &[Rule<'w>],
) -> Result<KindTable, LinkFault<'w>>
    requires { length names.now ≤ INSTANCE_LIMIT }
    ensures { MatchResult result
        (λ table. AreFaultless names.now rules.now × IsTableOf names.now rules.now table)
        (λ fault. IsFirstFault names.now rules.now (fault_text fault)) }
{
    let mut table = KindTable::empty();
    for place in 0..rules.len() {
        enter(&mut table, names, rules, place)?;
    }
    Ok(table)
}
