//! The queues of a text under the architectures of a scan.

ghost use Rattle.std.specs.Prelude.{◌≡◌, ◌≤◌, [], IfErr, IfOk, OnOk, bytes_eq, false, length};
ghost use Rattle.std.specs.List.{filter, list_any};
ghost use Rattle.msc_links.specs.Links.{link_of};
ghost use Rattle.msc_report.specs.Links.{queues_text};
ghost use Rattle.msc_scanning.specs.Queued.{is_lacking, knows, lacks_line, linked_chart};
ghost use Rattle.msc_scanning.specs.Queued.{with_queues, AreQueues, IsQueued, IsUnqueued};
ghost use Rattle.msc_scanning.specs.Words.{links_under, words_in};

use crate::words::{Architecture, links_under};
use msc_answer::{LinkWords, Refusal, TextChart, queues_at, queues_in};
use msc_chart::{Chart, INSTANCE_LIMIT, LinkKind, Queues};
use msc_diagram::Scenario;
use msc_links::{LineNames, LinkFault, Rule, RulesFault, queues_of};
use msc_print::Page;
use msc_report::write_queues;
use std::alloc::{AllocError, Global};

/// Whether the queues of a rule alone are refused since it is for a line that there is not.
fn is_lacking(ruled: Result<Queues, RulesFault<'_>>) -> bool
    ensures { result ≡ is_lacking ruled.entry }
{
    match ruled {
        Err(RulesFault::Given(LinkFault::NoInstance(_))) => true,
        Err(RulesFault::Given(LinkFault::NoLink(_) | LinkFault::TwoKinds(_))) => false,
        Err(RulesFault::Text(_)) | Ok(_) => false,
    }
}

/// Whether LINK names a line that is none of these.
fn lacks_line(names: &[LineNames<'_>], link: &str) -> bool
    requires { length names.now ≤ INSTANCE_LIMIT }
    ensures { result ≡ lacks_line (link_of names.now link.now) }
{
    let rule = Rule {
        kind: LinkKind::Pair,
        link: link.as_bytes(),
    };
    is_lacking(queues_of(LinkKind::Pair, &[], &[rule], names))
}

/// Whether LINK names no line that is none of these.
fn knows(names: &[LineNames<'_>], link: &str) -> bool
    requires { length names.now ≤ INSTANCE_LIMIT }
    ensures { result ≡ knows names.now link.now }
{
    !lacks_line(names, link)
}

/// The links that name no line that is none of these.
fn known_links<'w>(
    alloc: Global,
    names: &[LineNames<'_>],
    links: &[&'w str],
) -> Result<Vec<&'w str>, AllocError>
    requires { length names.now ≤ INSTANCE_LIMIT }
    ensures { IfOk result (λ known. words_in known.items
        ≡ filter (knows names.now) (words_in links.now)) }
{
    let mut known = Vec::new(alloc);
    for link in links {
        if knows(names, link) {
            known.push(*link)?;
        }
    }
    Ok(known)
}

/// The rules of a command line for lines that a text has.
#[derive(Drop)]
pub(crate) struct KnownLinks<'w> {
    pairs: Vec<&'w str>,
    mailboxes: Vec<&'w str>,
    singles: Vec<&'w str>,
}

impl<'w> KnownLinks<'w> {
    /// Those of these words for lines with these names.
    pub fn of(
        alloc: Global,
        names: &[LineNames<'_>],
        links: LinkWords<'w>,
    ) -> Result<KnownLinks<'w>, AllocError>
        requires { length names.now ≤ INSTANCE_LIMIT }
        ensures pairs { IfOk result (λ known. words_in known.pairs.items
            ≡ filter (knows names.now) (words_in links.entry.pairs.now)) }
        ensures mailboxes { IfOk result (λ known. words_in known.mailboxes.items
            ≡ filter (knows names.now) (words_in links.entry.mailboxes.now)) }
        ensures singles { IfOk result (λ known. words_in known.singles.items
            ≡ filter (knows names.now) (words_in links.entry.singles.now)) }
    {
        Ok(KnownLinks {
            pairs: known_links(alloc, names, links.pairs)?,
            mailboxes: known_links(alloc, names, links.mailboxes)?,
            singles: known_links(alloc, names, links.singles)?,
        })
    }

    /// The rules, as words of a command line.
    pub fn words(&self) -> LinkWords<'_>
        ensures own { result.own ≡ false }
        ensures pairs { result.pairs.now ≡ self.entry.now.pairs.items }
        ensures mailboxes { result.mailboxes.now ≡ self.entry.now.mailboxes.items }
        ensures singles { result.singles.now ≡ self.entry.now.singles.items }
    {
        LinkWords {
            own: false,
            pairs: self.pairs.as_slice(),
            mailboxes: self.mailboxes.as_slice(),
            singles: self.singles.as_slice(),
        }
    }
}

/// The links of a text: those of its chart, or those of its diagram by the first scenario. All
/// scenarios have the same lines.
#[derive(Clone, Copy)]
pub(crate) enum Linked<'t, 's> {
    Chart(&'s TextChart<'t, 's>),
    Diagram(&'t [u8], &'s Scenario<'s>),
}

impl<'t, 's> Linked<'t, 's> {
    /// The chart, or that of the first scenario.
    fn chart(self) -> &'s Chart
        ensures { result.now ≡ linked_chart self.entry }
    {
        match self {
            Linked::Chart(source) => source.chart(),
            Linked::Diagram(_, first) => &first.chart,
        }
    }
}

/// The queues of a text under an architecture.
fn queues_under<'t>(
    alloc: Global,
    architecture: Architecture,
    links: LinkWords<'t>,
    linked: Linked<'t, '_>,
) -> Result<Queues, Refusal<'t>>
    ensures { IsQueued architecture links.entry linked.entry result }
{
    let links = links_under(architecture, links);
    match linked {
        Linked::Chart(source) => queues_in(alloc, architecture.usual, links, source),
        Linked::Diagram(text, first) => queues_at(
            alloc,
            architecture.usual,
            links,
            text,
            &first.spans,
            &first.chart,
        ),
    }
}

/// The lines of an architecture for a chart.
fn head_of(alloc: Global, chart: &Chart, queues: Queues) -> Result<Page, AllocError>
    ensures { IfOk result (λ page. page.bytes.items ≡ queues_text chart.now queues) }
{
    let mut page = Page::new(alloc);
    match write_queues(&mut page, chart, &queues) {
        Ok(()) => Ok(page),
        Err(_) => Err(AllocError),
    }
}

/// Whether one of these architectures of a chart has these lines.
fn has_head(alloc: Global, chart: &Chart, found: &[Queues], head: &[u8]) -> Result<bool, AllocError>
    ensures { IfOk result (λ has. has
        ≡ list_any (λ queues. bytes_eq (queues_text chart.now queues) head.now) found.now) }
{
    for queues in found {
        if head_of(alloc, chart, *queues)?.bytes.as_slice() == head {
            return Ok(true);
        }
    }
    Ok(false)
}

/// Appends the architecture of a chart, unless one with the same lines is there.
fn put_queues(
    alloc: Global,
    chart: &Chart,
    found: &mut Vec<Queues>,
    queues: Queues,
) -> Result<(), AllocError>
    ensures { OnOk result (found.new.items ≡ with_queues chart.now found.old.items queues) }
{
    let head = head_of(alloc, chart, queues)?;
    if has_head(alloc, chart, found.as_slice(), head.bytes.as_slice())? {
        return Ok(());
    }
    found.push(queues)?;
    Ok(())
}

/// The queues of a text under architectures, each once.
pub(crate) fn queues_each<'t>(
    alloc: Global,
    architectures: &[Architecture],
    links: LinkWords<'t>,
    linked: Linked<'t, '_>,
) -> Result<Vec<Queues>, Refusal<'t>>
    ensures found { IfOk result (λ found.
        AreQueues links.entry linked.entry architectures.now [] found.items) }
    ensures refused { IfErr result (IsUnqueued links.entry linked.entry) }
{
    let mut found = Vec::new(alloc);
    for architecture in architectures {
        let queues = queues_under(alloc, *architecture, links, linked)?;
        put_queues(alloc, linked.chart(), &mut found, queues)?;
    }
    Ok(found)
}
