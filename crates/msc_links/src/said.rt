//! An architecture as one text: the word for its usual kind, and the links that are listed.
//!
//! An example is `single; pair A>C, B>C`, and as options of a command line
//! `--queues single --pair 'A>C' --pair 'B>C'`.

ghost use Rattle.std.specs.Prelude.{◌≡◌, ◌++◌, ◌≤◌, IfOk, MatchOption, OnOk, length, map};
ghost use Rattle.std.specs.List.{list_any};
ghost use Rattle.msc_links.specs.Said.{clause_text, clauses_text, link_option, link_text};
ghost use Rattle.msc_links.specs.Said.{links_of_kind, made_names, more_links, name_at, own_said};
ghost use Rattle.msc_links.specs.Said.{queue_options, queues_named, queues_said, quoted_link};
ghost use Rattle.msc_links.specs.Said.{options_text, ruled_links, with_rule, HasFault, SaysOwn};
ghost use Rattle.msc_links.specs.Links.{same_link};

use crate::comment::OwnQueues;
use crate::line::LineNames;
use crate::link::{Link, link_of, same_link};
use crate::listing::{ListedLink, listed_links};
use crate::rule::{Rule, same_kind, table_of};
use msc_chart::{Chart, INSTANCE_LIMIT, LinkKind, Queues};
use std::alloc::{AllocError, Global};

/// The name of a line, or none if there are fewer lines.
fn name_at<'n>(names: &[&'n [u8]], line: usize) -> &'n [u8]
    ensures { result.now ≡ name_at (map (λ name. name.now) names.now) line }
{
    match names.get(line) {
        Some(name) => name,
        None => &[],
    }
}

/// Appends LINK to a text.
fn print_link(text: &mut Vec<u8>, names: &[&[u8]], link: Link) -> Result<(), AllocError>
    ensures { OnOk result (text.new.items
        ≡ text.old.items ++ link_text (map (λ name. name.now) names.now) link) }
{
    match link {
        Link::To(receiver) => text.extend_from_slice(name_at(names, receiver)),
        Link::Between(sender, receiver) => {
            text.extend_from_slice(name_at(names, sender))?;
            text.extend_from_slice(b">")?;
            text.extend_from_slice(name_at(names, receiver))
        }
    }
}

/// The links of a kind among those that are listed.
fn links_of_kind(
    alloc: Global,
    kind: LinkKind,
    listed: &[ListedLink],
) -> Result<Vec<Link>, AllocError>
    ensures { IfOk result (λ links. links.items ≡ links_of_kind kind listed.now) }
{
    let mut links = Vec::new(alloc);
    for each in listed {
        if same_kind(each.kind, kind) {
            links.push(each.link)?;
        }
    }
    Ok(links)
}

/// Appends links to a text, a comma before each.
fn print_more_links(text: &mut Vec<u8>, names: &[&[u8]], links: &[Link]) -> Result<(), AllocError>
    ensures { OnOk result (text.new.items
        ≡ text.old.items ++ more_links (map (λ name. name.now) names.now) links.now) }
{
    for link in links {
        text.extend_from_slice(b", ")?;
        print_link(text, names, *link)?;
    }
    Ok(())
}

/// Appends the clause of links of a kind to a text, if there are any.
fn print_clause(
    text: &mut Vec<u8>,
    names: &[&[u8]],
    kind: LinkKind,
    links: &[Link],
) -> Result<(), AllocError>
    ensures { OnOk result (text.new.items
        ≡ text.old.items ++ clause_text (map (λ name. name.now) names.now) kind links.now) }
{
    let [first, others @ ..] = links else {
        return Ok(());
    };
    text.extend_from_slice(b"; ")?;
    text.extend_from_slice(kind.word().as_bytes())?;
    text.extend_from_slice(b" ")?;
    print_link(text, names, *first)?;
    print_more_links(text, names, others)
}

/// Appends the clause of the listed links of a kind to a text, if there are any.
fn print_kind(
    text: &mut Vec<u8>,
    alloc: Global,
    names: &[&[u8]],
    kind: LinkKind,
    listed: &[ListedLink],
) -> Result<(), AllocError>
    ensures { OnOk result (text.new.items
        ≡ text.old.items ++ clause_text (map (λ name. name.now) names.now) kind
        (links_of_kind kind listed.now)) }
{
    let links = links_of_kind(alloc, kind, listed)?;
    print_clause(text, names, kind, links.as_slice())
}

/// Appends the clauses of listed links to a text, by their kinds.
fn print_clauses(
    text: &mut Vec<u8>,
    alloc: Global,
    names: &[&[u8]],
    listed: &[ListedLink],
) -> Result<(), AllocError>
    ensures { OnOk result (text.new.items
        ≡ text.old.items ++ clauses_text (map (λ name. name.now) names.now) listed.now) }
{
    print_kind(text, alloc, names, LinkKind::Pair, listed)?;
    print_kind(text, alloc, names, LinkKind::Mailbox, listed)?;
    print_kind(text, alloc, names, LinkKind::Single, listed)
}

/// The names of a chart's instances.
fn instance_names<'c>(alloc: Global, chart: &'c Chart) -> Result<Vec<&'c [u8]>, AllocError>
    ensures { IfOk result (λ names.
        map (λ name. name.now) names.items ≡ chart.entry.now.instances) }
{
    let mut names = Vec::new(alloc);
    for i in 0..chart.instances() {
        names.push(chart.instance_name(i))?;
    }
    Ok(names)
}

/// Appends an architecture between the instances of a chart to a text, with these names for the
/// instances: the word for its usual kind, and for each kind the links of this kind that are listed.
/// Those are the links whose kind is not the usual one, by their receivers and then their senders;
/// a receiver stands for all links to it if these are of one kind. An instance without a name gets
/// an empty one. An error is a growth of memory that was refused.
pub fn print_queues_named(
    text: &mut Vec<u8>,
    alloc: Global,
    chart: &Chart,
    names: &[&[u8]],
    queues: &Queues,
) -> Result<(), AllocError>
    ensures { OnOk result (text.new.items ≡ text.old.items
        ++ queues_named (map (λ name. name.now) names.now) (length chart.now.instances) queues.now) }
{
    let listed = listed_links(alloc, queues, chart.instances())?;
    text.extend_from_slice(queues.word().as_bytes())?;
    print_clauses(text, alloc, names, listed.as_slice())?;
    Ok(())
}

/// Appends an architecture to a text, as [`print_queues_named`] does, with the names of a chart's
/// instances. An error is a growth of memory that was refused.
#[tactic(auto, unfolding(crate::specs::Said::queues_said))]
pub fn print_queues(
    text: &mut Vec<u8>,
    alloc: Global,
    chart: &Chart,
    queues: &Queues,
) -> Result<(), AllocError>
    ensures { OnOk result
        (text.new.items ≡ text.old.items ++ queues_said chart.now queues.now) }
{
    let names = instance_names(alloc, chart)?;
    print_queues_named(text, alloc, chart, names.as_slice(), queues)
}

/// Appends LINK to a text, in quotes if a shell needs them.
fn print_quoted_link(text: &mut Vec<u8>, names: &[&[u8]], link: Link) -> Result<(), AllocError>
    ensures { OnOk result (text.new.items
        ≡ text.old.items ++ quoted_link (map (λ name. name.now) names.now) link) }
{
    match link {
        Link::To(_) => print_link(text, names, link),
        Link::Between(_, _) => {
            text.extend_from_slice(b"'")?;
            print_link(text, names, link)?;
            text.extend_from_slice(b"'")
        }
    }
}

/// Appends the option that gives a link its kind to a text.
fn print_link_option(
    text: &mut Vec<u8>,
    names: &[&[u8]],
    listed: ListedLink,
) -> Result<(), AllocError>
    ensures { OnOk result (text.new.items
        ≡ text.old.items ++ link_option (map (λ name. name.now) names.now) listed) }
{
    text.extend_from_slice(b" --")?;
    text.extend_from_slice(listed.kind.word().as_bytes())?;
    text.extend_from_slice(b" ")?;
    print_quoted_link(text, names, listed.link)
}

/// Appends the options that give listed links their kinds to a text.
fn print_link_options(
    text: &mut Vec<u8>,
    names: &[&[u8]],
    listed: &[ListedLink],
) -> Result<(), AllocError>
    ensures { OnOk result (text.new.items
        ≡ text.old.items ++ options_text (map (λ name. name.now) names.now) listed.now) }
{
    for each in listed {
        print_link_option(text, names, *each)?;
    }
    Ok(())
}

/// Appends the options that give an architecture on a command line to a text: its usual kind, and
/// an option for each link that is listed, in the order of [`print_queues`] without regard to
/// kinds. An error is a growth of memory that was refused.
pub fn print_queue_options(
    text: &mut Vec<u8>,
    alloc: Global,
    chart: &Chart,
    queues: &Queues,
) -> Result<(), AllocError>
    ensures { OnOk result
        (text.new.items ≡ text.old.items ++ queue_options chart.now queues.now) }
{
    let names = instance_names(alloc, chart)?;
    let listed = listed_links(alloc, queues, chart.instances())?;
    text.extend_from_slice(b"--queues ")?;
    text.extend_from_slice(queues.word().as_bytes())?;
    print_link_options(text, names.as_slice(), listed.as_slice())?;
    Ok(())
}

/// Whether the link is listed.
fn is_listed(listed: &[ListedLink], link: Link) -> bool
    ensures { result ≡ list_any (λ each. same_link each.link link) listed.now }
{
    listed.iter().any(|each| same_link(each.link, link))
}

/// Adds the link of a rule to a list, unless it is there.
fn put_rule(
    listed: &mut Vec<ListedLink>,
    names: &[LineNames<'_>],
    rule: &Rule<'_>,
) -> Result<(), AllocError>
    requires { length names.now ≤ INSTANCE_LIMIT }
    ensures { OnOk result (listed.new.items ≡ with_rule names.now listed.old.items rule.now) }
{
    let Ok(link) = link_of(names, rule.link) else {
        return Ok(());
    };
    if is_listed(listed.as_slice(), link) {
        return Ok(());
    }
    let kind = rule.kind;
    listed.push(ListedLink { kind, link })?;
    Ok(())
}

/// The links that rules name, each once, in the order of the rules.
fn ruled_links(
    alloc: Global,
    names: &[LineNames<'_>],
    rules: &[Rule<'_>],
) -> Result<Vec<ListedLink>, AllocError>
    requires { length names.now ≤ INSTANCE_LIMIT }
    ensures { IfOk result (λ listed. listed.items ≡ ruled_links names.now rules.now) }
{
    let mut listed = Vec::new(alloc);
    for rule in rules {
        put_rule(&mut listed, names, rule)?;
    }
    Ok(listed)
}

/// The names that were made for lines.
fn made_names<'n>(alloc: Global, names: &[LineNames<'n>]) -> Result<Vec<&'n [u8]>, AllocError>
    ensures { IfOk result (λ made. map (λ name. name.now) made.items ≡ made_names names.now) }
{
    let mut made = Vec::new(alloc);
    for line in names {
        made.push(line.made)?;
    }
    Ok(made)
}

/// The text of rules without a fault.
#[tactic(auto, unfolding(crate::specs::Said::own_said))]
fn faultless_said(
    alloc: Global,
    own: &OwnQueues<'_>,
    names: &[LineNames<'_>],
) -> Result<Vec<u8>, AllocError>
    requires { length names.now ≤ INSTANCE_LIMIT }
    ensures { IfOk result (λ text. text.items ≡ own_said names.now own.now) }
{
    let made = made_names(alloc, names)?;
    let listed = ruled_links(alloc, names, own.rules.as_slice())?;
    let mut text = Vec::from_slice(alloc, b"queues ")?;
    text.extend_from_slice(own.usual.word().as_bytes())?;
    print_clauses(&mut text, alloc, made.as_slice(), listed.as_slice())?;
    Ok(text)
}

/// The rules that a text names itself, as a comment with the names that were made for its lines:
/// `queues ARCH`, and for each kind the links of its rules, each link once and in the order of the
/// rules. It has no `serves`. There is none if and only if a rule has a fault. An error is a growth
/// of memory that was refused.
pub fn own_said(
    alloc: Global,
    own: &OwnQueues<'_>,
    names: &[LineNames<'_>],
) -> Result<Option<Vec<u8>>, AllocError>
    requires { length names.now ≤ INSTANCE_LIMIT }
    ensures { IfOk result (λ said. MatchOption said (HasFault names.now own.now.rules.items)
        (λ text. SaysOwn names.now own.now text.items)) }
{
    match table_of(names, own.rules.as_slice()) {
        Ok(_) => Ok(Some(faultless_said(alloc, own, names)?)),
        Err(_) => Ok(None),
    }
}
