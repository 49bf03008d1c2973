//! The links of an architecture that are listed: those whose kind is not the usual one.
//!
//! They are in the order of their receivers, and then of their senders. If all links to a receiver
//! are of one kind, they are listed as one.

ghost use Rattle.std.specs.Prelude.{◌≡◌, ◌++◌, ◌<◌, ◌≤◌, IfOk, OnOk};
ghost use Rattle.msc_links.specs.declared.link.Link.TheVariants.{Between, To};
ghost use Rattle.msc_links.specs.Listed.{are_alike, links_below, links_to, listed_links};
ghost use Rattle.msc_links.specs.Listed.{receivers_below, unless_usual};
ghost use Rattle.msc_chart.specs.Architectures.{kind_of};

use crate::link::Link;
use crate::rule::same_kind;
use msc_chart::{INSTANCE_LIMIT, LinkKind, Queues};
use std::alloc::{AllocError, Global};

/// A link, or all links to a line, and its kind.
#[derive(Clone, Copy, Debug, PartialEq, Eq)]
pub struct ListedLink {
    /// The kind.
    pub kind: LinkKind,
    /// What is of this kind.
    pub link: Link,
}

/// Adds a link of this kind to a list, unless the kind is the usual one.
fn put_link(
    listed: &mut Vec<ListedLink>,
    queues: &Queues,
    kind: LinkKind,
    link: Link,
) -> Result<(), AllocError>
    ensures { OnOk result
        (listed.new.items ≡ listed.old.items ++ unless_usual queues.now kind link) }
{
    if same_kind(kind, queues.usual()) {
        return Ok(());
    }
    listed.push(ListedLink { kind, link })?;
    Ok(())
}

/// Adds the links to `r` from the first `count` instances to a list, one by one.
fn put_each_link(
    listed: &mut Vec<ListedLink>,
    queues: &Queues,
    r: u32,
    count: u32,
) -> Result<(), AllocError>
    requires receiver { r < INSTANCE_LIMIT }
    requires senders { count ≤ INSTANCE_LIMIT }
    ensures { OnOk result
        (listed.new.items ≡ listed.old.items ++ links_below queues.now r count) }
{
    for s in 0..count {
        let kind = queues.kind(s, r);
        put_link(listed, queues, kind, Link::Between(s as usize, r as usize))?;
    }
    Ok(())
}

/// Whether the links to `r` from the first `count` instances are of one kind. It takes no memory.
pub fn are_alike(queues: &Queues, r: u32, count: u32) -> bool
    requires receiver { r < INSTANCE_LIMIT }
    requires senders { count ≤ INSTANCE_LIMIT }
    ensures { result ≡ are_alike queues.now r count }
{
    let mut alike = true;
    for s in 0..count {
        alike = alike && same_kind(queues.kind(s, r), queues.kind(0, r));
    }
    alike
}

/// Adds the links to `r`, among the first `count` instances, to a list.
fn put_links_to(
    listed: &mut Vec<ListedLink>,
    queues: &Queues,
    r: u32,
    count: u32,
) -> Result<(), AllocError>
    requires receiver { r < INSTANCE_LIMIT }
    requires senders { count ≤ INSTANCE_LIMIT }
    ensures { OnOk result
        (listed.new.items ≡ listed.old.items ++ links_to queues.now count r) }
{
    if are_alike(queues, r, count) {
        return put_link(listed, queues, queues.kind(0, r), Link::To(r as usize));
    }
    put_each_link(listed, queues, r, count)
}

/// The links to each of the first `count` instances.
fn links_below(alloc: Global, queues: &Queues, count: u32) -> Result<Vec<ListedLink>, AllocError>
    requires { count ≤ INSTANCE_LIMIT }
    ensures { IfOk result (λ listed. listed.items ≡ receivers_below queues.now count count) }
{
    let mut listed = Vec::new(alloc);
    for r in 0..count {
        put_links_to(&mut listed, queues, r, count)?;
    }
    Ok(listed)
}

/// The links between the first `count` instances that are listed.
pub(crate) fn listed_links(
    alloc: Global,
    queues: &Queues,
    count: u32,
) -> Result<Vec<ListedLink>, AllocError>
    requires { count ≤ INSTANCE_LIMIT }
    ensures { IfOk result (λ listed. listed.items ≡ listed_links queues.now count) }
{
    match queues {
        Queues::Uniform(_) => Ok(Vec::new(alloc)),
        Queues::Mixed(_) => links_below(alloc, queues, count),
    }
}
