//! Links by numbers of lines.

ghost use Rattle.std.specs.Prelude.{◌≡◌, ◌≤◌, IfOk, length};
ghost use Rattle.std.specs.Result.{result_map_both};
ghost use Rattle.msc_links.specs.Links.{IsWithin, fault_text, known, link_between, link_of, link_to};
ghost use Rattle.msc_links.specs.Links.{same_link};

use crate::blank::trimmed;
use crate::fault::LinkFault;
use crate::line::{LineNames, known};
use crate::spelling::{LinkNames, spelled};
use msc_chart::INSTANCE_LIMIT;

/// What a rule is for, by the numbers of lines.
#[derive(Clone, Copy, Debug, PartialEq, Eq)]
pub enum Link {
    /// All links to a line.
    To(usize),
    /// The link from the first line to the second.
    Between(usize, usize),
}

/// Whether two links are the same.
pub(crate) fn same_link(one: Link, other: Link) -> bool
    ensures { result ≡ same_link one other }
{
    match (one, other) {
        (Link::To(receiver), Link::To(same)) => receiver == same,
        (Link::Between(sender, receiver), Link::Between(from, to)) => {
            sender == from && receiver == to
        }
        (Link::To(_), Link::Between(_, _)) | (Link::Between(_, _), Link::To(_)) => false,
    }
}

/// All links to the line with a name.
fn link_to<'w>(names: &[LineNames<'_>], receiver: &'w [u8]) -> Result<Link, LinkFault<'w>>
    requires { length names.now ≤ INSTANCE_LIMIT }
    ensures link { result_map_both (λ l. l) fault_text result
        ≡ link_to (known names.now receiver.now) }
    ensures within { IfOk result IsWithin }
{
    match known(names, receiver) {
        Ok(receiver) => Ok(Link::To(receiver)),
        Err(fault) => Err(fault),
    }
}

/// The link between the lines with two names.
fn link_between<'w>(
    names: &[LineNames<'_>],
    sender: &'w [u8],
    receiver: &'w [u8],
) -> Result<Link, LinkFault<'w>>
    requires { length names.now ≤ INSTANCE_LIMIT }
    ensures link { result_map_both (λ l. l) fault_text result
        ≡ link_between (known names.now sender.now) (known names.now receiver.now) }
    ensures within { IfOk result IsWithin }
{
    let sender = match known(names, sender) {
        Ok(sender) => sender,
        Err(fault) => return Err(fault),
    };
    match known(names, receiver) {
        Ok(receiver) => Ok(Link::Between(sender, receiver)),
        Err(fault) => Err(fault),
    }
}

/// The link that LINK means, or what is wrong with LINK.
pub(crate) fn link_of<'w>(names: &[LineNames<'_>], link: &'w [u8]) -> Result<Link, LinkFault<'w>>
    requires { length names.now ≤ INSTANCE_LIMIT }
    ensures link { result_map_both (λ l. l) fault_text result ≡ link_of names.now link.now }
    ensures within { IfOk result IsWithin }
{
    match spelled(link) {
        None => Err(LinkFault::NoLink(trimmed(link))),
        Some(LinkNames::To(receiver)) => link_to(names, receiver),
        Some(LinkNames::Between(sender, receiver)) => link_between(names, sender, receiver),
    }
}
