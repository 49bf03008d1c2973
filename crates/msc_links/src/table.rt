//! Tables of kinds.

ghost use Rattle.std.specs.Prelude.{◌≡◌, None};
ghost use Rattle.msc_links.specs.declared.link.Link.{Link};
ghost use Rattle.msc_links.specs.Links.{IsWithin};
ghost use Rattle.msc_links.specs.Tables.{HasPut, kind_at, place_of};

use crate::link::Link;
use msc_chart::{INSTANCE_LIMIT, LinkKind};

/// The number of lines that a chart may have.
const LINES: usize = INSTANCE_LIMIT as usize;

/// The places of a table: for all links to each line, and for each link.
const PLACES: usize = LINES + LINES * LINES;

/// The kinds that rules give, for each link and for all links to each line.
#[derive(Drop)]
pub(crate) struct KindTable {
    kinds: [Option<LinkKind>; PLACES],
}

/// The place of a link.
fn place_of(link: Link) -> usize
    requires { IsWithin link }
    ensures { result ≡ place_of link }
{
    match link {
        Link::To(receiver) => receiver,
        Link::Between(sender, receiver) => (sender + 1) * LINES + receiver,
    }
}

impl KindTable {
    /// No link has a kind.
    pub(crate) fn empty() -> KindTable
        ensures { (link : Link) → IsWithin link → kind_at result link ≡ None }
    {
        KindTable {
            kinds: [None; PLACES],
        }
    }

    /// The kind of a link, if it has one.
    pub(crate) fn kind(&self, link: Link) -> Option<LinkKind>
        requires { IsWithin link }
        ensures { result ≡ kind_at self.now link }
    {
        self.kinds[place_of(link)]
    }

    /// Gives a link a kind.
    pub(crate) fn put(&mut self, link: Link, kind: LinkKind)
        requires { IsWithin link }
        ensures { HasPut self.old self.new link kind }
    {
        self.kinds[place_of(link)] = Some(kind);
    }
}
