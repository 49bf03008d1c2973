//! How two messages arrive.

ghost use Rattle.std.specs.Prelude.{◌≡◌};
ghost use Rattle.msc_wording.specs.Ways.{way_of, way_text};

use msc_chart::LinkKind;

/// How two messages arrive.
#[derive(Clone, Copy, Debug, PartialEq, Eq)]
pub enum Way {
    /// In one queue, of a connection.
    OneConnection,
    /// In one queue, a mailbox.
    OneMailbox,
    /// In two queues, both of connections.
    TwoConnections,
    /// In two queues of any other kind.
    TwoQueues,
    /// Each in a queue of its own, as the same message of two rounds too.
    ByThemselves,
}

impl Way {
    /// How two messages arrive over links of these kinds, if their queues have one name or not. A
    /// queue of a single message is another one in the next round.
    pub fn of(first: LinkKind, second: LinkKind, in_one_queue: bool) -> Way
        ensures { result ≡ way_of first second in_one_queue }
    {
        match (first, second, in_one_queue) {
            (LinkKind::Mailbox, _, true) => Way::OneMailbox,
            (LinkKind::Pair, _, true) => Way::OneConnection,
            (LinkKind::Single, _, true) => Way::ByThemselves,
            (LinkKind::Pair, LinkKind::Pair, false) => Way::TwoConnections,
            (LinkKind::Single, LinkKind::Single, false) => Way::ByThemselves,
            (_, _, false) => Way::TwoQueues,
        }
    }

    /// The way in words.
    pub(crate) fn text(self) -> &'static str
        ensures { result.now ≡ way_text self }
    {
        match self {
            Way::OneConnection => "they come over one connection",
            Way::OneMailbox => "they come through one mailbox",
            Way::TwoConnections => "they come over two connections",
            Way::TwoQueues => "they come through two queues",
            Way::ByThemselves => "each travels by itself",
        }
    }
}
