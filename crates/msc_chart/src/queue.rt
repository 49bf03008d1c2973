//! Architectures: which messages share a queue, and the words for them.
//!
//! A link is an ordered pair of instances, a sender and a receiver. An architecture gives each link
//! a kind: one kind for all, or a kind for each. Links are numbered by rows of senders, so a set of
//! links is a row of bits; an architecture is small, and copied where it is used.

ghost use Rattle.std.specs.Prelude.{◌≡◌, ◌<◌};
ghost use Rattle.msc_chart.specs.Architectures.{kind_of, link_kind_of_word, link_word, link_kind};
ghost use Rattle.msc_chart.specs.Architectures.{queues_word, usual_of, AreAllOfKind, HasGiven};

use crate::INSTANCE_LIMIT;
use bit_rows::row;

/// The messages with which those of a link share a queue.
#[derive(Clone, Copy, Debug, PartialEq, Eq)]
pub enum LinkKind {
    /// The messages of the link have a queue, which no other message uses.
    Pair,
    /// They share the mailbox of the receiver with those of all other links of this kind to it.
    Mailbox,
    /// Each message has a queue of its own, so that none waits for another.
    Single,
}

impl LinkKind {
    /// Each kind once.
    pub const ALL: [LinkKind; 3] = [LinkKind::Pair, LinkKind::Mailbox, LinkKind::Single];

    /// The word for the kind.
    pub fn word(self) -> &'static str
        ensures { result.now ≡ link_word self }
    {
        match self {
            LinkKind::Pair => "pair",
            LinkKind::Mailbox => "mailbox",
            LinkKind::Single => "single",
        }
    }

    /// The kind with this word, in small letters.
    pub fn of(word: &str) -> Option<LinkKind>
        ensures { result ≡ link_kind_of_word word.now }
    {
        for kind in LinkKind::ALL {
            if word == kind.word() {
                return Some(kind);
            }
        }
        None
    }
}

/// The words of a set of links.
const LINK_WORDS: usize = 16;

/// The set of all links.
const ALL_LINKS: [u64; LINK_WORDS] = [u64::MAX; LINK_WORDS];

/// The set of no link.
const NO_LINKS: [u64; LINK_WORDS] = [0; LINK_WORDS];

/// A kind for each link, and the kind of those that no rule names.
#[derive(Clone, Copy, Debug)]
pub struct Links {
    usual: LinkKind,
    /// The links of the kind `Pair`.
    pairs: [u64; LINK_WORDS],
    /// The links of the kind `Mailbox`. All others are of the kind `Single`.
    mailboxes: [u64; LINK_WORDS],
}

impl Links {
    /// All links have this kind.
    pub fn all(kind: LinkKind) -> Links
        ensures usual { result.usual ≡ kind }
        ensures kinds { AreAllOfKind result kind }
    {
        match kind {
            LinkKind::Pair => Links {
                usual: kind,
                pairs: ALL_LINKS,
                mailboxes: NO_LINKS,
            },
            LinkKind::Mailbox => Links {
                usual: kind,
                pairs: NO_LINKS,
                mailboxes: ALL_LINKS,
            },
            LinkKind::Single => Links {
                usual: kind,
                pairs: NO_LINKS,
                mailboxes: NO_LINKS,
            },
        }
    }

    /// Gives the link from a sender to a receiver a kind.
    pub fn give(&mut self, sender: u32, receiver: u32, kind: LinkKind)
        requires sender { sender < INSTANCE_LIMIT }
        requires receiver { receiver < INSTANCE_LIMIT }
        ensures usual { self.new.usual ≡ self.old.usual }
        ensures kinds { HasGiven self.old self.new sender receiver kind }
    {
        let link = sender * INSTANCE_LIMIT + receiver;
        row::clear(&mut self.pairs, link);
        row::clear(&mut self.mailboxes, link);
        match kind {
            LinkKind::Pair => row::put(&mut self.pairs, link),
            LinkKind::Mailbox => row::put(&mut self.mailboxes, link),
            LinkKind::Single => {}
        }
    }

    /// The kind of the link from a sender to a receiver.
    pub(crate) fn kind(&self, sender: u32, receiver: u32) -> LinkKind
        requires sender { sender < INSTANCE_LIMIT }
        requires receiver { receiver < INSTANCE_LIMIT }
        ensures { result ≡ link_kind self.now sender receiver }
    {
        let link = sender * INSTANCE_LIMIT + receiver;
        if row::has(&self.pairs, link) {
            LinkKind::Pair
        } else if row::has(&self.mailboxes, link) {
            LinkKind::Mailbox
        } else {
            LinkKind::Single
        }
    }
}

/// The architecture of the queues between the instances: a kind for each link.
#[derive(Clone, Copy, Debug)]
pub enum Queues {
    /// All links have this kind.
    Uniform(LinkKind),
    /// Links may differ.
    Mixed(Links),
}

impl Queues {
    /// Each link has a queue.
    pub const PAIR: Queues = Queues::Uniform(LinkKind::Pair);

    /// Each receiver has a mailbox.
    pub const MAILBOX: Queues = Queues::Uniform(LinkKind::Mailbox);

    /// Each message has a queue.
    pub const SINGLE: Queues = Queues::Uniform(LinkKind::Single);

    /// The kind of the links that no rule names.
    pub fn usual(&self) -> LinkKind
        ensures { result ≡ usual_of self.now }
    {
        match self {
            Queues::Uniform(kind) => *kind,
            Queues::Mixed(links) => links.usual,
        }
    }

    /// The kind of the link from a sender to a receiver, by their numbers.
    pub fn kind(&self, sender: u32, receiver: u32) -> LinkKind
        requires sender { sender < INSTANCE_LIMIT }
        requires receiver { receiver < INSTANCE_LIMIT }
        ensures { result ≡ kind_of self.now sender receiver }
    {
        match self {
            Queues::Uniform(kind) => *kind,
            Queues::Mixed(links) => links.kind(sender, receiver),
        }
    }

    /// The word for the kind of the links that no rule names.
    pub fn word(&self) -> &'static str
        ensures { result.now ≡ queues_word self.now }
    {
        self.usual().word()
    }
}
