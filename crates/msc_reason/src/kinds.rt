//! Sets of kinds of races.

ghost use Rattle.std.specs.Prelude.{◌≡◌};
ghost use Rattle.msc_reason.specs.Kinds.{has_kind, is_empty};

use crate::cause::RaceKind;

/// A set of kinds of races.
#[derive(Clone, Copy, Debug, PartialEq, Eq)]
pub struct KindSet {
    /// Whether it has [`RaceKind::Early`].
    pub early: bool,
    /// Whether it has [`RaceKind::Queues`].
    pub queues: bool,
    /// Whether it has [`RaceKind::Unordered`].
    pub unordered: bool,
    /// Whether it has [`RaceKind::Overtaken`].
    pub overtaken: bool,
}

impl KindSet {
    /// The set without a kind.
    pub const NONE: KindSet = KindSet {
        early: false,
        queues: false,
        unordered: false,
        overtaken: false,
    };

    /// Whether the set has a kind.
    pub fn has(self, kind: RaceKind) -> bool
        ensures { result ≡ has_kind self kind }
    {
        match kind {
            RaceKind::Early => self.early,
            RaceKind::Queues => self.queues,
            RaceKind::Unordered => self.unordered,
            RaceKind::Overtaken => self.overtaken,
        }
    }

    /// Whether the set has no kind.
    pub fn is_empty(self) -> bool
        ensures { result ≡ is_empty self }
    {
        !(self.early || self.queues || self.unordered || self.overtaken)
    }
}
