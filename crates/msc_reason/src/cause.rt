//! The pair of events that a race lacks, and the kinds of races with their words.

ghost use Rattle.std.specs.Prelude.{◌≡◌};
ghost use Rattle.msc_reason.specs.Causes.{kind_of_word, kind_word};

use msc_chart::Event;

/// The kind of a race: why its second event, an input, can come before its first.
#[derive(Clone, Copy, Debug, PartialEq, Eq)]
pub enum RaceKind {
    /// An output or a local event, then an input: the input can come before what is drawn above it.
    Early,
    /// Two inputs of two queues, in whichever order their outputs come.
    Queues,
    /// Two inputs of one queue: nothing orders their outputs.
    Unordered,
    /// Two inputs of one queue whose outputs come in the other order.
    Overtaken,
}

impl RaceKind {
    /// Each kind once.
    pub const ALL: [RaceKind; 4] = [
        RaceKind::Early,
        RaceKind::Queues,
        RaceKind::Unordered,
        RaceKind::Overtaken,
    ];

    /// The word for the kind.
    pub fn word(self) -> &'static str
        ensures { result.now ≡ kind_word self }
    {
        match self {
            RaceKind::Early => "early",
            RaceKind::Queues => "queues",
            RaceKind::Unordered => "unordered",
            RaceKind::Overtaken => "overtaken",
        }
    }

    /// The kind with this word, in small letters.
    pub fn of(word: &str) -> Option<RaceKind>
        ensures { result ≡ kind_of_word word.now }
    {
        for kind in RaceKind::ALL {
            if word == kind.word() {
                return Some(kind);
            }
        }
        None
    }
}

/// The pair of events that a race lacks: if `needed` were enforced before `output`, it would be no
/// race.
#[derive(Clone, Copy)]
pub struct Cause {
    /// The kind of the race.
    pub kind: RaceKind,
    /// The event that would have to come first: the output of the race's first event if both events
    /// are inputs of one queue, otherwise the first event itself.
    pub needed: Event,
    /// The output of the race's second event.
    pub output: Event,
    /// Whether every run that has the first event has the second before it.
    pub always: bool,
}
