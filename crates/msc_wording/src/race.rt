//! Races in words.

ghost use Rattle.std.specs.Prelude.{◌++◌, ◌≡◌, IfOk, codes, map};
ghost use Rattle.std.specs.String.{string_bytes};
ghost use Rattle.msc_wording.specs.Pairs.{help_text};
ghost use Rattle.msc_wording.specs.Races.{alike_sentence, are_alike, before_act_sentence};
ghost use Rattle.msc_wording.specs.Races.{both_from, early_reason, first_label};
ghost use Rattle.msc_wording.specs.Races.{one_sender_sentence, overtaken_reason, race_reason};
ghost use Rattle.msc_wording.specs.Races.{race_sentence, receives_text, second_label};
ghost use Rattle.msc_wording.specs.Races.{senders_sentence, shared_label, two_reason};
ghost use Rattle.msc_wording.specs.Races.{two_senders_sentence, verb};

use crate::event::{Act, does, name_at, peer, with_line};
use crate::pair::SpokenPair;
use crate::way::Way;
use msc_reason::RaceKind;
use std::alloc::{AllocError, Global};

/// A race: its second event can come before its first.
#[derive(Clone, Copy)]
pub struct SpokenRace<'t> {
    pub pair: SpokenPair<'t>,
    pub kind: RaceKind,
    /// Whether the second event comes first in each run.
    pub is_always: bool,
    /// How the messages of two inputs arrive. It is unused if the first event is no input.
    pub way: Way,
}

/// That an instance can receive a message, or always does.
fn verb(is_always: bool) -> &'static str
    ensures { result.now ≡ verb is_always }
{
    if is_always {
        "always receives"
    } else {
        "can receive"
    }
}

/// The order of two messages from one instance.
#[tactic(auto, unfolding(crate::specs::Races::both_from))]
fn both_from(alloc: Global, receives: &str, first: &str, sender: &str) -> Result<String, AllocError>
    ensures { IfOk result (λ text. string_bytes text
        ≡ both_from receives.now first.now sender.now) }
{
    format!(in alloc; "{receives} before {first}, both from {sender}")
}

impl SpokenRace<'_> {
    /// How each sentence begins.
    #[tactic(auto, unfolding(crate::specs::Races::receives_text))]
    fn receives(&self, alloc: Global, names: &[&str]) -> Result<String, AllocError>
        ensures { IfOk result (λ text. string_bytes text
            ≡ receives_text (map (λ name. name.now) names.now) self.now) }
    {
        let reader = name_at(names, self.pair.second.owner);
        let verb = verb(self.is_always);
        let second = self.pair.second_text(alloc)?;
        format!(in alloc; "{reader} {verb} {second}")
    }

    /// The sentence of a race whose first event is no input.
    fn before_act(&self, alloc: Global, names: &[&str]) -> Result<String, AllocError>
        ensures { IfOk result (λ text. string_bytes text
            ≡ before_act_sentence (map (λ name. name.now) names.now) self.now) }
    {
        let receives = self.receives(alloc, names)?;
        let sender = peer(names, &self.pair.second);
        let does = does(alloc, names, &self.pair.first)?;
        format!(in alloc; "{receives} from {sender} before it {does}")
    }

    /// The sentence of a race of two inputs from two instances.
    fn two_senders(&self, alloc: Global, names: &[&str]) -> Result<String, AllocError>
        ensures { IfOk result (λ text. string_bytes text
            ≡ two_senders_sentence (map (λ name. name.now) names.now) self.now) }
    {
        let receives = self.receives(alloc, names)?;
        let sender = peer(names, &self.pair.second);
        let first = self.pair.first.message;
        let other = peer(names, &self.pair.first);
        format!(in alloc; "{receives} from {sender} before {first} from {other}")
    }

    /// The sentence of a race of two inputs from one instance.
    fn one_sender(&self, alloc: Global, names: &[&str]) -> Result<String, AllocError>
        ensures { IfOk result (λ text. string_bytes text
            ≡ one_sender_sentence (map (λ name. name.now) names.now) self.now) }
    {
        let sender = peer(names, &self.pair.second);
        let receives = self.receives(alloc, names)?;
        both_from(alloc, receives.as_str(), self.pair.first.message, sender)
    }

    /// The sentence of a race of two inputs from one instance whose messages have one name.
    fn alike(&self, alloc: Global, names: &[&str]) -> Result<String, AllocError>
        ensures { IfOk result (λ text. string_bytes text
            ≡ alike_sentence (map (λ name. name.now) names.now) self.now) }
    {
        let sender = peer(names, &self.pair.second);
        let receives = self.receives(alloc, names)?;
        let second = with_line(alloc, receives.as_str(), self.pair.second.line)?;
        let first = with_line(alloc, self.pair.first.message, self.pair.first.line)?;
        both_from(alloc, second.as_str(), first.as_str(), sender)
    }

    /// Whether only their lines tell the two messages apart.
    fn are_alike(&self) -> bool
        ensures { result ≡ are_alike self.now }
    {
        self.pair.first.message == self.pair.second.message
            && self.pair.first.line != self.pair.second.line
    }

    /// The sentence of a race of two inputs.
    fn between_inputs(&self, alloc: Global, names: &[&str]) -> Result<String, AllocError>
        ensures { IfOk result (λ text. string_bytes text
            ≡ senders_sentence (map (λ name. name.now) names.now) self.now) }
    {
        if self.pair.first.peer != self.pair.second.peer {
            self.two_senders(alloc, names)
        } else if self.are_alike() {
            self.alike(alloc, names)
        } else {
            self.one_sender(alloc, names)
        }
    }

    /// What can happen, or always does, in a sentence without a full stop. Instances are named by
    /// `names`, by their numbers. The only error is want of memory.
    pub fn sentence(&self, alloc: Global, names: &[&str]) -> Result<String, AllocError>
        ensures { IfOk result (λ text. string_bytes text
            ≡ race_sentence (map (λ name. name.now) names.now) self.now self.now.pair.first.act) }
    {
        match self.pair.first.act {
            Act::Receives => self.between_inputs(alloc, names),
            _ => self.before_act(alloc, names),
        }
    }

    /// The label of the mark of the first event.
    pub fn first_label(&self) -> &'static str
        ensures { result.now ≡ first_label self.now.pair.is_next }
    {
        if self.pair.is_next {
            "drawn first, in one round"
        } else {
            "drawn first"
        }
    }

    /// The label of the mark of the second event.
    pub fn second_label(&self) -> &'static str
        ensures { result.now ≡ second_label self.now.is_always self.now.pair.is_next }
    {
        match (self.is_always, self.pair.is_next) {
            (false, false) => "can happen first",
            (false, true) => "can happen first, in the next round",
            (true, false) => "always happens first",
            (true, true) => "always happens first, in the next round",
        }
    }

    /// The label of the one mark of both events, if they are in one statement of the text.
    pub fn shared_label(&self) -> &'static str
        ensures { result.now ≡ shared_label self.now.is_always }
    {
        if self.is_always {
            "drawn first, but a later round always happens first"
        } else {
            "drawn first, but a later round can happen first"
        }
    }

    /// Why an input can come before what is drawn above it.
    fn early_reason(&self, alloc: Global, names: &[&str]) -> Result<String, AllocError>
        ensures { IfOk result (λ text. string_bytes text
            ≡ early_reason (map (λ name. name.now) names.now) self.now) }
    {
        if self.is_always {
            return String::from_str(alloc, "no run has the drawn order");
        }
        if self.pair.second.peer == self.pair.second.owner {
            return String::from_str(alloc, "nothing orders the two");
        }
        let sender = name_at(names, self.pair.second.peer);
        format!(in alloc; "nothing makes {sender} wait for that")
    }

    /// Why two inputs can come in the other order, if their outputs may come in any.
    fn unordered_reason(&self, alloc: Global, nothing: &str) -> Result<String, AllocError>
        ensures { IfOk result (λ text. string_bytes text ≡ two_reason self.now nothing.now) }
    {
        let way = self.way.text();
        if self.is_always {
            return format!(in alloc; "{way}, and no run has the drawn order");
        }
        format!(in alloc; "{way}, and {nothing}")
    }

    /// Why two inputs come in the other order, if their outputs do.
    fn overtaken_reason(&self, alloc: Global) -> Result<String, AllocError>
        ensures { IfOk result (λ text. string_bytes text ≡ overtaken_reason self.now) }
    {
        let way = self.way.text();
        let second = self.pair.second_text(alloc)?;
        format!(in alloc; "{way}, and {second} is sent first")
    }

    /// Why it is a race, as the text of a note. The only error is want of memory.
    pub fn reason(&self, alloc: Global, names: &[&str]) -> Result<String, AllocError>
        ensures { IfOk result (λ text. string_bytes text
            ≡ race_reason (map (λ name. name.now) names.now) self.now self.now.kind) }
    {
        match self.kind {
            RaceKind::Early => self.early_reason(alloc, names),
            RaceKind::Queues => self.unordered_reason(alloc, "nothing orders them"),
            RaceKind::Unordered => self.unordered_reason(alloc, "nothing orders the two sends"),
            RaceKind::Overtaken => self.overtaken_reason(alloc),
        }
    }

    /// Which order of two events would prevent the race, as the text of a help. Lines of the text
    /// that are `marked` are not repeated. The only error is want of memory.
    pub fn help(
        &self,
        alloc: Global,
        names: &[&str],
        marked: &[usize],
    ) -> Result<String, AllocError>
        ensures { IfOk result (λ text. string_bytes text ≡ codes "the order holds"
            ++ help_text (map (λ name. name.now) names.now) marked.now self.now.pair) }
    {
        let order = self.pair.help(alloc, names, marked)?;
        format!(in alloc; "the order holds{order}")
    }
}
