//! Instances that can block, in words.

ghost use Rattle.std.specs.Prelude.{◌++◌, ◌≡◌, IfOk, codes, map};
ghost use Rattle.std.specs.String.{string_bytes};
ghost use Rattle.msc_wording.specs.Blocked.{ahead_label, ahead_text, blocked_sentence, blocks_text};
ghost use Rattle.msc_wording.specs.Blocked.{waits_text};
ghost use Rattle.msc_wording.specs.Pairs.{help_text};

use crate::event::{name_at, peer};
use crate::pair::SpokenPair;
use std::alloc::{AllocError, Global};

/// Two inputs of one instance: it waits for the first, and can block since the message of the
/// second is ahead in their queue.
#[derive(Clone, Copy)]
pub struct SpokenBlockedPair<'t> {
    pub pair: SpokenPair<'t>,
    /// Whether their queue is a mailbox. Else it is that of a connection.
    pub in_mailbox: bool,
}

/// What an instance waits for.
#[tactic(auto, unfolding(crate::specs::Blocked::waits_text))]
fn waits(alloc: Global, reader: &str, message: &str, sender: &str) -> Result<String, AllocError>
    ensures { IfOk result (λ text. string_bytes text
        ≡ waits_text reader.now message.now sender.now) }
{
    format!(in alloc; "{reader} can block: it waits for {message} from {sender}")
}

impl SpokenBlockedPair<'_> {
    /// Where the message of the second input is.
    #[tactic(auto, unfolding(crate::specs::Blocked::ahead_text))]
    fn ahead(&self, alloc: Global, names: &[&str]) -> Result<String, AllocError>
        ensures { IfOk result (λ text. string_bytes text
            ≡ ahead_text (map (λ name. name.now) names.now) self.now) }
    {
        let sender = peer(names, &self.pair.second);
        let second = self.pair.second_text(alloc)?;
        if self.in_mailbox {
            format!(in alloc; "{second} from {sender} is first in its mailbox")
        } else {
            format!(in alloc; "{second} is ahead of it in their connection")
        }
    }

    /// That the instance can block, and why, in a sentence without a full stop. Instances are named
    /// by `names`, by their numbers. The only error is want of memory.
    pub fn sentence(&self, alloc: Global, names: &[&str]) -> Result<String, AllocError>
        ensures { IfOk result (λ text. string_bytes text
            ≡ blocked_sentence (map (λ name. name.now) names.now) self.now) }
    {
        let reader = name_at(names, self.pair.second.owner);
        let sender = peer(names, &self.pair.first);
        let waits = waits(alloc, reader, self.pair.first.message, sender)?;
        let ahead = self.ahead(alloc, names)?;
        format!(in alloc; "{waits}, and {ahead}")
    }

    /// The label of the mark of the first event.
    pub fn first_label(&self) -> &'static str
        ensures { result.now ≡ codes "waits for this" }
    {
        "waits for this"
    }

    /// The label of the mark of the second event.
    pub fn second_label(&self) -> &'static str
        ensures { result.now ≡ ahead_label self.now.in_mailbox }
    {
        if self.in_mailbox {
            "first in its mailbox"
        } else {
            "ahead of it"
        }
    }

    /// Which order of two events would prevent it, as the text of a help. Lines of the text that
    /// are `marked` are not repeated. The only error is want of memory.
    pub fn help(
        &self,
        alloc: Global,
        names: &[&str],
        marked: &[usize],
    ) -> Result<String, AllocError>
        ensures { IfOk result (λ text. string_bytes text ≡ codes "it cannot block here"
            ++ help_text (map (λ name. name.now) names.now) marked.now self.now.pair) }
    {
        let order = self.pair.help(alloc, names, marked)?;
        format!(in alloc; "it cannot block here{order}")
    }
}

/// That an instance blocks at an earlier line in each run, as the text of a note. The only error is
/// want of memory.
pub fn blocks_before(
    alloc: Global,
    names: &[&str],
    instance: usize,
    line: usize,
) -> Result<String, AllocError>
    ensures { IfOk result (λ text. string_bytes text
        ≡ blocks_text (map (λ name. name.now) names.now) instance line) }
{
    let name = name_at(names, instance);
    format!(in alloc; "{name} blocks at line {line} before that")
}
