//! What a check of instances that are ready found, in words.

ghost use Rattle.std.specs.Prelude.{◌++◌, ◌≡◌, IfOk, None, OnOk, Some};
ghost use Rattle.std.specs.String.{string_bytes};
ghost use Rattle.msc_wording.specs.Checking.{in_rounds};
ghost use Rattle.msc_wording.specs.Numbers.{counted};
ghost use Rattle.msc_wording.specs.Readying.{between_text, finishing_part, left_part};
ghost use Rattle.msc_wording.specs.Readying.{ready_verdict, ways_found, ways_text};

use crate::checking::in_rounds;
use crate::number::counted;
use std::alloc::{AllocError, Global};

/// What a check of instances that are ready found.
#[derive(Clone, Copy)]
pub struct SpokenReadiness {
    /// The number of pairs that can block.
    pub blocked: usize,
    /// The number of those between two rounds, if two rounds were checked.
    pub between: Option<usize>,
    /// Whether some run finishes.
    pub finishes: bool,
    /// The number of races that are left, if only some instances are ready and none can block.
    pub left: Option<usize>,
}

/// In how many ways instances can block.
#[tactic(auto, unfolding(crate::specs::Readying::ways_text))]
fn ways(alloc: Global, blocked: usize) -> Result<String, AllocError>
    ensures { IfOk result (λ text. string_bytes text ≡ ways_text blocked) }
{
    if blocked == 0 {
        return String::from_str(alloc, "no instance can block");
    }
    counted(alloc, blocked, "way to block", "ways to block")
}

/// In how many ways instances can block between two rounds.
#[tactic(auto, unfolding(crate::specs::Readying::between_text))]
fn between(alloc: Global, blocked: usize) -> Result<String, AllocError>
    ensures { IfOk result (λ text. string_bytes text ≡ between_text blocked) }
{
    if blocked == 0 {
        return String::from_str(alloc, "none");
    }
    counted(alloc, blocked, "way", "ways")
}

/// Appends how many races are left, if that was checked.
#[tactic(auto, unfolding(crate::specs::Readying::left_part))]
fn print_left(text: &mut String, alloc: Global, left: Option<usize>) -> Result<(), AllocError>
    ensures { OnOk result (string_bytes text.new ≡ string_bytes text.old ++ left_part left) }
{
    match left {
        Some(left) => {
            let races = counted(alloc, left, "race left", "races left")?;
            write!(text, ", {races}")
        }
        None => Ok(()),
    }
}

impl SpokenReadiness {
    /// In how many ways instances can block, in a round and between two rounds.
    fn found(&self, alloc: Global) -> Result<String, AllocError>
        ensures { IfOk result (λ text. string_bytes text
            ≡ ways_found self.now.blocked self.now.between) }
    {
        let ways = ways(alloc, self.blocked)?;
        match self.between {
            Some(blocked) => {
                let between = between(alloc, blocked)?;
                in_rounds(alloc, ways.as_str(), between.as_str())
            }
            None => Ok(ways),
        }
    }

    /// Appends that no run finishes, if instances block in each.
    #[tactic(auto, unfolding(crate::specs::Readying::finishing_part))]
    fn print_finishing(&self, text: &mut String) -> Result<(), AllocError>
        ensures { OnOk result
            (string_bytes text.new ≡ string_bytes text.old ++ finishing_part self.now) }
    {
        if self.blocked > 0 && !self.finishes {
            text.push_str(", no run finishes")?;
        }
        Ok(())
    }

    /// What was found, without the queues. The only error is want of memory.
    pub fn verdict(&self, alloc: Global) -> Result<String, AllocError>
        ensures { IfOk result (λ text. string_bytes text ≡ ready_verdict self.now) }
    {
        let mut text = self.found(alloc)?;
        self.print_finishing(&mut text)?;
        print_left(&mut text, alloc, self.left)?;
        Ok(text)
    }
}
