//! Laws of choices, over the definitions only. The functions do nothing when they run: a caller
//! that needs a law calls its function.

ghost use Rattle.msc_scenarios.specs.Laws.{AsManyAsCounted, EachIsWhole, EachOnceInOrder};
ghost use Rattle.msc_scenarios.specs.Laws.{EachPathOnce, JustWhatIsMet, NoBlocksOneScenario};
ghost use Rattle.msc_scenarios.specs.Laws.{NoneIsMissing, NothingElseIsMet};
ghost use Rattle.msc_scenarios.specs.Outside.{OutsideOfAllBlocks};

/// There are as many lists of choices as counted.
pub fn as_many_as_counted()
    ensures { AsManyAsCounted }
{}

/// Each of the lists of choices is that of a whole scenario: a walk takes exactly these choices.
pub fn each_is_whole()
    ensures { EachIsWhole }
{}

/// The lists of choices are in their order, and each occurs once.
pub fn each_once_in_order()
    ensures { EachOnceInOrder }
{}

/// Whatever numbers of rounds loops go, the lists of choices are those of the histories of the
/// diagram, each once: none is missing, and there is no other.
pub fn each_path_once()
    ensures { EachPathOnce }
{}

/// The choices of a walk without a fault are one of the lists of choices, if these have each number
/// of rounds that a loop may go.
pub fn none_is_missing()
    ensures { NoneIsMissing }
{}

/// A diagram without a block or an arrow that may take a choice has one scenario, with no choice.
pub fn no_blocks_one_scenario()
    ensures { NoBlocksOneScenario }
{}

/// A path has exactly the arrows that its choices meet, in their order and in their rounds: the
/// steps of a walk are those of the history with the same choices, and each walk without a fault is
/// a history.
pub fn just_what_is_met()
    ensures met { JustWhatIsMet }
    ensures none_else { NothingElseIsMet }
{}

/// Arrows outside all blocks are met in each history that no break ends, in the order of the text.
pub fn outside_of_all_blocks()
    ensures { OutsideOfAllBlocks }
{}
