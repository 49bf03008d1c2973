//! Laws of ready runs, over the definitions only. The functions do nothing when they run: a caller
//! that needs a law calls its function. Each law holds of every accepted chart under each
//! architecture, whichever of its lines are ready.

ghost use Rattle.msc_ready.specs.Laws.{ABlockedPairIsFinal, TheReadyOrderHasNoCycle};
ghost use Rattle.msc_ready.specs.Laws.{EachFirstBlockedPairIsMet, NeverSticks};
ghost use Rattle.msc_ready.specs.Laws.{SomeBlockedPairIsFirst};
ghost use Rattle.msc_ready.specs.Laws.{APassNeverSticks, AllReadyRunsKeepTheDrawnOrder};
ghost use Rattle.msc_ready.specs.Laws.{ReadyRunsKeepReadyLines, ReadyRunsKeepTheReadyOrder};
ghost use Rattle.msc_ready.specs.Laws.{MoreReadyEndNoSticking, OutputsAreInVisualOrder};
ghost use Rattle.msc_ready.specs.Laws.{SomeRunIsWhole};
ghost use Rattle.msc_ready.specs.Laws.{EachFirstBlockedPairHasARun};
ghost use Rattle.msc_ready.specs.Laws.{RacesLeftAreReversed, BlockedPairRunsAreUnique};
ghost use Rattle.msc_ready.specs.Laws.{RacesLeftAreTold};
ghost use Rattle.msc_ready.specs.RoundLaws.{ManyRoundsStickAsTwo, NoReadyWayBack};
ghost use Rattle.msc_ready.specs.RoundLaws.{ReadyOrderOfSomeRounds, ReadyOrderWithinARound};
ghost use Rattle.msc_ready.specs.RoundLaws.{RoundsFinishByOne, RoundsGoOnByTwo, RoundsRingByOne};
ghost use Rattle.msc_ready.specs.RoundLaws.{RoundsStickByTwo, BlockedPairsOfTwoRounds};
ghost use Rattle.msc_ready.specs.RoundLaws.{BlockedPairsWithinARound};

use msc_chart::laws::{ends_share_queues, inputs_share_lines};

/// All that precedes an event of a ready run in the ready order occurs in the run, earlier than the
/// event.
pub fn ready_runs_keep_the_ready_order()
    ensures { ReadyRunsKeepTheReadyOrder }
{
    ends_share_queues();
}

/// No event precedes itself in the ready order.
pub fn the_ready_order_has_no_cycle()
    ensures { TheReadyOrderHasNoCycle }
{
    ends_share_queues();
    inputs_share_lines();
}

/// No whole ready run continues a ready run that has sent the outputs of a blocked pair in the
/// other order.
pub fn a_blocked_pair_is_final()
    ensures { ABlockedPairIsFinal }
{
    ends_share_queues();
}

/// If there is a blocked pair, some blocked pair is first: no blocked pair's second output precedes
/// its own second output in the ready order.
pub fn some_blocked_pair_is_first()
    ensures { SomeBlockedPairIsFirst }
{
    ends_share_queues();
    inputs_share_lines();
}

/// For each first blocked pair there is a ready run that has its second output without the first
/// output before it, and after which the system has stuck.
pub fn each_first_blocked_pair_is_met()
    ensures { EachFirstBlockedPairIsMet }
{
    ends_share_queues();
    inputs_share_lines();
}

/// Every ready run can be continued to a whole one if and only if there is no blocked pair.
pub fn never_sticks()
    ensures { NeverSticks }
{
    ends_share_queues();
    inputs_share_lines();
}

/// A chart without races has no blocked pair, whichever of its instances are ready.
pub fn a_pass_never_sticks()
    ensures { APassNeverSticks }
{
    ends_share_queues();
    inputs_share_lines();
}

/// Some ready run is whole if and only if the required precedences have no ring.
pub fn some_run_is_whole()
    ensures { SomeRunIsWhole }
{
    ends_share_queues();
    inputs_share_lines();
}

/// A ready run is a run in which ready lines keep the drawn order; with all instances ready it is a
/// run that keeps the drawn order.
pub fn ready_runs_keep_ready_lines()
    ensures lines { ReadyRunsKeepReadyLines }
    ensures all { AllReadyRunsKeepTheDrawnOrder }
{}

/// A blocked pair remains a blocked pair if more instances are ready.
pub fn more_ready_end_no_sticking()
    ensures { MoreReadyEndNoSticking }
{
    ends_share_queues();
    inputs_share_lines();
}

/// Between outputs the ready order is the visual order, whichever instances are ready.
pub fn outputs_are_in_visual_order()
    ensures { OutputsAreInVisualOrder }
{
    ends_share_queues();
    inputs_share_lines();
}

/// If there is no blocked pair, the races that are left are exactly the drawn pairs that some whole
/// ready run reverses.
pub fn races_left_are_reversed()
    ensures { RacesLeftAreReversed }
{
    ends_share_queues();
    inputs_share_lines();
}

/// Each first blocked pair has one run, which all first blocked pairs with the same second event
/// share.
pub fn each_first_blocked_pair_has_one_run()
    ensures exists { EachFirstBlockedPairHasARun }
    ensures unique { BlockedPairRunsAreUnique }
{
    ends_share_queues();
    inputs_share_lines();
}

/// The test for the races that are left is right.
pub fn races_left_are_told()
    ensures { RacesLeftAreTold }
{
    ends_share_queues();
}

/// No event of a later round precedes one of an earlier round in the ready order.
pub fn no_ready_way_back()
    ensures { NoReadyWayBack }
{}

/// Within a round the ready order is that of the chart itself, and over several rounds that of as
/// many rounds by themselves.
pub fn ready_order_within_a_round()
    ensures within { ReadyOrderWithinARound }
    ensures some { ReadyOrderOfSomeRounds }
{}

/// Within a round the blocked pairs are those of the chart itself. Two rounds never stick if and
/// only if one round does not and no blocked pair leads from the first round to the second; any
/// greater number of rounds never sticks if and only if two do not. So each ready run of several
/// rounds can be continued to a whole one if and only if each of two can.
pub fn rounds_stick_by_two()
    ensures within { BlockedPairsWithinARound }
    ensures two { BlockedPairsOfTwoRounds }
    ensures all { RoundsStickByTwo }
    ensures many { ManyRoundsStickAsTwo }
    ensures runs { RoundsGoOnByTwo }
{}

/// Several rounds, however many, may finish if and only if one may: the required precedences have a
/// ring in them if and only if they have one in one round.
pub fn rounds_finish_by_one()
    ensures rings { RoundsRingByOne }
    ensures finish { RoundsFinishByOne }
{}
