//! Laws of the runs of a chart, over the definitions only. The functions do nothing when they run:
//! a caller that needs a law calls its function. Each law holds of every accepted chart under each
//! architecture.

ghost use Rattle.std.specs.Prelude.{[], ◌∷◌};
ghost use Rattle.msc_chart.specs.declared.queue.LinkKind.{LinkKind};
ghost use Rattle.msc_chart.specs.declared.queue.LinkKind.TheVariants.{Mailbox, Pair, Single};
ghost use Rattle.msc_chart.specs.Orders.{Enforced};
ghost use Rattle.msc_chart.specs.Runs.{Run};
ghost use Rattle.msc_race.specs.Laws.{AWitnessExists, WitnessesAreUnique, WitnessesAreWhole};
ghost use Rattle.msc_race.specs.Laws.{WitnessesGoOn, WitnessesReverse, WitnessesReverseRaces};
ghost use Rattle.msc_race.specs.Laws.{WitnessStepsAreARun, EveryRunGoesOnToAWholeOne};
ghost use Rattle.msc_race.specs.Laws.{EveryRunKeepsTheEnforcedOrder, NoRunIsStuck};
ghost use Rattle.msc_race.specs.Laws.{RacesAreWhatRunsReverse, RunsKeepTheDrawnOrder};
ghost use Rattle.msc_race.specs.Laws.{TheEnforcedOrderHasNoCycle, TheEnforcedOrderIsExact};
ghost use Rattle.msc_race.specs.Laws.{WhatIsEnforcedIsNeverReversed, WhatIsNotEnforcedIsReversed};
ghost use Rattle.msc_race.specs.Laws.{WhatMayComeMakesALongerRun};
ghost use Rattle.msc_race.specs.Samples.{IsReversal, NoRunReversesBoth, crossed, mailboxes};
ghost use Rattle.msc_race.specs.Samples.{overtaken, relayed, senders, unordered};
ghost use Rattle.msc_race.specs.Races.{AreRaces, EnforcedOrdersTellVerdicts};
ghost use Rattle.msc_race.specs.ShortLaws.{AShortWitnessExists, NeededRunsAreLeast};
ghost use Rattle.msc_race.specs.ShortLaws.{ShortWitnessesAreUnique};
ghost use Rattle.msc_race.specs.ShortLaws.{ShortWitnessesShow, ShortStepsAreARun};
ghost use Rattle.msc_race.specs.ShortLaws.{WhatIsEnforcedIsNeeded};

use msc_chart::laws::ends_share_queues;

/// All that is enforced before an event of a run occurs in the run, earlier than the event.
pub fn every_run_keeps_the_enforced_order()
    ensures { EveryRunKeepsTheEnforcedOrder }
{
    ends_share_queues();
}

/// No run has the later of two enforced events without the earlier before it.
pub fn what_is_enforced_is_never_reversed()
    ensures { WhatIsEnforcedIsNeverReversed }
{
    ends_share_queues();
}

/// A run is whole, or some event may come next and makes it longer; so each run can be continued to
/// a whole one.
pub fn no_run_is_stuck()
    ensures longer { NoRunIsStuck }
    ensures grows { WhatMayComeMakesALongerRun }
    ensures whole { EveryRunGoesOnToAWholeOne }
{
    ends_share_queues();
}

/// No event is enforced before itself.
pub fn the_enforced_order_has_no_cycle()
    ensures { TheEnforcedOrderHasNoCycle }
{
    ends_share_queues();
}

/// If two events are not enforced in an order, some whole run has the second without the first
/// before it.
pub fn what_is_not_enforced_is_reversed()
    ensures { WhatIsNotEnforcedIsReversed }
{
    ends_share_queues();
}

/// Two different events are enforced in an order if and only if no run has the later without the
/// earlier before it.
pub fn the_enforced_order_is_exact()
    ensures { TheEnforcedOrderIsExact }
{
    ends_share_queues();
}

/// A race is a drawn pair that some run reverses; there is none if and only if every run keeps the
/// drawn order.
pub fn races_are_what_runs_reverse()
    ensures race { RacesAreWhatRunsReverse }
    ensures none { RunsKeepTheDrawnOrder }
{
    ends_share_queues();
}

/// The drawn pairs that the enforced order of an architecture does not hold make a verdict: the
/// drawn pairs that some run reverses, or `pass` if there are none.
pub fn enforced_orders_tell_verdicts()
    ensures { EnforcedOrdersTellVerdicts }
{
    races_are_what_runs_reverse();
}

/// Each event has exactly one witness. It is whole, and has each other event that is not
/// enforced after the event before it. So it reverses every race of the event.
pub fn the_witness_reverses()
    ensures exists { AWitnessExists }
    ensures unique { WitnessesAreUnique }
    ensures whole { WitnessesAreWhole }
    ensures reverses { WitnessesReverse }
    ensures races { WitnessesReverseRaces }
{
    ends_share_queues();
}

/// The beginning of a witness is a run, and while a free event is left, it can be continued to a
/// free event that does not wait.
pub fn a_witness_goes_on()
    ensures run { WitnessStepsAreARun }
    ensures next { WitnessesGoOn }
{
    ends_share_queues();
}

/// Each run that has an event has all of its past: all that is enforced before it.
pub fn what_is_enforced_is_needed()
    ensures { WhatIsEnforcedIsNeeded }
{
    ends_share_queues();
}

/// The beginning of a short witness is a run.
pub fn short_steps_are_a_run()
    ensures { ShortStepsAreARun }
{}

/// Two events have exactly one short witness. If they are not enforced in an order it is a run, the
/// second event is its last one, and the first is not in it. If it has exactly the past of the
/// second event, no run that has that event is shorter.
pub fn short_witnesses_show()
    ensures exists { AShortWitnessExists }
    ensures unique { ShortWitnessesAreUnique }
    ensures shows { ShortWitnessesShow }
    ensures least { NeededRunsAreLeast }
{
    ends_share_queues();
}

/// The definitions applied to small charts: all their races, and charts without races.
pub fn worked_races()
    ensures two_senders_pair { AreRaces (senders Pair) ((1, 2) ∷ []) }
    ensures two_senders_mailbox { AreRaces (senders Mailbox) ((1, 2) ∷ []) }
    ensures coregion { (kind : LinkKind) → AreRaces (unordered kind) [] }
    ensures relay_pair { AreRaces (relayed Pair) ((2, 3) ∷ []) }
    ensures relay_single { AreRaces (relayed Single) ((2, 3) ∷ []) }
    ensures relay_mailbox { AreRaces (relayed Mailbox) [] }
    ensures relay_enforced { Enforced (relayed Mailbox) 2 3 }
    ensures overtaking { (kind : LinkKind) → AreRaces (overtaken kind) ((2, 3) ∷ []) }
    ensures overtaking_enforced { Enforced (overtaken Pair) 3 2 × Enforced (overtaken Mailbox) 3 2 }
    ensures crossing { (kind : LinkKind) → AreRaces (crossed kind) ((0, 1) ∷ (2, 3) ∷ []) }
    ensures mailboxes { AreRaces mailboxes ((4, 5) ∷ (6, 7) ∷ []) }
{}

/// The definitions applied to small charts: runs that reverse their races, a list that is no run,
/// and races that no run reverses together.
pub fn worked_runs()
    ensures two_senders_pair { IsReversal (senders Pair) (0 ∷ 3 ∷ 2 ∷ 1 ∷ []) 1 2 }
    ensures two_senders_mailbox { IsReversal (senders Mailbox) (3 ∷ 0 ∷ 2 ∷ 1 ∷ []) 1 2 }
    ensures no_run { Run (senders Mailbox) (0 ∷ 3 ∷ 2 ∷ 1 ∷ []) → ⊥ }
    ensures relay_pair { IsReversal (relayed Pair) (0 ∷ 1 ∷ 4 ∷ 5 ∷ 3 ∷ 2 ∷ []) 2 3 }
    ensures overtaken { (kind : LinkKind) → IsReversal (overtaken kind) (0 ∷ 1 ∷ 3 ∷ 2 ∷ []) 2 3 }
    ensures crossing_a { (kind : LinkKind) → IsReversal (crossed kind) (2 ∷ 1 ∷ 0 ∷ 3 ∷ []) 0 1 }
    ensures crossing_b { (kind : LinkKind) → IsReversal (crossed kind) (0 ∷ 3 ∷ 2 ∷ 1 ∷ []) 2 3 }
    ensures crossing_one { (kind : LinkKind) → NoRunReversesBoth (crossed kind) (0, 1) (2, 3) }
    ensures mailboxes_q { IsReversal mailboxes (2 ∷ 3 ∷ 0 ∷ 1 ∷ 5 ∷ 6 ∷ 7 ∷ 4 ∷ []) 4 5 }
    ensures mailboxes_z { IsReversal mailboxes (0 ∷ 1 ∷ 2 ∷ 3 ∷ 4 ∷ 5 ∷ 7 ∷ 6 ∷ []) 6 7 }
    ensures mailboxes_one { NoRunReversesBoth mailboxes (4, 5) (6, 7) }
{}
