//! Laws of closest races and of what races lack, over the definitions only. The functions do
//! nothing when they run: a caller that needs a law calls its function. Each law holds of every
//! accepted chart under each architecture.

ghost use Rattle.msc_reason.specs.CountingLaws.{AllClosestRacesAreListed, ClosestRacesAreListed};
ghost use Rattle.msc_reason.specs.CountingLaws.{CountingRacesAreListed, ListedRacesAreAscending};
ghost use Rattle.msc_reason.specs.CountingLaws.{EveryRaceThatCountsSpansAClosestOne};
ghost use Rattle.msc_reason.specs.CountingLaws.{NoneIsClosestWhereNoneCounts, TheOrderTellsCauses};
ghost use Rattle.msc_reason.specs.CountingLaws.{WithoutKindsTheClosestAreTheClosest};
ghost use Rattle.msc_reason.specs.Laws.{ARaceHasOneCause, AWhyExists, AWhyIsEnough};
ghost use Rattle.msc_reason.specs.Laws.{ClosestRacesOfRounds, EachRaceHasOneKind};
ghost use Rattle.msc_reason.specs.Laws.{EveryRaceSpansAClosestRace, RacesAreToldByTheClosest};
ghost use Rattle.msc_reason.specs.Laws.{RacesEndInInputs, SingleRacesAreOfTwoKinds};
ghost use Rattle.msc_reason.specs.Laws.{WhatIsOvertakenIsAlwaysReversed};
ghost use Rattle.msc_reason.specs.Named.{AReasonNamesEvents};

use msc_chart::laws::{ends_share_queues, rounds_by_two};

/// Each race spans a closest race; so a chart has no race if and only if it has no closest race.
pub fn every_race_spans_a_closest_race()
    ensures spans { EveryRaceSpansAClosestRace }
    ensures none { RacesAreToldByTheClosest }
{
    ends_share_queues();
}

/// The closest races of several rounds are those of the chart within a round, and those of two
/// rounds between a round and the next.
pub fn closest_races_of_rounds()
    ensures { ClosestRacesOfRounds }
{
    rounds_by_two();
}

/// The second event of a race is an input, and exactly one needed event is not enforced before its
/// output.
pub fn a_race_has_one_cause()
    ensures input { RacesEndInInputs }
    ensures causes { ARaceHasOneCause }
{
    ends_share_queues();
}

/// Each race has exactly one kind. If each message has a queue of its own, the kind is early or of
/// two queues. An overtaken race is always reversed.
pub fn each_race_has_one_kind()
    ensures one { EachRaceHasOneKind }
    ensures single { SingleRacesAreOfTwoKinds }
    ensures always { WhatIsOvertakenIsAlwaysReversed }
{
    ends_share_queues();
}

/// A right reason ([`Why`](crate::Why)) implies that its pair of events is enforced, and each
/// enforced pair has one.
pub fn a_why_is_enough()
    ensures enough { AWhyIsEnough }
    ensures exists { AWhyExists }
{
    ends_share_queues();
}

/// The races that count are those whose kind is not left out, and the closest of them are those
/// whose span has no other one. Ascending lists enumerate them, whatever table of causes makes
/// these lists; the enforced order makes one.
pub fn what_counts_is_listed()
    ensures counting { CountingRacesAreListed }
    ensures closest { ClosestRacesAreListed }
    ensures ascending { ListedRacesAreAscending }
    ensures causes { TheOrderTellsCauses }
{
    each_race_has_one_kind();
}

/// Each race that counts spans a closest one that counts; so none is closest if and only if none
/// counts. If no kind is left out these are the closest races, and all of them are listed.
pub fn every_race_that_counts_spans_a_closest_one()
    ensures spans { EveryRaceThatCountsSpansAClosestOne }
    ensures none { NoneIsClosestWhereNoneCounts }
    ensures all { WithoutKindsTheClosestAreTheClosest }
    ensures list { AllClosestRacesAreListed }
{
    what_counts_is_listed();
    each_race_has_one_kind();
    ends_share_queues();
}

/// A reason that is right names only events of the chart, so it can be printed.
pub fn a_reason_names_events()
    ensures { AReasonNamesEvents }
{}
