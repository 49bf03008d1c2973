//! Laws of charts, over their definitions only. The functions have no code: a caller that needs a
//! law calls its function.

ghost use Rattle.std.specs.Prelude.{◌≡◌, ◌∷◌, [], map};
ghost use Rattle.msc_chart.specs.declared.queue.LinkKind.TheVariants.{Pair, Mailbox, Single};
ghost use Rattle.msc_chart.specs.declared.queue.Queues.TheVariants.{Uniform};
ghost use Rattle.msc_chart.specs.declared.event.EventKind.TheVariants.{Output, Input, Local};
ghost use Rattle.msc_chart.specs.Drawings.{chart_events, chart_of};
ghost use Rattle.msc_chart.specs.Items.{EachHasAnEvent, ItemsAreDrawnInOrder};
ghost use Rattle.msc_chart.specs.Orders.{wired};
ghost use Rattle.msc_chart.specs.Laws.{CoarserQueuesEnforceMore, EndsShareQueues};
ghost use Rattle.msc_chart.specs.Laws.{EventsHaveQueues, InputsShareLines, LinesAreRanges};
ghost use Rattle.msc_chart.specs.Laws.{LinesAreWithin, LinksDecideOnQueues, OneKindIsTheOldRule};
ghost use Rattle.msc_chart.specs.Laws.{PairsHaveQueuesOfTheirOwn, SingleEnforcesLeast};
ghost use Rattle.msc_chart.specs.Laws.{QueueBoundsAreSmall, QueueNumbersAreBounded};
ghost use Rattle.msc_chart.specs.Laws.{QueuesAreBounded, SegmentsRise};
ghost use Rattle.msc_chart.specs.Precedence.{AllReadyIsVisual, NoneReadyIsEnforced};
ghost use Rattle.msc_chart.specs.RoundLaws.{ClosestRacesByTwo, EachEventIsInEachRound};
ghost use Rattle.msc_chart.specs.RoundLaws.{EachEventIsInOneRound, EventsStayAsTheyAre};
ghost use Rattle.msc_chart.specs.RoundLaws.{LinesAreDoneRoundByRound, MessagesAreOfOneRound};
ghost use Rattle.msc_chart.specs.RoundLaws.{NamesStayAsTheyAre, NextOverTwoRounds, NoVisualWayBack};
ghost use Rattle.msc_chart.specs.RoundLaws.{NoWayBack, OrderOfSomeRounds, OrderWithinARound};
ghost use Rattle.msc_chart.specs.RoundLaws.{ManyRoundsPassAsTwo, RoundsByTwo, TextsStayAsTheyAre};
ghost use Rattle.msc_chart.specs.RoundLaws.{TwoRoundsPass};
ghost use Rattle.msc_chart.specs.RoundLaws.{VisualOrderOfSomeRounds, VisualOrderWithinARound};
ghost use Rattle.msc_chart.specs.Rounds.{two_rounds};
ghost use Rattle.msc_chart.specs.Samples.{AreEnforcedPairs, actions, actions_pairs, below_coregion};
ghost use Rattle.msc_chart.specs.Samples.{coregion, done, drawn_pairs, empty_coregion, event, go};
ghost use Rattle.msc_chart.specs.Samples.{queue_numbers, relay, two_mailboxes, two_mailboxes_pairs};
ghost use Rattle.msc_chart.specs.Samples.{two_senders};

use crate::{
    ACTION_LIMIT, EVENT_LIMIT, INSTANCE_LIMIT, MESSAGE_LIMIT, QUEUE_LIMIT, ROUND_ACTION_LIMIT,
    ROUND_MESSAGE_LIMIT,
};

/// Under each architecture a queue with a message has from 1 to 32 senders, one receiver, and at
/// most 1,024 messages.
pub fn queues_are_bounded()
    ensures { QueuesAreBounded }
{}

/// Both ends of a message have one queue.
pub fn ends_share_queues()
    ensures { EndsShareQueues }
{}

/// The queue of an output or input is that of its message.
pub fn events_have_queues()
    ensures { EventsHaveQueues }
{}

/// Two messages share a queue if and only if their links are of one kind and the messages have in
/// common what this kind asks for: the link for `Pair`, the receiver for `Mailbox`; for `Single`
/// they are one message.
pub fn links_decide_on_queues()
    ensures { LinksDecideOnQueues }
{}

/// With one kind for all links, two messages share a queue exactly as under the architecture that
/// is this kind alone.
pub fn one_kind_is_the_old_rule()
    ensures { OneKindIsTheOldRule }
{}

/// If messages that share a queue in one architecture also share one in another, the other one
/// enforces whatever the first one enforces. So every architecture enforces what `Single` does.
pub fn coarser_queues_enforce_more()
    ensures coarser { CoarserQueuesEnforceMore }
    ensures single { SingleEnforcesLeast }
{}

/// If all links are of the kind `Pair`, the messages of a queue have one sender and one receiver.
pub fn pairs_have_queues_of_their_own()
    ensures { PairsHaveQueuesOfTheirOwn }
{}

/// The number of the queue of each output and input is below a bound, which is at most
/// [`QUEUE_LIMIT`].
pub fn queue_numbers_are_bounded()
    ensures numbers { QueueNumbersAreBounded }
    ensures few { QueueBoundsAreSmall }
{}

/// The inputs of a queue are on one line.
pub fn inputs_share_lines()
    ensures { InputsShareLines }
{}

/// Which order the instances of some lines enforce depends on those that are ready: if none is, it
/// is the enforced order, and if all are, it is the visual order.
pub fn orders_depend_on_ready_lines()
    ensures none { NoneReadyIsEnforced }
    ensures all { AllReadyIsVisual }
{}

/// A line is a contiguous range of event numbers, along which segments do not decrease.
pub fn lines_are_ranges()
    ensures ranges { LinesAreRanges }
    ensures within { LinesAreWithin }
    ensures rise { SegmentsRise }
{}

/// The first of two events of a section is drawn before the second if and only if it is in an
/// earlier item. A coregion is one item.
pub fn items_are_drawn_in_order()
    ensures order { ItemsAreDrawnInOrder }
    ensures each { EachHasAnEvent }
{}

/// Each event of several rounds is one event of the chart in one round, and vice versa.
pub fn rounds_are_numbered()
    ensures one { EachEventIsInOneRound }
    ensures each { EachEventIsInEachRound }
{}

/// Lines proceed round by round, and in a round each event is as in the chart: it has its line, its
/// kind, and its partner there. The messages of different rounds are different.
pub fn lines_are_done_round_by_round()
    ensures drawn { LinesAreDoneRoundByRound }
    ensures events { EventsStayAsTheyAre }
    ensures messages { MessagesAreOfOneRound }
    ensures texts { TextsStayAsTheyAre }
    ensures names { NamesStayAsTheyAre }
{}

/// No event of a later round is enforced before one of an earlier round, or precedes it in the
/// visual order.
pub fn no_way_back()
    ensures enforced { NoWayBack }
    ensures visual { NoVisualWayBack }
{}

/// Order within a round is that of the chart itself, and order over several rounds is that of as
/// many rounds by themselves: the enforced order and the visual order.
pub fn order_within_a_round()
    ensures within { OrderWithinARound }
    ensures some { OrderOfSomeRounds }
    ensures visual_within { VisualOrderWithinARound }
    ensures visual_some { VisualOrderOfSomeRounds }
{}

/// Closest races are within a round, or between a round and the next, and two rounds show them all;
/// so several rounds, however many, pass if and only if two do, and two pass if and only if one
/// does and no race is between them. Between two rounds a closest race is from the last segment of
/// a line to its first.
pub fn rounds_by_two()
    ensures passes { RoundsByTwo }
    ensures many { ManyRoundsPassAsTwo }
    ensures two { TwoRoundsPass }
    ensures closest { ClosestRacesByTwo }
    ensures next { NextOverTwoRounds }
{}

/// The definitions applied to small charts: the drawn order, the segments around an empty coregion,
/// the actions, the queue numbers, and two enforced orders pair by pair.
pub fn worked_charts()
    ensures drawn { drawn_pairs (chart_of two_senders) ≡ (1, 2) ∷ [] }
    ensures coregion { drawn_pairs (chart_of coregion) ≡ [] }
    ensures relay { drawn_pairs (chart_of relay) ≡ (0, 1) ∷ (2, 3) ∷ (4, 5) ∷ [] }
    ensures below { drawn_pairs (chart_of below_coregion)
        ≡ (1, 2) ∷ (1, 3) ∷ (1, 4) ∷ (2, 4) ∷ (3, 4) ∷ (5, 6) ∷ [] }
    ensures segments { map (λ e. e.segment) (chart_events empty_coregion) ≡ 0 ∷ 1 ∷ [] }
    ensures actions { chart_events actions
        ≡ event 0 0 Local 0 0 ∷ event 0 1 Output 2 0
        ∷ event 1 0 Input 1 0 ∷ event 1 1 Local 3 1 ∷ [] }
    ensures texts { (chart_of actions).actions ≡ go ∷ done ∷ [] }
    ensures action { drawn_pairs (chart_of actions) ≡ (0, 1) ∷ (2, 3) ∷ [] }
    ensures pair { queue_numbers (Uniform Pair) (chart_of relay) ≡ 1 ∷ 2 ∷ 7 ∷ [] }
    ensures mailbox { queue_numbers (Uniform Mailbox) (chart_of relay) ≡ 1 ∷ 2 ∷ 1 ∷ [] }
    ensures single { queue_numbers (Uniform Single) (chart_of relay) ≡ 0 ∷ 1 ∷ 2 ∷ [] }
    ensures senders { queue_numbers (Uniform Pair) (chart_of two_senders) ≡ 1 ∷ 7 ∷ [] }
    ensures one { queue_numbers (Uniform Mailbox) (chart_of coregion) ≡ 1 ∷ 1 ∷ [] }
    ensures enforced { AreEnforcedPairs (wired (Uniform Mailbox) (chart_of two_mailboxes))
        two_mailboxes_pairs }
    ensures controlled { AreEnforcedPairs (wired (Uniform Mailbox) (chart_of actions)) actions_pairs }
{}

/// The definitions applied to two rounds of small charts: the events, the texts of the actions, and
/// the drawn order.
pub fn worked_rounds()
    ensures events { (two_rounds (chart_of actions)).events
        ≡ event 0 0 Local 0 0 ∷ event 0 1 Output 4 0 ∷ event 0 2 Local 2 1 ∷ event 0 3 Output 6 1
        ∷ event 1 0 Input 1 0 ∷ event 1 1 Local 5 2 ∷ event 1 2 Input 3 1 ∷ event 1 3 Local 7 3
        ∷ [] }
    ensures texts { (two_rounds (chart_of actions)).actions ≡ go ∷ go ∷ done ∷ done ∷ [] }
    ensures drawn { drawn_pairs (two_rounds (chart_of coregion))
        ≡ (0, 1) ∷ (2, 4) ∷ (2, 5) ∷ (3, 4) ∷ (3, 5) ∷ (6, 7) ∷ [] }
{}

/// The limits of a chart: the numbers of its instances, messages and actions, and so of its events
/// and queues.
/// Also the limits of a chart whose two rounds are a chart.
pub fn limits_of_charts()
    ensures instances { INSTANCE_LIMIT ≡ 32 }
    ensures messages { MESSAGE_LIMIT ≡ 1024 }
    ensures actions { ACTION_LIMIT ≡ 1024 }
    ensures events { EVENT_LIMIT ≡ 3072 }
    ensures queues { QUEUE_LIMIT ≡ 2080 }
    ensures round_messages { ROUND_MESSAGE_LIMIT ≡ 512 }
    ensures round_actions { ROUND_ACTION_LIMIT ≡ 512 }
{}
