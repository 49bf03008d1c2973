//! A race, a stick and rings of charts, a stale mark of a diagram, and their diagnostics.

use crate::{
    ShownEvent, ShownRace, ShownStep, ShownStick, ShownText, StaleMark, StepOrder, StickShown,
    never_text, race_text, stale_text, stick_text, waiting_text,
};
use msc_chart::LinkKind;
use msc_diagnostic::{LineEnds, Source};
use msc_reason::{Cause, RaceKind};
use msc_wording::{Act, SpokenEvent};
use std::alloc::AllocGlobal;

/// The alternating bit protocol, with a frame that is sent again too soon.
const TEXT: &str =
    "/* The alternating bit protocol (Bartlett, Scantlebury, Wilkinson 1969): the sender's timer fires too
   soon, so frame 0 is sent again although it was not lost. The timer and what is done on a third
   acknowledgement are left out. */
msc alternating_bit;
inst sender, receiver;
instance sender;
  out frame0, first to receiver;
  out frame0, again to receiver;   /* premature timeout */
  in ack0, first from receiver;
  out frame1 to receiver;
  in ack0, again from receiver;
  in ack1 from receiver;
endinstance;
instance receiver;
  in frame0, first from sender;
  out ack0, first to sender;
  in frame0, again from sender;
  out ack0, again to sender;
  in frame1 from sender;
  out ack1 to sender;
endinstance;
endmsc;
";

/// What its instances are called.
const NAMES: [&str; 2] = ["sender", "receiver"];

/// Three of its events: the frame is sent again, the first acknowledgement is received, and it is
/// sent.
const EVENTS: [ShownEvent<'static>; 3] = [
    ShownEvent {
        spoken: SpokenEvent {
            act: Act::Sends,
            message: "\"frame0, again\"",
            owner: 0,
            peer: 1,
            line: 8,
        },
        first: 332,
        past: 362,
        place: "alternating_bit.msc:8:3",
        kind: LinkKind::Mailbox,
        queue: 1,
    },
    ShownEvent {
        spoken: SpokenEvent {
            act: Act::Receives,
            message: "\"ack0, first\"",
            owner: 0,
            peer: 1,
            line: 9,
        },
        first: 391,
        past: 420,
        place: "alternating_bit.msc:9:3",
        kind: LinkKind::Mailbox,
        queue: 0,
    },
    ShownEvent {
        spoken: SpokenEvent {
            act: Act::Sends,
            message: "\"ack0, first\"",
            owner: 1,
            peer: 0,
            line: 16,
        },
        first: 0,
        past: 0,
        place: "alternating_bit.msc:16:3",
        kind: LinkKind::Mailbox,
        queue: 0,
    },
];

/// The race of the first two.
const RACE: ShownRace<'static> = ShownRace {
    first: 0,
    second: 1,
    cause: Cause {
        kind: RaceKind::Early,
        needed: 0,
        output: 2,
        always: false,
    },
    is_next: false,
    scenarios: None,
    run: None,
};

/// The text of its diagnostic.
const PRINTED: &str =
    "warning[early]: sender can receive \"ack0, first\" from receiver before it sends \"frame0, again\" to receiver
 --> alternating_bit.msc:8:3
  |
8 |   out frame0, again to receiver;   /* premature timeout */
  |   ^^^^^^^^^^^^^^^^^^^^^^^^^^^^^^ drawn first
9 |   in ack0, first from receiver;
  |   ----------------------------- can happen first
  |
  = note: nothing makes receiver wait for that
  = help: the order holds if receiver sends \"ack0, first\" (line 16) only after sender has sent \"frame0, again\" to receiver

";

#[test]
fn a_race_is_told(rt: HostRuntime) {
    let source = Source::new(rt.alloc(), TEXT.as_bytes(), LineEnds::LineFeed);
    let source = source.expect(&rt, "memory for a text");
    let text = ShownText {
        source: &source,
        names: &NAMES,
        events: &EVENTS,
        colours: false,
    };
    let told = race_text(rt.alloc(), text, RACE).expect(&rt, "memory for a race");
    assert_eq!(rt; told.as_slice(), PRINTED.as_bytes());
}

/// A job that is cancelled too soon.
const CANCELS: &str =
    "/* A client cancels a job that the dispatcher has passed on to a worker. Drawn for this gallery after
   job queues with a way to cancel; what a worker does with an unknown job is left out. */
msc cancel_overtakes;
instance client;
  out submit to dispatcher;
  out cancel to worker;
  in cancelled from worker;
endinstance;
instance dispatcher;
  in submit from client;
  out start to worker;
endinstance;
instance worker;
  in start from dispatcher;
  in cancel from client;
  out cancelled to client;
endinstance;
endmsc;
";

/// What its instances are called.
const CANCEL_NAMES: [&str; 3] = ["client", "dispatcher", "worker"];

/// Four of its events: the worker receives both messages, and both are sent.
const CANCEL_EVENTS: [ShownEvent<'static>; 4] = [
    ShownEvent {
        spoken: SpokenEvent {
            act: Act::Receives,
            message: "\"start\"",
            owner: 2,
            peer: 1,
            line: 14,
        },
        first: 426,
        past: 451,
        place: "cancel_overtakes.msc:14:3",
        kind: LinkKind::Mailbox,
        queue: 2,
    },
    ShownEvent {
        spoken: SpokenEvent {
            act: Act::Receives,
            message: "\"cancel\"",
            owner: 2,
            peer: 0,
            line: 15,
        },
        first: 454,
        past: 476,
        place: "cancel_overtakes.msc:15:3",
        kind: LinkKind::Mailbox,
        queue: 2,
    },
    ShownEvent {
        spoken: SpokenEvent {
            act: Act::Sends,
            message: "\"start\"",
            owner: 1,
            peer: 2,
            line: 11,
        },
        first: 0,
        past: 0,
        place: "cancel_overtakes.msc:11:3",
        kind: LinkKind::Mailbox,
        queue: 2,
    },
    ShownEvent {
        spoken: SpokenEvent {
            act: Act::Sends,
            message: "\"cancel\"",
            owner: 0,
            peer: 2,
            line: 6,
        },
        first: 0,
        past: 0,
        place: "cancel_overtakes.msc:6:3",
        kind: LinkKind::Mailbox,
        queue: 2,
    },
];

/// The stick of the first two.
const STICK: ShownStick<'static> = ShownStick {
    first: 0,
    second: 1,
    needed: 2,
    output: 3,
    is_next: false,
    shown: StickShown::Run(&[
        "1. client sends \"submit\" to dispatcher (line 5)",
        "2. client sends \"cancel\" to worker (line 6)",
        "3. dispatcher receives \"submit\" from client (line 10)",
        "4. dispatcher sends \"start\" to worker (line 11)",
    ]),
};

/// The text of its diagnostic.
const STICK_PRINTED: &str =
    "error[stick]: worker can block: it waits for \"start\" from dispatcher, and \"cancel\" from client is first in its mailbox
  --> cancel_overtakes.msc:14:3
   |
14 |   in start from dispatcher;
   |   ^^^^^^^^^^^^^^^^^^^^^^^^^ waits for this
15 |   in cancel from client;
   |   ---------------------- first in its mailbox
   |
   = help: it cannot block here if client sends \"cancel\" (line 6) only after dispatcher has sent \"start\" (line 11)
   = note: a run that shows it:
     1. client sends \"submit\" to dispatcher (line 5)
     2. client sends \"cancel\" to worker (line 6)
     3. dispatcher receives \"submit\" from client (line 10)
     4. dispatcher sends \"start\" to worker (line 11)

";

#[test]
fn a_stick_is_told(rt: HostRuntime) {
    let source = Source::new(rt.alloc(), CANCELS.as_bytes(), LineEnds::LineFeed);
    let source = source.expect(&rt, "memory for a text");
    let text = ShownText {
        source: &source,
        names: &CANCEL_NAMES,
        events: &CANCEL_EVENTS,
        colours: false,
    };
    let told = stick_text(rt.alloc(), text, STICK).expect(&rt, "memory for a stick");
    assert_eq!(rt; told.as_slice(), STICK_PRINTED.as_bytes());
}

/// The beginning of a diagram with a mark.
const PINGS: &str = "sequenceDiagram
    participant A
    participant B
    %% race ok: B answers at once
    A->>B: ask
";

/// The mark in it, which accepts no race.
const STALE: StaleMark<'static> = StaleMark {
    first: 56,
    past: 85,
    place: "stale.mmd:4:5",
    has_arrow: true,
};

/// The text of its diagnostic.
const STALE_PRINTED: &str = "warning[stale]: this mark accepts no race
 --> stale.mmd:4:5
  |
4 |     %% race ok: B answers at once
  |     ^^^^^^^^^^^^^^^^^^^^^^^^^^^^^
  |
  = help: remove it, or correct what it says

";

#[test]
fn a_stale_mark_is_told(rt: HostRuntime) {
    let source = Source::new(rt.alloc(), PINGS.as_bytes(), LineEnds::Any);
    let source = source.expect(&rt, "memory for a text");
    let text = ShownText {
        source: &source,
        names: &[],
        events: &[],
        colours: false,
    };
    let told = stale_text(rt.alloc(), text, STALE).expect(&rt, "memory for a mark");
    assert_eq!(rt; told.as_slice(), STALE_PRINTED.as_bytes());
}

/// An urgent message that is drawn past the data which was sent before it.
const URGENT: &str =
    "/* An urgent message that is drawn past the data which was sent before it. Drawn for this gallery. */
msc urgent_overtakes;
instance host;
  out data to terminal;
  out urgent to terminal;
endinstance;
instance terminal;
  in urgent from host;
  in data from host;
endinstance;
endmsc;
";

/// The text of its diagnostic.
const URGENT_PRINTED: &str = "error[never]: this chart can never happen as it is drawn
 --> urgent_overtakes.msc:4:3
  |
4 |   out data to terminal;
  |   ^^^^^^^^^^^^^^^^^^^^^
5 |   out urgent to terminal;
  |   -----------------------
  |
  = note: host sends \"data\" to terminal (line 4) before it sends \"urgent\" to terminal (line 5), as drawn
  = note: \"urgent\" (line 5) has to be sent before \"data\" (line 4): terminal receives it first, and they come over one connection

";

/// The event of a message at these places.
fn at(spoken: SpokenEvent<'static>, first: usize, past: usize) -> ShownEvent<'static> {
    ShownEvent {
        spoken,
        first,
        past,
        place: "urgent_overtakes.msc:4:3",
        kind: LinkKind::Pair,
        queue: 0,
    }
}

/// A message from the first instance to the second, or of it, in this line.
fn sends(message: &'static str, owner: usize, peer: usize, line: usize) -> SpokenEvent<'static> {
    SpokenEvent {
        act: Act::Sends,
        message,
        owner,
        peer,
        line,
    }
}

/// A step from an event to another.
fn step(first: u32, second: u32, order: StepOrder) -> ShownStep {
    ShownStep {
        first,
        second,
        order,
    }
}

#[test]
fn a_chart_that_never_happens_is_told(rt: HostRuntime) {
    let source = Source::new(rt.alloc(), URGENT.as_bytes(), LineEnds::LineFeed);
    let source = source.expect(&rt, "memory for a text");
    let data = at(sends("\"data\"", 0, 1, 4), 141, 162);
    let urgent = at(sends("\"urgent\"", 0, 1, 5), 165, 188);
    let text = ShownText {
        source: &source,
        names: &["host", "terminal"],
        events: &[data, urgent],
        colours: false,
    };
    let steps = [step(0, 1, StepOrder::Drawn), step(1, 0, StepOrder::Queued)];
    let told = never_text(rt.alloc(), text, &steps).expect(&rt, "memory for a ring");
    assert_eq!(rt; told.as_slice(), URGENT_PRINTED.as_bytes());
    let unknown = [step(0, 2, StepOrder::Drawn)];
    let told = never_text(rt.alloc(), text, &unknown).expect(&rt, "memory for a ring");
    assert_eq!(rt; told.as_slice().len(), 0);
}

/// Five instances, each of which waits for the one before it.
const FIVE: &str = "msc five;
instance a; in m5 from e; out m1 to b; endinstance;
instance b; in m1 from a; out m2 to c; endinstance;
instance c; in m2 from b; out m3 to d; endinstance;
instance d; in m3 from c; out m4 to e; endinstance;
instance e; in m4 from d; out m5 to a; endinstance;
endmsc;
";

/// The text of the diagnostic.
const FIVE_PRINTED: &str =
    "error[chart 9]: these events wait for each other, so none of them can happen
 --> five.msc:2:13
  |
2 | instance a; in m5 from e; out m1 to b; endinstance;
  |             ^^^^^^^^^^^^^
  |                           ------------
3 | instance b; in m1 from a; out m2 to c; endinstance;
  |             -------------
  |                           ------------
4 | instance c; in m2 from b; out m3 to d; endinstance;
  |             -------------
  |                           ------------
5 | instance d; in m3 from c; out m4 to e; endinstance;
  |             -------------
  |                           ------------
  |
  = note: a receives \"m5\" from e (line 2) before it sends \"m1\" to b (line 2), as drawn
  = note: \"m1\" is sent (line 2) before it is received (line 3)
  = note: b receives \"m1\" from a (line 3) before it sends \"m2\" to c (line 3), as drawn
  = note: \"m2\" is sent (line 3) before it is received (line 4)
  = note: c receives \"m2\" from b (line 4) before it sends \"m3\" to d (line 4), as drawn
  = note: \"m3\" is sent (line 4) before it is received (line 5)
  = note: d receives \"m3\" from c (line 5) before it sends \"m4\" to e (line 5), as drawn
  = note: \"m4\" is sent (line 5) before it is received (line 6)
  = note: and 2 more steps

";

const FIVE_NAMES: [&str; 5] = ["a", "b", "c", "d", "e"];

/// A message to the first instance from the second, in this line.
fn receives(message: &'static str, owner: usize, peer: usize, line: usize) -> SpokenEvent<'static> {
    SpokenEvent {
        act: Act::Receives,
        message,
        owner,
        peer,
        line,
    }
}

/// An event of the five at these places.
fn of_five(spoken: SpokenEvent<'static>, first: usize, past: usize) -> ShownEvent<'static> {
    ShownEvent {
        place: "five.msc:2:13",
        ..at(spoken, first, past)
    }
}

#[test]
fn events_that_wait_for_each_other_are_told(rt: HostRuntime) {
    let source = Source::new(rt.alloc(), FIVE.as_bytes(), LineEnds::LineFeed);
    let source = source.expect(&rt, "memory for a text");
    let events = [
        of_five(receives("\"m5\"", 0, 4, 2), 22, 35),
        of_five(sends("\"m1\"", 0, 1, 2), 36, 48),
        of_five(receives("\"m1\"", 1, 0, 3), 74, 87),
        of_five(sends("\"m2\"", 1, 2, 3), 88, 100),
        of_five(receives("\"m2\"", 2, 1, 4), 126, 139),
        of_five(sends("\"m3\"", 2, 3, 4), 140, 152),
        of_five(receives("\"m3\"", 3, 2, 5), 178, 191),
        of_five(sends("\"m4\"", 3, 4, 5), 192, 204),
        of_five(receives("\"m4\"", 4, 3, 6), 230, 243),
        of_five(sends("\"m5\"", 4, 0, 6), 244, 256),
    ];
    let steps = [
        step(0, 1, StepOrder::Drawn),
        step(1, 2, StepOrder::Sent),
        step(2, 3, StepOrder::Drawn),
        step(3, 4, StepOrder::Sent),
        step(4, 5, StepOrder::Drawn),
        step(5, 6, StepOrder::Sent),
        step(6, 7, StepOrder::Drawn),
        step(7, 8, StepOrder::Sent),
        step(8, 9, StepOrder::Drawn),
        step(9, 0, StepOrder::Sent),
    ];
    let text = ShownText {
        source: &source,
        names: &FIVE_NAMES,
        events: &events,
        colours: false,
    };
    let told = waiting_text(rt.alloc(), text, &steps).expect(&rt, "memory for a ring");
    assert_eq!(rt; told.as_slice(), FIVE_PRINTED.as_bytes());
}
