//! Sentences, labels and notes of findings, and closing lines.

use crate::{
    Act, MarkedText, Outcome, RacesFound, RingOrder, SpokenBlockedPair, SpokenCheck, SpokenChoice,
    SpokenEvent, SpokenPair, SpokenRace, SpokenReadiness, SpokenRingStep, SpokenStep, Way,
    blocks_before, choices_text, closing_line, help_line, refused_verdict, ring_notes, run_rows,
    scenarios_text, with_queues,
};
use msc_chart::LinkKind;
use msc_reason::RaceKind;

/// An event of instance `owner`, whose message goes to or comes from `peer`.
fn event(act: Act, message: &str, owner: usize, peer: usize, line: usize) -> SpokenEvent<'_> {
    SpokenEvent {
        act,
        message,
        owner,
        peer,
        line,
    }
}

/// A pair of events of one round, and the order that would prevent it.
fn pair<'t>(
    first: SpokenEvent<'t>,
    second: SpokenEvent<'t>,
    needed: SpokenEvent<'t>,
    output: SpokenEvent<'t>,
) -> SpokenPair<'t> {
    SpokenPair {
        first,
        second,
        is_next: false,
        needed,
        output,
    }
}

/// A pair that can come in the other order.
fn race(pair: SpokenPair<'_>, kind: RaceKind, way: Way) -> SpokenRace<'_> {
    SpokenRace {
        pair,
        kind,
        is_always: false,
        way,
    }
}

/// A payment that a shop hears of twice.
fn payment() -> SpokenRace<'static> {
    let processing = event(Act::Receives, "\"processing\"", 0, 1, 12);
    let paid = event(Act::Receives, "\"mark as paid\"", 0, 2, 17);
    let output = event(Act::Sends, "\"mark as paid\"", 2, 0, 17);
    let pair = pair(processing, paid, processing, output);
    race(pair, RaceKind::Queues, Way::TwoConnections)
}

/// A cancellation that overtakes its job.
fn cancel() -> SpokenRace<'static> {
    let start = event(Act::Receives, "\"start\"", 2, 1, 14);
    let cancel = event(Act::Receives, "\"cancel\"", 2, 0, 15);
    let started = event(Act::Sends, "\"start\"", 1, 2, 11);
    let cancelled = event(Act::Sends, "\"cancel\"", 0, 2, 6);
    let pair = pair(start, cancel, started, cancelled);
    race(pair, RaceKind::Unordered, Way::OneMailbox)
}

/// An input that can come before an action.
fn look() -> SpokenRace<'static> {
    let look = event(Act::Acts, "\"look\"", 1, 1, 1);
    let input = event(Act::Receives, "\"m2\"", 1, 2, 1);
    let output = event(Act::Sends, "\"m2\"", 2, 1, 1);
    let pair = pair(look, input, look, output);
    race(pair, RaceKind::Early, Way::TwoQueues)
}

/// An answer that can come before what is sent once more.
fn frame() -> SpokenRace<'static> {
    let again = event(Act::Sends, "\"frame0, again\"", 0, 1, 8);
    let answer = event(Act::Receives, "\"ack0, first\"", 0, 1, 9);
    let output = event(Act::Sends, "\"ack0, first\"", 1, 0, 16);
    let pair = pair(again, answer, again, output);
    race(pair, RaceKind::Early, Way::TwoQueues)
}

/// An answer that is lost.
fn puback() -> SpokenRace<'static> {
    let lost = event(Act::Loses, "\"PUBACK\"", 1, 0, 12);
    let input = event(Act::Receives, "\"PUBLISH (DUP)\"", 1, 0, 13);
    let output = event(Act::Sends, "\"PUBLISH (DUP)\"", 0, 1, 13);
    let pair = pair(lost, input, lost, output);
    race(pair, RaceKind::Early, Way::TwoQueues)
}

/// A message that comes first in each run.
fn urgent() -> SpokenRace<'static> {
    let urgent = event(Act::Receives, "\"urgent\"", 1, 0, 8);
    let data = event(Act::Receives, "\"data\"", 1, 0, 9);
    let needed = event(Act::Sends, "\"urgent\"", 0, 1, 5);
    let output = event(Act::Sends, "\"data\"", 0, 1, 4);
    let pair = pair(urgent, data, needed, output);
    SpokenRace {
        pair,
        kind: RaceKind::Overtaken,
        is_always: true,
        way: Way::OneConnection,
    }
}

/// A race of two rounds.
fn leader() -> SpokenRace<'static> {
    let leader = event(Act::Sends, "\"leader\"", 2, 1, 15);
    let elect = event(Act::Receives, "\"elect1, 1\"", 2, 0, 12);
    let output = event(Act::Sends, "\"elect1, 1\"", 0, 2, 7);
    let mut pair = pair(leader, elect, leader, output);
    pair.is_next = true;
    race(pair, RaceKind::Early, Way::TwoQueues)
}

/// A message to oneself.
fn own() -> SpokenRace<'static> {
    let first = event(Act::Receives, "\"m1\"", 0, 0, 1);
    let second = event(Act::Receives, "\"m2\"", 0, 1, 1);
    let needed = event(Act::Sends, "\"m1\"", 0, 0, 1);
    let output = event(Act::Sends, "\"m2\"", 1, 0, 1);
    let pair = pair(first, second, needed, output);
    race(pair, RaceKind::Unordered, Way::OneMailbox)
}

/// Two datagrams of one name.
fn measured() -> SpokenRace<'static> {
    let first = event(Act::Receives, "\"measured\"", 1, 0, 6);
    let second = event(Act::Receives, "\"measured\"", 1, 0, 7);
    let needed = event(Act::Receives, "\"measured\"", 1, 0, 6);
    let output = event(Act::Sends, "\"measured\"", 0, 1, 7);
    let pair = pair(first, second, needed, output);
    race(pair, RaceKind::Queues, Way::ByThemselves)
}

/// The texts of a race: the sentence, the reason, and the help.
#[derive(Clone, Copy)]
struct Said {
    names: &'static [&'static str],
    race: SpokenRace<'static>,
    marked: &'static [usize],
    sentence: &'static str,
    reason: &'static str,
    help: &'static str,
}

/// Races of two inputs, and what is said of them.
fn races_of_inputs() -> [Said; 5] {
    [
        Said {
            names: &["Shop", "Payment Provider", "Webhook Worker"],
            race: payment(),
            marked: &[12, 17],
            sentence: "Shop can receive \"mark as paid\" from Webhook Worker before \"processing\" from Payment Provider",
            reason: "they come over two connections, and nothing orders them",
            help: "the order holds if Webhook Worker sends \"mark as paid\" only after Shop has received \"processing\" from Payment Provider",
        },
        Said {
            names: &["client", "dispatcher", "worker"],
            race: cancel(),
            marked: &[14, 15],
            sentence: "worker can receive \"cancel\" from client before \"start\" from dispatcher",
            reason: "they come through one mailbox, and nothing orders the two sends",
            help: "the order holds if client sends \"cancel\" (line 6) only after dispatcher has sent \"start\" (line 11)",
        },
        Said {
            names: &["host", "terminal"],
            race: urgent(),
            marked: &[8, 9],
            sentence: "terminal always receives \"data\" before \"urgent\", both from host",
            reason: "they come over one connection, and \"data\" is sent first",
            help: "the order holds if host sends \"data\" (line 4) only after it has sent \"urgent\" (line 5)",
        },
        Said {
            names: &["a", "b"],
            race: own(),
            marked: &[1],
            sentence: "a can receive \"m2\" from b before \"m1\" from itself",
            reason: "they come through one mailbox, and nothing orders the two sends",
            help: "the order holds if b sends \"m2\" only after a has sent \"m1\" to itself",
        },
        Said {
            names: &["Device", "Gateway"],
            race: measured(),
            marked: &[],
            sentence: "Gateway can receive \"measured\" (line 7) before \"measured\" (line 6), both from Device",
            reason: "each travels by itself, and nothing orders them",
            help: "the order holds if Device sends \"measured\" (line 7) only after Gateway has received \"measured\" from Device (line 6)",
        },
    ]
}

/// Races of an input and what is drawn above it, and what is said of them.
fn early_races() -> [Said; 4] {
    [
        Said {
            names: &["a", "b", "c"],
            race: look(),
            marked: &[1],
            sentence: "b can receive \"m2\" from c before it does \"look\"",
            reason: "nothing makes c wait for that",
            help: "the order holds if c sends \"m2\" only after b has done \"look\"",
        },
        Said {
            names: &["sender", "receiver"],
            race: frame(),
            marked: &[8, 9],
            sentence: "sender can receive \"ack0, first\" from receiver before it sends \"frame0, again\" to receiver",
            reason: "nothing makes receiver wait for that",
            help: "the order holds if receiver sends \"ack0, first\" (line 16) only after sender has sent \"frame0, again\" to receiver",
        },
        Said {
            names: &["Publisher", "Broker"],
            race: puback(),
            marked: &[12, 13],
            sentence: "Broker can receive \"PUBLISH (DUP)\" from Publisher before it sends \"PUBACK\" to Publisher (lost)",
            reason: "nothing makes Publisher wait for that",
            help: "the order holds if Publisher sends \"PUBLISH (DUP)\" only after Broker has sent \"PUBACK\" to Publisher (lost)",
        },
        Said {
            names: &["n1", "n2", "n3"],
            race: leader(),
            marked: &[15, 12],
            sentence: "n3 can receive the next round's \"elect1, 1\" from n1 before it sends \"leader\" to n2",
            reason: "nothing makes n1 wait for that",
            help: "the order holds if n1 sends the next round's \"elect1, 1\" (line 7) only after n3 has sent \"leader\" to n2",
        },
    ]
}

#[test]
fn races_of_inputs_are_told(rt: HostRuntime) {
    for said in &races_of_inputs() {
        let sentence = said.race.sentence(rt.alloc(), said.names);
        assert_eq!(rt; sentence.expect(&rt, "memory").as_str(), said.sentence);
        let reason = said.race.reason(rt.alloc(), said.names);
        assert_eq!(rt; reason.expect(&rt, "memory").as_str(), said.reason);
        let help = said.race.help(rt.alloc(), said.names, said.marked);
        assert_eq!(rt; help.expect(&rt, "memory").as_str(), said.help);
    }
}

#[test]
fn early_races_are_told(rt: HostRuntime) {
    for said in &early_races() {
        let sentence = said.race.sentence(rt.alloc(), said.names);
        assert_eq!(rt; sentence.expect(&rt, "memory").as_str(), said.sentence);
        let reason = said.race.reason(rt.alloc(), said.names);
        assert_eq!(rt; reason.expect(&rt, "memory").as_str(), said.reason);
        let help = said.race.help(rt.alloc(), said.names, said.marked);
        assert_eq!(rt; help.expect(&rt, "memory").as_str(), said.help);
    }
}

#[test]
fn marks_have_labels(rt: HostRuntime) {
    let table = [
        (payment(), "drawn first", "can happen first"),
        (urgent(), "drawn first", "always happens first"),
        (
            leader(),
            "drawn first, in one round",
            "can happen first, in the next round",
        ),
    ];
    for (race, first, second) in &table {
        assert_eq!(rt; race.first_label(), *first);
        assert_eq!(rt; race.second_label(), *second);
    }
    assert_eq!(rt;
        measured().shared_label(),
        "drawn first, but a later round can happen first"
    );
}

#[test]
fn blocked_pairs_are_told(rt: HostRuntime) {
    let blocked = SpokenBlockedPair {
        pair: cancel().pair,
        in_mailbox: true,
    };
    let names = &["client", "dispatcher", "worker"];
    let sentence = blocked.sentence(rt.alloc(), names).expect(&rt, "memory");
    assert_eq!(rt;
        sentence.as_str(),
        "worker can block: it waits for \"start\" from dispatcher, and \"cancel\" from client is first in its mailbox"
    );
    let help = blocked
        .help(rt.alloc(), names, &[14, 15])
        .expect(&rt, "memory");
    assert_eq!(rt;
        help.as_str(),
        "it cannot block here if client sends \"cancel\" (line 6) only after dispatcher has sent \"start\" (line 11)"
    );
    let blocked = SpokenBlockedPair {
        pair: urgent().pair,
        in_mailbox: false,
    };
    let names = &["host", "terminal"];
    let sentence = blocked.sentence(rt.alloc(), names).expect(&rt, "memory");
    assert_eq!(rt;
        sentence.as_str(),
        "terminal can block: it waits for \"urgent\" from host, and \"data\" is ahead of it in their connection"
    );
    let before = blocks_before(rt.alloc(), &["coordinator"], 0, 8).expect(&rt, "memory");
    assert_eq!(rt; before.as_str(), "coordinator blocks at line 8 before that");
}

#[test]
fn rings_are_told(rt: HostRuntime) {
    let data = event(Act::Sends, "\"data\"", 0, 1, 4);
    let urgent = event(Act::Sends, "\"urgent\"", 0, 1, 5);
    let input = event(Act::Receives, "\"urgent\"", 1, 0, 8);
    let drawn = SpokenRingStep {
        first: data,
        second: urgent,
        order: RingOrder::Drawn,
    };
    let queued = SpokenRingStep {
        first: urgent,
        second: data,
        order: RingOrder::Queued(Way::OneConnection),
    };
    let sent = SpokenRingStep {
        first: urgent,
        second: input,
        order: RingOrder::Sent,
    };
    let steps = [drawn, queued, sent, sent, sent, sent, sent, sent, sent];
    let notes = ring_notes(rt.alloc(), &["host", "terminal"], &steps).expect(&rt, "memory");
    assert_eq!(rt; notes.len(), 9);
    assert_eq!(rt;
        notes[0].as_str(),
        "host sends \"data\" to terminal (line 4) before it sends \"urgent\" to terminal (line 5), as drawn"
    );
    assert_eq!(rt;
        notes[1].as_str(),
        "\"urgent\" (line 5) has to be sent before \"data\" (line 4): terminal receives it first, and they come over one connection"
    );
    assert_eq!(rt;
        notes[2].as_str(),
        "\"urgent\" is sent (line 5) before it is received (line 8)"
    );
    assert_eq!(rt; notes[8].as_str(), "and 1 more step");
}

#[test]
fn runs_are_told(rt: HostRuntime) {
    let sends = SpokenStep {
        event: event(Act::Sends, "\"elect3, 2\"", 1, 0, 19),
        round: Some(1),
    };
    let receives = SpokenStep {
        event: event(Act::Receives, "\"elect1, 1\"", 2, 0, 12),
        round: Some(2),
    };
    let other = SpokenStep {
        event: event(Act::Acts, "\"look\"", 0, 0, 3),
        round: None,
    };
    let steps = [
        sends, other, other, other, other, other, other, other, other, receives,
    ];
    let rows = run_rows(rt.alloc(), &["n1", "n2", "n3"], &steps).expect(&rt, "memory");
    assert_eq!(rt; rows.len(), 10);
    assert_eq!(rt;
        rows[0].as_str(),
        " 1. round 1: n2 sends \"elect3, 2\" to n1 (line 19)"
    );
    assert_eq!(rt; rows[1].as_str(), " 2. n1 does \"look\" (line 3)");
    assert_eq!(rt;
        rows[9].as_str(),
        "10. round 2: n3 receives \"elect1, 1\" from n1 (line 12)"
    );
}

/// What a check found, if nothing else is said of it.
fn check(found: RacesFound) -> SpokenCheck {
    SpokenCheck {
        found,
        wider: 0,
        left_out: 0,
        accepted: 0,
        stale: 0,
        shown: None,
        can_happen: true,
    }
}

/// What checks found.
fn checks() -> [(SpokenCheck, &'static str); 6] {
    let mut wider = check(RacesFound::InScenarios {
        races: 2,
        scenarios: 2,
        free: 0,
    });
    wider.wider = 3;
    let mut shown = check(RacesFound::InOneScenario(2));
    shown.left_out = 2;
    shown.shown = Some(1);
    let mut never = check(RacesFound::InOneScenario(1));
    never.can_happen = false;
    let mut stale = check(RacesFound::InScenarios {
        races: 0,
        scenarios: 2,
        free: 2,
    });
    stale.stale = 3;
    let rounds = check(RacesFound::InRounds {
        within: 0,
        between: 1,
    });
    let one_free = check(RacesFound::InScenarios {
        races: 1,
        scenarios: 2,
        free: 1,
    });
    [
        (
            wider,
            "2 distinct races, 3 wider ones, across these, not shown; 0 of 2 scenarios are free of races",
        ),
        (shown, "2 races, 2 left out by --allow, 1 shown"),
        (never, "1 race; it can never happen as it is drawn"),
        (stale, "no races in 2 scenarios, 3 stale marks"),
        (rounds, "no races in a round, 1 between rounds"),
        (
            one_free,
            "1 distinct race; 1 of 2 scenarios is free of races",
        ),
    ]
}

#[test]
fn checks_are_told(rt: HostRuntime) {
    for (check, wanted) in &checks() {
        let verdict = check.verdict(rt.alloc()).expect(&rt, "memory");
        assert_eq!(rt; verdict.as_str(), *wanted);
    }
}

#[test]
fn readiness_is_told(rt: HostRuntime) {
    let table = [
        (1, None, false, None, "1 way to block, no run finishes"),
        (2, None, true, None, "2 ways to block"),
        (
            0,
            Some(1),
            true,
            None,
            "no instance can block in a round, 1 way between rounds",
        ),
        (0, None, true, Some(1), "no instance can block, 1 race left"),
    ];
    for (blocked, between, finishes, left, wanted) in table {
        let found = SpokenReadiness {
            blocked,
            between,
            finishes,
            left,
        };
        let verdict = found.verdict(rt.alloc()).expect(&rt, "memory");
        assert_eq!(rt; verdict.as_str(), wanted);
    }
}

#[test]
fn texts_are_closed(rt: HostRuntime) {
    let verdict = with_queues(rt.alloc(), "3 races", "pair; mailbox worker").expect(&rt, "memory");
    let line = closing_line(rt.alloc(), "own_queues.msc", verdict.as_str(), false);
    assert_eq!(rt;
        line.expect(&rt, "memory").as_str(),
        "own_queues.msc: 3 races (queues: pair; mailbox worker)"
    );
    let verdict = refused_verdict(rt.alloc(), 2).expect(&rt, "memory");
    let line = closing_line(rt.alloc(), "a.msc", verdict.as_str(), true);
    assert_eq!(rt;
        line.expect(&rt, "memory").as_str(),
        "\x1b[1ma.msc: \x1b[0mrefused, 2 more faults not shown"
    );
    let line = help_line(rt.alloc(), MarkedText::Diagram, true).expect(&rt, "memory");
    assert_eq!(rt;
        line.as_str(),
        "\x1b[1mhelp\x1b[0m: a race that is meant is accepted by the line \"%% race ok: REASON\" above one of its arrows"
    );
    let line = help_line(rt.alloc(), MarkedText::Chart, false).expect(&rt, "memory");
    assert_eq!(rt;
        line.as_str(),
        "help: a race that is meant is accepted by the comment 'race ok: REASON' of one of its events"
    );
}

/// A choice on a line.
fn choice(subject: &str, line: usize, outcome: Outcome) -> SpokenChoice<'_> {
    SpokenChoice {
        subject,
        line: Some(line),
        outcome,
    }
}

#[test]
fn scenarios_are_told(rt: HostRuntime) {
    let loops = choice("loop \"poll\"", 13, Outcome::Times(2));
    let skipped = choice("opt \"rebalance\"", 20, Outcome::Skipped);
    let lost = choice("\"PUBACK\"", 12, Outcome::Lost);
    let branch = choice("else \"infected\"", 20, Outcome::Branch);
    let table = [
        (
            2,
            4,
            3,
            &[loops, skipped][..],
            "in 2 of 4 scenarios, such as scenario 3: loop \"poll\" (line 13) twice, opt \"rebalance\" (line 20) skipped",
        ),
        (
            1,
            2,
            1,
            &[lost][..],
            "in scenario 1 of 2: \"PUBACK\" (line 12) is lost",
        ),
        (
            1,
            2,
            2,
            &[branch][..],
            "in scenario 2 of 2: else \"infected\" (line 20)",
        ),
        (2, 2, 1, &[][..], "in both scenarios"),
        (3, 3, 1, &[][..], "in all 3 scenarios"),
    ];
    for (count, scenarios, number, choices, wanted) in table {
        let choices = choices_text(rt.alloc(), choices).expect(&rt, "memory");
        let found = scenarios_text(rt.alloc(), count, scenarios, number, choices.as_str());
        assert_eq!(rt; found.expect(&rt, "memory").as_str(), wanted);
    }
}

#[test]
fn ways_follow_the_kinds_of_links(rt: HostRuntime) {
    let table = [
        (LinkKind::Pair, LinkKind::Pair, true, Way::OneConnection),
        (LinkKind::Mailbox, LinkKind::Mailbox, true, Way::OneMailbox),
        // a message and that of the next round
        (LinkKind::Single, LinkKind::Single, true, Way::ByThemselves),
        (LinkKind::Pair, LinkKind::Pair, false, Way::TwoConnections),
        (LinkKind::Single, LinkKind::Single, false, Way::ByThemselves),
        (LinkKind::Pair, LinkKind::Single, false, Way::TwoQueues),
    ];
    for (first, second, in_one_queue, wanted) in table {
        assert_eq!(rt; Way::of(first, second, in_one_queue), wanted);
    }
}
