//! Tests of imports: the choices of scenarios, the places of events, and diagrams in Markdown.

use listed::Listed;
use msc_import::{
    Imported, Importing, ImportingAll, Language, Manner, Own, Par, Refused, draw_all, import,
    places, read,
};
use msc_mermaid::{ImportFault, diagram_of};
use msc_place::Position;
use msc_scenarios::{all_choices, scenarios};
use std::alloc::AllocGlobal;

/// The usual options of an import.
const MANNER: Manner = Manner {
    own: Own::Action,
    par: Par::Refused,
};

/// A text, the numbers of rounds, and the choices of its scenarios.
type Chosen = (&'static [u8], &'static [usize], &'static [&'static [usize]]);

/// Blocks of each kind, and blocks inside others and after them.
const CHOICES: &[Chosen] = &[
    (b"sequenceDiagram\nA->>B: a", &[0, 2], &[&[]]),
    (
        b"sequenceDiagram\nA-xB: a\nopt x\nA--xB: b\nend\nA-xA: c",
        &[0, 2],
        &[
            &[0, 0],
            &[0, 1, 0],
            &[0, 1, 1],
            &[1, 0],
            &[1, 1, 0],
            &[1, 1, 1],
        ],
    ),
    (
        b"sequenceDiagram\nalt x\nA->>B: a\nelse y\nA->>B: a\nelse z\nA->>B: a\nend",
        &[0, 2],
        &[&[0], &[1], &[2]],
    ),
    (
        b"sequenceDiagram\nalt x\nA->>B: a\nopt y\nA->>B: a\nend\nend",
        &[0, 2],
        &[&[0], &[1, 0], &[1, 1]],
    ),
    (
        b"sequenceDiagram\nopt y\nA->>B: a\nend\nopt y\nA->>B: a\nend",
        &[0, 2],
        &[&[0, 0], &[0, 1], &[1, 0], &[1, 1]],
    ),
    (
        b"sequenceDiagram\nopt x\nNote over A: n\nend\nopt y\nA->>B: a\nend",
        &[0, 2],
        &[&[0], &[1]],
    ),
    (
        b"sequenceDiagram\nrect x\nopt y\nA->>B: a\nend\nend",
        &[0, 2],
        &[&[0], &[1]],
    ),
    (
        b"sequenceDiagram\nloop x\nopt y\nA->>B: a\nend\nend",
        &[0, 2],
        &[&[0], &[2, 0, 0], &[2, 0, 1], &[2, 1, 0], &[2, 1, 1]],
    ),
    (
        b"sequenceDiagram\nloop x\nopt y\nA->>B: a\nend\nend",
        &[0],
        &[&[0]],
    ),
    (
        b"sequenceDiagram\nloop x\nA->>B: a\nend",
        &[1, 3],
        &[&[1], &[3]],
    ),
    (
        b"sequenceDiagram\nloop x\nbreak y\nA->>B: a\nend\nA->>B: a\nend\nopt y\nA->>B: a\nend",
        &[0, 2],
        &[
            &[0, 0],
            &[0, 1],
            &[2, 0, 0, 0],
            &[2, 0, 0, 1],
            &[2, 0, 1, 0],
            &[2, 0, 1, 1],
            &[2, 1, 0],
            &[2, 1, 1],
        ],
    ),
    (
        b"sequenceDiagram\nbreak x\nA->>B: a\nend\nopt y\nA->>B: a\nend",
        &[0, 2],
        &[&[0, 0], &[0, 1], &[1]],
    ),
    (
        b"sequenceDiagram\nbreak x\nA->>B: a\nopt y\nA->>B: a\nend\nend",
        &[0, 2],
        &[&[0], &[1, 0], &[1, 1]],
    ),
    (
        b"sequenceDiagram\ncritical x\nopt y\nA->>B: a\nend\noption z\nA->>B: a\noption w\nA->>B: a\nend",
        &[0, 2],
        &[&[0, 0], &[0, 1], &[1, 0], &[1, 1], &[2, 0], &[2, 1]],
    ),
    (
        b"sequenceDiagram\ncritical x\nopt y\nA->>B: a\nend\nend",
        &[0, 2],
        &[&[0], &[1]],
    ),
    (
        b"sequenceDiagram\ncritical x\nbreak y\nA->>B: a\nend\noption z\nopt y\nA->>B: a\nend\nend",
        &[0, 2],
        &[&[0, 0], &[0, 1], &[1, 0, 0], &[1, 0, 1], &[1, 1]],
    ),
    (
        b"sequenceDiagram\npar x\nopt y\nA->>B: a\nend\nand z\nbreak w\nC->>D: c\nend\nopt y\nC->>D: d\nend\nend",
        &[0, 2],
        &[
            &[0, 0, 0],
            &[0, 0, 1],
            &[0, 1],
            &[1, 0, 0],
            &[1, 0, 1],
            &[1, 1],
        ],
    ),
    (
        b"sequenceDiagram\npar x\nbreak w\nA->>B: a\nend\nand z\nC->>D: d\nend\nopt y\nA->>B: a\nend",
        &[0, 2],
        &[&[0, 0], &[0, 1], &[1, 0], &[1, 1]],
    ),
];

/// Whether these are the lists.
fn are_lists(lists: &[Listed<usize>], wanted: &[&[usize]]) -> bool {
    if lists.len() != wanted.len() {
        return false;
    }
    for i in 0..lists.len() {
        if lists[i].as_slice() != wanted[i] {
            return false;
        }
    }
    true
}

/// Whether a text's scenarios have these choices, and their number is right.
fn are_choices(
    rt: &impl AllocGlobal,
    text: &[u8],
    rounds: &[usize],
    wanted: &[&[usize]],
) -> Result<bool, ImportFault> {
    let diagram = diagram_of(rt.alloc(), None, text)?;
    let lists = all_choices(rt.alloc(), &diagram, rounds)?;
    let number = scenarios(rt.alloc(), &diagram, rounds)?;
    Ok(number == wanted.len() && are_lists(lists.as_slice(), wanted))
}

#[test]
fn the_choices_of_scenarios(rt: HostRuntime) {
    for &(text, rounds, wanted) in CHOICES {
        let found = match are_choices(&rt, text, rounds, wanted) {
            Ok(same) => same,
            Err(_) => false,
        };
        assert!(rt; found, "{text:?}");
    }
}

/// A text with columns that aren't bytes, and blanks before its statements.
const PLACED: &[u8] =
    b"sequenceDiagram\nparticipant B\n  \xc3\xa9->>B: a; B->>\xc3\xa9: b\n\topt x\n\tB->>B: c\nend\n\xc3\xa9 \xc3\xa9->>C: d";

/// The position at which the arrow of each event of its chart begins.
const PLACES: &[Position] = &[
    Position { line: 3, column: 3 },
    Position {
        line: 3,
        column: 13,
    },
    Position { line: 5, column: 2 },
    Position { line: 3, column: 3 },
    Position {
        line: 3,
        column: 13,
    },
    Position { line: 7, column: 1 },
    Position { line: 7, column: 1 },
];

#[test]
fn the_places_of_events(rt: HostRuntime) {
    let found = match diagram_of(rt.alloc(), None, PLACED) {
        Ok(diagram) => match places(rt.alloc(), &diagram, &[], MANNER) {
            Ok(found) => found.as_slice() == PLACES,
            Err(_) => false,
        },
        Err(_) => false,
    };
    assert!(rt; found);
}

/// The import of all scenarios, if loops go these numbers of rounds. The name of the charts is `t`.
fn importing_all<'r>(
    rounds: &'r [usize],
    limit: usize,
    fence: Option<usize>,
) -> ImportingAll<'r, 'static> {
    ImportingAll {
        language: Language::Any,
        fence,
        cross: None,
        manner: MANNER,
        choose: None,
        rounds,
        limit,
        name: b"t",
    }
}

/// Whether a text has scenarios with just these choices, if loops go these numbers of rounds.
fn has_choices(rt: &impl AllocGlobal, text: &[u8], rounds: &[usize], wanted: &[&[usize]]) -> bool {
    let importing = importing_all(rounds, wanted.len(), None);
    let Ok(diagram) = read(rt.alloc(), importing.reading(), text) else {
        return false;
    };
    let Ok(found) = draw_all(rt.alloc(), importing, &diagram) else {
        return false;
    };
    let list = found.list;
    let mut same = list.len() == wanted.len() && !found.drawn;
    for i in 0..list.len() {
        let choices = match list.scenario(rt.alloc(), i) {
            Ok(scenario) => scenario.choices,
            Err(_) => Listed::from_vec(Vec::new(rt.alloc())),
        };
        same = same && i < wanted.len() && choices.as_slice() == wanted[i];
    }
    same
}

#[test]
fn all_choices_of_a_diagram(rt: HostRuntime) {
    for &(text, rounds, wanted) in CHOICES {
        let same = has_choices(&rt, text, rounds, wanted);
        assert!(rt; same, "{text:?}");
    }
}

/// Nested loops: each round of one goes all rounds of the next.
const DEEP: &[u8] = b"sequenceDiagram\nloop x\nloop y\nloop z\nA->>B: a\nend\nend\nend\nA->>B: b";

#[test]
fn lists_of_choices_are_bounded(rt: HostRuntime) {
    for (rounds, wanted) in [(200, true), (300, false), (1024, false)] {
        let found = match diagram_of(rt.alloc(), None, DEEP) {
            Ok(diagram) => all_choices(rt.alloc(), &diagram, &[rounds]).is_ok(),
            Err(_) => !wanted,
        };
        assert!(rt; found == wanted, "{rounds}");
    }
}

/// Two diagrams, the second with a block.
const MARKDOWN: &[u8] =
    b"# Pay\n\n```mermaid\nsequenceDiagram\nA->>B: a\n```\n\n```mermaid\nsequenceDiagram\nB->>A: b\n```\n\n```mermaid\nsequenceDiagram\nopt x\nA->>B: a\n```\n";

/// The main scenario of a diagram of [`MARKDOWN`].
fn main_of(rt: &impl AllocGlobal, number: usize) -> Result<Imported, Refused> {
    let importing = Importing {
        language: Language::Mermaid,
        fence: Some(number),
        cross: None,
        manner: MANNER,
        choices: None,
        name: b"t",
    };
    import(rt.alloc(), importing, MARKDOWN)
}

#[test]
fn a_diagram_of_markdown_has_its_places(rt: HostRuntime) {
    let at = Position {
        line: 10,
        column: 1,
    };
    let found = match main_of(&rt, 2) {
        Ok(found) => found.places.as_slice() == [at, at].as_slice(),
        Err(_) => false,
    };
    assert!(rt; found);
    for (number, wanted) in [
        (0, ImportFault::NoDiagram(0)),
        (
            3,
            ImportFault::Unended(Position {
                line: 15,
                column: 1,
            }),
        ),
        (4, ImportFault::NoDiagram(4)),
    ] {
        let fault = main_of(&rt, number).err().map(|refused| refused.fault);
        assert!(rt; fault == Some(wanted), "{number}");
        let reading = importing_all(&[0], 1, Some(number)).reading();
        let fault = read(rt.alloc(), reading, MARKDOWN)
            .err()
            .map(|refused| refused.fault);
        assert!(rt; fault == Some(wanted), "{number}");
    }
}
