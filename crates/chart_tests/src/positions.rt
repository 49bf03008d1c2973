//! Positions in texts: lines, columns, excerpts, and the places of events and names.

ghost use Rattle.std.specs.Prelude.{◌≡◌};

use crate::host::Host;
use msc_place::{EventPlace, Lines, Places, Position, excerpt, token_at};

/// Texts, places, and the line and the column of each.
const POSITIONS: &[(&[u8], usize, usize, usize)] = &[
    (b"", 0, 1, 1),
    (b"ab\r\ncd", 2, 1, 3),
    (b"ab\r\ncd", 3, 1, 4),
    (b"ab\r\ncd", 4, 2, 1),
    (b"ab\r\ncd", 6, 2, 3),
    (b"a\n\n", 2, 2, 1),
    (b"a\n\n", 3, 3, 1),
    (b"a\rb", 2, 1, 3),
    // A byte order mark, and a letter of two bytes.
    (b"\xEF\xBB\xBFmsc", 3, 1, 2),
    (b"\xC3\xA9;x", 1, 1, 2),
    (b"\xC3\xA9;x", 2, 1, 2),
    (b"\xC3\xA9;x", 3, 1, 3),
];

#[test]
fn lines_and_columns(rt: HostRuntime) {
    for &(text, at, line, column) in POSITIONS {
        if at <= text.len() {
            assert_eq!(rt;
                Position::of(text, at),
                Position { line, column },
                "{text:?} at {at}"
            );
        }
    }
}

/// The lines of a text.
fn lines_of<'t>(rt: &impl Host, text: &'t [u8]) -> Lines<'t>
    ensures { result ≡ text.entry.now }
{
    Lines::of(rt.alloc(), text).expect(rt, "memory")
}

/// The position of a place by an index of the text's lines.
fn position(rt: &impl Host, text: &[u8], at: usize) -> Position {
    let lines = lines_of(rt, text);
    lines.position(at.min(text.len()))
}

#[test]
fn positions_by_an_index(rt: HostRuntime) {
    for &(text, at, line, column) in POSITIONS {
        assert_eq!(rt;
            position(&rt, text, at),
            Position { line, column },
            "{text:?} at {at}"
        );
    }
}

/// A text of `count` lines of three bytes each.
fn ruled(rt: &impl Host, count: usize) -> Vec<u8> {
    let mut text = Vec::new(rt.alloc());
    for _ in 0..count {
        text.extend_from_slice(b"\xC3\xA9\n").expect(rt, "memory");
    }
    text
}

/// Whether each place of a text has one position, counted from the beginning and by an index.
fn agrees(rt: &impl Host, text: &[u8]) -> bool {
    let lines = lines_of(rt, text);
    for at in 0..=text.len() {
        if at > text.len() || lines.position(at) != Position::of(text, at) {
            return false;
        }
    }
    true
}

#[test]
fn an_index_and_a_count_agree(rt: HostRuntime) {
    assert!(rt; agrees(&rt, &ruled(&rt, 700)));
}

/// Whether these are the two lines of a place.
fn shows(rt: &impl Host, text: &[u8], at: usize, wanted: &[u8]) -> bool {
    if at > text.len() {
        return false;
    }
    let lines = excerpt(rt.alloc(), text, at).expect(rt, "memory");
    lines.as_slice() == wanted
}

/// Texts, places, and the two lines of each.
const EXCERPTS: &[(&[u8], usize, &[u8])] = &[
    (b"", 0, b"  \n  ^\n"),
    (
        b"msc t;\ninstance a;\n  out m to b\nendinstance;",
        21,
        b"    out m to b\n    ^\n",
    ),
    (b"msc t;\ninstance a;\n", 19, b"  \n  ^\n"),
    (b"a\tb;\r\nc", 2, b"  a b;\n    ^\n"),
    // After the CR the mark follows the last column.
    (b"a\tb;\r\nc", 5, b"  a b;\n      ^\n"),
    (b"out \x1B[31m\x7F;", 4, b"  out ?[31m?;\n      ^\n"),
    // A letter of two bytes is one column, and a continuation byte is none.
    (b"m\xC3\xA9;x", 3, b"  m?;x\n    ^\n"),
    (b"m\xC3\xA9;x", 2, b"  m?;x\n    ^\n"),
];

#[test]
fn lines_of_places(rt: HostRuntime) {
    for &(text, at, wanted) in EXCERPTS {
        assert!(rt; shows(&rt, text, at, wanted), "{text:?} at {at}");
    }
}

/// A line of many columns.
const LONG: &[u8] = &[b'x'; 100_000];

/// Places of it, the number of columns that are shown of its row, and the number of columns before
/// the place.
const WINDOWS: &[(usize, usize, usize)] = &[
    (0, 100, 0),
    (49, 100, 49),
    (50, 100, 49),
    (99_948, 100, 49),
    (99_950, 99, 49),
    (100_000, 49, 49),
];

/// Whether this number of columns is shown of a long line, and this number before the place.
fn shows_window(rt: &impl Host, at: usize, columns: usize, before: usize) -> bool {
    if at > LONG.len() {
        return false;
    }
    let lines = excerpt(rt.alloc(), LONG, at).expect(rt, "memory");
    let row = lines.iter().position(|byte| *byte == b'\n');
    let mark = lines.iter().position(|byte| *byte == b'^');
    row == columns.checked_add(2)
        && mark == columns.checked_add(before).and_then(|n| n.checked_add(5))
}

#[test]
fn windows_of_a_long_line(rt: HostRuntime) {
    for &(at, columns, before) in WINDOWS {
        assert!(rt; shows_window(&rt, at, columns, before), "{at}");
    }
}

/// A text with notes, comments and actions that hold the words and marks that begin and end
/// statements.
const TEXT: &[u8] = b"MSC t; inst a /* inst x, */ : p, b comment 'inst y,'; inst c;\n\
/* out m to b; */ INSTANCE a : p q comment 'instance x; out m to b;';\n\
  out m, 1(x, y) to b /* ; */ comment 'to c; from d';\n\
  action 'in n from b; out''s ;';\n\
  concurrent comment 'in'; in n from b; OUT o TO c; endconcurrent;\n\
endinstance;\r\n\
instance b; in m, 1 from a; out n to a; endinstance;\n\
instance c; concurrent; endconcurrent; in o from a; endinstance; endmsc;";

/// Its statements of events, each with its address, which an action does not have.
const STATEMENTS: &[(&[u8], Option<&[u8]>)] = &[
    (
        b"out m, 1(x, y) to b /* ; */ comment 'to c; from d';",
        Some(b"b /* ; */ comm"),
    ),
    (b"action 'in n from b; out''s ;';", None),
    (b"in n from b;", Some(b"b; OUT")),
    (b"OUT o TO c;", Some(b"c; endconc")),
    (b"in m, 1 from a;", Some(b"a; out n")),
    (b"out n to a;", Some(b"a; endinst")),
    (b"in o from a;", Some(b"a; endinstance; endmsc;")),
];

/// The bytes after the names of its sections, and of its header.
const SECTIONS: &[&[u8]] = &[b"a : p q comment", b"b; in m", b"c; concurrent;"];

const HEADER: &[&[u8]] = &[b"a /* inst x", b"b comment 'inst y", b"c;\n/*"];

/// The places of a text.
fn places_of<'t>(rt: &impl Host, text: &'t [u8]) -> Places<'t>
    ensures { result.text ≡ text.entry.now }
{
    Places::of(rt.alloc(), text).expect(rt, "memory")
}

/// Whether the text has these bytes at a place.
fn stands(text: &[u8], at: Option<usize>, wanted: Option<&[u8]>) -> bool {
    match (at, wanted) {
        (Some(at), Some(wanted)) => text.get(at..).is_some_and(|rest| rest.starts_with(wanted)),
        (None, None) => true,
        _ => false,
    }
}

/// Whether the text has a statement at a place, with its address.
fn is_statement(
    text: &[u8],
    place: Option<EventPlace>,
    wanted: &[u8],
    address: Option<&[u8]>,
) -> bool {
    match place {
        Some(place) => {
            text.get(place.start..place.end) == Some(wanted) && stands(text, place.address, address)
        }
        None => false,
    }
}

#[test]
fn statements_of_events(rt: HostRuntime) {
    let places = places_of(&rt, TEXT);
    for (e, &(wanted, address)) in STATEMENTS.iter().enumerate() {
        assert!(rt;
            is_statement(TEXT, places.event(e), wanted, address),
            "event {e}"
        );
    }
    assert!(rt; places.event(STATEMENTS.len()).is_none(), "no more events");
}

#[test]
fn names_of_sections_and_of_the_header(rt: HostRuntime) {
    let places = places_of(&rt, TEXT);
    for (i, &wanted) in SECTIONS.iter().enumerate() {
        assert!(rt;
            stands(TEXT, places.section(i), Some(wanted)),
            "section {i}"
        );
    }
    for (k, &wanted) in HEADER.iter().enumerate() {
        assert!(rt; stands(TEXT, places.header(k), Some(wanted)), "name {k}");
    }
    assert!(rt;
        places.section(SECTIONS.len()).is_none(),
        "no more sections"
    );
    assert!(rt; places.header(HEADER.len()).is_none(), "no more names");
}

/// Lines of `TEXT`, and the first event of each.
const LINES: &[(usize, Option<usize>)] = &[
    (0, None),
    (2, None),
    (3, Some(0)),
    (4, Some(1)),
    (5, Some(2)),
    (6, None),
    (7, Some(4)),
    (8, Some(6)),
    (9, None),
];

/// The first event of a line of `TEXT`.
fn event_at_line(rt: &impl Host, line: usize) -> Option<usize> {
    let lines = lines_of(rt, TEXT);
    places_of(rt, TEXT).event_at_line(&lines, line)
}

#[test]
fn first_events_of_lines(rt: HostRuntime) {
    for &(line, wanted) in LINES {
        assert_eq!(rt; event_at_line(&rt, line), wanted, "line {line}");
    }
}

/// Texts, places, the place at which the token there begins, and the end of the token before it.
const SPOTS: &[(&[u8], usize, Option<u32>, Option<usize>)] = &[
    (b"msc t; /* x */ instance a;", 0, Some(0), None),
    (b"msc t; /* x */ instance a;", 15, Some(15), Some(6)),
    (b"msc t; /* x */ instance a;", 16, Some(24), Some(23)),
    (b"msc t; /* x */ instance a; ", 27, None, Some(26)),
    (b"", 0, None, None),
    // A text without tokens has no such place.
    (b"msc t; ?", 4, None, None),
];

/// Whether this token begins at a place of a text or after it, and the token before it ends there.
fn is_spot(
    rt: &impl Host,
    text: &[u8],
    at: usize,
    start: Option<u32>,
    behind: Option<usize>,
) -> bool {
    let spot = token_at(rt.alloc(), text, at).expect(rt, "memory");
    spot.token.map(|token| token.start) == start && spot.behind == behind
}

#[test]
fn what_stands_at_places(rt: HostRuntime) {
    for &(text, at, start, behind) in SPOTS {
        assert!(rt; is_spot(&rt, text, at, start, behind), "{text:?} at {at}");
    }
}
