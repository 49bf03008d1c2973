//! The kind of a text that is no sequence diagram.

use crate::bytes::first_word;
use crate::counting_lines::first_counting;
use crate::hints::{placed, worded};
use crate::names::word_at;
use crate::near::{lowered, nearest};
use crate::statement::line_start;
use msc_notes::{Note, Tag};
use std::alloc::{AllocError, Global};

/// The words that Mermaid's other diagrams begin with.
const KINDS: &[&[u8]] = &[
    b"flowchart",
    b"graph",
    b"classDiagram",
    b"stateDiagram",
    b"erDiagram",
    b"gantt",
    b"pie",
    b"journey",
    b"gitGraph",
    b"mindmap",
    b"timeline",
    b"quadrantChart",
    b"requirementDiagram",
    b"C4Context",
    b"C4Container",
    b"C4Component",
    b"C4Dynamic",
    b"C4Deployment",
    b"sankey",
    b"xychart",
    b"block",
    b"packet",
    b"kanban",
    b"architecture",
    b"zenuml",
    b"radar",
    b"treemap",
    b"info",
];

/// The word that a sequence diagram begins with.
const HEAD: &[u8] = b"sequenceDiagram";

/// The note on the word that a text begins with.
fn kind_of(alloc: Global, word: &[u8]) -> Result<Option<(Tag, Vec<u8>)>, AllocError> {
    if KINDS.iter().any(|kind| *kind == word) {
        let mut text = Vec::from_slice(alloc, word)?;
        text.extend_from_slice(b" is no sequence diagram")?;
        return Ok(Some((Tag::Hint, text)));
    }
    let small = lowered(alloc, word)?;
    if small.as_slice() == b"sequencediagram".as_slice() {
        let text = Vec::from_slice(alloc, b"write sequenceDiagram, with a capital D")?;
        return Ok(if word == HEAD {
            None
        } else {
            Some((Tag::Hint, text))
        });
    }
    match nearest(alloc, &[HEAD], first_word(word))? {
        None => Ok(None),
        Some(head) => Ok(Some((Tag::Nearest, Vec::from_slice(alloc, head)?))),
    }
}

/// The note on the kind of a text whose fault is at this place: with a place of its own, if that is
/// on another line.
pub(crate) fn kind_note(
    alloc: Global,
    text: &[u8],
    fault: usize,
) -> Result<Option<Note>, AllocError> {
    let Some(at) = first_counting(text) else {
        return Ok(None);
    };
    let Some((tag, words)) = kind_of(alloc, word_at(text, at))? else {
        return Ok(None);
    };
    if line_start(text, at) == line_start(text, fault) {
        return Ok(Some(worded(tag, words)));
    }
    Ok(Some(placed(tag, words, at)))
}
