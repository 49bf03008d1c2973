//! Tests of comments.

use crate::commented::commented;
use listed::Listed;
use msc_place::Places;
use std::alloc::AllocGlobal;

const TEXT: &[u8] = b"msc t;\ninstance A;\n  out m, 1 to B;\n  action ';';\nendinstance;\n\
    instance B;\n  in m, 1 from A;\nendinstance;\nendmsc;\n";

#[test]
fn comments_stand_before_semicolons(rt: HostRuntime) {
    let alloc = rt.alloc();
    let done = match (Places::of(alloc, TEXT), Vec::from_slice(alloc, b"it's")) {
        (Ok(places), Ok(text)) => commented(alloc, &places, &[None, Some(Listed::from_vec(text))]),
        _ => Ok(Vec::new(alloc)),
    };
    let same = match done {
        Ok(text) => {
            text.as_slice()
                == "msc t;\ninstance A;\n  out m, 1 to B;\n  action ';' comment 'it''s';\n\
                    endinstance;\ninstance B;\n  in m, 1 from A;\nendinstance;\nendmsc;\n"
                    .as_bytes()
        }
        Err(_) => false,
    };
    assert!(rt; same);
}
