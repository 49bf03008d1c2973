//! Folders that are walked. No clause says what a folder holds.

use crate::finding::entries_of;
use crate::name::FileKind;
use crate::walk::Found;
use std::alloc::Alloc;
use std::rt::HostRuntime;
use std::{env, fs, io, process};

/// Files below the folder of the test.
const FILES: [&str; 9] = [
    "b.msc",
    "a.mmd",
    "notes.txt",
    ".hidden.msc",
    "skipped.md",
    "a/b.mermaid",
    "a/skipped/c.msc",
    "a/target/d.msc",
    "target.markdown",
];

/// The names that are found, in their order, and what they are.
const FOUND: [(&str, FileKind); 4] = [
    ("a.mmd", FileKind::Mermaid),
    ("a/b.mermaid", FileKind::Mermaid),
    ("b.msc", FileKind::Chart),
    ("target.markdown", FileKind::Markdown),
];

#[test]
fn folders_are_walked(rt: HostRuntime) -> io::Result<()> {
    let temporary = env::temp_dir(&rt)?;
    let id = process::id(rt.process());
    let top = format!(in rt.alloc(); "{}/msc_scan.{id}", temporary.as_path().to_string_lossy())?;
    for folder in ["a/skipped", "a/target"] {
        let path = format!(in rt.alloc(); "{top}/{folder}")?;
        fs::create_dir_all(&rt, path.as_str())?;
    }
    for file in FILES {
        let path = format!(in rt.alloc(); "{top}/{file}")?;
        fs::write(&rt, path.as_str(), "")?;
    }
    let skipped = format!(in rt.alloc(); "{top}/skipped.md")?;
    let skips = ["skipped", skipped.as_str()];
    let entries = entries_of(&rt, rt.alloc(), top.as_str(), skips.as_slice())?;
    assert_eq!(rt; entries.len(), FOUND.len());
    for i in 0..FOUND.len() {
        let (name, kind) = FOUND[i];
        let whole = format!(in rt.alloc(); "{top}/{name}")?;
        assert_eq!(rt; entries[i].name.as_str(), whole.as_str());
        assert!(rt;
            matches!(entries[i].found, Found::File(Some(it)) if it == kind),
            "{name}"
        );
    }
    fs::remove_dir_all(&rt, top.as_str())
}
