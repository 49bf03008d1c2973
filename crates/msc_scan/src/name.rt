//! Names of files and folders: what a file is by its name, and which names are passed over.

ghost use Rattle.std.specs.Prelude.{◌≡◌, ◌||◌, ◌&&◌, IfOk};
ghost use Rattle.std.specs.List.{list_any};
ghost use Rattle.std.specs.String.{string_bytes};
ghost use Rattle.msc_scan.specs.Names.{is_called, is_hidden, is_made, is_passed_over, is_skipped};
ghost use Rattle.msc_scan.specs.Names.{kind_of_name, whole_name};
ghost use Rattle.msc_scan.specs.Walks.{names_of};

use std::alloc::{AllocError, Global};

/// How a file is read, by the ending of its name.
#[derive(Clone, Copy, Debug, PartialEq, Eq)]
pub enum FileKind {
    /// A chart: `.msc`.
    Chart,
    /// Mermaid: `.mmd` or `.mermaid`.
    Mermaid,
    /// Markdown: `.md` or `.markdown`.
    Markdown,
}

/// How a file is read, by the ending of its name. Case counts; other endings say nothing.
pub fn kind_of_name(name: &str) -> Option<FileKind>
    ensures { result ≡ kind_of_name name.now }
{
    let name = name.as_bytes();
    if name.ends_with(b".msc") {
        Some(FileKind::Chart)
    } else if name.ends_with(b".mmd") || name.ends_with(b".mermaid") {
        Some(FileKind::Mermaid)
    } else if name.ends_with(b".md") || name.ends_with(b".markdown") {
        Some(FileKind::Markdown)
    } else {
        None
    }
}

/// Whether a name begins with a dot.
fn is_hidden(name: &[u8]) -> bool
    ensures { result ≡ is_hidden name.now }
{
    match name {
        [] => false,
        [first, ..] => *first == b'.',
    }
}

/// Whether folders of this name hold what tools put there.
fn is_made(name: &str) -> bool
    ensures { result ≡ is_made name.now }
{
    name == "node_modules" || name == "target"
}

/// Whether this is the name of a file or folder, or its whole name.
fn is_called(skip: &str, name: &str, whole: &str) -> bool
    ensures { result ≡ is_called name.now whole.now skip.now }
{
    skip == name || skip == whole
}

/// Whether one of these is such a name.
fn any_called(skips: &[&str], name: &str, whole: &str) -> bool
    ensures { result ≡ list_any (λ skip. is_called name.now whole.now skip.now) skips.now }
{
    skips.iter().any(|skip| is_called(skip, name, whole))
}

/// Whether one of these is the name of a file or folder, or its whole name.
fn is_skipped(skips: &[&str], name: &str, whole: &str) -> bool
    ensures { result ≡ is_skipped (names_of skips.now) name.now whole.now }
{
    any_called(skips, name, whole)
}

/// Whether a name in a folder is passed over: it begins with a dot, a folder has the name of one
/// that tools fill, or the name or the whole name is one of those to skip.
pub(crate) fn is_passed_over(is_folder: bool, skips: &[&str], name: &str, whole: &str) -> bool
    ensures { result
        ≡ is_passed_over is_folder (names_of skips.now) name.now whole.now }
{
    is_hidden(name.as_bytes()) || is_folder && is_made(name) || is_skipped(skips, name, whole)
}

/// The whole name of a name in a folder. The folder's name is left out if it is `.` or `./`, as code
/// hosts write it.
pub(crate) fn whole_name(alloc: Global, folder: &str, name: &str) -> Result<String, AllocError>
    ensures { IfOk result (λ whole. string_bytes whole ≡ whole_name folder.now name.now) }
{
    if folder == "." || folder == "./" {
        String::from_str(alloc, name)
    } else if folder.as_bytes().ends_with(b"/") {
        format!(in alloc; "{folder}{name}")
    } else {
        format!(in alloc; "{folder}/{name}")
    }
}
