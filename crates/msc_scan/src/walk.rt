//! The walk through a folder and those below it.
//!
//! The names of a folder are read before those of the folders in it, so that one folder is open at
//! a time.

ghost use Rattle.std.specs.Prelude.{◌≡◌, ◌++◌, ◌∷◌, [], None, Some, OnOk, map};
ghost use Rattle.std.specs.String.{string_bytes};
ghost use Rattle.msc_scan.specs.Names.{kind_of_name};
ghost use Rattle.msc_scan.specs.Walks.{is_folder, names_of, plain_item, Adds, IsBelow, IsEntry};
ghost use Rattle.msc_scan.specs.Walks.{OfFile, OfItem, OfItems, OfKind};

use crate::name::{FileKind, is_passed_over, kind_of_name, whole_name};
use std::alloc::{Alloc, AllocError, Global};
use std::fs::DirEntry;
use std::io::ErrorKind;
use std::rt::Files;
use std::{fs, io};

/// The greatest number of levels of folders below a path.
pub const LEVELS: usize = 64;

/// What a name that was found is.
#[derive(Debug, Drop)]
pub enum Found {
    /// A file, and how it is read if its name says that.
    File(Option<FileKind>),
    /// A folder below too many others.
    TooDeep,
    /// A folder that could not be read, or in which a name could not be.
    Unread(io::Error),
}

/// A name that was found, with the names of the folders before it, and what it is.
#[derive(Debug, Drop)]
pub struct Entry {
    pub name: String,
    pub found: Found,
}

/// What a name in a folder is.
#[derive(Clone, Copy, Debug, PartialEq, Eq)]
enum ItemKind {
    /// A file, or a link to one, or a link to nothing.
    File,
    Folder,
    /// Another thing, such as a link to a folder or a device.
    Other,
}

/// Whether it is a folder.
fn is_folder(kind: ItemKind) -> bool
    ensures { result ≡ is_folder kind }
{
    match kind {
        ItemKind::Folder => true,
        ItemKind::File | ItemKind::Other => false,
    }
}

/// A name in a folder.
#[derive(Debug, Drop)]
struct Item {
    name: String,
    kind: ItemKind,
}

/// What a link is. A link to a folder is not entered; one to nothing counts as a file, which cannot
/// be read.
fn kind_of_link<R: Files + Alloc + Clone + Drop>(rt: &R, link: &DirEntry<R, R::A>) -> ItemKind {
    match fs::metadata(rt, link.path()) {
        Ok(metadata) if !metadata.is_file() => ItemKind::Other,
        _ => ItemKind::File,
    }
}

/// What a name in a folder is. One that has gone counts as a file, which cannot be read.
fn kind_of_entry<R: Files + Alloc + Clone + Drop>(rt: &R, entry: &DirEntry<R, R::A>) -> ItemKind {
    let Ok(file_type) = entry.file_type() else {
        return ItemKind::File;
    };
    if file_type.is_dir() {
        ItemKind::Folder
    } else if file_type.is_symlink() {
        kind_of_link(rt, entry)
    } else if file_type.is_file() {
        ItemKind::File
    } else {
        ItemKind::Other
    }
}

/// A name in a folder, or why it could not be read. An error is a growth of memory that was
/// refused.
fn item_of<R: Files + Alloc + Clone + Drop>(
    rt: &R,
    alloc: Global,
    read: io::Result<DirEntry<R, R::A>>,
) -> Result<io::Result<Item>, AllocError> {
    match read {
        Ok(entry) => {
            let name = String::from_str(alloc, entry.file_name())?;
            let kind = kind_of_entry(rt, &entry);
            Ok(Ok(Item { name, kind }))
        }
        Err(error) if error.kind() == ErrorKind::OutOfMemory => Err(AllocError),
        Err(error) => Ok(Err(error)),
    }
}

/// The names in a folder, each of them or why it could not be read; or why the folder could not be.
/// An error is a growth of memory that was refused.
fn items_of<R: Files + Alloc + Clone + Drop>(
    rt: &R,
    alloc: Global,
    folder: &str,
) -> Result<io::Result<Vec<io::Result<Item>>>, AllocError> {
    let names = match fs::read_dir(rt, folder) {
        Ok(names) => names,
        Err(error) if error.kind() == ErrorKind::OutOfMemory => return Err(AllocError),
        Err(error) => return Ok(Err(error)),
    };
    let mut items = Vec::new(alloc);
    for name in names {
        items.push(item_of(rt, alloc, name)?)?;
    }
    Ok(Ok(items))
}

/// Adds a name that was found.
fn put(found: &mut Vec<Entry>, name: String, is: Found) -> Result<(), AllocError>
    ensures { OnOk result (Adds (IsEntry (string_bytes name) (λ it. it ≡ is))
        found.old.items found.new.items) }
{
    found.push(Entry { name, found: is })?;
    Ok(())
}

/// Adds a file in a folder, if its name says how it is read.
fn put_file(found: &mut Vec<Entry>, whole: String) -> Result<(), AllocError>
    ensures { OnOk result (Adds (OfFile (kind_of_name (string_bytes whole)) (string_bytes whole))
        found.old.items found.new.items) }
{
    match kind_of_name(whole.as_str()) {
        None => Ok(()),
        Some(kind) => put(found, whole, Found::File(Some(kind))),
    }
}

/// Adds what a name in a folder that is not passed over stands for.
#[cycle(walk)]
fn walk_kind<R: Files + Alloc + Clone + Drop>(
    rt: &R,
    alloc: Global,
    levels: usize,
    skips: &[&str],
    kind: ItemKind,
    whole: String,
    found: &mut Vec<Entry>,
) -> Result<(), AllocError>
    ensures { OnOk result (Adds (OfKind (IsBelow levels (names_of skips.now)) kind
        (string_bytes whole)) found.old.items found.new.items) }
{
    match kind {
        ItemKind::File => put_file(found, whole),
        ItemKind::Folder => walk(rt, alloc, levels, skips, whole.as_str(), found),
        ItemKind::Other => Ok(()),
    }
}

/// Adds what a name in a folder stands for.
#[cycle(walk)]
fn walk_item<R: Files + Alloc + Clone + Drop>(
    rt: &R,
    alloc: Global,
    levels: usize,
    skips: &[&str],
    folder: &str,
    item: io::Result<Item>,
    found: &mut Vec<Entry>,
) -> Result<(), AllocError>
    ensures { OnOk result (Adds (OfItem (IsBelow levels (names_of skips.now)) (names_of skips.now)
        folder.now (plain_item item)) found.old.items found.new.items) }
{
    let item = match item {
        Ok(item) => item,
        Err(error) => {
            let name = String::from_str(alloc, folder)?;
            return put(found, name, Found::Unread(error));
        }
    };
    let whole = whole_name(alloc, folder, item.name.as_str())?;
    if is_passed_over(
        is_folder(item.kind),
        skips,
        item.name.as_str(),
        whole.as_str(),
    ) {
        return Ok(());
    }
    walk_kind(rt, alloc, levels, skips, item.kind, whole, found)
}

/// Adds what these names in a folder stand for.
#[cycle(walk)]
fn walk_items<R: Files + Alloc + Clone + Drop>(
    rt: &R,
    alloc: Global,
    levels: usize,
    skips: &[&str],
    folder: &str,
    items: Vec<io::Result<Item>>,
    found: &mut Vec<Entry>,
) -> Result<(), AllocError>
    ensures { OnOk result (Adds (OfItems (IsBelow levels (names_of skips.now)) (names_of skips.now)
        folder.now (map plain_item items.items)) found.old.items found.new.items) }
{
    for item in items {
        walk_item(rt, alloc, levels, skips, folder, item, found)?;
    }
    Ok(())
}

/// Adds what is below a folder that has fewer than `levels` levels of folders below it.
#[cycle(walk)]
pub(crate) fn walk<R: Files + Alloc + Clone + Drop>(
    rt: &R,
    alloc: Global,
    levels: usize,
    skips: &[&str],
    folder: &str,
    found: &mut Vec<Entry>,
) -> Result<(), AllocError>
    ensures { OnOk result (Adds (IsBelow levels (names_of skips.now) folder.now)
        found.old.items found.new.items) }
{
    if levels == 0 {
        let name = String::from_str(alloc, folder)?;
        return put(found, name, Found::TooDeep);
    }
    match items_of(rt, alloc, folder)? {
        Ok(items) => walk_items(rt, alloc, levels - 1, skips, folder, items, found),
        Err(error) => {
            let name = String::from_str(alloc, folder)?;
            put(found, name, Found::Unread(error))
        }
    }
}
