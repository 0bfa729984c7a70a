//! The class files in a folder and in the folders below it, over anything that reads one folder at a time.
ghost use Rattle.std.specs.Prelude.{◌≡◌, ◌≤◌, ◌++◌, ◌∷◌, [], List, Option, Result, OnOk, IfErr, filter, map, string_bytes};
ghost use Rattle.dj_edge.specs.Walks.{Tree, Place, place_of, is_kept, IsOpened, IsNextEntry, IsFolderRead, IsTaken, WalksFolder, Walks};
ghost use Rattle.dj_edge.specs.declared.files.ListError.TheVariants.{Memory};

use crate::files::ListError;
use std::alloc::Global;

/// How many levels of folders are walked: the folder itself and 64 below it.
const LEVELS: u32 = 65;

/// The most entries that one walk meets.
const MOST_ENTRIES: u32 = 1_048_576;

/// What an entry of a folder is, or what the link at the entry leads to.
#[derive(Clone, Copy)]
pub enum EntryKind {
    /// A folder.
    Folder,
    /// A regular file.
    File,
    /// Anything else, such as a pipe, a socket or a device: reading it may wait for ever.
    Other,
}

/// An entry of a folder.
#[derive(Drop)]
pub struct FolderEntry {
    /// Its path, which begins with the folder's.
    pub path: String,
    /// What it is.
    pub kind: EntryKind,
}

impl FolderEntry {
    ghost use Rattle.std.specs.Prelude.{◌≡◌};
    ghost use Rattle.dj_edge.specs.Walks.{place_of, is_kept};

    /// Whether the walk keeps it: it is a folder, or has the name of a class file.
    fn is_kept(&self) -> bool
        ensures { result ≡ is_kept (place_of self.now) }
    {
        match self.kind {
            EntryKind::Folder => true,
            EntryKind::File | EntryKind::Other => self.path.as_bytes().ends_with(b".class"),
        }
    }
}

/// What reads folders, one at a time.
pub trait Folders {
    /// The contents of each folder, where they are known. No call changes them.
    ghost tree: { Self → Option Tree };

    /// The entries of the open folder that weren't read yet; none where it can't be read to its end.
    ghost left: { Self → Option (List Place) };

    /// Opens the folder; the one that was open is closed.
    fn open(&mut self, folder: &str) -> Result<(), ListError>
        ensures unchanged { tree self.new ≡ tree self.old }
        ensures opens { IsOpened (tree self.old) (left self.new) folder.now result };

    /// The next entry of the open folder; none at its end. It fails where the entry can't be looked at or its name is not UTF-8.
    fn next(&mut self, alloc: Global) -> Result<Option<FolderEntry>, ListError>
        ensures unchanged { tree self.new ≡ tree self.old }
        ensures reads { IsNextEntry (tree self.old) (left self.old) (left self.new) result };
}

/// What a walk keeps of a folder.
#[derive(Drop)]
struct FolderEntries {
    /// The folders in it, and what has the name of a class file.
    kept: Vec<FolderEntry>,
    /// How many entries it has.
    count: u32,
}

/// Adds an entry where a walk keeps it.
fn keep(kept: &mut Vec<FolderEntry>, entry: FolderEntry) -> Result<(), ListError>
    ensures kept { OnOk result (map place_of kept.new.items ≡ map place_of kept.old.items ++ filter is_kept (place_of entry ∷ [])) }
    ensures no_fault { IfErr result (λ error. error ≡ Memory) }
{
    if entry.is_kept() {
        kept.push(entry)?;
    }
    Ok(())
}

/// Reads a folder, which may have at most `most` entries. Those that a walk doesn't keep are only counted.
fn read_folder<F: Folders>(
    alloc: Global,
    folders: &mut F,
    folder: &str,
    most: u32,
) -> Result<FolderEntries, ListError>
    requires { most ≤ MOST_ENTRIES }
    ensures unchanged { F.tree folders.new ≡ F.tree folders.old }
    ensures reads { IsFolderRead (F.tree folders.old) folder.now most result }
{
    folders.open(folder)?;
    let mut kept = Vec::new(alloc);
    for count in 0..most + 1 {
        match folders.next(alloc)? {
            Some(entry) => keep(&mut kept, entry)?,
            None => return Ok(FolderEntries { kept, count }),
        }
    }
    Err(ListError::Failed)
}

/// What a walk has met so far.
#[derive(Drop)]
struct Walk {
    found: Vec<String>,
    entries: u32,
}

impl Walk {
    /// Takes an entry, and returns whether it is a folder. A class file is added to those found; anything else that has the name of one makes the walk fail.
    fn take(&mut self, entry: &FolderEntry) -> Result<bool, ListError>
        ensures few { self.new.entries ≡ self.old.entries }
        ensures taken { IsTaken entry.now self.old self.new result }
    {
        let is_class = entry.path.as_bytes().ends_with(b".class");
        match entry.kind {
            EntryKind::Folder => Ok(true),
            EntryKind::Other if is_class => Err(ListError::Failed),
            EntryKind::File if is_class => {
                self.found.push(entry.path.clone()?)?;
                Ok(false)
            }
            _ => Ok(false),
        }
    }
}

/// Walks a folder and those below it, down to this many levels.
fn walk_folder<F: Folders>(
    alloc: Global,
    folders: &mut F,
    folder: &str,
    levels: u32,
    walk: &mut Walk,
) -> Result<(), ListError>
    requires { walk.old.entries ≤ MOST_ENTRIES }
    ensures unchanged { F.tree folders.new ≡ F.tree folders.old }
    ensures few { walk.new.entries ≤ MOST_ENTRIES }
    ensures walked { WalksFolder (F.tree folders.old) levels folder.now walk.old walk.new result }
{
    if levels == 0 {
        return Err(ListError::Failed);
    }
    let entries = read_folder(alloc, folders, folder, MOST_ENTRIES - walk.entries)?;
    walk.entries += entries.count;
    for entry in &entries.kept {
        if walk.take(entry)? {
            walk_folder(alloc, folders, entry.path.as_str(), levels - 1, walk)?;
        }
    }
    Ok(())
}

/// The class files in the folder or below it, each path as it was met. It fails exactly where a folder can't be read or is more than 64
/// levels below the first, where more than 1,048,576 entries are met, or where something that is no file has the name of a class file.
pub fn files_below<F: Folders>(
    alloc: Global,
    folders: &mut F,
    folder: &str,
) -> Result<Vec<String>, ListError>
    ensures unchanged { F.tree folders.new ≡ F.tree folders.old }
    ensures walks { Walks (λ found. map string_bytes found.items) (F.tree folders.old) folder.now result }
{
    let first = format!(in alloc; "{folder}/")?;
    let mut walk = Walk {
        found: Vec::new(alloc),
        entries: 0,
    };
    walk_folder(alloc, folders, first.as_str(), LEVELS, &mut walk)?;
    Ok(walk.found)
}
