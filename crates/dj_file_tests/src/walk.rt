ghost use Rattle.std.specs.Prelude.{None};

use dj_edge::{EntryKind, FolderEntry, Folders, ListError, files_below, list_folder};
use std::alloc::{AllocError, Global};
use std::test::Fail;

// Each folder has a folder, down to this many levels, and something named as a class file. One opening or one entry fails.
#[derive(Drop)]
struct FolderChain {
    levels: u32,
    failing: u32,
    kind: EntryKind,
    calls: u32,
    opened: u32,
    left: u32,
    folder: String,
}

impl FolderChain {
    fn new(alloc: Global, levels: u32, failing: u32, kind: EntryKind) -> FolderChain {
        FolderChain {
            levels,
            failing,
            kind,
            calls: 0,
            opened: 0,
            left: 0,
            folder: String::new(alloc),
        }
    }

    fn entry(&self, alloc: Global, name: &str, kind: EntryKind) -> Result<FolderEntry, AllocError> {
        let path = format!(in alloc; "{}{name}", self.folder.as_str())?;
        Ok(FolderEntry { path, kind })
    }

    fn fails(&mut self) -> bool {
        self.calls = self.calls.saturating_add(1);
        self.calls == self.failing
    }
}

impl Folders for FolderChain {
    ghost tree = { λ _. None };

    ghost left = { λ _. None };

    fn open(&mut self, folder: &str) -> Result<(), ListError> {
        if self.fails() {
            return Err(ListError::Failed);
        }
        self.opened = self.opened.saturating_add(1);
        self.left = if self.opened <= self.levels { 3 } else { 2 };
        self.folder.clear();
        self.folder.push_str(folder).map_err(|_| ListError::Memory)
    }

    fn next(&mut self, alloc: Global) -> Result<Option<FolderEntry>, ListError> {
        if self.fails() {
            return Err(ListError::Failed);
        }
        let left = self.left;
        self.left = left.saturating_sub(1);
        let entry = match left {
            0 => return Ok(None),
            1 => self.entry(alloc, "A.txt", EntryKind::Other),
            2 => self.entry(alloc, "A.class", self.kind),
            _ => self.entry(alloc, "d/", EntryKind::Folder),
        };
        Ok(Some(entry?))
    }
}

// How many class files were found and the first of them, or how the walk failed; and how many calls there were.
fn walking(
    alloc: Global,
    levels: u32,
    failing: u32,
    kind: EntryKind,
) -> Result<String, AllocError> {
    let mut folders = FolderChain::new(alloc, levels, failing, kind);
    let found = files_below(alloc, &mut folders, "f");
    let calls = folders.calls;
    match &found {
        Ok(paths) => match paths.first() {
            Some(first) => format!(in alloc; "{} {} {calls}", paths.len(), first.as_str()),
            None => format!(in alloc; "none {calls}"),
        },
        Err(ListError::Failed) => format!(in alloc; "failed {calls}"),
        Err(ListError::Memory) => format!(in alloc; "memory {calls}"),
    }
}

#[test]
fn walks_or_fails(rt: HostRuntime) -> Result<(), Fail> {
    let rows = [
        (0, 999, EntryKind::File, "1 f/A.class 4"),
        (2, 999, EntryKind::File, "3 f/d/d/A.class 14"),
        (2, 999, EntryKind::Other, "failed 14"),
        (2, 1, EntryKind::File, "failed 1"),
        (2, 4, EntryKind::File, "failed 4"),
        (2, 14, EntryKind::File, "failed 14"),
        (64, 999, EntryKind::File, "65 f/"),
        (65, 999, EntryKind::File, "failed 325"),
    ];
    for (levels, failing, kind, wanted) in rows {
        let walked = walking(rt.alloc(), levels, failing, kind)?;
        assert!(rt; walked.as_str().starts_with(wanted));
    }
    Ok(())
}

// Each class file once, and at most this many.
#[test]
fn lists_each_once(rt: HostRuntime) -> Result<(), Fail> {
    let alloc = rt.alloc();
    for (most, wanted) in [(9, 3), (3, 3), (2, 2), (0, 0)] {
        let mut folders = FolderChain::new(alloc, 2, 999, EntryKind::File);
        let listed = list_folder(alloc, &mut folders, "f", most);
        let count = listed.as_ref().map_or(99, |paths| paths.len());
        assert_eq!(rt; count, wanted);
    }
    Ok(())
}

// Folders whose contents are known: each is empty, or none can be read.
#[derive(Drop)]
struct KnownFolders(bool);

impl Folders for KnownFolders {
    ghost use Rattle.std.specs.Prelude.{Some, None, [], cond};

    ghost tree = { λ folders. Some (λ _. cond folders.0 (Some []) None) };

    ghost left = { λ folders. cond folders.0 (Some []) None };

    fn open(&mut self, _folder: &str) -> Result<(), ListError> {
        if self.0 {
            Ok(())
        } else {
            Err(ListError::Failed)
        }
    }

    fn next(&mut self, _alloc: Global) -> Result<Option<FolderEntry>, ListError> {
        if self.0 {
            Ok(None)
        } else {
            Err(ListError::Failed)
        }
    }
}

#[test]
fn empty_or_unread(rt: HostRuntime) {
    let empty = list_folder(rt.alloc(), &mut KnownFolders(true), "f", 9);
    assert!(rt; matches!(&empty, Ok(paths) if paths.is_empty()));
    let unread = list_folder(rt.alloc(), &mut KnownFolders(false), "f", 9);
    assert!(rt; matches!(&unread, Err(ListError::Failed)));
}
