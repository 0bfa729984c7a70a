//! The class files and the bytes of files in folders, as a store of files.
ghost use Rattle.std.specs.Prelude.{◌≡◌, ◌≤◌, [], ◌∷◌, ◌++◌, None, IfOk, OnOk, OnErr, map, string_bytes};
ghost use Rattle.dj_edge.specs.trusted.Calls.{IsListing, ListAsks, ListCounts, AnswersRead, ReadAsks, ReadCounts};
ghost use Rattle.dj_edge.specs.Calls.{CountsListing, CountsRead};
ghost use Rattle.dj_edge.specs.Listings.{ListsFolder};
ghost use Rattle.dj_edge.specs.Reads.{ReadsFile};
ghost use Rattle.dj_edge.specs.Systems.{system_of};

use crate::files::{Files, ListError, ReadError};
use crate::listing::list_folder;
use crate::opens::{OpensFiles, read_file};
use crate::walk::Folders;
use std::alloc::{AllocError, Global};

/// A store of the files of a system, which reads one folder at a time and opens one file at a time. Its contents aren't known.
#[derive(Drop)]
pub struct FolderFiles<S: Folders + OpensFiles + Drop> {
    system: S,
    faults: u64,
    asked: Vec<String>,
}

impl<S: Folders + OpensFiles + Drop> FolderFiles<S> {
    /// The files of the system; nothing was asked for yet.
    pub fn new(alloc: Global, system: S) -> FolderFiles<S>
        ensures system { system_of result ≡ system }
        ensures faults { ⟦<FolderFiles<S> as Files>⟧.faults result ≡ 0 }
        ensures asked { ⟦<FolderFiles<S> as Files>⟧.asked result ≡ [] }
    {
        FolderFiles {
            system,
            faults: 0,
            asked: Vec::new(alloc),
        }
    }
}

/// Appends a text to what was asked for.
fn ask(alloc: Global, asked: &mut Vec<String>, text: &str) -> Result<(), AllocError>
    ensures ok { OnOk result (map string_bytes asked.new.items ≡ map string_bytes asked.old.items ++ text.now ∷ []) }
    ensures err { OnErr result (asked.new.items ≡ asked.old.items) }
{
    let text = String::from_str(alloc, text)?;
    asked.push(text)?;
    Ok(())
}

impl<S: Folders + OpensFiles + Drop> Files for FolderFiles<S> {
    ghost held = { λ _. None };

    ghost faults = { λ files. files.faults };

    ghost asked = { λ files. map string_bytes files.asked.items };

    fn list(&mut self, alloc: Global, folder: &str, most: u32) -> Result<Vec<String>, ListError>
        ensures unchanged { ⟦<FolderFiles<S> as Files>⟧.held self.new ≡ ⟦<FolderFiles<S> as Files>⟧.held self.old }
        ensures asks { ListAsks (⟦<FolderFiles<S> as Files>⟧.asked self.old) (⟦<FolderFiles<S> as Files>⟧.asked self.new) folder.now result }
        ensures never_falls { ⟦<FolderFiles<S> as Files>⟧.faults self.old ≤ ⟦<FolderFiles<S> as Files>⟧.faults self.new }
        ensures counts { ListCounts (⟦<FolderFiles<S> as Files>⟧.faults self.old) (⟦<FolderFiles<S> as Files>⟧.faults self.new) result }
        ensures counts_one { CountsListing (⟦<FolderFiles<S> as Files>⟧.faults self.old) (⟦<FolderFiles<S> as Files>⟧.faults self.new) result }
        ensures lists { IfOk result (λ paths. IsListing None folder.now most (map string_bytes paths.items)) }
        ensures walks { ListsFolder (λ paths. map string_bytes paths.items) (S.tree (system_of self.old)) folder.now most result }
    {
        let listed = list_folder(alloc, &mut self.system, folder, most);
        if matches!(listed, Err(ListError::Memory))
            || ask(alloc, &mut self.asked, folder).is_err()
        {
            return Err(ListError::Memory);
        }
        if listed.is_err() {
            self.faults = self.faults.saturating_add(1);
        }
        listed
    }

    fn read(&mut self, alloc: Global, path: &str, most: u64) -> Result<Vec<u8>, ReadError>
        ensures unchanged { ⟦<FolderFiles<S> as Files>⟧.held self.new ≡ ⟦<FolderFiles<S> as Files>⟧.held self.old }
        ensures asks { ReadAsks (⟦<FolderFiles<S> as Files>⟧.asked self.old) (⟦<FolderFiles<S> as Files>⟧.asked self.new) path.now result }
        ensures never_falls { ⟦<FolderFiles<S> as Files>⟧.faults self.old ≤ ⟦<FolderFiles<S> as Files>⟧.faults self.new }
        ensures counts { ReadCounts (⟦<FolderFiles<S> as Files>⟧.faults self.old) (⟦<FolderFiles<S> as Files>⟧.faults self.new) result }
        ensures counts_one { CountsRead (⟦<FolderFiles<S> as Files>⟧.faults self.old) (⟦<FolderFiles<S> as Files>⟧.faults self.new) result }
        ensures says { AnswersRead (λ bytes. bytes.items) None path.now most result }
        ensures reads { ReadsFile (λ bytes. bytes.items) (S.contents (system_of self.old)) path.now most result }
    {
        let read = read_file(alloc, &mut self.system, path, most);
        if matches!(read, Err(ReadError::Memory)) || ask(alloc, &mut self.asked, path).is_err() {
            return Err(ReadError::Memory);
        }
        if matches!(read, Err(ReadError::Failed)) {
            self.faults = self.faults.saturating_add(1);
        }
        read
    }
}
