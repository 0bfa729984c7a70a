//! The folders and the files of the system. Why one can't be read is written to standard error.
ghost use Rattle.std.specs.Prelude.{◌≡◌, ◌↔◌, None};
ghost use Rattle.std.specs.IoError.{error_kind};

use crate::notes::Notes;
use dj_edge::{EntryKind, FolderEntry, Folders, ListError, OpensFiles, ReadError, read_error};
use std::alloc::Global;
use std::fs::{OpenFile, ReadDir};
use std::io::{BufRead, BufReader, ErrorKind, Read};
use std::rc::Rc;
use std::rt::Files as System;
use std::{fs, io};

/// An open file of the system. Why a read fails is written to standard error.
#[derive(Drop)]
pub struct NotedFile<R: System + Eprint + Drop> {
    notes: Rc<Notes<R>>,
    path: String,
    file: R::File,
    // Whether some of it was read.
    is_begun: bool,
}

impl<R: System + Eprint + Drop> Read for NotedFile<R> {
    fn read(&mut self, buf: &mut [u8]) -> io::Result<usize> {
        let read = self.file.read(buf);
        match &read {
            Ok(taken) => {
                if !self.is_begun {
                    self.is_begun = true;
                    let bytes = buf.get(..*taken).unwrap_or(buf);
                    self.notes.see_beginning(&self.path, bytes);
                }
            }
            Err(error) => {
                if error.kind() != ErrorKind::Interrupted {
                    self.notes.say_path(self.path.as_str(), error);
                }
            }
        }
        read
    }
}

/// The folders and the files of the system, whose contents aren't known. Links are followed. Why one can't be read is written to standard error.
#[derive(Drop)]
pub struct SystemFiles<R: System + Eprint + AllocGlobal + Clone + Drop> {
    rt: R,
    notes: Rc<Notes<R>>,
    // Whether the folder `/` may be opened.
    has_root: bool,
    open: Option<ReadDir<R>>,
}

impl<R: System + Eprint + AllocGlobal + Clone + Drop> SystemFiles<R> {
    /// The folders and files of the system; no folder is open. Where there is no root, opening `/` fails as opening an empty path does.
    pub fn new(rt: R, notes: Rc<Notes<R>>, has_root: bool) -> SystemFiles<R> {
        SystemFiles {
            rt,
            notes,
            has_root,
            open: None,
        }
    }

    /// Writes why the open folder can't be read to its end.
    fn say_unread(&self, alloc: Global, error: &io::Error) {
        if error.kind() == ErrorKind::InvalidFilename {
            if let Some(folder) = self.notes.folder() {
                if let Ok(Some(name)) = strange_name(&self.rt, alloc, folder.as_str()) {
                    self.notes.say_name(name.as_slice());
                }
            }
        }
        self.notes.say_folder(error);
    }
}

/// Why a listing failed, by the system's error.
fn list_error(error: io::Error) -> ListError
    ensures { (result ≡ ListError.Memory) ↔ (error_kind error ≡ ErrorKind.OutOfMemory) }
{
    if error.kind() == ErrorKind::OutOfMemory {
        ListError::Memory
    } else {
        ListError::Failed
    }
}

/// The first name in the folder that isn't UTF-8.
fn strange_name<R: System>(rt: &R, alloc: Global, folder: &str) -> io::Result<Option<Vec<u8>>> {
    let mut names = BufReader::new(alloc, rt.open_dir(folder)?)?;
    for _ in 0..u64::MAX {
        let mut name = Vec::new(alloc);
        if names.read_until(0, &mut name)? == 0 {
            return Ok(None);
        }
        if name.as_slice().ends_with(b"\0") {
            name.pop();
        }
        if std::str::from_utf8(name.as_slice()).is_err() {
            return Ok(Some(name));
        }
    }
    Ok(None)
}

/// The entry at the path.
fn entry_at<R: System>(rt: &R, alloc: Global, path: &str) -> io::Result<FolderEntry> {
    let path = String::from_str(alloc, path)?;
    let found = fs::metadata(rt, path.as_str())?;
    let kind = if found.is_dir() {
        EntryKind::Folder
    } else if found.is_file() {
        EntryKind::File
    } else {
        EntryKind::Other
    };
    Ok(FolderEntry { path, kind })
}

impl<R: System + Eprint + AllocGlobal + Clone + Drop> Folders for SystemFiles<R> {
    ghost tree = { λ _. None };

    ghost left = { λ _. None };

    fn open(&mut self, folder: &str) -> Result<(), ListError> {
        let folder = if folder == "/" && !self.has_root {
            ""
        } else {
            folder
        };
        let path = String::from_str(self.rt.alloc(), folder)?;
        match fs::read_dir(&self.rt, folder) {
            Ok(open) => {
                self.notes.see_folder(path);
                self.open = Some(open);
                Ok(())
            }
            Err(error) => {
                self.notes.say_path(folder, &error);
                Err(list_error(error))
            }
        }
    }

    fn next(&mut self, alloc: Global) -> Result<Option<FolderEntry>, ListError> {
        let met = match self.open.as_mut().and_then(|open| open.next()) {
            None => return Ok(None),
            Some(Ok(met)) => met,
            Some(Err(error)) => {
                self.say_unread(alloc, &error);
                return Err(list_error(error));
            }
        };
        match entry_at(&self.rt, alloc, met.path().as_str()) {
            Ok(entry) => {
                self.notes.see_entry(&entry);
                Ok(Some(entry))
            }
            Err(error) => {
                self.notes.say_path(met.path().as_str(), &error);
                Err(list_error(error))
            }
        }
    }
}

impl<R: System + Eprint + AllocGlobal + Clone + Drop> OpensFiles for SystemFiles<R> {
    type Opened = NotedFile<R>;

    ghost contents = { λ _. None };

    fn open_file(&mut self, path: &str) -> Result<(NotedFile<R>, u64), ReadError> {
        let notes = self.notes.clone().map_err(|_| ReadError::Memory)?;
        let own = String::from_str(self.rt.alloc(), path).map_err(|_| ReadError::Memory)?;
        match fs::open(&self.rt, path) {
            Ok(file) => {
                let expected = file.metadata().map_or(0, |reported| reported.len());
                let file = NotedFile {
                    notes,
                    path: own,
                    file,
                    is_begun: false,
                };
                Ok((file, expected))
            }
            Err(error) => {
                self.notes.say_path(path, &error);
                Err(read_error(error))
            }
        }
    }
}

#[cfg(test)]
mod tests {
    use super::*;
    use dj_edge::{Files, FolderFiles};
    use std::process::Abort;
    use std::test::Fail;
    use std::{env, process};

    fn lists_and_reads<A: Abort, R: System + Eprint + AllocGlobal + Clone + Drop>(
        rt: &A,
        alloc: Global,
        files: &mut FolderFiles<SystemFiles<R>>,
        folder: &str,
        path: &str,
    ) -> Result<(), Fail> {
        let paths = files.list(alloc, folder, 1).ok().ok_or("a list")?;
        assert_eq!(rt; paths.len(), 1);
        let bytes = files.read(alloc, path, 4).ok().ok_or("the bytes")?;
        assert_eq!(rt; bytes.as_slice(), b"four".as_slice());
        assert!(rt; matches!(files.read(alloc, path, 3), Err(ReadError::TooLong)));
        Ok(())
    }

    fn fails<A: Abort, R: System + Eprint + AllocGlobal + Clone + Drop>(
        rt: &A,
        alloc: Global,
        files: &mut FolderFiles<SystemFiles<R>>,
        path: &str,
    ) {
        assert!(rt; matches!(files.read(alloc, path, 4), Err(ReadError::Failed)));
        assert!(rt; matches!(files.list(alloc, path, 1), Err(ListError::Failed)));
    }

    #[test]
    fn real_folder(rt: HostRuntime) -> Result<(), Fail> {
        let alloc = rt.alloc();
        let place = env::temp_dir(&rt)?;
        let own = process::id(rt.process());
        let folder = format!(in alloc; "{}/djvm_{own}", place.as_str())?;
        let path = format!(in alloc; "{folder}/A.class")?;
        fs::create_dir_all(&rt, folder.as_str())?;
        fs::write(&rt, path.as_str(), "four")?;
        let notes = Rc::new(alloc, Notes::new(alloc, rt)).ok().ok_or("memory")?;
        let mut files = FolderFiles::new(alloc, SystemFiles::new(rt, notes, true));
        lists_and_reads(&rt, alloc, &mut files, folder.as_str(), path.as_str())?;
        fs::remove_file(&rt, path.as_str())?;
        fails(&rt, alloc, &mut files, path.as_str());
        fs::remove_dir(&rt, folder.as_str())?;
        Ok(())
    }
}
