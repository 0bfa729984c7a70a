//! What is written to standard error beside a report: one line at most, which says why there is no report or what the user may have meant.

use crate::version::OtherVersion;
use dj_edge::{EntryKind, FolderEntry};
use std::alloc::Global;
use std::cell::{Cell, RefCell};
use std::fmt::Display;

/// The words of the jobs.
const USAGE: &str =
    "usage: djvm check FOLDER | djvm verify FOLDER ENTRY INPUT [--alloc N] [--invoke N] [--jump N] [--throw N] | djvm raw FOLDER ENTRY INPUT [--steps N] | djvm assemble FILE";

const VERSION: &str = "djvm 0.1.0";

/// The end of each line of a report that says that a path violates the rule NAME. Each path has at most one such line.
const NAME_END: &[u8] = b" NAME\n";

/// The same for the rule VERSION.
const VERSION_END: &[u8] = b" VERSION\n";

/// Counts the lines of a report that have the one end or the other.
#[derive(Clone, Copy)]
struct Lines {
    // Of VERSION, and not of NAME.
    is_version: bool,
    count: u64,
    // How many of the last bytes that were seen are the beginning of the end.
    matched: usize,
}

impl Lines {
    /// Lines of which none was seen: of VERSION, or of NAME.
    fn new(is_version: bool) -> Lines {
        Lines {
            is_version,
            count: 0,
            matched: 0,
        }
    }

    /// One more byte of the report.
    fn see(&mut self, byte: u8) {
        let end = if self.is_version {
            VERSION_END
        } else {
            NAME_END
        };
        self.matched = if end.get(self.matched) == Some(&byte) {
            self.matched.saturating_add(1)
        } else if byte == b' ' {
            1
        } else {
            0
        };
        if self.matched == end.len() {
            self.count = self.count.saturating_add(1);
            self.matched = 0;
        }
    }
}

/// What is written to standard error for one job, and what was seen of the job so far.
#[derive(Drop)]
pub struct Notes<R: Eprint + Drop> {
    rt: R,
    // Whether the line was written.
    is_reported: Cell<bool>,
    // The folder that was opened last.
    folder: RefCell<String>,
    // How many class files were met, or none where no folder was opened.
    class_files: Cell<Option<u64>>,
    // The path of the first class file that was read and has another version than those that are accepted, or nothing; and that version.
    other_path: RefCell<String>,
    other_major: Cell<u16>,
    other_minor: Cell<u16>,
    name_lines: Cell<Lines>,
    version_lines: Cell<Lines>,
}

impl<R: Eprint + Drop> Notes<R> {
    /// The notes of a job that didn't begin.
    pub fn new(alloc: Global, rt: R) -> Notes<R> {
        Notes {
            rt,
            is_reported: Cell::new(false),
            folder: RefCell::new(String::new(alloc)),
            class_files: Cell::new(None),
            other_path: RefCell::new(String::new(alloc)),
            other_major: Cell::new(0),
            other_minor: Cell::new(0),
            name_lines: Cell::new(Lines::new(false)),
            version_lines: Cell::new(Lines::new(true)),
        }
    }

    /// A folder was opened.
    pub fn see_folder(&self, folder: String) {
        if self.class_files.get().is_none() {
            self.class_files.set(Some(0));
        }
        let _ = self.folder.try_replace(folder);
    }

    /// An entry was met in the folder that is open.
    pub fn see_entry(&self, entry: &FolderEntry) {
        if !entry.path.as_bytes().ends_with(b".class") {
            return;
        }
        match entry.kind {
            EntryKind::Folder => {}
            EntryKind::File => {
                let before = self.class_files.get().unwrap_or(0);
                self.class_files.set(Some(before.saturating_add(1)));
            }
            EntryKind::Other => self.say_path(
                entry.path.as_str(),
                &"it has a class file's name and is no file",
            ),
        }
    }

    /// A file has these first bytes.
    pub fn see_beginning(&self, path: &String, bytes: &[u8]) {
        let is_known = self
            .other_path
            .try_borrow()
            .is_ok_and(|known| !known.is_empty());
        if is_known || !path.as_bytes().ends_with(b".class") {
            return;
        }
        if let Some(version) = OtherVersion::of(bytes) {
            if let Ok(path) = path.clone() {
                let _ = self.other_path.try_replace(path);
                self.other_major.set(version.major);
                self.other_minor.set(version.minor);
            }
        }
    }

    /// These bytes of the report were written, and are searched for lines of NAME and VERSION.
    pub fn see_written(&self, bytes: &[u8]) {
        let mut name_lines = self.name_lines.get();
        let mut version_lines = self.version_lines.get();
        for byte in bytes {
            name_lines.see(*byte);
            version_lines.see(*byte);
        }
        self.name_lines.set(name_lines);
        self.version_lines.set(version_lines);
    }

    /// Whether the line wasn't written yet; it counts as written from now on.
    fn is_first(&self) -> bool {
        !self.is_reported.replace(true)
    }

    /// Writes that what is at the path can't be read, and why.
    pub fn say_path<D: Display>(&self, path: &str, cause: &D) {
        if self.is_first() {
            let _ = eprintln!(self.rt; "djvm: {path:?}: {cause}");
        }
    }

    /// The folder that was opened last; none where there is no memory.
    pub fn folder(&self) -> Option<String> {
        self.folder.try_borrow().ok()?.clone().ok()
    }

    /// Writes that the folder that was opened last can't be read, and why.
    pub fn say_folder<D: Display>(&self, cause: &D) {
        if let Ok(folder) = self.folder.try_borrow() {
            self.say_path(folder.as_str(), cause);
        }
    }

    /// Writes that a name in the folder that was opened last isn't UTF-8.
    pub fn say_name(&self, name: &[u8]) {
        if let Ok(folder) = self.folder.try_borrow() {
            if self.is_first() {
                let name = name.escape_ascii();
                let _ = eprintln!(self.rt;
                    "djvm: {folder:?}: the name \"{name}\" in it isn't UTF-8"
                );
            }
        }
    }

    /// Writes why standard output can't be written.
    pub fn say_output<D: Display>(&self, cause: &D) {
        if self.is_first() {
            let _ = eprintln!(self.rt; "djvm: standard output: {cause}");
        }
    }

    /// Writes this line, where none was written for the job.
    fn say(&self, line: &str) {
        if self.is_first() {
            let _ = eprintln!(self.rt; "djvm: {line}");
        }
    }

    /// Writes that the folder that was given may be the wrong one, where it seems so.
    fn say_wrong_folder(&self) {
        match self.class_files.get() {
            None => {}
            Some(0) => self.say(
                "the folder has no class file: give the folder that javac -d wrote",
            ),
            Some(count) => {
                if self.name_lines.get().count == count {
                    self.say(
                        "no class file is at the path of its class: give the folder that javac -d wrote",
                    );
                }
            }
        }
    }

    /// Writes which version was found, where the report has a line of VERSION.
    fn say_other_version(&self) {
        if self.version_lines.get().count == 0 {
            return;
        }
        if let Ok(path) = self.other_path.try_borrow() {
            if !path.is_empty() {
                let version = OtherVersion {
                    major: self.other_major.get(),
                    minor: self.other_minor.get(),
                };
                self.say_path(path.as_str(), &version);
            }
        }
    }

    /// The job ended with this status: writes what belongs to it.
    pub fn end(&self, status: u8) {
        match status {
            0 => self.say_wrong_folder(),
            2 => {
                self.say_wrong_folder();
                self.say_other_version();
            }
            64 => {
                if self.is_first() {
                    let _ = eprintln!(self.rt; "{VERSION}; {USAGE}");
                }
            }
            // A walk ends with 65 where a folder is too deep or an entry too many, though no call of the system failed.
            65 => self.say_folder(
                &"it has a folder at level 65, or there are more than 1048576 entries",
            ),
            66 => self.say_output(&"it takes no more bytes"),
            67 => self.say("there was not enough memory"),
            _ => {}
        }
    }
}
