ghost use Rattle.std.specs.Prelude.{◌≡◌, ◌≤◌, ℕ, List, Option, Result, IfOk, map, string_bytes};
ghost use Rattle.dj_edge.specs.trusted.Held.{Held};

use std::alloc::{AllocError, AllocFailed, Global};
use thiserror::Error;

/// Why a folder was not listed.
#[derive(Clone, Copy, Debug, PartialEq, Eq, Error)]
pub enum ListError {
    /// The store failed.
    #[error("the folder was not listed")]
    Failed,
    /// There was no memory.
    #[error("out of memory")]
    Memory,
}

impl From<AllocError> for ListError {
    ghost use Rattle.std.specs.Prelude.{◌≡◌};
    ghost use Rattle.dj_edge.specs.declared.files.ListError.TheVariants.{Memory};

    ghost from_gives = { λ _ e. e ≡ Memory };

    fn from(_error: AllocError) -> ListError {
        ListError::Memory
    }
}

impl<T: Drop> From<AllocFailed<T>> for ListError {
    ghost use Rattle.std.specs.Prelude.{◌≡◌};
    ghost use Rattle.dj_edge.specs.declared.files.ListError.TheVariants.{Memory};

    ghost from_gives = { λ _ e. e ≡ Memory };

    fn from(_error: AllocFailed<T>) -> ListError {
        ListError::Memory
    }
}

/// Why a file was not read.
#[derive(Clone, Copy, Debug, PartialEq, Eq, Error)]
pub enum ReadError {
    /// The store failed.
    #[error("the file was not read")]
    Failed,
    /// The store has no such path.
    #[error("there is no such file")]
    Absent,
    /// There are more bytes than the caller allows.
    #[error("the file is too long")]
    TooLong,
    /// There was no memory.
    #[error("out of memory")]
    Memory,
}

impl From<AllocError> for ReadError {
    ghost use Rattle.std.specs.Prelude.{◌≡◌};
    ghost use Rattle.dj_edge.specs.declared.files.ReadError.TheVariants.{Memory};

    ghost from_gives = { λ _ e. e ≡ Memory };

    fn from(_error: AllocError) -> ReadError {
        ReadError::Memory
    }
}

/// A store of files. Its calls only read.
pub trait Files {
    ghost use Rattle.dj_edge.specs.trusted.Calls.{IsListing, ListAsks, ListCounts, AnswersRead, ReadAsks, ReadCounts};

    /// What the store holds, where its contents are known. No call changes it.
    ghost held: { Self → Option Held };

    /// How many calls failed, up to 2^64 - 1. No call makes it less.
    ghost faults: { Self → ℕ };

    /// The folders and paths that were asked for, in order.
    ghost asked: { Self → List (List ℕ) };

    /// The paths of the class files in the folder or below it, at most `most` of them, in any order.
    fn list(&mut self, alloc: Global, folder: &str, most: u32) -> Result<Vec<String>, ListError>
        ensures unchanged { held self.new ≡ held self.old }
        ensures asks { ListAsks (asked self.old) (asked self.new) folder.now result }
        ensures never_falls { faults self.old ≤ faults self.new }
        ensures counts { ListCounts (faults self.old) (faults self.new) result }
        ensures lists { IfOk result (λ paths.
            IsListing (held self.old) folder.now most (map string_bytes paths.items)) };

    /// The bytes of the file, which may have at most `most`.
    fn read(&mut self, alloc: Global, path: &str, most: u64) -> Result<Vec<u8>, ReadError>
        ensures unchanged { held self.new ≡ held self.old }
        ensures asks { ReadAsks (asked self.old) (asked self.new) path.now result }
        ensures never_falls { faults self.old ≤ faults self.new }
        ensures counts { ReadCounts (faults self.old) (faults self.new) result }
        ensures says { AnswersRead (λ bytes. bytes.items) (held self.old) path.now most result };
}
