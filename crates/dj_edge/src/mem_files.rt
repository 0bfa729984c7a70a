ghost use Rattle.std.specs.Prelude.{◌≡◌, ◌++◌, [], ◌∷◌, OnOk, OnErr};
ghost use Rattle.dj_edge.specs.InMemory.{files_in, PathsDiffer};

use crate::files::{Files, ListError, ReadError};
use crate::order::Order;
use crate::stored::{bytes_under, listing};
use std::alloc::{AllocError, Global};

/// Adds to what was asked for.
fn ask(asked: &mut Vec<String>, text: String) -> Result<(), AllocError>
    ensures ok { OnOk result (asked.new.items ≡ asked.old.items ++ text ∷ []) }
    ensures err { OnErr result (asked.new.items ≡ asked.old.items) }
{
    asked.push(text)?;
    Ok(())
}

/// A store of files in memory, of which some calls fail.
#[derive(Drop)]
pub struct MemFiles {
    files: Vec<(String, Vec<u8>)>,
    order: Order,
    failing: Vec<u64>,
    calls: u64,
    faults: u64,
    asked: Vec<String>,
    ghost differ: { PathsDiffer (files_in files.items) },
}

impl MemFiles {
    ghost use Rattle.std.specs.Prelude.{◌≡◌, [], Some};
    ghost use Rattle.dj_edge.specs.Held.{held_of};
    ghost use Rattle.dj_edge.specs.Stores.{files_of, order_of, failing_of, calls_of};

    /// A store of these files. Calls are counted from 0, and those whose numbers are in `failing` fail.
    pub fn new(
        alloc: Global,
        held: Vec<(String, Vec<u8>)>,
        order: Order,
        failing: Vec<u64>,
    ) -> MemFiles
        requires { PathsDiffer (files_in held.items) }
        ensures held { ⟦<MemFiles as Files>⟧.held result ≡ Some (held_of (files_in held.items)) }
        ensures no_faults { ⟦<MemFiles as Files>⟧.faults result ≡ 0 }
        ensures nothing_asked { ⟦<MemFiles as Files>⟧.asked result ≡ [] }
        ensures files { files_of result ≡ files_in held.items }
        ensures order { order_of result ≡ order }
        ensures failing { failing_of result ≡ failing.items }
        ensures calls { calls_of result ≡ 0 }
    {
        MemFiles {
            files: held,
            order,
            failing,
            calls: 0,
            faults: 0,
            asked: Vec::new(alloc),
        }
    }
}

impl Files for MemFiles {
    ghost use Rattle.std.specs.Prelude.{◌≡◌, ◌≤◌, Some, List, ℕ, Option, Result, IfOk, map, string_bytes};
    ghost use Rattle.dj_edge.specs.trusted.Held.{Held};
    ghost use Rattle.dj_edge.specs.Held.{held_of};
    ghost use Rattle.dj_edge.specs.trusted.Calls.{IsListing, ListAsks, ListCounts, AnswersRead, ReadAsks, ReadCounts};
    ghost use Rattle.dj_edge.specs.Calls.{CountsListing, CountsRead};
    ghost use Rattle.dj_edge.specs.Stores.{files_of, faults_of, asked_of, IsOneCall, Lists, Reads};

    ghost held = { λ m. Some (held_of (files_of m)) };

    ghost faults = { faults_of };

    ghost asked = { asked_of };

    fn list(&mut self, alloc: Global, folder: &str, most: u32) -> Result<Vec<String>, ListError>
        ensures asks { ListAsks (asked_of self.old) (asked_of self.new) folder.now result }
        ensures never_falls { faults_of self.old ≤ faults_of self.new }
        ensures counts { ListCounts (faults_of self.old) (faults_of self.new) result }
        ensures counts_one { CountsListing (faults_of self.old) (faults_of self.new) result }
        ensures lists { IfOk result (λ paths.
            IsListing (Some (held_of (files_of self.old))) folder.now most (map string_bytes paths.items)) }
        ensures one_call { IsOneCall self.old self.new }
        ensures answers { Lists self.old self.new folder.now most result }
    {
        let fails = self.failing.contains(&self.calls);
        self.calls = self.calls.saturating_add(1);
        let text = String::from_str(alloc, folder)?;
        if fails {
            ask(&mut self.asked, text)?;
            self.faults = self.faults.saturating_add(1);
            return Err(ListError::Failed);
        }
        let paths = listing(alloc, &self.files, self.order, folder, most)?;
        ask(&mut self.asked, text)?;
        Ok(paths)
    }

    fn read(&mut self, alloc: Global, path: &str, most: u64) -> Result<Vec<u8>, ReadError>
        ensures asks { ReadAsks (asked_of self.old) (asked_of self.new) path.now result }
        ensures never_falls { faults_of self.old ≤ faults_of self.new }
        ensures counts { ReadCounts (faults_of self.old) (faults_of self.new) result }
        ensures counts_one { CountsRead (faults_of self.old) (faults_of self.new) result }
        ensures says { AnswersRead (λ bytes. bytes.items) (Some (held_of (files_of self.old))) path.now most result }
        ensures one_call { IsOneCall self.old self.new }
        ensures answers { Reads self.old self.new result }
    {
        let fails = self.failing.contains(&self.calls);
        self.calls = self.calls.saturating_add(1);
        let text = String::from_str(alloc, path)?;
        if fails {
            ask(&mut self.asked, text)?;
            self.faults = self.faults.saturating_add(1);
            return Err(ReadError::Failed);
        }
        let Some(bytes) = bytes_under(&self.files, path.as_bytes()) else {
            ask(&mut self.asked, text)?;
            return Err(ReadError::Absent);
        };
        if bytes.len() as u64 > most {
            ask(&mut self.asked, text)?;
            return Err(ReadError::TooLong);
        }
        let copy = Vec::from_slice(alloc, bytes)?;
        ask(&mut self.asked, text)?;
        Ok(copy)
    }
}
