//! Class files that are judged together.
ghost use Rattle.std.specs.Prelude.{◌≡◌, ◌≤◌, length, map, IfOk, OnOk};
ghost use Rattle.std.specs.List.Sorted.{IsPermutation, IsSortedByKey};
ghost use Rattle.std.specs.String.{string_cmp};
ghost use Rattle.dj_edge.specs.InMemory.{file_in, files_in, PathsDiffer};
ghost use Rattle.dj_file_rules.specs.Views.{path_file_view};
ghost use Rattle.dj_class_set.specs.ClassSets.{IsClassSet, AreByPath};
ghost use Rattle.dj_class_set.specs.trusted.Limits.{most_files, AreWithin};

use crate::error::SandboxError;
use dj_report::PathFile;
use std::alloc::Global;
use std::marker::Model;

/// The class files of a folder, each under its path within the folder, in the order of these paths' bytes.
#[derive(Drop)]
pub struct ClassSet {
    files: Vec<(String, Vec<u8>)>,
}

impl Model for ClassSet {
    ghost use Rattle.std.specs.Prelude.{List};
    ghost use Rattle.dj_edge.specs.trusted.Held.{File};

    ghost Value = { List File };

    ghost use Rattle.dj_edge.specs.InMemory.{files_in};
    ghost use Rattle.dj_class_set.specs.ClassSets.{IsClassSet};

    ghost view = { λ set. files_in set.files.items };

    ghost invariant = { λ set. IsClassSet (files_in set.files.items) };
}

// Puts files in the order of their paths. Their contents are compared only where two have the same path.
fn sort_by_path(alloc: Global, files: &mut [(String, Vec<u8>)]) -> Result<(), SandboxError>
    ensures moved { IsPermutation files.old files.new }
    ensures sorted { OnOk result (IsSortedByKey (λ file. file.0) string_cmp files.new) }
{
    files.sort(alloc)?;
    Ok(())
}

// The file, borrowed.
fn lend_file(file: &(String, Vec<u8>)) -> PathFile<'_>
    ensures { path_file_view result ≡ file_in file.now }
{
    PathFile {
        path: file.0.as_str(),
        bytes: file.1.as_slice(),
    }
}

// The files, borrowed.
fn lend_files(alloc: Global, files: &[(String, Vec<u8>)]) -> Result<Vec<PathFile<'_>>, SandboxError>
    ensures { IfOk result (λ lent. map path_file_view lent.items ≡ files_in files.now) }
{
    let mut lent = Vec::with_capacity(alloc, files.len())?;
    for file in files {
        lent.push(lend_file(file))?;
    }
    Ok(lent)
}

impl ClassSet {
    /// The set of these files. Fails only for want of memory.
    pub fn new(alloc: Global, mut files: Vec<(String, Vec<u8>)>) -> Result<ClassSet, SandboxError>
        requires few { length files.items ≤ most_files }
        requires within { AreWithin (files_in files.items) }
        requires differ { PathsDiffer (files_in files.items) }
        ensures { IfOk result (AreByPath (files_in files.items)) }
    {
        sort_by_path(alloc, &mut files)?;
        Ok(ClassSet { files })
    }

    /// The files in their order, borrowed.
    pub fn path_files(&self, alloc: Global) -> Result<Vec<PathFile<'_>>, SandboxError>
        ensures lent { IfOk result (λ lent. map path_file_view lent.items ≡ self.now) }
        ensures set { IsClassSet self.now }
    {
        lend_files(alloc, &self.files)
    }
}
