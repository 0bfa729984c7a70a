ghost use Rattle.std.specs.Prelude.{◌≡◌, ◌≤◌, length, map, All, IsTrue, IfOk, IfErr, string_bytes};
ghost use Rattle.dj_edge.specs.trusted.Held.{is_class_path};
ghost use Rattle.dj_edge.specs.InMemory.{file_in, files_in};
ghost use Rattle.dj_class_set.specs.ClassSets.{PathsRise};
ghost use Rattle.dj_class_set.specs.trusted.Limits.{most_files, AreWithin};
ghost use Rattle.djvm_cli.specs.trusted.Report.{within_folder};
ghost use Rattle.djvm_cli.specs.Views.{source_view};
ghost use Rattle.djvm_cli.specs.declared.load.Stop.TheVariants.{Memory};

use crate::load::{SourceFile, Stop};
use dj_class_set::ClassSet;
use std::alloc::{AllocError, Global};

/// The file under its path within the folder. Its bytes aren't copied.
fn cut_folder(
    alloc: Global,
    folder: &str,
    file: SourceFile,
) -> Result<(String, Vec<u8>), AllocError>
    requires { IsTrue (is_class_path folder.now (string_bytes file.path)) }
    ensures { IfOk result (λ within. file_in within ≡ within_folder folder.now (source_view file)) }
{
    let path = file.path.as_str();
    let within = String::from_str(alloc, &path[folder.len() + 1..])?;
    Ok((within, file.bytes))
}

/// The files under their paths within the folder.
fn cut_folders(
    alloc: Global,
    folder: &str,
    files: Vec<SourceFile>,
) -> Result<Vec<(String, Vec<u8>)>, AllocError>
    requires { All (λ file. IsTrue (is_class_path folder.now (string_bytes file.path))) files.items }
    ensures { IfOk result (λ within. files_in within.items ≡ map (within_folder folder.now) (map source_view files.items)) }
{
    let mut within = Vec::with_capacity(alloc, files.len())?;
    for file in files {
        within.push(cut_folder(alloc, folder, file)?)?;
    }
    Ok(within)
}

/// The set of the files, each under its path within the folder.
pub fn class_set(alloc: Global, folder: &str, files: Vec<SourceFile>) -> Result<ClassSet, Stop>
    requires class_paths { All (λ file. IsTrue (is_class_path folder.now (string_bytes file.path))) files.items }
    requires few { length files.items ≤ most_files }
    requires within { AreWithin (map source_view files.items) }
    requires rise { PathsRise (map source_view files.items) }
    ensures set { IfOk result (λ set. set ≡ map (within_folder folder.now) (map source_view files.items)) }
    ensures no_fault { IfErr result (λ stop. stop ≡ Memory) }
{
    let within = cut_folders(alloc, folder, files)?;
    Ok(ClassSet::new(alloc, within)?)
}
