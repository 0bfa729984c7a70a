ghost use Rattle.std.specs.Prelude.{◌≡◌, ◌≤◌, [], ◌∷◌, ◌++◌, map, All, IsSome, IfOk, IfErr, OnOk, IfSome, string_bytes, unwrap_or};
ghost use Rattle.djvm_cli.specs.declared.load.Stop.TheVariants.{Memory};
ghost use Rattle.djvm_cli.specs.declared.load.Input.TheVariants.{Absent};
ghost use Rattle.dj_edge.specs.trusted.Held.{bytes_at};
ghost use Rattle.dj_edge.specs.trusted.Counts.{GrowsByPrefix};
ghost use Rattle.dj_class_set.specs.trusted.Limits.{most_total_bytes, most_input_bytes};
ghost use Rattle.djvm_cli.specs.Steps.{Counted, IsListed, AreClassPaths, AreRising, AreRead, IsLoaded, files_at};
ghost use Rattle.djvm_cli.specs.Inputs.{IsShortInput, IsAbsentWhereKnown, IsReadInput, IsJobInput, IsInputOf};
ghost use Rattle.djvm_cli.specs.trusted.Report.{input_asks};
ghost use Rattle.dj_command_line.specs.Views.{folder_job_view};
ghost use Rattle.djvm_cli.specs.Next.{IsNextRead, IsNext};

use dj_class_set::SandboxError;
use dj_command_line::FolderCommand;
use dj_edge::{Files, ListError, ReadError};
use dj_names::Name;
use dj_report::Limit;
use std::alloc::{AllocError, AllocFailed, Global};

/// Why a job has no report.
#[derive(Clone, Copy)]
pub enum Stop {
    /// The store of files failed.
    Fault,
    /// There was no memory.
    Memory,
}

impl From<ListError> for Stop {
    ghost use Rattle.std.specs.Prelude.{◌≡◌};
    ghost use Rattle.dj_edge.specs.declared.files.ListError.TheVariants.{Failed};
    ghost use Rattle.djvm_cli.specs.declared.load.Stop.TheVariants.{Fault};

    ghost from_gives = { λ error stop. stop ≡ Fault → error ≡ Failed };

    fn from(error: ListError) -> Stop {
        match error {
            ListError::Failed => Stop::Fault,
            ListError::Memory => Stop::Memory,
        }
    }
}

impl From<AllocError> for Stop {
    ghost use Rattle.std.specs.Prelude.{◌≡◌};
    ghost use Rattle.djvm_cli.specs.declared.load.Stop.TheVariants.{Memory};

    ghost from_gives = { λ _ e. e ≡ Memory };

    fn from(_error: AllocError) -> Stop {
        Stop::Memory
    }
}

impl<T: Drop> From<AllocFailed<T>> for Stop {
    ghost use Rattle.std.specs.Prelude.{◌≡◌};
    ghost use Rattle.djvm_cli.specs.declared.load.Stop.TheVariants.{Memory};

    ghost from_gives = { λ _ e. e ≡ Memory };

    fn from(_error: AllocFailed<T>) -> Stop {
        Stop::Memory
    }
}

impl From<SandboxError> for Stop {
    ghost use Rattle.std.specs.Prelude.{◌≡◌};
    ghost use Rattle.djvm_cli.specs.declared.load.Stop.TheVariants.{Memory};

    ghost from_gives = { λ _ e. e ≡ Memory };

    fn from(_error: SandboxError) -> Stop {
        Stop::Memory
    }
}

/// A file that was read, under its path.
#[derive(Drop)]
pub struct SourceFile {
    pub path: String,
    pub bytes: Vec<u8>,
}

/// What listing a folder found.
#[derive(Drop)]
pub enum Listing {
    /// The paths of the class files, in the order of their bytes.
    Paths(Vec<String>),
    /// There are more than 4,096 class files.
    TooMany,
}

/// What reading the class files found.
#[derive(Drop)]
pub enum Loaded {
    /// All files, in the order of their paths.
    Files(Vec<SourceFile>),
    /// The limit that was passed first.
    Passed(Limit),
}

/// What reading one file as a whole found.
#[derive(Drop)]
pub enum Input {
    /// Its bytes.
    Bytes(Vec<u8>),
    /// There is no file of this path.
    Absent(Name),
    /// It has more bytes than it may have.
    TooLong,
}

/// What reading one more file found.
#[derive(Drop)]
enum NextFile {
    /// The file.
    Read(SourceFile),
    /// The limit that it passes.
    Passed(Limit),
}

const MOST_FILES: u32 = 4_096;

const MOST_INPUT_BYTES: u64 = 1_048_576;

/// How many bytes a class file, or a text that is assembled, may have.
pub const MOST_FILE_BYTES: u64 = 4_194_304;

const MOST_TOTAL_BYTES: u64 = 67_108_864;

/// The paths of the class files in the folder or below it, in the order of their bytes.
pub fn list_paths<F: Files>(alloc: Global, files: &mut F, folder: &str) -> Result<Listing, Stop>
    ensures held { F.held files.new ≡ F.held files.old }
    ensures counts { Counted (F.faults files.old) (F.faults files.new) result }
    ensures asks { GrowsByPrefix (F.asked files.old) (F.asked files.new) (folder.now ∷ []) }
    ensures asked { OnOk result (F.asked files.new ≡ F.asked files.old ++ folder.now ∷ []) }
    ensures class_paths { IfOk result (AreClassPaths folder.now) }
    ensures rise { IfOk result AreRising }
    ensures reported { IfSome (F.held files.old) (λ h. IfOk result (IsListed folder.now h)) }
{
    let mut paths = files.list(alloc, folder, MOST_FILES + 1)?;
    if paths.len() > MOST_FILES as usize {
        return Ok(Listing::TooMany);
    }
    paths.sort()?;
    Ok(Listing::Paths(paths))
}

/// The answer that there is no file of this path.
fn absent(alloc: Global, path: &str) -> Result<Input, Stop>
    ensures absent { IfOk result (λ input. input ≡ Absent path.now) }
    ensures no_fault { IfErr result (λ stop. stop ≡ Memory) }
{
    Ok(Input::Absent(Name::from_slice(alloc, path.as_bytes())?))
}

/// Reads the file of the path, which may have at most `most` bytes.
pub fn read_whole<F: Files>(
    alloc: Global,
    files: &mut F,
    path: &str,
    most: u64,
) -> Result<Input, Stop>
    ensures held { F.held files.new ≡ F.held files.old }
    ensures counts { Counted (F.faults files.old) (F.faults files.new) result }
    ensures asks { GrowsByPrefix (F.asked files.old) (F.asked files.new) (path.now ∷ []) }
    ensures asked { OnOk result (F.asked files.new ≡ F.asked files.old ++ path.now ∷ []) }
    ensures short { IfOk result (IsShortInput most) }
    ensures absent { IfOk result (IsAbsentWhereKnown (F.held files.old)) }
    ensures reported { IfSome (F.held files.old) (λ h. IfOk result (IsReadInput most path.now (bytes_at h path.now))) }
{
    match files.read(alloc, path, most) {
        Ok(bytes) => Ok(Input::Bytes(bytes)),
        Err(ReadError::Absent) => absent(alloc, path),
        Err(ReadError::TooLong) => Ok(Input::TooLong),
        Err(ReadError::Failed) => Err(Stop::Fault),
        Err(ReadError::Memory) => Err(Stop::Memory),
    }
}

/// Reads the input of the job, which is empty where the job has none.
pub fn read_job_input<F: Files>(
    alloc: Global,
    files: &mut F,
    command: FolderCommand<'_>,
) -> Result<Input, Stop>
    ensures held { F.held files.new ≡ F.held files.old }
    ensures counts { Counted (F.faults files.old) (F.faults files.new) result }
    ensures asks { GrowsByPrefix (F.asked files.old) (F.asked files.new) (input_asks (folder_job_view command.entry)) }
    ensures asked { OnOk result (F.asked files.new ≡ F.asked files.old ++ input_asks (folder_job_view command.entry)) }
    ensures short { IfOk result (IsShortInput most_input_bytes) }
    ensures of_job { IfOk result (IsInputOf (folder_job_view command.entry) (F.held files.old)) }
    ensures reported { IfSome (F.held files.old) (λ h. IfOk result (IsJobInput (folder_job_view command.entry) h)) }
{
    match command {
        FolderCommand::Check { .. } => Ok(Input::Bytes(Vec::new(alloc))),
        FolderCommand::Verify { input, .. } | FolderCommand::Raw { input, .. } => {
            read_whole(alloc, files, input, MOST_INPUT_BYTES)
        }
    }
}

/// Reads the file of the path, after files of `total` bytes together.
fn read_next<F: Files>(
    alloc: Global,
    files: &mut F,
    path: &str,
    total: u64,
) -> Result<NextFile, Stop>
    requires held { IfSome (F.held files.old) (λ h. IsSome (bytes_at h path.now)) }
    requires total { total ≤ most_total_bytes }
    ensures held { F.held files.new ≡ F.held files.old }
    ensures counts { Counted (F.faults files.old) (F.faults files.new) result }
    ensures asks { GrowsByPrefix (F.asked files.old) (F.asked files.new) (path.now ∷ []) }
    ensures asked { OnOk result (F.asked files.new ≡ F.asked files.old ++ path.now ∷ []) }
    ensures read { IfOk result (IsNextRead path.now total) }
    ensures reported { IfSome (F.held files.old) (λ h. IfOk result (IsNext (path.now, unwrap_or (bytes_at h path.now) []) total)) }
{
    let bytes = match files.read(alloc, path, MOST_FILE_BYTES) {
        Ok(bytes) => bytes,
        Err(ReadError::TooLong) => return Ok(NextFile::Passed(Limit::File)),
        Err(ReadError::Failed) => return Err(Stop::Fault),
        Err(ReadError::Memory) => return Err(Stop::Memory),
        Err(ReadError::Absent) => unreachable!(),
    };
    if bytes.as_slice().len() as u64 > MOST_TOTAL_BYTES - total {
        return Ok(NextFile::Passed(Limit::Total));
    }
    let path = String::from_str(alloc, path)?;
    Ok(NextFile::Read(SourceFile { path, bytes }))
}

/// Reads the files of these paths in their order, until a limit is passed.
pub fn read_files<F: Files>(alloc: Global, files: &mut F, paths: &[String]) -> Result<Loaded, Stop>
    requires { IfSome (F.held files.old) (λ h. All (λ path. IsSome (bytes_at h (string_bytes path))) paths.now) }
    ensures held { F.held files.new ≡ F.held files.old }
    ensures counts { Counted (F.faults files.old) (F.faults files.new) result }
    ensures asks { GrowsByPrefix (F.asked files.old) (F.asked files.new) (map string_bytes paths.now) }
    ensures read { IfOk result (AreRead (map string_bytes paths.now)) }
    ensures reported { IfSome (F.held files.old) (λ h. IfOk result (IsLoaded (files_at h (map string_bytes paths.now)))) }
{
    let mut read = Vec::new(alloc);
    let mut total = 0;
    for path in paths {
        match read_next(alloc, files, path.as_str(), total)? {
            NextFile::Passed(limit) => return Ok(Loaded::Passed(limit)),
            NextFile::Read(file) => {
                total += file.bytes.as_slice().len() as u64;
                read.push(file)?;
            }
        }
    }
    Ok(Loaded::Files(read))
}

#[cfg(test)]
mod tests;
