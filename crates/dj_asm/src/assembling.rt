//! A text becomes a class file.
ghost use Rattle.std.specs.Prelude.{◌≡◌, ◌≤◌, ◌<◌, ◌^◌, ◌⊎◌, ◌≢◌, None, length, map, ℕ, List, Ok, Err, IfOk, IfErr};
ghost use Rattle.dj_asm_source.specs.declared.error.AsmError.{AsmError};
ghost use Rattle.dj_asm_source.specs.declared.error.AsmError.TheVariants as asm_errors;
ghost use Rattle.dj_asm_source.specs.LineViews.{line_view};
ghost use Rattle.dj_asm_source.specs.SourceLines.{AreLinesOf};
ghost use Rattle.dj_asm_source.specs.trusted.Sources.{Source, lines_of};
ghost use Rattle.dj_asm_pool.specs.Room.{IsFirst};
ghost use Rattle.dj_asm_pool.specs.PoolNeeds.{IsPoolOf};
ghost use Rattle.dj_asm.specs.trusted.Large.{IsTooLarge};
ghost use Rattle.dj_asm.specs.Assembling.{IsFitting, AreFileBytes};
ghost use Rattle.dj_asm.specs.trusted.Texts.{IsTextOfBytes, TextFault};
ghost use Rattle.dj_asm.specs.Answers.{IsAsmFault, Yields, GivesFile, least_of, large_at};

use crate::file::write_file;
use crate::judge::first_large;
use dj_asm_pool::{PoolBuilder, pool_of};
use dj_asm_source::{AsmError, Line, SourceLines, read_source};
use dj_names::Bytes;
use std::alloc::Global;

/// The class file that a text means.
///
/// # Errors
///
/// The text's first fault: of its words, else of its labels, else of what doesn't fit a class file.
pub fn assemble(alloc: Global, text: &[u8]) -> Result<Bytes, AsmError>
    requires { length text.now ≤ 4294967294 }
    // The answer is what the text means.
    ensures file { IfOk result (λ bytes. IsTextOfBytes text.now bytes) }
    // Where the text means a file, that is the answer.
    ensures all_files { (bytes : List ℕ) → IsTextOfBytes text.now bytes → Yields result (Ok bytes) }
    // A refusal is the text's first fault.
    ensures refused { IfErr result (IsAsmFault text.now) }
    // Where the text has a fault, that is the answer.
    ensures all_refused { (e : AsmError) → TextFault text.now e → Yields result (Err e) }
{
    file_of(alloc, text)
}

/// The class file of a text, or its first fault.
#[tactic(auto, using(crate::proofs::AssembleLaws::read_fault))]
fn file_of(alloc: Global, text: &[u8]) -> Result<Bytes, AsmError>
    requires { length text.now ≤ 4294967294 }
    ensures { GivesFile text.now result }
{
    let read = read_source(alloc, text)?;
    file_of_lines(alloc, &read)
}

/// The lesser of two places, where there are two.
fn least_of(place: Option<usize>, other: Option<usize>) -> Option<usize>
    ensures { result ≡ least_of place other }
{
    match (place, other) {
        (Some(first), Some(second)) => {
            if first <= second {
                Some(first)
            } else {
                Some(second)
            }
        }
        (Some(first), None) => Some(first),
        (None, other) => other,
    }
}

/// The class file of the lines of a text, or the fault of the first that doesn't fit one.
fn file_of_lines(alloc: Global, read: &SourceLines<'_>) -> Result<Bytes, AsmError>
    requires few { length read.now.lines < 2 ^ 32 }
    requires text { (text : List ℕ) × AreLinesOf text read.now }
    ensures { (text : List ℕ) → AreLinesOf text read.now → GivesFile text result }
{
    let lines = read.lines();
    let (pool, lacking) = pool_of(alloc, lines).or(Err(AsmError::Memory))?;
    fitting_file(alloc, read, &pool, lacking)
}

/// The class file of the lines of a text, with this pool and this first line without room in it.
fn fitting_file(
    alloc: Global,
    read: &SourceLines<'_>,
    pool: &PoolBuilder,
    lacking: Option<usize>,
) -> Result<Bytes, AsmError>
    requires few { length read.now.lines < 2 ^ 32 }
    requires text { (text : List ℕ) × AreLinesOf text read.now }
    requires pool { (s : Source) → read.now.lines ≡ lines_of s → IsPoolOf s pool.now lacking }
    ensures { (text : List ℕ) → AreLinesOf text read.now → GivesFile text result }
{
    let large = first_large(alloc, read.lines(), pool).or(Err(AsmError::Memory))?;
    file_or_fault(alloc, read, pool, least_of(lacking, large))
}

/// The fault of the line at a place, which is too large.
fn large_at(read: &SourceLines<'_>, place: usize) -> AsmError
    ensures { result ≡ large_at read.now.numbers place }
{
    match read.number(place) {
        Some(line) => AsmError::Large { line },
        None => AsmError::Memory,
    }
}

/// The class file of the lines of a text. Where a line is too large, `first` is the place of the first such line, and that line's fault is the answer.
fn file_or_fault(
    alloc: Global,
    read: &SourceLines<'_>,
    pool: &PoolBuilder,
    first: Option<usize>,
) -> Result<Bytes, AsmError>
    requires few { length read.now.lines < 2 ^ 32 }
    requires fitting { first ≡ None → (s : Source) × IsFitting s read.now.lines pool.now }
    ensures { (text : List ℕ) → (is : AreLinesOf text read.now) → IsFirst (IsTooLarge is.source) first → IsFitting is.source read.now.lines pool.now ⊎ (first ≢ None) → GivesFile text result }
{
    match first {
        Some(place) => Err(large_at(read, place)),
        None => written(alloc, read, pool),
    }
}

/// The class file of the lines of a text, in which everything fits.
fn written(alloc: Global, read: &SourceLines<'_>, pool: &PoolBuilder) -> Result<Bytes, AsmError>
    requires few { length read.now.lines < 2 ^ 32 }
    requires fitting { (s : Source) × IsFitting s read.now.lines pool.now }
    ensures file { IfOk result (λ bytes. (s : Source) → IsFitting s read.now.lines pool.now → AreFileBytes s bytes) }
    ensures memory { IfErr result (λ e. e ≡ asm_errors.Memory) }
{
    write_file(alloc, read.lines(), pool).or(Err(AsmError::Memory))
}
