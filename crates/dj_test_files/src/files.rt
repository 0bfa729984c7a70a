//! Files of class files' bytes, from texts for the assembler.
ghost use Rattle.std.specs.Prelude.{◌<◌, length, IfOk};

use dj_asm::assemble;
use dj_report::PathFile;
use std::alloc::{AllocError, Global};

/// A file that a test judges.
pub enum FileText {
    /// The class file of a text.
    Whole(&'static [u8]),
    /// The same without its last byte.
    Cut(&'static [u8]),
}

/// A path, and the file.
pub type PathText = (&'static str, FileText);

/// A path, and the bytes of the file.
pub type PathBytes = (&'static str, Vec<u8>);

/// The class file of a text. Both are short, and the text has no fault.
pub fn class_file(alloc: Global, text: &[u8]) -> Result<Vec<u8>, AllocError>
    ensures { IfOk result (λ bytes. length bytes.items < 10000) }
{
    if text.len() > 9_999 {
        return Err(AllocError);
    }
    match assemble(alloc, text) {
        Ok(file) if file.as_slice().len() < 10_000 => Vec::from_slice(alloc, file.as_slice()),
        _ => Err(AllocError),
    }
}

fn bytes_of(alloc: Global, file: &FileText) -> Result<Vec<u8>, AllocError> {
    match file {
        FileText::Whole(text) => class_file(alloc, text),
        FileText::Cut(text) => {
            let mut bytes = class_file(alloc, text)?;
            let _ = bytes.pop();
            Ok(bytes)
        }
    }
}

/// The files, each with its bytes.
pub fn build(alloc: Global, files: &[PathText]) -> Result<Vec<PathBytes>, AllocError> {
    let mut built = Vec::new(alloc);
    for (path, file) in files {
        built.push((*path, bytes_of(alloc, file)?))?;
    }
    Ok(built)
}

fn lend_file(file: &PathBytes) -> PathFile<'_> {
    PathFile {
        path: file.0,
        bytes: file.1.as_slice(),
    }
}

/// The files, borrowed.
pub fn lend(alloc: Global, files: &[PathBytes]) -> Result<Vec<PathFile<'_>>, AllocError> {
    let mut lent = Vec::new(alloc);
    for file in files {
        lent.push(lend_file(file))?;
    }
    Ok(lent)
}
