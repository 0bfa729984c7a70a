ghost use Rattle.std.specs.Prelude.{◌≡◌, ◌<◌, ◌^◌, length, Err, IfOk};
ghost use Rattle.dj_class.specs.Views.{ReadsClass};
ghost use Rattle.dj_file_rules.specs.Reads.{IsViewOf};

use crate::error::RulesError;
use crate::faults::is_memory;
use dj_class::{ClassError, ClassView, read_class};
use std::alloc::Global;

/// What the bytes of a file are.
#[derive(Debug, Drop)]
pub enum FileView<'a> {
    /// A class file.
    Class(ClassView<'a>),
    /// No class file.
    Malformed,
}

// What the bytes are where reading them gave this error.
fn view_of_fault<'a>(bytes: &'a [u8], error: ClassError) -> Result<FileView<'a>, RulesError>
    requires { ReadsClass bytes.now (Err error) }
    ensures { IfOk result (IsViewOf bytes.now) }
{
    if is_memory(error) {
        Err(RulesError::Memory)
    } else {
        Ok(FileView::Malformed)
    }
}

/// Reads the bytes of a file.
pub fn view_file<'a>(alloc: Global, bytes: &'a [u8]) -> Result<FileView<'a>, RulesError>
    requires { length bytes.now < 2 ^ 32 }
    ensures { IfOk result (IsViewOf bytes.now) }
{
    match read_class(alloc, bytes) {
        Ok(view) => Ok(FileView::Class(view)),
        Err(error) => view_of_fault(bytes, error),
    }
}
