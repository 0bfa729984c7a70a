ghost use Rattle.std.specs.Prelude.{◌≡◌, IfOk};
ghost use Rattle.dj_library.specs.TableRows.{prefix_in, name_in};

use crate::errors::LibraryError;
use dj_names::Name;
use std::alloc::Global;

/// Which library a class is made for.
#[derive(Clone, Copy)]
pub(crate) enum Which {
    Deterministic,
    Raw,
    /// That of rewritten classes, whose names stand in the package `sandbox`.
    Sandbox,
}

/// What comes before the name of each class.
fn prefix(which: Which) -> &'static [u8]
    ensures { result.now ≡ prefix_in which }
{
    match which {
        Which::Deterministic | Which::Raw => b"",
        Which::Sandbox => b"sandbox/",
    }
}

/// The name that the class of a row has in the library.
pub(crate) fn name_of(alloc: Global, which: Which, row: &'static [u8]) -> Result<Name, LibraryError>
    ensures { IfOk result (λ name. name ≡ name_in which row.entry) }
{
    let mut name = Name::from_slice(alloc, prefix(which))?;
    name.extend(row)?;
    Ok(name)
}
