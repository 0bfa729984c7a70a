ghost use Rattle.std.specs.Prelude.{◌≡◌, IfOk, map, option_map};
ghost use Rattle.dj_library.specs.TableRows.{type_in};

use crate::errors::LibraryError;
use crate::which::{Which, name_of};
use dj_names::{Base, Of, Ty, Tys};
use std::alloc::Global;

/// A type in a row.
#[derive(Clone, Copy)]
pub(crate) enum TypeRow {
    Base(Base),
    /// The arrays of such elements.
    Array(Base),
    Class(&'static [u8]),
}

/// The type of the row.
pub(crate) fn type_of(alloc: Global, which: Which, row: TypeRow) -> Result<Ty, LibraryError>
    ensures { IfOk result (λ ty. ty ≡ type_in which row) }
{
    match row {
        TypeRow::Base(base) => Ok(Ty {
            dims: 0,
            of: Of::Base(base),
        }),
        TypeRow::Array(base) => Ok(Ty {
            dims: 1,
            of: Of::Base(base),
        }),
        TypeRow::Class(name) => Ok(Ty {
            dims: 0,
            of: Of::Class(name_of(alloc, which, name)?),
        }),
    }
}

/// The types of the rows, in order.
pub(crate) fn types_of(alloc: Global, which: Which, rows: &[TypeRow]) -> Result<Tys, LibraryError>
    ensures { IfOk result (λ types. types ≡ map (type_in which) rows.now) }
{
    let mut types = Tys::new(alloc);
    for row in rows {
        types.push(type_of(alloc, which, *row)?)?;
    }
    Ok(types)
}

/// The type of the row, where there is one.
pub(crate) fn result_of(
    alloc: Global,
    which: Which,
    row: Option<TypeRow>,
) -> Result<Option<Ty>, LibraryError>
    ensures { IfOk result (λ ret. ret ≡ option_map (type_in which) row) }
{
    match row {
        None => Ok(None),
        Some(row) => Ok(Some(type_of(alloc, which, row)?)),
    }
}
