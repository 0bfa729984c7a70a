//! The numbers of the texts by which constants name members. Each text is looked up once.
ghost use Rattle.std.specs.Prelude.{◌≡◌, ◌+◌, length, Option, IfOk, IfSome};
ghost use Rattle.std.specs.Option.{option_map};
ghost use Rattle.std.specs.Borrow.{Bor};
ghost use Rattle.dj_pool.specs.trusted.Pool.{IsPool, name_and_type_at};
ghost use Rattle.dj_numbering.specs.Links.{Numbering};
ghost use Rattle.dj_numbering.specs.Named.{IsNumbered};
ghost use Rattle.dj_image.specs.Homes.{IsDescribed};
ghost use Rattle.dj_image.specs.Indexed.{Holds};
ghost use Rattle.dj_image.specs.NameNumbers.{name_number, AreNumbersBy};

use crate::error::ImageError;
use crate::indexed::{index_count, number_at};
use crate::owned::OwnedPool;
use dj_numbering::{Directory, MemberName};
use std::alloc::Global;

// The number of the text of an index, where there is a text that has one.
fn name_number(directory: &Directory<'_>, pool: &OwnedPool, index: u16) -> Option<u32>
    ensures { result ≡ name_number directory.now pool.now index }
{
    directory.number(pool.text(index)?)
}

// By the index of a text its number.
fn numbers_by(
    alloc: Global,
    directory: &Directory<'_>,
    pool: &OwnedPool,
) -> Result<Vec<Option<u32>>, ImageError>
    requires { IsPool pool.now }
    ensures { IfOk result (λ kept. Holds (name_number directory.now pool.now) (length pool.now + 1) kept.items) }
{
    let mut kept = Vec::new(alloc);
    let count = index_count(pool);
    for index in 0..count {
        let number = name_number(directory, pool, index);
        kept.push(number)?;
    }
    Ok(kept)
}

/// By the index of a text its number, where there is a directory.
pub(crate) fn name_numbers(
    alloc: Global,
    directory: Option<&Directory<'_>>,
    pool: &OwnedPool,
) -> Result<Vec<Option<u32>>, ImageError>
    requires { IsPool pool.now }
    ensures { IfOk result (λ kept. AreNumbersBy directory.entry pool.now kept.items) }
{
    match directory {
        Some(directory) => numbers_by(alloc, directory, pool),
        None => Ok(Vec::new(alloc)),
    }
}

/// The name and the descriptor at an index, with what is kept of their numbers.
pub(crate) fn member_name<'p>(
    pool: &'p OwnedPool,
    numbers: &[Option<u32>],
    names: u16,
) -> Option<MemberName<'p>>
    ensures names { option_map (λ named. (named.name.now, named.desc.now)) result ≡ name_and_type_at pool.now names }
    ensures numbered { (directory : Option (Bor Numbering)) → AreNumbersBy directory pool.now numbers.now → IsDescribed (name_and_type_at pool.now names) → IfSome result (IsNumbered directory) }
{
    let (name_index, desc_index) = pool.names(names)?;
    let name = pool.text(name_index)?;
    let desc = pool.text(desc_index)?;
    Some(MemberName {
        name,
        desc,
        name_number: number_at(numbers, name_index),
        desc_number: number_at(numbers, desc_index),
    })
}
