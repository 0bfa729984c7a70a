//! The names of a class and of its superclass.
ghost use Rattle.std.specs.Prelude.{◌≡◌, [], IfOk, unwrap_or};
ghost use Rattle.dj_pool.specs.trusted.Pool.{class_name_at};

use crate::error::DeclareError;
use dj_names::Name;
use dj_pool::Pool;
use std::alloc::Global;

/// The name of the class of an index, which is empty where there is none.
pub(crate) fn class_name(alloc: Global, pool: &Pool<'_>, index: u16) -> Result<Name, DeclareError>
    ensures { IfOk result (λ name. name ≡ unwrap_or (class_name_at pool.now index) []) }
{
    match pool.class_name(index) {
        Some(name) => Ok(Name::from_slice(alloc, name)?),
        None => Ok(Name::new(alloc)),
    }
}

/// The name of the class of an index, where there is one.
pub(crate) fn class_name_if(
    alloc: Global,
    pool: &Pool<'_>,
    index: u16,
) -> Result<Option<Name>, DeclareError>
    ensures { IfOk result (λ name. name ≡ class_name_at pool.now index) }
{
    match pool.class_name(index) {
        Some(name) => Ok(Some(Name::from_slice(alloc, name)?)),
        None => Ok(None),
    }
}

/// A name, where there is one.
pub(crate) fn copied_name(alloc: Global, name: &Option<Name>) -> Result<Option<Name>, DeclareError>
    ensures { IfOk result (λ copy. copy ≡ name.now) }
{
    match name {
        Some(name) => Ok(Some(Name::from_slice(alloc, name.as_slice())?)),
        None => Ok(None),
    }
}
