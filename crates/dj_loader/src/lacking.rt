ghost use Rattle.std.specs.Prelude.{◌≡◌, ◌<◌, length, IfOk, IfErr, IfSome, MatchOption};
ghost use Rattle.dj_class_table.specs.ClassRows.{RiseStrictly};
ghost use Rattle.dj_loader.specs.Loads.{LacksAbove, Never};
ghost use Rattle.dj_loader.specs.Numbered.{IsFirst, IsLacking, NeverSo, RefusesLacking};

use crate::error::LoadError;
use dj_class_table::ClassTable;
use dj_names::Name;
use std::alloc::Global;

// The first class whose superclass or one of whose interfaces is absent.
fn first_lacking(table: &ClassTable) -> Option<u32>
    ensures first { MatchOption result (NeverSo (IsLacking table.now)) (IsFirst (IsLacking table.now)) }
    ensures there { IfSome result (λ class. class < length table.now) }
{
    for class in 0..table.class_count() {
        if table.lacks_above(class) {
            return Some(class);
        }
    }
    None
}

/// Refuses classes of which one has a superclass or an interface that is absent.
pub fn refuse_lacking(alloc: Global, table: &ClassTable) -> Result<(), LoadError>
    requires { RiseStrictly table.now }
    ensures whole { IfOk result (λ _. Never (LacksAbove table.now)) }
    ensures refused { IfErr result (RefusesLacking table.now) }
{
    match first_lacking(table) {
        Some(class) => {
            let name = Name::from_slice(alloc, table.name_of(class))?;
            Err(LoadError::NoSuper(name))
        }
        None => Ok(()),
    }
}
