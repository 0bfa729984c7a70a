ghost use Rattle.std.specs.Prelude.{◌≡◌, ◌↔◌, ◌<◌, ◌^◌, ◌++◌, length, codes, IsTrue, IfOk};
ghost use Rattle.dj_file_rules.specs.trusted.Violations.{path_units, IsNamedAs};

use crate::error::RulesError;
use dj_names::{TextError, units_of};
use std::alloc::Global;

// The units of .class
const SUFFIX: [u16; 6] = [46, 99, 108, 97, 115, 115];

/// The UTF-16 units of a path.
pub fn units_of_path(alloc: Global, path: &str) -> Result<Vec<u16>, RulesError>
    ensures { IfOk result (λ units. units.items ≡ path_units path.now) }
{
    let mut units = Vec::new(alloc);
    for c in path.chars() {
        let mut pair = [0; 2];
        units.extend_from_slice(c.encode_utf16(&mut pair))?;
    }
    Ok(units)
}

// Whether the first units are the others, followed by those of .class
fn is_class_of(all: &[u16], units: &[u16]) -> bool
    ensures { IsTrue result ↔ (all.now ≡ units.now ++ codes ".class") }
{
    match all.strip_suffix(&SUFFIX) {
        Some(prefix) => prefix == units,
        None => false,
    }
}

/// Whether the path is the class's name, followed by .class
pub fn is_named_as(alloc: Global, path: &str, name: &[u8]) -> Result<bool, RulesError>
    requires { length name.now < 2 ^ 32 }
    ensures { IfOk result (λ same. IsTrue same ↔ IsNamedAs path.now name.now) }
{
    match units_of(alloc, name) {
        Ok(units) => {
            let all = units_of_path(alloc, path)?;
            Ok(is_class_of(&all, units.as_slice()))
        }
        Err(TextError::NotModifiedUtf8(_)) => Ok(false),
        Err(TextError::Memory) => Err(RulesError::Memory),
    }
}
