ghost use Rattle.std.specs.Prelude.{◌≡◌, ◌++◌, ◌==◌, if◌then◌else◌, OnOk, IfOk};
ghost use Rattle.dj_names.specs.trusted.ModifiedUtf8.{unit_text};
ghost use Rattle.dj_class_set.specs.trusted.Entry.{entry_name};

use dj_file_rules::units_of_path;
use dj_names::Name;
use std::alloc::{AllocError, Global};

// A dot becomes a slash.
fn with_slash(unit: u16) -> u16
    ensures { result ≡ if unit == 46 then 47 else unit }
{
    if unit == 46 { 47 } else { unit }
}

// Appends the spelling of a unit in modified UTF-8 (JVMS 4.4.7).
fn add_unit(text: &mut Name, unit: u16) -> Result<(), AllocError>
    ensures { OnOk result (text.new ≡ text.old ++ unit_text unit) }
{
    if 1 <= unit && unit <= 127 {
        text.push(unit as u8)
    } else if unit <= 2047 {
        text.extend(&[192 + (unit / 64) as u8, 128 + (unit % 64) as u8])
    } else {
        text.extend(&[
            224 + (unit / 4096) as u8,
            128 + (unit / 64 % 64) as u8,
            128 + (unit % 64) as u8,
        ])
    }
}

/// The name of the class that a word of the command line names, with dots or slashes between its parts.
pub fn entry_name(alloc: Global, word: &str) -> Result<Name, AllocError>
    ensures { IfOk result (λ name. name ≡ entry_name word.now) }
{
    let units = units_of_path(alloc, word)?;
    let mut name = Name::new(alloc);
    for unit in &units {
        add_unit(&mut name, with_slash(*unit))?;
    }
    Ok(name)
}
