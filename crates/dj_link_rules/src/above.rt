ghost use Rattle.std.specs.Prelude.{◌≡◌};
ghost use Rattle.dj_class_table.specs.Tables.{name_at};
ghost use Rattle.dj_link_rules.specs.Known.{AreAbove, is_above, is_named_above};

use dj_resolution::Linker;

/// The class of a file, with what is needed to find out what is above it.
#[derive(Clone, Copy)]
pub struct OwnClass<'a> {
    /// The classes.
    pub linker: &'a Linker,
    /// The number of the file's class, where it is there.
    pub number: Option<u32>,
}

// Whether the second class is the first or one of its superclasses, where both are there.
fn is_numbered_above(linker: &Linker, own: u32, class: u32) -> bool
    ensures { result ≡ is_named_above linker.now.program (name_at linker.now.program own) (name_at linker.now.program class) }
{
    let count = linker.classes().class_count();
    if own >= count {
        return false;
    }
    if class >= count {
        return false;
    }
    linker.is_own_or_superclass(own, class)
}

/// Whether the class of a number is the file's own or one of its superclasses.
pub fn is_above(own: OwnClass<'_>, class: Option<u32>) -> bool
    ensures { result ≡ is_above own.entry class }
{
    let Some(number) = own.number else {
        return false;
    };
    let Some(class) = class else {
        return false;
    };
    is_numbered_above(own.linker, number, class)
}

/// The class of this name and its superclasses.
pub fn classes_above<'a>(linker: &'a Linker, own: &[u8]) -> OwnClass<'a>
    ensures { AreAbove linker.now.program own.now result }
{
    OwnClass {
        linker,
        number: linker.classes().class_named(own),
    }
}
