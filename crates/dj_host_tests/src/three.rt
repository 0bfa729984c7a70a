use dj_library_types::Classes;

/// A program of three classes, with arrays of chars and of ints.
pub struct Three;

/// The class that isn't the library's.
pub const OWN: u32 = 2;

/// Arrays of ints.
pub const INTS: u32 = 4;

impl Classes for Three {
    ghost use Rattle.dj_host_tests.specs.Three.{three_types, three_program};
    ghost use Rattle.std.specs.Prelude.{[]};

    ghost types = { λ three. three_types };

    ghost program = { λ three. three_program };

    ghost prefix = { λ three. [] };

    fn name_of(&self, class: u32) -> &[u8] {
        match class {
            0 => b"java/lang/Object",
            1 => b"java/lang/String",
            2 => b"p/q/R",
            3 => b"[C",
            _ => b"[I",
        }
    }

    fn super_of(&self, class: u32) -> Option<u32> {
        match class {
            1 | 2 => Some(0),
            _ => None,
        }
    }

    fn component(&self, _class: u32) -> Option<u32> {
        None
    }

    fn sub_type(&self, a: u32, b: u32) -> bool {
        a == b || b == 0
    }

    fn string(&self) -> u32 {
        1
    }

    fn chars(&self) -> u32 {
        3
    }

    fn stop(&self) -> Option<u32> {
        None
    }

    fn are_plain(&self) {}

    fn have_components(&self) {}
}
