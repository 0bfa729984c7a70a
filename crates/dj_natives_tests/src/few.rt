ghost use Rattle.std.specs.Prelude.{◌≡◌, ◌<◌, length, IfSome};
ghost use Rattle.dj_natives_tests.specs.Few.{few_types, few_program, few_names, few_below, lent_lists, AllAt, IsSuper, IsComponent};

use dj_library_types::Classes;
use dj_member_effects::Holders;

/// A small program: that under the prefix, or the plain one.
#[derive(Clone, Copy)]
pub struct Few {
    pub boxed: bool,
}

const PLAIN_NAMES: [&[u8]; 19] = [
    b"A",
    b"java/lang/ArithmeticException",
    b"java/lang/Error",
    b"java/lang/Exception",
    b"java/lang/Object",
    b"java/lang/RuntimeException",
    b"java/lang/String",
    b"java/lang/StringBuilder",
    b"java/lang/Throwable",
    b"p/B$1",
    b"\xc3\xa9\xe2\x82\xac/Q",
    b"[B",
    b"[C",
    b"[I",
    b"[J",
    b"[Ljava/lang/Object;",
    b"[Ljava/lang/String;",
    b"[S",
    b"[Z",
];

const BOXED_NAMES: [&[u8]; 7] = [
    b"djvm/Stop",
    b"sandbox/java/lang/Object",
    b"sandbox/java/lang/String",
    b"sandbox/p/B",
    b"[C",
    b"[I",
    b"[Lsandbox/p/B;",
];

const PLAIN_SUPERS: [Option<u32>; 19] = [
    Some(4),
    Some(5),
    Some(8),
    Some(8),
    None,
    Some(3),
    Some(4),
    Some(4),
    Some(4),
    Some(4),
    Some(4),
    None,
    None,
    None,
    None,
    None,
    None,
    None,
    None,
];

const BOXED_SUPERS: [Option<u32>; 7] = [Some(1), None, Some(1), Some(1), None, None, None];

const PLAIN_COMPONENTS: [Option<u32>; 19] = [
    None,
    None,
    None,
    None,
    None,
    None,
    None,
    None,
    None,
    None,
    None,
    None,
    None,
    None,
    None,
    Some(4),
    Some(6),
    None,
    None,
];

const BOXED_COMPONENTS: [Option<u32>; 7] = [None, None, None, None, None, None, Some(3)];

// For each class and array whether it is a subtype of each.
const PLAIN_BELOW: [&[bool]; 19] = [
    &[
        true, false, false, false, true, false, false, false, false, false, false, false, false,
        false, false, false, false, false, false,
    ],
    &[
        false, true, false, true, true, true, false, false, true, false, false, false, false,
        false, false, false, false, false, false,
    ],
    &[
        false, false, true, false, true, false, false, false, true, false, false, false, false,
        false, false, false, false, false, false,
    ],
    &[
        false, false, false, true, true, false, false, false, true, false, false, false, false,
        false, false, false, false, false, false,
    ],
    &[
        false, false, false, false, true, false, false, false, false, false, false, false, false,
        false, false, false, false, false, false,
    ],
    &[
        false, false, false, true, true, true, false, false, true, false, false, false, false,
        false, false, false, false, false, false,
    ],
    &[
        false, false, false, false, true, false, true, false, false, false, false, false, false,
        false, false, false, false, false, false,
    ],
    &[
        false, false, false, false, true, false, false, true, false, false, false, false, false,
        false, false, false, false, false, false,
    ],
    &[
        false, false, false, false, true, false, false, false, true, false, false, false, false,
        false, false, false, false, false, false,
    ],
    &[
        false, false, false, false, true, false, false, false, false, true, false, false, false,
        false, false, false, false, false, false,
    ],
    &[
        false, false, false, false, true, false, false, false, false, false, true, false, false,
        false, false, false, false, false, false,
    ],
    &[
        false, false, false, false, true, false, false, false, false, false, false, true, false,
        false, false, false, false, false, false,
    ],
    &[
        false, false, false, false, true, false, false, false, false, false, false, false, true,
        false, false, false, false, false, false,
    ],
    &[
        false, false, false, false, true, false, false, false, false, false, false, false, false,
        true, false, false, false, false, false,
    ],
    &[
        false, false, false, false, true, false, false, false, false, false, false, false, false,
        false, true, false, false, false, false,
    ],
    &[
        false, false, false, false, true, false, false, false, false, false, false, false, false,
        false, false, true, false, false, false,
    ],
    &[
        false, false, false, false, true, false, false, false, false, false, false, false, false,
        false, false, true, true, false, false,
    ],
    &[
        false, false, false, false, true, false, false, false, false, false, false, false, false,
        false, false, false, false, true, false,
    ],
    &[
        false, false, false, false, true, false, false, false, false, false, false, false, false,
        false, false, false, false, false, true,
    ],
];

const BOXED_BELOW: [&[bool]; 7] = [
    &[true, true, false, false, false, false, false],
    &[false, true, false, false, false, false, false],
    &[false, true, true, false, false, false, false],
    &[false, true, false, true, false, false, false],
    &[false, true, false, false, true, false, false],
    &[false, true, false, false, false, true, false],
    &[false, true, false, false, false, false, true],
];

fn names(boxed: bool) -> &'static [&'static [u8]]
    ensures { lent_lists result.now ≡ few_names boxed }
{
    if boxed { &BOXED_NAMES } else { &PLAIN_NAMES }
}

fn supers(boxed: bool) -> &'static [Option<u32>]
    ensures all { AllAt (IsSuper boxed) result.now }
    ensures count { length result.now ≡ length (few_types boxed) }
{
    if boxed { &BOXED_SUPERS } else { &PLAIN_SUPERS }
}

fn components(boxed: bool) -> &'static [Option<u32>]
    ensures all { AllAt (IsComponent boxed) result.now }
    ensures count { length result.now ≡ length (few_types boxed) }
{
    if boxed {
        &BOXED_COMPONENTS
    } else {
        &PLAIN_COMPONENTS
    }
}

fn below(boxed: bool) -> &'static [&'static [bool]]
    ensures { lent_lists result.now ≡ few_below boxed }
{
    if boxed { &BOXED_BELOW } else { &PLAIN_BELOW }
}

impl Few {
    /// How many classes and arrays there are.
    pub fn count(&self) -> u32
        ensures { result ≡ length (few_types self.now.boxed) }
    {
        if self.boxed { 7 } else { 19 }
    }

    /// How many classes there are; the numbers of arrays come after theirs.
    pub fn class_count(&self) -> u32
        ensures { result ≡ length (few_program self.now.boxed) }
    {
        if self.boxed { 4 } else { 11 }
    }

    /// The number of the class of this name, or of the array of this descriptor.
    pub fn number(&self, name: &[u8]) -> Option<u32>
        ensures { IfSome result (λ class. class < length (few_types self.now.boxed)) }
    {
        for class in 0..self.count() {
            if self.name_of(class) == name {
                return Some(class);
            }
        }
        None
    }
}

impl Classes for Few {
    ghost use Rattle.dj_natives_tests.specs.Few.{few_types, few_program, few_prefix};

    ghost types = { λ few. few_types few.boxed };

    ghost program = { λ few. few_program few.boxed };

    ghost prefix = { λ few. few_prefix few.boxed };

    fn name_of(&self, class: u32) -> &[u8] {
        names(self.boxed)[class as usize]
    }

    fn super_of(&self, class: u32) -> Option<u32> {
        supers(self.boxed)[class as usize]
    }

    fn component(&self, class: u32) -> Option<u32> {
        components(self.boxed)[class as usize]
    }

    fn sub_type(&self, a: u32, b: u32) -> bool {
        below(self.boxed)[a as usize][b as usize]
    }

    fn string(&self) -> u32 {
        if self.boxed { 2 } else { 6 }
    }

    fn chars(&self) -> u32 {
        if self.boxed { 4 } else { 12 }
    }

    fn stop(&self) -> Option<u32> {
        if self.boxed { Some(0) } else { None }
    }

    fn are_plain(&self) {}

    fn have_components(&self) {}
}

impl Holders for Few {
    ghost use Rattle.std.specs.Prelude.{length};
    ghost use Rattle.dj_natives_tests.specs.Few.{few_types, few_has};

    ghost count = { λ few. length (few_types few.boxed) };

    ghost has = { λ few declaring class. few_has few.boxed declaring class };

    fn has_fields(&self, class: u32, declaring: u32) -> bool {
        if self.count() <= declaring {
            return false;
        }
        self.sub_type(class, declaring)
    }
}
