ghost use Rattle.std.specs.Prelude.{⊤, ◌≡◌, ◌↔◌, IsTrue};
ghost use Rattle.std.specs.Int.{IsBitSet};
ghost use Rattle.dj_class.specs.trusted.Access as access;

use crate::class::{ClassView, MemberView};
use bitflags::{Flag, Flags, bitflag_items};

/// The access flags of a class, a field or a method (JVMS tables 4.1-A, 4.5-A and 4.6-A).
#[derive(Clone, Copy, PartialEq, Eq, Debug)]
pub struct AccessFlags(pub u16);

bitflag_items! {
    impl AccessFlags: u16 {
        const PUBLIC = 0x0001;
        const PRIVATE = 0x0002;
        const PROTECTED = 0x0004;
        const STATIC = 0x0008;
        const FINAL = 0x0010;
        const SUPER = 0x0020;
        const SYNCHRONIZED = 0x0020;
        const VOLATILE = 0x0040;
        const BRIDGE = 0x0040;
        const TRANSIENT = 0x0080;
        const VARARGS = 0x0080;
        const NATIVE = 0x0100;
        const INTERFACE = 0x0200;
        const ABSTRACT = 0x0400;
        const STRICT = 0x0800;
        const SYNTHETIC = 0x1000;
        const ANNOTATION = 0x2000;
        const ENUM = 0x4000;
    }
}

impl Flags for AccessFlags {
    ghost use Rattle.dj_class.specs.Access.{access_table};

    type Bits = u16;

    ghost exact = { ⊤ };

    ghost table = { access_table };

    ghost set_of = { λ f. f.0 };

    fn flags<'a>() -> &'a [Flag<AccessFlags>] {
        AccessFlags::FLAGS
    }

    fn bits(&self) -> u16 {
        self.0
    }

    fn from_bits_retain(bits: u16) -> AccessFlags {
        AccessFlags(bits)
    }
}

impl AccessFlags {
    /// Whether a field or a method is static.
    pub fn is_static(self) -> bool
        ensures { IsTrue result ↔ IsBitSet self.0 access.static }
    {
        self.intersects(AccessFlags::STATIC)
    }

    /// Whether a method is native.
    pub fn is_native(self) -> bool
        ensures { IsTrue result ↔ IsBitSet self.0 access.native }
    {
        self.intersects(AccessFlags::NATIVE)
    }

    /// Whether a class is an interface.
    pub fn is_interface(self) -> bool
        ensures { IsTrue result ↔ IsBitSet self.0 access.interface }
    {
        self.intersects(AccessFlags::INTERFACE)
    }

    /// Whether a class or a method is abstract.
    pub fn is_abstract(self) -> bool
        ensures { IsTrue result ↔ IsBitSet self.0 access.abstract }
    {
        self.intersects(AccessFlags::ABSTRACT)
    }
}

impl<'a> ClassView<'a> {
    /// The flags of the class.
    pub fn access(&self) -> AccessFlags
        ensures { result.0 ≡ self.now.flags }
    {
        AccessFlags(self.flags)
    }
}

impl<'a> MemberView<'a> {
    /// The flags of the field or the method.
    pub fn access(&self) -> AccessFlags
        ensures { result.0 ≡ self.now.flags }
    {
        AccessFlags(self.flags)
    }
}
