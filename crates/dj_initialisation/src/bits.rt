ghost use Rattle.std.specs.Prelude.{◌≡◌};
ghost use Rattle.dj_model.specs.trusted.Program.{is_static};

// The flag of static fields and methods (JVMS tables 4.5-A and 4.6-A).
const STATIC: u16 = 0x0008;

/// Whether these are the flags of a static field or method.
pub fn is_static(flags: u16) -> bool
    ensures { result ≡ is_static flags }
{
    flags & STATIC != 0
}
