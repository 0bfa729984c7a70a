ghost use Rattle.std.specs.Prelude.{◌≤◌};

/// How many bytes an object takes, where `sipush` can push them.
#[derive(Clone, Copy, Debug)]
pub(crate) struct ObjectSize {
    pub(crate) bytes: u16,
    ghost small: { bytes ≤ 32767 },
}
