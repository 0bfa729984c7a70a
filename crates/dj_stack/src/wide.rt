ghost use Rattle.std.specs.Prelude.{◌<◌, ◌≤◌, length};
ghost use Rattle.std.specs.Vec.{vec_capacity};

use dj_names::Value;

/// Few local variables.
#[derive(Debug, Drop)]
pub(crate) struct WideLocals {
    pub(crate) items: Vec<Option<Value>>,
    pub ghost few: { length items.items < 65536 },
}

/// Few operands, the top last, with room for this many.
#[derive(Debug, Drop)]
pub(crate) struct WideOperands {
    pub(crate) items: Vec<Value>,
    pub(crate) room: u16,
    pub ghost fits: { length items.items ≤ room },
    pub ghost reserved: { room ≤ vec_capacity items },
    pub ghost narrow: { room < 65536 },
}
