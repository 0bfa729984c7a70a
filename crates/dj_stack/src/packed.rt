ghost use Rattle.std.specs.Prelude.{◌≡◌, ◌<◌, ◌≤◌, length};
ghost use Rattle.std.specs.Vec.{vec_capacity};

use crate::parts::Kind;

/// Many values, each in parts that are kept apart: 5 bytes a value, and 9 up to the last whose high 32 bits aren't 0.
#[derive(Debug, Drop)]
pub(crate) struct Packed {
    pub(crate) kinds: Vec<Kind>,
    pub(crate) lows: Vec<u32>,
    // Those past the end are 0.
    pub(crate) highs: Vec<u32>,
    pub(crate) room: u16,
    pub ghost alike: { length lows.items ≡ length kinds.items },
    pub ghost fits: { length kinds.items ≤ room },
    pub ghost narrow: { room < 65536 },
    pub ghost kinds_room: { room ≤ vec_capacity kinds },
    pub ghost lows_room: { room ≤ vec_capacity lows },
    pub ghost highs_room: { room ≤ vec_capacity highs },
}
