ghost use Rattle.std.specs.Prelude.{◌≡◌, ◌≤◌, ◌<◌, length};
ghost use Rattle.std.specs.Vec.{vec_capacity};
ghost use Rattle.dj_stack.specs.Stacks.{longs_in};

use crate::parts::Kind;

/// Many operands, the top last: 5 bytes each, and 4 for each long.
#[derive(Debug, Drop)]
pub(crate) struct Stacked {
    pub(crate) kinds: Vec<Kind>,
    pub(crate) lows: Vec<u32>,
    // Of the longs alone, in the order of the operands.
    pub(crate) highs: Vec<u32>,
    pub(crate) room: u16,
    pub ghost alike: { length lows.items ≡ length kinds.items },
    pub ghost counted: { longs_in kinds.items ≡ length highs.items },
    pub ghost fits: { length kinds.items ≤ room },
    pub ghost narrow: { room < 65536 },
    pub ghost kinds_room: { 65535 ≤ vec_capacity kinds },
    pub ghost lows_room: { 65535 ≤ vec_capacity lows },
    pub ghost highs_room: { 65535 ≤ vec_capacity highs },
}
