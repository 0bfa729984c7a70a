ghost use Rattle.std.specs.Prelude.{◌≡◌, ◌<◌, length};
ghost use Rattle.dj_stack.specs.Cells.{parts_of, SharedOut};

use crate::packed::Packed;

/// Many local variables: 2 bytes each, and a cell for each that was given a value.
#[derive(Debug, Drop)]
pub(crate) struct Sparse {
    // The number of its cell, counted from 1, or 0 for none.
    pub(crate) places: Vec<u16>,
    pub(crate) cells: Packed,
    pub ghost shared: { SharedOut places.items (length (parts_of cells)) },
    pub ghost room: { cells.room ≡ 65535 },
    pub ghost few: { length places.items < 65536 },
}
