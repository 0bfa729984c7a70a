ghost use Rattle.std.specs.Prelude.{◌≡◌, map, IfOk};
ghost use Rattle.dj_shape_rule.specs.Handlers.{range_of};

use crate::error::ShapeError;
use crate::frames::KeptFrames;
use dj_kind_lists::KindRange;
use dj_labels::Protected;
use std::alloc::Global;

// The range of a row.
fn range_of(frames: &KeptFrames, row: Protected) -> KindRange
    ensures { result ≡ range_of frames.now row }
{
    match frames.at(u64::from(row.handler)) {
        None => KindRange {
            from: 0,
            to: 0,
            frame: 0,
        },
        Some(reported) => KindRange {
            from: row.start,
            to: row.end,
            frame: reported.place,
        },
    }
}

/// The ranges of an exception table, with the frames of their handlers.
pub fn ranges_of(
    alloc: Global,
    frames: &KeptFrames,
    rows: &[Protected],
) -> Result<Vec<KindRange>, ShapeError>
    ensures { IfOk result (λ ranges. ranges.items ≡ map (range_of frames.now) rows.now) }
{
    let mut ranges = Vec::new(alloc);
    for row in rows {
        ranges.push(range_of(frames, *row))?;
    }
    Ok(ranges)
}
