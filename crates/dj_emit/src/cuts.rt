ghost use Rattle.std.specs.Prelude.{◌≡◌, ◌++◌, ◌∷◌, [], length, map, filter, IfOk, OnOk};
ghost use Rattle.std.specs.List.{AllByRecursion, flat_map};
ghost use Rattle.dj_labels.specs.trusted.Labels.{IsRange};
ghost use Rattle.dj_groups.specs.Groups.{is_some_range};
ghost use Rattle.dj_groups.specs.Grouped.{protected_pieces};
ghost use Rattle.dj_emit.specs.Parts.{groups_seen};
ghost use Rattle.dj_emit.specs.Places.{ArePlaces};
ghost use Rattle.dj_emit.specs.Cuts.{piece};

use crate::places::Places;
use dj_labels::{Protected, Ranges};
use std::alloc::{AllocError, Global};

// A piece of a range, unless it is empty.
fn put_piece(out: &mut Ranges, range: Protected, from: u32, to: u32) -> Result<(), AllocError>
    ensures { OnOk result (out.new ≡ out.old ++ map (piece range) (filter is_some_range ((from, to) ∷ []))) }
{
    if from >= to {
        return Ok(());
    }
    out.push(Protected {
        start: from,
        end: to,
        handler: range.handler,
        catch_type: range.catch_type,
    })
}

// The pieces of a range: what is inserted before the first instruction of a handler is left out.
fn cut_range(out: &mut Ranges, places: &Places, range: Protected) -> Result<(), AllocError>
    requires places { ArePlaces places.now }
    requires within { IsRange (length places.now.groups.items) range }
    ensures { OnOk result (out.new ≡ out.old ++ protected_pieces (groups_seen places.now.groups.items) range) }
{
    let handled = Protected {
        start: range.start,
        end: range.end,
        handler: places.start[range.handler as usize],
        catch_type: range.catch_type,
    };
    let mut from = places.start[range.start as usize];
    let mut k = range.start;
    while places.next[k as usize] < range.end {
        let at = places.next[k as usize];
        put_piece(out, handled, from, places.start[at as usize])?;
        from = places.own[at as usize];
        k = at + 1;
    }
    put_piece(out, handled, from, places.start[range.end as usize])
}

/// The pieces of all ranges.
pub(crate) fn cut_ranges(
    alloc: Global,
    places: &Places,
    ranges: &[Protected],
) -> Result<Ranges, AllocError>
    requires places { ArePlaces places.now }
    requires within { AllByRecursion (IsRange (length places.now.groups.items)) ranges.now }
    ensures { IfOk result (λ out. out ≡ flat_map (protected_pieces (groups_seen places.now.groups.items)) ranges.now) }
{
    let mut out = Ranges::new(alloc);
    for range in ranges {
        cut_range(&mut out, places, *range)?;
    }
    Ok(out)
}
