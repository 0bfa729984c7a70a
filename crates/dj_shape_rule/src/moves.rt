ghost use Rattle.std.specs.Prelude.{◌++◌, Some, IfOk};
ghost use Rattle.dj_model.specs.trusted.Numbers.{is_wide};
ghost use Rattle.dj_model.specs.trusted.Shape.{leaving};
ghost use Rattle.dj_model.specs.trusted.Values.{below, doubled, dropped, moved, one_slot, swapped, under};
ghost use Rattle.dj_shape_rule.specs.Standing.{SameRoom, SameLocals, Leaves, IsCut, piece_kinds, room};
ghost use Rattle.dj_shape_rule.specs.Works.{cut_of, move_view, put_under};

use crate::effect::{KindMovement, SlotWidth};
use crate::error::ShapeError;
use crate::state::{KindPiece, KindState};

// The upper operands, which are popped.
fn cut(state: &mut KindState, slots: SlotWidth) -> Option<KindPiece>
    ensures locals { SameLocals state.old state.new }
    ensures cut { IsCut result (cut_of slots state.old.kinds.stack) state.new.kinds.stack }
{
    match slots {
        SlotWidth::One => state.cut_one(),
        SlotWidth::Two => state.cut_two(),
    }
}

// Whether there is room for these operands, and for those above them.
#[tactic(auto, using(crate::proofs::States::depth_append))]
fn put_both(state: &mut KindState, first: KindPiece, second: KindPiece) -> Result<bool, ShapeError>
    ensures room { SameRoom state.old state.new }
    ensures put { IfOk result (λ fits. Leaves fits
        (leaving (room state.old) state.old.kinds.locals (Some (piece_kinds second ++ (piece_kinds first ++ state.old.kinds.stack)))) state.new.kinds) }
{
    Ok(state.put(first)? && state.put(second)?)
}

fn dropped(state: &mut KindState, slots: SlotWidth) -> Result<bool, ShapeError>
    ensures room { SameRoom state.old state.new }
    ensures left { IfOk result (λ fits. Leaves fits
        (leaving (room state.old) state.old.kinds.locals (dropped (cut_of slots state.old.kinds.stack))) state.new.kinds) }
{
    match cut(state, slots) {
        None => Ok(false),
        Some(_) => state.push(None),
    }
}

fn doubled(state: &mut KindState, slots: SlotWidth) -> Result<bool, ShapeError>
    ensures room { SameRoom state.old state.new }
    ensures left { IfOk result (λ fits. Leaves fits
        (leaving (room state.old) state.old.kinds.locals (doubled (cut_of slots state.old.kinds.stack))) state.new.kinds) }
{
    match cut(state, slots) {
        None => Ok(false),
        Some(top) => put_both(state, top, top),
    }
}

// Pushes the top once more, below what is cut under it.
#[tactic(auto, using(crate::proofs::States::depth_append))]
fn put_under(state: &mut KindState, top: KindPiece, slots: SlotWidth) -> Result<bool, ShapeError>
    ensures room { SameRoom state.old state.new }
    ensures left { IfOk result (λ fits. Leaves fits
        (leaving (room state.old) state.old.kinds.locals (under (piece_kinds top) (cut_of slots state.old.kinds.stack))) state.new.kinds) }
{
    match cut(state, slots) {
        None => Ok(false),
        Some(below) => Ok(put_both(state, top, below)? && state.put(top)?),
    }
}

fn doubled_under(
    state: &mut KindState,
    slots: SlotWidth,
    under: SlotWidth,
) -> Result<bool, ShapeError>
    ensures room { SameRoom state.old state.new }
    ensures left { IfOk result (λ fits. Leaves fits
        (leaving (room state.old) state.old.kinds.locals (put_under under (cut_of slots state.old.kinds.stack))) state.new.kinds) }
{
    match cut(state, slots) {
        None => Ok(false),
        Some(top) => put_under(state, top, under),
    }
}

fn swapped(state: &mut KindState) -> Result<bool, ShapeError>
    ensures room { SameRoom state.old state.new }
    ensures left { IfOk result (λ fits. Leaves fits
        (leaving (room state.old) state.old.kinds.locals (swapped is_wide (one_slot is_wide state.old.kinds.stack))) state.new.kinds) }
{
    let Some(top) = state.cut_one() else {
        return Ok(false);
    };
    match state.cut_one() {
        None => Ok(false),
        Some(below) => put_both(state, top, below),
    }
}

/// Whether the operands can be moved in this way, and what is left fits.
#[tactic(auto, using(crate::proofs::Works::moved_under), unfolding(dj_model::specs::trusted::Values::moved))]
pub fn move_operands(state: &mut KindState, movement: KindMovement) -> Result<bool, ShapeError>
    ensures room { SameRoom state.old state.new }
    ensures left { IfOk result (λ fits. Leaves fits
        (leaving (room state.old) state.old.kinds.locals (moved is_wide (move_view movement) state.old.kinds.stack)) state.new.kinds) }
{
    match movement {
        KindMovement::Drop(slots) => dropped(state, slots),
        KindMovement::Double(slots) => doubled(state, slots),
        KindMovement::Under(slots, under) => doubled_under(state, slots, under),
        KindMovement::Swap => swapped(state),
    }
}
