ghost use Rattle.std.specs.Prelude.{◌≡◌, ◌+◌, ◌++◌, ◌≤◌, Some, length};
ghost use Rattle.dj_model.specs.trusted.Instructions as model;
ghost use Rattle.dj_model.specs.trusted.Numbers.{is_long};
ghost use Rattle.dj_model.specs.trusted.Values.{doubled, dropped, moved, one_slot, swapped, two_slots, under};
ghost use Rattle.dj_stack.specs.Frames.{SameButOperands, top_operands, top_room};
ghost use Rattle.dj_effects.specs.Actions.{move_view};
ghost use Rattle.dj_effects.specs.Does.{Does, Fits};
ghost use Rattle.dj_effects.specs.Moves.{HasRoom, cut_of, cut_view, moved_to, piece_values, put_under};

use crate::actions::{Movement, Slots};
use crate::top::{is_long, pop};
use crate::way::Way;
use dj_names::Value;
use dj_stack::Frames;

/// Upper operands that were taken: one, or two, the top first.
#[derive(Clone, Copy)]
pub enum Piece {
    One(Value),
    Two(Value, Value),
}

/// The upper operands are moved.
#[tactic(auto, unfolding(dj_model::specs::trusted::Values::on_values))]
pub fn move_operands(frames: &mut Frames, movement: Movement) -> Option<Way>
    requires { Fits (model.Move (move_view movement)) frames.old }
    ensures { Does (model.Move (move_view movement)) frames.old frames.new result }
{
    if moved(frames, movement) {
        Some(Way::Next)
    } else {
        None
    }
}

// Whether the operands can be moved in this way; where they can, they are moved.
#[tactic(auto, unfolding(dj_model::specs::trusted::Values::moved), using(crate::proofs::MoveFacts::moved_under))]
fn moved(frames: &mut Frames, movement: Movement) -> bool
    requires { HasRoom (top_room frames.old) (moved is_long (move_view movement) (top_operands frames.old)) }
    ensures moved { moved is_long (move_view movement) (top_operands frames.old) ≡ moved_to result (top_operands frames.new) }
    ensures rest { SameButOperands frames.old frames.new }
{
    match movement {
        Movement::Drop(slots) => dropped(frames, slots),
        Movement::Double(slots) => doubled(frames, slots),
        Movement::Under(slots, under) => doubled_under(frames, slots, under),
        Movement::Swap => swapped(frames),
    }
}

fn dropped(frames: &mut Frames, slots: Slots) -> bool
    ensures moved { dropped (cut_of slots (top_operands frames.old)) ≡ moved_to result (top_operands frames.new) }
    ensures rest { SameButOperands frames.old frames.new }
{
    cut(frames, slots).is_some()
}

#[tactic(auto, using(crate::proofs::MoveFacts::first_fits))]
fn doubled(frames: &mut Frames, slots: Slots) -> bool
    requires { HasRoom (top_room frames.old) (doubled (cut_of slots (top_operands frames.old))) }
    ensures moved { doubled (cut_of slots (top_operands frames.old)) ≡ moved_to result (top_operands frames.new) }
    ensures rest { SameButOperands frames.old frames.new }
{
    match cut(frames, slots) {
        None => false,
        Some(top) => {
            put(frames, top);
            put(frames, top);
            true
        }
    }
}

// The top is put once more below what is cut under it.
fn put_under(frames: &mut Frames, top: Piece, slots: Slots) -> bool
    requires { HasRoom (top_room frames.old) (under (piece_values top) (cut_of slots (top_operands frames.old))) }
    ensures moved { under (piece_values top) (cut_of slots (top_operands frames.old)) ≡ moved_to result (top_operands frames.new) }
    ensures rest { SameButOperands frames.old frames.new }
{
    match cut(frames, slots) {
        None => false,
        Some(below) => {
            put(frames, top);
            put(frames, below);
            put(frames, top);
            true
        }
    }
}

fn doubled_under(frames: &mut Frames, slots: Slots, under: Slots) -> bool
    requires { HasRoom (top_room frames.old) (put_under under (cut_of slots (top_operands frames.old))) }
    ensures moved { put_under under (cut_of slots (top_operands frames.old)) ≡ moved_to result (top_operands frames.new) }
    ensures rest { SameButOperands frames.old frames.new }
{
    match cut(frames, slots) {
        None => false,
        Some(top) => put_under(frames, top, under),
    }
}

fn swapped(frames: &mut Frames) -> bool
    requires { HasRoom (top_room frames.old) (swapped is_long (one_slot is_long (top_operands frames.old))) }
    ensures moved { swapped is_long (one_slot is_long (top_operands frames.old)) ≡ moved_to result (top_operands frames.new) }
    ensures rest { SameButOperands frames.old frames.new }
{
    let Some(top) = cut_one(frames) else {
        return false;
    };
    match cut_one(frames) {
        None => false,
        Some(below) => {
            put(frames, top);
            put(frames, below);
            true
        }
    }
}

// The upper operands, which are taken.
fn cut(frames: &mut Frames, slots: Slots) -> Option<Piece>
    ensures cut { cut_of slots (top_operands frames.old) ≡ cut_view result (top_operands frames.new) }
    ensures rest { SameButOperands frames.old frames.new }
{
    match slots {
        Slots::One => cut_one(frames),
        Slots::Two => cut_two(frames),
    }
}

fn cut_one(frames: &mut Frames) -> Option<Piece>
    ensures cut { one_slot is_long (top_operands frames.old) ≡ cut_view result (top_operands frames.new) }
    ensures rest { SameButOperands frames.old frames.new }
{
    match pop(frames) {
        Some(top) if !is_long(top) => Some(Piece::One(top)),
        _ => None,
    }
}

fn cut_two(frames: &mut Frames) -> Option<Piece>
    ensures cut { two_slots is_long (top_operands frames.old) ≡ cut_view result (top_operands frames.new) }
    ensures rest { SameButOperands frames.old frames.new }
{
    let top = pop(frames)?;
    if is_long(top) {
        return Some(Piece::One(top));
    }
    match pop(frames) {
        Some(below) if !is_long(below) => Some(Piece::Two(top, below)),
        _ => None,
    }
}

// Pushes operands, for which there is room.
fn put(frames: &mut Frames, piece: Piece)
    requires { length (piece_values piece) + length (top_operands frames.old) ≤ top_room frames.old }
    ensures put { top_operands frames.new ≡ piece_values piece ++ top_operands frames.old }
    ensures rest { SameButOperands frames.old frames.new }
{
    match piece {
        Piece::One(value) => frames.push_value(value),
        Piece::Two(top, below) => {
            frames.push_value(below);
            frames.push_value(top);
        }
    }
}
