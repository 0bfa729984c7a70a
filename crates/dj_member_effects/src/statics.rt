ghost use Rattle.std.specs.Prelude.{◌≡◌, ◌<◌, ◌^◌, length, replicate, set, IfOk};
ghost use Rattle.dj_stack.specs.Frames.{top_operands, top_room};
ghost use Rattle.dj_member_effects.specs.Statics.{DoesOnStatics, get_static_by, put_static_by};

use crate::values::{field_bits, field_value};
use dj_effects::{Way, is_of_kind, pop};
use dj_names::Kind;
use dj_stack::Frames;
use std::alloc::{AllocError, Global};
use std::marker::Model;

/// The 64 bits of each static field, by their places.
#[derive(Debug, Drop)]
pub struct Statics {
    items: Vec<u64>,
}

impl Model for Statics {
    ghost use Rattle.std.specs.Prelude.{ℕ, List};

    ghost Value = { List ℕ };

    ghost view = { λ statics. statics.items.items };
}

impl Statics {
    /// This many static fields, all zero.
    pub fn new(alloc: Global, count: u32) -> Result<Statics, AllocError>
        ensures { IfOk result (λ statics. statics ≡ replicate count 0) }
    {
        Ok(Statics {
            items: vec![in alloc; 0; count as usize]?,
        })
    }

    /// Gives a field other bits.
    pub fn set(&mut self, place: u32, bits: u64)
        requires { place < length self.old }
        ensures { self.new ≡ set self.old place bits }
    {
        self.items[place as usize] = bits;
    }
}

/// The value of a static field is pushed.
pub fn get_static(frames: &mut Frames, statics: &Statics, place: u32, kind: Kind) -> Option<Way>
    requires room { length (top_operands frames.old) < top_room frames.old }
    requires known { place < length statics.now }
    ensures { DoesOnStatics (get_static_by kind place) frames.old frames.new statics.now statics.now result }
{
    frames.push_value(field_value(kind, statics.items[place as usize]));
    Some(Way::Next)
}

/// A value is taken and given to a static field.
#[tactic(auto, using(crate::proofs::StaticFacts::puts_none, crate::proofs::StaticFacts::puts_no_such))]
pub fn put_static(frames: &mut Frames, statics: &mut Statics, place: u32, kind: Kind) -> Option<Way>
    requires { place < length statics.old }
    ensures { DoesOnStatics (put_static_by kind place) frames.old frames.new statics.old statics.new result }
{
    let value = pop(frames)?;
    if !is_of_kind(kind, value) {
        return None;
    }
    statics.set(place, field_bits(value));
    Some(Way::Next)
}
