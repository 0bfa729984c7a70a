ghost use Rattle.dj_shape_rule.specs.Arena.{AreLinked};
ghost use Rattle.dj_shape_rule.specs.Placing.{ArePlaced};

use crate::arena::{Locals, LocalsPlace, Slot, add_slot, new_kinds};
use crate::error::ShapeError;
use crate::numbered::NumberedFrames;
use dj_names::Kind;
use std::alloc::Global;

/// The kinds of a frame of a stack map, as they are kept.
#[derive(Drop)]
pub struct KeptFrame {
    pub place: LocalsPlace,
    /// The kinds of the operands, the top last.
    pub stack: Vec<Kind>,
}

/// The kinds of a frame of a stack map.
#[derive(Drop)]
pub struct LentFrame<'a> {
    /// Its place among all frames, from 1 on.
    pub place: u32,
    /// The kinds of the local variables in their slots; those after the last have none.
    pub locals: Locals<'a>,
    /// The kinds of the operands, the top last.
    pub stack: &'a [Kind],
}

/// The kinds of the frames of a stack map, by the numbers of their instructions. Their local variables are kept in slots, and a frame shares the slots of
/// those that it has from the frame before it: so all frames together take no more memory than their stack map, and four bytes for each instruction.
#[derive(Drop)]
pub struct KeptFrames {
    slots: Vec<Slot>,
    reported: NumberedFrames,
    pub ghost linked: { AreLinked slots.items },
    pub ghost placed: { ArePlaced slots.items reported },
}

impl KeptFrames {
    ghost use Rattle.std.specs.Prelude.{◌≡◌, ◌<◌, ℕ, false, ◌∷◌, ◌++◌, [], length, slice_get, None, Some, IfOk, IfSome, MatchOption};
    ghost use Rattle.dj_shape_rule.specs.declared.frames.KeptFrame.{KeptFrame};
    ghost use Rattle.dj_shape_rule.specs.Arena.{IsAt, IsIn, IsShared, slots_at};
    ghost use Rattle.dj_shape_rule.specs.Reported.{Grows, IsKept, frame_place, reported_at, reported_by, reported_in};

    /// No frames, of code with this many instructions.
    pub fn new(alloc: Global, count: usize) -> Result<KeptFrames, ShapeError>
        ensures { IfOk result (λ frames. (number : ℕ) → reported_at frames number ≡ None) }
    {
        Ok(KeptFrames {
            slots: Vec::new(alloc),
            reported: NumberedFrames::new(alloc, count)?,
        })
    }

    /// Whether there may be a frame at the instruction of this number. Most have none.
    pub fn may_report(&self, number: u64) -> bool
        ensures { result ≡ false → reported_at self.now number ≡ None }
    {
        self.reported.has(number)
    }

    /// The kinds of the frame at the instruction of this number, if there is one.
    pub fn at(&self, number: u64) -> Option<LentFrame<'_>>
        ensures frame { MatchOption result (reported_at self.now number ≡ None) (λ lent_frame. reported_at self.now number ≡ Some (reported_by lent_frame)) }
        ensures place { IfSome result (λ lent_frame. lent_frame.place ≡ frame_place self.now number) }
    {
        match self.reported.get(number) {
            None => None,
            Some(kept) => Some(LentFrame {
                place: self.reported.place(number),
                locals: self.locals(kept.place),
                stack: kept.stack.as_slice(),
            }),
        }
    }

    /// How many there are.
    pub fn count(&self) -> usize
        ensures { result ≡ length self.now.reported.kept.items }
    {
        self.reported.count()
    }

    /// The place of the local variables of the frame of this index.
    pub fn place_of(&self, index: usize) -> LocalsPlace
        requires { index < length self.now.reported.kept.items }
        ensures place { (kept : KeptFrame) → slice_get self.now.reported.kept.items index ≡ Some kept → result ≡ kept.place }
        ensures within { IsIn self.now.slots.items result }
    {
        self.reported.by_index(index).place
    }

    /// The count of the local variables that two places share, and the kinds of those that the second has above them.
    pub fn new_kinds(
        &self,
        old: LocalsPlace,
        new: LocalsPlace,
        kinds: &mut Vec<Option<Kind>>,
    ) -> Result<usize, ShapeError>
        requires old { IsIn self.now.slots.items old }
        requires new { IsIn self.now.slots.items new }
        ensures { IfOk result (λ from. IsShared (slots_at self.now.slots.items old.end) (slots_at self.now.slots.items new.end) from kinds.new.items) }
    {
        new_kinds(&self.slots, old, new, kinds)
    }

    /// The local variables of a place.
    pub fn locals(&self, place: LocalsPlace) -> Locals<'_>
        requires { IsIn self.now.slots.items place }
        ensures { result ≡ slots_at self.now.slots.items place.end }
    {
        Locals::new(&self.slots, place)
    }

    /// Appends a local variable to those of a place.
    pub fn add(&mut self, place: LocalsPlace, kind: Option<Kind>) -> Result<LocalsPlace, ShapeError>
        requires { IsIn self.old.slots.items place }
        ensures grows { Grows self.old self.new }
        ensures added { IfOk result (λ more. IsAt self.new.slots.items more (slots_at self.old.slots.items place.end ++ kind ∷ [])) }
    {
        add_slot(&mut self.slots, place, kind)
    }

    /// Keeps a frame, where there is none at the instruction yet.
    pub fn keep(&mut self, at: u64, kept: KeptFrame) -> Result<(), ShapeError>
        requires { IsIn self.old.slots.items kept.place }
        ensures same { self.new.slots.items ≡ self.old.slots.items }
        ensures kept { IfOk result (λ x. IsKept self.old self.new at (reported_in self.old.slots.items kept)) }
    {
        self.reported.keep(at, kept)
    }
}
