ghost use Rattle.std.specs.Prelude.{◌≡◌, ◌+◌, ◌<◌, ◌≤◌, ◌++◌, [], ◌∷◌, length, get_or, slice_get, reverse, List, Option, Some, None, nat_le, if◌then◌else◌, Decides, IfOk, MatchOption};
ghost use Rattle.dj_names.specs.declared.descriptor.Kind.{Kind};
ghost use Rattle.dj_kind_lists.specs.Lists.{IsChanged, IsFirstLack, ListFlows};
ghost use Rattle.dj_model.specs.trusted.Kinds.{depth};
ghost use Rattle.dj_model.specs.trusted.Numbers.{is_wide};
ghost use Rattle.dj_model.specs.trusted.Shape.{gives, leaving, store_kind, taken, with_result};
ghost use Rattle.dj_model.specs.trusted.Values.{local_at, one_slot, two_slots, without_half};
ghost use Rattle.dj_shape_rule.specs.Standing.{IsBegun, IsListed, IsNoted, SameRoom, SameLocals, SameButLists, SameButStates, Takes, Leaves, IsCut, piece_kinds, room, standing_in};

use crate::error::ShapeError;
use crate::frames::LentFrame;
use crate::kinds::{depth_within, is_some_wide, is_wide, kind_slots, same_kind};
use dj_kind_lists::{KindLists, KindRange};
use dj_names::Kind;
use std::alloc::Global;
use std::marker::Model;

/// One operand, or two of which the first was above the second.
#[derive(Clone, Copy)]
pub enum KindPiece {
    One(Kind),
    Two(Kind, Kind),
}

/// The kinds of the local variables and of the operands before an instruction, with the room that the code has for them.
#[derive(Drop)]
pub struct KindState {
    max_stack: u16,
    // Those of the local variables: of this state, of all frames, and of the states before the instructions so far.
    lists: KindLists,
    // The top at the end.
    stack: Vec<Kind>,
    // A long counts as two operands.
    depth: u32,
}

impl Model for KindState {
    ghost use Rattle.std.specs.Prelude.{◌≡◌, ◌≤◌, reverse};
    ghost use Rattle.dj_shape_rule.specs.Standing.{Standing, IsDepth};

    ghost Value = { Standing };

    ghost view = { λ s. record {
      max_stack = s.max_stack;
      max_locals = s.lists.count;
      kinds = record { locals = s.lists.current; stack = reverse s.stack.items };
      frames = s.lists.frames;
      states = s.lists.states;
    } };

    ghost invariant = { λ s. IsDepth s.depth (reverse s.stack.items) × (s.depth ≤ s.max_stack) };
}

impl KindState {
    /// No operands, and these local variables, where there is room for them. The only list is one without kinds.
    pub fn new(
        alloc: Global,
        max_stack: u16,
        max_locals: u16,
        locals: &[Option<Kind>],
    ) -> Result<Option<KindState>, ShapeError>
        ensures { IfOk result (λ made. MatchOption made (max_locals < length locals.now) (λ state. IsBegun max_stack max_locals locals.now state)) }
    {
        if usize::from(max_locals) < locals.len() {
            return Ok(None);
        }
        let mut lists = KindLists::new(alloc, max_locals)?;
        lists.set(locals)?;
        Ok(Some(KindState {
            max_stack,
            lists,
            stack: Vec::new(alloc),
            depth: 0,
        }))
    }

    /// The room for local variables.
    pub fn max_locals(&self) -> u16
        ensures { result ≡ self.now.max_locals }
    {
        self.lists.count()
    }

    /// Adds a list of local variables, which has the kinds of an earlier one before a slot, and those of `kinds` from there on.
    pub fn add_list(
        &mut self,
        base: usize,
        from: usize,
        kinds: &[Option<Kind>],
    ) -> Result<(), ShapeError>
        requires { from + length kinds.now ≤ self.old.max_locals }
        ensures same { SameButLists self.old self.new }
        ensures added { IfOk result (λ x. (made : List (Option Kind)) × (self.new.frames ≡ self.old.frames ++ made ∷ [])
            × IsChanged self.old.max_locals (get_or self.old.frames base []) from kinds.now made) }
    {
        self.lists.add(base, from, kinds)?;
        Ok(())
    }

    /// Adds an earlier list once more.
    pub fn add_again(&mut self, base: usize) -> Result<(), ShapeError>
        ensures same { SameButLists self.old self.new }
        ensures added { IfOk result (λ x. (made : List (Option Kind)) × (self.new.frames ≡ self.old.frames ++ made ∷ [])
            × IsChanged self.old.max_locals (get_or self.old.frames base []) self.old.max_locals [] made) }
    {
        self.lists.add_again(base)?;
        Ok(())
    }

    /// Whether there is room for the local variables and the operands of a frame. Then the state has these; else the state doesn't matter any more.
    pub fn set(&mut self, reported: &LentFrame<'_>) -> Result<bool, ShapeError>
        requires { IsListed self.old reported.now.place reported.now.locals }
        ensures room { SameRoom self.old self.new }
        ensures set { IfOk result (λ fits. Leaves fits (standing_in self.old reported.now.locals reported.now.stack.now) self.new.kinds) }
    {
        self.lists.take(reported.place as usize);
        self.set_stack(reported.stack)
    }

    #[tactic(auto, using(crate::proofs::States::depth_reverse))]
    fn set_stack(&mut self, stack: &[Kind]) -> Result<bool, ShapeError>
        ensures locals { SameLocals self.old self.new }
        ensures set { IfOk result (λ fits. Leaves fits
            (if nat_le (depth stack.now) self.old.max_stack then Some (reverse stack.now) else None) self.new.kinds.stack) }
    {
        let Some(depth) = depth_within(stack, u32::from(self.max_stack)) else {
            return Ok(false);
        };
        self.stack.clear();
        self.depth = 0;
        self.stack.extend_from_slice(stack)?;
        self.depth = depth;
        Ok(true)
    }

    /// The kinds of the operands, the top last.
    pub fn stack(&self) -> &[Kind]
        ensures { reverse result.now ≡ self.now.kinds.stack }
    {
        &self.stack
    }

    /// The kind of a local variable; none where there is no local variable of that number.
    pub fn local_at(&self, slot: usize) -> Option<Kind>
        ensures { result ≡ local_at self.now.kinds.locals slot }
    {
        self.lists.get(slot)
    }

    /// Whether the local variables have the kinds of a frame's.
    pub fn flows(&mut self, place: u32) -> bool
        ensures same { self.new ≡ self.old }
        ensures flows { (list : List (Option Kind)) → slice_get self.old.frames place ≡ Some list → Decides result (ListFlows self.old.kinds.locals list) }
    {
        self.lists.flows(place as usize)
    }

    /// Keeps the local variables before the next instruction.
    pub fn note(&mut self) -> Result<(), ShapeError>
        ensures same { SameButStates self.old self.new }
        ensures noted { IfOk result (λ x. IsNoted self.old self.new) }
    {
        self.lists.note()?;
        Ok(())
    }

    /// The first instruction below a limit before which the local variables lacked a kind of a frame's, in a range of that frame.
    pub fn first_lacking(
        &mut self,
        alloc: Global,
        ranges: &[KindRange],
        limit: u32,
    ) -> Result<Option<u32>, ShapeError>
        ensures same { self.new ≡ self.old }
        ensures first { IfOk result (λ first. IsFirstLack self.old.states self.old.frames ranges.now limit first) }
    {
        let first = self.lists.first_lacking(alloc, ranges, limit)?;
        Ok(first)
    }

    /// Whether there is room for the kind, if there is one. Then it is pushed.
    pub fn push(&mut self, given: Option<Kind>) -> Result<bool, ShapeError>
        ensures room { SameRoom self.old self.new }
        ensures pushed { IfOk result (λ fits. Leaves fits
            (leaving (room self.old) self.old.kinds.locals (with_result given (Some self.old.kinds.stack))) self.new.kinds) }
    {
        let Some(kind) = given else {
            return Ok(self.depth <= u32::from(self.max_stack));
        };
        let depth = self.depth + kind_slots(kind);
        if u32::from(self.max_stack) < depth {
            return Ok(false);
        }
        self.stack.push(kind)?;
        self.depth = depth;
        Ok(true)
    }

    fn pop(&mut self) -> Option<Kind>
        ensures locals { SameLocals self.old self.new }
        ensures popped { MatchOption result (self.old.kinds.stack ≡ [])
            (λ top. self.old.kinds.stack ≡ top ∷ self.new.kinds.stack) }
    {
        let top = self.stack.pop()?;
        self.depth -= kind_slots(top);
        Some(top)
    }

    /// Whether the top operand has the kind. It is popped.
    pub fn take(&mut self, kind: Kind) -> bool
        ensures locals { SameLocals self.old self.new }
        ensures taken { Takes result kind self.old.kinds.stack self.new.kinds.stack }
    {
        match self.pop() {
            None => false,
            Some(top) => same_kind(kind, top),
        }
    }

    /// Whether the operands have the kinds, the top first. They are popped.
    pub fn take_all(&mut self, wanted: &[Kind]) -> bool
        ensures locals { SameLocals self.old self.new }
        ensures taken { Leaves result (taken wanted.now self.old.kinds.stack) self.new.kinds.stack }
    {
        for kind in wanted {
            if !self.take(*kind) {
                return false;
            }
        }
        true
    }

    /// Whether the operands have the kinds, the top last. They are popped.
    pub fn take_back(&mut self, wanted: &[Kind]) -> bool
        ensures locals { SameLocals self.old self.new }
        ensures taken { Leaves result (taken (reverse wanted.now) self.old.kinds.stack) self.new.kinds.stack }
    {
        let mut rest = wanted;
        while let Some((last, prefix)) = rest.split_last() {
            if !self.take(*last) {
                return false;
            }
            rest = prefix;
        }
        true
    }

    /// Whether the operands have the kinds, the top first, and there is room for the kind that is then pushed, if there is one.
    pub fn give(&mut self, wanted: &[Kind], given: Option<Kind>) -> Result<bool, ShapeError>
        ensures room { SameRoom self.old self.new }
        ensures given { IfOk result (λ fits. Leaves fits
            (gives (room self.old) self.old.kinds wanted.now given) self.new.kinds) }
    {
        if self.take_all(wanted) {
            self.push(given)
        } else {
            Ok(false)
        }
    }

    /// Whether the top operand has the kind, and there is such a local variable, in which the kind is then stored.
    pub fn store(&mut self, kind: Kind, slot: u16) -> Result<bool, ShapeError>
        ensures room { SameRoom self.old self.new }
        ensures stored { IfOk result (λ fits. Leaves fits
            (store_kind (room self.old) kind slot (gives (room self.old) self.old.kinds (kind ∷ []) None)) self.new.kinds) }
    {
        Ok(self.give(&[kind], None)? && self.place(kind, slot)?)
    }

    // Whether there is such a local variable, in which the kind is then stored.
    fn place(&mut self, kind: Kind, slot: u16) -> Result<bool, ShapeError>
        ensures room { SameRoom self.old self.new }
        ensures stored { IfOk result (λ fits. Leaves fits (store_kind (room self.old) kind slot (Some self.old.kinds)) self.new.kinds) }
    {
        let last = usize::from(slot) + usize::from(is_wide(kind));
        if usize::from(self.max_locals()) <= last {
            return Ok(false);
        }
        self.cut_half(slot)?;
        self.lists.put(slot, Some(kind))?;
        if is_wide(kind) {
            self.lists.put(slot + 1, None)?;
        }
        Ok(true)
    }

    // Where this slot is the second of a kind that takes two, that kind is lost.
    fn cut_half(&mut self, slot: u16) -> Result<(), ShapeError>
        requires { slot < self.old.max_locals }
        ensures room { SameRoom self.old self.new }
        ensures stack { self.new.kinds.stack ≡ self.old.kinds.stack }
        ensures cut { IfOk result (λ x. self.new.kinds.locals ≡ without_half is_wide self.old.kinds.locals slot) }
    {
        if 0 < slot && is_some_wide(self.local_at(usize::from(slot) - 1)) {
            self.lists.put(slot - 1, None)?;
        }
        Ok(())
    }

    // ---- the upper operands

    /// The top operand, which is popped, where it takes one slot.
    pub fn cut_one(&mut self) -> Option<KindPiece>
        ensures locals { SameLocals self.old self.new }
        ensures cut { IsCut result (one_slot is_wide self.old.kinds.stack) self.new.kinds.stack }
    {
        let top = self.pop()?;
        if is_wide(top) {
            return None;
        }
        Some(KindPiece::One(top))
    }

    /// The top operand, where it takes two slots, or the upper two, where each takes one. They are popped.
    pub fn cut_two(&mut self) -> Option<KindPiece>
        ensures locals { SameLocals self.old self.new }
        ensures cut { IsCut result (two_slots is_wide self.old.kinds.stack) self.new.kinds.stack }
    {
        let top = self.pop()?;
        if is_wide(top) {
            return Some(KindPiece::One(top));
        }
        let under = self.pop()?;
        if is_wide(under) {
            return None;
        }
        Some(KindPiece::Two(top, under))
    }

    /// Whether there is room for these operands, which are then pushed.
    pub fn put(&mut self, piece: KindPiece) -> Result<bool, ShapeError>
        ensures room { SameRoom self.old self.new }
        ensures put { IfOk result (λ fits. Leaves fits
            (leaving (room self.old) self.old.kinds.locals (Some (piece_kinds piece ++ self.old.kinds.stack))) self.new.kinds) }
    {
        match piece {
            KindPiece::One(kind) => self.push(Some(kind)),
            KindPiece::Two(top, under) => Ok(self.push(Some(under))? && self.push(Some(top))?),
        }
    }
}
