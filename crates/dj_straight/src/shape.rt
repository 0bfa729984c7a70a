ghost use Rattle.std.specs.Prelude.{◌≡◌, ℕ, ◌+◌, ◌<◌, ◌≤◌, ◌^◌, List, [], ◌∷◌, length, slice_get, Some, IfOk, MatchOption, vec_len};
ghost use Rattle.dj_names.specs.declared.descriptor.Kind.{Kind};
ghost use Rattle.dj_names.specs.trusted.Values.{value_kind};
ghost use Rattle.dj_straight.specs.trusted.Instructions as model;
ghost use Rattle.dj_straight.specs.trusted.Effects.{same_kind, slots_of};
ghost use Rattle.dj_straight.specs.trusted.Instructions.{ends};
ghost use Rattle.dj_straight.specs.trusted.Shape.{after, first_kinds, gives, is_kind, kind_at, pushed, set_kind, taken, kinds_without_long_before, IsShapeFault, StateBefore};
ghost use Rattle.dj_straight.specs.Shape.{HasShape};
ghost use Rattle.dj_straight.specs.declared.program.Action.{Action};
ghost use Rattle.dj_straight.specs.trusted.Methods.{straight_signature};
ghost use Rattle.dj_straight.specs.Methods.{action_view, code_view};
ghost use Rattle.dj_straight.specs.Shaping.{room, HasRoomOf, SameRoom, SameLocals, Leaves, Takes, Answers};

use crate::program::{Action, StraightMethod};
use dj_names::{Kind, Value};
use std::alloc::{AllocError, Global};
use std::marker::Model;

// The kinds of the local variables and of the operands, with the room that the code has for them.
#[derive(Drop)]
struct KindState {
    max_stack: u16,
    max_locals: u16,
    locals: Vec<Option<Kind>>,
    // The top at the end.
    stack: Vec<Kind>,
    // A long counts as two operands.
    depth: u32,
}

impl Model for KindState {
    ghost use Rattle.std.specs.Prelude.{◌≡◌, ◌≤◌, reverse, sum_by, vec_len};
    ghost use Rattle.dj_straight.specs.trusted.Effects.{slots_of};
    ghost use Rattle.dj_straight.specs.Shaping.{Standing};

    ghost Value = { Standing };

    ghost view = { λ s. record {
      max_stack = s.max_stack;
      max_locals = s.max_locals;
      kinds = record { locals = s.locals.items; stack = reverse s.stack.items };
    } };

    ghost invariant = { λ s. (s.depth ≡ sum_by slots_of (reverse s.stack.items)) × (s.depth ≤ s.max_stack)
        × (vec_len s.locals ≡ s.max_locals) };
}

fn slots_of(kind: Kind) -> u32
    ensures { result ≡ slots_of kind }
{
    match kind {
        Kind::Long => 2,
        Kind::Int | Kind::Ref => 1,
    }
}

fn same_kind(a: Kind, b: Kind) -> bool
    ensures { result ≡ same_kind a b }
{
    matches!(
        (a, b),
        (Kind::Int, Kind::Int) | (Kind::Long, Kind::Long) | (Kind::Ref, Kind::Ref)
    )
}

fn is_kind(kind: Kind, found: Option<Kind>) -> bool
    ensures { result ≡ is_kind kind found }
{
    match found {
        None => false,
        Some(other) => same_kind(kind, other),
    }
}

fn kind_of(value: Value) -> Kind
    ensures { result ≡ value_kind value }
{
    match value {
        Value::Int(_) => Kind::Int,
        Value::Long(_) => Kind::Long,
        Value::Ref(_) => Kind::Ref,
    }
}

fn kind_at(locals: &[Option<Kind>], slot: usize) -> Option<Kind>
    ensures { result ≡ kind_at locals.now slot }
{
    *locals.get(slot)?
}

// Where this slot is the second of a long, the long loses its kind.
fn cut_long_before(locals: &mut [Option<Kind>], slot: usize)
    ensures { locals.new ≡ kinds_without_long_before locals.old slot }
{
    if 0 < slot && is_kind(Kind::Long, kind_at(locals, slot - 1)) {
        locals[slot - 1] = None;
    }
}

fn set_kind(locals: &mut [Option<Kind>], slot: usize, kind: Kind)
    requires { slot + slots_of kind ≤ length locals.old }
    ensures { locals.new ≡ set_kind locals.old slot kind }
{
    locals[slot] = Some(kind);
    if kind == Kind::Long {
        locals[slot + 1] = None;
    }
}

// The kind is stored in a local variable.
fn store_kind(locals: &mut [Option<Kind>], slot: usize, kind: Kind)
    requires { slot + slots_of kind ≤ length locals.old }
    ensures { locals.new ≡ set_kind (kinds_without_long_before locals.old slot) slot kind }
{
    cut_long_before(locals, slot);
    set_kind(locals, slot, kind);
}

impl KindState {
    // The parameter, and no other kinds.
    fn new(alloc: Global, method: &StraightMethod) -> Result<KindState, AllocError>
        requires { 0 < method.now.max_locals }
        ensures room { IfOk result (λ state. HasRoomOf state method.now) }
        ensures kinds { IfOk result (λ state. state.kinds ≡ first_kinds straight_signature (code_view method.now)) }
    {
        let mut locals = vec![in alloc; None; usize::from(method.max_locals)]?;
        locals[0] = Some(Kind::Ref);
        Ok(KindState {
            max_stack: method.max_stack,
            max_locals: method.max_locals,
            locals,
            stack: Vec::new(alloc),
            depth: 0,
        })
    }

    // Whether there is room for one more operand, which is pushed then.
    fn push(&mut self, kind: Kind) -> Result<bool, AllocError>
        ensures room { SameRoom self.old self.new }
        ensures pushed { IfOk result (λ fits. Leaves fits
            (pushed (room self.old) self.old.kinds.locals self.old.kinds.stack kind) self.new.kinds) }
    {
        let depth = self.depth + slots_of(kind);
        if u32::from(self.max_stack) < depth {
            return Ok(false);
        }
        self.stack.push(kind)?;
        self.depth = depth;
        Ok(true)
    }

    fn pop(&mut self) -> Option<Kind>
        ensures locals { SameLocals self.old self.new }
        ensures popped { MatchOption result (self.old.kinds.stack ≡ [])
            (λ top. self.old.kinds.stack ≡ top ∷ self.new.kinds.stack) }
    {
        let top = self.stack.pop()?;
        self.depth -= slots_of(top);
        Some(top)
    }

    fn top(&self) -> Option<Kind>
        ensures { MatchOption result (self.now.kinds.stack ≡ [])
            (λ top. (below : List Kind) × (self.now.kinds.stack ≡ top ∷ below)) }
    {
        match self.stack.last() {
            None => None,
            Some(top) => Some(*top),
        }
    }

    // Whether the top operand has the kind. It is popped.
    fn take(&mut self, kind: Kind) -> bool
        ensures locals { SameLocals self.old self.new }
        ensures taken { Takes result kind self.old.kinds.stack self.new.kinds.stack }
    {
        match self.pop() {
            None => false,
            Some(top) => same_kind(kind, top),
        }
    }

    // Whether the operands have the kinds, the top first. They are popped.
    fn take_all(&mut self, wanted: &[Kind]) -> bool
        ensures locals { SameLocals self.old self.new }
        ensures taken { Leaves result (taken wanted.now self.old.kinds.stack) self.new.kinds.stack }
    {
        for kind in wanted {
            if !self.take(*kind) {
                return false;
            }
        }
        true
    }

    // Whether the operands have the kinds, and there is room for the kind that is pushed then.
    fn give(&mut self, wanted: &[Kind], kind: Kind) -> Result<bool, AllocError>
        ensures room { SameRoom self.old self.new }
        ensures given { IfOk result (λ fits. Leaves fits
            (gives (room self.old) self.old.kinds wanted.now kind) self.new.kinds) }
    {
        if self.take_all(wanted) {
            self.push(kind)
        } else {
            Ok(false)
        }
    }

    #[tactic(auto, unfolding(crate::specs::trusted::Shape::after))]
    fn load(&mut self, kind: Kind, slot: u16) -> Result<bool, AllocError>
        ensures room { SameRoom self.old self.new }
        ensures loaded { IfOk result (λ fits. Leaves fits
            (after straight_signature (room self.old) (model.Load kind slot) self.old.kinds) self.new.kinds) }
    {
        if is_kind(kind, kind_at(&self.locals, usize::from(slot))) {
            self.push(kind)
        } else {
            Ok(false)
        }
    }

    #[tactic(auto, unfolding(crate::specs::trusted::Shape::after))]
    fn store(&mut self, kind: Kind, slot: u16) -> bool
        ensures room { SameRoom self.old self.new }
        ensures stored { Leaves result
            (after straight_signature (room self.old) (model.Store kind slot) self.old.kinds) self.new.kinds }
    {
        if !self.take(kind) || u32::from(self.max_locals) < u32::from(slot) + slots_of(kind) {
            return false;
        }
        store_kind(&mut self.locals, usize::from(slot), kind);
        true
    }

    #[tactic(auto, unfolding(crate::specs::trusted::Shape::after))]
    fn pop_one(&mut self) -> bool
        ensures room { SameRoom self.old self.new }
        ensures popped { Leaves result
            (after straight_signature (room self.old) (model.Move model.Pop) self.old.kinds) self.new.kinds }
    {
        match self.pop() {
            None => false,
            Some(top) => !same_kind(Kind::Long, top),
        }
    }

    #[tactic(auto, unfolding(crate::specs::trusted::Shape::after))]
    fn dup(&mut self) -> Result<bool, AllocError>
        ensures room { SameRoom self.old self.new }
        ensures pushed { IfOk result (λ fits. Leaves fits
            (after straight_signature (room self.old) (model.Move model.Dup) self.old.kinds) self.new.kinds) }
    {
        match self.top() {
            Some(top) if !same_kind(Kind::Long, top) => self.push(top),
            _ => Ok(false),
        }
    }

    // Whether the action finds what it takes, and what it gives fits. Then the kinds are those after it.
    #[tactic(auto, unfolding(crate::specs::trusted::Shape::after))]
    fn step(&mut self, action: Action) -> Result<bool, AllocError>
        ensures room { SameRoom self.old self.new }
        ensures left { IfOk result (λ done. Leaves done
            (after straight_signature (room self.old) (action_view action) self.old.kinds) self.new.kinds) }
    {
        match action {
            Action::Nop => Ok(true),
            Action::Push(value) => self.push(kind_of(value)),
            Action::Load(kind, slot) => self.load(kind, slot),
            Action::Store(kind, slot) => Ok(self.store(kind, slot)),
            Action::LoadByte => self.give(&[Kind::Int, Kind::Ref], Kind::Int),
            Action::StoreByte => Ok(self.take_all(&[Kind::Int, Kind::Int, Kind::Ref])),
            Action::Pop => Ok(self.pop_one()),
            Action::Dup => self.dup(),
            Action::Compute(_) => self.give(&[Kind::Int, Kind::Int], Kind::Int),
            Action::ReturnReference => Ok(self.take_all(&[Kind::Ref])),
            Action::ArrayLength => self.give(&[Kind::Ref], Kind::Int),
            Action::NewByteArray => self.give(&[Kind::Int], Kind::Ref),
            Action::Other(_) => Ok(false),
        }
    }

    // Whether the instruction of this number holds, with these kinds before it. Then the kinds are those after it.
    fn holds(
        &mut self,
        method: &StraightMethod,
        number: usize,
        action: Action,
    ) -> Result<bool, AllocError>
        requires at { slice_get method.now.actions.items number ≡ Some action }
        requires room { HasRoomOf self.old method.now }
        requires before { StateBefore straight_signature (code_view method.now) [] number self.old.kinds }
        ensures room { HasRoomOf self.new method.now }
        ensures answer { IfOk result (λ holds. Answers holds (code_view method.now) number (action_view action) self.new.kinds) }
    {
        Ok(self.step(action)? && (number + 1 < method.actions.len() || is_end(action)))
    }
}

// Whether the run doesn't go on at the next instruction.
fn is_end(action: Action) -> bool
    ensures { result ≡ ends (action_view action) }
{
    action == Action::ReturnReference
}

/// The number with which code without shape is reported; none where it has shape.
pub fn shape_fault(alloc: Global, method: &StraightMethod) -> Result<Option<u32>, AllocError>
    requires { vec_len method.now.actions < 2 ^ 32 }
    ensures { IfOk result (λ fault. MatchOption fault (HasShape straight_signature (code_view method.now))
        (λ number. IsShapeFault straight_signature (code_view method.now) (Some number))) }
{
    if method.max_locals == 0 {
        return Ok(Some(0));
    }
    let mut state = KindState::new(alloc, method)?;
    let mut ended = false;
    for (number, action) in method.actions.iter().enumerate() {
        if ended || !state.holds(method, number, *action)? {
            return Ok(Some(number as u32));
        }
        ended = is_end(*action);
    }
    Ok(None)
}
