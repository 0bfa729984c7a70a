ghost use Rattle.std.specs.Prelude.{◌≡◌, ℕ, ◌≤◌, ◌++◌, ◌∷◌, [], List, Option, false, slice_get, get_or, length, map, take, option_map, option_and_then, IfOk, IfSome, None};
ghost use Rattle.dj_names.specs.declared.descriptor.Kind.{Kind};
ghost use Rattle.dj_pool.specs.trusted.Pool.{Constant};
ghost use Rattle.dj_program.specs.trusted.Naming.{instruction_in};
ghost use Rattle.dj_ops.specs.declared.frames.Form.TheVariants as forms;
ghost use Rattle.dj_model.specs.trusted.Program.{Code};
ghost use Rattle.dj_model.specs.trusted.Instructions.{makes_uninitialised};
ghost use Rattle.dj_model.specs.trusted.Kinds.{entries_of, entry_of, entry_slots, form_entries, made_by, stack_of};
ghost use Rattle.dj_shape_rule.specs.declared.arena.Slot.{Slot};
ghost use Rattle.dj_shape_rule.specs.Arena.{IsAt, IsIn, slots_at};
ghost use Rattle.dj_shape_rule.specs.Makes.{form_makes};
ghost use Rattle.dj_shape_rule.specs.Pools.{ArePoolKinds};
ghost use Rattle.dj_shape_rule.specs.Reading.{ArePlaces, AreRead, ChangesTo, Gains, IsFrameRead, IsReading, entry_view, frame_code, kept_entries, made_as};
ghost use Rattle.dj_shape_rule.specs.Reported.{Grows, reported_at};

use crate::arena::LocalsPlace;
use crate::error::ShapeError;
use crate::frames::{KeptFrame, KeptFrames};
use crate::instrs::makes_object;
use crate::kinds::depth_within;
use crate::pool::PoolKinds;
use dj_names::Kind;
use dj_ops::{Form, Frame, Instr, VType};
use std::alloc::Global;
use std::marker::Model;

/// For each instruction of code, whether it makes an object of a class.
#[derive(Drop)]
pub struct ObjectMakers<'a> {
    kinds: &'a PoolKinds,
    code: &'a [Instr],
}

impl<'a> Model for ObjectMakers<'a> {
    ghost use Rattle.std.specs.Prelude.{Bool, List, map};
    ghost use Rattle.dj_shape_rule.specs.Makes.{form_makes};

    ghost Value = { List Bool };

    ghost view = { λ made. map (form_makes made.kinds.now.constants) made.code.now };
}

/// For each instruction, whether it makes an object of a class.
pub fn objects_made<'a>(kinds: &'a PoolKinds, code: &'a [Instr]) -> ObjectMakers<'a>
    ensures { (pool : List Constant) → ArePoolKinds pool kinds.now → result ≡ map (λ i. makes_uninitialised (instruction_in pool i)) code.now }
{
    ObjectMakers { kinds, code }
}

// Whether the instruction of the number makes an object.
#[tactic(auto, using(crate::proofs::Entries::makes_at, crate::proofs::Entries::makes_past))]
fn makes_at(kinds: &PoolKinds, code: &[Instr], number: u32) -> bool
    ensures { result ≡ get_or (map (form_makes kinds.now.constants) code.now) number false }
{
    match code.get(number as usize) {
        None => false,
        Some(instr) => makes_object(kinds, instr),
    }
}

impl ObjectMakers<'_> {
    // Whether the instruction of the number makes an object.
    fn is_made(&self, number: u32) -> bool
        ensures { result ≡ get_or self.now number false }
    {
        makes_at(self.kinds, self.code, number)
    }
}

// What an instruction makes, if it makes an object.
fn made_entry(made: &ObjectMakers<'_>, number: u32) -> Option<Option<Kind>>
    ensures { entry_view result ≡ made_by (slice_get (map made_as made.now) number) }
{
    if made.is_made(number) {
        Some(Some(Kind::Ref))
    } else {
        None
    }
}

// The entry of a type: a value of a kind, or one that may be anything; or there is none.
fn entry_of(made: &ObjectMakers<'_>, ty: VType) -> Option<Option<Kind>>
    ensures { (max_stack max_locals : ℕ) → entry_view result ≡ entry_of (frame_code max_stack max_locals made.now) ty }
{
    match ty {
        VType::Top => Some(None),
        VType::Integer => Some(Some(Kind::Int)),
        VType::Long => Some(Some(Kind::Long)),
        VType::Null | VType::UninitializedThis | VType::Object(_) => Some(Some(Kind::Ref)),
        VType::Uninitialized(number) => made_entry(made, number),
        VType::Float | VType::Double => None,
    }
}

// Appends the entries of types, one after the other. Whether each type has one.
fn add_entries(
    entries: &mut Vec<Option<Kind>>,
    made: &ObjectMakers<'_>,
    types: &[VType],
) -> Result<bool, ShapeError>
    ensures { IfOk result (λ reported. (max_stack max_locals : ℕ) → Gains reported (entries_of (frame_code max_stack max_locals made.now) types.now) entries.old.items entries.new.items) }
{
    for ty in types {
        let Some(entry) = entry_of(made, *ty) else {
            return Ok(false);
        };
        entries.push(entry)?;
    }
    Ok(true)
}

// The operands of entries, each of which has to have a kind.
fn stack_kinds(alloc: Global, entries: &[Option<Kind>]) -> Result<Option<Vec<Kind>>, ShapeError>
    ensures { IfOk result (λ stack. option_map (λ v. v.items) stack ≡ stack_of entries.now) }
{
    let mut stack = Vec::new(alloc);
    for entry in entries {
        let Some(kind) = *entry else {
            return Ok(None);
        };
        stack.push(kind)?;
    }
    Ok(Some(stack))
}

// The operands that types declare.
fn operands(
    alloc: Global,
    made: &ObjectMakers<'_>,
    types: &[VType],
) -> Result<Option<Vec<Kind>>, ShapeError>
    ensures { IfOk result (λ stack. (max_stack max_locals : ℕ) → option_map (λ v. v.items) stack ≡ option_and_then stack_of (entries_of (frame_code max_stack max_locals made.now) types.now)) }
{
    let mut entries = Vec::new(alloc);
    if !add_entries(&mut entries, made, types)? {
        return Ok(None);
    }
    stack_kinds(alloc, &entries)
}

// Drops the last `count` local variables, and gives no operands, where there are as many.
fn chop(alloc: Global, entries: &mut Vec<Option<Kind>>, count: usize) -> Option<Vec<Kind>>
    ensures { (code : Code) → ChangesTo (option_map (λ v. v.items) result) (form_entries code entries.old.items (forms.Chop count)) entries.new.items }
{
    if entries.len() < count {
        return None;
    }
    entries.truncate(entries.len() - count);
    Some(Vec::new(alloc))
}

// Changes the local variables as the form of a frame says, and gives its operands, where each of its types has an entry.
fn change(
    alloc: Global,
    entries: &mut Vec<Option<Kind>>,
    made: &ObjectMakers<'_>,
    form: &Form,
) -> Result<Option<Vec<Kind>>, ShapeError>
    ensures { IfOk result (λ stack. (max_stack max_locals : ℕ) → ChangesTo (option_map (λ v. v.items) stack) (form_entries (frame_code max_stack max_locals made.now) entries.old.items form.now) entries.new.items) }
{
    match form {
        Form::Same => Ok(Some(Vec::new(alloc))),
        Form::Stack1(ty) => operands(alloc, made, &[*ty]),
        Form::Chop(count) => Ok(chop(alloc, entries, usize::from(*count))),
        Form::Append(more) => {
            if !add_entries(entries, made, more.as_slice())? {
                return Ok(None);
            }
            Ok(Some(Vec::new(alloc)))
        }
        Form::Full(locals, stack) => {
            entries.clear();
            if !add_entries(entries, made, locals.as_slice())? {
                return Ok(None);
            }
            operands(alloc, made, stack.as_slice())
        }
    }
}

// How many of the entries of the frame before are still there.
fn kept_entries(form: &Form, before: usize, now: usize) -> usize
    ensures { result ≡ kept_entries form.now before now }
{
    match form {
        Form::Full(_, _) => 0,
        Form::Same | Form::Stack1(_) | Form::Chop(_) | Form::Append(_) => before.min(now),
    }
}

// ---- the local variables in slots

// The place of the last entry that has one.
fn last_place(places: &[LocalsPlace]) -> LocalsPlace
    ensures { (slots : List Slot) (entries : List (Option Kind)) → ArePlaces slots places.now entries → IsAt slots result (entry_slots (take (length places.now) entries)) }
{
    match places.last() {
        None => LocalsPlace { end: 0, count: 0 },
        Some(place) => *place,
    }
}

// Appends an entry in its slot, or in its two, to the local variables of a place.
fn add_entry(
    frames: &mut KeptFrames,
    place: LocalsPlace,
    entry: Option<Kind>,
) -> Result<LocalsPlace, ShapeError>
    requires { IsIn frames.old.slots.items place }
    ensures grows { Grows frames.old frames.new }
    ensures added { IfOk result (λ more. IsAt frames.new.slots.items more (slots_at frames.old.slots.items place.end ++ entry_slots (entry ∷ []))) }
{
    let first = frames.add(place, entry)?;
    if entry == Some(Kind::Long) {
        return frames.add(first, None);
    }
    Ok(first)
}

/// The frames of a stack map that were read, and what the next one may keep of the last.
#[derive(Drop)]
pub struct Reader {
    // The last one's local variables, one after the other.
    entries: Vec<Option<Kind>>,
    // For each of them, the place where it and those before it are kept.
    places: Vec<LocalsPlace>,
    frames: KeptFrames,
}

impl Reader {
    // Gives a place to the entries that have none yet.
    fn place_all(&mut self) -> Result<(), ShapeError>
        requires few { length self.old.places.items ≤ length self.old.entries.items }
        requires places { ArePlaces self.old.frames.slots.items self.old.places.items self.old.entries.items }
        ensures entries { self.new.entries.items ≡ self.old.entries.items }
        ensures grows { Grows self.old.frames self.new.frames }
        ensures reading { IfOk result (λ x. IsReading self.new) }
    {
        while self.places.len() < self.entries.len() {
            let entry = self.entries[self.places.len()];
            let place = add_entry(&mut self.frames, last_place(&self.places), entry)?;
            self.places.push(place)?;
        }
        Ok(())
    }

    /// No frames, of code with this many instructions, before which the local variables are these.
    pub fn new(
        alloc: Global,
        entries: Vec<Option<Kind>>,
        count: usize,
    ) -> Result<Reader, ShapeError>
        ensures reading { IfOk result (λ reader. IsReading reader) }
        ensures entries { IfOk result (λ reader. reader.entries.items ≡ entries.items) }
        ensures none { IfOk result (λ reader. (number : ℕ) → reported_at reader.frames number ≡ None) }
    {
        let mut reader = Reader {
            entries,
            places: Vec::new(alloc),
            frames: KeptFrames::new(alloc, count)?,
        };
        reader.place_all()?;
        Ok(reader)
    }

    // The place of the local variables.
    fn place(&self) -> LocalsPlace
        requires { IsReading self.now }
        ensures { IsAt self.now.frames.slots.items result (entry_slots self.now.entries.items) }
    {
        last_place(&self.places)
    }

    /// Writes the local variables in their slots.
    pub fn copy_locals(&self, locals: &mut Vec<Option<Kind>>) -> Result<(), ShapeError>
        requires { IsReading self.now }
        ensures { IfOk result (λ x. locals.new.items ≡ entry_slots self.now.entries.items) }
    {
        self.frames
            .new_kinds(LocalsPlace { end: 0, count: 0 }, self.place(), locals)?;
        Ok(())
    }

    // Changes the local variables as the form of a frame says, and gives its operands, where each of its types has an entry.
    fn change(
        &mut self,
        alloc: Global,
        made: &ObjectMakers<'_>,
        form: &Form,
    ) -> Result<Option<Vec<Kind>>, ShapeError>
        requires { IsReading self.old }
        ensures grows { Grows self.old.frames self.new.frames }
        ensures changes { IfOk result (λ stack. (max_stack max_locals : ℕ) → ChangesTo (option_map (λ v. v.items) stack) (form_entries (frame_code max_stack max_locals made.now) self.old.entries.items form.now) self.new.entries.items) }
        ensures reading { IfOk result (λ stack. IfSome stack (λ x. IsReading self.new)) }
    {
        let before = self.entries.len();
        let Some(stack) = change(alloc, &mut self.entries, made, form)? else {
            return Ok(None);
        };
        self.places
            .truncate(kept_entries(form, before, self.entries.len()));
        self.place_all()?;
        Ok(Some(stack))
    }

    // The kinds of a frame after the one before it, where it has kinds and they fit.
    fn read(
        &mut self,
        alloc: Global,
        room: (u16, u16),
        made: &ObjectMakers<'_>,
        form: &Form,
    ) -> Result<Option<KeptFrame>, ShapeError>
        requires { IsReading self.old }
        ensures grows { Grows self.old.frames self.new.frames }
        ensures read { IfOk result (λ kept. IsFrameRead (frame_code room.0 room.1 made.now) (form_entries (frame_code room.0 room.1 made.now) self.old.entries.items form.now) kept self.new) }
    {
        let Some(stack) = self.change(alloc, made, form)? else {
            return Ok(None);
        };
        let place = self.place();
        if u32::from(room.1) < place.count {
            return Ok(None);
        }
        if depth_within(&stack, u32::from(room.0)).is_none() {
            return Ok(None);
        }
        Ok(Some(KeptFrame { place, stack }))
    }
}

/// The kinds of the frames of a stack map, or the number of the first that has none that fit.
pub fn read_frames(
    alloc: Global,
    room: (u16, u16),
    made: &ObjectMakers<'_>,
    mut reader: Reader,
    frames: &[Frame],
) -> Result<Result<KeptFrames, u32>, ShapeError>
    requires reading { IsReading reader }
    requires none { (number : ℕ) → reported_at reader.frames number ≡ None }
    ensures { IfOk result (λ read. AreRead (frame_code room.0 room.1 made.now) reader.entries.items frames.now read) }
{
    for frame in frames {
        let Some(kept) = reader.read(alloc, room, made, &frame.form)? else {
            return Ok(Err(frame.at));
        };
        reader.frames.keep(u64::from(frame.at), kept)?;
    }
    let Reader {
        frames: reported,
        ..
    } = reader;
    Ok(Ok(reported))
}
