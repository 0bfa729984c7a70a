ghost use Rattle.std.specs.Prelude.{◌≡◌, ◌<◌, ◌++◌, ◌∷◌, [], ℕ, Some, None, length, slice_index, IfOk, OnOk, OnErr};
ghost use Rattle.dj_stack.specs.Frames.{top_operands, top_room};
ghost use Rattle.dj_member_effects.specs.Literals.{DoesOnLiterals, Keeps, object_of, object_reported, push_text_by};

use dj_effects::{Flow, Way};
use dj_heap::{Heap, HeapError};
use dj_names::Value;
use dj_stack::Frames;
use std::alloc::{AllocError, Global};
use std::marker::Model;

/// The text objects of the literals, by the numbers of their texts and in the order in which they were made.
#[derive(Debug, Drop)]
pub struct Literals {
    // The object of each text, 0 where there is none yet.
    objects: Vec<u32>,
    // Each literal's text and object.
    made: Vec<(u32, u32)>,
    ghost reported: { (text : ℕ) → object_reported (slice_index objects.items text) ≡ object_of made.items text },
}

/// What came of giving a text an object.
#[derive(Clone, Copy, Debug)]
pub enum Kept {
    /// Its object.
    Object(u32),
    /// There is none yet, and it doesn't fit.
    HeapFull { used: u64, size: u64 },
}

impl Model for Literals {
    ghost use Rattle.std.specs.Prelude.{length};
    ghost use Rattle.dj_member_effects.specs.Literals.{LiteralTable};

    ghost Value = { LiteralTable };

    ghost view = { λ literals. record { count = length literals.objects.items; made = literals.made.items } };
}

impl Literals {
    /// No literal of this many texts.
    pub fn new(alloc: Global, count: u32) -> Result<Literals, AllocError>
        ensures { IfOk result (λ literals. literals ≡ record { count = count; made = [] }) }
    {
        Ok(Literals {
            objects: vec![in alloc; 0; count as usize]?,
            made: Vec::new(alloc),
        })
    }

    // The object of a text's literal, where there is one.
    fn object(&self, text: u32) -> Option<u32>
        requires { text < self.now.count }
        ensures { result ≡ object_of self.now.made text }
    {
        match self.objects[text as usize] {
            0 => None,
            object => Some(object),
        }
    }

    // One literal more, of a text that has none.
    fn keep(&mut self, text: u32, object: u32) -> Result<(), AllocError>
        requires known { text < self.old.count }
        requires some { 0 < object }
        requires first { object_of self.old.made text ≡ None }
        ensures { OnOk result (self.new ≡ record self.old { made = self.old.made ++ (text, object) ∷ [] }) }
    {
        self.made.push((text, object))?;
        self.objects[text as usize] = object;
        Ok(())
    }
}

/// Pushes the object of a text's literal. Where there is none yet, it is made of the text's units, with the given number of the class String.
#[tactic(auto, using(crate::proofs::LiteralFacts::pushes_kept, crate::proofs::LiteralFacts::pushes_none))]
pub fn push_text(
    frames: &mut Frames,
    heap: &mut Heap,
    literals: &mut Literals,
    string: u32,
    text: u32,
    units: &[u16],
) -> Result<Flow, AllocError>
    requires room { length (top_operands frames.old) < top_room frames.old }
    requires known { text < literals.old.count }
    ensures { IfOk result (λ flow. DoesOnLiterals (push_text_by (Some heap.old.limit) string text units.now)
        frames.old frames.new heap.old heap.new literals.old literals.new flow) }
{
    if let Some(r) = literals.object(text) {
        frames.push_value(Value::Ref(r));
        return Ok(Flow::Goes(Way::Next));
    }
    match heap.text(string, units) {
        Ok(r) => {
            literals.keep(text, r)?;
            frames.push_value(Value::Ref(r));
            Ok(Flow::Goes(Way::Next))
        }
        Err(HeapError::Full { used, size }) => Ok(Flow::HeapFull { used, size }),
        Err(HeapError::Memory) => Err(AllocError),
    }
}

/// The object of a text's literal. Where there is none yet, it is made of the text's units, with the given number of the class String.
#[tactic(auto, using(crate::proofs::LiteralFacts::kept_there, crate::proofs::LiteralFacts::kept_none))]
pub fn keep_text(
    heap: &mut Heap,
    literals: &mut Literals,
    string: u32,
    text: u32,
    units: &[u16],
) -> Result<Kept, AllocError>
    requires { text < literals.old.count }
    ensures { IfOk result (λ kept. Keeps string text units.now heap.old heap.new literals.old literals.new kept) }
{
    if let Some(r) = literals.object(text) {
        return Ok(Kept::Object(r));
    }
    match heap.text(string, units) {
        Ok(r) => {
            literals.keep(text, r)?;
            Ok(Kept::Object(r))
        }
        Err(HeapError::Full { used, size }) => Ok(Kept::HeapFull { used, size }),
        Err(HeapError::Memory) => Err(AllocError),
    }
}
