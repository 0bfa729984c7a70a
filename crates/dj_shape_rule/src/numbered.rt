ghost use Rattle.std.specs.Prelude.{◌≡◌, ℕ, ◌+◌, ◌<◌, ◌≤◌, ◌⊎◌, ◌++◌, ◌∷◌, [], length, get_or, nat_eq, if◌then◌else◌, slice_get, slice_set, Some, None, IfOk, IfErr, OnOk, MatchOption};
ghost use Rattle.dj_model.specs.trusted.Linking.{or_else};
ghost use Rattle.dj_shape_rule.specs.Numbered.{AreWithin, frame_at, frame_in};

use crate::error::ShapeError;
use crate::frames::KeptFrame;
use std::alloc::Global;

/// The frames of a stack map, by the numbers of their instructions: looking one up takes one step.
#[derive(Drop)]
pub struct NumberedFrames {
    // For each instruction, one more than the index of its frame; 0 where it has none. Those after the last have none.
    places: Vec<u32>,
    kept: Vec<KeptFrame>,
    pub ghost within: { AreWithin places.items kept.items },
}

fn place_of(places: &[u32], number: u64) -> u32
    ensures { result ≡ get_or places.now number 0 }
{
    match places.get(number as usize) {
        None => 0,
        Some(place) => *place,
    }
}

// The frame at a place.
#[tactic(auto, using(crate::proofs::Numbering::frame_below))]
fn frame_of(kept: &[KeptFrame], place: u32) -> Option<&KeptFrame>
    ensures { MatchOption result (frame_at kept.now place ≡ None) (λ frame. frame_at kept.now place ≡ Some frame.now) }
{
    if place == 0 {
        return None;
    }
    kept.get(place as usize - 1)
}

// Has at least this many places: at those that there weren't is no frame. Frames that were read are at instructions, so it adds none to theirs.
fn grow(places: &mut Vec<u32>, count: usize) -> Result<(), ShapeError>
    ensures many { OnOk result (count ≤ length places.new.items) }
    ensures same { (number : ℕ) → get_or places.new.items number 0 ≡ get_or places.old.items number 0 }
{
    if places.len() < count {
        places.resize(count, 0)?;
    }
    Ok(())
}

// The place of the next frame, where there are this many.
fn next_place(count: usize) -> Result<u32, ShapeError>
    ensures { IfOk result (λ place. place ≡ count + 1) }
{
    if count >= u32::MAX as usize {
        return Err(ShapeError::Memory);
    }
    Ok(count as u32 + 1)
}

fn set_place(places: &mut [u32], number: usize, place: u32)
    requires { number < length places.old }
    ensures { places.new ≡ slice_set places.old number place }
{
    places[number] = place;
}

// Keeps the frame of an instruction that has none.
fn add(
    places: &mut Vec<u32>,
    kept: &mut Vec<KeptFrame>,
    number: usize,
    frame: KeptFrame,
) -> Result<(), ShapeError>
    requires within { AreWithin places.old.items kept.old.items }
    requires number { number < length places.old.items }
    requires none { get_or places.old.items number 0 ≡ 0 }
    ensures within { AreWithin places.new.items kept.new.items }
    ensures more { IfOk result (λ x. (other : ℕ) → frame_in places.new.items kept.new.items other
        ≡ or_else (frame_in places.old.items kept.old.items other) (if nat_eq number other then Some frame else None)) }
    ensures same { IfErr result (λ e. (other : ℕ) → frame_in places.new.items kept.new.items other ≡ frame_in places.old.items kept.old.items other) }
    ensures list { (kept.new.items ≡ kept.old.items) ⊎ (kept.new.items ≡ kept.old.items ++ frame ∷ []) }
{
    let place = next_place(kept.len())?;
    kept.push(frame)?;
    set_place(places, number, place);
    Ok(())
}

// The count of places that the instruction of this number needs.
fn count_to(number: u64) -> Result<usize, ShapeError>
    ensures { IfOk result (λ count. number < count) }
{
    if number == u64::MAX {
        return Err(ShapeError::Memory);
    }
    Ok(number as usize + 1)
}

impl NumberedFrames {
    ghost use Rattle.std.specs.Prelude.{◌≡◌, ◌⊎◌, ◌++◌, ◌∷◌, [], ℕ, false, length, slice_get, None, Some, IfOk, IfErr, MatchOption};
    ghost use Rattle.dj_shape_rule.specs.Placing.{HasOneMore, HasSame, kept_at, number_place};

    /// No frames, of code with this many instructions.
    pub fn new(alloc: Global, count: usize) -> Result<NumberedFrames, ShapeError>
        ensures none { IfOk result (λ frames. (number : ℕ) → kept_at frames number ≡ None) }
        ensures list { IfOk result (λ frames. frames.kept.items ≡ []) }
    {
        Ok(NumberedFrames {
            places: vec![in alloc; 0; count]?,
            kept: Vec::new(alloc),
        })
    }

    /// How many there are.
    pub fn count(&self) -> usize
        ensures { result ≡ length self.now.kept.items }
    {
        self.kept.len()
    }

    /// The frame of this index.
    pub fn by_index(&self, index: usize) -> &KeptFrame
        requires { index < length self.now.kept.items }
        ensures { slice_get self.now.kept.items index ≡ Some result.now }
    {
        &self.kept[index]
    }

    /// One more than the index of the frame at the instruction of this number; 0 where there is none.
    pub fn place(&self, number: u64) -> u32
        ensures { result ≡ number_place self.now number }
    {
        place_of(&self.places, number)
    }

    /// Whether there may be a frame at the instruction of this number.
    pub fn has(&self, number: u64) -> bool
        ensures { result ≡ false → kept_at self.now number ≡ None }
    {
        place_of(&self.places, number) != 0
    }

    /// The frame at the instruction of this number, if there is one.
    pub fn get(&self, number: u64) -> Option<&KeptFrame>
        ensures { MatchOption result (kept_at self.now number ≡ None) (λ frame. kept_at self.now number ≡ Some frame.now) }
    {
        frame_of(&self.kept, place_of(&self.places, number))
    }

    /// Keeps a frame, where there is none at the instruction yet.
    pub fn keep(&mut self, at: u64, frame: KeptFrame) -> Result<(), ShapeError>
        ensures more { IfOk result (λ x. HasOneMore self.old self.new at frame) }
        ensures same { IfErr result (λ e. HasSame self.old self.new) }
        ensures list { (self.new.kept.items ≡ self.old.kept.items) ⊎ (self.new.kept.items ≡ self.old.kept.items ++ frame ∷ []) }
    {
        if place_of(&self.places, at) != 0 {
            return Ok(());
        }
        grow(&mut self.places, count_to(at)?)?;
        add(&mut self.places, &mut self.kept, at as usize, frame)
    }
}
