ghost use Rattle.std.specs.Prelude.{◌≡◌, ◌+◌, ◌++◌, ◌∷◌, [], ◌<◌, ◌≤◌, get_or, length, set, slice_get, Some, IfOk, IfErr};
ghost use Rattle.std.specs.Vec.{vec_capacity};
ghost use Rattle.dj_stack.specs.declared.errors.PushError.TheVariants as PushError;
ghost use Rattle.dj_stack.specs.Parts.{Put};
ghost use Rattle.dj_stack.specs.Cells.{parts_of};

use crate::ends::put_last;
use crate::errors::PushError;
use crate::packed::Packed;
use crate::parts::Parts;
use std::alloc::Global;

impl Packed {
    /// Nothing yet, with room for this many.
    pub(crate) fn with_room(alloc: Global, room: u16) -> Result<Packed, PushError>
        ensures parts { IfOk result (λ packed. parts_of packed ≡ []) }
        ensures room { IfOk result (λ packed. packed.room ≡ room) }
        ensures refused { IfErr result (λ e. e ≡ PushError.Memory) }
    {
        let kinds = Vec::with_capacity(alloc, usize::from(room))?;
        let lows = Vec::with_capacity(alloc, usize::from(room))?;
        let highs = Vec::with_capacity(alloc, usize::from(room))?;
        Ok(Packed {
            kinds,
            lows,
            highs,
            room,
        })
    }

    /// Takes all away.
    pub(crate) fn clear(&mut self)
        ensures parts { parts_of self.new ≡ [] }
        ensures room { self.new.room ≡ self.old.room }
    {
        self.kinds.clear();
        self.lows.clear();
        self.highs.clear();
    }

    /// How many there are.
    #[tactic(auto, using(crate::proofs::PartLists::count_of))]
    pub(crate) fn len(&self) -> u16
        ensures { result ≡ length (parts_of self.now) }
    {
        self.kinds.len() as u16
    }

    /// The parts at a place.
    #[tactic(auto, using(crate::proofs::PartLists::count_of, crate::proofs::PartLists::found_at))]
    pub(crate) fn get(&self, at: u16) -> Parts
        requires { at < length (parts_of self.now) }
        ensures { slice_get (parts_of self.now) at ≡ Some result }
    {
        let at = usize::from(at);
        Parts {
            kind: self.kinds[at],
            low: self.lows[at],
            high: number_at(&self.highs, at),
        }
    }

    /// Other parts stand at a place.
    #[tactic(auto, using(crate::proofs::PartLists::count_of, crate::proofs::PartLists::set_at))]
    pub(crate) fn set(&mut self, at: u16, parts: Parts)
        requires { at < length (parts_of self.old) }
        ensures parts { parts_of self.new ≡ set (parts_of self.old) at parts }
        ensures room { self.new.room ≡ self.old.room }
    {
        let at = usize::from(at);
        put(&mut self.highs, at, parts.high);
        self.kinds[at] = parts.kind;
        self.lows[at] = parts.low;
    }

    /// Appends parts, for which there is room.
    #[tactic(auto, using(crate::proofs::PartLists::count_of, crate::proofs::PartLists::pushed))]
    pub(crate) fn push(&mut self, parts: Parts)
        requires { length (parts_of self.old) < self.old.room }
        ensures parts { parts_of self.new ≡ parts_of self.old ++ parts ∷ [] }
        ensures room { self.new.room ≡ self.old.room }
    {
        put(&mut self.highs, self.kinds.len(), parts.high);
        put_last(&mut self.kinds, parts.kind);
        put_last(&mut self.lows, parts.low);
    }
}

/// The number at a place, and 0 past the end.
#[tactic(auto, using(crate::proofs::Puts::past_end))]
pub(crate) fn number_at(numbers: &Vec<u32>, at: usize) -> u32
    ensures { result ≡ get_or numbers.now.items at 0 }
{
    if at < numbers.len() { numbers[at] } else { 0 }
}

// Writes a number at a place, where past the end all are 0.
#[tactic(auto, using(crate::proofs::Puts::put_within, crate::proofs::Puts::put_zero))]
fn put(numbers: &mut Vec<u32>, at: usize, number: u32)
    requires { at < vec_capacity numbers.old }
    ensures put { Put numbers.old.items numbers.new.items at number }
    ensures capacity { vec_capacity numbers.old ≤ vec_capacity numbers.new }
{
    if at < numbers.len() {
        numbers[at] = number;
    } else if number != 0 {
        put_past(numbers, at, number);
    }
}

// The same at or past the end.
#[tactic(auto, using(crate::proofs::Puts::put_past))]
fn put_past(numbers: &mut Vec<u32>, at: usize, number: u32)
    requires past { length numbers.old.items ≤ at }
    requires room { at < vec_capacity numbers.old }
    ensures put { Put numbers.old.items numbers.new.items at number }
    ensures capacity { vec_capacity numbers.old ≤ vec_capacity numbers.new }
{
    match numbers.resize(at, 0) {
        Ok(()) => put_last(numbers, number),
        Err(_) => unreachable!(),
    }
}
