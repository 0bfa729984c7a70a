ghost use Rattle.std.specs.Prelude.{◌≡◌, ◌+◌, ◌++◌, ◌∷◌, [], ◌<◌, ◌≤◌, length, drop, slice_get, Some, IfErr};
ghost use Rattle.std.specs.Vec.{vec_capacity};
ghost use Rattle.dj_stack.specs.declared.errors.PushError.TheVariants as PushError;
ghost use Rattle.dj_stack.specs.Held.{stacked_values};
ghost use Rattle.dj_stack.specs.Stacks.{high_part, longs_in, longs_of};

use crate::ends::{put_last, take_last};
use crate::errors::PushError;
use crate::packing::number_at;
use crate::parts::{Kind, Parts};
use crate::stacked::Stacked;
use dj_names::Value;
use std::alloc::Global;

impl Stacked {
    /// None yet, with memory for as many as a method has at most.
    pub(crate) fn new(alloc: Global) -> Result<Stacked, PushError>
        ensures refused { IfErr result (λ e. e ≡ PushError.Memory) }
    {
        let kinds = Vec::with_capacity(alloc, usize::from(u16::MAX))?;
        let lows = Vec::with_capacity(alloc, usize::from(u16::MAX))?;
        let highs = Vec::with_capacity(alloc, usize::from(u16::MAX))?;
        Ok(Stacked {
            kinds,
            lows,
            highs,
            room: 0,
        })
    }

    /// Now none, with room for this many, in place of those that it had.
    #[tactic(auto, using(crate::proofs::Stacks::count_of))]
    pub(crate) fn begin(&mut self, room: u16)
        ensures values { stacked_values self.new ≡ [] }
        ensures room { self.new.room ≡ room }
    {
        self.clear();
        self.room = room;
    }

    /// How many there are.
    #[tactic(auto, using(crate::proofs::Stacks::count_of))]
    pub(crate) fn len(&self) -> u16
        ensures { result ≡ length (stacked_values self.now) }
    {
        self.kinds.len() as u16
    }

    /// How many more have room.
    #[tactic(auto, using(crate::proofs::Stacks::count_of))]
    pub(crate) fn spare(&self) -> u16
        ensures { length (stacked_values self.now) + result ≡ self.now.room }
    {
        self.room - self.kinds.len() as u16
    }

    /// One of them, counted from 0 at the bottom. It goes through those above it, which are few where an instruction takes it.
    #[tactic(auto, using(crate::proofs::Stacks::count_of, crate::proofs::Stacks::longs_after))]
    pub(crate) fn get(&self, at: u16) -> Value
        requires { at < length (stacked_values self.now) }
        ensures { slice_get (stacked_values self.now) at ≡ Some result }
    {
        let at = usize::from(at);
        let place = self.highs.len() - longs_from(&self.kinds, at);
        let parts = Parts {
            kind: self.kinds[at],
            low: self.lows[at],
            high: number_at(&self.highs, place),
        };
        parts.value()
    }

    /// Pushes one, for which there is room.
    #[tactic(auto, using(crate::proofs::Stacks::count_of, crate::proofs::Stacks::few_longs, crate::proofs::Stacks::pushed, crate::proofs::Stacks::counted_more))]
    pub(crate) fn push(&mut self, value: Value)
        requires { length (stacked_values self.old) < self.old.room }
        ensures values { stacked_values self.new ≡ stacked_values self.old ++ value ∷ [] }
        ensures room { self.new.room ≡ self.old.room }
    {
        let parts = Parts::of_value(value);
        put_high(&mut self.highs, parts.kind, parts.high);
        put_last(&mut self.kinds, parts.kind);
        put_last(&mut self.lows, parts.low);
    }

    /// Takes the top away.
    #[tactic(auto, using(crate::proofs::Stacks::count_of, crate::proofs::Stacks::has_high, crate::proofs::Stacks::pushed, crate::proofs::Stacks::counted_less))]
    pub(crate) fn pop(&mut self) -> Value
        requires { 0 < length (stacked_values self.old) }
        ensures values { stacked_values self.old ≡ stacked_values self.new ++ result ∷ [] }
        ensures room { self.new.room ≡ self.old.room }
    {
        let kind = take_last(&mut self.kinds);
        let low = take_last(&mut self.lows);
        let high = take_high(&mut self.highs, kind);
        Parts { kind, low, high }.value()
    }

    /// Takes all away.
    pub(crate) fn clear(&mut self)
        ensures values { stacked_values self.new ≡ [] }
        ensures room { self.new.room ≡ self.old.room }
    {
        self.kinds.clear();
        self.lows.clear();
        self.highs.clear();
    }
}

// Appends the high half of a long.
fn put_high(highs: &mut Vec<u32>, kind: Kind, high: u32)
    requires { longs_of kind + length highs.old.items ≤ vec_capacity highs.old }
    ensures highs { highs.new.items ≡ highs.old.items ++ high_part kind high }
    ensures capacity { vec_capacity highs.old ≤ vec_capacity highs.new }
{
    match kind {
        Kind::Long => put_last(highs, high),
        Kind::Empty | Kind::Int | Kind::Ref => {}
    }
}

// Takes the high half of a long from the end; of another value it is 0.
fn take_high(highs: &mut Vec<u32>, kind: Kind) -> u32
    requires { longs_of kind ≤ length highs.old.items }
    ensures highs { highs.old.items ≡ highs.new.items ++ high_part kind result }
    ensures capacity { vec_capacity highs.new ≡ vec_capacity highs.old }
{
    match kind {
        Kind::Long => take_last(highs),
        Kind::Empty | Kind::Int | Kind::Ref => 0,
    }
}

// 1 for a long.
fn longs(kind: Kind) -> usize
    ensures { result ≡ longs_of kind }
{
    match kind {
        Kind::Long => 1,
        Kind::Empty | Kind::Int | Kind::Ref => 0,
    }
}

// How many longs there are from a place on.
#[tactic(auto, using(crate::proofs::Stacks::few_longs, crate::proofs::Stacks::longs_after, crate::proofs::Stacks::one_more, crate::proofs::Stacks::none_past))]
fn longs_from(kinds: &Vec<Kind>, at: usize) -> usize
    requires { at ≤ length kinds.now.items }
    ensures { result ≡ longs_in (drop at kinds.now.items) }
{
    let mut count = 0;
    let mut left = kinds.len();
    while left > at {
        left -= 1;
        count += longs(kinds[left]);
    }
    count
}
