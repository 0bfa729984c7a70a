ghost use Rattle.std.specs.Prelude.{◌≡◌, ◌<◌, ◌≤◌, get_or, length, replicate, set, slice_get, None, Some, OnOk, IfErr};
ghost use Rattle.dj_stack.specs.declared.errors.PushError.TheVariants as PushError;
ghost use Rattle.dj_stack.specs.Cells.{parts_of, variables_in};

use crate::errors::PushError;
use crate::packed::Packed;
use crate::parts::Parts;
use crate::sparse::Sparse;
use dj_names::Value;
use std::alloc::Global;

impl Sparse {
    /// None yet, with memory for as many as a method has at most.
    pub(crate) fn new(alloc: Global) -> Result<Sparse, PushError>
        ensures refused { IfErr result (λ e. e ≡ PushError.Memory) }
    {
        let places = Vec::with_capacity(alloc, usize::from(u16::MAX))?;
        let cells = Packed::with_room(alloc, u16::MAX)?;
        Ok(Sparse { places, cells })
    }

    /// From now on there are this many local variables, without a value, in place of the earlier ones.
    pub(crate) fn begin(&mut self, count: u16) -> Result<(), PushError>
        ensures locals { OnOk result (variables_in self.new.places.items (parts_of self.new.cells) ≡ replicate count None) }
        ensures refused { IfErr result (λ e. e ≡ PushError.Memory) }
    {
        self.cells.clear();
        set_to_zeros(&mut self.places, count)?;
        Ok(())
    }

    /// How many there are.
    #[tactic(auto, using(crate::proofs::Cells::count_of))]
    pub(crate) fn len(&self) -> u16
        ensures { result ≡ length (variables_in self.now.places.items (parts_of self.now.cells)) }
    {
        self.places.len() as u16
    }

    /// The value of one, if it has one.
    #[tactic(auto, using(crate::proofs::Cells::count_of, crate::proofs::Cells::unset, crate::proofs::Cells::stands, crate::proofs::Cells::has_cell))]
    pub(crate) fn get(&self, at: u16) -> Option<Value>
        requires { at < length (variables_in self.now.places.items (parts_of self.now.cells)) }
        ensures { slice_get (variables_in self.now.places.items (parts_of self.now.cells)) at ≡ Some result }
    {
        let place = self.places[usize::from(at)];
        if place == 0 {
            None
        } else {
            self.cells.get(place - 1).local()
        }
    }

    /// Gives one a value, or none.
    #[tactic(auto, using(crate::proofs::Cells::count_of, crate::proofs::Cells::still_none))]
    pub(crate) fn set(&mut self, at: u16, local: Option<Value>)
        requires { at < length (variables_in self.old.places.items (parts_of self.old.cells)) }
        ensures locals { variables_in self.new.places.items (parts_of self.new.cells) ≡ set (variables_in self.old.places.items (parts_of self.old.cells)) at local }
    {
        let at = usize::from(at);
        let place = self.places[at];
        if place != 0 {
            self.give_again(at, place, local);
        } else if local.is_some() {
            self.give_first(at, local);
        }
    }

    // Gives one that has this cell a value, or none.
    #[tactic(auto, using(crate::proofs::Cells::has_cell, crate::proofs::Cells::given_again, crate::proofs::Cells::set_count))]
    fn give_again(&mut self, at: usize, place: u16, local: Option<Value>)
        requires within { at < length self.old.places.items }
        requires place { get_or self.old.places.items at 0 ≡ place }
        requires some { 0 < place }
        ensures locals { variables_in self.new.places.items (parts_of self.new.cells) ≡ set (variables_in self.old.places.items (parts_of self.old.cells)) at local }
    {
        self.cells.set(place - 1, Parts::of_local(local));
    }

    // Gives one that has no cell a value, or none.
    #[tactic(auto, using(crate::proofs::Cells::spare_cell, crate::proofs::Cells::given_first, crate::proofs::Cells::shared_more))]
    fn give_first(&mut self, at: usize, local: Option<Value>)
        requires within { at < length self.old.places.items }
        requires none { get_or self.old.places.items at 0 ≡ 0 }
        ensures locals { variables_in self.new.places.items (parts_of self.new.cells) ≡ set (variables_in self.old.places.items (parts_of self.old.cells)) at local }
    {
        self.cells.push(Parts::of_local(local));
        self.places[at] = self.cells.len();
    }
}

// This many zeros, or none where there is no memory.
fn set_to_zeros(places: &mut Vec<u16>, count: u16) -> Result<(), PushError>
    ensures count { OnOk result (places.new.items ≡ replicate count 0) }
    ensures zeros { places.new.items ≡ replicate (length places.new.items) 0 }
    ensures few { length places.new.items ≤ count }
    ensures refused { IfErr result (λ e. e ≡ PushError.Memory) }
{
    places.clear();
    places.resize(usize::from(count), 0)?;
    Ok(())
}
