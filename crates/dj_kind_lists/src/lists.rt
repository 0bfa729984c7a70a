ghost use Rattle.std.specs.Prelude.{◌≡◌, ◌+◌, ◌<◌, ◌≤◌, ◌++◌, ◌∷◌, [], length, get_or, set, slice_get, replicate, List, Option, None, Some, IfOk, Decides};
ghost use Rattle.dj_names.specs.declared.descriptor.Kind.{Kind};
ghost use Rattle.dj_kind_trees.specs.Nodes.{listed};
ghost use Rattle.dj_kind_lists.specs.Lists.{IsChanged, IsFirstLack, ListFlows, SameButFrames, SameButStates, SameLists};

use crate::ranges::{KindRange, first_lacking};
use dj_kind_trees::Trees;
use dj_names::Kind;
use std::alloc::{AllocError, Global};
use std::marker::Model;

/// Lists of kinds, all of one length: the one that stands, those of frames, and those that stood before instructions. A list that has no kind in a slot
/// shares what it has in common with the others.
#[derive(Drop)]
pub struct KindLists {
    count: u16,
    trees: Trees,
    current: u32,
    frames: Vec<u32>,
    states: Vec<u32>,
}

impl Model for KindLists {
    ghost use Rattle.std.specs.Prelude.{map};
    ghost use Rattle.dj_kind_lists.specs.Lists.{AreLists, Lists, kinds_of};

    ghost Value = { Lists };

    ghost view = { λ lists. record {
      count = lists.count;
      current = kinds_of lists.trees lists.count lists.current;
      frames = map (kinds_of lists.trees lists.count) lists.frames.items;
      states = map (kinds_of lists.trees lists.count) lists.states.items;
    } };

    ghost invariant = { λ lists. AreLists lists.trees lists.count lists.current lists.frames.items lists.states.items };
}

// The tree of a number; none beyond the last.
fn tree_at(trees: &[u32], number: usize) -> u32
    ensures { result ≡ get_or trees.now number 0 }
{
    match trees.get(number) {
        None => 0,
        Some(tree) => *tree,
    }
}

impl KindLists {
    /// The list without kinds stands, and is the first one of frames.
    #[tactic(auto, using(crate::proofs::Listing::bare_list, crate::proofs::Listing::first_lists))]
    pub fn new(alloc: Global, count: u16) -> Result<KindLists, AllocError>
        ensures count { IfOk result (λ lists. lists.count ≡ count) }
        ensures current { IfOk result (λ lists. lists.current ≡ replicate count None) }
        ensures frames { IfOk result (λ lists. lists.frames ≡ replicate count None ∷ []) }
        ensures states { IfOk result (λ lists. lists.states ≡ []) }
    {
        Ok(KindLists {
            count,
            trees: Trees::new(alloc, count)?,
            current: 0,
            frames: vec![in alloc; 0; 1]?,
            states: Vec::new(alloc),
        })
    }

    /// The length of each list.
    pub fn count(&self) -> u16
        ensures { result ≡ self.now.count }
    {
        self.count
    }

    /// The kind in a slot of the list that stands.
    pub fn get(&self, slot: usize) -> Option<Kind>
        ensures { result ≡ listed self.now.current slot }
    {
        if usize::from(self.count) <= slot {
            return None;
        }
        self.trees.get(self.current, slot as u32)
    }

    /// Changes the kind in a slot of the list that stands.
    pub fn put(&mut self, slot: u16, kind: Option<Kind>) -> Result<(), AllocError>
        requires { slot < self.old.count }
        ensures same { SameLists self.old self.new }
        ensures put { IfOk result (λ x. self.new.current ≡ set self.old.current slot kind) }
    {
        self.current = self.trees.put(self.current, u32::from(slot), kind)?;
        Ok(())
    }

    /// A list with these kinds from its first slot on stands.
    pub fn set(&mut self, kinds: &[Option<Kind>]) -> Result<(), AllocError>
        requires { length kinds.now ≤ self.old.count }
        ensures same { SameLists self.old self.new }
        ensures set { IfOk result (λ x. IsChanged self.old.count [] 0 kinds.now self.new.current) }
    {
        self.current = self.trees.replace(0, 0, kinds)?;
        Ok(())
    }

    /// The list of a frame stands.
    pub fn take(&mut self, number: usize)
        ensures same { SameLists self.old self.new }
        ensures taken { (list : List (Option Kind)) → slice_get self.old.frames number ≡ Some list → self.new.current ≡ list }
    {
        self.current = tree_at(&self.frames, number);
    }

    /// Whether the list that stands has the kinds of a frame's.
    pub fn flows(&mut self, number: usize) -> bool
        ensures same { self.new ≡ self.old }
        ensures flows { (list : List (Option Kind)) → slice_get self.old.frames number ≡ Some list → Decides result (ListFlows self.old.current list) }
    {
        let frame = tree_at(&self.frames, number);
        self.trees.flows(self.current, frame)
    }

    /// Adds the list of a frame: it has the kinds of an earlier one before a slot, and those of `kinds` from there on.
    pub fn add(
        &mut self,
        base: usize,
        from: usize,
        kinds: &[Option<Kind>],
    ) -> Result<(), AllocError>
        requires { from + length kinds.now ≤ self.old.count }
        ensures same { SameButFrames self.old self.new }
        ensures added { IfOk result (λ x. (made : List (Option Kind)) × (self.new.frames ≡ self.old.frames ++ made ∷ [])
            × IsChanged self.old.count (get_or self.old.frames base []) from kinds.now made) }
    {
        let tree = tree_at(&self.frames, base);
        let made = self.trees.replace(tree, from, kinds)?;
        self.frames.push(made)?;
        Ok(())
    }

    /// Adds the list of an earlier frame once more.
    pub fn add_again(&mut self, base: usize) -> Result<(), AllocError>
        ensures same { SameButFrames self.old self.new }
        ensures added { IfOk result (λ x. (made : List (Option Kind)) × (self.new.frames ≡ self.old.frames ++ made ∷ [])
            × IsChanged self.old.count (get_or self.old.frames base []) self.old.count [] made) }
    {
        let tree = tree_at(&self.frames, base);
        self.frames.push(tree)?;
        Ok(())
    }

    /// Keeps the list that stands before the next instruction.
    pub fn note(&mut self) -> Result<(), AllocError>
        ensures same { SameButStates self.old self.new }
        ensures noted { IfOk result (λ x. self.new.states ≡ self.old.states ++ self.old.current ∷ []) }
    {
        self.states.push(self.current)?;
        Ok(())
    }

    /// The first instruction below a limit before which the list that stood lacks a kind of a frame's, in a range of that frame.
    pub fn first_lacking(
        &mut self,
        alloc: Global,
        ranges: &[KindRange],
        limit: u32,
    ) -> Result<Option<u32>, AllocError>
        ensures same { self.new ≡ self.old }
        ensures first { IfOk result (λ first. IsFirstLack self.old.states self.old.frames ranges.now limit first) }
    {
        first_lacking(
            alloc,
            &mut self.trees,
            &self.states,
            &self.frames,
            ranges,
            limit,
        )
    }
}
