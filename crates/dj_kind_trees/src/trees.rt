ghost use Rattle.std.specs.Prelude.{◌≡◌, ◌+◌, ◌<◌, ◌≤◌, length, Decides, IfOk};
ghost use Rattle.dj_kind_trees.specs.Forests.{FlowsInto, HasMet, HasPut, HasReplaced, IsBare, IsTree, KeepsTrees, kind_in, slots_of};
ghost use Rattle.dj_kind_trees.specs.Nodes.{AreNodes, size_of};

use crate::flows::flows;
use crate::meet::meet;
use crate::node::Node;
use crate::put::{get, put_kind};
use crate::replace::replace;
use dj_names::Kind;
use std::alloc::{AllocError, Global};
use std::marker::Model;

/// Trees of kinds, each of which has a kind or none in each slot. They share what they have in common, and never change; a tree is named by its number.
#[derive(Drop)]
pub struct Trees {
    height: u32,
    size: u32,
    nodes: Vec<Node>,
}

impl Model for Trees {
    ghost use Rattle.dj_kind_trees.specs.Forests.{AreTrees, Forest};

    ghost Value = { Forest };

    ghost view = { λ trees. record { height = trees.height; nodes = trees.nodes.items } };

    ghost invariant = { λ trees. AreTrees trees.height trees.size trees.nodes.items };
}

// The nodes that there are at first: the one without kinds, and as many as there are kinds, so that their numbers are those of nodes.
fn first_nodes(alloc: Global) -> Result<Vec<Node>, AllocError>
    ensures { IfOk result (λ nodes. AreNodes nodes.items) }
{
    let none = Node {
        height: 0,
        left: 0,
        right: 0,
        met: 0,
    };
    vec![in alloc; none; 4]
}

// The least height whose trees have as many slots, and how many these are.
fn height_for(count: u16) -> (u32, u32)
    ensures size { result.1 ≡ size_of result.0 }
    ensures room { count ≤ result.1 }
{
    let mut height: u32 = 0;
    let mut size: u32 = 1;
    while size < u32::from(count) {
        height += 1;
        size += size;
    }
    (height, size)
}

impl Trees {
    /// Trees with at least as many slots.
    pub fn new(alloc: Global, count: u16) -> Result<Trees, AllocError>
        ensures room { IfOk result (λ trees. count ≤ slots_of trees) }
        ensures first { IfOk result (λ trees. IsBare trees 0) }
    {
        let (height, size) = height_for(count);
        Ok(Trees {
            height,
            size,
            nodes: first_nodes(alloc)?,
        })
    }

    /// The kind in a slot.
    pub fn get(&self, tree: u32, slot: u32) -> Option<Kind>
        ensures { result ≡ kind_in self.now tree slot }
    {
        get(&self.nodes, self.height, self.size, tree, slot)
    }

    /// The tree with another kind in a slot.
    pub fn put(&mut self, tree: u32, slot: u32, kind: Option<Kind>) -> Result<u32, AllocError>
        requires tree { IsTree self.old tree }
        requires slot { slot < slots_of self.old }
        ensures keeps { KeepsTrees self.old self.new }
        ensures put { IfOk result (λ made. HasPut self.old self.new tree slot kind made) }
    {
        put_kind(&mut self.nodes, self.height, self.size, tree, slot, kind)
    }

    /// The tree with the kinds of a list in place of its own from a slot on.
    pub fn replace(
        &mut self,
        tree: u32,
        from: usize,
        kinds: &[Option<Kind>],
    ) -> Result<u32, AllocError>
        requires tree { IsTree self.old tree }
        requires room { from + length kinds.now ≤ slots_of self.old }
        ensures keeps { KeepsTrees self.old self.new }
        ensures replaced { IfOk result (λ made. HasReplaced self.old self.new tree from kinds.now made) }
    {
        replace(
            &mut self.nodes,
            self.height,
            self.size as usize,
            tree,
            from,
            kinds,
        )
    }

    /// Whether each kind of the second tree is the first one's too. What was found is remembered.
    pub fn flows(&mut self, first: u32, second: u32) -> bool
        requires first { IsTree self.old first }
        requires second { IsTree self.old second }
        ensures decides { Decides result (FlowsInto self.old first second) }
        ensures keeps { KeepsTrees self.old self.new }
    {
        flows(&mut self.nodes, self.height, first, second)
    }

    /// The tree with the kinds that two trees have both.
    pub fn meet(&mut self, first: u32, second: u32) -> Result<u32, AllocError>
        requires first { IsTree self.old first }
        requires second { IsTree self.old second }
        ensures keeps { KeepsTrees self.old self.new }
        ensures met { IfOk result (λ made. HasMet self.old self.new first second made) }
    {
        meet(&mut self.nodes, self.height, first, second)
    }
}
