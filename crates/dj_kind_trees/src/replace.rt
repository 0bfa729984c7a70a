ghost use Rattle.std.specs.Prelude.{◌≡◌, ◌<◌, ◌≤◌, ◌+◌, length, IfOk};
ghost use Rattle.dj_kind_trees.specs.Nodes.{AreNodes, IsReplaced, Keeps, listed, size_of};

use crate::node::{Node, add_node, node_of, number_of};
use dj_names::Kind;
use std::alloc::AllocError;

// The first of a list; none where that has no kind.
fn first_of(kinds: &[Option<Kind>]) -> Option<Kind>
    ensures { result ≡ listed kinds.now 0 }
{
    match kinds.get(0) {
        None => None,
        Some(kind) => *kind,
    }
}

/// The tree with the kinds of a list in place of its own from a slot on.
#[tactic(auto, using(crate::proofs::Growing::keeps_itself, crate::proofs::Growing::keeps_twice))]
pub fn replace(
    nodes: &mut Vec<Node>,
    height: u32,
    size: usize,
    id: u32,
    from: usize,
    kinds: &[Option<Kind>],
) -> Result<u32, AllocError>
    requires nodes { AreNodes nodes.old.items }
    requires within { id < length nodes.old.items }
    requires size { size ≡ size_of height }
    requires room { from + length kinds.now ≤ size }
    ensures nodes { AreNodes nodes.new.items }
    ensures keeps { Keeps nodes.old.items nodes.new.items }
    ensures replaced { IfOk result (λ made. IsReplaced nodes.old.items nodes.new.items height id from kinds.now made) }
{
    if size <= from {
        return Ok(id);
    }
    if from == 0 && kinds.is_empty() {
        return Ok(0);
    }
    if height == 0 {
        return Ok(number_of(first_of(kinds)));
    }
    let node = node_of(nodes, id);
    let half = size / 2;
    if half <= from {
        let right = replace(nodes, height - 1, half, node.right, from - half, kinds)?;
        return add_node(nodes, height, node.left, right);
    }
    let room = half - from;
    if kinds.len() <= room {
        let left = replace(nodes, height - 1, half, node.left, from, kinds)?;
        return add_node(nodes, height, left, 0);
    }
    let (first, rest) = kinds.split_at(room);
    let left = replace(nodes, height - 1, half, node.left, from, first)?;
    let right = replace(nodes, height - 1, half, 0, 0, rest)?;
    add_node(nodes, height, left, right)
}
