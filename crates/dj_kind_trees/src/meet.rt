ghost use Rattle.std.specs.Prelude.{◌≡◌, ◌<◌, ◌⊎◌, ◌↔◌, length, IfOk, Some};
ghost use Rattle.dj_names.specs.declared.descriptor.Kind.{Kind};
ghost use Rattle.dj_kind_trees.specs.Nodes.{AreNodes, IsMeet, Keeps, kind_of};

use crate::node::{Node, add_node, kind_of, node_of};
use std::alloc::AllocError;

// The number of the kind that both numbers stand for.
fn low_meet(a: u32, b: u32) -> u32
    ensures number { (result ≡ a) ⊎ (result ≡ 0) }
    ensures meet { (kind : Kind) → (kind_of result ≡ Some kind) ↔ ((kind_of a ≡ Some kind) × (kind_of b ≡ Some kind)) }
{
    if kind_of(a) == kind_of(b) { a } else { 0 }
}

/// The tree with the kinds that two trees have both.
#[tactic(auto, using(crate::proofs::Growing::keeps_itself, crate::proofs::Growing::keeps_twice))]
pub fn meet(nodes: &mut Vec<Node>, height: u32, a: u32, b: u32) -> Result<u32, AllocError>
    requires nodes { AreNodes nodes.old.items }
    requires left { a < length nodes.old.items }
    requires right { b < length nodes.old.items }
    ensures nodes { AreNodes nodes.new.items }
    ensures keeps { Keeps nodes.old.items nodes.new.items }
    ensures meet { IfOk result (λ made. IsMeet nodes.old.items nodes.new.items height a b made) }
{
    if a == b || a == 0 {
        return Ok(a);
    }
    if b == 0 {
        return Ok(0);
    }
    if height == 0 {
        return Ok(low_meet(a, b));
    }
    let x = node_of(nodes, a);
    let y = node_of(nodes, b);
    let left = meet(nodes, height - 1, x.left, y.left)?;
    let right = meet(nodes, height - 1, x.right, y.right)?;
    if left == x.left && right == x.right {
        return Ok(a);
    }
    if left == y.left && right == y.right {
        return Ok(b);
    }
    add_node(nodes, height, left, right)
}
