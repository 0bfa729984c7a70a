ghost use Rattle.std.specs.Prelude.{◌≡◌, ◌<◌, length, IfOk};
ghost use Rattle.dj_kind_trees.specs.Nodes.{AreNodes, IsPut, Keeps, kind_at, size_of};

use crate::node::{Node, add_node, kind_of, node_of, number_of};
use dj_names::Kind;
use std::alloc::AllocError;

/// The kind in a slot.
pub fn get(nodes: &[Node], height: u32, size: u32, id: u32, slot: u32) -> Option<Kind>
    requires { size ≡ size_of height }
    ensures { result ≡ kind_at nodes.now height id slot }
{
    if height == 0 {
        return kind_of(id);
    }
    let node = node_of(nodes, id);
    let half = size / 2;
    if slot < half {
        get(nodes, height - 1, half, node.left, slot)
    } else {
        get(nodes, height - 1, half, node.right, slot - half)
    }
}

/// The tree with another kind in a slot.
#[tactic(auto, using(crate::proofs::Growing::keeps_itself, crate::proofs::Growing::keeps_twice))]
pub fn put(
    nodes: &mut Vec<Node>,
    height: u32,
    size: u32,
    id: u32,
    slot: u32,
    kind: Option<Kind>,
) -> Result<u32, AllocError>
    requires nodes { AreNodes nodes.old.items }
    requires within { id < length nodes.old.items }
    requires size { size ≡ size_of height }
    requires slot { slot < size }
    ensures nodes { AreNodes nodes.new.items }
    ensures keeps { Keeps nodes.old.items nodes.new.items }
    ensures put { IfOk result (λ made. IsPut nodes.old.items nodes.new.items height id slot kind made) }
{
    if height == 0 {
        return Ok(number_of(kind));
    }
    let node = node_of(nodes, id);
    let half = size / 2;
    if slot < half {
        let left = put(nodes, height - 1, half, node.left, slot, kind)?;
        add_node(nodes, height, left, node.right)
    } else {
        let right = put(nodes, height - 1, half, node.right, slot - half, kind)?;
        add_node(nodes, height, node.left, right)
    }
}

/// The same; where the tree has the kind already, it is the tree itself.
#[tactic(auto, using(crate::proofs::Growing::keeps_itself, crate::proofs::Wrapping::same_put))]
pub fn put_kind(
    nodes: &mut Vec<Node>,
    height: u32,
    size: u32,
    id: u32,
    slot: u32,
    kind: Option<Kind>,
) -> Result<u32, AllocError>
    requires nodes { AreNodes nodes.old.items }
    requires within { id < length nodes.old.items }
    requires size { size ≡ size_of height }
    requires slot { slot < size }
    ensures nodes { AreNodes nodes.new.items }
    ensures keeps { Keeps nodes.old.items nodes.new.items }
    ensures put { IfOk result (λ made. IsPut nodes.old.items nodes.new.items height id slot kind made) }
{
    if get(nodes, height, size, id, slot) == kind {
        return Ok(id);
    }
    put(nodes, height, size, id, slot, kind)
}
