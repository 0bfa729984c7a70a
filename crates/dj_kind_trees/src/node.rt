ghost use Rattle.std.specs.Prelude.{◌≡◌, ◌+◌, ◌<◌, ◌^◌, length, IfOk, OnOk};
ghost use Rattle.dj_kind_trees.specs.Nodes.{AreNodes, IsNode, Keeps, kind_of, node_at, number_of};

use dj_names::Kind;
use std::alloc::AllocError;

/// A node of trees: the numbers of its halves. A tree of height 0 is a kind, and has no node.
#[derive(Clone, Copy)]
pub struct Node {
    pub height: u32,
    pub left: u32,
    pub right: u32,
    /// A tree of this height that meets it; 0 where none is known.
    pub met: u32,
}

/// The kind that a tree of height 0 is.
pub fn kind_of(number: u32) -> Option<Kind>
    ensures { result ≡ kind_of number }
{
    if number == 0 {
        None
    } else if number == 1 {
        Some(Kind::Int)
    } else if number == 2 {
        Some(Kind::Long)
    } else {
        Some(Kind::Ref)
    }
}

/// The tree of height 0 that is this kind.
pub fn number_of(kind: Option<Kind>) -> u32
    ensures number { result ≡ number_of kind }
    ensures low { result < 4 }
{
    match kind {
        None => 0,
        Some(Kind::Int) => 1,
        Some(Kind::Long) => 2,
        Some(Kind::Ref) => 3,
    }
}

/// The node of this number.
pub fn node_of(nodes: &[Node], id: u32) -> Node
    ensures { result ≡ node_at nodes.now id }
{
    match nodes.get(id as usize) {
        None => Node {
            height: 0,
            left: 0,
            right: 0,
            met: 0,
        },
        Some(node) => *node,
    }
}

// Adds a node.
#[tactic(auto, using(crate::proofs::Growing::pushed, crate::proofs::Growing::keeps_itself))]
fn push_node(nodes: &mut Vec<Node>, node: Node) -> Result<(), AllocError>
    requires nodes { AreNodes nodes.old.items }
    requires left { node.left < length nodes.old.items }
    requires right { node.right < length nodes.old.items }
    requires met { node.met ≡ 0 }
    ensures nodes { AreNodes nodes.new.items }
    ensures keeps { Keeps nodes.old.items nodes.new.items }
    ensures added { OnOk result (IsNode nodes.new.items node.left node.right (length nodes.old.items)) }
{
    nodes.push(node)?;
    Ok(())
}

/// The tree with these halves, of which there is none yet unless it has no kinds.
#[tactic(auto, using(crate::proofs::Growing::keeps_itself, crate::proofs::Growing::first_node))]
pub fn add_node(
    nodes: &mut Vec<Node>,
    height: u32,
    left: u32,
    right: u32,
) -> Result<u32, AllocError>
    requires nodes { AreNodes nodes.old.items }
    requires left { left < length nodes.old.items }
    requires right { right < length nodes.old.items }
    ensures nodes { AreNodes nodes.new.items }
    ensures keeps { Keeps nodes.old.items nodes.new.items }
    ensures added { IfOk result (λ id. IsNode nodes.new.items left right id) }
{
    if left == 0 && right == 0 {
        return Ok(0);
    }
    let count = nodes.len();
    if count > u32::MAX as usize {
        return Err(AllocError);
    }
    push_node(
        nodes,
        Node {
            height,
            left,
            right,
            met: 0,
        },
    )?;
    Ok(count as u32)
}
