ghost use Rattle.std.specs.Prelude.{◌≡◌, ◌<◌, length, Decides, Some};
ghost use Rattle.dj_names.specs.declared.descriptor.Kind.{Kind};
ghost use Rattle.dj_kind_trees.specs.Nodes.{AreNodes, Keeps, Meets, kind_of};

use crate::node::{Node, kind_of, node_of};

// The node remembers that this one meets it.
#[tactic(auto, using(crate::proofs::Growing::keeps_itself))]
fn remember(nodes: &mut [Node], height: u32, s: u32, f: u32)
    requires nodes { AreNodes nodes.old }
    requires meets { Meets nodes.old height s f }
    requires some { 0 < f }
    requires within { s < length nodes.old }
    ensures nodes { AreNodes nodes.new }
    ensures keeps { Keeps nodes.old nodes.new }
{
    let at = f as usize;
    if at < nodes.len() {
        let node = nodes[at];
        if node.height == height {
            nodes[at] = Node {
                height: node.height,
                left: node.left,
                right: node.right,
                met: s,
            };
        }
    }
}

// Whether the kind of one number is that of the other, or the other has none.
fn kind_flows(s: u32, f: u32) -> bool
    ensures { Decides result ((kind : Kind) → kind_of f ≡ Some kind → kind_of s ≡ Some kind) }
{
    let kind = kind_of(f);
    kind.is_none() || kind == kind_of(s)
}

/// Whether each kind of the second tree is the first one's too.
#[tactic(auto, using(crate::proofs::Growing::keeps_itself, crate::proofs::Growing::keeps_twice))]
pub fn flows(nodes: &mut [Node], height: u32, s: u32, f: u32) -> bool
    requires nodes { AreNodes nodes.old }
    requires left { s < length nodes.old }
    requires right { f < length nodes.old }
    ensures decides { Decides result (Meets nodes.old height s f) }
    ensures nodes { AreNodes nodes.new }
    ensures keeps { Keeps nodes.old nodes.new }
{
    if s == f || f == 0 {
        return true;
    }
    if height == 0 {
        return kind_flows(s, f);
    }
    let a = node_of(nodes, s);
    let b = node_of(nodes, f);
    if b.met == s && b.met != 0 && b.height == height {
        return true;
    }
    if !flows(nodes, height - 1, a.left, b.left) {
        return false;
    }
    if !flows(nodes, height - 1, a.right, b.right) {
        return false;
    }
    remember(nodes, height, s, f);
    true
}
