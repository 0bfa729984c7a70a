ghost use Rattle.std.specs.Prelude.{◌≡◌, ◌<◌, ℕ, length, map, Some, slice_get, IfOk};
ghost use Rattle.dj_graph.specs.declared.mark.NodeMark.TheVariants as NodeMark;
ghost use Rattle.dj_graph.specs.Searches.{AllClosed, Numbers};

use crate::errors::GraphError;
use std::alloc::Global;

/// What is known of a node.
#[derive(Clone, Copy, Drop)]
pub enum NodeMark {
    /// Nothing led to it yet.
    Unfound,
    /// It was found, and is at this place of the path.
    Open(usize),
    /// Its component is whole, and has this number.
    Closed(u32),
}

/// Gives each of these nodes the number of their component.
pub fn number_nodes(marks: &mut [NodeMark], nodes: &[u32], number: u32)
    requires { (i a : ℕ) → slice_get nodes.now i ≡ Some a → a < length marks.old }
    ensures { Numbers nodes.now number marks.old marks.new }
{
    for node in nodes {
        marks[*node as usize] = NodeMark::Closed(number);
    }
}

/// The number of each node, where all have one.
pub fn numbers_of(alloc: Global, marks: &[NodeMark]) -> Result<Vec<u32>, GraphError>
    requires { AllClosed marks.now }
    ensures { IfOk result (λ numbers. map (λ (n : ℕ). NodeMark.Closed n) numbers.items ≡ marks.now) }
{
    let mut numbers = Vec::new(alloc);
    for mark in marks {
        match mark {
            NodeMark::Closed(number) => numbers.push(*number)?,
            _ => unreachable!(),
        }
    }
    Ok(numbers)
}
