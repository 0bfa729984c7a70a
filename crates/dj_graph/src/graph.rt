ghost use Rattle.std.specs.Prelude.{◌≡◌, ◌<◌, ◌^◌, ◌↔◌, length, All, IfOk, IsTrue};
ghost use Rattle.dj_graph.specs.Graphs.{IsInside, edges_of, AreComponents};

use crate::errors::GraphError;
use crate::mark::numbers_of;
use crate::search::Search;
use crate::steps::explore;
use std::alloc::Global;

/// Is each of these nodes below the count?
fn all_below(targets: &[u32], count: usize) -> bool
    ensures { IsTrue result ↔ All (λ target. target < count) targets.now }
{
    targets.iter().all(|target| (*target as usize) < count)
}

/// Does each edge lead to a node?
pub fn is_inside(edges: &[Vec<u32>]) -> bool
    ensures { IsTrue result ↔ IsInside (edges_of edges.now) }
{
    for targets in edges {
        if !all_below(targets, edges.len()) {
            return false;
        }
    }
    true
}

/// A number for each node: two nodes have the same exactly where each reaches the other. An item of `edges` has the targets of a node's
/// edges. Time and memory are linear in the nodes and edges.
pub fn components(alloc: Global, edges: &[Vec<u32>]) -> Result<Vec<u32>, GraphError>
    requires few { length edges.now < 2 ^ 31 }
    requires inside { IsInside (edges_of edges.now) }
    ensures { IfOk result (λ numbers. AreComponents (edges_of edges.now) numbers.items) }
{
    let mut search = Search::new(alloc, edges.len())?;
    for root in 0..edges.len() {
        explore(edges, &mut search, root as u32)?;
    }
    numbers_of(alloc, &search.marks)
}
