ghost use Rattle.std.specs.Prelude.{◌≡◌, ◌<◌, ◌≤◌, ◌-◌, ℕ, [], length, Some, None, slice_get, OnOk, IfSome};
ghost use Rattle.dj_graph.specs.Graphs.{IsInside, edges_of};
ghost use Rattle.dj_graph.specs.Searches.{IsSearch, IsClosed, AllReach, Follows, Steps, KeepsFound, Explores, IsLast};

use crate::errors::GraphError;
use crate::mark::NodeMark;
use crate::search::{Search, join, last_of};

/// Follows an edge to this node, from a node of the last open component, or from none.
fn follow(edges: &[Vec<u32>], search: &mut Search, target: u32) -> Result<(), GraphError>
    requires sound { IsSearch (edges_of edges.now) search.old }
    requires known { target < length edges.now }
    requires reached { AllReach (edges_of edges.now) search.old.path.items target }
    ensures { OnOk result (Follows (edges_of edges.now) target search.old search.new) }
{
    match search.marks[target as usize] {
        NodeMark::Unfound => search.open(target),
        NodeMark::Open(place) => {
            join(&mut search.starts, place);
            Ok(())
        }
        NodeMark::Closed(_) => Ok(()),
    }
}

/// Looks at the next edge of the last node that may have one, which is at this place, in the last open component.
fn look(edges: &[Vec<u32>], search: &mut Search, place: usize) -> Result<(), GraphError>
    requires sound { IsSearch (edges_of edges.now) search.old }
    requires inside { IsInside (edges_of edges.now) }
    requires last { IsLast search.old.work.items place }
    requires within { (s x : ℕ) → slice_get search.old.starts.items s ≡ Some x → x ≤ place }
    ensures { OnOk result (Steps (edges_of edges.now) search.old search.new) }
{
    let node = search.path[place] as usize;
    let targets = &edges[node];
    let next = search.looked[node];
    if next < targets.len() {
        follow(edges, search, targets[next])?;
        search.looked[node] = next + 1;
    } else {
        search.work.pop();
    }
    Ok(())
}

/// Looks at an edge from the last open component, which starts at this place, or closes the component where no edge is left.
fn step(edges: &[Vec<u32>], search: &mut Search, start: usize) -> Result<(), GraphError>
    requires sound { IsSearch (edges_of edges.now) search.old }
    requires inside { IsInside (edges_of edges.now) }
    requires last { IsLast search.old.starts.items start }
    ensures { OnOk result (Steps (edges_of edges.now) search.old search.new) }
{
    match last_of(&search.work) {
        Some(place) if place >= start => look(edges, search, place),
        _ => {
            search.close(start);
            Ok(())
        }
    }
}

/// Finds each node that this one reaches, and closes their components.
pub fn explore(edges: &[Vec<u32>], search: &mut Search, root: u32) -> Result<(), GraphError>
    requires sound { IsSearch (edges_of edges.now) search.old }
    requires inside { IsInside (edges_of edges.now) }
    requires known { root < length edges.now }
    requires idle { search.old.path.items ≡ [] }
    ensures { OnOk result (Explores (edges_of edges.now) root search.old search.new) }
{
    follow(edges, search, root)?;
    while let Some(start) = last_of(&search.starts) {
        step(edges, search, start)?;
    }
    Ok(())
}
