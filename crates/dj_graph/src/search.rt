ghost use Rattle.std.specs.Prelude.{◌≡◌, ◌<◌, ℕ, length, Some, slice_get, IfOk, OnOk, IfSome, IfNone};
ghost use Rattle.dj_graph.specs.Searches.{IsNew, Opens, Rises, Joins, Closes, IsLast};

use crate::errors::GraphError;
use crate::mark::{NodeMark, number_nodes};
use std::alloc::Global;

/// A search through a graph.
#[derive(Drop)]
pub struct Search {
    /// What is known of each node.
    pub marks: Vec<NodeMark>,
    /// How many edges of each node were looked at.
    pub looked: Vec<usize>,
    /// The open nodes, in the order in which they were found.
    pub path: Vec<u32>,
    /// The places of the path where an open component starts.
    pub starts: Vec<usize>,
    /// The places of the path whose nodes may have edges left.
    pub work: Vec<usize>,
}

impl Search {
    /// A search through this many nodes that has found none.
    pub fn new(alloc: Global, count: usize) -> Result<Search, GraphError>
        ensures { IfOk result (IsNew count) }
    {
        let marks = vec![in alloc; NodeMark::Unfound; count]?;
        let looked = vec![in alloc; 0; count]?;
        Ok(Search {
            marks,
            looked,
            path: Vec::new(alloc),
            starts: Vec::new(alloc),
            work: Vec::new(alloc),
        })
    }

    /// Opens a node that nothing led to before.
    pub fn open(&mut self, node: u32) -> Result<(), GraphError>
        requires { node < length self.old.marks.items }
        ensures { OnOk result (Opens node self.old self.new) }
    {
        let place = self.path.len();
        self.path.push(node)?;
        self.starts.push(place)?;
        self.work.push(place)?;
        self.marks[node as usize] = NodeMark::Open(place);
        Ok(())
    }

    /// Closes the last component, which starts at this place.
    pub fn close(&mut self, start: usize)
        requires inside { start < length self.old.path.items }
        requires known { (i a : ℕ) → slice_get self.old.path.items i ≡ Some a → a < length self.old.marks.items }
        ensures { Closes start self.old self.new }
    {
        let number = self.path[start];
        number_nodes(&mut self.marks, &self.path[start..], number);
        self.path.truncate(start);
        self.starts.pop();
    }
}

/// The last of these places.
pub fn last_of(places: &[usize]) -> Option<usize>
    ensures some { IfSome result (IsLast places.now) }
    ensures none { IfNone result (length places.now ≡ 0) }
{
    places.last().copied()
}

/// Makes one component of all that the path has from this place on, with the one that the place is in.
pub fn join(starts: &mut Vec<usize>, place: usize)
    requires { Rises starts.old.items }
    ensures { Joins place starts.old.items starts.new.items }
{
    while let Some(last) = last_of(starts) {
        if last <= place {
            break;
        }
        starts.pop();
    }
}
