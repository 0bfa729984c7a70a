ghost use Rattle.std.specs.Prelude.{◌≡◌, ℕ, ◌<◌, ◌^◌, List, [], IfOk, IfSome, OnOk, Contains, length, map, replicate};
ghost use Rattle.dj_graph.specs.Graphs.{edges_of};
ghost use Rattle.dj_hierarchy_rule.specs.trusted.Hierarchy.{IsAbove};
ghost use Rattle.dj_hierarchy_rule.specs.Names.{AreNames, place_of};
ghost use Rattle.dj_hierarchy_rule.specs.Edges.{GainsPlaces, GainsEdges, AreEdges, AreJoined};
ghost use Rattle.dj_hierarchy_rule.specs.Views.{seen_view, text_of};

use crate::error::HierarchyError;
use crate::head::Seen;
use crate::names::Known;
use dj_graph::components;
use std::alloc::Global;
use std::collections::BTreeMap;

// Adds the place that represents the name to the targets, where a class has the name.
fn add_name(
    targets: &mut Vec<u32>,
    names: &BTreeMap<&[u8], Known>,
    name: &[u8],
) -> Result<(), HierarchyError>
    ensures { OnOk result (GainsPlaces names.now (λ added. added ≡ name.now) targets.old.items targets.new.items) }
{
    match names.get(name) {
        None => Ok(()),
        Some(known) => Ok(targets.push(known.place)?),
    }
}

// Adds the places that represent the names to the targets.
fn add_names(
    targets: &mut Vec<u32>,
    names: &BTreeMap<&[u8], Known>,
    above: &[&[u8]],
) -> Result<(), HierarchyError>
    ensures { OnOk result (GainsPlaces names.now (Contains (map text_of above.now)) targets.old.items targets.new.items) }
{
    for name in above {
        add_name(targets, names, name)?;
    }
    Ok(())
}

// Adds the places that represent the names above the class to the targets.
fn add_above(
    targets: &mut Vec<u32>,
    names: &BTreeMap<&[u8], Known>,
    head: &Seen<'_>,
) -> Result<(), HierarchyError>
    ensures { OnOk result (GainsPlaces names.now (IsAbove (seen_view head.now)) targets.old.items targets.new.items) }
{
    match head.superclass {
        None => add_names(targets, names, head.interfaces),
        Some(name) => {
            add_name(targets, names, name)?;
            add_names(targets, names, head.interfaces)
        }
    }
}

// Adds the edges that the class makes.
fn add_head(
    edges: &mut Vec<Vec<u32>>,
    names: &BTreeMap<&[u8], Known>,
    head: &Seen<'_>,
) -> Result<(), HierarchyError>
    requires { IfSome (place_of names.now head.now.name.now) (λ place. place < length edges.old.items) }
    ensures { OnOk result (GainsEdges names.now (seen_view head.now) (edges_of edges.old.items) (edges_of edges.new.items)) }
{
    match names.get(head.name) {
        None => Ok(()),
        Some(known) => add_above(&mut edges[known.place as usize], names, head),
    }
}

// This many nodes, without edges.
fn without_edges(alloc: Global, count: usize) -> Result<Vec<Vec<u32>>, HierarchyError>
    ensures { IfOk result (λ edges. edges_of edges.items ≡ replicate count []) }
{
    let mut edges = Vec::new(alloc);
    for _ in 0..count {
        edges.push(Vec::new(alloc))?;
    }
    Ok(edges)
}

// The edges that the classes make.
fn edges_of_heads(
    alloc: Global,
    heads: &[Seen<'_>],
    names: &BTreeMap<&[u8], Known>,
) -> Result<Vec<Vec<u32>>, HierarchyError>
    requires { AreNames (map seen_view heads.now) names.now }
    ensures { IfOk result (λ edges. AreEdges (length heads.now) (map seen_view heads.now) names.now (edges_of edges.items)) }
{
    let mut edges = without_edges(alloc, heads.len())?;
    for head in heads {
        add_head(&mut edges, names, head)?;
    }
    Ok(edges)
}

/// A number for each class: the numbers at the places of two names are the same exactly where each name climbs to the other.
pub fn join(
    alloc: Global,
    heads: &[Seen<'_>],
    names: &BTreeMap<&[u8], Known>,
) -> Result<Vec<u32>, HierarchyError>
    requires few { length heads.now < 2 ^ 31 }
    requires known { AreNames (map seen_view heads.now) names.now }
    ensures { IfOk result (λ numbers. AreJoined (map seen_view heads.now) names.now numbers.items) }
{
    let edges = edges_of_heads(alloc, heads, names)?;
    let numbers = components(alloc, &edges)?;
    Ok(numbers)
}
