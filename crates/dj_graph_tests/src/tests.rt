use dj_graph::{GraphError, components, is_inside};
use std::alloc::Global;

// The targets of each node's edges, and a name for each node's component.
const GRAPHS: [(&[&[u32]], &[u32]); 10] = [
    (&[], &[]),
    (&[&[]], &[0]),
    (&[&[0, 1], &[]], &[0, 1]),
    // a ring of three, with a node before it and one after it
    (&[&[1], &[2], &[3], &[1, 4], &[]], &[0, 1, 1, 1, 2]),
    // two rings, and an edge from one to the other
    (&[&[1], &[0, 2], &[3], &[2]], &[0, 0, 1, 1]),
    // no edge at all
    (&[&[], &[], &[]], &[0, 1, 2]),
    // rings within a ring, and edges that are there twice
    (&[&[1, 1, 2], &[0, 2], &[3, 0, 0], &[2, 2]], &[0, 0, 0, 0]),
    // the way back is found last, from a node that was found early
    (
        &[&[1, 4], &[2], &[3], &[], &[5], &[3, 0]],
        &[0, 1, 2, 3, 0, 0],
    ),
    // each node leads to each before it, and not back
    (&[&[], &[0], &[1, 0], &[2, 1, 0]], &[0, 1, 2, 3]),
    // three rings in a row, from the last to the first
    (
        &[&[1], &[0], &[3, 0], &[2, 1], &[5, 3], &[4]],
        &[0, 0, 1, 1, 2, 2],
    ),
];

fn edges_of_rows(alloc: Global, rows: &[&[u32]]) -> Result<Vec<Vec<u32>>, GraphError> {
    let mut edges = Vec::new(alloc);
    for row in rows {
        edges.push(Vec::from_slice(alloc, row)?)?;
    }
    Ok(edges)
}

fn numbers_of_rows(alloc: Global, rows: &[&[u32]]) -> Result<Option<Vec<u32>>, GraphError> {
    let edges = edges_of_rows(alloc, rows)?;
    if edges.len() > 100 || !is_inside(&edges) {
        return Ok(None);
    }
    Ok(Some(components(alloc, &edges)?))
}

// Two nodes have one number exactly where they have one name.
fn agree(numbers: &[u32], names: &[u32]) -> bool {
    numbers.len() == names.len()
        && numbers.iter().zip(names).all(|(m, x)| {
            numbers
                .iter()
                .zip(names)
                .all(|(n, y)| (*m == *n) == (*x == *y))
        })
}

fn is_known(alloc: Global, rows: &[&[u32]], names: &[u32]) -> bool {
    match numbers_of_rows(alloc, rows) {
        Ok(Some(numbers)) => agree(&numbers, names),
        _ => false,
    }
}

fn all_known(alloc: Global, graphs: &[(&[&[u32]], &[u32])]) -> bool {
    for graph in graphs {
        if !is_known(alloc, graph.0, graph.1) {
            return false;
        }
    }
    true
}

#[test]
fn components_of_small_graphs(rt: HostRuntime) {
    assert!(rt; all_known(rt.alloc(), &GRAPHS));
}
