ghost use Rattle.std.specs.Prelude.{◌≡◌, ◌<◌, ◌^◌, ◌++◌, length, IfOk, IfErr, IfSome, MatchOption};
ghost use Rattle.std.specs.List.{list_any};
ghost use Rattle.dj_graph.specs.Graphs.{AreComponents, edges_of};
ghost use Rattle.dj_model.specs.trusted.Linking.{option_list};
ghost use Rattle.dj_class_table.specs.Tables.{interface_numbers, super_number};
ghost use Rattle.dj_class_table.specs.ClassRows.{RiseStrictly};
ghost use Rattle.dj_loader.specs.Loads.{IsOwnAncestor, Never};
ghost use Rattle.dj_loader.specs.Numbered.{edges_in, has_number, IsFirst, IsMemory, IsOnCycle, LeadsBack, NeverSo, RefusesCycles};

use crate::error::LoadError;
use dj_class_table::ClassTable;
use dj_graph::components;
use dj_names::Name;
use std::alloc::Global;

// The number, where there is one.
fn listed(alloc: Global, number: Option<u32>) -> Result<Vec<u32>, LoadError>
    ensures numbers { IfOk result (λ numbers. numbers.items ≡ option_list number) }
    ensures memory { IfErr result IsMemory }
{
    let mut numbers = Vec::new(alloc);
    if let Some(number) = number {
        numbers.push(number)?;
    }
    Ok(numbers)
}

// The numbers of the superclass and of the interfaces that a class lists.
fn above_of(alloc: Global, table: &ClassTable, class: u32) -> Result<Vec<u32>, LoadError>
    requires { class < length table.now }
    ensures numbers { IfOk result (λ numbers. numbers.items ≡ option_list (super_number table.now class) ++ interface_numbers table.now class) }
    ensures memory { IfErr result IsMemory }
{
    let mut numbers = listed(alloc, table.super_of(class))?;
    numbers.extend_from_slice(table.interfaces_of(class))?;
    Ok(numbers)
}

// From each class the edges to those right above it.
fn edges_of_table(alloc: Global, table: &ClassTable) -> Result<Vec<Vec<u32>>, LoadError>
    ensures edges { IfOk result (λ edges. edges_of edges.items ≡ edges_in table.now) }
    ensures few { IfOk result (λ edges. length edges.items < 2 ^ 31) }
    ensures memory { IfErr result IsMemory }
{
    let mut edges = Vec::new(alloc);
    for class in 0..table.class_count() {
        edges.push(above_of(alloc, table, class)?)?;
    }
    Ok(edges)
}

// Whether a node has the number.
fn has_number(numbers: &[u32], own: u32, node: u32) -> bool
    ensures { result ≡ has_number numbers.now own node }
{
    match numbers.get(node as usize) {
        Some(number) => *number == own,
        None => false,
    }
}

// Whether one of the nodes has the number.
fn leads_back(targets: &[u32], numbers: &[u32], own: u32) -> bool
    ensures { result ≡ list_any (has_number numbers.now own) targets.now }
{
    for target in targets {
        if has_number(numbers, own, *target) {
            return true;
        }
    }
    false
}

// The first node from which an edge leads back, by the numbers of the nodes' components.
fn first_back(edges: &[Vec<u32>], numbers: &[u32]) -> Option<u32>
    requires few { length edges.now < 2 ^ 31 }
    requires components { AreComponents (edges_of edges.now) numbers.now }
    ensures { MatchOption result (NeverSo (LeadsBack (edges_of edges.now) numbers.now)) (IsFirst (LeadsBack (edges_of edges.now) numbers.now)) }
{
    for node in 0..edges.len() {
        if leads_back(&edges[node], numbers, numbers[node]) {
            return Some(node as u32);
        }
    }
    None
}

// The first class that is its own ancestor.
fn first_cycle(alloc: Global, table: &ClassTable) -> Result<Option<u32>, LoadError>
    ensures first { IfOk result (λ found. MatchOption found (NeverSo (IsOnCycle table.now)) (IsFirst (IsOnCycle table.now))) }
    ensures there { IfOk result (λ found. IfSome found (λ class. class < length table.now)) }
    ensures memory { IfErr result IsMemory }
{
    let edges = edges_of_table(alloc, table)?;
    let numbers = components(alloc, &edges)?;
    Ok(first_back(&edges, &numbers))
}

/// Refuses classes one of which is its own ancestor.
pub fn refuse_cycles(alloc: Global, table: &ClassTable) -> Result<(), LoadError>
    requires { RiseStrictly table.now }
    ensures acyclic { IfOk result (λ _. Never (IsOwnAncestor table.now)) }
    ensures refused { IfErr result (RefusesCycles table.now) }
{
    match first_cycle(alloc, table)? {
        Some(class) => {
            let name = Name::from_slice(alloc, table.name_of(class))?;
            Err(LoadError::Cycle(name))
        }
        None => Ok(()),
    }
}
