ghost use Rattle.std.specs.Prelude.{◌≡◌, ◌^◌, ◌<◌, length, IfOk, if◌then◌else◌};
ghost use Rattle.dj_groups.specs.Groups.{starts, owns};
ghost use Rattle.dj_emit.specs.Parts.{groups_seen};
ghost use Rattle.dj_emit.specs.Places.{AreNexts, ArePlaces};

use crate::parts::{GroupPart, inserted_count};
use std::alloc::{AllocError, Global};

/// Groups with their places: where each starts, where its own instruction stands, and which is the next from it on whose instruction is the first of a
/// handler. All go up to the code's end.
#[derive(Debug, Drop)]
pub(crate) struct Places {
    pub(crate) groups: Vec<GroupPart>,
    pub(crate) start: Vec<u32>,
    pub(crate) own: Vec<u32>,
    pub(crate) next: Vec<u32>,
}

// Where groups start, and where their own instructions stand.
#[derive(Drop)]
struct Numbers {
    start: Vec<u32>,
    own: Vec<u32>,
}

fn numbers_of(alloc: Global, groups: &[GroupPart]) -> Result<Numbers, AllocError>
    requires { length groups.now < 2 ^ 16 }
    ensures start { IfOk result (λ numbers. numbers.start.items ≡ starts (groups_seen groups.now)) }
    ensures own { IfOk result (λ numbers. numbers.own.items ≡ owns (groups_seen groups.now)) }
{
    let mut start = Vec::new(alloc);
    let mut own = Vec::new(alloc);
    let mut at = 0;
    for group in groups {
        let inserted = inserted_count(*group);
        start.push(at)?;
        own.push(at + inserted)?;
        at = at + inserted + 1;
    }
    start.push(at)?;
    own.push(at)?;
    Ok(Numbers { start, own })
}

// The next from a number on, where this one is the next after it.
fn next_at(arrives: bool, number: u32, later: u32) -> u32
    ensures { result ≡ (if arrives then number else later) }
{
    if arrives { number } else { later }
}

// For each number the next from it on whose instruction is the first of a handler, or the end.
fn nexts_of(alloc: Global, groups: &[GroupPart]) -> Result<Vec<u32>, AllocError>
    requires { length groups.now < 2 ^ 16 }
    ensures { IfOk result (λ next. AreNexts (groups_seen groups.now) next.items) }
{
    let mut next = vec![in alloc; groups.len() as u32; groups.len() + 1]?;
    let mut k = groups.len();
    while k > 0 {
        k -= 1;
        next[k] = next_at(groups[k].arrives, k as u32, next[k + 1]);
    }
    Ok(next)
}

/// The groups with their places.
pub(crate) fn places_of(alloc: Global, groups: Vec<GroupPart>) -> Result<Places, AllocError>
    requires { length groups.items < 2 ^ 16 }
    ensures same { IfOk result (λ places. places.groups.items ≡ groups.items) }
    ensures places { IfOk result ArePlaces }
{
    let numbers = numbers_of(alloc, &groups)?;
    let next = nexts_of(alloc, &groups)?;
    Ok(Places {
        groups,
        start: numbers.start,
        own: numbers.own,
        next,
    })
}
