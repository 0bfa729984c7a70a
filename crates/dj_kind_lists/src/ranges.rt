ghost use Rattle.std.specs.Prelude.{◌≡◌, ◌+◌, ◌^◌, ◌<◌, ◌≤◌, ◌⊎◌, ◌++◌, ◌∷◌, [], ℕ, List, true, false, Some, None, Decides, IfOk, MatchOption};
ghost use Rattle.dj_kind_lists.specs.declared.ranges.KindRange.{KindRange};
ghost use Rattle.dj_kind_trees.specs.Forests.{KeepsTrees};
ghost use Rattle.dj_kind_trees.specs.Nodes.{size_of};
ghost use Rattle.dj_kind_lists.specs.Blocks.{AreStates, HasAll, IsBlock, IsInside, state_at};
ghost use Rattle.dj_kind_lists.specs.Ranges.{AllInside, AreLeft, IsFirstBelow, IsFirstIn, RangeFlows};

use crate::block::{Block, block_of, build, meet_of, state_of};
use dj_kind_trees::Trees;
use std::alloc::{AllocError, Global};

/// Instructions from one up to another, which isn't included; before each of them the list that stood is to have the kinds of a frame's.
#[derive(Clone, Copy)]
pub struct KindRange {
    pub from: u32,
    pub to: u32,
    /// The number of the frame's list.
    pub frame: u32,
}

/// What is looked through: the trees of states and of frames, and the blocks of the states.
#[derive(Clone, Copy)]
pub struct Search<'a> {
    pub states: &'a [u32],
    pub frames: &'a [u32],
    pub blocks: &'a [Block],
}

/// States one after the other, which are a block: its height, the count of its states, its number, and its first state.
#[derive(Clone, Copy)]
pub struct Part {
    pub height: u32,
    pub size: u64,
    pub id: u32,
    pub from: u64,
}

// Whether the range has none of the part's states.
fn is_apart(part: Part, range: KindRange) -> bool
    requires { part.from + part.size ≤ 2 ^ 32 }
    ensures { Decides result ((part.from + part.size ≤ range.from) ⊎ (range.to ≤ part.from)) }
{
    part.from + part.size <= u64::from(range.from) || u64::from(range.to) <= part.from
}

// Whether the range lacks one of the part's states.
fn is_partly(part: Part, range: KindRange) -> bool
    requires { part.from + part.size ≤ 2 ^ 32 }
    ensures { Decides result ((part.from < range.from) ⊎ (range.to < part.from + part.size)) }
{
    part.from < u64::from(range.from) || u64::from(range.to) < part.from + part.size
}

// Whether a state of the part may lack what the range asks, by the tree of what all states of the part have. A part of one state lacks it then.
fn is_left(trees: &mut Trees, search: &Search<'_>, meet: u32, part: Part, range: KindRange) -> bool
    requires states { AreStates trees.old search.now.states.now }
    requires frames { AreStates trees.old search.now.frames.now }
    requires size { part.size ≡ size_of part.height }
    requires few { part.from + part.size ≤ 2 ^ 32 }
    requires meet { HasAll trees.old search.now.states.now part.height part.from meet }
    ensures keeps { KeepsTrees trees.old trees.new }
    ensures flows { result ≡ false → (number : ℕ) → IsInside part.height part.from number → RangeFlows trees.old search.now.states.now search.now.frames.now number range }
    ensures lacks { result ≡ true → part.height ≡ 0 → RangeFlows trees.old search.now.states.now search.now.frames.now part.from range → ⊥ }
{
    if is_apart(part, range) {
        return false;
    }
    if is_partly(part, range) {
        return true;
    }
    !trees.flows(meet, state_of(search.frames, range.frame))
}

// Adds the range, where a state of the part may lack what it asks.
fn add_left(
    trees: &mut Trees,
    search: &Search<'_>,
    meet: u32,
    part: Part,
    range: KindRange,
    rest: &mut Vec<KindRange>,
) -> Result<(), AllocError>
    requires states { AreStates trees.old search.now.states.now }
    requires frames { AreStates trees.old search.now.frames.now }
    requires size { part.size ≡ size_of part.height }
    requires few { part.from + part.size ≤ 2 ^ 32 }
    requires meet { HasAll trees.old search.now.states.now part.height part.from meet }
    ensures keeps { KeepsTrees trees.old trees.new }
    ensures left { IfOk result (λ x. (ranges : List KindRange) → AreLeft trees.old search.now.states.now search.now.frames.now part.height part.from ranges rest.old.items
        → AreLeft trees.old search.now.states.now search.now.frames.now part.height part.from (ranges ++ range ∷ []) rest.new.items) }
{
    if !is_left(trees, search, meet, part, range) {
        return Ok(());
    }
    rest.push(range)?;
    Ok(())
}

// The ranges of which states of the part may lack what they ask.
fn left_over(
    alloc: Global,
    trees: &mut Trees,
    search: &Search<'_>,
    meet: u32,
    part: Part,
    ranges: &[KindRange],
) -> Result<Vec<KindRange>, AllocError>
    requires states { AreStates trees.old search.now.states.now }
    requires frames { AreStates trees.old search.now.frames.now }
    requires size { part.size ≡ size_of part.height }
    requires few { part.from + part.size ≤ 2 ^ 32 }
    requires meet { HasAll trees.old search.now.states.now part.height part.from meet }
    ensures keeps { KeepsTrees trees.old trees.new }
    ensures left { IfOk result (λ rest. AreLeft trees.old search.now.states.now search.now.frames.now part.height part.from ranges.now rest.items) }
{
    let mut rest = Vec::new(alloc);
    for range in ranges {
        add_left(trees, search, meet, part, *range, &mut rest)?;
    }
    Ok(rest)
}

// The first state of the part that lacks what a range asks.
fn first_in(
    alloc: Global,
    trees: &mut Trees,
    search: &Search<'_>,
    part: Part,
    ranges: &[KindRange],
) -> Result<Option<u64>, AllocError>
    requires states { AreStates trees.old search.now.states.now }
    requires frames { AreStates trees.old search.now.frames.now }
    requires size { part.size ≡ size_of part.height }
    requires few { part.from + part.size ≤ 2 ^ 32 }
    requires block { IsBlock trees.old search.now.states.now search.now.blocks.now part.height part.from part.id }
    ensures keeps { KeepsTrees trees.old trees.new }
    ensures first { IfOk result (λ found. MatchOption found (AllInside trees.old search.now.states.now search.now.frames.now ranges.now part.height part.from)
        (λ number. IsFirstIn trees.old search.now.states.now search.now.frames.now ranges.now part.height part.from number)) }
{
    let meet = meet_of(search.states, search.blocks, part.height, part.id);
    let rest = left_over(alloc, trees, search, meet, part, ranges)?;
    let count = rest.len();
    if count == 0 {
        return Ok(None);
    }
    let height = part.height;
    if height == 0 {
        return Ok(Some(part.from));
    }
    let block = block_of(search.blocks, part.id);
    let half = part.size / 2;
    let left = Part {
        height: height - 1,
        size: half,
        id: block.left,
        from: part.from,
    };
    let found = first_in(alloc, trees, search, left, &rest)?;
    if found.is_some() {
        return Ok(found);
    }
    let right = Part {
        height: height - 1,
        size: half,
        id: block.right,
        from: part.from + half,
    };
    first_in(alloc, trees, search, right, &rest)
}

// The least height of a block with as many states, and how many these are.
fn height_for(count: u32) -> (u32, u64)
    ensures size { result.1 ≡ size_of result.0 }
    ensures room { count ≤ result.1 }
    ensures few { result.1 ≤ 2 ^ 32 }
{
    let mut height: u32 = 0;
    let mut size: u64 = 1;
    while size < u64::from(count) {
        height += 1;
        size += size;
    }
    (height, size)
}

// The number, where it is below the limit.
fn below(found: Option<u64>, limit: u32) -> Option<u32>
    ensures { MatchOption found (result ≡ None) (λ number. (number < limit → result ≡ Some number) × (limit ≤ number → result ≡ None)) }
{
    match found {
        None => None,
        Some(number) => {
            if number < u64::from(limit) {
                Some(number as u32)
            } else {
                None
            }
        }
    }
}

/// The first state below a limit that lacks what a range asks.
pub fn first_lacking(
    alloc: Global,
    trees: &mut Trees,
    states: &[u32],
    frames: &[u32],
    ranges: &[KindRange],
    limit: u32,
) -> Result<Option<u32>, AllocError>
    requires states { AreStates trees.old states.now }
    requires frames { AreStates trees.old frames.now }
    ensures keeps { KeepsTrees trees.old trees.new }
    ensures first { IfOk result (λ found. IsFirstBelow trees.old states.now frames.now ranges.now limit found) }
{
    if ranges.is_empty() {
        return Ok(None);
    }
    let (height, size) = height_for(limit);
    let mut blocks = Vec::new(alloc);
    let id = build(trees, states, &mut blocks, height, size, 0)?;
    let search = Search {
        states,
        frames,
        blocks: &blocks,
    };
    let part = Part {
        height,
        size,
        id,
        from: 0,
    };
    let found = first_in(alloc, trees, &search, part, ranges)?;
    Ok(below(found, limit))
}
