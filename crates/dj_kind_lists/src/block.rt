ghost use Rattle.std.specs.Prelude.{◌≡◌, ◌+◌, ◌^◌, ◌<◌, ◌≤◌, ◌++◌, ◌∷◌, [], length, IfOk};
ghost use Rattle.dj_kind_trees.specs.Forests.{KeepsTrees};
ghost use Rattle.dj_kind_trees.specs.Nodes.{size_of};
ghost use Rattle.dj_kind_lists.specs.Blocks.{AreStates, IsBlock, KeepsBlocks, block_at, meet_of, state_at};

use dj_kind_trees::Trees;
use std::alloc::AllocError;

/// States one after the other, and the kinds that all of them have; a block of one state has no number but that of the state.
#[derive(Clone, Copy)]
pub struct Block {
    /// The tree of those kinds.
    pub meet: u32,
    /// The block of the first half, and that of the other.
    pub left: u32,
    pub right: u32,
}

/// The tree of a state; after the last the one without kinds.
pub fn state_of(states: &[u32], number: u32) -> u32
    ensures { result ≡ state_at states.now number }
{
    match states.get(number as usize) {
        None => 0,
        Some(state) => *state,
    }
}

/// The block of this number.
pub fn block_of(blocks: &[Block], id: u32) -> Block
    ensures { result ≡ block_at blocks.now id }
{
    match blocks.get(id as usize) {
        None => Block {
            meet: 0,
            left: 0,
            right: 0,
        },
        Some(block) => *block,
    }
}

/// The tree of the kinds that all states of a block have.
#[tactic(auto, using(crate::proofs::Meeting::meet_high, crate::proofs::Meeting::meet_low))]
pub fn meet_of(states: &[u32], blocks: &[Block], height: u32, id: u32) -> u32
    ensures { result ≡ meet_of states.now blocks.now height id }
{
    if height == 0 {
        state_of(states, id)
    } else {
        block_of(blocks, id).meet
    }
}

#[tactic(auto, using(crate::proofs::Meeting::blocks_themselves, crate::proofs::Meeting::blocks_more))]
fn add_block(blocks: &mut Vec<Block>, block: Block) -> Result<u32, AllocError>
    ensures keeps { KeepsBlocks blocks.old.items blocks.new.items }
    ensures added { IfOk result (λ id. (id ≡ length blocks.old.items) × (blocks.new.items ≡ blocks.old.items ++ block ∷ [])) }
{
    let count = blocks.len();
    if count > u32::MAX as usize {
        return Err(AllocError);
    }
    blocks.push(block)?;
    Ok(count as u32)
}

/// The block of this height that begins at this state, with those that it is made of.
#[tactic(auto, using(crate::proofs::Meeting::blocks_themselves, crate::proofs::Meeting::blocks_twice, crate::proofs::Meeting::keeps_itself, crate::proofs::Meeting::keeps_twice))]
pub fn build(
    trees: &mut Trees,
    states: &[u32],
    blocks: &mut Vec<Block>,
    height: u32,
    size: u64,
    from: u64,
) -> Result<u32, AllocError>
    requires states { AreStates trees.old states.now }
    requires size { size ≡ size_of height }
    requires few { from + size ≤ 2 ^ 32 }
    ensures keeps { KeepsTrees trees.old trees.new }
    ensures blocks { KeepsBlocks blocks.old.items blocks.new.items }
    ensures built { IfOk result (λ id. IsBlock trees.new states.now blocks.new.items height from id) }
{
    if height == 0 {
        return Ok(from as u32);
    }
    let half = size / 2;
    let left = build(trees, states, blocks, height - 1, half, from)?;
    let right = build(trees, states, blocks, height - 1, half, from + half)?;
    let first = meet_of(states, blocks, height - 1, left);
    let second = meet_of(states, blocks, height - 1, right);
    let meet = trees.meet(first, second)?;
    add_block(blocks, Block { meet, left, right })
}
