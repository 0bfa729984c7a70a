ghost use Rattle.std.specs.Prelude.{◌≡◌, ℕ, ◌+◌, ◌-ℤ◌, unsigned_abs};
ghost use Rattle.dj_cursor.specs.Steps.{Gives};
ghost use Rattle.dj_cursor.specs.Reading.{many_at};
ghost use Rattle.dj_cursor.specs.Views.{cursor_of};
ghost use Rattle.dj_ops.specs.trusted.Instructions.{padding_count};
ghost use Rattle.dj_ops.specs.Reading.{is_memory, cut, target_at, pair_at, bounds_at, count_at, table_from, lookup_from, padded_at};
ghost use Rattle.dj_cursor.specs.Reading.{block_at};

use crate::instruction::Instr;
use crate::lists::{Pairs, Targets};
use crate::operands::read_s4;
use crate::read::OpError;
use dj_cursor::Cursor;
use std::alloc::Global;

/// The target of an offset of four bytes.
#[tactic(auto, unfolding(crate::specs::Reading::target_at))]
fn read_target(at: u32, cursor: Cursor<'_>) -> Result<(i64, Cursor<'_>), OpError>
    ensures { Gives is_memory (λ x. (x.0, cursor_of x.1)) result (target_at at (cursor_of cursor.entry)) }
{
    let (offset, after) = read_s4(cursor)?;
    Ok((i64::from(at) + i64::from(offset), after))
}

/// A match and its target.
#[tactic(auto, unfolding(crate::specs::Reading::pair_at))]
fn read_pair(at: u32, cursor: Cursor<'_>) -> Result<((i32, i64), Cursor<'_>), OpError>
    ensures { Gives is_memory (λ x. (x.0, cursor_of x.1)) result (pair_at at (cursor_of cursor.entry)) }
{
    let (number, after) = read_s4(cursor)?;
    let (target, after) = read_target(at, after)?;
    Ok(((number, target), after))
}

fn read_target_list(
    alloc: Global,
    at: u32,
    count: u64,
    cursor: Cursor<'_>,
) -> Result<(Vec<i64>, Cursor<'_>), OpError>
    ensures { Gives is_memory (λ x. (x.0.items, cursor_of x.1)) result
        (many_at (target_at at) count (cursor_of cursor.entry)) }
{
    let mut targets = Vec::new(alloc);
    let mut after = cursor;
    for _ in 0..count {
        let (target, next) = read_target(at, after)?;
        targets.push(target)?;
        after = next;
    }
    Ok((targets, after))
}

fn read_pair_list(
    alloc: Global,
    at: u32,
    count: u32,
    cursor: Cursor<'_>,
) -> Result<(Vec<(i32, i64)>, Cursor<'_>), OpError>
    ensures { Gives is_memory (λ x. (x.0.items, cursor_of x.1)) result
        (many_at (pair_at at) count (cursor_of cursor.entry)) }
{
    let mut pairs = Vec::new(alloc);
    let mut after = cursor;
    for _ in 0..count {
        let (pair, next) = read_pair(at, after)?;
        pairs.push(pair)?;
        after = next;
    }
    Ok((pairs, after))
}

/// The default target, low and high.
#[tactic(auto, unfolding(crate::specs::Reading::bounds_at))]
fn read_bounds(at: u32, cursor: Cursor<'_>) -> Result<((i64, (i32, i32)), Cursor<'_>), OpError>
    ensures { Gives is_memory (λ x. (x.0, cursor_of x.1)) result (bounds_at at (cursor_of cursor.entry)) }
{
    let (default, after) = read_target(at, cursor)?;
    let (low, after) = read_s4(after)?;
    let (high, after) = read_s4(after)?;
    Ok(((default, (low, high)), after))
}

/// The default target, and the number of pairs.
#[tactic(auto, unfolding(crate::specs::Reading::count_at))]
fn read_count(at: u32, cursor: Cursor<'_>) -> Result<((i64, i32), Cursor<'_>), OpError>
    ensures { Gives is_memory (λ x. (x.0, cursor_of x.1)) result (count_at at (cursor_of cursor.entry)) }
{
    let (default, after) = read_target(at, cursor)?;
    let (count, after) = read_s4(after)?;
    Ok(((default, count), after))
}

/// How many numbers there are from low to high.
fn target_count(low: i32, high: i32) -> u64
    ensures { result ≡ unsigned_abs (high -ℤ low) + 1 }
{
    u64::from(high.abs_diff(low)) + 1
}

/// What follows tableswitch and its padding.
#[tactic(auto, unfolding(crate::specs::Reading::table_from))]
fn read_table_from(
    alloc: Global,
    at: u32,
    cursor: Cursor<'_>,
) -> Result<(Instr, Cursor<'_>), OpError>
    ensures { Gives is_memory (λ x. (x.0, cursor_of x.1)) result (table_from at (cursor_of cursor.entry)) }
{
    let ((default, (low, high)), after) = read_bounds(at, cursor)?;
    if high < low {
        return Err(OpError::BadOperand);
    }
    let (targets, after) = read_target_list(alloc, at, target_count(low, high), after)?;
    let targets = Targets::from_vec(targets)?;
    Ok((
        Instr::Table {
            low,
            default,
            targets,
        },
        after,
    ))
}

/// What follows lookupswitch and its padding.
#[tactic(auto, unfolding(crate::specs::Reading::lookup_from))]
fn read_lookup_from(
    alloc: Global,
    at: u32,
    cursor: Cursor<'_>,
) -> Result<(Instr, Cursor<'_>), OpError>
    ensures { Gives is_memory (λ x. (x.0, cursor_of x.1)) result (lookup_from at (cursor_of cursor.entry)) }
{
    let ((default, count), after) = read_count(at, cursor)?;
    if count < 0 {
        return Err(OpError::BadOperand);
    }
    let (pairs, after) = read_pair_list(alloc, at, count.unsigned_abs(), after)?;
    let pairs = Pairs::from_vec(pairs)?;
    if !pairs.rises() {
        return Err(OpError::BadOperand);
    }
    Ok((Instr::Lookup { default, pairs }, after))
}

/// After the padding of a switch at this address.
fn skip_padding(at: u32, cursor: Cursor<'_>) -> Result<(&[u8], Cursor<'_>), OpError>
    ensures { Gives is_memory (λ x. (x.0.now, cursor_of x.1)) result
        (block_at cut (padding_count at) (cursor_of cursor.entry)) }
{
    Ok(cursor.bytes_at(3 - at % 4)?)
}

/// What follows tableswitch.
#[tactic(auto, unfolding(crate::specs::Reading::padded_at))]
pub fn read_table(
    alloc: Global,
    at: u32,
    cursor: Cursor<'_>,
) -> Result<(Instr, Cursor<'_>), OpError>
    ensures { Gives is_memory (λ x. (x.0, cursor_of x.1)) result (padded_at at (table_from at) (cursor_of cursor.entry)) }
{
    let (_, after) = skip_padding(at, cursor)?;
    read_table_from(alloc, at, after)
}

/// What follows lookupswitch.
#[tactic(auto, unfolding(crate::specs::Reading::padded_at))]
pub fn read_lookup(
    alloc: Global,
    at: u32,
    cursor: Cursor<'_>,
) -> Result<(Instr, Cursor<'_>), OpError>
    ensures { Gives is_memory (λ x. (x.0, cursor_of x.1)) result (padded_at at (lookup_from at) (cursor_of cursor.entry)) }
{
    let (_, after) = skip_padding(at, cursor)?;
    read_lookup_from(alloc, at, after)
}
