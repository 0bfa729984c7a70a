//! Lines whose instruction isn't proper, and frames with too many types.
ghost use Rattle.std.specs.Prelude.{◌≡◌, Some, nat_lt, length, map, IfOk};
ghost use Rattle.dj_asm_source.specs.PairViews.{pair_view};
ghost use Rattle.dj_asm_source.specs.OperationViews.{operation_view};
ghost use Rattle.dj_asm_source.specs.LineViews.{frame_view, line_view};
ghost use Rattle.dj_asm_source.specs.TypeViews.{literal_view};
ghost use Rattle.dj_asm_pool.specs.trusted.Needs.{literal_entry};
ghost use Rattle.dj_asm_pool.specs.Pooling.{found_index};
ghost use Rattle.dj_asm.specs.Judging.{IsFirstOf, is_long_frame, is_table, rise_from, rise, is_lookup, has_many_slots, is_improper, is_alone, alone};

use dj_asm_pool::PoolBuilder;
use dj_asm_source::{Frame, Line, Literal, Operation, Pair};
use dj_names::{DescError, read_desc, slots};
use std::alloc::{AllocError, Global};

// A list of types has a count of two bytes (JVMS 4.7.4).
const MOST_TYPES: usize = 65535;

/// Whether a frame has a list with too many types.
fn is_long_frame(frame: &Frame<'_>) -> bool
    ensures { result ≡ is_long_frame (frame_view frame.now) }
{
    match frame {
        Frame::Full { locals, stack } => {
            MOST_TYPES < locals.as_slice().len() || MOST_TYPES < stack.as_slice().len()
        }
        Frame::Same | Frame::Stack1(_) | Frame::Chop(_) | Frame::Append(_) => false,
    }
}

/// Whether a table from a number on has targets, and none of them past the greatest number.
fn is_table(low: i32, count: usize) -> bool
    ensures { result ≡ is_table low count }
{
    0 < count && count as u64 <= (2147483648 - low as i64).unsigned_abs()
}

/// Whether the matches rise from a number on.
#[tactic(auto, using(crate::proofs::JudgedLines::rise_ends))]
fn rise_from(key: i32, pairs: &[Pair<'_>]) -> bool
    ensures { result ≡ rise_from key (map pair_view pairs.now) }
{
    let mut last = key;
    for pair in pairs {
        if pair.key <= last {
            return false;
        }
        last = pair.key;
    }
    true
}

/// Whether each match is above the one before.
fn rise(pairs: &[Pair<'_>]) -> bool
    ensures { result ≡ rise (map pair_view pairs.now) }
{
    match pairs {
        [] => true,
        [first, rest @ ..] => rise_from(first.key, rest),
    }
}

/// Whether matches rise and can be counted.
fn is_lookup(pairs: &[Pair<'_>]) -> bool
    ensures { result ≡ is_lookup (map pair_view pairs.now) }
{
    pairs.len() < 2147483648 && rise(pairs)
}

/// Whether a method's parameters have more slots than a count of one byte has room for, with the object.
#[tactic(auto, using(crate::proofs::JudgedLines::many_slots, crate::proofs::JudgedLines::few_slots))]
fn has_many_slots(alloc: Global, desc: &[u8]) -> Result<bool, AllocError>
    ensures { IfOk result (λ many. many ≡ has_many_slots desc.now) }
{
    match read_desc(alloc, desc) {
        Ok(described) => Ok(254 < slots(&described)),
        Err(DescError::NotADescriptor) => Ok(false),
        Err(DescError::Memory) => Err(AllocError),
    }
}

/// Whether a constant's index is past one byte.
fn is_past_byte(
    alloc: Global,
    pool: &PoolBuilder,
    literal: &Literal<'_>,
) -> Result<bool, AllocError>
    ensures { IfOk result (λ past. past ≡ nat_lt 255 (found_index pool.now (literal_entry (literal_view literal.now)))) }
{
    Ok(255 < pool.literal_index(alloc, literal)?)
}

/// Whether an instruction isn't proper, though its entries have room.
fn is_improper(
    alloc: Global,
    pool: &PoolBuilder,
    operation: &Operation<'_>,
) -> Result<bool, AllocError>
    ensures { IfOk result (λ improper. improper ≡ is_improper pool.now (operation_view operation.now)) }
{
    match operation {
        Operation::Load { op, literal } => {
            if *op == 18 {
                is_past_byte(alloc, pool, literal)
            } else {
                Ok(false)
            }
        }
        Operation::Table { low, targets, .. } => Ok(!is_table(*low, targets.as_slice().len())),
        Operation::Lookup { pairs, .. } => Ok(!is_lookup(pairs.as_slice())),
        Operation::Member { op, desc, .. } => {
            if *op == 185 {
                has_many_slots(alloc, desc.as_slice())
            } else {
                Ok(false)
            }
        }
        Operation::Multi { dims, .. } => Ok(*dims == 0),
        Operation::Plain { .. }
        | Operation::Push { .. }
        | Operation::Local { .. }
        | Operation::Increment { .. }
        | Operation::LoadLong(_)
        | Operation::Jump { .. }
        | Operation::Dynamic { .. }
        | Operation::ClassOf { .. }
        | Operation::Array { .. } => Ok(false),
    }
}

/// Whether a line alone is too large.
fn is_alone(alloc: Global, pool: &PoolBuilder, line: &Line<'_>) -> Result<bool, AllocError>
    ensures { IfOk result (λ large. large ≡ is_alone pool.now (Some (line_view line.now))) }
{
    match line {
        Line::Frame(frame) => Ok(is_long_frame(frame)),
        Line::Does(operation) => is_improper(alloc, pool, operation),
        Line::Class { .. }
        | Line::Version { .. }
        | Line::Super(_)
        | Line::Implements(_)
        | Line::Field { .. }
        | Line::Abstract { .. }
        | Line::Method { .. }
        | Line::Stack(_)
        | Line::Locals(_)
        | Line::Label(_)
        | Line::Catch { .. }
        | Line::End => Ok(false),
    }
}

/// The first line that alone is too large.
#[tactic(auto, using(crate::proofs::JudgedFirst::one_alone, crate::proofs::JudgedFirst::none_alone))]
pub(crate) fn first_alone(
    alloc: Global,
    lines: &[Line<'_>],
    pool: &PoolBuilder,
) -> Result<Option<usize>, AllocError>
    ensures { IfOk result (λ first. IsFirstOf (alone pool.now (map line_view lines.now)) (length lines.now) first) }
{
    for place in 0..lines.len() {
        if is_alone(alloc, pool, &lines[place])? {
            return Ok(Some(place));
        }
    }
    Ok(None)
}
