//! How many bytes instructions have, and where they come to stand.
ghost use Rattle.std.specs.Prelude.{◌≡◌, ◌+◌, ◌≤◌, [], ◌∷◌, map, IfOk, IfSome, IfNone};
ghost use Rattle.dj_asm_source.specs.OperationViews.{operation_view};
ghost use Rattle.dj_asm_source.specs.LineViews.{line_view};
ghost use Rattle.dj_asm.specs.trusted.Codes.{operation_in};
ghost use Rattle.dj_asm.specs.Judging.{wide_size, switch_size, size_at, half_of, AreStarts};

use dj_asm_source::{Line, Operation};
use std::alloc::{AllocError, Global};

/// How far back the offset of a jump goes.
pub(crate) fn half_of(op: u8) -> u64
    ensures { result ≡ half_of op }
{
    if 200 <= op { 2147483648 } else { 32768 }
}

fn wide_size(wide: bool, long: u64, short: u64) -> u64
    ensures { result ≡ wide_size wide long short }
{
    if wide { long } else { short }
}

/// The bytes of a switch with this many bytes before the entries, and of this many entries, where they can be counted.
fn switch_size(at: u64, head: u64, count: usize, each: u64) -> Option<u64>
    requires { head ≤ 12 }
    ensures { IfSome result (λ size. size ≡ switch_size at head count each) }
{
    let entries = (count as u64).checked_mul(each)?;
    entries.checked_add(1 + (3 - at % 4) + head)
}

/// The bytes of an instruction at an address, where they can be counted.
fn size_at(at: u64, operation: &Operation<'_>) -> Option<u64>
    ensures { IfSome result (λ size. size ≡ size_at at (operation_view operation.now)) }
{
    match operation {
        Operation::Table { targets, .. } => switch_size(at, 12, targets.as_slice().len(), 4),
        Operation::Lookup { pairs, .. } => switch_size(at, 8, pairs.as_slice().len(), 8),
        Operation::Push { op, .. } => Some(wide_size(*op == 16, 2, 3)),
        Operation::Load { op, .. } => Some(wide_size(*op == 18, 2, 3)),
        Operation::Jump { op, .. } => Some(wide_size(200 <= *op, 5, 3)),
        Operation::Local { wide, .. } => Some(wide_size(*wide, 4, 2)),
        Operation::Increment { wide, .. } => Some(wide_size(*wide, 6, 3)),
        Operation::Member { op, .. } => Some(wide_size(*op == 185, 5, 3)),
        Operation::Plain { .. } => Some(1),
        Operation::Array { .. } => Some(2),
        Operation::LoadLong(_) | Operation::ClassOf { .. } => Some(3),
        Operation::Multi { .. } => Some(4),
        Operation::Dynamic { .. } => Some(5),
    }
}

/// The address after an instruction; code past all addresses has no room in memory.
fn end_after(at: u64, operation: &Operation<'_>) -> Result<u64, AllocError>
    ensures { IfOk result (λ next. next ≡ at + size_at at (operation_view operation.now)) }
{
    let Some(size) = size_at(at, operation) else {
        return Err(AllocError);
    };
    at.checked_add(size).ok_or(AllocError)
}

/// What a line does.
fn done<'l, 't>(line: &'l Line<'t>) -> Option<&'l Operation<'t>>
    ensures some { IfSome result (λ operation. operation_in (line_view line.now) ≡ operation_view operation.now ∷ []) }
    ensures none { IfNone result (operation_in (line_view line.now) ≡ []) }
{
    match line {
        Line::Does(operation) => Some(operation),
        Line::Class { .. }
        | Line::Version { .. }
        | Line::Super(_)
        | Line::Implements(_)
        | Line::Field { .. }
        | Line::Abstract { .. }
        | Line::Method { .. }
        | Line::Stack(_)
        | Line::Locals(_)
        | Line::Label(_)
        | Line::Catch { .. }
        | Line::Frame(_)
        | Line::End => None,
    }
}

/// The addresses of the instructions of these lines, and the address after the last.
#[tactic(auto, using(crate::proofs::JudgedCode::none_left, crate::proofs::JudgedCode::at_first, crate::proofs::JudgedCode::one_further, crate::proofs::JudgedCode::none_further))]
pub(crate) fn starts_of(alloc: Global, lines: &[Line<'_>]) -> Result<(Vec<u64>, u64), AllocError>
    ensures { IfOk result (λ x. AreStarts (map line_view lines.now) x.0.items x.1) }
{
    let mut starts = Vec::new(alloc);
    let mut at = 0;
    for place in 0..lines.len() {
        if let Some(operation) = done(&lines[place]) {
            let next = end_after(at, operation)?;
            starts.push(at)?;
            at = next;
        }
    }
    Ok((starts, at))
}
