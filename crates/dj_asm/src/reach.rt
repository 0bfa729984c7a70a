//! Jumps whose targets are too far away, and code that is too long.
ghost use Rattle.std.specs.Prelude.{◌≡◌, ◌<◌, ◌^◌, Some, length, map, slice_index, IfOk};
ghost use Rattle.std.specs.List.{list_all};
ghost use Rattle.dj_asm_source.specs.trusted.Labels.{is_instruction, label_number};
ghost use Rattle.dj_asm_tokens.specs.Views.{units_of};
ghost use Rattle.dj_asm_source.specs.PairViews.{pair_view};
ghost use Rattle.dj_asm_source.specs.OperationViews.{operation_view};
ghost use Rattle.dj_asm_source.specs.LineViews.{line_view};
ghost use Rattle.dj_asm.specs.Judging.{IsFirstOf, is_near, reaches, target, is_reached, is_wide_line, is_wide, wide_code};

use crate::sizes::{half_of, starts_of};
use dj_asm_source::{Line, MethodLabels, Operation, Pair, Word, is_instruction};
use std::alloc::{AllocError, Global};

// The most bytes of a method's code (JVMS 4.7.3, code_length).
const MOST_BYTES: u64 = 65535;

/// Whether an offset that goes so far back leads from an address to a target.
fn is_near(half: u64, at: u64, target: u64) -> bool
    ensures { result ≡ is_near half at target }
{
    target.saturating_sub(at) < half && at.saturating_sub(target) <= half
}

/// The address of a number, and 0 for none.
fn address(starts: &[u64], number: usize) -> u64
    ensures { result ≡ slice_index starts.now number }
{
    match starts.get(number) {
        Some(start) => *start,
        None => 0,
    }
}

/// Whether a label is within so much.
fn reaches(
    labels: &MethodLabels<'_, '_>,
    starts: &[u64],
    half: u64,
    at: u64,
    label: Word<'_>,
) -> bool
    ensures { result ≡ reaches (label_number labels.now) starts.now half at (units_of label.entry) }
{
    is_near(half, at, address(starts, labels.number(label) as usize))
}

/// Whether all targets are within 4 bytes.
fn targets_reached(
    labels: &MethodLabels<'_, '_>,
    starts: &[u64],
    at: u64,
    targets: &[Word<'_>],
) -> bool
    ensures { result ≡ list_all (reaches (label_number labels.now) starts.now 2147483648 at) (map units_of targets.now) }
{
    for target in targets {
        if !reaches(labels, starts, 2147483648, at, *target) {
            return false;
        }
    }
    true
}

/// Whether the targets of all pairs are within 4 bytes.
fn pairs_reached(labels: &MethodLabels<'_, '_>, starts: &[u64], at: u64, pairs: &[Pair<'_>]) -> bool
    ensures { result ≡ list_all (reaches (label_number labels.now) starts.now 2147483648 at) (map target (map pair_view pairs.now)) }
{
    for pair in pairs {
        if !reaches(labels, starts, 2147483648, at, pair.target) {
            return false;
        }
    }
    true
}

/// Whether the instruction at an address reaches its targets.
fn is_reached(
    labels: &MethodLabels<'_, '_>,
    starts: &[u64],
    at: u64,
    operation: &Operation<'_>,
) -> bool
    ensures { result ≡ is_reached (label_number labels.now) starts.now at (operation_view operation.now) }
{
    match operation {
        Operation::Jump { op, target } => reaches(labels, starts, half_of(*op), at, *target),
        Operation::Table {
            targets,
            default,
            ..
        } => {
            reaches(labels, starts, 2147483648, at, *default)
                && targets_reached(labels, starts, at, targets.as_slice())
        }
        Operation::Lookup { pairs, default } => {
            reaches(labels, starts, 2147483648, at, *default)
                && pairs_reached(labels, starts, at, pairs.as_slice())
        }
        Operation::Plain { .. }
        | Operation::Push { .. }
        | Operation::Local { .. }
        | Operation::Increment { .. }
        | Operation::Load { .. }
        | Operation::LoadLong(_)
        | Operation::Member { .. }
        | Operation::Dynamic { .. }
        | Operation::ClassOf { .. }
        | Operation::Array { .. }
        | Operation::Multi { .. } => true,
    }
}

/// Whether the line after this many instructions is a far jump, or the end of long code.
fn is_wide_line(
    labels: &MethodLabels<'_, '_>,
    starts: &[u64],
    stop: u64,
    count: usize,
    line: &Line<'_>,
) -> bool
    ensures { result ≡ is_wide_line (label_number labels.now) starts.now stop count (Some (line_view line.now)) }
{
    match line {
        Line::Does(operation) => !is_reached(labels, starts, address(starts, count), operation),
        Line::End => MOST_BYTES < stop,
        Line::Class { .. }
        | Line::Version { .. }
        | Line::Super(_)
        | Line::Implements(_)
        | Line::Field { .. }
        | Line::Abstract { .. }
        | Line::Method { .. }
        | Line::Stack(_)
        | Line::Locals(_)
        | Line::Label(_)
        | Line::Catch { .. }
        | Line::Frame(_) => false,
    }
}

/// The first line that is a far jump, or the end of long code, by the addresses of the instructions and their end.
#[tactic(auto, using(crate::proofs::JudgedFirst::one_wide, crate::proofs::JudgedFirst::count_within))]
fn first_wide(
    labels: &MethodLabels<'_, '_>,
    starts: &[u64],
    stop: u64,
    lines: &[Line<'_>],
) -> Option<usize>
    ensures { IsFirstOf (is_wide (label_number labels.now) starts.now stop (map line_view lines.now)) (length lines.now) result }
{
    let mut count = 0;
    for place in 0..lines.len() {
        if is_wide_line(labels, starts, stop, count, &lines[place]) {
            return Some(place);
        }
        if is_instruction(&lines[place]) {
            count += 1;
        }
    }
    None
}

/// The first line of a method whose jump is far, or its `.end` where its code is long.
pub(crate) fn first_wide_line(
    alloc: Global,
    lines: &[Line<'_>],
) -> Result<Option<usize>, AllocError>
    requires { length lines.now < 2 ^ 32 }
    ensures { IfOk result (λ first. IsFirstOf (wide_code (map line_view lines.now)) (length lines.now) first) }
{
    let labels = MethodLabels::of(alloc, lines)?;
    let (starts, stop) = starts_of(alloc, lines)?;
    Ok(first_wide(&labels, &starts, stop, lines))
}
