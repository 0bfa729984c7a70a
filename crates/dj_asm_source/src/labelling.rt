ghost use Rattle.std.specs.Prelude.{◌≡◌, ◌<◌, ◌≤◌, ◌^◌, length, map, IfOk, IfSome};
ghost use Rattle.std.specs.List.{list_all, flat_map};
ghost use Rattle.dj_asm_tokens.specs.Views.{units_of};
ghost use Rattle.dj_asm_source.specs.TypeViews.{type_view};
ghost use Rattle.dj_asm_source.specs.PairViews.{pair_view};
ghost use Rattle.dj_asm_source.specs.OperationViews.{operation_view};
ghost use Rattle.dj_asm_source.specs.LineViews.{frame_view, line_view};
ghost use Rattle.dj_asm_source.specs.trusted.Labels.{AtInstruction, Range, instruction_count, type_uses, frame_uses, operation_uses, uses_of};
ghost use Rattle.dj_asm_source.specs.LabelReading.{defined_by, is_met, is_again, is_mislabelled, mislabelled_from, mislabelled_in, begins_method, section_size, first_mislabelled};

use crate::label_table::{LabelTable, defined_label, is_instruction};
use crate::syntax::{Frame, FrameType, Line, Operation};
use crate::targets::Pair;
use dj_asm_tokens::Word;
use std::alloc::{AllocError, Global};

/// How many lines come before the first that uses a label wrongly.
#[tactic(auto, using(crate::proofs::Labellings::next_section, crate::proofs::Labellings::found_section, crate::proofs::Labellings::no_section))]
pub(crate) fn first_mislabelled(
    alloc: Global,
    lines: &[Line<'_>],
) -> Result<Option<usize>, AllocError>
    requires { length lines.now < 2 ^ 32 }
    ensures { IfOk result (λ place. place ≡ first_mislabelled (map line_view lines.now)) }
{
    let mut before = 0;
    while before < lines.len() {
        let rest = &lines[before..];
        let size = section_size(rest);
        match mislabelled_in(alloc, &rest[..size])? {
            Some(place) => return Ok(Some(before + place)),
            None => before += size,
        }
    }
    Ok(None)
}

/// How many lines there are up to the next method: in all lines of a text those before the methods, and from a method's first line on its own lines.
pub fn section_size(lines: &[Line<'_>]) -> usize
    requires { 0 < length lines.now }
    ensures size { result ≡ section_size (map line_view lines.now) }
    ensures some { 0 < result }
    ensures within { result ≤ length lines.now }
{
    let mut size = 1;
    while size < lines.len() && !begins_method(&lines[size]) {
        size += 1;
    }
    size
}

/// Whether a method begins with this line.
fn begins_method(line: &Line<'_>) -> bool
    ensures { result ≡ begins_method (line_view line.now) }
{
    match line {
        Line::Abstract { .. } | Line::Method { .. } => true,
        Line::Class { .. }
        | Line::Version { .. }
        | Line::Super(_)
        | Line::Implements(_)
        | Line::Field { .. }
        | Line::Stack(_)
        | Line::Locals(_)
        | Line::Label(_)
        | Line::Catch { .. }
        | Line::Frame(_)
        | Line::Does(_)
        | Line::End => false,
    }
}

/// The first line of a method that uses a label wrongly.
#[tactic(auto, using(crate::proofs::Labellings::by_table))]
fn mislabelled_in(alloc: Global, lines: &[Line<'_>]) -> Result<Option<usize>, AllocError>
    requires { length lines.now < 2 ^ 32 }
    ensures first { IfOk result (λ place. place ≡ mislabelled_in (map line_view lines.now)) }
    ensures within { IfOk result (λ place. IfSome place (λ n. n < length lines.now)) }
{
    let table = LabelTable::of(alloc, lines)?;
    Ok(mislabelled_by(&table, instruction_count(lines), lines))
}

/// How many of the lines are instructions.
pub(crate) fn instruction_count(lines: &[Line<'_>]) -> usize
    ensures count { result ≡ instruction_count (map line_view lines.now) }
    ensures within { result ≤ length lines.now }
{
    lines.iter().filter(|line| is_instruction(line)).count()
}

/// The first line that uses a label wrongly, by the table of labels.
#[tactic(auto, using(crate::proofs::Labellings::right_line, crate::proofs::Labellings::wrong_line, crate::proofs::Labellings::no_line))]
fn mislabelled_by(table: &LabelTable<'_, '_>, count: usize, lines: &[Line<'_>]) -> Option<usize>
    ensures first { result ≡ mislabelled_from table.now count 0 (map line_view lines.now) }
    ensures within { IfSome result (λ n. n < length lines.now) }
{
    for place in 0..lines.len() {
        if is_mislabelled(table, count, place, &lines[place]) {
            return Some(place);
        }
    }
    None
}

/// Whether the line after this many uses a label wrongly.
fn is_mislabelled(table: &LabelTable<'_, '_>, count: usize, place: usize, line: &Line<'_>) -> bool
    ensures { result ≡ is_mislabelled table.now count place (line_view line.now) }
{
    is_again(table, place, line) || !line_is_met(table, count, line)
}

/// Whether the line after this many defines a label that an earlier line defines.
fn is_again(table: &LabelTable<'_, '_>, place: usize, line: &Line<'_>) -> bool
    ensures { result ≡ is_again table.now place (defined_by (line_view line.now)) }
{
    match defined_label(line) {
        Some(label) => match table.mark(label) {
            Some(mark) => (mark.place as usize) < place,
            None => false,
        },
        None => false,
    }
}

/// Whether labels are what the line requires of them.
fn line_is_met(table: &LabelTable<'_, '_>, count: usize, line: &Line<'_>) -> bool
    ensures { result ≡ list_all (is_met table.now count) (uses_of (line_view line.now)) }
{
    match line {
        Line::Catch {
            from,
            to,
            handler,
            ..
        } => is_range(table, *from, *to) && is_instruction_label(table, count, *handler),
        Line::Frame(frame) => frame_is_met(table, count, frame),
        Line::Does(operation) => operation_is_met(table, count, operation),
        Line::Class { .. }
        | Line::Version { .. }
        | Line::Super(_)
        | Line::Implements(_)
        | Line::Field { .. }
        | Line::Abstract { .. }
        | Line::Method { .. }
        | Line::Stack(_)
        | Line::Locals(_)
        | Line::Label(_)
        | Line::End => true,
    }
}

/// Whether the first label comes before the second.
fn is_range(table: &LabelTable<'_, '_>, from: Word<'_>, to: Word<'_>) -> bool
    ensures { result ≡ is_met table.now 0 (Range (units_of from.entry) (units_of to.entry)) }
{
    match (table.mark(from), table.mark(to)) {
        (Some(first), Some(end)) => first.number < end.number,
        _ => false,
    }
}

/// Whether an instruction is at the label.
fn is_instruction_label(table: &LabelTable<'_, '_>, count: usize, label: Word<'_>) -> bool
    ensures { result ≡ is_met table.now count (AtInstruction (units_of label.entry)) }
{
    match table.mark(label) {
        Some(mark) => (mark.number as usize) < count,
        None => false,
    }
}

/// Whether labels are what the frame requires of them.
#[tactic(auto, using(crate::proofs::Labellings::all_of_both))]
fn frame_is_met(table: &LabelTable<'_, '_>, count: usize, frame: &Frame<'_>) -> bool
    ensures { result ≡ list_all (is_met table.now count) (frame_uses (frame_view frame.now)) }
{
    match frame {
        Frame::Same | Frame::Chop(_) => true,
        Frame::Stack1(ty) => type_is_met(table, count, ty),
        Frame::Append(types) => types_are_met(table, count, types.as_slice()),
        Frame::Full { locals, stack } => {
            types_are_met(table, count, locals.as_slice())
                && types_are_met(table, count, stack.as_slice())
        }
    }
}

/// Whether labels are what the types require of them.
fn types_are_met(table: &LabelTable<'_, '_>, count: usize, types: &[FrameType<'_>]) -> bool
    ensures { result ≡ list_all (is_met table.now count) (flat_map type_uses (map type_view types.now)) }
{
    for ty in types {
        if !type_is_met(table, count, ty) {
            return false;
        }
    }
    true
}

/// Whether the label of a type is what the type requires of it.
fn type_is_met(table: &LabelTable<'_, '_>, count: usize, ty: &FrameType<'_>) -> bool
    ensures { result ≡ list_all (is_met table.now count) (type_uses (type_view ty.now)) }
{
    match ty {
        FrameType::New(label) => is_instruction_label(table, count, *label),
        FrameType::Simple(_) | FrameType::Object(_) => true,
    }
}

/// Whether labels are what the instruction requires of them.
fn operation_is_met(table: &LabelTable<'_, '_>, count: usize, operation: &Operation<'_>) -> bool
    ensures { result ≡ list_all (is_met table.now count) (operation_uses (operation_view operation.now)) }
{
    match operation {
        Operation::Jump { target, .. } => is_instruction_label(table, count, *target),
        Operation::Table {
            targets,
            default,
            ..
        } => {
            is_instruction_label(table, count, *default)
                && targets_are_met(table, count, targets.as_slice())
        }
        Operation::Lookup { pairs, default } => {
            is_instruction_label(table, count, *default)
                && pairs_are_met(table, count, pairs.as_slice())
        }
        Operation::Plain { .. }
        | Operation::Push { .. }
        | Operation::Local { .. }
        | Operation::Increment { .. }
        | Operation::Load { .. }
        | Operation::LoadLong(_)
        | Operation::Member { .. }
        | Operation::Dynamic { .. }
        | Operation::ClassOf { .. }
        | Operation::Array { .. }
        | Operation::Multi { .. } => true,
    }
}

/// Whether an instruction is at each of the labels.
fn targets_are_met(table: &LabelTable<'_, '_>, count: usize, targets: &[Word<'_>]) -> bool
    ensures { result ≡ list_all (is_met table.now count) (map AtInstruction (map units_of targets.now)) }
{
    for target in targets {
        if !is_instruction_label(table, count, *target) {
            return false;
        }
    }
    true
}

/// Whether an instruction is at each target.
fn pairs_are_met(table: &LabelTable<'_, '_>, count: usize, pairs: &[Pair<'_>]) -> bool
    ensures { result ≡ list_all (is_met table.now count) (map (λ pair. AtInstruction pair.1) (map pair_view pairs.now)) }
{
    for pair in pairs {
        if !is_instruction_label(table, count, pair.target) {
            return false;
        }
    }
    true
}
