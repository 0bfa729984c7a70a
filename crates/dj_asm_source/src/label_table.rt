ghost use Rattle.std.specs.Prelude.{◌≡◌, ◌+◌, ◌<◌, ◌≤◌, ◌^◌, ◌++◌, true, false, List, length, map, option_map, IfOk};
ghost use Rattle.std.specs.Cmp.Lexicographic.{slice_cmp};
ghost use Rattle.std.specs.Ordering.{nat_cmp, is_lt};
ghost use Rattle.std.specs.List.Sorted.{IsSortedBy, IsStableBy, IsPartitionPoint};
ghost use Rattle.dj_asm_tokens.specs.trusted.Words.{word_units};
ghost use Rattle.dj_asm_tokens.specs.Views.{units_of};
ghost use Rattle.dj_asm_source.specs.trusted.Labels.{is_instruction};
ghost use Rattle.dj_asm_tokens.specs.WordReading.{row_of};
ghost use Rattle.dj_asm_source.specs.LabelReading.{defined_by, number_after, marks_of};
ghost use Rattle.dj_asm_source.specs.LabelViews.{label_of_mark, mark_view, mark_row, is_label_before, marked};
ghost use Rattle.dj_asm_source.specs.LineViews.{line_view};

use crate::syntax::Line;
use dj_asm_tokens::{Word, unit_at};
use std::alloc::{AllocError, Global};
use std::cmp::Ordering;
use std::marker::Model;

/// How many lines and how many instructions come before a label.
#[derive(Clone, Copy)]
pub(crate) struct LabelPlace {
    pub place: u32,
    pub number: u32,
}

/// The labels of a method: marks in the order of their labels' units, where the first of equal labels counts. A mark has 8 bytes,
/// and as many more while they are sorted; the labels themselves stay in the lines.
#[derive(Drop)]
pub(crate) struct LabelTable<'l, 't> {
    lines: &'l [Line<'t>],
    marks: Vec<LabelPlace>,
    ghost sorted: { IsSortedBy (is_label_before lines.now) marks.items },
}

impl<'l, 't> Model for LabelTable<'l, 't> {
    ghost use Rattle.std.specs.Prelude.{map};
    ghost use Rattle.dj_asm_source.specs.LabelReading.{Marks};
    ghost use Rattle.dj_asm_source.specs.LabelViews.{mark_row};

    ghost Value = { Marks };

    ghost view = { λ table. map (mark_row table.lines.now) table.marks.items };
}

impl<'l, 't> LabelTable<'l, 't> {
    ghost use Rattle.std.specs.Prelude.{ℕ};
    ghost use Rattle.dj_asm_source.specs.trusted.Lines.{Label};

    /// The labels of these lines.
    #[tactic(auto, using(crate::proofs::LabelTables::stable_rows))]
    pub(crate) fn of(alloc: Global, lines: &'l [Line<'t>]) -> Result<LabelTable<'l, 't>, AllocError>
        requires { length lines.now < 2 ^ 32 }
        ensures { IfOk result (λ table. (label : Label) → row_of table label ≡ row_of (marks_of (map line_view lines.now)) label) }
    {
        let mut marks = marks_in(alloc, lines)?;
        sort_by_label(&mut marks, lines)?;
        Ok(LabelTable { lines, marks })
    }

    /// Where a label is defined first.
    pub(crate) fn mark(&self, label: Word<'t>) -> Option<LabelPlace>
        ensures { option_map mark_view result ≡ row_of self.now (units_of label.entry) }
    {
        mark_in(&self.marks, self.lines, label.bytes)
    }
}

/// The first mark of a label among marks that are sorted.
#[tactic(auto, using(crate::proofs::LabelTables::row_found, crate::proofs::LabelTables::row_missing, crate::proofs::LabelTables::row_less, crate::proofs::LabelTables::row_past_all))]
fn mark_in(marks: &[LabelPlace], lines: &[Line<'_>], label: &[u8]) -> Option<LabelPlace>
    requires { IsSortedBy (is_label_before lines.now) marks.now }
    ensures { option_map mark_view result ≡ row_of (map (mark_row lines.now) marks.now) (word_units 0 label.now) }
{
    let at = first_not_before(marks, lines, label);
    if at == marks.len() {
        return None;
    }
    match compare_with(lines, marks[at], label) {
        Ordering::Equal => Some(marks[at]),
        Ordering::Less => None,
        Ordering::Greater => None,
    }
}

/// How many of the sorted marks have labels before this one.
fn first_not_before(marks: &[LabelPlace], lines: &[Line<'_>], label: &[u8]) -> usize
    requires { IsSortedBy (is_label_before lines.now) marks.now }
    ensures bound { result ≤ length marks.now }
    ensures point { IsPartitionPoint (λ m. is_lt (slice_cmp nat_cmp (label_of_mark lines.now m) (word_units 0 label.now)) ≡ true) (λ m. is_lt (slice_cmp nat_cmp (label_of_mark lines.now m) (word_units 0 label.now)) ≡ false) marks.now result }
{
    marks.partition_point(|mark| compare_with(lines, *mark, label).is_lt())
}

/// How the label at a mark compares with another.
fn compare_with(lines: &[Line<'_>], mark: LabelPlace, label: &[u8]) -> Ordering
    ensures { result ≡ slice_cmp nat_cmp (label_of_mark lines.now mark) (word_units 0 label.now) }
{
    compare_words(label_at(lines, mark), label)
}

/// The marks of the labels of these lines, in the order of the lines.
#[tactic(auto, using(crate::proofs::LabelTables::marked_all))]
fn marks_in(alloc: Global, lines: &[Line<'_>]) -> Result<Vec<LabelPlace>, AllocError>
    requires { length lines.now < 2 ^ 32 }
    ensures { IfOk result (λ marks. map (mark_row lines.now) marks.items ≡ marks_of (map line_view lines.now)) }
{
    let mut marks = Vec::with_capacity(alloc, label_count(lines))?;
    let mut number = 0;
    for place in 0..lines.len() {
        let line = &lines[place];
        let mark = LabelPlace {
            place: place as u32,
            number,
        };
        push_mark(&mut marks, line, mark)?;
        number = number_after(line, number);
    }
    Ok(marks)
}

/// Appends the mark of a line, where that defines a label.
fn push_mark(
    marks: &mut Vec<LabelPlace>,
    line: &Line<'_>,
    mark: LabelPlace,
) -> Result<(), AllocError>
    ensures { IfOk result (λ x. marks.new.items ≡ marks.old.items ++ marked (defined_by (line_view line.now)) mark) }
{
    match defined_label(line) {
        Some(_) => Ok(marks.push(mark)?),
        None => Ok(()),
    }
}

/// How many instructions there are with a line.
fn number_after(line: &Line<'_>, number: u32) -> u32
    requires { number + 1 < 2 ^ 32 }
    ensures { result ≡ number_after (line_view line.now) number }
{
    if is_instruction(line) {
        number + 1
    } else {
        number
    }
}

/// How many of the lines define a label.
fn label_count(lines: &[Line<'_>]) -> usize {
    lines
        .iter()
        .filter(|line| defined_label(line).is_some())
        .count()
}

/// The label that a line defines.
pub(crate) fn defined_label<'t>(line: &Line<'t>) -> Option<Word<'t>>
    ensures { option_map units_of result ≡ defined_by (line_view line.now) }
{
    match line {
        Line::Label(label) => Some(*label),
        Line::Class { .. }
        | Line::Version { .. }
        | Line::Super(_)
        | Line::Implements(_)
        | Line::Field { .. }
        | Line::Abstract { .. }
        | Line::Method { .. }
        | Line::Stack(_)
        | Line::Locals(_)
        | Line::Catch { .. }
        | Line::Frame(_)
        | Line::Does(_)
        | Line::End => None,
    }
}

/// Whether a line is an instruction.
pub fn is_instruction(line: &Line<'_>) -> bool
    ensures { result ≡ is_instruction (line_view line.now) }
{
    match line {
        Line::Does(_) => true,
        Line::Class { .. }
        | Line::Version { .. }
        | Line::Super(_)
        | Line::Implements(_)
        | Line::Field { .. }
        | Line::Abstract { .. }
        | Line::Method { .. }
        | Line::Stack(_)
        | Line::Locals(_)
        | Line::Label(_)
        | Line::Catch { .. }
        | Line::Frame(_)
        | Line::End => false,
    }
}

/// Sorts by labels. Marks of one label keep their order.
fn sort_by_label(marks: &mut Vec<LabelPlace>, lines: &[Line<'_>]) -> Result<(), AllocError>
    ensures sorted { IfOk result (λ x. IsSortedBy (is_label_before lines.now) marks.new.items) }
    ensures stable { IsStableBy (is_label_before lines.now) marks.old.items marks.new.items }
{
    marks.sort_by(|a, b| compare_words(label_at(lines, *a), label_at(lines, *b)))?;
    Ok(())
}

/// The word of the label that the line at a mark defines.
#[tactic(auto, unfolding(dj_asm_tokens::specs::trusted::Words::word_units))]
fn label_at<'t>(lines: &[Line<'t>], mark: LabelPlace) -> &'t [u8]
    ensures { word_units 0 result.now ≡ label_of_mark lines.now mark }
{
    match lines.get(mark.place as usize) {
        Some(line) => match defined_label(line) {
            Some(label) => label.bytes,
            None => &[],
        },
        None => &[],
    }
}

/// How two words compare, by their units.
fn compare_words(left: &[u8], right: &[u8]) -> Ordering
    ensures { result ≡ slice_cmp nat_cmp (word_units 0 left.now) (word_units 0 right.now) }
{
    let mut first = left;
    let mut second = right;
    while let Some((unit, after)) = unit_at(first) {
        match unit_at(second) {
            Some((other, rest)) => match unit.cmp(&other) {
                Ordering::Equal => {
                    first = after;
                    second = rest;
                }
                Ordering::Less => return Ordering::Less,
                Ordering::Greater => return Ordering::Greater,
            },
            None => return Ordering::Greater,
        }
    }
    match unit_at(second) {
        Some(_) => Ordering::Less,
        None => Ordering::Equal,
    }
}
