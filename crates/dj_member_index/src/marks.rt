//! The nearest class that declares a member, by halving. The spans of the classes of such rows start and end at marks, and each mark gives the nearest of these classes for what follows it.
//! For an end it is looked up: it is what was nearest before the start. Ends are checked on the way, so the spans need not be known to be nested.
ghost use Rattle.std.specs.Prelude.{◌≡◌, ℕ, ◌+◌, ◌<◌, true, length, get_or, IfOk, IfSome};
ghost use Rattle.dj_member_index.specs.DirectoryRows.{AreInOrder, Fits};
ghost use Rattle.dj_member_index.specs.Spans.{AreMarks, AreNear, AreNearest, Covers, IsEnd, IsLast, IsNearestIn, IsReported, mark_of};

use crate::rows::{MemberRow, first_not_below, key_of, put_in_order};
use crate::spans::Spans;
use std::alloc::{AllocError, Global};

/// Where the spans of the classes of rows start and end.
#[derive(Drop)]
pub struct SpanMarks {
    /// In place of the class the step, and in place of the member the class: so marks stand in the order of the numbers of texts, then of the steps.
    pub rows: Vec<MemberRow>,
    /// By the places of marks, the nearest class for what follows.
    pub nearest: Vec<Option<u32>>,
}

// The mark of the class of a row at a step.
fn mark_of(row: MemberRow, step: u32) -> MemberRow
    ensures is { result ≡ mark_of row step }
    ensures fits { Fits result }
{
    MemberRow {
        name: row.name,
        desc: row.desc,
        class: step,
        place: row.class,
    }
}

// The marks of rows.
fn marks_of(alloc: Global, spans: &Spans, rows: &[MemberRow]) -> Result<Vec<MemberRow>, AllocError>
    ensures { IfOk result (λ marks. AreMarks spans.now rows.now marks.items) }
{
    let mut marks = Vec::new(alloc);
    for row in rows {
        let first = mark_of(*row, spans.start(row.class));
        let last = mark_of(*row, spans.end(row.class));
        marks.push(first)?;
        marks.push(last)?;
    }
    put_in_order(&mut marks);
    Ok(marks)
}

// Whether the last one is this class.
fn is_last(nearest: &[Option<u32>], class: u32) -> bool
    ensures { result ≡ true → IsLast nearest.now class }
{
    match nearest.last() {
        Some(Some(last)) => *last == class,
        _ => false,
    }
}

// Whether a mark is that of an end.
fn is_end(spans: &Spans, mark: MemberRow) -> bool
    ensures { result ≡ true → IsEnd spans.now mark }
{
    let start = spans.start(mark.place);
    start <= mark.class
        && spans.end(mark.place) <= mark.class
        && spans.class_at(start) == mark.place
}

// Whether a mark is that of the end of the last span that was open.
fn is_last_end(spans: &Spans, nearest: &[Option<u32>], mark: MemberRow) -> bool
    ensures end { result ≡ true → IsEnd spans.now mark }
    ensures last { result ≡ true → IsLast nearest.now mark.place }
{
    is_end(spans, mark) && is_last(nearest, mark.place)
}

// What a mark says, where it is known.
fn reported_at(nearest: &[Option<u32>], at: usize) -> Option<Option<u32>>
    ensures { IfSome result (IsReported nearest.now at) }
{
    match nearest.get(at) {
        Some(near) => Some(*near),
        None => None,
    }
}

// What the last mark of these numbers before a step says, where it is known.
fn nearest_before(
    marks: &[MemberRow],
    nearest: &[Option<u32>],
    name: u32,
    desc: u32,
    step: u32,
) -> Option<Option<u32>>
    requires { AreInOrder marks.now }
    ensures { (spans : Spans) → AreNearest spans marks.now nearest.now → IfSome result (IsNearestIn spans marks.now name desc step) }
{
    let key = key_of(MemberRow {
        name,
        desc,
        class: step,
        place: 0,
    });
    let at = first_not_below(marks, key);
    if at == 0 {
        return Some(None);
    }
    let mark = marks[at - 1];
    if mark.name != name || mark.desc != desc {
        return Some(None);
    }
    reported_at(nearest, at - 1)
}

// The nearest class for what follows a mark, where that is known for those before it.
fn nearest_after(
    spans: &Spans,
    marks: &[MemberRow],
    nearest: &[Option<u32>],
    mark: MemberRow,
) -> Option<Option<u32>>
    requires order { AreInOrder marks.now }
    requires there { length nearest.now < length marks.now }
    requires mark { get_or marks.now (length nearest.now) mark ≡ mark }
    requires before { AreNearest spans.now marks.now nearest.now }
    ensures { IfSome result (Covers spans.now marks.now (length nearest.now)) }
{
    let start = spans.start(mark.place);
    if start == mark.class {
        return Some(Some(mark.place));
    }
    if is_last_end(spans, nearest, mark) {
        nearest_before(marks, nearest, mark.name, mark.desc, start)
    } else {
        None
    }
}

// The same for all marks. None where an end isn't that of the last span that was open.
fn nearest_of(
    alloc: Global,
    spans: &Spans,
    marks: &[MemberRow],
) -> Result<Option<Vec<Option<u32>>>, AllocError>
    requires { AreInOrder marks.now }
    ensures { IfOk result (λ found. IfSome found (λ nearest. AreNearest spans.now marks.now nearest.items)) }
{
    let mut nearest = Vec::new(alloc);
    for mark in marks {
        let Some(near) = nearest_after(spans, marks, &nearest, *mark) else {
            return Ok(None);
        };
        nearest.push(near)?;
    }
    Ok(Some(nearest))
}

impl SpanMarks {
    /// The marks of rows.
    pub fn of(
        alloc: Global,
        spans: &Spans,
        rows: &[MemberRow],
    ) -> Result<Option<SpanMarks>, AllocError>
        ensures { IfOk result (λ found. IfSome found (AreNear spans.now rows.now)) }
    {
        let marks = marks_of(alloc, spans, rows)?;
        let Some(nearest) = nearest_of(alloc, spans, &marks)? else {
            return Ok(None);
        };
        Ok(Some(SpanMarks {
            rows: marks,
            nearest,
        }))
    }

    /// The nearest class of the rows of these numbers for a class that starts at a step, where it is known.
    pub fn nearest(&self, name: u32, desc: u32, start: u32) -> Option<Option<u32>>
        requires { AreInOrder self.now.rows.items }
        ensures { (spans : Spans) → AreNearest spans self.now.rows.items self.now.nearest.items → IfSome result (IsNearestIn spans self.now.rows.items name desc (start + 1)) }
    {
        nearest_before(&self.rows, &self.nearest, name, desc, start.checked_add(1)?)
    }
}
