//! The marks of members that many classes declare.
ghost use Rattle.std.specs.Prelude.{◌≡◌, ◌<◌, [], length, IfOk, OnOk};
ghost use Rattle.dj_resolution.specs.Bits.{AreBits, words_for};
ghost use Rattle.dj_resolution.specs.Ranked.{AreRanksOf};
ghost use Rattle.dj_resolution.specs.Shared.{HaveFieldMarks, HavePlainMarks, HaveRankMarks, IsFieldMarked, IsFieldNumbered, IsMethodNumbered, IsPlainMarked, IsRankMarked};

use crate::declarers::{mark_all, mark_plain, mark_ranks};
use crate::ranked::Ranks;
use crate::shared::{FEW_ROWS, MarkedMember};
use dj_member_index::{Directory, MemberRow};
use std::alloc::{AllocError, Global};

// ---- rows

// Whether two rows are of the same name and descriptor.
fn are_alike(one: MemberRow, other: MemberRow) -> bool {
    one.name == other.name && one.desc == other.desc
}

// Whether the rows of one name and descriptor begin at this place, and are many.
fn begin_many(rows: &[MemberRow], at: usize) -> bool
    requires { at < length rows.now }
{
    if at > 0 && are_alike(rows[at - 1], rows[at]) {
        return false;
    }
    match rows.get(at.saturating_add(FEW_ROWS)) {
        Some(other) => are_alike(rows[at], *other),
        None => false,
    }
}

// ---- marks of one member

// A bit of each class, none of which is set.
fn no_marks(alloc: Global, count: u32) -> Result<Vec<u64>, AllocError>
    ensures count { IfOk result (λ marks. length marks.items ≡ words_for count) }
    ensures clear { IfOk result (λ marks. AreBits [] marks.items) }
{
    Ok(vec![in alloc; 0; count as usize / 64 + 1]?)
}

// The classes that declare a method with the name and the descriptor of a row's, and where it is neither private nor static.
fn plain_method_of(
    alloc: Global,
    directory: &Directory<'_>,
    row: MemberRow,
) -> Result<MarkedMember, AllocError>
    requires { IsMethodNumbered directory.now row.class row.place row.name row.desc }
    ensures { IfOk result (IsPlainMarked directory.now.program) }
{
    let mut words = no_marks(alloc, directory.classes().class_count())?;
    mark_plain(
        directory,
        directory.methods_of(row.name, row.desc),
        &mut words,
    );
    Ok(MarkedMember {
        name: row.name,
        desc: row.desc,
        class: row.class,
        member: row.place,
        words,
    })
}

// The ranks of the classes that declare a method with the name and the descriptor of a row's.
fn method_of(
    alloc: Global,
    directory: &Directory<'_>,
    ranks: &Ranks,
    row: MemberRow,
) -> Result<MarkedMember, AllocError>
    requires ranks { AreRanksOf directory.now.program ranks.now }
    requires row { IsMethodNumbered directory.now row.class row.place row.name row.desc }
    ensures { IfOk result (IsRankMarked directory.now.program ranks.now.ranks.items) }
{
    let mut words = no_marks(alloc, directory.classes().class_count())?;
    mark_ranks(
        &ranks.ranks,
        directory.methods_of(row.name, row.desc),
        &mut words,
    );
    Ok(MarkedMember {
        name: row.name,
        desc: row.desc,
        class: row.class,
        member: row.place,
        words,
    })
}

// The classes that declare a field like that of a row.
fn field_of(
    alloc: Global,
    directory: &Directory<'_>,
    row: MemberRow,
) -> Result<MarkedMember, AllocError>
    requires { IsFieldNumbered directory.now row.class row.place row.name row.desc }
    ensures { IfOk result (IsFieldMarked directory.now.program) }
{
    let mut words = no_marks(alloc, directory.classes().class_count())?;
    mark_all(directory.fields_of(row.name, row.desc), &mut words);
    Ok(MarkedMember {
        name: row.name,
        desc: row.desc,
        class: row.class,
        member: row.place,
        words,
    })
}

// ---- marks of all

// The member comes to the others.
fn put_plain(
    marked: &mut Vec<MarkedMember>,
    directory: &Directory<'_>,
    member: MarkedMember,
) -> Result<(), AllocError>
    requires marked { HavePlainMarks directory.now.program marked.old.items }
    requires member { IsPlainMarked directory.now.program member }
    ensures { OnOk result (HavePlainMarks directory.now.program marked.new.items) }
{
    let _ = directory;
    marked.push(member)?;
    Ok(())
}

// The same for a method by ranks.
fn put_ranked(
    marked: &mut Vec<MarkedMember>,
    directory: &Directory<'_>,
    ranks: &Ranks,
    member: MarkedMember,
) -> Result<(), AllocError>
    requires marked { HaveRankMarks directory.now.program ranks.now.ranks.items marked.old.items }
    requires member { IsRankMarked directory.now.program ranks.now.ranks.items member }
    ensures { OnOk result (HaveRankMarks directory.now.program ranks.now.ranks.items marked.new.items) }
{
    let _ = directory;
    let _ = ranks;
    marked.push(member)?;
    Ok(())
}

// The same for a field.
fn put_field(
    marked: &mut Vec<MarkedMember>,
    directory: &Directory<'_>,
    member: MarkedMember,
) -> Result<(), AllocError>
    requires marked { HaveFieldMarks directory.now.program marked.old.items }
    requires member { IsFieldMarked directory.now.program member }
    ensures { OnOk result (HaveFieldMarks directory.now.program marked.new.items) }
{
    let _ = directory;
    marked.push(member)?;
    Ok(())
}

/// Of the methods that many classes declare, the classes in which they are neither private nor static.
pub fn plain_methods_of(
    alloc: Global,
    directory: &Directory<'_>,
) -> Result<Vec<MarkedMember>, AllocError>
    ensures { IfOk result (λ marked. HavePlainMarks directory.now.program marked.items) }
{
    let mut marked = Vec::new(alloc);
    let rows = directory.method_rows();
    for at in 0..rows.len() {
        if begin_many(rows, at) {
            let member = plain_method_of(alloc, directory, rows[at])?;
            put_plain(&mut marked, directory, member)?;
        }
    }
    Ok(marked)
}

/// The ranks of the classes that declare each method that many classes declare.
pub fn methods_of(
    alloc: Global,
    directory: &Directory<'_>,
    ranks: &Ranks,
) -> Result<Vec<MarkedMember>, AllocError>
    requires { AreRanksOf directory.now.program ranks.now }
    ensures { IfOk result (λ marked. HaveRankMarks directory.now.program ranks.now.ranks.items marked.items) }
{
    let mut marked = Vec::new(alloc);
    let rows = directory.method_rows();
    for at in 0..rows.len() {
        if begin_many(rows, at) {
            let member = method_of(alloc, directory, ranks, rows[at])?;
            put_ranked(&mut marked, directory, ranks, member)?;
        }
    }
    Ok(marked)
}

/// The classes that declare each field that many classes declare.
pub fn fields_of(alloc: Global, directory: &Directory<'_>) -> Result<Vec<MarkedMember>, AllocError>
    ensures { IfOk result (λ marked. HaveFieldMarks directory.now.program marked.items) }
{
    let mut marked = Vec::new(alloc);
    let rows = directory.field_rows();
    for at in 0..rows.len() {
        if begin_many(rows, at) {
            let member = field_of(alloc, directory, rows[at])?;
            put_field(&mut marked, directory, member)?;
        }
    }
    Ok(marked)
}
