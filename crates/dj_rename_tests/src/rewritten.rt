//! Pools of rewritten classes, with the accounter's constants. The first row is the smallest class, whose rewritten file has 382 bytes.
ghost use Rattle.std.specs.Prelude.{[], All};
ghost use Rattle.dj_pool.specs.trusted.Pool.{IsPool};
ghost use Rattle.dj_rename.specs.Refusals.{IsDescIndex, AreAppended};

use crate::pieces::{Pieces, bytes_of};
use crate::pools::{are_descriptors, are_entries};
use dj_pool::Entry::*;
use dj_pool::{Entry, Pool, read_pool};
use dj_rename::{RenameError, Texts, append_accounter, rename_texts, rewrite_pool};
use std::alloc::Global;

// A pool from its count on, and the indexes of its members' descriptors; the new constants, the new indexes, and that of the accounter's name.
type Row = (
    Pieces,
    &'static [u16],
    &'static [Entry<'static>],
    &'static [u16],
    u16,
);

#[rattlefmt::skip]
const ROWS: [Row; 3] = [
    (&[(b"\x00\x08\x01\x00\x01A\x07\x00\x01\x01\x00\x10java/lang/Object\x07\x00\x03\x01\x00\x06verify\x01\x00\x06([B)[B\x01\x00\x04Code", 1)], &[6], &[Utf8(b"A"), Class(8), Utf8(b"java/lang/Object"), Class(9), Utf8(b"verify"), Utf8(b"([B)[B"), Utf8(b"Code"), Utf8(b"sandbox/A"), Utf8(b"sandbox/java/lang/Object"), Utf8(b"djvm/Accounter"), Class(10), Utf8(b"recordJump"), Utf8(b"()V"), NameAndType(12, 13), Method(11, 14), Utf8(b"recordInvocation"), Utf8(b"()V"), NameAndType(16, 17), Method(11, 18), Utf8(b"recordThrow"), Utf8(b"()V"), NameAndType(20, 21), Method(11, 22), Utf8(b"recordAllocation"), Utf8(b"(I)V"), NameAndType(24, 25), Method(11, 26), Utf8(b"recordArray"), Utf8(b"(II)V"), NameAndType(28, 29), Method(11, 30), Utf8(b"checkCatch"), Utf8(b"(Lsandbox/java/lang/Object;)V"), NameAndType(32, 33), Method(11, 34)], &[6], 10),
    (&[(b"\x00\x0d\x01\x00\x01A\x07\x00\x01\x01\x00\x10java/lang/Object\x07\x00\x03\x01\x00\x01f\x01\x00\x04[LA;\x01\x00\x01m\x01\x00\x06()[LA;\x01\x00\x04Code\x07\x00\x06\x0c\x00\x05\x00\x06\x09\x00\x02\x00\x0b", 1)], &[6, 8], &[Utf8(b"A"), Class(13), Utf8(b"java/lang/Object"), Class(14), Utf8(b"f"), Utf8(b"[LA;"), Utf8(b"m"), Utf8(b"()[LA;"), Utf8(b"Code"), Class(15), NameAndType(5, 15), Field(2, 11), Utf8(b"sandbox/A"), Utf8(b"sandbox/java/lang/Object"), Utf8(b"[Lsandbox/A;"), Utf8(b"()[Lsandbox/A;"), Utf8(b"djvm/Accounter"), Class(17), Utf8(b"recordJump"), Utf8(b"()V"), NameAndType(19, 20), Method(18, 21), Utf8(b"recordInvocation"), Utf8(b"()V"), NameAndType(23, 24), Method(18, 25), Utf8(b"recordThrow"), Utf8(b"()V"), NameAndType(27, 28), Method(18, 29), Utf8(b"recordAllocation"), Utf8(b"(I)V"), NameAndType(31, 32), Method(18, 33), Utf8(b"recordArray"), Utf8(b"(II)V"), NameAndType(35, 36), Method(18, 37), Utf8(b"checkCatch"), Utf8(b"(Lsandbox/java/lang/Object;)V"), NameAndType(39, 40), Method(18, 41)], &[15, 16], 17),
    (&[(b"\x00\x0f\x01\x00\x01A\x07\x00\x01\x01\x00\x01A\x07\x00\x03\x08\x00\x03\x01\x00\x03LA;\x01\x00\x03LA;\x01\x00\x01f\x01\x00\x01g\x01\x00\x04Code\x01\x00\x01m\x01\x00\x03()V\x01\x00\x10java/lang/Object\x07\x00\x0d", 1)], &[6, 7, 12], &[Utf8(b"A"), Class(15), Utf8(b"A"), Class(15), Text(3), Utf8(b"LA;"), Utf8(b"LA;"), Utf8(b"f"), Utf8(b"g"), Utf8(b"Code"), Utf8(b"m"), Utf8(b"()V"), Utf8(b"java/lang/Object"), Class(16), Utf8(b"sandbox/A"), Utf8(b"sandbox/java/lang/Object"), Utf8(b"Lsandbox/A;"), Utf8(b"djvm/Accounter"), Class(18), Utf8(b"recordJump"), Utf8(b"()V"), NameAndType(20, 21), Method(19, 22), Utf8(b"recordInvocation"), Utf8(b"()V"), NameAndType(24, 25), Method(19, 26), Utf8(b"recordThrow"), Utf8(b"()V"), NameAndType(28, 29), Method(19, 30), Utf8(b"recordAllocation"), Utf8(b"(I)V"), NameAndType(32, 33), Method(19, 34), Utf8(b"recordArray"), Utf8(b"(II)V"), NameAndType(36, 37), Method(19, 38), Utf8(b"checkCatch"), Utf8(b"(Lsandbox/java/lang/Object;)V"), NameAndType(40, 41), Method(19, 42)], &[17, 17, 12], 18),
];

// After no constant.
#[rattlefmt::skip]
const ACCOUNTER: [Entry<'static>; 26] = [
    Utf8(b"djvm/Accounter"), Class(1), Utf8(b"recordJump"), Utf8(b"()V"), NameAndType(3, 4), Method(2, 5), Utf8(b"recordInvocation"), Utf8(b"()V"), NameAndType(7, 8), Method(2, 9), Utf8(b"recordThrow"), Utf8(b"()V"), NameAndType(11, 12), Method(2, 13), Utf8(b"recordAllocation"), Utf8(b"(I)V"), NameAndType(15, 16), Method(2, 17), Utf8(b"recordArray"), Utf8(b"(II)V"), NameAndType(19, 20), Method(2, 21), Utf8(b"checkCatch"), Utf8(b"(Lsandbox/java/lang/Object;)V"), NameAndType(23, 24), Method(2, 25),
];

enum Call {
    Append,
    Rewrite,
}

// A pool from its count on; the index of the accounter's name and the number of constants, or nothing where the pool is full.
#[rattlefmt::skip]
const SIZES: [(Call, Pieces, Option<(u16, usize)>); 6] = [
    (Call::Append, &[(b"\xff\xe5", 1), (b"\x01\x00\x00", 65508)], Some((65509, 65534))),
    (Call::Append, &[(b"\xff\xe6", 1), (b"\x01\x00\x00", 65509)], None),
    (Call::Rewrite, &[(b"\xff\xe5", 1), (b"\x01\x00\x00", 65508)], Some((65509, 65534))),
    (Call::Rewrite, &[(b"\xff\xe6", 1), (b"\x01\x00\x00", 65509)], None),
    (Call::Rewrite, &[(b"\xff\xe4", 1), (b"\x01\x00\x00", 65505), (b"\x01\x00\x01A\x07\xff\xe2", 1)], Some((65509, 65534))),
    (Call::Rewrite, &[(b"\xff\xe5", 1), (b"\x01\x00\x00", 65506), (b"\x01\x00\x01A\x07\xff\xe3", 1)], None),
];

// Whether those are the constants and indexes with these texts.
fn are_rewritten(alloc: Global, pool: &Pool<'_>, texts: &Texts, row: &Row) -> Option<bool>
    requires valid { IsPool pool.now }
    requires described { All (IsDescIndex pool.now) row.now.1.now }
    requires appended { AreAppended pool.now row.now.1.now texts.now }
{
    let rewritten = rewrite_pool(alloc, pool, row.1, texts).ok()?;
    let same = are_entries(alloc, rewritten.pool.as_slice(), row.2)?;
    Some(same && rewritten.descs.as_slice() == row.3 && rewritten.first == row.4)
}

fn is_rewritten(alloc: Global, row: &Row) -> Option<bool> {
    let bytes = bytes_of(alloc, row.0).ok()?;
    if bytes.len() > 999 {
        return None;
    }
    let (pool, _) = read_pool(alloc, &bytes, 0).ok()?;
    if !are_descriptors(&pool, row.1) {
        return None;
    }
    let texts = rename_texts(alloc, &pool, row.1).ok()?;
    are_rewritten(alloc, &pool, &texts, row)
}

// The index of the accounter's name, and the number of constants; or whether the pool is full and stays as it is.
fn appended(pool: &mut Pool<'_>) -> Option<Option<(u16, usize)>>
    requires { IsPool pool.old }
{
    let before = pool.as_slice().len();
    match append_accounter(pool) {
        Ok(first) => Some(Some((first, pool.as_slice().len()))),
        Err(RenameError::Full) if pool.as_slice().len() == before => Some(None),
        Err(_) => None,
    }
}

// The same of a pool with the renamed texts of its classes.
fn rewritten_with(alloc: Global, pool: &Pool<'_>, texts: &Texts) -> Option<Option<(u16, usize)>>
    requires valid { IsPool pool.now }
    requires appended { AreAppended pool.now [] texts.now }
{
    match rewrite_pool(alloc, pool, &[], texts) {
        Ok(rewritten) => Some(Some((rewritten.first, rewritten.pool.as_slice().len()))),
        Err(RenameError::Full) => Some(None),
        Err(_) => None,
    }
}

fn rewritten(alloc: Global, pool: &Pool<'_>) -> Option<Option<(u16, usize)>>
    requires { IsPool pool.now }
{
    let texts = rename_texts(alloc, pool, &[]).ok()?;
    rewritten_with(alloc, pool, &texts)
}

fn is_answered(alloc: Global, row: &(Call, Pieces, Option<(u16, usize)>)) -> Option<bool> {
    let bytes = bytes_of(alloc, row.1).ok()?;
    if bytes.len() > 999999 {
        return None;
    }
    let (mut pool, _) = read_pool(alloc, &bytes, 0).ok()?;
    let answer = match row.0 {
        Call::Append => appended(&mut pool)?,
        Call::Rewrite => rewritten(alloc, &pool)?,
    };
    Some(answer == row.2)
}

fn is_accounter(alloc: Global) -> Option<bool> {
    let (mut pool, _) = read_pool(alloc, b"\x00\x01", 0).ok()?;
    let first = append_accounter(&mut pool).ok()?;
    let same = are_entries(alloc, pool.as_slice(), &ACCOUNTER)?;
    Some(same && first == 1)
}

#[test]
fn each(rt: HostRuntime) {
    for row in &ROWS {
        assert!(rt; is_rewritten(rt.alloc(), row) == Some(true));
    }
}

#[test]
fn accounter(rt: HostRuntime) {
    assert!(rt; is_accounter(rt.alloc()) == Some(true));
}

#[test]
fn sizes(rt: HostRuntime) {
    for row in &SIZES {
        assert!(rt; is_answered(rt.alloc(), row) == Some(true));
    }
}
