//! Full pools and long texts.
ghost use Rattle.std.specs.Prelude.{All};
ghost use Rattle.dj_pool.specs.trusted.Pool.{IsPool};
ghost use Rattle.dj_rename.specs.Refusals.{IsDescIndex, AreAppended};

use crate::pieces::{Pieces, bytes_of};
use crate::pools::are_descriptors;
use dj_pool::{Pool, read_pool};
use dj_rename::{RenameError, Texts, rename_pool, rename_texts};
use std::alloc::Global;

enum Answer {
    Full,
    Long(u16),
    /// The lengths of the appended texts, the number of constants, and the new indexes of the descriptors.
    Sizes(&'static [usize], usize, &'static [u16]),
}

// A pool from its count on, and the indexes of its members' descriptors.
type Row = (Pieces, &'static [u16], Answer);

#[rattlefmt::skip]
const ROWS: [Row; 15] = [
    (&[(b"\xff\xfd", 1), (b"\x01\x00\x00", 65530), (b"\x01\x00\x01A\x07\xff\xfb", 1)], &[], Answer::Sizes(&[9], 65533, &[])),
    (&[(b"\xff\xfe", 1), (b"\x01\x00\x00", 65531), (b"\x01\x00\x01A\x07\xff\xfc", 1)], &[], Answer::Sizes(&[9], 65534, &[])),
    (&[(b"\xff\xff", 1), (b"\x01\x00\x00", 65532), (b"\x01\x00\x01A\x07\xff\xfd", 1)], &[], Answer::Full),
    (&[(b"\xff\xfe", 1), (b"\x01\x00\x00", 65531), (b"\x01\x00\x03LA;\x01\x00\x03LB;", 1)], &[65532], Answer::Sizes(&[11], 65534, &[65534])),
    (&[(b"\xff\xff", 1), (b"\x01\x00\x00", 65532), (b"\x01\x00\x03LA;\x01\x00\x01I", 1)], &[65534], Answer::Sizes(&[], 65534, &[65534])),
    (&[(b"\xff\xff", 1), (b"\x01\x00\x00", 65532), (b"\x01\x00\x03LA;\x01\x00\x01I", 1)], &[65534, 65533], Answer::Full),
    (&[(b"\xff\xfe", 1), (b"\x01\x00\x00", 65531), (b"\x01\x00\x03LA;\x01\x00\x03LB;", 1)], &[65532, 65533, 65532], Answer::Full),
    (&[(b"\xff\xfe", 1), (b"\x01\x00\x00", 65531), (b"\x01\x00\x03LA;\x01\x00\x03LA;", 1)], &[65532, 65533], Answer::Sizes(&[11], 65534, &[65534, 65534])),
    (&[(b"\x00\x03", 1), (b"\x01\xff\xf7", 1), (b"a", 65527), (b"\x07\x00\x01", 1)], &[], Answer::Sizes(&[65535], 3, &[])),
    (&[(b"\x00\x03", 1), (b"\x01\xff\xf8", 1), (b"a", 65528), (b"\x07\x00\x01", 1)], &[], Answer::Long(2)),
    (&[(b"\x00\x03", 1), (b"\x01\xff\xff", 1), (b"a", 65535), (b"\x07\x00\x01", 1)], &[], Answer::Long(2)),
    (&[(b"\x00\x04", 1), (b"\x01\xff\xf8", 1), (b"a", 65528), (b"\x07\x00\x01", 1), (b"\x08\x00\x01", 1)], &[], Answer::Long(2)),
    (&[(b"\x00\x04", 1), (b"\x01\xff\xff", 1), (b"a", 65535), (b"\x08\x00\x01", 1), (b"\x01\x00\x01A", 1)], &[], Answer::Sizes(&[], 3, &[])),
    (&[(b"\x00\x04", 1), (b"\x01\x00\x01A", 1), (b"\x07\x00\x01", 1), (b"\x01\xff\xf8L", 1), (b"a", 65526), (b";", 1)], &[3], Answer::Long(3)),
    (&[(b"\x00\x04", 1), (b"\x01\x00\x01A", 1), (b"\x07\x00\x01", 1), (b"\x01\xff\xf7L", 1), (b"a", 65525), (b";", 1)], &[3], Answer::Sizes(&[9, 65535], 5, &[5])),
];

fn are_lengths(texts: &Texts, wanted: &[usize]) -> bool {
    if texts.count() != wanted.len() {
        return false;
    }
    for place in 0..texts.count() {
        if texts.get(place).len() != wanted[place] {
            return false;
        }
    }
    true
}

// Whether these are the sizes of the pool's texts and of the pool with them.
fn are_right(alloc: Global, pool: &Pool<'_>, texts: &Texts, row: &Row) -> bool
    requires valid { IsPool pool.now }
    requires described { All (IsDescIndex pool.now) row.now.1.now }
    requires appended { AreAppended pool.now row.now.1.now texts.now }
{
    match (&row.2, rename_pool(alloc, pool, row.1, texts)) {
        (Answer::Sizes(lengths, count, descs), Ok(renamed)) => {
            are_lengths(texts, lengths)
                && renamed.pool.as_slice().len() == *count
                && renamed.descs.as_slice() == *descs
        }
        _ => false,
    }
}

fn is_right(alloc: Global, pool: &Pool<'_>, row: &Row) -> bool
    requires { IsPool pool.now }
{
    if !are_descriptors(pool, row.1) {
        return false;
    }
    let texts = match rename_texts(alloc, pool, row.1) {
        Ok(texts) => texts,
        Err(RenameError::Full) => return matches!(row.2, Answer::Full),
        Err(RenameError::Long(index)) => {
            return matches!(row.2, Answer::Long(wanted) if wanted == index);
        }
        Err(RenameError::Memory) => return false,
    };
    are_right(alloc, pool, &texts, row)
}

fn is_answered(alloc: Global, row: &Row) -> bool {
    let Ok(bytes) = bytes_of(alloc, row.0) else {
        return false;
    };
    if bytes.len() > 999999 {
        return false;
    }
    match read_pool(alloc, &bytes, 0) {
        Ok((pool, _)) => is_right(alloc, &pool, row),
        Err(_) => false,
    }
}

#[test]
fn each(rt: HostRuntime) {
    for row in &ROWS {
        assert!(rt; is_answered(rt.alloc(), row));
    }
}
