use crate::class::{A, READ_CHANGES, READ_FILES};
use crate::code::READ;
use crate::parts::{Part, bytes_of, changed};
use crate::pool_ops::{MIXED, SMALL};
use dj_class::{read_class, read_code};
use dj_pool::{Pool, read_pool};
use dj_write::{write_class, write_code, write_pool};
use std::alloc::Global;

// Whether the file is read, and written as it was.
fn is_written_back(alloc: Global, file: &[u8]) -> bool {
    if file.len() > 9_999 {
        return false;
    }
    match read_class(alloc, file) {
        Ok(view) => match write_class(alloc, &view) {
            Ok(bytes) => bytes.as_slice() == file,
            Err(_) => false,
        },
        Err(_) => false,
    }
}

// The same for the body of a Code attribute.
fn is_code_written_back(alloc: Global, body: &[u8]) -> bool {
    if body.len() > 9_999 {
        return false;
    }
    match read_code(alloc, body) {
        Ok(view) => match write_code(alloc, &view) {
            Ok(bytes) => bytes.as_slice() == body,
            Err(_) => false,
        },
        Err(_) => false,
    }
}

// The same for a pool.
fn is_pool_written_back(alloc: Global, bytes: &[u8]) -> bool {
    if bytes.len() > 9_999 {
        return false;
    }
    match read_pool(alloc, bytes, 0) {
        Ok((pool, _)) => is_written_so(alloc, &pool, bytes),
        Err(_) => false,
    }
}

fn is_written_so(alloc: Global, pool: &Pool<'_>, wanted: &[u8]) -> bool {
    match write_pool(alloc, pool) {
        Ok(bytes) => bytes.as_slice() == wanted,
        Err(_) => false,
    }
}

#[test]
fn written_back(rt: HostRuntime) {
    for (parts, _, _) in &READ_FILES {
        let file = bytes_of(rt.alloc(), parts);
        assert!(rt; matches!(&file, Ok(file) if is_written_back(rt.alloc(), file)));
    }
    for (place, part, _, _) in &READ_CHANGES {
        let file = changed(rt.alloc(), A, *place, part);
        assert!(rt; matches!(&file, Ok(file) if is_written_back(rt.alloc(), file)));
    }
}

#[test]
fn pools_written_back(rt: HostRuntime) {
    for parts in &[SMALL, MIXED] {
        let bytes = bytes_of(rt.alloc(), parts);
        assert!(rt; matches!(&bytes, Ok(bytes) if is_pool_written_back(rt.alloc(), bytes)));
    }
}

#[test]
fn codes_written_back(rt: HostRuntime) {
    for (parts, _) in &READ {
        let body = bytes_of(rt.alloc(), parts);
        assert!(rt; matches!(&body, Ok(body) if is_code_written_back(rt.alloc(), body)));
    }
}

#[test]
fn no_constants(rt: HostRuntime) {
    let wanted = bytes_of(rt.alloc(), &[Part::Count(1)]);
    assert!(rt;
        matches!(&wanted, Ok(wanted) if is_written_so(rt.alloc(), &Pool::new(rt.alloc()), wanted))
    );
}
