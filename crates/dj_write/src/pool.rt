ghost use Rattle.std.specs.Prelude.{◌≡◌, ◌+◌, ◌++◌, length, map, IfOk, OnOk};
ghost use Rattle.std.specs.List.{flat_map};
ghost use Rattle.dj_cursor.specs.trusted.Spelling.{u1, u2, u4, u8, s4, s8};
ghost use Rattle.dj_pool.specs.trusted.Pool.{Utf8, constant_bytes, pool_bytes};
ghost use Rattle.dj_pool.specs.Views.{constant_of};

use crate::error::WriteError;
use crate::put::{put_bytes, put_length2, put_s4, put_s8, put_u1, put_u2, put_u4, put_u8};
use dj_names::Bytes;
use dj_pool::{Entry, Pool};
use std::alloc::Global;

// A text: its length and its bytes.
fn put_text(out: &mut Vec<u8>, text: &[u8]) -> Result<(), WriteError>
    ensures { OnOk result (out.new.items ≡ out.old.items ++ constant_bytes (Utf8 text.now)) }
{
    put_u1(out, 1)?;
    put_length2(out, text.len())?;
    put_bytes(out, text)
}

// A tag and a signed number of four bytes.
fn put_int(out: &mut Vec<u8>, tag: u8, n: i32) -> Result<(), WriteError>
    ensures { OnOk result (out.new.items ≡ out.old.items ++ (u1 tag ++ s4 n)) }
{
    put_u1(out, tag)?;
    put_s4(out, n)
}

// A tag and a number of four bytes.
fn put_four(out: &mut Vec<u8>, tag: u8, bits: u32) -> Result<(), WriteError>
    ensures { OnOk result (out.new.items ≡ out.old.items ++ (u1 tag ++ u4 bits)) }
{
    put_u1(out, tag)?;
    put_u4(out, bits)
}

// A tag and a signed number of eight bytes.
fn put_long(out: &mut Vec<u8>, tag: u8, n: i64) -> Result<(), WriteError>
    ensures { OnOk result (out.new.items ≡ out.old.items ++ (u1 tag ++ s8 n)) }
{
    put_u1(out, tag)?;
    put_s8(out, n)
}

// A tag and a number of eight bytes.
fn put_eight(out: &mut Vec<u8>, tag: u8, bits: u64) -> Result<(), WriteError>
    ensures { OnOk result (out.new.items ≡ out.old.items ++ (u1 tag ++ u8 bits)) }
{
    put_u1(out, tag)?;
    put_u8(out, bits)
}

// A tag and an index.
fn put_index(out: &mut Vec<u8>, tag: u8, index: u16) -> Result<(), WriteError>
    ensures { OnOk result (out.new.items ≡ out.old.items ++ (u1 tag ++ u2 index)) }
{
    put_u1(out, tag)?;
    put_u2(out, index)
}

// A tag and two numbers of two bytes.
fn put_pair(out: &mut Vec<u8>, tag: u8, first: u16, second: u16) -> Result<(), WriteError>
    ensures { OnOk result (out.new.items ≡ out.old.items ++ (u1 tag ++ u2 first ++ u2 second)) }
{
    put_u1(out, tag)?;
    put_u2(out, first)?;
    put_u2(out, second)
}

// A handle: its kind and an index.
fn put_handle(out: &mut Vec<u8>, kind: u8, member: u16) -> Result<(), WriteError>
    ensures { OnOk result (out.new.items ≡ out.old.items ++ (u1 15 ++ u1 kind ++ u2 member)) }
{
    put_u1(out, 15)?;
    put_u1(out, kind)?;
    put_u2(out, member)
}

// JVMS table 4.4-B: a tag, and what it announces. The second index of a long or a double has no bytes.
fn put_entry(out: &mut Vec<u8>, entry: &Entry<'_>) -> Result<(), WriteError>
    ensures { OnOk result (out.new.items ≡ out.old.items ++ constant_bytes (constant_of entry.now)) }
{
    match *entry {
        Entry::Utf8(text) => put_text(out, text),
        Entry::Integer(n) => put_int(out, 3, n),
        Entry::Float(bits) => put_four(out, 4, bits),
        Entry::Long(n) => put_long(out, 5, n),
        Entry::Double(bits) => put_eight(out, 6, bits),
        Entry::Class(name) => put_index(out, 7, name),
        Entry::Text(text) => put_index(out, 8, text),
        Entry::Field(class, name_and_type) => put_pair(out, 9, class, name_and_type),
        Entry::Method(class, name_and_type) => put_pair(out, 10, class, name_and_type),
        Entry::InterfaceMethod(class, name_and_type) => put_pair(out, 11, class, name_and_type),
        Entry::NameAndType(name, desc) => put_pair(out, 12, name, desc),
        Entry::Handle(kind, member) => put_handle(out, kind, member),
        Entry::MethodType(desc) => put_index(out, 16, desc),
        Entry::Dynamic(bootstrap, name_and_type) => put_pair(out, 18, bootstrap, name_and_type),
        Entry::Hole => Ok(()),
    }
}

fn put_entries(out: &mut Vec<u8>, entries: &[Entry<'_>]) -> Result<(), WriteError>
    ensures { OnOk result (out.new.items ≡ out.old.items ++ flat_map constant_bytes (map constant_of entries.now)) }
{
    for entry in entries {
        put_entry(out, entry)?;
    }
    Ok(())
}

/// Appends the bytes of a pool of these constants: the count, and each constant.
pub(crate) fn put_pool(out: &mut Vec<u8>, entries: &[Entry<'_>]) -> Result<(), WriteError>
    ensures { OnOk result (out.new.items ≡ out.old.items ++ pool_bytes (map constant_of entries.now)) }
{
    put_length2(out, entries.len() + 1)?;
    put_entries(out, entries)
}

/// The bytes of a pool in a class file, from its count on (JVMS 4.4).
pub fn write_pool(alloc: Global, pool: &Pool<'_>) -> Result<Bytes, WriteError>
    ensures { IfOk result (λ bytes. bytes ≡ pool_bytes pool.now) }
{
    let mut out = Vec::new(alloc);
    put_pool(&mut out, pool.as_slice())?;
    Ok(Bytes::from(out))
}
