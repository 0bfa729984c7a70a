ghost use Rattle.std.specs.Prelude.{◌≡◌, ◌++◌, length, map, IfOk, OnOk};
ghost use Rattle.std.specs.List.{flat_map};
ghost use Rattle.dj_cursor.specs.trusted.Spelling.{u2, u4, table_bytes};
ghost use Rattle.dj_class.specs.trusted.ClassFile.{attribute_bytes, member_bytes, header_bytes, class_bytes};
ghost use Rattle.dj_class.specs.Parts.{attribute_of};
ghost use Rattle.dj_class.specs.Members.{member_of};
ghost use Rattle.dj_class.specs.Views.{class_of};
ghost use Rattle.dj_pool.specs.Views.{constant_of};
ghost use Rattle.dj_write.specs.Parts.{with_pool};

use crate::error::WriteError;
use crate::pool::put_pool;
use crate::put::{put_bytes, put_length2, put_length4, put_u2, put_u4};
use dj_class::{Attribute, ClassView, MemberView};
use dj_names::Bytes;
use dj_pool::Entry;
use std::alloc::Global;

// The magic number of class files (JVMS 4.1).
const MAGIC: u32 = 0xcafe_babe;

fn put_header(out: &mut Vec<u8>, minor: u16, major: u16) -> Result<(), WriteError>
    ensures { OnOk result (out.new.items ≡ out.old.items ++ header_bytes minor major) }
{
    put_u4(out, MAGIC)?;
    put_u2(out, minor)?;
    put_u2(out, major)
}

// The index of a name, a length and the body (JVMS 4.7).
fn put_attribute(out: &mut Vec<u8>, attribute: &Attribute<'_>) -> Result<(), WriteError>
    ensures { OnOk result (out.new.items ≡ out.old.items ++ attribute_bytes (attribute_of attribute.now)) }
{
    put_u2(out, attribute.name)?;
    put_length4(out, attribute.body.len())?;
    put_bytes(out, attribute.body)
}

fn put_attribute_list(out: &mut Vec<u8>, attributes: &[Attribute<'_>]) -> Result<(), WriteError>
    ensures { OnOk result (out.new.items ≡ out.old.items ++ flat_map attribute_bytes (map attribute_of attributes.now)) }
{
    for attribute in attributes {
        put_attribute(out, attribute)?;
    }
    Ok(())
}

/// Appends a count of attributes, and these.
pub(crate) fn put_attributes(
    out: &mut Vec<u8>,
    attributes: &[Attribute<'_>],
) -> Result<(), WriteError>
    ensures { OnOk result (out.new.items ≡ out.old.items ++ table_bytes attribute_bytes (map attribute_of attributes.now)) }
{
    put_length2(out, attributes.len())?;
    put_attribute_list(out, attributes)
}

// Flags, the indexes of a name and a descriptor, and the attributes (JVMS 4.5 and 4.6).
fn put_member(out: &mut Vec<u8>, member: &MemberView<'_>) -> Result<(), WriteError>
    ensures { OnOk result (out.new.items ≡ out.old.items ++ member_bytes (member_of member.now)) }
{
    put_u2(out, member.flags)?;
    put_u2(out, member.name)?;
    put_u2(out, member.desc)?;
    put_attributes(out, member.attributes.as_slice())
}

fn put_member_list(out: &mut Vec<u8>, members: &[MemberView<'_>]) -> Result<(), WriteError>
    ensures { OnOk result (out.new.items ≡ out.old.items ++ flat_map member_bytes (map member_of members.now)) }
{
    for member in members {
        put_member(out, member)?;
    }
    Ok(())
}

fn put_members(out: &mut Vec<u8>, members: &[MemberView<'_>]) -> Result<(), WriteError>
    ensures { OnOk result (out.new.items ≡ out.old.items ++ table_bytes member_bytes (map member_of members.now)) }
{
    put_length2(out, members.len())?;
    put_member_list(out, members)
}

fn put_index_list(out: &mut Vec<u8>, indexes: &[u16]) -> Result<(), WriteError>
    ensures { OnOk result (out.new.items ≡ out.old.items ++ flat_map u2 indexes.now) }
{
    for index in indexes {
        put_u2(out, *index)?;
    }
    Ok(())
}

fn put_indexes(out: &mut Vec<u8>, indexes: &[u16]) -> Result<(), WriteError>
    ensures { OnOk result (out.new.items ≡ out.old.items ++ table_bytes u2 indexes.now) }
{
    put_length2(out, indexes.len())?;
    put_index_list(out, indexes)
}

// The flags, the class, its superclass and its interfaces.
fn put_heading(out: &mut Vec<u8>, view: &ClassView<'_>) -> Result<(), WriteError>
    ensures { OnOk result (out.new.items ≡ out.old.items ++ (u2 view.now.flags ++ u2 view.now.this_class ++ u2 view.now.super_class ++ table_bytes u2 view.now.interfaces)) }
{
    put_u2(out, view.flags)?;
    put_u2(out, view.this_class)?;
    put_u2(out, view.super_class)?;
    put_indexes(out, view.interfaces.as_slice())
}

fn put_class(
    out: &mut Vec<u8>,
    entries: &[Entry<'_>],
    view: &ClassView<'_>,
) -> Result<(), WriteError>
    ensures { OnOk result (out.new.items ≡ out.old.items ++ class_bytes (with_pool (map constant_of entries.now) (class_of view.now))) }
{
    put_header(out, view.minor, view.major)?;
    put_pool(out, entries)?;
    put_heading(out, view)?;
    put_members(out, view.fields.as_slice())?;
    put_members(out, view.methods.as_slice())?;
    put_attributes(out, view.attributes.as_slice())
}

/// The bytes of a class file (JVMS 4.1 to 4.7). Where the view was read, they are those that it was read from.
pub fn write_class(alloc: Global, view: &ClassView<'_>) -> Result<Bytes, WriteError>
    ensures { IfOk result (λ bytes. bytes ≡ class_bytes (class_of view.now)) }
{
    let mut out = Vec::new(alloc);
    put_class(&mut out, view.pool.as_slice(), view)?;
    Ok(Bytes::from(out))
}

/// The bytes of a class file (JVMS 4.1 to 4.7) with these constants, each at its index less one, in place of the view's.
pub fn write_class_with(
    alloc: Global,
    entries: &[Entry<'_>],
    view: &ClassView<'_>,
) -> Result<Bytes, WriteError>
    ensures { IfOk result (λ bytes. bytes ≡ class_bytes (with_pool (map constant_of entries.now) (class_of view.now))) }
{
    let mut out = Vec::new(alloc);
    put_class(&mut out, entries, view)?;
    Ok(Bytes::from(out))
}
