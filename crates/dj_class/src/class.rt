ghost use Rattle.std.specs.Prelude.{◌≡◌, ◌+◌, ◌^◌, ◌<◌, ◌≤◌, ◌==◌, ◌||◌, ℕ, length, map};
ghost use Rattle.dj_cursor.specs.Steps.{Gives};
ghost use Rattle.dj_cursor.specs.Reading.{many_at, table_at};
ghost use Rattle.dj_cursor.specs.Views.{cursor_of};
ghost use Rattle.dj_names.specs.Tests.{unqualified_name_test, method_name_test, field_descriptor_test, method_descriptor_test};
ghost use Rattle.dj_class.specs.Parts.{attribute_of};
ghost use Rattle.dj_class.specs.Members.{member_of};
ghost use Rattle.dj_class.specs.Views.{class_of, ReadsClass};
ghost use Rattle.dj_pool.specs.Tests.{text_passes, is_class};
ghost use Rattle.dj_class.specs.Reading.{index_at, is_super, attribute_at, member_at, magic_at, header_at, heading_at, class_file_of};
ghost use Rattle.dj_class.specs.Memory.{is_memory};
ghost use Rattle.dj_class.specs.Tests.{test_of, heading_of};
ghost use Rattle.dj_class.specs.declared.class.ClassError.TheVariants as class_errors;

use crate::lists::{Attributes, Members};
use dj_cursor::{Cursor, Cut};
use dj_pool::{Indexes, JudgedPool, Pool, PoolError, read_judged_pool};
use std::alloc::{AllocError, AllocFailed, Global};
use thiserror::Error;

/// Why a class file was not read. A place is an offset in the file.
#[derive(Clone, Copy, Debug, PartialEq, Eq, Error)]
pub enum ClassError {
    /// The file does not begin with CA FE BA BE.
    #[error("the file does not begin with CA FE BA BE")]
    Magic,
    /// The item at this place does not fit into the file.
    #[error("the item at {0} does not fit into the file")]
    Cut(u32),
    /// The constant pool was not read.
    #[error("the constant pool was not read: {0}")]
    Pool(PoolError),
    /// The index at this place doesn't name what its place requires, or the code's length at this place is none that code may have.
    #[error("the index at {0} names no constant that its place asks for, or the length at {0} is none that code may have")]
    Index(u32),
    /// There are more bytes after the last item, from this place on.
    #[error("at {0} begin bytes after the last item")]
    Trailing(u32),
    /// There was no memory.
    #[error("out of memory")]
    Memory,
}

impl From<Cut> for ClassError {
    ghost from_gives = { λ cut e. e ≡ class_errors.Cut cut.0 };

    fn from(cut: Cut) -> ClassError {
        ClassError::Cut(cut.0)
    }
}

impl From<PoolError> for ClassError {
    ghost from_gives = { λ error e. e ≡ class_errors.Pool error };

    fn from(error: PoolError) -> ClassError {
        ClassError::Pool(error)
    }
}

impl From<AllocError> for ClassError {
    ghost from_gives = { λ _ e. e ≡ class_errors.Memory };

    fn from(_e: AllocError) -> ClassError {
        ClassError::Memory
    }
}

impl<T: Drop> From<AllocFailed<T>> for ClassError {
    ghost from_gives = { λ _ e. e ≡ class_errors.Memory };

    fn from(_e: AllocFailed<T>) -> ClassError {
        ClassError::Memory
    }
}

/// An attribute (JVMS 4.7), whose body is a part of the file.
#[derive(Clone, Copy, Debug)]
pub struct Attribute<'a> {
    /// The index of the name.
    pub name: u16,
    pub body: &'a [u8],
}

/// A field or a method (JVMS 4.5 and 4.6), by the indexes of its name and descriptor.
#[derive(Debug, Drop)]
pub struct MemberView<'a> {
    pub flags: u16,
    pub name: u16,
    pub desc: u16,
    pub attributes: Attributes<'a>,
}

/// A class file (JVMS 4.1), whose texts and bodies are parts of the file.
#[derive(Debug, Drop)]
pub struct ClassView<'a> {
    pub minor: u16,
    pub major: u16,
    pub pool: Pool<'a>,
    pub flags: u16,
    /// The index of the class.
    pub this_class: u16,
    /// The index of the superclass, or 0.
    pub super_class: u16,
    pub interfaces: Indexes,
    pub fields: Members<'a>,
    pub methods: Members<'a>,
    pub attributes: Attributes<'a>,
}

// What a text has to be.
#[derive(Clone, Copy, Debug)]
enum TextTest {
    Any,
    FieldName,
    MethodName,
    FieldDescriptor,
    MethodDescriptor,
}

// What comes between the pool and the fields.
#[derive(Debug, Drop)]
struct Opening {
    flags: u16,
    this_class: u16,
    super_class: u16,
    interfaces: Indexes,
}

fn text_passes(test: TextTest, pool: &JudgedPool<'_>, index: u16) -> bool
    ensures { result ≡ text_passes (test_of test) pool.now index }
{
    match test {
        TextTest::Any => pool.names_text(index),
        TextTest::FieldName => pool.names_unqualified(index),
        TextTest::MethodName => pool.names_method(index),
        TextTest::FieldDescriptor => pool.names_field_descriptor(index),
        TextTest::MethodDescriptor => pool.names_method_descriptor(index),
    }
}

#[tactic(auto, unfolding(crate::specs::Reading::index_at))]
fn read_text<'a>(
    test: TextTest,
    pool: &JudgedPool<'_>,
    cursor: Cursor<'a>,
) -> Result<(u16, Cursor<'a>), ClassError>
    ensures { Gives is_memory (λ x. (x.0, cursor_of x.1)) result
        (index_at (text_passes (test_of test) pool.now) (cursor_of cursor.entry)) }
{
    let (index, after) = cursor.u16_at()?;
    if !text_passes(test, pool, index) {
        return Err(ClassError::Index(cursor.place));
    }
    Ok((index, after))
}

#[tactic(auto, unfolding(crate::specs::Reading::index_at))]
fn read_class_index<'a>(
    pool: &JudgedPool<'_>,
    cursor: Cursor<'a>,
) -> Result<(u16, Cursor<'a>), ClassError>
    ensures { Gives is_memory (λ x. (x.0, cursor_of x.1)) result
        (index_at (is_class pool.now) (cursor_of cursor.entry)) }
{
    let (index, after) = cursor.u16_at()?;
    if !pool.names_class(index) {
        return Err(ClassError::Index(cursor.place));
    }
    Ok((index, after))
}

#[tactic(auto, unfolding(crate::specs::Reading::index_at))]
fn read_super_class<'a>(
    pool: &JudgedPool<'_>,
    cursor: Cursor<'a>,
) -> Result<(u16, Cursor<'a>), ClassError>
    ensures { Gives is_memory (λ x. (x.0, cursor_of x.1)) result
        (index_at (is_super pool.now) (cursor_of cursor.entry)) }
{
    let (index, after) = cursor.u16_at()?;
    if index != 0 && !pool.names_class(index) {
        return Err(ClassError::Index(cursor.place));
    }
    Ok((index, after))
}

#[tactic(auto, unfolding(crate::specs::Reading::attribute_at))]
fn read_attribute<'a>(
    pool: &JudgedPool<'_>,
    cursor: Cursor<'a>,
) -> Result<(Attribute<'a>, Cursor<'a>), ClassError>
    ensures { Gives is_memory (λ x. (attribute_of x.0, cursor_of x.1)) result
        (attribute_at pool.now (cursor_of cursor.entry)) }
{
    let (name, after) = read_text(TextTest::Any, pool, cursor)?;
    let (len, after) = after.u32_at()?;
    let (body, after) = after.bytes_at(len)?;
    Ok((Attribute { name, body }, after))
}

// As many parts as the count says, but at most as many as the bytes that are left can hold, where each part has at least this many bytes.
pub(crate) fn room(count: u16, cursor: Cursor<'_>, least: usize) -> usize
    requires { 0 < least }
    ensures { result ≤ count }
{
    (count as usize).min(cursor.rest.len() / least)
}

fn read_attribute_list<'a>(
    alloc: Global,
    pool: &JudgedPool<'_>,
    count: u16,
    cursor: Cursor<'a>,
) -> Result<(Vec<Attribute<'a>>, Cursor<'a>), ClassError>
    ensures { Gives is_memory (λ x. (map attribute_of x.0.items, cursor_of x.1)) result
        (many_at (attribute_at pool.now) count (cursor_of cursor.entry)) }
{
    let mut attributes = Vec::with_capacity(alloc, room(count, cursor, 6))?;
    let mut after = cursor;
    for i in 0..count {
        let (attribute, next) = read_attribute(pool, after)?;
        attributes.push(attribute)?;
        after = next;
    }
    Ok((attributes, after))
}

#[tactic(auto, unfolding(dj_cursor::specs::Reading::table_at))]
fn read_attributes<'a>(
    alloc: Global,
    pool: &JudgedPool<'_>,
    cursor: Cursor<'a>,
) -> Result<(Attributes<'a>, Cursor<'a>), ClassError>
    ensures { Gives is_memory (λ x. (x.0, cursor_of x.1)) result
        (table_at class_errors.Cut (attribute_at pool.now) (cursor_of cursor.entry)) }
{
    let (count, after) = cursor.u16_at()?;
    let (attributes, after) = read_attribute_list(alloc, pool, count, after)?;
    Ok((Attributes::from_vec(attributes), after))
}

#[tactic(auto, unfolding(crate::specs::Reading::member_at))]
fn read_member<'a>(
    alloc: Global,
    name_test: TextTest,
    desc_test: TextTest,
    pool: &JudgedPool<'_>,
    cursor: Cursor<'a>,
) -> Result<(MemberView<'a>, Cursor<'a>), ClassError>
    ensures { Gives is_memory (λ x. (member_of x.0, cursor_of x.1)) result
        (member_at (test_of name_test) (test_of desc_test) pool.now (cursor_of cursor.entry)) }
{
    let (flags, after) = cursor.u16_at()?;
    let (name, after) = read_text(name_test, pool, after)?;
    let (desc, after) = read_text(desc_test, pool, after)?;
    let (attributes, after) = read_attributes(alloc, pool, after)?;
    Ok((
        MemberView {
            flags,
            name,
            desc,
            attributes,
        },
        after,
    ))
}

fn read_member_list<'a>(
    alloc: Global,
    name_test: TextTest,
    desc_test: TextTest,
    pool: &JudgedPool<'_>,
    count: u16,
    cursor: Cursor<'a>,
) -> Result<(Vec<MemberView<'a>>, Cursor<'a>), ClassError>
    ensures { Gives is_memory (λ x. (map member_of x.0.items, cursor_of x.1)) result
        (many_at (member_at (test_of name_test) (test_of desc_test) pool.now) count (cursor_of cursor.entry)) }
{
    let mut members = Vec::with_capacity(alloc, room(count, cursor, 8))?;
    let mut after = cursor;
    for i in 0..count {
        let (member, next) = read_member(alloc, name_test, desc_test, pool, after)?;
        members.push(member)?;
        after = next;
    }
    Ok((members, after))
}

#[tactic(auto, unfolding(dj_cursor::specs::Reading::table_at))]
fn read_members<'a>(
    alloc: Global,
    name_test: TextTest,
    desc_test: TextTest,
    pool: &JudgedPool<'_>,
    cursor: Cursor<'a>,
) -> Result<(Members<'a>, Cursor<'a>), ClassError>
    ensures { Gives is_memory (λ x. (x.0, cursor_of x.1)) result
        (table_at class_errors.Cut (member_at (test_of name_test) (test_of desc_test) pool.now) (cursor_of cursor.entry)) }
{
    let (count, after) = cursor.u16_at()?;
    let (members, after) = read_member_list(alloc, name_test, desc_test, pool, count, after)?;
    Ok((Members::from_vec(members), after))
}

fn read_interface_list<'a>(
    alloc: Global,
    pool: &JudgedPool<'_>,
    count: u16,
    cursor: Cursor<'a>,
) -> Result<(Vec<u16>, Cursor<'a>), ClassError>
    ensures { Gives is_memory (λ x. (x.0.items, cursor_of x.1)) result
        (many_at (index_at (is_class pool.now)) count (cursor_of cursor.entry)) }
{
    let mut interfaces = Vec::with_capacity(alloc, room(count, cursor, 2))?;
    let mut after = cursor;
    for i in 0..count {
        let (index, next) = read_class_index(pool, after)?;
        interfaces.push(index)?;
        after = next;
    }
    Ok((interfaces, after))
}

#[tactic(auto, unfolding(dj_cursor::specs::Reading::table_at))]
fn read_interfaces<'a>(
    alloc: Global,
    pool: &JudgedPool<'_>,
    cursor: Cursor<'a>,
) -> Result<(Indexes, Cursor<'a>), ClassError>
    ensures { Gives is_memory (λ x. (x.0, cursor_of x.1)) result
        (table_at class_errors.Cut (index_at (is_class pool.now)) (cursor_of cursor.entry)) }
{
    let (count, after) = cursor.u16_at()?;
    let (interfaces, after) = read_interface_list(alloc, pool, count, after)?;
    Ok((Indexes::from_vec(interfaces), after))
}

// The magic number of class files (JVMS 4.1).
const MAGIC: u32 = 0xcafe_babe;

#[tactic(auto, unfolding(crate::specs::Reading::magic_at))]
fn read_magic<'a>(cursor: Cursor<'a>) -> Result<(u32, Cursor<'a>), ClassError>
    ensures { Gives is_memory (λ x. (x.0, cursor_of x.1)) result (magic_at (cursor_of cursor.entry)) }
{
    let (magic, after) = cursor.u32_at()?;
    if magic != MAGIC {
        return Err(ClassError::Magic);
    }
    Ok((magic, after))
}

#[tactic(auto, unfolding(crate::specs::Reading::header_at))]
fn read_header<'a>(cursor: Cursor<'a>) -> Result<((u16, u16), Cursor<'a>), ClassError>
    ensures { Gives is_memory (λ x. ((x.0.0, x.0.1), cursor_of x.1)) result
        (header_at (cursor_of cursor.entry)) }
{
    let (_, after) = read_magic(cursor)?;
    let (minor, after) = after.u16_at()?;
    let (major, after) = after.u16_at()?;
    Ok(((minor, major), after))
}

#[tactic(auto, unfolding(crate::specs::Reading::heading_at))]
fn read_opening<'a>(
    alloc: Global,
    pool: &JudgedPool<'_>,
    cursor: Cursor<'a>,
) -> Result<(Opening, Cursor<'a>), ClassError>
    ensures { Gives is_memory (λ x. (heading_of x.0, cursor_of x.1)) result
        (heading_at pool.now (cursor_of cursor.entry)) }
{
    let (flags, after) = cursor.u16_at()?;
    let (this_class, after) = read_class_index(pool, after)?;
    let (super_class, after) = read_super_class(pool, after)?;
    let (interfaces, after) = read_interfaces(alloc, pool, after)?;
    Ok((
        Opening {
            flags,
            this_class,
            super_class,
            interfaces,
        },
        after,
    ))
}

#[tactic(auto, using(dj_cursor::proofs::Steps::lifted_fails), unfolding(crate::specs::Reading::class_file_of))]
fn read_all<'a>(alloc: Global, file: &'a [u8]) -> Result<ClassView<'a>, ClassError>
    requires { length file.now < 2 ^ 32 }
    ensures { Gives is_memory class_of result (class_file_of file.now) }
{
    let start = Cursor::start(file);
    let (versions, after) = read_header(start)?;
    let (pool, after) = read_judged_pool(alloc, after)?;
    let (opening, after) = read_opening(alloc, &pool, after)?;
    let (fields, after) = read_members(
        alloc,
        TextTest::FieldName,
        TextTest::FieldDescriptor,
        &pool,
        after,
    )?;
    let (methods, after) = read_members(
        alloc,
        TextTest::MethodName,
        TextTest::MethodDescriptor,
        &pool,
        after,
    )?;
    let (attributes, after) = read_attributes(alloc, &pool, after)?;
    if !after.is_at_end() {
        return Err(ClassError::Trailing(after.place));
    }
    Ok(ClassView {
        minor: versions.0,
        major: versions.1,
        pool: pool.into_pool(),
        flags: opening.flags,
        this_class: opening.this_class,
        super_class: opening.super_class,
        interfaces: opening.interfaces,
        fields,
        methods,
        attributes,
    })
}

/// The class file that the bytes are, all of them (JVMS 4.1 to 4.7). What it shows of texts and bodies is borrowed from the bytes.
///
/// Each error but want of memory names the first item, in the order of reading, that is cut, that its place does not allow, or that
/// follows the last item. An index is faulty where the pool has no such constant: the class and the interfaces, and the superclass
/// where it is not 0, are classes that are no arrays; names are unqualified, those of methods without `<` and `>` but for `<init>` and
/// `<clinit>`; descriptors are of their kind; names of attributes are texts.
pub fn read_class<'a>(alloc: Global, file: &'a [u8]) -> Result<ClassView<'a>, ClassError>
    requires { length file.now < 2 ^ 32 }
    ensures { ReadsClass file.now result }
{
    read_all(alloc, file)
}
