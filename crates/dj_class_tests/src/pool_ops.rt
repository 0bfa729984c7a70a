ghost use Rattle.std.specs.Prelude.{◌≡◌, IsTrue};
ghost use Rattle.dj_names.specs.trusted.Names.{IsUnqualifiedName, IsMethodName};
ghost use Rattle.dj_names.specs.trusted.Descriptors.{IsFieldDescriptor, IsMethodDescriptor};
ghost use Rattle.dj_pool.specs.trusted.Pool.{IsClassText, NamesText, NamesAnyClass, NamesMember, NamesDesc, AreNames, IsWhole, IsLinked, IsConstant};
ghost use Rattle.dj_pool.specs.Views.{constant_of};
ghost use Rattle.dj_pool.specs.Answers.{MayHaveText};

use crate::parts::Part::*;
use crate::parts::{Part, bytes_of};
use dj_names::{
    is_array_descriptor, is_class_name, is_field_descriptor, is_method_descriptor, is_method_name,
    is_modified_utf8, is_unqualified_name,
};
use dj_pool::{Entry, Pool, read_pool};
use dj_write::write_pool;
use std::alloc::{AllocError, Global};

// Of which pool a row asks: the first, or the copy that was made last.
pub enum AskedPool {
    Pool,
    Copy,
}

pub enum Op {
    Append(Entry<'static>),
    // This many times the int 0.
    Fill(u16),
    Redirect(u16, u16),
    Copy,
    Get(u16),
    ClassName(u16),
    NameAndType(u16),
    Member(u16),
    Len,
    // Whether these are the pool in a class file.
    Write(&'static [Part]),
}

/// The constants of the class A.
#[rattlefmt::skip]
pub const SMALL: &[Part] = &[
    Count(8), Utf8(b"A"), Class(1), Utf8(b"java/lang/Object"), Class(3), Utf8(b"verify"),
    Utf8(b"([B)[B"), Utf8(b"Code"),
];

/// Constants of each kind but two.
#[rattlefmt::skip]
pub const MIXED: &[Part] = &[
    Count(32), Utf8(b"a/B"), Class(1), Utf8(b"x"), Utf8(b"[I"), NameAndType(3, 4), Field(2, 5),
    Utf8(b"[J"), Class(7), Utf8(b"m"), Utf8(b"(II)V"), NameAndType(9, 10), Method(8, 11),
    Utf8(b"I"), Class(13), Utf8(b"n"), Utf8(b"()I"), NameAndType(15, 16), InterfaceMethod(14, 17),
    Long(9), Double(0), Handle(6, 6), Utf8(b"q"), Text(24), Utf8(b"()V"), MethodType(26),
    Utf8(b"d"), Utf8(b"()J"), NameAndType(28, 29), Dynamic(3, 30),
];

/// No pool: the row begins with a new one.
pub const NEW: &[Part] = &[];

// The parts of a pool, what is asked of it, and the answers.
pub type Row = (&'static [Part], &'static [(AskedPool, Op)], &'static str);

fn names_class_text(pool: &Pool<'_>, index: u16) -> bool
    ensures { IsTrue result → NamesText IsClassText pool.now index }
{
    match pool.text(index) {
        Some(text) => is_class_name(text) || is_array_descriptor(text),
        None => false,
    }
}

fn names_text(pool: &Pool<'_>, index: u16) -> bool
    ensures { IsTrue result → NamesText (λ _. Unit {0}) pool.now index }
{
    pool.text(index).is_some()
}

fn names_unqualified(pool: &Pool<'_>, index: u16) -> bool
    ensures { IsTrue result → NamesText IsUnqualifiedName pool.now index }
{
    match pool.text(index) {
        Some(text) => is_unqualified_name(text),
        None => false,
    }
}

fn names_method(pool: &Pool<'_>, index: u16) -> bool
    ensures { IsTrue result → NamesText IsMethodName pool.now index }
{
    match pool.text(index) {
        Some(text) => is_method_name(text),
        None => false,
    }
}

fn names_field_descriptor(pool: &Pool<'_>, index: u16) -> bool
    ensures { IsTrue result → NamesText IsFieldDescriptor pool.now index }
{
    match pool.text(index) {
        Some(text) => is_field_descriptor(text),
        None => false,
    }
}

fn names_method_descriptor(pool: &Pool<'_>, index: u16) -> bool
    ensures { IsTrue result → NamesText IsMethodDescriptor pool.now index }
{
    match pool.text(index) {
        Some(text) => is_method_descriptor(text),
        None => false,
    }
}

fn names_any_class(pool: &Pool<'_>, index: u16) -> bool
    ensures { IsTrue result → NamesAnyClass pool.now index }
{
    match pool.get(index) {
        Some(Entry::Class(_)) => true,
        _ => false,
    }
}

fn names_member(pool: &Pool<'_>, index: u16) -> bool
    ensures { IsTrue result → NamesMember pool.now index }
{
    match pool.get(index) {
        Some(Entry::Field(_, _)) => true,
        Some(Entry::Method(_, _)) => true,
        Some(Entry::InterfaceMethod(_, _)) => true,
        _ => false,
    }
}

fn names_field_type(pool: &Pool<'_>, index: u16) -> bool
    ensures { IsTrue result → NamesDesc IsFieldDescriptor pool.now index }
{
    match pool.get(index) {
        Some(Entry::NameAndType(_, desc)) => names_field_descriptor(pool, desc),
        _ => false,
    }
}

fn names_method_type(pool: &Pool<'_>, index: u16) -> bool
    ensures { IsTrue result → NamesDesc IsMethodDescriptor pool.now index }
{
    match pool.get(index) {
        Some(Entry::NameAndType(_, desc)) => names_method_descriptor(pool, desc),
        _ => false,
    }
}

fn are_names(pool: &Pool<'_>, name: u16, desc: u16) -> bool
    ensures { IsTrue result → AreNames pool.now name desc }
{
    if names_unqualified(pool, name) && names_field_descriptor(pool, desc) {
        return true;
    }
    names_method(pool, name) && names_method_descriptor(pool, desc)
}

// Whether the entry is valid in the pool, as to append one asks for.
fn is_linked(pool: &Pool<'_>, entry: Entry<'_>) -> bool
    ensures { IsTrue result → IsLinked pool.now (constant_of entry.entry) }
{
    match entry {
        Entry::Class(name) => names_class_text(pool, name),
        Entry::Text(text) => names_text(pool, text),
        Entry::Field(class, field) => names_any_class(pool, class) && names_field_type(pool, field),
        Entry::Method(class, method) => names_any_class(pool, class)
            && names_method_type(pool, method),
        Entry::InterfaceMethod(class, method) => names_any_class(pool, class)
            && names_method_type(pool, method),
        Entry::NameAndType(name, desc) => are_names(pool, name, desc),
        Entry::Handle(_, member) => names_member(pool, member),
        Entry::MethodType(desc) => names_method_descriptor(pool, desc),
        Entry::Dynamic(_, method) => names_method_type(pool, method),
        _ => true,
    }
}

fn is_whole(entry: Entry<'_>) -> bool
    ensures { IsTrue result → IsWhole (constant_of entry.entry) }
{
    match entry {
        Entry::Utf8(text) => text.len() < 65536 && is_modified_utf8(text),
        Entry::Hole => false,
        _ => true,
    }
}

fn may_have_text(pool: &Pool<'_>, index: u16, text: u16) -> bool
    ensures { IsTrue result → MayHaveText pool.now index text }
{
    match pool.get(index) {
        Some(Entry::Class(_)) => names_class_text(pool, text),
        Some(Entry::NameAndType(name, _)) => are_names(pool, name, text),
        Some(Entry::MethodType(_)) => names_method_descriptor(pool, text),
        _ => false,
    }
}

fn appended<'a>(
    alloc: Global,
    pool: &mut Pool<'a>,
    entry: Entry<'a>,
) -> Result<String, AllocError> {
    if is_whole(entry) && is_linked(pool, entry) {
        let answer = pool.append(entry);
        format!(in alloc; "{answer:?}; ")
    } else {
        format!(in alloc; "not valid; ")
    }
}

fn redirected(
    alloc: Global,
    pool: &mut Pool<'_>,
    index: u16,
    text: u16,
) -> Result<String, AllocError> {
    if may_have_text(pool, index, text) {
        let answer = pool.redirect(index, text);
        format!(in alloc; "{answer:?}; ")
    } else {
        format!(in alloc; "not valid; ")
    }
}

fn filled(alloc: Global, pool: &mut Pool<'_>, count: u16) -> Result<String, AllocError> {
    let mut last = 0;
    for _ in 0..count {
        match pool.append(Entry::Integer(0)) {
            Ok(index) => last = index,
            Err(_) => last = 0,
        }
    }
    format!(in alloc; "{last}; ")
}

fn written(alloc: Global, pool: &Pool<'_>, wanted: &[Part]) -> Result<String, AllocError> {
    let wanted = bytes_of(alloc, wanted)?;
    match write_pool(alloc, pool) {
        Ok(bytes) => format!(in alloc; "{}; ", bytes.as_slice() == wanted.as_slice()),
        Err(error) => format!(in alloc; "{error:?}; "),
    }
}

fn answer(alloc: Global, pool: &mut Pool<'_>, op: &Op) -> Result<String, AllocError> {
    match op {
        Op::Append(entry) => appended(alloc, pool, *entry),
        Op::Fill(count) => filled(alloc, pool, *count),
        Op::Redirect(index, text) => redirected(alloc, pool, *index, *text),
        Op::Copy => format!(in alloc; "copied; "),
        Op::Get(index) => format!(in alloc; "{:?}; ", pool.get(*index)),
        Op::ClassName(index) => format!(in alloc; "{:?}; ", pool.class_name(*index)),
        Op::NameAndType(index) => format!(in alloc; "{:?}; ", pool.name_and_type(*index)),
        Op::Member(index) => format!(in alloc; "{:?}; ", pool.member(*index)),
        Op::Len => format!(in alloc; "{}; ", pool.as_slice().len()),
        Op::Write(wanted) => written(alloc, pool, wanted),
    }
}

fn begin(alloc: Global, bytes: &[u8]) -> Option<Pool<'_>> {
    if bytes.is_empty() {
        return Some(Pool::new(alloc));
    }
    if bytes.len() > 999 {
        return None;
    }
    match read_pool(alloc, bytes, 0) {
        Ok((pool, _)) => Some(pool),
        Err(_) => None,
    }
}

// The answers to all that is asked.
fn answers(alloc: Global, parts: &[Part], ops: &[(AskedPool, Op)]) -> Option<String> {
    let bytes = bytes_of(alloc, parts).ok()?;
    let mut pool = begin(alloc, &bytes)?;
    let mut copied = Pool::new(alloc);
    let mut all = String::new(alloc);
    for (of, op) in ops {
        if matches!(op, Op::Copy) {
            copied = pool.copy(alloc).ok()?;
        }
        let one = match of {
            AskedPool::Pool => answer(alloc, &mut pool, op),
            AskedPool::Copy => answer(alloc, &mut copied, op),
        };
        all.push_str(one.ok()?.as_str()).ok()?;
    }
    Some(all)
}

pub fn is_answered(alloc: Global, row: &Row) -> bool {
    match answers(alloc, row.0, row.1) {
        Some(all) => all.as_str() == row.2,
        None => false,
    }
}
