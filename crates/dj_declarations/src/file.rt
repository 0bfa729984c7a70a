//! The members of a class file.
ghost use Rattle.std.specs.Prelude.{◌≡◌, ◌+◌, ◌<◌, ◌^◌, Some, None, IfOk, OnOk, get_or, length, map};
ghost use Rattle.dj_pool.specs.trusted.Pool.{text_at};
ghost use Rattle.dj_class.specs.trusted.ClassFile.{IsValid};
ghost use Rattle.dj_class.specs.Members.{member_of};
ghost use Rattle.dj_class.specs.Views.{class_of};
ghost use Rattle.dj_declarations.specs.trusted.Files.{declared_method, declared_field};
ghost use Rattle.dj_declarations.specs.MemberRows.{AreNumbered, IsNamed, AreNamed, kept_body, member_row_of, method_row_of, field_row_of};
ghost use Rattle.dj_declarations.specs.Tables.{AreMembers};

use crate::error::DeclareError;
use crate::members::{MemberBody, MemberRow, MemberTable};
use crate::tables::ClassMembers;
use crate::texts::TextTable;
use dj_class::{AccessFlags, ClassView, MemberView};
use dj_pool::Pool;
use std::alloc::Global;

// A text that names members, and its index.
type NamedText<'a> = (&'a [u8], u16);

// The texts that name members, and by the index of a text its number.
#[derive(Drop)]
struct NumberedTexts {
    texts: TextTable,
    places: Vec<Option<u16>>,
}

// Marks an index, where it has a place.
fn mark(marks: &mut [bool], index: u16) {
    if let Some(marked) = marks.get_mut(usize::from(index)) {
        *marked = true;
    }
}

// Marks the indexes of the names and descriptors of members.
fn mark_names(marks: &mut [bool], members: &[MemberView<'_>]) {
    for member in members {
        mark(marks, member.name);
        mark(marks, member.desc);
    }
}

// For each index, whether it is that of a member's name or descriptor.
fn marked_names(alloc: Global, view: &ClassView<'_>) -> Result<Vec<bool>, DeclareError> {
    let mut marks = vec![in alloc; false; view.pool.as_slice().len() + 1]?;
    mark_names(&mut marks, view.fields.as_slice());
    mark_names(&mut marks, view.methods.as_slice());
    Ok(marks)
}

// Appends the text of an index, where there is one.
fn push_named<'a>(
    texts: &mut Vec<NamedText<'a>>,
    pool: &Pool<'a>,
    index: usize,
) -> Result<(), DeclareError> {
    let Ok(index) = u16::try_from(index) else {
        return Ok(());
    };
    if let Some(text) = pool.text(index) {
        texts.push((text, index))?;
    }
    Ok(())
}

// The texts of the indexes that are marked, in ascending order. Each index is looked at once, however many members it names.
fn named_texts<'a>(
    alloc: Global,
    pool: &Pool<'a>,
    marks: &[bool],
) -> Result<Vec<NamedText<'a>>, DeclareError> {
    let mut count = 0usize;
    for named in marks {
        count = count.saturating_add(*named as usize);
    }
    let mut texts = Vec::with_capacity(alloc, count)?;
    for (index, named) in marks.iter().enumerate() {
        if *named {
            push_named(&mut texts, pool, index)?;
        }
    }
    texts.sort_unstable();
    Ok(texts)
}

// How many bytes the texts have.
fn bytes_of(texts: &[NamedText<'_>]) -> usize {
    let mut bytes = 0usize;
    for named in texts {
        bytes = bytes.saturating_add(named.0.len());
    }
    bytes
}

// Adds the text of an index, and puts its number there.
fn put_number(
    table: &mut TextTable,
    places: &mut Vec<Option<u16>>,
    pool: &Pool<'_>,
    index: u16,
    text: &[u8],
) -> Result<(), DeclareError>
    requires numbered { AreNumbered pool.now places.old.items table.old }
    requires text { text_at pool.now index ≡ Some text.now }
    ensures { OnOk result (AreNumbered pool.now places.new.items table.new) }
{
    let number = table.add(text)?;
    places[index as usize] = Some(number);
    Ok(())
}

// The same, where the index has a text.
fn put_number_if(
    table: &mut TextTable,
    places: &mut Vec<Option<u16>>,
    pool: &Pool<'_>,
    index: u16,
) -> Result<(), DeclareError>
    requires { AreNumbered pool.now places.old.items table.old }
    ensures { OnOk result (AreNumbered pool.now places.new.items table.new) }
{
    match pool.text(index) {
        Some(text) => put_number(table, places, pool, index, text),
        None => Ok(()),
    }
}

// The numbers of texts in ascending order, by index. Of equal texts, which are next to each other, one is kept.
fn number_texts(
    alloc: Global,
    table: &mut TextTable,
    pool: &Pool<'_>,
    texts: &[NamedText<'_>],
) -> Result<Vec<Option<u16>>, DeclareError>
    ensures { IfOk result (λ places. AreNumbered pool.now places.items table.new) }
{
    let mut places = vec![in alloc; None; pool.as_slice().len() + 1]?;
    for named in texts {
        put_number_if(table, &mut places, pool, named.1)?;
    }
    Ok(places)
}

// The number at an index.
fn number_at(places: &[Option<u16>], index: u16) -> Result<u16, DeclareError>
    ensures { IfOk result (λ number. get_or places.now index None ≡ Some number) }
{
    match places.get(index as usize) {
        Some(Some(number)) => Ok(*number),
        _ => Err(DeclareError::Memory),
    }
}

// What a method has by its flags: a native or abstract one has no code (JVMS table 4.6-A).
fn body_of(flags: u16) -> MemberBody
    ensures { result ≡ kept_body flags }
{
    let access = AccessFlags(flags);
    if access.is_native() {
        return MemberBody::Empty;
    }
    if access.is_abstract() {
        return MemberBody::Empty;
    }
    MemberBody::Code
}

// A member, by the numbers of its texts.
fn member_row(
    places: &[Option<u16>],
    member: &MemberView<'_>,
    body: MemberBody,
) -> Result<MemberRow, DeclareError>
    ensures row { IfOk result (λ row. row ≡ member_row_of places.now body (member_of member.now)) }
    ensures named { IfOk result (λ row. IsNamed places.now (member_of member.now)) }
{
    let name = number_at(places, member.name)?;
    let desc = number_at(places, member.desc)?;
    Ok(MemberRow {
        flags: member.flags,
        name,
        desc,
        body,
    })
}

// The methods, by the numbers of their texts.
fn method_rows(
    alloc: Global,
    places: &[Option<u16>],
    methods: &[MemberView<'_>],
) -> Result<Vec<MemberRow>, DeclareError>
    ensures rows { IfOk result (λ rows. rows.items ≡ map (method_row_of places.now) (map member_of methods.now)) }
    ensures named { IfOk result (λ rows. AreNamed places.now (map member_of methods.now)) }
{
    let mut rows = Vec::with_capacity(alloc, methods.len())?;
    for method in methods {
        let row = member_row(places, method, body_of(method.flags))?;
        rows.push(row)?;
    }
    Ok(rows)
}

// The fields, by the numbers of their texts.
fn field_rows(
    alloc: Global,
    places: &[Option<u16>],
    fields: &[MemberView<'_>],
) -> Result<Vec<MemberRow>, DeclareError>
    ensures rows { IfOk result (λ rows. rows.items ≡ map (field_row_of places.now) (map member_of fields.now)) }
    ensures named { IfOk result (λ rows. AreNamed places.now (map member_of fields.now)) }
{
    let mut rows = Vec::with_capacity(alloc, fields.len())?;
    for field in fields {
        let row = member_row(places, field, MemberBody::Empty)?;
        rows.push(row)?;
    }
    Ok(rows)
}

// The texts that name the members.
fn file_texts(alloc: Global, view: &ClassView<'_>) -> Result<NumberedTexts, DeclareError>
    requires { length view.now.pool + 1 < 2 ^ 16 }
    ensures { IfOk result (λ numbered. AreNumbered view.now.pool numbered.places.items numbered.texts) }
{
    let marks = marked_names(alloc, view)?;
    let named = named_texts(alloc, &view.pool, &marks)?;
    let mut texts = TextTable::with_room(alloc, named.len(), bytes_of(&named))?;
    let places = number_texts(alloc, &mut texts, &view.pool, &named)?;
    texts.shrink();
    Ok(NumberedTexts { texts, places })
}

/// The members of a class file.
pub(crate) fn file_members(
    alloc: Global,
    view: &ClassView<'_>,
) -> Result<ClassMembers, DeclareError>
    requires { IsValid (class_of view.now) }
    ensures { IfOk result (AreMembers (map (declared_field view.now.pool) view.now.fields) (map (declared_method view.now.pool) view.now.methods)) }
{
    let fields = view.fields.as_slice();
    let methods = view.methods.as_slice();
    let numbered = file_texts(alloc, view)?;
    let fields = MemberTable::new(alloc, field_rows(alloc, &numbered.places, fields)?)?;
    let methods = MemberTable::new(alloc, method_rows(alloc, &numbered.places, methods)?)?;
    let counts = fields.instance_counts(alloc)?;
    Ok(ClassMembers {
        texts: numbered.texts,
        fields,
        methods,
        counts,
    })
}
