//! The members of a class of a library.
ghost use Rattle.std.specs.Prelude.{◌≡◌, [], All, Some, IfOk, map};
ghost use Rattle.dj_names.specs.trusted.Descriptors.{IsDesc};
ghost use Rattle.dj_library_types.specs.Views.{library_method_view};
ghost use Rattle.dj_model.specs.trusted.Libraries.{library_method};
ghost use Rattle.dj_declarations.specs.Texts.{number_in};
ghost use Rattle.dj_declarations.specs.MemberRows.{native_body, IsRowOf, AreRowsOf};
ghost use Rattle.dj_declarations.specs.Tables.{AreMembers};

use crate::error::DeclareError;
use crate::members::{MemberBody, MemberRow, MemberTable};
use crate::spelling::spell_desc;
use crate::tables::ClassMembers;
use crate::texts::TextTable;
use dj_library_types::LibMethod;
use dj_names::{Name, NativeId};
use std::alloc::Global;

// What a method of a library has: what answers a call, or nothing.
fn body_of(native: Option<NativeId>) -> MemberBody
    ensures { result ≡ native_body native }
{
    match native {
        Some(id) => MemberBody::Native(id),
        None => MemberBody::Empty,
    }
}

// The texts of descriptors.
fn spelled_descs(alloc: Global, methods: &[LibMethod]) -> Result<Vec<Name>, DeclareError> {
    let mut texts = Vec::with_capacity(alloc, methods.len())?;
    for method in methods {
        texts.push(spell_desc(alloc, &method.desc)?)?;
    }
    Ok(texts)
}

// The texts of names and of descriptors, in ascending order.
fn sorted_texts<'a>(
    alloc: Global,
    methods: &'a [LibMethod],
    descs: &'a [Name],
) -> Result<Vec<&'a [u8]>, DeclareError> {
    let mut texts = Vec::new(alloc);
    for method in methods {
        texts.push(method.name.as_slice())?;
    }
    for desc in descs {
        texts.push(desc.as_slice())?;
    }
    texts.sort_unstable();
    Ok(texts)
}

// The texts that name the methods.
fn library_texts(alloc: Global, methods: &[LibMethod]) -> Result<TextTable, DeclareError> {
    let descs = spelled_descs(alloc, methods)?;
    let named = sorted_texts(alloc, methods, &descs)?;
    let mut texts = TextTable::with_room(alloc, named.len(), 0)?;
    for text in &named {
        texts.add(text)?;
    }
    texts.shrink();
    Ok(texts)
}

// The number of a text that is there.
fn number_of(texts: &TextTable, text: &[u8]) -> Result<u16, DeclareError>
    ensures { IfOk result (λ number. number_in texts.now text.now ≡ Some number) }
{
    texts.find(text).ok_or(DeclareError::Memory)
}

// A method, by the numbers of its texts.
fn method_row(
    alloc: Global,
    texts: &TextTable,
    method: &LibMethod,
) -> Result<MemberRow, DeclareError>
    requires { IsDesc method.now.desc }
    ensures { IfOk result (λ row. IsRowOf texts.now row (library_method (library_method_view method.now))) }
{
    let text = spell_desc(alloc, &method.desc)?;
    let name = number_of(texts, method.name.as_slice())?;
    let desc = number_of(texts, text.as_slice())?;
    Ok(MemberRow {
        flags: method.flags,
        name,
        desc,
        body: body_of(method.native),
    })
}

// The methods, by the numbers of their texts.
fn method_rows(
    alloc: Global,
    texts: &TextTable,
    methods: &[LibMethod],
) -> Result<Vec<MemberRow>, DeclareError>
    requires { All (λ m. IsDesc m.desc) methods.now }
    ensures { IfOk result (λ rows. AreRowsOf texts.now rows.items (map library_method (map library_method_view methods.now))) }
{
    let mut rows = Vec::with_capacity(alloc, methods.len())?;
    for method in methods {
        let row = method_row(alloc, texts, method)?;
        rows.push(row)?;
    }
    Ok(rows)
}

/// The members of a class of a library, which declares methods only.
pub(crate) fn library_members(
    alloc: Global,
    methods: &[LibMethod],
) -> Result<ClassMembers, DeclareError>
    requires { All (λ m. IsDesc m.desc) methods.now }
    ensures { IfOk result (AreMembers [] (map library_method (map library_method_view methods.now))) }
{
    let texts = library_texts(alloc, methods)?;
    let rows = method_rows(alloc, &texts, methods)?;
    let methods = MemberTable::new(alloc, rows)?;
    let fields = MemberTable::new(alloc, Vec::new(alloc))?;
    let counts = fields.instance_counts(alloc)?;
    Ok(ClassMembers {
        texts,
        fields,
        methods,
        counts,
    })
}
