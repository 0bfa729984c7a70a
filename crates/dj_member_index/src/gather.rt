ghost use Rattle.std.specs.Prelude.{◌≡◌, ◌+◌, ◌<◌, length, map, IfOk, OnOk};
ghost use Rattle.dj_member_index.specs.DirectoryRows.{method_named, field_named, AreDifferent, NumbersAll, IsRowBy, AddsRows, IsGathering};

use crate::numbers::number_text;
use crate::rows::MemberRow;
use dj_class_table::ClassTable;
use dj_declarations::MemberTexts;
use std::alloc::{AllocError, Global};
use std::collections::BTreeMap;

// The numbers of the texts of a class, by their numbers in it. Each text is looked up once, however many members it names.
fn number_texts<'a>(
    alloc: Global,
    numbers: &mut BTreeMap<&'a [u8], u32>,
    texts: &MemberTexts<'a>,
) -> Result<Vec<u32>, AllocError>
    requires { AreDifferent numbers.old }
    ensures { IfOk result (λ known. NumbersAll numbers.old numbers.new texts.now.texts known.items) }
{
    let count = texts.count();
    let mut known = Vec::with_capacity(alloc, count)?;
    for place in 0..count {
        let number = number_text(numbers, texts.text(place))?;
        known.push(number)?;
    }
    Ok(known)
}

// A number of members in 32 bits.
fn count_of(count: usize) -> Result<u32, AllocError>
    ensures { IfOk result (λ number. number ≡ count) }
{
    u32::try_from(count).map_err(|_| AllocError)
}

// The row of the member whose texts have these numbers in its class.
fn row_of(known: &[u32], texts: (u16, u16), class: u32, place: u32) -> MemberRow
    requires name { texts.0 < length known.now }
    requires desc { texts.1 < length known.now }
    ensures { IsRowBy known.now texts.0 texts.1 class place result }
{
    MemberRow {
        name: known[texts.0 as usize],
        desc: known[texts.1 as usize],
        class,
        place,
    }
}

// Appends the rows of the methods of one more class.
fn add_methods(
    rows: &mut Vec<MemberRow>,
    texts: &MemberTexts<'_>,
    known: &[u32],
    class: u32,
) -> Result<(), AllocError>
    requires { length known.now ≡ length texts.now.texts }
    ensures { OnOk result (AddsRows texts.now.texts known.now (map method_named texts.now.methods) class rows.old.items rows.new.items) }
{
    let count = count_of(texts.method_count())?;
    for place in 0..count {
        let named = texts.method(place);
        rows.push(row_of(known, named, class, place))?;
    }
    Ok(())
}

// Appends the rows of the fields of one more class.
fn add_fields(
    rows: &mut Vec<MemberRow>,
    texts: &MemberTexts<'_>,
    known: &[u32],
    class: u32,
) -> Result<(), AllocError>
    requires { length known.now ≡ length texts.now.texts }
    ensures { OnOk result (AddsRows texts.now.texts known.now (map field_named texts.now.fields) class rows.old.items rows.new.items) }
{
    let count = count_of(texts.field_count())?;
    for place in 0..count {
        let named = texts.field(place);
        rows.push(row_of(known, named, class, place))?;
    }
    Ok(())
}

/// Numbers the texts of one more class, and appends the rows of its members.
pub fn add_class<'a>(
    alloc: Global,
    numbers: &mut BTreeMap<&'a [u8], u32>,
    methods: &mut Vec<MemberRow>,
    fields: &mut Vec<MemberRow>,
    table: &'a ClassTable,
    class: u32,
) -> Result<(), AllocError>
    requires there { class < length table.now }
    requires gathering { IsGathering table.now class numbers.old methods.old.items fields.old.items }
    ensures { OnOk result (IsGathering table.now (class + 1) numbers.new methods.new.items fields.new.items) }
{
    let texts = table.member_texts(class);
    let known = number_texts(alloc, numbers, &texts)?;
    add_methods(methods, &texts, &known, class)?;
    add_fields(fields, &texts, &known, class)?;
    Ok(())
}
