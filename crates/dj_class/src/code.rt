ghost use Rattle.std.specs.Prelude.{ℕ, ◌^◌, ◌<◌, length, map};
ghost use Rattle.dj_cursor.specs.Steps.{Gives};
ghost use Rattle.dj_cursor.specs.Reading.{many_at, table_at};
ghost use Rattle.dj_cursor.specs.Views.{cursor_of};
ghost use Rattle.dj_class.specs.Parts.{attribute_of};
ghost use Rattle.dj_class.specs.CodeReading.{code_length_at, code_prefix_at, row_at, code_attribute_at, code_read};
ghost use Rattle.dj_class.specs.CodeViews.{code_of, ReadsCode};
ghost use Rattle.dj_class.specs.Memory.{code_is_memory};
ghost use Rattle.dj_class.specs.declared.class.ClassError.TheVariants as class_errors;

use crate::class::{Attribute, ClassError, room};
use crate::lists::Attributes;
use dj_cursor::Cursor;
use dj_ops::{CatchRow, CatchRows};
use std::alloc::Global;

/// The body of a Code attribute (JVMS 4.7.3), whose code and bodies are parts of it.
#[derive(Debug, Drop)]
pub struct CodeView<'a> {
    pub max_stack: u16,
    pub max_locals: u16,
    pub code: &'a [u8],
    pub table: CatchRows,
    pub attributes: Attributes<'a>,
}

#[tactic(auto, unfolding(crate::specs::CodeReading::code_length_at))]
fn read_code_length<'a>(cursor: Cursor<'a>) -> Result<(u32, Cursor<'a>), ClassError>
    ensures { Gives code_is_memory (λ x. (x.0, cursor_of x.1)) result (code_length_at (cursor_of cursor.entry)) }
{
    let (len, after) = cursor.u32_at()?;
    if 0 < len && len < 65_536 {
        Ok((len, after))
    } else {
        Err(ClassError::Index(cursor.place))
    }
}

#[tactic(auto, unfolding(crate::specs::CodeReading::code_prefix_at))]
fn read_code_prefix<'a>(
    cursor: Cursor<'a>,
) -> Result<((u16, u16, &'a [u8]), Cursor<'a>), ClassError>
    ensures { Gives code_is_memory (λ x. ((x.0.0, x.0.1, x.0.2.now), cursor_of x.1)) result
        (code_prefix_at (cursor_of cursor.entry)) }
{
    let (max_stack, after) = cursor.u16_at()?;
    let (max_locals, after) = after.u16_at()?;
    let (len, after) = read_code_length(after)?;
    let (code, after) = after.bytes_at(len)?;
    Ok(((max_stack, max_locals, code), after))
}

#[tactic(auto, unfolding(crate::specs::CodeReading::row_at))]
fn read_row<'a>(cursor: Cursor<'a>) -> Result<(CatchRow, Cursor<'a>), ClassError>
    ensures { Gives code_is_memory (λ x. (x.0, cursor_of x.1)) result (row_at (cursor_of cursor.entry)) }
{
    let (start, after) = cursor.u16_at()?;
    let (end, after) = after.u16_at()?;
    let (handler, after) = after.u16_at()?;
    let (catch_type, after) = after.u16_at()?;
    Ok((
        CatchRow {
            start,
            end,
            handler,
            catch_type,
        },
        after,
    ))
}

fn read_row_list<'a>(
    alloc: Global,
    count: u16,
    cursor: Cursor<'a>,
) -> Result<(Vec<CatchRow>, Cursor<'a>), ClassError>
    ensures { Gives code_is_memory (λ x. (x.0.items, cursor_of x.1)) result
        (many_at row_at count (cursor_of cursor.entry)) }
{
    let mut rows = Vec::with_capacity(alloc, room(count, cursor, 8))?;
    let mut after = cursor;
    for _ in 0..count {
        let (row, next) = read_row(after)?;
        rows.push(row)?;
        after = next;
    }
    Ok((rows, after))
}

#[tactic(auto, unfolding(dj_cursor::specs::Reading::table_at))]
fn read_rows<'a>(alloc: Global, cursor: Cursor<'a>) -> Result<(CatchRows, Cursor<'a>), ClassError>
    ensures { Gives code_is_memory (λ x. (x.0, cursor_of x.1)) result
        (table_at class_errors.Cut row_at (cursor_of cursor.entry)) }
{
    let (count, after) = cursor.u16_at()?;
    let (rows, after) = read_row_list(alloc, count, after)?;
    Ok((CatchRows::from_vec(rows), after))
}

#[tactic(auto, unfolding(crate::specs::CodeReading::code_attribute_at))]
fn read_code_attribute<'a>(cursor: Cursor<'a>) -> Result<(Attribute<'a>, Cursor<'a>), ClassError>
    ensures { Gives code_is_memory (λ x. (attribute_of x.0, cursor_of x.1)) result
        (code_attribute_at (cursor_of cursor.entry)) }
{
    let (name, after) = cursor.u16_at()?;
    let (len, after) = after.u32_at()?;
    let (body, after) = after.bytes_at(len)?;
    Ok((Attribute { name, body }, after))
}

fn read_code_attribute_list<'a>(
    alloc: Global,
    count: u16,
    cursor: Cursor<'a>,
) -> Result<(Vec<Attribute<'a>>, Cursor<'a>), ClassError>
    ensures { Gives code_is_memory (λ x. (map attribute_of x.0.items, cursor_of x.1)) result
        (many_at code_attribute_at count (cursor_of cursor.entry)) }
{
    let mut attributes = Vec::with_capacity(alloc, room(count, cursor, 6))?;
    let mut after = cursor;
    for _ in 0..count {
        let (attribute, next) = read_code_attribute(after)?;
        attributes.push(attribute)?;
        after = next;
    }
    Ok((attributes, after))
}

#[tactic(auto, unfolding(dj_cursor::specs::Reading::table_at))]
fn read_code_attributes<'a>(
    alloc: Global,
    cursor: Cursor<'a>,
) -> Result<(Attributes<'a>, Cursor<'a>), ClassError>
    ensures { Gives code_is_memory (λ x. (x.0, cursor_of x.1)) result
        (table_at class_errors.Cut code_attribute_at (cursor_of cursor.entry)) }
{
    let (count, after) = cursor.u16_at()?;
    let (attributes, after) = read_code_attribute_list(alloc, count, after)?;
    Ok((Attributes::from_vec(attributes), after))
}

#[tactic(auto, unfolding(crate::specs::CodeReading::code_read))]
fn read_whole_code<'a>(alloc: Global, body: &'a [u8]) -> Result<CodeView<'a>, ClassError>
    requires { length body.now < 2 ^ 32 }
    ensures { Gives code_is_memory code_of result (code_read body.now) }
{
    let start = Cursor::start(body);
    let ((max_stack, max_locals, code), after) = read_code_prefix(start)?;
    let (table, after) = read_rows(alloc, after)?;
    let (attributes, after) = read_code_attributes(alloc, after)?;
    if !after.is_at_end() {
        return Err(ClassError::Trailing(after.place));
    }
    Ok(CodeView {
        max_stack,
        max_locals,
        code,
        table,
        attributes,
    })
}

/// The Code attribute (JVMS 4.7.3) that the body is, all of it. Places are within the body. Names of attributes are not looked up.
///
/// Each error but want of memory names the first item, in the order of reading, that is cut, that its place does not allow, or that
/// follows the last item: `Index` is the place of a code length that is 0 or above 65,535.
pub fn read_code<'a>(alloc: Global, body: &'a [u8]) -> Result<CodeView<'a>, ClassError>
    requires { length body.now < 2 ^ 32 }
    ensures { ReadsCode body.now result }
{
    read_whole_code(alloc, body)
}
