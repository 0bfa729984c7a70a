ghost use Rattle.std.specs.Prelude.{◌≡◌, ◌++◌, length, IfOk, OnOk};
ghost use Rattle.std.specs.List.{flat_map};
ghost use Rattle.dj_cursor.specs.trusted.Spelling.{u2, u4, table_bytes};
ghost use Rattle.dj_class.specs.trusted.Code.{row_bytes, code_info_bytes};
ghost use Rattle.dj_class.specs.CodeViews.{code_of};

use crate::error::WriteError;
use crate::put::{put_bytes, put_length2, put_length4, put_u2};
use crate::write::put_attributes;
use dj_class::CodeView;
use dj_names::Bytes;
use dj_ops::CatchRow;
use std::alloc::Global;

// A range, its handler and the index of the class that is caught.
fn put_row(out: &mut Vec<u8>, row: &CatchRow) -> Result<(), WriteError>
    ensures { OnOk result (out.new.items ≡ out.old.items ++ row_bytes row.now) }
{
    put_u2(out, row.start)?;
    put_u2(out, row.end)?;
    put_u2(out, row.handler)?;
    put_u2(out, row.catch_type)
}

fn put_row_list(out: &mut Vec<u8>, rows: &[CatchRow]) -> Result<(), WriteError>
    ensures { OnOk result (out.new.items ≡ out.old.items ++ flat_map row_bytes rows.now) }
{
    for row in rows {
        put_row(out, row)?;
    }
    Ok(())
}

fn put_rows(out: &mut Vec<u8>, rows: &[CatchRow]) -> Result<(), WriteError>
    ensures { OnOk result (out.new.items ≡ out.old.items ++ table_bytes row_bytes rows.now) }
{
    put_length2(out, rows.len())?;
    put_row_list(out, rows)
}

// The stack, the locals and the code.
fn put_prefix(out: &mut Vec<u8>, code: &CodeView<'_>) -> Result<(), WriteError>
    ensures { OnOk result (out.new.items ≡ out.old.items ++ (u2 code.now.max_stack ++ u2 code.now.max_locals ++ u4 (length code.now.code.now) ++ code.now.code.now)) }
{
    put_u2(out, code.max_stack)?;
    put_u2(out, code.max_locals)?;
    put_length4(out, code.code.len())?;
    put_bytes(out, code.code)
}

fn put_code(out: &mut Vec<u8>, code: &CodeView<'_>) -> Result<(), WriteError>
    ensures { OnOk result (out.new.items ≡ out.old.items ++ code_info_bytes (code_of code.now)) }
{
    put_prefix(out, code)?;
    put_rows(out, code.table.as_slice())?;
    put_attributes(out, code.attributes.as_slice())
}

/// The bytes of the body of a Code attribute (JVMS 4.7.3). Where the view was read, they are those that it was read from.
pub fn write_code(alloc: Global, code: &CodeView<'_>) -> Result<Bytes, WriteError>
    ensures { IfOk result (λ bytes. bytes ≡ code_info_bytes (code_of code.now)) }
{
    let mut out = Vec::new(alloc);
    put_code(&mut out, code)?;
    Ok(Bytes::from(out))
}
