//! What a line needs of the pool, by its meaning.
ghost use Rattle.std.specs.Prelude.{◌≡◌, [], ◌∷◌, codes, IfOk};
ghost use Rattle.std.specs.Option.{option_map};
ghost use Rattle.dj_names.specs.trusted.ModifiedUtf8.{units_text};
ghost use Rattle.dj_asm_tokens.specs.Views.{string_units_of};
ghost use Rattle.dj_asm_source.specs.LineViews.{line_view};
ghost use Rattle.dj_asm_source.specs.TypeViews.{value_view};
ghost use Rattle.dj_asm_pool.specs.trusted.Entries as entries;
ghost use Rattle.dj_asm_pool.specs.trusted.Needs.{value_entry, value_entries, code_name, constant_value_name, head_entries, catch_entries};
ghost use Rattle.dj_asm_pool.specs.PoolNeeds.{PutsNeeds};

use crate::needs::{both, need_class, need_integer, need_long, need_names, need_string, need_text};
use crate::pool::PoolBuilder;
use dj_asm_source::{Line, Quoted, Value};
use std::alloc::{AllocError, Global};

/// Puts a string with its text.
pub(crate) fn need_quoted(
    pool: &mut PoolBuilder,
    alloc: Global,
    string: Quoted<'_>,
) -> Result<bool, AllocError>
    ensures { IfOk result (λ room. PutsNeeds pool.old (entries.Text (units_text (string_units_of string.entry)) ∷ []) pool.new room) }
{
    let text = string.text(alloc)?;
    need_string(pool, alloc, text.as_slice())
}

/// Puts the constant of a field.
fn need_value(pool: &mut PoolBuilder, alloc: Global, value: Value<'_>) -> Result<bool, AllocError>
    ensures { IfOk result (λ room. PutsNeeds pool.old (value_entry (value_view value.entry) ∷ []) pool.new room) }
{
    match value {
        Value::Int(n) => need_integer(pool, n),
        Value::Long(n) => need_long(pool, n),
        Value::String(string) => need_quoted(pool, alloc, string),
    }
}

/// Puts `ConstantValue` and the constant of a field.
fn need_named_value(
    pool: &mut PoolBuilder,
    alloc: Global,
    value: Value<'_>,
) -> Result<bool, AllocError>
    ensures { IfOk result (λ room. PutsNeeds pool.old (constant_value_name ∷ (value_entry (value_view value.entry) ∷ [])) pool.new room) }
{
    let name = need_text(pool, alloc, b"ConstantValue")?;
    let constant = need_value(pool, alloc, value)?;
    Ok(both(name, constant))
}

/// Puts `ConstantValue` and the constant, where a field has one.
fn need_constant(
    pool: &mut PoolBuilder,
    alloc: Global,
    value: Option<Value<'_>>,
) -> Result<bool, AllocError>
    ensures { IfOk result (λ room. PutsNeeds pool.old (value_entries (option_map value_view value.entry)) pool.new room) }
{
    match value {
        None => Ok(true),
        Some(value) => need_named_value(pool, alloc, value),
    }
}

/// Puts what a field needs.
fn need_field(
    pool: &mut PoolBuilder,
    alloc: Global,
    name: &[u8],
    desc: &[u8],
    value: Option<Value<'_>>,
) -> Result<bool, AllocError>
    ensures { IfOk result (λ room. PutsNeeds pool.old (entries.Utf8 name.now ∷ (entries.Utf8 desc.now ∷ value_entries (option_map value_view value.entry))) pool.new room) }
{
    let names = need_names(pool, alloc, name, desc)?;
    let constant = need_constant(pool, alloc, value)?;
    Ok(both(names, constant))
}

/// Puts what a method with code needs.
fn need_method(
    pool: &mut PoolBuilder,
    alloc: Global,
    name: &[u8],
    desc: &[u8],
) -> Result<bool, AllocError>
    ensures { IfOk result (λ room. PutsNeeds pool.old (entries.Utf8 name.now ∷ (entries.Utf8 desc.now ∷ (code_name ∷ []))) pool.new room) }
{
    let names = need_names(pool, alloc, name, desc)?;
    let code = need_text(pool, alloc, b"Code")?;
    Ok(both(names, code))
}

/// Puts what a line before the methods or the first line of a method needs, and returns whether all has room.
pub(crate) fn need_head(
    pool: &mut PoolBuilder,
    alloc: Global,
    line: &Line<'_>,
) -> Result<bool, AllocError>
    ensures { IfOk result (λ room. PutsNeeds pool.old (head_entries (line_view line.now)) pool.new room) }
{
    match line {
        Line::Class { name, .. } => need_class(pool, alloc, name.as_slice()),
        Line::Super(name) => need_class(pool, alloc, name.as_slice()),
        Line::Implements(name) => need_class(pool, alloc, name.as_slice()),
        Line::Field {
            name,
            desc,
            value,
            ..
        } => need_field(pool, alloc, name.as_slice(), desc.as_slice(), *value),
        Line::Abstract { name, desc, .. } => {
            need_names(pool, alloc, name.as_slice(), desc.as_slice())
        }
        Line::Method { name, desc, .. } => {
            need_method(pool, alloc, name.as_slice(), desc.as_slice())
        }
        Line::Version { .. }
        | Line::Stack(_)
        | Line::Locals(_)
        | Line::Label(_)
        | Line::Catch { .. }
        | Line::Frame(_)
        | Line::Does(_)
        | Line::End => Ok(true),
    }
}

/// Puts the class of a `.catch`, and returns whether all has room.
pub(crate) fn need_catch(
    pool: &mut PoolBuilder,
    alloc: Global,
    line: &Line<'_>,
) -> Result<bool, AllocError>
    ensures { IfOk result (λ room. PutsNeeds pool.old (catch_entries (line_view line.now)) pool.new room) }
{
    match line {
        Line::Catch {
            class: Some(class),
            ..
        } => need_class(pool, alloc, class.as_slice()),
        Line::Catch { class: None, .. }
        | Line::Class { .. }
        | Line::Super(_)
        | Line::Implements(_)
        | Line::Field { .. }
        | Line::Abstract { .. }
        | Line::Method { .. }
        | Line::Version { .. }
        | Line::Stack(_)
        | Line::Locals(_)
        | Line::Label(_)
        | Line::Frame(_)
        | Line::Does(_)
        | Line::End => Ok(true),
    }
}
