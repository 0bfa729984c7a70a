//! What literals and the types of frames need of the pool.
ghost use Rattle.std.specs.Prelude.{◌≡◌, [], ◌∷◌, map, IfOk};
ghost use Rattle.std.specs.List.{flat_map};
ghost use Rattle.dj_asm_source.specs.TypeViews.{literal_view, type_view};
ghost use Rattle.dj_asm_pool.specs.trusted.Needs.{literal_entry, type_entries, stack_map_name};
ghost use Rattle.dj_asm_pool.specs.PoolNeeds.{PutsNeeds};

use crate::lines::need_quoted;
use crate::needs::{both, need_class, need_integer, need_text};
use crate::pool::PoolBuilder;
use dj_asm_source::{FrameType, Literal};
use std::alloc::{AllocError, Global};

/// Puts what ldc pushes.
pub(crate) fn need_literal(
    pool: &mut PoolBuilder,
    alloc: Global,
    literal: &Literal<'_>,
) -> Result<bool, AllocError>
    ensures { IfOk result (λ room. PutsNeeds pool.old (literal_entry (literal_view literal.now) ∷ []) pool.new room) }
{
    match literal {
        Literal::Int(n) => need_integer(pool, *n),
        Literal::String(string) => need_quoted(pool, alloc, *string),
        Literal::Class(name) => need_class(pool, alloc, name.as_slice()),
    }
}

/// Puts what a type of a frame needs.
pub(crate) fn need_type(
    pool: &mut PoolBuilder,
    alloc: Global,
    ty: &FrameType<'_>,
) -> Result<bool, AllocError>
    ensures { IfOk result (λ room. PutsNeeds pool.old (type_entries (type_view ty.now)) pool.new room) }
{
    match ty {
        FrameType::Object(name) => need_class(pool, alloc, name.as_slice()),
        FrameType::Simple(_) | FrameType::New(_) => Ok(true),
    }
}

/// Puts what types of a frame need.
pub(crate) fn need_types(
    pool: &mut PoolBuilder,
    alloc: Global,
    types: &[FrameType<'_>],
) -> Result<bool, AllocError>
    ensures { IfOk result (λ room. PutsNeeds pool.old (flat_map type_entries (map type_view types.now)) pool.new room) }
{
    let mut room = true;
    for ty in types {
        let one = need_type(pool, alloc, ty)?;
        room = both(room, one);
    }
    Ok(room)
}

/// Puts the name of the attribute of frames.
pub(crate) fn need_stack_map(pool: &mut PoolBuilder, alloc: Global) -> Result<bool, AllocError>
    ensures { IfOk result (λ room. PutsNeeds pool.old (stack_map_name ∷ []) pool.new room) }
{
    need_text(pool, alloc, b"StackMapTable")
}
