ghost use Rattle.std.specs.Prelude.{◌≡◌, ◌↔◌, map, Some, IsTrue, IfOk};
ghost use Rattle.std.specs.Int.{IsBitSet};
ghost use Rattle.std.specs.List.{AllByRecursion};
ghost use Rattle.dj_edge.specs.trusted.Counts.{AllDiffer};
ghost use Rattle.dj_pool.specs.trusted.Pool.{text_at};
ghost use Rattle.dj_class.specs.trusted.Access as access;
ghost use Rattle.dj_class.specs.trusted.ClassFile.{IsAttribute, IsMethod};
ghost use Rattle.dj_class.specs.Members.{member_of};
ghost use Rattle.dj_straight.specs.trusted.Methods.{straight_descriptor};
ghost use Rattle.dj_straight.specs.Methods.{method_view};
ghost use Rattle.dj_straight.specs.trusted.Straight.{IsPlainMethod, IsStraightMethod, AreStraightMethods, AreDistinctMethods};
ghost use Rattle.dj_straight.specs.Straight.{ArePlainNames};
ghost use Rattle.dj_straight.specs.Finds.{Finds, methods_view, names_view, now_of};

use crate::program::{DESCRIPTOR, StraightMethod};
use crate::straight::code::code_of_attributes;
use dj_class::{AccessFlags, MemberView};
use dj_names::Name;
use dj_pool::Pool;
use std::alloc::{AllocError, Global};
use std::collections::BTreeSet;

// Whether a method of these flags is static, and may have code.
fn is_static_with_code(flags: AccessFlags) -> bool
    ensures { IsTrue result ↔ (IsBitSet flags.0 access.static × (IsBitSet flags.0 access.native → ⊥) × (IsBitSet flags.0 access.abstract → ⊥)) }
{
    flags.is_static() && !flags.is_native() && !flags.is_abstract()
}

// Whether the method is from an array of bytes to one.
fn is_straight_descriptor(pool: &Pool<'_>, desc: u16) -> bool
    ensures { IsTrue result ↔ (text_at pool.now desc ≡ Some straight_descriptor) }
{
    match pool.text(desc) {
        Some(text) => text == DESCRIPTOR,
        None => false,
    }
}

// The name of a method that is straight as far as its code isn't looked at.
fn plain_name<'a>(pool: &Pool<'a>, method: &MemberView<'_>) -> Option<&'a [u8]>
    ensures { Finds (λ name. name.now) (IsPlainMethod pool.now (member_of method.now)) result }
{
    if !is_static_with_code(method.access()) || !is_straight_descriptor(pool, method.desc) {
        return None;
    }
    match pool.text(method.name) {
        Some(name) => {
            if name.starts_with(b"<") {
                None
            } else {
                Some(name)
            }
        }
        None => None,
    }
}

// The straight method that a method of the file is.
fn straight_method(
    alloc: Global,
    pool: &Pool<'_>,
    method: &MemberView<'_>,
) -> Result<Option<StraightMethod>, AllocError>
    requires { AllByRecursion (IsAttribute pool.now) method.now.attributes }
    ensures { IfOk result (Finds method_view (IsStraightMethod pool.now (member_of method.now))) }
{
    let Some(name) = plain_name(pool, method) else {
        return Ok(None);
    };
    match code_of_attributes(alloc, pool, method.attributes.as_slice())? {
        Some(code) => Ok(Some(StraightMethod {
            flags: method.flags,
            name: Name::from_slice(alloc, name)?,
            max_stack: code.max_stack,
            max_locals: code.max_locals,
            actions: code.actions,
        })),
        None => Ok(None),
    }
}

// The straight methods that the methods of a file are.
fn straight_methods(
    alloc: Global,
    pool: &Pool<'_>,
    methods: &[MemberView<'_>],
) -> Result<Option<Vec<StraightMethod>>, AllocError>
    requires { AllByRecursion (IsMethod pool.now) (map member_of methods.now) }
    ensures { IfOk result (Finds methods_view (AreStraightMethods pool.now (map member_of methods.now))) }
{
    let mut found = Vec::with_capacity(alloc, methods.len())?;
    for method in methods {
        match straight_method(alloc, pool, method)? {
            Some(straight) => found.push(straight)?,
            None => return Ok(None),
        }
    }
    Ok(Some(found))
}

// The names of the methods, where all are straight apart from their code, which isn't looked at.
fn plain_names<'a>(
    alloc: Global,
    pool: &Pool<'a>,
    methods: &[MemberView<'_>],
) -> Result<Option<Vec<&'a [u8]>>, AllocError>
    ensures { IfOk result (Finds names_view (ArePlainNames pool.now (map member_of methods.now))) }
{
    let mut names = Vec::with_capacity(alloc, methods.len())?;
    for method in methods {
        match plain_name(pool, method) {
            Some(name) => names.push(name)?,
            None => return Ok(None),
        }
    }
    Ok(Some(names))
}

// Whether no two of the names are equal.
fn names_differ(alloc: Global, names: &[&[u8]]) -> Result<bool, AllocError>
    ensures { IfOk result (λ differ. IsTrue differ ↔ AllDiffer (map now_of names.now)) }
{
    let mut seen = BTreeSet::new(alloc);
    for name in names {
        if !seen.insert(*name)? {
            return Ok(false);
        }
    }
    Ok(true)
}

/// The straight methods that the methods of a file are, no two of which have the same name. Nothing of a method is copied before its name is
/// known to be its own.
pub fn distinct_methods(
    alloc: Global,
    pool: &Pool<'_>,
    methods: &[MemberView<'_>],
) -> Result<Option<Vec<StraightMethod>>, AllocError>
    requires { AllByRecursion (IsMethod pool.now) (map member_of methods.now) }
    ensures { IfOk result (Finds methods_view (AreDistinctMethods pool.now (map member_of methods.now))) }
{
    let Some(names) = plain_names(alloc, pool, methods)? else {
        return Ok(None);
    };
    if !names_differ(alloc, &names)? {
        return Ok(None);
    }
    straight_methods(alloc, pool, methods)
}
