//! The parts of the class that a file defines.
ghost use Rattle.std.specs.Prelude.{◌≡◌, map, All, IfOk, IfErr};
ghost use Rattle.std.specs.List.{AllByRecursion};
ghost use Rattle.dj_class.specs.trusted.ClassFile.{IsAttribute, IsMethod, IsValid};
ghost use Rattle.dj_class.specs.Members.{member_of};
ghost use Rattle.dj_class.specs.Views.{class_of};
ghost use Rattle.dj_early_rules.specs.trusted.Malformed.{IsFaultyMethod, HasFaultyMethod};
ghost use Rattle.dj_program.specs.trusted.Programs.{AreSideBySide};
ghost use Rattle.dj_loader.specs.Filed.{desc_index, AreFileParts, IsCodeFor};
ghost use Rattle.dj_loader.specs.Numbered.{IsMemory};

use crate::error::LoadError;
use crate::values::values_of;
use dj_class::{ClassView, MemberView};
use dj_early_rules::code_of_method;
use dj_image::{ClassParts, own_pool};
use dj_pool::Pool;
use dj_program::{MethodCode, method_code};
use dj_shape_rule::pool_kinds;
use std::alloc::Global;

// The code of a method that isn't faulty, where it has some.
fn code_of(
    alloc: Global,
    pool: &Pool<'_>,
    method: &MemberView<'_>,
) -> Result<Option<MethodCode>, LoadError>
    requires attributes { AllByRecursion (IsAttribute pool.now) (member_of method.now).attributes }
    requires sound { IsFaultyMethod pool.now (member_of method.now) → ⊥ }
    ensures code { IfOk result (IsCodeFor pool.now (member_of method.now)) }
    ensures memory { IfErr result IsMemory }
{
    match code_of_method(alloc, pool, method)? {
        dj_early_rules::MethodBody::Faulty => unreachable!(),
        dj_early_rules::MethodBody::Bodiless => Ok(None),
        dj_early_rules::MethodBody::Whole(code) => Ok(Some(method_code(code))),
    }
}

// For each method its code, where it has some.
fn codes_of(
    alloc: Global,
    pool: &Pool<'_>,
    methods: &[MemberView<'_>],
) -> Result<Vec<Option<MethodCode>>, LoadError>
    requires valid { All (λ method. IsMethod pool.now (member_of method)) methods.now }
    requires sound { All (λ method. IsFaultyMethod pool.now (member_of method) → ⊥) methods.now }
    ensures codes { IfOk result (λ codes. AreSideBySide (IsCodeFor pool.now) (map member_of methods.now) codes.items) }
    ensures memory { IfErr result IsMemory }
{
    let mut codes = Vec::new(alloc);
    for method in methods {
        codes.push(code_of(alloc, pool, method)?)?;
    }
    Ok(codes)
}

// For each method the index of its descriptor.
fn descs_of(alloc: Global, methods: &[MemberView<'_>]) -> Result<Vec<u16>, LoadError>
    ensures descs { IfOk result (λ descs. descs.items ≡ map desc_index (map member_of methods.now)) }
    ensures memory { IfErr result IsMemory }
{
    let mut descs = Vec::new(alloc);
    for method in methods {
        descs.push(method.desc)?;
    }
    Ok(descs)
}

/// The parts of the class that a file defines, of which no method is faulty.
pub fn file_parts(alloc: Global, view: &ClassView<'_>) -> Result<ClassParts, LoadError>
    requires valid { IsValid (class_of view.now) }
    requires sound { HasFaultyMethod (class_of view.now) → ⊥ }
    ensures parts { IfOk result (AreFileParts (class_of view.now)) }
    ensures memory { IfErr result IsMemory }
{
    let methods = view.methods.as_slice();
    let pool = own_pool(alloc, &view.pool)?;
    let kinds = pool_kinds(alloc, &view.pool)?;
    let codes = codes_of(alloc, &view.pool, methods)?;
    let descs = descs_of(alloc, methods)?;
    let values = values_of(alloc, &view.pool, view.fields.as_slice())?;
    Ok(ClassParts {
        pool,
        kinds,
        codes,
        descs,
        values,
    })
}
