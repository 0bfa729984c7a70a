ghost use Rattle.std.specs.Prelude.{◌≡◌, ◌<◌, ◌^◌, ◌∷◌, ◌++◌, [], List, length, IfOk, OnOk, Some, true, set};
ghost use Rattle.std.specs.List.{filter_map};
ghost use Rattle.dj_image.specs.Owned.{constant_of_owned};
ghost use Rattle.dj_image.specs.Uses.{class_use, literal_use, use_in, code_uses, class_uses, value_use, value_uses, use_place, was_seen, SameMembers, AreSeen};
ghost use Rattle.dj_image.specs.declared.uses.Use.{Use};

use crate::error::ImageError;
use crate::owned::{OwnedEntry, OwnedPool};
use crate::parts::{ClassParts, FieldValue};
use dj_ops::Instr;
use dj_program::MethodCode;
use std::alloc::Global;

/// What an instruction or a field uses of the constants, by the index of a text.
#[derive(Clone, Copy, Debug)]
pub(crate) enum Use {
    /// The class or the array that the text of a class constant names.
    Itself(u16),
    /// An array whose elements are of the class at this index.
    Element(u16),
    /// An array of a base type, by its code (JVMS table 6.5.newarray-A).
    Base(u8),
    /// A text that is pushed or with which a field begins.
    Pushed(u16),
}

// ---- of an instruction

fn class_use(pool: &OwnedPool, entry: &OwnedEntry, element: bool) -> Option<Use>
    ensures { result ≡ class_use element pool.now (constant_of_owned entry.now) }
{
    let class = match entry {
        OwnedEntry::Class(text) if element => return Some(Use::Element(*text)),
        OwnedEntry::Class(text) => return Some(Use::Itself(*text)),
        OwnedEntry::Field(class, _) => *class,
        OwnedEntry::Method(class, _) => *class,
        OwnedEntry::InterfaceMethod(class, _) => *class,
        _ => return None,
    };
    Some(Use::Itself(pool.class_text(class)?))
}

fn literal_use(pool: &OwnedPool, entry: &OwnedEntry, op: u8) -> Option<Use>
    ensures { result ≡ literal_use op pool.now (constant_of_owned entry.now) }
{
    match entry {
        OwnedEntry::Text(_) if op == 20 => None,
        OwnedEntry::Text(text) => Some(Use::Pushed(*text)),
        _ => class_use(pool, entry, false),
    }
}

// What an instruction uses.
fn use_in(pool: &OwnedPool, instr: &Instr) -> Option<Use>
    ensures { result ≡ use_in pool.now instr.now }
{
    match instr {
        Instr::Literal { op, index } => literal_use(pool, pool.entry(*index)?, *op),
        Instr::Class { op, index } => class_use(pool, pool.entry(*index)?, *op == 189),
        Instr::Member { op: _, index } => class_use(pool, pool.entry(*index)?, false),
        Instr::Interface { index, count: _ } => class_use(pool, pool.entry(*index)?, false),
        Instr::Dynamic { index } => class_use(pool, pool.entry(*index)?, false),
        Instr::Multi { index, dims: _ } => class_use(pool, pool.entry(*index)?, false),
        Instr::Array { base } => Some(Use::Base(*base)),
        _ => None,
    }
}

// ---- each once

fn use_place(one: Use) -> usize
    ensures { result ≡ use_place one }
{
    match one {
        Use::Base(base) => 4 * usize::from(base),
        Use::Itself(text) => 4 * usize::from(text) + 1,
        Use::Element(text) => 4 * usize::from(text) + 2,
        Use::Pushed(text) => 4 * usize::from(text) + 3,
    }
}

// Whether it was seen; from now on it is. Past the end nothing is seen.
fn see(seen: &mut [bool], place: usize) -> bool
    ensures was { result ≡ was_seen seen.old place }
    ensures now { seen.new ≡ set seen.old place true }
{
    if place >= seen.len() {
        return false;
    }
    let was = seen[place];
    seen[place] = true;
    was
}

// Lists a use where it isn't seen.
fn note(seen: &mut [bool], listed: &mut Vec<Use>, one: Use) -> Result<(), ImageError>
    requires { AreSeen seen.old listed.old.items }
    ensures seen { OnOk result (AreSeen seen.new listed.new.items) }
    ensures listed { (all : List Use) → SameMembers listed.old.items all → OnOk result (SameMembers listed.new.items (all ++ one ∷ [])) }
{
    if !see(seen, use_place(one)) {
        listed.push(one)?;
    }
    Ok(())
}

// Lists what the instructions of code use.
fn note_code(
    pool: &OwnedPool,
    seen: &mut [bool],
    listed: &mut Vec<Use>,
    code: &MethodCode,
) -> Result<(), ImageError>
    requires { AreSeen seen.old listed.old.items }
    ensures seen { OnOk result (AreSeen seen.new listed.new.items) }
    ensures listed { (all : List Use) → SameMembers listed.old.items all → OnOk result (SameMembers listed.new.items (all ++ code_uses pool.now (Some code.now))) }
{
    for instr in code.code.code.as_slice() {
        if let Some(one) = use_in(pool, instr) {
            note(seen, listed, one)?;
        }
    }
    Ok(())
}

/// What the instructions of a class use, each use once.
pub(crate) fn class_uses(alloc: Global, parts: &ClassParts) -> Result<Vec<Use>, ImageError>
    requires { length parts.now.pool < 2 ^ 16 }
    ensures { IfOk result (λ listed. SameMembers listed.items (class_uses parts.now)) }
{
    let mut seen = vec![in alloc; false; 4 * (parts.pool.len() + 256)]?;
    let mut listed = Vec::new(alloc);
    for code in &parts.codes {
        if let Some(code) = code {
            note_code(&parts.pool, &mut seen, &mut listed, code)?;
        }
    }
    Ok(listed)
}

// ---- of the fields

fn value_use(value: &Option<FieldValue>) -> Option<Use>
    ensures { result ≡ value_use value.now }
{
    match value {
        Some(FieldValue::Text(index)) => Some(Use::Pushed(*index)),
        _ => None,
    }
}

// Lists the texts with which fields begin.
fn note_values(
    seen: &mut [bool],
    listed: &mut Vec<Use>,
    values: &[Option<FieldValue>],
) -> Result<(), ImageError>
    requires { AreSeen seen.old listed.old.items }
    ensures { (all : List Use) → SameMembers listed.old.items all → OnOk result (SameMembers listed.new.items (all ++ filter_map value_use values.now)) }
{
    for value in values {
        if let Some(one) = value_use(value) {
            note(seen, listed, one)?;
        }
    }
    Ok(())
}

/// The texts with which the fields of a class begin, each index once.
pub(crate) fn value_uses(alloc: Global, parts: &ClassParts) -> Result<Vec<Use>, ImageError>
    requires { length parts.now.pool < 2 ^ 16 }
    ensures { IfOk result (λ listed. SameMembers listed.items (value_uses parts.now)) }
{
    let mut seen = vec![in alloc; false; 4 * (parts.pool.len() + 256)]?;
    let mut listed = Vec::new(alloc);
    note_values(&mut seen, &mut listed, &parts.values)?;
    Ok(listed)
}
