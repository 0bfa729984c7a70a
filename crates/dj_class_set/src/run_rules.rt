ghost use Rattle.std.specs.Prelude.{◌≡◌, true, false, ◌<◌, ◌^◌, ◌++◌, [], ◌∷◌, length, map, codes, All, Contains, Some, None, IfOk, OnOk, MatchOption};
ghost use Rattle.dj_straight.specs.trusted.Program.{code_of, is_static, method_in};
ghost use Rattle.dj_class_set.specs.trusted.Entry.{entry_method, has_entry, AreRunViolations, IsEntryLine, IsShapeLine, IsShapeLineOf};
ghost use Rattle.dj_report.specs.Lines.{Adds};
ghost use Rattle.dj_straight.specs.trusted.Methods.{straight_descriptor};
ghost use Rattle.dj_straight.specs.Methods.{code_view, method_view, program_view};
ghost use Rattle.dj_class_set.specs.Shaped.{shape_line, AreReported, AreShaped, AreShort, IsReported, IsMethodOf};
ghost use Rattle.dj_file_rules.specs.Views.{path_file_view};

use dj_class::AccessFlags;
use dj_names::Name;
use dj_report::{PathFile, Violation, Violations, add_line, in_order};
use dj_straight::{DESCRIPTOR, StraightClass, StraightMethod, shape_fault};
use std::alloc::{AllocError, Global};

// The numbers of the rules SHAPE and ENTRY.
const SHAPE: u8 = 19;

const ENTRY: u8 = 20;

const VERIFY: &[u8] = b"verify";

// ---- the entry

fn is_static(flags: u16) -> bool
    ensures { result ≡ is_static flags }
{
    AccessFlags(flags).is_static()
}

// The first method named verify.
fn verify_of(methods: &[StraightMethod]) -> Option<&StraightMethod>
    ensures { MatchOption result
        (method_in (map method_view methods.now) (codes "verify") straight_descriptor ≡ None)
        (λ m. (method_in (map method_view methods.now) (codes "verify") straight_descriptor ≡ Some (method_view m.now))
        × Contains methods.now m.now) }
{
    for method in methods {
        if method.name.as_slice() == VERIFY {
            return Some(method);
        }
    }
    None
}

/// The method that is run: the static method verify of the class of this name.
#[tactic(auto, unfolding(dj_straight::specs::trusted::Program::code_of))]
pub fn entry_of<'a>(class: &'a Option<StraightClass>, entry: &[u8]) -> Option<&'a StraightMethod>
    ensures { MatchOption result
        (has_entry (program_view class.now) entry.now ≡ false)
        (λ m. (has_entry (program_view class.now) entry.now ≡ true)
        × (code_of (program_view class.now) (entry_method entry.now) ≡ Some (code_view m.now))
        × IsMethodOf class.now m.now) }
{
    let Some(class) = class else {
        return None;
    };
    if class.name.as_slice() != entry {
        return None;
    }
    let method = verify_of(class.methods.as_slice())?;
    if is_static(method.flags) {
        Some(method)
    } else {
        None
    }
}

/// Whether the class has this name and a static method verify.
pub fn has_entry(class: &Option<StraightClass>, entry: &[u8]) -> bool
    ensures { result ≡ has_entry (program_view class.now) entry.now }
{
    entry_of(class, entry).is_some()
}

// ---- the lines

// Appends a line of a method that has no shape.
fn add_shape_fault(
    alloc: Global,
    found: &mut Vec<Violation>,
    path: &str,
    method: &StraightMethod,
    number: u32,
) -> Result<(), AllocError>
    ensures { OnOk result (Adds (λ v. v ≡ shape_line path.now (method_view method.now) (Some number)) found.old.items found.new.items) }
{
    let path = Name::from_slice(alloc, path.as_bytes())?;
    let mut member = Name::from_slice(alloc, method.name.as_slice())?;
    member.extend(DESCRIPTOR)?;
    let line = Violation {
        path,
        member,
        number: Some(number),
        rule: SHAPE,
    };
    add_line(found, line)?;
    Ok(())
}

// Appends the line of a method, if it has no shape.
fn add_shape_line(
    alloc: Global,
    found: &mut Vec<Violation>,
    path: &str,
    method: &StraightMethod,
) -> Result<(), AllocError>
    requires { length method.now.actions.items < 2 ^ 32 }
    ensures lines { OnOk result (Adds (IsShapeLine path.now (method_view method.now ∷ [])) found.old.items found.new.items) }
    ensures judged { OnOk result (IsReported method.now) }
{
    match shape_fault(alloc, method)? {
        Some(number) => add_shape_fault(alloc, found, path, method, number),
        None => Ok(()),
    }
}

// Appends the lines of the methods.
fn add_shape_lines(
    alloc: Global,
    found: &mut Vec<Violation>,
    path: &str,
    methods: &[StraightMethod],
) -> Result<(), AllocError>
    requires { All (λ m. length m.actions.items < 2 ^ 32) methods.now }
    ensures lines { OnOk result (Adds (IsShapeLine path.now (map method_view methods.now)) found.old.items found.new.items) }
    ensures judged { OnOk result (All IsReported methods.now) }
{
    for method in methods {
        add_shape_line(alloc, found, path, method)?;
    }
    Ok(())
}

// Appends the lines of the class, which the first file defines.
fn add_class_lines(
    alloc: Global,
    found: &mut Vec<Violation>,
    files: &[PathFile<'_>],
    class: &Option<StraightClass>,
) -> Result<(), AllocError>
    requires as_many { length files.now ≡ length (program_view class.now) }
    requires short { AreShort class.now }
    ensures lines { OnOk result (Adds (IsShapeLineOf (map path_file_view files.now) (program_view class.now))
        found.old.items found.new.items) }
    ensures judged { OnOk result (AreReported class.now) }
{
    match (files.first(), class) {
        (Some(file), Some(class)) => {
            add_shape_lines(alloc, found, file.path, class.methods.as_slice())
        }
        _ => Ok(()),
    }
}

// Appends the line of an entry that isn't there.
fn add_entry_line(
    alloc: Global,
    found: &mut Vec<Violation>,
    class: &Option<StraightClass>,
    entry: &[u8],
) -> Result<(), AllocError>
    ensures { OnOk result (Adds (IsEntryLine (program_view class.now) entry.now) found.old.items found.new.items) }
{
    if has_entry(class, entry) {
        return Ok(());
    }
    let mut path = Name::from_slice(alloc, entry)?;
    path.extend(b".class")?;
    let member = Name::new(alloc);
    let line = Violation {
        path,
        member,
        number: None,
        rule: ENTRY,
    };
    add_line(found, line)?;
    Ok(())
}

/// All violations of the rules SHAPE and ENTRY in a straight set, in order, each once. `entry` is the name of the entry's class.
pub fn run_violations(
    alloc: Global,
    files: &[PathFile<'_>],
    class: &Option<StraightClass>,
    entry: &[u8],
) -> Result<Violations, AllocError>
    requires as_many { length files.now ≡ length (program_view class.now) }
    requires short { AreShort class.now }
    ensures lines { IfOk result (AreRunViolations (map path_file_view files.now) (program_view class.now) entry.now) }
    ensures shaped { IfOk result (λ violations. violations ≡ [] → AreShaped class.now) }
{
    let mut found = Vec::new(alloc);
    add_class_lines(alloc, &mut found, files, class)?;
    add_entry_line(alloc, &mut found, class, entry)?;
    Ok(in_order(found))
}
