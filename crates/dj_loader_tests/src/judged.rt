ghost use Rattle.std.specs.Prelude.{◌≡◌, ◌↔◌, ◌<◌, ◌^◌, ℕ, List, [], length, codes, IsTrue, IfOk, Some, slice_get};
ghost use Rattle.dj_names.specs.trusted.ModifiedUtf8.{IsModifiedUtf8};
ghost use Rattle.dj_class.specs.trusted.ClassFile.{IsValid};
ghost use Rattle.dj_class.specs.Views.{class_of};
ghost use Rattle.dj_early_rules.specs.trusted.Malformed.{IsFaulty, IsRefused};
ghost use Rattle.dj_numbering.specs.Typed.{texts_of};
ghost use Rattle.dj_image.specs.Imaged.{typed_of};
ghost use Rattle.dj_shape.specs.Rules.{HasKinds, IsSpelled};
ghost use Rattle.dj_loader_tests.specs.Members.{HasMethod};

use crate::answers::{reported_name, reported_number};
use crate::members::own_method;
use crate::programs::{
    CALLING, INT_RETURNED, NOP_LAST, NOTHING_RETURNED, ON_OBJECT, PACKAGED, RETURNING,
    SECOND_LOCAL, UNLISTED,
};
use crate::set::{file_of, has_faulty_method, plain_image};
use dj_class::{ClassView, read_class};
use dj_early_rules::has_faulty_field;
use dj_image::{Image, MethodId};
use dj_link::links;
use dj_names::is_modified_utf8;
use dj_report::{PathFile, Violation, Violations};
use dj_shape::shape;
use std::alloc::{AllocError, Global};

// The text of a class, its name, and what is reported of its method verify, or of its file.
type JudgedRow = (&'static [u8], &'static str, &'static str);

const SHAPES: [JudgedRow; 8] = [
    (RETURNING, "A", "None"),
    (NOTHING_RETURNED, "A", "A.class verify([B)[B 0 19"),
    (INT_RETURNED, "A", "A.class verify([B)[B 0 19"),
    (NOP_LAST, "A", "A.class verify([B)[B 2 19"),
    (ON_OBJECT, "A", "None"),
    (SECOND_LOCAL, "A", "A.class verify([B)[B 0 19"),
    (PACKAGED, "p/B", "p/B.class verify([B)[B 1 19"),
    (CALLING, "A", "None"),
];

const LINKS: [JudgedRow; 5] = [
    (RETURNING, "A", "-"),
    (NOTHING_RETURNED, "A", "-"),
    (PACKAGED, "p/B", "-"),
    (
        CALLING,
        "A",
        "A.class verify([B)[B 1 18; A.class verify([B)[B 2 18",
    ),
    (UNLISTED, "A", "A.class verify([B)[B 0 17"),
];

// A path, a member, a number and a rule.
fn reported_violation(alloc: Global, violation: &Violation) -> Result<String, AllocError> {
    let path = reported_name(alloc, "", violation.path.as_slice())?;
    let member = reported_name(alloc, " ", violation.member.as_slice())?;
    let number = reported_number(alloc, violation.number)?;
    format!(in alloc; "{path}{member} {number} {}", violation.rule)
}

// ---- rule 19

fn is_described(desc: &[u8]) -> bool
    ensures { IsTrue result → desc.now ≡ codes "([B)[B" }
{
    desc == b"([B)[B".as_slice()
}

fn is_spelled(image: &Image, class: u32) -> bool
    ensures { IsTrue result → (name : List ℕ) → slice_get (texts_of (typed_of image.now)) class ≡ Some name → IsModifiedUtf8 name }
{
    class < image.class_count() && is_modified_utf8(image.name_of(class))
}

// Whether the method goes from an array of bytes to one, and is one of a class whose name is a text.
fn can_be_judged(image: &Image, method: MethodId) -> bool
    requires { HasMethod image.now method }
    ensures kinds { IsTrue result → HasKinds image.now method.number }
    ensures spelled { IsTrue result → IsSpelled image.now method.number }
{
    let member = image.method(method);
    if is_described(member.desc) {
        is_spelled(image, member.class)
    } else {
        false
    }
}

fn shape_of(alloc: Global, image: &Image, method: MethodId) -> Option<Option<Violation>>
    requires { HasMethod image.now method }
{
    if can_be_judged(image, method) {
        shape(alloc, image, method).ok()
    } else {
        None
    }
}

fn reported_shape(alloc: Global, row: &JudgedRow) -> Option<String> {
    let image = plain_image(alloc, &[row.0])?;
    let method = own_method(&image, (row.1, "verify", "([B)[B"))?;
    match shape_of(alloc, &image, method)? {
        Some(violation) => reported_violation(alloc, &violation).ok(),
        None => reported_number(alloc, None).ok(),
    }
}

// ---- rules 17 and 18

fn is_faulty(alloc: Global, view: &ClassView<'_>) -> Result<bool, AllocError>
    requires { IsValid (class_of view.now) }
    ensures { IfOk result (λ faulty. IsTrue faulty ↔ IsFaulty (class_of view.now)) }
{
    let method = has_faulty_method(alloc, view)?;
    let field = has_faulty_field(alloc, view)?;
    Ok(method || field)
}

// Whether the bytes don't violate rule 1.
fn is_whole(alloc: Global, bytes: &[u8]) -> bool
    requires { length bytes.now < 2 ^ 32 }
    ensures { IsTrue result → IsRefused bytes.now → ⊥ }
{
    match read_class(alloc, bytes) {
        Ok(view) => matches!(is_faulty(alloc, &view), Ok(false)),
        Err(_) => false,
    }
}

fn links_of(alloc: Global, image: &Image, file: PathFile<'_>) -> Option<Violations>
    requires plain { image.now.prefix ≡ [] }
    requires short { length file.bytes.now < 2 ^ 32 }
    requires whole { IsRefused file.bytes.now → ⊥ }
{
    links(alloc, image, &[file]).ok()
}

fn links_of_bytes(alloc: Global, image: &Image, bytes: &[u8]) -> Option<Violations>
    requires { image.now.prefix ≡ [] }
{
    let path = "A.class";
    if bytes.len() < 99_999 && is_whole(alloc, bytes) {
        links_of(alloc, image, PathFile { path, bytes })
    } else {
        None
    }
}

fn reported_lines(alloc: Global, lines: &[Violation]) -> Result<String, AllocError> {
    let mut all = String::new(alloc);
    for line in lines {
        if !all.is_empty() {
            all.push_str("; ")?;
        }
        all.push_str(reported_violation(alloc, line)?.as_str())?;
    }
    if all.is_empty() {
        all.push_str("-")?;
    }
    Ok(all)
}

fn reported_links(alloc: Global, row: &JudgedRow) -> Option<String> {
    let file = file_of(alloc, row.0)?;
    let image = plain_image(alloc, &[row.0])?;
    let lines = links_of_bytes(alloc, &image, file.as_slice())?;
    reported_lines(alloc, lines.as_slice()).ok()
}

fn is_reported(reported: &Option<String>, row: &JudgedRow) -> bool {
    match reported {
        Some(reported) => reported.as_str() == row.2,
        None => false,
    }
}

#[test]
fn judged_by_shape(rt: HostRuntime) {
    for row in &SHAPES {
        assert!(rt;
            is_reported(&reported_shape(rt.alloc(), row), row),
            "{}",
            row.2
        );
    }
}

#[test]
fn judged_by_links(rt: HostRuntime) {
    for row in &LINKS {
        assert!(rt;
            is_reported(&reported_links(rt.alloc(), row), row),
            "{}",
            row.2
        );
    }
}
