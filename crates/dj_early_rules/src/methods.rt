ghost use Rattle.std.specs.Prelude.{◌≡◌, ◌↔◌, [], codes, Some, IsTrue, OnOk};
ghost use Rattle.dj_class.specs.Members.{member_of};
ghost use Rattle.dj_class.specs.Views.{class_of};
ghost use Rattle.dj_report.specs.Lines.{Gains};
ghost use Rattle.dj_pool.specs.trusted.Pool.{text_at};
ghost use Rattle.dj_early_rules.specs.trusted.Attributes.{codes_of};
ghost use Rattle.dj_early_rules.specs.Judged.{AreTexts};
ghost use Rattle.dj_early_rules.specs.trusted.Members.{IsFloatMethod, IsInterfaceMethod};
ghost use Rattle.dj_early_rules.specs.trusted.Rules.{FieldViolates};
ghost use Rattle.dj_early_rules.specs.trusted.Methods.{MethodViolates};
ghost use Rattle.dj_early_rules.specs.Marks.{names_in, MarksOf, RuledWhole, AreMarksOf};
ghost use Rattle.dj_early_rules.specs.Passes.{IsWholeMethod, HasFloatFrames};

use crate::code::WholeCode;
use crate::judged::{JudgedText, text_in};
use crate::maps::have_float_type;
use crate::marks::{Mark, MarkPlace, add_mark_if};
use crate::passes::add_code_marks;
use dj_class::{ClassView, MemberView};
use dj_pool::Pool;
use std::alloc::AllocError;

// The numbers of the rules FLOAT and INTERFACE_CODE.
const FLOAT: u8 = 12;

const INTERFACE_CODE: u8 = 16;

/// The indexes that stand for the names of a member.
pub fn names_of(pool: &Pool<'_>, texts: &[JudgedText], member: &MemberView<'_>) -> (u16, u16)
    requires { AreTexts pool.now texts.now }
    ensures { result ≡ names_in texts.now (member_of member.now) }
{
    (
        text_in(pool, texts, member.name).first,
        text_in(pool, texts, member.desc).first,
    )
}

// Whether the stack map of the code has a float or a double.
fn maps_float(code: &WholeCode<'_>) -> bool
    ensures { IsTrue result ↔ HasFloatFrames code.now.frames }
{
    match &code.frames {
        Some(frames) => have_float_type(frames.as_slice()),
        None => false,
    }
}

// Whether the name is that of the initialiser.
fn is_initialiser(pool: &Pool<'_>, name: u16) -> bool
    ensures { IsTrue result ↔ (text_at pool.now name ≡ Some (codes "<clinit>")) }
{
    match pool.text(name) {
        Some(text) => text == b"<clinit>".as_slice(),
        None => false,
    }
}

// Appends the marks of a method as a whole.
fn add_whole_marks(
    marks: &mut Vec<Mark>,
    names: (u16, u16),
    float: bool,
    interface_code: bool,
) -> Result<(), AllocError>
    ensures { OnOk result (Gains (MarksOf names (RuledWhole float interface_code)) marks.old.items marks.new.items) }
{
    let place = MarkPlace {
        name: names.0,
        desc: names.1,
        number: None,
    };
    add_mark_if(marks, place, FLOAT, float)?;
    add_mark_if(marks, place, INTERFACE_CODE, interface_code)
}

// Whether the descriptor or the stack map of a method with code has a float or a double.
fn is_float_method(
    view: &ClassView<'_>,
    texts: &[JudgedText],
    method: &MemberView<'_>,
    code: &WholeCode<'_>,
) -> bool
    requires texts { AreTexts view.now.pool texts.now }
    requires code { IsWholeMethod view.now.pool (member_of method.now) code.now }
    ensures { IsTrue result ↔ IsFloatMethod view.now.pool (member_of method.now) }
{
    if text_in(&view.pool, texts, method.desc).float {
        return true;
    }
    maps_float(code)
}

// Whether the method is one of an interface, other than its initialiser.
fn is_interface_method(view: &ClassView<'_>, method: &MemberView<'_>) -> bool
    ensures { IsTrue result ↔ IsInterfaceMethod (class_of view.now) (member_of method.now) }
{
    view.access().is_interface() && !is_initialiser(&view.pool, method.name)
}

/// Appends the marks of a method with code.
pub fn add_own_marks(
    marks: &mut Vec<Mark>,
    view: &ClassView<'_>,
    texts: &[JudgedText],
    method: &MemberView<'_>,
    code: &WholeCode<'_>,
) -> Result<(), AllocError>
    requires texts { AreTexts view.now.pool texts.now }
    requires code { IsWholeMethod view.now.pool (member_of method.now) code.now }
    ensures { OnOk result (Gains (MarksOf (names_in texts.now (member_of method.now)) (MethodViolates (class_of view.now) (member_of method.now))) marks.old.items marks.new.items) }
{
    let names = names_of(&view.pool, texts, method);
    let float = is_float_method(view, texts, method, code);
    let interface_code = is_interface_method(view, method);
    add_whole_marks(marks, names, float, interface_code)?;
    add_code_marks(marks, names, &view.pool, texts, &code.labelled)
}

/// Appends the marks of a native or abstract method.
pub fn add_bodiless_marks(
    marks: &mut Vec<Mark>,
    view: &ClassView<'_>,
    texts: &[JudgedText],
    method: &MemberView<'_>,
) -> Result<(), AllocError>
    requires texts { AreTexts view.now.pool texts.now }
    requires none { codes_of view.now.pool (member_of method.now) ≡ [] }
    ensures { OnOk result (Gains (MarksOf (names_in texts.now (member_of method.now)) (MethodViolates (class_of view.now) (member_of method.now))) marks.old.items marks.new.items) }
{
    let names = names_of(&view.pool, texts, method);
    let described = text_in(&view.pool, texts, method.desc).float;
    add_whole_marks(marks, names, described, false)
}

// Appends the mark of a field whose descriptor has a float or a double.
fn add_field_mark(
    marks: &mut Vec<Mark>,
    view: &ClassView<'_>,
    texts: &[JudgedText],
    field: &MemberView<'_>,
) -> Result<(), AllocError>
    requires { AreTexts view.now.pool texts.now }
    ensures { OnOk result (Gains (MarksOf (names_in texts.now (member_of field.now)) (FieldViolates (class_of view.now) (member_of field.now))) marks.old.items marks.new.items) }
{
    let names = names_of(&view.pool, texts, field);
    let place = MarkPlace {
        name: names.0,
        desc: names.1,
        number: None,
    };
    let float = text_in(&view.pool, texts, field.desc).float;
    add_mark_if(marks, place, FLOAT, float)
}

/// Appends the marks of all fields.
pub fn add_field_marks(
    marks: &mut Vec<Mark>,
    view: &ClassView<'_>,
    texts: &[JudgedText],
) -> Result<(), AllocError>
    requires { AreTexts view.now.pool texts.now }
    ensures { OnOk result (Gains (AreMarksOf texts.now (FieldViolates (class_of view.now)) (class_of view.now).fields) marks.old.items marks.new.items) }
{
    for field in view.fields.as_slice() {
        add_field_mark(marks, view, texts, field)?;
    }
    Ok(())
}
