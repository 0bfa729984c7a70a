ghost use Rattle.std.specs.Prelude.{◌≡◌, ◌↔◌, ◌<◌, ◌^◌, length, IsTrue, OnOk};
ghost use Rattle.dj_report.specs.Lines.{Gains};
ghost use Rattle.dj_early_rules.specs.Judged.{AreTexts};
ghost use Rattle.dj_early_rules.specs.trusted.Classes.{IsUncatchable};
ghost use Rattle.dj_early_rules.specs.trusted.Methods.{InstrViolates, CatchesError};
ghost use Rattle.dj_early_rules.specs.Marks.{place_of, MarksAt, MarksOf, ViolatesBelow, RangeViolates, IsAmongRanges, CodeMark};

use crate::instructions::{
    is_breakpoint, is_dynamic, is_float, is_multi_array, is_plain, is_reflection, is_subroutine,
    violates_instr,
};
use crate::judged::JudgedText;
use crate::marks::{Mark, MarkPlace, add_mark_if};
use dj_labels::{Labelled, Protected};
use dj_ops::Instr;
use dj_pool::Pool;
use std::alloc::AllocError;

// The numbers of the rules on instructions and handlers.
const DYNAMIC: u8 = 9;

const REFLECTION: u8 = 10;

const CATCH: u8 = 11;

const FLOAT: u8 = 12;

const SUBROUTINE: u8 = 13;

const BREAKPOINT: u8 = 14;

const MULTI_ARRAY: u8 = 15;

// Appends the marks of an instruction at its place.
fn add_instr_marks(
    marks: &mut Vec<Mark>,
    place: MarkPlace,
    pool: &Pool<'_>,
    texts: &[JudgedText],
    instr: &Instr,
) -> Result<(), AllocError>
    requires { AreTexts pool.now texts.now }
    ensures { OnOk result (Gains (MarksAt place (InstrViolates pool.now instr.now)) marks.old.items marks.new.items) }
{
    add_mark_if(marks, place, DYNAMIC, is_dynamic(pool, instr))?;
    add_mark_if(marks, place, REFLECTION, is_reflection(pool, texts, instr))?;
    add_mark_if(marks, place, FLOAT, is_float(pool, instr))?;
    add_mark_if(marks, place, SUBROUTINE, is_subroutine(pool, instr))?;
    add_mark_if(marks, place, BREAKPOINT, is_breakpoint(pool, instr))?;
    add_mark_if(marks, place, MULTI_ARRAY, is_multi_array(pool, instr))
}

// The same; an instruction that violates no rule, as most do, is passed over quickly.
fn add_marks_at(
    marks: &mut Vec<Mark>,
    place: MarkPlace,
    pool: &Pool<'_>,
    texts: &[JudgedText],
    instr: &Instr,
) -> Result<(), AllocError>
    requires { AreTexts pool.now texts.now }
    ensures { OnOk result (Gains (MarksAt place (InstrViolates pool.now instr.now)) marks.old.items marks.new.items) }
{
    if is_plain(instr) || !violates_instr(pool, texts, instr) {
        return Ok(());
    }
    add_instr_marks(marks, place, pool, texts, instr)
}

// Appends the marks of all instructions of a member with these names.
fn add_all_instr_marks(
    marks: &mut Vec<Mark>,
    names: (u16, u16),
    pool: &Pool<'_>,
    texts: &[JudgedText],
    code: &[Instr],
) -> Result<(), AllocError>
    requires texts { AreTexts pool.now texts.now }
    requires few { length code.now < 2 ^ 32 }
    ensures { OnOk result (Gains (MarksOf names (ViolatesBelow (length code.now) pool.now code.now)) marks.old.items marks.new.items) }
{
    for at in 0..code.len() {
        let place = MarkPlace {
            name: names.0,
            desc: names.1,
            number: Some(at as u32),
        };
        add_marks_at(marks, place, pool, texts, &code[at])?;
    }
    Ok(())
}

fn is_uncatchable(name: &[u8]) -> bool
    ensures { IsTrue result ↔ IsUncatchable name.now }
{
    name == b"java/lang/ThreadDeath".as_slice()
        || name == b"java/lang/VirtualMachineError".as_slice()
        || name == b"java/lang/StackOverflowError".as_slice()
        || name == b"java/lang/OutOfMemoryError".as_slice()
}

/// Whether the class at the index may not be caught.
pub fn catches_error(pool: &Pool<'_>, catch_type: u16) -> bool
    ensures { IsTrue result ↔ CatchesError pool.now catch_type }
{
    match pool.class_name(catch_type) {
        Some(name) => is_uncatchable(name),
        None => false,
    }
}

// Appends the mark of a handler, if it catches a class that may not be caught.
fn add_handler_mark(
    marks: &mut Vec<Mark>,
    names: (u16, u16),
    pool: &Pool<'_>,
    range: Protected,
) -> Result<(), AllocError>
    ensures { OnOk result (Gains (MarksOf names (RangeViolates pool.now range)) marks.old.items marks.new.items) }
{
    let place = MarkPlace {
        name: names.0,
        desc: names.1,
        number: Some(range.handler),
    };
    add_mark_if(marks, place, CATCH, catches_error(pool, range.catch_type))
}

// Appends the marks of all handlers of a member with these names.
fn add_all_handler_marks(
    marks: &mut Vec<Mark>,
    names: (u16, u16),
    pool: &Pool<'_>,
    ranges: &[Protected],
) -> Result<(), AllocError>
    ensures { OnOk result (Gains (IsAmongRanges names pool.now ranges.now) marks.old.items marks.new.items) }
{
    for range in ranges {
        add_handler_mark(marks, names, pool, *range)?;
    }
    Ok(())
}

/// Appends the marks of labelled code of a member with these names.
pub fn add_code_marks(
    marks: &mut Vec<Mark>,
    names: (u16, u16),
    pool: &Pool<'_>,
    texts: &[JudgedText],
    labelled: &Labelled,
) -> Result<(), AllocError>
    requires texts { AreTexts pool.now texts.now }
    requires few { length labelled.now.code < 2 ^ 32 }
    ensures { OnOk result (Gains (CodeMark names pool.now labelled.now) marks.old.items marks.new.items) }
{
    add_all_instr_marks(marks, names, pool, texts, labelled.code.as_slice())?;
    add_all_handler_marks(marks, names, pool, labelled.ranges.as_slice())
}
