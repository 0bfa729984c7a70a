ghost use Rattle.std.specs.Prelude.{ℕ, ◌↔◌, ◌<◌, ◌^◌, length, IsTrue, OnOk};
ghost use Rattle.dj_report.specs.Lines.{Gains};
ghost use Rattle.dj_early_rules.specs.Judged.{AreTexts};
ghost use Rattle.dj_early_rules.specs.Marks.{MarksAt, MarksOf};
ghost use Rattle.dj_early_rules.specs.trusted.Methods.{InstrViolates};
ghost use Rattle.dj_link_rules.specs.Known.{IsRuled, KnownInstr, KnownBelow, KnownRange, KnownCode};
ghost use Rattle.dj_link_rules.specs.trusted.Lines.{IsUnreported};
ghost use Rattle.dj_link_rules.specs.Marks.{AreRangeMarks, AreUnreported};

use crate::error::LinkError;
use crate::judge::{is_foreign, is_foreign_catch, is_unlinked, is_unlinked_catch};
use crate::known::Known;
use dj_early_rules::{
    JudgedText, Mark, MarkPlace, add_mark_if, catches_error, index_of, violates_instr,
};
use dj_labels::{Labelled, Protected};
use dj_ops::Instr;
use dj_pool::Pool;

// The numbers of the rules.
const WHITELIST: u8 = 17;

const UNRESOLVED: u8 = 18;

// Appends the mark of the first of the two rules that is violated, unless a mark of another rule hides it.
fn add_rule_mark(
    marks: &mut Vec<Mark>,
    place: MarkPlace,
    reported: bool,
    foreign: bool,
    unlinked: bool,
) -> Result<(), LinkError>
    ensures { OnOk result (Gains (MarksAt place (IsRuled reported foreign unlinked)) marks.old.items marks.new.items) }
{
    if reported {
        return Ok(());
    }
    if foreign {
        return Ok(add_mark_if(marks, place, WHITELIST, foreign)?);
    }
    Ok(add_mark_if(marks, place, UNRESOLVED, unlinked)?)
}

// Whether the instruction violates one of the rules 9 to 15. Where the caller knows that it doesn't, it isn't looked at.
fn is_reported(pool: &Pool<'_>, texts: &[JudgedText], instr: &Instr, unreported: bool) -> bool
    requires texts { AreTexts pool.now texts.now }
    requires unreported { IsTrue unreported → IsUnreported pool.now instr.now }
    ensures { IsTrue result ↔ ((rule : ℕ) × InstrViolates pool.now instr.now rule) }
{
    if unreported {
        return false;
    }
    violates_instr(pool, texts, instr)
}

// Appends the mark of an instruction at its place, where it names a constant.
fn add_named_mark(
    marks: &mut Vec<Mark>,
    place: MarkPlace,
    pool: &Pool<'_>,
    texts: &[JudgedText],
    known: &Known<'_>,
    instr: &Instr,
    unreported: bool,
) -> Result<(), LinkError>
    requires texts { AreTexts pool.now texts.now }
    requires unreported { IsTrue unreported → IsUnreported pool.now instr.now }
    ensures { OnOk result (Gains (MarksAt place (KnownInstr known.now pool.now instr.now)) marks.old.items marks.new.items) }
{
    let reported = is_reported(pool, texts, instr, unreported);
    let foreign = is_foreign(known, instr);
    let unlinked = is_unlinked(known, instr);
    add_rule_mark(marks, place, reported, foreign, unlinked)
}

// Appends the mark of an instruction at its place. Most instructions name no constant and have none.
fn add_instr_mark(
    marks: &mut Vec<Mark>,
    place: MarkPlace,
    pool: &Pool<'_>,
    texts: &[JudgedText],
    known: &Known<'_>,
    instr: &Instr,
    unreported: bool,
) -> Result<(), LinkError>
    requires texts { AreTexts pool.now texts.now }
    requires unreported { IsTrue unreported → IsUnreported pool.now instr.now }
    ensures { OnOk result (Gains (MarksAt place (KnownInstr known.now pool.now instr.now)) marks.old.items marks.new.items) }
{
    match index_of(instr) {
        None => Ok(()),
        Some(_) => add_named_mark(marks, place, pool, texts, known, instr, unreported),
    }
}

// Appends the marks of all instructions of a method with these names.
fn add_instr_marks(
    marks: &mut Vec<Mark>,
    names: (u16, u16),
    pool: &Pool<'_>,
    texts: &[JudgedText],
    known: &Known<'_>,
    code: &[Instr],
    unreported: bool,
) -> Result<(), LinkError>
    requires texts { AreTexts pool.now texts.now }
    requires unreported { IsTrue unreported → AreUnreported pool.now code.now }
    requires few { length code.now < 2 ^ 32 }
    ensures { OnOk result (Gains (MarksOf names (KnownBelow (length code.now) known.now pool.now code.now)) marks.old.items marks.new.items) }
{
    for at in 0..code.len() {
        let place = MarkPlace {
            name: names.0,
            desc: names.1,
            number: Some(at as u32),
        };
        add_instr_mark(marks, place, pool, texts, known, &code[at], unreported)?;
    }
    Ok(())
}

// Appends the mark of a handler at its first instruction.
fn add_handler_mark(
    marks: &mut Vec<Mark>,
    names: (u16, u16),
    pool: &Pool<'_>,
    known: &Known<'_>,
    range: Protected,
) -> Result<(), LinkError>
    ensures { OnOk result (Gains (MarksOf names (KnownRange known.now pool.now range)) marks.old.items marks.new.items) }
{
    let place = MarkPlace {
        name: names.0,
        desc: names.1,
        number: Some(range.handler),
    };
    let reported = catches_error(pool, range.catch_type);
    let foreign = is_foreign_catch(known, range.catch_type);
    let unlinked = is_unlinked_catch(known, range.catch_type);
    add_rule_mark(marks, place, reported, foreign, unlinked)
}

// Appends the marks of all handlers of a method with these names.
fn add_handler_marks(
    marks: &mut Vec<Mark>,
    names: (u16, u16),
    pool: &Pool<'_>,
    known: &Known<'_>,
    ranges: &[Protected],
) -> Result<(), LinkError>
    ensures { OnOk result (Gains (AreRangeMarks names known.now pool.now ranges.now) marks.old.items marks.new.items) }
{
    for range in ranges {
        add_handler_mark(marks, names, pool, known, *range)?;
    }
    Ok(())
}

/// Appends the marks of labelled code of a method with these names. The caller may know that no instruction violates one of the rules 9 to 15.
pub fn add_code_marks(
    marks: &mut Vec<Mark>,
    names: (u16, u16),
    pool: &Pool<'_>,
    texts: &[JudgedText],
    known: &Known<'_>,
    labelled: &Labelled,
    unreported: bool,
) -> Result<(), LinkError>
    requires texts { AreTexts pool.now texts.now }
    requires unreported { IsTrue unreported → AreUnreported pool.now labelled.now.code }
    requires few { length labelled.now.code < 2 ^ 32 }
    ensures { OnOk result (Gains (MarksOf names (KnownCode known.now pool.now labelled.now)) marks.old.items marks.new.items) }
{
    add_instr_marks(
        marks,
        names,
        pool,
        texts,
        known,
        labelled.code.as_slice(),
        unreported,
    )?;
    add_handler_marks(marks, names, pool, known, labelled.ranges.as_slice())
}
