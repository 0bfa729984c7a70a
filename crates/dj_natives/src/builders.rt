ghost use Rattle.std.specs.Prelude.{◌≡◌, ◌++◌, [], ◌∷◌, List, Some, IfOk, IfSome};
ghost use Rattle.dj_names.specs.declared.run.Value.TheVariants as values;
ghost use Rattle.dj_names.specs.declared.descriptor.Ty.{Ty};
ghost use Rattle.dj_model.specs.trusted.Types.{Prefix};
ghost use Rattle.dj_model.specs.trusted.Program.{Program};
ghost use Rattle.dj_model.specs.trusted.Natives as model;
ghost use Rattle.dj_natives.specs.Answers.{answer_view, answered_by, IsAppended, Says, is_on_builders};
ghost use Rattle.dj_natives.specs.Calls.{seen_of};
ghost use Rattle.dj_natives.specs.Seen.{units_at, field_at, null_or_units};

use crate::answer::{Answer, gives_int};
use crate::arguments::{flag, number, reference, unit};
use crate::makers::{all_units, decimal, made, one_unit, truth};
use crate::seen::{field, put_text, put_units, text_length};
use crate::texts::char_at;
use dj_heap::Heap;
use dj_names::{NativeId, Raised, Units, Value};
use std::alloc::{AllocError, Global};

/// The answer of a method of StringBuilder: its field is a text, or null for no units.
#[tactic(auto, using(crate::proofs::Others::no_on_builders), unfolding(dj_model::specs::trusted::Natives::answer))]
pub fn on_builders(alloc: Global, heap: &Heap, id: NativeId, args: &[Value]) -> Option<Answer>
    ensures { (program : Program) (prefix : Prefix) (types : List Ty) → Says is_on_builders id (seen_of program prefix types heap.now) args.now result }
{
    let r = reference(args, 0);
    let text = field(heap, r, 0);
    match id {
        NativeId::BuilderNew => Some(Answer::SetsField(r, 0)),
        NativeId::BuilderNewText => Some(keeps(r, reference(args, 1))),
        NativeId::BuilderAppendText => {
            Some(appended(
                alloc,
                heap,
                r,
                text_or_null(alloc, heap, reference(args, 1)),
            ))
        }
        NativeId::BuilderAppendChar => {
            Some(appended(alloc, heap, r, one_unit(alloc, unit(args, 1))))
        }
        NativeId::BuilderAppendInt => {
            Some(appended(alloc, heap, r, decimal(alloc, number(args, 1))))
        }
        NativeId::BuilderAppendLong => {
            Some(appended(alloc, heap, r, decimal(alloc, number(args, 1))))
        }
        NativeId::BuilderAppendBoolean => {
            Some(appended(alloc, heap, r, truth(alloc, flag(args, 1))))
        }
        NativeId::BuilderLength => Some(gives_int(text_length(heap, text))),
        NativeId::BuilderCharAt => Some(char_at(heap, text, number(args, 1))),
        NativeId::BuilderToString => Some(made(all_units(alloc, heap, text))),
        _ => None,
    }
}

// The text becomes the first field of the object; null is tested first.
fn keeps(r: u32, text: u32) -> Answer
    ensures { answer_view result ≡ Some (model.unless_null text (model.SetsFields r (values.Ref text ∷ []))) }
{
    if text == 0 {
        Answer::Raises(Raised::NullPointer)
    } else {
        Answer::SetsField(r, text)
    }
}

// The units of a text; for null those of `null`.
fn text_or_null(alloc: Global, heap: &Heap, r: u32) -> Result<Units, AllocError>
    ensures { IfOk result (λ units. units ≡ null_or_units heap.now r) }
{
    let mut units = Units::new(alloc);
    if r == 0 {
        put_text(&mut units, b"null")?;
    } else {
        put_units(heap, u64::from(r), &mut units)?;
    }
    Ok(units)
}

// The builder's units and these.
fn appended(alloc: Global, heap: &Heap, r: u32, more: Result<Units, AllocError>) -> Answer
    ensures { IsAppended heap.now r more (answer_view result) }
{
    match more {
        Ok(more) => kept(r, joined(alloc, heap, field(heap, r, 0), &more)),
        Err(_) => Answer::Memory,
    }
}

// The text of these units becomes the first field of the object, where there was memory for them.
fn kept(r: u32, units: Result<Units, AllocError>) -> Answer
    ensures { answer_view result ≡ answered_by (model.KeepsText r) units }
{
    match units {
        Ok(units) => Answer::KeepsText(r, units),
        Err(_) => Answer::Memory,
    }
}

// The units of a text and these.
fn joined(alloc: Global, heap: &Heap, r: u64, more: &Units) -> Result<Units, AllocError>
    ensures { IfOk result (λ units. units ≡ units_at heap.now r ++ more.now) }
{
    let mut units = all_units(alloc, heap, r)?;
    for &unit in more.as_slice() {
        units.push(unit)?;
    }
    Ok(units)
}
