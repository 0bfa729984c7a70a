ghost use Rattle.std.specs.Prelude.{◌≡◌};
ghost use Rattle.dj_ops.specs.trusted.Forms.{form_of};
ghost use Rattle.dj_asm_source.specs.LineReading.{may_be_wide, wide, wide_after, operation, operation_by, wrong};
ghost use Rattle.dj_asm_source.specs.trusted.Lines.{Operation as LineOperation};
ghost use Rattle.dj_asm_tokens.specs.Views.{left_of};
ghost use Rattle.dj_asm_source.specs.OperationViews.{operation_view};
ghost use Rattle.dj_asm_source.specs.FormViews.{form_view};
ghost use Rattle.dj_asm_source.specs.Stops.{GivesRead, Stops};

use crate::form::{Form, form_of};
use crate::operand::{
    array, class_of, dynamic, grown, jump, load, load_long, local, member, multi, plain, push_byte,
    push_short,
};
use crate::reader::{Stop, word_at};
use crate::switch::{lookup, table};
use crate::syntax::Operation;
use dj_asm_tokens::{LineTokens, opcode_of};
use std::alloc::Global;

/// An instruction after its word, to the line's end.
pub(crate) fn operation<'t>(
    alloc: Global,
    op: u8,
    at: LineTokens<'t>,
) -> Result<(Operation<'t>, LineTokens<'t>), Stop>
    ensures { GivesRead (λ x. operation_view x.0) (λ x. left_of x.1) result (operation op (left_of at.entry)) }
{
    match form_of(op) {
        Form::Bare => plain(op, at),
        Form::SignedByte => push_byte(op, at),
        Form::SignedShort => push_short(op, at),
        Form::ShortLiteral => load(alloc, op, at),
        Form::LongLiteral => {
            if op == 20 {
                load_long(at)
            } else {
                load(alloc, op, at)
            }
        }
        Form::Slot => local(false, op, at),
        Form::SlotAndByte => grown(false, at),
        Form::ShortOffset | Form::LongOffset => jump(op, at),
        Form::MemberIndex | Form::InterfaceIndex => member(alloc, op, at),
        Form::DynamicIndex => dynamic(alloc, at),
        Form::ClassIndex => class_of(alloc, op, at),
        Form::ArrayType => array(at),
        Form::MultiIndex => multi(alloc, at),
        Form::TableSwitch => table(alloc, at),
        Form::LookupSwitch => lookup(alloc, at),
        Form::WidePrefix => wide(at),
        Form::Reserved => Err(wrong(at)),
    }
}

/// What isn't allowed here.
fn wrong(at: LineTokens<'_>) -> Stop
    ensures { Stops result (wrong {A = LineOperation} (left_of at.entry)) }
{
    match at.next() {
        None => Stop::Missing,
        Some((placed, _)) => Stop::Wrong {
            line: placed.line,
            column: placed.column,
        },
    }
}

/// An instruction after `wide`.
fn wide<'t>(at: LineTokens<'t>) -> Result<(Operation<'t>, LineTokens<'t>), Stop>
    ensures { GivesRead (λ x. operation_view x.0) (λ x. left_of x.1) result (wide (left_of at.entry)) }
{
    let spot = word_at(at)?;
    match opcode_of(spot.word.bytes) {
        Some(op) if may_be_wide(op) => wide_after(op, spot.rest),
        _ => Err(Stop::Wrong {
            line: spot.line,
            column: spot.column,
        }),
    }
}

fn wide_after<'t>(op: u8, at: LineTokens<'t>) -> Result<(Operation<'t>, LineTokens<'t>), Stop>
    ensures { GivesRead (λ x. operation_view x.0) (λ x. left_of x.1) result (wide_after op (left_of at.entry)) }
{
    if op == 132 {
        grown(true, at)
    } else {
        local(true, op, at)
    }
}

/// Whether the instruction may come after `wide`.
fn may_be_wide(op: u8) -> bool
    ensures { result ≡ may_be_wide (form_of op) }
{
    match form_of(op) {
        Form::Slot | Form::SlotAndByte => true,
        _ => false,
    }
}
