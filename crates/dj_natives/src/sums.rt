ghost use Rattle.std.specs.Prelude.{◌≡◌, ◌≤◌, ◌+◌, ◌^◌, map, length, Some};
ghost use Rattle.dj_names.specs.declared.run.Charge.TheVariants as charges;
ghost use Rattle.dj_names.specs.trusted.Values.{value_kind};
ghost use Rattle.dj_model.specs.NativeKinds.{native_signature};
ghost use Rattle.dj_model.specs.trusted.Natives.{Seen};
ghost use Rattle.dj_natives.specs.Answers.{Says, is_adding, AddsSo, IsDue};
ghost use Rattle.dj_natives.specs.Counting.{Counts, due_view, text_amount};

use crate::accounter::{Accounter, Charged};
use crate::amount::Amount;
use crate::amounts::{allocated, array_bytes, text_bytes};
use crate::answer::Answer;
use crate::arguments::int;
use dj_names::{Charge, NativeId, Units, Value};

/// The answer of a method of the accounter that adds to a sum.
#[tactic(auto, using(crate::proofs::Others::no_adding), unfolding(dj_model::specs::trusted::Natives::answer))]
pub fn on_sums(id: NativeId, args: &[Value]) -> Option<Answer>
    requires { map value_kind args.now ≡ (native_signature id).parameters }
    ensures { (heap : Seen) → Says is_adding id heap args.now result }
{
    match id {
        NativeId::RecordJump => adds(Charge::Jump, 1),
        NativeId::RecordInvocation => adds(Charge::Invoke, 1),
        NativeId::RecordThrow => adds(Charge::Throw, 1),
        NativeId::RecordAllocation => adds(Charge::Alloc, allocated(int(args, 0))),
        NativeId::RecordArray => adds(Charge::Alloc, array_bytes(int(args, 0), int(args, 1))),
        _ => None,
    }
}

// It adds this amount.
fn adds(charge: Charge, amount: u64) -> Option<Answer>
    requires { amount ≤ 2 ^ 63 + 16 }
    ensures { AddsSo charge amount result }
{
    Some(Answer::Adds(Amount { charge, amount }))
}

/// What is charged before anything of an answer is done.
pub fn due(answer: &Option<Answer>) -> Option<Amount>
    ensures { IsDue answer.now (due_view result) }
{
    match answer {
        Some(Answer::MakesText(units)) => units_due(units),
        Some(Answer::KeepsText(_, units)) => units_due(units),
        Some(Answer::MakesChars(units)) => units_due(units),
        Some(Answer::Adds(due)) => Some(*due),
        _ => None,
    }
}

// The charge for an object with these units, a text or an array of chars.
fn units_due(units: &Units) -> Option<Amount>
    ensures { due_view result ≡ Some (charges.Alloc, text_amount (length units.now)) }
{
    Some(Amount {
        charge: Charge::Alloc,
        amount: text_bytes(units.as_slice().len() as u64),
    })
}

/// Adds what is due.
pub fn add_due(accounter: &mut Accounter, due: Option<Amount>) -> Charged
    ensures { Counts (due_view due) (Some accounter.old) (Some accounter.new) result }
{
    match due {
        Some(due) => accounter.add(due.charge, due.amount),
        None => Charged::Fine,
    }
}
