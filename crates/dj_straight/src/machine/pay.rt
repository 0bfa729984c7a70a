ghost use Rattle.std.specs.Prelude.{◌≡◌, ◌≤◌, Some};
ghost use Rattle.dj_names.specs.declared.run.Element.TheVariants.{Byte};
ghost use Rattle.dj_straight.specs.trusted.Charges.{array_amount, paid};
ghost use Rattle.dj_straight.specs.Methods.{action_view};
ghost use Rattle.dj_straight.specs.Turns.{straight_amounts, charged_view, PaysWithin};

use crate::machine::operands::Operands;
use crate::program::Action;
use dj_names::{Costs, Thresholds, Value};

/// The sums after the next instruction's charges.
#[derive(Clone, Copy)]
pub enum Charged {
    Paid(Costs),
    /// The allocated bytes pass their threshold.
    Exceeds(Costs),
}

// What an array of bytes is charged, with its length on top.
fn byte_array_amount(operands: &Operands) -> u64
    ensures value { result ≡ array_amount Byte operands.now }
    ensures bound { result ≤ 2147483671 }
{
    match operands.top() {
        Some(Value::Int(count)) if count >= 0 => 16 + (count as u64 + 7) / 8 * 8,
        _ => 0,
    }
}

/// The charges are added.
pub fn pay(action: Action, operands: &Operands, costs: Costs, most: &Thresholds) -> Charged
    requires costs { costs.alloc ≤ 1073741824 }
    ensures value { paid most.now costs (straight_amounts (action_view action) operands.now) ≡ charged_view result }
    ensures within { costs.alloc ≤ most.now.alloc → PaysWithin most.now result }
{
    if action != Action::NewByteArray {
        return Charged::Paid(costs);
    }
    let charged = Costs {
        alloc: costs.alloc + byte_array_amount(operands),
        invoke: costs.invoke,
        jump: costs.jump,
        throw: costs.throw,
    };
    if charged.alloc > most.alloc {
        Charged::Exceeds(charged)
    } else {
        Charged::Paid(charged)
    }
}
