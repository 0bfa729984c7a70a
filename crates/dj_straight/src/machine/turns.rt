ghost use Rattle.std.specs.Prelude.{◌≡◌, ◌≤◌, None, Some, Ok, IsSome, IfOk};
ghost use Rattle.dj_names.specs.declared.run.Value.TheVariants as values;
ghost use Rattle.dj_names.specs.trusted.Values.{raised_class};
ghost use Rattle.dj_names.specs.declared.run.Costs.{Costs};
ghost use Rattle.dj_names.specs.declared.run.Charge.TheVariants.{Alloc};
ghost use Rattle.dj_names.specs.declared.run.Outcome.TheVariants.{Stopped};
ghost use Rattle.dj_straight.specs.trusted.Charges.{paid, Exceeds};
ghost use Rattle.dj_straight.specs.trusted.Step.{result_outcome};
ghost use Rattle.dj_straight.specs.Methods.{action_view};
ghost use Rattle.dj_straight.specs.declared.machine.turns.Advance.TheVariants as turns;
ghost use Rattle.dj_straight.specs.Machines.{machine_view, straight_effect};
ghost use Rattle.dj_straight.specs.Turns.{straight_amounts, TurnsDo, IsDone, GoesWithin};

use crate::machine::StraightEnding;
use crate::machine::first::unsigned_bytes;
use crate::machine::heap::{Heap, Referent};
use crate::machine::parts::{Progress, StraightMachine};
use crate::machine::pay::{Charged, pay};
use crate::program::Action;
use dj_names::{Charge, Costs, Message, Name, Outcome, Raised, Thresholds};
use std::alloc::{AllocError, Global};

/// How a run goes on after an instruction.
#[derive(Drop)]
pub enum Advance {
    /// It goes on, and these are the costs so far.
    Go(Costs),
    End(StraightEnding),
}

fn raised_text(raised: Raised) -> &'static [u8]
    ensures { result.now ≡ raised_class raised }
{
    match raised {
        Raised::Arithmetic => b"java/lang/ArithmeticException".as_slice(),
        Raised::ArrayIndexOutOfBounds => b"java/lang/ArrayIndexOutOfBoundsException".as_slice(),
        Raised::ArrayStore => b"java/lang/ArrayStoreException".as_slice(),
        Raised::ClassCast => b"java/lang/ClassCastException".as_slice(),
        Raised::NegativeArraySize => b"java/lang/NegativeArraySizeException".as_slice(),
        Raised::NullPointer => b"java/lang/NullPointerException".as_slice(),
        Raised::StringIndexOutOfBounds => {
            b"java/lang/StringIndexOutOfBoundsException".as_slice()
        }
    }
}

// The outcome where the entry returns this reference.
fn returned(alloc: Global, heap: &Heap, reference: u32) -> Result<Outcome, AllocError>
    ensures { IfOk result (λ outcome. outcome ≡ result_outcome heap.now (Some (values.Ref reference))) }
{
    match heap.array(reference) {
        Referent::Null => Ok(Outcome::OkNull),
        Referent::NoArray => Ok(Outcome::Link),
        Referent::Bytes(bytes) => Ok(Outcome::OkBytes(unsigned_bytes(alloc, bytes)?)),
    }
}

fn end(outcome: Outcome, costs: Costs) -> Result<Advance, AllocError>
    ensures { result ≡ Ok (turns.End (record { outcome = outcome; costs = costs })) }
{
    Ok(Advance::End(StraightEnding { outcome, costs }))
}

impl StraightMachine {
    // The instruction is done, after its charges were added.
    fn done(&mut self, alloc: Global, action: Action, costs: Costs) -> Result<Advance, AllocError>
        requires { IsSome (straight_effect (action_view action) (machine_view self.old)) }
        ensures { IfOk result (IsDone costs (action_view action) (machine_view self.old) (machine_view self.new)) }
    {
        match self.act(alloc, action)? {
            Progress::Next => Ok(Advance::Go(costs)),
            Progress::Raises(raised) => {
                let class = Name::from_slice(alloc, raised_text(raised))?;
                end(Outcome::Threw(class, Message::Null), costs)
            }
            Progress::Returns(reference) => end(returned(alloc, &self.heap, reference)?, costs),
            Progress::Broken => end(Outcome::Link, costs),
            Progress::IllFormed => unreachable!(),
        }
    }

    /// An instruction's charges are added, and then it is done.
    pub fn turns(
        &mut self,
        alloc: Global,
        action: Action,
        costs: Costs,
        most: &Thresholds,
    ) -> Result<Advance, AllocError>
        requires sound { IsSome (straight_effect (action_view action) (machine_view self.old)) }
        requires costs { costs.alloc ≤ 1073741824 }
        ensures turns { IfOk result (TurnsDo most.now costs (action_view action) (machine_view self.old) (machine_view self.new)) }
        ensures within { costs.alloc ≤ most.now.alloc → IfOk result (GoesWithin most.now) }
        // A charge that passes its threshold stops the run before the machine changes, and want of memory can't come in its place.
        ensures stopped { (now : Costs) → paid most.now costs (straight_amounts (action_view action) self.old.operands) ≡ Exceeds Alloc now
            → (machine_view self.new ≡ machine_view self.old) × (result ≡ Ok (turns.End (record { outcome = Stopped Alloc; costs = now }))) }
    {
        match pay(action, &self.operands, costs, most) {
            Charged::Paid(costs) => self.done(alloc, action, costs),
            Charged::Exceeds(costs) => end(Outcome::Stopped(Charge::Alloc), costs),
        }
    }
}
