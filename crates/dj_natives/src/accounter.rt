ghost use Rattle.std.specs.Prelude.{◌≡◌, ◌≤◌, ◌+◌, ◌^◌, pos};
ghost use Rattle.dj_names.specs.declared.run.Charge.TheVariants as charges;
ghost use Rattle.dj_model.specs.trusted.Charging as model;
ghost use Rattle.dj_model.specs.trusted.Natives.{allocation_amount, array_amount};
ghost use Rattle.dj_natives.specs.Counting.{AreLow, Adds, text_amount};

use crate::amounts::{added, allocated, array_bytes, passes, text_bytes};
use dj_names::{Charge, Costs, Thresholds};
use std::marker::Model;

/// Whether a charge passed its threshold.
#[derive(Clone, Copy, Debug, PartialEq, Eq)]
pub enum Charged {
    /// No sum is above its threshold.
    Fine,
    /// A sum is above its threshold, now or since before.
    Stop,
}

/// The sums of what a run is charged, and the threshold of each.
#[derive(Debug, Drop)]
pub struct Accounter {
    limits: Thresholds,
    costs: Costs,
    exceeded: Option<Charge>,
}

impl Model for Accounter {
    ghost use Rattle.dj_model.specs.Laws.{IsReportedBy};
    ghost use Rattle.dj_natives.specs.Counting.{Counter, AreLow};

    ghost Value = { Counter };

    ghost view = { λ a. record { limits = a.limits; account = record { costs = a.costs; exceeded = a.exceeded } } };

    ghost invariant = { λ a. AreLow a.limits × IsReportedBy a.limits a.costs a.exceeded };
}

impl Accounter {
    /// All sums are 0.
    pub fn new(limits: Thresholds) -> Accounter
        requires { AreLow limits }
        ensures { result ≡ record { limits = limits; account = model.new_account } }
    {
        Accounter {
            limits,
            costs: Costs {
                alloc: 0,
                invoke: 0,
                jump: 0,
                throw: 0,
            },
            exceeded: None,
        }
    }

    /// Adds a jump.
    pub fn record_jump(&mut self) -> Charged
        ensures { Adds charges.Jump 1 self.old self.new result }
    {
        self.add(Charge::Jump, 1)
    }

    /// Adds an invocation.
    pub fn record_invocation(&mut self) -> Charged
        ensures { Adds charges.Invoke 1 self.old self.new result }
    {
        self.add(Charge::Invoke, 1)
    }

    /// Adds an exception that is thrown or caught.
    pub fn record_throw(&mut self) -> Charged
        ensures { Adds charges.Throw 1 self.old self.new result }
    {
        self.add(Charge::Throw, 1)
    }

    /// Adds this many bytes, and nothing where the number is negative.
    pub fn record_allocation(&mut self, size: i32) -> Charged
        ensures { Adds charges.Alloc (allocation_amount size) self.old self.new result }
    {
        self.add(Charge::Alloc, allocated(size))
    }

    /// Adds the bytes of an array of this many elements of this size, and nothing where one of the numbers is negative.
    pub fn record_array(&mut self, length: i32, element: i32) -> Charged
        ensures { Adds charges.Alloc (array_amount length element) self.old self.new result }
    {
        self.add(Charge::Alloc, array_bytes(length, element))
    }

    /// Adds the bytes of a text of this many units.
    pub fn record_text(&mut self, units: u32) -> Charged
        ensures { Adds charges.Alloc (text_amount units) self.old self.new result }
    {
        self.add(Charge::Alloc, text_bytes(u64::from(units)))
    }

    /// What was charged so far, a sum for each kind of charge.
    pub fn costs(&self) -> Costs
        ensures { result ≡ self.now.account.costs }
    {
        self.costs
    }

    /// The charge whose sum is above its threshold, where there is one.
    pub fn exceeded(&self) -> Option<Charge>
        ensures { result ≡ self.now.account.exceeded }
    {
        self.exceeded
    }

    // Adds to a sum, where none is above its threshold.
    #[tactic(auto, using(crate::proofs::Charges::fine_reported, crate::proofs::Charges::over_reported, crate::proofs::Charges::alloc_fits, crate::proofs::Charges::invoke_fits, crate::proofs::Charges::jump_fits, crate::proofs::Charges::throw_fits))]
    pub(crate) fn add(&mut self, charge: Charge, amount: u64) -> Charged
        requires { amount ≤ 2 ^ 63 + 16 }
        ensures { Adds charge amount self.old self.new result }
    {
        let None = self.exceeded else {
            return Charged::Stop;
        };
        self.costs = added(&self.costs, charge, amount);
        if !passes(&self.limits, &self.costs, charge) {
            return Charged::Fine;
        }
        self.exceeded = Some(charge);
        Charged::Stop
    }
}
