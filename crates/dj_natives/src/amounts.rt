ghost use Rattle.std.specs.Prelude.{◌≡◌, ◌+◌, ◌^◌, ◌<◌, ◌≤◌};
ghost use Rattle.dj_names.specs.trusted.Heaps as heaps;
ghost use Rattle.dj_model.specs.trusted.Charging as model;
ghost use Rattle.dj_model.specs.trusted.Natives.{allocation_amount, array_amount};
ghost use Rattle.dj_natives.specs.Counting.{text_amount};

use dj_names::{Charge, Costs, Thresholds};

/// The sums with one more charge.
pub fn added(costs: &Costs, charge: Charge, amount: u64) -> Costs
    requires alloc { costs.now.alloc + amount < 2 ^ 64 }
    requires invoke { costs.now.invoke + amount < 2 ^ 64 }
    requires jump { costs.now.jump + amount < 2 ^ 64 }
    requires throw { costs.now.throw + amount < 2 ^ 64 }
    ensures { result ≡ model.added costs.now charge amount }
{
    let mut sums = *costs;
    match charge {
        Charge::Alloc => sums.alloc += amount,
        Charge::Invoke => sums.invoke += amount,
        Charge::Jump => sums.jump += amount,
        Charge::Throw => sums.throw += amount,
    }
    sums
}

/// Whether the sum of the charge is above its threshold.
pub fn passes(most: &Thresholds, costs: &Costs, charge: Charge) -> bool
    ensures { result ≡ model.passes most.now costs.now charge }
{
    match charge {
        Charge::Alloc => most.alloc < costs.alloc,
        Charge::Invoke => most.invoke < costs.invoke,
        Charge::Jump => most.jump < costs.jump,
        Charge::Throw => most.throw < costs.throw,
    }
}

/// Rounded up to a multiple of 8.
pub fn rounded(n: u64) -> u64
    requires { n < 2 ^ 63 }
    ensures exact { result ≡ heaps.rounded n }
    ensures few { result ≤ 2 ^ 63 }
{
    (n + 7) / 8 * 8
}

/// This many bytes, and none where the number is negative.
pub fn allocated(size: i32) -> u64
    ensures exact { result ≡ allocation_amount size }
    ensures few { result < 2 ^ 31 }
{
    if size < 0 { 0 } else { size as u64 }
}

/// The bytes of an array of this many elements of this size, and none where one of the numbers is negative.
pub fn array_bytes(length: i32, element: i32) -> u64
    ensures exact { result ≡ array_amount length element }
    ensures few { result ≤ 2 ^ 63 + 16 }
{
    if length < 0 || element < 0 {
        0
    } else {
        16 + rounded(length as u64 * element as u64)
    }
}

/// The bytes of a text of this many units.
pub fn text_bytes(units: u64) -> u64
    requires { units < 2 ^ 62 }
    ensures exact { result ≡ text_amount units }
    ensures few { result ≤ 2 ^ 63 + 16 }
{
    16 + rounded(2 * units)
}
