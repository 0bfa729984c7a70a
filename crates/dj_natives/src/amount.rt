ghost use Rattle.std.specs.Prelude.{◌≤◌, ◌+◌, ◌^◌};

use dj_names::Charge;

/// What is added to a sum at once.
#[derive(Clone, Copy, Debug)]
pub struct Amount {
    pub charge: Charge,
    pub amount: u64,
    pub ghost few: { amount ≤ 2 ^ 63 + 16 },
}
