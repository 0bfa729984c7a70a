ghost use Rattle.std.specs.Prelude.{◌≡◌, ◌≤◌, length};
ghost use Rattle.dj_groups.specs.Groups.{inserted};
ghost use Rattle.dj_emit.specs.Parts.{charge_list, group_seen};

use crate::size::ObjectSize;
use dj_names::Element;

/// What an instruction is charged.
#[derive(Clone, Copy, Debug)]
pub(crate) enum Charge {
    Free,
    Jump,
    Invocation,
    Throw,
    Object(ObjectSize),
    /// An array of such elements.
    Array(Element),
}

/// The group of an instruction.
#[derive(Clone, Copy, Debug)]
pub(crate) struct GroupPart {
    /// The instruction is the first of a handler.
    pub(crate) arrives: bool,
    pub(crate) charge: Charge,
    /// The instruction becomes a pop.
    pub(crate) popped: bool,
}

// How many instructions a charge inserts.
fn charge_count(charge: Charge) -> u32
    ensures is { result ≡ length (charge_list charge) }
    ensures few { result ≤ 3 }
{
    match charge {
        Charge::Free => 0,
        Charge::Jump => 1,
        Charge::Invocation => 1,
        Charge::Throw => 1,
        Charge::Object(_) => 2,
        Charge::Array(_) => 3,
    }
}

/// How many instructions are inserted before the group's own.
pub(crate) fn inserted_count(group: GroupPart) -> u32
    ensures is { result ≡ length (inserted (group_seen group)) }
    ensures few { result ≤ 6 }
{
    let own = charge_count(group.charge);
    if group.arrives { own + 3 } else { own }
}
