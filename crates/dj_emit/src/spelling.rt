ghost use Rattle.std.specs.Prelude.{◌≡◌, ◌+◌, ◌∷◌, [], ◌++◌, ◌<◌, ◌^◌, length, map, IfOk, OnOk};
ghost use Rattle.std.specs.List.{AllByRecursion};
ghost use Rattle.dj_labels.specs.trusted.Labels.{HasNumbers};
ghost use Rattle.dj_labels.specs.Labels.{IsWellFormed};
ghost use Rattle.dj_names.specs.trusted.Values.{element_size};
ghost use Rattle.dj_groups.specs.Groups.{arrival, starts, owns};
ghost use Rattle.dj_groups.specs.Grouped.{element_push, inserted_instr, labels_in_groups};
ghost use Rattle.dj_emit.specs.Parts.{charge_list, groups_seen, own_by};
ghost use Rattle.dj_emit.specs.Places.{ArePlaces};
ghost use Rattle.dj_emit.specs.Aimed.{own_aimed};
ghost use Rattle.dj_emit.specs.Spelled.{counter_seen, group_spelled, spelled_up_to};
ghost use Rattle.dj_emit.specs.declared.parts.Charge.TheVariants as charges;

use crate::cuts::cut_ranges;
use crate::parts::{Charge, GroupPart};
use crate::places::{Places, places_of};
use crate::targets::aimed;
use dj_labels::Labelled;
use dj_names::Element;
use dj_ops::{Instr, Instrs, Starts};
use std::alloc::{AllocError, Global};

/// Code in groups.
#[derive(Debug, Drop)]
pub struct Grouped {
    pub code: Labelled,
    /// The numbers at which the groups start, in the order of their instructions, and the code's end.
    pub start: Starts,
    /// The numbers of the instructions themselves, and the code's end.
    pub own: Starts,
}

// What a method of the accounter counts.
#[derive(Clone, Copy)]
enum Counter {
    Jumps,
    Invocations,
    Throws,
    Allocations,
    Arrays,
    Catches,
}

// The call of the accounter's method.
fn record_call(first: u16, counter: Counter) -> Instr
    requires { first + 25 < 2 ^ 16 }
    ensures { result ≡ inserted_instr first (counter_seen counter) }
{
    let index = match counter {
        Counter::Jumps => first + 5,
        Counter::Invocations => first + 9,
        Counter::Throws => first + 13,
        Counter::Allocations => first + 17,
        Counter::Arrays => first + 21,
        Counter::Catches => first + 25,
    };
    Instr::Member { op: 184, index }
}

// The bytes of an element are pushed.
fn push_bytes(element: Element) -> Instr
    ensures { result ≡ element_push (element_size element) }
{
    match element {
        Element::Boolean => Instr::Simple { op: 4 },
        Element::Byte => Instr::Simple { op: 4 },
        Element::Char => Instr::Simple { op: 5 },
        Element::Short => Instr::Simple { op: 5 },
        Element::Int => Instr::Simple { op: 7 },
        Element::Long => Instr::Push { op: 16, value: 8 },
        Element::Ref => Instr::Simple { op: 7 },
    }
}

// What is inserted before the first instruction of a handler.
fn put_arrival(out: &mut Instrs, first: u16, arrives: bool) -> Result<(), AllocError>
    requires { first + 25 < 2 ^ 16 }
    ensures { OnOk result (out.new ≡ out.old ++ map (inserted_instr first) (arrival arrives)) }
{
    if !arrives {
        return Ok(());
    }
    out.push(Instr::Simple { op: 89 })?;
    out.push(record_call(first, Counter::Catches))?;
    out.push(record_call(first, Counter::Throws))
}

// What is inserted for an array.
fn put_array(out: &mut Instrs, first: u16, element: Element) -> Result<(), AllocError>
    requires { first + 25 < 2 ^ 16 }
    ensures { OnOk result (out.new ≡ out.old ++ map (inserted_instr first) (charge_list (charges.Array element))) }
{
    out.push(Instr::Simple { op: 89 })?;
    out.push(push_bytes(element))?;
    out.push(record_call(first, Counter::Arrays))
}

// What is inserted for the instruction itself.
fn put_charge(out: &mut Instrs, first: u16, charge: Charge) -> Result<(), AllocError>
    requires { first + 25 < 2 ^ 16 }
    ensures { OnOk result (out.new ≡ out.old ++ map (inserted_instr first) (charge_list charge)) }
{
    match charge {
        Charge::Free => Ok(()),
        Charge::Jump => out.push(record_call(first, Counter::Jumps)),
        Charge::Invocation => out.push(record_call(first, Counter::Invocations)),
        Charge::Throw => out.push(record_call(first, Counter::Throws)),
        Charge::Object(size) => {
            out.push(Instr::Push {
                op: 17,
                value: size.bytes as i16,
            })?;
            out.push(record_call(first, Counter::Allocations))
        }
        Charge::Array(element) => put_array(out, first, element),
    }
}

// What becomes of the instruction itself.
#[tactic(auto, unfolding(crate::specs::Aimed::own_aimed))]
fn put_own(
    alloc: Global,
    out: &mut Instrs,
    start: &[u32],
    popped: bool,
    instr: &Instr,
) -> Result<(), AllocError>
    requires { HasNumbers (length start.now) instr.now }
    ensures { OnOk result (out.new ≡ out.old ++ own_aimed start.now (own_by popped) instr.now ∷ []) }
{
    if popped {
        return out.push(Instr::Simple { op: 87 });
    }
    out.push(aimed(alloc, start, instr)?)
}

// The group of an instruction, as instructions.
fn put_group(
    alloc: Global,
    out: &mut Instrs,
    first: u16,
    start: &[u32],
    part: GroupPart,
    instr: &Instr,
) -> Result<(), AllocError>
    requires few { first + 25 < 2 ^ 16 }
    requires numbers { HasNumbers (length start.now) instr.now }
    ensures { OnOk result (out.new ≡ out.old ++ group_spelled first start.now part instr.now) }
{
    put_arrival(out, first, part.arrives)?;
    put_charge(out, first, part.charge)?;
    put_own(alloc, out, start, part.popped, instr)
}

// All groups, as instructions.
fn spelled_code(
    alloc: Global,
    first: u16,
    places: &Places,
    code: &[Instr],
) -> Result<Instrs, AllocError>
    requires first { first + 25 < 2 ^ 16 }
    requires places { ArePlaces places.now }
    requires same { length places.now.groups.items ≡ length code.now }
    requires numbers { AllByRecursion (HasNumbers (length code.now)) code.now }
    ensures { IfOk result (λ out. out ≡ spelled_up_to first places.now.groups.items code.now (length code.now)) }
{
    let mut out = Instrs::with_capacity(alloc, code.len())?;
    for i in 0..code.len() {
        put_group(
            alloc,
            &mut out,
            first,
            &places.start,
            places.groups[i],
            &code[i],
        )?;
    }
    Ok(out)
}

/// Labelled code in these groups, with indexes of a pool that has the accounter's constants from `first` on.
pub(crate) fn group_code(
    alloc: Global,
    first: u16,
    groups: Vec<GroupPart>,
    labelled: &Labelled,
) -> Result<Grouped, AllocError>
    requires first { first + 25 < 2 ^ 16 }
    requires few { length labelled.now.code < 2 ^ 16 }
    requires same { length groups.items ≡ length labelled.now.code }
    requires well_formed { IsWellFormed labelled.now }
    ensures code { IfOk result (λ made. made.code ≡ labels_in_groups first (groups_seen groups.items) labelled.now) }
    ensures start { IfOk result (λ made. made.start ≡ starts (groups_seen groups.items)) }
    ensures own { IfOk result (λ made. made.own ≡ owns (groups_seen groups.items)) }
{
    let places = places_of(alloc, groups)?;
    let code = spelled_code(alloc, first, &places, labelled.code.as_slice())?;
    let ranges = cut_ranges(alloc, &places, labelled.ranges.as_slice())?;
    Ok(Grouped {
        code: Labelled { code, ranges },
        start: Starts::from_vec(places.start),
        own: Starts::from_vec(places.own),
    })
}
