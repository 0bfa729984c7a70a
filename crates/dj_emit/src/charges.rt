ghost use Rattle.std.specs.Prelude.{◌≡◌};
ghost use Rattle.dj_groups.specs.Groups.{other_charge};
ghost use Rattle.dj_emit.specs.Parts.{charge_list};
ghost use Rattle.dj_emit.specs.Charges.{array_list, is_monitor, is_new, jump_list, plain_list, simple_list};

use crate::parts::{Charge, GroupPart};
use dj_names::Element;
use dj_ops::Instr;

// What an instruction is charged that isn't supported, or that names a member or an array's class.
fn opcode_charge(op: u8) -> Charge
    ensures { charge_list result ≡ other_charge op }
{
    match op {
        182..=185 => Charge::Invocation,
        189 => Charge::Array(Element::Ref),
        _ => Charge::Free,
    }
}

fn simple_charge(op: u8) -> Charge
    ensures { charge_list result ≡ simple_list op }
{
    if op == 191 {
        Charge::Throw
    } else {
        opcode_charge(op)
    }
}

fn jump_charge(op: u8) -> Charge
    ensures { charge_list result ≡ jump_list op }
{
    match op {
        153..=167 => Charge::Jump,
        198..=200 => Charge::Jump,
        _ => opcode_charge(op),
    }
}

fn array_charge(base: u8) -> Charge
    ensures { charge_list result ≡ array_list base }
{
    match base {
        4 => Charge::Array(Element::Boolean),
        5 => Charge::Array(Element::Char),
        8 => Charge::Array(Element::Byte),
        9 => Charge::Array(Element::Short),
        10 => Charge::Array(Element::Int),
        11 => Charge::Array(Element::Long),
        _ => Charge::Free,
    }
}

// What any instruction but `new` is charged.
fn plain_charge(instr: &Instr) -> Charge
    ensures { charge_list result ≡ plain_list instr.now }
{
    match instr {
        Instr::Simple { op } => simple_charge(*op),
        Instr::Local { op, .. } => opcode_charge(*op),
        Instr::Branch { op, .. } => jump_charge(*op),
        Instr::Table { .. } => Charge::Jump,
        Instr::Lookup { .. } => Charge::Jump,
        Instr::Member { op, .. } => opcode_charge(*op),
        Instr::Interface { .. } => Charge::Invocation,
        Instr::Class { op, .. } => opcode_charge(*op),
        Instr::Array { base } => array_charge(*base),
        _ => Charge::Free,
    }
}

// Whether it is monitorenter or monitorexit.
fn is_monitor_op(instr: &Instr) -> bool
    ensures { result ≡ is_monitor instr.now }
{
    match instr {
        Instr::Simple { op } => *op >= 194 && *op <= 195,
        _ => false,
    }
}

/// Whether it is `new`.
pub(crate) fn makes_object(instr: &Instr) -> bool
    ensures { result ≡ is_new instr.now }
{
    match instr {
        Instr::Class { op, .. } => *op == 187,
        _ => false,
    }
}

/// The group of any instruction but `new`.
pub(crate) fn plain_part(instr: &Instr, arrives: bool) -> GroupPart
    ensures arrives { result.arrives ≡ arrives }
    ensures charge { charge_list result.charge ≡ plain_list instr.now }
    ensures popped { result.popped ≡ is_monitor instr.now }
{
    GroupPart {
        arrives,
        charge: plain_charge(instr),
        popped: is_monitor_op(instr),
    }
}
