ghost use Rattle.std.specs.Prelude.{◌≡◌, ℕ, List, Option, Some, None};
ghost use Rattle.dj_model.specs.trusted.Instructions.{Nothing};
ghost use Rattle.dj_model.specs.trusted.Kinds.{Signature};
ghost use Rattle.dj_model.specs.trusted.Opcodes.{array_rows, bit_rows, constant_rows, jump_rows, last_rows, local_rows, new_array, number_rows, operand_does, row_does, simple, stack_rows, store_rows};
ghost use Rattle.dj_shape_rule.specs.Pools.{call_at};
ghost use Rattle.dj_shape_rule.specs.Works.{Calls, class_work, field_work, interface_method_work, interface_work, literal_work, member_work, method_work, work_of, work_view};

use crate::pool::ConstantKind;
use dj_names::Kind;

/// One operand that takes one slot, or what takes two.
#[derive(Clone, Copy)]
pub enum SlotWidth {
    One,
    Two,
}

/// What is done to the upper operands alone.
#[derive(Clone, Copy)]
pub enum KindMovement {
    /// They are dropped.
    Drop(SlotWidth),
    /// They are pushed once more.
    Double(SlotWidth),
    /// They are pushed once more, below those under them.
    Under(SlotWidth, SlotWidth),
    /// The upper two change places.
    Swap,
}

/// What an instruction does to kinds.
#[derive(Clone, Copy)]
pub enum Effect {
    /// These operands are taken, the top first, and then one is pushed, where there is one.
    Gives(&'static [Kind], Option<Kind>),
    /// A local variable is loaded.
    Load(Kind, u16),
    /// A local variable is stored.
    Store(Kind, u16),
    /// A number is added to a local variable.
    Increment(u16),
    Move(KindMovement),
    Return(Option<Kind>),
    /// A method is called, with the count that stands beside its index and the index of its descriptor's text.
    Call {
        is_static: bool,
        count: Option<u8>,
        desc: u16,
    },
    /// It isn't supported.
    Fails,
}

// ---- instructions without operands

/// What an instruction without operands does.
#[tactic(auto, unfolding(dj_model::specs::trusted::Opcodes::simple))]
pub fn simple_effect(op: u8) -> Effect
    ensures { (calls : List (Option Signature)) → work_view calls result ≡ work_of (simple Nothing op) }
{
    match op {
        0..=45 => constant_effect(op),
        46..=86 => element_effect(op),
        87..=95 => move_effect(op),
        96..=119 => number_effect(op),
        120..=132 => bit_effect(op),
        _ => last_effect(op),
    }
}

fn constant_effect(op: u8) -> Effect
    ensures { (calls : List (Option Signature)) → work_view calls result ≡ work_of (row_does constant_rows Nothing op) }
{
    match op {
        0 => Effect::Gives(&[], None),
        1 => Effect::Gives(&[], Some(Kind::Ref)),
        2..=8 => Effect::Gives(&[], Some(Kind::Int)),
        9..=10 => Effect::Gives(&[], Some(Kind::Long)),
        26..=29 => Effect::Load(Kind::Int, u16::from(op - 26)),
        30..=33 => Effect::Load(Kind::Long, u16::from(op - 30)),
        42..=45 => Effect::Load(Kind::Ref, u16::from(op - 42)),
        _ => Effect::Fails,
    }
}

fn element_effect(op: u8) -> Effect
    ensures { (calls : List (Option Signature)) → work_view calls result ≡ work_of (row_does store_rows Nothing op) }
{
    match op {
        46 | 51..=53 => Effect::Gives(&[Kind::Int, Kind::Ref], Some(Kind::Int)),
        47 => Effect::Gives(&[Kind::Int, Kind::Ref], Some(Kind::Long)),
        50 => Effect::Gives(&[Kind::Int, Kind::Ref], Some(Kind::Ref)),
        59..=62 => Effect::Store(Kind::Int, u16::from(op - 59)),
        63..=66 => Effect::Store(Kind::Long, u16::from(op - 63)),
        75..=78 => Effect::Store(Kind::Ref, u16::from(op - 75)),
        79 | 84..=86 => Effect::Gives(&[Kind::Int, Kind::Int, Kind::Ref], None),
        80 => Effect::Gives(&[Kind::Long, Kind::Int, Kind::Ref], None),
        83 => Effect::Gives(&[Kind::Ref, Kind::Int, Kind::Ref], None),
        _ => Effect::Fails,
    }
}

fn move_effect(op: u8) -> Effect
    ensures { (calls : List (Option Signature)) → work_view calls result ≡ work_of (row_does stack_rows Nothing op) }
{
    match op {
        87 => Effect::Move(KindMovement::Drop(SlotWidth::One)),
        88 => Effect::Move(KindMovement::Drop(SlotWidth::Two)),
        89 => Effect::Move(KindMovement::Double(SlotWidth::One)),
        90 => Effect::Move(KindMovement::Under(SlotWidth::One, SlotWidth::One)),
        91 => Effect::Move(KindMovement::Under(SlotWidth::One, SlotWidth::Two)),
        92 => Effect::Move(KindMovement::Double(SlotWidth::Two)),
        93 => Effect::Move(KindMovement::Under(SlotWidth::Two, SlotWidth::One)),
        94 => Effect::Move(KindMovement::Under(SlotWidth::Two, SlotWidth::Two)),
        95 => Effect::Move(KindMovement::Swap),
        _ => Effect::Fails,
    }
}

fn number_effect(op: u8) -> Effect
    ensures { (calls : List (Option Signature)) → work_view calls result ≡ work_of (row_does number_rows Nothing op) }
{
    match op {
        96 | 100 | 104 | 108 | 112 => Effect::Gives(&[Kind::Int, Kind::Int], Some(Kind::Int)),
        97 | 101 | 105 | 109 | 113 => Effect::Gives(&[Kind::Long, Kind::Long], Some(Kind::Long)),
        116 => Effect::Gives(&[Kind::Int], Some(Kind::Int)),
        117 => Effect::Gives(&[Kind::Long], Some(Kind::Long)),
        _ => Effect::Fails,
    }
}

fn bit_effect(op: u8) -> Effect
    ensures { (calls : List (Option Signature)) → work_view calls result ≡ work_of (row_does bit_rows Nothing op) }
{
    match op {
        120 | 122 | 124 | 126 | 128 | 130 => {
            Effect::Gives(&[Kind::Int, Kind::Int], Some(Kind::Int))
        }
        // A long is shifted by an int.
        121 | 123 | 125 => Effect::Gives(&[Kind::Int, Kind::Long], Some(Kind::Long)),
        127 | 129 | 131 => Effect::Gives(&[Kind::Long, Kind::Long], Some(Kind::Long)),
        _ => Effect::Fails,
    }
}

fn last_effect(op: u8) -> Effect
    ensures { (calls : List (Option Signature)) → work_view calls result ≡ work_of (row_does last_rows Nothing op) }
{
    match op {
        133 => Effect::Gives(&[Kind::Int], Some(Kind::Long)),
        136 => Effect::Gives(&[Kind::Long], Some(Kind::Int)),
        145..=147 => Effect::Gives(&[Kind::Int], Some(Kind::Int)),
        148 => Effect::Gives(&[Kind::Long, Kind::Long], Some(Kind::Int)),
        172 => Effect::Return(Some(Kind::Int)),
        173 => Effect::Return(Some(Kind::Long)),
        176 => Effect::Return(Some(Kind::Ref)),
        177 => Effect::Return(None),
        190 => Effect::Gives(&[Kind::Ref], Some(Kind::Int)),
        191 | 194..=195 => Effect::Gives(&[Kind::Ref], None),
        _ => Effect::Fails,
    }
}

// ---- instructions with operands that name no constant

/// What an instruction with a slot does.
pub fn local_effect(op: u8, slot: u16) -> Effect
    ensures { (calls : List (Option Signature)) → work_view calls result ≡ work_of (operand_does local_rows Nothing op slot) }
{
    match op {
        21 => Effect::Load(Kind::Int, slot),
        22 => Effect::Load(Kind::Long, slot),
        25 => Effect::Load(Kind::Ref, slot),
        54 => Effect::Store(Kind::Int, slot),
        55 => Effect::Store(Kind::Long, slot),
        58 => Effect::Store(Kind::Ref, slot),
        _ => Effect::Fails,
    }
}

/// What a jump does.
pub fn jump_effect(op: u8) -> Effect
    ensures { (calls : List (Option Signature)) (target : ℕ) → work_view calls result ≡ work_of (operand_does jump_rows Nothing op target) }
{
    match op {
        153..=158 => Effect::Gives(&[Kind::Int], None),
        159..=164 => Effect::Gives(&[Kind::Int, Kind::Int], None),
        165..=166 => Effect::Gives(&[Kind::Ref, Kind::Ref], None),
        167 | 200 => Effect::Gives(&[], None),
        198..=199 => Effect::Gives(&[Kind::Ref], None),
        _ => Effect::Fails,
    }
}

/// What newarray does with a base type.
pub fn array_effect(base: u8) -> Effect
    ensures { (calls : List (Option Signature)) → work_view calls result ≡ work_of (new_array array_rows base) }
{
    match base {
        4 | 5 | 8..=11 => Effect::Gives(&[Kind::Int], Some(Kind::Ref)),
        _ => Effect::Fails,
    }
}

// ---- instructions that name a constant

/// What ldc, ldc_w and ldc2_w do.
pub fn literal_effect(op: u8, constant: ConstantKind) -> Effect
    ensures { (calls : List (Option Signature)) → work_view calls result ≡ literal_work op constant }
{
    match constant {
        ConstantKind::Int if op != 20 => Effect::Gives(&[], Some(Kind::Int)),
        ConstantKind::Text if op != 20 => Effect::Gives(&[], Some(Kind::Ref)),
        ConstantKind::Long if op == 20 => Effect::Gives(&[], Some(Kind::Long)),
        _ => Effect::Fails,
    }
}

fn put_static(kind: Kind) -> Effect
    ensures { (calls : List (Option Signature)) → work_view calls result ≡ field_work 179 (Some kind) }
{
    match kind {
        Kind::Int => Effect::Gives(&[Kind::Int], None),
        Kind::Long => Effect::Gives(&[Kind::Long], None),
        Kind::Ref => Effect::Gives(&[Kind::Ref], None),
    }
}

fn put_field(kind: Kind) -> Effect
    ensures { (calls : List (Option Signature)) → work_view calls result ≡ field_work 181 (Some kind) }
{
    match kind {
        Kind::Int => Effect::Gives(&[Kind::Int, Kind::Ref], None),
        Kind::Long => Effect::Gives(&[Kind::Long, Kind::Ref], None),
        Kind::Ref => Effect::Gives(&[Kind::Ref, Kind::Ref], None),
    }
}

// What an instruction does with a field whose values have this kind.
fn field_effect(op: u8, kind: Option<Kind>) -> Effect
    ensures { (calls : List (Option Signature)) → work_view calls result ≡ field_work op kind }
{
    match (op, kind) {
        (178, Some(_)) => Effect::Gives(&[], kind),
        (179, Some(kind)) => put_static(kind),
        (180, Some(_)) => Effect::Gives(&[Kind::Ref], kind),
        (181, Some(kind)) => put_field(kind),
        _ => Effect::Fails,
    }
}

// A call without a count.
fn call(is_static: bool, desc: u16) -> Effect
    ensures { (calls : List (Option Signature)) → work_view calls result ≡ Calls is_static None (call_at calls desc) }
{
    Effect::Call {
        is_static,
        count: None,
        desc,
    }
}

// What an instruction does with a method of a class, whose descriptor has this index.
fn method_effect(op: u8, desc: u16) -> Effect
    ensures { (calls : List (Option Signature)) → work_view calls result ≡ method_work op (call_at calls desc) }
{
    match op {
        182..=183 => call(false, desc),
        184 => call(true, desc),
        _ => Effect::Fails,
    }
}

// The same for a method of an interface.
fn interface_method_effect(op: u8, desc: u16) -> Effect
    ensures { (calls : List (Option Signature)) → work_view calls result ≡ interface_method_work op (call_at calls desc) }
{
    match op {
        183 => call(false, desc),
        184 => call(true, desc),
        _ => Effect::Fails,
    }
}

/// What an instruction does with a field or a method, except invokeinterface.
pub fn member_effect(op: u8, constant: ConstantKind) -> Effect
    ensures { (calls : List (Option Signature)) → work_view calls result ≡ member_work calls op constant }
{
    match constant {
        ConstantKind::Field(kind) => field_effect(op, kind),
        ConstantKind::Method(desc) => method_effect(op, desc),
        ConstantKind::InterfaceMethod(desc) => interface_method_effect(op, desc),
        _ => Effect::Fails,
    }
}

/// What invokeinterface does.
pub fn interface_effect(count: u8, constant: ConstantKind) -> Effect
    ensures { (calls : List (Option Signature)) → work_view calls result ≡ interface_work calls count constant }
{
    match constant {
        ConstantKind::InterfaceMethod(desc) => Effect::Call {
            is_static: false,
            count: Some(count),
            desc,
        },
        _ => Effect::Fails,
    }
}

/// What an instruction does with a class.
pub fn class_effect(op: u8, constant: ConstantKind) -> Effect
    ensures { (calls : List (Option Signature)) → work_view calls result ≡ class_work op constant }
{
    match (op, constant) {
        (187, ConstantKind::Class) => Effect::Gives(&[], Some(Kind::Ref)),
        (189, ConstantKind::Class) => Effect::Gives(&[Kind::Int], Some(Kind::Ref)),
        (192, ConstantKind::Class) => Effect::Gives(&[Kind::Ref], Some(Kind::Ref)),
        (193, ConstantKind::Class) => Effect::Gives(&[Kind::Ref], Some(Kind::Int)),
        _ => Effect::Fails,
    }
}
