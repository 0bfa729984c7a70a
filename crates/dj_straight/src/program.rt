ghost use Rattle.std.specs.Prelude.{◌≡◌};
ghost use Rattle.dj_straight.specs.trusted.Instructions.{instruction_of, local_does, local_rows, new_array, simple};
ghost use Rattle.dj_straight.specs.trusted.StraightInstrs.{first_byte};
ghost use Rattle.dj_straight.specs.Methods.{action_view};

use dj_names::{Kind, Name, Value};
use dj_ops::Instr;

/// The descriptor of a straight method.
pub const DESCRIPTOR: &[u8] = b"([B)[B";

/// What is computed from two ints.
#[derive(Clone, Copy, Debug, PartialEq, Eq)]
pub enum IntOperation {
    Add,
    Subtract,
    Multiply,
    And,
    Or,
    Xor,
}

/// What a straight instruction does.
#[derive(Clone, Copy, Debug, PartialEq, Eq)]
pub enum Action {
    Nop,
    /// A value is pushed.
    Push(Value),
    /// A local variable of the kind is pushed.
    Load(Kind, u16),
    /// A value of the kind is stored in a local variable.
    Store(Kind, u16),
    /// An element of an array of bytes is pushed.
    LoadByte,
    /// A value is stored in an array of bytes.
    StoreByte,
    Pop,
    Dup,
    /// Two ints are taken, and what is computed of them is pushed.
    Compute(IntOperation),
    /// A reference is returned.
    ReturnReference,
    ArrayLength,
    /// An array of bytes is made.
    NewByteArray,
    /// An instruction that isn't straight, by its first byte.
    Other(u8),
}

/// A static method of straight code, from an array of bytes to one.
#[derive(Drop)]
pub struct StraightMethod {
    pub flags: u16,
    pub name: Name,
    pub max_stack: u16,
    pub max_locals: u16,
    pub actions: Vec<Action>,
}

/// A class of such methods.
#[derive(Drop)]
pub struct StraightClass {
    pub name: Name,
    pub flags: u16,
    pub methods: Vec<StraightMethod>,
}

/// What an instruction does.
#[tactic(auto, unfolding(crate::specs::trusted::Instructions::instruction_of))]
pub fn action_of(instr: &Instr) -> Action
    ensures { action_view result ≡ instruction_of instr.now }
{
    match instr {
        Instr::Simple { op } => simple_action(*op),
        Instr::Push { value, .. } => Action::Push(Value::Int(i32::from(*value))),
        Instr::Local { op, slot, .. } => local_action(*op, *slot),
        Instr::Array { base } => array_action(*base),
        _ => Action::Other(first_byte(instr)),
    }
}

/// The byte with which an instruction begins.
pub fn first_byte(instr: &Instr) -> u8
    ensures { result ≡ first_byte instr.now }
{
    match instr {
        Instr::Local { wide: true, .. } | Instr::Inc { wide: true, .. } => 196,
        Instr::Simple { op }
        | Instr::Push { op, .. }
        | Instr::Literal { op, .. }
        | Instr::Local { op, .. }
        | Instr::Branch { op, .. }
        | Instr::Member { op, .. }
        | Instr::Class { op, .. } => *op,
        Instr::Inc { .. } => 132,
        Instr::Table { .. } => 170,
        Instr::Lookup { .. } => 171,
        Instr::Interface { .. } => 185,
        Instr::Dynamic { .. } => 186,
        Instr::Array { .. } => 188,
        Instr::Multi { .. } => 197,
    }
}

/// What an instruction without operands does, by its opcode.
#[tactic(auto, unfolding(crate::specs::trusted::Instructions::simple))]
fn simple_action(op: u8) -> Action
    ensures { action_view result ≡ simple op }
{
    match op {
        0 => Action::Nop,
        1 => Action::Push(Value::Ref(0)),
        2..=8 => Action::Push(Value::Int(i32::from(op) - 3)),
        26..=29 => Action::Load(Kind::Int, u16::from(op - 26)),
        42..=45 => Action::Load(Kind::Ref, u16::from(op - 42)),
        51 => Action::LoadByte,
        59..=62 => Action::Store(Kind::Int, u16::from(op - 59)),
        75..=78 => Action::Store(Kind::Ref, u16::from(op - 75)),
        84 => Action::StoreByte,
        87 => Action::Pop,
        89 => Action::Dup,
        96 => Action::Compute(IntOperation::Add),
        100 => Action::Compute(IntOperation::Subtract),
        104 => Action::Compute(IntOperation::Multiply),
        126 => Action::Compute(IntOperation::And),
        128 => Action::Compute(IntOperation::Or),
        130 => Action::Compute(IntOperation::Xor),
        176 => Action::ReturnReference,
        190 => Action::ArrayLength,
        _ => Action::Other(op),
    }
}

/// What an instruction with a slot does.
fn local_action(op: u8, slot: u16) -> Action
    ensures { action_view result ≡ local_does local_rows op slot }
{
    match op {
        21 => Action::Load(Kind::Int, slot),
        25 => Action::Load(Kind::Ref, slot),
        54 => Action::Store(Kind::Int, slot),
        58 => Action::Store(Kind::Ref, slot),
        _ => Action::Other(op),
    }
}

/// What newarray does with a base type.
fn array_action(base: u8) -> Action
    ensures { action_view result ≡ new_array base }
{
    if base == 8 {
        Action::NewByteArray
    } else {
        Action::Other(188)
    }
}
