//! What lines mean.
use crate::frame_types::FrameTypes;
use crate::targets::{Labels, Pairs};
use dj_asm_tokens::{Quoted, Text, Word};

/// The constant of a field.
#[derive(Clone, Copy)]
pub enum Value<'t> {
    Int(i32),
    Long(i64),
    String(Quoted<'t>),
}

/// What ldc pushes.
#[derive(Drop)]
pub enum Literal<'t> {
    Int(i32),
    String(Quoted<'t>),
    Class(Text<'t>),
}

/// A type of a stack map frame that one word names.
#[derive(Clone, Copy)]
pub enum SimpleType {
    Top,
    Int,
    Float,
    Double,
    Long,
    Null,
    This,
}

/// A type of a stack map frame (JVMS 4.7.4).
#[derive(Drop)]
pub enum FrameType<'t> {
    Simple(SimpleType),
    /// A type that names a class or an array.
    Object(Text<'t>),
    /// What the `new` at the label made.
    New(Word<'t>),
}

/// A frame of a stack map.
#[derive(Drop)]
pub enum Frame<'t> {
    Same,
    Stack1(FrameType<'t>),
    /// This many local variables are dropped.
    Chop(u8),
    Append(FrameTypes<'t>),
    Full {
        locals: FrameTypes<'t>,
        stack: FrameTypes<'t>,
    },
}

/// An instruction; where several opcodes have one form, the opcode says which.
#[derive(Drop)]
pub enum Operation<'t> {
    Plain {
        op: u8,
    },
    Push {
        op: u8,
        value: i16,
    },
    /// Whether `wide` comes before it, and the local variable.
    Local {
        wide: bool,
        op: u8,
        slot: u16,
    },
    Increment {
        wide: bool,
        slot: u16,
        by: i16,
    },
    Load {
        op: u8,
        literal: Literal<'t>,
    },
    LoadLong(i64),
    Jump {
        op: u8,
        target: Word<'t>,
    },
    /// The lowest match, the targets and the default.
    Table {
        low: i32,
        targets: Labels<'t>,
        default: Word<'t>,
    },
    /// Matches with their targets, and the default.
    Lookup {
        pairs: Pairs<'t>,
        default: Word<'t>,
    },
    /// Whether `interface` comes after the descriptor.
    Member {
        op: u8,
        class: Text<'t>,
        name: Text<'t>,
        desc: Text<'t>,
        interface: bool,
    },
    Dynamic {
        index: u16,
        name: Text<'t>,
        desc: Text<'t>,
    },
    ClassOf {
        op: u8,
        class: Text<'t>,
    },
    Array {
        base: u8,
    },
    Multi {
        desc: Text<'t>,
        dims: u8,
    },
}

/// What a line means.
#[derive(Drop)]
pub enum Line<'t> {
    Class {
        flags: u16,
        name: Text<'t>,
    },
    Version {
        major: u16,
        minor: u16,
    },
    Super(Text<'t>),
    Implements(Text<'t>),
    Field {
        flags: u16,
        name: Text<'t>,
        desc: Text<'t>,
        value: Option<Value<'t>>,
    },
    Abstract {
        flags: u16,
        name: Text<'t>,
        desc: Text<'t>,
    },
    Method {
        flags: u16,
        name: Text<'t>,
        desc: Text<'t>,
    },
    Stack(u16),
    Locals(u16),
    Label(Word<'t>),
    Catch {
        class: Option<Text<'t>>,
        from: Word<'t>,
        to: Word<'t>,
        handler: Word<'t>,
    },
    Frame(Frame<'t>),
    Does(Operation<'t>),
    End,
}
