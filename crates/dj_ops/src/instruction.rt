use crate::lists::{Pairs, Targets};

/// An instruction (JVMS chapter 6). A target is an address of the code, and an index is one of the pool.
#[derive(Debug, Drop)]
pub enum Instr {
    /// No operand.
    Simple {
        op: u8,
    },
    /// A number that is pushed: bipush and sipush.
    Push {
        op: u8,
        value: i16,
    },
    /// A constant that is pushed: ldc, ldc_w and ldc2_w.
    Literal {
        op: u8,
        index: u16,
    },
    /// A local variable is loaded or stored, or ret. Where it is wide, the slot has two bytes.
    Local {
        op: u8,
        slot: u16,
        wide: bool,
    },
    /// A number is added to a local variable: iinc.
    Inc {
        slot: u16,
        by: i16,
        wide: bool,
    },
    /// A jump.
    Branch {
        op: u8,
        target: i64,
    },
    /// A jump by a table from low on: tableswitch.
    Table {
        low: i32,
        default: i64,
        targets: Targets,
    },
    /// A jump by matches: lookupswitch.
    Lookup {
        default: i64,
        pairs: Pairs,
    },
    /// A field or a method, except by invokeinterface and invokedynamic.
    Member {
        op: u8,
        index: u16,
    },
    /// invokeinterface.
    Interface {
        index: u16,
        count: u8,
    },
    /// invokedynamic.
    Dynamic {
        index: u16,
    },
    /// A class: new, anewarray, checkcast and instanceof.
    Class {
        op: u8,
        index: u16,
    },
    /// An array of this base type: newarray.
    Array {
        base: u8,
    },
    /// multianewarray.
    Multi {
        index: u16,
        dims: u8,
    },
}
