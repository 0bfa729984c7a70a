//! Instructions and their bytes (JVMS chapter 6), exception tables, and the frames of stack maps.
#![tactic(auto)]

mod frames;
mod instrs;
mod instruction;
mod laws;
mod lengths;
mod lists;
mod matches;
mod operands;
mod read;
mod rows;
mod starts;
mod switches;
mod write;
mod write_switches;

pub use frames::{Form, Frame, Frames, VType, VTypes};
pub use instrs::Instrs;
pub use instruction::Instr;
pub use laws::{
    instruction_or_refusal, next_address, no_instruction_where_refused, one_instruction,
    one_refusal, spelled_length, written_spells, written_stands,
};
pub use lengths::length;
pub use lists::{Pairs, Targets};
pub use read::{OpError, read_instr};
pub use rows::{CatchRow, CatchRows};
pub use starts::Starts;
pub use write::write_instr;
