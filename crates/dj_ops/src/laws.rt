ghost use Rattle.dj_ops.specs.Laws.{OneInstruction, WrittenSpells, WrittenStands, SpelledLength, NextAddress, OneRefusal, NoInstructionWhereRefused, InstructionOrRefusal};

/// At an address there is at most one instruction.
pub fn one_instruction()
    ensures { OneInstruction }
{}

/// What is written spells the instruction.
pub fn written_spells()
    ensures { WrittenSpells }
{}

/// What is written between other bytes is read again at its place.
pub fn written_stands()
    ensures { WrittenStands }
{}

/// An instruction has one length at an address, however it is padded.
pub fn spelled_length()
    ensures { SpelledLength }
{}

/// The address after an instruction is its own address and its length.
pub fn next_address()
    ensures { NextAddress }
{}

/// At an address there is at most one refusal.
pub fn one_refusal()
    ensures { OneRefusal }
{}

/// Where there is a refusal there is no instruction.
pub fn no_instruction_where_refused()
    ensures { NoInstructionWhereRefused }
{}

/// At an address there is an instruction or a refusal.
pub fn instruction_or_refusal()
    ensures { InstructionOrRefusal }
{}
