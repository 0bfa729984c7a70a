ghost use Rattle.std.specs.Prelude.{◌≡◌, ◌+◌, ◌*◌, ◌^◌, ◌<◌, unwrap_or};
ghost use Rattle.dj_ops.specs.trusted.Forms.{form_of};
ghost use Rattle.dj_ops.specs.Forms.{operand_count};
ghost use Rattle.dj_ops.specs.trusted.Instructions.{IsProper, padding_count, length_at};

use crate::instruction::Instr;

/// How many bytes the instruction has at the address (JVMS chapter 6); those of a switch depend on it.
pub fn length(instr: &Instr, at: u32) -> u32
    requires proper { IsProper instr.now }
    requires fits { at + length_at at instr.now < 2 ^ 32 }
    ensures { result ≡ length_at at instr.now }
{
    match instr {
        Instr::Simple { .. } => 1,
        Instr::Push { op, .. } => 1 + operand_length(*op),
        Instr::Literal { op, .. } => 1 + operand_length(*op),
        Instr::Local { wide, .. } => if *wide { 4 } else { 2 },
        Instr::Inc { wide, .. } => if *wide { 6 } else { 3 },
        Instr::Branch { op, .. } => 1 + operand_length(*op),
        Instr::Table { targets, .. } => switch_length(at, 12, targets.as_slice().len(), 4),
        Instr::Lookup { pairs, .. } => switch_length(at, 8, pairs.as_slice().len(), 8),
        Instr::Member { .. } | Instr::Class { .. } => 3,
        Instr::Interface { .. } | Instr::Dynamic { .. } => 5,
        Instr::Array { .. } => 2,
        Instr::Multi { .. } => 4,
    }
}

/// How many bytes follow an opcode, where the opcode alone decides that, and else 0.
#[tactic(auto, unfolding(crate::specs::trusted::Forms::form_of))]
fn operand_length(op: u8) -> u32
    ensures { result ≡ unwrap_or (operand_count (form_of op)) 0 }
{
    match op {
        16 | 18 | 21..=25 | 54..=58 | 169 | 188 => 1,
        17 | 19..=20 | 132 | 153..=168 | 178..=184 | 187 | 189 | 192..=193 | 198..=199 => 2,
        197 => 3,
        185..=186 | 200..=201 => 4,
        _ => 0,
    }
}

/// The bytes of a switch with this many bytes before the entries, and of this many entries.
fn switch_length(at: u32, head: u32, count: usize, each: u32) -> u32
    requires fits { at + (1 + padding_count at + head + count * each) < 2 ^ 32 }
    requires some { 0 < each }
    ensures { result ≡ 1 + padding_count at + head + count * each }
{
    1 + (3 - at % 4) + head + count as u32 * each
}
