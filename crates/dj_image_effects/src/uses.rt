ghost use Rattle.std.specs.Prelude.{◌≡◌};
ghost use Rattle.dj_image_effects.specs.Uses.{class_use, class_use_of, field_use, field_use_of};

use dj_ops::Instr;

/// What an instruction does with the field that it names.
#[derive(Clone, Copy)]
pub enum FieldUse {
    GetStatic,
    PutStatic,
    Get,
    Put,
    Neither,
}

/// What an instruction does with a class.
#[derive(Clone, Copy)]
pub enum ClassUse {
    New,
    /// It makes an array of the class.
    NewArray,
    Cast,
    Instance,
    /// It isn't run.
    Other,
    /// It names no class.
    Plain,
}

/// What an instruction does with a field, by its opcode.
pub fn field_use(instr: &Instr) -> FieldUse
    ensures { result ≡ field_use instr.now }
{
    match instr {
        Instr::Member { op, .. } => field_use_of(*op),
        _ => FieldUse::Neither,
    }
}

fn field_use_of(op: u8) -> FieldUse
    ensures { result ≡ field_use_of op }
{
    match op {
        178 => FieldUse::GetStatic,
        179 => FieldUse::PutStatic,
        180 => FieldUse::Get,
        181 => FieldUse::Put,
        _ => FieldUse::Neither,
    }
}

/// What an instruction does with a class, by its opcode.
pub fn class_use(instr: &Instr) -> ClassUse
    ensures { result ≡ class_use instr.now }
{
    match instr {
        Instr::Class { op, .. } => class_use_of(*op),
        Instr::Literal { .. }
        | Instr::Member { .. }
        | Instr::Interface { .. }
        | Instr::Dynamic { .. }
        | Instr::Multi { .. } => ClassUse::Other,
        _ => ClassUse::Plain,
    }
}

fn class_use_of(op: u8) -> ClassUse
    ensures { result ≡ class_use_of op }
{
    match op {
        187 => ClassUse::New,
        189 => ClassUse::NewArray,
        192 => ClassUse::Cast,
        193 => ClassUse::Instance,
        _ => ClassUse::Other,
    }
}
