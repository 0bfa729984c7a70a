ghost use Rattle.std.specs.Prelude.{◌≡◌, ◌<◌, true, length, IfSome};
ghost use Rattle.std.specs.Option.{option_map};
ghost use Rattle.dj_model.specs.trusted.Types.{Prefix};
ghost use Rattle.dj_model.specs.trusted.Instructions as model;
ghost use Rattle.dj_model.specs.Instructions as more_model;
ghost use Rattle.dj_model.specs.trusted.Opcodes.{instruction_of};
ghost use Rattle.dj_model.specs.trusted.Program.{Program};
ghost use Rattle.dj_model.specs.Sound.{IsSound, is_linked};
ghost use Rattle.dj_numbering.specs.Members.{all_methods};
ghost use Rattle.dj_image.specs.Imaged.{program_of};
ghost use Rattle.dj_current_method.specs.Instructions.{HasInstruction};
ghost use Rattle.dj_invocation.specs.Operands.{parameters_in};
ghost use Rattle.dj_invocation.specs.Sites.{AreParametersAt, IsCallAt, call_index, call_mode, call_named, desc_index, opcode_mode};

use crate::choosing::Mode;
use dj_current_method::{instr_in, instr_of};
use dj_image::{Image, MethodCode, MethodId, Operand};
use dj_names::Kind;
use dj_ops::Instr;
use dj_shape_rule::{ConstantKind, PoolKinds};

/// What a call instruction names.
#[derive(Debug, Drop)]
pub struct CallSite<'i> {
    pub mode: Mode,
    /// The method to which the instruction resolves.
    pub method: MethodId,
    /// The kinds of its parameters.
    pub kinds: &'i [Kind],
}

// How the instruction of an opcode calls, except invokeinterface; none where it is no call.
fn opcode_mode(op: u8) -> Option<Mode>
    ensures { result ≡ opcode_mode op }
{
    match op {
        182 => Some(Mode::Virtual),
        183 => Some(Mode::Special),
        184 => Some(Mode::Static),
        _ => None,
    }
}

// How an instruction calls; none where it is no call.
fn call_mode(instr: &Instr) -> Option<Mode>
    ensures { result ≡ call_mode instr.now }
{
    match instr {
        Instr::Member { op, index: _ } => opcode_mode(*op),
        Instr::Interface { index: _, count: _ } => Some(Mode::Interface),
        _ => None,
    }
}

/// Whether an instruction is a call; it has to be linked, as each instruction of a sound program is.
#[tactic(auto, using(crate::proofs::CallForms::call_linked))]
pub fn is_call(instr: &Instr) -> bool
    ensures { (program : Program) (prefix : Prefix) (named : model.Named) → is_linked program prefix (instruction_of instr.now named) ≡ true
        → result ≡ more_model.calls (instruction_of instr.now named) }
{
    call_mode(instr).is_some()
}

// The index of the constant that a call names.
fn call_index(instr: &Instr) -> Option<u16>
    ensures { result ≡ call_index instr.now }
{
    match instr {
        Instr::Member { op: _, index } => Some(*index),
        Instr::Interface { index, count: _ } => Some(*index),
        _ => None,
    }
}

// The index of the descriptor of a method.
fn desc_index(constant: ConstantKind) -> Option<u16>
    ensures { result ≡ desc_index constant }
{
    match constant {
        ConstantKind::Method(index) => Some(index),
        ConstantKind::InterfaceMethod(index) => Some(index),
        _ => None,
    }
}

// The kinds of the parameters of the method that the constant at an index names; none where it names none, or one with floats or doubles.
fn parameters_named(kinds: &PoolKinds, index: u16) -> Option<&[Kind]>
    ensures { option_map (λ reported. reported.now) result ≡ parameters_in (call_named kinds.now index) }
{
    let desc = desc_index(kinds.constant(index))?;
    let call = kinds.call(desc)?;
    Some(call.parameters())
}

// The kinds of the parameters of the call of the instruction of a number in code.
fn parameters_at<'i>(kinds: &'i PoolKinds, code: &MethodCode, number: u32) -> Option<&'i [Kind]>
    ensures { IfSome result (λ reported. AreParametersAt code.now kinds.now number reported.now) }
{
    let instr = instr_in(code, number)?;
    let index = call_index(instr)?;
    parameters_named(kinds, index)
}

/// The call of the instruction of a number in a method with code; none where it is no call, and never for a call in a sound program.
/// Where the answer is none, nothing is promised.
pub fn call_at<'i>(image: &'i Image, caller: MethodId, number: u32) -> Option<CallSite<'i>>
    requires sound { IsSound (program_of image.now) image.now.prefix }
    requires there { caller.number < length (all_methods (program_of image.now)) }
    requires stands { HasInstruction image.now caller.number number }
    ensures calls { IfSome result (IsCallAt image.now caller.number number) }
{
    let mode = call_mode(instr_of(image, caller, number))?;
    let Operand::Method(method) = image.operand(caller, number) else {
        return None;
    };
    let parts = image.shape_parts(caller)?;
    let kinds = parameters_at(parts.kinds, parts.code, number)?;
    Some(CallSite {
        mode,
        method,
        kinds,
    })
}
