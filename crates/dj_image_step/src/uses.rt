ghost use Rattle.std.specs.Prelude.{◌≡◌, ◌<◌, Some, length, true, IfErr, IfOk, IsFalse};
ghost use Rattle.dj_model.specs.trusted.Types.{Member};
ghost use Rattle.dj_model.specs.trusted.Instructions as model;
ghost use Rattle.dj_model.specs.trusted.Instructions.{Instruction, Invoke, Named};
ghost use Rattle.dj_model.specs.trusted.Linking.{FoundMethod, resolve_method};
ghost use Rattle.dj_model.specs.trusted.Opcodes.{instruction_of};
ghost use Rattle.dj_model.specs.Sound.{IsSound};
ghost use Rattle.dj_numbering.specs.Members.{all_fields, all_methods};
ghost use Rattle.dj_image.specs.Imaged.{program_of};
ghost use Rattle.dj_image.specs.declared.operand.Operand.TheVariants as operands;
ghost use Rattle.dj_current_method.specs.Instructions.{HasInstruction, instruction_of_number};
ghost use Rattle.dj_invocation.specs.Choosing.{IsMethod, reported_mode};
ghost use Rattle.dj_image_effects.specs.Frugal.{LoadsByKnown, makes};
ghost use Rattle.dj_image_step.specs.Doing.{IsUsed};
ghost use Rattle.dj_image_step.specs.Uses.{IsOperandNamed, is_given};

use dj_current_method::instr_of;
use dj_image::{FieldId, Image, MethodId, Operand};
use dj_image_effects::{ClassUse, FieldUse, class_use, field_use};
use dj_invocation::{Mode, call_at};
use dj_ops::Instr;
use std::alloc::AllocError;

/// The class that the instruction of a number uses, which is initialised before it (JVMS 5.5); none where it uses none.
pub(crate) fn used_class(
    image: &Image,
    method: MethodId,
    number: u32,
) -> Result<Option<u32>, AllocError>
    requires sound { IsSound (program_of image.now) image.now.prefix }
    requires there { method.number < length (all_methods (program_of image.now)) }
    requires stands { HasInstruction image.now method.number number }
    ensures used { (i : Instruction) → instruction_of_number image.now method.number number ≡ Some i → IfOk result (IsUsed image.now i) }
    ensures frugal { (i : Instruction) → instruction_of_number image.now method.number number ≡ Some i → IsFalse (makes i)
        → LoadsByKnown image.now method.number number → IfErr result (λ _. ⊥) }
{
    match call_at(image, method, number) {
        Some(site) => Ok(called_class(image, site.mode, site.method)),
        None => operand_class(image, method, number),
    }
}

// The class that a call uses: that of the method, where it is static.

fn called_class(image: &Image, mode: Mode, method: MethodId) -> Option<u32>
    requires there { method.number < length (all_methods (program_of image.now)) }
    ensures { (called : model.Mode) (m : Member) (resolved : FoundMethod) → reported_mode called ≡ mode
        → resolve_method (program_of image.now) image.now.prefix m ≡ Some resolved → IsMethod (program_of image.now) method resolved → IsUsed image.now (Invoke called m) result }
{
    match mode {
        Mode::Static => Some(image.method(method).class),
        Mode::Virtual => None,
        Mode::Special => None,
        Mode::Interface => None,
    }
}

// The class that an instruction uses, which is no call, by its operand.
fn operand_class(image: &Image, method: MethodId, number: u32) -> Result<Option<u32>, AllocError>
    requires sound { IsSound (program_of image.now) image.now.prefix }
    requires there { method.number < length (all_methods (program_of image.now)) }
    requires stands { HasInstruction image.now method.number number }
    ensures used { (i : Instruction) → instruction_of_number image.now method.number number ≡ Some i → IfOk result (IsUsed image.now i) }
    ensures frugal { (i : Instruction) → instruction_of_number image.now method.number number ≡ Some i → IsFalse (makes i)
        → LoadsByKnown image.now method.number number → IfErr result (λ _. ⊥) }
{
    image.is_numbered();
    let instr = instr_of(image, method, number);
    let operand = image.operand(method, number);
    class_of_operand(image, instr, operand)
}

// The class that an instruction with this operand uses. There is no memory for the call of a method that isn't there; no sound program has one.

fn class_of_operand(
    image: &Image,
    instr: &Instr,
    operand: Operand,
) -> Result<Option<u32>, AllocError>
    requires { (named : Named) × IsOperandNamed image.now instr.now operand named }
    ensures used { (named : Named) → IsOperandNamed image.now instr.now operand named → IfOk result (IsUsed image.now (instruction_of instr.now named)) }
    ensures frugal { is_given operand ≡ true → IfErr result (λ _. ⊥) }
{
    match operand {
        Operand::Class(class) => Ok(new_class(image, instr, class)),
        Operand::Field(field) => Ok(static_class(image, instr, field)),
        Operand::Nothing => Ok(None),
        Operand::Int(_) => Ok(None),
        Operand::Long(_) => Ok(None),
        Operand::Text(_) => Ok(None),
        Operand::Method(_) => Err(AllocError),
        Operand::Unresolved => Err(AllocError),
    }
}

// That of an instruction on a class: only `new` uses it.

fn new_class(image: &Image, instr: &Instr, class: u32) -> Option<u32>
    ensures { (named : Named) → IsOperandNamed image.now instr.now (operands.Class class) named → IsUsed image.now (instruction_of instr.now named) result }
{
    match class_use(instr) {
        ClassUse::New => Some(class),
        ClassUse::NewArray => None,
        ClassUse::Cast => None,
        ClassUse::Instance => None,
        ClassUse::Other => None,
        ClassUse::Plain => None,
    }
}

// That of an instruction on a field: where it is static, the class that declares it.

fn static_class(image: &Image, instr: &Instr, field: FieldId) -> Option<u32>
    requires { field.number < length (all_fields (program_of image.now)) }
    ensures { (named : Named) → IsOperandNamed image.now instr.now (operands.Field field) named → IsUsed image.now (instruction_of instr.now named) result }
{
    match field_use(instr) {
        FieldUse::GetStatic => Some(image.field(field).class),
        FieldUse::PutStatic => Some(image.field(field).class),
        FieldUse::Get => None,
        FieldUse::Put => None,
        FieldUse::Neither => None,
    }
}
