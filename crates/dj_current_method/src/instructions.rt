ghost use Rattle.std.specs.Prelude.{◌≡◌, ◌<◌, length, slice_get};
ghost use Rattle.std.specs.Option.{option_map};
ghost use Rattle.dj_model.specs.trusted.Instructions.{Named};
ghost use Rattle.dj_model.specs.Sound.{IsSound};
ghost use Rattle.dj_numbering.specs.Members.{all_methods};
ghost use Rattle.dj_image.specs.Imaged.{program_of};
ghost use Rattle.dj_current_method.specs.Instructions.{HasInstruction, IsInstrAt};

use crate::methods::code_of;
use dj_image::{Image, MethodCode, MethodId};
use dj_ops::Instr;

/// The instruction of a number in code.
pub fn instr_in(code: &MethodCode, number: u32) -> Option<&Instr>
    ensures { option_map (λ instr. instr.now) result ≡ slice_get code.now.code.code number }
{
    code.code.code.as_slice().get(number as usize)
}

/// The instruction of a number in a method of an image.
pub fn instr_of(image: &Image, method: MethodId, number: u32) -> &Instr
    requires sound { IsSound (program_of image.now) image.now.prefix }
    requires there { method.number < length (all_methods (program_of image.now)) }
    requires stands { HasInstruction image.now method.number number }
    ensures { (named : Named) × IsInstrAt image.now method.number number result.now named }
{
    let Some(code) = code_of(image, method) else {
        unreachable!()
    };
    match instr_in(code, number) {
        Some(instr) => instr,
        None => unreachable!(),
    }
}
