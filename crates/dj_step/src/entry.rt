ghost use Rattle.std.specs.Prelude.{◌≡◌, ◌<◌, length, IfOk, IfErr};
ghost use Rattle.dj_model.specs.Sound.{IsSound};
ghost use Rattle.dj_model.specs.Standing.{IsEntry};
ghost use Rattle.dj_numbering.specs.Members.{all_methods};
ghost use Rattle.dj_image.specs.Imaged.{program_of};
ghost use Rattle.dj_current_method.specs.Activations.{declared_at};
ghost use Rattle.dj_step.specs.Running.{HoldsEntry};
ghost use Rattle.dj_step.specs.declared.answers.StartError.TheVariants as starts;

use crate::answers::StartError;
use dj_current_method::code_of;
use dj_image::{Image, MethodId};
use dj_names::Value;
use dj_stack::Frames;
use std::alloc::Global;

// The frame of the entry alone, with the first object as its argument.
#[tactic(auto, using(crate::proofs::StartLaws::entry_room, crate::proofs::StartLaws::entry_holds, crate::proofs::StartLaws::entry_runs))]
pub(crate) fn entry_frames(
    alloc: Global,
    image: &Image,
    entry: MethodId,
) -> Result<Frames, StartError>
    requires sound { IsSound (program_of image.now) image.now.prefix }
    requires method { entry.number < length (all_methods (program_of image.now)) }
    requires entry { IsEntry (program_of image.now) (declared_at (program_of image.now) entry.number) }
    ensures holds { IfOk result (HoldsEntry image.now entry.number) }
    ensures memory { IfErr result (λ e. e ≡ starts.Memory) }
{
    let Some(code) = code_of(image, entry) else {
        unreachable!()
    };
    let mut frames = Frames::new(alloc);
    let Ok(()) = frames.push(entry.number, code.max_locals, code.max_stack) else {
        return Err(StartError::Memory);
    };
    frames.set_local(0, Some(Value::Ref(1)));
    Ok(frames)
}
