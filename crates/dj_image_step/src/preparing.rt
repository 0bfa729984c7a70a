ghost use Rattle.std.specs.Prelude.{IfErr, IfOk};
ghost use Rattle.dj_image_step.specs.Running.{IsKept, IsRunning};
ghost use Rattle.dj_image_step.specs.Doing.{PreparesNext};
ghost use Rattle.dj_image_step.specs.Frugal.{IsFrugalRun};

use crate::frames::top_of;
use crate::run::Run;
use crate::tables::Tables;
use crate::uses::used_class;
use dj_image::Image;
use dj_initialisation::{Prepared, initialise};
use std::alloc::{AllocError, Global};

/// The class that the top frame's next instruction uses is initialised (JVMS 5.5).
#[tactic(auto, using(crate::proofs::Prepared::prepared_then, crate::proofs::Prepared::prepared_already))]
pub(crate) fn prepare(
    alloc: Global,
    image: &Image,
    tables: &Tables,
    run: &mut Run,
) -> Result<Prepared, AllocError>
    requires kept { IsKept image.now tables.now }
    requires running { IsRunning image.now run.old }
    ensures prepares { IfOk result (PreparesNext image.now run.old run.new) }
    ensures frugal { IsFrugalRun image.now run.old → IfErr result (λ _. ⊥) }
{
    let top = top_of(image, &run.frames);
    match used_class(image, top.method, top.number)? {
        Some(class) => {
            if run.flags.has_begun(class) {
                return Ok(Prepared::Ready);
            }
            initialise(
                alloc,
                image,
                &tables.places,
                &tables.initialisers,
                &mut run.flags,
                &mut run.statics,
                &mut run.literals,
                &mut run.heap,
                &mut run.frames,
                class,
            )
        }
        None => Ok(Prepared::Ready),
    }
}
